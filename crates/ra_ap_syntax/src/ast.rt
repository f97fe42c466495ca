//! Typed views of nodes and tokens, with the names of rust-analyzer's `syntax::ast`. Made by
//! `tools/views` from `views.txt`.

mod expr_ext;
mod node_ext;
pub mod operators;
pub mod prec;
mod traits;
mod typed;
mod views;
mod within;

pub use expr_ext::{ArgsMaybeEmpty, ArrayExprKind, BlockModifier, FieldKind, RangeItem};
pub use operators::{ArithOp, BinaryOp, CmpOp, LogicOp, Ordering, RangeOp, UnaryOp};
pub(crate) use ras_node::support;
pub use ras_node::{AstChildren, AstNode, AstToken, cast_ref};
pub use ras_token_ext::{
    AttrKind, CommentKind, CommentShape, IntError, QuoteOffsets, Radix, ValueError,
};
pub use ras_tokens::tokens::{
    Byte, ByteString, CString, Char, Comment, FloatNumber, IntNumber, String, Whitespace,
};
pub use ras_tokens::{AnyComment, AnyString, IsString, LiteralKind, TypedToken};
pub(crate) use syntax_kind::raw;
pub use traits::{HasAttrs, HasLoopBody, attrs_including_inner, attrs_with_doc_including_inner};
pub use typed::Typed;
pub use views::adt::Adt;
pub use views::any_attr::AnyAttr;
pub use views::any_has_attrs::AnyHasAttrs;
pub use views::any_has_generic_params::AnyHasGenericParams;
pub use views::assoc_item::AssocItem;
pub use views::callable_expr::CallableExpr;
pub use views::else_branch::ElseBranch;
pub use views::expr::Expr;
pub use views::extern_item::ExternItem;
pub use views::generic_arg::GenericArg;
pub use views::generic_param::GenericParam;
pub use views::item::Item;
pub use views::macros::Macro;
pub use views::meta::Meta;
pub use views::name_like::NameLike;
pub use views::name_or_name_ref::NameOrNameRef;
pub use views::pat::Pat;
pub use views::stmt::Stmt;
pub use views::traits::{
    HasArgList, HasGenericArgs, HasGenericParams, HasModuleItem, HasName, HasTypeBounds,
    HasVisibility,
};
pub use views::ty::Type;
pub use views::type_or_const_param::TypeOrConstParam;
pub use within::Within;
// The formatter would write this many names one per line.
#[rattlefmt::skip]
pub use node_ext::{
    AttrsIter, AttrsWithDoc, CfgAtomKey, Commas, LifetimeArgs, LifetimeBounds, LifetimeParams,
    PathSegmentKind, Qualifiers, Segments, SelfParamKind, SlicePatComponents, Statements,
    StructKind, TokenTreeChildren, TokenTreesAndTokens, TypeBoundKind, TypeOrConstParams,
    VisibilityKind,
};
// The formatter would write this many names one per line.
#[rattlefmt::skip]
pub use views::kinds::{
    Abi, ArgList, ArrayExpr, ArrayType, AsmExpr, AssocItemList, AssocTypeArg, Attr, AwaitExpr,
    BecomeExpr, BinExpr, BlockExpr, BoxPat, BreakExpr, CallExpr, CastExpr, CfgAtom, CfgAttrMeta,
    CfgMeta, CfgPredExpr, ClosureExpr, Const, ConstArg, ConstBlockPat, ConstParam, ContinueExpr,
    DocComment, DynTraitType, Enum, ExprStmt, ExternBlock, ExternCrate, ExternItemList, FieldExpr,
    Fn, FnPtrType, ForBinder, ForExpr, ForType, FormatArgsArg, FormatArgsExpr, GenericArgList,
    GenericParamList, IdentPat, IfExpr, Impl, ImplTraitType, IncludeBytesExpr, IndexExpr,
    InferType, ItemList, KeyValueMeta, Label, LetElse, LetExpr, LetStmt, Lifetime, LifetimeArg,
    LifetimeParam, Literal, LiteralPat, LoopExpr, MacroCall, MacroDef, MacroExpr, MacroPat,
    MacroRules, MacroStmts, MacroType, MatchArm, MatchArmList, MatchExpr, MatchGuard,
    MethodCallExpr, Module, Name, NameRef, NeverType, OffsetOfExpr, OrPat, Param, ParamList,
    ParenExpr, ParenPat, ParenType, Path, PathExpr, PathMeta, PathPat, PathSegment, PathType,
    PrefixExpr, PtrType, RangeExpr, RangePat, RecordExpr, RecordExprField, RecordField,
    RecordFieldList, RecordPat, RecordPatField, RefExpr, RefPat, RefType, RestPat, RetType,
    ReturnExpr, SelfParam, SlicePat, SliceType, SourceFile, Static, StmtList, Struct, TokenTree,
    TokenTreeMeta, Trait, TryBlockModifier, TryExpr, TupleExpr, TupleField, TupleFieldList,
    TuplePat, TupleStructPat, TupleType, TypeAlias, TypeAnchor, TypeArg, TypeBound, TypeBoundList,
    TypeParam, UnderscoreExpr, Union, UnsafeMeta, Use, UseBoundGenericArgs, UseTree, UseTreeList,
    Variant, Visibility, VisibilityInner, WhereClause, WherePred, WhileExpr, WildcardPat, YeetExpr,
    YieldExpr,
};
