//! Which views have which of the shared traits. Made by `tools/views` from `views.txt`.
use crate::ast::{
    self, HasArgList, HasAttrs, HasGenericArgs, HasGenericParams, HasLoopBody, HasModuleItem,
    HasName, HasTypeBounds, HasVisibility,
};
use either::Either;

impl HasName for ast::Const {}

impl HasName for ast::ConstParam {}

impl HasName for ast::Enum {}

impl HasName for ast::Fn {}

impl HasName for ast::IdentPat {}

impl HasName for ast::Macro {}

impl HasName for ast::MacroDef {}

impl HasName for ast::MacroRules {}

impl HasName for ast::Module {}

impl HasName for ast::RecordField {}

impl HasName for ast::SelfParam {}

impl HasName for ast::Static {}

impl HasName for ast::Struct {}

impl HasName for ast::Trait {}

impl HasName for ast::TypeAlias {}

impl HasName for ast::TypeParam {}

impl HasName for ast::Union {}

impl HasName for ast::Variant {}

impl<L: HasName, R: HasName> HasName for Either<L, R> {}

impl HasVisibility for ast::Const {}

impl HasVisibility for ast::Enum {}

impl HasVisibility for ast::ExternCrate {}

impl HasVisibility for ast::Fn {}

impl HasVisibility for ast::Impl {}

impl HasVisibility for ast::MacroDef {}

impl HasVisibility for ast::MacroRules {}

impl HasVisibility for ast::Module {}

impl HasVisibility for ast::RecordField {}

impl HasVisibility for ast::Static {}

impl HasVisibility for ast::Struct {}

impl HasVisibility for ast::Trait {}

impl HasVisibility for ast::TupleField {}

impl HasVisibility for ast::TypeAlias {}

impl HasVisibility for ast::Union {}

impl HasVisibility for ast::Use {}

impl HasVisibility for ast::Variant {}

impl HasLoopBody for ast::ForExpr {}

impl HasLoopBody for ast::LoopExpr {}

impl HasLoopBody for ast::WhileExpr {}

impl HasArgList for ast::CallExpr {}

impl HasArgList for ast::CallableExpr {}

impl HasArgList for ast::MethodCallExpr {}

impl HasModuleItem for ast::ItemList {}

impl HasModuleItem for ast::SourceFile {}

impl HasModuleItem for ast::StmtList {}

impl HasGenericParams for ast::AnyHasGenericParams {}

impl HasGenericParams for ast::Enum {}

impl HasGenericParams for ast::Fn {}

impl HasGenericParams for ast::Impl {}

impl HasGenericParams for ast::Struct {}

impl HasGenericParams for ast::Trait {}

impl HasGenericParams for ast::TypeAlias {}

impl HasGenericParams for ast::Union {}

impl HasGenericArgs for ast::AssocTypeArg {}

impl HasGenericArgs for ast::MethodCallExpr {}

impl HasGenericArgs for ast::PathSegment {}

impl HasTypeBounds for ast::AssocTypeArg {}

impl HasTypeBounds for ast::LifetimeParam {}

impl HasTypeBounds for ast::Trait {}

impl HasTypeBounds for ast::TypeAlias {}

impl HasTypeBounds for ast::TypeParam {}

impl HasTypeBounds for ast::WherePred {}

impl HasAttrs for ast::Adt {}

impl HasAttrs for ast::AnyHasAttrs {}

impl HasAttrs for ast::ArrayExpr {}

impl HasAttrs for ast::AsmExpr {}

impl HasAttrs for ast::AssocItem {}

impl HasAttrs for ast::AssocItemList {}

impl HasAttrs for ast::AwaitExpr {}

impl HasAttrs for ast::BecomeExpr {}

impl HasAttrs for ast::BinExpr {}

impl HasAttrs for ast::BlockExpr {}

impl HasAttrs for ast::BreakExpr {}

impl HasAttrs for ast::CallExpr {}

impl HasAttrs for ast::CallableExpr {}

impl HasAttrs for ast::CastExpr {}

impl HasAttrs for ast::CfgPredExpr {}

impl HasAttrs for ast::ClosureExpr {}

impl HasAttrs for ast::Const {}

impl HasAttrs for ast::ConstParam {}

impl HasAttrs for ast::ContinueExpr {}

impl HasAttrs for ast::Enum {}

impl HasAttrs for ast::Expr {}

impl HasAttrs for ast::ExternBlock {}

impl HasAttrs for ast::ExternCrate {}

impl HasAttrs for ast::ExternItem {}

impl HasAttrs for ast::ExternItemList {}

impl HasAttrs for ast::FieldExpr {}

impl HasAttrs for ast::Fn {}

impl HasAttrs for ast::ForExpr {}

impl HasAttrs for ast::FormatArgsExpr {}

impl HasAttrs for ast::GenericParam {}

impl HasAttrs for ast::IfExpr {}

impl HasAttrs for ast::Impl {}

impl HasAttrs for ast::IncludeBytesExpr {}

impl HasAttrs for ast::IndexExpr {}

impl HasAttrs for ast::Item {}

impl HasAttrs for ast::ItemList {}

impl HasAttrs for ast::LetExpr {}

impl HasAttrs for ast::LetStmt {}

impl HasAttrs for ast::LifetimeParam {}

impl HasAttrs for ast::Literal {}

impl HasAttrs for ast::LoopExpr {}

impl HasAttrs for ast::Macro {}

impl HasAttrs for ast::MacroCall {}

impl HasAttrs for ast::MacroDef {}

impl HasAttrs for ast::MacroExpr {}

impl HasAttrs for ast::MacroRules {}

impl HasAttrs for ast::MatchArm {}

impl HasAttrs for ast::MatchArmList {}

impl HasAttrs for ast::MatchExpr {}

impl HasAttrs for ast::MethodCallExpr {}

impl HasAttrs for ast::Module {}

impl HasAttrs for ast::OffsetOfExpr {}

impl HasAttrs for ast::Param {}

impl HasAttrs for ast::ParenExpr {}

impl HasAttrs for ast::PathExpr {}

impl HasAttrs for ast::PrefixExpr {}

impl HasAttrs for ast::RangeExpr {}

impl HasAttrs for ast::RecordExpr {}

impl HasAttrs for ast::RecordExprField {}

impl HasAttrs for ast::RecordField {}

impl HasAttrs for ast::RecordPatField {}

impl HasAttrs for ast::RefExpr {}

impl HasAttrs for ast::ReturnExpr {}

impl HasAttrs for ast::SelfParam {}

impl HasAttrs for ast::SourceFile {}

impl HasAttrs for ast::Static {}

impl HasAttrs for ast::StmtList {}

impl HasAttrs for ast::Struct {}

impl HasAttrs for ast::Trait {}

impl HasAttrs for ast::TryExpr {}

impl HasAttrs for ast::TupleExpr {}

impl HasAttrs for ast::TupleField {}

impl HasAttrs for ast::TypeAlias {}

impl HasAttrs for ast::TypeOrConstParam {}

impl HasAttrs for ast::TypeParam {}

impl HasAttrs for ast::UnderscoreExpr {}

impl HasAttrs for ast::Union {}

impl HasAttrs for ast::Use {}

impl HasAttrs for ast::Variant {}

impl HasAttrs for ast::WhileExpr {}

impl HasAttrs for ast::YeetExpr {}

impl HasAttrs for ast::YieldExpr {}

impl<L: HasAttrs, R: HasAttrs> HasAttrs for Either<L, R> {}
