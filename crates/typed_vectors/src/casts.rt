//! Which kinds each type of the typed layer can be cast from: a table over all kinds and
//! `OTHER(0)`.
use either::Either;
use lossless_tree::KINDS;
use ra_ap_syntax::ast::{self, AstNode, AstToken};
use ra_ap_syntax::{SyntaxElement, SyntaxKind, SyntaxNode, SyntaxToken, TreeBuilder};
use rust_views::{
    AnyHasArgList, AnyHasGenericArgs, AnyHasLoopBody, AnyHasModuleItem, AnyHasName,
    AnyHasTypeBounds, AnyHasVisibility,
};
use std::test::Fail;

fn add_nodes(builder: &mut TreeBuilder) -> Result<(), Fail> {
    for kind in &KINDS {
        builder.start_node(*kind)?;
        builder.finish_node()?;
    }
    Ok(())
}

fn add_tokens(builder: &mut TreeBuilder) -> Result<(), Fail> {
    for kind in &KINDS {
        builder.token(*kind, "")?;
    }
    Ok(())
}

// An empty node and an empty token of each kind, and of one that is none of them.
fn add_all(builder: &mut TreeBuilder) -> Result<(), Fail> {
    builder.start_node(SyntaxKind::OTHER(1))?;
    add_nodes(builder)?;
    builder.start_node(SyntaxKind::OTHER(0))?;
    builder.finish_node()?;
    add_tokens(builder)?;
    builder.token(SyntaxKind::OTHER(0), "")?;
    Ok(builder.finish_node()?)
}

// A tree whose root holds an empty node and an empty token of each kind.
fn all_kinds(rt: &HostRuntime) -> Result<SyntaxNode, Fail> {
    let mut builder = TreeBuilder::new(rt.alloc());
    add_all(&mut builder)?;
    Ok(builder.finish()?)
}

// Whether a kind is among these names.
fn is_listed(kind: SyntaxKind, names: &str) -> bool {
    match kind.name() {
        Some(name) => names.split(' ').any(|listed| listed == name),
        None => false,
    }
}

// Each of the names is one of a kind.
fn are_kinds(names: &str) -> bool {
    names
        .split(' ')
        .all(|name| SyntaxKind::from_name(name).is_some())
}

// The cast gives a view of the node exactly if the node's kind is among the names.
fn is_view_by_name<N: AstNode + Drop>(view: Option<N>, node: &SyntaxNode, is_named: bool) -> bool {
    match view {
        Some(it) => is_named && *it.syntax() == *node,
        None => !is_named,
    }
}

fn is_cast_by_name<N: AstNode + Drop>(node: &SyntaxNode, names: &str) -> bool {
    let is_named = is_listed(node.kind(), names);
    match node.clone() {
        Ok(copy) => {
            N::can_cast(node.kind()) == is_named && is_view_by_name(N::cast(copy), node, is_named)
        }
        Err(_) => false,
    }
}

fn is_cast_from<N: AstNode + Drop>(root: &SyntaxNode, names: &str) -> bool {
    for node in root.children() {
        if !is_cast_by_name::<N>(&node, names) {
            return false;
        }
    }
    are_kinds(names)
}

// The cast gives a view of the token exactly if the token's kind is among the names.
fn is_token_by_name<T: AstToken + Drop>(
    view: Option<T>,
    token: &SyntaxToken,
    is_named: bool,
) -> bool {
    match view {
        Some(it) => is_named && *it.syntax() == *token,
        None => !is_named,
    }
}

fn is_token_cast_by_name<T: AstToken + Drop>(token: &SyntaxToken, names: &str) -> bool {
    let is_named = is_listed(token.kind(), names);
    match token.clone() {
        Ok(copy) => {
            T::can_cast(token.kind()) == is_named
                && is_token_by_name(T::cast(copy), token, is_named)
        }
        Err(_) => false,
    }
}

fn is_cast_from_tokens<T: AstToken + Drop>(root: &SyntaxNode, names: &str) -> bool {
    for token in root
        .children_with_tokens()
        .filter_map(SyntaxElement::into_token)
    {
        if !is_token_cast_by_name::<T>(&token, names) {
            return false;
        }
    }
    are_kinds(names)
}

// Tests of casts from all children of a root; `wrong` has the kinds of a type whose casts were not
// as expected.
#[derive(Drop)]
struct Casts<'r> {
    root: &'r SyntaxNode,
    wrong: Option<&'static str>,
}

impl<'r> Casts<'r> {
    fn below(root: &'r SyntaxNode) -> Casts<'r> {
        Casts { root, wrong: None }
    }

    // An `N` is cast from the nodes of these kinds, and from no other.
    fn view<N: AstNode + Drop>(&mut self, names: &'static str) {
        if !is_cast_from::<N>(self.root, names) {
            self.wrong = Some(names);
        }
    }

    // A `T` is cast from the tokens of these kinds, and from no other.
    fn token<T: AstToken + Drop>(&mut self, names: &'static str) {
        if !is_cast_from_tokens::<T>(self.root, names) {
            self.wrong = Some(names);
        }
    }

    fn all_hold(&self) -> Result<(), Fail> {
        match self.wrong {
            Some(names) => Err(Fail::from(names)),
            None => Ok(()),
        }
    }
}

#[test]
fn expressions_from_a_to_i(rt: HostRuntime) -> Result<(), Fail> {
    let root = all_kinds(&rt)?;
    let mut casts = Casts::below(&root);
    casts.view::<ast::ArrayExpr>("ARRAY_EXPR");
    casts.view::<ast::AsmExpr>("ASM_EXPR");
    casts.view::<ast::AwaitExpr>("AWAIT_EXPR");
    casts.view::<ast::BecomeExpr>("BECOME_EXPR");
    casts.view::<ast::BinExpr>("BIN_EXPR");
    casts.view::<ast::BlockExpr>("BLOCK_EXPR");
    casts.view::<ast::BreakExpr>("BREAK_EXPR");
    casts.view::<ast::CallExpr>("CALL_EXPR");
    casts.view::<ast::CastExpr>("CAST_EXPR");
    casts.view::<ast::CfgPredExpr>("CFG_PRED_EXPR");
    casts.view::<ast::ClosureExpr>("CLOSURE_EXPR");
    casts.view::<ast::ContinueExpr>("CONTINUE_EXPR");
    casts.view::<ast::FieldExpr>("FIELD_EXPR");
    casts.view::<ast::ForExpr>("FOR_EXPR");
    casts.view::<ast::FormatArgsExpr>("FORMAT_ARGS_EXPR");
    casts.view::<ast::IfExpr>("IF_EXPR");
    casts.view::<ast::IncludeBytesExpr>("INCLUDE_BYTES_EXPR");
    casts.view::<ast::IndexExpr>("INDEX_EXPR");
    casts.all_hold()
}

#[test]
fn expressions_from_l_to_y(rt: HostRuntime) -> Result<(), Fail> {
    let root = all_kinds(&rt)?;
    let mut casts = Casts::below(&root);
    casts.view::<ast::LetExpr>("LET_EXPR");
    casts.view::<ast::Literal>("LITERAL");
    casts.view::<ast::LoopExpr>("LOOP_EXPR");
    casts.view::<ast::MacroExpr>("MACRO_EXPR");
    casts.view::<ast::MatchExpr>("MATCH_EXPR");
    casts.view::<ast::MethodCallExpr>("METHOD_CALL_EXPR");
    casts.view::<ast::OffsetOfExpr>("OFFSET_OF_EXPR");
    casts.view::<ast::ParenExpr>("PAREN_EXPR");
    casts.view::<ast::PathExpr>("PATH_EXPR");
    casts.view::<ast::PrefixExpr>("PREFIX_EXPR");
    casts.view::<ast::RangeExpr>("RANGE_EXPR");
    casts.view::<ast::RecordExpr>("RECORD_EXPR");
    casts.view::<ast::RefExpr>("REF_EXPR");
    casts.view::<ast::ReturnExpr>("RETURN_EXPR");
    casts.view::<ast::TryExpr>("TRY_EXPR");
    casts.view::<ast::TupleExpr>("TUPLE_EXPR");
    casts.view::<ast::UnderscoreExpr>("UNDERSCORE_EXPR");
    casts.view::<ast::WhileExpr>("WHILE_EXPR");
    casts.view::<ast::YeetExpr>("YEET_EXPR");
    casts.view::<ast::YieldExpr>("YIELD_EXPR");
    casts.all_hold()
}

#[test]
fn types(rt: HostRuntime) -> Result<(), Fail> {
    let root = all_kinds(&rt)?;
    let mut casts = Casts::below(&root);
    casts.view::<ast::ArrayType>("ARRAY_TYPE");
    casts.view::<ast::DynTraitType>("DYN_TRAIT_TYPE");
    casts.view::<ast::FnPtrType>("FN_PTR_TYPE");
    casts.view::<ast::ForType>("FOR_TYPE");
    casts.view::<ast::ImplTraitType>("IMPL_TRAIT_TYPE");
    casts.view::<ast::InferType>("INFER_TYPE");
    casts.view::<ast::MacroType>("MACRO_TYPE");
    casts.view::<ast::NeverType>("NEVER_TYPE");
    casts.view::<ast::ParenType>("PAREN_TYPE");
    casts.view::<ast::PathType>("PATH_TYPE");
    casts.view::<ast::PtrType>("PTR_TYPE");
    casts.view::<ast::RefType>("REF_TYPE");
    casts.view::<ast::SliceType>("SLICE_TYPE");
    casts.view::<ast::TupleType>("TUPLE_TYPE");
    casts.all_hold()
}

#[test]
fn patterns(rt: HostRuntime) -> Result<(), Fail> {
    let root = all_kinds(&rt)?;
    let mut casts = Casts::below(&root);
    casts.view::<ast::BoxPat>("BOX_PAT");
    casts.view::<ast::ConstBlockPat>("CONST_BLOCK_PAT");
    casts.view::<ast::IdentPat>("IDENT_PAT");
    casts.view::<ast::LiteralPat>("LITERAL_PAT");
    casts.view::<ast::MacroPat>("MACRO_PAT");
    casts.view::<ast::OrPat>("OR_PAT");
    casts.view::<ast::ParenPat>("PAREN_PAT");
    casts.view::<ast::PathPat>("PATH_PAT");
    casts.view::<ast::RangePat>("RANGE_PAT");
    casts.view::<ast::RecordPat>("RECORD_PAT");
    casts.view::<ast::RefPat>("REF_PAT");
    casts.view::<ast::RestPat>("REST_PAT");
    casts.view::<ast::SlicePat>("SLICE_PAT");
    casts.view::<ast::TuplePat>("TUPLE_PAT");
    casts.view::<ast::TupleStructPat>("TUPLE_STRUCT_PAT");
    casts.view::<ast::WildcardPat>("WILDCARD_PAT");
    casts.all_hold()
}

#[test]
fn items(rt: HostRuntime) -> Result<(), Fail> {
    let root = all_kinds(&rt)?;
    let mut casts = Casts::below(&root);
    casts.view::<ast::Const>("CONST");
    casts.view::<ast::Enum>("ENUM");
    casts.view::<ast::ExternBlock>("EXTERN_BLOCK");
    casts.view::<ast::ExternCrate>("EXTERN_CRATE");
    casts.view::<ast::Fn>("FN");
    casts.view::<ast::Impl>("IMPL");
    casts.view::<ast::MacroCall>("MACRO_CALL");
    casts.view::<ast::MacroDef>("MACRO_DEF");
    casts.view::<ast::MacroRules>("MACRO_RULES");
    casts.view::<ast::Module>("MODULE");
    casts.view::<ast::Static>("STATIC");
    casts.view::<ast::Struct>("STRUCT");
    casts.view::<ast::Trait>("TRAIT");
    casts.view::<ast::TypeAlias>("TYPE_ALIAS");
    casts.view::<ast::Union>("UNION");
    casts.view::<ast::Use>("USE");
    casts.all_hold()
}

#[test]
fn metas_and_generics(rt: HostRuntime) -> Result<(), Fail> {
    let root = all_kinds(&rt)?;
    let mut casts = Casts::below(&root);
    casts.view::<ast::CfgAttrMeta>("CFG_ATTR_META");
    casts.view::<ast::CfgMeta>("CFG_META");
    casts.view::<ast::KeyValueMeta>("KEY_VALUE_META");
    casts.view::<ast::PathMeta>("PATH_META");
    casts.view::<ast::TokenTreeMeta>("TOKEN_TREE_META");
    casts.view::<ast::UnsafeMeta>("UNSAFE_META");
    casts.view::<ast::LifetimeParam>("LIFETIME_PARAM");
    casts.view::<ast::TypeParam>("TYPE_PARAM");
    casts.view::<ast::ConstParam>("CONST_PARAM");
    casts.view::<ast::TypeArg>("TYPE_ARG");
    casts.view::<ast::AssocTypeArg>("ASSOC_TYPE_ARG");
    casts.view::<ast::LifetimeArg>("LIFETIME_ARG");
    casts.view::<ast::ConstArg>("CONST_ARG");
    casts.all_hold()
}

#[test]
fn statements_and_names(rt: HostRuntime) -> Result<(), Fail> {
    let root = all_kinds(&rt)?;
    let mut casts = Casts::below(&root);
    casts.view::<ast::ExprStmt>("EXPR_STMT");
    casts.view::<ast::LetStmt>("LET_STMT");
    casts.view::<ast::SourceFile>("SOURCE_FILE");
    casts.view::<ast::Name>("NAME");
    casts.view::<ast::NameRef>("NAME_REF");
    casts.view::<ast::Lifetime>("LIFETIME");
    casts.view::<ast::Path>("PATH");
    casts.view::<ast::PathSegment>("PATH_SEGMENT");
    casts.view::<ast::TypeAnchor>("TYPE_ANCHOR");
    casts.all_hold()
}

#[test]
fn lists_and_parts(rt: HostRuntime) -> Result<(), Fail> {
    let root = all_kinds(&rt)?;
    let mut casts = Casts::below(&root);
    casts.view::<ast::ArgList>("ARG_LIST");
    casts.view::<ast::ParamList>("PARAM_LIST");
    casts.view::<ast::Param>("PARAM");
    casts.view::<ast::SelfParam>("SELF_PARAM");
    casts.view::<ast::RetType>("RET_TYPE");
    casts.view::<ast::StmtList>("STMT_LIST");
    casts.view::<ast::Label>("LABEL");
    casts.view::<ast::TryBlockModifier>("TRY_BLOCK_MODIFIER");
    casts.view::<ast::LetElse>("LET_ELSE");
    casts.view::<ast::MatchArmList>("MATCH_ARM_LIST");
    casts.view::<ast::MatchArm>("MATCH_ARM");
    casts.view::<ast::MatchGuard>("MATCH_GUARD");
    casts.view::<ast::RecordExprField>("RECORD_EXPR_FIELD");
    casts.view::<ast::RecordPatField>("RECORD_PAT_FIELD");
    casts.view::<ast::FormatArgsArg>("FORMAT_ARGS_ARG");
    casts.view::<ast::Abi>("ABI");
    casts.view::<ast::Attr>("ATTR");
    casts.view::<ast::DocComment>("DOC_COMMENT");
    casts.view::<ast::CfgAtom>("CFG_ATOM");
    casts.all_hold()
}

#[test]
fn parts_of_items(rt: HostRuntime) -> Result<(), Fail> {
    let root = all_kinds(&rt)?;
    let mut casts = Casts::below(&root);
    casts.view::<ast::UseTree>("USE_TREE");
    casts.view::<ast::UseTreeList>("USE_TREE_LIST");
    casts.view::<ast::RecordFieldList>("RECORD_FIELD_LIST");
    casts.view::<ast::RecordField>("RECORD_FIELD");
    casts.view::<ast::TupleFieldList>("TUPLE_FIELD_LIST");
    casts.view::<ast::TupleField>("TUPLE_FIELD");
    casts.view::<ast::Variant>("VARIANT");
    casts.view::<ast::ItemList>("ITEM_LIST");
    casts.view::<ast::AssocItemList>("ASSOC_ITEM_LIST");
    casts.view::<ast::ExternItemList>("EXTERN_ITEM_LIST");
    casts.view::<ast::TypeBound>("TYPE_BOUND");
    casts.view::<ast::TypeBoundList>("TYPE_BOUND_LIST");
    casts.view::<ast::UseBoundGenericArgs>("USE_BOUND_GENERIC_ARGS");
    casts.view::<ast::ForBinder>("FOR_BINDER");
    casts.view::<ast::GenericParamList>("GENERIC_PARAM_LIST");
    casts.view::<ast::GenericArgList>("GENERIC_ARG_LIST");
    casts.view::<ast::WhereClause>("WHERE_CLAUSE");
    casts.view::<ast::WherePred>("WHERE_PRED");
    casts.view::<ast::Visibility>("VISIBILITY");
    casts.view::<ast::VisibilityInner>("VISIBILITY_INNER");
    casts.view::<ast::TokenTree>("TOKEN_TREE");
    casts.view::<ast::MacroStmts>("MACRO_STMTS");
    casts.all_hold()
}

#[test]
fn enums(rt: HostRuntime) -> Result<(), Fail> {
    let root = all_kinds(&rt)?;
    let mut casts = Casts::below(&root);
    casts.view::<ast::Expr>(
        "ARRAY_EXPR ASM_EXPR AWAIT_EXPR BECOME_EXPR BIN_EXPR BLOCK_EXPR BREAK_EXPR \
            CALL_EXPR CAST_EXPR CFG_PRED_EXPR CLOSURE_EXPR CONTINUE_EXPR FIELD_EXPR \
            FOR_EXPR FORMAT_ARGS_EXPR IF_EXPR INCLUDE_BYTES_EXPR INDEX_EXPR LET_EXPR \
            LITERAL LOOP_EXPR MACRO_EXPR MATCH_EXPR METHOD_CALL_EXPR OFFSET_OF_EXPR \
            PAREN_EXPR PATH_EXPR PREFIX_EXPR RANGE_EXPR RECORD_EXPR REF_EXPR RETURN_EXPR \
            TRY_EXPR TUPLE_EXPR UNDERSCORE_EXPR WHILE_EXPR YEET_EXPR YIELD_EXPR",
    );
    casts.view::<ast::Type>(
        "ARRAY_TYPE DYN_TRAIT_TYPE FN_PTR_TYPE FOR_TYPE IMPL_TRAIT_TYPE INFER_TYPE \
            MACRO_TYPE NEVER_TYPE PAREN_TYPE PATH_TYPE PTR_TYPE REF_TYPE SLICE_TYPE \
            TUPLE_TYPE",
    );
    casts.view::<ast::Pat>(
        "BOX_PAT CONST_BLOCK_PAT IDENT_PAT LITERAL_PAT MACRO_PAT OR_PAT PAREN_PAT \
            PATH_PAT RANGE_PAT RECORD_PAT REF_PAT REST_PAT SLICE_PAT TUPLE_PAT \
            TUPLE_STRUCT_PAT WILDCARD_PAT",
    );
    casts.view::<ast::Item>(
        "ASM_EXPR CONST ENUM EXTERN_BLOCK EXTERN_CRATE FN IMPL MACRO_CALL MACRO_DEF \
            MACRO_RULES MODULE STATIC STRUCT TRAIT TYPE_ALIAS UNION USE",
    );
    casts.view::<ast::Meta>(
        "CFG_ATTR_META CFG_META KEY_VALUE_META PATH_META TOKEN_TREE_META UNSAFE_META",
    );
    casts.view::<ast::GenericParam>("LIFETIME_PARAM TYPE_PARAM CONST_PARAM");
    casts.view::<ast::GenericArg>("TYPE_ARG ASSOC_TYPE_ARG LIFETIME_ARG CONST_ARG");
    casts.view::<ast::Stmt>(
        "EXPR_STMT LET_STMT ASM_EXPR CONST ENUM EXTERN_BLOCK EXTERN_CRATE FN IMPL \
            MACRO_CALL MACRO_DEF MACRO_RULES MODULE STATIC STRUCT TRAIT TYPE_ALIAS UNION \
            USE",
    );
    casts.view::<ast::AssocItem>("CONST FN MACRO_CALL TYPE_ALIAS");
    casts.view::<ast::ExternItem>("STATIC FN MACRO_CALL TYPE_ALIAS");
    casts.view::<ast::Adt>("ENUM STRUCT UNION");
    casts.view::<ast::AnyAttr>("ATTR DOC_COMMENT");
    casts.view::<ast::ElseBranch>("BLOCK_EXPR IF_EXPR");
    casts.view::<ast::CallableExpr>("CALL_EXPR METHOD_CALL_EXPR");
    casts.view::<ast::Macro>("MACRO_RULES MACRO_DEF");
    casts.view::<ast::NameLike>("NAME_REF NAME LIFETIME");
    casts.view::<ast::NameOrNameRef>("NAME NAME_REF");
    casts.view::<ast::TypeOrConstParam>("TYPE_PARAM CONST_PARAM");
    casts.view::<ast::AnyHasGenericParams>("ENUM FN IMPL STRUCT TRAIT TYPE_ALIAS UNION");
    casts.view::<ast::AnyHasAttrs>(
        "ARRAY_EXPR ASM_EXPR AWAIT_EXPR BECOME_EXPR BIN_EXPR BLOCK_EXPR BREAK_EXPR \
            CALL_EXPR CAST_EXPR CFG_PRED_EXPR CLOSURE_EXPR CONTINUE_EXPR FIELD_EXPR \
            FOR_EXPR FORMAT_ARGS_EXPR IF_EXPR INCLUDE_BYTES_EXPR INDEX_EXPR LET_EXPR \
            LITERAL LOOP_EXPR MACRO_EXPR MATCH_EXPR METHOD_CALL_EXPR OFFSET_OF_EXPR \
            PAREN_EXPR PATH_EXPR PREFIX_EXPR RANGE_EXPR RECORD_EXPR REF_EXPR RETURN_EXPR \
            TRY_EXPR TUPLE_EXPR UNDERSCORE_EXPR WHILE_EXPR YEET_EXPR YIELD_EXPR CONST \
            ENUM EXTERN_BLOCK EXTERN_CRATE FN IMPL MACRO_CALL MACRO_DEF MACRO_RULES \
            MODULE STATIC STRUCT TRAIT TYPE_ALIAS UNION USE LIFETIME_PARAM TYPE_PARAM \
            CONST_PARAM SOURCE_FILE STMT_LIST LET_STMT MATCH_ARM MATCH_ARM_LIST PARAM \
            SELF_PARAM RECORD_EXPR_FIELD RECORD_FIELD RECORD_PAT_FIELD TUPLE_FIELD \
            VARIANT ITEM_LIST ASSOC_ITEM_LIST EXTERN_ITEM_LIST",
    );
    casts.view::<Either<ast::Fn, ast::Struct>>("FN STRUCT");
    casts.view::<Either<ast::Expr, ast::AsmExpr>>(
        "ARRAY_EXPR ASM_EXPR AWAIT_EXPR BECOME_EXPR BIN_EXPR BLOCK_EXPR BREAK_EXPR \
            CALL_EXPR CAST_EXPR CFG_PRED_EXPR CLOSURE_EXPR CONTINUE_EXPR FIELD_EXPR \
            FOR_EXPR FORMAT_ARGS_EXPR IF_EXPR INCLUDE_BYTES_EXPR INDEX_EXPR LET_EXPR \
            LITERAL LOOP_EXPR MACRO_EXPR MATCH_EXPR METHOD_CALL_EXPR OFFSET_OF_EXPR \
            PAREN_EXPR PATH_EXPR PREFIX_EXPR RANGE_EXPR RECORD_EXPR REF_EXPR RETURN_EXPR \
            TRY_EXPR TUPLE_EXPR UNDERSCORE_EXPR WHILE_EXPR YEET_EXPR YIELD_EXPR",
    );
    casts.all_hold()
}

#[test]
fn typed_tokens(rt: HostRuntime) -> Result<(), Fail> {
    let root = all_kinds(&rt)?;
    let mut casts = Casts::below(&root);
    casts.token::<ast::Whitespace>("WHITESPACE");
    casts.token::<ast::Comment>("COMMENT");
    casts.token::<ast::AnyComment>("COMMENT INNER_DOC_COMMENT OUTER_DOC_COMMENT");
    casts.token::<ast::String>("STRING");
    casts.token::<ast::ByteString>("BYTE_STRING");
    casts.token::<ast::CString>("C_STRING");
    casts.token::<ast::IntNumber>("INT_NUMBER");
    casts.token::<ast::FloatNumber>("FLOAT_NUMBER");
    casts.token::<ast::Char>("CHAR");
    casts.token::<ast::Byte>("BYTE");
    casts.token::<ast::AnyString>("STRING BYTE_STRING C_STRING");
    casts.all_hold()
}

// The first `N` below a root becomes an `A` of the same node.
fn is_made<N: AstNode + Drop, A: AstNode + Drop + From<N>>(root: &SyntaxNode) -> bool {
    for node in root.children() {
        let Ok(copy) = node.clone() else {
            return false;
        };
        if let Some(it) = N::cast(node) {
            let made = A::from(it);
            return A::can_cast(copy.kind()) && *made.syntax() == copy;
        }
    }
    false
}

#[test]
fn conversions(rt: HostRuntime) -> Result<(), Fail> {
    let root = all_kinds(&rt)?;
    let made = [
        is_made::<ast::ArrayExpr, ast::AnyHasAttrs>(&root),
        is_made::<ast::Fn, ast::AnyHasAttrs>(&root),
        is_made::<ast::SourceFile, ast::AnyHasAttrs>(&root),
        is_made::<ast::YieldExpr, ast::AnyHasAttrs>(&root),
        is_made::<ast::Enum, ast::AnyHasGenericParams>(&root),
        is_made::<ast::Union, ast::AnyHasGenericParams>(&root),
        is_made::<ast::CallExpr, AnyHasArgList>(&root),
        is_made::<ast::PathSegment, AnyHasGenericArgs>(&root),
        is_made::<ast::WhileExpr, AnyHasLoopBody>(&root),
        is_made::<ast::StmtList, AnyHasModuleItem>(&root),
        is_made::<ast::Fn, AnyHasName>(&root),
        is_made::<ast::Variant, AnyHasName>(&root),
        is_made::<ast::WherePred, AnyHasTypeBounds>(&root),
        is_made::<ast::TupleField, AnyHasVisibility>(&root),
    ];
    if made.iter().all(|it| *it) {
        Ok(())
    } else {
        Err(Fail::from("a view does not become the other"))
    }
}
