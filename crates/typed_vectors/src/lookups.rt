//! Lookups in typed nodes: each shape, each trait that types share on one of its types, and
//! rust-analyzer's tests of where predicates.
use crate::rows::all_hold;
use plain_trees::PlainTree;
use ra_ap_syntax::ast::{
    self, AstChildren, AstNode, HasArgList, HasAttrs, HasGenericArgs, HasGenericParams,
    HasLoopBody, HasModuleItem, HasName, HasTypeBounds, HasVisibility,
};
use ra_ap_syntax::{SyntaxKind, SyntaxNode, SyntaxToken};
use std::test::Fail;

fn tree(rt: &HostRuntime, words: &'static str) -> Result<SyntaxNode, Fail> {
    Ok(PlainTree::read(rt.alloc(), words)?.build(rt.alloc())?)
}

// The root of a tree that is written down, as an `N`.
fn view<N: AstNode>(rt: &HostRuntime, words: &'static str) -> Result<N, Fail> {
    Ok(N::cast(tree(rt, words)?).ok_or("the root is of another kind")?)
}

// The text of a node, or `-` if there is no node; `None` if out of memory.
fn text<N: AstNode + Drop>(rt: &HostRuntime, found: Option<N>) -> Option<String> {
    let mut text = String::new(rt.alloc());
    match found {
        Some(it) => text.push_str(it.syntax().as_str()).ok()?,
        None => text.push_str("-").ok()?,
    }
    Some(text)
}

fn token_text(rt: &HostRuntime, found: Option<SyntaxToken>) -> Option<String> {
    let mut text = String::new(rt.alloc());
    match found {
        Some(token) => text.push_str(token.text()).ok()?,
        None => text.push_str("-").ok()?,
    }
    Some(text)
}

// Adds a text and a bar after it.
fn add_barred(list: &mut String, text: &str) -> Option<()> {
    list.push_str(text).ok()?;
    list.push_str("|").ok()
}

// The texts of nodes, a bar after each.
fn texts<N: AstNode + Drop>(rt: &HostRuntime, found: AstChildren<N>) -> Option<String> {
    let mut text = String::new(rt.alloc());
    for it in found {
        add_barred(&mut text, it.syntax().as_str())?;
    }
    Some(text)
}

// There is a text, and it is this one.
fn is(found: Option<String>, text: &str) -> bool {
    match found {
        Some(found) => found.as_str() == text,
        None => false,
    }
}

fn is_absent<T: Drop>(found: Option<T>) -> bool {
    found.is_none()
}

fn all_bounds(rt: &HostRuntime, predicate: &ast::WherePred) -> Option<String> {
    let list = predicate.type_bound_list()?;
    texts(rt, list.bounds())
}

#[test]
fn where_predicates_of_types(rt: HostRuntime) -> Result<(), Fail> {
    let predicate: ast::WherePred = view(
        &rt,
        "WHERE_PRED( PATH_TYPE( PATH( PATH_SEGMENT( NAME_REF( IDENT:T ) ) ) ) COLON:: TYPE_BOUND_LIST( TYPE_BOUND( PATH_TYPE( PATH( PATH_SEGMENT( NAME_REF( IDENT:Clone ) ) ) ) ) PLUS:+ TYPE_BOUND( LIFETIME( LIFETIME_IDENT:'static ) ) ) )",
    )?;
    all_hold(&[
        ("type", is(text(&rt, predicate.ty()), "T")),
        ("no binder", is_absent(predicate.for_binder())),
        ("no lifetime", is_absent(predicate.lifetime())),
        ("colon", is(token_text(&rt, predicate.colon_token()), ":")),
        ("bounds", is(all_bounds(&rt, &predicate), "Clone|'static|")),
    ])
}

fn first_bound(rt: &HostRuntime, predicate: &ast::WherePred) -> Option<String> {
    let list = predicate.type_bound_list()?;
    let bound = list.bounds().next()?;
    text(rt, bound.lifetime())
}

#[test]
fn where_predicates_of_lifetimes(rt: HostRuntime) -> Result<(), Fail> {
    let predicate: ast::WherePred = view(
        &rt,
        "WHERE_PRED( LIFETIME( LIFETIME_IDENT:'a ) COLON:: TYPE_BOUND_LIST( TYPE_BOUND( LIFETIME( LIFETIME_IDENT:'b ) ) ) )",
    )?;
    all_hold(&[
        ("lifetime", is(text(&rt, predicate.lifetime()), "'a")),
        ("no type", is_absent(predicate.ty())),
        ("bound", is(first_bound(&rt, &predicate), "'b")),
    ])
}

fn bound_names(rt: &HostRuntime, predicate: &ast::WherePred) -> Option<String> {
    let binder = predicate.for_binder()?;
    text(rt, binder.generic_param_list())
}

#[test]
fn where_predicates_with_a_binder(rt: HostRuntime) -> Result<(), Fail> {
    let predicate: ast::WherePred = view(
        &rt,
        "WHERE_PRED( FOR_BINDER( FOR_KW:for GENERIC_PARAM_LIST( L_ANGLE:< LIFETIME_PARAM( LIFETIME( LIFETIME_IDENT:'a ) ) R_ANGLE:> ) ) PATH_TYPE( PATH( PATH_SEGMENT( NAME_REF( IDENT:F ) ) ) ) COLON:: TYPE_BOUND_LIST( TYPE_BOUND( PATH_TYPE( PATH( PATH_SEGMENT( NAME_REF( IDENT:Fn ) ) ) ) ) ) )",
    )?;
    all_hold(&[
        ("binder", is(bound_names(&rt, &predicate), "<'a>")),
        ("type", is(text(&rt, predicate.ty()), "F")),
    ])
}

// `f.0(a, b)` in its shape: two expressions below each list, tokens and other nodes between them.
const CALL: &str =
    "METHOD_CALL_EXPR( ATTR( POUND:# ) LITERAL( INT_NUMBER:1 ) DOT:. NAME_REF( IDENT:m ) GENERIC_ARG_LIST( COLON2::: ) ARG_LIST( L_PAREN:( LITERAL( INT_NUMBER:2 ) COMMA:, ERROR( COMMA:, ) LITERAL( INT_NUMBER:3 ) R_PAREN:) ) )";

#[test]
fn the_first_child_of_a_kind(rt: HostRuntime) -> Result<(), Fail> {
    let call: ast::MethodCallExpr = view(&rt, CALL)?;
    all_hold(&[
        ("receiver", is(text(&rt, call.receiver()), "1")),
        ("name", is(text(&rt, call.name_ref()), "m")),
    ])
}

#[test]
fn the_first_child_of_a_path(rt: HostRuntime) -> Result<(), Fail> {
    let path: ast::Path = view(
        &rt,
        "PATH( PATH( PATH_SEGMENT( NAME_REF( IDENT:a ) ) ) COLON2::: PATH_SEGMENT( NAME_REF( IDENT:b ) ) PATH_SEGMENT( ) )",
    )?;
    all_hold(&[
        ("qualifier", is(text(&rt, path.qualifier()), "a")),
        ("segment", is(text(&rt, path.segment()), "b")),
    ])
}

fn argument_texts(rt: &HostRuntime, call: &ast::MethodCallExpr) -> Option<String> {
    let list = call.arg_list()?;
    texts(rt, list.args())
}

fn element_texts(rt: &HostRuntime, slice: &ast::SlicePat) -> Option<String> {
    texts(rt, slice.pats())
}

#[test]
fn all_children_of_a_kind(rt: HostRuntime) -> Result<(), Fail> {
    let call: ast::MethodCallExpr = view(&rt, CALL)?;
    all_hold(&[("arguments", is(argument_texts(&rt, &call), "2|3|"))])
}

#[test]
fn no_children_of_a_kind(rt: HostRuntime) -> Result<(), Fail> {
    let empty: ast::SlicePat = view(&rt, "SLICE_PAT( L_BRACK:[ R_BRACK:] )")?;
    all_hold(&[("elements", is(element_texts(&rt, &empty), ""))])
}

fn opening(rt: &HostRuntime, call: &ast::MethodCallExpr) -> Option<String> {
    let list = call.arg_list()?;
    token_text(rt, list.l_paren_token())
}

#[test]
fn the_first_token_of_a_kind(rt: HostRuntime) -> Result<(), Fail> {
    let call: ast::MethodCallExpr = view(&rt, CALL)?;
    all_hold(&[
        ("dot", is(token_text(&rt, call.dot_token()), ".")),
        ("parenthesis", is(opening(&rt, &call), "(")),
    ])
}

#[test]
fn the_first_of_two_tokens(rt: HostRuntime) -> Result<(), Fail> {
    let pat: ast::IdentPat = view(
        &rt,
        "IDENT_PAT( MUT_KW:first NAME( REF_KW:ref ) MUT_KW:second )",
    )?;
    all_hold(&[
        ("mut", is(token_text(&rt, pat.mut_token()), "first")),
        ("no ref", is_absent(pat.ref_token())),
    ])
}

#[test]
fn tokens_of_a_name(rt: HostRuntime) -> Result<(), Fail> {
    let name: ast::NameRef = view(&rt, "NAME_REF( SELF_TYPE_KW:Self )")?;
    all_hold(&[
        ("Self", is(token_text(&rt, name.self_type_token()), "Self")),
        ("no self", is_absent(name.self_token())),
    ])
}

#[test]
fn nothing_in_a_node_without_children(rt: HostRuntime) -> Result<(), Fail> {
    let call: ast::MethodCallExpr = view(&rt, "METHOD_CALL_EXPR( )")?;
    all_hold(&[
        ("receiver", is_absent(call.receiver())),
        ("dot", is_absent(call.dot_token())),
        ("arguments", is_absent(call.arg_list())),
    ])
}

#[test]
fn nothing_in_a_list_without_children(rt: HostRuntime) -> Result<(), Fail> {
    let list: ast::ArgList = view(&rt, "ARG_LIST( )")?;
    all_hold(&[("arguments", is_absent(list.args().next()))])
}

// Each trait through its bound.
fn name<N: HasName>(rt: &HostRuntime, it: &N) -> Option<String> {
    text(rt, it.name())
}

fn visibility<N: HasVisibility>(rt: &HostRuntime, it: &N) -> Option<String> {
    text(rt, it.visibility())
}

fn loop_body<N: HasLoopBody>(rt: &HostRuntime, it: &N) -> Option<String> {
    text(rt, it.loop_body())
}

fn label<N: HasLoopBody>(rt: &HostRuntime, it: &N) -> Option<String> {
    text(rt, it.label())
}

fn arguments<N: HasArgList>(rt: &HostRuntime, it: &N) -> Option<String> {
    text(rt, it.arg_list())
}

fn items<N: HasModuleItem>(rt: &HostRuntime, it: &N) -> Option<String> {
    texts(rt, it.items())
}

fn parameters<N: HasGenericParams>(rt: &HostRuntime, it: &N) -> Option<String> {
    text(rt, it.generic_param_list())
}

fn where_clause<N: HasGenericParams>(rt: &HostRuntime, it: &N) -> Option<String> {
    text(rt, it.where_clause())
}

fn generic_arguments<N: HasGenericArgs>(rt: &HostRuntime, it: &N) -> Option<String> {
    text(rt, it.generic_arg_list())
}

fn bounds<N: HasTypeBounds>(rt: &HostRuntime, it: &N) -> Option<String> {
    text(rt, it.type_bound_list())
}

fn colon<N: HasTypeBounds>(rt: &HostRuntime, it: &N) -> Option<String> {
    token_text(rt, it.colon_token())
}

fn attributes<N: HasAttrs>(rt: &HostRuntime, it: &N) -> Option<String> {
    texts(rt, it.attrs())
}

fn doc_comments<N: HasAttrs>(rt: &HostRuntime, it: &N) -> Option<String> {
    texts(rt, it.doc_comments())
}

fn attributes_with_doc<N: HasAttrs>(rt: &HostRuntime, it: &N) -> Option<String> {
    texts(rt, it.attrs_with_doc())
}

const TRAIT: &str =
    "TRAIT( DOC_COMMENT( OUTER_DOC_COMMENT:///doc ) ATTR( POUND:#a ) VISIBILITY( PUB_KW:pub ) ATTR( POUND:#b ) TRAIT_KW:trait NAME( IDENT:Foo ) NAME( IDENT:Bar ) GENERIC_PARAM_LIST( L_ANGLE:<> ) COLON:: TYPE_BOUND_LIST( TYPE_BOUND( ) PLUS:+ ) WHERE_CLAUSE( WHERE_KW:where ) ASSOC_ITEM_LIST( L_CURLY:{ R_CURLY:} ) )";

#[test]
fn traits_of_an_item(rt: HostRuntime) -> Result<(), Fail> {
    let it: ast::Trait = view(&rt, TRAIT)?;
    all_hold(&[
        ("name", is(name(&rt, &it), "Foo")),
        ("visibility", is(visibility(&rt, &it), "pub")),
        ("parameters", is(parameters(&rt, &it), "<>")),
        ("where clause", is(where_clause(&rt, &it), "where")),
        ("bounds", is(bounds(&rt, &it), "+")),
        ("colon", is(colon(&rt, &it), ":")),
        ("items", is(text(&rt, it.assoc_item_list()), "{}")),
    ])
}

#[test]
fn attributes_of_an_item(rt: HostRuntime) -> Result<(), Fail> {
    let it: ast::Trait = view(&rt, TRAIT)?;
    all_hold(&[
        ("attributes", is(attributes(&rt, &it), "#a|#b|")),
        ("doc comments", is(doc_comments(&rt, &it), "///doc|")),
        ("both", is(attributes_with_doc(&rt, &it), "///doc|#a|#b|")),
    ])
}

#[test]
fn traits_of_calls(rt: HostRuntime) -> Result<(), Fail> {
    let call: ast::MethodCallExpr = view(&rt, CALL)?;
    all_hold(&[
        ("arguments", is(arguments(&rt, &call), "(2,,3)")),
        ("generic arguments", is(generic_arguments(&rt, &call), "::")),
        ("attributes", is(attributes(&rt, &call), "#|")),
    ])
}

#[test]
fn traits_of_files(rt: HostRuntime) -> Result<(), Fail> {
    let file: ast::SourceFile = view(
        &rt,
        "SOURCE_FILE( FN( FN_KW:f ) WHITESPACE:~ ERROR( IDENT:x ) STRUCT( STRUCT_KW:s ) )",
    )?;
    all_hold(&[("items", is(items(&rt, &file), "f|s|"))])
}

#[test]
fn bodies_of_plain_loops(rt: HostRuntime) -> Result<(), Fail> {
    let plain: ast::LoopExpr = view(
        &rt,
        "LOOP_EXPR( LABEL( LIFETIME( LIFETIME_IDENT:'a ) COLON:: ) LOOP_KW:loop BLOCK_EXPR( L_CURLY:1 ) BLOCK_EXPR( L_CURLY:2 ) )",
    )?;
    all_hold(&[
        ("body", is(loop_body(&rt, &plain), "1")),
        ("label", is(label(&rt, &plain), "'a:")),
    ])
}

#[test]
fn bodies_of_loops_over_names(rt: HostRuntime) -> Result<(), Fail> {
    let over_a_name: ast::ForExpr = view(
        &rt,
        "FOR_EXPR( FOR_KW:for WILDCARD_PAT( UNDERSCORE:_ ) IN_KW:in PATH_EXPR( IDENT:x ) BLOCK_EXPR( L_CURLY:1 ) )",
    )?;
    all_hold(&[("body", is(loop_body(&rt, &over_a_name), "1"))])
}

#[test]
fn bodies_of_loops_over_blocks(rt: HostRuntime) -> Result<(), Fail> {
    let over_a_block: ast::ForExpr = view(
        &rt,
        "FOR_EXPR( FOR_KW:for WILDCARD_PAT( UNDERSCORE:_ ) IN_KW:in BLOCK_EXPR( L_CURLY:1 ) BLOCK_EXPR( L_CURLY:2 ) )",
    )?;
    all_hold(&[("body", is(loop_body(&rt, &over_a_block), "2"))])
}

#[test]
fn loops_without_bodies(rt: HostRuntime) -> Result<(), Fail> {
    let without_blocks: ast::WhileExpr = view(&rt, "WHILE_EXPR( WHILE_KW:while )")?;
    all_hold(&[
        ("body", is(loop_body(&rt, &without_blocks), "-")),
        ("no label", is_absent(without_blocks.label())),
    ])
}

fn last_expression(rt: &HostRuntime, call: &ast::ArgList) -> Option<String> {
    text(
        rt,
        ras_node::support::last_child::<ast::Expr>(call.syntax()),
    )
}

#[test]
fn the_last_child_of_a_type(rt: HostRuntime) -> Result<(), Fail> {
    let call: ast::ArgList = view(
        &rt,
        "ARG_LIST( L_PAREN:( LITERAL( INT_NUMBER:1 ) COMMA:, LITERAL( INT_NUMBER:2 ) COMMA:, LITERAL( INT_NUMBER:3 ) NAME( IDENT:a ) R_PAREN:) )",
    )?;
    all_hold(&[
        ("last expression", is(last_expression(&rt, &call), "3")),
        (
            "no type",
            is_absent(ras_node::support::last_child::<ast::Type>(call.syntax())),
        ),
    ])
}

// The texts of the attributes among some of these, from the last to the first: an iterator that is
// none of this library's.
fn attributes_from_the_end(rt: &HostRuntime, owner: &ast::Struct) -> Option<String> {
    let mut all = Vec::new(rt.alloc());
    for it in owner.attrs_with_doc() {
        all.push(it).ok()?;
    }
    let mut text = String::new(rt.alloc());
    for it in ast::AttrsIter::new(all.into_iter().rev()) {
        add_barred(&mut text, it.syntax().as_str())?;
    }
    Some(text)
}

#[test]
fn attributes_of_any_iterator(rt: HostRuntime) -> Result<(), Fail> {
    let owner: ast::Struct = view(
        &rt,
        "STRUCT( DOC_COMMENT( OUTER_DOC_COMMENT:///a ) ATTR( POUND:#1 ) DOC_COMMENT( OUTER_DOC_COMMENT:///b ) ATTR( POUND:#2 ) STRUCT_KW:struct )",
    )?;
    let without: ast::Struct = view(
        &rt,
        "STRUCT( DOC_COMMENT( OUTER_DOC_COMMENT:///a ) STRUCT_KW:struct )",
    )?;
    all_hold(&[
        (
            "in its order",
            is(attributes_from_the_end(&rt, &owner), "#2|#1|"),
        ),
        ("none", is(attributes_from_the_end(&rt, &without), "")),
    ])
}
