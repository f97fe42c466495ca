// Attributes, documentation comments and token trees: accessors that are not plain lookups.
use crate::sheet::Sheet;
use ra_ap_syntax::ast::{
    self, AnyAttr, AnyHasAttrs, AstNode, AttrKind, HasAttrs, Meta, TokenTreeChildren, cast_ref,
};
use ra_ap_syntax::{SyntaxNode, SyntaxToken};
use std::alloc::AllocError;

/// Prints the results, for a node, of the accessors of attributes, documentation comments and token
/// trees that are not plain lookups.
pub fn answers(sheet: &mut Sheet, node: &SyntaxNode) -> Result<(), AllocError> {
    meta(sheet, node)?;
    opened_meta(sheet, node)?;
    meta_words(sheet, node)?;
    attr(sheet, node)?;
    attr_words(sheet, node)?;
    doc_comment(sheet, node)?;
    any_attr(sheet, node)?;
    answers_from_cfg_atom(sheet, node)
}

fn answers_from_cfg_atom(sheet: &mut Sheet, node: &SyntaxNode) -> Result<(), AllocError> {
    cfg_atom(sheet, node)?;
    token_tree(sheet, node)?;
    owner(sheet, node)?;
    owner_with_inner(sheet, node)
}

// The name and the arguments of a meta that is a call; the two calls name them.
fn simple_call(
    sheet: &mut Sheet,
    name_call: &str,
    tree_call: &str,
    answer: Result<Option<(String, ast::TokenTree)>, AllocError>,
) -> Result<(), AllocError> {
    match answer {
        Ok(Some((name, tree))) => name_and_tree(sheet, name_call, name, tree_call, tree),
        Ok(None) => sheet.word(name_call, "-"),
        Err(_) => sheet.refused(name_call),
    }
}

fn name_and_tree(
    sheet: &mut Sheet,
    name_call: &str,
    name: String,
    tree_call: &str,
    tree: ast::TokenTree,
) -> Result<(), AllocError> {
    sheet.string(name_call, Some(name))?;
    sheet.node(tree_call, Some(tree))
}

fn meta(sheet: &mut Sheet, node: &SyntaxNode) -> Result<(), AllocError> {
    match cast_ref::<Meta>(node) {
        Some(it) => meta_paths(sheet, &it),
        None => Ok(()),
    }
}

fn meta_paths(sheet: &mut Sheet, it: &Meta) -> Result<(), AllocError> {
    sheet.node("Meta.path", it.path())?;
    sheet.node("Meta.as_simple_path", it.as_simple_path())?;
    sheet.node("Meta.parent_attr", it.parent_attr())
}

fn opened_meta(sheet: &mut Sheet, node: &SyntaxNode) -> Result<(), AllocError> {
    let alloc = sheet.alloc();
    match cast_ref::<Meta>(node) {
        Some(it) => sheet.asked_slice("Meta.skip_cfg_attrs", it.skip_cfg_attrs(alloc)),
        None => Ok(()),
    }
}

fn words_of_meta(sheet: &mut Sheet, it: &Meta) -> Result<(), AllocError> {
    let alloc = sheet.alloc();
    sheet.asked("Meta.as_simple_atom", it.as_simple_atom(alloc))?;
    sheet.asked("Meta.simple_name", it.simple_name(alloc))?;
    let answer = it.as_simple_call(alloc);
    simple_call(
        sheet,
        "Meta.as_simple_call.0",
        "Meta.as_simple_call.1",
        answer,
    )
}

fn meta_words(sheet: &mut Sheet, node: &SyntaxNode) -> Result<(), AllocError> {
    match cast_ref::<Meta>(node) {
        Some(it) => words_of_meta(sheet, &it),
        None => Ok(()),
    }
}

fn attr(sheet: &mut Sheet, node: &SyntaxNode) -> Result<(), AllocError> {
    let Some(it) = cast_ref::<ast::Attr>(node) else {
        return Ok(());
    };
    let alloc = sheet.alloc();
    sheet.value("Attr.kind", Some(it.kind()))?;
    sheet.node("Attr.path", it.path())?;
    sheet.node("Attr.as_simple_path", it.as_simple_path())?;
    sheet.asked_slice("Attr.skip_cfg_attrs", it.skip_cfg_attrs(alloc))
}

fn attr_words(sheet: &mut Sheet, node: &SyntaxNode) -> Result<(), AllocError> {
    match cast_ref::<ast::Attr>(node) {
        Some(it) => words_of_attr(sheet, &it),
        None => Ok(()),
    }
}

fn words_of_attr(sheet: &mut Sheet, it: &ast::Attr) -> Result<(), AllocError> {
    let alloc = sheet.alloc();
    sheet.asked("Attr.as_simple_atom", it.as_simple_atom(alloc))?;
    sheet.asked("Attr.simple_name", it.simple_name(alloc))?;
    let answer = it.as_simple_call(alloc);
    simple_call(
        sheet,
        "Attr.as_simple_call.0",
        "Attr.as_simple_call.1",
        answer,
    )
}

fn doc_comment(sheet: &mut Sheet, node: &SyntaxNode) -> Result<(), AllocError> {
    match cast_ref::<ast::DocComment>(node) {
        Some(it) => doc_comment_parts(sheet, &it),
        None => Ok(()),
    }
}

fn doc_comment_parts(sheet: &mut Sheet, it: &ast::DocComment) -> Result<(), AllocError> {
    sheet.value("DocComment.kind", Some(it.kind()))?;
    sheet.typed_token("DocComment.token", it.token())?;
    sheet.value("DocComment.shape", it.shape())?;
    doc_comment_texts(sheet, it)
}

fn doc_comment_texts(sheet: &mut Sheet, it: &ast::DocComment) -> Result<(), AllocError> {
    sheet.text("DocComment.text_with_markers", it.text_with_markers())?;
    sheet.text("DocComment.text", it.text())
}

fn any_attr(sheet: &mut Sheet, node: &SyntaxNode) -> Result<(), AllocError> {
    match cast_ref::<AnyAttr>(node) {
        Some(it) => attr_kind(sheet, it.kind()),
        None => Ok(()),
    }
}

fn attr_kind(sheet: &mut Sheet, kind: AttrKind) -> Result<(), AllocError> {
    sheet.value("AnyAttr.kind", Some(kind))?;
    sheet.flag("AttrKind.is_inner", kind.is_inner())?;
    sheet.flag("AttrKind.is_outer", kind.is_outer())
}

fn cfg_atom(sheet: &mut Sheet, node: &SyntaxNode) -> Result<(), AllocError> {
    match cast_ref::<ast::CfgAtom>(node) {
        Some(it) => cfg_atom_key(sheet, it.key()),
        None => Ok(()),
    }
}

fn cfg_atom_ident(sheet: &mut Sheet, token: SyntaxToken) -> Result<(), AllocError> {
    sheet.word("CfgAtom.key", "Ident")?;
    sheet.token("CfgAtom.key.0", Some(token))
}

fn cfg_atom_key(sheet: &mut Sheet, found: Option<ast::CfgAtomKey>) -> Result<(), AllocError> {
    match found {
        Some(ast::CfgAtomKey::True) => sheet.word("CfgAtom.key", "True"),
        Some(ast::CfgAtomKey::False) => sheet.word("CfgAtom.key", "False"),
        Some(ast::CfgAtomKey::Ident(token)) => cfg_atom_ident(sheet, token),
        None => sheet.word("CfgAtom.key", "-"),
    }
}

fn token_tree(sheet: &mut Sheet, node: &SyntaxNode) -> Result<(), AllocError> {
    let Some(it) = cast_ref::<ast::TokenTree>(node) else {
        return Ok(());
    };
    sheet.token("TokenTree.left_delimiter_token", it.left_delimiter_token())?;
    sheet.token(
        "TokenTree.right_delimiter_token",
        it.right_delimiter_token(),
    )?;
    sheet.node("TokenTree.parent_meta", it.parent_meta())?;
    sheet.parts(
        "TokenTree.token_trees_and_tokens",
        it.token_trees_and_tokens(),
    )?;
    sheet.parts("TokenTreeChildren", TokenTreeChildren::new(&it))
}

fn owner(sheet: &mut Sheet, node: &SyntaxNode) -> Result<(), AllocError> {
    let Some(it) = cast_ref::<AnyHasAttrs>(node) else {
        return Ok(());
    };
    sheet.nodes("HasAttrs.attrs", it.attrs())?;
    sheet.nodes("HasAttrs.doc_comments", it.doc_comments())?;
    sheet.nodes("HasAttrs.attrs_with_doc", it.attrs_with_doc())
}

fn owner_with_inner(sheet: &mut Sheet, node: &SyntaxNode) -> Result<(), AllocError> {
    let Some(it) = cast_ref::<AnyHasAttrs>(node) else {
        return Ok(());
    };
    sheet.plain("HasAttrs.inner_attributes_node", it.inner_attributes_node())?;
    let all = ast::attrs_with_doc_including_inner(&it);
    sheet.nodes("attrs_with_doc_including_inner", all)?;
    sheet.nodes("attrs_including_inner", ast::attrs_including_inner(&it))
}
