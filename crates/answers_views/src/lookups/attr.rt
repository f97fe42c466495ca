// Plain lookups in attributes and doc comments. Made by `tools/views` from `views.txt`.
use crate::sheet::Sheet;
use ra_ap_syntax::SyntaxNode;
use ra_ap_syntax::ast::{self, AstNode, cast_ref};
use std::alloc::AllocError;

/// Prints the results, for a node, of the plain lookups in attributes and doc comments.
pub fn answers(sheet: &mut Sheet, node: &SyntaxNode) -> Result<(), AllocError> {
    of_attr(sheet, node)?;
    of_cfg_atom(sheet, node)?;
    of_cfg_attr_meta(sheet, node)?;
    of_cfg_meta(sheet, node)?;
    of_doc_comment(sheet, node)?;
    of_key_value_meta(sheet, node)?;
    of_path_meta(sheet, node)?;
    of_token_tree(sheet, node)?;
    from_token_tree_meta(sheet, node)
}

fn from_token_tree_meta(sheet: &mut Sheet, node: &SyntaxNode) -> Result<(), AllocError> {
    of_token_tree_meta(sheet, node)?;
    of_unsafe_meta(sheet, node)
}

fn of_attr(sheet: &mut Sheet, node: &SyntaxNode) -> Result<(), AllocError> {
    let Some(it) = cast_ref::<ast::Attr>(node) else {
        return Ok(());
    };
    sheet.node("Attr.meta", it.meta())?;
    sheet.token("Attr.l_brack_token", it.l_brack_token())?;
    sheet.token("Attr.pound_token", it.pound_token())?;
    sheet.token("Attr.r_brack_token", it.r_brack_token())?;
    sheet.token("Attr.excl_token", it.excl_token())
}

fn of_cfg_atom(sheet: &mut Sheet, node: &SyntaxNode) -> Result<(), AllocError> {
    let Some(it) = cast_ref::<ast::CfgAtom>(node) else {
        return Ok(());
    };
    sheet.token("CfgAtom.ident_token", it.ident_token())?;
    sheet.token("CfgAtom.true_token", it.true_token())?;
    sheet.token("CfgAtom.false_token", it.false_token())
}

fn of_cfg_attr_meta(sheet: &mut Sheet, node: &SyntaxNode) -> Result<(), AllocError> {
    let Some(it) = cast_ref::<ast::CfgAttrMeta>(node) else {
        return Ok(());
    };
    sheet.nodes("CfgAttrMeta.metas", it.metas())?;
    sheet.token("CfgAttrMeta.comma_token", it.comma_token())?;
    sheet.token("CfgAttrMeta.l_paren_token", it.l_paren_token())?;
    sheet.token("CfgAttrMeta.r_paren_token", it.r_paren_token())
}

fn of_cfg_meta(sheet: &mut Sheet, node: &SyntaxNode) -> Result<(), AllocError> {
    let Some(it) = cast_ref::<ast::CfgMeta>(node) else {
        return Ok(());
    };
    sheet.token("CfgMeta.l_paren_token", it.l_paren_token())?;
    sheet.token("CfgMeta.r_paren_token", it.r_paren_token())
}

fn of_doc_comment(sheet: &mut Sheet, node: &SyntaxNode) -> Result<(), AllocError> {
    let Some(it) = cast_ref::<ast::DocComment>(node) else {
        return Ok(());
    };
    sheet.token(
        "DocComment.outer_doc_comment_token",
        it.outer_doc_comment_token(),
    )?;
    sheet.token(
        "DocComment.inner_doc_comment_token",
        it.inner_doc_comment_token(),
    )
}

fn of_key_value_meta(sheet: &mut Sheet, node: &SyntaxNode) -> Result<(), AllocError> {
    let Some(it) = cast_ref::<ast::KeyValueMeta>(node) else {
        return Ok(());
    };
    sheet.node("KeyValueMeta.expr", it.expr())?;
    sheet.node("KeyValueMeta.path", it.path())?;
    sheet.token("KeyValueMeta.eq_token", it.eq_token())
}

fn of_path_meta(sheet: &mut Sheet, node: &SyntaxNode) -> Result<(), AllocError> {
    let Some(it) = cast_ref::<ast::PathMeta>(node) else {
        return Ok(());
    };
    sheet.node("PathMeta.path", it.path())
}

fn of_token_tree(sheet: &mut Sheet, node: &SyntaxNode) -> Result<(), AllocError> {
    let Some(it) = cast_ref::<ast::TokenTree>(node) else {
        return Ok(());
    };
    sheet.token("TokenTree.l_paren_token", it.l_paren_token())?;
    sheet.token("TokenTree.r_paren_token", it.r_paren_token())?;
    sheet.token("TokenTree.l_brack_token", it.l_brack_token())?;
    sheet.token("TokenTree.r_brack_token", it.r_brack_token())?;
    rest_of_token_tree(sheet, &it)
}

fn rest_of_token_tree(sheet: &mut Sheet, it: &ast::TokenTree) -> Result<(), AllocError> {
    sheet.token("TokenTree.l_curly_token", it.l_curly_token())?;
    sheet.token("TokenTree.r_curly_token", it.r_curly_token())
}

fn of_token_tree_meta(sheet: &mut Sheet, node: &SyntaxNode) -> Result<(), AllocError> {
    let Some(it) = cast_ref::<ast::TokenTreeMeta>(node) else {
        return Ok(());
    };
    sheet.node("TokenTreeMeta.path", it.path())?;
    sheet.node("TokenTreeMeta.token_tree", it.token_tree())
}

fn of_unsafe_meta(sheet: &mut Sheet, node: &SyntaxNode) -> Result<(), AllocError> {
    let Some(it) = cast_ref::<ast::UnsafeMeta>(node) else {
        return Ok(());
    };
    sheet.node("UnsafeMeta.meta", it.meta())?;
    sheet.token("UnsafeMeta.l_paren_token", it.l_paren_token())?;
    sheet.token("UnsafeMeta.r_paren_token", it.r_paren_token())?;
    sheet.token("UnsafeMeta.unsafe_token", it.unsafe_token())
}
