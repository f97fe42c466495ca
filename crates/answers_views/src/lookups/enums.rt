// Plain lookups in enums. Made by `tools/views` from `views.txt`.
use crate::sheet::Sheet;
use ra_ap_syntax::SyntaxNode;
use ra_ap_syntax::ast::{self, AstNode, cast_ref};
use std::alloc::AllocError;

/// Prints the results, for a node, of the plain lookups in enums.
pub fn answers(sheet: &mut Sheet, node: &SyntaxNode) -> Result<(), AllocError> {
    of_meta(sheet, node)
}

fn of_meta(sheet: &mut Sheet, node: &SyntaxNode) -> Result<(), AllocError> {
    let Some(it) = cast_ref::<ast::Meta>(node) else {
        return Ok(());
    };
    sheet.node("Meta.expr", it.expr())?;
    sheet.token("Meta.eq_token", it.eq_token())?;
    sheet.node("Meta.token_tree", it.token_tree())?;
    sheet.token("Meta.l_paren_token", it.l_paren_token())?;
    rest_of_meta(sheet, &it)
}

fn rest_of_meta(sheet: &mut Sheet, it: &ast::Meta) -> Result<(), AllocError> {
    sheet.token("Meta.r_paren_token", it.r_paren_token())?;
    sheet.token("Meta.unsafe_token", it.unsafe_token())
}
