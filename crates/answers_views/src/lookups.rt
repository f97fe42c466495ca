// Plain lookups. Made by `tools/views` from `views.txt`.
mod attr;
mod control;
mod enums;
mod expr;
mod generic;
mod item;
mod part;
mod pat;
mod path;
mod rust_asm;
mod rust_expr;
mod rust_item;
mod rust_pat;
mod rust_path;
mod shared;
mod stmt;
mod ty;

use crate::sheet::Sheet;
use ra_ap_syntax::SyntaxNode;
use std::alloc::AllocError;

/// Prints the results of the plain lookups for a node.
pub fn answers(sheet: &mut Sheet, node: &SyntaxNode) -> Result<(), AllocError> {
    attr::answers(sheet, node)?;
    control::answers(sheet, node)?;
    enums::answers(sheet, node)?;
    expr::answers(sheet, node)?;
    generic::answers(sheet, node)?;
    item::answers(sheet, node)?;
    part::answers(sheet, node)?;
    pat::answers(sheet, node)?;
    from_path(sheet, node)
}

fn from_path(sheet: &mut Sheet, node: &SyntaxNode) -> Result<(), AllocError> {
    path::answers(sheet, node)?;
    rust_asm::answers(sheet, node)?;
    rust_expr::answers(sheet, node)?;
    rust_item::answers(sheet, node)?;
    rust_pat::answers(sheet, node)?;
    rust_path::answers(sheet, node)?;
    shared::answers(sheet, node)?;
    stmt::answers(sheet, node)?;
    from_ty(sheet, node)
}

fn from_ty(sheet: &mut Sheet, node: &SyntaxNode) -> Result<(), AllocError> {
    ty::answers(sheet, node)
}
