// The rules over nodes: precedences, parentheses, and the violations of a tree.
use crate::sheet::Sheet;
use ra_ap_syntax::SyntaxNode;
use ra_ap_syntax::ast::{self, cast_ref, prec};
use std::alloc::AllocError;

/// Prints the results of the rules over nodes for a node.
pub fn answers(sheet: &mut Sheet, node: &SyntaxNode) -> Result<(), AllocError> {
    any_expr(sheet, node)?;
    type_parens(sheet, node)
}

fn any_expr(sheet: &mut Sheet, node: &SyntaxNode) -> Result<(), AllocError> {
    match cast_ref::<ast::Expr>(node) {
        Some(it) => expr(sheet, node, &it),
        None => Ok(()),
    }
}

fn expr(sheet: &mut Sheet, node: &SyntaxNode, it: &ast::Expr) -> Result<(), AllocError> {
    precedence(sheet, it)?;
    needless(sheet, it)?;
    match node.parent() {
        Some(parent) => parens(sheet, node, &parent, it),
        None => Ok(()),
    }
}

fn precedence(sheet: &mut Sheet, it: &ast::Expr) -> Result<(), AllocError> {
    sheet.value("Expr.precedence", Some(it.precedence()))?;
    let valueless = it.is_ret_like_with_no_value();
    sheet.flag("Expr.is_ret_like_with_no_value", valueless)?;
    sheet.value("reads_back", prec::reads_back(it))
}

fn needless(sheet: &mut Sheet, it: &ast::Expr) -> Result<(), AllocError> {
    match prec::needless_parens(sheet.alloc(), it) {
        Ok(Some(pairs)) => sheet.slice("needless_parens", pairs.as_slice()),
        Ok(None) => sheet.word("needless_parens", "-"),
        Err(_) => sheet.refused("needless_parens"),
    }
}

fn parens(
    sheet: &mut Sheet,
    node: &SyntaxNode,
    parent: &SyntaxNode,
    it: &ast::Expr,
) -> Result<(), AllocError> {
    sheet.flag("Expr.needs_parens_in", it.needs_parens_in(parent))?;
    let in_place = it.needs_parens_in_place_of(parent, node);
    sheet.flag("Expr.needs_parens_in_place_of", in_place)
}

fn type_parens(sheet: &mut Sheet, node: &SyntaxNode) -> Result<(), AllocError> {
    match node.parent() {
        Some(parent) => type_parens_in(sheet, node, &parent),
        None => Ok(()),
    }
}

fn type_parens_in(
    sheet: &mut Sheet,
    node: &SyntaxNode,
    parent: &SyntaxNode,
) -> Result<(), AllocError> {
    match cast_ref::<ast::Type>(node) {
        Some(it) => sheet.flag("Type.needs_parens_in", it.needs_parens_in(parent)),
        None => Ok(()),
    }
}

/// The rules that a tree breaks.
pub fn violations(sheet: &mut Sheet, root: &SyntaxNode) -> Result<(), AllocError> {
    let Ok(violations) = ras_validation::violations(sheet.alloc(), root) else {
        return sheet.refused("violations");
    };
    for found in &violations {
        let range = found.range;
        sheet.broken(range, found.message())?;
    }
    Ok(())
}
