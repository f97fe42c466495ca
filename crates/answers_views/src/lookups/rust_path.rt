// Plain lookups in paths, generic arguments and bounds, of `rust_views`. Made by `tools/views` from
// `views.txt`.
use crate::sheet::Sheet;
use ra_ap_syntax::SyntaxNode;
use ra_ap_syntax::ast::{self, AstNode, cast_ref};
use rust_views::{
    AssocTypeArgExt, ParenthesizedArgList, ParenthesizedArgListExt, PathSegmentExt,
    ReturnTypeSyntax, ReturnTypeSyntaxExt, UseBoundGenericArgsExt,
};
use std::alloc::AllocError;

/// Prints the results, for a node, of the plain lookups in paths, generic arguments and bounds, of
/// `rust_views`.
pub fn answers(sheet: &mut Sheet, node: &SyntaxNode) -> Result<(), AllocError> {
    of_assoc_type_arg(sheet, node)?;
    of_parenthesized_arg_list(sheet, node)?;
    of_path_segment(sheet, node)?;
    of_return_type_syntax(sheet, node)?;
    of_use_bound_generic_args(sheet, node)
}

fn of_assoc_type_arg(sheet: &mut Sheet, node: &SyntaxNode) -> Result<(), AllocError> {
    let Some(it) = cast_ref::<ast::AssocTypeArg>(node) else {
        return Ok(());
    };
    sheet.node("AssocTypeArg.return_type_syntax", it.return_type_syntax())
}

fn of_parenthesized_arg_list(sheet: &mut Sheet, node: &SyntaxNode) -> Result<(), AllocError> {
    let Some(it) = cast_ref::<ParenthesizedArgList>(node) else {
        return Ok(());
    };
    sheet.nodes("ParenthesizedArgList.type_args", it.type_args())?;
    sheet.token(
        "ParenthesizedArgList.coloncolon_token",
        it.coloncolon_token(),
    )?;
    sheet.token("ParenthesizedArgList.l_paren_token", it.l_paren_token())?;
    sheet.token("ParenthesizedArgList.r_paren_token", it.r_paren_token())
}

fn of_path_segment(sheet: &mut Sheet, node: &SyntaxNode) -> Result<(), AllocError> {
    let Some(it) = cast_ref::<ast::PathSegment>(node) else {
        return Ok(());
    };
    sheet.node(
        "PathSegment.parenthesized_arg_list",
        it.parenthesized_arg_list(),
    )?;
    sheet.node("PathSegment.return_type_syntax", it.return_type_syntax())
}

fn of_return_type_syntax(sheet: &mut Sheet, node: &SyntaxNode) -> Result<(), AllocError> {
    let Some(it) = cast_ref::<ReturnTypeSyntax>(node) else {
        return Ok(());
    };
    sheet.token("ReturnTypeSyntax.dotdot_token", it.dotdot_token())?;
    sheet.token("ReturnTypeSyntax.l_paren_token", it.l_paren_token())?;
    sheet.token("ReturnTypeSyntax.r_paren_token", it.r_paren_token())
}

fn of_use_bound_generic_args(sheet: &mut Sheet, node: &SyntaxNode) -> Result<(), AllocError> {
    let Some(it) = cast_ref::<ast::UseBoundGenericArgs>(node) else {
        return Ok(());
    };
    sheet.nodes(
        "UseBoundGenericArgs.use_bound_generic_args",
        it.use_bound_generic_args(),
    )
}
