// Plain lookups in patterns. Made by `tools/views` from `views.txt`.
use crate::sheet::Sheet;
use ra_ap_syntax::SyntaxNode;
use ra_ap_syntax::ast::{self, AstNode, cast_ref};
use std::alloc::AllocError;

/// Prints the results, for a node, of the plain lookups in patterns.
pub fn answers(sheet: &mut Sheet, node: &SyntaxNode) -> Result<(), AllocError> {
    of_box_pat(sheet, node)?;
    of_const_block_pat(sheet, node)?;
    of_ident_pat(sheet, node)?;
    of_literal_pat(sheet, node)?;
    of_macro_pat(sheet, node)?;
    of_or_pat(sheet, node)?;
    of_paren_pat(sheet, node)?;
    of_path_pat(sheet, node)?;
    from_record_pat(sheet, node)
}

fn from_record_pat(sheet: &mut Sheet, node: &SyntaxNode) -> Result<(), AllocError> {
    of_record_pat(sheet, node)?;
    of_record_pat_field(sheet, node)?;
    of_ref_pat(sheet, node)?;
    of_rest_pat(sheet, node)?;
    of_slice_pat(sheet, node)?;
    of_tuple_pat(sheet, node)?;
    of_tuple_struct_pat(sheet, node)?;
    of_wildcard_pat(sheet, node)
}

fn of_box_pat(sheet: &mut Sheet, node: &SyntaxNode) -> Result<(), AllocError> {
    let Some(it) = cast_ref::<ast::BoxPat>(node) else {
        return Ok(());
    };
    sheet.node("BoxPat.pat", it.pat())
}

fn of_const_block_pat(sheet: &mut Sheet, node: &SyntaxNode) -> Result<(), AllocError> {
    let Some(it) = cast_ref::<ast::ConstBlockPat>(node) else {
        return Ok(());
    };
    sheet.node("ConstBlockPat.block_expr", it.block_expr())?;
    sheet.token("ConstBlockPat.const_token", it.const_token())
}

fn of_ident_pat(sheet: &mut Sheet, node: &SyntaxNode) -> Result<(), AllocError> {
    let Some(it) = cast_ref::<ast::IdentPat>(node) else {
        return Ok(());
    };
    sheet.node("IdentPat.pat", it.pat())?;
    sheet.token("IdentPat.at_token", it.at_token())?;
    sheet.token("IdentPat.mut_token", it.mut_token())?;
    sheet.token("IdentPat.ref_token", it.ref_token())
}

fn of_literal_pat(sheet: &mut Sheet, node: &SyntaxNode) -> Result<(), AllocError> {
    let Some(it) = cast_ref::<ast::LiteralPat>(node) else {
        return Ok(());
    };
    sheet.node("LiteralPat.literal", it.literal())?;
    sheet.token("LiteralPat.minus_token", it.minus_token())
}

fn of_macro_pat(sheet: &mut Sheet, node: &SyntaxNode) -> Result<(), AllocError> {
    let Some(it) = cast_ref::<ast::MacroPat>(node) else {
        return Ok(());
    };
    sheet.node("MacroPat.macro_call", it.macro_call())
}

fn of_or_pat(sheet: &mut Sheet, node: &SyntaxNode) -> Result<(), AllocError> {
    let Some(it) = cast_ref::<ast::OrPat>(node) else {
        return Ok(());
    };
    sheet.nodes("OrPat.pats", it.pats())?;
    sheet.token("OrPat.pipe_token", it.pipe_token())
}

fn of_paren_pat(sheet: &mut Sheet, node: &SyntaxNode) -> Result<(), AllocError> {
    let Some(it) = cast_ref::<ast::ParenPat>(node) else {
        return Ok(());
    };
    sheet.node("ParenPat.pat", it.pat())?;
    sheet.token("ParenPat.l_paren_token", it.l_paren_token())?;
    sheet.token("ParenPat.r_paren_token", it.r_paren_token())
}

fn of_path_pat(sheet: &mut Sheet, node: &SyntaxNode) -> Result<(), AllocError> {
    let Some(it) = cast_ref::<ast::PathPat>(node) else {
        return Ok(());
    };
    sheet.node("PathPat.path", it.path())
}

fn of_record_pat(sheet: &mut Sheet, node: &SyntaxNode) -> Result<(), AllocError> {
    let Some(it) = cast_ref::<ast::RecordPat>(node) else {
        return Ok(());
    };
    sheet.node("RecordPat.path", it.path())
}

fn of_record_pat_field(sheet: &mut Sheet, node: &SyntaxNode) -> Result<(), AllocError> {
    let Some(it) = cast_ref::<ast::RecordPatField>(node) else {
        return Ok(());
    };
    sheet.node("RecordPatField.name_ref", it.name_ref())?;
    sheet.node("RecordPatField.pat", it.pat())?;
    sheet.token("RecordPatField.colon_token", it.colon_token())
}

fn of_ref_pat(sheet: &mut Sheet, node: &SyntaxNode) -> Result<(), AllocError> {
    let Some(it) = cast_ref::<ast::RefPat>(node) else {
        return Ok(());
    };
    sheet.node("RefPat.pat", it.pat())?;
    sheet.token("RefPat.amp_token", it.amp_token())?;
    sheet.token("RefPat.mut_token", it.mut_token())
}

fn of_rest_pat(sheet: &mut Sheet, node: &SyntaxNode) -> Result<(), AllocError> {
    let Some(it) = cast_ref::<ast::RestPat>(node) else {
        return Ok(());
    };
    sheet.token("RestPat.dotdot_token", it.dotdot_token())
}

fn of_slice_pat(sheet: &mut Sheet, node: &SyntaxNode) -> Result<(), AllocError> {
    let Some(it) = cast_ref::<ast::SlicePat>(node) else {
        return Ok(());
    };
    sheet.nodes("SlicePat.pats", it.pats())?;
    sheet.token("SlicePat.l_brack_token", it.l_brack_token())?;
    sheet.token("SlicePat.r_brack_token", it.r_brack_token())
}

fn of_tuple_pat(sheet: &mut Sheet, node: &SyntaxNode) -> Result<(), AllocError> {
    let Some(it) = cast_ref::<ast::TuplePat>(node) else {
        return Ok(());
    };
    sheet.nodes("TuplePat.fields", it.fields())?;
    sheet.token("TuplePat.l_paren_token", it.l_paren_token())?;
    sheet.token("TuplePat.r_paren_token", it.r_paren_token())
}

fn of_tuple_struct_pat(sheet: &mut Sheet, node: &SyntaxNode) -> Result<(), AllocError> {
    let Some(it) = cast_ref::<ast::TupleStructPat>(node) else {
        return Ok(());
    };
    sheet.nodes("TupleStructPat.fields", it.fields())?;
    sheet.node("TupleStructPat.path", it.path())?;
    sheet.token("TupleStructPat.l_paren_token", it.l_paren_token())?;
    sheet.token("TupleStructPat.r_paren_token", it.r_paren_token())
}

fn of_wildcard_pat(sheet: &mut Sheet, node: &SyntaxNode) -> Result<(), AllocError> {
    let Some(it) = cast_ref::<ast::WildcardPat>(node) else {
        return Ok(());
    };
    sheet.token("WildcardPat.underscore_token", it.underscore_token())
}
