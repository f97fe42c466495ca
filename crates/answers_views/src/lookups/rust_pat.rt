// Plain lookups in patterns, of `rust_views`. Made by `tools/views` from `views.txt`.
use crate::sheet::Sheet;
use ra_ap_syntax::SyntaxNode;
use ra_ap_syntax::ast::{self, AstNode, cast_ref};
use rust_views::{BoxPatExt, RecordPatExt, RecordPatFieldList, RecordPatFieldListExt};
use std::alloc::AllocError;

/// Prints the results, for a node, of the plain lookups in patterns, of `rust_views`.
pub fn answers(sheet: &mut Sheet, node: &SyntaxNode) -> Result<(), AllocError> {
    of_box_pat(sheet, node)?;
    of_record_pat(sheet, node)?;
    of_record_pat_field_list(sheet, node)
}

fn of_box_pat(sheet: &mut Sheet, node: &SyntaxNode) -> Result<(), AllocError> {
    let Some(it) = cast_ref::<ast::BoxPat>(node) else {
        return Ok(());
    };
    sheet.token("BoxPat.box_token", it.box_token())
}

fn of_record_pat(sheet: &mut Sheet, node: &SyntaxNode) -> Result<(), AllocError> {
    let Some(it) = cast_ref::<ast::RecordPat>(node) else {
        return Ok(());
    };
    sheet.node(
        "RecordPat.record_pat_field_list",
        it.record_pat_field_list(),
    )
}

fn of_record_pat_field_list(sheet: &mut Sheet, node: &SyntaxNode) -> Result<(), AllocError> {
    let Some(it) = cast_ref::<RecordPatFieldList>(node) else {
        return Ok(());
    };
    sheet.nodes("RecordPatFieldList.fields", it.fields())?;
    sheet.node("RecordPatFieldList.rest_pat", it.rest_pat())?;
    sheet.token("RecordPatFieldList.l_curly_token", it.l_curly_token())?;
    sheet.token("RecordPatFieldList.r_curly_token", it.r_curly_token())
}
