// The bodies of loops.
use crate::sheet::Sheet;
use ra_ap_syntax::SyntaxNode;
use ra_ap_syntax::ast::{self, HasLoopBody, cast_ref};
use std::alloc::AllocError;

/// Prints what the body of a loop is.
pub fn answers(sheet: &mut Sheet, node: &SyntaxNode) -> Result<(), AllocError> {
    loop_body::<ast::ForExpr>(sheet, "ForExpr.loop_body", node)?;
    loop_body::<ast::LoopExpr>(sheet, "LoopExpr.loop_body", node)?;
    loop_body::<ast::WhileExpr>(sheet, "WhileExpr.loop_body", node)
}

fn loop_body<N: HasLoopBody + Drop>(
    sheet: &mut Sheet,
    call: &str,
    node: &SyntaxNode,
) -> Result<(), AllocError> {
    let Some(it) = cast_ref::<N>(node) else {
        return Ok(());
    };
    sheet.node(call, it.loop_body())
}
