//! The test for parentheses where it walks far: below an `if`, an `&&`, a statement, a `let` with
//! `else` and a cast, over trees that are wide or deep, broken ones too. A row of a table for each
//! walk and size has the least nanoseconds of a few calls, for each element.

mod walk;

use crate::stopped::Stopped;
use crate::timing::least_time;
use ra_ap_syntax::{AstNode, SyntaxNode, ast};
use walk::Walk;

const WALKS: [Walk; 9] = [
    Walk::WideCondition,
    Walk::DeepCondition,
    Walk::OperandOfCondition,
    Walk::PrefixesOfCondition,
    Walk::SumBelowAnd,
    Walk::WideBelowAnd,
    Walk::OperandOfStatement,
    Walk::InitializerBeforeElse,
    Walk::WideCast,
];

const SIZES: [u32; 4] = [1_000, 10_000, 100_000, 1_000_000];

const RUNS: u32 = 5;

fn asked(node: &SyntaxNode) -> Result<bool, Stopped> {
    let parent = node.parent().ok_or(Stopped::NoExpression)?;
    let expr = ast::Expr::cast(node.clone()?).ok_or(Stopped::NoExpression)?;
    Ok(expr.needs_parens_in(&parent))
}

fn time_walk(rt: &HostRuntime, walk: Walk, size: u32) -> Result<(), Stopped> {
    let root = walk.tree(rt.alloc(), size)?;
    let node = walk.place(&root).ok_or(Stopped::NoExpression)?;
    let (least, needs) = least_time(rt, RUNS, false, || asked(&node))?;
    let tenths = u64::try_from(least)
        .unwrap_or(u64::MAX)
        .saturating_mul(10)
        .checked_div(size as u64)
        .unwrap_or(0);
    println!(rt;
        "| {} | {size} | {}.{} | {needs} |",
        walk.name(),
        tenths / 10,
        tenths % 10
    )?;
    Ok(())
}

/// Measures every walk, and prints the table.
pub fn time_walks(rt: &HostRuntime) -> Result<(), Stopped> {
    println!(rt;
        "| asked of | elements | ns an element | needs parentheses |\n|---|---:|---:|---|"
    )?;
    for walk in WALKS {
        for size in SIZES {
            time_walk(rt, walk, size)?;
        }
    }
    Ok(())
}
