//! The calls `reads_back` and `needless_parens` on expressions of a thousand to a million
//! operators. A row of a table for each call, shape and size has the least nanoseconds for each
//! operator, of a few runs.

mod call;
mod shape;

use crate::stopped::Stopped;
use crate::timing::least_time;
use call::Call;
use ra_ap_syntax::{Edition, ast};
use shape::Shape;
use tiny_front::Tiny;

const SHAPES: [Shape; 6] = [
    Shape::Flat,
    Shape::Pairs,
    Shape::Prefixes,
    Shape::Postfixes,
    Shape::Arguments,
    Shape::Mixed,
];

const SIZES: [u32; 4] = [1_000, 10_000, 100_000, 1_000_000];

const RUNS: u32 = 5;

// Tenths of a nanosecond for each operator.
fn per_operator(nanoseconds: u128, operators: u32) -> u64 {
    let tenths = u64::try_from(nanoseconds)
        .unwrap_or(u64::MAX)
        .saturating_mul(10);
    tenths.checked_div(operators as u64).unwrap_or(0)
}

fn time_calls(
    rt: &HostRuntime,
    shape: Shape,
    operators: u32,
    expr: &ast::Expr,
) -> Result<(), Stopped> {
    for call in [Call::ReadsBack, Call::NeedlessParens] {
        let (least, found) = least_time(rt, RUNS, 0, || Ok(call.run(rt.alloc(), expr)?))?;
        let tenths = per_operator(least, operators);
        println!(rt;
            "| `{}` | {} | {operators} | {}.{} | {found} |",
            call.name(),
            shape.name(),
            tenths / 10,
            tenths % 10
        )?;
    }
    Ok(())
}

fn time_shape(rt: &HostRuntime, shape: Shape, operators: u32) -> Result<(), Stopped> {
    let text = shape.text(rt.alloc(), operators)?;
    let parse = ast::Expr::parse(rt.alloc(), text.as_str(), &Tiny, Edition::CURRENT)?;
    match parse.tree() {
        Some(expr) => time_calls(rt, shape, operators, &expr),
        None => Err(Stopped::NoExpression),
    }
}

/// Measures every shape, and prints the table.
pub fn time_operators(rt: &HostRuntime) -> Result<(), Stopped> {
    println!(rt;
        "| call | shape | operators | ns an operator | pairs found |\n|---|---|---:|---:|---:|"
    )?;
    for shape in SHAPES {
        for operators in SIZES {
            time_shape(rt, shape, operators)?;
        }
    }
    Ok(())
}
