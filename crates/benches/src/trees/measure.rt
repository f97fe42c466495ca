//! Runs an operation a few times and prints the least time.

use super::operation::{Operation, Seen, deepest};
use super::shape::Shape;
use crate::stopped::Stopped;
use crate::timing::least_time;
use lossless_tree::SyntaxNode;
use std::time::Instant;

// A line of what was measured.
fn print(
    rt: &HostRuntime,
    name: &str,
    shape: Shape,
    seen: Seen,
    nanoseconds: u128,
) -> Result<(), Stopped> {
    println!(rt; "{name} {shape} {} {nanoseconds} {}", seen.count, seen.sum)?;
    Ok(())
}

/// How long it takes to build a tree from events, and to drop it.
pub fn time_building(rt: &HostRuntime, shape: Shape, runs: u32) -> Result<(), Stopped> {
    let root = shape.build(rt.alloc())?;
    let seen = Operation::PreorderWithTokens.run(&root, &root)?;
    let bytes = root.text_range().end().raw() as u64;
    let mut building = u128::MAX;
    let mut dropping = u128::MAX;
    for _run in 0..runs {
        let start = Instant::now(rt)?;
        let root = shape.build(rt.alloc())?;
        let built = Instant::now(rt)?;
        drop(root);
        let dropped = Instant::now(rt)?;
        building = building.min(built.duration_since(start).as_nanos());
        dropping = dropping.min(dropped.duration_since(built).as_nanos());
    }
    let count = seen.count;
    print(rt, "build", shape, Seen { count, sum: bytes }, building)?;
    print(rt, "drop", shape, Seen { count, sum: 0 }, dropping)
}

/// How long each operation takes over the tree.
pub fn time_operations(
    rt: &HostRuntime,
    operations: &[Operation],
    shape: Shape,
    root: &SyntaxNode,
    runs: u32,
) -> Result<(), Stopped> {
    let deepest = deepest(root)?;
    for operation in operations {
        time_operation(rt, *operation, shape, root, &deepest, runs)?;
    }
    Ok(())
}

fn time_operation(
    rt: &HostRuntime,
    operation: Operation,
    shape: Shape,
    root: &SyntaxNode,
    deepest: &SyntaxNode,
    runs: u32,
) -> Result<(), Stopped> {
    let first = operation.run(root, deepest)?;
    let (least, seen) = least_time(rt, runs, first, || operation.run(root, deepest))?;
    print(rt, operation.name(), shape, seen, least)
}
