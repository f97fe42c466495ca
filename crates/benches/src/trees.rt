//! The calls on trees. A line for each operation and tree has the operation, the tree, how many
//! elements were seen, the least nanoseconds of a few runs, and a sum over what was seen.

mod measure;
mod operation;
mod shape;

use crate::stopped::Stopped;
use measure::{time_building, time_operations};
use operation::Operation;
use shape::Shape;

// What is measured over each tree, over a tree of many tokens, and over a node with many children.
const ALL: [Operation; 3] = [
    Operation::PreorderWithTokens,
    Operation::Descendants,
    Operation::Clone,
];

const TOKENS: [Operation; 4] = [
    Operation::NextToken,
    Operation::Text,
    Operation::TokenAtOffset,
    Operation::CoveringElement,
];

const CHILDREN: [Operation; 3] = [
    Operation::Children,
    Operation::NextSibling,
    Operation::NextSiblingOrToken,
];

fn time_tree(rt: &HostRuntime, shape: Shape, runs: u32) -> Result<(), Stopped> {
    time_building(rt, shape, runs)?;
    let root = shape.build(rt.alloc())?;
    time_operations(rt, &ALL, shape, &root, runs)?;
    match shape {
        Shape::Balanced(_) => time_operations(rt, &TOKENS, shape, &root, runs),
        Shape::Wide(_) => {
            time_operations(rt, &TOKENS, shape, &root, runs)?;
            time_operations(rt, &CHILDREN, shape, &root, runs)
        }
        Shape::Chain(_) => time_operations(rt, &[Operation::Ancestors], shape, &root, runs),
    }
}

/// Measures every tree, the small ones first.
pub fn time_trees(rt: &HostRuntime) -> Result<(), Stopped> {
    time_tree(rt, Shape::Balanced(5), 50)?;
    time_tree(rt, Shape::Balanced(7), 20)?;
    time_tree(rt, Shape::Balanced(8), 10)?;
    time_tree(rt, Shape::Balanced(10), 3)?;
    time_tree(rt, Shape::Wide(100_000), 10)?;
    time_tree(rt, Shape::Chain(10_000), 20)
}
