//! The trees that are measured.

use crate::stopped::Stopped;
use lossless_tree::{SyntaxKind, SyntaxNode, TreeBuilder};
use std::alloc::Global;
use std::fmt;

#[derive(Clone, Copy)]
pub enum Shape {
    // Four children for each node, and this many levels of nodes; tokens of two bytes.
    Balanced(u32),
    // One node with this many children: a node with one token, a blank, and so on.
    Wide(u64),
    // This many nodes, each in the one before, and a token in the last.
    Chain(u64),
}

impl fmt::Display for Shape {
    fn fmt<W: fmt::Write>(&self, f: &mut fmt::Formatter<W>) -> fmt::Result {
        match self {
            Shape::Balanced(levels) => write!(f, "balanced-4^{levels}"),
            Shape::Wide(children) => write!(f, "wide-{children}"),
            Shape::Chain(nodes) => write!(f, "chain-{nodes}"),
        }
    }
}

impl Shape {
    /// The tree of this shape.
    pub fn build(self, alloc: Global) -> Result<SyntaxNode, Stopped> {
        let mut builder = TreeBuilder::new(alloc);
        match self {
            Shape::Balanced(levels) => balanced(&mut builder, levels)?,
            Shape::Wide(children) => wide(&mut builder, children)?,
            Shape::Chain(nodes) => chain(&mut builder, nodes)?,
        }
        Ok(builder.finish()?)
    }
}

// Whether a node of this level begins before the leaf with this number.
fn begins(leaf: u64, level: u32) -> bool {
    let leaves = 4_u64.wrapping_shl(level.wrapping_mul(2));
    leaf & leaves.wrapping_sub(1) == 0
}

fn balanced(builder: &mut TreeBuilder, levels: u32) -> Result<(), Stopped> {
    let leaves = 1_u64.wrapping_shl(levels.wrapping_mul(2));
    for leaf in 0..leaves {
        for level in 0..levels {
            if begins(leaf, level) {
                builder.start_node(SyntaxKind::BIN_EXPR)?;
            }
        }
        builder.token(SyntaxKind::IDENT, "ab")?;
        for level in 0..levels {
            if begins(leaf.wrapping_add(1), level) {
                builder.finish_node()?;
            }
        }
    }
    Ok(())
}

fn wide(builder: &mut TreeBuilder, children: u64) -> Result<(), Stopped> {
    builder.start_node(SyntaxKind::SOURCE_FILE)?;
    for _i in 0..children / 2 {
        builder.start_node(SyntaxKind::NAME)?;
        builder.token(SyntaxKind::IDENT, "ab")?;
        builder.finish_node()?;
        builder.token(SyntaxKind::WHITESPACE, " ")?;
    }
    builder.finish_node()?;
    Ok(())
}

fn chain(builder: &mut TreeBuilder, nodes: u64) -> Result<(), Stopped> {
    for _i in 0..nodes {
        builder.start_node(SyntaxKind::PATH)?;
    }
    builder.token(SyntaxKind::IDENT, "ab")?;
    for _i in 0..nodes {
        builder.finish_node()?;
    }
    Ok(())
}
