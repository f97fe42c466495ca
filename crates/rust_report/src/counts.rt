//! How many nodes and tokens a tree has.
ghost use Rattle.std.specs.Prelude.{◌≡◌};
ghost use Rattle.rust_report.specs.Counts.{counts_of, noun_for};

use lossless_tree::{NodeOrToken, SyntaxNode};

/// How many nodes and tokens a tree has.
#[derive(Clone, Copy, Debug, PartialEq, Eq)]
pub struct Counts {
    /// The number of its nodes.
    pub nodes: u64,
    /// The number of its tokens.
    pub tokens: u64,
}

/// Counts the nodes and tokens of a tree, the root included. A number past 2^64 - 1 is returned as
/// 2^64 - 1.
///
/// Takes time linear in the tree.
pub fn count(root: &SyntaxNode) -> Counts
    ensures { result ≡ counts_of root.now }
{
    let (mut nodes, mut tokens) = (0u64, 0u64);
    for element in root.descendants_with_tokens() {
        match element {
            NodeOrToken::Node(_) => nodes = nodes.saturating_add(1),
            NodeOrToken::Token(_) => tokens = tokens.saturating_add(1),
        }
    }
    Counts { nodes, tokens }
}

/// The noun after a number: `one` after 1, `many` after any other.
pub fn noun_for(count: u64, one: &'static str, many: &'static str) -> &'static str
    ensures { result.now ≡ noun_for count one.now many.now }
{
    if count == 1 { one } else { many }
}
