//! A plain nested tree: read from words, converted to a syntax tree, and searched by slow recursion
//! over the whole tree. It shares nothing with the crate under test but kinds.
use lossless_tree::{SyntaxKind, SyntaxNode, TreeBuilder};
use std::alloc::Global;
use std::test::Fail;

/// The words of the tree of `1 + 1`.
pub const SUM: &str =
    "BIN_EXPR( LITERAL( INT_NUMBER:1 ) WHITESPACE:~ PLUS:+ WHITESPACE:~ LITERAL( INT_NUMBER:1 ) )";

#[derive(Drop)]
pub enum PlainTree {
    Node(SyntaxKind, Vec<PlainTree>),
    Token(SyntaxKind, &'static str),
}

// A node that is not left yet.
#[derive(Drop)]
struct Unfinished {
    kind: SyntaxKind,
    children: Vec<PlainTree>,
}

// The kind with a name; where there is no name `OTHER` with the number of the node or token in
// preorder, so that each has a kind of its own.
fn kind_of(name: &str, number: u16) -> Result<SyntaxKind, Fail> {
    if name.is_empty() {
        return Ok(SyntaxKind::OTHER(number));
    }
    Ok(SyntaxKind::from_name(name).ok_or("no such kind")?)
}

// Puts a finished tree below the innermost node; returns it if there is none.
fn put(open: &mut Vec<Unfinished>, tree: PlainTree) -> Result<Option<PlainTree>, Fail> {
    let Some(mut parent) = open.pop() else {
        return Ok(Some(tree));
    };
    parent.children.push(tree)?;
    open.push(parent)?;
    Ok(None)
}

impl PlainTree {
    /// Reads a tree. Words are parted by a space: `KIND(` or `(` enters a node, `)` leaves it, and
    /// `KIND:text` or `:text` is a token. No text has a space; a `~` can be in its place.
    pub fn read(alloc: Global, words: &'static str) -> Result<PlainTree, Fail> {
        let mut open: Vec<Unfinished> = Vec::new(alloc);
        let mut number: u16 = 0;
        for word in words.split(' ') {
            let mut finished = None;
            if let Some((name, text)) = word.split_once(':') {
                let token = PlainTree::Token(kind_of(name, number)?, text);
                finished = put(&mut open, token)?;
                number = number.saturating_add(1);
            } else if let Some(name) = word.strip_suffix('(') {
                let kind = kind_of(name, number)?;
                let children = Vec::new(alloc);
                open.push(Unfinished { kind, children })?;
                number = number.saturating_add(1);
            } else if let Some(node) = open.pop() {
                let tree = PlainTree::Node(node.kind, node.children);
                finished = put(&mut open, tree)?;
            }
            if let Some(tree) = finished {
                return Ok(tree);
            }
        }
        Err(Fail::from("the words make no tree"))
    }

    /// The kind of the node or token.
    pub fn kind(&self) -> SyntaxKind {
        match self {
            PlainTree::Node(kind, _) => *kind,
            PlainTree::Token(kind, _) => *kind,
        }
    }

    /// How many bytes the text has.
    pub fn len(&self) -> usize {
        match self {
            PlainTree::Node(_, children) => {
                let mut len: usize = 0;
                for child in children {
                    len = len.saturating_add(child.len());
                }
                len
            }
            PlainTree::Token(_, text) => text.len(),
        }
    }

    /// The syntax tree that is the same.
    pub fn build(&self, alloc: Global) -> Result<SyntaxNode, Fail> {
        let mut builder = TreeBuilder::new(alloc);
        self.append(&mut builder)?;
        Ok(builder.finish()?)
    }

    fn append(&self, builder: &mut TreeBuilder) -> Result<(), Fail> {
        match self {
            PlainTree::Node(kind, children) => {
                builder.start_node(*kind)?;
                for child in children {
                    child.append(builder)?;
                }
                builder.finish_node()?;
            }
            PlainTree::Token(kind, text) => builder.token(*kind, text)?,
        }
        Ok(())
    }

    /// The kinds of the tokens that have a text and touch the offset, put after those that are
    /// found already. The tree starts at `start`.
    pub fn tokens_at(
        &self,
        start: usize,
        offset: usize,
        found: &mut Vec<SyntaxKind>,
    ) -> Result<(), Fail> {
        match self {
            PlainTree::Node(_, children) => {
                let mut next = start;
                for child in children {
                    child.tokens_at(next, offset, found)?;
                    next = next.saturating_add(child.len());
                }
            }
            PlainTree::Token(kind, text) => {
                let end = start.saturating_add(text.len());
                if start < end && start <= offset && offset <= end {
                    found.push(*kind)?;
                }
            }
        }
        Ok(())
    }

    /// The start of the node or token with the kind. The tree starts at `start`.
    pub fn start_of(&self, start: usize, kind: SyntaxKind) -> Option<usize> {
        if self.kind() == kind {
            return Some(start);
        }
        if let PlainTree::Node(_, children) = self {
            let mut next = start;
            for child in children {
                if let Some(found) = child.start_of(next, kind) {
                    return Some(found);
                }
                next = next.saturating_add(child.len());
            }
        }
        None
    }

    /// The kind of the node or token that covers the range `from..to`. The tree starts at `start`.
    pub fn covering(&self, start: usize, from: usize, to: usize) -> SyntaxKind {
        match self {
            PlainTree::Node(kind, children) => {
                let mut holds = None;
                let mut behind = None;
                let mut first = None;
                let mut next = start;
                for child in children {
                    let end = next.saturating_add(child.len());
                    let below = child.covering(next, from, to);
                    if from < to {
                        if next <= from && to <= end {
                            holds = Some(below);
                        }
                    } else {
                        if next < from && from < end {
                            holds = Some(below);
                        }
                        if end <= from {
                            behind = Some(below);
                        }
                        if first.is_none() {
                            first = Some(below);
                        }
                    }
                    next = end;
                }
                holds.or(behind).or(first).unwrap_or(*kind)
            }
            PlainTree::Token(kind, _) => *kind,
        }
    }
}
