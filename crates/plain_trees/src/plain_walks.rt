//! The expected results of walks and steps, by slow recursion over a plain nested tree. A node or
//! token is named by its kind.
use crate::plain_tree::PlainTree;
use lossless_tree::{Direction, SyntaxKind};
use std::test::Fail;

/// Which of the nodes and tokens are meant.
#[derive(Clone, Copy, PartialEq, Eq)]
pub enum Among {
    Nodes,
    Tokens,
    Both,
}

impl PlainTree {
    fn is_among(&self, among: Among) -> bool {
        match self {
            PlainTree::Node(_, _) => among != Among::Tokens,
            PlainTree::Token(_, _) => among != Among::Nodes,
        }
    }

    /// The kinds below and at the tree, a node before its children.
    pub fn preorder(&self, among: Among, found: &mut Vec<SyntaxKind>) -> Result<(), Fail> {
        if self.is_among(among) {
            found.push(self.kind())?;
        }
        if let PlainTree::Node(_, children) = self {
            for child in children {
                child.preorder(among, found)?;
            }
        }
        Ok(())
    }

    /// The steps of a walk: whether it enters or leaves, and the kind.
    pub fn walk(&self, among: Among, found: &mut Vec<(bool, SyntaxKind)>) -> Result<(), Fail> {
        if self.is_among(among) {
            found.push((true, self.kind()))?;
        }
        if let PlainTree::Node(_, children) = self {
            for child in children {
                child.walk(among, found)?;
            }
        }
        if self.is_among(among) {
            found.push((false, self.kind()))?;
        }
        Ok(())
    }

    /// The kinds of the children.
    pub fn children(&self, among: Among, found: &mut Vec<SyntaxKind>) -> Result<(), Fail> {
        if let PlainTree::Node(_, children) = self {
            for child in children {
                if child.is_among(among) {
                    found.push(child.kind())?;
                }
            }
        }
        Ok(())
    }

    /// The node or token with the kind.
    pub fn find(&self, kind: SyntaxKind) -> Option<&PlainTree> {
        if self.kind() == kind {
            return Some(self);
        }
        if let PlainTree::Node(_, children) = self {
            for child in children {
                if let Some(found) = child.find(kind) {
                    return Some(found);
                }
            }
        }
        None
    }

    /// The kinds of what is above the kind, the nearest first.
    pub fn above(&self, kind: SyntaxKind, found: &mut Vec<SyntaxKind>) -> Result<bool, Fail> {
        if self.kind() == kind {
            return Ok(true);
        }
        if let PlainTree::Node(own, children) = self {
            for child in children {
                if child.above(kind, found)? {
                    found.push(*own)?;
                    return Ok(true);
                }
            }
        }
        Ok(false)
    }

    /// The siblings of the kind in a direction, the nearest first, without itself.
    pub fn siblings(
        &self,
        kind: SyntaxKind,
        direction: Direction,
        among: Among,
        found: &mut Vec<SyntaxKind>,
    ) -> Result<(), Fail> {
        if let PlainTree::Node(_, children) = self {
            let mut passed = false;
            let count = children.len();
            for i in 0..count {
                let child = match direction {
                    Direction::Next => &children[i],
                    Direction::Prev => &children[count - 1 - i],
                };
                if passed && child.is_among(among) {
                    found.push(child.kind())?;
                }
                passed = passed || child.kind() == kind;
                child.siblings(kind, direction, among, found)?;
            }
        }
        Ok(())
    }
}

/// The kind after this one in a list; `None` after the last.
pub fn behind(kinds: &Vec<SyntaxKind>, kind: SyntaxKind) -> Option<SyntaxKind> {
    let mut passed = false;
    for other in kinds {
        if passed {
            return Some(*other);
        }
        passed = *other == kind;
    }
    None
}

/// The kind before this one in a list; `None` before the first.
pub fn before(kinds: &Vec<SyntaxKind>, kind: SyntaxKind) -> Option<SyntaxKind> {
    let mut last = None;
    for other in kinds {
        if *other == kind {
            return last;
        }
        last = Some(*other);
    }
    None
}
