//! The operations that are measured over a tree.

use crate::stopped::Stopped;
use lossless_tree::{SyntaxNode, TextRange, TextSize, WalkEvent};

// More steps than any chain of steps here has.
const STEPS: u32 = 100_000_000;

// How many offsets are looked up, and clones made, in a run.
const SEARCHES: u32 = 10_000;

#[derive(Clone, Copy)]
pub enum Operation {
    PreorderWithTokens,
    Descendants,
    NextToken,
    Text,
    Ancestors,
    TokenAtOffset,
    CoveringElement,
    Clone,
    Children,
    NextSibling,
    NextSiblingOrToken,
}

// How many elements were seen, and a sum over them.
#[derive(Clone, Copy)]
pub struct Seen {
    pub count: u64,
    pub sum: u64,
}

impl Seen {
    fn new() -> Seen {
        Seen { count: 0, sum: 0 }
    }

    fn see(&mut self, value: u32) {
        self.count = self.count.wrapping_add(1);
        self.sum = self.sum.wrapping_add(value as u64);
    }
}

impl Operation {
    /// Its name in the table.
    pub fn name(self) -> &'static str {
        match self {
            Operation::PreorderWithTokens => "preorder_with_tokens",
            Operation::Descendants => "descendants",
            Operation::NextToken => "next_token",
            Operation::Text => "text",
            Operation::Ancestors => "ancestors",
            Operation::TokenAtOffset => "token_at_offset",
            Operation::CoveringElement => "covering_element",
            Operation::Clone => "clone",
            Operation::Children => "children",
            Operation::NextSibling => "next_sibling",
            Operation::NextSiblingOrToken => "next_sibling_or_token",
        }
    }

    /// Runs the operation over the tree; `deepest` is its deepest node.
    pub fn run(self, root: &SyntaxNode, deepest: &SyntaxNode) -> Result<Seen, Stopped> {
        match self {
            Operation::PreorderWithTokens => Ok(preorder_with_tokens(root)),
            Operation::Descendants => Ok(descendants(root)),
            Operation::NextToken => Ok(next_token(root)),
            Operation::Text => Ok(text(root)),
            Operation::Ancestors => Ok(ancestors(deepest)),
            Operation::TokenAtOffset => Ok(token_at_offset(root)),
            Operation::CoveringElement => Ok(covering_element(root)),
            Operation::Clone => clones(root),
            Operation::Children => Ok(children(root)),
            Operation::NextSibling => Ok(next_sibling(root)),
            Operation::NextSiblingOrToken => Ok(next_sibling_or_token(root)),
        }
    }
}

/// The node that is reached from the root by first child nodes alone.
pub fn deepest(root: &SyntaxNode) -> Result<SyntaxNode, Stopped> {
    let mut here = root.clone()?;
    for _step in 0..STEPS {
        match here.first_child() {
            Some(child) => here = child,
            None => return Ok(here),
        }
    }
    Ok(here)
}

fn preorder_with_tokens(root: &SyntaxNode) -> Seen {
    let mut seen = Seen::new();
    for event in root.preorder_with_tokens() {
        if let WalkEvent::Enter(element) = event {
            seen.see(element.text_range().start().raw());
        }
    }
    seen
}

fn descendants(root: &SyntaxNode) -> Seen {
    let mut seen = Seen::new();
    for node in root.descendants() {
        seen.see(node.text_range().start().raw());
    }
    seen
}

fn next_token(root: &SyntaxNode) -> Seen {
    let mut seen = Seen::new();
    let mut token = root.first_token();
    for _step in 0..STEPS {
        let Some(here) = token else {
            return seen;
        };
        seen.see(here.text_range().start().raw());
        token = here.next_token();
    }
    seen
}

fn text(root: &SyntaxNode) -> Seen {
    let mut seen = Seen::new();
    let mut token = root.first_token();
    for _step in 0..STEPS {
        let Some(here) = token else {
            return seen;
        };
        if let Some(byte) = here.text().as_bytes().first() {
            seen.see(*byte as u32);
        }
        token = here.next_token();
    }
    seen
}

fn ancestors(deepest: &SyntaxNode) -> Seen {
    let mut seen = Seen::new();
    for node in deepest.ancestors() {
        seen.see(node.text_range().end().raw());
    }
    seen
}

// Offsets, spread over a text of `bytes` bytes, without its last three.
#[derive(Drop)]
struct Spread {
    last: u32,
    bytes: u32,
}

impl Spread {
    fn new(root: &SyntaxNode) -> Spread {
        Spread {
            last: 7,
            bytes: root.text_range().len().raw().saturating_sub(4),
        }
    }

    fn next(&mut self) -> u32 {
        self.last = self
            .last
            .wrapping_mul(1_664_525)
            .wrapping_add(1_013_904_223);
        let spread = (self.last as u64).wrapping_mul(self.bytes as u64) >> 32;
        u32::try_from(spread).unwrap_or(0)
    }
}

fn token_at_offset(root: &SyntaxNode) -> Seen {
    let mut seen = Seen::new();
    let mut offsets = Spread::new(root);
    for _i in 0..SEARCHES {
        let offset = TextSize::new(offsets.next());
        if let Some(token) = root.token_at_offset(offset).right_biased() {
            seen.see(token.text_range().start().raw());
        }
    }
    seen
}

fn covering_element(root: &SyntaxNode) -> Seen {
    let mut seen = Seen::new();
    let mut offsets = Spread::new(root);
    let three = TextRange::up_to(TextSize::new(3));
    for _i in 0..SEARCHES {
        if let Some(range) = three.checked_add(TextSize::new(offsets.next())) {
            let element = root.covering_element(range);
            seen.see(element.text_range().start().raw());
        }
    }
    seen
}

// Each clone is dropped as the next is made.
fn clones(root: &SyntaxNode) -> Result<Seen, Stopped> {
    let mut seen = Seen::new();
    let mut here = root.clone()?;
    for _i in 0..SEARCHES {
        here = here.clone()?;
        seen.see(here.text_range().start().raw());
    }
    Ok(seen)
}

fn children(root: &SyntaxNode) -> Seen {
    let mut seen = Seen::new();
    for node in root.children() {
        seen.see(node.text_range().start().raw());
    }
    seen
}

fn next_sibling(root: &SyntaxNode) -> Seen {
    let mut seen = Seen::new();
    let mut child = root.first_child();
    for _step in 0..STEPS {
        let Some(here) = child else {
            return seen;
        };
        seen.see(here.text_range().start().raw());
        child = here.next_sibling();
    }
    seen
}

fn next_sibling_or_token(root: &SyntaxNode) -> Seen {
    let mut seen = Seen::new();
    let mut child = root.first_child_or_token();
    for _step in 0..STEPS {
        let Some(here) = child else {
            return seen;
        };
        seen.see(here.text_range().start().raw());
        child = here.next_sibling_or_token();
    }
    seen
}
