//! Pieces that front ends parse if their braces balance.
use ra_ap_syntax::{Edition, Entry, FrontEnd, Output, Reparser, Step, SyntaxKind};
use rust_front::Rust;
use std::alloc::{AllocError, Global};
use std::test::Fail;
use tiny_front::Tiny;

// Texts, and whether each is a block with balanced braces.
const BLOCKS: [(&str, bool); 9] = [
    ("{}", true),
    ("{ 1 + { 2 } }", true),
    ("{ \"}\" }", true),
    ("{ { }", false),
    ("{ } }", false),
    ("{} {}", false),
    ("{} ", false),
    ("{", false),
    ("", false),
];

// The front end of Rust, with the trait's own body of `parse_balanced`.
struct LexesTwice;

impl FrontEnd for LexesTwice {
    ghost use Rattle.rust_front.specs.Front.{rust_front};
    ghost use Rattle.rust_front.specs.Laws.{rust_kept};

    ghost answers = { λ _. rust_front };

    ghost kept = { λ _. rust_kept };

    fn lex(
        &self,
        alloc: Global,
        text: &str,
        edition: Edition,
    ) -> Result<Vec<SyntaxKind>, AllocError> {
        Rust.lex(alloc, text, edition)
    }

    fn parse(
        &self,
        alloc: Global,
        entry: Entry,
        text: &str,
        edition: Edition,
    ) -> Result<Output, AllocError> {
        Rust.parse(alloc, entry, text, edition)
    }

    fn single_token(
        &self,
        alloc: Global,
        text: &str,
        edition: Edition,
    ) -> Result<Option<(SyntaxKind, Option<String>)>, AllocError> {
        Rust.single_token(alloc, text, edition)
    }

    fn reparser(
        &self,
        kind: SyntaxKind,
        first_child: Option<SyntaxKind>,
        parent: Option<SyntaxKind>,
    ) -> Option<Reparser> {
        Rust.reparser(kind, first_child, parent)
    }

    fn parse_piece(
        &self,
        alloc: Global,
        reparser: Reparser,
        text: &str,
        edition: Edition,
    ) -> Result<Output, AllocError> {
        Rust.parse_piece(alloc, reparser, text, edition)
    }

    fn keyword(&self, text: &str, edition: Edition) -> Option<SyntaxKind> {
        Rust.keyword(text, edition)
    }

    fn is_strict_keyword(&self, kind: SyntaxKind, edition: Edition) -> bool {
        Rust.is_strict_keyword(kind, edition)
    }
}

fn is_same_step(one: &Step, other: &Step) -> bool {
    match (one, other) {
        (Step::Enter(kind), Step::Enter(same)) => kind == same,
        (Step::Token(kind, len), Step::Token(same, long)) => kind == same && len == long,
        (Step::Exit, Step::Exit) => true,
        (Step::Error(at, message), Step::Error(there, same)) => at == there && message == same,
        _ => false,
    }
}

fn is_same(one: &Output, other: &Output) -> bool {
    let mut pairs = one.steps.iter().zip(other.steps.iter());
    one.steps.len() == other.steps.len()
        && one.errors == other.errors
        && pairs.all(|(a, b)| is_same_step(a, b))
}

// Whether a front end parses the text as a piece if its braces balance, and does not otherwise.
fn is_right<F: FrontEnd>(
    alloc: Global,
    front: &F,
    text: &str,
    balanced: bool,
) -> Result<bool, AllocError> {
    let Some(reparser) = front.reparser(SyntaxKind::BLOCK_EXPR, None, None) else {
        return Ok(false);
    };
    match front.parse_balanced(alloc, reparser, text, Edition::CURRENT)? {
        Some(output) => {
            let piece = front.parse_piece(alloc, reparser, text, Edition::CURRENT)?;
            Ok(balanced && is_same(&output, &piece))
        }
        None => Ok(!balanced),
    }
}

#[test]
fn a_piece_is_parsed_if_its_braces_balance(rt: HostRuntime) -> Result<(), Fail> {
    let alloc = rt.alloc();
    for (text, balanced) in BLOCKS {
        assert!(rt; is_right(alloc, &Rust, text, balanced)?, "in {text}");
        assert!(rt; is_right(alloc, &Tiny, text, balanced)?, "in {text}");
        assert!(rt; is_right(alloc, &LexesTwice, text, balanced)?, "in {text}");
    }
    Ok(())
}
