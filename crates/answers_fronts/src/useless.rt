//! Grammars whose trees are of no use, for what holds with every front end: that of the small
//! language with other operations.

use grammar_front::{ErrorPlace, Language, Target};
use grammar_machine::{Grammar, Op, Sight};
use ra_ap_syntax::SyntaxKind;
use ras_front_end::{Edition, Entry};
use std::alloc::{AllocError, Global};
use tiny_front::TinyLanguage;
use token_layout::Token;

/// Every expression is an `ERROR` over its tokens, there are no errors, and every node may be
/// parsed again.
#[derive(Clone, Copy, Debug, Drop)]
pub enum Useless {
    /// Every token is a child of the root.
    Flat,
    /// The root of a file or a piece has one child, an `ERROR` over all tokens.
    Wrong,
}

// The first operation returns. From the second one on, all tokens are taken into two nodes, of
// which the outer one becomes the root.
#[rattlefmt::skip]
static OPS: [Op; 9] = [
    Op::Return,
    Op::Open,
    Op::Open,
    Op::IfKind { kind: 1, target: 6 },
    Op::Take,
    Op::Jump { target: 3 },
    Op::Close { kind: SyntaxKind::ERROR },
    Op::Close { kind: SyntaxKind::SOURCE_FILE },
    Op::Return,
];

fn ops() -> &'static [Op] {
    &OPS
}

impl Language for Useless {
    ghost use Rattle.answers_fronts.specs.Useless.{useless_language};

    ghost speaks = { useless_language };

    fn grammar(&self) -> Grammar<'static> {
        let mut grammar = TinyLanguage.grammar();
        grammar.ops = ops();
        grammar
    }

    fn rule(&self, target: Target) -> usize {
        match (self, target) {
            (Useless::Flat, _) | (_, Target::Whole(Entry::Expr)) => 0,
            (Useless::Wrong, _) => 1,
        }
    }

    fn sights(
        &self,
        alloc: Global,
        text: &str,
        tokens: &[Token],
        edition: Edition,
    ) -> Result<Vec<Sight>, AllocError> {
        TinyLanguage.sights(alloc, text, tokens, edition)
    }

    fn message(&self, alloc: Global, _number: u16, _rest: &[Token]) -> Result<String, AllocError> {
        Ok(String::new(alloc))
    }

    fn error_place(&self) -> ErrorPlace {
        ErrorPlace::BehindLast
    }

    fn attaching(&self) -> &'static [SyntaxKind] {
        &[]
    }

    fn reparser(
        &self,
        _kind: SyntaxKind,
        _first_child: Option<SyntaxKind>,
        _parent: Option<SyntaxKind>,
    ) -> Option<u32> {
        Some(0)
    }
}
