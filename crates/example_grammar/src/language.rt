//! The language: what the front end takes from the grammar.
ghost use Rattle.std.specs.Prelude.{◌≡◌};
ghost use Rattle.example_grammar.specs.Language.{entry_of};

use crate::tables::kind_table::TOKENS;
use crate::tables::{Rule, grammar, message, rule_of};
use grammar_front::{ErrorPlace, Language, Target, sights_by_kind};
use grammar_machine::{Grammar, Sight};
use ra_ap_syntax::{Edition, Entry, SyntaxKind};
use std::alloc::{AllocError, Global};
use token_layout::Token;

/// Arithmetic, as the text `arithmetic.grammar` has it.
#[derive(Clone, Copy, Debug, Drop)]
pub struct Arithmetic;

// No node is parsed again by itself, so `reparser` gives no target a rule is asked for.
fn entry(target: Target) -> Rule
    ensures { result ≡ entry_of target }
{
    match target {
        Target::Whole(Entry::SourceFile) => Rule::SourceFile,
        _ => Rule::WholeExpr,
    }
}

impl Language for Arithmetic {
    ghost use Rattle.example_grammar.specs.Language.{arithmetic};

    ghost speaks = { λ _. arithmetic };

    fn grammar(&self) -> Grammar<'static> {
        grammar()
    }

    fn rule(&self, target: Target) -> usize {
        rule_of(entry(target))
    }

    fn sights(
        &self,
        alloc: Global,
        _: &str,
        tokens: &[Token],
        _: Edition,
    ) -> Result<Vec<Sight>, AllocError> {
        sights_by_kind(alloc, &TOKENS, tokens)
    }

    fn message(&self, alloc: Global, number: u16, _: &[Token]) -> Result<String, AllocError> {
        String::from_str(alloc, message(number))
    }

    fn error_place(&self) -> ErrorPlace {
        ErrorPlace::BehindLast
    }

    fn attaching(&self) -> &'static [SyntaxKind] {
        &[]
    }

    // After an edit of more than one token the whole text is parsed again.
    fn reparser(&self, _: SyntaxKind, _: Option<SyntaxKind>, _: Option<SyntaxKind>) -> Option<u32> {
        None
    }
}
