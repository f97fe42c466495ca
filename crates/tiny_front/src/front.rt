//! The front end, and what it takes from the grammar.
ghost use Rattle.std.specs.Prelude.{◌≡◌};
ghost use Rattle.tiny_front.specs.Front.{entry_of};

use crate::tables::kind_table::TOKENS;
use crate::tables::{Rule, grammar, message, rule_of};
use grammar_front::{ErrorPlace, GrammarFront, Language, Target, sights_by_kind};
use grammar_machine::{Grammar, Sight};
use ras_front_end::{Edition, Entry};
use std::alloc::{AllocError, Global};
use syntax_kind::SyntaxKind;
use tiny_lexer::TinyLexer;
use token_layout::Token;

/// A front end for a small part of Rust: functions without parameters, whose bodies are the only
/// blocks; `let` bindings, statements; and expressions of literals, names, operators, references,
/// parentheses, calls, method calls, fields, indexes, `?`, `.await`, ranges and casts. Its grammar
/// is the text `tiny.grammar` of this crate. It takes time linear in the text, and no recursion.
pub const Tiny: GrammarFront<TinyLexer, TinyLanguage> = GrammarFront {
    lexer: TinyLexer,
    language: TinyLanguage,
};

/// The language of [`Tiny`].
#[derive(Clone, Copy, Debug, Drop)]
pub struct TinyLanguage;

fn entry(target: Target) -> Rule
    ensures { result ≡ entry_of target }
{
    match target {
        Target::Whole(Entry::SourceFile) => Rule::SourceFile,
        Target::Whole(Entry::Expr) => Rule::WholeExpr,
        Target::Piece(_) => Rule::Body,
    }
}

impl Language for TinyLanguage {
    ghost use Rattle.tiny_front.specs.Front.{tiny_language};

    ghost speaks = { λ _. tiny_language };

    fn grammar(&self) -> Grammar<'static> {
        grammar()
    }

    fn rule(&self, target: Target) -> usize {
        rule_of(entry(target))
    }

    fn sights(
        &self,
        alloc: Global,
        _text: &str,
        tokens: &[Token],
        _edition: Edition,
    ) -> Result<Vec<Sight>, AllocError> {
        sights_by_kind(alloc, &TOKENS, tokens)
    }

    fn message(&self, alloc: Global, number: u16, _rest: &[Token]) -> Result<String, AllocError> {
        String::from_str(alloc, message(number))
    }

    fn error_place(&self) -> ErrorPlace {
        ErrorPlace::AtNext
    }

    fn attaching(&self) -> &'static [SyntaxKind] {
        &[]
    }

    // A block.
    fn reparser(
        &self,
        kind: SyntaxKind,
        _first_child: Option<SyntaxKind>,
        _parent: Option<SyntaxKind>,
    ) -> Option<u32> {
        matches!(kind, SyntaxKind::BLOCK_EXPR).then_some(0)
    }
}
