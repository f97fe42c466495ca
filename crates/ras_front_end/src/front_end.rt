//! The lexer and parser that the caller brings.
ghost use Rattle.std.specs.Prelude.{◌≡◌, IfOk, MatchOption, option_map};
ghost use Rattle.ras_front_end.specs.Balanced.{IsBalanced};
ghost use Rattle.ras_front_end.specs.Reading.{IsGiven, reading_of, single_of};
ghost use Rattle.ras_front_end.specs.Front.{Front, FrontEndKeeps};

use crate::balanced::is_balanced;
use crate::edition::{Edition, Entry, Reparser};
use crate::output::Output;
use crate::step_sink::{StepSink, give};
use crate::syntax_error::SyntaxError;
use std::alloc::{AllocError, Global};
use syntax_kind::SyntaxKind;

/// A lexer and a parser. Each result, except out of memory, is a function of the arguments.
///
/// An implementation proves the law `kept`: for a text of at most 4,294,967,295 bytes the steps
/// build one tree over the whole text, whose root is of the entry's kind, and the errors are in the
/// text; the same holds for a piece that is parsed again.
pub trait FrontEnd {
    // The results, as functions of the arguments.
    ghost answers: { Self → Front };

    /// The kinds of the text's tokens, in order.
    fn lex(
        &self,
        alloc: Global,
        text: &str,
        edition: Edition,
    ) -> Result<Vec<SyntaxKind>, AllocError>
        ensures { IfOk result (λ kinds. kinds.items ≡ (answers self.now).lexed edition text.now) };

    /// Parses a text. The result is arbitrary if the text is longer than 4,294,967,295 bytes.
    fn parse(
        &self,
        alloc: Global,
        entry: Entry,
        text: &str,
        edition: Edition,
    ) -> Result<Output, AllocError>
        ensures { IfOk result
            (λ output. reading_of output ≡ (answers self.now).parsed entry edition text.now) };

    /// Parses a text, as [`parse`](FrontEnd::parse) does, and gives the steps to a sink, which it
    /// makes. Returns the sink and the lexer's errors.
    ///
    /// This one gives the steps that `parse` returns. A front end that gives them as it makes them
    /// needs no memory for a list of all steps.
    fn parse_into<S: StepSink + Drop>(
        &self,
        alloc: Global,
        entry: Entry,
        text: &str,
        edition: Edition,
    ) -> Result<(S, Vec<SyntaxError>), AllocError>
        ensures { IfOk result (λ given. IsGiven S.took given.0 given.1.items
            ((answers self.now).parsed entry edition text.now)) }
    {
        let Output { steps, errors } = self.parse(alloc, entry, text, edition)?;
        let mut sink = S::with_room(alloc, steps.len())?;
        give(alloc, &mut sink, &steps)?;
        Ok((sink, errors))
    }

    /// The kind of a text that is exactly one token, with the lexer's error if there is one; `None`
    /// if it is not one token.
    fn single_token(
        &self,
        alloc: Global,
        text: &str,
        edition: Edition,
    ) -> Result<Option<(SyntaxKind, Option<String>)>, AllocError>
        ensures { IfOk result
            (λ token. option_map single_of token ≡ (answers self.now).single edition text.now) };

    /// The rule by which a node of this kind can be re-parsed by itself, or `None` if it cannot be.
    /// `first_child` is the kind of its first child, node or token, and `parent` that of its
    /// parent.
    fn reparser(
        &self,
        kind: SyntaxKind,
        first_child: Option<SyntaxKind>,
        parent: Option<SyntaxKind>,
    ) -> Option<Reparser>
        ensures { result ≡ (answers self.now).chosen kind first_child parent };

    /// Parses a piece by a reparser that [`FrontEnd::reparser`] returned. The text begins with `{`,
    /// ends with `}`, and the braces between balance. The result is arbitrary for any other text,
    /// and for one longer than 4,294,967,295 bytes.
    fn parse_piece(
        &self,
        alloc: Global,
        reparser: Reparser,
        text: &str,
        edition: Edition,
    ) -> Result<Output, AllocError>
        ensures { IfOk result
            (λ output. reading_of output ≡ (answers self.now).piece reparser edition text.now) };

    /// Parses a piece, as [`parse_piece`](FrontEnd::parse_piece) does, if its braces balance: it
    /// begins with `{`, and its last token is the `}` that closes it. `None` if they do not.
    ///
    /// This one lexes the text twice. A front end that parses the tokens that it has tested needs
    /// to lex it only once.
    fn parse_balanced(
        &self,
        alloc: Global,
        reparser: Reparser,
        text: &str,
        edition: Edition,
    ) -> Result<Option<Output>, AllocError>
        ensures { IfOk result (λ o. MatchOption o
            (IsBalanced ((answers self.now).lexed edition text.now) → ⊥)
            (λ output. IsBalanced ((answers self.now).lexed edition text.now)
            × (reading_of output ≡ (answers self.now).piece reparser edition text.now))) }
    {
        let kinds = self.lex(alloc, text, edition)?;
        if !is_balanced(&kinds) {
            return Ok(None);
        }
        Ok(Some(self.parse_piece(alloc, reparser, text, edition)?))
    }

    /// The kind of a text that is a keyword in the edition, or `None` if it is not one.
    fn keyword(&self, text: &str, edition: Edition) -> Option<SyntaxKind>
        ensures { result ≡ (answers self.now).word edition text.now };

    /// Whether a kind is that of a strict keyword: a word that can be an identifier only after
    /// `r#`.
    fn is_strict_keyword(&self, kind: SyntaxKind, edition: Edition) -> bool
        ensures { result ≡ (answers self.now).is_strict edition kind };

    ghost kept: { (front : Self) → FrontEndKeeps (answers front) };
}
