//! The trait of languages.
ghost use Rattle.std.specs.Prelude.{◌≡◌, IfOk, string_bytes};
ghost use Rattle.token_layout.specs.Laid.{IsCut};
ghost use Rattle.grammar_machine.specs.Running.{tables_of};
ghost use Rattle.grammar_front.specs.Answers.{LanguageAnswers};

use grammar_machine::{Grammar, Sight};
use ras_front_end::{Edition, Entry, Reparser};
use std::alloc::{AllocError, Global};
use syntax_kind::SyntaxKind;
use token_layout::Token;

/// What tokens are parsed as.
#[derive(Clone, Copy, Debug, PartialEq, Eq)]
pub enum Target {
    /// A file or an expression.
    Whole(Entry),
    /// A node that is parsed again by itself. The reparser's number is one that
    /// [`Language::reparser`] returned.
    Piece(Reparser),
}

/// Where an error is that the grammar reports between two tokens.
#[derive(Clone, Copy, Debug, PartialEq, Eq)]
pub enum ErrorPlace {
    /// Where the tree ends so far: behind the last token, or behind the white space and comments
    /// before the last node, if no token of that node was taken.
    BehindLast,
    /// Where the next token begins that is neither white space nor a comment, or at the end of the
    /// text.
    AtNext,
}

/// A grammar's tables, and what a front end needs beside them. Each result, except out of memory,
/// is a function of the arguments; nothing has to be proved about that function.
pub trait Language {
    // The results, as functions of the arguments.
    ghost speaks: { Self → LanguageAnswers };

    /// The tables.
    fn grammar(&self) -> Grammar<'static>
        ensures { tables_of result ≡ (speaks self.now).tables };

    /// The rule that reads the target: the number of its first operation.
    fn rule(&self, target: Target) -> usize
        ensures { result ≡ (speaks self.now).rule target };

    /// How the machine sees the tokens of a text. [`sights_by_kind`](crate::sights_by_kind) is
    /// enough if the lexer makes the tokens of the grammar.
    fn sights(
        &self,
        alloc: Global,
        text: &str,
        tokens: &[Token],
        edition: Edition,
    ) -> Result<Vec<Sight>, AllocError>
        ensures { IsCut tokens.now text.now → IfOk result
            (λ sights. sights.items ≡ (speaks self.now).sights edition text.now tokens.now) };

    /// The message of the error with this number. `rest` are the tokens after the error, white
    /// space and comments among them.
    fn message(&self, alloc: Global, number: u16, rest: &[Token]) -> Result<String, AllocError>
        ensures { IfOk result
            (λ message. string_bytes message ≡ (speaks self.now).message number rest.now) };

    /// Where errors are.
    fn error_place(&self) -> ErrorPlace
        ensures { result ≡ (speaks self.now).error_place };

    /// The kinds of nodes that take the comments before them.
    fn attaching(&self) -> &'static [SyntaxKind]
        ensures { result.now ≡ (speaks self.now).attaching };

    /// The number of the way in which a node of this kind may be parsed again by itself, or `None`
    /// if it may not. `first_child` is the kind of its first child, node or token, and `parent`
    /// that of its parent.
    fn reparser(
        &self,
        kind: SyntaxKind,
        first_child: Option<SyntaxKind>,
        parent: Option<SyntaxKind>,
    ) -> Option<u32>
        ensures { result ≡ (speaks self.now).reparser kind first_child parent };
}
