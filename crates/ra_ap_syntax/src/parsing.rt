//! Parses texts to typed trees.
ghost use Rattle.std.specs.Prelude.{◌≡◌, ◌<◌, ◌≤◌, ◌^◌, ◌↔◌, length, IfOk, IfErr, OnOk};
ghost use Rattle.tree_model.specs.Tree.{kind_of};
ghost use Rattle.ras_front_end.specs.declared.edition.Entry.TheVariants as entry;
ghost use Rattle.ras_front_end.specs.declared.parse_error.ParseError.TheVariants.{TooLong};
ghost use Rattle.ras_front_end.specs.Keeps.{IsRootOf};
ghost use Rattle.ras_front_end.specs.Parsed.{IsParseOf, ErrorsLieIn};

use crate::ast::{Expr, SourceFile};
use ras_front_end::{Edition, Entry, FrontEnd, ParseError};
use ras_parsing::{FileView, Parse, read};
use std::alloc::Global;

impl FileView for SourceFile {}

impl SourceFile {
    /// Parses the text of a file with a front end. The result has a tree of the whole text, whose
    /// root is a `SOURCE_FILE`, also if the text has syntax errors. Its errors are those of the
    /// parser, followed by those of the lexer.
    ///
    /// Returns `TooLong` if the text is longer than 4,294,967,295 bytes; this is checked first.
    /// Takes the time of the front end, and time linear in the text.
    pub fn parse<F: FrontEnd>(
        alloc: Global,
        text: &str,
        front: &F,
        edition: Edition,
    ) -> Result<Parse<SourceFile>, ParseError>
        ensures parsed { IfOk result
            (IsParseOf text.now ((F.answers front.now).parsed entry.SourceFile edition text.now)) }
        ensures root { IfOk result (λ p. IsRootOf entry.SourceFile (kind_of p.tree)) }
        ensures in_text { IfOk result ErrorsLieIn }
        ensures accepted { OnOk result (length text.now < 2 ^ 32) }
        ensures refused { IfErr result (λ e. (e ≡ TooLong) ↔ (2 ^ 32 ≤ length text.now)) }
    {
        read(alloc, front, Entry::SourceFile, text, edition)
    }
}

impl Expr {
    /// Parses the text of an expression with a front end. The result has a tree of the whole text,
    /// also if the text has syntax errors; its root is an expression, or `ERROR` (and then `tree`
    /// returns `None`). Its errors are those of the parser, followed by those of the lexer.
    ///
    /// Returns `TooLong` if the text is longer than 4,294,967,295 bytes; this is checked first.
    /// Takes the time of the front end, and time linear in the text.
    pub fn parse<F: FrontEnd>(
        alloc: Global,
        text: &str,
        front: &F,
        edition: Edition,
    ) -> Result<Parse<Expr>, ParseError>
        ensures parsed { IfOk result
            (IsParseOf text.now ((F.answers front.now).parsed entry.Expr edition text.now)) }
        ensures root { IfOk result (λ p. IsRootOf entry.Expr (kind_of p.tree)) }
        ensures in_text { IfOk result ErrorsLieIn }
        ensures accepted { OnOk result (length text.now < 2 ^ 32) }
        ensures refused { IfErr result (λ e. (e ≡ TooLong) ↔ (2 ^ 32 ≤ length text.now)) }
    {
        read(alloc, front, Entry::Expr, text, edition)
    }
}
