//! What a whole text can be read as.
ghost use Rattle.std.specs.Prelude.{◌≡◌, ◌<◌, ◌^◌, Bool, IfOk, length};
ghost use Rattle.ras_front_end.specs.Keeps.{Keeps};
ghost use Rattle.ras_front_end.specs.Reading.{reading_of};
ghost use Rattle.rust_front.specs.Tops.{IsTopRoot, one_or_error, point_of_entry, point_root_of, point_rule_of, top_of};

use crate::front::read_at;
use ras_front_end::{Edition, Entry, Output};
use ras_node::KindSet;
use ras_node::sets::{Exprs, Metas, Pats, Types};
use rust_grammar::Rule;
use rust_kinds::kinds::MACRO_ITEMS;
use std::alloc::{AllocError, Global};
use syntax_kind::SyntaxKind;

/// What a whole text is read as: a file, an expression, or another part of a file.
///
/// A [`FrontEnd`](ras_front_end::FrontEnd) reads files and expressions, by an [`Entry`]; this reads
/// further parts by their rules of the same grammar. (Upstream: `TopEntryPoint` of `parser`.)
#[derive(Clone, Copy, Debug, PartialEq, Eq)]
pub enum TopEntryPoint {
    /// A file, as [`Entry::SourceFile`]: the root is a `SOURCE_FILE`.
    SourceFile,
    /// The statements that a macro stands for, each with or without its `;`, and an expression:
    /// `let a = 1; a`. The root is a `MACRO_STMTS`.
    MacroStmts,
    /// The items that a macro stands for: `fn f() {} use a;`. The root is a `MACRO_ITEMS`.
    MacroItems,
    /// A pattern, with its alternatives: `A | Some(b)`. The root is a pattern, or an `ERROR`.
    Pattern,
    /// A type, with its bounds: `&'a dyn A + B`. The root is a type, or an `ERROR`.
    Type,
    /// An expression, as [`Entry::Expr`]: the root is an expression, or an `ERROR`.
    Expr,
    /// The contents of an attribute: `derive(Debug)`. The root is one of the nodes of `ast::Meta`,
    /// or an `ERROR`.
    MetaItem,
}

// The kind of the outermost node if it is one of some kinds, else `ERROR`.
fn one_or_error<S: KindSet>(top: Option<SyntaxKind>) -> SyntaxKind
    ensures { result ≡ one_or_error S.kinds top }
{
    match top {
        None => SyntaxKind::ERROR,
        Some(kind) => if S::has(kind) {
            kind
        } else {
            SyntaxKind::ERROR
        },
    }
}

impl TopEntryPoint {
    /// The entry point of an entry.
    pub(crate) fn of(entry: Entry) -> TopEntryPoint
        ensures { result ≡ point_of_entry entry }
    {
        match entry {
            Entry::SourceFile => TopEntryPoint::SourceFile,
            Entry::Expr => TopEntryPoint::Expr,
        }
    }

    /// The rule that reads the text.
    pub(crate) fn rule(self) -> Rule
        ensures { result ≡ point_rule_of self }
    {
        match self {
            TopEntryPoint::SourceFile => Rule::SourceFile,
            TopEntryPoint::MacroStmts => Rule::MacroStmts,
            TopEntryPoint::MacroItems => Rule::MacroItems,
            TopEntryPoint::Pattern => Rule::WholePattern,
            TopEntryPoint::Type => Rule::WholeType,
            TopEntryPoint::Expr => Rule::WholeExpr,
            TopEntryPoint::MetaItem => Rule::WholeMeta,
        }
    }

    /// The kind of the root. `top` is the kind of the outermost node.
    pub(crate) fn root(self, top: Option<SyntaxKind>) -> SyntaxKind
        ensures { result ≡ point_root_of self top }
    {
        match self {
            TopEntryPoint::SourceFile => SyntaxKind::SOURCE_FILE,
            TopEntryPoint::MacroStmts => SyntaxKind::MACRO_STMTS,
            TopEntryPoint::MacroItems => MACRO_ITEMS,
            TopEntryPoint::Pattern => one_or_error::<Pats>(top),
            TopEntryPoint::Type => one_or_error::<Types>(top),
            TopEntryPoint::Expr => one_or_error::<Exprs>(top),
            TopEntryPoint::MetaItem => one_or_error::<Metas>(top),
        }
    }

    /// Parses a whole text as this part. If the text goes on behind the part, the root is an
    /// `ERROR` that has the part first and then the tokens that are left.
    ///
    /// The steps of the output build one tree over the text: `Parse::of_output` of `ras_parsing`
    /// makes it. For a text of 2^32 bytes or more there are no steps. Takes time and memory linear
    /// in the text, and does not recurse.
    ///
    /// ```rust,ignore
    /// let output = TopEntryPoint::Type.parse(alloc, "Vec<u8>", Edition::CURRENT)?;
    /// let parse: Parse<ast::Type> = Parse::of_output(alloc, "Vec<u8>", output)?;
    /// ```
    pub fn parse(self, alloc: Global, text: &str, edition: Edition) -> Result<Output, AllocError>
        ensures parsed { IfOk result (λ o. reading_of o ≡ top_of self edition text.now) }
        ensures keeps { length text.now < 2 ^ 32
            → IfOk result (λ o. Keeps (IsTopRoot self) text.now (reading_of o)) }
    {
        let output = read_at(alloc, self, text, edition)?;
        Ok(output)
    }
}
