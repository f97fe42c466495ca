//! A text that is edited, with its parse.
ghost use Rattle.std.specs.Prelude.{◌≡◌, ◌↔◌, ◌<◌, ◌≤◌, ◌^◌, length, IfOk, IfErr, IfSome, MatchOption, OnOk, OnErr};
ghost use Rattle.tree_model.specs.Tree.{text};
ghost use Rattle.ras_front_end.specs.declared.parse_error.ParseError.TheVariants.{TooLong};
ghost use Rattle.ras_parsing.specs.Edit.{IsEditOf, edited, replacing};
ghost use Rattle.ras_parsing.specs.Document.{IsReadOf, IsEdited, ReadsExactly};
ghost use Rattle.ras_parsing.specs.InSteps.{InPlace, NotInPlace};

mod edits;

use crate::exact::{Counted, exact_path, with_exact};
use crate::file::FileView;
use crate::parse::Parse;
use crate::reparse::{edited_text, is_too_long};
use crate::retold::{token_path, with_retold};
use crate::sink::read_tree;
use exact_front::ExactFront;
use lossless_tree::laws::node_is_placed;
use lossless_tree::{TextRange, TextSize};
use ras_front_end::{Edition, Entry, FrontEnd, ParseError};
use std::alloc::{AllocError, Global};

/// A text that is edited again and again, and its parse by a front end in an edition.
///
/// With the front end for Rust the parse is, after any number of edits, that of the text: the same
/// tree, and the same errors in the same order, as a parse of the text from the beginning gives.
/// [`Document::edit`] gives one token another text, or parses one block again, where the front end
/// can tell that this is enough (see [`ExactFront`]), and otherwise parses the whole text.
/// [`Document::edits`] makes several replacements at once.
///
/// This is proved. [`Document::new`] gives the parse of its text. By the clauses `exact` of
/// [`Document::edit`] and [`Document::edits`], an edit makes the parse of the new text of that of
/// the old one, if the front end reads the pieces of every text as in the text (`ReadsExactly`):
/// for `Rust` that is the law `rust_reads_exactly` of `document_laws`, for every text, in every
/// edition. Another front end's documents rest on the promise of [`ExactFront`], which is no law of
/// the trait. What is true for each front end is `answer`: which tokens or pieces are read again,
/// and what their trees and errors replace.
///
/// A failed edit leaves the document unchanged. [`Parse::reparse`] is for parses that no document
/// keeps, and makes less sure.
#[derive(Drop)]
pub struct Document<T, F: Drop> {
    front: F,
    edition: Edition,
    parse: Parse<T>,
    // the first errors are the parser's, so many; those behind are the lexer's
    parser_errors: usize,
}

// The parse of a text as a file.
fn read_counted<T, F: FrontEnd>(
    alloc: Global,
    front: &F,
    text: &str,
    edition: Edition,
) -> Result<Counted<T>, ParseError>
    requires { length text.now < 2 ^ 32 }
    ensures new { IfOk result
        (λ n. IsReadOf (F.answers front.now) edition text.now n.parse n.parser_errors) }
    ensures range { IfOk result (λ n. n.range ≡ record { start = 0; end = length text.now }) }
    ensures refused { IfErr result (λ e. (e ≡ TooLong) ↔ (2 ^ 32 ≤ length text.now)) }
{
    let read = read_tree(alloc, front, Entry::SourceFile, text, edition)?;
    let parse = Parse::from_parts(alloc, read.root, read.errors)?;
    Ok(Counted {
        parse,
        parser_errors: read.parser_errors,
        range: TextRange::up_to(TextSize::new(text.len() as u32)),
    })
}

impl<T: FileView, F: ExactFront + Drop> Document<T, F> {
    /// The parse of a text as a file.
    ///
    /// Returns `TooLong` if the text is longer than 4,294,967,295 bytes; this is checked first.
    /// Takes the time of the front end, and time linear in the text.
    pub fn new(
        alloc: Global,
        front: F,
        text: &str,
        edition: Edition,
    ) -> Result<Document<T, F>, ParseError>
        ensures parsed { IfOk result
            (λ d. IsReadOf (F.answers front) edition text.now d.parse d.parser_errors) }
        ensures front { IfOk result (λ d. d.front ≡ front) }
        ensures edition { IfOk result (λ d. d.edition ≡ edition) }
        ensures accepted { OnOk result (length text.now < 2 ^ 32) }
        ensures refused { IfErr result (λ e. (e ≡ TooLong) ↔ (2 ^ 32 ≤ length text.now)) }
    {
        if text.len() > u32::MAX as usize {
            return Err(ParseError::TooLong);
        }
        let new = read_counted(alloc, &front, text, edition)?;
        Ok(Document {
            front,
            edition,
            parse: new.parse,
            parser_errors: new.parser_errors,
        })
    }

    /// The parse of the text.
    pub fn parse(&self) -> &Parse<T>
        ensures { result.now ≡ self.now.parse }
    {
        &self.parse
    }

    /// The parse of the text, out of the document.
    pub fn into_parse(self) -> Parse<T>
        ensures { result ≡ self.parse }
    {
        self.parse
    }

    /// The text.
    pub fn text(&self) -> &str
        ensures { result.now ≡ text self.now.parse.tree }
    {
        self.parse.root().as_str()
    }

    /// The edition.
    pub fn edition(&self) -> Edition
        ensures { result ≡ self.now.edition }
    {
        self.edition
    }

    // The parse after an edit of one token or one block, if that is enough. The first `count`
    // errors of the old parse are the parser's.
    fn in_place(
        &self,
        alloc: Global,
        old: &Parse<T>,
        count: usize,
        delete: TextRange,
        insert: &str,
    ) -> Result<Option<Counted<T>>, AllocError>
        requires edit { IsEditOf (text old.now.tree) (replacing delete insert.now) }
        requires short { length (edited (text old.now.tree)
            (replacing delete insert.now)) < 2 ^ 32 }
        ensures answer { IfOk result (λ o. MatchOption o
            (NotInPlace (F.exact self.now.front) self.now.edition old.now count
            (replacing delete insert.now))
            (λ n. InPlace (F.exact self.now.front) self.now.edition old.now count
            (replacing delete insert.now) n.parse n.parser_errors n.range)) }
        ensures same_text { IfOk result (λ o. IfSome o (λ n. text n.parse.tree
            ≡ edited (text old.now.tree) (replacing delete insert.now))) }
    {
        let front = &self.front;
        if let Some(token) = token_path(alloc, old, count, front, delete, insert, self.edition)? {
            let new = with_retold(alloc, old, count, token, delete, insert)?;
            return Ok(Some(new));
        }
        match exact_path(alloc, old, count, front, delete, insert, self.edition)? {
            Some(piece) => {
                let new = with_exact(alloc, old, count, piece, delete, insert)?;
                Ok(Some(new))
            }
            None => Ok(None),
        }
    }

    // The parse after an edit, and the range that is parsed again.
    fn after(
        &self,
        alloc: Global,
        delete: TextRange,
        insert: &str,
    ) -> Result<Counted<T>, ParseError>
        requires edit { IsEditOf (text self.now.parse.tree) (replacing delete insert.now) }
        requires short { length (edited (text self.now.parse.tree)
            (replacing delete insert.now)) < 2 ^ 32 }
        ensures answer { IfOk result (λ n. IsEdited
            (F.answers self.now.front) (F.exact self.now.front) self.now.edition
            self.now.parse self.now.parser_errors
            (replacing delete insert.now) n.parse n.parser_errors n.range) }
        ensures same_text { IfOk result (λ n. text n.parse.tree
            ≡ edited (text self.now.parse.tree) (replacing delete insert.now)) }
        ensures refused { IfErr result (λ e. e ≡ TooLong → ⊥) }
    {
        match self.in_place(alloc, &self.parse, self.parser_errors, delete, insert)? {
            Some(new) => Ok(new),
            None => {
                let text = edited_text(alloc, self.text(), TextSize::new(0), delete, insert)?;
                read_counted(alloc, &self.front, text.as_str(), self.edition)
            }
        }
    }

    /// Replaces the bytes in `delete` by `insert`. Returns the range of the new text that was read
    /// again: that of one token or one block, or the whole text. Old parses that were cloned stay
    /// as they are.
    ///
    /// With Rust's front end, `g` for 3..4 of `fn f() { a }` gives the name another text, and
    /// returns 3..4; `b()` for 9..10 parses `{ b() }` and returns 7..14; `enum` for 0..2 parses the
    /// whole text.
    ///
    /// The range must be in the text, on character boundaries. Returns `TooLong` if the new text is
    /// longer than 4,294,967,295 bytes; this is checked first. If an error is returned, the
    /// document is unchanged.
    ///
    /// Where one token gets another text, the nodes are shared with the old tree as in
    /// `SyntaxToken::replace_with`, the text is copied, and what stands between the nearest braces
    /// is lexed with its old and its new text, if the old one has at most 32,768 bytes: in vain if
    /// more than the token changes. An insertion between two tokens belongs to the one before it,
    /// so a letter typed before a name does not count as an edit of the name. Otherwise the text
    /// and the tree are copied once, as by `SyntaxNode::replace_with`; beside that it takes the
    /// time of the front end for what is parsed again. A block is read with its old text too,
    /// without a tree; and in vain if it turns out to be no exact piece. In a text of more than
    /// [`ExactFront::longest`] bytes, 1,700,000 for Rust, no block is parsed by itself.
    pub fn edit(
        &mut self,
        alloc: Global,
        delete: TextRange,
        insert: &str,
    ) -> Result<TextRange, ParseError>
        requires { IsEditOf (text self.old.parse.tree) (replacing delete insert.now) }
        ensures answer { IfOk result (IsEdited (F.answers self.old.front) (F.exact self.old.front)
            self.old.edition self.old.parse self.old.parser_errors
            (replacing delete insert.now) self.new.parse
            self.new.parser_errors) }
        ensures exact { ReadsExactly (F.answers self.old.front) (F.exact self.old.front)
            → IsReadOf (F.answers self.old.front) self.old.edition (text self.old.parse.tree)
            self.old.parse self.old.parser_errors
            → OnOk result (IsReadOf (F.answers self.new.front) self.new.edition
            (text self.new.parse.tree) self.new.parse self.new.parser_errors) }
        ensures same_text { OnOk result (text self.new.parse.tree
            ≡ edited (text self.old.parse.tree) (replacing delete insert.now)) }
        ensures front { self.new.front ≡ self.old.front }
        ensures edition { self.new.edition ≡ self.old.edition }
        ensures unchanged { OnErr result (self.new ≡ self.old) }
        ensures accepted { OnOk result (length (edited (text self.old.parse.tree)
            (replacing delete insert.now)) < 2 ^ 32) }
        ensures refused { IfErr result (λ e. (e ≡ TooLong)
            ↔ (2 ^ 32
            ≤ length (edited (text self.old.parse.tree) (replacing delete insert.now)))) }
    {
        if is_too_long(self.parse.root(), delete, insert) {
            return Err(ParseError::TooLong);
        }
        node_is_placed(self.parse.root());
        let new = self.after(alloc, delete, insert)?;
        let Counted {
            parse,
            parser_errors,
            range,
        } = new;
        self.parse = parse;
        self.parser_errors = parser_errors;
        Ok(range)
    }
}
