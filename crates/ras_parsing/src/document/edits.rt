//! Several replacements in the text of a document, as one edit.
ghost use Rattle.std.specs.Prelude.{◌≡◌, All, IfOk, IfErr, IfSome, MatchOption, OnOk, OnErr};
ghost use Rattle.tree_model.specs.Tree.{text};
ghost use Rattle.text_edit.specs.Replacements.{InOrder, IsRangeOf, IsRefused};
ghost use Rattle.text_edit.specs.Replacements.{edited as all_edited, IsEditOf as AreEditsOf};
ghost use Rattle.ras_parsing.specs.Document.{IsReadOf, ReadsExactly};
ghost use Rattle.ras_parsing.specs.InSteps.{AreInSteps, NotInSteps, AreEdited};

use super::{Document, read_counted};
use crate::file::FileView;
use crate::parse::Parse;
use crate::reparse::is_too_long;
use exact_front::ExactFront;
use lossless_tree::laws::node_is_placed;
use std::alloc::{AllocError, Global};
use text_edit::{ApplyError, Indel, TextEdit};

/// So many replacements are made one after another. Each copies the text, so where there are more,
/// all of the new text is parsed once.
const MOST_STEPS: usize = 8;

impl<T: FileView, F: ExactFront + Drop> Document<T, F> {
    // The parse after some replacements, the last one first, if each is of one token or one block;
    // and the number of its errors that are the parser's.
    fn in_steps(
        &self,
        alloc: Global,
        edits: &[Indel],
    ) -> Result<Option<(Parse<T>, usize)>, AllocError>
        requires ranges { All (IsRangeOf (text self.now.parse.tree)) edits.now }
        requires in_order { InOrder 0 edits.now }
        ensures answer { IfOk result (λ o. MatchOption o
            (NotInSteps (F.exact self.now.front) self.now.edition
            self.now.parse self.now.parser_errors edits.now)
            (λ n. AreInSteps (F.exact self.now.front) self.now.edition
            self.now.parse self.now.parser_errors edits.now n.0 n.1)) }
        ensures exact { ReadsExactly (F.answers self.now.front) (F.exact self.now.front)
            → IsReadOf (F.answers self.now.front) self.now.edition (text self.now.parse.tree)
            self.now.parse self.now.parser_errors
            → IfOk result (λ o. IfSome o (λ n. IsReadOf (F.answers self.now.front)
            self.now.edition (text n.0.tree) n.0 n.1)) }
        ensures same_text { IfOk result (λ o. IfSome o (λ n. text n.0.tree
            ≡ all_edited (text self.now.parse.tree) edits.now)) }
    {
        if edits.len() > MOST_STEPS {
            return Ok(None);
        }
        node_is_placed(self.parse.root());
        let mut parse = self.parse.clone()?;
        let mut count = self.parser_errors;
        for at in (0..edits.len()).rev() {
            let edit = &edits[at];
            let delete = edit.deleted();
            let insert = edit.inserted();
            node_is_placed(parse.root());
            if is_too_long(parse.root(), delete, insert) {
                return Ok(None);
            }
            match self.in_place(alloc, &parse, count, delete, insert)? {
                Some(new) => {
                    parse = new.parse;
                    count = new.parser_errors;
                }
                None => return Ok(None),
            }
        }
        Ok(Some((parse, count)))
    }

    /// Makes all replacements of an edit, whose ranges are of the text as it is.
    ///
    /// At most eight are made as by [`Document::edit`], one after another, the last one first. If
    /// there are more, or one of them is of no single token or block, all of the new text is
    /// parsed, once. With Rust's front end the parse is that of the new text either way.
    ///
    /// In `fn f() { a }`, `g` for 3..4 and `b` for 9..10 give two tokens another text; with `enum`
    /// for 0..2 in place of the first, all of `enum f() { b }` is parsed.
    ///
    /// Takes the time of each step as [`Document::edit`] does, or that of the front end for the new
    /// text, and time linear in both texts.
    ///
    /// # Errors
    ///
    /// Those of [`TextEdit::apply`] on the text: `PastEnd`, `InsideCharacter`, `TooLong`, and
    /// otherwise `Memory`. The document is unchanged then.
    pub fn edits(&mut self, alloc: Global, edits: &TextEdit) -> Result<(), ApplyError>
        ensures answer { OnOk result (AreEdited (F.answers self.old.front)
            (F.exact self.old.front) self.old.edition self.old.parse self.old.parser_errors
            edits.now self.new.parse self.new.parser_errors) }
        ensures exact { ReadsExactly (F.answers self.old.front) (F.exact self.old.front)
            → IsReadOf (F.answers self.old.front) self.old.edition (text self.old.parse.tree)
            self.old.parse self.old.parser_errors
            → OnOk result (IsReadOf (F.answers self.new.front) self.new.edition
            (text self.new.parse.tree) self.new.parse self.new.parser_errors) }
        ensures same_text { OnOk result (text self.new.parse.tree
            ≡ all_edited (text self.old.parse.tree) edits.now) }
        ensures front { self.new.front ≡ self.old.front }
        ensures edition { self.new.edition ≡ self.old.edition }
        ensures unchanged { OnErr result (self.new ≡ self.old) }
        ensures accepted { OnOk result (AreEditsOf (text self.old.parse.tree) edits.now) }
        ensures refused { IfErr result (IsRefused (text self.old.parse.tree) edits.now) }
    {
        let text = edits.apply(alloc, self.text())?;
        let (parse, parser_errors) = match self.in_steps(alloc, edits.as_slice())? {
            Some(made) => made,
            None => match read_counted(alloc, &self.front, text.as_str(), self.edition) {
                Ok(new) => (new.parse, new.parser_errors),
                Err(_) => return Err(ApplyError::Memory),
            },
        };
        self.parse = parse;
        self.parser_errors = parser_errors;
        Ok(())
    }
}
