//! A parse after many replacements in its text.
ghost use Rattle.std.specs.Prelude.{◌≡◌, IfOk, IfErr, OnOk};
ghost use Rattle.tree_model.specs.Tree.{text};
ghost use Rattle.text_edit.specs.Replacements.{edited, IsEditOf, IsRefused};
ghost use Rattle.ras_front_end.specs.Parsed.{ErrorsLieIn, IsParseOf};
ghost use Rattle.ras_front_end.specs.declared.edition.Entry.TheVariants.{SourceFile};

use crate::file::FileView;
use crate::parse::{Parse, read};
use ras_front_end::{Edition, Entry, FrontEnd};
use std::alloc::Global;
use text_edit::{ApplyError, TextEdit};

impl<T: FileView> Parse<T> {
    /// The parse after all replacements of an edit: the new text is parsed as a file, once. The old
    /// parse is unchanged.
    ///
    /// For one replacement, [`Parse::reparse`] may be faster. Takes the time of the front end, and
    /// time linear in both texts.
    ///
    /// # Errors
    ///
    /// Those of [`TextEdit::apply`] on the old text: `PastEnd`, `InsideCharacter`, `TooLong`, and
    /// otherwise `Memory`.
    pub fn reparse_all<F: FrontEnd>(
        &self,
        alloc: Global,
        front: &F,
        edit: &TextEdit,
        edition: Edition,
    ) -> Result<Parse<T>, ApplyError>
        ensures answer { IfOk result (IsParseOf (edited (text self.now.tree) edit.now) ((F.answers
            front.now).parsed SourceFile edition
            (edited (text self.now.tree) edit.now))) }
        ensures same_text { IfOk result (λ p. text p.tree ≡ edited (text self.now.tree) edit.now) }
        ensures in_text { IfOk result ErrorsLieIn }
        ensures accepted { OnOk result (IsEditOf (text self.now.tree) edit.now) }
        ensures refused { IfErr result (IsRefused (text self.now.tree) edit.now) }
    {
        let text = edit.apply(alloc, self.root().as_str())?;
        match read(alloc, front, Entry::SourceFile, text.as_str(), edition) {
            Ok(parse) => Ok(parse),
            Err(_) => Err(ApplyError::Memory),
        }
    }
}
