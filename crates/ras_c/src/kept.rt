//! The parse that a handle keeps.
ghost use Rattle.std.specs.Prelude.{◌≡◌, ◌⊎◌, ◌↔◌, ◌≤◌, ◌<◌, ◌^◌, length, IfOk, IfErr, OnErr, OnOk, IsTrue, string_bytes};
ghost use Rattle.text_edit.specs.Replacements.{IsRefused};
ghost use Rattle.tree_model.specs.Tree.{text};
ghost use Rattle.tree_model.specs.Edit.{root_of};
ghost use Rattle.ras_front_end.specs.declared.parse_error.ParseError.TheVariants.{TooLong};
ghost use Rattle.ras_parsing.specs.Edit.{IsEditOf, edited, replacing};
ghost use Rattle.ras_c.specs.Kept.{IsRead, IsAgain, IsEdited, AreEdited};
ghost use Rattle.ras_c.specs.Edits.{AreEditedBy, IsUnedited, apply_status};
ghost use Rattle.ras_c.specs.Live.{edit_from};

use crate::edit_rows::{EditRow, edit_of};
use crate::root::Root;
use crate::status::{NO_MEMORY, NO_PLACE, TOO_LONG};
use document_laws::laws::rust_reads_exactly;
use lossless_tree::{SyntaxNode, TextRange, TextSize};
use ras_front_end::{Edition, ParseError};
use ras_parsing::{Document, Parse};
use rust_front::Rust;
use std::alloc::{AllocError, Global};
use std::marker::Model;
use text_edit::{ApplyError, TextEdit};

/// The parse of a text as a file, which may be edited. It is always the parse of its text.
#[derive(Drop)]
pub struct KeptParse {
    document: Document<Root, Rust>,
}

impl Model for KeptParse {
    ghost use Rattle.tree_model.specs.Tree.{text};
    ghost use Rattle.ras_parsing.specs.Document.{IsReadOf};
    ghost use Rattle.rust_front.specs.Front.{rust_front};
    ghost use Rattle.ras_c.specs.Kept.{Kept, kept_code};

    ghost Value = { Kept };

    ghost coded = { kept_code };

    ghost view = { λ a. record { edition = a.document.edition; parse = a.document.parse } };

    ghost invariant = { λ a. IsReadOf rust_front a.document.edition (text a.document.parse.tree)
        a.document.parse a.document.parser_errors };
}

// The text after an edit.
fn edited_text(
    alloc: Global,
    text: &str,
    delete: TextRange,
    insert: &str,
) -> Result<String, AllocError>
    requires { IsEditOf text.now (replacing delete insert.now) }
    ensures { IfOk result (λ s. string_bytes s
        ≡ edited text.now (replacing delete insert.now)) }
{
    let from = delete.start().raw() as usize;
    let to = delete.end().raw() as usize;
    let mut edited = String::new(alloc);
    edited.push_str(&text[..from])?;
    edited.push_str(insert)?;
    edited.push_str(&text[to..])?;
    Ok(edited)
}

// Whether the text after an edit is too long for a parse.
fn is_too_long(text: &str, delete: TextRange, insert: &str) -> bool
    requires { IsEditOf text.now (replacing delete insert.now) }
    ensures { IsTrue result
        ↔ (2 ^ 32 ≤ length (edited text.now (replacing delete insert.now))) }
{
    let kept = text.len() - delete.len().raw() as usize;
    kept + insert.len() > u32::MAX as usize
}

fn apply_status(refused: ApplyError) -> u32
    ensures { result ≡ apply_status refused }
{
    match refused {
        ApplyError::PastEnd | ApplyError::InsideCharacter => NO_PLACE,
        ApplyError::TooLong => TOO_LONG,
        ApplyError::Memory => NO_MEMORY,
    }
}

impl KeptParse {
    /// The parse of a text in an edition.
    pub(crate) fn new(alloc: Global, text: &str, edition: Edition) -> Result<KeptParse, ParseError>
        ensures read { IfOk result (λ k. IsRead text.now k) }
        ensures edition { IfOk result (λ k. k.edition ≡ edition) }
        ensures accepted { OnOk result (length text.now < 2 ^ 32) }
        ensures refused { IfErr result (λ e. (e ≡ TooLong) ↔ (2 ^ 32 ≤ length text.now)) }
    {
        let document = Document::new(alloc, Rust, text, edition)?;
        Ok(KeptParse { document })
    }

    /// The parse, which is that of its text.
    pub(crate) fn parse(&self) -> &Parse<Root>
        ensures same { result.now ≡ self.now.parse }
        ensures read { IsRead (text self.now.parse.tree) self.now }
    {
        self.document.parse()
    }

    /// The root of the tree, without the errors.
    pub(crate) fn into_root(self) -> SyntaxNode
        ensures { result ≡ root_of self.parse.tree }
    {
        self.document.into_parse().into_root()
    }

    // Edits the text in its edition. Returns what was read again.
    fn edit_here(
        &mut self,
        alloc: Global,
        delete: TextRange,
        insert: &str,
    ) -> Result<TextRange, ParseError>
        requires { IsEditOf (text self.old.parse.tree)
            (replacing delete insert.now) }
        ensures edited { OnOk result (IsEdited self.old.edition
            (replacing delete insert.now) self.old self.new) }
        ensures again { IfOk result (IsAgain self.old.parse.tree
            (replacing delete insert.now) self.new.parse.tree) }
        ensures unchanged { OnErr result (self.new ≡ self.old) }
        ensures refused { IfErr result (λ e. (e ≡ TooLong)
            ↔ (2 ^ 32 ≤ length (edited (text self.old.parse.tree)
            (replacing delete insert.now)))) }
    {
        rust_reads_exactly();
        self.document.edit(alloc, delete, insert)
    }

    // Edits the text, and reads all of it in an edition. Returns the range of the whole text.
    fn edit_anew(
        &mut self,
        alloc: Global,
        edition: Edition,
        delete: TextRange,
        insert: &str,
    ) -> Result<TextRange, ParseError>
        requires { IsEditOf (text self.old.parse.tree)
            (replacing delete insert.now) }
        ensures edited { OnOk result (IsEdited edition
            (replacing delete insert.now) self.old self.new) }
        ensures again { IfOk result (IsAgain self.old.parse.tree
            (replacing delete insert.now) self.new.parse.tree) }
        ensures unchanged { OnErr result (self.new ≡ self.old) }
        ensures refused { IfErr result (λ e. (e ≡ TooLong)
            ↔ (2 ^ 32 ≤ length (edited (text self.old.parse.tree)
            (replacing delete insert.now)))) }
    {
        let old = self.document.text();
        if is_too_long(old, delete, insert) {
            return Err(ParseError::TooLong);
        }
        let text = edited_text(alloc, old, delete, insert)?;
        let new = KeptParse::new(alloc, text.as_str(), edition)?;
        *self = new;
        Ok(TextRange::up_to(TextSize::new(text.len() as u32)))
    }

    /// Replaces the bytes from `start` to `end`, or returns the status of the refusal. In the
    /// parse's own edition one token gets another text or one block is parsed again where that is
    /// enough; in another one the whole text is. Returns the range of the new text that was read
    /// again.
    pub(crate) fn edit(
        &mut self,
        alloc: Global,
        edition: Edition,
        start: u32,
        end: u32,
        insert: &str,
    ) -> Result<TextRange, u32>
        ensures edited { OnOk result (IsEdited edition (edit_from start end insert.now)
            self.old self.new) }
        ensures again { IfOk result (IsAgain self.old.parse.tree
            (edit_from start end insert.now) self.new.parse.tree) }
        ensures unchanged { OnErr result (self.new ≡ self.old) }
        ensures place { IfErr result (λ s. (s ≡ 6)
            ↔ (IsEditOf (text self.old.parse.tree) (edit_from start end insert.now) → ⊥)) }
        ensures long { IfErr result (λ s. (s ≡ 2)
            ↔ IsEditOf (text self.old.parse.tree) (edit_from start end insert.now)
            × (2 ^ 32
            ≤ length
            (edited (text self.old.parse.tree) (edit_from start end insert.now)))) }
        ensures which { IfErr result (λ s. (s ≡ 2) ⊎ (s ≡ 3) ⊎ (s ≡ 6)) }
    {
        let text = self.document.text();
        if start > end
            || !text.is_char_boundary(start as usize)
            || !text.is_char_boundary(end as usize)
        {
            return Err(NO_PLACE);
        }
        let delete = TextRange::new(TextSize::new(start), TextSize::new(end));
        let edited = if self.document.edition() == edition {
            self.edit_here(alloc, delete, insert)
        } else {
            self.edit_anew(alloc, edition, delete, insert)
        };
        match edited {
            Ok(range) => Ok(range),
            Err(ParseError::TooLong) => Err(TOO_LONG),
            Err(ParseError::Memory) => Err(NO_MEMORY),
        }
    }

    // Makes several replacements in the parse's edition.
    fn edits_here(&mut self, alloc: Global, edit: &TextEdit) -> Result<(), ApplyError>
        ensures edited { OnOk result (AreEdited self.old.edition edit.now self.old self.new) }
        ensures unchanged { OnErr result (self.new ≡ self.old) }
        ensures refused { IfErr result (IsRefused (text self.old.parse.tree) edit.now) }
    {
        rust_reads_exactly();
        self.document.edits(alloc, edit)
    }

    // Makes several replacements, and reads all of the new text in an edition.
    fn edits_anew(
        &mut self,
        alloc: Global,
        edition: Edition,
        edit: &TextEdit,
    ) -> Result<(), ApplyError>
        ensures edited { OnOk result (AreEdited edition edit.now self.old self.new) }
        ensures unchanged { OnErr result (self.new ≡ self.old) }
        ensures refused { IfErr result (IsRefused (text self.old.parse.tree) edit.now) }
    {
        let text = edit.apply(alloc, self.document.text())?;
        match KeptParse::new(alloc, text.as_str(), edition) {
            Ok(kept) => {
                *self = kept;
                Ok(())
            }
            // The new text is not too long.
            Err(_) => Err(ApplyError::Memory),
        }
    }

    /// Makes the replacements of all rows, or returns the status of the refusal. In the parse's own
    /// edition they are made as by `Document::edits`; in another one the whole text is parsed.
    pub(crate) fn edits(
        &mut self,
        alloc: Global,
        edition: Edition,
        rows: &[EditRow],
        inserts: &str,
    ) -> Result<(), u32>
        ensures edited { OnOk result (AreEditedBy edition rows.now inserts.now self.old self.new) }
        ensures unchanged { OnErr result (self.new ≡ self.old) }
        ensures refused { IfErr result (λ s. (s ≡ 3)
            ⊎ IsUnedited rows.now inserts.now self.old s) }
        ensures which { IfErr result (λ s. (2 ≤ s) × (s ≤ 3) ⊎ (s ≡ 6)
            ⊎ (19 ≤ s) × (s ≤ 20)) }
    {
        let edit = edit_of(alloc, rows, inserts)?;
        let edited = if self.document.edition() == edition {
            self.edits_here(alloc, &edit)
        } else {
            self.edits_anew(alloc, edition, &edit)
        };
        match edited {
            Ok(()) => Ok(()),
            Err(refused) => Err(apply_status(refused)),
        }
    }
}
