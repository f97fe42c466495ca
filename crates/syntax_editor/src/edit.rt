//! What a session of changes gives.
ghost use Rattle.std.specs.Prelude.{◌≡◌, IfOk};
ghost use Rattle.text_edit.specs.Replacements.{IsEditOf};
ghost use Rattle.tree_model.specs.Tree.{text};
ghost use Rattle.tree_model.specs.Cursor.{focus};
ghost use Rattle.tree_model.specs.Edit.{root_of};
ghost use Rattle.tree_edits.specs.Session.{result_of};
ghost use Rattle.syntax_editor.specs.Editor.{text_edit_of_session, Turns, found_notes};
ghost use Rattle.syntax_editor.specs.Annotated.{AreOf, AreOf-prop};

use crate::annotation::{Note, SyntaxAnnotation};
use crate::mapping::SyntaxMapping;
use lossless_tree::{SyntaxElement, SyntaxNode};
use std::alloc::{AllocError, Global};
use text_edit::TextEdit;
use tree_edits::Changes;

/// The tree before and after a session of changes, and the changes.
#[derive(Drop)]
pub struct SyntaxEdit {
    pub(crate) old_root: SyntaxNode,
    pub(crate) new_root: SyntaxNode,
    pub(crate) changes: Changes,
    pub(crate) notes: Vec<Note>,
    ghost old_is: { old_root ≡ root_of changes.tree },
    ghost new_is: { new_root ≡ root_of (result_of changes) },
    ghost notes_are: { AreOf changes.tree notes.items } by { AreOf-prop changes.tree notes.items },
}

impl SyntaxEdit {
    /// The root of the tree as it was.
    pub fn old_root(&self) -> &SyntaxNode
        ensures { result.now ≡ self.now.old_root }
    {
        &self.old_root
    }

    /// The root of the changed tree.
    pub fn new_root(&self) -> &SyntaxNode
        ensures { result.now ≡ self.now.new_root }
    {
        &self.new_root
    }

    /// The elements of the new tree that annotated ones of the old tree have become, in the order
    /// of the calls of [`SyntaxEditor::add_annotation`]; an element that was annotated twice is
    /// there twice. Those that are not kept are left out.
    ///
    /// Takes the time of [`SyntaxEdit::mapping`]; for many annotations, make that once, and call
    /// [`SyntaxMapping::find_annotation`].
    ///
    /// # Errors
    ///
    /// `AllocError` if memory runs out.
    ///
    /// [`SyntaxEditor::add_annotation`]: crate::SyntaxEditor::add_annotation
    pub fn find_annotation(
        &self,
        alloc: Global,
        annotation: SyntaxAnnotation,
    ) -> Result<Vec<SyntaxElement>, AllocError>
        ensures { IfOk result
            (λ all. all.items ≡ found_notes self.now.changes annotation self.now.notes.items) }
    {
        let mapping = self.mapping(alloc)?;
        mapping.find_annotation(alloc, annotation)
    }

    /// Where what was kept is in the new tree. Takes time linear in the old tree and the number of
    /// elements that are put in.
    ///
    /// # Errors
    ///
    /// `AllocError` if memory runs out: it takes 8 bytes for each node and token of the old tree.
    pub fn mapping(&self, alloc: Global) -> Result<SyntaxMapping<'_>, AllocError>
        ensures { IfOk result (λ mapping. mapping.edit.now ≡ self.now) }
    {
        Ok(SyntaxMapping {
            edit: self,
            rows: self.changes.new_rows(alloc)?,
        })
    }

    /// The edit of the text that the changes are: applied to the text of the old tree, it gives the
    /// text of the new one. Each of its replacements inserts or deletes something.
    /// [`TextEdit::apply`] is refused for memory alone, since its ranges are within that text, on
    /// character boundaries.
    ///
    /// In the tree of `fn f() {}`, with `g` in the place of the name, it is the one replacement of
    /// the bytes `3..4` by `g`. Takes time linear in the old tree and in the text that is put in.
    ///
    /// # Errors
    ///
    /// `AllocError` if memory runs out.
    pub fn text_edit(&self, alloc: Global) -> Result<TextEdit, AllocError>
        ensures edit { IfOk result (λ edit. edit ≡ text_edit_of_session self.now.changes) }
        ensures text { IfOk result (Turns self.now.old_root self.now.new_root) }
        ensures fits { IfOk result (IsEditOf (text (focus self.now.old_root))) }
    {
        // For the proof: the new text is short.
        self.new_root.placed();
        self.changes.text_edit(alloc)
    }
}
