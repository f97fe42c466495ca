//! Where what a session of changes keeps is in the new tree.
ghost use Rattle.std.specs.Prelude.{◌≡◌, None, IfOk, IfSome, suc};
ghost use Rattle.tree_edits.specs.Session.{at_of};
ghost use Rattle.tree_edits.specs.Kept.{new_rows_of};
ghost use Rattle.syntax_editor.specs.Editor.{IsKeptCursor, IsKeptElement, IsKeptSpot, new_cursor, new_element};
ghost use Rattle.syntax_editor.specs.Editor.{row_after, element_after, found_note, found_notes};

use crate::annotation::{Note, SyntaxAnnotation};
use crate::edit::SyntaxEdit;
use crate::position::{Place, is_in_tree};
use lossless_tree::{SyntaxElement, SyntaxNode, SyntaxToken};
use std::alloc::{AllocError, Global};

/// Where what was kept is in the new tree.
#[derive(Drop)]
pub struct SyntaxMapping<'e> {
    pub(crate) edit: &'e SyntaxEdit,
    pub(crate) rows: Vec<usize>,
    ghost are_rows: { rows.items ≡ new_rows_of (at_of edit.now.changes) edit.now.changes.tree },
}

impl<'e> SyntaxMapping<'e> {
    // The row in the new tree of what is at a place, if it is one of the old tree and kept.
    fn new_row(&self, place: &Place) -> Option<usize>
        ensures some { IfSome result (λ n. row_after self.now.edit.now.changes place.now ≡ suc n) }
        ensures tree { IfSome result (λ n. place.now.tree ≡ self.now.edit.now.changes.tree) }
        ensures none { result ≡ None → place.now.tree ≡ self.now.edit.now.changes.tree
            → row_after self.now.edit.now.changes place.now ≡ 0 }
    {
        if is_in_tree(&self.edit.changes, place) {
            self.rows[place.row()].checked_sub(1)
        } else {
            None
        }
    }

    // The element of the new tree that what is at a place of the old tree has become, if it is
    // kept.
    fn new_element(&self, place: &Place) -> Option<SyntaxElement>
        ensures some { IfSome result
            (λ new. new ≡ element_after self.now.edit.now.changes place.now) }
        ensures kept { IfSome result (λ new. IsKeptSpot self.now.edit.now.changes place.now) }
        ensures none { result ≡ None → IsKeptSpot self.now.edit.now.changes place.now → ⊥ }
    {
        // For the proof: the place's row is one of its tree.
        let _at = place.row();
        let row = self.new_row(place)?;
        self.edit.new_root.element_at_row(row)
    }

    // The element of a note in the new tree, if it has the annotation and is kept.
    fn found(&self, note: &Note, annotation: SyntaxAnnotation) -> Option<SyntaxElement>
        requires { note.now.cursor.tree ≡ self.now.edit.now.changes.tree }
        ensures { result ≡ found_note self.now.edit.now.changes annotation note.now }
    {
        if note.has(annotation) {
            self.new_element(note.place())
        } else {
            None
        }
    }

    /// The elements of the new tree that annotated ones of the old tree have become, as
    /// [`SyntaxEdit::find_annotation`] says. Takes time linear in the number of annotated elements.
    ///
    /// # Errors
    ///
    /// `AllocError` if memory runs out.
    pub fn find_annotation(
        &self,
        alloc: Global,
        annotation: SyntaxAnnotation,
    ) -> Result<Vec<SyntaxElement>, AllocError>
        ensures { let edit = self.now.edit.now in
            IfOk result (λ all. all.items ≡ found_notes edit.changes annotation edit.notes.items) }
    {
        let mut all = Vec::new(alloc);
        for note in &self.edit.notes {
            if let Some(element) = self.found(note, annotation) {
                all.push(element)?;
            }
        }
        Ok(all)
    }

    /// The element of the new tree that an element of the old tree has become: the same node or
    /// token, with the changes inside it made. `None` if it was replaced or deleted, or is inside
    /// something that was, or is of another tree.
    ///
    /// In the tree of `fn f() {}`, where the name is replaced and an attribute is put before `fn`,
    /// it gives the `fn` of the new tree for the old one, and `None` for the name. Takes constant
    /// time; where the element is one of another tree in memory, the call first compares the two
    /// trees.
    pub fn old_to_new(&self, element: &SyntaxElement) -> Option<SyntaxElement>
        ensures some { IfSome result
            (λ new. new ≡ new_element self.now.edit.now.changes element.now) }
        ensures kept { IfSome result (λ new. IsKeptElement self.now.edit.now.changes element.now) }
        ensures none { result ≡ None → IsKeptElement self.now.edit.now.changes element.now → ⊥ }
    {
        self.new_element(&Place::of(element))
    }

    /// The same for a node.
    pub fn old_to_new_node(&self, node: &SyntaxNode) -> Option<SyntaxNode>
        ensures some { IfSome result (λ new. new ≡ new_cursor self.now.edit.now.changes node.now) }
        ensures kept { IfSome result (λ new. IsKeptCursor self.now.edit.now.changes node.now) }
        ensures none { result ≡ None → IsKeptCursor self.now.edit.now.changes node.now → ⊥ }
    {
        // For the proof: what is at the place is a node.
        node.placed();
        let row = self.new_row(&Place::of_node(node))?;
        let element = self.edit.new_root.element_at_row(row)?;
        element.into_node()
    }

    /// The same for a token.
    pub fn old_to_new_token(&self, token: &SyntaxToken) -> Option<SyntaxToken>
        ensures some { IfSome result (λ new. new ≡ new_cursor self.now.edit.now.changes token.now) }
        ensures kept { IfSome result (λ new. IsKeptCursor self.now.edit.now.changes token.now) }
        ensures none { result ≡ None → IsKeptCursor self.now.edit.now.changes token.now → ⊥ }
    {
        // For the proof: what is at the place is a token.
        token.placed();
        let row = self.new_row(&Place::of_token(token))?;
        let element = self.edit.new_root.element_at_row(row)?;
        element.into_token()
    }
}
