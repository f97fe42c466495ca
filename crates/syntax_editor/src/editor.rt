//! A session of changes of a tree.
ghost use Rattle.std.specs.Prelude.{◌≡◌, ◌↔◌, ◌∷◌, [], ◌<◌, ◌≤◌, ◌+◌, ◌^◌, IfOk, IfErr, OnOk, OnErr, IsTrue, length};
ghost use Rattle.tree_model.specs.Tree.{IsNode};
ghost use Rattle.tree_model.specs.Cursor.{focus};
ghost use Rattle.tree_model.specs.Edit.{root_of};
ghost use Rattle.tree_edits.specs.Session.{result_of};
ghost use Rattle.syntax_editor.specs.Annotated.{IsNewEditing};
ghost use Rattle.lossless_tree.specs.Element.{cursor_of};
ghost use Rattle.tree_edits.specs.Refused.{IsShort, IsNotMade};
ghost use Rattle.tree_edits.specs.declared.error.ChangeError.TheVariants.{OtherTree, Memory};
ghost use Rattle.syntax_editor.specs.Editor.{tree_of, trees_of, instead_of, with_trees, IsTakenAt, IsRefusedAt, IsEditedText};
ghost use Rattle.syntax_editor.specs.Editor.{IsOfTree, IsNotAnnotated, with_note, ReplacesRun, IsRunRefusedAt};
ghost use Rattle.syntax_editor.specs.Spot.{spot_of};
ghost use Rattle.tree_edits.specs.Run.{IsRunReplaced, IsRunRefused};

use crate::annotation::{Note, SyntaxAnnotation};
use crate::edit::SyntaxEdit;
use crate::position::{Place, Position, is_in_tree};
use lossless_tree::{NodeOrToken, SyntaxElement, SyntaxNode};
use std::alloc::{AllocError, Global};
use std::marker::Model;
use tree_edits::{ChangeError, Changes, Element};
use tree_rows::Table;

/// A session of changes of a tree: they are collected, and made at once by
/// [`SyntaxEditor::finish`].
///
/// All positions and elements that are changed are those of the old tree, so no change moves
/// another one. What is put in may be any node or token: of this tree, of another one, or a new
/// one. Several insertions at one position stay in the order of the calls. In the tree of
/// `fn f() {}`, `insert(Position::before(&item), &comment)` and then `delete(&item)` gives the
/// comment alone.
///
/// A call takes time linear in the depth of the element, and a deletion or replacement in its
/// number of nodes and tokens too. Where the element is one of another tree in memory, the call
/// first compares the two trees, and is refused unless they are equal. A clause sees the old tree,
/// what is changed at each of its rows, and its annotated elements.
#[derive(Drop)]
pub struct SyntaxEditor {
    alloc: Global,
    root: SyntaxNode,
    changes: Changes,
    made: usize,
    notes: Vec<Note>,
}

impl Model for SyntaxEditor {
    ghost use Rattle.syntax_editor.specs.Annotated.{Editing, editing_code, IsEditing};

    ghost Value = { Editing };

    ghost coded = { editing_code };

    ghost view = { λ e. record { session = e.changes; made = e.made; notes = e.notes.items } };

    ghost invariant = { λ e. IsEditing e.root e.changes.tree e.notes.items };
}

// A node or token, to be put into a tree.
fn element_of(element: &SyntaxElement) -> Element
    ensures { result ≡ tree_of element.now }
{
    match element {
        NodeOrToken::Node(node) => Element::new(node.table(), node.row()),
        NodeOrToken::Token(token) => Element::new(token.table(), token.row()),
    }
}

// The elements, to be put into a tree.
fn elements_of(alloc: Global, elements: &[SyntaxElement]) -> Result<Vec<Element>, AllocError>
    ensures { IfOk result (λ all. all.items ≡ trees_of elements.now) }
{
    let mut all = Vec::with_capacity(alloc, elements.len())?;
    for element in elements {
        all.push(element_of(element))?;
    }
    Ok(all)
}

// The root of a node's tree.
fn root(node: &SyntaxNode) -> Result<SyntaxNode, AllocError>
    ensures { IfOk result (λ root. root ≡ root_of node.now.tree) }
{
    // For the proof: the tree's root is a node.
    node.placed();
    match node.element_at_row(0) {
        Some(NodeOrToken::Node(root)) => Ok(root),
        _ => Err(AllocError),
    }
}

// The root of a table's tree.
fn new_root(alloc: Global, table: Table) -> Result<SyntaxNode, ChangeError>
    requires { IsNode table }
    ensures ok { IfOk result (λ root. root ≡ root_of table) }
    ensures err { IfErr result (λ e. e ≡ Memory) }
{
    match SyntaxNode::of_table(alloc, table)? {
        Some(root) => Ok(root),
        None => Err(ChangeError::Memory),
    }
}

// One element, to be put into a tree.
fn one(alloc: Global, element: &SyntaxElement) -> Result<Vec<Element>, AllocError>
    ensures { IfOk result (λ all. all.items ≡ tree_of element.now ∷ []) }
{
    let mut all = Vec::new(alloc);
    all.push(element_of(element))?;
    Ok(all)
}

impl SyntaxEditor {
    /// Begins a session of changes of the whole tree of a node: mostly its root; for a part of a
    /// tree alone, make a [`SyntaxNode::clone_subtree`] first.
    ///
    /// # Errors
    ///
    /// `AllocError` if memory runs out: it takes 8 bytes for each node and token of the tree.
    pub fn new(alloc: Global, node: &SyntaxNode) -> Result<SyntaxEditor, AllocError>
        ensures { IfOk result (IsNewEditing node.now.tree) }
    {
        // For the proof: the tree's root is a node.
        node.placed();
        Ok(SyntaxEditor {
            alloc,
            root: root(node)?,
            changes: Changes::new(alloc, node.table())?,
            made: 0,
            notes: Vec::new(alloc),
        })
    }

    // Why a change at a position is not taken, if it is not.
    fn check(&self, position: &Position) -> Result<(), ChangeError>
        ensures ok { OnOk result (IsTakenAt self.now position.now) }
        ensures err { IfErr result (IsRefusedAt self.now position.now) }
    {
        if !is_in_tree(&self.changes, &position.place) {
            return Err(ChangeError::OtherTree);
        }
        self.changes.check(position.place.row(), position.slot)
    }

    // Adds elements at a position, where that is taken.
    fn put(&mut self, position: &Position, elements: Vec<Element>) -> Result<(), ChangeError>
        requires { IsTakenAt self.old position.now }
        ensures ok { OnOk result (self.new ≡ with_trees self.old position.now elements.items) }
        ensures err { OnErr result (self.new ≡ self.old) }
        ensures memory { IfErr result (λ e. e ≡ Memory) }
    {
        self.changes
            .put(self.alloc, position.place.row(), position.slot, elements)
    }

    /// Puts an element at a position, after those that were put there before.
    ///
    /// # Errors
    ///
    /// The first of the variants of [`ChangeError`], from `OtherTree` to `ChangedInside`, whose
    /// condition holds, and otherwise `Memory` if memory runs out; so for the other calls. Nothing
    /// is changed then.
    pub fn insert(&mut self, position: Position, element: &SyntaxElement) -> Result<(), ChangeError>
        ensures ok { OnOk result
            (self.new ≡ with_trees self.old position (tree_of element.now ∷ [])) }
        ensures taken { OnOk result (IsTakenAt self.old position) }
        ensures err { OnErr result (self.new ≡ self.old) }
        ensures refused { IfErr result (IsRefusedAt self.old position) }
    {
        self.check(&position)?;
        let elements = one(self.alloc, element)?;
        self.put(&position, elements)
    }

    /// Puts elements at a position, in their order, after those that were put there before.
    pub fn insert_all(
        &mut self,
        position: Position,
        elements: &[SyntaxElement],
    ) -> Result<(), ChangeError>
        ensures ok { OnOk result (self.new ≡ with_trees self.old position (trees_of elements.now)) }
        ensures taken { OnOk result (IsTakenAt self.old position) }
        ensures err { OnErr result (self.new ≡ self.old) }
        ensures refused { IfErr result (IsRefusedAt self.old position) }
    {
        self.check(&position)?;
        let elements = elements_of(self.alloc, elements)?;
        self.put(&position, elements)
    }

    /// Deletes an element.
    pub fn delete(&mut self, element: &SyntaxElement) -> Result<(), ChangeError>
        ensures ok { OnOk result (self.new ≡ with_trees self.old (instead_of element.now) []) }
        ensures taken { OnOk result (IsTakenAt self.old (instead_of element.now)) }
        ensures err { OnErr result (self.new ≡ self.old) }
        ensures refused { IfErr result (IsRefusedAt self.old (instead_of element.now)) }
    {
        let position = Position::instead_of(element);
        self.check(&position)?;
        self.put(&position, Vec::new(self.alloc))
    }

    /// Puts a new element in the place of an old one.
    pub fn replace(&mut self, old: &SyntaxElement, new: &SyntaxElement) -> Result<(), ChangeError>
        ensures ok { OnOk result
            (self.new ≡ with_trees self.old (instead_of old.now) (tree_of new.now ∷ [])) }
        ensures taken { OnOk result (IsTakenAt self.old (instead_of old.now)) }
        ensures err { OnErr result (self.new ≡ self.old) }
        ensures refused { IfErr result (IsRefusedAt self.old (instead_of old.now)) }
    {
        self.insert(Position::instead_of(old), new)
    }

    /// Puts new elements, in their order, in the place of an old one.
    pub fn replace_with_many(
        &mut self,
        old: &SyntaxElement,
        new: &[SyntaxElement],
    ) -> Result<(), ChangeError>
        ensures ok { OnOk result
            (self.new ≡ with_trees self.old (instead_of old.now) (trees_of new.now)) }
        ensures taken { OnOk result (IsTakenAt self.old (instead_of old.now)) }
        ensures err { OnErr result (self.new ≡ self.old) }
        ensures refused { IfErr result (IsRefusedAt self.old (instead_of old.now)) }
    {
        self.insert_all(Position::instead_of(old), new)
    }

    // Where an element is, if it is one of the tree.
    fn place_of(&self, element: &SyntaxElement) -> Result<Place, ChangeError>
        ensures ok { IfOk result (λ place. place ≡ spot_of (cursor_of element.now)) }
        ensures taken { OnOk result (IsOfTree self.now (cursor_of element.now)) }
        ensures err { IfErr result (λ e. e ≡ OtherTree) }
        ensures refused { OnErr result (IsOfTree self.now (cursor_of element.now) → ⊥) }
    {
        let place = Place::of(element);
        if is_in_tree(&self.changes, &place) {
            Ok(place)
        } else {
            Err(ChangeError::OtherTree)
        }
    }

    // Puts elements in the place of a run of siblings.
    fn put_run(
        &mut self,
        first: &Place,
        last: &Place,
        elements: Vec<Element>,
    ) -> Result<(), ChangeError>
        requires { first.now.tree ≡ self.old.session.tree }
        ensures ok { let old = self.old.session in
            OnOk result
            (IsRunReplaced old first.now.row last.now.row elements.items self.new.session) }
        ensures same { self.new ≡ record self.old { session = self.new.session } }
        ensures err { OnErr result (self.new ≡ self.old) }
        ensures refused { IfErr result (IsRunRefused self.old.session first.now.row last.now.row) }
    {
        self.changes
            .replace_all(self.alloc, first.row(), last.row(), elements)
    }

    /// Puts new elements, in their order, in the place of the siblings from `first` to `last`, both
    /// included.
    ///
    /// In the tree of `fn f() {}`, with the parameters and the block as `first` and `last`, it
    /// replaces `() {}`. Takes the time of [`SyntaxEditor::replace`] for each of them.
    ///
    /// # Errors
    ///
    /// `OtherTree` if the one or the other is not in the tree; otherwise `NotSiblings` if `last` is
    /// neither `first` nor one of its later siblings; otherwise the reason for which the first of
    /// them that may not be replaced is refused by [`SyntaxEditor::replace`]; and `Memory` if
    /// memory runs out. Nothing is changed then.
    pub fn replace_all(
        &mut self,
        first: &SyntaxElement,
        last: &SyntaxElement,
        new: &[SyntaxElement],
    ) -> Result<(), ChangeError>
        ensures ok { let ts = trees_of new.now in
            OnOk result
            (ReplacesRun self.old (cursor_of first.now) (cursor_of last.now) ts self.new) }
        ensures err { OnErr result (self.new ≡ self.old) }
        ensures refused { IfErr result
            (IsRunRefusedAt self.old (cursor_of first.now) (cursor_of last.now)) }
    {
        let first = self.place_of(first)?;
        let last = self.place_of(last)?;
        let elements = elements_of(self.alloc, new)?;
        self.put_run(&first, &last, elements)
    }

    /// Deletes the siblings from `first` to `last`, both included, as [`SyntaxEditor::replace_all`]
    /// by no element does.
    pub fn delete_all(
        &mut self,
        first: &SyntaxElement,
        last: &SyntaxElement,
    ) -> Result<(), ChangeError>
        ensures ok { OnOk result
            (ReplacesRun self.old (cursor_of first.now) (cursor_of last.now) [] self.new) }
        ensures err { OnErr result (self.new ≡ self.old) }
        ensures refused { IfErr result
            (IsRunRefusedAt self.old (cursor_of first.now) (cursor_of last.now)) }
    {
        let first = self.place_of(first)?;
        let last = self.place_of(last)?;
        self.put_run(&first, &last, Vec::new(self.alloc))
    }

    /// A new annotation, which differs from all others that this editor made. Pass it to this
    /// editor alone: another editor takes it for its own annotation with the same number.
    ///
    /// # Errors
    ///
    /// `AllocError` if the editor made 2^64 - 1 annotations.
    pub fn new_annotation(&mut self) -> Result<SyntaxAnnotation, AllocError>
        ensures number { IfOk result (λ annotation. annotation.number ≡ self.old.made) }
        ensures ok { OnOk result (self.new ≡ record self.old { made = self.old.made + 1 }) }
        ensures err { OnErr result (self.new ≡ self.old) }
        ensures refused { OnErr result (2 ^ 64 ≤ self.old.made + 1) }
    {
        let number = self.made;
        self.made = number.checked_add(1).ok_or(AllocError)?;
        Ok(SyntaxAnnotation { number })
    }

    /// Gives an element of the tree an annotation, by which [`SyntaxEdit::find_annotation`] finds
    /// it in the new tree, unless it is replaced or deleted, or is inside something that is. An
    /// element can have several annotations, and an annotation several elements.
    ///
    /// # Errors
    ///
    /// `OtherTree` if the element is in a tree that differs from the editor's, as one that is put
    /// in mostly is, and otherwise `Memory` if memory runs out. Nothing is changed then.
    pub fn add_annotation(
        &mut self,
        element: &SyntaxElement,
        annotation: SyntaxAnnotation,
    ) -> Result<(), ChangeError>
        ensures ok { OnOk result
            (self.new ≡ with_note self.old annotation (cursor_of element.now)) }
        ensures taken { OnOk result (IsOfTree self.old (cursor_of element.now)) }
        ensures err { OnErr result (self.new ≡ self.old) }
        ensures refused { IfErr result (IsNotAnnotated self.old (cursor_of element.now)) }
    {
        let place = Place::of(element);
        if !is_in_tree(&self.changes, &place) {
            return Err(ChangeError::OtherTree);
        }
        match self.notes.push(Note::new(annotation, place)) {
            Ok(()) => Ok(()),
            Err(_) => Err(ChangeError::Memory),
        }
    }

    /// Makes the changes. The old tree stays as it is. Takes time linear in the old tree and in
    /// what is put in, however many changes there are.
    ///
    /// # Errors
    ///
    /// `TooLong` if the new text would have 2^32 bytes or more, and `Memory` if memory runs out.
    #[tactic(auto, using(crate::proofs::SpotLemmas::text_of_root))]
    pub fn finish(self) -> Result<SyntaxEdit, ChangeError>
        ensures old { IfOk result (λ edit. edit.old_root ≡ root_of self.session.tree) }
        ensures new { IfOk result (λ edit. edit.new_root ≡ root_of (result_of self.session)) }
        ensures changes { IfOk result (λ edit. edit.changes ≡ self.session) }
        ensures notes { IfOk result (λ edit. edit.notes.items ≡ self.notes) }
        ensures text { IfOk result (λ edit. IsEditedText self.session (focus edit.new_root)) }
        ensures short { OnOk result (IsShort self.session) }
        ensures refused { IfErr result (IsNotMade self.session) }
    {
        let table = self.changes.new_table(self.alloc)?;
        Ok(SyntaxEdit {
            old_root: self.root,
            new_root: new_root(self.alloc, table)?,
            changes: self.changes,
            notes: self.notes,
        })
    }
}
