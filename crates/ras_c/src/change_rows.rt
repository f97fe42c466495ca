//! Many changes of a tree, as rows.
ghost use Rattle.std.specs.Prelude.{◌≡◌, ◌⊎◌, ◌≤◌, ◌<◌, ◌++◌, ◌∷◌, [], IfErr, IfOk, OnOk, Some};
ghost use Rattle.tree_model.specs.Tree.{size};
ghost use Rattle.tree_model.specs.Tree.{text as text_of};
ghost use Rattle.tree_model.specs.Cursor.{focus};
ghost use Rattle.syntax_editor.specs.Editor.{trees_of};
ghost use Rattle.ras_c.specs.Border.{IsHanded, IsCounted};
ghost use Rattle.ras_c.specs.ChangeRows.{HasChanged, change_status, events_with, IsPart, HasPart, HasRow, IsContent, IsNoContent, position_at, IsNoPosition, IsPutAt, IsNotPutAt, IsPut, IsNotPut, IsChangedBy, IsUnchangedBy};

use crate::edit_rows::NOT_CUT;
use crate::fill::hand;
use crate::status::{NO_MEMORY, NO_PLACE, TOO_LONG};
use lossless_tree::{NodeOrToken, SyntaxElement, SyntaxKind, SyntaxNode, TreeBuilder};
use std::alloc::{AllocError, Global};
use syntax_editor::{ChangeError, Position, SyntaxEdit, SyntaxEditor};

/// What a change puts in stands in the place of the element; with nothing, the element is deleted.
pub const PLACE_INSTEAD: u32 = 0;
/// It is put before the element.
pub const PLACE_BEFORE: u32 = 1;
/// It is put after the element.
pub const PLACE_AFTER: u32 = 2;
/// It is put into the node, before its first child.
pub const PLACE_FIRST: u32 = 3;
/// It is put into the node, after its last child.
pub const PLACE_LAST: u32 = 4;
/// A change puts nothing in.
pub const CONTENT_NOTHING: u32 = 0;
/// A change puts a text in: bytes `start` to `end` of the texts.
pub const CONTENT_TEXT: u32 = 1;
/// A change puts a copy of an element of the old tree in, that at the row `start`.
pub const CONTENT_ROW: u32 = 2;
/// A change is before, after or in the place of the root. Nothing was written.
pub const BESIDE_ROOT: u32 = 21;
/// A change puts a child into a token. Nothing was written.
pub const INTO_TOKEN: u32 = 22;
/// A change is of an element that another one replaces or deletes. Nothing was written.
pub const REPLACED: u32 = 23;
/// A change is inside an element that another one replaces or deletes. Nothing was written.
pub const IN_REPLACED: u32 = 24;
/// A change replaces an element inside which there are others. Nothing was written.
pub const CHANGED_INSIDE: u32 = 25;
/// No place or no content of a change has the number. Nothing was written.
pub const NO_CHANGE: u32 = 26;

/// One of several changes of a tree.
#[repr(C)]
#[derive(Clone, Copy)]
pub struct ChangeRow {
    /// The row of the element of the old tree.
    pub row: u32,
    /// Where the change is, such as [`PLACE_BEFORE`].
    pub place: u32,
    /// What is put in, such as [`CONTENT_TEXT`].
    pub content: u32,
    /// Where its text starts in the texts, or its row in the old tree.
    pub start: u32,
    /// Where its text ends.
    pub end: u32,
}

fn change_status(refused: ChangeError) -> u32
    ensures value { result ≡ change_status refused }
    ensures which { (2 ≤ result) × (result ≤ 3) ⊎ (result ≡ 6) ⊎ (21 ≤ result) × (result ≤ 25) }
{
    match refused {
        ChangeError::OtherTree | ChangeError::NotSiblings => NO_PLACE,
        ChangeError::Root => BESIDE_ROOT,
        ChangeError::Token => INTO_TOKEN,
        ChangeError::Replaced => REPLACED,
        ChangeError::InReplaced => IN_REPLACED,
        ChangeError::ChangedInside => CHANGED_INSIDE,
        ChangeError::TooLong => TOO_LONG,
        ChangeError::Memory => NO_MEMORY,
    }
}

// Appends the events of a node with one token.
fn add_node(builder: &mut TreeBuilder, text: &str) -> Result<(), AllocError>
    ensures { OnOk result (builder.new ≡ builder.old ++ events_with text.now) }
{
    builder.start_node(SyntaxKind::ERROR)?;
    builder.token(SyntaxKind::ERROR, text)?;
    builder.finish_node()
}

// A node that has a text.
fn node_with(alloc: Global, text: &str) -> Result<SyntaxNode, u32>
    ensures node { IfOk result (λ node. text_of (focus node) ≡ text.now) }
    ensures memory { IfErr result (λ s. s ≡ 3) }
{
    let mut builder = TreeBuilder::new(alloc);
    let Ok(()) = add_node(&mut builder, text) else {
        return Err(NO_MEMORY);
    };
    match builder.finish() {
        Ok(node) => Ok(node),
        Err(_) => Err(NO_MEMORY),
    }
}

// A list of one element.
fn one(alloc: Global, element: SyntaxElement) -> Result<Vec<SyntaxElement>, u32>
    ensures one { IfOk result (λ v. v.items ≡ element ∷ []) }
    ensures memory { IfErr result (λ s. s ≡ 3) }
{
    let mut elements = Vec::new(alloc);
    match elements.push(element) {
        Ok(()) => Ok(elements),
        Err(_) => Err(NO_MEMORY),
    }
}

// An element that has a part of the texts.
fn part(alloc: Global, texts: &str, start: usize, end: usize) -> Result<Vec<SyntaxElement>, u32>
    ensures part { IfOk result (λ v. HasPart texts.now start end (trees_of v.items)) }
    ensures refused { IfErr result (λ s. (s ≡ 3)
        ⊎ (s ≡ 20) × (IsPart texts.now start end → ⊥)) }
{
    if start > end || !texts.is_char_boundary(start) || !texts.is_char_boundary(end) {
        return Err(NOT_CUT);
    }
    let node = node_with(alloc, &texts[start..end])?;
    one(alloc, NodeOrToken::Node(node))
}

// A copy of the element at a row.
fn copied(alloc: Global, root: &SyntaxNode, row: usize) -> Result<Vec<SyntaxElement>, u32>
    ensures copied { IfOk result (λ v. HasRow root.now.tree row (trees_of v.items)) }
    ensures refused { IfErr result (λ s. (s ≡ 3) ⊎ (s ≡ 6) × (size root.now.tree ≤ row)) }
{
    match root.element_at_row(row) {
        Some(element) => one(alloc, element),
        None => Err(NO_PLACE),
    }
}

// What a change puts in.
fn content_of(
    alloc: Global,
    root: &SyntaxNode,
    row: &ChangeRow,
    texts: &str,
) -> Result<Vec<SyntaxElement>, u32>
    ensures content { IfOk result
        (λ v. IsContent root.now.tree texts.now row.now (trees_of v.items)) }
    ensures refused { IfErr result (λ s. (s ≡ 3)
        ⊎ IsNoContent root.now.tree texts.now row.now s) }
    ensures which { IfErr result (λ s. (s ≡ 3) ⊎ (s ≡ 6) ⊎ (20 ≤ s) × (s ≤ 26)) }
{
    match row.content {
        CONTENT_NOTHING => Ok(Vec::new(alloc)),
        CONTENT_TEXT => part(alloc, texts, row.start as usize, row.end as usize),
        CONTENT_ROW => copied(alloc, root, row.start as usize),
        _ => Err(NO_CHANGE),
    }
}

// The position beside or in an element that has a number.
fn position_of(element: &SyntaxElement, place: u32) -> Result<Position, u32>
    requires { 0 < place }
    ensures position { IfOk result (λ p. position_at element.now place ≡ Some p) }
    ensures refused { IfErr result (λ s. IsNoPosition element.now place s) }
    ensures which { IfErr result (λ s. (s ≡ 22) ⊎ (s ≡ 26)) }
{
    match (place, element) {
        (PLACE_BEFORE, _) => Ok(Position::before(element)),
        (PLACE_AFTER, _) => Ok(Position::after(element)),
        (PLACE_FIRST, NodeOrToken::Node(node)) => Ok(Position::first_child_of(node)),
        (PLACE_LAST, NodeOrToken::Node(node)) => Ok(Position::last_child_of(node)),
        (PLACE_FIRST | PLACE_LAST, NodeOrToken::Token(_)) => Err(INTO_TOKEN),
        _ => Err(NO_CHANGE),
    }
}

// Puts elements next to another one, in its place, or into it.
fn put(
    editor: &mut SyntaxEditor,
    element: &SyntaxElement,
    place: u32,
    content: &[SyntaxElement],
) -> Result<(), u32>
    ensures put { OnOk result
        (IsPutAt editor.old element.now place (trees_of content.now) editor.new) }
    ensures refused { IfErr result (IsNotPutAt editor.old element.now place) }
    ensures which { IfErr result (λ s. (2 ≤ s) × (s ≤ 3) ⊎ (s ≡ 6) ⊎ (20 ≤ s) × (s ≤ 26)) }
{
    if place == PLACE_INSTEAD {
        return match editor.replace_with_many(element, content) {
            Ok(()) => Ok(()),
            Err(refused) => Err(change_status(refused)),
        };
    }
    let position = position_of(element, place)?;
    match editor.insert_all(position, content) {
        Ok(()) => Ok(()),
        Err(refused) => Err(change_status(refused)),
    }
}

// Makes one change.
fn change(
    alloc: Global,
    editor: &mut SyntaxEditor,
    root: &SyntaxNode,
    row: &ChangeRow,
    texts: &str,
) -> Result<(), u32>
    ensures put { OnOk result
        (IsPut root.now.tree texts.now editor.old row.now editor.new) }
    ensures refused { IfErr result (λ s. (s ≡ 3)
        ⊎ IsNotPut root.now.tree texts.now editor.old row.now s) }
    ensures which { IfErr result (λ s. (2 ≤ s) × (s ≤ 3) ⊎ (s ≡ 6) ⊎ (20 ≤ s) × (s ≤ 26)) }
{
    let Some(element) = root.element_at_row(row.row as usize) else {
        return Err(NO_PLACE);
    };
    let content = content_of(alloc, root, row, texts)?;
    put(editor, &element, row.place, &content)
}

// The tree before and after all changes, or the status of the first refusal.
fn changed(
    alloc: Global,
    root: &SyntaxNode,
    rows: &[ChangeRow],
    texts: &str,
) -> Result<SyntaxEdit, u32>
    ensures changed { IfOk result
        (λ edit. IsChangedBy root.now.tree texts.now rows.now edit.new_root) }
    ensures refused { IfErr result (λ s. (s ≡ 3)
        ⊎ IsUnchangedBy root.now.tree texts.now rows.now s) }
    ensures which { IfErr result (λ s. (2 ≤ s) × (s ≤ 3) ⊎ (s ≡ 6) ⊎ (20 ≤ s) × (s ≤ 26)) }
{
    let Ok(mut editor) = SyntaxEditor::new(alloc, root) else {
        return Err(NO_MEMORY);
    };
    for row in rows {
        change(alloc, &mut editor, root, row, texts)?;
    }
    match editor.finish() {
        Ok(edit) => Ok(edit),
        Err(refused) => Err(change_status(refused)),
    }
}

/// Writes the text of the tree after all changes.
pub(crate) fn write_changed(
    alloc: Global,
    root: &SyntaxNode,
    rows: &[ChangeRow],
    texts: &str,
    out: &mut [u8],
    count: &mut u32,
) -> u32
    ensures done { result ≡ 0 → HasChanged root.now.tree texts.now rows.now
        (λ new. IsHanded new out.old out.new count.new) }
    ensures room { result ≡ 4 → HasChanged root.now.tree texts.now rows.now
        (λ new. IsCounted new out.old out.new count.new) }
    ensures refused { (result ≡ 2) ⊎ ((result ≡ 6) ⊎ (20 ≤ result))
        → IsUnchangedBy root.now.tree texts.now rows.now result }
    ensures kept { (result ≡ 0 → ⊥) → (result ≡ 4 → ⊥)
        → (out.new ≡ out.old) × (count.new ≡ count.old) }
    ensures which { (result ≡ 0) ⊎ (2 ≤ result) × (result ≤ 4) ⊎ (result ≡ 6)
        ⊎ (20 ≤ result) × (result ≤ 26) }
{
    match changed(alloc, root, rows, texts) {
        Ok(edit) => hand(edit.new_root().as_str().as_bytes(), out, count),
        Err(status) => status,
    }
}
