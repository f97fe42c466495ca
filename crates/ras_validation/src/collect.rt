//! The walk over a tree.
ghost use Rattle.std.specs.Prelude.{◌≡◌, ◌-◌, ◌<◌, ◌≤◌, ◌++◌, IfOk, OnOk, Some, option_map};
ghost use Rattle.ras_validation.specs.Violations.{named_at, attributes_in, block_attributes, at_visibility, at_segment, violations_at, violations_of, violations_among};
ghost use Rattle.ras_validation.specs.Rules.{inner_attribute, bare_statements};
ghost use Rattle.tree_model.specs.Cursor.{range_of, cursor_at, cursors_from};
ghost use Rattle.tree_model.specs.Rows.{tree_at};
ghost use Rattle.tree_model.specs.Tree.{size, IsNode};
ghost use Rattle.ras_validation.specs.Rows.{violations_from};

use crate::exprs::{misplaced_let, numeric_name, range_without_end};
use crate::items::{macro_rules_visibility, mutable_const, visibility_in_trait, visibility_path};
use crate::kinds::{TakesInnerAttributes, WithRules};
use crate::literals::add_literal_faults;
use crate::lookups::{has_path_keyword, is_inner_attribute, node_child};
use crate::paths::{crate_in_path, self_in_path};
use crate::rows::is_plain_segment;
use crate::types::{ambiguous_return, ambiguous_target, without_trait};
use crate::violation::{Violation, ViolationMessage};
use lossless_tree::{SyntaxKind, SyntaxNode};
use ras_node::KindSet;
use std::alloc::{AllocError, Global};
use text_size::TextRange;

// Appends the violation at a range, if there is one.
fn add(
    found: &mut Vec<Violation>,
    message: ViolationMessage,
    range: Option<TextRange>,
) -> Result<(), AllocError>
    ensures { OnOk result (found.new.items ≡ found.old.items ++ named_at message range) }
{
    if let Some(range) = range {
        found.push(Violation { message, range })?;
    }
    Ok(())
}

// The range of an inner attribute.
fn inner_attribute(node: &SyntaxNode) -> Option<TextRange>
    ensures { result ≡ option_map range_of (inner_attribute node.now) }
{
    if is_inner_attribute(node) {
        Some(node.text_range())
    } else {
        None
    }
}

// The statement list of a block that may not have inner attributes.
fn bare_statements(block: &SyntaxNode) -> Option<SyntaxNode>
    ensures { result ≡ bare_statements block.now }
{
    if let Some(parent) = block.parent() {
        if TakesInnerAttributes::has(parent.kind()) {
            return None;
        }
    }
    node_child(block, SyntaxKind::STMT_LIST)
}

// Appends the inner attributes of a list.
fn add_attributes_in(found: &mut Vec<Violation>, list: &SyntaxNode) -> Result<(), AllocError>
    ensures { OnOk result (found.new.items ≡ found.old.items ++ attributes_in list.now) }
{
    // Most lists have none, and their children need no cursors.
    if node_child(list, SyntaxKind::ATTR).is_none() {
        return Ok(());
    }
    let mut left = list.children();
    while let Some(child) = left.next() {
        add(
            found,
            ViolationMessage::InnerAttribute,
            inner_attribute(&child),
        )?;
    }
    Ok(())
}

// Appends the inner attributes of a `BLOCK_EXPR` that may not have any. If memory runs out, some of
// them may be missing.
fn add_block_attributes(found: &mut Vec<Violation>, block: &SyntaxNode) -> Result<(), AllocError>
    ensures { OnOk result (found.new.items ≡ found.old.items ++ block_attributes block.now) }
{
    match bare_statements(block) {
        Some(list) => add_attributes_in(found, &list),
        None => Ok(()),
    }
}

fn add_at_visibility(found: &mut Vec<Violation>, node: &SyntaxNode) -> Result<(), AllocError>
    ensures { OnOk result (found.new.items ≡ found.old.items ++ at_visibility node.now) }
{
    add(
        found,
        ViolationMessage::VisibilityPath,
        visibility_path(node),
    )?;
    add(
        found,
        ViolationMessage::VisibilityInTrait,
        visibility_in_trait(node),
    )
}

fn add_at_segment(found: &mut Vec<Violation>, node: &SyntaxNode) -> Result<(), AllocError>
    ensures { OnOk result (found.new.items ≡ found.old.items ++ at_segment node.now) }
{
    // Most segments are names, and break no rule.
    if !has_path_keyword(node) {
        return Ok(());
    }
    add(found, ViolationMessage::SelfInPath, self_in_path(node))?;
    add(found, ViolationMessage::CrateInPath, crate_in_path(node))
}

// Appends the violations at one node, by its kind, without those at nodes below it. If memory runs
// out, some of them may be missing.
fn add_violations_at(found: &mut Vec<Violation>, node: &SyntaxNode) -> Result<(), AllocError>
    ensures { OnOk result (found.new.items ≡ found.old.items ++ violations_at node.now) }
{
    use ViolationMessage as Message;
    match node.kind() {
        SyntaxKind::LITERAL => add_literal_faults(found, node),
        SyntaxKind::CONST => add(found, Message::MutableConst, mutable_const(node)),
        SyntaxKind::BLOCK_EXPR => add_block_attributes(found, node),
        SyntaxKind::FIELD_EXPR | SyntaxKind::RECORD_EXPR_FIELD => {
            add(found, Message::NumericName, numeric_name(node))
        }
        SyntaxKind::VISIBILITY => add_at_visibility(found, node),
        SyntaxKind::RANGE_EXPR => add(found, Message::RangeWithoutEnd, range_without_end(node)),
        SyntaxKind::PATH_SEGMENT => add_at_segment(found, node),
        SyntaxKind::REF_TYPE | SyntaxKind::PTR_TYPE => {
            add(found, Message::AmbiguousPlus, ambiguous_target(node))
        }
        SyntaxKind::FN_PTR_TYPE => add(found, Message::AmbiguousPlus, ambiguous_return(node)),
        SyntaxKind::DYN_TRAIT_TYPE | SyntaxKind::IMPL_TRAIT_TYPE => {
            add(found, Message::NoTrait, without_trait(node))
        }
        SyntaxKind::MACRO_RULES => {
            add(
                found,
                Message::MacroRulesVisibility,
                macro_rules_visibility(node),
            )
        }
        SyntaxKind::LET_EXPR => add(found, Message::MisplacedLet, misplaced_let(node)),
        _ => Ok(()),
    }
}

// The node at a row of a node's tree.
fn node_at(root: &SyntaxNode, row: usize) -> Option<SyntaxNode>
    requires is_row { row < size root.now.tree }
    requires is_node { IsNode (tree_at root.now.tree row) }
    ensures { result ≡ Some (cursor_at root.now.tree row) }
{
    root.element_at_row(row)?.into_node()
}

// Appends the violations at the node at a row of a node's tree. If memory runs out, some of them
// may be missing.
fn add_at_row(found: &mut Vec<Violation>, root: &SyntaxNode, row: usize) -> Result<(), AllocError>
    requires is_row { row < size root.now.tree }
    requires is_node { IsNode (tree_at root.now.tree row) }
    ensures { OnOk result (found.new.items
        ≡ found.old.items ++ violations_at (cursor_at root.now.tree row)) }
{
    match node_at(root, row) {
        Some(node) => add_violations_at(found, &node),
        None => Ok(()),
    }
}

// Appends the violations at the nodes of a node's tree whose rows have the numbers `from..to`. If
// memory runs out, some of them may be missing.
//
// It reads rows, and makes no cursor of a segment that is a name: three of four nodes with rules
// are such.
fn add_all(
    found: &mut Vec<Violation>,
    root: &SyntaxNode,
    from: usize,
    to: usize,
) -> Result<(), AllocError>
    requires { to ≤ size root.now.tree }
    ensures { OnOk result (found.new.items
        ≡ found.old.items ++ violations_from root.now.tree from to) }
{
    let table = root.table().as_ref();
    let mut next = from;
    while let Some(row) = table.first_node_among::<WithRules>(next, to) {
        if is_plain_segment(table, row) {
            // The rows of its name are passed, too.
            next = table.row_behind(row + 1);
        } else {
            add_at_row(found, root, row)?;
            next = table.next_row(row);
        }
    }
    Ok(())
}

/// The violations of a tree, in preorder of its nodes; for one node in the order of its rules, and
/// for one rule in the order of the text.
///
/// Takes memory for the list only, and time linear in the tree and its literals, plus the nodes
/// around that are looked at for each segment of a path that is `self` or `crate`, each `let`, and
/// each visibility in an implementation.
pub fn violations(alloc: Global, root: &SyntaxNode) -> Result<Vec<Violation>, AllocError>
    ensures { IfOk result (λ found. found.items ≡ violations_of root.now) }
{
    violations_in(alloc, root)
}

/// The violations at the nodes of one subtree, in the order of [`violations`].
///
/// The rules look at the nodes around, too, so they are those that the whole tree has there: the
/// violations of a tree are those at the nodes before a subtree in preorder, those in it, and those
/// at the nodes after it ([`violations_stand_together`](crate::laws::violations_stand_together)).
/// Takes time linear in the subtree and its literals, plus what [`violations`] says of the nodes
/// around.
pub fn violations_in(alloc: Global, node: &SyntaxNode) -> Result<Vec<Violation>, AllocError>
    ensures { IfOk result (λ found. found.items ≡ violations_of node.now) }
{
    let first = node.row();
    let end = node.table().as_ref().row_behind(first);
    let mut found = Vec::new(alloc);
    add_all(&mut found, node, first, end)?;
    Ok(found)
}

/// The violations at the nodes of a node's whole tree whose rows have the numbers `from..to`, in
/// the order of [`violations`]. If there are fewer rows, it is all from `from` on.
///
/// Rows are numbered in preorder, so the violations of a tree are those among its first rows, and
/// then those among the rest ([`violations_of_parts`](crate::laws::violations_of_parts)). Takes
/// time linear in these rows and their literals, plus what [`violations`] says of the nodes around.
pub fn violations_among(
    alloc: Global,
    node: &SyntaxNode,
    from: usize,
    to: usize,
) -> Result<Vec<Violation>, AllocError>
    ensures within { to ≤ size node.now.tree → IfOk result (λ found. found.items
        ≡ violations_among (cursors_from node.now.tree from (to - from))) }
    ensures past { size node.now.tree < to → IfOk result (λ found. found.items
        ≡ violations_among (cursors_from node.now.tree from (size node.now.tree - from))) }
{
    let count = node.table().as_ref().len();
    let end = if to > count { count } else { to };
    let mut found = Vec::new(alloc);
    add_all(&mut found, node, from, end)?;
    Ok(found)
}
