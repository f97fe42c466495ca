//! What is in an expression outside delimiters: a record, and a `let` in a condition.
ghost use Rattle.std.specs.Prelude.{◌≡◌};
ghost use Rattle.std.specs.List.{filter, list_any};
ghost use Rattle.tree_model.specs.Cursor.{descendants_of, at_node, parent_of};
ghost use Rattle.ras_node.specs.Nodes.{kind_at};
ghost use Rattle.ras_prec_walks.specs.Parts.{is_it};
ghost use Rattle.ras_prec_walks.specs.Inside.{is_side, is_base, is_operand, opens, is_step, is_sought, lacks_side, holds, has_exterior_record, has_let};

use crate::along::{Meant, Toward, reaches};
use crate::parts::{first_expr, is_and, second_expr};
use lossless_tree::{SyntaxKind, SyntaxNode, WalkEvent};
use ras_node::support::is_of_kind;
use std::marker::Model;

/// What is looked for: a record that no delimiters surround, or a `let` in a chain of `&&`.
#[derive(Clone, Copy)]
pub enum Sought {
    Record,
    Let,
}

// What the walk uses of a node: its first two expressions, and whether it is an `&&`. It is
// computed once for all its children.
#[derive(Drop)]
struct Operands {
    parent: SyntaxNode,
    first: Option<SyntaxNode>,
    second: Option<SyntaxNode>,
    is_and: bool,
}

impl Model for Operands {
    ghost use Rattle.std.specs.Prelude.{◌≡◌};
    ghost use Rattle.tree_model.specs.Cursor.{Cursor, cursor_code};
    ghost use Rattle.ras_node.specs.Lookups.{second_typed_child};
    ghost use Rattle.ras_node.specs.Nodes.{typed_child};
    ghost use Rattle.ras_node.specs.Sets.{is_expr};
    ghost use Rattle.ras_prec_walks.specs.Parts.{is_and as is_and_of};

    ghost Value = { Cursor };

    ghost coded = { cursor_code };

    ghost view = { λ o. o.parent };

    ghost invariant = { λ o. (o.first ≡ typed_child is_expr o.parent)
        × (o.second ≡ second_typed_child is_expr o.parent) × (o.is_and ≡ is_and_of o.parent) };
}

impl Operands {
    fn of(parent: SyntaxNode) -> Operands
        ensures { result ≡ parent }
    {
        let first = first_expr(&parent);
        let second = second_expr(&parent);
        let is_and = is_and(&parent);
        Operands {
            parent,
            first,
            second,
            is_and,
        }
    }

    // The parts of the parent, which may be the last parent that was met.
    fn kept(last: Option<Operands>, parent: SyntaxNode) -> Operands
        ensures { result ≡ parent }
    {
        match last {
            Some(operands) => {
                if operands.parent == parent {
                    operands
                } else {
                    Operands::of(parent)
                }
            }
            None => Operands::of(parent),
        }
    }

    // The node is the first or the second expression.
    fn is_side(&self, node: &SyntaxNode) -> bool
        ensures { result ≡ is_side node.now self.now }
    {
        is_this(node, &self.first) || is_this(node, &self.second)
    }

    fn is_base(&self, node: &SyntaxNode) -> bool
        ensures { result ≡ is_base node.now self.now }
    {
        is_this(node, &self.first)
    }

    // A record in the operand is in the whole outside delimiters.
    fn is_operand(&self, node: &SyntaxNode) -> bool
        ensures { result ≡ is_operand (kind_at self.now) node.now self.now }
    {
        match self.parent.kind() {
            SyntaxKind::BIN_EXPR => self.is_side(node),
            SyntaxKind::INDEX_EXPR
            | SyntaxKind::AWAIT_EXPR
            | SyntaxKind::PREFIX_EXPR
            | SyntaxKind::CAST_EXPR
            | SyntaxKind::FIELD_EXPR
            | SyntaxKind::METHOD_CALL_EXPR => self.is_base(node),
            _ => false,
        }
    }

    fn opens(&self, sought: Sought, node: &SyntaxNode) -> bool
        ensures { result ≡ opens sought node.now self.now }
    {
        match sought {
            Sought::Record => self.is_operand(node),
            Sought::Let => self.is_and && self.is_side(node),
        }
    }
}

fn is_this(node: &SyntaxNode, found: &Option<SyntaxNode>) -> bool
    ensures { result ≡ is_it node.now found.now }
{
    match found {
        Some(other) => *other == *node,
        None => false,
    }
}

// The node is such an operand of its parent. `last` has the parts of the last parent that was met,
// so that they are not computed again for each of its children.
fn is_step(sought: Sought, node: &SyntaxNode, last: &mut Option<Operands>) -> bool
    ensures { result ≡ is_step sought node.now (parent_of node.now) }
{
    match node.parent() {
        Some(parent) => {
            let operands = Operands::kept(last.take(), parent);
            let opens = operands.opens(sought, node);
            *last = Some(operands);
            opens
        }
        None => false,
    }
}

fn lacks_side(node: &SyntaxNode) -> bool
    ensures { result ≡ lacks_side node.now }
{
    !reaches(Toward::Any, Meant::Second, &node.trees())
}

fn is_sought(sought: Sought, node: &SyntaxNode) -> bool
    ensures { result ≡ is_sought sought node.now }
{
    match sought {
        Sought::Record => is_of_kind(node, SyntaxKind::RECORD_EXPR),
        Sought::Let => is_of_kind(node, SyntaxKind::LET_EXPR) || (is_and(node) && lacks_side(node)),
    }
}

// The walk visits the children of a node only if that node and each ancestor, up to the top, is
// such an operand of the next. The subtree of any other node is skipped.
fn holds(sought: Sought, top: &SyntaxNode) -> bool
    ensures { result ≡ holds sought top.now (filter at_node (descendants_of top.now)) }
{
    let mut events = top.preorder();
    let mut past: Option<SyntaxNode> = None;
    let mut last: Option<Operands> = None;
    while let Some(event) = events.next() {
        match event {
            WalkEvent::Enter(node) => {
                if past.is_none() {
                    if node != *top && !is_step(sought, &node, &mut last) {
                        past = Some(node);
                    } else if is_sought(sought, &node) {
                        return true;
                    }
                }
            }
            WalkEvent::Leave(node) => {
                if let Some(over) = &past {
                    if node == *over {
                        past = None;
                    }
                }
            }
        }
    }
    false
}

/// Whether the expression contains a record outside delimiters. It does if it is one; if it is a
/// binary operator and a side contains one; or if it is an index, `.await`, field, method call,
/// cast or prefix and its base, receiver or operand contains one.
///
/// It walks the expression once, in time linear in it.
pub fn has_exterior_record(node: &SyntaxNode) -> bool
    ensures { result ≡ has_exterior_record node.now }
{
    holds(Sought::Record, node)
}

/// Whether the expression is a `let`, or an `&&` that lacks a side or one of whose sides is such an
/// expression.
///
/// It walks the expression once, in time linear in it.
pub fn has_let(node: &SyntaxNode) -> bool
    ensures { result ≡ has_let node.now }
{
    holds(Sought::Let, node)
}
