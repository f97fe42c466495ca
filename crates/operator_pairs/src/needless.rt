//! The pairs of an operator tree that may go.
ghost use Rattle.std.specs.Prelude.{◌≡◌, ◌↔◌, IfOk, IfSome, Some, true, option_map};
ghost use Rattle.std.specs.List.{filter};
ghost use Rattle.tree_model.specs.Cursor.{focus, parent_of};
ghost use Rattle.operator_terms.specs.Term.{Term};
ghost use Rattle.operator_terms.specs.Places.{MayStandBefore};
ghost use Rattle.operator_trees.specs.Leaves.{leaves_behind};
ghost use Rattle.operator_trees.specs.Shown.{shown, meaning, IsTerm};
ghost use Rattle.operator_reading.specs.Reads.{ReadsBack};
ghost use Rattle.operator_pairs.specs.Pairs.{is_paren, is_needless, nodes_below, may_go_from, NeedlessOf, AskedNowhere};

use crate::test::needs_parens_in_place_of;
use lossless_tree::SyntaxNode;
use operator_powers::ask::is_foreign;
use operator_trees::{Form, form_of};
use std::alloc::{AllocError, Global};

fn is_paren(form: Form) -> bool
    ensures { result ≡ is_paren form }
{
    matches!(form, Form::Paren)
}

fn may_go_from(inside: &SyntaxNode, parent: &SyntaxNode, pair: &SyntaxNode) -> bool
    requires { parent_of pair.now ≡ Some parent.now }
    ensures { result ≡ may_go_from (Some inside.now) (Some parent.now) pair.now }
{
    !is_foreign(form_of(inside.kind())) && !needs_parens_in_place_of(inside, parent, pair)
}

/// Whether the node is a pair whose inside needs no parentheses in its place, where both are in an
/// operator tree.
pub fn is_needless(node: &SyntaxNode) -> bool
    ensures { result ≡ is_needless node.now }
{
    if !is_paren(form_of(node.kind())) {
        return false;
    }
    match node.first_child() {
        None => false,
        Some(inside) => match node.parent() {
            None => false,
            Some(parent) => may_go_from(&inside, &parent, node),
        },
    }
}

fn needless_below(alloc: Global, root: &SyntaxNode) -> Result<Vec<SyntaxNode>, AllocError>
    ensures { IfOk result (λ found. found.items ≡ filter is_needless (nodes_below root.now)) }
{
    let mut found = Vec::new(alloc);
    let mut nodes = root.descendants();
    nodes.next();
    for node in nodes {
        if is_needless(&node) {
            match found.push(node) {
                Ok(()) => {}
                Err(_) => return Err(AllocError),
            }
        }
    }
    Ok(found)
}

/// Whether the node is a reading of its own tokens, or `None` if it shows no term.
///
/// It is one exactly where no operand below it needs parentheses in its own parent, unless it ends
/// in a cast's name and `<` or `<<` follows.
pub fn reads_back(node: &SyntaxNode) -> Option<bool>
    ensures reads { ReadsBack result (shown (focus node.now)) }
    ensures tied { IfSome result (λ b. (t : Term) → meaning (focus node.now) ≡ IsTerm t
        → MayStandBefore (leaves_behind node.now.tree node.now.place) t
        → b ≡ true ↔ AskedNowhere node.now t) }
{
    operator_reading::reads::reads_back(node)
}

/// The pairs below the root whose inside needs no parentheses in their place, in preorder; `None`
/// unless the tree reads back.
///
/// Where neither `<` nor `<<` follows the tree, they are those without which its tokens read as the
/// term without the pair.
pub fn needless_parens(
    alloc: Global,
    root: &SyntaxNode,
) -> Result<Option<Vec<SyntaxNode>>, AllocError>
    ensures { IfOk result (λ answer.
        NeedlessOf root.now (option_map (λ found. found.items) answer)
        (shown (focus root.now))) }
{
    match reads_back(root) {
        None => Ok(None),
        Some(false) => Ok(None),
        Some(true) => {
            let found = needless_below(alloc, root)?;
            Ok(Some(found))
        }
    }
}
