//! The pairs of parentheses that may go, as views of the caller's type.
ghost use Rattle.std.specs.Prelude.{◌≡◌, ◌↔◌, ℕ, List, IfOk, IfSome, map, option_map, true, if◌then◌else◌, Some, None};
ghost use Rattle.std.specs.List.{filter};
ghost use Rattle.syntax_kind.specs.declared.syntax_kind.SyntaxKind.{SyntaxKind};
ghost use Rattle.tree_model.specs.Cursor.{focus};
ghost use Rattle.operator_terms.specs.Term.{Term};
ghost use Rattle.operator_terms.specs.Places.{Fits, MayStandBefore};
ghost use Rattle.operator_trees.specs.Forms.{form_of};
ghost use Rattle.operator_trees.specs.Leaves.{leaves_behind};
ghost use Rattle.operator_trees.specs.Shown.{shown, meaning, IsTerm};
ghost use Rattle.operator_reading.specs.Reads.{ReadsBack};
ghost use Rattle.operator_pairs.specs.Pairs.{is_paren, is_needless, nodes_below};
ghost use Rattle.ras_prec.specs.Headline.{NeedlessOf, NoOperandNeedsAny};

use lossless_tree::SyntaxNode;
use operator_pairs::needless::is_needless;
use ras_node::AstNode;
use std::alloc::{AllocError, Global};

// The view of a pair whose inside needs no parentheses in its place.
fn needless<N: AstNode>(node: SyntaxNode) -> Option<N>
    requires { (k : SyntaxKind) → is_paren (form_of k) ≡ true → N.casts k ≡ true }
    ensures { option_map N.node result ≡ (if is_needless node then Some node else None) }
{
    if is_needless(&node) {
        N::cast(node)
    } else {
        None
    }
}

fn needless_below<N: AstNode + Drop>(alloc: Global, root: &SyntaxNode) -> Result<Vec<N>, AllocError>
    requires { (k : SyntaxKind) → is_paren (form_of k) ≡ true → N.casts k ≡ true }
    ensures { IfOk result
        (λ found. map N.node found.items ≡ filter is_needless (nodes_below root.now)) }
{
    let mut found = Vec::new(alloc);
    let mut nodes = root.descendants();
    nodes.next();
    for node in nodes {
        if let Some(pair) = needless::<N>(node) {
            match found.push(pair) {
                Ok(()) => {}
                Err(_) => return Err(AllocError),
            }
        }
    }
    Ok(found)
}

/// Whether the node is a reading of its own tokens, or `None` if it shows no term.
///
/// It is one exactly where every operand fits its place; and, unless it ends in a cast's name and
/// `<` or `<<` follows, exactly where no operand below it needs parentheses in its own parent, by
/// [`needs_parens_in`](crate::rules::needs_parens_in).
pub fn reads_back(node: &SyntaxNode) -> Option<bool>
    ensures reads { ReadsBack result (shown (focus node.now)) }
    ensures fits { IfSome result (λ b. (t : Term) → meaning (focus node.now) ≡ IsTerm t
        → b ≡ true ↔ ((q : List ℕ) → Fits t q)) }
    ensures tied { IfSome result (λ b. (t : Term) → meaning (focus node.now) ≡ IsTerm t
        → MayStandBefore (leaves_behind node.now.tree node.now.place) t
        → b ≡ true ↔ NoOperandNeedsAny node.now t) }
{
    operator_reading::reads::reads_back(node)
}

/// The pairs below the root whose inside needs no parentheses in their place, in preorder, as views
/// that every pair can be viewed as; `None` unless the tree reads back.
///
/// Where neither `<` nor `<<` follows the tree, they are those without which its tokens read as the
/// term without the pair.
pub fn needless_parens<N: AstNode + Drop>(
    alloc: Global,
    root: &SyntaxNode,
) -> Result<Option<Vec<N>>, AllocError>
    requires { (k : SyntaxKind) → is_paren (form_of k) ≡ true → N.casts k ≡ true }
    ensures { IfOk result (λ answer.
        NeedlessOf root.now (option_map (λ found. map N.node found.items) answer)
        (shown (focus root.now))) }
{
    match reads_back(root) {
        None => Ok(None),
        Some(false) => Ok(None),
        Some(true) => {
            let found = needless_below(alloc, root)?;
            Ok(Some(found))
        }
    }
}
