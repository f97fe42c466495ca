//! The patterns in a slice pattern.
ghost use Rattle.std.specs.Prelude.{◌≡◌, map, option_map, IfOk, OnOk};
ghost use Rattle.std.specs.List.{find};
ghost use Rattle.ras_node.specs.Nodes.{typed_children};
ghost use Rattle.ras_node_ext.specs.Slices.{is_dots, is_bound_dots, is_rest, before_rest, behind_rest};

use lossless_tree::{SyntaxKind, SyntaxNode};
use ras_node::{AstChildren, AstNode, support};
use std::alloc::{AllocError, Global};

/// The patterns in a slice pattern, split at its first rest pattern: `..`, `rest @ ..`, `&..` or
/// `&rest @ ..`.
#[derive(Drop)]
pub struct SliceComponents<P: AstNode> {
    /// The patterns before the rest pattern; all patterns if there is none.
    pub prefix: Vec<P>,
    /// The rest pattern.
    pub slice: Option<P>,
    /// The patterns after the rest pattern.
    pub suffix: Vec<P>,
}

fn is_dots(pat: &SyntaxNode) -> bool
    ensures { result ≡ is_dots pat.now }
{
    pat.kind() == SyntaxKind::REST_PAT
}

// Whether a pattern is `..`, also bound by a name.
fn is_bound_dots<P: AstNode + Drop>(pat: &SyntaxNode) -> bool
    ensures { result ≡ is_bound_dots P.casts pat.now }
{
    if is_dots(pat) {
        return true;
    }
    if pat.kind() != SyntaxKind::IDENT_PAT {
        return false;
    }
    match support::child::<P>(pat) {
        Some(inner) => is_dots(inner.syntax()),
        None => false,
    }
}

// Whether a pattern is `..`, also bound by a name or after `&`.
fn is_rest<P: AstNode + Drop>(pat: &SyntaxNode) -> bool
    ensures { result ≡ is_rest P.casts pat.now }
{
    if is_bound_dots::<P>(pat) {
        return true;
    }
    if pat.kind() != SyntaxKind::REF_PAT {
        return false;
    }
    match support::child::<P>(pat) {
        Some(inner) => is_bound_dots::<P>(inner.syntax()),
        None => false,
    }
}

// Takes the patterns before the first rest pattern, and the rest pattern.
fn take_through_rest<P: AstNode + Drop>(
    alloc: Global,
    left: &mut AstChildren<P>,
) -> Result<(Vec<P>, Option<P>), AllocError>
    ensures before { IfOk result
        (λ taken. map P.node taken.0.items ≡ before_rest P.casts left.old) }
    ensures rest { IfOk result
        (λ taken. option_map P.node taken.1 ≡ find (is_rest P.casts) left.old) }
    ensures left { OnOk result (left.new ≡ behind_rest P.casts left.old) }
{
    let mut before = Vec::new(alloc);
    while let Some(pat) = left.next() {
        if is_rest::<P>(pat.syntax()) {
            return Ok((before, Some(pat)));
        }
        before.push(pat)?;
    }
    Ok((before, None))
}

fn take_all<P: AstNode + Drop>(alloc: Global, left: AstChildren<P>) -> Result<Vec<P>, AllocError>
    ensures { IfOk result (λ taken. map P.node taken.items ≡ left) }
{
    let mut left = left;
    let mut taken = Vec::new(alloc);
    while let Some(pat) = left.next() {
        taken.push(pat)?;
    }
    Ok(taken)
}

/// The patterns among the children of a slice pattern: those before the first rest pattern, that
/// one, and those after it.
///
/// Takes memory for the two lists.
pub fn slice_components<P: AstNode + Drop>(
    alloc: Global,
    slice: &SyntaxNode,
) -> Result<SliceComponents<P>, AllocError>
    ensures prefix { IfOk result (λ parts. map P.node parts.prefix.items
        ≡ before_rest P.casts (typed_children P.casts slice.now)) }
    ensures slice { IfOk result (λ parts. option_map P.node parts.slice
        ≡ find (is_rest P.casts) (typed_children P.casts slice.now)) }
    ensures suffix { IfOk result (λ parts. map P.node parts.suffix.items
        ≡ behind_rest P.casts (typed_children P.casts slice.now)) }
{
    let mut left = support::children::<P>(slice);
    let (prefix, rest) = take_through_rest(alloc, &mut left)?;
    let suffix = take_all(alloc, left)?;
    Ok(SliceComponents {
        prefix,
        slice: rest,
        suffix,
    })
}
