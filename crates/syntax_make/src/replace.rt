//! An expression in the place of another.
ghost use Rattle.std.specs.Prelude.{◌≡◌, ◌≤◌, ◌^◌, IfOk, IfErr, length, option_map, true, false};
ghost use Rattle.tree_model.specs.Tree.{kind_of, text};
ghost use Rattle.tree_model.specs.Cursor.{IsRoot, focus};
ghost use Rattle.tree_model.specs.Edit.{replace, root_of};
ghost use Rattle.syntax_make.specs.Replaced.{empty_pair, in_pair, meant, piece_of, entry_of, needs_pair_at, IsReadOrNot, IsBareOrNot, IsTooLong, IsReplaced, IsTextWith, IsNotReplaced};

use crate::error::ReplaceExprError;
use lossless_tree::{SyntaxNode, TreeBuilder};
use ras_front_end::{Edition, Entry, FrontEnd};
use ras_parsing::{Parse, read};
use ras_prec::rules::needs_parens_in_place_of;
use std::alloc::{AllocError, Global};
use syntax_kind::SyntaxKind;

/// A tree with an expression in the place of another.
#[derive(Drop)]
pub struct Replaced {
    /// The root of the new tree.
    pub root: SyntaxNode,
    /// Whether the expression was put into a pair of parentheses.
    pub in_pair: bool,
}

// A pair of parentheses round a node without text.
#[tactic(auto, using(crate::proofs::PairLemmas::pair_built))]
fn empty_pair(alloc: Global) -> Result<SyntaxNode, AllocError>
    ensures { IfOk result (λ root. root ≡ root_of empty_pair) }
{
    let mut builder = TreeBuilder::new(alloc);
    builder.start_node(SyntaxKind::PAREN_EXPR)?;
    builder.token(SyntaxKind::L_PAREN, "(")?;
    builder.start_node(SyntaxKind::ERROR)?;
    builder.finish_node()?;
    builder.token(SyntaxKind::R_PAREN, ")")?;
    builder.finish_node()?;
    match builder.finish() {
        Ok(root) => Ok(root),
        Err(_) => Err(AllocError),
    }
}

/// A pair of parentheses round an expression, as the root of a tree of its own. Takes time and
/// memory linear in the expression.
///
/// # Errors
///
/// `TooLong` if its text is longer than 4,294,967,295 bytes; otherwise `Memory` if memory runs out.
pub fn in_pair(alloc: Global, inside: &SyntaxNode) -> Result<SyntaxNode, ReplaceExprError>
    ensures pair { IfOk result (λ root. root ≡ root_of (in_pair (focus inside.now))) }
    ensures refused { IfErr result (IsTooLong (in_pair (focus inside.now))) }
{
    let pair = empty_pair(alloc)?;
    match pair.first_child() {
        Some(hole) => Ok(hole.replace_with(alloc, inside)?),
        None => Err(ReplaceExprError::Memory),
    }
}

// The entry of the whole text of a tree.
fn entry_of(root: &SyntaxNode) -> Entry
    requires { IsRoot root.now }
    ensures { result ≡ entry_of root.now.tree }
{
    if root.kind().to_raw() == SyntaxKind::SOURCE_FILE.to_raw() {
        Entry::SourceFile
    } else {
        Entry::Expr
    }
}

// Whether the text of a tree parses to the tree. A tree's text is never too long.
#[tactic(auto, using(crate::proofs::PairLemmas::read_or_not))]
fn reads<F: FrontEnd>(
    alloc: Global,
    front: &F,
    root: &SyntaxNode,
    edition: Edition,
) -> Result<bool, AllocError>
    requires { IsRoot root.now }
    ensures { IfOk result (IsReadOrNot (F.answers front.now) edition root.now.tree) }
{
    let Ok(parse): Result<Parse<SyntaxNode>, _> = read(
        alloc,
        front,
        entry_of(root),
        root.as_str(),
        edition,
    ) else {
        return Err(AllocError);
    };
    Ok(parse.root() == root)
}

// Whether an expression needs a pair of parentheses in the place of another.
fn needs_pair_at(new: &SyntaxNode, old: &SyntaxNode) -> bool
    ensures { result ≡ needs_pair_at new.now old.now }
{
    match old.parent() {
        None => false,
        Some(parent) => needs_parens_in_place_of(new, &parent, old),
    }
}

// The tree with a node in the place of another.
fn placed(
    alloc: Global,
    old: &SyntaxNode,
    piece: &SyntaxNode,
) -> Result<SyntaxNode, ReplaceExprError>
    ensures root { IfOk result
        (λ root. root ≡ root_of (replace old.now.tree old.now.place (focus piece.now))) }
    ensures refused { IfErr result
        (IsTooLong (replace old.now.tree old.now.place (focus piece.now))) }
{
    Ok(old.replace_with(alloc, piece)?)
}

// The tree with the expression itself, if it needs no pair there and its text reads as that tree.
fn bare<F: FrontEnd>(
    alloc: Global,
    front: &F,
    old: &SyntaxNode,
    new: &SyntaxNode,
    edition: Edition,
) -> Result<Option<SyntaxNode>, ReplaceExprError>
    ensures some { IfOk result (λ o. IsBareOrNot (F.answers front.now) edition old.now new.now o) }
    ensures refused { IfErr result (IsTooLong (meant false old.now new.now)) }
{
    if needs_pair_at(new, old) {
        return Ok(None);
    }
    let root = placed(alloc, old, new)?;
    if reads(alloc, front, &root, edition)? {
        Ok(Some(root))
    } else {
        Ok(None)
    }
}

/// The tree of `old` with the expression `new` in its place, in a pair of parentheses where it
/// needs one by [`needs_parens_in_place_of`], or where the text would otherwise read as another
/// tree.
///
/// That test is exact for operands of operator trees ([`crate::laws`]). For all else the new text
/// decides: it is parsed, as a file if the root is a `SOURCE_FILE` and otherwise as an expression,
/// and a tree is returned only where it is the parse of its text. Errors of the texts are not
/// compared, so both trees may have some. `new` may be of any tree.
///
/// With `a + b` for the `x` of `x * 2`, the text is `(a + b) * 2`; for the `x` of `f(x)`,
/// `f(a + b)`.
///
/// Takes the time of at most two parses of the new text, and memory for two trees.
///
/// # Errors
///
/// `ReadsOtherwise` if the text parses to another tree with the pair too, as where the place is of
/// no expression; `TooLong` if the new text is longer than 4,294,967,295 bytes; `Memory` at any
/// time.
#[tactic(auto, using(crate::proofs::PairLemmas::put_bare, crate::proofs::PairLemmas::put_paired, crate::proofs::PairLemmas::pair_too_long, crate::proofs::PairLemmas::paired_too_long))]
pub fn replace_expr<F: FrontEnd>(
    alloc: Global,
    front: &F,
    old: &SyntaxNode,
    new: &SyntaxNode,
    edition: Edition,
) -> Result<Replaced, ReplaceExprError>
    ensures replaced { IfOk result
        (λ r. IsReplaced (F.answers front.now) edition old.now new.now r.in_pair r.root) }
    ensures text { IfOk result
        (λ r. IsTextWith old.now (piece_of r.in_pair new.now) (text r.root.tree)) }
    ensures refused { IfErr result (IsNotReplaced (F.answers front.now) edition old.now new.now) }
{
    // For the proof: the place of the expression is one of its tree.
    old.placed();
    if let Some(root) = bare(alloc, front, old, new, edition)? {
        return Ok(Replaced {
            root,
            in_pair: false,
        });
    }
    let pair = in_pair(alloc, new)?;
    let root = placed(alloc, old, &pair)?;
    if reads(alloc, front, &root, edition)? {
        Ok(Replaced {
            root,
            in_pair: true,
        })
    } else {
        Err(ReplaceExprError::ReadsOtherwise)
    }
}
