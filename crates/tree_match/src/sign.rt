//! A quick test that tells most nodes from a pattern: most calls of methods have another name.
ghost use Rattle.std.specs.Prelude.{◌≡◌, ◌+◌, ◌<◌, ◌^◌, option_map};
ghost use Rattle.lossless_tree.specs.Trees.{first_of};
ghost use Rattle.tree_match.specs.Walks.{step_of};
ghost use Rattle.tree_match.specs.Signs.{is_plain, word_of, is_sign, sign_here, sign_of, word_part, word_in, is_word_sort, depth_behind, is_told, told, sign_in, fits};

use crate::kind::is_kind;
use crate::part::{Part, Sort};
use crate::run::Run;
use crate::walk::{Seen, is_part};
use lossless_tree::SyntaxKind;

// Whether a token of this kind tells nothing.
fn is_plain(kind: SyntaxKind) -> bool
    ensures { result ≡ is_plain kind }
{
    kind.is_trivia() || is_kind(kind, SyntaxKind::COMMA) || is_kind(kind, SyntaxKind::DOT)
}

// The first of some siblings that is no white space or comment, if it is a token.
fn word_of<'t>(inside: &Run<'t>) -> Seen<'t>
    ensures { step_of result ≡ word_of inside.now.trees }
{
    let mut rest = inside.all();
    while rest.is_token() {
        if !rest.kind().is_trivia() {
            return Seen::Token(rest.kind(), rest.text());
        }
        rest = rest.rest();
    }
    Seen::End
}

// Whether the first of some siblings may be the sign, or is the node of a name, whose word is. A
// pair of parentheses may be round a name.
fn is_sign(left: &Run<'_>) -> bool
    ensures { result ≡ is_sign (first_of left.now.trees) }
{
    let kind = left.kind();
    if left.is_token() {
        !is_plain(kind)
    } else {
        is_kind(kind, SyntaxKind::PAREN_EXPR) || is_kind(kind, SyntaxKind::NAME_REF)
    }
}

// The sign that it is.
fn sign_here<'t>(left: &Run<'t>) -> Seen<'t>
    ensures { step_of result ≡ sign_here (first_of left.now.trees) }
{
    let kind = left.kind();
    if left.is_token() {
        Seen::Token(kind, left.text())
    } else if is_kind(kind, SyntaxKind::NAME_REF) {
        word_of(&left.inside())
    } else {
        Seen::End
    }
}

/// The first token of some siblings that tells something, or the word of a name, whichever is
/// first. The end of the node if there is none; the end of the walk if it is not known.
#[tactic(auto, using(crate::proofs::SignLemmas::told_nothing, crate::proofs::SignLemmas::told_here, crate::proofs::SignLemmas::none_told))]
pub(crate) fn sign_of<'t>(inside: &Run<'t>) -> Seen<'t>
    ensures { step_of result ≡ sign_of inside.now.trees }
{
    let mut rest = inside.all();
    while !rest.is_done() {
        if is_sign(&rest) {
            return sign_here(&rest);
        }
        rest = rest.rest();
    }
    Seen::Leave
}

/// The token that a part is, if it is one and no white space or comment.
pub(crate) fn word_part(part: &Part) -> Option<&Part>
    ensures { option_map (λ p. p.now) result ≡ word_part part.now }
{
    match part {
        Part::Token(kind, _) => { if kind.is_trivia() { None } else { Some(part) } }
        _ => None,
    }
}

// The token that is first among some parts.
fn word_in(parts: &[Part]) -> Option<&Part>
    ensures { option_map (λ p. p.now) result ≡ word_in parts.now }
{
    match parts.split_first() {
        None => None,
        Some((part, _)) => word_part(part),
    }
}

fn is_word_sort(sort: Sort) -> bool
    ensures { result ≡ is_word_sort sort }
{
    match sort {
        Sort::Word => true,
        Sort::Expr | Sort::Ty | Sort::Pat | Sort::Path | Sort::List => false,
    }
}

// How many nodes the next part is in, by a part that is in so many.
fn depth_behind(part: &Part, depth: usize) -> usize
    requires small { depth + 1 < 2 ^ 64 }
    ensures { result ≡ depth_behind part.now depth }
{
    match part {
        Part::Enter(_) => depth + 1,
        Part::Leave => depth.saturating_sub(1),
        Part::Token(..) | Part::Hole(..) | Part::List(..) => depth,
    }
}

// Whether a part in no node is the sign, the node whose word is, or something that may have any.
fn is_told(part: &Part) -> bool
    ensures { result ≡ is_told part.now }
{
    match part {
        Part::Enter(kind) => is_kind(*kind, SyntaxKind::NAME_REF),
        Part::Token(kind, _) => !is_plain(*kind),
        Part::Hole(_, sort) => is_word_sort(*sort),
        Part::Leave | Part::List(..) => true,
    }
}

// The sign that such a part tells, by the parts behind it.
fn told<'a>(part: &'a Part, behind: &'a [Part]) -> Option<&'a Part>
    ensures { option_map (λ p. p.now) result ≡ told part.now behind.now }
{
    match part {
        Part::Enter(_) => word_in(behind),
        Part::Token(..) => Some(part),
        Part::Leave | Part::Hole(..) | Part::List(..) => None,
    }
}

// The sign of a pattern: the same of its parts.
fn sign_in(parts: &[Part]) -> Option<&Part>
    ensures { option_map (λ p. p.now) result ≡ sign_in 0 parts.now }
{
    let mut depth = 0usize;
    let mut rest = parts;
    while let Some((part, behind)) = rest.split_first() {
        if depth == 0 && is_told(part) {
            return told(part, behind);
        }
        depth = depth_behind(part, depth);
        rest = behind;
    }
    None
}

/// Whether the sign of a pattern is that of a node, or one of both is not known. Without this no
/// node is the pattern.
pub(crate) fn is_fit(parts: &[Part], sign: Seen<'_>) -> bool
    ensures { result ≡ fits (sign_in 0 parts.now) (step_of sign.entry) }
{
    match sign_in(parts) {
        None => true,
        Some(part) => matches!(sign, Seen::End) || is_part(part, sign),
    }
}
