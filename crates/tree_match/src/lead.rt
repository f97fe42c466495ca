//! Another quick test that tells most nodes from a pattern: most calls begin with another word.
ghost use Rattle.std.specs.Prelude.{◌≡◌, option_map};
ghost use Rattle.tree_match.specs.Walks.{step_of};
ghost use Rattle.tree_match.specs.Signs.{fits, word_part};
ghost use Rattle.tree_match.specs.Leads.{is_leading, lead_here, lead_of, lead_in};

use crate::kind::is_kind;
use crate::part::Part;
use crate::run::Run;
use crate::sign::word_part;
use crate::walk::{Seen, is_part};
use lossless_tree::SyntaxKind;

// Whether the first of some siblings is a node that begins as its children do.
fn is_leading(left: &Run<'_>) -> bool
    ensures { result ≡ is_leading left.now.trees }
{
    !left.is_done() && !left.is_token() && !is_kind(left.kind(), SyntaxKind::PAREN_EXPR)
}

// The first of some siblings, if it is a token that counts.
fn lead_here<'t>(left: &Run<'t>) -> Seen<'t>
    ensures { step_of result ≡ lead_here left.now.trees }
{
    if left.is_token() && !left.kind().is_trivia() {
        Seen::Token(left.kind(), left.text())
    } else {
        Seen::End
    }
}

// The token with which the first of some siblings begins; the end of the walk if it is not known.
#[tactic(auto, using(crate::proofs::LeadLemmas::led_on, crate::proofs::LeadLemmas::led_here))]
fn lead_of<'t>(inside: &Run<'t>) -> Seen<'t>
    ensures { step_of result ≡ lead_of inside.now.trees }
{
    let mut rest = inside.all();
    while is_leading(&rest) {
        rest = rest.inside();
    }
    lead_here(&rest)
}

// The part with which a pattern begins that is the token of that.
fn lead_in(parts: &[Part]) -> Option<&Part>
    ensures { option_map (λ p. p.now) result ≡ lead_in parts.now }
{
    let mut rest = parts;
    while let Some((part, behind)) = rest.split_first() {
        match part {
            Part::Enter(_) => rest = behind,
            _ => return word_part(part),
        }
    }
    None
}

/// Whether a node with these children begins with the token that a pattern begins with, or one of
/// both is not known. Without this the node is not the pattern.
pub(crate) fn is_led(parts: &[Part], inside: &Run<'_>) -> bool
    ensures { result ≡ fits (lead_in parts.now) (lead_of inside.now.trees) }
{
    let Some(part) = lead_in(parts) else {
        return true;
    };
    let lead = lead_of(inside);
    matches!(lead, Seen::End) || is_part(part, lead)
}
