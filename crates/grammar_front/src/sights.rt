//! How the machine sees tokens whose kinds are those of the grammar.
ghost use Rattle.std.specs.Prelude.{◌≡◌, ◌++◌, OnOk, IfOk, slice_get};
ghost use Rattle.grammar_front.specs.Sights.{number_or_0, number_in, number_of, seen_of, sights_by};

use grammar_machine::Sight;
use std::alloc::{AllocError, Global};
use syntax_kind::SyntaxKind;
use token_layout::Token;

fn number_at(numbers: &[u8], i: usize) -> u8
    ensures { result ≡ number_or_0 (slice_get numbers.now i) }
{
    match numbers.get(i) {
        None => 0,
        Some(number) => *number,
    }
}

fn number_in(numbers: &[u8], kind: SyntaxKind) -> u8
    ensures { result ≡ number_in numbers.now kind }
{
    number_at(numbers, kind.to_raw() as usize)
}

// The number of a kind in the grammar: that of `ERROR` where the grammar does not know it.
fn number_of(numbers: &[u8], kind: SyntaxKind) -> u8
    ensures { result ≡ number_of numbers.now kind }
{
    let number = number_in(numbers, kind);
    if number == 0 {
        number_in(numbers, SyntaxKind::ERROR)
    } else {
        number
    }
}

// Trivia are not seen.
fn see(numbers: &[u8], sights: &mut Vec<Sight>, kind: SyntaxKind) -> Result<(), AllocError>
    ensures { OnOk result (sights.new.items ≡ sights.old.items ++ seen_of numbers.now kind) }
{
    if !kind.is_trivia() {
        let (one, two, three, word) = (number_of(numbers, kind), 0, 0, 0);
        sights.push(Sight {
            one,
            two,
            three,
            word,
        })?;
    }
    Ok(())
}

/// The sights of the tokens that are neither white space nor comments, each by the number of its
/// kind alone: no token is joined to the next, no name is a keyword, and no number is cut at its
/// dot.
///
/// `numbers` has the kinds' numbers in the grammar, by [`SyntaxKind::to_raw`]. A kind that it does
/// not have, or has as 0, is seen as `ERROR`.
pub fn sights_by_kind(
    alloc: Global,
    numbers: &[u8],
    tokens: &[Token],
) -> Result<Vec<Sight>, AllocError>
    ensures { IfOk result (λ sights. sights.items ≡ sights_by numbers.now tokens.now) }
{
    let mut sights = Vec::with_capacity(alloc, tokens.len())?;
    for token in tokens {
        see(numbers, &mut sights, token.kind)?;
    }
    Ok(sights)
}
