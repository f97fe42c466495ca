//! Numbers, as a summary prints them.
ghost use Rattle.std.specs.Prelude.{◌≡◌, ◌++◌, ◌<◌, IfOk, OnOk, string_bytes};
ghost use Rattle.std.specs.Fmt.{decimal};
ghost use Rattle.std.specs.Str.{IsAscii};
ghost use Rattle.rust_report.specs.Numbers.{with_comma, with_commas};

use std::alloc::{AllocError, Global};

// Appends a digit that this many others follow, and a comma if they are groups of three.
fn push_digit(text: &mut String, digit: u8, left: usize) -> Result<(), AllocError>
    requires { digit < 128 }
    ensures { OnOk result (string_bytes text.new ≡ string_bytes text.old ++ with_comma digit left) }
{
    text.push(digit as char)?;
    if left > 0 && left % 3 == 0 {
        text.push(',')?;
    }
    Ok(())
}

#[tactic(auto, using(crate::proofs::NumbersLemmas::stepped, crate::proofs::NumbersLemmas::ended))]
fn grouped(alloc: Global, digits: &[u8]) -> Result<String, AllocError>
    requires { IsAscii digits.now }
    ensures { IfOk result (λ text. string_bytes text ≡ with_commas digits.now) }
{
    let mut text = String::new(alloc);
    let mut at = 0;
    while at < digits.len() {
        push_digit(&mut text, digits[at], digits.len() - at - 1)?;
        at += 1;
    }
    Ok(text)
}

/// A number in decimal digits, in groups of three with commas between them, such as `1,234,567`.
///
/// # Errors
///
/// `AllocError` if memory runs out.
#[tactic(auto, using(crate::proofs::NumbersLemmas::ascii))]
pub fn with_commas(alloc: Global, number: u64) -> Result<String, AllocError>
    ensures { IfOk result (λ text. string_bytes text ≡ with_commas (decimal number)) }
{
    let digits = format!(in alloc; "{number}")?;
    grouped(alloc, digits.as_bytes())
}
