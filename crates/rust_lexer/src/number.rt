//! Numbers.
ghost use Rattle.std.specs.Prelude.{◌≡◌};
ghost use Rattle.rust_lexer.specs.Numbers.{begins_exponent_of, whole_of, whole_without_digits_of, float_of, float_without_digits_of, sign_of, exponent_of, fraction_of, behind_digits_of, based_of, number_of};

use crate::class::{Class, after, begins, begins_digit, skip};
use crate::name::{begins_name, skip_suffix};
use crate::problem::Problem;
use crate::shape::Shape;
use syntax_kind::SyntaxKind;

fn begins_exponent(rest: &[u8]) -> bool
    ensures { result ≡ begins_exponent_of rest.now }
{
    begins(b'e', rest) || begins(b'E', rest)
}

fn whole(rest: &[u8]) -> Shape
    ensures { result ≡ whole_of rest.now }
{
    Shape::plain(SyntaxKind::INT_NUMBER, skip_suffix(rest).len())
}

fn whole_without_digits(rest: &[u8]) -> Shape
    ensures { result ≡ whole_without_digits_of rest.now }
{
    Shape::with(
        SyntaxKind::INT_NUMBER,
        skip_suffix(rest).len(),
        Problem::NoDigits,
    )
}

fn float(rest: &[u8]) -> Shape
    ensures { result ≡ float_of rest.now }
{
    Shape::plain(SyntaxKind::FLOAT_NUMBER, skip_suffix(rest).len())
}

fn float_without_digits(rest: &[u8]) -> Shape
    ensures { result ≡ float_without_digits_of rest.now }
{
    Shape::with(
        SyntaxKind::FLOAT_NUMBER,
        skip_suffix(rest).len(),
        Problem::NoExponentDigits,
    )
}

// The rest after the sign of an exponent.
fn sign(rest: &[u8]) -> &[u8]
    ensures { result.now ≡ sign_of rest.now }
{
    if begins(b'+', rest) || begins(b'-', rest) {
        after(rest, 1)
    } else {
        rest
    }
}

// After the `e`.
fn exponent(rest: &[u8]) -> Shape
    ensures { result ≡ exponent_of rest.now }
{
    let digits = sign(rest);
    if begins_digit(skip(Class::Underscore, digits)) {
        float(skip(Class::Decimal, digits))
    } else {
        float_without_digits(skip(Class::Decimal, digits))
    }
}

// After the dot.
fn fraction(rest: &[u8]) -> Shape
    ensures { result ≡ fraction_of rest.now }
{
    if !begins_digit(rest) {
        return float(rest);
    }
    let rest = skip(Class::Decimal, rest);
    if begins_exponent(rest) {
        exponent(after(rest, 1))
    } else {
        float(rest)
    }
}

// After the digits.
fn behind_digits(rest: &[u8]) -> Shape
    ensures { result ≡ behind_digits_of rest.now }
{
    if begins(b'.', rest) {
        let tail = after(rest, 1);
        if begins(b'.', tail) || begins_name(tail) {
            whole(rest)
        } else {
            fraction(tail)
        }
    } else if begins_exponent(rest) {
        exponent(after(rest, 1))
    } else {
        whole(rest)
    }
}

// After the letter of another base.
fn based(class: Class, rest: &[u8]) -> Shape
    ensures { result ≡ based_of class rest.now }
{
    let digits = skip(Class::Underscore, rest);
    let rest = skip(class, digits);
    if rest.len() == digits.len() {
        whole_without_digits(rest)
    } else {
        behind_digits(rest)
    }
}

/// The number, given its first digit and the text after that.
pub fn number(first: u8, rest: &[u8]) -> Shape
    ensures { result ≡ number_of first rest.now }
{
    if first == b'0' && begins(b'x', rest) {
        based(Class::Hexadecimal, after(rest, 1))
    } else if first == b'0' && (begins(b'b', rest) || begins(b'o', rest)) {
        based(Class::Decimal, after(rest, 1))
    } else {
        behind_digits(skip(Class::Decimal, rest))
    }
}
