//! Integers and floating point numbers.
use super::typed;
use ra_ap_syntax::SyntaxKind;
use ra_ap_syntax::ast::{FloatNumber, IntNumber};
use ras_token_ext::{IntError, Radix};
use std::alloc::Global;
use std::test::Fail;

// An integer, its radix and its three parts.
type Parts = (
    &'static str,
    Radix,
    &'static str,
    &'static str,
    &'static str,
);

const PARTS: [Parts; 6] = [
    ("1_0_1_l_o_l", Radix::Decimal, "", "1_0_1_", "l_o_l"),
    ("0xffu32", Radix::Hexadecimal, "0x", "ff", "u32"),
    ("0b__1_0_", Radix::Binary, "0b", "__1_0_", ""),
    ("0o11", Radix::Octal, "0o", "11", ""),
    ("0XFF", Radix::Decimal, "", "0", "XFF"),
    ("", Radix::Decimal, "", "", ""),
];

fn has_parts(alloc: Global, row: &Parts) -> Result<bool, Fail> {
    let number: IntNumber = typed(alloc, SyntaxKind::INT_NUMBER, row.0)?;
    let (prefix, digits, suffix) = number.split_into_parts();
    Ok(number.radix() == row.1 && prefix == row.2 && digits == row.3 && suffix == row.4)
}

#[test]
fn parts_of_integers(rt: HostRuntime) -> Result<(), Fail> {
    for row in &PARTS {
        assert!(rt; has_parts(rt.alloc(), row)?, "in {}", row.0);
    }
    Ok(())
}

const SUFFIXES: [(&str, Option<&str>); 7] = [
    ("1_0_1_l_o_l", Some("l_o_l")),
    ("0xffu32", Some("u32")),
    ("0XFF", Some("XFF")),
    ("0b11u32", Some("u32")),
    ("0b11", None),
    ("0o11", None),
    ("0xff", None),
];

fn has_suffix(alloc: Global, row: &(&'static str, Option<&'static str>)) -> Result<bool, Fail> {
    let number: IntNumber = typed(alloc, SyntaxKind::INT_NUMBER, row.0)?;
    Ok(number.suffix() == row.1)
}

#[test]
fn suffixes_of_integers(rt: HostRuntime) -> Result<(), Fail> {
    for row in &SUFFIXES {
        assert!(rt; has_suffix(rt.alloc(), row)?, "in {}", row.0);
    }
    Ok(())
}

const VALUES: [(&str, Result<u128, IntError>); 10] = [
    ("0xffu32", Ok(255)),
    ("0b__1_0_", Ok(2)),
    ("0XFF", Ok(0)),
    ("1_1_1_1_1_1", Ok(111111)),
    ("0x", Err(IntError::Empty)),
    ("0b12", Err(IntError::InvalidDigit)),
    ("1+2", Err(IntError::InvalidDigit)),
    ("+5", Err(IntError::InvalidDigit)),
    ("340282366920938463463374607431768211455", Ok(u128::MAX)),
    (
        "340282366920938463463374607431768211456",
        Err(IntError::TooLarge),
    ),
];

fn has_value(alloc: Global, row: &(&'static str, Result<u128, IntError>)) -> Result<bool, Fail> {
    let number: IntNumber = typed(alloc, SyntaxKind::INT_NUMBER, row.0)?;
    Ok(number.value() == row.1)
}

#[test]
fn values_of_integers(rt: HostRuntime) -> Result<(), Fail> {
    for row in &VALUES {
        assert!(rt; has_value(rt.alloc(), row)?, "in {}", row.0);
    }
    Ok(())
}

const DIGITS: [(&str, &str); 3] = [("1_0_1_l_o_l", "101"), ("0b__1_0_", "10"), ("0x", "")];

fn has_digits(alloc: Global, row: &(&'static str, &'static str)) -> Result<bool, Fail> {
    let number: IntNumber = typed(alloc, SyntaxKind::INT_NUMBER, row.0)?;
    Ok(number.value_string(alloc)?.as_str() == row.1)
}

#[test]
fn digits_of_integers(rt: HostRuntime) -> Result<(), Fail> {
    for row in &DIGITS {
        assert!(rt; has_digits(rt.alloc(), row)?, "in {}", row.0);
    }
    Ok(())
}

// A number, its value as a text, what precedes its suffix, and that.
type Float = (
    &'static str,
    &'static str,
    &'static str,
    Option<&'static str>,
);

const FLOATS: [Float; 7] = [
    ("1_2_3.0_f128", "123.0", "1_2_3.0_", Some("f128")),
    ("123.0", "123.0", "123.0", None),
    ("123.0e", "123.0e", "123.0e", None),
    ("123.0e4", "123.0e4", "123.0e4", None),
    ("123f32", "123", "123", Some("f32")),
    ("123.0E4f32", "123.0E4", "123.0E4", Some("f32")),
    ("123.0ef16", "123.0e", "123.0e", Some("f16")),
];

fn is_float(alloc: Global, row: &Float) -> Result<bool, Fail> {
    let number: FloatNumber = typed(alloc, SyntaxKind::FLOAT_NUMBER, row.0)?;
    Ok(
        number.value_string(alloc)?.as_str() == row.1
            && number.split_into_parts().0 == row.2
            && number.suffix() == row.3,
    )
}

#[test]
fn floats(rt: HostRuntime) -> Result<(), Fail> {
    for row in &FLOATS {
        assert!(rt; is_float(rt.alloc(), row)?, "in {}", row.0);
    }
    Ok(())
}
