//! Integers and floating point numbers.
use ras_token_ext::{
    IntError, Radix, float_suffix, float_value_string, int_suffix, int_value, int_value_string,
    split_float, split_int,
};
use std::test::Fail;

const RADIXES: [(&str, Radix); 7] = [
    ("0b1", Radix::Binary),
    ("0o1", Radix::Octal),
    ("0x1", Radix::Hexadecimal),
    ("0X1", Radix::Decimal),
    ("0", Radix::Decimal),
    ("1x", Radix::Decimal),
    ("", Radix::Decimal),
];

fn has_radix(row: &(&'static str, Radix)) -> bool {
    Radix::of(row.0) == row.1
}

#[test]
fn radixes(rt: HostRuntime) -> Result<(), Fail> {
    for row in &RADIXES {
        assert!(rt; has_radix(row), "in {}", row.0);
    }
    Ok(())
}

const BASES: [u32; 4] = [2, 8, 10, 16];

#[test]
fn numbers_of_radixes(rt: HostRuntime) -> Result<(), Fail> {
    let mut numbers = Radix::ALL.iter().map(|radix| *radix as u32);
    for base in BASES {
        assert!(rt; numbers.next() == Some(base), "not {base}");
    }
    assert!(rt; numbers.next().is_none());
    Ok(())
}

// An integer, its prefix, its digits and its suffix.
type Parts = (&'static str, &'static str, &'static str, &'static str);

const INTEGERS: [Parts; 8] = [
    ("0b11u32", "0b", "11", "u32"),
    ("0xffu8", "0x", "ff", "u8"),
    ("0xfFg", "0x", "fF", "g"),
    ("1_0u8", "", "1_0", "u8"),
    ("12", "", "12", ""),
    ("0X1", "", "0", "X1"),
    ("\u{e9}a", "", "\u{e9}", "a"),
    ("", "", "", ""),
];

fn has_parts(row: &Parts) -> bool {
    let (text, prefix, digits, suffix) = *row;
    let (first, second, third) = split_int(text);
    first == prefix && second == digits && third == suffix
}

#[test]
fn parts_of_integers(rt: HostRuntime) -> Result<(), Fail> {
    for row in &INTEGERS {
        assert!(rt; has_parts(row), "in {}", row.0);
    }
    Ok(())
}

const INT_SUFFIXES: [(&str, Option<&str>); 4] = [
    ("0b11", None),
    ("0o11", None),
    ("0xff", None),
    ("0b11u32", Some("u32")),
];

const FLOAT_SUFFIXES: [(&str, Option<&str>); 6] = [
    ("123.0", None),
    ("123.0e", None),
    ("123.0e4", None),
    ("123f32", Some("f32")),
    ("123.0E4f32", Some("f32")),
    ("1_2_3.0_f128", Some("f128")),
];

#[test]
fn suffixes_of_integers(rt: HostRuntime) -> Result<(), Fail> {
    for (text, suffix) in INT_SUFFIXES {
        assert!(rt; int_suffix(text) == suffix, "in {text}");
    }
    Ok(())
}

#[test]
fn suffixes_of_floats(rt: HostRuntime) -> Result<(), Fail> {
    for (text, suffix) in FLOAT_SUFFIXES {
        assert!(rt; float_suffix(text) == suffix, "in {text}");
    }
    Ok(())
}

#[test]
fn parts_of_floats(rt: HostRuntime) -> Result<(), Fail> {
    let (digits, suffix) = split_float("1e4f32");
    assert!(rt; digits == "1e4");
    assert!(rt; suffix == "f32");
    Ok(())
}

const VALUES: [(&str, Result<u128, IntError>); 17] = [
    ("1_1_1_1_1_1", Ok(111111)),
    ("0xfFu8", Ok(255)),
    ("0b101", Ok(5)),
    ("0o17", Ok(15)),
    ("340282366920938463463374607431768211455", Ok(u128::MAX)),
    (
        "340282366920938463463374607431768211456",
        Err(IntError::TooLarge),
    ),
    ("0xffffffff_ffffffff_ffffffff_ffffffff", Ok(u128::MAX)),
    (
        "0x1_00000000_00000000_00000000_00000000",
        Err(IntError::TooLarge),
    ),
    ("0x", Err(IntError::Empty)),
    ("0x_u8", Err(IntError::Empty)),
    ("0x__", Err(IntError::Empty)),
    ("0b12", Err(IntError::InvalidDigit)),
    ("1+2", Err(IntError::InvalidDigit)),
    ("+5", Err(IntError::InvalidDigit)),
    (
        "999999999999999999999999999999999999999+",
        Err(IntError::InvalidDigit),
    ),
    ("\u{e9}", Err(IntError::InvalidDigit)),
    ("", Err(IntError::Empty)),
];

fn has_value(row: &(&'static str, Result<u128, IntError>)) -> bool {
    int_value(row.0) == row.1
}

#[test]
fn values_of_integers(rt: HostRuntime) -> Result<(), Fail> {
    for row in &VALUES {
        assert!(rt; has_value(row), "in {}", row.0);
    }
    Ok(())
}

#[test]
fn digits_of_floats_without_underscores(rt: HostRuntime) -> Result<(), Fail> {
    assert!(rt; float_value_string(rt.alloc(), "1_2_3.0_f128")?.as_str() == "123.0");
    assert!(rt; float_value_string(rt.alloc(), "1_e_4f32")?.as_str() == "1e4");
    Ok(())
}

#[test]
fn digits_of_integers_without_underscores(rt: HostRuntime) -> Result<(), Fail> {
    assert!(rt; int_value_string(rt.alloc(), "0x_f_fu8")?.as_str() == "ff");
    assert!(rt; int_value_string(rt.alloc(), "_\u{e9}_")?.as_str() == "\u{e9}");
    Ok(())
}
