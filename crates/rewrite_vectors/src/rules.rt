//! Rules that are refused, and rules of a text.
use ra_ap_syntax::Edition;
use rust_front::Rust;
use rust_rewrite::{parse_pattern, parse_rule, parse_rules};
use std::alloc::Global;
use std::test::Fail;

const NOW: Edition = Edition::CURRENT;

// The offset and the reason of a refusal.
pub(crate) fn refusal(alloc: Global, rule: &str) -> Result<String, Fail> {
    match parse_rule(alloc, &Rust, NOW, rule) {
        Ok(_) => Ok(String::from_str(alloc, "accepted")?),
        Err(error) => {
            let offset = error.offset;
            Ok(format!(in alloc; "{offset}: {error}")?)
        }
    }
}

#[test]
fn refused(rt: HostRuntime) -> Result<(), Fail> {
    let alloc = rt.alloc();
    let rows = [
        ("$a + $b ==>> $b + $a", "accepted"),
        (
            "$a + $b",
            "7: expected `==>>` between a pattern and a template",
        ),
        (
            "a ==>> b ==>> c",
            "9: expected one pattern, without a further `==>>`",
        ),
        (
            "f($) ==>> 1",
            "2: expected the name of a placeholder behind `$`",
        ),
        (
            "f($ a) ==>> 1",
            "2: expected the name of a placeholder behind `$`",
        ),
        (
            "f(x$a) ==>> 1",
            "3: expected white space before the placeholder",
        ),
        ("f($a) ==>> $b", "11: expected a placeholder of the pattern"),
        (
            "$a ==>> 1",
            "0: expected a pattern that is more than a placeholder",
        ),
        ("x.$a ==>> 1", "accepted"),
        (
            "m!($a) ==>> 1",
            "3: expected a place of an expression, a type, a pattern, a path or a name for this placeholder",
        ),
        ("let $x = $e; ==>> $x = $e;", "accepted"),
        (
            "let $x = $e; ==>> f($e)",
            "18: this is no statement: it is not the whole text",
        ),
        (
            "let $x = $e ==>> let $x = f($e);",
            "11: this is no statement: expected `;`",
        ),
        ("struct $a; ==>> struct $a {}", "accepted"),
        (
            "struct $a; ==>> struct $a { x }",
            "29: this is no item: expected `:`",
        ),
        ("Vec<$t> ==>> Box<[$t]>", "accepted"),
        ("f(${a) ==>> 1", "5: expected `:` and a condition, or `}`"),
        (
            "f(${}) ==>> 1",
            "2: expected the name of a placeholder behind `$`",
        ),
        (
            "f(${a:kin(literal)}) ==>> 1",
            "6: expected a condition: `kind(..)`, `text(/../)` or `not(..)`",
        ),
        ("f(${a:kind literal}) ==>> 1", "11: expected `(`"),
        ("f(${a:kind(literal}) ==>> 1", "18: expected `)`"),
        ("f(${a:not(kind(literal)}) ==>> 1", "23: expected `)`"),
        (
            "f(${a:kind(litteral)}) ==>> 1",
            "11: expected the name of a kind, as `literal`, not `litteral`; `tree` shows the kinds of a text",
        ),
        (
            "f(${a:text(re)}) ==>> 1",
            "11: expected a regular expression between `/` and `/`",
        ),
        (
            "f(${a:text(/re)}) ==>> 1",
            "12: expected a regular expression between `/` and `/`",
        ),
        (
            "f($a) ==>> g(${ a :kind(literal)})",
            "19: expected the condition in the pattern, not in the template",
        ),
    ];
    for (rule, expected) in rows {
        let told = refusal(alloc, rule)?;
        if told.as_str() != expected {
            return Err(Fail::from(format!(in alloc; "{rule}: {told}")?));
        }
    }
    Ok(())
}

#[test]
fn regexes(rt: HostRuntime) -> Result<(), Fail> {
    let told = refusal(rt.alloc(), "f($b, ${a:text(/a(/)}) ==>> 1")?;
    if !told.starts_with("16: ") || told.find("accepted").is_some() {
        return Err(Fail::from(format!(in rt.alloc(); "{told}")?));
    }
    Ok(())
}

#[test]
fn syntax(rt: HostRuntime) -> Result<(), Fail> {
    let alloc = rt.alloc();
    for (rule, start) in [
        ("f($a ==>> 1", "4: "),
        ("1 ==>> 2 +", "10: "),
        (" ==>> 1", ""),
    ] {
        let told = refusal(alloc, rule)?;
        if !told.starts_with(start) || told.find("this is no expression").is_none() {
            return Err(Fail::from(format!(in alloc; "{rule}: {told}")?));
        }
    }
    Ok(())
}

#[test]
fn lines(rt: HostRuntime) -> Result<(), Fail> {
    let alloc = rt.alloc();
    let text = "# comment\n\nf($a) ==>> $a\n  $a + $a\n";
    let rules = parse_rules(alloc, &Rust, NOW, text)?;
    if rules.len() != 2 {
        return Err("there are two rules".into());
    }
    match parse_rules(alloc, &Rust, NOW, "f($a)\n$a") {
        Ok(_) => return Err("the second is refused".into()),
        Err(error) => if error.offset != 6 {
            return Err("at its offset".into());
        },
    }
    if parse_pattern(alloc, &Rust, NOW, "a ==>> b").is_ok() {
        return Err("a pattern has no template".into());
    }
    Ok(())
}
