//! Conditions that a rule of a file has beside its pattern, as `where = ["$a:kind(literal)"]`.

use ras_front_end::Edition;
use rust_front::Rust;
use rust_rewrite::{RuleError, placeholder_start};
use std::alloc::{AllocError, Global};

// What follows a name, if a text begins with it and not with a longer one.
fn behind_name<'a>(text: &'a str, name: &str) -> Option<&'a str> {
    let rest = text.strip_prefix(name)?;
    match rest.chars().next() {
        Some(letter) if letter == '_' || letter.is_alphanumeric() => None,
        _ => Some(rest),
    }
}

fn push_all(out: &mut String, texts: &[&str]) -> Result<(), AllocError> {
    for text in texts {
        out.push_str(text)?;
    }
    Ok(())
}

// Appends what follows the `$` of the placeholder of a name, with a condition more. Returns whether
// it is as it should be.
fn push_placeholder(
    out: &mut String,
    text: &str,
    name: &str,
    condition: &str,
) -> Result<bool, AllocError> {
    if let Some(rest) = behind_name(text, name) {
        push_all(out, &["{", name, ":", condition, "}", rest])?;
        return Ok(true);
    }
    let Some(inside) = text.strip_prefix('{') else {
        return Ok(false);
    };
    match behind_name(inside.trim_start(), name) {
        Some(rest) => {
            push_all(out, &["{", name, ":", condition, rest])?;
            Ok(true)
        }
        None => Ok(false),
    }
}

// A pattern with a condition more at the placeholder of a name whose `$` is at an offset.
fn with_condition_at(
    alloc: Global,
    pattern: &str,
    at: usize,
    name: &str,
    condition: &str,
) -> Result<Option<String>, AllocError> {
    let before = pattern.get(..at).unwrap_or("");
    let Some(text) = pattern.get(at..).and_then(|it| it.strip_prefix('$')) else {
        return Ok(None);
    };
    let mut out = String::new(alloc);
    push_all(&mut out, &[before, "$"])?;
    if push_placeholder(&mut out, text, name, condition)? {
        Ok(Some(out))
    } else {
        Ok(None)
    }
}

// A pattern with a condition more at the first placeholder of a name: `f("$a", $a)` with
// `kind(literal)` for `a` is `f("$a", ${a:kind(literal)})`. `None` if there is no such placeholder;
// `$$a` is none.
fn with_condition(
    alloc: Global,
    pattern: &str,
    name: &str,
    condition: &str,
) -> Result<Option<String>, RuleError> {
    match placeholder_start(alloc, &Rust, Edition::CURRENT, pattern, name)? {
        Some(at) => Ok(with_condition_at(alloc, pattern, at, name, condition)?),
        None => Ok(None),
    }
}

/// A pattern with the condition that a text says of one of its placeholders, as `$a:kind(literal)`
/// or `a: kind(literal)`; `None` if the text says none, or the pattern has no such placeholder.
///
/// # Errors
///
/// Why the placeholders of the pattern cannot be read.
pub(crate) fn with_where(
    alloc: Global,
    pattern: &str,
    text: &str,
) -> Result<Option<String>, RuleError> {
    let Some((head, condition)) = text.split_once(':') else {
        return Ok(None);
    };
    let head = head.trim();
    let name = head.strip_prefix('$').unwrap_or(head);
    let condition = condition.trim();
    if name.is_empty() || condition.is_empty() {
        return Ok(None);
    }
    with_condition(alloc, pattern, name, condition)
}
