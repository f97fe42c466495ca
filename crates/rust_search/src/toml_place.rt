//! Where a value stands in a file of rules, for messages about it. The file has been parsed before,
//! so that what is no TOML is not looked for.

use std::alloc::Global;
use toml_parser::text::{skip_blank, skip_ws};
use toml_parser::{Key, ParseError, dotted_key, quoted, starts_string};

// A text without its first character.
fn behind_first(text: &str) -> &str {
    let mut chars = text.chars();
    match chars.next() {
        Some(_) => chars.as_str(),
        None => text,
    }
}

// What follows the line that a text begins with.
fn behind_line(text: &str) -> &str {
    match text.find('\n') {
        Some(at) => text.get(at..).unwrap_or(""),
        None => "",
    }
}

// What follows a value: a string, what is between brackets, or the rest of a line.
fn behind_value(alloc: Global, text: &str) -> Result<&str, ParseError> {
    let mut rest = text;
    let mut depth = 0usize;
    for _turn in 0..text.len() {
        if starts_string(rest) {
            let (_, behind) = quoted(alloc, rest)?;
            rest = behind;
        } else if rest.starts_with('[') || rest.starts_with('{') {
            depth = depth.saturating_add(1);
            rest = behind_first(rest);
        } else if rest.starts_with(']') || rest.starts_with('}') {
            depth = depth.saturating_sub(1);
            rest = behind_first(rest);
        } else if depth == 0 {
            return Ok(behind_line(rest));
        } else {
            rest = skip_blank(behind_first(rest), true);
        }
        if depth == 0 {
            return Ok(rest);
        }
    }
    Ok(rest)
}

// Whether a word is the first of a key.
fn begins_with(key: &Key, word: &str) -> bool {
    key.path.first().unwrap_or(&key.last).as_str() == word
}

// Whether a key is a word without dots.
fn is_word(key: &Key, word: &str) -> bool {
    key.path.is_empty() && key.last.as_str() == word
}

// Whether the key that a text begins with is a word without dots, and what follows the key.
fn whole_key<'a>(alloc: Global, text: &'a str, word: &str) -> Result<(bool, &'a str), ParseError> {
    let (key, behind) = dotted_key(alloc, text)?;
    Ok((is_word(&key, word), behind))
}

// Whether a word is the first of the key that a text begins with, and what follows the key.
fn first_of_key<'a>(
    alloc: Global,
    text: &'a str,
    word: &str,
) -> Result<(bool, &'a str), ParseError> {
    let (key, behind) = dotted_key(alloc, text)?;
    Ok((begins_with(&key, word), behind))
}

// Whether the head of a table is `[[rule]]`, and what follows its brackets.
fn head<'a>(alloc: Global, text: &'a str) -> Result<(bool, &'a str), ParseError> {
    let (inside, is_list) = match text.strip_prefix("[[") {
        Some(inside) => (inside, true),
        None => (behind_first(text), false),
    };
    let (is_rule, behind) = whole_key(alloc, skip_ws(inside), "rule")?;
    Ok((is_list && is_rule, behind_line(behind)))
}

/// The offset of the value of a key in the table of the rule with a number, from 1; that of the
/// table's head if it has no such key, and 0 if there is no head of its own, as for tables in a
/// list.
pub(crate) fn value_at(
    alloc: Global,
    text: &str,
    number: u64,
    key: &str,
) -> Result<usize, ParseError> {
    let mut rest = text;
    let mut seen = 0u64;
    let mut is_inside = false;
    let mut found = 0usize;
    for _turn in 0..text.len() {
        rest = skip_blank(rest, true);
        if rest.is_empty() {
            return Ok(found);
        }
        if rest.starts_with('[') {
            let (is_rule, behind) = head(alloc, rest)?;
            if is_rule {
                seen = seen.saturating_add(1);
            }
            is_inside = is_rule && seen == number;
            if is_inside {
                found = text.len().saturating_sub(rest.len());
            }
            rest = behind;
        } else {
            let (is_key, behind) = whole_key(alloc, rest, key)?;
            let value = skip_ws(behind_first(behind));
            if is_inside && is_key {
                return Ok(text.len().saturating_sub(value.len()));
            }
            rest = behind_value(alloc, value)?;
        }
    }
    Ok(found)
}

/// The offset of the first head or line of a file whose key begins with this word, outside of other
/// tables; 0 if there is none.
pub(crate) fn key_at(alloc: Global, text: &str, word: &str) -> Result<usize, ParseError> {
    let mut rest = text;
    let mut is_outside = true;
    for _turn in 0..text.len() {
        rest = skip_blank(rest, true);
        if rest.is_empty() {
            return Ok(0);
        }
        let at = text.len().saturating_sub(rest.len());
        if rest.starts_with('[') {
            is_outside = false;
            let inside = rest.trim_start_matches('[');
            let (is_found, behind) = first_of_key(alloc, skip_ws(inside), word)?;
            if is_found {
                return Ok(at);
            }
            rest = behind_line(behind);
        } else {
            let (is_found, behind) = first_of_key(alloc, rest, word)?;
            if is_outside && is_found {
                return Ok(at);
            }
            rest = behind_value(alloc, skip_ws(behind_first(behind)))?;
        }
    }
    Ok(0)
}
