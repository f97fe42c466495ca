//! Words, signs and quoted texts of a pattern.

use crate::pattern::QueryError;
use std::alloc::{AllocError, Global};

/// What is left of a text.
#[derive(Clone, Copy, Debug)]
pub(crate) struct Reader<'a> {
    rest: &'a str,
}

// Whether a character ends a word.
fn is_sign(sign: char) -> bool {
    sign.is_whitespace() || matches!(sign, '>' | '/' | '|' | '=' | '~' | '@' | '"')
}

// How many bytes of a text are before its closing quote; none if it has none. A backslash takes its
// meaning from the character behind it.
fn quote_at(text: &str) -> Option<usize> {
    let mut is_escaped = false;
    for (at, sign) in text.char_indices() {
        if is_escaped {
            is_escaped = false;
        } else if sign == '\\' {
            is_escaped = true;
        } else if sign == '"' {
            return Some(at);
        }
    }
    None
}

impl<'a> Reader<'a> {
    /// At the start of a text.
    pub fn new(text: &'a str) -> Reader<'a> {
        Reader { rest: text }
    }

    /// Goes past white space.
    pub fn skip_blanks(&mut self) {
        self.rest = self.rest.trim_start();
    }

    /// Whether nothing is left.
    pub fn is_done(&self) -> bool {
        self.rest.is_empty()
    }

    /// Goes past a sign, if it is next. Returns whether it is.
    pub fn take(&mut self, sign: &str) -> bool {
        match self.rest.strip_prefix(sign) {
            Some(rest) => {
                self.rest = rest;
                true
            }
            None => false,
        }
    }

    /// Goes past a word, which may be empty.
    pub fn word(&mut self) -> &'a str {
        let end = self.rest.find(is_sign).unwrap_or(self.rest.len());
        let (word, rest) = self.rest.split_at_checked(end).unwrap_or((self.rest, ""));
        self.rest = rest;
        word
    }

    /// Goes past a text in double quotes. Returns it as it is written, with its backslashes.
    pub fn quoted(&mut self) -> Result<&'a str, QueryError> {
        self.skip_blanks();
        if !self.take("\"") {
            return Err(QueryError::NoQuote);
        }
        let Some(end) = quote_at(self.rest) else {
            return Err(QueryError::NoQuote);
        };
        let (text, rest) = self.rest.split_at_checked(end).unwrap_or((self.rest, ""));
        self.rest = rest.strip_prefix('"').unwrap_or(rest);
        Ok(text)
    }
}

/// A quoted text without the backslashes before `"` and `\`. Others stay: a regular expression has
/// its own. If `all`, each backslash is one of a quoted text.
pub(crate) fn unescaped(alloc: Global, text: &str, all: bool) -> Result<String, AllocError> {
    let mut plain = String::with_capacity(alloc, text.len())?;
    let mut is_escaped = false;
    for sign in text.chars() {
        if is_escaped {
            is_escaped = false;
            if sign != '"' && !all {
                plain.push('\\')?;
            }
            plain.push(sign)?;
        } else if sign == '\\' {
            is_escaped = true;
        } else {
            plain.push(sign)?;
        }
    }
    Ok(plain)
}
