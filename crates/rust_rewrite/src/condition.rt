//! Placeholders in braces: `${name:kind(literal):not(text(/^_/))}`.
ghost use Rattle.std.specs.Prelude.{◌≡◌, true, IfErr};
ghost use Rattle.rust_rewrite.specs.Rules.{is_other};

use crate::error::{RuleError, RuleFault, fault};
use lossless_tree::SyntaxKind;
use regex::Regex;
use rust_kinds::from_name;
use std::alloc::{AllocError, Global};
use tree_match::{Condition, Test};

/// A placeholder in braces.
#[derive(Drop)]
pub(crate) struct Braced<'a> {
    pub(crate) name: &'a str,
    pub(crate) conditions: Vec<Condition>,
    // Where the first condition starts, if there is one.
    pub(crate) first: Option<usize>,
    // Where what is behind the `}` starts.
    pub(crate) end: usize,
}

/// Whether a text begins with a name.
pub(crate) fn begins_word(text: &str) -> bool {
    match text.as_bytes().first() {
        None => false,
        Some(byte) => byte.is_ascii_alphabetic() || *byte == b'_' || *byte >= 128,
    }
}

fn is_in_word(byte: u8) -> bool {
    byte.is_ascii_alphanumeric() || byte == b'_' || byte >= 128
}

// Reads a text, a part of a rule.
#[derive(Drop)]
struct Reader<'a> {
    text: &'a str,
    at: usize,
    // Where the text starts in the rule.
    base: usize,
}

impl<'a> Reader<'a> {
    fn rest(&self) -> &'a str {
        self.text.get(self.at..).unwrap_or("")
    }

    fn refusal(&self, told: RuleFault) -> RuleError
        ensures { result.fault ≡ told }
    {
        fault(told, self.base.saturating_add(self.at))
    }

    fn skip_blanks(&mut self) {
        let rest = self.rest();
        let shown = rest.trim_start();
        self.at = self
            .at
            .saturating_add(rest.len().saturating_sub(shown.len()));
    }

    // Passes over a sign, if it is next, white space aside.
    fn take(&mut self, sign: char) -> bool {
        self.skip_blanks();
        if self.rest().starts_with(sign) {
            self.at = self.at.saturating_add(sign.len_utf8());
            return true;
        }
        false
    }

    fn open(&mut self) -> Result<(), RuleError>
        ensures { IfErr result (λ e. is_other e.fault ≡ true) }
    {
        if self.take('(') {
            return Ok(());
        }
        Err(self.refusal(RuleFault::NoOpening))
    }

    fn close(&mut self) -> Result<(), RuleError>
        ensures { IfErr result (λ e. is_other e.fault ≡ true) }
    {
        if self.take(')') {
            return Ok(());
        }
        Err(self.refusal(RuleFault::NoClosing))
    }

    // The letters and digits that are next, white space aside.
    fn word(&mut self) -> &'a str {
        self.skip_blanks();
        let rest = self.rest();
        let mut len = 0usize;
        for byte in rest.as_bytes() {
            if !is_in_word(*byte) {
                break;
            }
            len = len.saturating_add(1);
        }
        self.at = self.at.saturating_add(len);
        rest.get(..len).unwrap_or("")
    }

    // The kind whose name is next, in any case.
    fn kind(&mut self, alloc: Global) -> Result<SyntaxKind, RuleError>
        ensures { IfErr result (λ e. is_other e.fault ≡ true) }
    {
        self.skip_blanks();
        let start = self.base.saturating_add(self.at);
        let word = self.word();
        let name = word.to_ascii_uppercase(alloc)?;
        match from_name(name.as_str()) {
            Some(kind) => Ok(kind),
            None => Err(fault(
                RuleFault::UnknownKind(String::from_str(alloc, word)?),
                start,
            )),
        }
    }

    // The text up to the next `/` that has no `\` before it; passes over that.
    fn to_slash(&mut self) -> Result<&'a str, RuleError>
        ensures { IfErr result (λ e. is_other e.fault ≡ true) }
    {
        let rest = self.rest();
        let mut len = 0usize;
        let mut is_escaped = false;
        for byte in rest.as_bytes() {
            if *byte == b'/' && !is_escaped {
                self.at = self.at.saturating_add(len).saturating_add(1);
                return Ok(rest.get(..len).unwrap_or(""));
            }
            is_escaped = *byte == b'\\' && !is_escaped;
            len = len.saturating_add(1);
        }
        Err(self.refusal(RuleFault::NoRegex))
    }

    // The regular expression that is next, between `/` and `/`.
    fn regex(&mut self, alloc: Global) -> Result<Regex, RuleError>
        ensures { IfErr result (λ e. is_other e.fault ≡ true) }
    {
        if !self.take('/') {
            return Err(self.refusal(RuleFault::NoRegex));
        }
        let start = self.base.saturating_add(self.at);
        let source = self.to_slash()?;
        match Regex::new(alloc, source) {
            Ok(regex) => Ok(regex),
            Err(regex::Error::OutOfMemory) => Err(fault(RuleFault::Memory, start)),
            Err(error) => Err(fault(RuleFault::BadRegex(error), start)),
        }
    }

    // The test that a word begins, which is not `not`.
    fn test(&mut self, alloc: Global, word: &str, start: usize) -> Result<Test, RuleError>
        ensures { IfErr result (λ e. is_other e.fault ≡ true) }
    {
        if word == "kind" {
            self.open()?;
            return Ok(Test::Kind(self.kind(alloc)?));
        }
        if word == "text" {
            self.open()?;
            return Ok(Test::Text(self.regex(alloc)?));
        }
        Err(fault(RuleFault::NoCondition, start))
    }

    // Passes over so many `)` and one more.
    fn close_all(&mut self, nots: usize) -> Result<(), RuleError>
        ensures { IfErr result (λ e. is_other e.fault ≡ true) }
    {
        for _not in 0..=nots {
            self.close()?;
        }
        Ok(())
    }

    // The condition that is next.
    fn condition(&mut self, alloc: Global) -> Result<Condition, RuleError>
        ensures { IfErr result (λ e. is_other e.fault ≡ true) }
    {
        let mut nots = 0usize;
        for _turn in 0..=self.text.len() {
            self.skip_blanks();
            let start = self.base.saturating_add(self.at);
            let word = self.word();
            if word != "not" {
                let test = self.test(alloc, word, start)?;
                self.close_all(nots)?;
                return Ok(Condition {
                    test,
                    is_not: nots % 2 == 1,
                });
            }
            self.open()?;
            nots = nots.saturating_add(1);
        }
        Err(self.refusal(RuleFault::NoCondition))
    }
}

/// The placeholder whose `{` is at an offset of a text that starts at `base` of the rule.
pub(crate) fn read_braced<'a>(
    alloc: Global,
    text: &'a str,
    at: usize,
    base: usize,
) -> Result<Braced<'a>, RuleError>
    ensures { IfErr result (λ e. is_other e.fault ≡ true) }
{
    let mut reader = Reader { text, at, base };
    reader.take('{');
    let name = reader.word();
    if !begins_word(name) {
        return Err(fault(RuleFault::NoName, base.saturating_add(at).saturating_sub(1)));
    }
    let mut conditions = Vec::new(alloc);
    let mut first = None;
    for _turn in 0..=text.len() {
        if reader.take('}') {
            return Ok(Braced {
                name,
                conditions,
                first,
                end: reader.at,
            });
        }
        if !reader.take(':') {
            break;
        }
        first = first.or(Some(reader.at));
        let condition = reader.condition(alloc)?;
        conditions.push(condition).map_err(AllocError::from)?;
    }
    Err(reader.refusal(RuleFault::NoBrace))
}
