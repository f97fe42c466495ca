//! A line of an ignore file.
ghost use Rattle.std.specs.Prelude.{◌≡◌, ◌<◌, ◌≤◌, ◌-◌, drop, take, length, position, IfOk};
ghost use Rattle.gitignore.specs.Lines.{last_is, first_is, kept, without_blanks, behind_first, before_last, IsRuleBy, IsRuleOf, is_feed, AreRulesOf};

use crate::piece::{Piece, pieces_of};
use std::alloc::{AllocError, Global};

/// What a line of an ignore file says.
#[derive(Debug, Drop)]
pub struct Rule {
    /// The pieces of its glob; `None` for a line that names nothing, as a comment, and for one with
    /// a backslash or a bracket without end.
    pub glob: Option<Vec<Piece>>,
    /// Whether what it names is kept: it begins with `!`.
    pub is_negated: bool,
    /// Whether it names only folders: it ends with a slash.
    pub is_for_folders: bool,
    /// Whether names are compared with it, and not whole paths: it has no other slash.
    pub is_for_names: bool,
}

// Whether a text begins with a byte.
fn first_is(byte: u8, text: &[u8]) -> bool
    ensures { result ≡ first_is byte text.now }
{
    match text.split_first() {
        Some((first, _)) => *first == byte,
        None => false,
    }
}

// Whether a text ends with a byte.
fn last_is(byte: u8, text: &[u8]) -> bool
    ensures { result ≡ last_is byte text.now }
{
    !text.is_empty() && text[text.len() - 1] == byte
}

// A text without its first byte, if that is this one.
fn behind_first(byte: u8, text: &[u8]) -> &[u8]
    ensures { result.now ≡ behind_first byte text.now }
{
    match text.split_first() {
        Some((first, behind)) => { if *first == byte { behind } else { text } }
        None => text,
    }
}

// A text without its last byte, if that is this one.
fn before_last(byte: u8, text: &[u8]) -> &[u8]
    ensures { result.now ≡ before_last byte text.now }
{
    if last_is(byte, text) {
        text.split_at(text.len() - 1).0
    } else {
        text
    }
}

// How many bytes of a line are kept, without the blanks at its end: a blank behind a backslash
// stays.
fn kept(line: &[u8]) -> usize
    ensures value { result ≡ kept 0 0 line.now }
    ensures room { result ≤ length line.now }
{
    let mut kept = 0;
    let mut at = 0;
    while at < line.len() {
        if line[at] == b' ' {
            at += 1;
        } else if line[at] == b'\\' && at + 1 < line.len() {
            at += 2;
            kept = at;
        } else {
            at += 1;
            kept = at;
        }
    }
    kept
}

fn without_blanks(line: &[u8]) -> &[u8]
    ensures { result.now ≡ without_blanks line.now }
{
    line.split_at(kept(line)).0
}

fn is_comment(line: &[u8]) -> bool
    ensures { result ≡ first_is 35 line.now }
{
    first_is(b'#', line)
}

// What the pattern of a line says: the line without the blanks at its end.
fn rule_by(alloc: Global, pattern: &[u8]) -> Result<Rule, AllocError>
    ensures { IfOk result (IsRuleBy pattern.now) }
{
    let body = behind_first(b'!', pattern);
    let path = before_last(b'/', body);
    let glob = pieces_of(alloc, behind_first(b'/', path))?;
    Ok(Rule {
        glob,
        is_negated: first_is(b'!', pattern),
        is_for_folders: last_is(b'/', body),
        is_for_names: !path.contains(&b'/'),
    })
}

/// What a line of an ignore file says, without its line feed.
///
/// A line that begins with `#` is a comment. Blanks at its end are left out, but for one behind a
/// backslash, and so is one carriage return. `!` in front takes back what lines before it name. A
/// slash at the end is for folders alone, one elsewhere for paths from the file's folder on;
/// without one, names at any depth are compared. The rest is a glob (`pieces_of`).
///
/// Takes time and memory linear in the line.
///
/// # Errors
///
/// `AllocError` if memory runs out.
pub fn rule_of(alloc: Global, line: &[u8]) -> Result<Rule, AllocError>
    ensures { IfOk result (IsRuleOf line.now) }
{
    if is_comment(line) {
        return Ok(Rule {
            glob: None,
            is_negated: false,
            is_for_folders: false,
            is_for_names: false,
        });
    }
    rule_by(alloc, without_blanks(before_last(b'\r', line)))
}

// Where the first line of a text ends.
fn feed_at(text: &[u8]) -> Option<usize>
    ensures { result ≡ position is_feed text.now }
{
    text.iter().position(|byte| *byte == b'\n')
}

/// What the lines of an ignore file say: a rule for each, and one for what follows the last line
/// feed.
///
/// Takes time and memory linear in the text.
///
/// # Errors
///
/// `AllocError` if memory runs out.
pub fn rules_of(alloc: Global, text: &[u8]) -> Result<Vec<Rule>, AllocError>
    ensures { IfOk result (λ v. AreRulesOf text.now v.items) }
{
    let mut rules = Vec::new(alloc);
    let mut rest = text;
    while let Some(at) = feed_at(rest) {
        let (line, _) = rest.split_at(at);
        rules.push(rule_of(alloc, line)?)?;
        rest = rest.split_at(at + 1).1;
    }
    rules.push(rule_of(alloc, rest)?)?;
    Ok(rules)
}
