//! The level of a line.
ghost use Rattle.std.specs.Prelude.{◌≡◌, ◌+◌, ◌==◌, Some, option_map};
ghost use Rattle.std.specs.Str.{chars};
ghost use Rattle.std.specs.List.{list_any};
ghost use Rattle.tree_model.specs.Cursor.{focus};
ghost use Rattle.syntax_indent.specs.Level.{is_newline, column, space_level, level_by, line_level, level_at, level_in, level_of, capped, blanks};

use lossless_tree::{NodeOrToken, SyntaxElement, SyntaxNode, SyntaxToken};
use std::fmt;
use std::ops::Add;
use syntax_kind::SyntaxKind;

/// How far a line is indented: a level is 4 blanks. There are 256 levels, from 0 to 255.
///
/// ```text
/// let level = IndentLevel::from_node(&item) + 1;
/// let block = indent(alloc, &new_block, level)?;
/// ```
#[derive(Clone, Copy, Debug, PartialEq, Eq, PartialOrd, Ord, Hash)]
pub struct IndentLevel {
    /// The number of the level.
    pub number: u8,
}

impl IndentLevel {
    /// The level with this number.
    pub const fn new(number: u8) -> IndentLevel
        ensures { result.number ≡ number }
    {
        IndentLevel { number }
    }

    /// No blanks.
    pub const fn zero() -> IndentLevel
        ensures { result.number ≡ 0 }
    {
        IndentLevel { number: 0 }
    }

    /// 4 blanks.
    pub const fn single() -> IndentLevel
        ensures { result.number ≡ 1 }
    {
        IndentLevel { number: 1 }
    }

    /// Whether it is no blanks.
    pub fn is_zero(&self) -> bool
        ensures { result ≡ (self.now.number == 0) }
    {
        self.number == 0
    }

    /// The level of the line that a node or token begins in; that of [`IndentLevel::from_node`] or
    /// [`IndentLevel::from_token`].
    pub fn from_element(element: &SyntaxElement) -> IndentLevel
        ensures { result.number ≡ level_of element.now }
    {
        match element {
            NodeOrToken::Node(node) => IndentLevel::from_node(node),
            NodeOrToken::Token(token) => IndentLevel::from_token(token),
        }
    }

    /// The level of the line that a node begins in: that of its first token, and 0 if it has no
    /// tokens.
    pub fn from_node(node: &SyntaxNode) -> IndentLevel
        ensures { result.number ≡ level_in node.now }
    {
        match node.first_token() {
            Some(first) => IndentLevel::from_token(&first),
            None => IndentLevel::zero(),
        }
    }

    /// The level of the line that a token begins in.
    ///
    /// Of the token and the tokens before it, the nearest `WHITESPACE` with a newline tells it: the
    /// number of characters behind its last newline, divided by 4 and rounded down, and at most
    /// 255. Without such a token it is 0. So it is 1 for an `x` behind a newline and 4 to 7 blanks,
    /// and for the tokens after it in its line. A tab counts as one character. A newline in a
    /// string or a comment does not count.
    ///
    /// Takes time linear in the nodes and tokens back to that newline, and in the lengths of their
    /// white space.
    pub fn from_token(token: &SyntaxToken) -> IndentLevel
        ensures { result.number ≡ level_at token.now }
    {
        if let Some(level) = line_level(token) {
            return level;
        }
        let mut next = token.prev_token();
        while let Some(before) = next {
            if let Some(level) = line_level(&before) {
                return level;
            }
            next = before.prev_token();
        }
        IndentLevel::zero()
    }
}

impl Add<u8> for IndentLevel {
    type Output = IndentLevel;

    ghost add_gives = { λ level more sum. sum.number ≡ capped (level.number + more) };

    /// That many levels more, and 255 if there would be more than that.
    fn add(self, more: u8) -> IndentLevel {
        IndentLevel::new(self.number.saturating_add(more))
    }
}

impl From<u8> for IndentLevel {
    ghost from_gives = { λ number level. level.number ≡ number };

    /// The level with this number.
    fn from(number: u8) -> IndentLevel {
        IndentLevel::new(number)
    }
}

/// Its blanks, 4 for each level: what stands before the first token of a line of this level.
impl fmt::Display for IndentLevel {
    ghost output = { λ level. Some (blanks level.number) };

    fn fmt<W: fmt::Write>(&self, f: &mut fmt::Formatter<W>) -> fmt::Result {
        for _level in 0..self.number {
            f.write_str("    ")?;
        }
        Ok(())
    }
}

// Whether a character is the newline.
fn is_newline(c: char) -> bool
    ensures { result ≡ is_newline c }
{
    c == '\n'
}

// Whether a text has a newline.
pub(crate) fn has_newline(text: &str) -> bool
    ensures { result ≡ list_any is_newline (chars text.now) }
{
    text.chars().any(|c| is_newline(c))
}

// How many characters are behind the last newline of a text, or in all if there is none.
fn column(text: &str) -> usize
    ensures { result ≡ column 0 (chars text.now) }
{
    // For the proof: the number of bytes fits.
    let _len = text.len();
    let mut behind = 0;
    for c in text.chars() {
        behind = if is_newline(c) { 0 } else { behind + 1 };
    }
    behind
}

// The level that white space tells, if it has a newline.
fn space_level(text: &str) -> Option<IndentLevel>
    ensures { option_map (λ l. l.number) result ≡ space_level (chars text.now) }
{
    if has_newline(text) {
        Some(IndentLevel::new((column(text) / 4).min(255) as u8))
    } else {
        None
    }
}

// The level that a token of this kind tells with its text.
fn level_by(kind: SyntaxKind, text: &str) -> Option<IndentLevel>
    ensures { option_map (λ l. l.number) result ≡ level_by kind text.now }
{
    if kind != SyntaxKind::WHITESPACE {
        return None;
    }
    space_level(text)
}

// The level that a token tells, if it is white space with a newline.
fn line_level(token: &SyntaxToken) -> Option<IndentLevel>
    ensures { option_map (λ l. l.number) result ≡ line_level (focus token.now) }
{
    // For the proof: there is a token.
    token.placed();
    level_by(token.kind(), token.text())
}
