//! The parts of literals that have colours of their own: escapes, and in the text of a format the
//! places of its arguments.

use literal_escape::{Mode, Units};
use lossless_tree::{SyntaxKind, SyntaxNode, SyntaxToken, TextSize};

/// What a part of a literal is.
#[derive(Clone, Copy, Debug)]
pub enum Part {
    /// Its quotes, and what stands for itself.
    Plain,
    /// An escape, as `\n`, a backslash at the end of a line, or in a format a brace that is written
    /// twice.
    Escape,
    /// An escape that is none.
    Wrong,
    /// The place of an argument in a format, as `{}` or `{x:?}`.
    Place,
}

/// How a literal is cut into parts.
#[derive(Clone, Copy, Debug)]
pub struct Cut {
    // Which escapes it has; `None` if it is raw.
    mode: Option<Mode>,
    // Whether it is the text of a format.
    is_format: bool,
}

// The escapes of a string, unless it is raw.
fn mode_unless_raw(text: &str, raw: &str, mode: Mode) -> Option<Mode> {
    if text.starts_with(raw) {
        None
    } else {
        Some(mode)
    }
}

/// How a token is cut; `None` if it is no literal with quotes.
pub fn cut_of(kind: SyntaxKind, text: &str, is_format: bool) -> Option<Cut> {
    let mode = match kind {
        SyntaxKind::STRING => mode_unless_raw(text, "r", Mode::Str),
        SyntaxKind::BYTE_STRING => mode_unless_raw(text, "br", Mode::ByteStr),
        SyntaxKind::C_STRING => mode_unless_raw(text, "cr", Mode::CStr),
        SyntaxKind::CHAR => Some(Mode::Char),
        SyntaxKind::BYTE => Some(Mode::Byte),
        _ => return None,
    };
    Some(Cut { mode, is_format })
}

// The length of the escape that a text begins with. A backslash at the end of a line is no unit,
// and goes up to the next one.
fn escape_of(mode: Mode, text: &str) -> (Part, usize) {
    let Some(report) = Units::new(mode, text).next() else {
        return (Part::Escape, text.len());
    };
    match report.unit {
        _ if report.start > 0 => (Part::Escape, report.start),
        Err(fault) if fault.is_fatal() => (Part::Wrong, report.end),
        _ => (Part::Escape, report.end),
    }
}

// Whether this, in braces, names an argument of a format and how it is shown.
fn is_argument(text: &str) -> bool {
    let name = match text.split_once(':') {
        Some((name, _)) => name,
        None => text,
    };
    name.bytes().all(|byte| byte.is_ascii_alphanumeric() || byte == b'_' || byte >= 0x80)
}

// Whether a byte cannot be within the braces of a place.
fn ends_place(byte: u8) -> bool {
    matches!(byte, b'{' | b'}' | b'\n')
}

// The length of the place of an argument that a text begins with.
fn argument_of(text: &str) -> Option<usize> {
    let inside = text.strip_prefix('{')?;
    let end = inside.bytes().position(ends_place)?;
    let (name, behind) = inside.split_at_checked(end)?;
    if behind.starts_with('}') && is_argument(name) {
        Some(end.saturating_add(2))
    } else {
        None
    }
}

// What a text that begins with a brace begins with, and its length: a brace twice, the place of an
// argument, or of plain text 0.
fn place_of(text: &str) -> (Part, usize) {
    if text.starts_with("{{") || text.starts_with("}}") {
        return (Part::Escape, 2);
    }
    match argument_of(text) {
        Some(len) => (Part::Place, len),
        None => (Part::Plain, 0),
    }
}

impl Cut {
    // Whether a part may begin with this byte.
    fn begins(self, byte: u8) -> bool {
        match byte {
            b'\\' => self.mode.is_some(),
            b'{' | b'}' => self.is_format,
            _ => false,
        }
    }

    // What a text begins with, and its length; of plain text 0.
    fn special(self, text: &str) -> (Part, usize) {
        match self.mode {
            Some(mode) if text.starts_with('\\') => escape_of(mode, text),
            _ if self.is_format => place_of(text),
            _ => (Part::Plain, 0),
        }
    }

    // The length of the plain text that a text begins with, whatever its first character is.
    fn plain(self, text: &str) -> usize {
        let mut bytes = text.bytes();
        let _first = bytes.next();
        match bytes.position(|byte| self.begins(byte)) {
            Some(before) => before.saturating_add(1),
            None => text.len(),
        }
    }

    /// The first part of what is left of a literal, and what follows it.
    pub fn split(self, text: &str) -> (Part, &str, &str) {
        let (part, len) = match self.special(text) {
            (_, 0) => (Part::Plain, self.plain(text)),
            special => special,
        };
        match text.split_at_checked(len) {
            Some((front, rest)) => (part, front, rest),
            None => (Part::Plain, text, ""),
        }
    }
}

fn is_call(node: Option<SyntaxNode>) -> bool {
    match node {
        Some(node) => node.kind() == SyntaxKind::MACRO_CALL,
        None => false,
    }
}

/// Where the arguments of a macro call begin that a string is one of; `None` if it is in brackets
/// inside of these, or elsewhere.
pub fn call_around(token: &SyntaxToken) -> Option<TextSize> {
    if token.kind() != SyntaxKind::STRING {
        return None;
    }
    let tree = token.parent()?;
    if tree.kind() == SyntaxKind::TOKEN_TREE && is_call(tree.parent()) {
        Some(tree.text_range().start())
    } else {
        None
    }
}
