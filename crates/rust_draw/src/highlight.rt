//! The command `highlight`: a text with its tokens coloured by their roles, as a page of HTML or
//! with the colours of a terminal.

use crate::html::{in_html, write_head};
use crate::literals::{Cut, Part, call_around, cut_of};
use lossless_tree::{NodeOrToken, SyntaxNode, SyntaxToken, TextSize};
use rust_print::failure::Failure;
use rust_print::source::{Reading, Source, parsed};
use rust_report::{Escaped, Medium, Role, role_of};
use std::alloc::Global;
use std::io;
use std::io::Write;

/// The output of `highlight`.
#[derive(Clone, Copy, Debug)]
pub enum HighlightFormat {
    /// A page of HTML.
    Html,
    /// Escapes of a terminal.
    Ansi,
}

// The class of a role in a page; empty for plain tokens.
fn class_of(role: Role) -> &'static str {
    match role {
        Role::Plain => "",
        Role::Comment => "comment",
        Role::Keyword => "keyword",
        Role::Text => "string",
        Role::Number => "number",
        Role::Lifetime => "lifetime",
        Role::Function => "function",
        Role::Type => "type",
        Role::Field => "field",
        Role::Path => "path",
        Role::Macro => "macro",
        Role::Attribute => "attribute",
        Role::Error => "error",
    }
}

// The escape that begins the colour of a role in a terminal; empty for plain tokens.
fn escape_of(role: Role) -> &'static str {
    match role {
        Role::Plain => "",
        Role::Comment => "\u{1b}[90m",
        Role::Keyword => "\u{1b}[35m",
        Role::Text => "\u{1b}[32m",
        Role::Number => "\u{1b}[36m",
        Role::Lifetime => "\u{1b}[33m",
        Role::Function => "\u{1b}[34m",
        Role::Type => "\u{1b}[33m",
        Role::Field => "\u{1b}[36m",
        Role::Path => "\u{1b}[36m",
        Role::Macro => "\u{1b}[1;34m",
        Role::Attribute => "\u{1b}[90m",
        Role::Error => "\u{1b}[1;31m",
    }
}

// The class of a part of a literal in a page.
fn class_of_part(part: Part) -> &'static str {
    match part {
        Part::Plain => class_of(Role::Text),
        Part::Escape => "escape",
        Part::Wrong => class_of(Role::Error),
        Part::Place => "place",
    }
}

// The escape that begins the colour of a part of a literal in a terminal.
fn escape_of_part(part: Part) -> &'static str {
    match part {
        Part::Plain => escape_of(Role::Text),
        Part::Escape => "\u{1b}[1;32m",
        Part::Wrong => escape_of(Role::Error),
        Part::Place => "\u{1b}[36m",
    }
}

static STYLE: &str = "<style>
body { margin: 0; background: #fff; color: #1f2328 }
pre { margin: 0; padding: 1em; font: 13px/1.5 ui-monospace, monospace; tab-size: 4; counter-reset: line }
a { counter-increment: line; color: #6e7781; text-decoration: none; user-select: none }
a::before { content: counter(line); display: inline-block; width: 4em; padding-right: 1em; text-align: right }
a:target::before { background: #fff3b0; color: #1f2328 }
.comment { color: #6a737d; font-style: italic }
.keyword { color: #cf222e }
.string { color: #0a6b2d }
.escape { color: #116329; font-weight: bold }
.place { color: #0550ae }
.number { color: #0550ae }
.lifetime { color: #953800 }
.function { color: #8250df }
.type { color: #953800 }
.field { color: #0550ae }
.path { color: #1b7c83 }
.macro { color: #8250df; font-weight: bold }
.attribute { color: #57606a }
.error { color: #fff; background: #cf222e }
@media (prefers-color-scheme: dark) {
body { background: #0d1117; color: #e6edf3 }
.comment { color: #8b949e } .keyword { color: #ff7b72 } .string { color: #7ee787 }
.escape { color: #aff5b4 }
.number, .field, .place { color: #79c0ff } .lifetime, .type { color: #ffa657 }
.function, .macro { color: #d2a8ff } .attribute { color: #8b949e }
.path { color: #56d4dd }
}
";

/// Where a text is in the course of being written.
#[derive(Clone, Copy, Debug)]
pub(crate) struct Place {
    // The letter before the numbers of its lines, in the anchors of a page.
    letter: &'static str,
    // The number of the line.
    line: u64,
    // Where the arguments of the last macro call began that had a string.
    calls: Option<TextSize>,
}

impl Place {
    /// Before the first line of a text whose anchors are this letter and the number of a line.
    pub(crate) fn start(letter: &'static str) -> Place {
        Place {
            letter,
            line: 1,
            calls: None,
        }
    }
}

/// Writes the colours of a page, which begin its style.
pub(crate) fn write_colours<W: Write>(out: &mut W) -> io::Result<()> {
    out.write_all(STYLE.as_bytes())
}

/// Writes what a line begins with: its number, which is a link to itself.
pub(crate) fn write_anchor<W: Write>(out: &mut W, place: &Place) -> io::Result<()> {
    let (letter, line) = (place.letter, place.line);
    write!(
        out,
        "<a id=\"{letter}{line}\" href=\"#{letter}{line}\"></a>"
    )
}

// Writes a text in the colour of a class, which ends at the end of each line and begins again after
// it.
fn write_html<W: Write>(
    out: &mut W,
    class: &'static str,
    text: &str,
    place: &mut Place,
) -> io::Result<()> {
    for part in text.split_inclusive('\n') {
        let shown = in_html(part);
        if class.is_empty() {
            write!(out, "{shown}")?;
        } else {
            write!(out, "<span class=\"{class}\">{shown}</span>")?;
        }
        if part.ends_with('\n') {
            place.line = place.line.saturating_add(1);
            write_anchor(out, place)?;
        }
    }
    Ok(())
}

// What ends a line of a token: a line feed, with the carriage return before it. A carriage return
// that ends a comment is before the line feed of the next token.
fn line_end(line: &str, is_before_feed: bool) -> &str {
    let end = if line.ends_with("\r\n") {
        2
    } else if line.ends_with('\n') || (is_before_feed && line.ends_with('\r')) {
        1
    } else {
        0
    };
    line.get(line.len().saturating_sub(end)..).unwrap_or("")
}

// Writes a text in the colour that an escape begins, which ends before each line feed and begins
// again after it. Other control characters are shown as symbols: a file must not move the cursor of
// a terminal.
fn write_ansi<W: Write>(
    out: &mut W,
    escape: &'static str,
    text: &str,
    is_before_feed: bool,
) -> io::Result<()> {
    let plain = if escape.is_empty() { "" } else { "\u{1b}[0m" };
    for line in text.split_inclusive('\n') {
        let end = line_end(line, is_before_feed);
        let shown = Escaped {
            text: line.strip_suffix(end).unwrap_or(""),
            medium: Medium::Terminal,
        };
        write!(out, "{escape}{shown}{plain}{end}")?;
    }
    Ok(())
}

// Whether a line feed follows a token.
fn is_before_feed(text: &str, token: &SyntaxToken) -> bool {
    text.as_bytes().get(token.text_range().end().raw() as usize) == Some(&b'\n')
}

// Writes a token that is no literal.
fn write_token<W: Write>(
    out: &mut W,
    text: &str,
    token: &SyntaxToken,
    ink: HighlightFormat,
    place: &mut Place,
) -> io::Result<()> {
    let role = role_of(token);
    match ink {
        HighlightFormat::Html => write_html(out, class_of(role), token.text(), place),
        HighlightFormat::Ansi => write_ansi(
            out,
            escape_of(role),
            token.text(),
            is_before_feed(text, token),
        ),
    }
}

// Writes the parts of a literal.
fn write_literal<W: Write>(
    out: &mut W,
    text: &str,
    token: &SyntaxToken,
    cut: Cut,
    ink: HighlightFormat,
    place: &mut Place,
) -> io::Result<()> {
    let literal = token.text();
    let mut rest = literal;
    for _turn in 0..literal.len() {
        if rest.is_empty() {
            break;
        }
        let (part, shown, behind) = cut.split(rest);
        // The last part of a literal that is not terminated, as `'a` before CR LF, ends as its
        // token does.
        let feeds = behind.starts_with('\n') || (behind.is_empty() && is_before_feed(text, token));
        match ink {
            HighlightFormat::Html => write_html(out, class_of_part(part), shown, place)?,
            HighlightFormat::Ansi => write_ansi(out, escape_of_part(part), shown, feeds)?,
        }
        rest = behind;
    }
    Ok(())
}

// How a token is cut, if it is a literal. The first string among the arguments of a macro call is
// taken for the text of a format: `calls` is where the arguments of the last call began that had
// one.
fn cut_in(token: &SyntaxToken, calls: &mut Option<TextSize>) -> Option<Cut> {
    let call = call_around(token);
    let is_format = call.is_some() && call != *calls;
    if is_format {
        *calls = call;
    }
    cut_of(token.kind(), token.text(), is_format)
}

/// Writes a token of a text. In a page, a line feed is followed by the anchor of the next line.
pub(crate) fn write_coloured<W: Write>(
    out: &mut W,
    text: &str,
    token: &SyntaxToken,
    ink: HighlightFormat,
    place: &mut Place,
) -> io::Result<()> {
    match cut_in(token, &mut place.calls) {
        Some(cut) => write_literal(out, text, token, cut, ink, place),
        None => write_token(out, text, token, ink, place),
    }
}

// Writes the tokens of a tree.
fn write_tokens<W: Write>(
    out: &mut W,
    root: &SyntaxNode,
    ink: HighlightFormat,
    place: &mut Place,
) -> io::Result<()> {
    let text = root.as_str();
    for element in root.descendants_with_tokens() {
        if let NodeOrToken::Token(token) = &element {
            write_coloured(out, text, token, ink, place)?;
        }
    }
    Ok(())
}

fn write_page<W: Write>(out: &mut W, name: &str, root: &SyntaxNode) -> io::Result<()> {
    let mut place = Place::start("L");
    write_head(out, &[name])?;
    write_colours(out)?;
    out.write_all(b"</style>\n</head>\n<body>\n<pre>\n")?;
    write_anchor(out, &place)?;
    write_tokens(out, root, HighlightFormat::Html, &mut place)?;
    out.write_all(b"</pre>\n</body>\n</html>\n")
}

/// Writes a text with its tokens coloured. Returns 0: nothing counts as found.
pub fn show<W: Write>(
    alloc: Global,
    out: &mut W,
    source: Source<'_>,
    reading: Reading,
    ink: HighlightFormat,
) -> Result<u64, Failure> {
    let parse = parsed(alloc, source.text, reading)?;
    match ink {
        HighlightFormat::Html => write_page(out, source.name, parse.root())?,
        HighlightFormat::Ansi => write_tokens(out, parse.root(), ink, &mut Place::start(""))?,
    }
    Ok(0)
}
