//! A token's text between quotes, as it is shown.
ghost use Rattle.std.specs.Prelude.{◌≡◌};
ghost use Rattle.std.specs.List.{flat_map, list_all};
ghost use Rattle.std.specs.Str.{chars};
ghost use Rattle.std.specs.Fmt.{WritesOnOk};
ghost use Rattle.lossless_tree.specs.Dump.{escaped, is_plain, shortest_front, shown};

use std::fmt;
use std::fmt::{Formatter, Write};

// A text of fewer bytes is shown whole.
const WHOLE_BELOW: usize = 25;

// Of a longer one, this many bytes are shown, up to the next character boundary.
const SHOWN: usize = 21;

// A text that prints between quotes, cut to fit a line.
#[derive(Clone, Copy)]
pub(crate) struct Quoted<'t>(pub &'t str);

impl<'t> fmt::Display for Quoted<'t> {
    ghost use Rattle.std.specs.Prelude.{Some};
    ghost use Rattle.lossless_tree.specs.Dump.{quoted};

    ghost output = { λ q. Some (quoted q.0.now) };

    fn fmt<W: Write>(&self, f: &mut Formatter<W>) -> fmt::Result {
        f.write_str("\"")?;
        write_shown(f, self.0)?;
        f.write_str("\"")
    }
}

// What is shown of a text.
fn write_shown<W: Write>(f: &mut Formatter<W>, text: &str) -> fmt::Result
    ensures { WritesOnOk W.write_str_gives f.old result (shown text.now) f.new }
{
    if text.len() < WHOLE_BELOW {
        write_whole(f, text)
    } else {
        write_front(f, text, SHOWN)?;
        f.write_str(" ...")
    }
}

// All of a text: most need no escape, and are written at once.
fn write_whole<W: Write>(f: &mut Formatter<W>, text: &str) -> fmt::Result
    ensures { WritesOnOk W.write_str_gives f.old result (flat_map escaped (chars text.now)) f.new }
{
    if is_all_plain(text) {
        f.write_str(text)
    } else {
        write_front(f, text, text.len())
    }
}

fn is_all_plain(text: &str) -> bool
    ensures { result ≡ list_all is_plain (chars text.now) }
{
    text.chars().all(|c| is_plain(c))
}

// Whether a character needs no escape between quotes.
fn is_plain(c: char) -> bool
    ensures { result ≡ is_plain c }
{
    c >= ' ' && c != '"' && c != '\\' && c != '\u{7f}'
}

// The shortest prefix of whole characters that has at least this many bytes, or the whole text.
fn write_front<W: Write>(f: &mut Formatter<W>, text: &str, bytes: usize) -> fmt::Result
    ensures { WritesOnOk W.write_str_gives f.old result
        (flat_map escaped (shortest_front bytes (chars text.now))) f.new }
{
    let mut missing = bytes;
    for c in text.chars() {
        if missing == 0 {
            break;
        }
        write_escaped(f, c)?;
        missing = missing.saturating_sub(c.len_utf8());
    }
    Ok(())
}

// A character as it is between quotes.
fn write_escaped<W: Write>(f: &mut Formatter<W>, c: char) -> fmt::Result
    ensures { WritesOnOk W.write_str_gives f.old result (escaped c) f.new }
{
    match c {
        '"' => f.write_str("\\\""),
        '\\' => f.write_str("\\\\"),
        '\n' => f.write_str("\\n"),
        '\r' => f.write_str("\\r"),
        '\t' => f.write_str("\\t"),
        '\0' => f.write_str("\\0"),
        '\u{1}'..='\u{1f}' | '\u{7f}' => write!(f, "\\u{{{:x}}}", c as u32),
        _ => f.write_char(c),
    }
}
