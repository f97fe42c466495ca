//! The differences of two trees as a self-contained page of HTML: both texts side by side with the
//! places marked, and a list of these.

use crate::highlight::{HighlightFormat, Place, write_anchor, write_coloured, write_colours};
use crate::html::{in_html, write_head};
use lossless_tree::{
    NodeOrToken, SyntaxElement, SyntaxNode, SyntaxToken, TextRange, TextSize, WalkEvent,
};
use rust_print::differ::Told;
use rust_print::failure::Failure;
use rust_print::names::Named;
use rust_print::shown::cut;
use rust_print::source::{Reading, Source, move_to, parsed, spots};
use rust_report::{Difference, Spots, Trivia, differences};
use std::alloc::Global;
use std::io;
use std::io::Write;

// What one tree has at a difference; `None` where its walk has ended.
type Event = Option<WalkEvent<SyntaxElement>>;

static STYLE: &str = "body { display: flex; flex-direction: column; height: 100vh }
ol { margin: 0; padding: 0.5em 1em 0.5em 4em; max-height: 25vh; overflow: auto; font: 13px/1.5 ui-monospace, monospace }
li a { display: inline-block; width: 48%; color: inherit; white-space: nowrap; overflow: hidden; vertical-align: top }
li a::before { content: none }
main { flex: 1; display: flex; min-height: 0; border-top: 1px solid #d0d7de }
section { flex: 1; min-width: 0; overflow: auto }
section + section { border-left: 1px solid #d0d7de }
h2 { margin: 0; padding: 0.5em 1em; font: bold 13px ui-monospace, monospace }
mark { color: inherit; background: #ffd7d5; outline: 1px solid #cf222e }
section + section mark { background: #d1f0d9; outline-color: #1a7f37 }
mark:empty { padding: 0 1px }
mark:target { outline-width: 3px }
@media (prefers-color-scheme: dark) {
main, section + section { border-color: #30363d }
mark { background: #5c1a1d } section + section mark { background: #12401f }
}
</style>
</head>
<body>
";

// A click shows a difference in both texts.
static SCRIPT: &str = "<script>
'use strict';
document.querySelector('ol').addEventListener('click', event => {
  const item = event.target.closest('li');
  if (!item) return;
  for (const link of item.querySelectorAll('a')) document.getElementById(link.hash.slice(1)).scrollIntoView({ block: 'center' });
});
</script>
</body>
</html>
";

/// Which of the two texts.
#[derive(Clone, Copy)]
enum Side {
    Old,
    New,
}

impl Side {
    // The letter of the anchors of lines.
    fn lines(self) -> &'static str {
        match self {
            Side::Old => "A",
            Side::New => "B",
        }
    }

    // The letter of the anchors of differences.
    fn marks(self) -> &'static str {
        match self {
            Side::Old => "a",
            Side::New => "b",
        }
    }

    fn event(self, difference: &Difference) -> &Event {
        match self {
            Side::Old => &difference.old,
            Side::New => &difference.new,
        }
    }
}

// The part of a text that is marked: a node or a token, or an empty place where the other tree has
// more.
fn range_of(event: &Event, end: TextSize) -> TextRange {
    match event {
        None => TextRange::empty(end),
        Some(WalkEvent::Leave(element)) => TextRange::empty(element.text_range().end()),
        Some(WalkEvent::Enter(element)) => element.text_range(),
    }
}

// What is marked of a text while it is written.
#[derive(Clone, Copy)]
struct Marks<'d> {
    side: Side,
    // The differences.
    found: &'d [Difference],
    // How many of them were begun.
    begun: usize,
    // Where the one ends that is open.
    open: Option<TextSize>,
    // The end of the text.
    end: TextSize,
}

impl<'d> Marks<'d> {
    // The next mark, if it begins at an offset or before it and none is open.
    fn due(&self, at: TextSize) -> Option<TextRange> {
        if self.open.is_some() {
            return None;
        }
        let range = range_of(self.side.event(self.found.get(self.begun)?), self.end);
        if range.start() <= at {
            Some(range)
        } else {
            None
        }
    }

    // Writes the marks that begin at an offset.
    fn write_starts<W: Write>(&mut self, out: &mut W, at: TextSize) -> io::Result<()> {
        for _turn in self.begun..self.found.len() {
            let Some(range) = self.due(at) else {
                break;
            };
            write!(out, "<mark id=\"{}{}\">", self.side.marks(), self.begun)?;
            self.begun = self.begun.saturating_add(1);
            if range.end() <= at {
                out.write_all(b"</mark>")?;
            } else {
                self.open = Some(range.end());
            }
        }
        Ok(())
    }

    // Writes the end of a mark that ends at an offset.
    fn write_end<W: Write>(&mut self, out: &mut W, at: TextSize) -> io::Result<()> {
        if self.open.is_some_and(|end| end <= at) {
            self.open = None;
            out.write_all(b"</mark>")?;
        }
        Ok(())
    }

    // Writes a token with the marks that begin before it and end behind it.
    fn write_token<W: Write>(
        &mut self,
        out: &mut W,
        text: &str,
        token: &SyntaxToken,
        place: &mut Place,
    ) -> io::Result<()> {
        let range = token.text_range();
        self.write_starts(out, range.start())?;
        write_coloured(out, text, token, HighlightFormat::Html, place)?;
        self.write_end(out, range.end())
    }
}

// Writes a text with its marks.
fn write_text<W: Write>(
    out: &mut W,
    name: &str,
    root: &SyntaxNode,
    side: Side,
    found: &[Difference],
) -> io::Result<()> {
    let (mut place, text) = (Place::start(side.lines()), root.as_str());
    let end = root.text_range().end();
    let mut marks = Marks {
        side,
        found,
        begun: 0,
        open: None,
        end,
    };
    write!(out, "<section>\n<h2>{}</h2>\n<pre>\n", in_html(name))?;
    write_anchor(out, &place)?;
    for element in root.descendants_with_tokens() {
        if let NodeOrToken::Token(token) = &element {
            marks.write_token(out, text, token, &mut place)?;
        }
    }
    marks.write_starts(out, end)?;
    out.write_all(b"</pre>\n</section>\n")
}

// Writes what a tree has at a difference: a node, a token with its text, or the end of a node or of
// the text.
fn write_event<W: Write>(out: &mut W, event: &Event) -> io::Result<()> {
    match event {
        None => out.write_all(b"the end"),
        Some(WalkEvent::Leave(element)) => write!(out, "the end of {}", Named(element.kind())),
        Some(WalkEvent::Enter(element)) => {
            write!(out, "{}", Named(element.kind()))?;
            match element {
                NodeOrToken::Node(_) => Ok(()),
                NodeOrToken::Token(token) => {
                    let (text, is_cut) = cut(token.text());
                    let end = if is_cut { "…" } else { "" };
                    write!(out, " <q>{}{end}</q>", in_html(text))
                }
            }
        }
    }
}

// Writes a link to a difference in one of the texts.
fn write_link<W: Write>(
    out: &mut W,
    number: usize,
    side: Side,
    difference: &Difference,
    spots: &mut Spots<'_>,
    end: TextSize,
) -> io::Result<()> {
    let event = side.event(difference);
    let at = move_to(spots, range_of(event, end).start());
    write!(out, "<a href=\"#{}{number}\">{at} ", side.marks())?;
    write_event(out, event)?;
    out.write_all(b"</a>")
}

// Writes an item of the list: a link to a difference in each of the texts, which end there.
fn write_item<W: Write>(
    out: &mut W,
    number: usize,
    difference: &Difference,
    olds: &mut Spots<'_>,
    news: &mut Spots<'_>,
    old_end: TextSize,
    new_end: TextSize,
) -> io::Result<()> {
    out.write_all(b"<li>")?;
    write_link(out, number, Side::Old, difference, olds, old_end)?;
    out.write_all(b" ")?;
    write_link(out, number, Side::New, difference, news, new_end)?;
    out.write_all(b"</li>\n")
}

fn write_items<W: Write>(
    out: &mut W,
    found: &[Difference],
    olds: &mut Spots<'_>,
    news: &mut Spots<'_>,
    old_end: TextSize,
    new_end: TextSize,
) -> io::Result<()> {
    out.write_all(b"<ol>\n")?;
    for (number, difference) in found.iter().enumerate() {
        write_item(out, number, difference, olds, news, old_end, new_end)?;
    }
    out.write_all(b"</ol>\n")
}

fn end_of(text: &str) -> TextSize {
    TextSize::of(text).unwrap_or(TextSize::new(0))
}

// Writes the list of the differences.
fn write_list<W: Write>(
    alloc: Global,
    out: &mut W,
    old: &str,
    new: &str,
    found: &[Difference],
) -> Result<(), Failure> {
    let mut olds = spots(alloc, old)?;
    let mut news = spots(alloc, new)?;
    let (old_end, new_end) = (end_of(old), end_of(new));
    write_items(out, found, &mut olds, &mut news, old_end, new_end)?;
    Ok(())
}

// Writes the page of these differences.
fn write_page<W: Write>(
    alloc: Global,
    out: &mut W,
    names: (&str, &str),
    roots: (&SyntaxNode, &SyntaxNode),
    found: &[Difference],
) -> Result<(), Failure> {
    write_head(out, &[names.0, names.1])?;
    write_colours(out)?;
    out.write_all(STYLE.as_bytes())?;
    write_list(alloc, out, roots.0.as_str(), roots.1.as_str(), found)?;
    out.write_all(b"<main>\n")?;
    write_text(out, names.0, roots.0, Side::Old, found)?;
    write_text(out, names.1, roots.1, Side::New, found)?;
    out.write_all(b"</main>\n")?;
    Ok(out.write_all(SCRIPT.as_bytes())?)
}

// Writes the page of the first differences of two trees.
fn write_differences<W: Write>(
    alloc: Global,
    out: &mut W,
    names: (&str, &str),
    roots: (&SyntaxNode, &SyntaxNode),
    trivia: Trivia,
    limit: usize,
) -> Result<Told, Failure> {
    let count = limit.saturating_add(1);
    let found = differences(alloc, roots.0, &[], roots.1, trivia, count)?;
    let places = found.len().min(limit);
    write_page(alloc, out, names, roots, found.get(..places).unwrap_or(&[]))?;
    Ok(Told {
        places,
        more: found.len() > places,
    })
}

/// Writes a page of two texts in which at most `limit` places are marked where their trees differ
/// by kinds or by the texts of tokens. It has some thirty bytes for each token of the texts.
pub fn show<W: Write>(
    alloc: Global,
    out: &mut W,
    old: Source<'_>,
    new: Source<'_>,
    readings: (Reading, Reading),
    trivia: Trivia,
    limit: usize,
) -> Result<Told, Failure> {
    let names = (old.name, new.name);
    let old = parsed(alloc, old.text, readings.0)?;
    let new = parsed(alloc, new.text, readings.1)?;
    write_differences(alloc, out, names, (old.root(), new.root()), trivia, limit)
}
