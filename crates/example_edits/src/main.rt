//! An editor's loop: applies edits to a document, prints the range that was read again for each,
//! and its time to standard error.
#![tactic(auto)]

use ra_ap_syntax::{Document, Edition, ParseError, TextRange, TextSize};
use rust_front::Rust;
use std::alloc::Global;
use std::io;
use std::time::Instant;

type File = Document<Rust>;

// The start and the end of the removed range, in bytes, and the inserted text.
type Edit = (u32, u32, &'static str);

// Edits a file. Returns the range that was read again; `None` where the text has no such range.
fn edit(alloc: Global, file: &mut File, edit: Edit) -> Result<Option<TextRange>, ParseError> {
    let (start, end, insert) = edit;
    let (text, from, to) = (file.text(), start as usize, end as usize);
    if start > end || !text.is_char_boundary(from) || !text.is_char_boundary(to) {
        return Ok(None);
    }
    let delete = TextRange::new(TextSize::new(start), TextSize::new(end));
    let range = file.edit(alloc, delete, insert)?;
    Ok(Some(range))
}

fn apply(rt: &HostRuntime, file: &mut File, change: Edit) -> io::Result<()> {
    let begun = Instant::now(rt)?;
    let Ok(Some(range)) = edit(rt.alloc(), file, change) else {
        return println!(rt; "{change:?} is no edit of the text, or memory ran out");
    };
    let took = Instant::now(rt)?.duration_since(begun).as_nanos();
    let (start, end, insert) = change;
    println!(rt; "{start}..{end} by {insert:?}: {range} read again")?;
    eprintln!(rt; "in {took} ns")
}

fn main(rt: HostRuntime) -> io::Result<()> {
    let text = "fn foo() { 1 }\n";
    let Ok(mut file) = Document::new(rt.alloc(), Rust, text, Edition::CURRENT) else {
        return println!(rt; "out of memory");
    };
    apply(&rt, &mut file, (3, 6, "main"))?;
    apply(&rt, &mut file, (12, 13, "1 + x"))?;
    apply(&rt, &mut file, (0, 0, "fn f() {}\n"))?;
    apply(&rt, &mut file, (13, 17, "g"))?;
    apply(&rt, &mut file, (8, 9, ""))?;
    print!(rt; "{}", file.text())
}
