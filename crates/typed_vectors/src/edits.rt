//! A parse after a whole edit of its text.
use ra_ap_syntax::{Edition, SourceFile};
use rust_front::Rust;
use std::test::Fail;
use text_edit::{ApplyError, Indel, TextEdit, TextRange, TextSize};

fn range(start: u32, end: u32) -> TextRange {
    TextRange::new(TextSize::new(start), TextSize::new(end))
}

#[test]
fn a_whole_edit_is_parsed_once(rt: HostRuntime) -> Result<(), Fail> {
    let alloc = rt.alloc();
    let now = Edition::CURRENT;
    let old = SourceFile::parse(alloc, "fn foo() { 1 + }", &Rust, now)?;
    let mut edit = TextEdit::insert(alloc, TextSize::new(14), String::from_str(alloc, " 2")?)?;
    edit.add(Indel::replace(range(3, 6), String::from_str(alloc, "main")?))?;
    edit.add(Indel::insert(TextSize::new(0), String::from_str(alloc, "pub ")?))?;
    let new = old.reparse_all(alloc, &Rust, &edit, now)?;
    assert!(rt; new == SourceFile::parse(alloc, "pub fn main() { 1 + 2 }", &Rust, now)?);
    let past = TextEdit::delete(alloc, range(15, 17))?;
    assert!(rt;
        matches!(
            old.reparse_all(alloc, &Rust, &past, now),
            Err(ApplyError::PastEnd)
        )
    );
    Ok(())
}
