//! Edits of a text.
use std::test::Fail;
use text_edit::{ApplyError, Indel, OverlapError, TextEdit, TextRange, TextSize};

fn range(start: u32, end: u32) -> TextRange {
    TextRange::new(TextSize::new(start), TextSize::new(end))
}

#[test]
fn an_edit_is_made_and_taken_back(rt: HostRuntime) -> Result<(), Fail> {
    let alloc = rt.alloc();
    let old = "_11h1_2222_xx3333_4444_6666";
    let mut edit = TextEdit::insert(alloc, TextSize::new(22), String::from_str(alloc, "_5555")?)?;
    edit.add(Indel::replace(range(3, 4), String::from_str(alloc, "1")?))?;
    edit.add(Indel::delete(alloc, range(11, 13)))?;
    let new = edit.apply(alloc, old)?;
    assert_eq!(rt; new.as_str(), "_1111_2222_3333_4444_5555_6666");
    let inverse = edit.invert(alloc, old)?;
    assert_eq!(rt; inverse.apply(alloc, new.as_str())?.as_str(), old);
    assert_eq!(rt; edit.apply_to_offset(TextSize::new(12)), None);
    assert_eq!(rt;
        edit.apply_to_offset(TextSize::new(14)),
        Some(TextSize::new(12))
    );
    assert_eq!(rt;
        edit.add(Indel::delete(alloc, range(12, 12))),
        Err(OverlapError::Overlap)
    );
    assert!(rt; matches!(edit.apply(alloc, "_11h1"), Err(ApplyError::PastEnd)));
    Ok(())
}

#[test]
fn two_edits_are_one(rt: HostRuntime) -> Result<(), Fail> {
    let alloc = rt.alloc();
    let mut edit = TextEdit::insert(alloc, TextSize::new(1), String::from_str(alloc, "x")?)?;
    let mut other = TextEdit::insert(alloc, TextSize::new(1), String::from_str(alloc, "y")?)?;
    other.add(Indel::delete(alloc, range(2, 3)))?;
    edit.union(alloc, other)?;
    assert_eq!(rt; edit.apply(alloc, "abcd")?.as_str(), "axybd");
    let again = TextEdit::delete(alloc, range(1, 3))?;
    assert_eq!(rt; edit.union(alloc, again), Err(OverlapError::Overlap));
    assert_eq!(rt; edit.len(), 3);
    Ok(())
}
