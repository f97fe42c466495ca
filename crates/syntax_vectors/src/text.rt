//! Sizes and ranges: each call once, and what they print.
use lossless_tree::{TextRange, TextSize};
use std::cmp::Ordering;
use std::test::Fail;

#[test]
fn a_size_counts_bytes(rt: HostRuntime) -> Result<(), Fail> {
    let size = TextSize::of("h\u{e9}llo").ok_or("too long")?;
    assert_eq!(rt; size.raw(), 6);
    assert!(rt; TextSize::new(5) < size);
    let text = format!(in rt.alloc(); "{size:?}")?;
    assert_eq!(rt; text.as_str(), "6");
    Ok(())
}

#[test]
fn sizes_are_added(rt: HostRuntime) {
    let (three, seven) = (TextSize::new(3), TextSize::new(7));
    assert_eq!(rt; three.checked_add(TextSize::new(4)), Some(seven));
    assert_eq!(rt; seven.checked_sub(three), Some(TextSize::new(4)));
    assert_eq!(rt; TextSize::new(u32::MAX).checked_add(TextSize::new(1)), None);
    assert_eq!(rt; three.checked_sub(seven), None);
}

#[test]
fn ranges_are_made(rt: HostRuntime) -> Result<(), Fail> {
    let range = TextRange::new(TextSize::new(3), TextSize::new(14));
    assert_eq!(rt; range, TextRange::at(TextSize::new(3), TextSize::new(11)));
    assert_eq!(rt; range.start().raw(), 3);
    assert_eq!(rt; range.end().raw(), 14);
    assert_eq!(rt; range.len().raw(), 11);
    assert!(rt; !range.is_empty());
    assert!(rt; TextRange::empty(TextSize::new(9)).is_empty());
    assert_eq!(rt; TextRange::up_to(TextSize::new(14)).start().raw(), 0);
    let text = format!(in rt.alloc(); "{range} {range:?}")?;
    assert_eq!(rt; text.as_str(), "3..14 3..14");
    Ok(())
}

#[test]
fn ranges_contain_their_ends(rt: HostRuntime) {
    let range = TextRange::new(TextSize::new(3), TextSize::new(14));
    assert!(rt; range.contains_range(range));
    assert!(rt; range.contains_range(TextRange::empty(TextSize::new(14))));
    assert!(rt; !range.contains_range(TextRange::empty(TextSize::new(15))));
    assert!(rt; !range.contains_range(TextRange::up_to(TextSize::new(4))));
}

#[test]
fn ranges_move(rt: HostRuntime) {
    let range = TextRange::new(TextSize::new(3), TextSize::new(14));
    let later = TextRange::new(TextSize::new(5), TextSize::new(16));
    assert_eq!(rt; range.checked_add(TextSize::new(2)), Some(later));
    assert_eq!(rt; later.checked_sub(TextSize::new(2)), Some(range));
    assert_eq!(rt; range.checked_sub(TextSize::new(4)), None);
    assert_eq!(rt; range.checked_add(TextSize::new(u32::MAX - 13)), None);
    let longest = TextRange::up_to(TextSize::new(u32::MAX));
    assert_eq!(rt; longest.checked_add(TextSize::new(1)), None);
}

#[test]
fn ranges_contain_offsets(rt: HostRuntime) {
    let range = TextRange::new(TextSize::new(3), TextSize::new(5));
    assert!(rt; range.contains(TextSize::new(3)));
    assert!(rt; !range.contains(TextSize::new(5)));
    assert!(rt; range.contains_inclusive(TextSize::new(5)));
    assert!(rt; !range.contains_inclusive(TextSize::new(6)));
}

#[test]
fn ranges_meet(rt: HostRuntime) {
    let early = TextRange::new(TextSize::new(1), TextSize::new(5));
    let late = TextRange::new(TextSize::new(3), TextSize::new(9));
    let both = TextRange::new(TextSize::new(3), TextSize::new(5));
    assert_eq!(rt; early.intersect(late), Some(both));
    assert_eq!(rt; early.intersect(TextRange::empty(TextSize::new(6))), None);
    let all = TextRange::new(TextSize::new(1), TextSize::new(9));
    assert_eq!(rt; early.cover(late), all);
    assert_eq!(rt; early.cover_offset(TextSize::new(9)), all);
    assert_eq!(rt; early.ordering(late), Ordering::Equal);
    assert_eq!(rt;
        TextRange::up_to(TextSize::new(3)).ordering(late),
        Ordering::Less
    );
    assert_eq!(rt;
        late.ordering(TextRange::up_to(TextSize::new(3))),
        Ordering::Greater
    );
}
