//! Owners of one value: the last one drops it, and one place is told from two.
use lossless_tree::Shared;
use std::alloc::{AllocError, Allocator, Global};
use std::cell::Cell;
use std::test::Fail;

// Counts its drops.
struct Noisy<'a> {
    drops: &'a Cell<u32>,
    number: u32,
}

impl<'a> Drop for Noisy<'a> {
    // Counts the drop.
    fn drop(self) {
        self.drops.set(self.drops.get().wrapping_add(1));
        let Noisy {
            drops: _,
            number: _,
        } = self;
    }
}

#[test]
fn the_last_owner_drops_the_value(rt: HostRuntime) -> Result<(), Fail> {
    let drops = Cell::new(0);
    let value = Noisy {
        drops: &drops,
        number: 7,
    };
    let first = Shared::new(rt.alloc(), value)?;
    let second = first.clone()?;
    drop(first);
    assert_eq!(rt; drops.get(), 0);
    let third = second.share();
    assert_eq!(rt; third.as_ref().number, 7);
    drop(second);
    assert_eq!(rt; drops.get(), 0);
    drop(third);
    assert_eq!(rt; drops.get(), 1);
    Ok(())
}

// Two more owners, by the promise of `clone` at a type parameter.
fn two_more<T: Drop, A: Allocator>(
    one: &Shared<T, A>,
) -> Result<(Shared<T, A>, Shared<T, A>), AllocError> {
    Ok((one.clone()?, one.clone()?))
}

#[test]
fn a_thousand_owners_drop_it_once(rt: HostRuntime) -> Result<(), Fail> {
    let drops = Cell::new(0);
    {
        let value = Noisy {
            drops: &drops,
            number: 1,
        };
        let one: Shared<Noisy, Global> = Shared::new(rt.alloc(), value)?;
        let mut all = Vec::new(rt.alloc());
        for _ in 0..1000u32 {
            all.push(one.share())?;
        }
        let (_second, _third) = two_more(&one)?;
        assert_eq!(rt; all.len(), 1000);
        assert_eq!(rt; drops.get(), 0);
    }
    assert_eq!(rt; drops.get(), 1);
    Ok(())
}

#[test]
fn a_value_is_read_through_any_owner(rt: HostRuntime) -> Result<(), Fail> {
    let text = format!(in rt.alloc(); "{}", 42)?;
    let first = Shared::new(rt.alloc(), text)?;
    let second = first.share();
    drop(first);
    assert_eq!(rt; second.as_str(), "42");
    let shown = format!(in rt.alloc(); "{second:?}")?;
    assert_eq!(rt; shown.as_str(), "\"42\"");
    Ok(())
}

#[test]
fn one_place_is_told_from_two(rt: HostRuntime) -> Result<(), Fail> {
    let first = Shared::new(rt.alloc(), 7u64)?;
    let second = first.share();
    let other = Shared::new(rt.alloc(), 7u64)?;
    assert!(rt; Shared::ptr_eq(&first, &second));
    assert!(rt; Shared::ptr_eq(&first, &first));
    assert!(rt; !Shared::ptr_eq(&first, &other));
    assert!(rt; !Shared::ptr_eq(&other, &second));
    assert!(rt; first == other);
    assert!(rt; first != Shared::new(rt.alloc(), 8u64)?);
    Ok(())
}
