//! Operations on the count.
ghost use Rattle.std.specs.Prelude.{◌≡◌, ◌↔◌, IsTrue, IfSome};

use super::{Block, Shared};
use std::alloc::Allocator;
use std_alloc::room::Vacant;

impl<T, A: Allocator> Shared<T, A> {
    ghost use Rattle.shared_pointer.specs.SharedPlace.{place_of};

    /// The first owner, made of an empty block and the value.
    pub(super) fn first_owner(block: Vacant<Block<T, A>, A>, value: T) -> Shared<T, A>
        ensures { result.value ≡ value }
    {
        let Vacant { ptr, alloc } = block;
        unsafe {
            ptr.write(Block {
                count: 1,
                alloc,
                value,
            });
        }
        Shared { ptr }
    }

    /// The value that all owners share.
    pub(super) fn value(&self) -> &T
        ensures { result.now ≡ self.now.value }
    {
        unsafe { &(*self.ptr).value }
    }

    /// Adds an owner. A full count stays as it is.
    pub(super) fn add_owner(&self) -> Shared<T, A>
        ensures value { result.value ≡ self.now.value }
        ensures place { place_of result ≡ place_of self.now }
    {
        let ptr = self.ptr.cast_mut();
        unsafe {
            let count = (*ptr).count;
            if count != usize::MAX {
                (*ptr).count = count + 1;
            }
        }
        Shared { ptr }
    }

    /// Whether this is the only owner. It has no contract: its callers are right for either result,
    /// and only faster for the right one.
    pub fn is_last(&self) -> bool {
        let ptr = self.ptr.cast_mut();
        unsafe {
            let count = (*ptr).count;
            count == 1
        }
    }

    /// Removes an owner. The last one gets the value and its block; a full count stays as it is.
    pub(super) fn remove_owner(self) -> Option<(T, Vacant<Block<T, A>, A>)>
        ensures { IfSome result (λ last. last.0 ≡ self.value) }
    {
        let Shared { ptr } = self;
        let ptr = ptr.cast_mut();
        unsafe {
            let count = (*ptr).count;
            if count == usize::MAX {
                return None;
            }
            if count != 1 {
                (*ptr).count = count - 1;
                return None;
            }
            let value = (&raw const (*ptr).value).read();
            let alloc = (&raw const (*ptr).alloc).read();
            Some((value, Vacant { ptr, alloc }))
        }
    }

    // Pointers into two different blocks may not be compared. So this decrements the count through
    // the first owner for a moment, and checks whether the second one sees that.
    /// Whether both point to the same value, like `Rc::ptr_eq`. Takes constant time, so it is a
    /// fast first test of equality.
    pub fn ptr_eq(this: &Shared<T, A>, other: &Shared<T, A>) -> bool
        ensures place { IsTrue result ↔ (place_of this.now ≡ place_of other.now) }
        ensures value { IsTrue result → (this.now.value ≡ other.now.value) }
    {
        let here = this.ptr.cast_mut();
        let there = other.ptr.cast_mut();
        unsafe {
            let count = (*here).count;
            let before = (*there).count;
            (*here).count = count - 1;
            let after = (*there).count;
            (*here).count = count;
            before != after
        }
    }
}
