//! Shared ownership of a value that never changes, with a clone that always succeeds.
ghost use Rattle.std.specs.Prelude.{◌≡◌, IfOk, IfErr, IfSome, ⊤};
ghost use Rattle.std.specs.Cmp.{on_equiv, on_per};
ghost use Rattle.shared_pointer.specs.SharedOwnership.{shared_owns, shared_lends};

use std::alloc::{AllocError, AllocFailed, Allocator, Global};
use std::fmt::{self, Debug};
use std::marker::Model;
use std::ops::Deref;
use std_alloc::room::Vacant;

mod count;

/// A reference-counted pointer to a value on the heap, for one thread, like `Rc`.
///
/// Cloning takes no memory and always succeeds: a count that has reached `usize::MAX` stays there.
/// Below that, the value is dropped and its block freed with the last owner; once the count is
/// full, the value is never freed.
pub struct Shared<T, A: Allocator = Global> {
    ptr: *const Block<T, A>,
    pub ghost value: { T },
}

// The block that owners point to. `count` is the number of owners, at least 1.
struct Block<T, A> {
    count: usize,
    alloc: A,
    value: T,
}

impl<T, A: Allocator> Model for Shared<T, A> {
    ghost also_owns = { λ s. shared_owns A.row A.dealloc_token T.row s.ptr s.value };

    ghost also_shares = { λ s _ κ. shared_lends A.row A.dealloc_token T.row s.ptr s.value κ };
}

impl<T, A: Allocator> Shared<T, A> {
    /// Moves `value` to the heap and returns its first owner. If memory runs out, the error
    /// contains the value.
    pub fn new(alloc: A, value: T) -> Result<Shared<T, A>, AllocFailed<T>>
        ensures ok { IfOk result (λ s. s.value ≡ value) }
        ensures value_returned { IfErr result (λ e. e.value ≡ value) }
    {
        match Vacant::take(alloc) {
            Ok(block) => Ok(Shared::first_owner(block, value)),
            Err(_heap) => Err(AllocFailed { value }),
        }
    }

    /// The value.
    pub fn as_ref(&self) -> &T
        ensures { result.now ≡ self.now.value }
    {
        self.value()
    }
}

// `T` must be `Drop`, as for `Box::leak`, since a value whose count is full is never dropped.
impl<T: Drop, A: Allocator> Shared<T, A> {
    ghost use Rattle.shared_pointer.specs.SharedPlace.{place_of};

    /// The value, if this is its last owner, whose block is then freed; otherwise `None`, as if
    /// this owner were dropped. Like `Rc::into_inner`.
    pub fn into_value(self) -> Option<T>
        ensures { IfSome result (λ v. v ≡ self.value) }
    {
        let (value, block) = self.remove_owner()?;
        drop(block.free());
        Some(value)
    }

    /// The value, if this is its last owner, as [`Shared::into_value`] returns it, or else this
    /// owner, which stays one. It always returns one of the two, but no clause says so.
    pub fn value_or_owner(self) -> Option<Result<T, Shared<T, A>>>
        ensures value { IfSome result (λ r. IfOk r (λ v. v ≡ self.value)) }
        ensures owner { IfSome result (λ r. IfErr r (λ s. s.value ≡ self.value)) }
    {
        if self.is_last() {
            Some(Ok(self.into_value()?))
        } else {
            Some(Err(self))
        }
    }

    /// Another owner of the value. It takes no memory, and always succeeds.
    pub fn share(&self) -> Shared<T, A>
        ensures value { result.value ≡ self.now.value }
        ensures place { place_of result ≡ place_of self.now }
    {
        self.add_owner()
    }
}

impl<T: Drop, A: Allocator> Drop for Shared<T, A> {
    #[inline(always)]
    fn drop(self) {
        if self.is_last() {
            self.leave_last();
        } else {
            self.leave();
        }
    }
}

impl<T: Drop, A: Allocator> Shared<T, A> {
    // Removes this owner; the last one drops the value and frees the block. Since `drop` calls
    // `is_last` first, the compiler knows that `remove_owner` returns `None` for the other owners,
    // and writes no `Option` with a value to the stack.
    #[inline(always)]
    fn leave(self) {
        if let Some((value, block)) = self.remove_owner() {
            let alloc = block.free();
            drop(value);
            drop(alloc);
        }
    }

    // The same for the last owner, out of line.
    #[cold]
    #[inline(never)]
    fn leave_last(self) {
        self.leave();
    }
}

impl<T: Drop, A: Allocator> Clone for Shared<T, A> {
    ghost is_clone = { λ s copy. copy.value ≡ s.value };

    ghost is_infallible = { λ _. ⊤ };

    fn clone(&self) -> Result<Shared<T, A>, AllocError> {
        Ok(self.share())
    }
}

impl<T, A: Allocator> Deref for Shared<T, A> {
    type Target = T;

    ghost deref_gives = { λ s x. x ≡ s.value };

    fn deref(&self) -> &T
        ensures { result.now ≡ self.now.value }
    {
        self.value()
    }
}

impl<T: PartialEq, A: Allocator> PartialEq for Shared<T, A> {
    ghost eq = { λ a b. T.eq a.value b.value };

    ghost laws = { on_per (λ a. a.value) T.laws };

    fn eq(&self, other: &Shared<T, A>) -> bool {
        **self == **other
    }
}

impl<T: Eq, A: Allocator> Eq for Shared<T, A> {
    ghost laws = { on_equiv (λ a. a.value) T.Eq.laws };
}

impl<T: Debug, A: Allocator> Debug for Shared<T, A> {
    ghost debug_output = { λ s. T.debug_output s.value };

    fn fmt<W: fmt::Write>(&self, f: &mut fmt::Formatter<W>) -> fmt::Result {
        (**self).fmt(f)
    }
}
