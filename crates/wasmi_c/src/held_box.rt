//! A value on the heap, or none.
ghost use Rattle.std.specs.Coded.{coded_option};
ghost use Rattle.std.specs.Prelude.{◌≡◌, Option, Some, None, IsSome};
ghost use Rattle.wasmi_c.specs.HeldBox.{box_or_none_owns};

use std::alloc::{Allocator, Global};
use std::marker::Model;
use std::ptr;

/// A value on the heap, or none: then the pointer leads nowhere, whatever it is.
///
/// It isn't `Drop`, so that no value is lost: [`HeldBox::end`] and [`HeldBox::into_box`] take it.
pub struct HeldBox<T, A: Allocator> {
    pub(crate) at: *mut T,
    pub(crate) alloc: A,
    /// The value, if there is one.
    pub ghost held: { Option T } by { coded_option T.code },
}

impl<T, A: Allocator> Model for HeldBox<T, A> {
    ghost also_owns = { λ s. box_or_none_owns (A.dealloc_token s.alloc) T.row s.at s.held };
}

impl<T, A: Allocator> HeldBox<T, A> {
    /// None. It takes no memory.
    pub fn empty(alloc: A) -> HeldBox<T, A>
        ensures { result.held ≡ None }
    {
        HeldBox {
            at: ptr::null_mut(),
            alloc,
        }
    }

    /// The value of a box.
    pub fn from_box(boxed: Box<T, A>) -> HeldBox<T, A>
    where
        T: Drop,
        ensures { result.held ≡ Some boxed.value }
    {
        let (at, alloc) = Box::into_raw_with_allocator(boxed);
        HeldBox { at, alloc }
    }

    /// The box of the value.
    pub fn into_box(self) -> Box<T, A>
        requires there { IsSome self.held }
        ensures value { Some result.value ≡ self.held }
    {
        let HeldBox { at, alloc } = self;
        unsafe { Box::from_raw(alloc, at) }
    }
}

impl<T> HeldBox<T, Global> {
    /// Ends a box with no value.
    pub fn end(self)
        requires empty { self.held ≡ None }
    {
        let HeldBox { at: _, alloc: _ } = self;
    }
}
