//! Where the pool of a handle lies on the heap: a box that C sees, made, taken apart and lent.
ghost use Rattle.std.specs.Coded.{coded_option};
ghost use Rattle.std.specs.Prelude.{◌≡◌, Option, IsSome};
ghost use Rattle.wasmi_budget.specs.Pool.{PoolValue};
ghost use Rattle.wasmi_c.specs.HeldBox.{box_or_none_owns, global_token, pool_row};

use crate::held_box::HeldBox;
use crate::pool::TenantPool;
use std::alloc::Global;
use std::marker::Model;

/// A [`HeldBox`] of a pool: a type that C sees has no parameters.
#[repr(C)]
pub struct PoolBox {
    at: *mut u8,
    alloc: Global,
    /// The pool, if there is one.
    pub ghost held: { Option PoolValue } by { coded_option pool_row.coded },
}

impl Model for PoolBox {
    ghost also_owns = { λ s. box_or_none_owns (global_token s.alloc) pool_row s.at s.held };
}

// A proof in `proofs/pool/pool_box/PoolBox/TheSendSync` shows it.
unsafe impl Send for PoolBox {}

impl PoolBox {
    ghost use Rattle.std.specs.Borrow.{sem};
    ghost use Rattle.std.specs.Prelude.{Some};
    ghost use Rattle.wasmi_c.specs.Lending.{LendsPool};

    /// The pool or none, as C has it.
    pub fn from_held(held: HeldBox<TenantPool, Global>) -> PoolBox
        ensures { result.held ≡ held.held }
    {
        let HeldBox { at, alloc } = held;
        PoolBox {
            at: at as *mut u8,
            alloc,
        }
    }

    /// The pool or none, as Rattle has it.
    pub fn into_held(self) -> HeldBox<TenantPool, Global>
        ensures { result.held ≡ self.held }
    {
        let PoolBox { at, alloc } = self;
        HeldBox {
            at: at as *mut TenantPool,
            alloc,
        }
    }

    /// The pool, in its place.
    pub fn pool_mut(&mut self) -> &mut TenantPool
        requires there { IsSome self.old.held }
        ensures* writes_back { sem 𝓛 (LendsPool self.entry result) }
        ensures value { Some result.now ≡ self.old.held }
    {
        unsafe { &mut *(self.at as *mut TenantPool) }
    }
}
