//! Raw references: what a table's element holds, whatever its type, converted, read and written.
ghost use Rattle.std.specs.Prelude.{◌≡◌, ◌↔◌, ℕ, IsTrue};
ghost use Rattle.std.specs.Int.{w32};
ghost use Rattle.wasmi_raw.specs.RawVal.{with_low, unsigned_in};

use crate::raw::{OneWord, RawVal, ReadAs, ReadBack, WriteAs};
use std::marker::Model;

/// A reference of 32 bits without a type, which contracts see as a number. The null reference is 0.
/// Upstream: `wasmi_core::RawRef`.
#[derive(Clone, Copy, Debug, PartialEq, Eq, PartialOrd, Ord, Hash)]
pub struct RawRef {
    bits: u32,
}

impl Model for RawRef {
    ghost Value = { ℕ };

    ghost view = { λ reference. reference.bits };

    ghost inverse = { λ bits. record { bits = bits } };
}

impl RawRef {
    /// The null reference.
    pub fn null() -> Self
        ensures { result ≡ 0 }
    {
        RawRef { bits: 0 }
    }

    /// Whether this is the null reference.
    pub fn is_null(self) -> bool
        ensures { IsTrue result ↔ (self ≡ 0) }
    {
        self.bits == 0
    }
}

impl From<u32> for RawRef {
    ghost from_gives = { λ bits reference. reference ≡ bits };

    fn from(bits: u32) -> RawRef {
        RawRef { bits }
    }
}

impl From<RawRef> for u32 {
    ghost from_gives = { λ reference bits. bits ≡ reference };

    fn from(reference: RawRef) -> u32 {
        reference.bits
    }
}

impl From<RawVal> for RawRef {
    ghost from_gives = { λ raw reference. reference ≡ unsigned_in w32 raw };

    fn from(raw: RawVal) -> RawRef {
        raw.read_as()
    }
}

impl ReadAs<RawRef> for RawVal {
    ghost read = { unsigned_in w32 };

    fn read_as(&self) -> RawRef {
        RawRef::from(u32::from(*self))
    }
}

impl ReadBack for RawRef {
    type Read = RawRef;

    ghost read_back = { λ value. value };
}

impl OneWord for RawRef {}

impl WriteAs<RawRef> for RawVal {
    ghost written = { with_low };

    fn write_as(&mut self, value: RawRef) {
        self.write_as(value.bits);
    }
}
