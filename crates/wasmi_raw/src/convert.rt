//! Conversions (`From`) into and from raw values, of integers, `bool`, floats and vectors.
ghost use Rattle.std.specs.Prelude.{◌≡◌};
ghost use Rattle.std.specs.Int.{w8, w16, w32, w64};
ghost use Rattle.wasmi_raw.specs.RawVal.{raw_of, raw_of_vector, unsigned_in, signed_in, bool_in, vector_in};

use crate::float::{F32, F64};
use crate::raw::{OneWord, RawVal, ReadAs, WriteAs};
use crate::vector::V128;

impl From<RawVal> for i8 {
    ghost from_gives = { λ raw value. value ≡ signed_in w8 raw };

    fn from(raw: RawVal) -> i8 {
        raw.read_as()
    }
}

impl From<RawVal> for i16 {
    ghost from_gives = { λ raw value. value ≡ signed_in w16 raw };

    fn from(raw: RawVal) -> i16 {
        raw.read_as()
    }
}

impl From<RawVal> for i32 {
    ghost from_gives = { λ raw value. value ≡ signed_in w32 raw };

    fn from(raw: RawVal) -> i32 {
        raw.read_as()
    }
}

impl From<RawVal> for i64 {
    ghost from_gives = { λ raw value. value ≡ signed_in w64 raw };

    fn from(raw: RawVal) -> i64 {
        raw.read_as()
    }
}

impl From<RawVal> for u8 {
    ghost from_gives = { λ raw value. value ≡ unsigned_in w8 raw };

    fn from(raw: RawVal) -> u8 {
        raw.read_as()
    }
}

impl From<RawVal> for u16 {
    ghost from_gives = { λ raw value. value ≡ unsigned_in w16 raw };

    fn from(raw: RawVal) -> u16 {
        raw.read_as()
    }
}

impl From<RawVal> for u32 {
    ghost from_gives = { λ raw value. value ≡ unsigned_in w32 raw };

    fn from(raw: RawVal) -> u32 {
        raw.read_as()
    }
}

impl From<RawVal> for u64 {
    ghost from_gives = { λ raw value. value ≡ unsigned_in w64 raw };

    fn from(raw: RawVal) -> u64 {
        raw.read_as()
    }
}

impl From<RawVal> for bool {
    ghost from_gives = { λ raw value. value ≡ bool_in raw };

    fn from(raw: RawVal) -> bool {
        raw.read_as()
    }
}

impl From<RawVal> for F32 {
    ghost from_gives = { λ raw value. value ≡ unsigned_in w32 raw };

    fn from(raw: RawVal) -> F32 {
        F32::from_bits(raw.read_as())
    }
}

impl From<RawVal> for F64 {
    ghost from_gives = { λ raw value. value ≡ unsigned_in w64 raw };

    fn from(raw: RawVal) -> F64 {
        F64::from_bits(raw.read_as())
    }
}

impl From<RawVal> for V128 {
    ghost from_gives = { λ raw value. value ≡ vector_in raw };

    fn from(raw: RawVal) -> V128 {
        raw.read_as()
    }
}

// The words of the vector, which give it back.
impl From<V128> for RawVal {
    ghost from_gives = { λ value raw. (raw ≡ raw_of_vector value) × (vector_in raw ≡ value) };

    fn from(value: V128) -> RawVal {
        let (lo, hi) = value.words();
        RawVal { lo, hi }
    }
}

/// An integer of up to 64 bits, one that isn't 0 (`NonZero`), a `bool` or a `RawRef`: its unsigned
/// image at its own width in the low word, and 0 in the high word.
impl<T: OneWord> From<T> for RawVal
where
    RawVal: WriteAs<T>,
{
    ghost from_gives = { λ value raw. raw ≡ ⟦<RawVal as WriteAs<T>>⟧.written (raw_of 0) value };

    fn from(value: T) -> RawVal {
        let mut raw = RawVal::from_bits64(0);
        raw.write_as(value);
        raw
    }
}

impl From<F32> for RawVal {
    ghost from_gives = { λ value raw. raw ≡ raw_of value };

    fn from(value: F32) -> RawVal {
        RawVal::from(value.to_bits())
    }
}

impl From<F64> for RawVal {
    ghost from_gives = { λ value raw. raw ≡ raw_of value };

    fn from(value: F64) -> RawVal {
        RawVal::from(value.to_bits())
    }
}
