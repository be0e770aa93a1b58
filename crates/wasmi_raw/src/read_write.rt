//! Reading and writing a raw value, and what is read after a write: the implementations of the
//! traits, type by type, except for references.
ghost use Rattle.std.specs.Int.{w8, w16, w32, w64, cast_unsigned, from_bool};
ghost use Rattle.std.specs.Int.NonZero.{non_zero_i8_get, non_zero_i16_get, non_zero_i32_get, non_zero_i64_get, non_zero_u8_get, non_zero_u16_get, non_zero_u32_get, non_zero_u64_get};
ghost use Rattle.wasmi_raw.specs.RawVal.{unsigned_in, signed_in, bool_in, vector_in, with_low, raw_of_vector};

use crate::number::Number;
use crate::raw::{OneWord, RawVal, ReadAs, ReadBack, WriteAs};
use crate::vector::V128;
use std::num::NonZero;

impl ReadAs<RawVal> for RawVal {
    ghost read = { λ raw. raw };

    fn read_as(&self) -> RawVal {
        *self
    }
}

impl ReadAs<i8> for RawVal {
    ghost read = { signed_in w8 };

    fn read_as(&self) -> i8 {
        u8::from(*self).cast_signed()
    }
}

impl ReadAs<i16> for RawVal {
    ghost read = { signed_in w16 };

    fn read_as(&self) -> i16 {
        u16::from(*self).cast_signed()
    }
}

impl ReadAs<i32> for RawVal {
    ghost read = { signed_in w32 };

    fn read_as(&self) -> i32 {
        u32::from(*self).cast_signed()
    }
}

impl ReadAs<i64> for RawVal {
    ghost read = { signed_in w64 };

    fn read_as(&self) -> i64 {
        u64::from(*self).cast_signed()
    }
}

impl ReadAs<u8> for RawVal {
    ghost read = { unsigned_in w8 };

    fn read_as(&self) -> u8 {
        (self.lo & 0xff) as u8
    }
}

impl ReadAs<u16> for RawVal {
    ghost read = { unsigned_in w16 };

    fn read_as(&self) -> u16 {
        (self.lo & 0xffff) as u16
    }
}

impl ReadAs<u32> for RawVal {
    ghost read = { unsigned_in w32 };

    fn read_as(&self) -> u32 {
        (self.lo & 0xffff_ffff) as u32
    }
}

impl ReadAs<u64> for RawVal {
    ghost read = { unsigned_in w64 };

    fn read_as(&self) -> u64 {
        self.lo
    }
}

impl ReadAs<V128> for RawVal {
    ghost read = { vector_in };

    fn read_as(&self) -> V128 {
        V128::from_word_pair(self.lo, self.hi)
    }
}

impl ReadAs<bool> for RawVal {
    ghost read = { bool_in };

    fn read_as(&self) -> bool {
        self.lo != 0
    }
}

impl ReadBack for RawVal {
    type Read = RawVal;

    ghost read_back = { λ value. value };
}

// An integer is read back as it is.
impl<T: Number> ReadBack for T {
    type Read = T;

    ghost read_back = { λ value. value };
}

impl ReadBack for bool {
    type Read = bool;

    ghost read_back = { λ value. value };
}

impl ReadBack for V128 {
    type Read = V128;

    ghost read_back = { λ value. value };
}

impl ReadBack for NonZero<i8> {
    type Read = i8;

    ghost read_back = { non_zero_i8_get };
}

impl ReadBack for NonZero<i16> {
    type Read = i16;

    ghost read_back = { non_zero_i16_get };
}

impl ReadBack for NonZero<i32> {
    type Read = i32;

    ghost read_back = { non_zero_i32_get };
}

impl ReadBack for NonZero<i64> {
    type Read = i64;

    ghost read_back = { non_zero_i64_get };
}

impl ReadBack for NonZero<u8> {
    type Read = u8;

    ghost read_back = { non_zero_u8_get };
}

impl ReadBack for NonZero<u16> {
    type Read = u16;

    ghost read_back = { non_zero_u16_get };
}

impl ReadBack for NonZero<u32> {
    type Read = u32;

    ghost read_back = { non_zero_u32_get };
}

impl ReadBack for NonZero<u64> {
    type Read = u64;

    ghost read_back = { non_zero_u64_get };
}

impl<T: Number> OneWord for T {}

impl OneWord for bool {}

impl OneWord for NonZero<i8> {}

impl OneWord for NonZero<i16> {}

impl OneWord for NonZero<i32> {}

impl OneWord for NonZero<i64> {}

impl OneWord for NonZero<u8> {}

impl OneWord for NonZero<u16> {}

impl OneWord for NonZero<u32> {}

impl OneWord for NonZero<u64> {}

impl WriteAs<RawVal> for RawVal {
    ghost written = { λ _ value. value };

    fn write_as(&mut self, value: RawVal) {
        *self = value;
    }
}

impl WriteAs<i8> for RawVal {
    ghost written = { λ raw value. with_low raw (cast_unsigned w8 value) };

    fn write_as(&mut self, value: i8) {
        self.write_as(value.cast_unsigned());
    }
}

impl WriteAs<NonZero<i8>> for RawVal {
    ghost written = { λ raw value. with_low raw (cast_unsigned w8 (non_zero_i8_get value)) };

    fn write_as(&mut self, value: NonZero<i8>) {
        self.write_as(value.get());
    }
}

impl WriteAs<i16> for RawVal {
    ghost written = { λ raw value. with_low raw (cast_unsigned w16 value) };

    fn write_as(&mut self, value: i16) {
        self.write_as(value.cast_unsigned());
    }
}

impl WriteAs<NonZero<i16>> for RawVal {
    ghost written = { λ raw value. with_low raw (cast_unsigned w16 (non_zero_i16_get value)) };

    fn write_as(&mut self, value: NonZero<i16>) {
        self.write_as(value.get());
    }
}

impl WriteAs<i32> for RawVal {
    ghost written = { λ raw value. with_low raw (cast_unsigned w32 value) };

    fn write_as(&mut self, value: i32) {
        self.write_as(value.cast_unsigned());
    }
}

impl WriteAs<NonZero<i32>> for RawVal {
    ghost written = { λ raw value. with_low raw (cast_unsigned w32 (non_zero_i32_get value)) };

    fn write_as(&mut self, value: NonZero<i32>) {
        self.write_as(value.get());
    }
}

impl WriteAs<i64> for RawVal {
    ghost written = { λ raw value. with_low raw (cast_unsigned w64 value) };

    fn write_as(&mut self, value: i64) {
        self.write_as(value.cast_unsigned());
    }
}

impl WriteAs<NonZero<i64>> for RawVal {
    ghost written = { λ raw value. with_low raw (cast_unsigned w64 (non_zero_i64_get value)) };

    fn write_as(&mut self, value: NonZero<i64>) {
        self.write_as(value.get());
    }
}

impl WriteAs<u8> for RawVal {
    ghost written = { with_low };

    fn write_as(&mut self, value: u8) {
        self.lo = u64::from(value);
    }
}

impl WriteAs<NonZero<u8>> for RawVal {
    ghost written = { λ raw value. with_low raw (non_zero_u8_get value) };

    fn write_as(&mut self, value: NonZero<u8>) {
        self.write_as(value.get());
    }
}

impl WriteAs<u16> for RawVal {
    ghost written = { with_low };

    fn write_as(&mut self, value: u16) {
        self.lo = u64::from(value);
    }
}

impl WriteAs<NonZero<u16>> for RawVal {
    ghost written = { λ raw value. with_low raw (non_zero_u16_get value) };

    fn write_as(&mut self, value: NonZero<u16>) {
        self.write_as(value.get());
    }
}

impl WriteAs<u32> for RawVal {
    ghost written = { with_low };

    fn write_as(&mut self, value: u32) {
        self.lo = u64::from(value);
    }
}

impl WriteAs<NonZero<u32>> for RawVal {
    ghost written = { λ raw value. with_low raw (non_zero_u32_get value) };

    fn write_as(&mut self, value: NonZero<u32>) {
        self.write_as(value.get());
    }
}

impl WriteAs<u64> for RawVal {
    ghost written = { with_low };

    fn write_as(&mut self, value: u64) {
        self.lo = value;
    }
}

impl WriteAs<NonZero<u64>> for RawVal {
    ghost written = { λ raw value. with_low raw (non_zero_u64_get value) };

    fn write_as(&mut self, value: NonZero<u64>) {
        self.write_as(value.get());
    }
}

impl WriteAs<bool> for RawVal {
    ghost written = { λ raw value. with_low raw (from_bool value) };

    fn write_as(&mut self, value: bool) {
        self.lo = u64::from(value);
    }
}

impl WriteAs<V128> for RawVal {
    ghost written = { λ _ value. raw_of_vector value };

    fn write_as(&mut self, value: V128) {
        *self = RawVal::from(value);
    }
}
