//! The 128-bit value that vector instructions work on: its two words, and its number.
ghost use Rattle.std.specs.Prelude.{◌≡◌, ℕ, ◌/◌, ◌%◌, ◌^◌, ◌<◌};
ghost use Rattle.wasmi_raw.specs.RawVal.{vector_of};

use std::marker::Model;

/// A vector of 128 bits, which contracts see as a number below 2^128.
///
/// It is kept as two words of 64 bits. Upstream: `wasmi_core::V128`.
#[derive(Clone, Copy, Debug, PartialEq, Eq)]
pub struct V128 {
    low: u64,
    high: u64,
}

impl Model for V128 {
    ghost Value = { ℕ };

    ghost view = { λ vector. vector_of vector.low vector.high };

    ghost invariant = { λ vector. vector.low < 2 ^ 64 };

    ghost inverse = { λ number. record { low = number % 2 ^ 64; high = number / 2 ^ 64 } };
}

impl V128 {
    /// The vector whose bits 0 to 63 are `low` and whose bits 64 to 127 are `high`.
    pub fn from_word_pair(low: u64, high: u64) -> V128
        ensures { result ≡ vector_of low high }
    {
        V128 { low, high }
    }

    /// Bits 0 to 63, and bits 64 to 127.
    pub fn words(self) -> (u64, u64)
        ensures whole { self ≡ vector_of result.0 result.1 }
        ensures low { result.0 ≡ self % 2 ^ 64 }
        ensures high { result.1 ≡ self / 2 ^ 64 }
    {
        (self.low, self.high)
    }

    /// The number, whose lowest byte is the first of the vector.
    pub fn as_u128(self) -> u128
        ensures value { result ≡ self }
        ensures in_range { self < 2 ^ 128 }
    {
        (u128::from(self.high) << 64) | u128::from(self.low)
    }
}

impl From<u128> for V128 {
    ghost from_gives = { λ number vector. vector ≡ number };

    fn from(number: u128) -> V128 {
        let low = (number & 0xffff_ffff_ffff_ffff) as u64;
        V128::from_word_pair(low, (number >> 64) as u64)
    }
}
