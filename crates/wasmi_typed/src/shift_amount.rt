//! The amount of a shift: how many bits a number is shifted by.
ghost use Rattle.std.specs.Prelude.{◌≡◌, ℕ, ◌==◌, if◌then◌else◌};
ghost use mir.Val.{bits};
ghost use Rattle.wasmi_typed.specs.Typed.{shift_amount};

use std::marker::Model;
use wasmi_raw::Number;

mod sealed {
    use wasmi_raw::Number;

    pub trait Sealed<Lane> {}

    impl<T: Number> Sealed<T> for T {}

    impl<T: Number, const N: usize> Sealed<T> for [T; N] {}
}

/// By how many bits a number is shifted. Contracts see it as that number. Upstream:
/// `wasmi_core::ShiftAmount`.
#[derive(Clone, Copy, Debug, PartialEq, Eq)]
pub struct ShiftAmount {
    bits: u8,
}

impl Model for ShiftAmount {
    ghost Value = { ℕ };

    ghost view = { λ amount. amount.bits };

    ghost inverse = { λ bits. record { bits = bits } };
}

impl From<u8> for ShiftAmount {
    ghost from_gives = { λ bits amount. amount ≡ bits };

    fn from(bits: u8) -> ShiftAmount {
        ShiftAmount { bits }
    }
}

impl From<ShiftAmount> for u8 {
    ghost from_gives = { λ amount bits. bits ≡ amount };

    fn from(amount: ShiftAmount) -> u8 {
        amount.bits
    }
}

/// A number whose bits are shifted, or a vector the bits of whose lanes are.
///
/// The ten integer types have it and the arrays of the unsigned lanes of a vector, and no other
/// type can. Upstream: `wasmi_core::IntoShiftAmount`, which other types can have.
pub trait IntoShiftAmount: sealed::Sealed<<Self as IntoShiftAmount>::Lane> {
    /// The type in which the amount is given.
    type ShiftSource: Copy + Number;

    /// The type of the number, or of a lane of the vector.
    type Lane: Number;

    /// The remainder of `source` by the number of bits, or `None` where that is 0 and nothing is
    /// shifted.
    fn into_shift_amount(source: Self::ShiftSource) -> Option<ShiftAmount>
        ensures { result ≡ shift_amount (bits Self.Lane.width) (Self.ShiftSource.number source) };
}

// The amount of a shift, or `None` where it is 0.
fn unless_zero(bits: u8) -> Option<ShiftAmount>
    ensures { result ≡ (if bits == 0 then None else Some bits) }
{
    (bits != 0).then_some(ShiftAmount { bits })
}

impl IntoShiftAmount for i8 {
    type ShiftSource = i8;

    type Lane = i8;

    fn into_shift_amount(source: i8) -> Option<ShiftAmount> {
        unless_zero(source.rem_euclid(8) as u8)
    }
}

impl IntoShiftAmount for u8 {
    type ShiftSource = u8;

    type Lane = u8;

    fn into_shift_amount(source: u8) -> Option<ShiftAmount> {
        unless_zero(source % 8)
    }
}

impl IntoShiftAmount for i16 {
    type ShiftSource = i16;

    type Lane = i16;

    fn into_shift_amount(source: i16) -> Option<ShiftAmount> {
        unless_zero(source.rem_euclid(16) as u8)
    }
}

impl IntoShiftAmount for u16 {
    type ShiftSource = u16;

    type Lane = u16;

    fn into_shift_amount(source: u16) -> Option<ShiftAmount> {
        unless_zero((source % 16) as u8)
    }
}

impl IntoShiftAmount for i32 {
    type ShiftSource = i32;

    type Lane = i32;

    fn into_shift_amount(source: i32) -> Option<ShiftAmount> {
        unless_zero(source.rem_euclid(32) as u8)
    }
}

impl IntoShiftAmount for u32 {
    type ShiftSource = u32;

    type Lane = u32;

    fn into_shift_amount(source: u32) -> Option<ShiftAmount> {
        unless_zero((source % 32) as u8)
    }
}

impl IntoShiftAmount for i64 {
    type ShiftSource = i64;

    type Lane = i64;

    fn into_shift_amount(source: i64) -> Option<ShiftAmount> {
        unless_zero(source.rem_euclid(64) as u8)
    }
}

impl IntoShiftAmount for u64 {
    type ShiftSource = u64;

    type Lane = u64;

    fn into_shift_amount(source: u64) -> Option<ShiftAmount> {
        unless_zero((source % 64) as u8)
    }
}

impl IntoShiftAmount for i128 {
    type ShiftSource = i128;

    type Lane = i128;

    fn into_shift_amount(source: i128) -> Option<ShiftAmount> {
        unless_zero(source.rem_euclid(128) as u8)
    }
}

impl IntoShiftAmount for u128 {
    type ShiftSource = u128;

    type Lane = u128;

    fn into_shift_amount(source: u128) -> Option<ShiftAmount> {
        unless_zero((source % 128) as u8)
    }
}

impl IntoShiftAmount for [u8; 16] {
    type ShiftSource = u32;

    type Lane = u8;

    fn into_shift_amount(source: u32) -> Option<ShiftAmount> {
        unless_zero((source % 8) as u8)
    }
}

impl IntoShiftAmount for [u16; 8] {
    type ShiftSource = u32;

    type Lane = u16;

    fn into_shift_amount(source: u32) -> Option<ShiftAmount> {
        unless_zero((source % 16) as u8)
    }
}

impl IntoShiftAmount for [u32; 4] {
    type ShiftSource = u32;

    type Lane = u32;

    fn into_shift_amount(source: u32) -> Option<ShiftAmount> {
        unless_zero((source % 32) as u8)
    }
}

impl IntoShiftAmount for [u64; 2] {
    type ShiftSource = u32;

    type Lane = u64;

    fn into_shift_amount(source: u32) -> Option<ShiftAmount> {
        unless_zero((source % 64) as u8)
    }
}
