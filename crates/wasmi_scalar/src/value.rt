//! The traits of the integer types, with their implementations: the operations, the unsigned type
//! of the same width, and the extension by the sign. Upstream: the module `value`, private there.
//! Core specification: integer operations, under numerics.
ghost use Rattle.std.specs.Prelude.{◌≡◌, false, refl, unsigned_abs};
ghost use Rattle.std.specs.Int.{int_wrap, w64};
ghost use Rattle.wasmi_scalar.specs.Numerics.{GivesNumber, amount_modulo, idiv_s, idiv_u, irem_s, irem_u, ishl, ishr_s, ishr_u, irotl, irotr, iclz, ictz, ipopcnt, ieqz};

use wasmi_access::access::WrapInto;
use wasmi_raw::Number;
use wasmi_types::TrapCode;

/// A conversion to the same type that keeps the low bits, as many as `T` has, and reads them
/// signed. Upstream: `SignExtendFrom`, private there.
pub trait SignExtendFrom<T: Number>: Number {
    /// The low bits of `self`, extended by their sign.
    fn sign_extend_from(self) -> Self
        ensures { result ≡ Self.of_number (int_wrap T.width (Self.number self)) };
}

/// An integer type with an unsigned type of the same width. Upstream: `Unsigned`, private there.
pub trait Unsigned {
    /// The unsigned type.
    type Uint: Number;
}

impl Unsigned for i32 {
    type Uint = u32;
}

impl Unsigned for i64 {
    type Uint = u64;
}

/// An integer type of WebAssembly. An amount is read unsigned: a shift by -1 is one by the width
/// less 1. Upstream: `Integer`, private there.
pub trait Integer: Unsigned + Number {
    /// Whether the number is 0.
    fn is_zero(self) -> bool
        ensures { result ≡ ieqz (Self.number self) };

    /// The zeros above the highest bit that is set, the width for 0.
    fn leading_zeros(self) -> Self
        ensures { Self.number result ≡ iclz Self.width (Self.number self) };

    /// The zeros below the lowest bit that is set, the width for 0.
    fn trailing_zeros(self) -> Self
        ensures { Self.number result ≡ ictz Self.width (Self.number self) };

    /// The bits that are set.
    fn count_ones(self) -> Self
        ensures { Self.number result ≡ ipopcnt Self.width (Self.number self) };

    /// Shifts to the left by `rhs` modulo the width, filling with zeros.
    fn shl(lhs: Self, rhs: Self) -> Self
        ensures { Self.number result ≡ ishl Self.width (Self.number lhs) (Self.number rhs) };

    /// Shifts to the right by `rhs` modulo the width, filling with the highest bit.
    fn shr_s(lhs: Self, rhs: Self) -> Self
        ensures { Self.number result ≡ ishr_s Self.width (Self.number lhs) (Self.number rhs) };

    /// Shifts to the right by `rhs` modulo the width, filling with zeros.
    fn shr_u(lhs: Self::Uint, rhs: Self::Uint) -> Self::Uint
        ensures { unsigned_abs (Self.Uint.number result) ≡ ishr_u Self.width
            (unsigned_abs (Self.Uint.number lhs)) (unsigned_abs (Self.Uint.number rhs)) };

    /// Rotates left by `rhs` modulo the width: bits that leave at the top come in at the bottom.
    fn rotl(lhs: Self, rhs: Self) -> Self
        ensures { Self.number result ≡ irotl Self.width (Self.number lhs) (Self.number rhs) };

    /// Rotates right by `rhs` modulo the width: bits that leave at the bottom come in at the top.
    fn rotr(lhs: Self, rhs: Self) -> Self
        ensures { Self.number result ≡ irotr Self.width (Self.number lhs) (Self.number rhs) };

    /// The quotient towards zero; `IntegerDivisionByZero` for a divisor of 0, then
    /// `IntegerOverflow` for the least number by -1.
    fn div_s(lhs: Self, rhs: Self) -> Result<Self, TrapCode>
        ensures { GivesNumber Self.number result
            (idiv_s Self.width (Self.number lhs) (Self.number rhs)) };

    /// The quotient, or `IntegerDivisionByZero` for a divisor of 0.
    fn div_u(lhs: Self::Uint, rhs: Self::Uint) -> Result<Self::Uint, TrapCode>
        ensures { GivesNumber (λ n. unsigned_abs (Self.Uint.number n)) result
            (idiv_u (unsigned_abs (Self.Uint.number lhs)) (unsigned_abs (Self.Uint.number rhs))) };

    /// The remainder, with the sign of the dividend: 0 for the least number by -1; or
    /// `IntegerDivisionByZero` for a divisor of 0.
    fn rem_s(lhs: Self, rhs: Self) -> Result<Self, TrapCode>
        ensures { GivesNumber Self.number result (irem_s (Self.number lhs) (Self.number rhs)) };

    /// The remainder, or `IntegerDivisionByZero` for a divisor of 0.
    fn rem_u(lhs: Self::Uint, rhs: Self::Uint) -> Result<Self::Uint, TrapCode>
        ensures { GivesNumber (λ n. unsigned_abs (Self.Uint.number n)) result
            (irem_u (unsigned_abs (Self.Uint.number lhs)) (unsigned_abs (Self.Uint.number rhs))) };

    /// The unsigned type has the width.
    ghost is_as_wide: { Self.Uint.width ≡ Self.width };

    /// Its numbers are unsigned.
    ghost is_of_unsigned: { Self.Uint.is_signed ≡ false };
}

impl Integer for i32 {
    fn is_zero(self) -> bool {
        self == 0
    }

    fn leading_zeros(self) -> i32 {
        self.leading_zeros() as i32
    }

    fn trailing_zeros(self) -> i32 {
        self.trailing_zeros() as i32
    }

    fn count_ones(self) -> i32 {
        self.count_ones() as i32
    }

    fn shl(lhs: i32, rhs: i32) -> i32 {
        lhs.wrapping_shl(rhs.cast_unsigned())
    }

    fn shr_s(lhs: i32, rhs: i32) -> i32 {
        lhs.wrapping_shr(rhs.cast_unsigned())
    }

    fn shr_u(lhs: u32, rhs: u32) -> u32 {
        lhs.wrapping_shr(rhs)
    }

    fn rotl(lhs: i32, rhs: i32) -> i32 {
        lhs.rotate_left(rhs.cast_unsigned())
    }

    fn rotr(lhs: i32, rhs: i32) -> i32 {
        lhs.rotate_right(rhs.cast_unsigned())
    }

    fn div_s(lhs: i32, rhs: i32) -> Result<i32, TrapCode> {
        if rhs == 0 {
            return Err(TrapCode::IntegerDivisionByZero);
        }
        lhs.checked_div(rhs).ok_or(TrapCode::IntegerOverflow)
    }

    fn div_u(lhs: u32, rhs: u32) -> Result<u32, TrapCode> {
        lhs.checked_div(rhs).ok_or(TrapCode::IntegerDivisionByZero)
    }

    fn rem_s(lhs: i32, rhs: i32) -> Result<i32, TrapCode> {
        if rhs == 0 {
            return Err(TrapCode::IntegerDivisionByZero);
        }
        Ok(lhs.wrapping_rem(rhs))
    }

    fn rem_u(lhs: u32, rhs: u32) -> Result<u32, TrapCode> {
        lhs.checked_rem(rhs).ok_or(TrapCode::IntegerDivisionByZero)
    }

    ghost is_as_wide = { refl };

    ghost is_of_unsigned = { refl };
}

impl Integer for i64 {
    fn is_zero(self) -> bool {
        self == 0
    }

    fn leading_zeros(self) -> i64 {
        self.leading_zeros() as i64
    }

    fn trailing_zeros(self) -> i64 {
        self.trailing_zeros() as i64
    }

    fn count_ones(self) -> i64 {
        self.count_ones() as i64
    }

    fn shl(lhs: i64, rhs: i64) -> i64 {
        lhs.wrapping_shl(amount(rhs))
    }

    fn shr_s(lhs: i64, rhs: i64) -> i64 {
        lhs.wrapping_shr(amount(rhs))
    }

    fn shr_u(lhs: u64, rhs: u64) -> u64 {
        lhs.wrapping_shr((rhs % 64) as u32)
    }

    fn rotl(lhs: i64, rhs: i64) -> i64 {
        lhs.rotate_left(amount(rhs))
    }

    fn rotr(lhs: i64, rhs: i64) -> i64 {
        lhs.rotate_right(amount(rhs))
    }

    fn div_s(lhs: i64, rhs: i64) -> Result<i64, TrapCode> {
        if rhs == 0 {
            return Err(TrapCode::IntegerDivisionByZero);
        }
        lhs.checked_div(rhs).ok_or(TrapCode::IntegerOverflow)
    }

    fn div_u(lhs: u64, rhs: u64) -> Result<u64, TrapCode> {
        lhs.checked_div(rhs).ok_or(TrapCode::IntegerDivisionByZero)
    }

    fn rem_s(lhs: i64, rhs: i64) -> Result<i64, TrapCode> {
        if rhs == 0 {
            return Err(TrapCode::IntegerDivisionByZero);
        }
        Ok(lhs.wrapping_rem(rhs))
    }

    fn rem_u(lhs: u64, rhs: u64) -> Result<u64, TrapCode> {
        lhs.checked_rem(rhs).ok_or(TrapCode::IntegerDivisionByZero)
    }

    ghost is_as_wide = { refl };

    ghost is_of_unsigned = { refl };
}

// The amount of a shift or a rotation, modulo the width.
#[inline(always)]
#[tactic(auto, using(crate::proofs::NumericsLemmas::amount_is))]
fn amount(rhs: i64) -> u32
    ensures { result ≡ amount_modulo w64 rhs }
{
    (rhs.cast_unsigned() % 64) as u32
}

impl SignExtendFrom<i8> for i32 {
    fn sign_extend_from(self) -> i32 {
        <i32 as WrapInto<i8>>::wrap_into(self) as i32
    }
}

impl SignExtendFrom<i16> for i32 {
    fn sign_extend_from(self) -> i32 {
        <i32 as WrapInto<i16>>::wrap_into(self) as i32
    }
}

impl SignExtendFrom<i8> for i64 {
    fn sign_extend_from(self) -> i64 {
        <i64 as WrapInto<i8>>::wrap_into(self) as i64
    }
}

impl SignExtendFrom<i16> for i64 {
    fn sign_extend_from(self) -> i64 {
        <i64 as WrapInto<i16>>::wrap_into(self) as i64
    }
}

impl SignExtendFrom<i32> for i64 {
    fn sign_extend_from(self) -> i64 {
        <i64 as WrapInto<i32>>::wrap_into(self) as i64
    }
}
