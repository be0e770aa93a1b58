//! The scalar integer instructions.
//!
//! Each function is the instruction of its name: `i32_add` is `i32.add`, and `bitand`, `bitor` and
//! `bitxor` are `and`, `or` and `xor`. Core specification: numeric instructions; of `i64_add128`,
//! `i64_sub128` and `i64_mul_wide_*`: the wide-arithmetic proposal. Upstream: `wasmi_core::wasm`.
//!
//! Divisions and remainders alone have errors: `IntegerDivisionByZero` if the divisor is 0, and those
//! of `div_s` then `IntegerOverflow` for the least number by -1.
#![tactic(auto, using(crate::proofs::NumericsLemmas::numerics))]

ghost use Rattle.std.specs.Prelude.{◌≡◌, ◌*◌, ◌*ℤ◌};
ghost use Rattle.std.specs.Int.{w8, w16, w32, w64, cast_unsigned, int_wrap};
ghost use Rattle.wasmi_scalar.specs.Numerics.{iadd, isub, imul, idiv_s, idiv_u, irem_s, irem_u, iand, ior, ixor, ishl, ishr_s, ishr_u, irotl, irotr, iclz, ictz, ipopcnt, ieqz, ieq, ine, ilt_s, ilt_u, igt_s, igt_u, ile_s, ile_u, ige_s, ige_u, unsigned_of, signed_of, add128, sub128};

use crate::value::{Integer, SignExtendFrom};
use wasmi_access::access::{ExtendInto, WrapInto};
use wasmi_types::TrapCode;

/// The sum modulo 2 to the power 32.
pub fn i32_add(lhs: i32, rhs: i32) -> i32
    ensures { result ≡ iadd w32 lhs rhs }
{
    lhs.wrapping_add(rhs)
}

/// The difference modulo 2 to the power 32.
pub fn i32_sub(lhs: i32, rhs: i32) -> i32
    ensures { result ≡ isub w32 lhs rhs }
{
    lhs.wrapping_sub(rhs)
}

/// The product modulo 2 to the power 32.
pub fn i32_mul(lhs: i32, rhs: i32) -> i32
    ensures { result ≡ imul w32 lhs rhs }
{
    lhs.wrapping_mul(rhs)
}

/// Bitwise and.
pub fn i32_bitand(lhs: i32, rhs: i32) -> i32
    ensures { result ≡ iand w32 lhs rhs }
{
    lhs & rhs
}

/// Bitwise or.
pub fn i32_bitor(lhs: i32, rhs: i32) -> i32
    ensures { result ≡ ior w32 lhs rhs }
{
    lhs | rhs
}

/// Bitwise exclusive or.
pub fn i32_bitxor(lhs: i32, rhs: i32) -> i32
    ensures { result ≡ ixor w32 lhs rhs }
{
    lhs ^ rhs
}

/// Shifts to the left; the amount is taken modulo 32.
pub fn i32_shl(lhs: i32, rhs: i32) -> i32
    ensures { result ≡ ishl w32 lhs rhs }
{
    Integer::shl(lhs, rhs)
}

/// Shifts to the right and fills with the highest bit; the amount is taken modulo 32.
pub fn i32_shr_s(lhs: i32, rhs: i32) -> i32
    ensures { result ≡ ishr_s w32 lhs rhs }
{
    Integer::shr_s(lhs, rhs)
}

/// Shifts to the right and fills with zeros; the amount is taken modulo 32.
pub fn i32_shr_u(lhs: u32, rhs: u32) -> u32
    ensures { result ≡ ishr_u w32 lhs rhs }
{
    <i32 as Integer>::shr_u(lhs, rhs)
}

/// Rotates to the left; the amount is taken modulo 32.
pub fn i32_rotl(lhs: i32, rhs: i32) -> i32
    ensures { result ≡ irotl w32 lhs rhs }
{
    Integer::rotl(lhs, rhs)
}

/// Rotates to the right; the amount is taken modulo 32.
pub fn i32_rotr(lhs: i32, rhs: i32) -> i32
    ensures { result ≡ irotr w32 lhs rhs }
{
    Integer::rotr(lhs, rhs)
}

/// The quotient towards zero.
pub fn i32_div_s(lhs: i32, rhs: i32) -> Result<i32, TrapCode>
    ensures { result ≡ idiv_s w32 lhs rhs }
{
    Integer::div_s(lhs, rhs)
}

/// The quotient.
pub fn i32_div_u(lhs: u32, rhs: u32) -> Result<u32, TrapCode>
    ensures { result ≡ idiv_u lhs rhs }
{
    <i32 as Integer>::div_u(lhs, rhs)
}

/// The remainder, with the sign of `lhs`: 0 for the least number by -1.
pub fn i32_rem_s(lhs: i32, rhs: i32) -> Result<i32, TrapCode>
    ensures { result ≡ irem_s lhs rhs }
{
    Integer::rem_s(lhs, rhs)
}

/// The remainder.
pub fn i32_rem_u(lhs: u32, rhs: u32) -> Result<u32, TrapCode>
    ensures { result ≡ irem_u lhs rhs }
{
    <i32 as Integer>::rem_u(lhs, rhs)
}

/// The zeros above the highest bit that is set, 32 for 0.
pub fn i32_clz(value: i32) -> i32
    ensures { result ≡ iclz w32 value }
{
    Integer::leading_zeros(value)
}

/// The zeros below the lowest bit that is set, 32 for 0.
pub fn i32_ctz(value: i32) -> i32
    ensures { result ≡ ictz w32 value }
{
    Integer::trailing_zeros(value)
}

/// The bits that are set.
pub fn i32_popcnt(value: i32) -> i32
    ensures { result ≡ ipopcnt w32 value }
{
    Integer::count_ones(value)
}

/// Whether the number is 0.
pub fn i32_eqz(value: i32) -> bool
    ensures { result ≡ ieqz value }
{
    Integer::is_zero(value)
}

/// Whether `lhs` is `rhs`.
pub fn i32_eq(lhs: i32, rhs: i32) -> bool
    ensures { result ≡ ieq lhs rhs }
{
    lhs == rhs
}

/// Whether `lhs` isn't `rhs`.
pub fn i32_ne(lhs: i32, rhs: i32) -> bool
    ensures { result ≡ ine lhs rhs }
{
    lhs != rhs
}

/// Whether `lhs` is below `rhs`, read signed.
pub fn i32_lt_s(lhs: i32, rhs: i32) -> bool
    ensures { result ≡ ilt_s lhs rhs }
{
    lhs < rhs
}

/// Whether `lhs` is below `rhs`, read unsigned.
pub fn i32_lt_u(lhs: u32, rhs: u32) -> bool
    ensures { result ≡ ilt_u lhs rhs }
{
    lhs < rhs
}

/// Whether `lhs` is at most `rhs`, read signed.
pub fn i32_le_s(lhs: i32, rhs: i32) -> bool
    ensures { result ≡ ile_s lhs rhs }
{
    lhs <= rhs
}

/// Whether `lhs` is at most `rhs`, read unsigned.
pub fn i32_le_u(lhs: u32, rhs: u32) -> bool
    ensures { result ≡ ile_u lhs rhs }
{
    lhs <= rhs
}

/// Whether `lhs` is above `rhs`, read signed.
pub fn i32_gt_s(lhs: i32, rhs: i32) -> bool
    ensures { result ≡ igt_s lhs rhs }
{
    lhs > rhs
}

/// Whether `lhs` is above `rhs`, read unsigned.
pub fn i32_gt_u(lhs: u32, rhs: u32) -> bool
    ensures { result ≡ igt_u lhs rhs }
{
    lhs > rhs
}

/// Whether `lhs` is at least `rhs`, read signed.
pub fn i32_ge_s(lhs: i32, rhs: i32) -> bool
    ensures { result ≡ ige_s lhs rhs }
{
    lhs >= rhs
}

/// Whether `lhs` is at least `rhs`, read unsigned.
pub fn i32_ge_u(lhs: u32, rhs: u32) -> bool
    ensures { result ≡ ige_u lhs rhs }
{
    lhs >= rhs
}

/// The sum modulo 2 to the power 64.
pub fn i64_add(lhs: i64, rhs: i64) -> i64
    ensures { result ≡ iadd w64 lhs rhs }
{
    lhs.wrapping_add(rhs)
}

/// The difference modulo 2 to the power 64.
pub fn i64_sub(lhs: i64, rhs: i64) -> i64
    ensures { result ≡ isub w64 lhs rhs }
{
    lhs.wrapping_sub(rhs)
}

/// The product modulo 2 to the power 64.
pub fn i64_mul(lhs: i64, rhs: i64) -> i64
    ensures { result ≡ imul w64 lhs rhs }
{
    lhs.wrapping_mul(rhs)
}

/// Bitwise and.
pub fn i64_bitand(lhs: i64, rhs: i64) -> i64
    ensures { result ≡ iand w64 lhs rhs }
{
    lhs & rhs
}

/// Bitwise or.
pub fn i64_bitor(lhs: i64, rhs: i64) -> i64
    ensures { result ≡ ior w64 lhs rhs }
{
    lhs | rhs
}

/// Bitwise exclusive or.
pub fn i64_bitxor(lhs: i64, rhs: i64) -> i64
    ensures { result ≡ ixor w64 lhs rhs }
{
    lhs ^ rhs
}

/// Shifts to the left; the amount is taken modulo 64.
pub fn i64_shl(lhs: i64, rhs: i64) -> i64
    ensures { result ≡ ishl w64 lhs rhs }
{
    Integer::shl(lhs, rhs)
}

/// Shifts to the right and fills with the highest bit; the amount is taken modulo 64.
pub fn i64_shr_s(lhs: i64, rhs: i64) -> i64
    ensures { result ≡ ishr_s w64 lhs rhs }
{
    Integer::shr_s(lhs, rhs)
}

/// Shifts to the right and fills with zeros; the amount is taken modulo 64.
pub fn i64_shr_u(lhs: u64, rhs: u64) -> u64
    ensures { result ≡ ishr_u w64 lhs rhs }
{
    <i64 as Integer>::shr_u(lhs, rhs)
}

/// Rotates to the left; the amount is taken modulo 64.
pub fn i64_rotl(lhs: i64, rhs: i64) -> i64
    ensures { result ≡ irotl w64 lhs rhs }
{
    Integer::rotl(lhs, rhs)
}

/// Rotates to the right; the amount is taken modulo 64.
pub fn i64_rotr(lhs: i64, rhs: i64) -> i64
    ensures { result ≡ irotr w64 lhs rhs }
{
    Integer::rotr(lhs, rhs)
}

/// The quotient towards zero.
pub fn i64_div_s(lhs: i64, rhs: i64) -> Result<i64, TrapCode>
    ensures { result ≡ idiv_s w64 lhs rhs }
{
    Integer::div_s(lhs, rhs)
}

/// The quotient.
pub fn i64_div_u(lhs: u64, rhs: u64) -> Result<u64, TrapCode>
    ensures { result ≡ idiv_u lhs rhs }
{
    <i64 as Integer>::div_u(lhs, rhs)
}

/// The remainder, with the sign of `lhs`: 0 for the least number by -1.
pub fn i64_rem_s(lhs: i64, rhs: i64) -> Result<i64, TrapCode>
    ensures { result ≡ irem_s lhs rhs }
{
    Integer::rem_s(lhs, rhs)
}

/// The remainder.
pub fn i64_rem_u(lhs: u64, rhs: u64) -> Result<u64, TrapCode>
    ensures { result ≡ irem_u lhs rhs }
{
    <i64 as Integer>::rem_u(lhs, rhs)
}

/// The zeros above the highest bit that is set, 64 for 0.
pub fn i64_clz(value: i64) -> i64
    ensures { result ≡ iclz w64 value }
{
    Integer::leading_zeros(value)
}

/// The zeros below the lowest bit that is set, 64 for 0.
pub fn i64_ctz(value: i64) -> i64
    ensures { result ≡ ictz w64 value }
{
    Integer::trailing_zeros(value)
}

/// The bits that are set.
pub fn i64_popcnt(value: i64) -> i64
    ensures { result ≡ ipopcnt w64 value }
{
    Integer::count_ones(value)
}

/// Whether the number is 0.
pub fn i64_eqz(value: i64) -> bool
    ensures { result ≡ ieqz value }
{
    Integer::is_zero(value)
}

/// Whether `lhs` is `rhs`.
pub fn i64_eq(lhs: i64, rhs: i64) -> bool
    ensures { result ≡ ieq lhs rhs }
{
    lhs == rhs
}

/// Whether `lhs` isn't `rhs`.
pub fn i64_ne(lhs: i64, rhs: i64) -> bool
    ensures { result ≡ ine lhs rhs }
{
    lhs != rhs
}

/// Whether `lhs` is below `rhs`, read signed.
pub fn i64_lt_s(lhs: i64, rhs: i64) -> bool
    ensures { result ≡ ilt_s lhs rhs }
{
    lhs < rhs
}

/// Whether `lhs` is below `rhs`, read unsigned.
pub fn i64_lt_u(lhs: u64, rhs: u64) -> bool
    ensures { result ≡ ilt_u lhs rhs }
{
    lhs < rhs
}

/// Whether `lhs` is at most `rhs`, read signed.
pub fn i64_le_s(lhs: i64, rhs: i64) -> bool
    ensures { result ≡ ile_s lhs rhs }
{
    lhs <= rhs
}

/// Whether `lhs` is at most `rhs`, read unsigned.
pub fn i64_le_u(lhs: u64, rhs: u64) -> bool
    ensures { result ≡ ile_u lhs rhs }
{
    lhs <= rhs
}

/// Whether `lhs` is above `rhs`, read signed.
pub fn i64_gt_s(lhs: i64, rhs: i64) -> bool
    ensures { result ≡ igt_s lhs rhs }
{
    lhs > rhs
}

/// Whether `lhs` is above `rhs`, read unsigned.
pub fn i64_gt_u(lhs: u64, rhs: u64) -> bool
    ensures { result ≡ igt_u lhs rhs }
{
    lhs > rhs
}

/// Whether `lhs` is at least `rhs`, read signed.
pub fn i64_ge_s(lhs: i64, rhs: i64) -> bool
    ensures { result ≡ ige_s lhs rhs }
{
    lhs >= rhs
}

/// Whether `lhs` is at least `rhs`, read unsigned.
pub fn i64_ge_u(lhs: u64, rhs: u64) -> bool
    ensures { result ≡ ige_u lhs rhs }
{
    lhs >= rhs
}

/// The low 32 bits.
pub fn i32_wrap_i64(value: i64) -> i32
    ensures { result ≡ int_wrap w32 value }
{
    value.wrap_into()
}

/// The same number.
pub fn i64_extend_i32_s(value: i32) -> i64
    ensures { result ≡ value }
{
    value.extend_into()
}

/// The same number.
pub fn i64_extend_i32_u(value: u32) -> u64
    ensures { result ≡ value }
{
    value.extend_into()
}

/// The low 8 bits, extended by their sign.
pub fn i32_extend8_s(value: i32) -> i32
    ensures { result ≡ int_wrap w8 value }
{
    <i32 as SignExtendFrom<i8>>::sign_extend_from(value)
}

/// The low 16 bits, extended by their sign.
pub fn i32_extend16_s(value: i32) -> i32
    ensures { result ≡ int_wrap w16 value }
{
    <i32 as SignExtendFrom<i16>>::sign_extend_from(value)
}

/// The low 8 bits, extended by their sign.
pub fn i64_extend8_s(value: i64) -> i64
    ensures { result ≡ int_wrap w8 value }
{
    <i64 as SignExtendFrom<i8>>::sign_extend_from(value)
}

/// The low 16 bits, extended by their sign.
pub fn i64_extend16_s(value: i64) -> i64
    ensures { result ≡ int_wrap w16 value }
{
    <i64 as SignExtendFrom<i16>>::sign_extend_from(value)
}

/// The low 32 bits, extended by their sign.
pub fn i64_extend32_s(value: i64) -> i64
    ensures { result ≡ int_wrap w32 value }
{
    <i64 as SignExtendFrom<i32>>::sign_extend_from(value)
}

// The number of 128 bits in two words.
fn combine128(lo: i64, hi: i64) -> u128
    ensures { result ≡ unsigned_of lo hi }
{
    hi.cast_unsigned() as u128 * 0x1_0000_0000_0000_0000 + lo.cast_unsigned() as u128
}

// The two words of a number of 128 bits.
fn split128(value: u128) -> (i64, i64)
    ensures { unsigned_of result.0 result.1 ≡ value }
{
    let lo = (value % 0x1_0000_0000_0000_0000) as u64;
    let hi = (value / 0x1_0000_0000_0000_0000) as u64;
    (lo.cast_signed(), hi.cast_signed())
}

/// The sum of two numbers modulo 2 to the power 128, as the words `(lo, hi)`.
pub fn i64_add128(lhs_lo: i64, lhs_hi: i64, rhs_lo: i64, rhs_hi: i64) -> (i64, i64)
    ensures { unsigned_of result.0 result.1
        ≡ add128 (unsigned_of lhs_lo lhs_hi) (unsigned_of rhs_lo rhs_hi) }
{
    split128(combine128(lhs_lo, lhs_hi).wrapping_add(combine128(rhs_lo, rhs_hi)))
}

/// The difference of two numbers modulo 2 to the power 128, as the words `(lo, hi)`.
pub fn i64_sub128(lhs_lo: i64, lhs_hi: i64, rhs_lo: i64, rhs_hi: i64) -> (i64, i64)
    ensures { unsigned_of result.0 result.1
        ≡ sub128 (unsigned_of lhs_lo lhs_hi) (unsigned_of rhs_lo rhs_hi) }
{
    split128(combine128(lhs_lo, lhs_hi).wrapping_sub(combine128(rhs_lo, rhs_hi)))
}

/// The whole product of two numbers read signed, as the words `(lo, hi)` of a signed number.
pub fn i64_mul_wide_s(lhs: i64, rhs: i64) -> (i64, i64)
    ensures { signed_of result.0 result.1 ≡ lhs *ℤ rhs }
{
    split128((lhs as i128 * rhs as i128).cast_unsigned())
}

/// The whole product of two numbers read unsigned, as the words `(lo, hi)` of an unsigned number.
pub fn i64_mul_wide_u(lhs: i64, rhs: i64) -> (i64, i64)
    ensures { unsigned_of result.0 result.1 ≡ cast_unsigned w64 lhs * cast_unsigned w64 rhs }
{
    split128(lhs.cast_unsigned() as u128 * rhs.cast_unsigned() as u128)
}
