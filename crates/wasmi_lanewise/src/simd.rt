//! The vector instructions that work lane by lane, with the lane types and indices.
//!
//! Each function is the instruction of its name: `i8x16_add` is `i8x16.add`, of 16 lanes of 8 bits;
//! lane 0 is the lowest. `i8x16_mul` is no instruction of WebAssembly. Core specification: vector
//! instructions; what each gives stands in `specs/VectorTable.antt`. Upstream: `wasmi_core::simd`.
//! Private functions here are steps of the instructions of one width; what is generic in the lane
//! type is in `order` and `words`.
ghost use Rattle.std.specs.Prelude.{◌≡◌, ℕ, ◌+◌, ◌-◌, ◌*◌, ◌/◌, ◌%◌, ◌^◌, ◌<◌, ◌==◌, nat_lt, slice_index, if◌then◌else◌};
ghost use Rattle.wasmi_types.specs.Numbers.{w8, w16, w32, w64, signed};
ghost use Rattle.std.specs.Int.{cast_unsigned};
ghost use Rattle.wasmi_lanewise.specs.VectorTable as vector;

mod order;
mod words;

use std::simd::prelude::*;
use wasmi_lanes::words::word_differ;
use wasmi_lanes::{
    SimdLane, VariableLane, bytes_of, clamped_i8, clamped_i16, from_bytes, from_u64x2, on_vectors,
    u64x2_of,
};
use wasmi_raw::V128;

// Lanes and their indices.
pub use wasmi_lanes::{
    FromNarrow, FromWide, I8x16, I16x8, I32x4, I64x2, ImmLaneIdx, ImmLaneIdx2, ImmLaneIdx4,
    ImmLaneIdx8, ImmLaneIdx16, ImmLaneIdx32, IntoLaneIdx, IntoLanes, Lanes, OutOfBoundsLaneIdx,
    U8x16, U16x8, U32x4, U64x2,
};

// Instructions of one operand, and those that work bit by bit on whole vectors.

/// The lanes negated, modulo 2 to the power 8.
pub fn i8x16_neg(v: V128) -> V128
    ensures { result ≡ vector.neg w8 v }
{
    words::negations::<u8>(v)
}

/// The lanes negated, modulo 2 to the power 16.
pub fn i16x8_neg(v: V128) -> V128
    ensures { result ≡ vector.neg w16 v }
{
    words::negations::<u16>(v)
}

/// The lanes negated, modulo 2 to the power 32.
pub fn i32x4_neg(v: V128) -> V128
    ensures { result ≡ vector.neg w32 v }
{
    words::negations::<u32>(v)
}

/// The lanes negated, modulo 2 to the power 64.
pub fn i64x2_neg(v: V128) -> V128
    ensures { result ≡ vector.neg w64 v }
{
    words::negations::<u64>(v)
}

/// The absolute values of the lanes, read signed; that of the least number is itself.
pub fn i8x16_abs(v: V128) -> V128
    ensures { result ≡ vector.abs w8 v }
{
    on_vectors::unary::<I8x16, _>(v, |x| x.wrapping_abs())
}

/// The absolute values of the lanes, read signed; that of the least number is itself.
pub fn i16x8_abs(v: V128) -> V128
    ensures { result ≡ vector.abs w16 v }
{
    on_vectors::unary::<I16x8, _>(v, |x| x.wrapping_abs())
}

/// The absolute values of the lanes, read signed; that of the least number is itself.
pub fn i32x4_abs(v: V128) -> V128
    ensures { result ≡ vector.abs w32 v }
{
    on_vectors::unary::<I32x4, _>(v, |x| x.wrapping_abs())
}

/// The absolute values of the lanes, read signed; that of the least number is itself.
pub fn i64x2_abs(v: V128) -> V128
    ensures { result ≡ vector.abs w64 v }
{
    on_vectors::unary::<I64x2, _>(v, |x| x.wrapping_abs())
}

/// How many bits of each lane are one.
///
/// Counted in lanes of 2, 4 and 8 bits in turn, each the sum of its halves. Both words are one
/// value of the processor's, for the reason at `words::filled`.
pub fn i8x16_popcnt(v: V128) -> V128
    ensures { result ≡ vector.popcnt w8 v }
{
    let words = u64x2_of(v);
    let ones = u64x2::splat(0x5555_5555_5555_5555);
    let pairs = words - ((words >> u64x2::splat(1)) & ones);
    let twos = u64x2::splat(0x3333_3333_3333_3333);
    let nibbles = (pairs & twos) + ((pairs >> u64x2::splat(2)) & twos);
    let fours = u64x2::splat(0x0f0f_0f0f_0f0f_0f0f);
    from_u64x2((nibbles + (nibbles >> u64x2::splat(4))) & fours)
}

/// Bitwise and.
pub fn v128_and(lhs: V128, rhs: V128) -> V128
    ensures { result ≡ vector.v128_and lhs rhs }
{
    from_u64x2(u64x2_of(lhs) & u64x2_of(rhs))
}

/// Bitwise or.
pub fn v128_or(lhs: V128, rhs: V128) -> V128
    ensures { result ≡ vector.v128_or lhs rhs }
{
    from_u64x2(u64x2_of(lhs) | u64x2_of(rhs))
}

/// Bitwise exclusive or.
pub fn v128_xor(lhs: V128, rhs: V128) -> V128
    ensures { result ≡ vector.v128_xor lhs rhs }
{
    from_u64x2(u64x2_of(lhs) ^ u64x2_of(rhs))
}

/// The bits of `v` inverted.
pub fn v128_not(v: V128) -> V128
    ensures { result ≡ vector.v128_not v }
{
    from_u64x2(!u64x2_of(v))
}

/// The bits of `lhs` where `rhs` has zeros.
pub fn v128_andnot(lhs: V128, rhs: V128) -> V128
    ensures { result ≡ vector.v128_andnot lhs rhs }
{
    v128_and(lhs, v128_not(rhs))
}

/// The bits of `v1` where `c` has ones, those of `v2` where it has zeros.
pub fn v128_bitselect(v1: V128, v2: V128, c: V128) -> V128
    ensures { result ≡ vector.v128_bitselect v1 v2 c }
{
    let ones = u64x2_of(c);
    from_u64x2((u64x2_of(v1) & ones) | (u64x2_of(v2) & !ones))
}

// Instructions of two operands.

/// The sums of the lanes, modulo 2 to the power 8.
pub fn i8x16_add(lhs: V128, rhs: V128) -> V128
    ensures { result ≡ vector.add w8 lhs rhs }
{
    words::sums::<u8>(lhs, rhs)
}

/// The sums of the lanes, modulo 2 to the power 16.
pub fn i16x8_add(lhs: V128, rhs: V128) -> V128
    ensures { result ≡ vector.add w16 lhs rhs }
{
    words::sums::<u16>(lhs, rhs)
}

/// The sums of the lanes, modulo 2 to the power 32.
pub fn i32x4_add(lhs: V128, rhs: V128) -> V128
    ensures { result ≡ vector.add w32 lhs rhs }
{
    words::sums::<u32>(lhs, rhs)
}

/// The sums of the lanes, modulo 2 to the power 64.
pub fn i64x2_add(lhs: V128, rhs: V128) -> V128
    ensures { result ≡ vector.add w64 lhs rhs }
{
    words::sums::<u64>(lhs, rhs)
}

/// The differences of the lanes, modulo 2 to the power 8.
pub fn i8x16_sub(lhs: V128, rhs: V128) -> V128
    ensures { result ≡ vector.sub w8 lhs rhs }
{
    words::differences::<u8>(lhs, rhs)
}

/// The differences of the lanes, modulo 2 to the power 16.
pub fn i16x8_sub(lhs: V128, rhs: V128) -> V128
    ensures { result ≡ vector.sub w16 lhs rhs }
{
    words::differences::<u16>(lhs, rhs)
}

/// The differences of the lanes, modulo 2 to the power 32.
pub fn i32x4_sub(lhs: V128, rhs: V128) -> V128
    ensures { result ≡ vector.sub w32 lhs rhs }
{
    words::differences::<u32>(lhs, rhs)
}

/// The differences of the lanes, modulo 2 to the power 64.
pub fn i64x2_sub(lhs: V128, rhs: V128) -> V128
    ensures { result ≡ vector.sub w64 lhs rhs }
{
    words::differences::<u64>(lhs, rhs)
}

/// The products of the lanes, modulo 2 to the power 8: upstream's alone, not WebAssembly's.
pub fn i8x16_mul(lhs: V128, rhs: V128) -> V128
    ensures { result ≡ vector.mul w8 lhs rhs }
{
    on_vectors::binary::<U8x16, _>(lhs, rhs, |x, y| x.wrapping_mul(y))
}

/// The products of the lanes, modulo 2 to the power 16.
pub fn i16x8_mul(lhs: V128, rhs: V128) -> V128
    ensures { result ≡ vector.mul w16 lhs rhs }
{
    on_vectors::binary::<U16x8, _>(lhs, rhs, |x, y| x.wrapping_mul(y))
}

/// The products of the lanes, modulo 2 to the power 32.
pub fn i32x4_mul(lhs: V128, rhs: V128) -> V128
    ensures { result ≡ vector.mul w32 lhs rhs }
{
    on_vectors::binary::<U32x4, _>(lhs, rhs, |x, y| x.wrapping_mul(y))
}

/// The products of the lanes, modulo 2 to the power 64.
pub fn i64x2_mul(lhs: V128, rhs: V128) -> V128
    ensures { result ≡ vector.mul w64 lhs rhs }
{
    let (a_low, a_high) = lhs.words();
    let (b_low, b_high) = rhs.words();
    // The high word of a product of 128 bits: beside a product of two words LLVM doesn't take it for
    // a lane of the same vector, whose product (three of `pmuludq`) is slower than two of words.
    let high = (u128::from(a_high) << 64).wrapping_mul(u128::from(b_high)) >> 64;
    V128::from_word_pair(a_low.wrapping_mul(b_low), high as u64)
}

/// The sums of the lanes, read signed and clamped to the signed range of 8 bits.
pub fn i8x16_add_sat_s(lhs: V128, rhs: V128) -> V128
    ensures { result ≡ vector.add_sat_s w8 lhs rhs }
{
    on_vectors::binary::<I8x16, _>(lhs, rhs, |x, y| clamped_i8(i16::from(x) + i16::from(y)))
}

/// The sums of the lanes, read unsigned and clamped to the unsigned range of 8 bits.
pub fn i8x16_add_sat_u(lhs: V128, rhs: V128) -> V128
    ensures { result ≡ vector.add_sat_u w8 lhs rhs }
{
    u8::vector_of(u8::lanes_of(lhs).saturating_add(u8::lanes_of(rhs)))
}

/// The sums of the lanes, read signed and clamped to the signed range of 16 bits.
pub fn i16x8_add_sat_s(lhs: V128, rhs: V128) -> V128
    ensures { result ≡ vector.add_sat_s w16 lhs rhs }
{
    on_vectors::binary::<I16x8, _>(lhs, rhs, |x, y| clamped_i16(i32::from(x) + i32::from(y)))
}

/// The sums of the lanes, read unsigned and clamped to the unsigned range of 16 bits.
pub fn i16x8_add_sat_u(lhs: V128, rhs: V128) -> V128
    ensures { result ≡ vector.add_sat_u w16 lhs rhs }
{
    u16::vector_of(u16::lanes_of(lhs).saturating_add(u16::lanes_of(rhs)))
}

/// The differences of the lanes, read signed and clamped to the signed range of 8 bits.
pub fn i8x16_sub_sat_s(lhs: V128, rhs: V128) -> V128
    ensures { result ≡ vector.sub_sat_s w8 lhs rhs }
{
    on_vectors::binary::<I8x16, _>(lhs, rhs, |x, y| clamped_i8(i16::from(x) - i16::from(y)))
}

/// The differences of the lanes, read unsigned and clamped to the unsigned range of 8 bits.
pub fn i8x16_sub_sat_u(lhs: V128, rhs: V128) -> V128
    ensures { result ≡ vector.sub_sat_u w8 lhs rhs }
{
    u8::vector_of(u8::lanes_of(lhs).saturating_sub(u8::lanes_of(rhs)))
}

/// The differences of the lanes, read signed and clamped to the signed range of 16 bits.
pub fn i16x8_sub_sat_s(lhs: V128, rhs: V128) -> V128
    ensures { result ≡ vector.sub_sat_s w16 lhs rhs }
{
    on_vectors::binary::<I16x8, _>(lhs, rhs, |x, y| clamped_i16(i32::from(x) - i32::from(y)))
}

/// The differences of the lanes, read unsigned and clamped to the unsigned range of 16 bits.
pub fn i16x8_sub_sat_u(lhs: V128, rhs: V128) -> V128
    ensures { result ≡ vector.sub_sat_u w16 lhs rhs }
{
    u16::vector_of(u16::lanes_of(lhs).saturating_sub(u16::lanes_of(rhs)))
}

/// The lanes' products as q15 numbers (signed, over 2^15), rounded and clamped to the signed range.
///
/// Twice the upper half of a product and its rounded lower half: each half is one instruction.
pub fn i16x8_q15mulr_sat_s(lhs: V128, rhs: V128) -> V128
    ensures { result ≡ vector.q15mulr_sat_s lhs rhs }
{
    let x = u16::lanes_of(lhs);
    let y = u16::lanes_of(rhs);
    let rounded = (((x * y) >> u16x8::splat(1)) + u16x8::splat(0x2000)) >> u16x8::splat(14);
    u16::vector_of(twice(upper_halves(x, y)) + rounded)
}

// For `i16x8_q15mulr_sat_s`: the lanes, read signed, at twice their width.
#[tactic(auto, using(crate::proofs::SaturationLemmas::extended_at))]
#[inline(always)]
fn sign_copied(items: u16x8) -> u32x8
    ensures lanes { (i : ℕ) → i < 8
        → slice_index result i ≡ cast_unsigned w32 (signed w16 (slice_index items i)) }
{
    let tops = u32x8::splat(0x8000);
    (items.cast::<u32>() ^ tops) - tops
}

// For `i16x8_q15mulr_sat_s`: the upper halves of the products of lanes that are read signed.
#[inline(always)]
fn upper_halves(x: u16x8, y: u16x8) -> u16x8
    ensures lanes { (i : ℕ) → i < 8 → slice_index result i
        ≡ cast_unsigned w32 (signed w16 (slice_index x i)) * cast_unsigned w32
        (signed w16 (slice_index y i)) % 2 ^ 32 / 2 ^ 16 }
{
    let products = sign_copied(x) * sign_copied(y);
    (products >> u32x8::splat(16)).cast::<u16>()
}

/// For `i16x8_q15mulr_sat_s`: twice the lanes, read signed, and the largest number in the place of
/// the one double that doesn't fit, that of 2 to the power 14.
#[tactic(auto, using(crate::proofs::SaturationLemmas::most_at))]
#[inline(always)]
fn twice(items: u16x8) -> u16x8
    ensures lanes { (i : ℕ) → i < 8 → slice_index result i
        ≡ (slice_index items i +
        (if nat_lt ((slice_index items i + 0x8000) % 2 ^ 16) 0xbfff then slice_index items i
        else 0x3fff)) % 2 ^ 16 }
{
    let most = u16x8::splat(0x3fff);
    items + u16::choose_if_less(u16::biased(items), u16::biased(most), items, most)
}

/// The smaller ones of the lanes, read signed.
pub fn i8x16_min_s(lhs: V128, rhs: V128) -> V128
    ensures { result ≡ vector.min_s w8 lhs rhs }
{
    order::smaller_s::<u8>(lhs, rhs)
}

/// The smaller ones of the lanes, read unsigned.
pub fn i8x16_min_u(lhs: V128, rhs: V128) -> V128
    ensures { result ≡ vector.min_u w8 lhs rhs }
{
    order::smaller_u::<u8>(lhs, rhs)
}

/// The smaller ones of the lanes, read signed.
pub fn i16x8_min_s(lhs: V128, rhs: V128) -> V128
    ensures { result ≡ vector.min_s w16 lhs rhs }
{
    order::smaller_s::<u16>(lhs, rhs)
}

/// The smaller ones of the lanes, read unsigned.
pub fn i16x8_min_u(lhs: V128, rhs: V128) -> V128
    ensures { result ≡ vector.min_u w16 lhs rhs }
{
    order::smaller_u::<u16>(lhs, rhs)
}

/// The smaller ones of the lanes, read signed.
pub fn i32x4_min_s(lhs: V128, rhs: V128) -> V128
    ensures { result ≡ vector.min_s w32 lhs rhs }
{
    order::smaller_s::<u32>(lhs, rhs)
}

/// The smaller ones of the lanes, read unsigned.
pub fn i32x4_min_u(lhs: V128, rhs: V128) -> V128
    ensures { result ≡ vector.min_u w32 lhs rhs }
{
    order::smaller_u::<u32>(lhs, rhs)
}

/// The larger ones of the lanes, read signed.
pub fn i8x16_max_s(lhs: V128, rhs: V128) -> V128
    ensures { result ≡ vector.max_s w8 lhs rhs }
{
    order::larger_s::<u8>(lhs, rhs)
}

/// The larger ones of the lanes, read unsigned.
pub fn i8x16_max_u(lhs: V128, rhs: V128) -> V128
    ensures { result ≡ vector.max_u w8 lhs rhs }
{
    order::larger_u::<u8>(lhs, rhs)
}

/// The larger ones of the lanes, read signed.
pub fn i16x8_max_s(lhs: V128, rhs: V128) -> V128
    ensures { result ≡ vector.max_s w16 lhs rhs }
{
    order::larger_s::<u16>(lhs, rhs)
}

/// The larger ones of the lanes, read unsigned.
pub fn i16x8_max_u(lhs: V128, rhs: V128) -> V128
    ensures { result ≡ vector.max_u w16 lhs rhs }
{
    order::larger_u::<u16>(lhs, rhs)
}

/// The larger ones of the lanes, read signed.
pub fn i32x4_max_s(lhs: V128, rhs: V128) -> V128
    ensures { result ≡ vector.max_s w32 lhs rhs }
{
    order::larger_s::<u32>(lhs, rhs)
}

/// The larger ones of the lanes, read unsigned.
pub fn i32x4_max_u(lhs: V128, rhs: V128) -> V128
    ensures { result ≡ vector.max_u w32 lhs rhs }
{
    order::larger_u::<u32>(lhs, rhs)
}

/// The averages of the lanes, read unsigned, halves rounded up.
pub fn i8x16_avgr_u(lhs: V128, rhs: V128) -> V128
    ensures { result ≡ vector.avgr_u w8 lhs rhs }
{
    words::averages::<u8>(lhs, rhs)
}

/// The averages of the lanes, read unsigned, halves rounded up.
pub fn i16x8_avgr_u(lhs: V128, rhs: V128) -> V128
    ensures { result ≡ vector.avgr_u w16 lhs rhs }
{
    words::averages::<u16>(lhs, rhs)
}

// Comparisons.

/// All ones in the lanes that are equal, else all zeros.
pub fn i8x16_eq(lhs: V128, rhs: V128) -> V128
    ensures { result ≡ vector.eq w8 lhs rhs }
{
    words::equal::<u8>(lhs, rhs)
}

/// All ones in the lanes that are equal, else all zeros.
pub fn i16x8_eq(lhs: V128, rhs: V128) -> V128
    ensures { result ≡ vector.eq w16 lhs rhs }
{
    words::equal::<u16>(lhs, rhs)
}

/// All ones in the lanes that are equal, else all zeros.
pub fn i32x4_eq(lhs: V128, rhs: V128) -> V128
    ensures { result ≡ vector.eq w32 lhs rhs }
{
    words::equal::<u32>(lhs, rhs)
}

/// All ones in the lanes that are equal, else all zeros.
pub fn i64x2_eq(lhs: V128, rhs: V128) -> V128
    ensures { result ≡ vector.eq w64 lhs rhs }
{
    let (a_low, a_high) = lhs.words();
    let (b_low, b_high) = rhs.words();
    V128::from_word_pair(ones_if_equal(a_low, b_low), ones_if_equal(a_high, b_high))
}

/// All ones in the lanes that are different, else all zeros.
pub fn i8x16_ne(lhs: V128, rhs: V128) -> V128
    ensures { result ≡ vector.ne w8 lhs rhs }
{
    words::different::<u8>(lhs, rhs)
}

/// All ones in the lanes that are different, else all zeros.
pub fn i16x8_ne(lhs: V128, rhs: V128) -> V128
    ensures { result ≡ vector.ne w16 lhs rhs }
{
    words::different::<u16>(lhs, rhs)
}

/// All ones in the lanes that are different, else all zeros.
pub fn i32x4_ne(lhs: V128, rhs: V128) -> V128
    ensures { result ≡ vector.ne w32 lhs rhs }
{
    words::different::<u32>(lhs, rhs)
}

/// All ones in the lanes that are different, else all zeros.
pub fn i64x2_ne(lhs: V128, rhs: V128) -> V128
    ensures { result ≡ vector.ne w64 lhs rhs }
{
    let (a_low, a_high) = lhs.words();
    let (b_low, b_high) = rhs.words();
    V128::from_word_pair(!ones_if_equal(a_low, b_low), !ones_if_equal(a_high, b_high))
}

// For `i64x2_eq` and `i64x2_ne`: all ones if two words are equal, else 0. They are compared as
// lanes of one bit, of which `word_differ` masks nothing.
#[inline(always)]
fn ones_if_equal(a: u64, b: u64) -> u64
    ensures { result ≡ (if a == b then 2 ^ 64 - 1 else 0) }
{
    if word_differ(a, b, u64::MAX) == 0 {
        u64::MAX
    } else {
        0
    }
}

/// All ones where the lane of `lhs` is less than that of `rhs`, both read signed, else all zeros.
pub fn i8x16_lt_s(lhs: V128, rhs: V128) -> V128
    ensures { result ≡ vector.lt_s w8 lhs rhs }
{
    order::less_s::<u8>(lhs, rhs)
}

/// All ones where the lane of `lhs` is less than that of `rhs`, both read signed, else all zeros.
pub fn i16x8_lt_s(lhs: V128, rhs: V128) -> V128
    ensures { result ≡ vector.lt_s w16 lhs rhs }
{
    order::less_s::<u16>(lhs, rhs)
}

/// All ones where the lane of `lhs` is less than that of `rhs`, both read signed, else all zeros.
pub fn i32x4_lt_s(lhs: V128, rhs: V128) -> V128
    ensures { result ≡ vector.lt_s w32 lhs rhs }
{
    order::less_s::<u32>(lhs, rhs)
}

/// All ones where the lane of `lhs` is less than that of `rhs`, both read signed, else all zeros.
pub fn i64x2_lt_s(lhs: V128, rhs: V128) -> V128
    ensures { result ≡ vector.lt_s w64 lhs rhs }
{
    order::less_s::<u64>(lhs, rhs)
}

/// All ones where the lane of `lhs` is less than that of `rhs`, both read unsigned, else all zeros.
pub fn i8x16_lt_u(lhs: V128, rhs: V128) -> V128
    ensures { result ≡ vector.lt_u w8 lhs rhs }
{
    order::less_u::<u8>(lhs, rhs)
}

/// All ones where the lane of `lhs` is less than that of `rhs`, both read unsigned, else all zeros.
pub fn i16x8_lt_u(lhs: V128, rhs: V128) -> V128
    ensures { result ≡ vector.lt_u w16 lhs rhs }
{
    order::less_u::<u16>(lhs, rhs)
}

/// All ones where the lane of `lhs` is less than that of `rhs`, both read unsigned, else all zeros.
pub fn i32x4_lt_u(lhs: V128, rhs: V128) -> V128
    ensures { result ≡ vector.lt_u w32 lhs rhs }
{
    order::less_u::<u32>(lhs, rhs)
}

/// All ones where the lane of `lhs` is at most that of `rhs`, both read signed, else all zeros.
pub fn i8x16_le_s(lhs: V128, rhs: V128) -> V128
    ensures { result ≡ vector.le_s w8 lhs rhs }
{
    order::at_most_s::<u8>(lhs, rhs)
}

/// All ones where the lane of `lhs` is at most that of `rhs`, both read signed, else all zeros.
pub fn i16x8_le_s(lhs: V128, rhs: V128) -> V128
    ensures { result ≡ vector.le_s w16 lhs rhs }
{
    order::at_most_s::<u16>(lhs, rhs)
}

/// All ones where the lane of `lhs` is at most that of `rhs`, both read signed, else all zeros.
pub fn i32x4_le_s(lhs: V128, rhs: V128) -> V128
    ensures { result ≡ vector.le_s w32 lhs rhs }
{
    order::at_most_s::<u32>(lhs, rhs)
}

/// All ones where the lane of `lhs` is at most that of `rhs`, both read signed, else all zeros.
pub fn i64x2_le_s(lhs: V128, rhs: V128) -> V128
    ensures { result ≡ vector.le_s w64 lhs rhs }
{
    order::at_most_s::<u64>(lhs, rhs)
}

/// All ones where the lane of `lhs` is at most that of `rhs`, both read unsigned, else all zeros.
pub fn i8x16_le_u(lhs: V128, rhs: V128) -> V128
    ensures { result ≡ vector.le_u w8 lhs rhs }
{
    order::at_most_u::<u8>(lhs, rhs)
}

/// All ones where the lane of `lhs` is at most that of `rhs`, both read unsigned, else all zeros.
pub fn i16x8_le_u(lhs: V128, rhs: V128) -> V128
    ensures { result ≡ vector.le_u w16 lhs rhs }
{
    order::at_most_u::<u16>(lhs, rhs)
}

/// All ones where the lane of `lhs` is at most that of `rhs`, both read unsigned, else all zeros.
pub fn i32x4_le_u(lhs: V128, rhs: V128) -> V128
    ensures { result ≡ vector.le_u w32 lhs rhs }
{
    order::at_most_u::<u32>(lhs, rhs)
}

/// All ones where the lane of `lhs` is the greater one, both read signed, else all zeros.
pub fn i8x16_gt_s(lhs: V128, rhs: V128) -> V128
    ensures { result ≡ vector.gt_s w8 lhs rhs }
{
    order::less_s::<u8>(rhs, lhs)
}

/// All ones where the lane of `lhs` is the greater one, both read signed, else all zeros.
pub fn i16x8_gt_s(lhs: V128, rhs: V128) -> V128
    ensures { result ≡ vector.gt_s w16 lhs rhs }
{
    order::less_s::<u16>(rhs, lhs)
}

/// All ones where the lane of `lhs` is the greater one, both read signed, else all zeros.
pub fn i32x4_gt_s(lhs: V128, rhs: V128) -> V128
    ensures { result ≡ vector.gt_s w32 lhs rhs }
{
    order::less_s::<u32>(rhs, lhs)
}

/// All ones where the lane of `lhs` is the greater one, both read signed, else all zeros.
pub fn i64x2_gt_s(lhs: V128, rhs: V128) -> V128
    ensures { result ≡ vector.gt_s w64 lhs rhs }
{
    order::less_s::<u64>(rhs, lhs)
}

/// All ones where the lane of `lhs` is the greater one, both read unsigned, else all zeros.
pub fn i8x16_gt_u(lhs: V128, rhs: V128) -> V128
    ensures { result ≡ vector.gt_u w8 lhs rhs }
{
    order::less_u::<u8>(rhs, lhs)
}

/// All ones where the lane of `lhs` is the greater one, both read unsigned, else all zeros.
pub fn i16x8_gt_u(lhs: V128, rhs: V128) -> V128
    ensures { result ≡ vector.gt_u w16 lhs rhs }
{
    order::less_u::<u16>(rhs, lhs)
}

/// All ones where the lane of `lhs` is the greater one, both read unsigned, else all zeros.
pub fn i32x4_gt_u(lhs: V128, rhs: V128) -> V128
    ensures { result ≡ vector.gt_u w32 lhs rhs }
{
    order::less_u::<u32>(rhs, lhs)
}

/// All ones where the lane of `lhs` is at least that of `rhs`, both read signed, else all zeros.
pub fn i8x16_ge_s(lhs: V128, rhs: V128) -> V128
    ensures { result ≡ vector.ge_s w8 lhs rhs }
{
    order::at_most_s::<u8>(rhs, lhs)
}

/// All ones where the lane of `lhs` is at least that of `rhs`, both read signed, else all zeros.
pub fn i16x8_ge_s(lhs: V128, rhs: V128) -> V128
    ensures { result ≡ vector.ge_s w16 lhs rhs }
{
    order::at_most_s::<u16>(rhs, lhs)
}

/// All ones where the lane of `lhs` is at least that of `rhs`, both read signed, else all zeros.
pub fn i32x4_ge_s(lhs: V128, rhs: V128) -> V128
    ensures { result ≡ vector.ge_s w32 lhs rhs }
{
    order::at_most_s::<u32>(rhs, lhs)
}

/// All ones where the lane of `lhs` is at least that of `rhs`, both read signed, else all zeros.
pub fn i64x2_ge_s(lhs: V128, rhs: V128) -> V128
    ensures { result ≡ vector.ge_s w64 lhs rhs }
{
    order::at_most_s::<u64>(rhs, lhs)
}

/// All ones where the lane of `lhs` is at least that of `rhs`, both read unsigned, else all zeros.
pub fn i8x16_ge_u(lhs: V128, rhs: V128) -> V128
    ensures { result ≡ vector.ge_u w8 lhs rhs }
{
    order::at_most_u::<u8>(rhs, lhs)
}

/// All ones where the lane of `lhs` is at least that of `rhs`, both read unsigned, else all zeros.
pub fn i16x8_ge_u(lhs: V128, rhs: V128) -> V128
    ensures { result ≡ vector.ge_u w16 lhs rhs }
{
    order::at_most_u::<u16>(rhs, lhs)
}

/// All ones where the lane of `lhs` is at least that of `rhs`, both read unsigned, else all zeros.
pub fn i32x4_ge_u(lhs: V128, rhs: V128) -> V128
    ensures { result ≡ vector.ge_u w32 lhs rhs }
{
    order::at_most_u::<u32>(rhs, lhs)
}

// Vectors of one item, one lane of a vector, and bytes chosen by their indices, for which an array is
// slower than `std::simd` (docs/SPEED.md).

/// The item in every lane.
pub fn i8x16_splat(item: i8) -> V128
    ensures { result ≡ vector.splat w8 item }
{
    on_vectors::splat::<I8x16>(item)
}

/// The item in every lane.
pub fn i16x8_splat(item: i16) -> V128
    ensures { result ≡ vector.splat w16 item }
{
    // By a `std::simd` vector: LLVM puts eight plain lanes together by shifts.
    u16::vector_of(u16x8::splat(item.cast_unsigned()))
}

/// The item in every lane.
pub fn i32x4_splat(item: i32) -> V128
    ensures { result ≡ vector.splat w32 item }
{
    on_vectors::splat::<I32x4>(item)
}

/// The item in every lane.
pub fn i64x2_splat(item: i64) -> V128
    ensures { result ≡ vector.splat w64 item }
{
    // By lanes of 32 bits: of one word in two places LLVM makes two stores.
    let items = u32::lanes_of(V128::from_word_pair(item.cast_unsigned(), 0));
    from_bytes(items.shuffle(items, [0, 1, 0, 1]).to_le_bytes())
}

/// One lane, read signed.
pub fn i8x16_extract_lane_s(v: V128, lane: ImmLaneIdx16) -> i32
    ensures { result ≡ vector.extract_lane_s w8 v lane }
{
    i32::from(u8::lane_at(v, lane).cast_signed())
}

/// One lane, read unsigned.
pub fn i8x16_extract_lane_u(v: V128, lane: ImmLaneIdx16) -> u32
    ensures { result ≡ vector.extract_lane_u w8 v lane }
{
    u32::from(u8::lane_at(v, lane))
}

/// One lane, read signed.
pub fn i16x8_extract_lane_s(v: V128, lane: ImmLaneIdx8) -> i32
    ensures { result ≡ vector.extract_lane_s w16 v lane }
{
    i32::from(u16::lane_at(v, lane).cast_signed())
}

/// One lane, read unsigned.
pub fn i16x8_extract_lane_u(v: V128, lane: ImmLaneIdx8) -> u32
    ensures { result ≡ vector.extract_lane_u w16 v lane }
{
    u32::from(u16::lane_at(v, lane))
}

/// One lane, read signed.
pub fn i32x4_extract_lane(v: V128, lane: ImmLaneIdx4) -> i32
    ensures { result ≡ vector.extract_lane_s w32 v lane }
{
    u32::lane_at(v, lane).cast_signed()
}

/// One lane, read signed.
pub fn i64x2_extract_lane(v: V128, lane: ImmLaneIdx2) -> i64
    ensures { result ≡ vector.extract_lane_s w64 v lane }
{
    u64::lane_at(v, lane).cast_signed()
}

/// `v` with the item in one lane.
pub fn i8x16_replace_lane(v: V128, lane: ImmLaneIdx16, item: i8) -> V128
    ensures { result ≡ vector.replace_lane w8 v lane item }
{
    u8::with_lane(v, lane, item.cast_unsigned())
}

/// `v` with the item in one lane.
pub fn i16x8_replace_lane(v: V128, lane: ImmLaneIdx8, item: i16) -> V128
    ensures { result ≡ vector.replace_lane w16 v lane item }
{
    u16::with_lane(v, lane, item.cast_unsigned())
}

/// `v` with the item in one lane.
pub fn i32x4_replace_lane(v: V128, lane: ImmLaneIdx4, item: i32) -> V128
    ensures { result ≡ vector.replace_lane w32 v lane item }
{
    u32::with_lane(v, lane, item.cast_unsigned())
}

/// `v` with the item in one lane.
pub fn i64x2_replace_lane(v: V128, lane: ImmLaneIdx2, item: i64) -> V128
    ensures { result ≡ vector.replace_lane w64 v lane item }
{
    u64::with_lane(v, lane, item.cast_unsigned())
}

/// Lane i is lane `s[i]` of `a`, or lane `s[i] - 16` of `b` where `s[i]` is above 15.
pub fn i8x16_shuffle(a: V128, b: V128, s: [ImmLaneIdx32; 16]) -> V128
    ensures { result ≡ vector.shuffle a b s }
{
    let indices = bytes_of_indices(s);
    let low = picked(bytes_of(a), indices);
    let high = picked(bytes_of(b), indices);
    from_bytes(indices.simd_lt(u8x16::splat(16)).select(low, high))
}

/// Lane i is the lane of `a` at the index that lane i of `s` is, and 0 where that is above 15.
pub fn i8x16_swizzle(a: V128, s: V128) -> V128
    ensures { result ≡ vector.swizzle a s }
{
    // An index above 15 becomes 128 or more, at which the processor's instruction gives 0. LLVM
    // leaves the last mask out, since that instruction reads no other bits.
    let biased = bytes_of(s).simd_min(u8x16::splat(16)) + u8x16::splat(0x70);
    from_bytes(bytes_of(a).swizzle_dyn_within::<16>(biased & u8x16::splat(0x8f)))
}

// For `i8x16_shuffle`: the lanes of `table` at the low four bits of the indices.
#[tactic(auto, using(crate::proofs::ChosenLemmas::choice_by_nibbles))]
#[inline(always)]
fn picked(table: u8x16, indices: u8x16) -> u8x16
    ensures lanes { (i : ℕ) → i < 16
        → slice_index result i ≡ slice_index table (slice_index indices i % 16) }
{
    table.swizzle_dyn_within::<16>(indices & u8x16::splat(15))
}

// For `i8x16_shuffle`: the indices, a byte each.
#[inline(always)]
fn bytes_of_indices(indices: [ImmLaneIdx32; 16]) -> u8x16
    ensures lanes { (i : ℕ) → i < 16 → slice_index result i ≡ slice_index indices i }
    ensures inside { (i : ℕ) → i < 16 → slice_index result i < 32 }
{
    let mut bytes = [0; 16];
    for i in 0..16 {
        bytes[i] = u8::from(indices[i]);
    }
    u8x16::from_array(bytes)
}
