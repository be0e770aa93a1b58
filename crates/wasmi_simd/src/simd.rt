//! The vector instructions that widen, narrow, shift or test lanes, the relaxed ones, and what
//! loads of parts of a vector make of a number.
//!
//! Each function is the instruction of its name: `i16x8_extend_low_i8x16_s` is
//! `i16x8.extend_low_i8x16_s`, which makes 8 lanes of 16 bits of 16 lanes of 8 bits; lane 0 is the
//! lowest. Core specification: vector instructions; what each gives stands in
//! `specs/WideningTable.antt`, and for the shifts in `VectorTable` of `wasmi_lanewise`. Upstream:
//! `wasmi_core::simd`. Private functions here make an instruction for each lane type; how such a
//! type takes its lanes at twice their width is in `wide`.
ghost use Rattle.std.specs.Prelude.{◌≡◌, ℕ, ◌*◌, ◌^◌, not, nat_eq, nat_le};
ghost use Rattle.wasmi_types.specs.Numbers.{w8, w16, w32, w64, bits};
ghost use Rattle.wasmi_lanes.specs.Words.{field, lanes_in_word};
ghost use Rattle.wasmi_simd.specs.WideningTable.{first_bits, holds_below};
ghost use Rattle.wasmi_lanewise.specs.VectorTable as lanewise;
ghost use Rattle.wasmi_simd.specs.WideningTable as vector;

mod wide;

use crate::simd::wide::{ExtendedLane, PairedLane};
use std::simd::prelude::*;
use wasmi_lanes::{
    FromWide, I8x16, I16x8, I32x4, I64x2, Lanes, SimdLane, WordLane, bytes_of, clamped_i8,
    clamped_i16, from_bytes, from_u64x2, on_vectors, u64x2_of,
};
use wasmi_lanewise::clamp::{clamped_u8, clamped_u16};
use wasmi_lanewise::shift::{shifted_left, shifted_right};
use wasmi_lanewise::simd::{i8x16_swizzle, i16x8_q15mulr_sat_s, v128_bitselect};
use wasmi_raw::V128;

// Lanes extended to twice their width.

/// The lanes of the lower half, read signed.
pub fn i16x8_extend_low_i8x16_s(v: V128) -> V128
    ensures { result ≡ vector.extend_low_s w8 w16 v }
{
    extended_low_s::<u8>(v)
}

/// The lanes of the lower half, read unsigned.
pub fn i16x8_extend_low_i8x16_u(v: V128) -> V128
    ensures { result ≡ vector.extend_low_u w8 w16 v }
{
    extended_low_u::<u8>(v)
}

/// The lanes of the upper half, read signed.
pub fn i16x8_extend_high_i8x16_s(v: V128) -> V128
    ensures { result ≡ vector.extend_high_s w8 w16 v }
{
    extended_high_s::<u8>(v)
}

/// The lanes of the upper half, read unsigned.
pub fn i16x8_extend_high_i8x16_u(v: V128) -> V128
    ensures { result ≡ vector.extend_high_u w8 w16 v }
{
    extended_high_u::<u8>(v)
}

/// The lanes of the lower half, read signed.
pub fn i32x4_extend_low_i16x8_s(v: V128) -> V128
    ensures { result ≡ vector.extend_low_s w16 w32 v }
{
    extended_low_s::<u16>(v)
}

/// The lanes of the lower half, read unsigned.
pub fn i32x4_extend_low_i16x8_u(v: V128) -> V128
    ensures { result ≡ vector.extend_low_u w16 w32 v }
{
    extended_low_u::<u16>(v)
}

/// The lanes of the upper half, read signed.
pub fn i32x4_extend_high_i16x8_s(v: V128) -> V128
    ensures { result ≡ vector.extend_high_s w16 w32 v }
{
    extended_high_s::<u16>(v)
}

/// The lanes of the upper half, read unsigned.
pub fn i32x4_extend_high_i16x8_u(v: V128) -> V128
    ensures { result ≡ vector.extend_high_u w16 w32 v }
{
    extended_high_u::<u16>(v)
}

/// The lanes of the lower half, read signed.
pub fn i64x2_extend_low_i32x4_s(v: V128) -> V128
    ensures { result ≡ vector.extend_low_s w32 w64 v }
{
    extended_low_s::<u32>(v)
}

/// The lanes of the lower half, read unsigned.
pub fn i64x2_extend_low_i32x4_u(v: V128) -> V128
    ensures { result ≡ vector.extend_low_u w32 w64 v }
{
    extended_low_u::<u32>(v)
}

/// The lanes of the upper half, read signed.
pub fn i64x2_extend_high_i32x4_s(v: V128) -> V128
    ensures { result ≡ vector.extend_high_s w32 w64 v }
{
    extended_high_s::<u32>(v)
}

/// The lanes of the upper half, read unsigned.
pub fn i64x2_extend_high_i32x4_u(v: V128) -> V128
    ensures { result ≡ vector.extend_high_u w32 w64 v }
{
    extended_high_u::<u32>(v)
}

/// What `v128.load8x8_s` makes of a number: its 8 lanes of 8 bits, read signed. Upstream's own.
pub fn v128_widen8x8_s(number: u64) -> V128
    ensures { result ≡ vector.widen_s w8 w16 number }
{
    i16x8_extend_low_i8x16_s(V128::from_word_pair(number, 0))
}

/// What `v128.load8x8_u` makes of a number: its 8 lanes of 8 bits, read unsigned. Upstream's own.
pub fn v128_widen8x8_u(number: u64) -> V128
    ensures { result ≡ vector.widen_u w8 w16 number }
{
    i16x8_extend_low_i8x16_u(V128::from_word_pair(number, 0))
}

/// What `v128.load16x4_s` makes of a number: its 4 lanes of 16 bits, read signed. Upstream's own.
pub fn v128_widen16x4_s(number: u64) -> V128
    ensures { result ≡ vector.widen_s w16 w32 number }
{
    i32x4_extend_low_i16x8_s(V128::from_word_pair(number, 0))
}

/// What `v128.load16x4_u` makes of a number: its 4 lanes of 16 bits, read unsigned. Upstream's own.
pub fn v128_widen16x4_u(number: u64) -> V128
    ensures { result ≡ vector.widen_u w16 w32 number }
{
    i32x4_extend_low_i16x8_u(V128::from_word_pair(number, 0))
}

/// What `v128.load32x2_s` makes of a number: its 2 lanes of 32 bits, read signed. Upstream's own.
pub fn v128_widen32x2_s(number: u64) -> V128
    ensures { result ≡ vector.widen_s w32 w64 number }
{
    i64x2_extend_low_i32x4_s(V128::from_word_pair(number, 0))
}

/// What `v128.load32x2_u` makes of a number: its 2 lanes of 32 bits, read unsigned. Upstream's own.
pub fn v128_widen32x2_u(number: u64) -> V128
    ensures { result ≡ vector.widen_u w32 w64 number }
{
    i64x2_extend_low_i32x4_u(V128::from_word_pair(number, 0))
}

/// What `v128.load32_zero` makes of a number: it is lane 0, and the others are 0. Upstream's own.
pub fn v128_low32_zero(number: u32) -> V128
    ensures { result ≡ vector.low_zero w32 number }
{
    v128_low64_zero(u64::from(number))
}

/// What `v128.load64_zero` makes of a number: it is lane 0, and the others are 0. Upstream's own.
pub fn v128_low64_zero(number: u64) -> V128
    ensures { result ≡ vector.low_zero w64 number }
{
    // By lanes of 32 bits: of two words LLVM makes two stores.
    let items = u32::lanes_of(V128::from_word_pair(number, 0));
    u32::vector_of(items.shuffle(u32x4::splat(0), [0, 1, 4, 5]))
}

#[inline(always)]
fn extended_low_s<T: ExtendedLane>(v: V128) -> V128
    ensures { result ≡ vector.extend_low_s T.width T.Wide.width v }
{
    T::Wide::vector_of(T::low_signed(v))
}

#[inline(always)]
fn extended_low_u<T: ExtendedLane>(v: V128) -> V128
    ensures { result ≡ vector.extend_low_u T.width T.Wide.width v }
{
    T::Wide::vector_of(T::low(v))
}

#[inline(always)]
fn extended_high_s<T: ExtendedLane>(v: V128) -> V128
    ensures { result ≡ vector.extend_high_s T.width T.Wide.width v }
{
    T::Wide::vector_of(T::high_signed(v))
}

#[inline(always)]
fn extended_high_u<T: ExtendedLane>(v: V128) -> V128
    ensures { result ≡ vector.extend_high_u T.width T.Wide.width v }
{
    T::Wide::vector_of(T::high(v))
}

// Lanes narrowed to half of their width.

/// The lanes of `low`, then of `high`, read signed, clamped to the signed range of 8 bits.
pub fn i8x16_narrow_i16x8_s(low: V128, high: V128) -> V128
    ensures { result ≡ vector.narrow_s w16 w8 low high }
{
    from_low_high::<I16x8, I8x16, _>(low, high, |x| clamped_i8(x))
}

/// The lanes of `low`, then of `high`, read signed, clamped to the unsigned range of 8 bits.
pub fn i8x16_narrow_i16x8_u(low: V128, high: V128) -> V128
    ensures { result ≡ vector.narrow_u w16 w8 low high }
{
    from_low_high::<I16x8, I8x16, _>(low, high, clamped_u8)
}

/// The lanes of `low`, then of `high`, read signed, clamped to the signed range of 16 bits.
pub fn i16x8_narrow_i32x4_s(low: V128, high: V128) -> V128
    ensures { result ≡ vector.narrow_s w32 w16 low high }
{
    from_low_high::<I32x4, I16x8, _>(low, high, |x| clamped_i16(x))
}

/// The lanes of `low`, then of `high`, read signed, clamped to the unsigned range of 16 bits.
pub fn i16x8_narrow_i32x4_u(low: V128, high: V128) -> V128
    ensures { result ≡ vector.narrow_u w32 w16 low high }
{
    from_low_high::<I32x4, I16x8, _>(low, high, clamped_u16)
}

// The instructions `narrow_*`: applies `f` to the lanes of `low`, then to those of `high`.
#[inline(always)]
fn from_low_high<W: Lanes, L: FromWide<W>, F: Fn(W::Item) -> L::Item>(
    low: V128,
    high: V128,
    f: F,
) -> V128
    requires callable { F.IsAlwaysCallable f }
    ensures lanes { (row : W.Item → ℕ) → ((x : W.Item) (z : L.Item)
        → W.Item.Fits x → L.Item.Fits z → F.post f x z → L.Item.image z ≡ row x)
        → result ≡ vector.from_low_high W.Item.width L.Item.width W.Item.read row low high }
{
    L::from_low_high(W::from_v128(low), W::from_v128(high), f).into_v128()
}

// Products of lanes, of twice their width, and sums of neighbouring lanes and of their products.

/// The products of the lanes of the lower halves, read signed.
pub fn i16x8_extmul_low_i8x16_s(lhs: V128, rhs: V128) -> V128
    ensures { result ≡ vector.extmul_low_s w8 w16 lhs rhs }
{
    products_low_s::<u8>(lhs, rhs)
}

/// The products of the lanes of the lower halves, read unsigned.
pub fn i16x8_extmul_low_i8x16_u(lhs: V128, rhs: V128) -> V128
    ensures { result ≡ vector.extmul_low_u w8 w16 lhs rhs }
{
    products_low_u::<u8>(lhs, rhs)
}

/// The products of the lanes of the upper halves, read signed.
pub fn i16x8_extmul_high_i8x16_s(lhs: V128, rhs: V128) -> V128
    ensures { result ≡ vector.extmul_high_s w8 w16 lhs rhs }
{
    products_high_s::<u8>(lhs, rhs)
}

/// The products of the lanes of the upper halves, read unsigned.
pub fn i16x8_extmul_high_i8x16_u(lhs: V128, rhs: V128) -> V128
    ensures { result ≡ vector.extmul_high_u w8 w16 lhs rhs }
{
    products_high_u::<u8>(lhs, rhs)
}

/// The products of the lanes of the lower halves, read signed.
pub fn i32x4_extmul_low_i16x8_s(lhs: V128, rhs: V128) -> V128
    ensures { result ≡ vector.extmul_low_s w16 w32 lhs rhs }
{
    products_low_s::<u16>(lhs, rhs)
}

/// The products of the lanes of the lower halves, read unsigned.
pub fn i32x4_extmul_low_i16x8_u(lhs: V128, rhs: V128) -> V128
    ensures { result ≡ vector.extmul_low_u w16 w32 lhs rhs }
{
    products_low_u::<u16>(lhs, rhs)
}

/// The products of the lanes of the upper halves, read signed.
pub fn i32x4_extmul_high_i16x8_s(lhs: V128, rhs: V128) -> V128
    ensures { result ≡ vector.extmul_high_s w16 w32 lhs rhs }
{
    products_high_s::<u16>(lhs, rhs)
}

/// The products of the lanes of the upper halves, read unsigned.
pub fn i32x4_extmul_high_i16x8_u(lhs: V128, rhs: V128) -> V128
    ensures { result ≡ vector.extmul_high_u w16 w32 lhs rhs }
{
    products_high_u::<u16>(lhs, rhs)
}

/// The products of the lanes of the lower halves, read signed.
pub fn i64x2_extmul_low_i32x4_s(lhs: V128, rhs: V128) -> V128
    ensures { result ≡ vector.extmul_low_s w32 w64 lhs rhs }
{
    products_low_s::<u32>(lhs, rhs)
}

/// The products of the lanes of the lower halves, read unsigned.
pub fn i64x2_extmul_low_i32x4_u(lhs: V128, rhs: V128) -> V128
    ensures { result ≡ vector.extmul_low_u w32 w64 lhs rhs }
{
    products_low_u::<u32>(lhs, rhs)
}

/// The products of the lanes of the upper halves, read signed.
pub fn i64x2_extmul_high_i32x4_s(lhs: V128, rhs: V128) -> V128
    ensures { result ≡ vector.extmul_high_s w32 w64 lhs rhs }
{
    products_high_s::<u32>(lhs, rhs)
}

/// The products of the lanes of the upper halves, read unsigned.
pub fn i64x2_extmul_high_i32x4_u(lhs: V128, rhs: V128) -> V128
    ensures { result ≡ vector.extmul_high_u w32 w64 lhs rhs }
{
    products_high_u::<u32>(lhs, rhs)
}

/// The sums of neighbouring lanes, read signed.
pub fn i16x8_extadd_pairwise_i8x16_s(v: V128) -> V128
    ensures { result ≡ vector.extadd_pairwise_s w8 w16 v }
{
    neighbours_s::<u8>(v)
}

/// The sums of neighbouring lanes, read unsigned.
pub fn i16x8_extadd_pairwise_i8x16_u(v: V128) -> V128
    ensures { result ≡ vector.extadd_pairwise_u w8 w16 v }
{
    neighbours_u::<u8>(v)
}

/// The sums of neighbouring lanes, read signed.
pub fn i32x4_extadd_pairwise_i16x8_s(v: V128) -> V128
    ensures { result ≡ vector.extadd_pairwise_s w16 w32 v }
{
    neighbours_s::<u16>(v)
}

/// The sums of neighbouring lanes, read unsigned.
pub fn i32x4_extadd_pairwise_i16x8_u(v: V128) -> V128
    ensures { result ≡ vector.extadd_pairwise_u w16 w32 v }
{
    neighbours_u::<u16>(v)
}

/// The sums of the products of neighbouring lanes, read signed, modulo 2 to the power 32.
pub fn i32x4_dot_i16x8_s(lhs: V128, rhs: V128) -> V128
    ensures { result ≡ vector.dot_s w16 w32 lhs rhs }
{
    dots::<u16>(lhs, rhs)
}

/// The sums of the products of neighbouring lanes, both read signed, modulo 2 to the power 16.
pub fn i16x8_relaxed_dot_i8x16_i7x16_s(lhs: V128, rhs: V128) -> V128
    ensures { result ≡ vector.relaxed_dot_s lhs rhs }
{
    dots::<u8>(lhs, rhs)
}

#[inline(always)]
fn products_low_s<T: ExtendedLane>(lhs: V128, rhs: V128) -> V128
    ensures { result ≡ vector.extmul_low_s T.width T.Wide.width lhs rhs }
{
    T::Wide::vector_of(T::products(T::low_signed(lhs), T::low_signed(rhs)))
}

#[inline(always)]
fn products_low_u<T: ExtendedLane>(lhs: V128, rhs: V128) -> V128
    ensures { result ≡ vector.extmul_low_u T.width T.Wide.width lhs rhs }
{
    T::Wide::vector_of(T::products(T::low(lhs), T::low(rhs)))
}

#[inline(always)]
fn products_high_s<T: ExtendedLane>(lhs: V128, rhs: V128) -> V128
    ensures { result ≡ vector.extmul_high_s T.width T.Wide.width lhs rhs }
{
    T::Wide::vector_of(T::products(T::high_signed(lhs), T::high_signed(rhs)))
}

#[inline(always)]
fn products_high_u<T: ExtendedLane>(lhs: V128, rhs: V128) -> V128
    ensures { result ≡ vector.extmul_high_u T.width T.Wide.width lhs rhs }
{
    T::Wide::vector_of(T::products(T::high(lhs), T::high(rhs)))
}

#[inline(always)]
fn neighbours_s<T: PairedLane>(v: V128) -> V128
    ensures { result ≡ vector.extadd_pairwise_s T.width T.Wide.width v }
{
    T::Wide::vector_of(T::sums(T::even_signed(v), T::odd_signed(v)))
}

#[inline(always)]
fn neighbours_u<T: PairedLane>(v: V128) -> V128
    ensures { result ≡ vector.extadd_pairwise_u T.width T.Wide.width v }
{
    T::Wide::vector_of(T::sums(T::even(v), T::odd(v)))
}

#[inline(always)]
fn dots<T: PairedLane>(lhs: V128, rhs: V128) -> V128
    ensures { result ≡ vector.dot_s T.width T.Wide.width lhs rhs }
{
    let evens = T::products(T::even_signed(lhs), T::even_signed(rhs));
    let odds = T::products(T::odd_signed(lhs), T::odd_signed(rhs));
    T::Wide::vector_of(T::sums(evens, odds))
}

// Shifts of lanes, by an amount modulo their width.
//
// Without the sign the two words of the vector are shifted together; with the sign it is done lane
// by lane, or for lanes of 8 bits by a shift without sign of lanes moved by half of their range.

/// The lanes shifted to the left, the bits above each lane dropped. `amount` is taken modulo 8.
pub fn i8x16_shl(v: V128, amount: u32) -> V128
    ensures { result ≡ lanewise.shl w8 v amount }
{
    shifted_left::<u8>(v, amount)
}

/// The lanes shifted to the right, the sign copied. `amount` is taken modulo 8.
pub fn i8x16_shr_s(v: V128, amount: u32) -> V128
    ensures { result ≡ lanewise.shr_s w8 v amount }
{
    // What the lanes were moved by is a multiple of what they are divided by.
    let biased = u8::vector_of(u8::biased(u8::lanes_of(v)));
    let shifted = i8x16_shr_u(biased, amount);
    let half = V128::from(HALVES_OF_8[(amount % 8) as usize]);
    from_bytes(bytes_of(shifted) - bytes_of(half))
}

/// The lanes shifted to the right, with zeros. `amount` is taken modulo 8.
pub fn i8x16_shr_u(v: V128, amount: u32) -> V128
    ensures { result ≡ lanewise.shr_u w8 v amount }
{
    shifted_right::<u8>(v, amount)
}

/// The lanes shifted to the left, the bits above each lane dropped. `amount` is taken modulo 16.
pub fn i16x8_shl(v: V128, amount: u32) -> V128
    ensures { result ≡ lanewise.shl w16 v amount }
{
    shifted_left::<u16>(v, amount)
}

/// The lanes shifted to the right, the sign copied. `amount` is taken modulo 16.
pub fn i16x8_shr_s(v: V128, amount: u32) -> V128
    ensures { result ≡ lanewise.shr_s w16 v amount }
{
    on_vectors::unary::<I16x8, _>(v, |x| x.wrapping_shr(amount))
}

/// The lanes shifted to the right, with zeros. `amount` is taken modulo 16.
pub fn i16x8_shr_u(v: V128, amount: u32) -> V128
    ensures { result ≡ lanewise.shr_u w16 v amount }
{
    shifted_right::<u16>(v, amount)
}

/// The lanes shifted to the left, the bits above each lane dropped. `amount` is taken modulo 32.
pub fn i32x4_shl(v: V128, amount: u32) -> V128
    ensures { result ≡ lanewise.shl w32 v amount }
{
    shifted_left::<u32>(v, amount)
}

/// The lanes shifted to the right, the sign copied. `amount` is taken modulo 32.
pub fn i32x4_shr_s(v: V128, amount: u32) -> V128
    ensures { result ≡ lanewise.shr_s w32 v amount }
{
    on_vectors::unary::<I32x4, _>(v, |x| x.wrapping_shr(amount))
}

/// The lanes shifted to the right, with zeros. `amount` is taken modulo 32.
pub fn i32x4_shr_u(v: V128, amount: u32) -> V128
    ensures { result ≡ lanewise.shr_u w32 v amount }
{
    shifted_right::<u32>(v, amount)
}

/// The lanes shifted to the left, the bits above each lane dropped. `amount` is taken modulo 64.
pub fn i64x2_shl(v: V128, amount: u32) -> V128
    ensures { result ≡ lanewise.shl w64 v amount }
{
    from_u64x2(u64x2_of(v) << u64x2::splat(u64::from(amount % 64)))
}

/// The lanes shifted to the right, the sign copied. `amount` is taken modulo 64.
pub fn i64x2_shr_s(v: V128, amount: u32) -> V128
    ensures { result ≡ lanewise.shr_s w64 v amount }
{
    on_vectors::unary::<I64x2, _>(v, |x| x.wrapping_shr(amount))
}

/// The lanes shifted to the right, with zeros. `amount` is taken modulo 64.
pub fn i64x2_shr_u(v: V128, amount: u32) -> V128
    ensures { result ≡ lanewise.shr_u w64 v amount }
{
    from_u64x2(u64x2_of(v) >> u64x2::splat(u64::from(amount % 64)))
}

/// Half of the range of 8 bits in each lane, shifted to the right by 0 to 7.
const HALVES_OF_8: [u128; 8] = [
    0x8080_8080_8080_8080_8080_8080_8080_8080,
    0x4040_4040_4040_4040_4040_4040_4040_4040,
    0x2020_2020_2020_2020_2020_2020_2020_2020,
    0x1010_1010_1010_1010_1010_1010_1010_1010,
    0x0808_0808_0808_0808_0808_0808_0808_0808,
    0x0404_0404_0404_0404_0404_0404_0404_0404,
    0x0202_0202_0202_0202_0202_0202_0202_0202,
    0x0101_0101_0101_0101_0101_0101_0101_0101,
];

// Tests of lanes, on the two words of a vector.

/// Whether no lane is 0.
pub fn i8x16_all_true(v: V128) -> bool
    ensures { result ≡ vector.all_true w8 v }
{
    no_zero::<u8>(v)
}

/// Whether no lane is 0.
pub fn i16x8_all_true(v: V128) -> bool
    ensures { result ≡ vector.all_true w16 v }
{
    no_zero::<u16>(v)
}

/// Whether no lane is 0.
pub fn i32x4_all_true(v: V128) -> bool
    ensures { result ≡ vector.all_true w32 v }
{
    no_zero::<u32>(v)
}

/// Whether no lane is 0.
pub fn i64x2_all_true(v: V128) -> bool
    ensures { result ≡ vector.all_true w64 v }
{
    no_zero::<u64>(v)
}

/// Whether some bit is 1.
pub fn v128_any_true(v: V128) -> bool
    ensures { result ≡ vector.any_true v }
{
    v.as_u128() != 0
}

/// The highest bits of the lanes, that of lane i at bit i.
pub fn i8x16_bitmask(v: V128) -> u32
    ensures { result ≡ vector.bitmask w8 v }
{
    let (low, high) = v.words();
    tops_of_8(low) | (tops_of_8(high) << 8)
}

/// The highest bits of the lanes, that of lane i at bit i.
pub fn i16x8_bitmask(v: V128) -> u32
    ensures { result ≡ vector.bitmask w16 v }
{
    let (low, high) = v.words();
    // The product brings each bit to its place in the highest byte.
    let both = ((low & u16::TOPS) >> 4) + (high & u16::TOPS);
    (both.wrapping_mul(0x0000_2000_4000_8001) >> 56) as u32
}

/// The highest bits of the lanes, that of lane i at bit i.
pub fn i32x4_bitmask(v: V128) -> u32
    ensures { result ≡ vector.bitmask w32 v }
{
    let (low, high) = v.words();
    // Bits 0 and 2 have the lanes 0 and 2, bits 32 and 34 the lanes 1 and 3.
    let both = ((low & u32::TOPS) >> 31) + ((high & u32::TOPS) >> 29);
    ((both + (both >> 31)) & 0xf) as u32
}

/// The highest bits of the lanes, that of lane i at bit i.
pub fn i64x2_bitmask(v: V128) -> u32
    ensures { result ≡ vector.bitmask w64 v }
{
    let (low, high) = v.words();
    (low >> 63) as u32 | (((high >> 63) as u32) << 1)
}

#[inline(always)]
fn no_zero<T: WordLane>(v: V128) -> bool
    ensures { result ≡ vector.all_true T.width v }
{
    let (low, high) = v.words();
    no_zero_in_word::<T>(low) & no_zero_in_word::<T>(high)
}

// The lowest lane that is 0 borrows, and gets a highest bit; the lanes above don't matter then.
#[inline(always)]
fn no_zero_in_word<T: WordLane>(word: u64) -> bool
    ensures { result ≡ holds_below (lanes_in_word T.width)
        (λ i. not (nat_eq (field (bits T.width * i) (bits T.width) word) 0)) }
{
    word.wrapping_sub(T::ONES) & !word & T::TOPS == 0
}

// The top bits of a word's lanes of 8 bits: the product brings each to its place in the top byte.
#[inline(always)]
fn tops_of_8(word: u64) -> u32
    ensures { result ≡ first_bits 8 (λ i. nat_le (2 ^ 7) (field (8 * i) 8 word)) }
{
    ((word & u8::TOPS).wrapping_mul(0x0002_0408_1020_4081) >> 56) as u32
}

// The relaxed instructions. Where the standard leaves a choice, each gives what another one gives.

/// As `i8x16_swizzle`: 0 where the index is above 15.
pub fn i8x16_relaxed_swizzle(a: V128, s: V128) -> V128
    ensures { result ≡ vector.relaxed_swizzle a s }
{
    i8x16_swizzle(a, s)
}

/// As `v128_bitselect`: the bits of `a` where `c` has ones, those of `b` where it has zeros.
pub fn i8x16_relaxed_laneselect(a: V128, b: V128, c: V128) -> V128
    ensures { result ≡ vector.relaxed_laneselect a b c }
{
    v128_bitselect(a, b, c)
}

/// As `v128_bitselect`: the bits of `a` where `c` has ones, those of `b` where it has zeros.
pub fn i16x8_relaxed_laneselect(a: V128, b: V128, c: V128) -> V128
    ensures { result ≡ vector.relaxed_laneselect a b c }
{
    v128_bitselect(a, b, c)
}

/// As `v128_bitselect`: the bits of `a` where `c` has ones, those of `b` where it has zeros.
pub fn i32x4_relaxed_laneselect(a: V128, b: V128, c: V128) -> V128
    ensures { result ≡ vector.relaxed_laneselect a b c }
{
    v128_bitselect(a, b, c)
}

/// As `v128_bitselect`: the bits of `a` where `c` has ones, those of `b` where it has zeros.
pub fn i64x2_relaxed_laneselect(a: V128, b: V128, c: V128) -> V128
    ensures { result ≡ vector.relaxed_laneselect a b c }
{
    v128_bitselect(a, b, c)
}

/// As `i16x8_q15mulr_sat_s`: the one product that doesn't fit is clamped.
pub fn i16x8_relaxed_q15mulr_s(a: V128, b: V128) -> V128
    ensures { result ≡ vector.relaxed_q15mulr_s a b }
{
    i16x8_q15mulr_sat_s(a, b)
}

/// The sums of neighbouring lanes of `i16x8_relaxed_dot_i8x16_i7x16_s`, read signed, and of `c`,
/// modulo 2 to the power 32.
pub fn i32x4_relaxed_dot_i8x16_i7x16_add_s(lhs: V128, rhs: V128, c: V128) -> V128
    ensures { result ≡ vector.relaxed_dot_add_s lhs rhs c }
{
    let dot = i16x8_relaxed_dot_i8x16_i7x16_s(lhs, rhs);
    let pairs = i32x4_extadd_pairwise_i16x8_s(dot);
    u32::vector_of(u16::sums(u32::lanes_of(pairs), u32::lanes_of(c)))
}
