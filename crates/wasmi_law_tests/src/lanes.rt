//! Callers of the laws on lanes: what one lane of a vector or of a word is, numbers that are
//! wrapped to the width of a lane, and one bit of a number that is made of lanes or of tests.
ghost use Rattle.std.specs.Prelude.{◌≡◌, ◌↔◌, ℕ, ℤ, FitsSigned, All, List, map, ◌+◌, ◌-◌, ◌*◌, ◌%◌, ◌^◌, ◌<◌, ◌≤◌, ◌*ℤ◌, ◌+ℤ◌, ◌==◌, nat_lt, nat_le, nat_eq, not, Bool, IsTrue, slice_index, if◌then◌else◌, ◌∷◌, []};
ghost use Rattle.std.specs.Int.{bit_at};
ghost use Rattle.wasmi_types.specs.Numbers.{Width, w8, w16, w32, signed, wrap, clamp_unsigned};
ghost use Rattle.wasmi_lanes.specs.Vector.{lane};
ghost use Rattle.wasmi_lanes.specs.Words.{field, word_of_lanes};
ghost use Rattle.wasmi_simd.specs.WideningTable.{first_bits, holds_below};

use wasmi_lanes::{ImmLaneIdx16, ImmLaneIdx32, Lanes, U8x16, laws as lane_laws, on_vectors};
use wasmi_lanewise::simd::{i8x16_add, i8x16_gt_u, i8x16_replace_lane, i8x16_shuffle};
use wasmi_raw::V128;
use wasmi_simd::laws as widening_laws;
use wasmi_simd::simd::{
    i8x16_all_true, i8x16_bitmask, i8x16_narrow_i16x8_u, i8x16_shl, i16x8_extadd_pairwise_i8x16_u,
    i16x8_extend_high_i8x16_s, i16x8_extend_high_i8x16_u, i16x8_extend_low_i8x16_s,
    i16x8_extend_low_i8x16_u, i16x8_extmul_high_i8x16_u, i32x4_dot_i16x8_s,
};

/// The number in each lane.
pub fn byte_in_each_lane(number: u8) -> V128
    ensures { (i : ℕ) → i < 16 → lane w8 result i ≡ number }
{
    lane_laws::lanes_of_made_vector();
    on_vectors::splat::<U8x16>(number)
}

/// Signed numbers in the range of a width are read as themselves once each is wrapped to it,
/// whatever the width and however many they are.
#[tactic(auto, using(crate::proofs::LanesLemmas::read_list))]
pub fn wrapped_numbers_are_read()
    ensures { (w : Width) (numbers : List ℤ) → All (FitsSigned w) numbers
        → map (λ z. signed w (wrap w z)) numbers ≡ numbers }
{
    widening_laws::wrapped_numbers();
}

/// A number in one lane, the other lanes as they were.
pub fn byte_in_one_lane(v: V128, at: ImmLaneIdx16, number: i8) -> V128
    ensures { (i : ℕ) → i < 16
        → lane w8 result i ≡ (if i == at then wrap w8 number else lane w8 v i) }
{
    lane_laws::lanes_of_made_vector();
    i8x16_replace_lane(v, at, number)
}

/// The bytes of two vectors at 16 indices: the second vector's are counted on from 16.
pub fn chosen_bytes(a: V128, b: V128, indices: [ImmLaneIdx32; 16]) -> V128
    ensures { (i : ℕ) → i < 16 → lane w8 result i
        ≡ (if nat_lt (slice_index indices i) 16 then lane w8 a
        (slice_index indices i) else lane w8 b (slice_index indices i - 16)) % 2 ^ 8 }
{
    lane_laws::lanes_of_made_vector();
    i8x16_shuffle(a, b, indices)
}

/// The item of the lane of a number, for any number.
pub fn item_at<L: Lanes>(lanes: L, number: u8) -> Option<L::Item>
    ensures there { number < L.LANES → result ≡ Some (L.item lanes number) }
    ensures absent { L.LANES ≤ number → result ≡ None }
{
    match L::LaneIdx::try_from(number) {
        Ok(index) => Some(lanes.extract_lane(index)),
        Err(_) => None,
    }
}

/// Lanes that were a vector twice are the same.
pub fn lanes_of_vector_of_lanes<L: Lanes>(lanes: L) -> L
    ensures { (i : ℕ) → i < L.LANES → L.item result i ≡ L.item lanes i }
{
    let once = lane_laws::lanes_there_and_back(lanes);
    lane_laws::lanes_there_and_back(once)
}

/// The sums of the bytes of two vectors.
pub fn sums_of_bytes(a: V128, b: V128) -> V128
    ensures { (i : ℕ) → i < 16 → lane w8 result i ≡ (lane w8 a i + lane w8 b i) % 2 ^ 8 }
{
    lane_laws::lanes_of_rows::<U8x16>();
    i8x16_add(a, b)
}

/// All ones in the lanes where the first byte is larger.
pub fn larger_bytes(a: V128, b: V128) -> V128
    ensures { (i : ℕ) → i < 16
        → lane w8 result i ≡ (if nat_lt (lane w8 b i) (lane w8 a i) then 255 else 0) }
{
    lane_laws::lanes_of_rows::<U8x16>();
    i8x16_gt_u(a, b)
}

/// The bytes of a vector, doubled.
pub fn doubled_bytes(v: V128) -> V128
    ensures { (i : ℕ) → i < 16 → lane w8 result i ≡ lane w8 v i * 2 % 2 ^ 8 }
{
    lane_laws::lanes_of_rows::<U8x16>();
    i8x16_shl(v, 1)
}

/// The bytes of the lower half and those of the upper half as numbers of 16 bits: with their signs,
/// and then without.
pub fn extended_bytes(v: V128) -> (V128, V128, V128, V128)
    ensures lower { (i : ℕ) → i < 8 → signed w16 (lane w16 result.0 i) ≡ signed w8 (lane w8 v i) }
    ensures upper { (i : ℕ) → i < 8
        → signed w16 (lane w16 result.1 i) ≡ signed w8 (lane w8 v (8 + i)) }
    ensures lower_unsigned { (i : ℕ) → i < 8 → lane w16 result.2 i ≡ lane w8 v i }
    ensures upper_unsigned { (i : ℕ) → i < 8 → lane w16 result.3 i ≡ lane w8 v (8 + i) }
{
    widening_laws::extended_lanes();
    let (low, high) = (i16x8_extend_low_i8x16_s(v), i16x8_extend_high_i8x16_s(v));
    (
        low,
        high,
        i16x8_extend_low_i8x16_u(v),
        i16x8_extend_high_i8x16_u(v),
    )
}

/// The products of the bytes of the upper halves.
pub fn products_of_upper_bytes(a: V128, b: V128) -> V128
    ensures { (i : ℕ) → i < 8 → lane w16 result i ≡ lane w8 a (8 + i) * lane w8 b (8 + i) % 2 ^ 16 }
{
    widening_laws::lanes_of_halves::<u8>();
    i16x8_extmul_high_i8x16_u(a, b)
}

/// The sums of neighbouring bytes.
pub fn pairwise_sums(v: V128) -> V128
    ensures { (i : ℕ) → i < 8
        → lane w16 result i ≡ (lane w8 v (2 * i) + lane w8 v (2 * i + 1)) % 2 ^ 16 }
{
    widening_laws::pairwise_lanes::<u8>();
    i16x8_extadd_pairwise_i8x16_u(v)
}

/// The products of the signed numbers of two vectors, two at a time, added up at 32 bits.
pub fn sums_of_products(a: V128, b: V128) -> V128
    ensures { (i : ℕ) → i < 4
        → lane w32 result i
        ≡ wrap w32 ((signed w16 (lane w16 a (2 * i)) *ℤ signed w16 (lane w16 b (2 * i))) +ℤ
        (signed w16 (lane w16 a (2 * i + 1)) *ℤ signed w16 (lane w16 b (2 * i + 1)))) }
{
    widening_laws::pairwise_lanes::<i16>();
    i32x4_dot_i16x8_s(a, b)
}

/// The bytes to which the signed numbers of two vectors are clamped, those of the first vector
/// first.
pub fn clamped_to_bytes(a: V128, b: V128) -> V128
    ensures first { (i : ℕ) → i < 8
        → lane w8 result i ≡ clamp_unsigned w8 (signed w16 (lane w16 a i)) % 2 ^ 8 }
    ensures second { (i : ℕ) → i < 8
        → lane w8 result (8 + i) ≡ clamp_unsigned w8 (signed w16 (lane w16 b i)) % 2 ^ 8 }
{
    widening_laws::lanes_of_wide_lanes::<i16>();
    i8x16_narrow_i16x8_u(a, b)
}

/// The signs of the bytes: bit i tells whether byte i is negative.
pub fn signs_of_bytes(v: V128) -> u32
    ensures bit { (i : ℕ) → i < 16
        → bit_at result i ≡ (if nat_le (2 ^ 7) (lane w8 v i) then 1 else 0) }
    ensures below { result < 2 ^ 16 }
{
    widening_laws::bits_of_lanes::<u8>();
    i8x16_bitmask(v)
}

/// Whether 8 bits, made of a test of each number below 8, are all 1: whether the test holds of
/// each.
pub fn are_all_ones(bits: u32) -> bool
    ensures { (test : ℕ → Bool) → bits ≡ first_bits 8 test
        → (IsTrue result ↔ IsTrue (holds_below 8 test)) }
{
    widening_laws::bits_of_lanes::<u8>();
    widening_laws::tests_of_lanes::<u8>();
    bits == 0xff
}

/// Whether no byte is 0.
pub fn has_no_zero_byte(v: V128) -> bool
    ensures { IsTrue result ↔ ((i : ℕ) → i < 16 → IsTrue (not (nat_eq (lane w8 v i) 0))) }
{
    widening_laws::tests_of_lanes::<u8>();
    i8x16_all_true(v)
}

// The highest bits of two lanes of 8 bits, of one of 16 and of one of 32.
const MIXED_TOPS: u64 = 0x8000_0000_8000_8080;

/// Of lanes of 8, 8, 16 and 32 bits: their sums, their differences, and the highest bits of those
/// in which two words differ. A word is also its four lanes of 16 bits.
pub fn of_mixed_lanes(a: u64, b: u64) -> (u64, u64, u64)
    ensures word { a
        ≡ word_of_lanes (λ start width. field start width a) 0 (16 ∷ 16 ∷ 16 ∷ 16 ∷ []) }
    ensures sums { result.0
        ≡ word_of_lanes (λ start width. (field start width a + field start width b) % 2 ^ width) 0
        (8 ∷ 8 ∷ 16 ∷ 32 ∷ []) }
    ensures differences { result.1
        ≡ word_of_lanes
        (λ start width. (field start width a + (2 ^ width - field start width b)) % 2 ^ width) 0
        (8 ∷ 8 ∷ 16 ∷ 32 ∷ []) }
    ensures tops { result.2
        ≡ word_of_lanes
        (λ start width. if field start width a == field start width b then 0 else 2 ^ (width - 1)) 0
        (8 ∷ 8 ∷ 16 ∷ 32 ∷ []) }
{
    lane_laws::word_is_made_of_lanes(a);
    let sums = lane_laws::sums_of_lanes(a, b, MIXED_TOPS);
    let differences = lane_laws::differences_of_lanes(a, b, MIXED_TOPS);
    (
        sums,
        differences,
        lane_laws::tops_of_different_lanes(a, b, MIXED_TOPS),
    )
}
