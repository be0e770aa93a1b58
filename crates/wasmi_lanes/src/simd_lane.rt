//! The lanes of a vector as a vector of `std::simd`, its bytes and its words too, and one of the
//! lanes at an index that is known only when the program runs.
ghost use Rattle.std.specs.Prelude.{◌≡◌, ℕ, ◌+◌, ◌-◌, ◌/◌, ◌%◌, ◌^◌, ◌<◌, [], ◌∷◌, nat_lt, slice_index, slice_index_or, if◌then◌else◌};
ghost use Rattle.wasmi_types.specs.Numbers.{bits, w8};
ghost use Rattle.wasmi_lanes.specs.Vector.{lane, lane_count};
ghost use Rattle.wasmi_lanes.specs.Vector as vectors;
ghost use Rattle.std.specs.Simd.Lanes.{number_l};
ghost use Rattle.wasmi_raw.specs.RawVal.{vector_of};

use crate::index::{ImmLaneIdx2, ImmLaneIdx4, ImmLaneIdx8, ImmLaneIdx16, IntoLaneIdx};
use crate::item::{LaneInteger, LaneItem};
use std::simd::prelude::*;
use wasmi_raw::V128;

/// An unsigned integer whose lanes are a vector of `std::simd`.
pub trait SimdLane: LaneInteger {
    /// The lanes that fill a vector.
    type Vector: Copy;

    /// The number of the lane at an index.
    ghost at: { Self.Vector → ℕ → ℕ };

    /// The lanes of a vector.
    fn lanes_of(vector: V128) -> Self::Vector
        ensures lanes { (i : ℕ) → i < lane_count Self.width
            → at result i ≡ lane Self.width vector i };

    /// The vector with these lanes.
    fn vector_of(items: Self::Vector) -> V128
        ensures lanes { (i : ℕ) → i < lane_count Self.width
            → lane Self.width result i ≡ at items i }
        ensures in_range { result < 2 ^ 128 };

    /// The lanes moved by half their range: unsigned, they stand in the order of the signed ones.
    fn biased(items: Self::Vector) -> Self::Vector
        ensures lanes { (i : ℕ) → i < lane_count Self.width
            → at result i ≡ (at items i + 2 ^ (bits Self.width - 1)) % 2 ^ bits Self.width };

    /// The lanes of `chosen` where that of `a` is less than that of `b`, else those of `other`.
    fn choose_if_less(
        a: Self::Vector,
        b: Self::Vector,
        chosen: Self::Vector,
        other: Self::Vector,
    ) -> Self::Vector
        ensures lanes { (i : ℕ) → i < lane_count Self.width
            → at result i ≡ (if nat_lt (at a i) (at b i) then at chosen i else at other i) };
}

impl SimdLane for u8 {
    type Vector = u8x16;

    ghost at = { λ items i. slice_index items i };

    #[inline(always)]
    fn lanes_of(vector: V128) -> u8x16 {
        bytes_of(vector)
    }

    #[inline(always)]
    fn vector_of(items: u8x16) -> V128 {
        from_bytes(items)
    }

    #[tactic(auto, using(crate::proofs::SimdLaneLemmas::biased_8))]
    #[inline(always)]
    fn biased(items: u8x16) -> u8x16 {
        items + u8x16::splat(0x80)
    }

    #[inline(always)]
    fn choose_if_less(a: u8x16, b: u8x16, chosen: u8x16, other: u8x16) -> u8x16 {
        a.simd_lt(b).select(chosen, other)
    }
}

impl SimdLane for u16 {
    type Vector = u16x8;

    ghost at = { λ items i. slice_index items i };

    #[inline(always)]
    fn lanes_of(vector: V128) -> u16x8 {
        u16x8::from_le_bytes(bytes_of(vector))
    }

    #[inline(always)]
    fn vector_of(items: u16x8) -> V128 {
        u16::write_from(&items.to_array())
    }

    #[inline(always)]
    fn biased(items: u16x8) -> u16x8 {
        items + u16x8::splat(0x8000)
    }

    #[inline(always)]
    fn choose_if_less(a: u16x8, b: u16x8, chosen: u16x8, other: u16x8) -> u16x8 {
        a.simd_lt(b).select(chosen, other)
    }
}

impl SimdLane for u32 {
    type Vector = u32x4;

    ghost at = { λ items i. slice_index items i };

    #[inline(always)]
    fn lanes_of(vector: V128) -> u32x4 {
        u32x4::from_le_bytes(bytes_of(vector))
    }

    #[inline(always)]
    fn vector_of(items: u32x4) -> V128 {
        u32::write_from(&items.to_array())
    }

    #[inline(always)]
    fn biased(items: u32x4) -> u32x4 {
        items + u32x4::splat(0x8000_0000)
    }

    #[inline(always)]
    fn choose_if_less(a: u32x4, b: u32x4, chosen: u32x4, other: u32x4) -> u32x4 {
        a.simd_lt(b).select(chosen, other)
    }
}

impl SimdLane for u64 {
    type Vector = u64x2;

    ghost at = { λ items i. slice_index items i };

    #[inline(always)]
    fn lanes_of(vector: V128) -> u64x2 {
        u64x2::from_le_bytes(bytes_of(vector))
    }

    #[inline(always)]
    fn vector_of(items: u64x2) -> V128 {
        u64::write_from(&items.to_array())
    }

    #[inline(always)]
    fn biased(items: u64x2) -> u64x2 {
        items + u64x2::splat(0x8000_0000_0000_0000)
    }

    #[inline(always)]
    fn choose_if_less(a: u64x2, b: u64x2, chosen: u64x2, other: u64x2) -> u64x2 {
        a.simd_lt(b).select(chosen, other)
    }
}

/// The bytes of a vector, the lowest first.
#[inline(always)]
pub fn bytes_of(vector: V128) -> u8x16
    ensures number { number_l (2 ^ 8) result ≡ vector }
    ensures lanes { (i : ℕ) → i < 16 → slice_index_or result i 0 ≡ lane w8 vector i }
{
    let (low, high) = vector.words();
    u64x2::from_array([low, high]).to_le_bytes()
}

/// The bytes of a vector, the lowest first, to be taken out one by one or in lanes.
///
/// The words come together by a shuffle. Of a vector made of them LLVM takes the lowest lane of
/// each word out of the word once more, and inserts it.
#[inline(always)]
pub(crate) fn bytes_to_take_out(vector: V128) -> u8x16
    ensures number { number_l (2 ^ 8) result ≡ vector }
    ensures lanes { (i : ℕ) → i < 16 → slice_index_or result i 0 ≡ lane w8 vector i }
{
    let (low, high) = vector.words();
    let lower = u64x2::from_array([0, low]);
    let upper = u64x2::from_array([high, 0]);
    lower.shuffle(upper, [1, 2]).to_le_bytes()
}

/// The vector of these bytes, the lowest first.
#[inline(always)]
pub fn from_bytes(bytes: u8x16) -> V128
    ensures number { result ≡ number_l (2 ^ 8) bytes }
    ensures lanes { (i : ℕ) → i < 16 → lane w8 result i ≡ slice_index_or bytes i 0 }
    ensures in_range { result < 2 ^ 128 }
{
    let [low, high] = u64x2::from_le_bytes(bytes).to_array();
    V128::from_word_pair(low, high)
}

/// The words of a vector, the lower one first, as one value of the processor's.
#[inline(always)]
pub fn u64x2_of(vector: V128) -> u64x2
    ensures { result ≡ vector % 2 ^ 64 ∷ vector / 2 ^ 64 ∷ [] }
{
    let (low, high) = vector.words();
    u64x2::from_array([low, high])
}

/// The vector of these words, the lower one first.
#[inline(always)]
pub fn from_u64x2(words: u64x2) -> V128
    ensures { (low high : ℕ) → words ≡ low ∷ high ∷ [] → result ≡ vector_of low high }
{
    let [low, high] = words.to_array();
    V128::from_word_pair(low, high)
}

// One lane, at an index that is known only when the program runs.
//
// An array of the lanes would go through memory (docs/SPEED.md): the bytes of a lane are picked by
// their indices, and a lane is put where the number of a lane is the index. What is made of the
// index comes from tables, since what a general register makes has to go to a vector register.

/// An unsigned integer as which one lane of a vector is taken out or put in, at an index that is
/// known only when the program runs. Core specification: `extract_lane`, `replace_lane`.
pub trait VariableLane: IntoLaneIdx {
    /// The lane at an index.
    fn lane_at(vector: V128, at: Self::LaneIdx) -> Self
        ensures { Self.image result ≡ lane Self.width vector (Self.LaneIdx.number at) };

    /// The vector with `item` in the lane at an index.
    fn with_lane(vector: V128, at: Self::LaneIdx, item: Self) -> V128
        ensures { result
            ≡ vectors.with_lane Self.width vector (Self.LaneIdx.number at) (Self.image item) };
}

impl VariableLane for u8 {
    #[inline(always)]
    fn lane_at(vector: V128, at: ImmLaneIdx16) -> u8 {
        let bytes = bytes_at(vector, u32::from(u8::from(at)));
        let [word, ..] = u32x4::from_le_bytes(bytes).to_array();
        (word & 0xff) as u8
    }

    #[inline(always)]
    fn with_lane(vector: V128, at: ImmLaneIdx16, item: u8) -> V128 {
        let numbers = u8x16::from_array([0, 1, 2, 3, 4, 5, 6, 7, 8, 9, 10, 11, 12, 13, 14, 15]);
        let here = numbers.simd_eq(u8x16::splat(u8::from(at)));
        u8::vector_of(here.select(u8x16::splat(item), u8::lanes_of(vector)))
    }
}

impl VariableLane for u16 {
    #[inline(always)]
    fn lane_at(vector: V128, at: ImmLaneIdx8) -> u16 {
        let bytes = bytes_at(vector, BYTES_OF_U16[usize::from(u8::from(at))]);
        let [item, ..] = u16x8::from_le_bytes(bytes).to_array();
        item
    }

    #[inline(always)]
    fn with_lane(vector: V128, at: ImmLaneIdx8, item: u16) -> V128 {
        let numbers = u16x8::from_array([0, 1, 2, 3, 4, 5, 6, 7]);
        let places = u64x2::splat(IN_EACH_U16[usize::from(u8::from(at))]).to_le_bytes();
        let here = numbers.simd_eq(u16x8::from_le_bytes(places));
        u16::vector_of(here.select(u16x8::splat(item), u16::lanes_of(vector)))
    }
}

impl VariableLane for u32 {
    #[inline(always)]
    fn lane_at(vector: V128, at: ImmLaneIdx4) -> u32 {
        let bytes = bytes_at(vector, BYTES_OF_U32[usize::from(u8::from(at))]);
        let [item, ..] = u32x4::from_le_bytes(bytes).to_array();
        item
    }

    #[inline(always)]
    fn with_lane(vector: V128, at: ImmLaneIdx4, item: u32) -> V128 {
        let numbers = u32x4::from_array([0, 1, 2, 3]);
        let here = numbers.simd_eq(u32x4::splat(u32::from(u8::from(at))));
        u32::vector_of(here.select(u32x4::splat(item), u32::lanes_of(vector)))
    }
}

impl VariableLane for u64 {
    #[inline(always)]
    fn lane_at(vector: V128, at: ImmLaneIdx2) -> u64 {
        let (low, high) = vector.words();
        if u8::from(at) == 0 { low } else { high }
    }

    #[inline(always)]
    fn with_lane(vector: V128, at: ImmLaneIdx2, item: u64) -> V128 {
        let numbers = u64x2::from_array([0, 1]);
        let here = numbers.simd_eq(u64x2::splat(u64::from(u8::from(at))));
        u64::vector_of(here.select(u64x2::splat(item), u64::lanes_of(vector)))
    }
}

// The bytes of a vector at the indices that are the bytes of a word.
#[inline(always)]
fn bytes_at(vector: V128, indices: u32) -> u8x16
    requires inside { (i : ℕ) → i < 16 → lane w8 indices i < 16 }
    ensures lanes { (i : ℕ) → i < 16 → slice_index result i ≡ lane w8 vector (lane w8 indices i) }
{
    let places = u32x4::from_array([indices, 0, 0, 0]).to_le_bytes();
    bytes_of(vector).swizzle_dyn_within::<16>(places)
}

// The indices of the two bytes of a lane of 16 bits.
const BYTES_OF_U16: [u32; 8] = [
    0x0100, 0x0302, 0x0504, 0x0706, 0x0908, 0x0b0a, 0x0d0c, 0x0f0e,
];

// The indices of the four bytes of a lane of 32 bits.
const BYTES_OF_U32: [u32; 4] = [0x0302_0100, 0x0706_0504, 0x0b0a_0908, 0x0f0e_0d0c];

// The index of a lane of 16 bits, in each lane.
const IN_EACH_U16: [u64; 8] = [
    0x0000_0000_0000_0000,
    0x0001_0001_0001_0001,
    0x0002_0002_0002_0002,
    0x0003_0003_0003_0003,
    0x0004_0004_0004_0004,
    0x0005_0005_0005_0005,
    0x0006_0006_0006_0006,
    0x0007_0007_0007_0007,
];
