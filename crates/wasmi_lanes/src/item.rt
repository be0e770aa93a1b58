//! The integers that are lanes: how a lane is read as one, and a vector as an array of them.
#![tactic(auto, using(crate::proofs::SimdLaneLemmas::written))]

ghost use Rattle.std.specs.Prelude.{FitsSigned, refl, pos, negsuc, ◌≡◌, ℕ, ◌*◌, ◌^◌, ◌<◌, slice_index_or};
ghost use Rattle.wasmi_types.specs.Numbers.{Width, bits, w8, w16, w32, w64, signed};
ghost use Rattle.std.specs.Int.{cast_unsigned};
ghost use Rattle.wasmi_lanes.specs.Vector.{lane, unsigned, ReadsLanes};
ghost use Rattle.wasmi_lanes.specs.LaneProofs.{unsigned_lanes, signed_lanes};

use crate::simd_lane::{bytes_to_take_out, from_bytes};
use std::simd::prelude::*;
use wasmi_raw::V128;

/// An integer of 8 to 64 bits, as which a lane of its width is read.
pub trait LaneInteger: Copy {
    /// The width of a lane.
    ghost width: { Width };

    /// The item as which a lane's number is read.
    ghost read: { ℕ → Self };

    /// The number of an item.
    ghost image: { Self → ℕ };

    /// The item is in its type's range.
    ghost Fits: { Self → Type 0 };

    /// The item whose bits are all ones.
    const ALL_ONES: Self;

    /// The item whose bits are all zeros.
    const ALL_ZEROS: Self;

    ghost ALL_ONES: { Self };

    ghost ALL_ZEROS: { Self };

    /// The items are those of the lanes of the width.
    ghost laws: { ReadsLanes width read image Fits ALL_ONES ALL_ZEROS };
}

/// An integer of which `N` fill a vector.
pub trait LaneItem<const N: usize>: LaneInteger {
    /// Fills `items` with the lanes of a vector, lane 0 first.
    fn read_into(vector: V128, items: &mut [Self; N])
        ensures { (i : ℕ) → i < N
            → slice_index_or items.new i Self.ALL_ZEROS ≡ Self.read (lane Self.width vector i) };

    /// The vector with these lanes, lane 0 first.
    fn write_from(items: &[Self; N]) -> V128
        ensures lanes { (i : ℕ) → i < N
            → slice_index_or items.now i Self.ALL_ZEROS ≡ Self.read (lane Self.width result i) }
        ensures in_range { result < 2 ^ 128 };

    /// `N` lanes make 128 bits.
    ghost filled: { N * bits Self.width ≡ 128 };
}

impl LaneInteger for u8 {
    const ALL_ONES: u8 = u8::MAX;

    const ALL_ZEROS: u8 = 0;

    ghost ALL_ONES = { 255 };

    ghost ALL_ZEROS = { 0 };

    ghost width = { w8 };

    ghost read = { unsigned };

    ghost image = { λ item. item };

    ghost Fits = { λ item. item < 2 ^ 8 };

    ghost laws = { unsigned_lanes w8 };
}

impl LaneItem<16> for u8 {
    ghost filled = { refl };

    #[inline(always)]
    fn read_into(vector: V128, items: &mut [u8; 16]) {
        *items = bytes_to_take_out(vector).to_array();
    }

    #[inline(always)]
    fn write_from(items: &[u8; 16]) -> V128 {
        from_bytes(u8x16::from_array(*items))
    }
}

impl LaneInteger for i8 {
    const ALL_ONES: i8 = -1;

    const ALL_ZEROS: i8 = 0;

    ghost ALL_ONES = { negsuc 0 };

    ghost ALL_ZEROS = { pos 0 };

    ghost width = { w8 };

    ghost read = { signed w8 };

    ghost image = { cast_unsigned w8 };

    ghost Fits = { FitsSigned w8 };

    ghost laws = { signed_lanes w8 };
}

impl LaneItem<16> for i8 {
    ghost filled = { refl };

    #[inline(always)]
    fn read_into(vector: V128, items: &mut [i8; 16]) {
        let mut bits = [0; 16];
        u8::read_into(vector, &mut bits);
        for i in 0..16 {
            items[i] = bits[i].cast_signed();
        }
    }

    #[inline(always)]
    fn write_from(items: &[i8; 16]) -> V128 {
        let mut bits = [0; 16];
        for i in 0..16 {
            bits[i] = items[i].cast_unsigned();
        }
        u8::write_from(&bits)
    }
}

impl LaneInteger for u16 {
    const ALL_ONES: u16 = u16::MAX;

    const ALL_ZEROS: u16 = 0;

    ghost ALL_ONES = { 65535 };

    ghost ALL_ZEROS = { 0 };

    ghost width = { w16 };

    ghost read = { unsigned };

    ghost image = { λ item. item };

    ghost Fits = { λ item. item < 2 ^ 16 };

    ghost laws = { unsigned_lanes w16 };
}

impl LaneItem<8> for u16 {
    ghost filled = { refl };

    #[inline(always)]
    fn read_into(vector: V128, items: &mut [u16; 8]) {
        *items = u16x8::from_le_bytes(bytes_to_take_out(vector)).to_array();
    }

    #[inline(always)]
    fn write_from(items: &[u16; 8]) -> V128 {
        from_bytes(u16x8::from_array(*items).to_le_bytes())
    }
}

impl LaneInteger for i16 {
    const ALL_ONES: i16 = -1;

    const ALL_ZEROS: i16 = 0;

    ghost ALL_ONES = { negsuc 0 };

    ghost ALL_ZEROS = { pos 0 };

    ghost width = { w16 };

    ghost read = { signed w16 };

    ghost image = { cast_unsigned w16 };

    ghost Fits = { FitsSigned w16 };

    ghost laws = { signed_lanes w16 };
}

impl LaneItem<8> for i16 {
    ghost filled = { refl };

    #[inline(always)]
    fn read_into(vector: V128, items: &mut [i16; 8]) {
        *items = i16x8::from_le_bytes(bytes_to_take_out(vector)).to_array();
    }

    #[inline(always)]
    fn write_from(items: &[i16; 8]) -> V128 {
        let mut bits = [0; 8];
        for i in 0..8 {
            bits[i] = items[i].cast_unsigned();
        }
        u16::write_from(&bits)
    }
}

impl LaneInteger for u32 {
    const ALL_ONES: u32 = u32::MAX;

    const ALL_ZEROS: u32 = 0;

    ghost ALL_ONES = { 4294967295 };

    ghost ALL_ZEROS = { 0 };

    ghost width = { w32 };

    ghost read = { unsigned };

    ghost image = { λ item. item };

    ghost Fits = { λ item. item < 2 ^ 32 };

    ghost laws = { unsigned_lanes w32 };
}

impl LaneItem<4> for u32 {
    ghost filled = { refl };

    #[inline(always)]
    fn read_into(vector: V128, items: &mut [u32; 4]) {
        *items = u32x4::from_le_bytes(bytes_to_take_out(vector)).to_array();
    }

    #[inline(always)]
    fn write_from(items: &[u32; 4]) -> V128 {
        from_bytes(u32x4::from_array(*items).to_le_bytes())
    }
}

impl LaneInteger for i32 {
    const ALL_ONES: i32 = -1;

    const ALL_ZEROS: i32 = 0;

    ghost ALL_ONES = { negsuc 0 };

    ghost ALL_ZEROS = { pos 0 };

    ghost width = { w32 };

    ghost read = { signed w32 };

    ghost image = { cast_unsigned w32 };

    ghost Fits = { FitsSigned w32 };

    ghost laws = { signed_lanes w32 };
}

impl LaneItem<4> for i32 {
    ghost filled = { refl };

    #[inline(always)]
    fn read_into(vector: V128, items: &mut [i32; 4]) {
        *items = i32x4::from_le_bytes(bytes_to_take_out(vector)).to_array();
    }

    #[inline(always)]
    fn write_from(items: &[i32; 4]) -> V128 {
        let mut bits = [0; 4];
        for i in 0..4 {
            bits[i] = items[i].cast_unsigned();
        }
        u32::write_from(&bits)
    }
}

impl LaneInteger for u64 {
    const ALL_ONES: u64 = u64::MAX;

    const ALL_ZEROS: u64 = 0;

    ghost ALL_ONES = { 18446744073709551615 };

    ghost ALL_ZEROS = { 0 };

    ghost width = { w64 };

    ghost read = { unsigned };

    ghost image = { λ item. item };

    ghost Fits = { λ item. item < 2 ^ 64 };

    ghost laws = { unsigned_lanes w64 };
}

impl LaneItem<2> for u64 {
    ghost filled = { refl };

    #[inline(always)]
    fn read_into(vector: V128, items: &mut [u64; 2]) {
        *items = u64x2::from_le_bytes(bytes_to_take_out(vector)).to_array();
    }

    #[inline(always)]
    fn write_from(items: &[u64; 2]) -> V128 {
        from_bytes(u64x2::from_array(*items).to_le_bytes())
    }
}

impl LaneInteger for i64 {
    const ALL_ONES: i64 = -1;

    const ALL_ZEROS: i64 = 0;

    ghost ALL_ONES = { negsuc 0 };

    ghost ALL_ZEROS = { pos 0 };

    ghost width = { w64 };

    ghost read = { signed w64 };

    ghost image = { cast_unsigned w64 };

    ghost Fits = { FitsSigned w64 };

    ghost laws = { signed_lanes w64 };
}

impl LaneItem<2> for i64 {
    ghost filled = { refl };

    #[inline(always)]
    fn read_into(vector: V128, items: &mut [i64; 2]) {
        *items = i64x2::from_le_bytes(bytes_to_take_out(vector)).to_array();
    }

    #[inline(always)]
    fn write_from(items: &[i64; 2]) -> V128 {
        let mut bits = [0; 2];
        for i in 0..2 {
            bits[i] = items[i].cast_unsigned();
        }
        u64::write_from(&bits)
    }
}
