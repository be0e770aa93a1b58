//! Shifts of lanes of 8, 16 and 32 bits without sign, by an amount modulo their width.
//!
//! The two words of the vector are shifted together, and the bits are masked that would leave their
//! lane. The masks, the low bits of each lane, come from a table for each width.
ghost use Rattle.std.specs.Prelude.{◌≡◌, ◌-◌, ◌^◌, ◌<◌, replicate};
ghost use Rattle.wasmi_types.specs.Numbers.{bits};
ghost use Rattle.wasmi_lanes.specs.Words.{in_each_lane};
ghost use Rattle.wasmi_lanewise.specs.VectorTable as vector;

use std::simd::prelude::*;
use wasmi_lanes::{WordLane, from_u64x2, u64x2_of};
use wasmi_raw::V128;

/// The lanes shifted left, the bits above each lane dropped. `amount` is taken modulo their width.
#[inline(always)]
pub fn shifted_left<T: NarrowLane>(v: V128, amount: u32) -> V128
    ensures { result ≡ vector.shl T.width v amount }
{
    let amount = u64::from(amount % T::BITS);
    let kept = T::shift_masks(amount);
    from_u64x2((u64x2_of(v) & kept) << u64x2::splat(amount))
}

/// The lanes shifted to the right, with zeros. `amount` is taken modulo their width.
#[inline(always)]
pub fn shifted_right<T: NarrowLane>(v: V128, amount: u32) -> V128
    ensures { result ≡ vector.shr_u T.width v amount }
{
    let amount = u64::from(amount % T::BITS);
    let kept = T::shift_masks(amount);
    from_u64x2((u64x2_of(v) >> u64x2::splat(amount)) & kept)
}

/// A lane of which a word has more than one, so that a shifted word needs a mask.
pub trait NarrowLane: WordLane {
    /// The low bits of each lane of two words, all but its highest ones, of which there are
    /// `dropped`. They come from a table: a shift of the highest bits would be made in a general
    /// register, and go from there to a vector register.
    fn shift_masks(dropped: u64) -> u64x2
        requires dropped { dropped < bits Self.width }
        ensures masks { result
            ≡ replicate 2 (in_each_lane Self.width (2 ^ (bits Self.width - dropped) - 1)) };
}

impl NarrowLane for u8 {
    #[inline(always)]
    fn shift_masks(dropped: u64) -> u64x2 {
        u64x2_of(V128::from(LOW_BITS_OF_8[dropped as usize]))
    }
}

impl NarrowLane for u16 {
    #[inline(always)]
    fn shift_masks(dropped: u64) -> u64x2 {
        u64x2_of(V128::from(LOW_BITS_OF_16[dropped as usize]))
    }
}

impl NarrowLane for u32 {
    #[inline(always)]
    fn shift_masks(dropped: u64) -> u64x2 {
        u64x2_of(V128::from(LOW_BITS_OF_32[dropped as usize]))
    }
}

/// In each lane, what is left of a number once so many bits are dropped. The first factor has the
/// lowest bit of each lane.
macro_rules! each_shifted {
    ($ones:literal * $all:literal >> [$($dropped:literal)*]) => {
        [$($ones * ($all >> $dropped)),*]
    };
}

const LOW_BITS_OF_8: [u128; 8] =
    each_shifted!(0x0101_0101_0101_0101_0101_0101_0101_0101 * 0xff >> [0 1 2 3 4 5 6 7]);

const LOW_BITS_OF_16: [u128; 16] = each_shifted!(
    0x0001_0001_0001_0001_0001_0001_0001_0001 * 0xffff >> [0 1 2 3 4 5 6 7 8 9 10 11 12 13 14 15]
);

const LOW_BITS_OF_32: [u128; 32] = each_shifted!(
    0x0000_0001_0000_0001_0000_0001_0000_0001 * 0xffff_ffff >>
    [0 1 2 3 4 5 6 7 8 9 10 11 12 13 14 15 16 17 18 19 20 21 22 23 24 25 26 27 28 29 30 31]
);
