//! Sums, differences, negatives, equality and averages of lanes in place, on a vector's two words.
//!
//! What is generic in a lane type takes the highest bits of a word's lanes, the tops, from it.
//! Lanes whose highest bit marks them as equal or as different are filled with ones.
ghost use Rattle.std.specs.Prelude.{◌≡◌, ℕ, ◌-◌, ◌%◌, ◌^◌, ◌<◌};
ghost use Rattle.wasmi_raw.specs.RawVal.{vector_of};
ghost use Rattle.wasmi_types.specs.Numbers.{bits};
ghost use Rattle.wasmi_lanes.specs.Words.{field, IsLane, AreMarks, AreFilled, in_each_lane};
ghost use Rattle.wasmi_lanewise.specs.VectorTable as vector;

use crate::simd::v128_not;
use std::simd::prelude::*;
use wasmi_lanes::words::{word_add, word_differ, word_sub};
use wasmi_lanes::{WordLane, from_u64x2};
use wasmi_raw::V128;

// The highest bit of each lane of a word but the last: a sum or a difference needs no top at the
// end of the word, and without it LLVM makes one step of it where a word is one lane.
#[inline(always)]
fn inner_tops<T: WordLane>() -> u64
    ensures { result ≡ in_each_lane T.width (2 ^ (bits T.width - 1)) % 2 ^ 63 }
{
    T::TOPS % (1 << 63)
}

/// The sums of the lanes, modulo 2 to the power of their width.
#[inline(always)]
pub(super) fn sums<T: WordLane>(lhs: V128, rhs: V128) -> V128
    ensures { result ≡ vector.add T.width lhs rhs }
{
    let tops = inner_tops::<T>();
    let (a_low, a_high) = lhs.words();
    let (b_low, b_high) = rhs.words();
    V128::from_word_pair(word_add(a_low, b_low, tops), word_add(a_high, b_high, tops))
}

/// The differences of the lanes, modulo 2 to the power of their width.
/// An operand and the result are inverted twice, as a vector and as words, which changes nothing.
/// LLVM joins the inversions of the words with the masks of `word_sub`, and makes one step less.
#[inline(always)]
pub(super) fn differences<T: WordLane>(lhs: V128, rhs: V128) -> V128
    ensures { result ≡ vector.sub T.width lhs rhs }
{
    let tops = inner_tops::<T>();
    let (a_low, a_high) = v128_not(lhs).words();
    let (b_low, b_high) = rhs.words();
    v128_not(V128::from_word_pair(
        !word_sub(!a_low, b_low, tops),
        !word_sub(!a_high, b_high, tops),
    ))
}

/// The lanes negated, modulo 2 to the power of their width.
/// A lane plus all ones is the lane less 1, whose bits inverted are those of the lane negated.
#[inline(always)]
pub(super) fn negations<T: WordLane>(v: V128) -> V128
    ensures { result ≡ vector.neg T.width v }
{
    let tops = inner_tops::<T>();
    let (low, high) = v.words();
    V128::from_word_pair(
        !word_add(low, u64::MAX, tops),
        !word_add(high, u64::MAX, tops),
    )
}

/// All ones in the lanes that are equal, else all zeros.
#[inline(always)]
pub(super) fn equal<T: WordLane>(lhs: V128, rhs: V128) -> V128
    ensures { result ≡ vector.eq T.width lhs rhs }
{
    let tops = T::TOPS;
    let (a_low, a_high) = lhs.words();
    let (b_low, b_high) = rhs.words();
    filled::<T>(
        word_differ(a_low, b_low, tops) ^ tops,
        word_differ(a_high, b_high, tops) ^ tops,
    )
}

/// All ones in the lanes that are different, else all zeros.
#[inline(always)]
pub(super) fn different<T: WordLane>(lhs: V128, rhs: V128) -> V128
    ensures { result ≡ vector.ne T.width lhs rhs }
{
    let tops = T::TOPS;
    let (a_low, a_high) = lhs.words();
    let (b_low, b_high) = rhs.words();
    filled::<T>(
        word_differ(a_low, b_low, tops),
        word_differ(a_high, b_high, tops),
    )
}

// The vector of two words of which each lane is 0 or its highest bit alone, those with the bit
// filled with ones: twice the bit, which is the bit above the lane, less the lane's lowest. Of
// plain words LLVM would take two vectors a turn of a loop, and regroup words before and after.
#[inline(always)]
fn filled<T: WordLane>(low: u64, high: u64) -> V128
    requires low { AreMarks T.width low }
    requires high { AreMarks T.width high }
    ensures words { (x : ℕ) × (y : ℕ) × (result ≡ vector_of x y) × (x < 2 ^ 64) × (y < 2 ^ 64)
        × AreFilled T.width low x × AreFilled T.width high y }
{
    let marks = u64x2::from_array([low, high]);
    let ones = marks >> u64x2::splat(u64::from(T::BITS - 1));
    from_u64x2((marks + marks) - ones)
}

/// The averages of the lanes, read unsigned, halves rounded up.
#[inline(always)]
pub(super) fn averages<T: WordLane>(lhs: V128, rhs: V128) -> V128
    ensures { result ≡ vector.avgr_u T.width lhs rhs }
{
    let tops = T::TOPS;
    let (a_low, a_high) = lhs.words();
    let (b_low, b_high) = rhs.words();
    V128::from_word_pair(
        word_averages(a_low, b_low, tops),
        word_averages(a_high, b_high, tops),
    )
}

// The averages on a word: common bits and half the others, which never borrow from the lane below.
#[tactic(auto, using(crate::proofs::AverageLemmas::averages))]
#[inline(always)]
fn word_averages(a: u64, b: u64, tops: u64) -> u64
    ensures { (start width : ℕ) → IsLane tops start width
        → field start width result ≡ vector.average (field start width a) (field start width b) }
{
    (a | b) - (((a ^ b) >> 1) & !tops)
}
