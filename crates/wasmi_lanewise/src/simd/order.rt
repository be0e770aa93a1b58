//! Comparisons of lanes by order, and the smaller or larger of lanes, on vectors of `std::simd`.
//!
//! Lanes that are read signed are moved by half of their range, and then compared as unsigned ones.
ghost use Rattle.std.specs.Prelude.{◌≡◌, ℕ, ◌-◌, ◌^◌, ◌<◌, nat_lt, if◌then◌else◌};
ghost use Rattle.wasmi_types.specs.Numbers.{bits};
ghost use Rattle.wasmi_lanes.specs.Vector.{lane, lane_count};
ghost use Rattle.wasmi_lanewise.specs.VectorTable as vector;

use crate::simd::v128_not;
use wasmi_lanes::SimdLane;
use wasmi_raw::V128;

/// All ones where the lane of `lhs` is less than that of `rhs`, read unsigned, else all zeros.
#[inline(always)]
pub(super) fn less_u<T: SimdLane>(lhs: V128, rhs: V128) -> V128
    ensures { result ≡ vector.lt_u T.width lhs rhs }
{
    ones_if_less::<T>(T::lanes_of(lhs), T::lanes_of(rhs))
}

/// All ones where the lane of `lhs` is at most that of `rhs`, read unsigned, else all zeros.
#[inline(always)]
pub(super) fn at_most_u<T: SimdLane>(lhs: V128, rhs: V128) -> V128
    ensures { result ≡ vector.le_u T.width lhs rhs }
{
    v128_not(less_u::<T>(rhs, lhs))
}

/// All ones where the lane of `lhs` is less than that of `rhs`, read signed, else all zeros.
#[inline(always)]
pub(super) fn less_s<T: SimdLane>(lhs: V128, rhs: V128) -> V128
    ensures { result ≡ vector.lt_s T.width lhs rhs }
{
    ones_if_less::<T>(T::biased(T::lanes_of(lhs)), T::biased(T::lanes_of(rhs)))
}

/// All ones where the lane of `lhs` is at most that of `rhs`, read signed, else all zeros.
#[inline(always)]
pub(super) fn at_most_s<T: SimdLane>(lhs: V128, rhs: V128) -> V128
    ensures { result ≡ vector.le_s T.width lhs rhs }
{
    v128_not(less_s::<T>(rhs, lhs))
}

/// The smaller ones of the lanes, read unsigned.
#[inline(always)]
pub(super) fn smaller_u<T: SimdLane>(lhs: V128, rhs: V128) -> V128
    ensures { result ≡ vector.min_u T.width lhs rhs }
{
    let (a, b) = (T::lanes_of(lhs), T::lanes_of(rhs));
    T::vector_of(T::choose_if_less(b, a, b, a))
}

/// The larger ones of the lanes, read unsigned.
#[inline(always)]
pub(super) fn larger_u<T: SimdLane>(lhs: V128, rhs: V128) -> V128
    ensures { result ≡ vector.max_u T.width lhs rhs }
{
    let (a, b) = (T::lanes_of(lhs), T::lanes_of(rhs));
    T::vector_of(T::choose_if_less(b, a, a, b))
}

/// The smaller ones of the lanes, read signed.
#[inline(always)]
pub(super) fn smaller_s<T: SimdLane>(lhs: V128, rhs: V128) -> V128
    ensures { result ≡ vector.min_s T.width lhs rhs }
{
    let (a, b) = (T::lanes_of(lhs), T::lanes_of(rhs));
    T::vector_of(T::choose_if_less(T::biased(b), T::biased(a), b, a))
}

/// The larger ones of the lanes, read signed.
#[inline(always)]
pub(super) fn larger_s<T: SimdLane>(lhs: V128, rhs: V128) -> V128
    ensures { result ≡ vector.max_s T.width lhs rhs }
{
    let (a, b) = (T::lanes_of(lhs), T::lanes_of(rhs));
    T::vector_of(T::choose_if_less(T::biased(b), T::biased(a), a, b))
}

// All ones where the lane of `a` is less than that of `b`, else all zeros.
#[inline(always)]
fn ones_if_less<T: SimdLane>(a: T::Vector, b: T::Vector) -> V128
    ensures lanes { (i : ℕ) → i < lane_count T.width → lane T.width result i
        ≡ (if nat_lt (T.at a i) (T.at b i) then 2 ^ bits T.width - 1 else 0) }
    ensures in_range { result < 2 ^ 128 }
{
    let ones = T::lanes_of(V128::from_word_pair(u64::MAX, u64::MAX));
    let zeros = T::lanes_of(V128::from_word_pair(0, 0));
    T::vector_of(T::choose_if_less(a, b, ones, zeros))
}
