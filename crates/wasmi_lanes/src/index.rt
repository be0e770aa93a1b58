//! Immediate lane indices: how one is made of a number, and of which numbers of lanes there are.
ghost use Rattle.std.specs.Prelude.{◌≡◌, ◌<◌, ◌≤◌, ◌*◌, ℕ, Ok, Err, refl};
ghost use Rattle.std.specs.Result.{OkIff};
ghost use Rattle.std.proofs.Common.{rules, inl, inr};
ghost use Rattle.wasmi_types.specs.Numbers.{bits};
ghost use Rattle.wasmi_lanes.specs.Vector.{IsLaneCount};

use crate::item::LaneInteger;
use std::marker::Model;

/// A number that is no index of a lane.
#[derive(Debug, PartialEq, Eq, Drop)]
pub struct OutOfBoundsLaneIdx;

/// The index of one of `N` lanes, from 0 to `N - 1`, lane 0 the lowest. Contracts see the number.
///
/// `N` is 2, 4, 8, 16 or 32: no other number of lanes has an index. The WebAssembly core
/// specification calls it `laneidx`. Upstream: `ImmLaneIdx`, whose `N` is a `u8`.
#[derive(Clone, Copy, Debug, PartialEq, Eq)]
pub struct ImmLaneIdx<const N: usize> {
    index: u8,
}

impl<const N: usize> Model for ImmLaneIdx<N> {
    ghost Value = { ℕ };

    ghost view = { λ lane. lane.index };

    ghost invariant = { λ lane. (lane.index < N) × IsLaneCount N };

    ghost inverse = { λ number. record { index = number } };
}

/// The index of a lane of 64 bits.
pub type ImmLaneIdx2 = ImmLaneIdx<2>;
/// The index of a lane of 32 bits.
pub type ImmLaneIdx4 = ImmLaneIdx<4>;
/// The index of a lane of 16 bits.
pub type ImmLaneIdx8 = ImmLaneIdx<8>;
/// The index of a lane of 8 bits.
pub type ImmLaneIdx16 = ImmLaneIdx<16>;
/// The index of a lane of 8 bits of two vectors, the second counted on from 16.
pub type ImmLaneIdx32 = ImmLaneIdx<32>;

/// A type of lane indices of which there are as many as a vector, or two vectors, have lanes.
pub trait CountsLanes<const N: usize> {
    /// A vector, or two vectors of bytes, have `N` lanes.
    ghost is_lane_count: { IsLaneCount N };
}

impl CountsLanes<2> for ImmLaneIdx2 {
    ghost is_lane_count = { inl refl };
}

impl CountsLanes<4> for ImmLaneIdx4 {
    ghost is_lane_count = { inr (inl refl) };
}

impl CountsLanes<8> for ImmLaneIdx8 {
    ghost is_lane_count = { inr (inr (inl refl)) };
}

impl CountsLanes<16> for ImmLaneIdx16 {
    ghost is_lane_count = { inr (inr (inr (inl refl))) };
}

impl CountsLanes<32> for ImmLaneIdx32 {
    ghost is_lane_count = { inr (inr (inr (inr refl))) };
}

impl<const N: usize> From<ImmLaneIdx<N>> for u8 {
    ghost from_gives = { λ lane number. (number ≡ lane) × (number < N) };

    fn from(lane: ImmLaneIdx<N>) -> u8 {
        lane.index
    }
}

impl<const N: usize> TryFrom<u8> for ImmLaneIdx<N>
where
    ImmLaneIdx<N>: CountsLanes<N>,
{
    type Error = OutOfBoundsLaneIdx;

    ghost try_from_gives = { λ number lane. OkIff lane (number < N) number };

    fn try_from(index: u8) -> Result<Self, OutOfBoundsLaneIdx> {
        if usize::from(index) < N {
            Ok(ImmLaneIdx { index })
        } else {
            Err(OutOfBoundsLaneIdx)
        }
    }
}

/// An index of a lane, which is made of its number and gives it back. Each number below `COUNT`
/// makes an index, no other.
pub trait LaneIndex: Copy + Into<u8> + TryFrom<u8, Error = OutOfBoundsLaneIdx> {
    /// How many lanes there are.
    ghost COUNT: { ℕ };

    /// The number of an index.
    ghost number: { Self → ℕ };

    /// An index gives its number, which is below `COUNT`.
    ghost number_is: { (lane : Self) (n : ℕ) → Self.converts lane n
        → (n ≡ number lane) × (n < COUNT) };

    /// A number that makes an index is that of the index, and below `COUNT`.
    ghost taken: { (n : ℕ) (lane : Self) → Self.try_from_gives n (Ok lane)
        → (number lane ≡ n) × (n < COUNT) };

    /// A number that makes no index is `COUNT` or more.
    ghost refused: { (n : ℕ) (error : _) → Self.try_from_gives n (Err error) → COUNT ≤ n };
}

impl<const N: usize> LaneIndex for ImmLaneIdx<N>
where
    ImmLaneIdx<N>: CountsLanes<N>,
{
    ghost COUNT = { N };

    ghost number = { λ lane. lane };

    ghost number_is = { λ lane n is. is };

    ghost taken = { λ n lane is. Prim.search rules };

    ghost refused = { λ n error is. Prim.search rules };
}

/// An integer with the index of one of its lanes in a vector, which are 128 divided by its width.
pub trait IntoLaneIdx: LaneInteger {
    /// The index of a lane of these integers.
    type LaneIdx: LaneIndex;

    /// As many lanes as there are indices make 128 bits.
    ghost count: { Self.LaneIdx.COUNT * bits Self.width ≡ 128 };
}
