//! Lanes of 128-bit vectors: lane indices, lane types, and what works on a vector lane by lane.
#![tactic(auto)]

mod index;
mod item;
mod lanes;
pub mod laws;
pub mod on_vectors;
mod simd_lane;
pub mod words;

pub use index::{
    ImmLaneIdx, ImmLaneIdx2, ImmLaneIdx4, ImmLaneIdx8, ImmLaneIdx16, ImmLaneIdx32, IntoLaneIdx,
    LaneIndex, OutOfBoundsLaneIdx,
};
pub use item::{LaneInteger, LaneItem};
pub use lanes::{
    FromNarrow, FromWide, I8x16, I16x8, I32x4, I64x2, IntoLanes, LaneArray, Lanes, Narrower, U8x16,
    U16x8, U32x4, U64x2, clamped_i8, clamped_i16,
};
pub use simd_lane::{SimdLane, VariableLane, bytes_of, from_bytes, from_u64x2, u64x2_of};
pub use words::WordLane;
