//! The shuffle of the bytes of two vectors.
ghost use Rattle.std.specs.Prelude.{◌≡◌};
ghost use Rattle.wasmi_c.specs.Instruction.{Leaves, lanes_of, shuffle_result};

use crate::instruction::result::{Refusal, leave_vector};
use wasmi_lanes::ImmLaneIdx32;
use wasmi_lanewise::simd;
use wasmi_raw::RawVal;

/// The lanes of these indices, if there are such lanes.
pub fn lanes_of(indices: [u8; 16]) -> Option<[ImmLaneIdx32; 16]>
    ensures { result ≡ lanes_of indices }
{
    let mut lanes = [ImmLaneIdx32::try_from(0).ok()?; 16];
    for i in 0..16 {
        lanes[i] = ImmLaneIdx32::try_from(indices[i]).ok()?;
    }
    Some(lanes)
}

/// Writes the bytes of two vectors with these indices: those of `a` are 0 to 15, of `b` 16 to 31.
pub fn shuffle(a: RawVal, b: RawVal, indices: [u8; 16], value: &mut RawVal) -> u8
    ensures { Leaves (shuffle_result a b indices) value.old value.new result }
{
    let Some(lanes) = lanes_of(indices) else {
        return Refusal::NoLane.into();
    };
    leave_vector(Ok(simd::i8x16_shuffle(a.into(), b.into(), lanes)), value)
}
