//! The instructions on one lane, by two words: a name, and the lane's index.
#![tactic(auto, using(crate::proofs::OpNamesLemmas::lane_ops))]

ghost use Rattle.wasmi_operands.specs.LineWords.{Accepts};
ghost use Rattle.wasmi_operands.specs.Names.{NamesLane};
ghost use Rattle.wasmi_ops.specs.LaneOps as ops;

use crate::error::LineError;
use crate::operand::Operand;
use wasmi_ops::{
    ExtractKind, ExtractOp, LoadLaneKind, LoadLaneOp, ReplaceKind, ReplaceOp, StoreLaneKind,
    StoreLaneOp,
};

/// The extraction of a name and a lane.
pub fn extract_op(name: &str, lane: &str) -> Result<ExtractOp, LineError>
    ensures { Accepts result (NamesLane ops.extract_name ops.extract_op name.now lane.now) }
{
    let kind = ExtractKind::from_word(name)?;
    let index = u8::from_word(lane)?;
    kind.on(index).ok_or(LineError::BadCommand)
}

/// The replacement of a name and a lane.
pub fn replace_op(name: &str, lane: &str) -> Result<ReplaceOp, LineError>
    ensures { Accepts result (NamesLane ops.replace_name ops.replace_op name.now lane.now) }
{
    let kind = ReplaceKind::from_word(name)?;
    let index = u8::from_word(lane)?;
    kind.on(index).ok_or(LineError::BadCommand)
}

/// The load of a lane, of a name and a lane.
pub fn load_lane_op(name: &str, lane: &str) -> Result<LoadLaneOp, LineError>
    ensures { Accepts result (NamesLane ops.load_lane_name ops.load_lane_op name.now lane.now) }
{
    let kind = LoadLaneKind::from_word(name)?;
    let index = u8::from_word(lane)?;
    kind.on(index).ok_or(LineError::BadCommand)
}

/// The store of a lane, of a name and a lane.
pub fn store_lane_op(name: &str, lane: &str) -> Result<StoreLaneOp, LineError>
    ensures { Accepts result (NamesLane ops.store_lane_name ops.store_lane_op name.now lane.now) }
{
    let kind = StoreLaneKind::from_word(name)?;
    let index = u8::from_word(lane)?;
    kind.on(index).ok_or(LineError::BadCommand)
}
