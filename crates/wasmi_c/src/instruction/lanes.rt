//! The instructions on one lane, the loads and stores of one among them.
ghost use Rattle.std.specs.Prelude.{◌≡◌, ◌+◌, length};
ghost use Rattle.wasmi_c.specs.Instruction.{Leaves, each_of, each_of_two, extract_result, extract_results, extracted_value, extraction_of, lane_load_of, lane_store_of, load_lane_result, replace_result, replace_results, replaced_value, replacement_of, store_lane_result};

use crate::instruction::list::op_numbered;
use crate::instruction::result::{Refusal, leave, leave_vector, op_or_return, status_of};
use crate::status::DONE;
use wasmi_ops::{
    EXTRACTIONS, ExtractOp, LANE_LOADS, LANE_STORES, LoadLaneOp, REPLACEMENTS, ReplaceOp,
    StoreLaneOp,
};
use wasmi_raw::RawVal;

/// The extraction that has a number, at the lane of an index.
#[tactic(auto, unfolding(crate::specs::Instruction::op_numbered))]
pub fn extraction(number: u16, lane: u8) -> Result<ExtractOp, Refusal>
    ensures { result ≡ extraction_of number lane }
{
    let Some(kind) = op_numbered(&EXTRACTIONS, number) else {
        return Err(Refusal::Unknown);
    };
    kind.on(lane).ok_or(Refusal::NoLane)
}

/// The replacement that has a number, at the lane of an index.
#[tactic(auto, unfolding(crate::specs::Instruction::op_numbered))]
pub fn replacement(number: u16, lane: u8) -> Result<ReplaceOp, Refusal>
    ensures { result ≡ replacement_of number lane }
{
    let Some(kind) = op_numbered(&REPLACEMENTS, number) else {
        return Err(Refusal::Unknown);
    };
    kind.on(lane).ok_or(Refusal::NoLane)
}

/// The load of a lane that has a number, at the lane of an index.
#[tactic(auto, unfolding(crate::specs::Instruction::op_numbered))]
pub fn lane_load(number: u16, lane: u8) -> Result<LoadLaneOp, Refusal>
    ensures { result ≡ lane_load_of number lane }
{
    let Some(kind) = op_numbered(&LANE_LOADS, number) else {
        return Err(Refusal::Unknown);
    };
    kind.on(lane).ok_or(Refusal::NoLane)
}

/// The store of a lane that has a number, at the lane of an index.
#[tactic(auto, unfolding(crate::specs::Instruction::op_numbered))]
pub fn lane_store(number: u16, lane: u8) -> Result<StoreLaneOp, Refusal>
    ensures { result ≡ lane_store_of number lane }
{
    let Some(kind) = op_numbered(&LANE_STORES, number) else {
        return Err(Refusal::Unknown);
    };
    kind.on(lane).ok_or(Refusal::NoLane)
}

#[tactic(auto, unfolding(crate::specs::Instruction::replaced_value))]
fn replaced(op: &ReplaceOp, a: RawVal, item: RawVal) -> RawVal
    ensures { result ≡ replaced_value op.now a item }
{
    op.apply(a.into(), item).into()
}

/// Writes the lane of a vector.
pub fn extract_by_number(number: u16, lane: u8, a: RawVal, value: &mut RawVal) -> u8
    ensures { Leaves (extract_result number lane a) value.old value.new result }
{
    op_or_return!(op, extraction(number, lane));
    leave(Ok(op.apply(a.into())), value)
}

/// Writes the lane of each vector of an array.
pub fn extract_each(number: u16, lane: u8, a: &[RawVal], values: &mut [RawVal]) -> u8
    ensures { Leaves (extract_results number lane a.now (length values.old))
        values.old values.new result }
{
    op_or_return!(op, extraction(number, lane));
    extract_each_by_op(&op, a, values)
}

#[tactic(auto, using(crate::proofs::InstructionLemmas::arrays), unfolding(crate::specs::Instruction::each_of))]
fn extract_each_by_op(op: &ExtractOp, a: &[RawVal], values: &mut [RawVal]) -> u8
    ensures { Leaves (each_of (extracted_value op.now) a.now (length values.old))
        values.old values.new result }
{
    if values.len() != a.len() {
        return Refusal::LengthsDiffer.into();
    }
    for i in 0..a.len() {
        values[i] = op.apply(a[i].into());
    }
    DONE
}

/// Writes a vector with a lane replaced by an item.
pub fn replace_by_number(number: u16, lane: u8, a: RawVal, item: RawVal, value: &mut RawVal) -> u8
    ensures { Leaves (replace_result number lane a item) value.old value.new result }
{
    op_or_return!(op, replacement(number, lane));
    leave(Ok(replaced(&op, a, item)), value)
}

/// Writes each vector of an array with a lane replaced by the item at its index.
pub fn replace_each(
    number: u16,
    lane: u8,
    a: &[RawVal],
    items: &[RawVal],
    values: &mut [RawVal],
) -> u8
    ensures { Leaves (replace_results number lane a.now items.now (length values.old))
        values.old values.new result }
{
    op_or_return!(op, replacement(number, lane));
    replace_each_by_op(&op, a, items, values)
}

#[tactic(auto, using(crate::proofs::InstructionLemmas::arrays), unfolding(crate::specs::Instruction::each_of_two))]
fn replace_each_by_op(op: &ReplaceOp, a: &[RawVal], items: &[RawVal], values: &mut [RawVal]) -> u8
    ensures { Leaves (each_of_two (replaced_value op.now) a.now items.now (length values.old))
        values.old values.new result }
{
    if items.len() != a.len() || values.len() != a.len() {
        return Refusal::LengthsDiffer.into();
    }
    for i in 0..a.len() {
        values[i] = replaced(op, a[i], items[i]);
    }
    DONE
}

/// Writes a vector with a lane loaded from `ptr + offset`.
pub fn load_lane(
    number: u16,
    lane: u8,
    memory: &[u8],
    ptr: u64,
    offset: u64,
    a: RawVal,
    value: &mut RawVal,
) -> u8
    ensures { Leaves (load_lane_result number lane memory.now (ptr + offset) a)
        value.old value.new result }
{
    op_or_return!(op, lane_load(number, lane));
    leave_vector(op.load(memory, ptr, offset, a.into()), value)
}

/// Stores a lane of a vector at `ptr + offset`.
pub fn store_lane(number: u16, lane: u8, memory: &mut [u8], ptr: u64, offset: u64, a: RawVal) -> u8
    ensures { Leaves (store_lane_result number lane memory.old (ptr + offset) a)
        memory.old memory.new result }
{
    op_or_return!(op, lane_store(number, lane));
    status_of(op.store(memory, ptr, offset, a.into()))
}
