//! The loads by their numbers, but for those of one lane.
ghost use Rattle.std.specs.Prelude.{◌≡◌, ◌<◌, ◌+◌, ◌*◌, length};
ghost use Rattle.wasmi_c.specs.Instruction.{Leaves, each_of, load_numbered, load_outcome, load_result, load_results, loaded_value};

use crate::instruction::list::numbered;
use crate::instruction::numbers::{LOAD_INSTRUCTIONS, load_numbers};
use crate::instruction::result::{InstructionResult, Refusal, leave, result_of};
use crate::instruction::rows::{by_digit, part_once};
use crate::status::DONE;
use wasmi_ops::{LoadOp, VectorLoadOp};
use wasmi_raw::RawVal;
use wasmi_types::TrapCode;

/// A load instruction.
#[derive(Clone, Copy)]
pub enum Load {
    /// A load of an item.
    Scalar(LoadOp),
    /// A load of a vector.
    Vector(VectorLoadOp),
}

impl Load {
    #[inline(always)]
    fn load(self, memory: &[u8], ptr: u64, offset: u64) -> Result<RawVal, TrapCode>
        ensures { result ≡ loaded_value self memory.now (ptr + offset) }
    {
        match self {
            Load::Scalar(op) => op.load(memory, ptr, offset),
            Load::Vector(op) => Ok(op.load(memory, ptr, offset)?.into()),
        }
    }

    // The code of each instruction has its own loop.
    #[inline(always)]
    #[tactic(auto, using(crate::proofs::InstructionLemmas::arrays), unfolding(crate::specs::Instruction::each_of, crate::specs::Instruction::load_outcome))]
    fn each(self, memory: &[u8], ptrs: &[u64], offset: u64, results: &mut [InstructionResult]) -> u8
        ensures { Leaves (each_of (load_outcome self memory.now offset) ptrs.now
            (length results.old)) results.old results.new result }
    {
        if results.len() != ptrs.len() {
            return Refusal::LengthsDiffer.into();
        }
        for i in 0..ptrs.len() {
            results[i] = result_of(self.load(memory, ptrs[i], offset));
        }
        DONE
    }
}

/// The load that has a number, if there is one.
#[tactic(auto, unfolding(crate::specs::Instruction::load_numbered))]
pub fn load_numbered(number: u16) -> Option<Load>
    ensures { result ≡ load_numbered number }
{
    numbered(&LOAD_INSTRUCTIONS, number)
}

/// Writes what the load of a number gives from `ptr + offset`.
pub fn load_by_number(number: u16, memory: &[u8], ptr: u64, offset: u64, value: &mut RawVal) -> u8
    ensures { Leaves (load_result number memory.now (ptr + offset)) value.old value.new result }
{
    let Some(op) = load_numbered(number) else {
        return Refusal::Unknown.into();
    };
    leave(load_by_op(op, memory, ptr, offset), value)
}

// Each load has code of its own, so that its result stays in registers.
fn load_by_op(op: Load, memory: &[u8], ptr: u64, offset: u64) -> Result<RawVal, TrapCode>
    ensures { result ≡ loaded_value op memory.now (ptr + offset) }
{
    match op {
        Load::Scalar(op) => load_numbers!(part_once! Scalar [op Load load(memory, ptr, offset)]),
        Load::Vector(op) => load_numbers!(part_once! Vector [op Load load(memory, ptr, offset)]),
    }
}

/// Writes what a number's load gives from each pointer of an array plus the offset, or its trap.
pub fn load_each(
    number: u16,
    memory: &[u8],
    ptrs: &[u64],
    offset: u64,
    results: &mut [InstructionResult],
) -> u8
    ensures { Leaves (load_results number memory.now ptrs.now offset (length results.old))
        results.old results.new result }
{
    // The number is looked at once, and not at each element.
    each_by_digits(number / 16, number % 16, memory, ptrs, offset, results)
}

// A row has sixteen numbers: instructions past the last row take an arm more.
fn each_by_digits(
    high: u16,
    low: u16,
    memory: &[u8],
    ptrs: &[u64],
    offset: u64,
    results: &mut [InstructionResult],
) -> u8
    requires high { high < 4096 }
    requires low { low < 16 }
    ensures outcome { Leaves (load_results (high * 16 + low) memory.now ptrs.now offset
        (length results.old)) results.old results.new result }
{
    match high {
        0 => each_in_row::<0>(low, memory, ptrs, offset, results),
        1 => each_in_row::<1>(low, memory, ptrs, offset, results),
        _ => Refusal::Unknown.into(),
    }
}

fn each_in_row<const HIGH: u16>(
    low: u16,
    memory: &[u8],
    ptrs: &[u64],
    offset: u64,
    results: &mut [InstructionResult],
) -> u8
    requires high { HIGH < 4096 }
    requires low { low < 16 }
    ensures outcome { Leaves (load_results (HIGH * 16 + low) memory.now ptrs.now offset
        (length results.old)) results.old results.new result }
{
    by_digit!(low, each_at[HIGH](memory, ptrs, offset, results))
}

// The code of each number has its own loop.
#[inline(always)]
fn each_at<const HIGH: u16, const LOW: u16>(
    memory: &[u8],
    ptrs: &[u64],
    offset: u64,
    results: &mut [InstructionResult],
) -> u8
    requires high { HIGH < 4096 }
    requires low { LOW < 16 }
    ensures outcome { Leaves (load_results (HIGH * 16 + LOW) memory.now ptrs.now offset
        (length results.old)) results.old results.new result }
{
    let Some(op) = load_numbered(HIGH * 16 + LOW) else {
        return Refusal::Unknown.into();
    };
    op.each(memory, ptrs, offset, results)
}
