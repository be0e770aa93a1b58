//! The instructions of two operands.
ghost use Rattle.std.specs.Prelude.{◌≡◌, ◌<◌, ◌+◌, ◌*◌, length};
ghost use Rattle.wasmi_c.specs.Instruction.{Leaves, each_of_two, binary_numbered, binary_outcome, binary_result, binary_results, binary_value};

use crate::instruction::list::numbered;
use crate::instruction::numbers::BINARY_INSTRUCTIONS;
use crate::instruction::result::{InstructionResult, Refusal, leave, result_of};
use crate::instruction::rows::by_digit;
use crate::status::DONE;
use wasmi_ops::{BinaryOp, ShiftOp};
use wasmi_raw::{RawVal, ReadAs};
use wasmi_scalar_ops::ScalarBinaryOp;
use wasmi_types::TrapCode;

/// An instruction of two operands.
#[derive(Clone, Copy)]
pub enum Binary {
    /// It takes two items and gives an item. Operands and results of 128 bits take both words.
    Scalar(ScalarBinaryOp),
    /// It takes two vectors and gives a vector.
    Vector(BinaryOp),
    /// It takes a vector and an amount of 32 bits, and gives a vector.
    Shift(ShiftOp),
}

impl Binary {
    #[inline(always)]
    fn apply(self, a: RawVal, b: RawVal) -> Result<RawVal, TrapCode>
        ensures { result ≡ binary_value self a b }
    {
        match self {
            Binary::Scalar(op) => op.apply(a, b),
            Binary::Vector(op) => Ok(op.apply(a.into(), b.into()).into()),
            Binary::Shift(op) => Ok(op.apply(a.into(), b.read_as()).into()),
        }
    }

    // The code of each instruction has its own loop.
    #[inline(always)]
    #[tactic(auto, unfolding(crate::specs::Instruction::each_of_two))]
    fn each(self, a: &[RawVal], b: &[RawVal], results: &mut [InstructionResult]) -> u8
        ensures { Leaves (each_of_two (binary_outcome self) a.now b.now (length results.old))
            results.old results.new result }
    {
        if b.len() != a.len() || results.len() != a.len() {
            return Refusal::LengthsDiffer.into();
        }
        for i in 0..a.len() {
            results[i] = result_of(self.apply(a[i], b[i]));
        }
        DONE
    }
}

/// The instruction that has a number, if there is one.
#[tactic(auto, unfolding(crate::specs::Instruction::binary_numbered))]
pub fn binary_numbered(number: u16) -> Option<Binary>
    ensures { result ≡ binary_numbered number }
{
    numbered(&BINARY_INSTRUCTIONS, number)
}

/// Writes what the instruction of a number gives.
pub fn binary_by_number(number: u16, a: RawVal, b: RawVal, value: &mut RawVal) -> u8
    ensures { Leaves (binary_result number a b) value.old value.new result }
{
    let Some(op) = binary_numbered(number) else {
        return Refusal::Unknown.into();
    };
    leave(op.apply(a, b), value)
}

/// Writes what the instruction of a number gives for each two elements of two arrays, or its trap.
pub fn binary_each(number: u16, a: &[RawVal], b: &[RawVal], results: &mut [InstructionResult]) -> u8
    ensures { Leaves (binary_results number a.now b.now (length results.old))
        results.old results.new result }
{
    // The number is looked at once, and not at each element.
    each_by_digits(number / 16, number % 16, a, b, results)
}

// A row has sixteen numbers: instructions past the last row take an arm more.
fn each_by_digits(
    high: u16,
    low: u16,
    a: &[RawVal],
    b: &[RawVal],
    results: &mut [InstructionResult],
) -> u8
    requires high { high < 4096 }
    requires low { low < 16 }
    ensures outcome { Leaves (binary_results (high * 16 + low) a.now b.now (length results.old))
        results.old results.new result }
{
    match high {
        0 => each_in_row::<0>(low, a, b, results),
        1 => each_in_row::<1>(low, a, b, results),
        2 => each_in_row::<2>(low, a, b, results),
        3 => each_in_row::<3>(low, a, b, results),
        4 => each_in_row::<4>(low, a, b, results),
        5 => each_in_row::<5>(low, a, b, results),
        6 => each_in_row::<6>(low, a, b, results),
        7 => each_in_row::<7>(low, a, b, results),
        8 => each_in_row::<8>(low, a, b, results),
        9 => each_in_row::<9>(low, a, b, results),
        10 => each_in_row::<10>(low, a, b, results),
        _ => Refusal::Unknown.into(),
    }
}

fn each_in_row<const HIGH: u16>(
    low: u16,
    a: &[RawVal],
    b: &[RawVal],
    results: &mut [InstructionResult],
) -> u8
    requires high { HIGH < 4096 }
    requires low { low < 16 }
    ensures outcome { Leaves (binary_results (HIGH * 16 + low) a.now b.now (length results.old))
        results.old results.new result }
{
    by_digit!(low, each_at[HIGH](a, b, results))
}

// The code of each number has its own loop.
#[inline(always)]
fn each_at<const HIGH: u16, const LOW: u16>(
    a: &[RawVal],
    b: &[RawVal],
    results: &mut [InstructionResult],
) -> u8
    requires high { HIGH < 4096 }
    requires low { LOW < 16 }
    ensures outcome { Leaves (binary_results (HIGH * 16 + LOW) a.now b.now (length results.old))
        results.old results.new result }
{
    let Some(op) = binary_numbered(HIGH * 16 + LOW) else {
        return Refusal::Unknown.into();
    };
    op.each(a, b, results)
}
