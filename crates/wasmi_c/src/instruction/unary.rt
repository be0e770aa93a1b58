//! The instructions of one operand.
ghost use Rattle.std.specs.Prelude.{◌≡◌, ◌<◌, ◌+◌, ◌*◌, length};
ghost use Rattle.wasmi_c.specs.Instruction.{Leaves, each_of, unary_numbered, unary_result, unary_results, unary_value};

use crate::instruction::list::numbered;
use crate::instruction::numbers::UNARY_INSTRUCTIONS;
use crate::instruction::result::{Refusal, leave};
use crate::instruction::rows::by_digit;
use crate::status::DONE;
use wasmi_ops::{MakeOp, TestOp, UnaryOp};
use wasmi_raw::RawVal;
use wasmi_scalar_ops::ScalarUnaryOp;

/// An instruction of one operand.
#[derive(Clone, Copy)]
pub enum Unary {
    /// It takes an item and gives an item.
    Scalar(ScalarUnaryOp),
    /// It takes an item and gives a vector.
    Make(MakeOp),
    /// It takes a vector and gives a vector.
    Vector(UnaryOp),
    /// It takes a vector and gives a Boolean or a mask.
    Test(TestOp),
}

impl Unary {
    #[inline(always)]
    fn apply(self, a: RawVal) -> RawVal
        ensures { result ≡ unary_value self a }
    {
        match self {
            Unary::Scalar(op) => op.apply(a),
            Unary::Make(op) => op.apply(a).into(),
            Unary::Vector(op) => op.apply(a.into()).into(),
            Unary::Test(op) => op.apply(a.into()),
        }
    }

    // The code of each instruction has its own loop.
    #[inline(always)]
    #[tactic(auto, using(crate::proofs::InstructionLemmas::arrays), unfolding(crate::specs::Instruction::each_of))]
    fn each(self, a: &[RawVal], values: &mut [RawVal]) -> u8
        ensures { Leaves (each_of (unary_value self) a.now (length values.old))
            values.old values.new result }
    {
        if values.len() != a.len() {
            return Refusal::LengthsDiffer.into();
        }
        for i in 0..a.len() {
            values[i] = self.apply(a[i]);
        }
        DONE
    }
}

/// The instruction that has a number, if there is one.
#[tactic(auto, unfolding(crate::specs::Instruction::unary_numbered))]
pub fn unary_numbered(number: u16) -> Option<Unary>
    ensures { result ≡ unary_numbered number }
{
    numbered(&UNARY_INSTRUCTIONS, number)
}

/// Writes what the instruction of a number gives.
pub fn unary_by_number(number: u16, a: RawVal, value: &mut RawVal) -> u8
    ensures { Leaves (unary_result number a) value.old value.new result }
{
    let Some(op) = unary_numbered(number) else {
        return Refusal::Unknown.into();
    };
    leave(Ok(op.apply(a)), value)
}

/// Writes what the instruction of a number gives for each element of an array.
pub fn unary_each(number: u16, a: &[RawVal], values: &mut [RawVal]) -> u8
    ensures { Leaves (unary_results number a.now (length values.old)) values.old values.new result }
{
    // The number is looked at once, and not at each element.
    each_by_digits(number / 16, number % 16, a, values)
}

// A row has sixteen numbers: instructions past the last row take an arm more.
fn each_by_digits(high: u16, low: u16, a: &[RawVal], values: &mut [RawVal]) -> u8
    requires high { high < 4096 }
    requires low { low < 16 }
    ensures outcome { Leaves (unary_results (high * 16 + low) a.now (length values.old))
        values.old values.new result }
{
    match high {
        0 => each_in_row::<0>(low, a, values),
        1 => each_in_row::<1>(low, a, values),
        2 => each_in_row::<2>(low, a, values),
        3 => each_in_row::<3>(low, a, values),
        _ => Refusal::Unknown.into(),
    }
}

fn each_in_row<const HIGH: u16>(low: u16, a: &[RawVal], values: &mut [RawVal]) -> u8
    requires high { HIGH < 4096 }
    requires low { low < 16 }
    ensures outcome { Leaves (unary_results (HIGH * 16 + low) a.now (length values.old))
        values.old values.new result }
{
    by_digit!(low, each_at[HIGH](a, values))
}

// The code of each number has its own loop.
#[inline(always)]
fn each_at<const HIGH: u16, const LOW: u16>(a: &[RawVal], values: &mut [RawVal]) -> u8
    requires high { HIGH < 4096 }
    requires low { LOW < 16 }
    ensures outcome { Leaves (unary_results (HIGH * 16 + LOW) a.now (length values.old))
        values.old values.new result }
{
    let Some(op) = unary_numbered(HIGH * 16 + LOW) else {
        return Refusal::Unknown.into();
    };
    op.each(a, values)
}
