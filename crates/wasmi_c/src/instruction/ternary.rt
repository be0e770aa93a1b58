//! The instructions of three vectors.
ghost use Rattle.std.specs.Prelude.{◌≡◌, length};
ghost use Rattle.wasmi_c.specs.Instruction.{Leaves, each_of_three, op_numbered, ternary_result, ternary_results, ternary_value};
ghost use Rattle.wasmi_ops.specs.declared.vector.TheConstants.{TERNARIES};

use crate::instruction::list::op_numbered;
use crate::instruction::result::{Refusal, leave};
use crate::status::DONE;
use wasmi_ops::{TERNARIES, TernaryOp};
use wasmi_raw::RawVal;

fn apply(op: TernaryOp, a: RawVal, b: RawVal, c: RawVal) -> RawVal
    ensures { result ≡ ternary_value op a b c }
{
    op.apply(a.into(), b.into(), c.into()).into()
}

/// The instruction that has a number, if there is one.
#[tactic(auto, unfolding(crate::specs::Instruction::op_numbered))]
pub fn ternary_numbered(number: u16) -> Option<TernaryOp>
    ensures { result ≡ op_numbered TERNARIES number }
{
    op_numbered(&TERNARIES, number)
}

/// Writes what the instruction of a number gives.
pub fn ternary_by_number(number: u16, a: RawVal, b: RawVal, c: RawVal, value: &mut RawVal) -> u8
    ensures { Leaves (ternary_result number a b c) value.old value.new result }
{
    let Some(op) = ternary_numbered(number) else {
        return Refusal::Unknown.into();
    };
    leave(Ok(apply(op, a, b, c)), value)
}

/// Writes what the instruction of a number gives for each three elements of three arrays.
pub fn ternary_each(
    number: u16,
    a: &[RawVal],
    b: &[RawVal],
    c: &[RawVal],
    values: &mut [RawVal],
) -> u8
    ensures { Leaves (ternary_results number a.now b.now c.now (length values.old))
        values.old values.new result }
{
    let Some(op) = ternary_numbered(number) else {
        return Refusal::Unknown.into();
    };
    each(op, a, b, c, values)
}

#[tactic(auto, unfolding(crate::specs::Instruction::each_of_three))]
fn each(op: TernaryOp, a: &[RawVal], b: &[RawVal], c: &[RawVal], values: &mut [RawVal]) -> u8
    ensures { Leaves (each_of_three (ternary_value op) a.now b.now c.now (length values.old))
        values.old values.new result }
{
    if b.len() != a.len() || c.len() != a.len() || values.len() != a.len() {
        return Refusal::LengthsDiffer.into();
    }
    for i in 0..a.len() {
        values[i] = apply(op, a[i], b[i], c[i]);
    }
    DONE
}
