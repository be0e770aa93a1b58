//! What a call of an instruction gives, as C reads it, or why it writes nothing.
ghost use Rattle.std.specs.Prelude.{◌≡◌, MatchResult};
ghost use Rattle.wasmi_types.specs.Trap.{code_number};
ghost use Rattle.wasmi_raw.specs.RawVal.{raw_of_vector};
ghost use Rattle.wasmi_ops.specs.LoadStoreOps.{as_raw};
ghost use Rattle.wasmi_c.specs.declared.status.TheConstants.{DONE};
ghost use Rattle.wasmi_c.specs.Instruction.{Gives, refusal_status, result_of};

use crate::status::{DONE, LENGTHS_DIFFER, NO_LANE, UNKNOWN};
use wasmi_raw::{RawVal, V128};
use wasmi_types::TrapCode;

/// Names the instruction that is found, or returns the refusal's status from the function it is in.
macro_rules! op_or_return {
    ($op:ident, $found:expr) => {
        let $op = match $found {
            Ok(op) => op,
            Err(refusal) => return u8::from(refusal),
        };
    };
}

pub(crate) use op_or_return;

/// Why a call writes nothing.
#[derive(Clone, Copy)]
pub enum Refusal {
    /// The instruction traps.
    Trap(TrapCode),
    /// No lane has the index.
    NoLane,
    /// The arrays differ in length.
    LengthsDiffer,
    /// No instruction has the number.
    Unknown,
}

impl From<Refusal> for u8 {
    ghost from_gives = { λ refusal status. status ≡ refusal_status refusal };

    fn from(refusal: Refusal) -> u8 {
        match refusal {
            Refusal::Trap(code) => u8::from(code),
            Refusal::NoLane => NO_LANE,
            Refusal::LengthsDiffer => LENGTHS_DIFFER,
            Refusal::Unknown => UNKNOWN,
        }
    }
}

/// What an instruction gives for one element of an array.
#[repr(C)]
#[derive(Clone, Copy)]
pub struct InstructionResult {
    /// The value, or 0 if the instruction traps.
    pub value: RawVal,
    /// 0, or the number of the trap.
    pub status: u8,
}

/// The result with a value, or with the number of a trap.
pub fn result_of(given: Result<RawVal, TrapCode>) -> InstructionResult
    ensures { result ≡ result_of given }
{
    let (value, status) = match given {
        Ok(value) => (value, DONE),
        Err(trap) => (RawVal::from_bits64(0), u8::from(trap)),
    };
    InstructionResult { value, status }
}

/// Writes the value that an instruction gives, or nothing if it traps, and returns the status.
pub fn leave(given: Result<RawVal, TrapCode>, value: &mut RawVal) -> u8
    ensures { Gives given value.old value.new result }
{
    match given {
        Ok(new) => {
            // By its words, since LLVM would copy it as a whole through memory.
            value.lo = new.lo;
            value.hi = new.hi;
            DONE
        }
        Err(trap) => u8::from(trap),
    }
}

/// Writes the item that an instruction gives, or nothing if it traps, and returns the status.
#[inline(always)]
pub fn leave_item<T: Copy>(given: Result<T, TrapCode>, value: &mut T) -> u8
    ensures { Gives given value.old value.new result }
{
    match given {
        Ok(new) => {
            *value = new;
            DONE
        }
        Err(trap) => u8::from(trap),
    }
}

/// Writes the vector that an instruction gives, or nothing if it traps, and returns the status.
#[inline(always)]
pub fn leave_vector(given: Result<V128, TrapCode>, value: &mut RawVal) -> u8
    ensures { Gives (as_raw raw_of_vector given) value.old value.new result }
{
    match given {
        Ok(new) => leave(Ok(new.into()), value),
        Err(trap) => u8::from(trap),
    }
}

/// Writes two words.
#[inline(always)]
pub fn leave_pair(given: (i64, i64), lo: &mut i64, hi: &mut i64)
    ensures low { lo.new ≡ given.0 }
    ensures high { hi.new ≡ given.1 }
{
    *lo = given.0;
    *hi = given.1;
}

/// The status of an instruction without a value.
#[inline(always)]
pub fn status_of(given: Result<(), TrapCode>) -> u8
    ensures { MatchResult given (λ _. result ≡ DONE) (λ trap. result ≡ code_number trap) }
{
    match given {
        Ok(()) => DONE,
        Err(trap) => u8::from(trap),
    }
}
