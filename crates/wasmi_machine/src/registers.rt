//! The registers of a machine, and the vectors that calls make of what is in them.
ghost use Rattle.std.specs.Prelude.{◌≡◌, Some, Ok, slice_get, length};
ghost use Rattle.std.specs.Option.{option_map};
ghost use Rattle.wasmi_raw.specs.RawVal.{raw_of_vector};
ghost use Rattle.wasmi_ops.specs.LoadStoreOps.{as_raw};
ghost use Rattle.wasmi_machine.specs.Effects.{reply_or_no_such};
ghost use Rattle.wasmi_machine.specs.Steps.{MakesVector, vector_given};
ghost use Rattle.wasmi_machine.specs.RegisterEffects.{SetsRegister, given_vector, vector_at};

use crate::calls::{Call, Reply};
use wasmi_lanewise::simd::i8x16_shuffle;
use wasmi_raw::{RawVal, ReadAs, V128};
use wasmi_types::TrapCode;

/// The 16 registers of raw values, by their numbers from 0. At first they are zeros.
#[derive(Default, Drop)]
pub(crate) struct Registers {
    pub(crate) values: [RawVal; 16],
}

impl Registers {
    /// The value of a register, if there is one.
    pub(crate) fn get(&self, register: u8) -> Option<RawVal>
        ensures value { result ≡ slice_get self.now.values register }
        ensures count { length self.now.values ≡ 16 }
    {
        self.values.get(usize::from(register)).copied()
    }

    /// The vector in a register, if there is one.
    pub(crate) fn vector(&self, register: u8) -> Option<V128>
        ensures { result ≡ vector_at self.now.values register }
    {
        self.get(register).map(|raw| raw.read_as())
    }

    /// Sets a register, if there is one.
    pub(crate) fn set(&mut self, dst: u8, value: RawVal) -> Option<Reply>
        ensures { SetsRegister dst (Some (Ok value)) self.old.values (reply_or_no_such result)
            self.new.values }
    {
        let index = usize::from(dst);
        if index >= self.values.len() {
            return None;
        }
        self.values[index] = value;
        Some(Reply::Done)
    }

    /// Sets a register to a vector that was loaded, if a load was made, or keeps it where the load has
    /// trapped.
    #[inline(always)]
    pub(crate) fn set_loaded(
        &mut self,
        dst: u8,
        loaded: Option<Result<V128, TrapCode>>,
    ) -> Option<Reply>
        ensures { SetsRegister dst (option_map (as_raw raw_of_vector) loaded) self.old.values
            (reply_or_no_such result) self.new.values }
    {
        match loaded? {
            Ok(vector) => self.set(dst, vector.into()),
            Err(trap) => self.get(dst).map(|_| Reply::Trap(trap)),
        }
    }

    /// Sets a register to the vector that a call makes of what is in registers, if these are there.
    pub(crate) fn set_made(&mut self, dst: u8, call: &Call) -> Option<Reply>
        requires made { MakesVector call.now }
        ensures set { SetsRegister dst (vector_given self.old.values call.now) self.old.values
            (reply_or_no_such result) self.new.values }
    {
        let vector = self.made_vector(call)?;
        self.set(dst, vector.into())
    }

    /// The vector that a call makes of what is in registers, if these are there.
    #[inline(always)]
    fn made_vector(&self, call: &Call) -> Option<V128>
        requires made { MakesVector call.now }
        ensures vector { option_map given_vector result ≡ vector_given self.now.values call.now }
    {
        match call {
            Call::Make { op, a, .. } => Some(op.apply(self.get(*a)?)),
            Call::Unary { op, a, .. } => Some(op.apply(self.vector(*a)?)),
            Call::Binary { op, a, b, .. } => Some(op.apply(self.vector(*a)?, self.vector(*b)?)),
            Call::Ternary { op, a, b, c, .. } => {
                Some(op.apply(self.vector(*a)?, self.vector(*b)?, self.vector(*c)?))
            }
            Call::Shift { op, a, amount, .. } => Some(op.apply(self.vector(*a)?, *amount)),
            Call::Replace { op, a, item, .. } => Some(op.apply(self.vector(*a)?, self.get(*item)?)),
            Call::Shuffle { a, b, lanes, .. } => {
                Some(i8x16_shuffle(self.vector(*a)?, self.vector(*b)?, *lanes))
            }
            _ => unreachable!(),
        }
    }
}
