//! The stores by their numbers, but for those of one lane.
ghost use Rattle.std.specs.Prelude.{◌≡◌, ◌+◌};
ghost use Rattle.wasmi_access.specs.LoadStore.{IsStore};
ghost use Rattle.wasmi_c.specs.Instruction.{store_numbered, store_result, stored_value, Leaves};

use crate::instruction::list::numbered;
use crate::instruction::numbers::STORE_INSTRUCTIONS;
use crate::instruction::result::{Refusal, status_of};
use wasmi_ops::StoreOp;
use wasmi_raw::RawVal;
use wasmi_types::TrapCode;
use wasmi_vector_access::simd;

/// A store instruction.
#[derive(Clone, Copy)]
pub enum Store {
    /// A store of an item.
    Scalar(StoreOp),
    /// `v128_store`
    V128Store,
}

impl Store {
    fn store(self, memory: &mut [u8], ptr: u64, offset: u64, value: RawVal) -> Result<(), TrapCode>
        ensures { IsStore memory.old (ptr + offset) (stored_value self value) memory.new result }
    {
        match self {
            Store::Scalar(op) => op.store(memory, ptr, offset, value),
            Store::V128Store => simd::v128_store(memory, ptr, offset, value.into()),
        }
    }
}

/// The store that has a number, if there is one.
#[tactic(auto, unfolding(crate::specs::Instruction::store_numbered))]
pub fn store_numbered(number: u16) -> Option<Store>
    ensures { result ≡ store_numbered number }
{
    numbered(&STORE_INSTRUCTIONS, number)
}

/// Stores a value at `ptr + offset`, by the store that has the number.
pub fn store_by_number(number: u16, memory: &mut [u8], ptr: u64, offset: u64, value: RawVal) -> u8
    ensures { Leaves (store_result number memory.old (ptr + offset) value)
        memory.old memory.new result }
{
    let Some(op) = store_numbered(number) else {
        return Refusal::Unknown.into();
    };
    status_of(op.store(memory, ptr, offset, value))
}
