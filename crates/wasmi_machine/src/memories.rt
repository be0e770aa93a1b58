//! What calls do to the memories of a machine, by their indices, and the replies to these calls.
ghost use Rattle.std.specs.Prelude.{◌≡◌, ◌+◌, ◌≤◌, Some, length};
ghost use Rattle.wasmi_meter.specs.Limiter.{optional_rules};
ghost use Rattle.wasmi_store.specs.Buffer.{Owned};
ghost use Rattle.wasmi_store.specs.Growth.{metered, WithCharge};
ghost use Rattle.wasmi_store.specs.Memory.{MakesMemory, byte_copy_of, byte_filling_of};
ghost use Rattle.wasmi_raw.specs.RawVal.{raw_of_vector};
ghost use Rattle.wasmi_ops.specs.LoadStoreOps.{as_raw};
ghost use Rattle.wasmi_machine.specs.Effects.{reply_of, reply_or_no_such, Creates, IfNoRoom, WritesRangeAt, WritesAt, WritesFrom};
ghost use Rattle.wasmi_machine.specs.State.{live_at};
ghost use Rattle.std.specs.Option.{option_copied, option_copied_mut, option_map};
ghost use Rattle.wasmi_machine.specs.MemoryEffects.{bytes_of_stored, load_reply, memory_copy_of, CreatesLent, ReadsBytes, ReadsMemoryAt, WritesMemoryAt, StoresMemoryAt, StoresMemory};
ghost use Rattle.wasmi_machine.specs.RegisterEffects.{lane_loaded, vector_loaded};
ghost use Rattle.wasmi_types.specs.Access.{at};

use crate::calls::{ByteList, Reply};
use crate::data::{DataSegment, copy_of_bytes};
use crate::slots::{Slot, Slots};
use std::alloc::Global;
use wasmi_meter::{Fuel, MemoryError, ResourceLimiter};
use wasmi_ops::{LoadLaneOp, LoadOp, StoreLaneOp, StoreOp, VectorLoadOp};
use wasmi_raw::{RawVal, V128};
use wasmi_store::range::lies_within;
use wasmi_store::{Memory, MemoryType};
use wasmi_types::TrapCode;
use wasmi_vector_access::simd::v128_store;

impl<'r> Slots<Memory<'r>> {
    /// Makes a memory in a new slot, which is reserved before the limiter is asked.
    pub(crate) fn create<L: ResourceLimiter>(
        &mut self,
        alloc: Global,
        ty: MemoryType,
        limiter: &mut L,
    ) -> Reply
        ensures made { Creates Reply.Memory
            (MakesMemory (optional_rules L.rules) Owned ty) self.old.slots.items
            (Some limiter.old) result self.new.slots.items (Some limiter.new) }
        ensures room { IfNoRoom result (self.old.slots.reserved ≤ length self.old.slots.items) }
        ensures reserved { self.new.slots.reserved ≡ self.old.slots.reserved }
    {
        if self.slots.try_reserve(1).is_err() {
            return Reply::NoRoom;
        }
        match Memory::new_lending(alloc, ty, limiter) {
            Ok(memory) => Reply::Made(self.push(memory)),
            Err(error) => Reply::Memory(error),
        }
    }

    /// Makes a memory in the spare region, in a new slot, reserved before the limiter is asked.
    pub(crate) fn create_lent<L: ResourceLimiter>(
        &mut self,
        ty: MemoryType,
        spare: &mut Option<&'r mut [u8]>,
        limiter: &mut L,
    ) -> Reply
        ensures made { CreatesLent (optional_rules L.rules) ty
            (record { slots = self.old.slots.items; spare = option_copied_mut spare.old })
            (Some limiter.old) result
            (record { slots = self.new.slots.items; spare = option_copied_mut spare.new })
            (Some limiter.new) }
        ensures room { IfNoRoom result (self.old.slots.reserved ≤ length self.old.slots.items) }
        ensures reserved { self.new.slots.reserved ≡ self.old.slots.reserved }
    {
        let Some(region) = spare.take() else {
            return Reply::NoRegion;
        };
        if self.slots.try_reserve(1).is_ok() {
            match Memory::new_static_lending(ty, limiter, region) {
                Ok(memory) => Reply::Made(self.push(memory)),
                Err(error) => Reply::Memory(error),
            }
        } else {
            *spare = Some(region);
            Reply::NoRoom
        }
    }

    /// Reads bytes of a memory.
    #[inline(always)]
    pub(crate) fn read(
        &self,
        alloc: Global,
        index: usize,
        offset: usize,
        len: usize,
    ) -> Option<Reply>
        ensures { ReadsMemoryAt index offset len self.now.slots.items (reply_or_no_such result) }
    {
        let memory = self.live(index)?;
        Some(bytes_reply(alloc, memory.data(), offset, len))
    }

    /// Loads a number from a memory.
    #[inline(always)]
    pub(crate) fn load(&self, op: LoadOp, index: usize, ptr: u64, offset: u64) -> Option<Reply>
        ensures { reply_or_no_such result
            ≡ load_reply op (ptr + offset) (live_at self.now.slots.items index) }
    {
        let value = op.load(self.live(index)?.data(), ptr, offset);
        Some(value.map_or_else(Reply::Trap, Reply::Value))
    }

    /// Loads a vector from a memory, if the memory is there.
    #[inline(always)]
    pub(crate) fn load_vector(
        &self,
        op: VectorLoadOp,
        index: usize,
        ptr: u64,
        offset: u64,
    ) -> Option<Result<V128, TrapCode>>
        ensures { option_map (as_raw raw_of_vector) result
            ≡ vector_loaded op (ptr + offset) (live_at self.now.slots.items index) }
    {
        Some(op.load(self.live(index)?.data(), ptr, offset))
    }

    /// Loads a lane of a vector from a memory, if both are there.
    #[inline(always)]
    pub(crate) fn load_lane(
        &self,
        op: LoadLaneOp,
        vector: Option<V128>,
        index: usize,
        ptr: u64,
        offset: u64,
    ) -> Option<Result<V128, TrapCode>>
        ensures { option_map (as_raw raw_of_vector) result
            ≡ lane_loaded op (ptr + offset) vector (live_at self.now.slots.items index) }
    {
        let (vector, memory) = (vector?, self.live(index)?);
        Some(op.load(memory.data(), ptr, offset, vector))
    }

    pub(crate) fn write(&mut self, index: usize, offset: usize, bytes: &[u8]) -> Option<Reply>
        ensures written { WritesMemoryAt index offset bytes.now self.old.slots.items
            (reply_or_no_such result) self.new.slots.items }
        ensures reserved { self.new.slots.reserved ≡ self.old.slots.reserved }
    {
        let memory = self.live_mut(index)?;
        Some(memory_reply(memory.write(offset, bytes)))
    }

    pub(crate) fn fill(
        &mut self,
        index: usize,
        dst: u64,
        value: u8,
        len: u64,
        fuel: &mut Fuel,
    ) -> Option<Reply>
        ensures filled { WithCharge
            (WritesAt Reply.Memory index (byte_filling_of dst value len))
            (metered self.old.slots.items (Some fuel.old)) (reply_or_no_such result)
            (metered self.new.slots.items (Some fuel.new)) }
        ensures reserved { self.new.slots.reserved ≡ self.old.slots.reserved }
    {
        let memory = self.live_mut(index)?;
        Some(memory_reply(memory.fill_metered(dst, value, len, fuel)))
    }

    /// Copies a range of a memory to another one, or within it.
    pub(crate) fn copy(
        &mut self,
        dst_index: usize,
        dst: u64,
        src_index: usize,
        src: u64,
        len: u64,
        fuel: &mut Fuel,
    ) -> Option<Reply>
        ensures copied { WithCharge
            (WritesFrom Reply.Memory (live_at self.old.slots.items src_index) dst_index
            (memory_copy_of dst src len))
            (metered self.old.slots.items (Some fuel.old)) (reply_or_no_such result)
            (metered self.new.slots.items (Some fuel.new)) }
        ensures reserved { self.new.slots.reserved ≡ self.old.slots.reserved }
    {
        if dst_index == src_index {
            return self.copy_in_one(dst_index, dst, src, len, fuel);
        }
        let mut memory = self.take(dst_index)?;
        let copied = match self.live(src_index) {
            Some(source) => Some(memory_reply(memory.copy_metered(dst, source, src, len, fuel))),
            None => None,
        };
        *self.slots.item_mut(dst_index) = Slot::Live(memory);
        copied
    }

    /// Copies a range of a memory within it.
    fn copy_in_one(
        &mut self,
        index: usize,
        dst: u64,
        src: u64,
        len: u64,
        fuel: &mut Fuel,
    ) -> Option<Reply>
        ensures copied { WithCharge
            (WritesFrom Reply.Memory (live_at self.old.slots.items index) index
            (memory_copy_of dst src len))
            (metered self.old.slots.items (Some fuel.old)) (reply_or_no_such result)
            (metered self.new.slots.items (Some fuel.new)) }
        ensures reserved { self.new.slots.reserved ≡ self.old.slots.reserved }
    {
        let memory = self.live_mut(index)?;
        Some(memory_reply(memory.copy_within_metered(dst, src, len, fuel)))
    }

    /// Copies a range of a data segment to a memory, if the segment is there.
    pub(crate) fn init(
        &mut self,
        index: usize,
        segment: Option<&DataSegment>,
        dst: u64,
        src: u32,
        len: u32,
        fuel: &mut Fuel,
    ) -> Option<Reply>
        ensures copied { WithCharge
            (WritesRangeAt Reply.Memory index
            (option_map (byte_copy_of dst src len) (option_copied segment.entry)))
            (metered self.old.slots.items (Some fuel.old)) (reply_or_no_such result)
            (metered self.new.slots.items (Some fuel.new)) }
        ensures reserved { self.new.slots.reserved ≡ self.old.slots.reserved }
    {
        let segment = segment?.bytes();
        let memory = self.live_mut(index)?;
        Some(memory_reply(memory.init_metered(segment, dst, src, len, fuel)))
    }

    #[inline(always)]
    pub(crate) fn store(
        &mut self,
        index: usize,
        ptr: u64,
        offset: u64,
        stored: Stored,
    ) -> Option<Reply>
        ensures stored { StoresMemoryAt index (ptr + offset) (bytes_of_stored stored)
            self.old.slots.items (reply_or_no_such result) self.new.slots.items }
        ensures reserved { self.new.slots.reserved ≡ self.old.slots.reserved }
    {
        let memory = self.live_mut(index)?;
        let answer = store(memory, ptr, offset, stored);
        Some(answer.map_or_else(Reply::Trap, |()| Reply::Done))
    }
}

/// The reply to a call on a memory that returns nothing.
fn memory_reply(answer: Result<(), MemoryError>) -> Reply
    ensures { result ≡ reply_of (λ _. Reply.Done) Reply.Memory answer }
{
    answer.map_or_else(Reply::Memory, |()| Reply::Done)
}

/// What is stored: a number, a vector, or a lane of a vector.
#[derive(Clone, Copy)]
pub(crate) enum Stored {
    Number(StoreOp, RawVal),
    Vector(V128),
    Lane(StoreLaneOp, V128),
}

/// The reply to a read of a memory's bytes. The bounds are tested before memory is taken, if any.
fn bytes_reply(alloc: Global, memory: &[u8], offset: usize, len: usize) -> Reply
    ensures { ReadsBytes (at memory.now offset len) result }
{
    if !lies_within(memory, offset as u64, len as u64) {
        return Reply::Memory(MemoryError::OutOfBoundsAccess);
    }
    match copy_of_bytes(alloc, &memory[offset..offset + len]) {
        Ok(bytes) => Reply::Bytes(ByteList::from(bytes)),
        Err(_) => Reply::NoRoom,
    }
}

/// Stores to a memory. A function of the memory alone: its clause says what the memory becomes,
/// apart from the slot that lends it.
#[inline(always)]
fn store(memory: &mut Memory, ptr: u64, offset: u64, stored: Stored) -> Result<(), TrapCode>
    ensures { StoresMemory memory.old (ptr + offset) (bytes_of_stored stored) result memory.new }
{
    match stored {
        Stored::Number(op, value) => op.store(memory.data_mut(), ptr, offset, value),
        Stored::Vector(vector) => v128_store(memory.data_mut(), ptr, offset, vector),
        Stored::Lane(op, vector) => op.store(memory.data_mut(), ptr, offset, vector),
    }
}
