//! The machine: how one is made, what a host reads of it, and what changes it without a call. Calls
//! and runs of calls are in `running.rt`.
ghost use Rattle.std.specs.Prelude.{◌≡◌, ◌+◌, ◌-◌, ◌<◌, ◌↔◌, Option, IsSome, Some, None, Result, Err, length, slice_get, MatchResult, OnOk, OnErr};
ghost use Rattle.std.specs.Option.{option_copied, option_copied_mut};

use crate::calls::Reply;
use crate::data::DataSegment;
use crate::memories::Stored;
use crate::registers::Registers;
use crate::slots::{ReservedList, SlotCounts, Slots};
use crate::store::MachineStore;
use std::alloc::{AllocError, Global as Allocator};
use std::fmt;
use std::fmt::{Debug, Formatter, Write};
use std::marker::Model;
use wasmi_meter::{Fuel, FuelError};
use wasmi_ops::StoreOp;
use wasmi_raw::RawVal;
use wasmi_store::{ElementSegment, Memory, Table};
use wasmi_typed::Global;

/// Memories, tables, element segments, data segments and globals by their indices, 16 registers of
/// raw values, one fuel meter, and at most one spare region: a borrowed buffer in which a memory can
/// be made; `'r` is its lifetime.
///
/// Its state is valid at any time: see [`crate::laws::states_are_valid`].
pub struct Machine<'r> {
    pub(crate) store: MachineStore<'r>,
}

// A drop is one call, so that the proof of each function in which a machine ends has one step for it.
impl<'r> Drop for Machine<'r> {
    fn drop(self) {
        let Machine { store } = self;
        drop(store);
    }
}

/// Shows the name alone.
impl<'r> Debug for Machine<'r> {
    fn fmt<W: Write>(&self, f: &mut Formatter<W>) -> fmt::Result {
        f.write_str("Machine { .. }")
    }
}

impl<'r> Model for Machine<'r> {
    ghost use Rattle.wasmi_machine.specs.State.{State, IsValid};

    ghost Value = { State };

    ghost view = { λ m. m.store };

    ghost invariant = { λ m. IsValid m.store };
}

impl<'r> Machine<'r> {
    ghost use Rattle.wasmi_machine.specs.MemoryEffects.{StoresMemoryAt, WritesMemoryAt};
    ghost use Rattle.wasmi_machine.specs.TableEffects.{ReservesElementsAt};
    ghost use Rattle.wasmi_machine.specs.State.{new_state, with_memories, with_reserved, with_spare, with_tables, live_at, IsValid, total};
    ghost use Rattle.wasmi_meter.specs.declared.limiter.Kind.TheVariants.{Bytes, Elements};
    ghost use Rattle.wasmi_meter.specs.Meter.{ConsumesFuel, amount_left, meter_after};
    ghost use Rattle.wasmi_ops.specs.LoadStoreOps.{stored_bytes};

    /// A machine with this meter, on which nothing was made yet. It takes no memory.
    pub fn new(alloc: Allocator, fuel: Fuel) -> Machine<'r>
        ensures { result ≡ new_state fuel }
    {
        Machine::empty(alloc, fuel, None)
    }

    /// A machine as by `new`, with this spare region, whose bytes stay as they are.
    pub fn with_region(alloc: Allocator, fuel: Fuel, region: &'r mut [u8]) -> Machine<'r>
        ensures { result ≡ with_spare (new_state fuel) region.entry.now }
    {
        Machine::empty(alloc, fuel, Some(region))
    }

    /// A machine with this meter, and with this spare region if there is one.
    fn empty(alloc: Allocator, fuel: Fuel, spare: Option<&'r mut [u8]>) -> Machine<'r>
        ensures { result ≡ record (new_state fuel) { spare = option_copied_mut spare.entry } }
    {
        let store = MachineStore {
            alloc,
            memories: Slots::new(alloc),
            tables: Slots::new(alloc),
            segments: ReservedList::new(alloc),
            data_segments: ReservedList::new(alloc),
            globals: ReservedList::new(alloc),
            registers: Registers::default(),
            fuel,
            spare,
        };
        Machine { store }
    }

    /// Reserves so many more slots of each kind, beside those of what was made. What is made in them
    /// later takes no memory for its slot, so it isn't refused with `NoRoom`, unless that is for the
    /// bytes of a data segment. What is reserved already stays so, and doesn't add up: to reserve 4
    /// slots twice, with nothing made between, reserves 4.
    pub fn reserve(&mut self, slots: SlotCounts) -> Result<(), AllocError>
        ensures reserved { OnOk result (self.new ≡ with_reserved self.old slots) }
        ensures refused { OnErr result (self.new ≡ self.old) }
    {
        self.store.reserve(slots)
    }

    /// Reserves memory for so many elements in all of a table, those that are there included, as
    /// [`Table::reserve`] does: until it has more, no growth of it is refused with
    /// `OutOfSystemMemory`. What is reserved already stays so.
    ///
    /// It isn't a call, so a run has no turn for it. The reply is `Done`, `NoSuch` if there is no
    /// such table, or `NoRoom` if the memory is refused; after the last two nothing has changed.
    pub fn reserve_elements(&mut self, table: usize, elements: u64) -> Reply
        ensures tables { ReservesElementsAt table elements self.old.tables result self.new.tables }
        ensures rest { self.new ≡ with_tables self.old self.new.tables }
    {
        let reply = self.store.tables.reserve(table, elements);
        reply.unwrap_or(Reply::NoSuch)
    }

    /// The meter.
    pub fn fuel(&self) -> &Fuel
        ensures { result.now ≡ self.now.meter }
    {
        &self.store.fuel
    }

    /// Takes an amount of fuel, and returns what is left.
    ///
    /// It isn't a call, so a run has no turn for it: an interpreter pays by it for the instructions
    /// that it executes between calls.
    pub fn consume_fuel(&mut self, amount: u64) -> Result<u64, FuelError>
        ensures on { IsSome self.old.meter.left
            → ConsumesFuel self.old.meter amount (amount_left self.old.meter - amount) result
            self.new.meter }
        ensures off { self.old.meter.left ≡ None
            → (result ≡ Err FuelError.FuelMeteringDisabled) × (self.new ≡ self.old) }
        ensures rest { self.new ≡ record self.old { meter = self.new.meter } }
        ensures balance { MatchResult result (λ left. (self.new.meter.left ≡ Some left)
            × (self.old.meter.left ≡ Some (left + amount))
            × (self.new ≡ record self.old { meter = meter_after self.old.meter amount }))
            (λ error. self.new ≡ self.old) }
    {
        self.store.fuel.get_fuel()?;
        self.store.fuel.consume_fuel_unchecked(amount)
    }

    /// The memory of an index, if there is one that wasn't dropped.
    pub fn memory(&self, index: usize) -> Option<&Memory<'r>>
        ensures { option_copied result ≡ live_at self.now.memories index }
    {
        self.store.memories.live(index)
    }

    /// Stores an item to a memory at `ptr + offset`, as `Call::Store` does, which reaches no
    /// limiter. The reply is `Done`, `NoSuch` if there is no such memory, or `Trap` with
    /// `MemoryOutOfBounds`; after the last two nothing has changed.
    #[inline(always)]
    pub fn store_item(
        &mut self,
        op: StoreOp,
        memory: usize,
        ptr: u64,
        offset: u64,
        value: RawVal,
    ) -> Reply
        ensures memories { StoresMemoryAt memory (ptr + offset) (stored_bytes op value)
            self.old.memories result self.new.memories }
        ensures rest { self.new ≡ with_memories self.old self.new.memories }
    {
        let stored = Stored::Number(op, value);
        let reply = self.store.memories.store(memory, ptr, offset, stored);
        reply.unwrap_or(Reply::NoSuch)
    }

    /// Writes bytes over those of a memory from an offset on, as the call `Write` does, but those of
    /// a slice and not of a list. It takes no memory.
    ///
    /// It isn't a call, so a run has no turn for it. The reply is `Done`, `NoSuch` if there is no
    /// such memory, or `Memory` with `OutOfBoundsAccess` if the bytes would end past it; after the
    /// last two nothing has changed.
    pub fn write(&mut self, memory: usize, offset: usize, bytes: &[u8]) -> Reply
        ensures memories { WritesMemoryAt memory offset bytes.now self.old.memories result
            self.new.memories }
        ensures rest { self.new ≡ with_memories self.old self.new.memories }
    {
        let reply = self.store.memories.write(memory, offset, bytes);
        reply.unwrap_or(Reply::NoSuch)
    }

    /// The table of an index, if there is one that wasn't dropped.
    pub fn table(&self, index: usize) -> Option<&Table>
        ensures { option_copied result ≡ live_at self.now.tables index }
    {
        self.store.tables.live(index)
    }

    /// The element segment of an index, if there is one.
    pub fn segment(&self, index: usize) -> Option<&ElementSegment>
        ensures { option_copied result ≡ slice_get self.now.segments index }
    {
        self.store.segments.get(index)
    }

    /// The data segment of an index, if there is one.
    pub fn data_segment(&self, index: usize) -> Option<&DataSegment>
        ensures { option_copied result ≡ slice_get self.now.data_segments index }
    {
        self.store.data_segments.get(index)
    }

    /// The global of an index, if there is one.
    pub fn global(&self, index: usize) -> Option<&Global>
        ensures { option_copied result ≡ slice_get self.now.globals index }
    {
        self.store.globals.get(index)
    }

    /// The value of a register, if there is one: their numbers are 0 to 15.
    pub fn register(&self, register: u8) -> Option<RawVal>
        ensures value { result ≡ slice_get self.now.registers register }
        ensures count { length self.now.registers ≡ 16 }
        ensures there { IsSome result ↔ (register < 16) }
    {
        self.store.registers.get(register)
    }

    /// The bytes of all memories, dropped ones at their last size. The cost grows with the number
    /// of memories that were ever made, including those that were dropped.
    pub fn total_bytes(&self) -> u128
        ensures { result ≡ total self.now Bytes }
    {
        self.store.memories.total()
    }

    /// The elements of all tables, likewise: the cost grows with the number of all tables ever made.
    pub fn total_elements(&self) -> u128
        ensures { result ≡ total self.now Elements }
    {
        self.store.tables.total()
    }

    /// Does nothing: its contract says what holds of each machine.
    #[inline(always)]
    pub(crate) fn tell_valid(&self)
        ensures { IsValid self.now }
    {
        let _ = &self.store;
    }
}
