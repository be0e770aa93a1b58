//! The store of a machine: what was made, registers and meter, and what each call does to them.
ghost use Rattle.std.specs.Prelude.{◌≡◌, Some, OnOk, OnErr};
ghost use Rattle.wasmi_meter.specs.Limiter.{optional_rules};
ghost use Rattle.wasmi_machine.specs.Effects.{reply_or_no_such};

use crate::calls::{Call, Reply};
use crate::data::DataSegment;
use crate::memories::Stored;
use crate::registers::Registers;
use crate::slots::{ReservedList, SlotCounts, Slots};
use crate::values::{
    create_data, create_global, create_segment, drop_data, drop_items, get_global, set_global,
};
use std::alloc::{AllocError, Global as Allocator};
use std::marker::Model;
use wasmi_meter::{Fuel, ResourceLimiter};
use wasmi_store::{ElementSegment, Memory, Table};
use wasmi_typed::Global;

/// Memories, tables, element segments, data segments and globals by their indices, registers, the
/// meter, and the spare region, if there is one. Core specification, the store.
#[derive(Drop)]
pub(crate) struct MachineStore<'r> {
    pub(crate) alloc: Allocator,
    pub(crate) memories: Slots<Memory<'r>>,
    pub(crate) tables: Slots<Table>,
    pub(crate) segments: ReservedList<ElementSegment>,
    pub(crate) data_segments: ReservedList<DataSegment>,
    pub(crate) globals: ReservedList<Global>,
    pub(crate) registers: Registers,
    pub(crate) fuel: Fuel,
    pub(crate) spare: Option<&'r mut [u8]>,
}

impl<'r> Model for MachineStore<'r> {
    ghost use Rattle.std.specs.Option.{option_copied_mut};
    ghost use Rattle.wasmi_machine.specs.State.{State};

    ghost Value = { State };

    ghost view = { λ m. record {
      memories = m.memories.slots.items;
      tables = m.tables.slots.items;
      segments = m.segments.items;
      data_segments = m.data_segments.items;
      globals = m.globals.items;
      registers = m.registers.values;
      meter = m.fuel;
      spare = option_copied_mut m.spare;
      reserved = record {
        memories = m.memories.slots.reserved;
        tables = m.tables.slots.reserved;
        segments = m.segments.reserved;
        data_segments = m.data_segments.reserved;
        globals = m.globals.reserved;
      };
    } };
}

impl<'r> MachineStore<'r> {
    ghost use Rattle.wasmi_machine.specs.Steps.{RepliesWith, RepliesWithoutLimiter, subject_of, Memories, Tables, RegisterFile, VectorAccesses};
    ghost use Rattle.wasmi_machine.specs.State.{world, with_reserved};
    ghost use Rattle.wasmi_machine.specs.declared.calls.Call.TheVariants.{GrowMemory};

    /// Reserves so many more slots of each kind, or none if memory for some is refused.
    pub(crate) fn reserve(&mut self, slots: SlotCounts) -> Result<(), AllocError>
        ensures reserved { OnOk result (self.new ≡ with_reserved self.old slots) }
        ensures refused { OnErr result (self.new ≡ self.old) }
    {
        self.memories.slots.try_reserve(slots.memories)?;
        self.tables.slots.try_reserve(slots.tables)?;
        self.segments.try_reserve(slots.segments)?;
        self.data_segments.try_reserve(slots.data_segments)?;
        self.globals.try_reserve(slots.globals)?;
        self.memories.slots.keep_reserved(slots.memories);
        self.tables.slots.keep_reserved(slots.tables);
        self.segments.keep_reserved(slots.segments);
        self.data_segments.keep_reserved(slots.data_segments);
        self.globals.keep_reserved(slots.globals);
        Ok(())
    }

    #[inline(always)]
    pub(crate) fn grow_memory<L: ResourceLimiter>(
        &mut self,
        memory: usize,
        pages: u64,
        limiter: &mut L,
    ) -> Option<Reply>
        ensures { RepliesWith (optional_rules L.rules) (GrowMemory memory pages)
            (world self.old (Some limiter.old)) (reply_or_no_such result)
            (world self.new (Some limiter.new)) }
    {
        let memory = self.memories.live_mut(memory)?;
        let grown = memory.grow_lending(pages, &mut self.fuel, limiter);
        Some(grown.map_or_else(Reply::Memory, Reply::Number))
    }

    #[inline(always)]
    pub(crate) fn step<L: ResourceLimiter>(&mut self, call: &Call, limiter: &mut L) -> Reply
        ensures { RepliesWith (optional_rules L.rules) call.now
            (world self.old (Some limiter.old)) result
            (world self.new (Some limiter.new)) }
    {
        match call {
            Call::SetFuel(fuel) => self
                .fuel
                .set_fuel(*fuel)
                .map_or_else(Reply::Fuel, |()| Reply::Done),
            Call::GetFuel => self.fuel.get_fuel().map_or_else(Reply::Fuel, Reply::Number),
            Call::NewMemory(_)
            | Call::NewLentMemory(_)
            | Call::GrowMemory { .. }
            | Call::DropMemory(_)
            | Call::Read { .. }
            | Call::Write { .. }
            | Call::Load { .. }
            | Call::Store { .. }
            | Call::FillMemory { .. }
            | Call::CopyMemory { .. }
            | Call::InitMemory { .. } => self.step_memory(call, limiter).unwrap_or(Reply::NoSuch),
            Call::NewSegment { ty, items } => {
                create_segment(&mut self.segments, self.alloc, *ty, items)
            }
            Call::DropItems(segment) => drop_items(&mut self.segments, *segment),
            Call::NewData(bytes) => create_data(&mut self.data_segments, self.alloc, bytes),
            Call::DropData(segment) => drop_data(&mut self.data_segments, *segment),
            Call::NewGlobal { value, ty } => create_global(&mut self.globals, *value, *ty),
            Call::SetGlobal { global, value } => set_global(&mut self.globals, *global, *value),
            Call::GetGlobal(global) => get_global(self.globals.as_slice(), *global),
            Call::NewTable { .. }
            | Call::GrowTable { .. }
            | Call::DropTable(_)
            | Call::GetElement { .. }
            | Call::SetElement { .. }
            | Call::InitTable { .. }
            | Call::CopyTable { .. }
            | Call::FillTable { .. } => self.step_table(call, limiter).unwrap_or(Reply::NoSuch),
            Call::VectorLoad { .. }
            | Call::LoadLane { .. }
            | Call::VectorStore { .. }
            | Call::StoreLane { .. } => self.step_vector_access::<L>(call).unwrap_or(Reply::NoSuch),
            _ => self.step_register::<L>(call).unwrap_or(Reply::NoSuch),
        }
    }

    fn step_memory<L: ResourceLimiter>(&mut self, call: &Call, limiter: &mut L) -> Option<Reply>
        requires subject { subject_of call.now ≡ Memories }
        ensures step { RepliesWith (optional_rules L.rules) call.now
            (world self.old (Some limiter.old)) (reply_or_no_such result)
            (world self.new (Some limiter.new)) }
    {
        match call {
            Call::NewMemory(ty) => Some(self.memories.create(self.alloc, *ty, limiter)),
            Call::NewLentMemory(ty) => Some(
                self.memories.create_lent(*ty, &mut self.spare, limiter),
            ),
            Call::GrowMemory { memory, pages } => self.grow_memory(*memory, *pages, limiter),
            Call::DropMemory(memory) => self.memories.drop_live(*memory),
            Call::Read {
                memory,
                offset,
                len,
            } => self.memories.read(self.alloc, *memory, *offset, *len),
            Call::Write {
                memory,
                offset,
                bytes,
            } => self.memories.write(*memory, *offset, bytes),
            Call::Load {
                op,
                memory,
                ptr,
                offset,
            } => self.memories.load(*op, *memory, *ptr, *offset),
            Call::Store {
                op,
                memory,
                ptr,
                offset,
                value,
            } => self
                .memories
                .store(*memory, *ptr, *offset, Stored::Number(*op, *value)),
            Call::FillMemory {
                memory,
                dst,
                value,
                len,
            } => self
                .memories
                .fill(*memory, *dst, *value, *len, &mut self.fuel),
            Call::CopyMemory {
                dst_memory,
                dst,
                src_memory,
                src,
                len,
            } => self
                .memories
                .copy(*dst_memory, *dst, *src_memory, *src, *len, &mut self.fuel),
            Call::InitMemory {
                memory,
                segment,
                dst,
                src,
                len,
            } => {
                let segment = self.data_segments.get(*segment);
                self.memories
                    .init(*memory, segment, *dst, *src, *len, &mut self.fuel)
            }
            _ => unreachable!(),
        }
    }

    fn step_table<L: ResourceLimiter>(&mut self, call: &Call, limiter: &mut L) -> Option<Reply>
        requires subject { subject_of call.now ≡ Tables }
        ensures step { RepliesWith (optional_rules L.rules) call.now
            (world self.old (Some limiter.old)) (reply_or_no_such result)
            (world self.new (Some limiter.new)) }
    {
        match call {
            Call::NewTable { ty, init } => Some(
                self.tables.create(self.alloc, *ty, *init, limiter),
            ),
            Call::GrowTable { table, delta, init } => {
                self.tables
                    .grow(*table, *delta, *init, &mut self.fuel, limiter)
            }
            Call::DropTable(table) => self.tables.drop_live(*table),
            Call::GetElement { table, index } => self.tables.get(*table, *index),
            Call::SetElement {
                table,
                index,
                value,
            } => self.tables.set(*table, *index, *value),
            Call::InitTable {
                table,
                segment,
                dst,
                src,
                len,
            } => {
                let segment = self.segments.get(*segment);
                self.tables
                    .init(*table, segment, *dst, *src, *len, &mut self.fuel)
            }
            Call::CopyTable {
                dst_table,
                dst,
                src_table,
                src,
                len,
            } => self
                .tables
                .copy(*dst_table, *dst, *src_table, *src, *len, &mut self.fuel),
            Call::FillTable {
                table,
                dst,
                value,
                len,
            } => self.tables.fill(*table, *dst, *value, *len, &mut self.fuel),
            _ => unreachable!(),
        }
    }

    /// Executes one call on registers, which doesn't reach the limiter: only the contract has `L`.
    /// Calls that make a vector have an arm each, by which LLVM makes one table of both matches.
    fn step_register<L: ResourceLimiter>(&mut self, call: &Call) -> Option<Reply>
        requires subject { subject_of call.now ≡ RegisterFile }
        ensures step { RepliesWithoutLimiter
            (optional_rules L.rules) call.now self.old (reply_or_no_such result) self.new }
    {
        match call {
            Call::SetRegister { dst, value } => self.registers.set(*dst, *value),
            Call::GetRegister(register) => self.registers.get(*register).map(Reply::Value),
            Call::Test { op, a } => {
                let a = self.registers.vector(*a);
                a.map(|a| Reply::Value(op.apply(a)))
            }
            Call::Extract { op, a } => {
                let a = self.registers.vector(*a);
                a.map(|a| Reply::Value(op.apply(a)))
            }
            Call::Make { dst, .. } => self.registers.set_made(*dst, call),
            Call::Unary { dst, .. } => self.registers.set_made(*dst, call),
            Call::Binary { dst, .. } => self.registers.set_made(*dst, call),
            Call::Ternary { dst, .. } => self.registers.set_made(*dst, call),
            Call::Shift { dst, .. } => self.registers.set_made(*dst, call),
            Call::Replace { dst, .. } => self.registers.set_made(*dst, call),
            Call::Shuffle { dst, .. } => self.registers.set_made(*dst, call),
            _ => unreachable!(),
        }
    }

    /// Executes one load or store of a vector, which asks no limiter: only the contract names `L`.
    fn step_vector_access<L: ResourceLimiter>(&mut self, call: &Call) -> Option<Reply>
        requires subject { subject_of call.now ≡ VectorAccesses }
        ensures step { RepliesWithoutLimiter
            (optional_rules L.rules) call.now self.old (reply_or_no_such result) self.new }
    {
        match call {
            Call::VectorLoad {
                op,
                dst,
                memory,
                ptr,
                offset,
            } => {
                let vector = self.memories.load_vector(*op, *memory, *ptr, *offset);
                self.registers.set_loaded(*dst, vector)
            }
            Call::LoadLane {
                op,
                dst,
                a,
                memory,
                ptr,
                offset,
            } => {
                let a = self.registers.vector(*a);
                let vector = self.memories.load_lane(*op, a, *memory, *ptr, *offset);
                self.registers.set_loaded(*dst, vector)
            }
            Call::VectorStore {
                a,
                memory,
                ptr,
                offset,
            } => {
                let vector = Stored::Vector(self.registers.vector(*a)?);
                self.memories.store(*memory, *ptr, *offset, vector)
            }
            Call::StoreLane {
                op,
                a,
                memory,
                ptr,
                offset,
            } => {
                let lane = Stored::Lane(*op, self.registers.vector(*a)?);
                self.memories.store(*memory, *ptr, *offset, lane)
            }
            _ => unreachable!(),
        }
    }
}
