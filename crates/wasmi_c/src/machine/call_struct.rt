//! Calls as structs of plain numbers, the calls that these stand for, and the loads, the stores and
//! the instructions on two vectors that have a number.
ghost use Rattle.std.specs.Prelude.{◌≡◌};
ghost use Rattle.wasmi_c.specs.Machine.CallStructs.{binary_call, byte_of, call_of, load_call, memory_type_in, mutability_of, range_call, store_call, table_call, table_type_in, typed_reference_of, unary_call, value_call};
ghost use Rattle.wasmi_c.specs.Machine.Calls.{item_load_numbered, item_store_numbered, vector_binary_numbered};

use crate::instruction::binary::{Binary, binary_numbered};
use crate::instruction::lanes::{extraction, lane_load, lane_store, replacement};
use crate::instruction::load::{Load, load_numbered};
use crate::instruction::shuffle::lanes_of;
use crate::instruction::store::{Store, store_numbered};
use crate::instruction::ternary::ternary_numbered;
use crate::instruction::unary::{Unary, unary_numbered};
use crate::types::{if_flag, memory_type, reference_type, table_type, to_u32, val_type};
use wasmi_machine::Call;
use wasmi_ops::{BinaryOp, LoadOp, StoreOp};
use wasmi_raw::{RawRef, RawVal};
use wasmi_store::{MemoryType, TableType};
use wasmi_typed::{GlobalType, Mutability, TypedRawRef, TypedRawVal};

/// The kind of loads.
pub(crate) const LOAD: u16 = 5;
/// The kind of stores.
pub(crate) const STORE: u16 = 6;
/// The kind of instructions of two registers.
pub(crate) const BINARY: u16 = 24;

/// A call as numbers: its kind, and its operands, of which each kind reads its own.
#[repr(C)]
#[derive(Clone, Copy)]
pub struct CallStruct {
    /// The kind, by its number.
    pub kind: u16,
    /// The instruction, by its number in `include/wasmi_core.h`.
    pub op: u16,
    /// The index of a lane.
    pub lane: u8,
    /// The register that takes the result.
    pub dst: u8,
    /// The register of the first operand.
    pub a: u8,
    /// The register of the second operand.
    pub b: u8,
    /// The register of the third operand.
    pub c: u8,
    /// A value type, by its number: those of references are 5 and 6.
    pub ty: u8,
    /// Whether a global can be written: 0 is no.
    pub is_mutable: u8,
    /// Whether addresses or indices have 64 bits: 0 is no.
    pub is_64: u8,
    /// Whether there is a maximum: 0 is no.
    pub has_maximum: u8,
    /// The base-2 logarithm of a page's bytes.
    pub page_size_log2: u8,
    /// A reference.
    pub reference: u32,
    /// The memory, table, segment or global, by its index.
    pub index: usize,
    /// The memory, table or segment that is copied from, by its index.
    pub source: usize,
    /// Fuel, pages, bytes, elements, or a minimum of them.
    pub count: u64,
    /// The maximum, in pages or elements.
    pub maximum: u64,
    /// The address of a load or a store, to which `offset` is added.
    pub ptr: u64,
    /// What is added to `ptr`.
    pub offset: u64,
    /// The first byte or element that is written, or the element of an index.
    pub to: u64,
    /// The first byte, element or item that is copied.
    pub from: u64,
    /// A value.
    pub value: RawVal,
    /// The sixteen lanes of a shuffle, each below 32: those of the second vector count from 16.
    pub lanes: [u8; 16],
}

impl CallStruct {
    /// The call, if there is one: its kind, its instruction, its lane and its types are ones that
    /// there are, and its numbers fit. `include/wasmi_machine.h` has the numbers of the kinds.
    #[tactic(auto, unfolding(crate::specs::Machine::CallStructs::call_of))]
    pub fn call(&self) -> Option<Call>
        ensures { result ≡ call_of self.now }
    {
        Some(match self.kind {
            LOAD => return self.load_call(),
            STORE => return self.store_call(),
            BINARY => return self.binary_call(),
            // What tools/generate writes begins.
            0 => Call::SetFuel(self.count),
            1 => Call::GetFuel,
            2 => Call::NewMemory(self.memory_type()?),
            3 => Call::GrowMemory {
                memory: self.index,
                pages: self.count,
            },
            4 => Call::DropMemory(self.index),
            7 => Call::LoadLane {
                op: lane_load(self.op, self.lane).ok()?,
                dst: self.dst,
                a: self.a,
                memory: self.index,
                ptr: self.ptr,
                offset: self.offset,
            },
            8 => Call::StoreLane {
                op: lane_store(self.op, self.lane).ok()?,
                a: self.a,
                memory: self.index,
                ptr: self.ptr,
                offset: self.offset,
            },
            // What tools/generate writes ends.
            _ => return self.range_call(),
        })
    }

    /// A call that writes over a range of a memory or drops a data segment, or one on tables,
    /// element segments, globals and registers.
    #[tactic(auto, unfolding(crate::specs::Machine::CallStructs::range_call))]
    fn range_call(&self) -> Option<Call>
        ensures { result ≡ range_call self.now }
    {
        Some(match self.kind {
            // What tools/generate writes begins.
            29 => Call::FillMemory {
                memory: self.index,
                dst: self.to,
                value: self.byte(),
                len: self.count,
            },
            30 => Call::CopyMemory {
                dst_memory: self.index,
                dst: self.to,
                src_memory: self.source,
                src: self.from,
                len: self.count,
            },
            31 => Call::InitMemory {
                memory: self.index,
                segment: self.source,
                dst: self.to,
                src: to_u32(self.from)?,
                len: to_u32(self.count)?,
            },
            32 => Call::DropData(self.index),
            // What tools/generate writes ends.
            _ => return self.table_call(),
        })
    }

    /// A call on tables and element segments, or one on globals and registers.
    #[tactic(auto, unfolding(crate::specs::Machine::CallStructs::table_call))]
    fn table_call(&self) -> Option<Call>
        ensures { result ≡ table_call self.now }
    {
        Some(match self.kind {
            // What tools/generate writes begins.
            9 => Call::NewTable {
                ty: self.table_type()?,
                init: self.typed_reference()?,
            },
            10 => Call::GrowTable {
                table: self.index,
                delta: self.count,
                init: self.typed_reference()?,
            },
            11 => Call::DropTable(self.index),
            12 => Call::GetElement {
                table: self.index,
                index: self.to,
            },
            13 => Call::SetElement {
                table: self.index,
                index: self.to,
                value: self.typed_reference()?,
            },
            14 => Call::InitTable {
                table: self.index,
                segment: self.source,
                dst: self.to,
                src: to_u32(self.from)?,
                len: to_u32(self.count)?,
            },
            15 => Call::CopyTable {
                dst_table: self.index,
                dst: self.to,
                src_table: self.source,
                src: self.from,
                len: self.count,
            },
            16 => Call::FillTable {
                table: self.index,
                dst: self.to,
                value: self.typed_reference()?,
                len: self.count,
            },
            17 => Call::DropItems(self.index),
            // What tools/generate writes ends.
            _ => return self.value_call(),
        })
    }

    /// A call on globals and registers.
    #[tactic(auto, unfolding(crate::specs::Machine::CallStructs::value_call))]
    fn value_call(&self) -> Option<Call>
        ensures { result ≡ value_call self.now }
    {
        Some(match self.kind {
            23 => return self.unary_call(),
            // What tools/generate writes begins.
            18 => Call::NewGlobal {
                value: self.value,
                ty: GlobalType::new(val_type(self.ty)?, self.mutability()),
            },
            19 => Call::SetGlobal {
                global: self.index,
                value: TypedRawVal::new(val_type(self.ty)?, self.value),
            },
            20 => Call::GetGlobal(self.index),
            21 => Call::SetRegister {
                dst: self.dst,
                value: self.value,
            },
            22 => Call::GetRegister(self.a),
            25 => Call::Ternary {
                op: ternary_numbered(self.op)?,
                dst: self.dst,
                a: self.a,
                b: self.b,
                c: self.c,
            },
            26 => Call::Extract {
                op: extraction(self.op, self.lane).ok()?,
                a: self.a,
            },
            27 => Call::Replace {
                op: replacement(self.op, self.lane).ok()?,
                dst: self.dst,
                a: self.a,
                item: self.b,
            },
            28 => Call::Shuffle {
                dst: self.dst,
                a: self.a,
                b: self.b,
                lanes: lanes_of(self.lanes)?,
            },
            // What tools/generate writes ends.
            _ => return None,
        })
    }

    fn load_call(&self) -> Option<Call>
        ensures { result ≡ load_call self.now }
    {
        let (memory, ptr, offset) = (self.index, self.ptr, self.offset);
        Some(match load_numbered(self.op)? {
            Load::Scalar(op) => Call::Load {
                op,
                memory,
                ptr,
                offset,
            },
            Load::Vector(op) => Call::VectorLoad {
                op,
                dst: self.dst,
                memory,
                ptr,
                offset,
            },
        })
    }

    fn store_call(&self) -> Option<Call>
        ensures { result ≡ store_call self.now }
    {
        let (memory, ptr, offset) = (self.index, self.ptr, self.offset);
        Some(match store_numbered(self.op)? {
            Store::Scalar(op) => Call::Store {
                op,
                memory,
                ptr,
                offset,
                value: self.value,
            },
            Store::V128Store => Call::VectorStore {
                a: self.a,
                memory,
                ptr,
                offset,
            },
        })
    }

    /// An instruction of one register: it makes a vector of an item, is on a vector, or is a test.
    fn unary_call(&self) -> Option<Call>
        ensures { result ≡ unary_call self.now }
    {
        let (dst, a) = (self.dst, self.a);
        match unary_numbered(self.op)? {
            Unary::Scalar(_) => None,
            Unary::Make(op) => Some(Call::Make { op, dst, a }),
            Unary::Vector(op) => Some(Call::Unary { op, dst, a }),
            Unary::Test(op) => Some(Call::Test { op, a }),
        }
    }

    /// An instruction of two registers, or a shift by an amount.
    fn binary_call(&self) -> Option<Call>
        ensures { result ≡ binary_call self.now }
    {
        let (dst, a, b) = (self.dst, self.a, self.b);
        match binary_numbered(self.op)? {
            Binary::Scalar(_) => None,
            Binary::Vector(op) => Some(Call::Binary { op, dst, a, b }),
            Binary::Shift(op) => {
                let amount = to_u32(self.count)?;
                Some(Call::Shift { op, dst, a, amount })
            }
        }
    }

    fn typed_reference(&self) -> Option<TypedRawRef>
        ensures { result ≡ typed_reference_of self.now }
    {
        Some(TypedRawRef::new(RawRef::from(self.reference), reference_type(self.ty)?))
    }

    fn memory_type(&self) -> Option<MemoryType>
        ensures { result ≡ memory_type_in self.now }
    {
        let maximum = if_flag(self.has_maximum, self.maximum);
        memory_type(self.count, maximum, self.is_64, self.page_size_log2)
    }

    fn table_type(&self) -> Option<TableType>
        ensures { result ≡ table_type_in self.now }
    {
        let maximum = if_flag(self.has_maximum, self.maximum);
        table_type(self.ty, self.count, maximum, self.is_64)
    }

    fn byte(&self) -> u8
        ensures { result ≡ byte_of self.now }
    {
        (self.value.lo % 256) as u8
    }

    fn mutability(&self) -> Mutability
        ensures { result ≡ mutability_of self.now }
    {
        if self.is_mutable == 0 {
            Mutability::Const
        } else {
            Mutability::Var
        }
    }
}

/// The load of an item that has a number, if there is one.
#[tactic(auto, unfolding(crate::specs::Instruction::load_numbered))]
pub(crate) fn item_load_numbered(number: u16) -> Option<LoadOp>
    ensures { result ≡ item_load_numbered number }
{
    match number {
        // Each of the first by itself, so that a load's code is reached by one jump.
        0 => Some(LoadOp::I32Load8S),
        1 => Some(LoadOp::I32Load8U),
        2 => Some(LoadOp::I32Load16S),
        3 => Some(LoadOp::I32Load16U),
        4 => Some(LoadOp::I64Load8S),
        5 => Some(LoadOp::I64Load8U),
        6 => Some(LoadOp::I64Load16S),
        7 => Some(LoadOp::I64Load16U),
        8 => Some(LoadOp::I64Load32S),
        9 => Some(LoadOp::I64Load32U),
        10 => Some(LoadOp::LoadU32),
        11 => Some(LoadOp::LoadU64),
        _ => match load_numbered(number)? {
            Load::Scalar(op) => Some(op),
            Load::Vector(_) => None,
        },
    }
}

/// The store of an item that has a number, if there is one.
#[tactic(auto, unfolding(crate::specs::Instruction::store_numbered))]
pub(crate) fn item_store_numbered(number: u16) -> Option<StoreOp>
    ensures { result ≡ item_store_numbered number }
{
    match number {
        // As for the loads.
        0 => Some(StoreOp::I32Store8),
        1 => Some(StoreOp::I32Store16),
        2 => Some(StoreOp::I64Store8),
        3 => Some(StoreOp::I64Store16),
        4 => Some(StoreOp::I64Store32),
        5 => Some(StoreOp::Store32),
        6 => Some(StoreOp::Store64),
        _ => match store_numbered(number)? {
            Store::Scalar(op) => Some(op),
            Store::V128Store => None,
        },
    }
}

/// The instruction on two vectors that has a number, if there is one.
pub(crate) fn vector_binary_numbered(number: u16) -> Option<BinaryOp>
    ensures { result ≡ vector_binary_numbered number }
{
    match binary_numbered(number)? {
        Binary::Vector(op) => Some(op),
        _ => None,
    }
}
