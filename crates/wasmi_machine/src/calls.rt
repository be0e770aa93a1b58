//! The calls on a machine, the replies to them, and the bytes that a reply has (`ByteList`). They
//! are our own: upstream leaves running to the interpreter.
ghost use Rattle.std.specs.Prelude.{◌≡◌, MatchBool, nat_eq};
ghost use Rattle.std.specs.Cmp.Lexicographic.{pointwise};
ghost use Rattle.std.specs.Cmp.{partial_equiv_from_equiv};
ghost use Rattle.std.proofs.lemmas.Cmp.{nat_list_eq_equiv};

use std::fmt;
use std::fmt::{Debug, Formatter, Write};
use std::marker::Model;
use wasmi_lanes::ImmLaneIdx32;
use wasmi_meter::{FuelError, MemoryError, TableError};
use wasmi_ops::{
    BinaryOp, ExtractOp, LoadLaneOp, LoadOp, MakeOp, ReplaceOp, ShiftOp, StoreLaneOp, StoreOp,
    TernaryOp, TestOp, UnaryOp, VectorLoadOp,
};
use wasmi_raw::{RawRef, RawVal};
use wasmi_store::{MemoryType, SegmentError, TableType};
use wasmi_typed::{GlobalError, GlobalType, TypedRawRef, TypedRawVal};
use wasmi_types::{RefType, TrapCode};

/// One call on a machine. Memories, tables, element segments, data segments and globals go by their
/// indices, which count from 0 for each kind and aren't used again: there is no such memory or table
/// once it is dropped. Registers go by their numbers from 0 to 15; `dst` is the one that takes the
/// result, and a refused call keeps it.
///
/// Replies are listed in the order of the tests: the first that applies is the reply. `NoSuch`
/// comes before all of them and isn't listed: there is no memory, table, element segment, data
/// segment, global or register that the call names. `Memory` and `Table` carry the error that the
/// method of `Memory` or `Table` returns.
#[derive(Drop)]
pub enum Call {
    /// Sets the fuel that is left: `Done`, or `Fuel` if metering is off.
    SetFuel(u64),
    /// Returns the fuel that is left: `Number`, or `Fuel` if metering is off.
    GetFuel,
    /// Makes a memory of zeros: `Made` with its index, `NoRoom` if there is no memory for its slot,
    /// or `Memory`.
    NewMemory(MemoryType),
    /// Makes a memory of zeros at the front of the machine's spare region: `Made` with its index,
    /// `NoRegion` if there is no spare region, `NoRoom` if there is no memory for its slot, or
    /// `Memory`. Any reply except `NoRegion` and `NoRoom` uses up the region.
    NewLentMemory(MemoryType),
    /// Grows a memory by `pages` pages: `Number` of the old size in pages, or `Memory`.
    GrowMemory {
        memory: usize,
        pages: u64,
    },
    /// Drops a memory: `Done`. Its bytes are given back; its size still counts in the total.
    DropMemory(usize),
    /// Reads `len` bytes of a memory: `Bytes`, `Memory` if they end past it, or then `NoRoom` if
    /// there is no memory for the reply.
    Read {
        memory: usize,
        offset: usize,
        len: usize,
    },
    /// Writes bytes to a memory from an offset on: `Done`, or `Memory` if they would end past it.
    Write {
        memory: usize,
        offset: usize,
        bytes: Vec<u8>,
    },
    /// Loads a number from a memory at `ptr + offset`: `Value`, or `Trap` if it ends past it.
    Load {
        op: LoadOp,
        memory: usize,
        ptr: u64,
        offset: u64,
    },
    /// Stores a number to a memory at `ptr + offset`: `Done`, or `Trap` if it would end past it.
    Store {
        op: StoreOp,
        memory: usize,
        ptr: u64,
        offset: u64,
        value: RawVal,
    },
    /// Fills `len` bytes of a memory with a byte, from `dst` on: `Done`, or `Memory` with
    /// `OutOfBoundsAccess` if they end past it, then `OutOfFuel`, which is tested also for no byte.
    FillMemory {
        memory: usize,
        dst: u64,
        value: u8,
        len: u64,
    },
    /// Copies `len` bytes of a memory, from `src` on, over those of another or of itself from `dst`
    /// on: `Done`, or `Memory` with `OutOfBoundsAccess` if a range ends past its memory, then
    /// `OutOfFuel`, which is tested also for no byte. If ranges overlap, the old bytes are copied.
    CopyMemory {
        dst_memory: usize,
        dst: u64,
        src_memory: usize,
        src: u64,
        len: u64,
    },
    /// Copies `len` bytes of a data segment, from `src` on, over those of a memory from `dst` on:
    /// `Done`, or `Memory` with `OutOfBoundsAccess` if a range ends past the segment or the memory,
    /// then `OutOfFuel`, which is tested also for no byte. A segment that was dropped has no bytes.
    InitMemory {
        memory: usize,
        segment: usize,
        dst: u64,
        src: u32,
        len: u32,
    },
    /// Makes a table of one reference: `Made` with its index, `NoRoom` if there is no memory for
    /// its slot, or `Table`.
    NewTable {
        ty: TableType,
        init: TypedRawRef,
    },
    /// Grows a table by `delta` elements: `Number` of the old size in elements, or `Table`.
    GrowTable {
        table: usize,
        delta: u64,
        init: TypedRawRef,
    },
    /// Drops a table: `Done`. Its elements are given back; its size still counts in the total.
    DropTable(usize),
    /// Returns the element of a table, if there is one: `Reference`.
    GetElement {
        table: usize,
        index: u64,
    },
    /// Sets an element of a table: `Done`, or `Table` with `ElementTypeMismatch` if the reference
    /// isn't of the type of the elements, then `SetOutOfBounds` if the index is past the end.
    SetElement {
        table: usize,
        index: u64,
        value: TypedRawRef,
    },
    /// Copies `len` items of an element segment, from `src` on, over the elements of a table from
    /// `dst` on: `Done`, or `Table` with `ElementTypeMismatch` if their types differ, then
    /// `InitOutOfBounds` if a range ends past the segment or the table, then `OutOfFuel`; copying
    /// no items costs no fuel.
    InitTable {
        table: usize,
        segment: usize,
        dst: u64,
        src: u32,
        len: u32,
    },
    /// Copies `len` elements of a table, from `src` on, over those of another or of itself from
    /// `dst` on: `Done`, or `Table` with `ElementTypeMismatch` if their types differ, then
    /// `CopyOutOfBounds` if a range ends past its table, then `OutOfFuel`, which is tested also for
    /// no element. If ranges of one table overlap, the old elements are copied.
    CopyTable {
        dst_table: usize,
        dst: u64,
        src_table: usize,
        src: u64,
        len: u64,
    },
    /// Fills `len` elements of a table with a reference, from `dst` on: `Done`, or `Table` with
    /// `ElementTypeMismatch` if the reference isn't of the elements' type, then `FillOutOfBounds`
    /// if they end past the table, then `OutOfFuel`, which is tested also for no element.
    FillTable {
        table: usize,
        dst: u64,
        value: TypedRawRef,
        len: u64,
    },
    /// Makes an element segment: `Made` with its index, `NoRoom` if there is no memory for its
    /// slot, or `Segment`.
    NewSegment {
        ty: RefType,
        items: Vec<RawRef>,
    },
    /// Drops the items of an element segment, which stays: `Done`.
    DropItems(usize),
    /// Makes a data segment of bytes: `Made` with its index, or `NoRoom` if there is no memory for
    /// its slot or for a copy of the bytes.
    NewData(Vec<u8>),
    /// Drops the bytes of a data segment, which stays: `Done`.
    DropData(usize),
    /// Makes a global: `Made` with its index, or `NoRoom` if there is no memory for its slot.
    NewGlobal {
        value: RawVal,
        ty: GlobalType,
    },
    /// Sets a global: `Done`, or `Global` with `ImmutableWrite` if it is a constant, then
    /// `TypeMismatch` if the value isn't of its type.
    SetGlobal {
        global: usize,
        value: TypedRawVal,
    },
    /// Returns the value of a global: `Value`.
    GetGlobal(usize),
    /// Sets a register: `Done`.
    SetRegister {
        dst: u8,
        value: RawVal,
    },
    /// Returns the value of a register: `Value`.
    GetRegister(u8),
    /// Makes a vector of the item in register `a`: `Done`.
    Make {
        op: MakeOp,
        dst: u8,
        a: u8,
    },
    /// Executes an instruction of one vector: `Done`.
    Unary {
        op: UnaryOp,
        dst: u8,
        a: u8,
    },
    /// Executes an instruction of two vectors: `Done`.
    Binary {
        op: BinaryOp,
        dst: u8,
        a: u8,
        b: u8,
    },
    /// Executes an instruction of three vectors: `Done`.
    Ternary {
        op: TernaryOp,
        dst: u8,
        a: u8,
        b: u8,
        c: u8,
    },
    /// Shifts the lanes of a vector by `amount` modulo their width: `Done`.
    Shift {
        op: ShiftOp,
        dst: u8,
        a: u8,
        amount: u32,
    },
    /// Tests a vector, or takes its mask: `Value`.
    Test {
        op: TestOp,
        a: u8,
    },
    /// Takes a lane from a vector: `Value`.
    Extract {
        op: ExtractOp,
        a: u8,
    },
    /// Puts the item in register `item` into a lane of a vector: `Done`.
    Replace {
        op: ReplaceOp,
        dst: u8,
        a: u8,
        item: u8,
    },
    /// Picks bytes of two vectors: `Done`.
    Shuffle {
        dst: u8,
        a: u8,
        b: u8,
        lanes: [ImmLaneIdx32; 16],
    },
    /// Loads a vector from a memory at `ptr + offset`: `Done`, or `Trap` if it ends past it.
    VectorLoad {
        op: VectorLoadOp,
        dst: u8,
        memory: usize,
        ptr: u64,
        offset: u64,
    },
    /// Loads a lane from a memory at `ptr + offset`: `Done`, or `Trap` if it ends past it.
    LoadLane {
        op: LoadLaneOp,
        dst: u8,
        a: u8,
        memory: usize,
        ptr: u64,
        offset: u64,
    },
    /// Stores a vector to a memory at `ptr + offset`: `Done`, or `Trap` if it would end past it.
    VectorStore {
        a: u8,
        memory: usize,
        ptr: u64,
        offset: u64,
    },
    /// Stores a lane to a memory at `ptr + offset`: `Done`, or `Trap` if it would end past it.
    StoreLane {
        op: StoreLaneOp,
        a: u8,
        memory: usize,
        ptr: u64,
        offset: u64,
    },
}

/// The name of a call's variant, of which there are these.
macro_rules! name_of {
    ($call:ident: $($variant:ident)*) => {
        match $call {
            $(Call::$variant { .. } => stringify!($variant),)*
        }
    };
}

/// Shows the name of the call, without its operands.
impl Debug for Call {
    fn fmt<W: Write>(&self, f: &mut Formatter<W>) -> fmt::Result {
        f.write_str(name_of!(self:
            SetFuel GetFuel NewMemory NewLentMemory GrowMemory DropMemory Read Write Load Store
            FillMemory CopyMemory InitMemory NewTable GrowTable DropTable GetElement SetElement
            InitTable CopyTable FillTable NewSegment DropItems NewData DropData NewGlobal SetGlobal
            GetGlobal SetRegister GetRegister Make Unary Binary Ternary Shift Test Extract Replace
            Shuffle VectorLoad LoadLane VectorStore StoreLane
        ))
    }
}

impl Call {
    ghost use Rattle.wasmi_machine.specs.Account.{SetsNoFuel};
    ghost use Rattle.wasmi_machine.specs.State.{IsValidCall};

    /// Whether it is `SetFuel`. A list without one can be billed: see
    /// [`crate::laws::charges_are_spent`].
    pub fn sets_fuel(&self) -> bool
        ensures { MatchBool result (SetsNoFuel self.now → ⊥) (SetsNoFuel self.now) }
    {
        matches!(self, Call::SetFuel(_))
    }

    /// Does nothing: its contract says that the type which a call names is valid.
    #[inline(always)]
    pub(crate) fn tell_valid(&self)
        ensures { IsValidCall self.now }
    {
        match self {
            Call::NewMemory(ty) | Call::NewLentMemory(ty) => {
                let _minimum = ty.minimum();
            }
            Call::NewTable { ty, .. } => {
                let _minimum = ty.minimum();
            }
            _ => {}
        }
    }
}

/// The reply to one call.
#[derive(Debug, Drop, PartialEq, Eq)]
pub enum Reply {
    /// The call is done, and has no other result.
    Done,
    /// The index of the memory, table, element segment, data segment or global that was made.
    Made(usize),
    /// The value of a global or a register, or what `Load`, `Test` or `Extract` gives (low word).
    Value(RawVal),
    /// The old size in pages (`GrowMemory`) or elements (`GrowTable`), or the fuel left.
    Number(u64),
    /// The bytes that `Read` asked for.
    Bytes(ByteList),
    /// An element of a table, or none past its end.
    Reference(Option<TypedRawRef>),
    /// Why a call on a memory was refused.
    Memory(MemoryError),
    /// Why a call on a table was refused.
    Table(TableError),
    /// Why a call on the meter was refused.
    Fuel(FuelError),
    /// Why a call on a global was refused.
    Global(GlobalError),
    /// Why an element segment could not be made.
    Segment(SegmentError),
    /// Why a load or a store trapped: `MemoryOutOfBounds`.
    Trap(TrapCode),
    /// There is no such memory, table, element segment, data segment, global or register. It is
    /// tested first; nothing was asked or changed.
    NoSuch,
    /// There is no spare region; nothing was asked or changed.
    NoRegion,
    /// Memory for a slot, a segment's bytes or the reply was refused; nothing was asked or changed.
    NoRoom,
}

/// The bytes of a reply, with a memory of their own: what is read stays as it was when the memory
/// is written, grown or dropped. Two lists are equal if their bytes are.
#[derive(Debug, Drop)]
pub struct ByteList {
    bytes: Vec<u8>,
}

impl Model for ByteList {
    ghost use Rattle.std.specs.Prelude.{ℕ, List};

    ghost Value = { List ℕ };

    ghost view = { λ b. b.bytes.items };
}

impl From<Vec<u8>> for ByteList {
    ghost from_gives = { λ bytes list. list ≡ bytes.items };

    fn from(bytes: Vec<u8>) -> Self {
        ByteList { bytes }
    }
}

impl ByteList {
    /// The bytes.
    pub fn as_slice(&self) -> &[u8]
        ensures { result.now ≡ self.now }
    {
        self.bytes.as_slice()
    }
}

impl PartialEq for ByteList {
    ghost eq = { pointwise nat_eq };

    ghost laws = { partial_equiv_from_equiv nat_list_eq_equiv };

    fn eq(&self, other: &Self) -> bool {
        self.as_slice() == other.as_slice()
    }
}

impl Eq for ByteList {
    ghost laws = { nat_list_eq_equiv };
}
