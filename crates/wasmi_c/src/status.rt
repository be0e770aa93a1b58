//! The statuses that calls return, besides the numbers of trap codes, and which one an error has.
//! Contracts cite these constants; `tools/header` compares them with the headers, and with those that
//! were released.
ghost use Rattle.std.specs.Prelude.{◌≡◌};
ghost use Rattle.wasmi_c.specs.Status.{memory_status, table_status};
ghost use Rattle.wasmi_c.specs.MemoryCalls.{memory_fuel_needed};
ghost use Rattle.wasmi_c.specs.TableCalls.{table_fuel_needed};

use wasmi_meter::{MemoryError, TableError};

/// The call was done.
pub const DONE: u8 = 0;
/// The text is longer than the caller's bytes; nothing is written to them. The smaller statuses of
/// a script's run are those of the program.
pub const TEXT_TOO_SHORT: u8 = 5;
/// The handle has no machine.
pub const NO_MACHINE: u8 = 16;
/// The numbers stand for no call.
pub const NO_CALL: u8 = 17;
/// There is no such memory, table, element segment, data segment, global or register.
pub const NO_SUCH: u8 = 18;
/// There is no spare region.
pub const NO_REGION: u8 = 19;
/// Out of memory for a slot, for a copy of the bytes that are written, or for a new machine.
pub const NO_ROOM: u8 = 20;
/// The table has no element of this index.
pub const NO_ELEMENT: u8 = 21;
/// The handle has a machine already.
pub const HAS_MACHINE: u8 = 22;
/// A line is no command of a script.
pub const BAD_LINE: u8 = 23;
/// There is a header line, which only a whole script has.
pub const HEADER_LINE: u8 = 24;
/// The lines were run, and their text has 2^64 - 1 bytes or more.
pub const TEXT_CUT: u8 = 25;
/// A number stands for no answer of a limiter.
pub const NO_ANSWER: u8 = 26;
/// The handle has no pool.
pub const NO_POOL: u8 = 27;
/// The handle has a pool already.
pub const HAS_POOL: u8 = 28;
/// No tenant of the pool has the index.
pub const NO_TENANT: u8 = 29;
// What tools/generate writes begins.
/// The system refused memory. No memory on a region takes any.
pub const MEMORY_OUT_OF_MEMORY: u8 = 32;
/// A growth above the maximum or what addresses reach, or one that the limiter says no to.
pub const MEMORY_GROWTH: u8 = 33;
/// A read or a write that ends past the memory.
pub const MEMORY_ACCESS: u8 = 34;
/// A type that no memory has. The calls on regions return `INVALID_STATE` in its place.
pub const MEMORY_TYPE: u8 = 35;
/// The region is shorter than the new size.
pub const MEMORY_REGION_TOO_SHORT: u8 = 36;
/// The limiter said no to a creation, or returned an error.
pub const MEMORY_DENIED: u8 = 37;
/// A minimum of 2^64 bytes or more.
pub const MEMORY_SIZE_OVERFLOW: u8 = 38;
/// No call returns it.
pub const MEMORY_MAXIMUM_OVERFLOW: u8 = 39;
/// A growth costs more fuel than is left.
pub const MEMORY_OUT_OF_FUEL: u8 = 40;
/// The system refused memory, or a region is shorter than a table's new size.
pub const TABLE_OUT_OF_MEMORY: u8 = 48;
/// No call returns it.
pub const TABLE_MINIMUM_OVERFLOW: u8 = 49;
/// No call returns it.
pub const TABLE_MAXIMUM_OVERFLOW: u8 = 50;
/// The limiter said no to the creation of a table, or returned an error.
pub const TABLE_DENIED: u8 = 51;
/// A growth of a table above the maximum or what indices reach, or one that the limiter says no to.
pub const TABLE_GROWTH: u8 = 52;
/// An initialization that ends past the table or the items.
pub const TABLE_INIT: u8 = 53;
/// A fill that ends past the table.
pub const TABLE_FILL: u8 = 54;
/// A write past the table.
pub const TABLE_SET: u8 = 55;
/// A copy that ends past one of its tables.
pub const TABLE_COPY: u8 = 56;
/// The elements of two tables are of different types.
pub const TABLE_TYPE: u8 = 57;
/// A call on a table costs more fuel than is left.
pub const TABLE_OUT_OF_FUEL: u8 = 58;
// What tools/generate writes ends.
/// The meter is off.
pub const METERING_DISABLED: u8 = 64;
/// Less fuel is left than was asked for.
pub const OUT_OF_FUEL: u8 = 65;
/// The global can't be written.
pub const GLOBAL_IMMUTABLE: u8 = 72;
/// The value is of another type than the global.
pub const GLOBAL_TYPE: u8 = 73;
/// An element segment has more items than 32 bits count.
pub const SEGMENT_TOO_MANY_ITEMS: u8 = 80;
/// The system refused memory for an element segment.
pub const SEGMENT_OUT_OF_MEMORY: u8 = 81;
/// Numbers stand for no memory or table on its region.
pub const INVALID_STATE: u8 = 96;
/// A growth asks a limiter.
pub const ASKS: u8 = 97;
/// The limiter was asked about another size.
pub const OTHER_SIZE: u8 = 98;
/// A quota holds less than what a memory or a table that ends has.
pub const NOT_HELD: u8 = 99;
/// No lane has the index.
pub const NO_LANE: u8 = 253;
/// The arrays differ in length.
pub const LENGTHS_DIFFER: u8 = 254;
/// No instruction has the number.
pub const UNKNOWN: u8 = 255;

/// The status of a refused call on a memory.
pub fn memory_status(error: MemoryError) -> u8
    ensures { result ≡ memory_status error }
{
    match error {
        // What tools/generate writes begins.
        MemoryError::OutOfSystemMemory => MEMORY_OUT_OF_MEMORY,
        MemoryError::OutOfBoundsGrowth => MEMORY_GROWTH,
        MemoryError::OutOfBoundsAccess => MEMORY_ACCESS,
        MemoryError::InvalidMemoryType => MEMORY_TYPE,
        MemoryError::InvalidStaticBufferSize => MEMORY_REGION_TOO_SHORT,
        MemoryError::ResourceLimiterDeniedAllocation => MEMORY_DENIED,
        MemoryError::MinimumSizeOverflow => MEMORY_SIZE_OVERFLOW,
        MemoryError::MaximumSizeOverflow => MEMORY_MAXIMUM_OVERFLOW,
        MemoryError::OutOfFuel { required_fuel: _ } => MEMORY_OUT_OF_FUEL,
        // What tools/generate writes ends.
    }
}

/// The status of a refused call on a table.
pub fn table_status(error: TableError) -> u8
    ensures { result ≡ table_status error }
{
    match error {
        // What tools/generate writes begins.
        TableError::OutOfSystemMemory => TABLE_OUT_OF_MEMORY,
        TableError::MinimumSizeOverflow => TABLE_MINIMUM_OVERFLOW,
        TableError::MaximumSizeOverflow => TABLE_MAXIMUM_OVERFLOW,
        TableError::ResourceLimiterDeniedAllocation => TABLE_DENIED,
        TableError::GrowOutOfBounds => TABLE_GROWTH,
        TableError::InitOutOfBounds => TABLE_INIT,
        TableError::FillOutOfBounds => TABLE_FILL,
        TableError::SetOutOfBounds => TABLE_SET,
        TableError::CopyOutOfBounds => TABLE_COPY,
        TableError::ElementTypeMismatch => TABLE_TYPE,
        TableError::OutOfFuel { required_fuel: _ } => TABLE_OUT_OF_FUEL,
        // What tools/generate writes ends.
    }
}

/// Leaves the fuel that a call on a memory needs, and returns its status.
pub fn memory_refusal(error: MemoryError, number: &mut u64) -> u8
    ensures status { result ≡ memory_status error }
    ensures number { number.new ≡ memory_fuel_needed error number.old }
{
    if let MemoryError::OutOfFuel { required_fuel } = error {
        *number = required_fuel;
    }
    memory_status(error)
}

/// Leaves the fuel that a call on a table needs, and returns its status.
pub fn table_refusal(error: TableError, number: &mut u64) -> u8
    ensures status { result ≡ table_status error }
    ensures number { number.new ≡ table_fuel_needed error number.old }
{
    if let TableError::OutOfFuel { required_fuel } = error {
        *number = required_fuel;
    }
    table_status(error)
}
