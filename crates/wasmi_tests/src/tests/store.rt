//! Meters, limiters, memories and tables; what their tests share: types, meters, values.
mod limiters;
mod memories;
mod tables;

use super::same;
use std::alloc::Global;
use std::process::Abort;
use wasmi_meter::{
    CustomFuelCosts, Fuel, FuelCostsProvider, MemoryError, NoLimits, ResourceLimiter,
    ResourceLimiterRef,
};
use wasmi_raw::RawRef;
use wasmi_store::{Memory, MemoryType, Table, TableType};
use wasmi_typed::TypedRawRef;
use wasmi_types::RefType;

/// Builds a type of memories, which may be invalid.
fn build_type(
    minimum: u64,
    maximum: Option<u64>,
    page_size_log2: u8,
    memory64: bool,
) -> Result<MemoryType, MemoryError> {
    let mut builder = MemoryType::builder();
    builder
        .min(minimum)
        .max(maximum)
        .page_size_log2(page_size_log2)
        .memory64(memory64);
    builder.build()
}

/// Pages of 64 KiB under 32-bit addresses.
fn page_type(rt: &impl Abort, minimum: u64, maximum: Option<u64>) -> MemoryType {
    build_type(minimum, maximum, 16, false).expect(rt, "a valid type")
}

/// A meter with so much fuel, of which one is taken for 64 copied bytes.
fn metered(fuel: u64) -> Fuel {
    metered_at(64, fuel)
}

/// A meter with so much fuel, of which one is taken for so many copied bytes.
fn metered_at(bytes_copied_per_fuel: u32, fuel: u64) -> Fuel {
    let costs = CustomFuelCosts {
        bytes_copied_per_fuel,
        fuel_per_bytes_translated: 7,
        fuel_per_bytes_validated: 2,
    };
    let mut meter = Fuel::new(true, FuelCostsProvider::custom(costs));
    let _ = meter.set_fuel(fuel);
    meter
}

/// A new memory without limits.
fn ample_memory(rt: &impl Abort, alloc: Global, ty: MemoryType) -> Memory<'static> {
    new_memory(alloc, ty, &mut NoLimits).expect(rt, "a memory")
}

/// A new memory under a limiter.
fn new_memory<L: ResourceLimiter>(
    alloc: Global,
    ty: MemoryType,
    limiter: &mut L,
) -> Result<Memory<'static>, MemoryError> {
    Memory::new(alloc, ty, &mut ResourceLimiterRef::from(limiter))
}

/// A new memory on a lent region, under a limiter.
fn lent_memory<'r, L: ResourceLimiter>(
    ty: MemoryType,
    limiter: &mut L,
    region: &'r mut [u8],
) -> Result<Memory<'r>, MemoryError> {
    Memory::new_static(ty, &mut ResourceLimiterRef::from(limiter), region)
}

/// Grows a memory under a limiter.
fn grow<L: ResourceLimiter>(
    memory: &mut Memory,
    pages: u64,
    fuel: Option<&mut Fuel>,
    limiter: &mut L,
) -> Result<u64, MemoryError> {
    memory.grow(pages, fuel, &mut ResourceLimiterRef::from(limiter))
}

/// A reference to a function.
fn func(bits: u32) -> TypedRawRef {
    TypedRawRef::new(RawRef::from(bits), RefType::Func)
}

/// A reference to an object of the host.
fn external(bits: u32) -> TypedRawRef {
    TypedRawRef::new(RawRef::from(bits), RefType::Extern)
}

/// A table under no limits, full of one function.
fn table_of(rt: &impl Abort, alloc: Global, ty: TableType, init: TypedRawRef) -> Table {
    let mut limits = NoLimits;
    let mut limiter = ResourceLimiterRef::from(&mut limits);
    Table::new(alloc, ty, init, &mut limiter).expect(rt, "a table")
}

/// A table of functions, 1 to 5.
fn five_functions(rt: &impl Abort, alloc: Global) -> Table {
    let ty = TableType::new(RefType::Func, 5, None);
    let mut table = table_of(rt, alloc, ty, func(1));
    for index in 1..5u32 {
        let set = table.set(u64::from(index), func(index + 1));
        same(rt, "an element", set, Ok(()));
    }
    table
}

/// Compares the first five elements of a table of functions.
fn same_elements(rt: &impl Abort, what: &str, table: &Table, expected: [u32; 5]) {
    for index in 0..5u32 {
        let bits = expected[index as usize];
        let element = table.get(u64::from(index));
        same(rt, what, element, Some(func(bits)));
    }
}

/// A minimum and a maximum.
type Limits = (u32, Option<u32>);

/// Two types by their limits, and whether the first is a subtype of the second.
static SUBTYPES: [(&str, Limits, Limits, bool); 7] = [
    ("the same maximum", (0, Some(1)), (0, Some(1)), true),
    ("a smaller maximum", (0, Some(1)), (0, Some(2)), true),
    ("a greater maximum", (0, Some(2)), (0, Some(1)), false),
    ("a greater minimum", (2, None), (1, None), true),
    ("the same minimum", (0, None), (0, None), true),
    ("a maximum for none", (0, Some(1)), (0, None), true),
    ("none for a maximum", (0, None), (0, Some(1)), false),
];
