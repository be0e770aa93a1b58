//! The types and meters of plain numbers; numbers that fit 32 bits or that a flag says are there.
ghost use Rattle.std.specs.Prelude.{◌≡◌, MatchOption, Some};
ghost use Rattle.wasmi_store.specs.Memory.{IsValid, MemoryTypeValue, named_type};
ghost use Rattle.wasmi_c.specs.Types.{if_flag, memory_type_of, meter_of, reference_type_of, settings_of, table_type_of, u32_of, val_type_of};

use wasmi_meter::{CustomFuelCosts, Fuel, FuelCostsProvider};
use wasmi_store::{MemoryType, TableType};
use wasmi_types::{RefType, ValType};

/// The value types, by number.
pub const VAL_TYPES: [ValType; 7] = [
    ValType::I32,
    ValType::I64,
    ValType::F32,
    ValType::F64,
    ValType::V128,
    ValType::FuncRef,
    ValType::ExternRef,
];

/// A number as one of 32 bits, if it is below 2^32.
pub fn to_u32(number: u64) -> Option<u32>
    ensures { result ≡ u32_of number }
{
    u32::try_from(number).ok()
}

/// The value type of a number, if there is one.
pub fn val_type(number: u8) -> Option<ValType>
    ensures { result ≡ val_type_of number }
{
    VAL_TYPES.get(usize::from(number)).copied()
}

/// The reference type of a number, if there is one.
pub fn reference_type(number: u8) -> Option<RefType>
    ensures { result ≡ reference_type_of number }
{
    val_type(number)?.as_ref()
}

/// A number that is there where a flag isn't 0.
pub fn if_flag(flag: u8, number: u64) -> Option<u64>
    ensures { result ≡ if_flag flag number }
{
    if flag == 0 { None } else { Some(number) }
}

/// The type of a memory, if there is such a type. The limits are in pages.
pub fn memory_type(
    minimum: u64,
    maximum: Option<u64>,
    is_64: u8,
    page_size_log2: u8,
) -> Option<MemoryType>
    ensures value { result ≡ memory_type_of (settings_of minimum maximum is_64 page_size_log2) }
    ensures valid { MatchOption result
        ((ty : MemoryTypeValue)
        → named_type (settings_of minimum maximum is_64 page_size_log2) ≡ Some ty
        → IsValid ty → ⊥)
        (λ ty. (named_type (settings_of minimum maximum is_64 page_size_log2) ≡ Some ty)
        × IsValid ty) }
{
    let mut builder = MemoryType::builder();
    builder
        .min(minimum)
        .max(maximum)
        .page_size_log2(page_size_log2)
        .memory64(is_64 != 0);
    builder.build().ok()
}

/// The type of a table, if there is such a type. The limits are in elements.
pub fn table_type(element: u8, minimum: u64, maximum: Option<u64>, is_64: u8) -> Option<TableType>
    ensures { result ≡ table_type_of element minimum maximum is_64 }
{
    let element = reference_type(element)?;
    if maximum.is_some_and(|most| most < minimum) {
        return None;
    }
    if is_64 != 0 {
        return Some(TableType::new64(element, minimum, maximum));
    }
    let minimum = to_u32(minimum)?;
    let maximum = match maximum {
        Some(most) => Some(to_u32(most)?),
        None => None,
    };
    Some(TableType::new(element, minimum, maximum))
}

/// A meter with so much left, if it is on, and these costs.
pub fn meter(left: Option<u64>, costs: CustomFuelCosts) -> Fuel
    ensures { result ≡ meter_of left costs }
{
    let mut fuel = Fuel::new(left.is_some(), FuelCostsProvider::custom(costs));
    if let Some(left) = left {
        let _ = fuel.set_fuel(left);
    }
    fuel
}
