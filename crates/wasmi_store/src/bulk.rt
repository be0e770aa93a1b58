//! Fills, copies and initializations over a range of a memory's bytes or of a table's elements, for
//! fuel. The bounds are tested first, then the fuel, also for no item. A write that is refused writes and
//! takes nothing. A bound is cast after the test alone, when it is no greater than a length.
//!
//! Own: upstream has no bulk instructions for memories. They are tested and charged as for tables.
ghost use Rattle.std.specs.Prelude.{◌≡◌, length, nat_eq, if◌then◌else◌, None, Some};
ghost use Rattle.std.specs.Option.{option_map};
ghost use Rattle.wasmi_store.specs.Growth.{metered};
ghost use Rattle.wasmi_store.specs.Write.{filled, copied, item_price, WritesItems};

use crate::growth::{GrowthError, charge};
use crate::range::{Chunk, copy_overlapping, fill_range, lies_within, write_range};
use wasmi_meter::{Fuel, MemoryError, TableError, ValueSize};

/// The error of a memory if a range ends past its list.
pub const MEMORY_OUTSIDE: MemoryError = MemoryError::OutOfBoundsAccess;

/// Fills `len` items from `dst` on with a value, of which a clone is the value itself (core
/// specification, memory.fill, table.fill). `outside` is the error if they end past their list.
pub fn fill_items<T: Copy + ValueSize, E: GrowthError>(
    items: &mut [T],
    dst: u64,
    value: T,
    len: u64,
    outside: E,
    fuel: &mut Fuel,
) -> Result<(), E>
    requires infallible { T.is_infallible value }
    requires same { (clone : T) → T.is_clone value clone → clone ≡ value }
    ensures written { WritesItems E.unpaid (filled items.old dst value len) outside
        (Some (item_price T.SIZE len)) (metered items.old (Some fuel.old)) result
        (metered items.new (Some fuel.new)) }
    ensures len { length items.new ≡ length items.old }
{
    if !lies_within(items, dst, len) {
        return Err(outside);
    }
    if let Err(required_fuel) = charge::<T>(fuel, len) {
        return Err(E::out_of_fuel(required_fuel));
    }
    let (start, end) = (dst as usize, (dst + len) as usize);
    fill_range(items, start, end, value);
    Ok(())
}

/// Copies `len` items from `src` on over those from `dst` on: the old ones if they overlap (core
/// specification, memory.copy, table.copy). `outside` is the error if a range ends past the list.
pub fn copy_items_within<T: Chunk + ValueSize, E: GrowthError>(
    items: &mut [T],
    dst: u64,
    src: u64,
    len: u64,
    outside: E,
    fuel: &mut Fuel,
) -> Result<(), E>
    ensures written { WritesItems E.unpaid (copied items.old dst items.old src len) outside
        (Some (item_price T.SIZE len)) (metered items.old (Some fuel.old)) result
        (metered items.new (Some fuel.new)) }
    ensures len { length items.new ≡ length items.old }
{
    if !lies_within(items, src, len) || !lies_within(items, dst, len) {
        return Err(outside);
    }
    if let Err(required_fuel) = charge::<T>(fuel, len) {
        return Err(E::out_of_fuel(required_fuel));
    }
    copy_overlapping(items, dst as usize, src as usize, len as usize);
    Ok(())
}

/// Copies `len` items of a source, from `src` on, over those from `dst` on (core specification,
/// memory.copy, table.copy, memory.init). `outside` is the error if a range ends past its list.
pub fn copy_items<T: Copy + ValueSize, E: GrowthError>(
    items: &mut [T],
    dst: u64,
    source: &[T],
    src: u64,
    len: u64,
    outside: E,
    fuel: &mut Fuel,
) -> Result<(), E>
    ensures written { WritesItems E.unpaid (copied items.old dst source.now src len) outside
        (Some (item_price T.SIZE len)) (metered items.old (Some fuel.old)) result
        (metered items.new (Some fuel.new)) }
    ensures len { length items.new ≡ length items.old }
{
    if !lies_within(source, src, len) || !lies_within(items, dst, len) {
        return Err(outside);
    }
    if let Err(required_fuel) = charge::<T>(fuel, len) {
        return Err(E::out_of_fuel(required_fuel));
    }
    let (dst, src, len) = (dst as usize, src as usize, len as usize);
    write_range(items, dst, &source[src..src + len]);
    Ok(())
}

/// Copies `len` items of an element segment, from `src` on, over a table's elements from `dst` on.
/// Copying no items costs no fuel.
pub fn init_elements<T: Copy + ValueSize>(
    elements: &mut [T],
    dst: u64,
    items: &[T],
    src: u64,
    len: u64,
    fuel: &mut Fuel,
) -> Result<(), TableError>
    ensures written { WritesItems TableError.OutOfFuel (copied elements.old dst items.now src len)
        TableError.InitOutOfBounds
        (option_map (item_price T.SIZE) (if nat_eq len 0 then None else Some len))
        (metered elements.old (Some fuel.old)) result (metered elements.new (Some fuel.new)) }
    ensures len { length elements.new ≡ length elements.old }
{
    if len == 0 && lies_within(items, src, 0) && lies_within(elements, dst, 0) {
        return Ok(());
    }
    let outside = TableError::InitOutOfBounds;
    copy_items(elements, dst, items, src, len, outside, fuel)
}
