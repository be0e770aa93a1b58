//! Tables whose elements are the first of a region of references. The caller keeps a table's type
//! and its size, and passes them to each call with the region or with the elements; the rest of the
//! region is room to grow in place. What a growth asks a limiter. A reference is a number, whose
//! type is the caller's matter. Own: upstream's table owns its elements.
ghost use Rattle.std.specs.Prelude.{◌≡◌, ◌≤◌, ◌<◌, ◌+◌, length, drop, OnErr, IfOk, Some, MatchOption, true, false};
ghost use Rattle.wasmi_meter.specs.Limiter.{optional_rules, lent_limiter, KeepsLoan};
ghost use Rattle.wasmi_store.specs.Growth.{metered_value, metered};
ghost use Rattle.wasmi_store.specs.Table.{table_of, IsSized, SetsTableRaw, WritesTable, raw_filling_of, copy_of, initialization_of, is_indexable};
ghost use Rattle.wasmi_region.specs.Table.{table_in, made_in, items_of, MakesTableIn, GrowsTableIn};

use wasmi_meter::{Fuel, ResourceLimiter, ResourceLimiterRef, TableError};
use wasmi_raw::RawRef;
use wasmi_store::TableType;
use wasmi_store::bulk::{copy_items, copy_items_within, fill_items, init_elements};
use wasmi_store::growth::{TABLE_DENIED as DENIED, charge, permission, tell};
use wasmi_store::range::{fill_range, write_range};

/// Whether a table of a type may have `size` elements.
pub fn is_sized(ty: TableType, size: usize) -> bool
    ensures { (result ≡ true → IsSized ty size) × (IsSized ty size → result ≡ true) }
{
    ty.minimum() <= size as u64 && ty.indexes_size(size) && ty.allows_size(size)
}

/// Makes a table with one reference in each place at the front of a region, at the minimum of its
/// type, and returns its size. It takes no fuel, and leaves the elements past the minimum alone.
pub fn make<L: ResourceLimiter>(
    ty: TableType,
    region: &mut [u32],
    reference: u32,
    limiter: &mut ResourceLimiterRef<L>,
) -> Result<usize, TableError>
    ensures loan { KeepsLoan limiter.old limiter.new }
    ensures made { MakesTableIn (optional_rules L.rules) ty (length region.old) reference
        (lent_limiter limiter.old) (made_in ty region.new result) (lent_limiter limiter.new) }
    ensures sized { IfOk result (λ size. IsSized ty size × (size ≤ length region.new)) }
    ensures rest { IfOk result (λ size. drop size region.new ≡ drop size region.old) }
    ensures refused { OnErr result (region.new ≡ region.old) }
    ensures len { length region.new ≡ length region.old }
{
    let Ok(size) = usize::try_from(ty.minimum()) else {
        return Err(TableError::MinimumSizeOverflow);
    };
    let answer = limiter.table_growing(0, size, ty.maximum_size());
    permission(answer, DENIED, DENIED)?;
    if region.len() < size {
        return Err(tell(limiter, TableError::OutOfSystemMemory, DENIED));
    }
    let front = &mut region[..size];
    front.fill(reference);
    Ok(size)
}

/// Grows a table of `size` elements at the front of a region by `delta`, each the given reference,
/// and returns the old size; `size` becomes the new one. A growth by 0 changes nothing and asks no
/// limiter. What lies past the table is unchanged.
pub fn grow<L: ResourceLimiter>(
    ty: TableType,
    size: &mut usize,
    region: &mut [u32],
    delta: u64,
    reference: u32,
    fuel: &mut Fuel,
    limiter: &mut ResourceLimiterRef<L>,
) -> Result<u64, TableError>
    requires sized { IsSized ty size.old }
    requires within { size.old ≤ length region.old }
    ensures loan { KeepsLoan limiter.old limiter.new }
    ensures grown { GrowsTableIn (optional_rules L.rules) (length region.old) delta reference
        (metered_value (table_in ty region.old size.old) (Some fuel.old)
        (lent_limiter limiter.old)) result
        (metered_value (table_in ty region.new size.new) (Some fuel.new)
        (lent_limiter limiter.new)) }
    ensures sized { IsSized ty size.new }
    ensures within { size.new ≤ length region.new }
    ensures len { length region.new ≡ length region.old }
    ensures rest { drop size.new region.new ≡ drop size.new region.old }
    ensures refused { OnErr result (region.new ≡ region.old) }
    ensures size { OnErr result (size.new ≡ size.old) }
{
    let old_size = *size as u64;
    if delta == 0 {
        return Ok(old_size);
    }
    let Some(desired) = ty.grown_size(old_size, delta) else {
        return Err(TableError::GrowOutOfBounds);
    };
    let answer = limiter.table_growing(*size, desired, ty.maximum_size());
    permission(answer, TableError::GrowOutOfBounds, DENIED)?;
    if !ty.allows_size(desired) {
        return Err(tell(limiter, TableError::GrowOutOfBounds, DENIED));
    }
    if let Err(required_fuel) = charge::<RawRef>(fuel, delta) {
        return Err(tell(limiter, TableError::OutOfFuel { required_fuel }, DENIED));
    }
    if region.len() < desired {
        return Err(tell(limiter, TableError::OutOfSystemMemory, DENIED));
    }
    fill_range(region, *size, desired, reference);
    *size = desired;
    Ok(old_size)
}

/// What a growth by `delta` elements asks a limiter: the new size, and the maximum. It is `None` if
/// there would be as many elements as indices; then no limiter is asked.
pub fn question(ty: TableType, size: usize, delta: u64) -> Option<(usize, Option<usize>)>
    ensures { MatchOption result (is_indexable ty (size + delta) ≡ false)
        (λ asked. (is_indexable ty (size + delta) ≡ true)
        × (asked.0 ≡ size + delta) × (asked.1 ≡ ty.maximum)) }
{
    Some((ty.grown_size(size as u64, delta)?, ty.maximum_size()))
}

/// Sets the element at an index.
pub fn set(ty: TableType, elements: &mut [u32], index: u64, value: u32) -> Result<(), TableError>
    ensures { SetsTableRaw index value (table_of ty elements.old) result
        (table_of ty elements.new) }
{
    let index = usize::try_from(index).map_err(|_| TableError::SetOutOfBounds)?;
    if index >= elements.len() {
        return Err(TableError::SetOutOfBounds);
    }
    write_range(elements, index, &[value]);
    Ok(())
}

/// Fills `len` elements from `dst` on with a reference.
pub fn fill(
    ty: TableType,
    elements: &mut [u32],
    dst: u64,
    reference: u32,
    len: u64,
    fuel: &mut Fuel,
) -> Result<(), TableError>
    ensures { WritesTable (raw_filling_of dst reference len)
        (metered (table_of ty elements.old) (Some fuel.old)) result
        (metered (table_of ty elements.new) (Some fuel.new)) }
{
    let outside = TableError::FillOutOfBounds;
    fill_items(elements, dst, reference, len, outside, fuel)
}

/// Copies `len` elements from `src` on over those from `dst` on.
pub fn copy_within(
    ty: TableType,
    elements: &mut [u32],
    dst: u64,
    src: u64,
    len: u64,
    fuel: &mut Fuel,
) -> Result<(), TableError>
    ensures { WritesTable (copy_of dst src len (table_of ty elements.old))
        (metered (table_of ty elements.old) (Some fuel.old)) result
        (metered (table_of ty elements.new) (Some fuel.new)) }
{
    copy_items_within(elements, dst, src, len, TableError::CopyOutOfBounds, fuel)
}

/// Copies `len` items of a table, from `src` on, over the elements of another table from `dst` on.
pub fn copy(
    ty: TableType,
    elements: &mut [u32],
    source: TableType,
    items: &[u32],
    dst: u64,
    src: u64,
    len: u64,
    fuel: &mut Fuel,
) -> Result<(), TableError>
    ensures { WritesTable (copy_of dst src len (table_of source items.now))
        (metered (table_of ty elements.old) (Some fuel.old)) result
        (metered (table_of ty elements.new) (Some fuel.new)) }
{
    ty.ensure_element_type_matches(source.element())?;
    let outside = TableError::CopyOutOfBounds;
    copy_items(elements, dst, items, src, len, outside, fuel)
}

/// Copies `len` items of the type of a table's elements, from `src` on, over those from `dst` on.
pub fn init(
    ty: TableType,
    elements: &mut [u32],
    items: &[u32],
    dst: u64,
    src: u64,
    len: u64,
    fuel: &mut Fuel,
) -> Result<(), TableError>
    ensures { WritesTable (initialization_of dst src len (items_of ty items.now))
        (metered (table_of ty elements.old) (Some fuel.old)) result
        (metered (table_of ty elements.new) (Some fuel.new)) }
{
    init_elements(elements, dst, items, src, len, fuel)
}
