//! Linear memories whose bytes are the first of a region; the rest of it is room to grow in place.
//! The caller keeps a memory's type and its size in bytes, and passes them to each call with the
//! region, or the memory's bytes alone. Own: upstream's memory borrows its buffer while it lives.
ghost use Rattle.std.specs.Prelude.{◌≡◌, ◌≤◌, ◌+◌, ◌*◌, ◌/◌, length, drop, OnErr, IfOk, Some, MatchOption, true, false};
ghost use Rattle.wasmi_meter.specs.Limiter.{optional_rules, lent_limiter, KeepsLoan};
ghost use Rattle.wasmi_store.specs.Buffer.{Lent};
ghost use Rattle.wasmi_store.specs.Growth.{metered_value, metered};
ghost use Rattle.wasmi_store.specs.Write.{filled, copied, BulkWrites};
ghost use Rattle.wasmi_store.specs.Memory.{IsSized, MakesMemory, GrowsMemory, page_bytes, in_bounds, maximum_bytes};
ghost use Rattle.wasmi_region.specs.Memory.{memory_in, made_in, made_in_zeros, zeroed};

use wasmi_meter::{Fuel, MemoryError, ResourceLimiter, ResourceLimiterRef};
use wasmi_store::MemoryType;
use wasmi_store::bulk::{MEMORY_OUTSIDE as OUTSIDE, copy_items, copy_items_within, fill_items};
use wasmi_store::growth::{MEMORY_DENIED as DENIED, decide_growth, permitted_minimum, tell};
use wasmi_store::range::fill_range;
pub use wasmi_store::range::{read_bytes, write_bytes};

/// Whether a memory of a type may have `size` bytes: whole pages, as many as the type allows.
pub fn is_sized(ty: MemoryType, size: usize) -> bool
    ensures { (result ≡ true → IsSized ty size) × (IsSized ty size → result ≡ true) }
{
    let pages = ty.pages_in(size);
    ty.minimum() <= pages && ty.size_of_pages(pages) == Some(size)
}

/// The number of whole pages in `size` bytes.
pub fn pages(ty: MemoryType, size: usize) -> u64
    ensures { result ≡ size / page_bytes ty.page }
{
    ty.pages_in(size)
}

/// Makes a memory of zeros at the front of a region, at the minimum of its type, and returns its
/// size in bytes. It takes no fuel, and leaves the bytes past the minimum alone.
pub fn make<L: ResourceLimiter>(
    ty: MemoryType,
    region: &mut [u8],
    limiter: &mut ResourceLimiterRef<L>,
) -> Result<usize, MemoryError>
    ensures loan { KeepsLoan limiter.old limiter.new }
    ensures made { MakesMemory (optional_rules L.rules) (Lent region.old) ty
        (lent_limiter limiter.old) (made_in ty region.new result) (lent_limiter limiter.new) }
    ensures sized { IfOk result (λ size. IsSized ty size × (size ≤ length region.new)) }
    ensures rest { IfOk result (λ size. drop size region.new ≡ drop size region.old) }
    ensures refused { OnErr result (region.new ≡ region.old) }
    ensures len { length region.new ≡ length region.old }
{
    let size = make_zeroed(ty, region, limiter)?;
    fill_range(region, 0, size, 0);
    Ok(size)
}

/// Makes a memory as [`make`] does, at the front of a region whose bytes up to the minimum are
/// zeros already, as fresh pages are. It writes no byte: the memory has what stands there.
pub fn make_zeroed<L: ResourceLimiter>(
    ty: MemoryType,
    region: &[u8],
    limiter: &mut ResourceLimiterRef<L>,
) -> Result<usize, MemoryError>
    ensures loan { KeepsLoan limiter.old limiter.new }
    ensures made { MakesMemory (optional_rules L.rules) (Lent region.now) ty
        (lent_limiter limiter.old) (made_in_zeros ty region.now result) (lent_limiter limiter.new) }
    ensures sized { IfOk result (λ size. IsSized ty size × (size ≤ length region.now)) }
{
    let size = permitted_minimum(ty, limiter)?;
    if region.len() < size {
        return Err(tell(limiter, MemoryError::InvalidStaticBufferSize, DENIED));
    }
    Ok(size)
}

/// Grows a memory of `size` bytes at the front of a region by `additional` pages of zeros, and
/// returns the old size in pages; `size` becomes the new size in bytes. A growth by 0 pages changes
/// nothing and asks no limiter.
pub fn grow<L: ResourceLimiter>(
    ty: MemoryType,
    size: &mut usize,
    region: &mut [u8],
    additional: u64,
    fuel: &mut Fuel,
    limiter: &mut ResourceLimiterRef<L>,
) -> Result<u64, MemoryError>
    requires sized { IsSized ty size.old }
    requires within { size.old ≤ length region.old }
    ensures loan { KeepsLoan limiter.old limiter.new }
    ensures grown { GrowsMemory (optional_rules L.rules) additional
        (metered_value (memory_in ty region.old size.old) (Some fuel.old)
        (lent_limiter limiter.old)) result
        (metered_value (memory_in ty region.new size.new) (Some fuel.new)
        (lent_limiter limiter.new)) }
    ensures sized { IsSized ty size.new }
    ensures within { size.new ≤ length region.new }
    ensures len { length region.new ≡ length region.old }
    ensures rest { drop size.new region.new ≡ drop size.new region.old }
    ensures refused { OnErr result (region.new ≡ region.old) }
    ensures size { OnErr result (size.new ≡ size.old) }
{
    let old_size = *size;
    let old_pages = grow_zeroed(ty, size, region, additional, fuel, limiter)?;
    fill_range(region, old_size, *size, 0);
    Ok(old_pages)
}

/// Grows a memory as [`grow`] does, into bytes of the region that are zeros already, as fresh pages
/// of the system are. It writes no byte: where they aren't zeros, the memory has what stands there.
pub fn grow_zeroed<L: ResourceLimiter>(
    ty: MemoryType,
    size: &mut usize,
    region: &[u8],
    additional: u64,
    fuel: &mut Fuel,
    limiter: &mut ResourceLimiterRef<L>,
) -> Result<u64, MemoryError>
    requires sized { IsSized ty size.old }
    requires within { size.old ≤ length region.now }
    ensures loan { KeepsLoan limiter.old limiter.new }
    ensures grown { GrowsMemory (optional_rules L.rules) additional
        (metered_value (memory_in ty region.now size.old) (Some fuel.old)
        (lent_limiter limiter.old)) result
        (metered_value (memory_in ty (zeroed region.now size.old size.new) size.new)
        (Some fuel.new) (lent_limiter limiter.new)) }
    ensures sized { IsSized ty size.new }
    ensures within { size.new ≤ length region.now }
    ensures larger { size.old ≤ size.new }
    ensures len { length (zeroed region.now size.old size.new) ≡ length region.now }
    ensures rest { drop size.new (zeroed region.now size.old size.new) ≡ drop size.new region.now }
    ensures refused { OnErr result (zeroed region.now size.old size.new ≡ region.now) }
    ensures size { OnErr result (size.new ≡ size.old) }
{
    let old_size = *size;
    let old_pages = ty.pages_in(old_size);
    if additional == 0 {
        return Ok(old_pages);
    }
    let Some(new_size) = ty.grown_size(old_size, additional) else {
        return Err(MemoryError::OutOfBoundsGrowth);
    };
    let maximum = ty.maximum_size();
    let has_room = new_size <= region.len();
    decide_growth(old_size, new_size, maximum, has_room, fuel, limiter)?;
    *size = new_size;
    Ok(old_pages)
}

/// What a growth by `additional` pages asks a limiter: the new size in bytes, and the most that the
/// type allows. It is `None` if the type refuses the growth; then no limiter is asked.
pub fn question(ty: MemoryType, size: usize, additional: u64) -> Option<(usize, Option<usize>)>
    requires sized { IsSized ty size }
    ensures asked { MatchOption result
        (in_bounds ty (size / page_bytes ty.page + additional) ≡ false)
        (λ asked. (in_bounds ty (size / page_bytes ty.page + additional) ≡ true)
        × (asked.0 ≡ size + additional * page_bytes ty.page) × (asked.1 ≡ maximum_bytes ty)) }
{
    Some((ty.grown_size(size, additional)?, ty.maximum_size()))
}

/// Fills bytes of a memory, as [`wasmi_store::LinearMemory::fill`] does.
pub fn fill(
    bytes: &mut [u8],
    dst: u64,
    value: u8,
    len: u64,
    fuel: &mut Fuel,
) -> Result<(), MemoryError>
    ensures { BulkWrites (filled bytes.old dst value len) len
        (metered bytes.old (Some fuel.old)) result (metered bytes.new (Some fuel.new)) }
{
    fill_items(bytes, dst, value, len, OUTSIDE, fuel)
}

/// Copies bytes of a memory, as [`wasmi_store::LinearMemory::copy_within`] does.
pub fn copy_within(
    bytes: &mut [u8],
    dst: u64,
    src: u64,
    len: u64,
    fuel: &mut Fuel,
) -> Result<(), MemoryError>
    ensures { BulkWrites (copied bytes.old dst bytes.old src len) len
        (metered bytes.old (Some fuel.old)) result (metered bytes.new (Some fuel.new)) }
{
    copy_items_within(bytes, dst, src, len, OUTSIDE, fuel)
}

/// Copies bytes to a memory, as [`wasmi_store::LinearMemory::copy`] does.
pub fn copy(
    bytes: &mut [u8],
    source: &[u8],
    dst: u64,
    src: u64,
    len: u64,
    fuel: &mut Fuel,
) -> Result<(), MemoryError>
    ensures { BulkWrites (copied bytes.old dst source.now src len) len
        (metered bytes.old (Some fuel.old)) result (metered bytes.new (Some fuel.new)) }
{
    copy_items(bytes, dst, source, src, len, OUTSIDE, fuel)
}

/// Copies a segment to a memory, as [`wasmi_store::LinearMemory::init`] does.
pub fn init(
    bytes: &mut [u8],
    segment: &[u8],
    dst: u64,
    src: u32,
    len: u32,
    fuel: &mut Fuel,
) -> Result<(), MemoryError>
    ensures { BulkWrites (copied bytes.old dst segment.now src len) len
        (metered bytes.old (Some fuel.old)) result (metered bytes.new (Some fuel.new)) }
{
    let (src, len) = (u64::from(src), u64::from(len));
    copy_items(bytes, dst, segment, src, len, OUTSIDE, fuel)
}
