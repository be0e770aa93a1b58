//! How a memory whose bytes are the first of a region that lies with C is made, grows, is read and
//! written, and what a growth of it asks. `number` is set to the fuel needed where less is left.
ghost use Rattle.std.specs.Prelude.{◌≡◌, ◌≤◌, ◌+◌, ◌/◌, ◌^◌, ◌⊎◌, false, Some, OnErr, IfOk, length};
ghost use Rattle.wasmi_meter.specs.Capped.{quota_rules};
ghost use Rattle.wasmi_meter.specs.Limiter.{optional_rules};
ghost use Rattle.wasmi_store.specs.Buffer.{Lent};
ghost use Rattle.wasmi_store.specs.Memory.{IsSized, MakesMemory, MemoryTypeValue, in_bounds, memory_growth, minimum_bytes, named_type, page_bytes};
ghost use Rattle.wasmi_region.specs.Memory.{made_in, made_in_zeros, memory_in, zeroed};
ghost use Rattle.wasmi_c.specs.Host.{is_about};
ghost use Rattle.wasmi_c.specs.MemoryCalls.{AsksEmbedded, CopiesBytesEmbedded, CountsEmbedded, EndsMemory, IsNoType, MakesEmbedded, ReadsEmbedded, WritesBytesEmbedded, WritesEmbedded, by_pages, copied_range, filled_range, made_over, of_memory};
ghost use Rattle.wasmi_c.specs.Placement.{GrowsAs, GrowsBy, IsNone, SettlesBy, status_of, written_number};
ghost use Rattle.wasmi_c.specs.Numbers.{embedded, limiter_of, metered_region as metered, placed, settings_of, IsState, KeepsQuota};

use crate::host::{HostAnswers, Question};
use crate::numbers::{MemoryNumbers, MeterNumbers, QuotaNumbers, Range, type_or_return};
use crate::status::{
    ASKS, DONE, INVALID_STATE, MEMORY_ACCESS, MEMORY_GROWTH, NOT_HELD, OTHER_SIZE, memory_refusal,
    memory_status,
};
use wasmi_meter::{Kind, MemoryError, ResourceLimiter, ResourceLimiterRef};
use wasmi_region::memory as region_memory;
use wasmi_store::MemoryType;
use wasmi_store::range::fill_range;

/// The binary logarithm of the size of a page that no memory has.
const NO_PAGE_SIZE: u8 = 255;

/// Makes a memory of this type under a limiter, as [`wasmi_region::memory::make`] does.
pub fn make_under<L: ResourceLimiter>(
    ty: MemoryType,
    region: &mut [u8],
    limiter: &mut L,
) -> Result<usize, MemoryError>
    ensures made { MakesMemory (optional_rules L.rules) (Lent region.old) ty
        (Some limiter.old) (made_in ty region.new result) (Some limiter.new) }
    ensures sized { IfOk result (λ size. IsSized ty size × (size ≤ length region.new)) }
    ensures refused { OnErr result (region.new ≡ region.old) }
{
    let mut lent = ResourceLimiterRef::from(limiter);
    let made = region_memory::make(ty, region, &mut lent);
    let _limiter = lent.into_limiter();
    made
}

/// Makes a memory of zeros at the front of a region, at the minimum of the numbers' type, and sets
/// their size. It takes no fuel, and leaves the bytes past the minimum alone.
pub fn make(memory: &mut MemoryNumbers, region: &mut [u8], quota: &mut QuotaNumbers) -> u8
    ensures made { MakesEmbedded (placed memory.old region.old) (limiter_of quota.old) result
        (placed memory.new region.new) (limiter_of quota.new) }
    ensures quota { KeepsQuota quota.old quota.new }
    ensures invalid { IsNoType memory.old → quota.new ≡ quota.old }
    ensures unasked { (ty : MemoryTypeValue) → named_type (settings_of memory.old) ≡ Some ty
        → 2 ^ 64 ≤ minimum_bytes ty → quota.new ≡ quota.old }
{
    let Some(ty) = memory.ty() else {
        return INVALID_STATE;
    };
    match make_under(ty, region, quota) {
        Ok(size) => {
            memory.size = size;
            DONE
        }
        Err(error) => memory_status(error),
    }
}

/// Makes a memory as [`make`] does, at the front of a region whose bytes up to the minimum are zeros
/// already, and writes no byte of it. Where they aren't zeros, the memory has what stands there.
pub fn make_zeroed(memory: &mut MemoryNumbers, region: &[u8], quota: &mut QuotaNumbers) -> u8
    ensures made { MakesEmbedded (placed memory.old region.now) (limiter_of quota.old) result
        (placed memory.new (made_over region.now memory.new.size result)) (limiter_of quota.new) }
    ensures quota { KeepsQuota quota.old quota.new }
    ensures invalid { IsNoType memory.old → quota.new ≡ quota.old }
    ensures unasked { (ty : MemoryTypeValue) → named_type (settings_of memory.old) ≡ Some ty
        → 2 ^ 64 ≤ minimum_bytes ty → quota.new ≡ quota.old }
{
    let Some(ty) = memory.ty() else {
        return INVALID_STATE;
    };
    match make_zeroed_under(ty, region, quota) {
        Ok(size) => {
            memory.size = size;
            DONE
        }
        Err(error) => memory_status(error),
    }
}

/// Makes a memory of this type under a limiter in zeros, as [`wasmi_region::memory::make_zeroed`].
pub fn make_zeroed_under<L: ResourceLimiter>(
    ty: MemoryType,
    region: &[u8],
    limiter: &mut L,
) -> Result<usize, MemoryError>
    ensures made { MakesMemory (optional_rules L.rules) (Lent region.now) ty
        (Some limiter.old) (made_in_zeros ty region.now result) (Some limiter.new) }
    ensures sized { IfOk result (λ size. IsSized ty size × (size ≤ length region.now)) }
{
    let mut lent = ResourceLimiterRef::from(limiter);
    let made = region_memory::make_zeroed(ty, region, &mut lent);
    let _limiter = lent.into_limiter();
    made
}

/// Grows a memory of this type under a limiter.
pub fn grow_under<L: ResourceLimiter>(
    memory: &mut MemoryNumbers,
    ty: MemoryType,
    region: &mut [u8],
    pages: u64,
    meter: &mut MeterNumbers,
    limiter: &mut L,
    number: &mut u64,
) -> u8
    requires state { IsState memory.old region.old ty }
    ensures grown { GrowsAs of_memory L.rules (by_pages pages) ty
        (embedded memory.old region.old meter.old (Some limiter.old) number.old) result
        (embedded memory.new region.new meter.new (Some limiter.new) number.new) }
{
    let old_size = memory.size;
    let status = grow_zeroed_under(memory, ty, region, pages, meter, limiter, number);
    fill_range(region, old_size, memory.size, 0);
    status
}

/// Grows a memory of this type under a limiter into bytes that are zeros, of which it writes none.
pub fn grow_zeroed_under<L: ResourceLimiter>(
    memory: &mut MemoryNumbers,
    ty: MemoryType,
    region: &[u8],
    pages: u64,
    meter: &mut MeterNumbers,
    limiter: &mut L,
    number: &mut u64,
) -> u8
    requires state { IsState memory.old region.now ty }
    ensures grown { GrowsAs of_memory L.rules (by_pages pages) ty
        (embedded memory.old region.now meter.old (Some limiter.old) number.old) result
        (embedded memory.new (zeroed region.now memory.old.size memory.new.size) meter.new
        (Some limiter.new) number.new) }
    ensures larger { memory.old.size ≤ memory.new.size }
    ensures within { memory.new.size ≤ length region.now }
{
    let mut fuel = meter.fuel();
    let mut size = memory.size;
    let mut lent = ResourceLimiterRef::from(limiter);
    let grown = region_memory::grow_zeroed(ty, &mut size, region, pages, &mut fuel, &mut lent);
    let _limiter = lent.into_limiter();
    memory.size = size;
    meter.store_left(&fuel);
    match grown {
        Ok(old_size) => {
            *number = old_size;
            DONE
        }
        Err(error) => memory_refusal(error, number),
    }
}

/// Grows a memory by pages of zeros. `number` becomes the old size in pages, or the fuel needed.
pub fn grow(
    memory: &mut MemoryNumbers,
    region: &mut [u8],
    pages: u64,
    meter: &mut MeterNumbers,
    quota: &mut QuotaNumbers,
    number: &mut u64,
) -> u8
    ensures grown { GrowsBy of_memory quota_rules (by_pages pages)
        (embedded memory.old region.old meter.old (limiter_of quota.old) number.old) result
        (embedded memory.new region.new meter.new (limiter_of quota.new) number.new) }
    ensures quota { KeepsQuota quota.old quota.new }
    ensures invalid { IsNone of_memory memory.old region.old → quota.new ≡ quota.old }
    ensures unasked { (ty : MemoryTypeValue) → IsState memory.old region.old ty
        → (pages ≡ 0) ⊎ (in_bounds ty (memory.old.size / page_bytes ty.page + pages) ≡ false)
        → quota.new ≡ quota.old }
{
    type_or_return!(ty, memory, region);
    grow_under(memory, ty, region, pages, meter, quota, number)
}

/// Grows a memory as [`grow`] does, into bytes of the region that are zeros already, and writes no
/// byte of it. Where they aren't zeros, the memory has what stands there.
pub fn grow_zeroed(
    memory: &mut MemoryNumbers,
    region: &[u8],
    pages: u64,
    meter: &mut MeterNumbers,
    quota: &mut QuotaNumbers,
    number: &mut u64,
) -> u8
    ensures grown { GrowsBy of_memory quota_rules (by_pages pages)
        (embedded memory.old region.now meter.old (limiter_of quota.old) number.old) result
        (embedded memory.new (zeroed region.now memory.old.size memory.new.size) meter.new
        (limiter_of quota.new) number.new) }
    ensures quota { KeepsQuota quota.old quota.new }
    ensures invalid { IsNone of_memory memory.old region.now → quota.new ≡ quota.old }
    ensures unasked { (ty : MemoryTypeValue) → IsState memory.old region.now ty
        → (pages ≡ 0) ⊎ (in_bounds ty (memory.old.size / page_bytes ty.page + pages) ≡ false)
        → quota.new ≡ quota.old }
{
    type_or_return!(ty, memory, region);
    grow_zeroed_under(memory, ty, region, pages, meter, quota, number)
}

/// Ends a memory: the quota gives up its bytes, and the numbers stand for no memory from then on. If
/// less is held, nothing is written.
pub fn release(memory: &mut MemoryNumbers, region: &[u8], quota: &mut QuotaNumbers) -> u8
    ensures ended { EndsMemory (placed memory.old region.now) (limiter_of quota.old) result
        memory.new (limiter_of quota.new) }
    ensures quota { KeepsQuota quota.old quota.new }
    ensures none { result ≡ DONE → IsNoType memory.new }
    ensures refused { (result ≡ DONE → ⊥) → quota.new ≡ quota.old }
{
    type_or_return!(_ty, memory, region);
    if !quota.release(Kind::Bytes, memory.size as u64) {
        return NOT_HELD;
    }
    memory.size = 0;
    memory.page_size_log2 = NO_PAGE_SIZE;
    DONE
}

/// What a growth by so many pages asks a limiter, with the status `ASKS`; it asks nothing where it
/// is by 0 (`DONE`), where the type refuses it, and where the numbers stand for no memory.
pub fn question(memory: &MemoryNumbers, region: &[u8], pages: u64, question: &mut Question) -> u8
    ensures { AsksEmbedded memory.now region.now pages result question.old question.new }
{
    type_or_return!(ty, memory, region);
    if pages == 0 {
        return DONE;
    }
    let Some((desired, most)) = region_memory::question(ty, memory.size, pages) else {
        return MEMORY_GROWTH;
    };
    *question = Question::new(memory.size, desired, most);
    ASKS
}

/// Grows a memory by pages of zeros, under a limiter that answers as the host says. If the answers
/// are about other sizes, nothing is written; else they say if it was asked and told.
pub fn settle(
    memory: &mut MemoryNumbers,
    region: &mut [u8],
    pages: u64,
    meter: &mut MeterNumbers,
    answers: &mut HostAnswers,
    number: &mut u64,
) -> u8
    ensures { SettlesBy of_memory (by_pages pages) answers.old
        (embedded memory.old region.old meter.old (Some answers.old) number.old) result
        (embedded memory.new region.new meter.new (Some answers.new) number.new) }
{
    type_or_return!(ty, memory, region);
    if !are_about(memory, ty, region, pages, answers) {
        return OTHER_SIZE;
    }
    answers.reset();
    grow_under(memory, ty, region, pages, meter, answers, number)
}

/// Whether the host's answers are to what a growth by so many pages asks.
fn are_about(
    memory: &MemoryNumbers,
    ty: MemoryType,
    region: &[u8],
    pages: u64,
    answers: &HostAnswers,
) -> bool
    requires state { IsState memory.now region.now ty }
    ensures about { result ≡ is_about answers.now
        (memory_growth pages (memory_in ty region.now memory.now.size)) }
{
    let asked = region_memory::question(ty, memory.size, pages);
    let is_desired = asked.is_none_or(|(desired, _)| desired == answers.desired);
    memory.size == answers.current && (pages == 0 || is_desired)
}

/// The size of a memory in pages.
pub fn size(memory: &MemoryNumbers, region: &[u8], pages: &mut u64) -> u8
    ensures { CountsEmbedded memory.now region.now pages.old result pages.new }
{
    type_or_return!(ty, memory, region);
    *pages = region_memory::pages(ty, memory.size);
    DONE
}

/// Copies bytes of a memory from an offset on, as many as the caller's.
pub fn read(memory: &MemoryNumbers, region: &[u8], offset: usize, bytes: &mut [u8]) -> u8
    ensures { ReadsEmbedded (placed memory.now region.now) offset bytes.old result bytes.new }
{
    type_or_return!(_ty, memory, region);
    match region_memory::read_bytes(&region[..memory.size], offset, bytes) {
        Ok(()) => DONE,
        Err(_) => MEMORY_ACCESS,
    }
}

/// Writes bytes over those of a memory from an offset on.
pub fn write(memory: &MemoryNumbers, region: &mut [u8], offset: usize, bytes: &[u8]) -> u8
    ensures { WritesEmbedded (placed memory.now region.old) offset bytes.now result region.new }
{
    type_or_return!(_ty, memory, region);
    match region_memory::write_bytes(&mut region[..memory.size], offset, bytes) {
        Ok(()) => DONE,
        Err(_) => MEMORY_ACCESS,
    }
}

/// Leaves the fuel that a write to a memory needs, if it is refused for it, and returns its status.
fn leave_write(written: Result<(), MemoryError>, number: &mut u64) -> u8
    ensures status { result ≡ status_of of_memory written }
    ensures number { number.new ≡ written_number of_memory written number.old }
{
    match written {
        Ok(()) => DONE,
        Err(error) => memory_refusal(error, number),
    }
}

/// Fills the bytes of a range with a value.
pub fn fill(
    memory: &MemoryNumbers,
    region: &mut [u8],
    range: &Range,
    value: u8,
    meter: &mut MeterNumbers,
    number: &mut u64,
) -> u8
    ensures { WritesBytesEmbedded (filled_range value) range.now memory.now
        (metered region.old meter.old number.old) result (metered region.new meter.new number.new) }
{
    type_or_return!(_ty, memory, region);
    let mut fuel = meter.fuel();
    let front = &mut region[..memory.size];
    let written = region_memory::fill(front, range.to, value, range.count, &mut fuel);
    meter.store_left(&fuel);
    leave_write(written, number)
}

/// Copies bytes of a memory over others of it.
pub fn copy_within(
    memory: &MemoryNumbers,
    region: &mut [u8],
    range: &Range,
    meter: &mut MeterNumbers,
    number: &mut u64,
) -> u8
    ensures { WritesBytesEmbedded (λ r bytes. copied_range bytes r bytes) range.now memory.now
        (metered region.old meter.old number.old) result (metered region.new meter.new number.new) }
{
    type_or_return!(_ty, memory, region);
    let mut fuel = meter.fuel();
    let front = &mut region[..memory.size];
    let (to, from, count) = (range.to, range.from, range.count);
    let written = region_memory::copy_within(front, to, from, count, &mut fuel);
    meter.store_left(&fuel);
    leave_write(written, number)
}

/// Copies bytes of another memory over those of a memory.
pub fn copy(
    memory: &MemoryNumbers,
    region: &mut [u8],
    source: &MemoryNumbers,
    source_region: &[u8],
    range: &Range,
    meter: &mut MeterNumbers,
    number: &mut u64,
) -> u8
    ensures { CopiesBytesEmbedded (placed source.now source_region.now) range.now memory.now
        (metered region.old meter.old number.old) result (metered region.new meter.new number.new) }
{
    type_or_return!(_source_ty, source, source_region);
    let bytes = &source_region[..source.size];
    init(memory, region, bytes, range, meter, number)
}

/// Copies bytes, such as a data segment's, over those of a memory.
pub fn init(
    memory: &MemoryNumbers,
    region: &mut [u8],
    bytes: &[u8],
    range: &Range,
    meter: &mut MeterNumbers,
    number: &mut u64,
) -> u8
    ensures { WritesBytesEmbedded (copied_range bytes.now) range.now memory.now
        (metered region.old meter.old number.old) result (metered region.new meter.new number.new) }
{
    type_or_return!(_ty, memory, region);
    let mut fuel = meter.fuel();
    let front = &mut region[..memory.size];
    let (to, from, count) = (range.to, range.from, range.count);
    let written = region_memory::copy(front, bytes, to, from, count, &mut fuel);
    meter.store_left(&fuel);
    leave_write(written, number)
}
