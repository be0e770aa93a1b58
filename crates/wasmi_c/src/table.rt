//! How a table whose elements are the first of a region of references that lies with C is made,
//! grows, is read and is written, and what a growth of it asks. `number` is set to the fuel that is
//! needed where less is left.
ghost use Rattle.std.specs.Prelude.{◌≡◌, ◌≤◌, ◌+◌, ◌⊎◌, false, None, Some, OnErr, IfOk, length};
ghost use Rattle.wasmi_meter.specs.Capped.{quota_rules};
ghost use Rattle.wasmi_meter.specs.Limiter.{optional_rules};
ghost use Rattle.wasmi_store.specs.Table.{IsSized, TableTypeValue, is_indexable, raw_filling_of, copy_of, initialization_of};
ghost use Rattle.wasmi_region.specs.Table.{made_in, table_in, items_of, region_growth, MakesTableIn};
ghost use Rattle.wasmi_c.specs.Host.{is_about};
ghost use Rattle.wasmi_c.specs.Placement.{GrowsAs, GrowsBy, IsNone, SettlesBy, status_of, written_number};
ghost use Rattle.wasmi_c.specs.Numbers.{embedded, limiter_of, metered_region as metered, placed, table_type_of, IsTable, KeepsQuota, SameRest};
ghost use Rattle.wasmi_c.specs.TableCalls.{AsksTableEmbedded, CopiesEmbedded, CountsElements, EndsTable, GetsElement, MakesTableEmbedded, SetsElement, WritesTableEmbedded, by_elements, of_table};

use crate::host::{HostAnswers, Question};
use crate::numbers::{MeterNumbers, QuotaNumbers, Range, TableNumbers, type_or_return};
use crate::status::{
    ASKS, DONE, INVALID_STATE, NO_ELEMENT, NOT_HELD, OTHER_SIZE, TABLE_GROWTH, table_refusal,
    table_status,
};
use wasmi_meter::{Kind, ResourceLimiter, ResourceLimiterRef, TableError};
use wasmi_region::table as region_table;
use wasmi_store::TableType;

/// The number of a type that isn't one of references.
const NO_REFERENCES: u8 = 0;

/// Makes a table of this type under a limiter, as [`wasmi_region::table::make`] does.
pub fn make_under<L: ResourceLimiter>(
    ty: TableType,
    region: &mut [u32],
    reference: u32,
    limiter: &mut L,
) -> Result<usize, TableError>
    ensures made { MakesTableIn (optional_rules L.rules) ty (length region.old) reference
        (Some limiter.old) (made_in ty region.new result) (Some limiter.new) }
    ensures sized { IfOk result (λ size. IsSized ty size × (size ≤ length region.new)) }
    ensures rest { IfOk result (λ size. SameRest size region.old region.new) }
    ensures refused { OnErr result (region.new ≡ region.old) }
{
    let mut lent = ResourceLimiterRef::from(limiter);
    let made = region_table::make(ty, region, reference, &mut lent);
    let _limiter = lent.into_limiter();
    made
}

/// Makes a table of one reference at the front of a region, at the minimum of the numbers' type,
/// and sets their size. It takes no fuel, and leaves the elements past the minimum alone.
pub fn make(
    table: &mut TableNumbers,
    region: &mut [u32],
    reference: u32,
    quota: &mut QuotaNumbers,
) -> u8
    ensures made { MakesTableEmbedded reference (placed table.old region.old) (limiter_of quota.old)
        result (placed table.new region.new) (limiter_of quota.new) }
    ensures quota { KeepsQuota quota.old quota.new }
    ensures invalid { table_type_of table.old ≡ None → quota.new ≡ quota.old }
{
    let Some(ty) = table.table_type() else {
        return INVALID_STATE;
    };
    match make_under(ty, region, reference, quota) {
        Ok(size) => {
            table.size = size;
            DONE
        }
        Err(error) => table_status(error),
    }
}

/// Grows a table of this type under a limiter.
pub fn grow_under<L: ResourceLimiter>(
    table: &mut TableNumbers,
    ty: TableType,
    region: &mut [u32],
    delta: u64,
    reference: u32,
    meter: &mut MeterNumbers,
    limiter: &mut L,
    number: &mut u64,
) -> u8
    requires state { IsTable table.old region.old ty }
    ensures grown { GrowsAs of_table L.rules (by_elements delta reference) ty
        (embedded table.old region.old meter.old (Some limiter.old) number.old) result
        (embedded table.new region.new meter.new (Some limiter.new) number.new) }
{
    let mut fuel = meter.fuel();
    let mut size = table.size;
    let mut lent = ResourceLimiterRef::from(limiter);
    let grown = region_table::grow(
        ty, &mut size, region, delta, reference, &mut fuel, &mut lent,
    );
    let _limiter = lent.into_limiter();
    table.size = size;
    meter.store_left(&fuel);
    match grown {
        Ok(old_size) => {
            *number = old_size;
            DONE
        }
        Err(error) => table_refusal(error, number),
    }
}

/// Grows a table by elements of one reference. `number` becomes the old size, or the fuel needed.
pub fn grow(
    table: &mut TableNumbers,
    region: &mut [u32],
    delta: u64,
    reference: u32,
    meter: &mut MeterNumbers,
    quota: &mut QuotaNumbers,
    number: &mut u64,
) -> u8
    ensures grown { GrowsBy of_table quota_rules (by_elements delta reference)
        (embedded table.old region.old meter.old (limiter_of quota.old) number.old) result
        (embedded table.new region.new meter.new (limiter_of quota.new) number.new) }
    ensures quota { KeepsQuota quota.old quota.new }
    ensures invalid { IsNone of_table table.old region.old → quota.new ≡ quota.old }
    ensures unasked { (ty : TableTypeValue) → IsTable table.old region.old ty
        → (delta ≡ 0) ⊎ (is_indexable ty (table.old.size + delta) ≡ false) → quota.new ≡ quota.old }
{
    type_or_return!(ty, table, region);
    grow_under(table, ty, region, delta, reference, meter, quota, number)
}

/// Ends a table: the quota gives up its elements, and the numbers stand for no table from then on.
/// If fewer are held, nothing is written.
pub fn release(table: &mut TableNumbers, region: &[u32], quota: &mut QuotaNumbers) -> u8
    ensures ended { EndsTable (placed table.old region.now) (limiter_of quota.old) result table.new
        (limiter_of quota.new) }
    ensures quota { KeepsQuota quota.old quota.new }
    ensures none { result ≡ DONE → table_type_of table.new ≡ None }
    ensures refused { (result ≡ DONE → ⊥) → quota.new ≡ quota.old }
{
    type_or_return!(_ty, table, region);
    if !quota.release(Kind::Elements, table.size as u64) {
        return NOT_HELD;
    }
    table.size = 0;
    table.ty = NO_REFERENCES;
    DONE
}

/// What a growth by so many elements asks a limiter, with the status `ASKS`; it asks nothing where
/// it is by 0 (`DONE`), where indices don't reach it, and where the numbers stand for no table.
pub fn question(table: &TableNumbers, region: &[u32], delta: u64, question: &mut Question) -> u8
    ensures { AsksTableEmbedded table.now region.now delta result question.old question.new }
{
    type_or_return!(ty, table, region);
    if delta == 0 {
        return DONE;
    }
    let Some((desired, most)) = region_table::question(ty, table.size, delta) else {
        return TABLE_GROWTH;
    };
    *question = Question::new(table.size, desired, most);
    ASKS
}

/// Grows a table by elements of one reference, under a limiter that answers as the host says. If
/// the answers are about other sizes, nothing is written; else they say if it was asked and told.
pub fn settle(
    table: &mut TableNumbers,
    region: &mut [u32],
    delta: u64,
    reference: u32,
    meter: &mut MeterNumbers,
    answers: &mut HostAnswers,
    number: &mut u64,
) -> u8
    ensures { SettlesBy of_table (by_elements delta reference) answers.old
        (embedded table.old region.old meter.old (Some answers.old) number.old) result
        (embedded table.new region.new meter.new (Some answers.new) number.new) }
{
    type_or_return!(ty, table, region);
    if !are_about(table, ty, region, delta, reference, answers) {
        return OTHER_SIZE;
    }
    answers.reset();
    grow_under(table, ty, region, delta, reference, meter, answers, number)
}

/// Whether the host's answers are to what a growth by so many elements asks.
fn are_about(
    table: &TableNumbers,
    ty: TableType,
    region: &[u32],
    delta: u64,
    _reference: u32,
    answers: &HostAnswers,
) -> bool
    requires state { IsTable table.now region.now ty }
    ensures about { result ≡ is_about answers.now
        (region_growth (length region.now) delta _reference (table_in ty region.now table.now.size)) }
{
    let asked = region_table::question(ty, table.size, delta);
    let is_desired = asked.is_none_or(|(desired, _)| desired == answers.desired);
    table.size == answers.current && (delta == 0 || is_desired)
}

/// The size of a table in elements.
pub fn size(table: &TableNumbers, region: &[u32], size: &mut u64) -> u8
    ensures { CountsElements table.now region.now size.old result size.new }
{
    type_or_return!(_ty, table, region);
    *size = table.size as u64;
    DONE
}

/// The element at an index.
pub fn get(table: &TableNumbers, region: &[u32], index: u64, reference: &mut u32) -> u8
    ensures { GetsElement (placed table.now region.now) index reference.old result reference.new }
{
    type_or_return!(_ty, table, region);
    let elements = &region[..table.size];
    let Ok(index) = usize::try_from(index) else {
        return NO_ELEMENT;
    };
    let Some(found) = elements.get(index) else {
        return NO_ELEMENT;
    };
    *reference = *found;
    DONE
}

/// Sets the element at an index.
pub fn set(table: &TableNumbers, region: &mut [u32], index: u64, reference: u32) -> u8
    ensures { SetsElement (placed table.now region.old) index reference result region.new }
{
    type_or_return!(ty, table, region);
    match region_table::set(ty, &mut region[..table.size], index, reference) {
        Ok(()) => DONE,
        Err(error) => table_status(error),
    }
}

/// Leaves the fuel that a write to a table needs, if it is refused for it, and returns its status.
fn leave_write(written: Result<(), TableError>, number: &mut u64) -> u8
    ensures status { result ≡ status_of of_table written }
    ensures number { number.new ≡ written_number of_table written number.old }
{
    match written {
        Ok(()) => DONE,
        Err(error) => table_refusal(error, number),
    }
}

/// Fills the elements of a range with a reference.
pub fn fill(
    table: &TableNumbers,
    region: &mut [u32],
    range: &Range,
    reference: u32,
    meter: &mut MeterNumbers,
    number: &mut u64,
) -> u8
    ensures { WritesTableEmbedded (λ ty. raw_filling_of range.now.to reference range.now.count)
        table.now (metered region.old meter.old number.old) result
        (metered region.new meter.new number.new) }
{
    type_or_return!(ty, table, region);
    let mut fuel = meter.fuel();
    let front = &mut region[..table.size];
    let written = region_table::fill(ty, front, range.to, reference, range.count, &mut fuel);
    meter.store_left(&fuel);
    leave_write(written, number)
}

/// Copies elements of a table over others of it.
pub fn copy_within(
    table: &TableNumbers,
    region: &mut [u32],
    range: &Range,
    meter: &mut MeterNumbers,
    number: &mut u64,
) -> u8
    ensures { WritesTableEmbedded (λ ty. copy_of range.now.to range.now.from range.now.count
        (table_in ty region.old table.now.size))
        table.now (metered region.old meter.old number.old) result
        (metered region.new meter.new number.new) }
{
    type_or_return!(ty, table, region);
    let mut fuel = meter.fuel();
    let front = &mut region[..table.size];
    let (to, from, count) = (range.to, range.from, range.count);
    let written = region_table::copy_within(ty, front, to, from, count, &mut fuel);
    meter.store_left(&fuel);
    leave_write(written, number)
}

/// Copies elements of another table over those of a table.
pub fn copy(
    table: &TableNumbers,
    region: &mut [u32],
    source: &TableNumbers,
    source_region: &[u32],
    range: &Range,
    meter: &mut MeterNumbers,
    number: &mut u64,
) -> u8
    ensures { CopiesEmbedded (placed source.now source_region.now) range.now table.now
        (metered region.old meter.old number.old) result (metered region.new meter.new number.new) }
{
    type_or_return!(ty, table, region);
    type_or_return!(source_ty, source, source_region);
    let mut fuel = meter.fuel();
    let front = &mut region[..table.size];
    let items = &source_region[..source.size];
    let (to, from, count) = (range.to, range.from, range.count);
    let written = region_table::copy(ty, front, source_ty, items, to, from, count, &mut fuel);
    meter.store_left(&fuel);
    leave_write(written, number)
}

/// Copies items over the elements of a table.
pub fn init(
    table: &TableNumbers,
    region: &mut [u32],
    items: &[u32],
    range: &Range,
    meter: &mut MeterNumbers,
    number: &mut u64,
) -> u8
    ensures { WritesTableEmbedded (λ ty. initialization_of range.now.to range.now.from
        range.now.count (items_of ty items.now))
        table.now (metered region.old meter.old number.old) result
        (metered region.new meter.new number.new) }
{
    type_or_return!(ty, table, region);
    let mut fuel = meter.fuel();
    let front = &mut region[..table.size];
    let (to, from, count) = (range.to, range.from, range.count);
    let written = region_table::init(ty, front, items, to, from, count, &mut fuel);
    meter.store_left(&fuel);
    leave_write(written, number)
}
