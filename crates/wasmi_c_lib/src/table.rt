//! Tables in regions of the caller's.
//! `tools/header` writes this file, by the rows of `tools/exports.toml`.
ghost use Rattle.std.specs.Prelude.{◌≡◌, None, ◌+◌, ◌⊎◌, false, Some};
ghost use Rattle.wasmi_c.specs.Numbers.{limiter_of, table_type_of, KeepsQuota, embedded, IsTable, metered_region as metered, placed};
ghost use Rattle.wasmi_c.specs.TableCalls.{AsksTableEmbedded, CopiesEmbedded, CountsElements, EndsTable, GetsElement, MakesTableEmbedded, SetsElement, WritesTableEmbedded, by_elements, of_table};
ghost use Rattle.wasmi_c.specs.Placement.{GrowsBy, IsNone, SettlesBy};
ghost use Rattle.wasmi_c.specs.declared.status.TheConstants.{DONE};
ghost use Rattle.wasmi_meter.specs.Capped.{quota_rules};
ghost use Rattle.wasmi_store.specs.Table.{TableTypeValue, is_indexable, raw_filling_of, copy_of, initialization_of};
ghost use Rattle.wasmi_region.specs.Table.{table_in, items_of};

use wasmi_c::{
    HostAnswers, MeterNumbers, Question, QuotaNumbers, Range, TableNumbers, table as on_table,
};

#[unsafe(no_mangle)]
pub extern "C" fn wasmi_table_new(
    table: &mut TableNumbers,
    region: &mut [u32],
    reference: u32,
    quota: &mut QuotaNumbers,
) -> u8
    ensures made { MakesTableEmbedded reference (placed table.old region.old) (limiter_of quota.old)
        result (placed table.new region.new) (limiter_of quota.new) }
    ensures quota { KeepsQuota quota.old quota.new }
    ensures invalid { table_type_of table.old ≡ None → quota.new ≡ quota.old }
{
    on_table::make(table, region, reference, quota)
}

#[unsafe(no_mangle)]
pub extern "C" fn wasmi_table_grow(
    table: &mut TableNumbers,
    region: &mut [u32],
    delta: u64,
    reference: u32,
    meter: &mut MeterNumbers,
    quota: &mut QuotaNumbers,
    number: &mut u64,
) -> u8
    ensures grown { GrowsBy of_table quota_rules (by_elements delta reference)
        (embedded table.old region.old meter.old (limiter_of quota.old) number.old) result
        (embedded table.new region.new meter.new (limiter_of quota.new) number.new) }
    ensures quota { KeepsQuota quota.old quota.new }
    ensures invalid { IsNone of_table table.old region.old → quota.new ≡ quota.old }
    ensures unasked { (ty : TableTypeValue) → IsTable table.old region.old ty
        → (delta ≡ 0) ⊎ (is_indexable ty (table.old.size + delta) ≡ false) → quota.new ≡ quota.old }
{
    on_table::grow(table, region, delta, reference, meter, quota, number)
}

#[unsafe(no_mangle)]
pub extern "C" fn wasmi_quota_release_table(
    quota: &mut QuotaNumbers,
    table: &mut TableNumbers,
    region: &[u32],
) -> u8
    ensures ended { EndsTable (placed table.old region.now) (limiter_of quota.old) result table.new
        (limiter_of quota.new) }
    ensures quota { KeepsQuota quota.old quota.new }
    ensures none { result ≡ DONE → table_type_of table.new ≡ None }
    ensures refused { (result ≡ DONE → ⊥) → quota.new ≡ quota.old }
{
    on_table::release(table, region, quota)
}

#[unsafe(no_mangle)]
pub extern "C" fn wasmi_table_question(
    table: &TableNumbers,
    region: &[u32],
    delta: u64,
    question: &mut Question,
) -> u8
    ensures { AsksTableEmbedded table.now region.now delta result question.old question.new }
{
    on_table::question(table, region, delta, question)
}

#[unsafe(no_mangle)]
pub extern "C" fn wasmi_table_settle(
    table: &mut TableNumbers,
    region: &mut [u32],
    delta: u64,
    reference: u32,
    meter: &mut MeterNumbers,
    answers: &mut HostAnswers,
    number: &mut u64,
) -> u8
    ensures { SettlesBy of_table (by_elements delta reference) answers.old
        (embedded table.old region.old meter.old (Some answers.old) number.old) result
        (embedded table.new region.new meter.new (Some answers.new) number.new) }
{
    on_table::settle(table, region, delta, reference, meter, answers, number)
}

#[unsafe(no_mangle)]
pub extern "C" fn wasmi_table_size(table: &TableNumbers, region: &[u32], size: &mut u64) -> u8
    ensures { CountsElements table.now region.now size.old result size.new }
{
    on_table::size(table, region, size)
}

#[unsafe(no_mangle)]
pub extern "C" fn wasmi_table_get(
    table: &TableNumbers,
    region: &[u32],
    index: u64,
    reference: &mut u32,
) -> u8
    ensures { GetsElement (placed table.now region.now) index reference.old result reference.new }
{
    on_table::get(table, region, index, reference)
}

#[unsafe(no_mangle)]
pub extern "C" fn wasmi_table_set(
    table: &TableNumbers,
    region: &mut [u32],
    index: u64,
    reference: u32,
) -> u8
    ensures { SetsElement (placed table.now region.old) index reference result region.new }
{
    on_table::set(table, region, index, reference)
}

#[unsafe(no_mangle)]
pub extern "C" fn wasmi_table_fill(
    table: &TableNumbers,
    region: &mut [u32],
    range: &Range,
    reference: u32,
    meter: &mut MeterNumbers,
    number: &mut u64,
) -> u8
    ensures { WritesTableEmbedded (λ ty. raw_filling_of range.now.to reference range.now.count)
        table.now (metered region.old meter.old number.old) result
        (metered region.new meter.new number.new) }
{
    on_table::fill(table, region, range, reference, meter, number)
}

#[unsafe(no_mangle)]
pub extern "C" fn wasmi_table_copy_within(
    table: &TableNumbers,
    region: &mut [u32],
    range: &Range,
    meter: &mut MeterNumbers,
    number: &mut u64,
) -> u8
    ensures { WritesTableEmbedded (λ ty. copy_of range.now.to range.now.from range.now.count
        (table_in ty region.old table.now.size))
        table.now (metered region.old meter.old number.old) result
        (metered region.new meter.new number.new) }
{
    on_table::copy_within(table, region, range, meter, number)
}

#[unsafe(no_mangle)]
pub extern "C" fn wasmi_table_copy(
    table: &TableNumbers,
    region: &mut [u32],
    range: &Range,
    meter: &mut MeterNumbers,
    number: &mut u64,
) -> u8
    ensures { WritesTableEmbedded (λ ty. copy_of range.now.to range.now.from range.now.count
        (table_in ty region.old table.now.size))
        table.now (metered region.old meter.old number.old) result
        (metered region.new meter.new number.new) }
{
    on_table::copy_within(table, region, range, meter, number)
}

#[unsafe(no_mangle)]
pub extern "C" fn wasmi_table_copy_from(
    table: &TableNumbers,
    region: &mut [u32],
    source: &TableNumbers,
    source_region: &[u32],
    range: &Range,
    meter: &mut MeterNumbers,
    number: &mut u64,
) -> u8
    ensures { CopiesEmbedded (placed source.now source_region.now) range.now table.now
        (metered region.old meter.old number.old) result (metered region.new meter.new number.new) }
{
    on_table::copy(table, region, source, source_region, range, meter, number)
}

#[unsafe(no_mangle)]
pub extern "C" fn wasmi_table_init(
    table: &TableNumbers,
    region: &mut [u32],
    items: &[u32],
    range: &Range,
    meter: &mut MeterNumbers,
    number: &mut u64,
) -> u8
    ensures { WritesTableEmbedded (λ ty. initialization_of range.now.to range.now.from
        range.now.count (items_of ty items.now))
        table.now (metered region.old meter.old number.old) result
        (metered region.new meter.new number.new) }
{
    on_table::init(table, region, items, range, meter, number)
}
