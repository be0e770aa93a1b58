//! Memories in regions of the caller's, and fuel meters.
//! `tools/header` writes this file, by the rows of `tools/exports.toml`.
ghost use Rattle.std.specs.Prelude.{◌≡◌, ◌≤◌, ◌+◌, ◌/◌, ◌^◌, ◌⊎◌, false, Some};
ghost use Rattle.wasmi_c.specs.MemoryCalls.{AsksEmbedded, CopiesBytesEmbedded, CountsEmbedded, EndsMemory, IsNoType, MakesEmbedded, ReadsEmbedded, WritesBytesEmbedded, WritesEmbedded, by_pages, copied_range, filled_range, made_over, of_memory};
ghost use Rattle.wasmi_c.specs.Placement.{GrowsBy, IsNone, SettlesBy};
ghost use Rattle.wasmi_c.specs.declared.status.TheConstants.{DONE};
ghost use Rattle.wasmi_c.specs.Numbers.{limiter_of, KeepsQuota, embedded, IsState, metered_region as metered, meter_of, placed, settings_of};
ghost use Rattle.wasmi_meter.specs.Capped.{quota_rules};
ghost use Rattle.wasmi_store.specs.Memory.{MemoryTypeValue, in_bounds, minimum_bytes, named_type, page_bytes};
ghost use Rattle.wasmi_c.specs.FuelCalls.{SetsFuel, TellsFuel, PaysFuel};
ghost use Rattle.wasmi_meter.specs.Meter.{copy_cost};
ghost use Rattle.wasmi_region.specs.Memory.{zeroed};

use wasmi_c::{
    HostAnswers, MemoryNumbers, MeterNumbers, Question, QuotaNumbers, Range, fuel,
    memory as on_memory,
};

#[unsafe(no_mangle)]
pub extern "C" fn wasmi_memory_new(
    memory: &mut MemoryNumbers,
    region: &mut [u8],
    quota: &mut QuotaNumbers,
) -> u8
    ensures made { MakesEmbedded (placed memory.old region.old) (limiter_of quota.old) result
        (placed memory.new region.new) (limiter_of quota.new) }
    ensures quota { KeepsQuota quota.old quota.new }
    ensures invalid { IsNoType memory.old → quota.new ≡ quota.old }
    ensures unasked { (ty : MemoryTypeValue) → named_type (settings_of memory.old) ≡ Some ty
        → 2 ^ 64 ≤ minimum_bytes ty → quota.new ≡ quota.old }
{
    on_memory::make(memory, region, quota)
}

#[unsafe(no_mangle)]
pub extern "C" fn wasmi_memory_new_zeroed(
    memory: &mut MemoryNumbers,
    region: &[u8],
    quota: &mut QuotaNumbers,
) -> u8
    ensures made { MakesEmbedded (placed memory.old region.now) (limiter_of quota.old) result
        (placed memory.new (made_over region.now memory.new.size result)) (limiter_of quota.new) }
    ensures quota { KeepsQuota quota.old quota.new }
    ensures invalid { IsNoType memory.old → quota.new ≡ quota.old }
    ensures unasked { (ty : MemoryTypeValue) → named_type (settings_of memory.old) ≡ Some ty
        → 2 ^ 64 ≤ minimum_bytes ty → quota.new ≡ quota.old }
{
    on_memory::make_zeroed(memory, region, quota)
}

#[unsafe(no_mangle)]
pub extern "C" fn wasmi_memory_grow(
    memory: &mut MemoryNumbers,
    region: &mut [u8],
    pages: u64,
    meter: &mut MeterNumbers,
    quota: &mut QuotaNumbers,
    number: &mut u64,
) -> u8
    ensures grown { GrowsBy of_memory quota_rules (by_pages pages)
        (embedded memory.old region.old meter.old (limiter_of quota.old) number.old) result
        (embedded memory.new region.new meter.new (limiter_of quota.new) number.new) }
    ensures quota { KeepsQuota quota.old quota.new }
    ensures invalid { IsNone of_memory memory.old region.old → quota.new ≡ quota.old }
    ensures unasked { (ty : MemoryTypeValue) → IsState memory.old region.old ty
        → (pages ≡ 0) ⊎ (in_bounds ty (memory.old.size / page_bytes ty.page + pages) ≡ false)
        → quota.new ≡ quota.old }
{
    on_memory::grow(memory, region, pages, meter, quota, number)
}

#[unsafe(no_mangle)]
pub extern "C" fn wasmi_memory_grow_zeroed(
    memory: &mut MemoryNumbers,
    region: &[u8],
    pages: u64,
    meter: &mut MeterNumbers,
    quota: &mut QuotaNumbers,
    number: &mut u64,
) -> u8
    ensures grown { GrowsBy of_memory quota_rules (by_pages pages)
        (embedded memory.old region.now meter.old (limiter_of quota.old) number.old) result
        (embedded memory.new (zeroed region.now memory.old.size memory.new.size) meter.new
        (limiter_of quota.new) number.new) }
    ensures quota { KeepsQuota quota.old quota.new }
    ensures invalid { IsNone of_memory memory.old region.now → quota.new ≡ quota.old }
    ensures unasked { (ty : MemoryTypeValue) → IsState memory.old region.now ty
        → (pages ≡ 0) ⊎ (in_bounds ty (memory.old.size / page_bytes ty.page + pages) ≡ false)
        → quota.new ≡ quota.old }
{
    on_memory::grow_zeroed(memory, region, pages, meter, quota, number)
}

#[unsafe(no_mangle)]
pub extern "C" fn wasmi_quota_release_memory(
    quota: &mut QuotaNumbers,
    memory: &mut MemoryNumbers,
    region: &[u8],
) -> u8
    ensures ended { EndsMemory (placed memory.old region.now) (limiter_of quota.old) result
        memory.new (limiter_of quota.new) }
    ensures quota { KeepsQuota quota.old quota.new }
    ensures none { result ≡ DONE → IsNoType memory.new }
    ensures refused { (result ≡ DONE → ⊥) → quota.new ≡ quota.old }
{
    on_memory::release(memory, region, quota)
}

#[unsafe(no_mangle)]
pub extern "C" fn wasmi_memory_question(
    memory: &MemoryNumbers,
    region: &[u8],
    pages: u64,
    question: &mut Question,
) -> u8
    ensures { AsksEmbedded memory.now region.now pages result question.old question.new }
{
    on_memory::question(memory, region, pages, question)
}

#[unsafe(no_mangle)]
pub extern "C" fn wasmi_memory_settle(
    memory: &mut MemoryNumbers,
    region: &mut [u8],
    pages: u64,
    meter: &mut MeterNumbers,
    answers: &mut HostAnswers,
    number: &mut u64,
) -> u8
    ensures { SettlesBy of_memory (by_pages pages) answers.old
        (embedded memory.old region.old meter.old (Some answers.old) number.old) result
        (embedded memory.new region.new meter.new (Some answers.new) number.new) }
{
    on_memory::settle(memory, region, pages, meter, answers, number)
}

#[unsafe(no_mangle)]
pub extern "C" fn wasmi_memory_size(memory: &MemoryNumbers, region: &[u8], pages: &mut u64) -> u8
    ensures { CountsEmbedded memory.now region.now pages.old result pages.new }
{
    on_memory::size(memory, region, pages)
}

#[unsafe(no_mangle)]
pub extern "C" fn wasmi_memory_read(
    memory: &MemoryNumbers,
    region: &[u8],
    offset: usize,
    bytes: &mut [u8],
) -> u8
    ensures { ReadsEmbedded (placed memory.now region.now) offset bytes.old result bytes.new }
{
    on_memory::read(memory, region, offset, bytes)
}

#[unsafe(no_mangle)]
pub extern "C" fn wasmi_memory_write(
    memory: &MemoryNumbers,
    region: &mut [u8],
    offset: usize,
    bytes: &[u8],
) -> u8
    ensures { WritesEmbedded (placed memory.now region.old) offset bytes.now result region.new }
{
    on_memory::write(memory, region, offset, bytes)
}

#[unsafe(no_mangle)]
pub extern "C" fn wasmi_memory_fill(
    memory: &MemoryNumbers,
    region: &mut [u8],
    range: &Range,
    value: u8,
    meter: &mut MeterNumbers,
    number: &mut u64,
) -> u8
    ensures { WritesBytesEmbedded (filled_range value) range.now memory.now
        (metered region.old meter.old number.old) result (metered region.new meter.new number.new) }
{
    on_memory::fill(memory, region, range, value, meter, number)
}

#[unsafe(no_mangle)]
pub extern "C" fn wasmi_memory_copy_within(
    memory: &MemoryNumbers,
    region: &mut [u8],
    range: &Range,
    meter: &mut MeterNumbers,
    number: &mut u64,
) -> u8
    ensures { WritesBytesEmbedded (λ r bytes. copied_range bytes r bytes) range.now memory.now
        (metered region.old meter.old number.old) result (metered region.new meter.new number.new) }
{
    on_memory::copy_within(memory, region, range, meter, number)
}

#[unsafe(no_mangle)]
pub extern "C" fn wasmi_memory_copy(
    memory: &MemoryNumbers,
    region: &mut [u8],
    source: &MemoryNumbers,
    source_region: &[u8],
    range: &Range,
    meter: &mut MeterNumbers,
    number: &mut u64,
) -> u8
    ensures { CopiesBytesEmbedded (placed source.now source_region.now) range.now memory.now
        (metered region.old meter.old number.old) result (metered region.new meter.new number.new) }
{
    on_memory::copy(memory, region, source, source_region, range, meter, number)
}

#[unsafe(no_mangle)]
pub extern "C" fn wasmi_memory_init(
    memory: &MemoryNumbers,
    region: &mut [u8],
    bytes: &[u8],
    range: &Range,
    meter: &mut MeterNumbers,
    number: &mut u64,
) -> u8
    ensures { WritesBytesEmbedded (copied_range bytes.now) range.now memory.now
        (metered region.old meter.old number.old) result (metered region.new meter.new number.new) }
{
    on_memory::init(memory, region, bytes, range, meter, number)
}

#[unsafe(no_mangle)]
pub extern "C" fn wasmi_fuel_set(meter: &mut MeterNumbers, amount: u64) -> u8
    ensures { SetsFuel amount meter.old result meter.new }
{
    fuel::set(meter, amount)
}

#[unsafe(no_mangle)]
pub extern "C" fn wasmi_fuel_left(meter: &MeterNumbers, left: &mut u64) -> u8
    ensures { TellsFuel meter.now left.old result left.new }
{
    fuel::left(meter, left)
}

#[unsafe(no_mangle)]
pub extern "C" fn wasmi_fuel_consume(meter: &mut MeterNumbers, amount: u64, number: &mut u64) -> u8
    ensures { PaysFuel amount meter.old number.old result meter.new number.new }
{
    fuel::consume(meter, amount, number)
}

#[unsafe(no_mangle)]
pub extern "C" fn wasmi_fuel_copy_cost(meter: &MeterNumbers, bytes: u64) -> u64
    ensures { result ≡ copy_cost (meter_of meter.now).costs bytes 1 }
{
    fuel::copy_cost(meter, bytes)
}

#[unsafe(no_mangle)]
pub extern "C" fn wasmi_fuel_consume_copy(
    meter: &mut MeterNumbers,
    bytes: u64,
    number: &mut u64,
) -> u8
    ensures { PaysFuel (copy_cost (meter_of meter.old).costs bytes 1) meter.old number.old result
        meter.new number.new }
{
    fuel::consume_copy(meter, bytes, number)
}
