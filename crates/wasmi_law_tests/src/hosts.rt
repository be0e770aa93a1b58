//! Callers of the laws of `wasmi_c`: of calls by a handle, of memories and tables under one quota,
//! of growths and creations by the answers of any limiter, and of the numbers of instructions.
ghost use Rattle.std.specs.Prelude.{◌≡◌, ◌≢◌, ℕ, IfSome, List, Some, true, Option, length, map, slice_get};
ghost use Rattle.std.specs.Option.{option_map};
ghost use Rattle.wasmi_machine.specs.declared.calls.Call.{Call};
ghost use Rattle.wasmi_c.specs.Instruction.{name_of_binary};
ghost use Rattle.wasmi_c.specs.ReleasedNumbers.{binary_names};
ghost use Rattle.wasmi_c.specs.Machine.CallStructs.{call_of};
ghost use Rattle.wasmi_c.specs.Machine.Caps.{MachineValue};
ghost use Rattle.wasmi_budget.specs.Pool.{PoolValue};
ghost use Rattle.wasmi_law_tests.specs.Runs.{KeepsTenant, RunsBoth, RunsList};
ghost use Rattle.wasmi_meter.specs.Capped.{IsWithinCaps};
ghost use Rattle.wasmi_c.specs.Numbers.{quota_of, IsState, IsTable, embedded};
ghost use Rattle.wasmi_meter.specs.Limiter.{optional_rules};
ghost use Rattle.wasmi_store.specs.Buffer.{Lent};
ghost use Rattle.wasmi_store.specs.Memory.{MakesMemory, creation_of, growth_of};
ghost use Rattle.wasmi_region.specs.Memory as memories;
ghost use Rattle.wasmi_region.specs.Memory.{memory_in};
ghost use Rattle.wasmi_region.specs.Table as tables;
ghost use Rattle.wasmi_region.specs.Table.{table_in, creation_in, growth_in, MakesTableIn};
ghost use Rattle.wasmi_c.specs.Placement.{Limited, Allows, limiter_after, GrowsAs};
ghost use Rattle.wasmi_c.specs.MemoryCalls.{by_pages, of_memory};
ghost use Rattle.wasmi_c.specs.TableCalls.{by_elements, of_table};
ghost use Rattle.wasmi_c.specs.declared.status.TheConstants.{DONE, NOT_HELD};

use wasmi_c::instruction::binary::{Binary, binary_numbered};
use wasmi_c::laws::{
    calls_are_runs, numbers_are_released, one_quota_holds_all, one_quota_holds_each,
    settlements_are_creations, settlements_are_growths,
};
use wasmi_c::machine::call_struct::CallStruct;
use wasmi_c::machine::handle::Handle;
use wasmi_c::machine::limited_machine::LimitedMachine;
use wasmi_c::machine::reply_struct::ReplyStruct;
use wasmi_c::pool::PoolHandle;
use wasmi_c::status::DONE;
use wasmi_c::{
    HostAnswers, MemoryNumbers, MeterNumbers, QuotaNumbers, TableNumbers, memory as host_memory,
    table as host_table,
};
use wasmi_meter::{MemoryError, ResourceLimiter, TableError};
use wasmi_store::{MemoryType, TableType};

/// Makes two calls, one after the other. If there is a machine and the numbers stand for calls,
/// both are one run of the machine.
pub fn call_twice(
    handle: &mut Handle,
    first: &CallStruct,
    second: &CallStruct,
) -> (ReplyStruct, ReplyStruct)
    ensures run { (machine : MachineValue) (call call' : Call)
        → handle.old.machine.held ≡ Some machine
        → call_of first.now ≡ Some call → call_of second.now ≡ Some call'
        → RunsBoth call call' machine result handle.new.machine.held }
{
    calls_are_runs();
    let reply = handle.call(first);
    (reply, handle.call(second))
}

/// Makes the calls of a list. If they are made and the numbers stand for calls, they are one run of
/// the machine.
pub fn call_list(
    machine: &mut LimitedMachine,
    calls: &[CallStruct],
    replies: &mut [ReplyStruct],
) -> u8
    ensures run { (known : List Call) → result ≡ DONE → map call_of calls.now ≡ map Some known
        → RunsList known machine.old replies.new machine.new }
{
    calls_are_runs();
    machine.run_into(calls, replies)
}

/// Makes a call on a tenant of a pool. Whatever it is, the machine of each other tenant stays.
pub fn call_beside(handle: &mut PoolHandle, tenant: usize, call: &CallStruct) -> ReplyStruct
    ensures others { (pool : PoolValue) (other : ℕ) → handle.old.pool.held ≡ Some pool
        → tenant ≢ other → KeepsTenant other pool handle.new.pool.held }
{
    handle.call(tenant, call)
}

/// Makes a memory, and a table of null references, under one quota that is on and holds nothing,
/// and returns whether both were made. If so, the quota holds the bytes of the one and the elements
/// of the other, within its caps.
pub fn make_both(
    memory: &mut MemoryNumbers,
    bytes: &mut [u8],
    table: &mut TableNumbers,
    elements: &mut [u32],
    quota: &mut QuotaNumbers,
) -> bool
    requires on { quota.old.is_on ≡ 0 → ⊥ }
    requires empty { (quota.old.held_bytes ≡ 0) × (quota.old.held_elements ≡ 0) }
    ensures held { result ≡ true → (quota.new.held_bytes ≡ memory.new.size)
        × (quota.new.held_elements ≡ table.new.size) × IsWithinCaps (quota_of quota.new) }
{
    one_quota_holds_all();
    let of_memory = host_memory::make(memory, bytes, quota);
    let of_table = host_table::make(table, elements, 0, quota);
    of_memory == DONE && of_table == DONE
}

/// Makes a memory under a quota that is on and holds nothing, ends it, if it was made, and returns
/// the status of its end. That isn't refused because less is held, and after it the quota holds
/// nothing again.
pub fn make_and_end(
    memory: &mut MemoryNumbers,
    bytes: &mut [u8],
    quota: &mut QuotaNumbers,
) -> Option<u8>
    requires on { quota.old.is_on ≡ 0 → ⊥ }
    requires empty { (quota.old.held_bytes ≡ 0) × (quota.old.held_elements ≡ 0) }
    ensures held { IfSome result (λ status. status ≡ DONE → quota.new.held_bytes ≡ 0) }
    ensures ends { IfSome result (λ status. status ≡ NOT_HELD → ⊥) }
{
    one_quota_holds_all();
    one_quota_holds_each();
    if host_memory::make(memory, bytes, quota) != DONE {
        return None;
    }
    Some(host_memory::release(memory, bytes, quota))
}

/// Grows a memory of this type by so many pages by the answers of a limiter of any type. If the
/// rules of that limiter allow the answers, this is a growth under that limiter.
pub fn grow_as_answered<L: ResourceLimiter>(
    memory: &mut MemoryNumbers,
    ty: MemoryType,
    region: &mut [u8],
    pages: u64,
    meter: &mut MeterNumbers,
    answers: &mut HostAnswers,
    number: &mut u64,
) -> u8
    requires state { IsState memory.old region.old ty }
    ensures grown { (l : Limited (Option L)) → Allows (optional_rules L.rules)
        (growth_of (memory_in ty region.old memory.old.size) pages) answers.new l
        → GrowsAs of_memory L.rules (by_pages pages) ty
        (embedded memory.old region.old meter.old l.before number.old) result
        (embedded memory.new region.new meter.new (limiter_after answers.new l) number.new) }
{
    settlements_are_growths::<L>();
    answers.reset();
    host_memory::grow_under(memory, ty, region, pages, meter, answers, number)
}

/// Grows a table of this type by so many elements by the answers of a limiter of any type, as
/// `grow_as_answered` does a memory.
pub fn grow_table_as_answered<L: ResourceLimiter>(
    table: &mut TableNumbers,
    ty: TableType,
    region: &mut [u32],
    delta: u64,
    reference: u32,
    meter: &mut MeterNumbers,
    answers: &mut HostAnswers,
    number: &mut u64,
) -> u8
    requires state { IsTable table.old region.old ty }
    ensures grown { (l : Limited (Option L)) → Allows (optional_rules L.rules)
        (growth_in (length region.old) (table_in ty region.old table.old.size) delta reference)
        answers.new l
        → GrowsAs of_table L.rules (by_elements delta reference) ty
        (embedded table.old region.old meter.old l.before number.old) result
        (embedded table.new region.new meter.new (limiter_after answers.new l) number.new) }
{
    settlements_are_growths::<L>();
    answers.reset();
    host_table::grow_under(table, ty, region, delta, reference, meter, answers, number)
}

/// Makes a memory of this type at the front of a region by the answers of a limiter of any type,
/// and returns its size in bytes. If the rules of that limiter allow the answers, this is a
/// creation under that limiter. The errors are those of [`wasmi_region::memory::make`].
pub fn make_as_answered<L: ResourceLimiter>(
    ty: MemoryType,
    region: &mut [u8],
    answers: &mut HostAnswers,
) -> Result<usize, MemoryError>
    ensures made { (l : Limited (Option L)) → Allows (optional_rules L.rules)
        (creation_of (Lent region.old) ty) answers.new l
        → MakesMemory (optional_rules L.rules) (Lent region.old) ty l.before
        (memories.made_in ty region.new result) (limiter_after answers.new l) }
{
    settlements_are_creations::<L>();
    answers.reset();
    host_memory::make_under(ty, region, answers)
}

/// Makes a table of this type at the front of a region by the answers of a limiter of any type, as
/// `make_as_answered` does a memory, and returns its size. The errors are those of
/// [`wasmi_region::table::make`].
pub fn make_table_as_answered<L: ResourceLimiter>(
    ty: TableType,
    region: &mut [u32],
    reference: u32,
    answers: &mut HostAnswers,
) -> Result<usize, TableError>
    ensures made { (l : Limited (Option L)) → Allows (optional_rules L.rules)
        (creation_in ty (length region.old)) answers.new l
        → MakesTableIn (optional_rules L.rules) ty (length region.old) reference l.before
        (tables.made_in ty region.new result) (limiter_after answers.new l) }
{
    settlements_are_creations::<L>();
    answers.reset();
    host_table::make_under(ty, region, reference, answers)
}

/// The instruction of two operands that has a number. Its name is the one that the number was
/// released with, and without such a name there is no instruction.
pub fn binary_of_number(number: u16) -> Option<Binary>
    ensures { option_map name_of_binary result ≡ slice_get binary_names number }
{
    numbers_are_released();
    binary_numbered(number)
}
