//! A machine by a handle, and a pool of machines. `include/wasmi_machine.h` describes each call.
//! `tools/header` writes this file, by the rows of `tools/exports.toml`.
ghost use Rattle.std.specs.Prelude.{◌≡◌, ℕ, List, None, Some};
ghost use Rattle.wasmi_machine.specs.declared.calls.Call.TheVariants.{CopyMemory, FillMemory, GetFuel, GrowMemory, InitMemory, NewData, Write};
ghost use Rattle.wasmi_c.specs.Machine.Calls.{RepliesInStatus, RepliesInTurn, RepliesInWord, item_load, item_store, vector_binary, ActsOnHeld, OnHeld, ReadsOut, RepliesToCopy, RepliesToItems, RepliesToSegment, RepliesToStruct, Reserves, PaysFuel, totals_in, totals_of, RunsLines, ReservesElementsByStatus};
ghost use Rattle.wasmi_c.specs.Machine.NewMachines.{IsNewMachine, MakesMachine, MakesWithAnswers};
ghost use Rattle.wasmi_c.specs.Machine.Replies.{only};
ghost use Rattle.wasmi_c.specs.Pool.{AddsNewTenant, KeepsCaps, MakesPool, RemovesByStatus, RunsTenantLines, TenantPaysFuel, TenantReadsOut, TenantRepliesInStatus, TenantRepliesInWord, TenantRepliesToCopy, TenantRepliesToItems, TenantRepliesToList, TenantRepliesToSegment, TenantRepliesToStruct, TenantReserves, pool_totals, tenant_totals, TenantReservesElements};
ghost use Rattle.wasmi_c.specs.declared.status.TheConstants.{NO_MACHINE, NO_POOL};
ghost use Rattle.wasmi_c.specs.declared.machine.reply_struct.ReplyStruct.{ReplyStruct};

use std::alloc::Global;
use wasmi_c::machine::call_struct::CallStruct;
use wasmi_c::machine::handle::Handle;
use wasmi_c::machine::limits::{Limits, Room, Totals};
use wasmi_c::machine::reply_struct::ReplyStruct;
use wasmi_c::pool::PoolHandle;
use wasmi_c::status::{NO_MACHINE, NO_POOL};
use wasmi_c::{on_machine, on_pool};

#[unsafe(no_mangle)]
pub extern "C" fn wasmi_machine_new(alloc: Global, handle: &mut Handle, limits: &Limits) -> u8
    ensures { MakesMachine (IsNewMachine limits.now) handle.old.machine.held result
        handle.new.machine.held }
{
    handle.new_machine(alloc, limits)
}

#[unsafe(no_mangle)]
pub extern "C" fn wasmi_machine_new_with_answers(
    alloc: Global,
    handle: &mut Handle,
    limits: &Limits,
    answers: &[u8],
) -> u8
    ensures { MakesWithAnswers limits.now answers.now handle.old.machine.held result
        handle.new.machine.held }
{
    handle.new_with_answers(alloc, limits, answers)
}

#[unsafe(no_mangle)]
pub extern "C" fn wasmi_machine_drop(alloc: Global, handle: &mut Handle)
    ensures { handle.new.machine.held ≡ None }
{
    handle.drop_machine(alloc);
}

#[unsafe(no_mangle)]
pub extern "C" fn wasmi_machine_call(handle: &mut Handle, call: &CallStruct) -> ReplyStruct
    ensures { OnHeld (RepliesToStruct call.now) (only NO_MACHINE)
        handle.old.machine.held result handle.new.machine.held }
{
    handle.call(call)
}

#[unsafe(no_mangle)]
pub extern "C" fn wasmi_machine_reserve(handle: &mut Handle, room: &Room) -> u8
    ensures { OnHeld (Reserves room.now) NO_MACHINE
        handle.old.machine.held result handle.new.machine.held }
{
    on_machine!(handle, NO_MACHINE, machine => machine.reserve(room))
}

#[unsafe(no_mangle)]
pub extern "C" fn wasmi_machine_reserve_elements(
    handle: &mut Handle,
    table: usize,
    elements: u64,
) -> u8
    ensures { OnHeld (ReservesElementsByStatus table elements) NO_MACHINE
        handle.old.machine.held result handle.new.machine.held }
{
    on_machine!(handle, NO_MACHINE, machine => machine.reserve_elements(table, elements))
}

#[unsafe(no_mangle)]
pub extern "C" fn wasmi_machine_run_into(
    handle: &mut Handle,
    calls: &[CallStruct],
    replies: &mut [ReplyStruct],
) -> u8
    ensures { OnHeld (RepliesInTurn RepliesToStruct calls.now replies.old) (NO_MACHINE, replies.old)
        handle.old.machine.held (result, replies.new) handle.new.machine.held }
{
    on_machine!(handle, NO_MACHINE, machine => machine.run_into(calls, replies))
}

#[unsafe(no_mangle)]
pub extern "C" fn wasmi_machine_read(
    handle: &mut Handle,
    memory: usize,
    offset: usize,
    bytes: &mut [u8],
) -> ReplyStruct
    ensures { OnHeld {R = ReplyStruct × List ℕ}
        (λ machine left machine'. (machine' ≡ machine)
        × ReadsOut memory offset machine.state bytes.old left.0 left.1)
        (only NO_MACHINE, bytes.old)
        handle.old.machine.held (result, bytes.new) handle.new.machine.held }
{
    on_machine!(handle, machine => machine.read(memory, offset, bytes))
}

#[unsafe(no_mangle)]
pub extern "C" fn wasmi_machine_write(
    handle: &mut Handle,
    memory: usize,
    offset: usize,
    bytes: &[u8],
) -> ReplyStruct
    ensures { OnHeld (RepliesToItems (Write memory offset) bytes.now) (only NO_MACHINE)
        handle.old.machine.held result handle.new.machine.held }
{
    on_machine!(handle, machine => machine.write(memory, offset, bytes))
}

#[unsafe(no_mangle)]
pub extern "C" fn wasmi_machine_new_segment(
    alloc: Global,
    handle: &mut Handle,
    ty: u8,
    items: &[u32],
) -> ReplyStruct
    ensures { OnHeld (RepliesToSegment ty items.now) (only NO_MACHINE)
        handle.old.machine.held result handle.new.machine.held }
{
    on_machine!(handle, machine => machine.new_segment(alloc, ty, items))
}

#[unsafe(no_mangle)]
pub extern "C" fn wasmi_machine_new_data(
    alloc: Global,
    handle: &mut Handle,
    bytes: &[u8],
) -> ReplyStruct
    ensures { OnHeld (RepliesToCopy NewData bytes.now) (only NO_MACHINE)
        handle.old.machine.held result handle.new.machine.held }
{
    on_machine!(handle, machine => machine.new_data(alloc, bytes))
}

#[unsafe(no_mangle)]
pub extern "C" fn wasmi_machine_totals(handle: &mut Handle) -> Totals
    ensures { OnHeld
        (λ machine totals machine'. (machine' ≡ machine) × (totals ≡ totals_of machine))
        (totals_in NO_MACHINE 0 0) handle.old.machine.held result handle.new.machine.held }
{
    on_machine!(handle, Totals::from_amounts(NO_MACHINE, 0, 0), machine => machine.totals())
}

#[unsafe(no_mangle)]
pub extern "C" fn wasmi_machine_consume_fuel(handle: &mut Handle, amount: u64) -> ReplyStruct
    ensures { OnHeld (PaysFuel amount) (only NO_MACHINE)
        handle.old.machine.held result handle.new.machine.held }
{
    on_machine!(handle, machine => machine.consume_fuel(amount))
}

#[unsafe(no_mangle)]
pub extern "C" fn wasmi_machine_load(
    handle: &mut Handle,
    op: u16,
    memory: usize,
    ptr: u64,
    offset: u64,
    value: &mut u64,
) -> u8
    ensures { OnHeld (RepliesInWord (item_load op memory ptr offset) value.old)
        (NO_MACHINE, value.old)
        handle.old.machine.held (result, value.new) handle.new.machine.held }
{
    on_machine!(handle, NO_MACHINE, machine => machine.load(op, memory, ptr, offset, value))
}

#[unsafe(no_mangle)]
pub extern "C" fn wasmi_machine_store(
    handle: &mut Handle,
    op: u16,
    memory: usize,
    ptr: u64,
    offset: u64,
    value: u64,
) -> u8
    ensures { OnHeld (RepliesInStatus (item_store op memory ptr offset value)) NO_MACHINE
        handle.old.machine.held result handle.new.machine.held }
{
    on_machine!(handle, NO_MACHINE, machine => machine.store(op, memory, ptr, offset, value))
}

#[unsafe(no_mangle)]
pub extern "C" fn wasmi_machine_binary(handle: &mut Handle, op: u16, dst: u8, a: u8, b: u8) -> u8
    ensures { OnHeld (RepliesInStatus (vector_binary op dst a b)) NO_MACHINE
        handle.old.machine.held result handle.new.machine.held }
{
    on_machine!(handle, NO_MACHINE, machine => machine.binary(op, dst, a, b))
}

#[unsafe(no_mangle)]
pub extern "C" fn wasmi_machine_grow(
    handle: &mut Handle,
    memory: usize,
    pages: u64,
    number: &mut u64,
) -> u8
    ensures { OnHeld (RepliesInWord (Some (GrowMemory memory pages)) number.old)
        (NO_MACHINE, number.old)
        handle.old.machine.held (result, number.new) handle.new.machine.held }
{
    on_machine!(handle, NO_MACHINE, machine => machine.grow(memory, pages, number))
}

#[unsafe(no_mangle)]
pub extern "C" fn wasmi_machine_fill(
    handle: &mut Handle,
    memory: usize,
    to: u64,
    value: u8,
    count: u64,
    number: &mut u64,
) -> u8
    ensures { OnHeld (RepliesInWord (Some (FillMemory memory to value count)) number.old)
        (NO_MACHINE, number.old)
        handle.old.machine.held (result, number.new) handle.new.machine.held }
{
    on_machine!(handle, NO_MACHINE, machine => machine.fill(memory, to, value, count, number))
}

#[unsafe(no_mangle)]
pub extern "C" fn wasmi_machine_copy(
    handle: &mut Handle,
    memory: usize,
    to: u64,
    source: usize,
    from: u64,
    count: u64,
    number: &mut u64,
) -> u8
    ensures { OnHeld (RepliesInWord (Some (CopyMemory memory to source from count)) number.old)
        (NO_MACHINE, number.old)
        handle.old.machine.held (result, number.new) handle.new.machine.held }
{
    on_machine!(handle, NO_MACHINE, machine => machine.copy(memory, to, source, from, count, number))
}

#[unsafe(no_mangle)]
pub extern "C" fn wasmi_machine_init(
    handle: &mut Handle,
    memory: usize,
    segment: usize,
    to: u64,
    from: u32,
    count: u32,
    number: &mut u64,
) -> u8
    ensures { OnHeld (RepliesInWord (Some (InitMemory memory segment to from count)) number.old)
        (NO_MACHINE, number.old)
        handle.old.machine.held (result, number.new) handle.new.machine.held }
{
    on_machine!(handle, NO_MACHINE, machine => machine.init(memory, segment, to, from, count, number))
}

#[unsafe(no_mangle)]
pub extern "C" fn wasmi_machine_fuel_left(handle: &mut Handle, left: &mut u64) -> u8
    ensures { OnHeld (RepliesInWord (Some GetFuel) left.old) (NO_MACHINE, left.old)
        handle.old.machine.held (result, left.new) handle.new.machine.held }
{
    on_machine!(handle, NO_MACHINE, machine => machine.fuel_left(left))
}

#[unsafe(no_mangle)]
pub extern "C" fn wasmi_machine_run_lines(
    alloc: Global,
    handle: &mut Handle,
    lines: &[u8],
    text: &mut [u8],
) -> ReplyStruct
    ensures { OnHeld {R = ReplyStruct × List ℕ}
        (λ machine left machine'. RunsLines lines.now machine text.old left.0 left.1 machine')
        (only NO_MACHINE, text.old)
        handle.old.machine.held (result, text.new) handle.new.machine.held }
{
    on_machine!(handle, machine => machine.run_lines(alloc, lines, text))
}

#[unsafe(no_mangle)]
pub extern "C" fn wasmi_pool_new(
    alloc: Global,
    handle: &mut PoolHandle,
    bytes: u64,
    elements: u64,
) -> u8
    ensures { MakesPool bytes elements handle.old.pool.held result handle.new.pool.held }
{
    handle.new_pool(alloc, bytes, elements)
}

#[unsafe(no_mangle)]
pub extern "C" fn wasmi_pool_drop(alloc: Global, handle: &mut PoolHandle)
    ensures { handle.new.pool.held ≡ None }
{
    handle.drop_pool(alloc);
}

#[unsafe(no_mangle)]
pub extern "C" fn wasmi_pool_add(
    alloc: Global,
    handle: &mut PoolHandle,
    limits: &Limits,
) -> ReplyStruct
    ensures step { ActsOnHeld (only NO_POOL) handle.old.pool.held result handle.new.pool.held
        (AddsNewTenant limits.now result) }
    ensures caps { KeepsCaps handle.old.pool.held handle.new.pool.held }
{
    on_pool!(handle, pool => pool.add(alloc, limits))
}

#[unsafe(no_mangle)]
pub extern "C" fn wasmi_pool_remove(handle: &mut PoolHandle, tenant: usize) -> u8
    ensures step { ActsOnHeld NO_POOL handle.old.pool.held result handle.new.pool.held
        (RemovesByStatus tenant result) }
    ensures caps { KeepsCaps handle.old.pool.held handle.new.pool.held }
{
    on_pool!(handle, NO_POOL, pool => pool.remove(tenant))
}

#[unsafe(no_mangle)]
pub extern "C" fn wasmi_pool_call(
    handle: &mut PoolHandle,
    tenant: usize,
    call: &CallStruct,
) -> ReplyStruct
    ensures step { ActsOnHeld (only NO_POOL) handle.old.pool.held result handle.new.pool.held
        (TenantRepliesToStruct tenant call.now result) }
    ensures caps { KeepsCaps handle.old.pool.held handle.new.pool.held }
{
    handle.call(tenant, call)
}

#[unsafe(no_mangle)]
pub extern "C" fn wasmi_pool_reserve(handle: &mut PoolHandle, tenant: usize, room: &Room) -> u8
    ensures step { ActsOnHeld NO_POOL handle.old.pool.held result handle.new.pool.held
        (TenantReserves tenant room.now result) }
    ensures caps { KeepsCaps handle.old.pool.held handle.new.pool.held }
{
    on_pool!(handle, NO_POOL, pool => pool.reserve(tenant, room))
}

#[unsafe(no_mangle)]
pub extern "C" fn wasmi_pool_reserve_elements(
    handle: &mut PoolHandle,
    tenant: usize,
    table: usize,
    elements: u64,
) -> u8
    ensures step { ActsOnHeld NO_POOL handle.old.pool.held result handle.new.pool.held
        (TenantReservesElements tenant table elements result) }
    ensures caps { KeepsCaps handle.old.pool.held handle.new.pool.held }
{
    on_pool!(handle, NO_POOL, pool => pool.reserve_elements(tenant, table, elements))
}

#[unsafe(no_mangle)]
pub extern "C" fn wasmi_pool_run_into(
    handle: &mut PoolHandle,
    tenant: usize,
    calls: &[CallStruct],
    replies: &mut [ReplyStruct],
) -> u8
    ensures step { ActsOnHeld {R = ℕ × List ReplyStruct} (NO_POOL, replies.old)
        handle.old.pool.held (result, replies.new) handle.new.pool.held
        (TenantRepliesToList tenant calls.now replies.old (result, replies.new)) }
    ensures caps { KeepsCaps handle.old.pool.held handle.new.pool.held }
{
    on_pool!(handle, NO_POOL, pool => pool.run_into(tenant, calls, replies))
}

#[unsafe(no_mangle)]
pub extern "C" fn wasmi_pool_load(
    handle: &mut PoolHandle,
    tenant: usize,
    op: u16,
    memory: usize,
    ptr: u64,
    offset: u64,
    value: &mut u64,
) -> u8
    ensures step { ActsOnHeld {R = ℕ × ℕ} (NO_POOL, value.old)
        handle.old.pool.held (result, value.new) handle.new.pool.held
        (TenantRepliesInWord tenant (item_load op memory ptr offset) value.old
        (result, value.new)) }
    ensures caps { KeepsCaps handle.old.pool.held handle.new.pool.held }
{
    on_pool!(handle, NO_POOL, pool => pool.load(tenant, op, memory, ptr, offset, value))
}

#[unsafe(no_mangle)]
pub extern "C" fn wasmi_pool_store(
    handle: &mut PoolHandle,
    tenant: usize,
    op: u16,
    memory: usize,
    ptr: u64,
    offset: u64,
    value: u64,
) -> u8
    ensures step { ActsOnHeld NO_POOL handle.old.pool.held result handle.new.pool.held
        (TenantRepliesInStatus tenant (item_store op memory ptr offset value) result) }
    ensures caps { KeepsCaps handle.old.pool.held handle.new.pool.held }
{
    on_pool!(handle, NO_POOL, pool => pool.store(tenant, op, memory, ptr, offset, value))
}

#[unsafe(no_mangle)]
pub extern "C" fn wasmi_pool_binary(
    handle: &mut PoolHandle,
    tenant: usize,
    op: u16,
    dst: u8,
    a: u8,
    b: u8,
) -> u8
    ensures step { ActsOnHeld NO_POOL handle.old.pool.held result handle.new.pool.held
        (TenantRepliesInStatus tenant (vector_binary op dst a b) result) }
    ensures caps { KeepsCaps handle.old.pool.held handle.new.pool.held }
{
    on_pool!(handle, NO_POOL, pool => pool.binary(tenant, op, dst, a, b))
}

#[unsafe(no_mangle)]
pub extern "C" fn wasmi_pool_grow(
    handle: &mut PoolHandle,
    tenant: usize,
    memory: usize,
    pages: u64,
    number: &mut u64,
) -> u8
    ensures step { ActsOnHeld {R = ℕ × ℕ} (NO_POOL, number.old)
        handle.old.pool.held (result, number.new) handle.new.pool.held
        (TenantRepliesInWord tenant (Some (GrowMemory memory pages)) number.old
        (result, number.new)) }
    ensures caps { KeepsCaps handle.old.pool.held handle.new.pool.held }
{
    on_pool!(handle, NO_POOL, pool => pool.grow(tenant, memory, pages, number))
}

#[unsafe(no_mangle)]
pub extern "C" fn wasmi_pool_fill(
    handle: &mut PoolHandle,
    tenant: usize,
    memory: usize,
    to: u64,
    value: u8,
    count: u64,
    number: &mut u64,
) -> u8
    ensures step { ActsOnHeld {R = ℕ × ℕ} (NO_POOL, number.old)
        handle.old.pool.held (result, number.new) handle.new.pool.held
        (TenantRepliesInWord tenant (Some (FillMemory memory to value count)) number.old
        (result, number.new)) }
    ensures caps { KeepsCaps handle.old.pool.held handle.new.pool.held }
{
    on_pool!(handle, NO_POOL, pool => pool.fill(tenant, memory, to, value, count, number))
}

#[unsafe(no_mangle)]
pub extern "C" fn wasmi_pool_copy(
    handle: &mut PoolHandle,
    tenant: usize,
    memory: usize,
    to: u64,
    source: usize,
    from: u64,
    count: u64,
    number: &mut u64,
) -> u8
    ensures step { ActsOnHeld {R = ℕ × ℕ} (NO_POOL, number.old)
        handle.old.pool.held (result, number.new) handle.new.pool.held
        (TenantRepliesInWord tenant (Some (CopyMemory memory to source from count)) number.old
        (result, number.new)) }
    ensures caps { KeepsCaps handle.old.pool.held handle.new.pool.held }
{
    on_pool!(handle, NO_POOL, pool => pool.copy(tenant, memory, to, source, from, count, number))
}

#[unsafe(no_mangle)]
pub extern "C" fn wasmi_pool_init(
    handle: &mut PoolHandle,
    tenant: usize,
    memory: usize,
    segment: usize,
    to: u64,
    from: u32,
    count: u32,
    number: &mut u64,
) -> u8
    ensures step { ActsOnHeld {R = ℕ × ℕ} (NO_POOL, number.old)
        handle.old.pool.held (result, number.new) handle.new.pool.held
        (TenantRepliesInWord tenant (Some (InitMemory memory segment to from count)) number.old
        (result, number.new)) }
    ensures caps { KeepsCaps handle.old.pool.held handle.new.pool.held }
{
    on_pool!(handle, NO_POOL, pool => pool.init(tenant, memory, segment, to, from, count, number))
}

#[unsafe(no_mangle)]
pub extern "C" fn wasmi_pool_fuel_left(handle: &mut PoolHandle, tenant: usize, left: &mut u64) -> u8
    ensures step { ActsOnHeld {R = ℕ × ℕ} (NO_POOL, left.old)
        handle.old.pool.held (result, left.new) handle.new.pool.held
        (TenantRepliesInWord tenant (Some GetFuel) left.old (result, left.new)) }
    ensures caps { KeepsCaps handle.old.pool.held handle.new.pool.held }
{
    on_pool!(handle, NO_POOL, pool => pool.fuel_left(tenant, left))
}

#[unsafe(no_mangle)]
pub extern "C" fn wasmi_pool_read(
    handle: &mut PoolHandle,
    tenant: usize,
    memory: usize,
    offset: usize,
    bytes: &mut [u8],
) -> ReplyStruct
    ensures step { ActsOnHeld {R = ReplyStruct × List ℕ} (only NO_POOL, bytes.old)
        handle.old.pool.held (result, bytes.new) handle.new.pool.held
        (TenantReadsOut tenant memory offset bytes.old result bytes.new) }
    ensures caps { KeepsCaps handle.old.pool.held handle.new.pool.held }
{
    on_pool!(handle, pool => pool.read(tenant, memory, offset, bytes))
}

#[unsafe(no_mangle)]
pub extern "C" fn wasmi_pool_write(
    handle: &mut PoolHandle,
    tenant: usize,
    memory: usize,
    offset: usize,
    bytes: &[u8],
) -> ReplyStruct
    ensures step { ActsOnHeld (only NO_POOL) handle.old.pool.held result handle.new.pool.held
        (TenantRepliesToItems tenant (Write memory offset) bytes.now result) }
    ensures caps { KeepsCaps handle.old.pool.held handle.new.pool.held }
{
    on_pool!(handle, pool => pool.write(tenant, memory, offset, bytes))
}

#[unsafe(no_mangle)]
pub extern "C" fn wasmi_pool_new_segment(
    alloc: Global,
    handle: &mut PoolHandle,
    tenant: usize,
    ty: u8,
    items: &[u32],
) -> ReplyStruct
    ensures step { ActsOnHeld (only NO_POOL) handle.old.pool.held result handle.new.pool.held
        (TenantRepliesToSegment tenant ty items.now result) }
    ensures caps { KeepsCaps handle.old.pool.held handle.new.pool.held }
{
    on_pool!(handle, pool => pool.new_segment(alloc, tenant, ty, items))
}

#[unsafe(no_mangle)]
pub extern "C" fn wasmi_pool_new_data(
    alloc: Global,
    handle: &mut PoolHandle,
    tenant: usize,
    bytes: &[u8],
) -> ReplyStruct
    ensures step { ActsOnHeld (only NO_POOL) handle.old.pool.held result handle.new.pool.held
        (TenantRepliesToCopy tenant NewData bytes.now result) }
    ensures caps { KeepsCaps handle.old.pool.held handle.new.pool.held }
{
    on_pool!(handle, pool => pool.new_data(alloc, tenant, bytes))
}

#[unsafe(no_mangle)]
pub extern "C" fn wasmi_pool_consume_fuel(
    handle: &mut PoolHandle,
    tenant: usize,
    amount: u64,
) -> ReplyStruct
    ensures step { ActsOnHeld (only NO_POOL) handle.old.pool.held result handle.new.pool.held
        (TenantPaysFuel tenant amount result) }
    ensures caps { KeepsCaps handle.old.pool.held handle.new.pool.held }
{
    on_pool!(handle, pool => pool.consume_fuel(tenant, amount))
}

#[unsafe(no_mangle)]
pub extern "C" fn wasmi_pool_run_lines(
    alloc: Global,
    handle: &mut PoolHandle,
    tenant: usize,
    lines: &[u8],
    text: &mut [u8],
) -> ReplyStruct
    ensures step { ActsOnHeld {R = ReplyStruct × List ℕ} (only NO_POOL, text.old)
        handle.old.pool.held (result, text.new) handle.new.pool.held
        (RunsTenantLines tenant lines.now text.old result text.new) }
    ensures caps { KeepsCaps handle.old.pool.held handle.new.pool.held }
{
    on_pool!(handle, pool => pool.run_lines(alloc, tenant, lines, text))
}

#[unsafe(no_mangle)]
pub extern "C" fn wasmi_pool_tenant_totals(handle: &mut PoolHandle, tenant: usize) -> Totals
    ensures step { ActsOnHeld (totals_in NO_POOL 0 0) handle.old.pool.held result
        handle.new.pool.held
        (λ pool pool'. (pool' ≡ pool) × (result ≡ tenant_totals tenant pool)) }
    ensures caps { KeepsCaps handle.old.pool.held handle.new.pool.held }
{
    on_pool!(handle, Totals::from_amounts(NO_POOL, 0, 0), pool => pool.tenant_totals(tenant))
}

#[unsafe(no_mangle)]
pub extern "C" fn wasmi_pool_totals(handle: &mut PoolHandle) -> Totals
    ensures step { ActsOnHeld (totals_in NO_POOL 0 0) handle.old.pool.held result
        handle.new.pool.held
        (λ pool pool'. (pool' ≡ pool) × (result ≡ pool_totals pool)) }
    ensures caps { KeepsCaps handle.old.pool.held handle.new.pool.held }
{
    on_pool!(handle, Totals::from_amounts(NO_POOL, 0, 0), pool => pool.totals())
}
