//! Callers that set up once, and make calls for which enough was reserved then: none of them runs
//! out of memory, and what they do is decided by the calls, the machine and the quota alone.
ghost use Rattle.std.specs.Prelude.{◌≡◌, ◌≢◌, ◌≤◌, ◌∷◌, [], All, length, OnErr, OnOk, Some, Ok, IfSome, IsTrue, MatchOption};
ghost use Rattle.wasmi_meter.specs.Limiter.{optional_rules};
ghost use Rattle.wasmi_machine.specs.Determinism.{IsNotOutOfMemory, TellsNoDenial};
ghost use Rattle.wasmi_machine.specs.declared.calls.Reply.TheVariants.{Done};
ghost use Rattle.wasmi_machine.specs.State.{State, live_at, with_reserved, world};
ghost use Rattle.wasmi_machine.specs.Steps.{IsRunOf};
ghost use Rattle.wasmi_laws.specs.Reserved.{FitsSlots, IsReservedFor, IsReservedTable, NeedsNoMemory};
ghost use Rattle.wasmi_budget.specs.Pool as pools;

use std::alloc::AllocError;
use wasmi_budget::{Pool, ReserveError, RunIntoError, Tenant, laws as pool_laws};
use wasmi_machine::{
    Call, Machine, Replies, Reply, SlotCounts, TooManyCalls, laws, run_into_lending,
};
use wasmi_meter::{Quota, ResourceLimiter};
use wasmi_typed::TypedRawRef;

/// Reserves slots for so many globals, and for nothing else.
pub fn reserve_globals(machine: &mut Machine, globals: usize) -> Result<(), AllocError>
    ensures reserved { OnOk result (machine.new ≡ with_reserved machine.old (record
        { memories = 0; tables = 0; segments = 0; data_segments = 0; globals = globals })) }
    ensures refused { OnErr result (machine.new ≡ machine.old) }
{
    machine.reserve(SlotCounts {
        globals,
        ..SlotCounts::default()
    })
}

/// Reserves memory for all elements of a table up to its type's maximum.
pub fn reserve_table(machine: &mut Machine, table: usize, maximum: u64) -> Reply
    requires most { MatchOption (live_at machine.old.tables table) (Unit {0})
        (λ x. x.ty.maximum ≡ Some maximum) }
    ensures reserved { result ≡ Done → IsReservedTable machine.new.tables table }
{
    machine.reserve_elements(table, maximum)
}

/// Reserves memory for all elements of a table up to its type's maximum, and then grows it: by
/// however many elements, the growth doesn't run out of memory, unless the reservation was refused.
pub fn grow_reserved_table<L: ResourceLimiter>(
    machine: &mut Machine,
    table: usize,
    maximum: u64,
    delta: u64,
    init: TypedRawRef,
    limiter: &mut L,
) -> (Reply, Reply)
    requires most { MatchOption (live_at machine.old.tables table) (Unit {0})
        (λ x. x.ty.maximum ≡ Some maximum) }
    ensures has { result.0 ≡ Done → IsNotOutOfMemory result.1 }
{
    let reserved = reserve_table(machine, table, maximum);
    let growth = Call::GrowTable { table, delta, init };
    (reserved, machine.step_lending(&growth, limiter))
}

/// Reserves slots, and then makes calls for which they are enough: where neither is refused, none of
/// the calls runs out of memory.
pub fn run_with_slots<L: ResourceLimiter>(
    machine: &mut Machine,
    slots: SlotCounts,
    calls: &[Call],
    limiter: &mut L,
    replies: &mut Replies,
) -> (Result<(), AllocError>, Result<(), TooManyCalls>)
    requires fits { FitsSlots machine.old slots calls.now }
    ensures has { OnOk result.0 (OnOk result.1 (All IsNotOutOfMemory replies.new.items)) }
{
    wasmi_laws::reserved_suffices::<L>();
    let reserved = machine.reserve(slots);
    (reserved, run_into_lending(machine, calls, limiter, replies))
}

/// Makes one call, which needs no memory but what was reserved: it doesn't run out of memory.
pub fn call_reserved<L: ResourceLimiter>(
    machine: &mut Machine,
    call: &Call,
    limiter: &mut L,
) -> Reply
    requires needs { NeedsNoMemory machine.old call.now }
    ensures has { IsNotOutOfMemory result }
{
    wasmi_laws::reserved_suffices::<L>();
    machine.step_lending(call, limiter)
}

/// Makes calls, for which enough was reserved, and for whose replies there is memory: all are made,
/// and none of them runs out of memory.
pub fn run_reserved<L: ResourceLimiter>(
    machine: &mut Machine,
    calls: &[Call],
    limiter: &mut L,
    replies: &mut Replies,
) -> Result<(), TooManyCalls>
    requires reserved { IsReservedFor machine.old calls.now }
    requires room { length calls.now ≤ replies.old.capacity }
    ensures made { result ≡ Ok tt }
    ensures run { IsRunOf (optional_rules L.rules) calls.now (world machine.old (Some limiter.old))
        replies.new.items (world machine.new (Some limiter.new)) }
    ensures has { All IsNotOutOfMemory replies.new.items }
{
    wasmi_laws::reserved_suffices::<L>();
    run_into_lending(machine, calls, limiter, replies)
}

/// Makes the same calls on two equal machines under equal quotas, which have reserved enough for
/// them: the replies are the same, and the machines and the quotas are equal again, whatever memory
/// the system has.
pub fn run_both_reserved(
    machine: &mut Machine,
    other: &mut Machine,
    calls: &[Call],
    quota: &mut Quota,
    other_quota: &mut Quota,
    replies: &mut Replies,
    other_replies: &mut Replies,
) -> (Result<(), TooManyCalls>, Result<(), TooManyCalls>)
    requires machines { other.old ≡ machine.old }
    requires quotas { other_quota.old ≡ quota.old }
    requires reserved { IsReservedFor machine.old calls.now }
    ensures same { OnOk result.0 (OnOk result.1 ((replies.new.items ≡ other_replies.new.items)
        × (machine.new ≡ other.new) × (quota.new ≡ other_quota.new))) }
{
    laws::limiters_leave_no_choice();
    laws::limiters_accept_notices();
    laws::replies_are_one::<Quota>();
    wasmi_laws::reserved_suffices::<Quota>();
    let first = run_into_lending(machine, calls, quota, replies);
    (
        first,
        run_into_lending(other, calls, other_quota, other_replies),
    )
}

/// Makes calls on a tenant's machine, which has reserved enough for them: none of them runs out of
/// memory, and where the tenant is there and the replies have memory, all calls are made.
pub fn run_tenant_reserved(
    pool: &mut Pool,
    index: usize,
    calls: &[Call],
    replies: &mut Replies,
) -> Result<(), RunIntoError>
    requires reserved { (s : State) → pools.machine_of pool.old index ≡ Some s
        → IsReservedFor s calls.now }
    ensures made { (s : State) → pools.machine_of pool.old index ≡ Some s
        → length calls.now ≤ replies.old.capacity → result ≡ Ok tt }
    ensures has { OnOk result (All IsNotOutOfMemory replies.new.items) }
{
    wasmi_laws::reserved_suffices::<Tenant>();
    pool.run_into(index, calls, replies)
}

/// Makes the same calls on a tenant's machine in two equal pools, which has reserved enough for
/// them: the replies are the same, and the pools are equal again, whatever memory the system has.
pub fn run_both_tenants_reserved(
    pool: &mut Pool,
    other: &mut Pool,
    index: usize,
    calls: &[Call],
    replies: &mut Replies,
    other_replies: &mut Replies,
) -> (Result<(), RunIntoError>, Result<(), RunIntoError>)
    requires pools { other.old ≡ pool.old }
    requires reserved { (s : State) → pools.machine_of pool.old index ≡ Some s
        → IsReservedFor s calls.now }
    ensures same { OnOk result.0 (OnOk result.1 ((replies.new.items ≡ other_replies.new.items)
        × (pool.new ≡ other.new))) }
{
    pool_laws::tenants_leave_no_choice();
    laws::replies_are_one::<Tenant>();
    wasmi_laws::reserved_suffices::<Tenant>();
    let first = pool.run_into(index, calls, replies);
    (first, other.run_into(index, calls, other_replies))
}

/// Makes calls on a tenant's machine, and the same on an equal machine that is alone under the same
/// caps. They have reserved enough for the calls. If no reply to the tenant tells of a denial, the
/// replies are the same, and the machines are equal again, whatever memory the system has.
pub fn run_reserved_as_alone(
    pool: &mut Pool,
    index: usize,
    alone: &mut Pool,
    calls: &[Call],
    replies: &mut Replies,
    replies_alone: &mut Replies,
) -> (Result<(), RunIntoError>, Result<(), RunIntoError>)
    requires machine { (s : State) → pools.machine_of pool.old index ≡ Some s
        → alone.old ≡ pools.pool_of pool.old.caps (Some s ∷ []) }
    requires reserved { (s : State) → pools.machine_of pool.old index ≡ Some s
        → IsReservedFor s calls.now }
    ensures same { OnOk result.0 (OnOk result.1 (All TellsNoDenial replies.new.items
        → (replies.new.items ≡ replies_alone.new.items)
        × (pools.machine_of pool.new index ≡ pools.machine_of alone.new 0))) }
{
    pool_laws::replies_permit();
    pool_laws::permitted_runs_as_alone();
    pool_laws::tenants_leave_no_choice();
    laws::replies_are_one::<Tenant>();
    wasmi_laws::reserved_suffices::<Tenant>();
    let first = pool.run_into(index, calls, replies);
    (first, alone.run_into(0, calls, replies_alone))
}

/// Reserves slots on a tenant's machine, makes calls of another tenant, and then those of the first,
/// for which the slots are enough: none of these runs out of memory, whatever the other one did,
/// unless the slots or a list of calls were refused.
pub fn run_tenant_beside(
    pool: &mut Pool,
    index: usize,
    slots: SlotCounts,
    other: usize,
    between: &[Call],
    calls: &[Call],
    replies: &mut Replies,
) -> (
    Result<(), ReserveError>,
    Result<(), RunIntoError>,
    Result<(), RunIntoError>,
)
    requires another { other ≢ index }
    requires fits { (s : State) → pools.machine_of pool.old index ≡ Some s
        → FitsSlots s slots calls.now }
    ensures has { OnOk result.0 (OnOk result.1 (OnOk result.2
        (All IsNotOutOfMemory replies.new.items))) }
{
    wasmi_laws::reserved_tenants_suffice();
    let reserved = pool.reserve(index, slots);
    let beside = pool.run_into(other, between, replies);
    (reserved, beside, pool.run_into(index, calls, replies))
}
