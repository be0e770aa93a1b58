//! Callers of the laws over turns and runs, of the meter over runs, and of those over pools.
ghost use Rattle.std.specs.Prelude.{◌≡◌, ◌++◌, ◌≤◌, [], ◌∷◌, ℕ, ◌+◌, Some, IfOk, IfSome, OnSome, All, is_some, slice_get, List};
ghost use Rattle.wasmi_store.specs.Memory.{MemoryTypeValue};
ghost use Rattle.wasmi_meter.specs.Limiter.{optional_rules};
ghost use Rattle.wasmi_meter.specs.Meter.{amount_left};
ghost use Rattle.wasmi_meter.specs.declared.limiter.Kind.{Kind};
ghost use Rattle.wasmi_meter.specs.Capped.{holdings, IsWithinCaps, quota_rules};
ghost use Rattle.wasmi_machine.specs.Account.{SetsNoFuel};
ghost use Rattle.wasmi_machine.specs.Exchange.{Exchanges, Nowhere, place_of};
ghost use Rattle.wasmi_machine.specs.LentMemory.{owned_world, unlent_world};
ghost use Rattle.wasmi_machine.specs.Laws.{IsRefusal, Keeps, SameContents, KeepsSpare};
ghost use Rattle.wasmi_machine.specs.Determinism.{permitting, TellsNoDenial};
ghost use Rattle.wasmi_machine.specs.Steps.{IsRunOf};
ghost use Rattle.wasmi_machine.specs.State.{sizes, total, HoldsTotals, IsValid, IsValidCall, world};
ghost use Rattle.wasmi_laws.specs.Runs.{HasFuel, IsPlainRefusal, IsRunInTwo, IsWithinCapsOf, NamesNoFuel, world_with_more};
ghost use Rattle.wasmi_budget.specs.Pool as pools;
ghost use Rattle.wasmi_law_tests.specs.Runs.{KeepsCaps, RunsAlone, RunsBeside, StaysVacant, IsBilled, IsBoundedBy, IsSpentBy, IsMeterKept, IsRunOfBoth, FitsAnyRegions, NeitherIsOutOfMemory, AreSameTurns, HasRegionFor, GrowsInRegion, RunsByTurns};

use std::alloc::AllocError;
use wasmi_budget::{Pool, PoolError, Tenant, laws as pool_laws};
use wasmi_machine::{Call, Machine, Reply, laws, run_lending};
use wasmi_meter::{Quota, ResourceLimiter};

/// Makes one call. Where it is refused, the machine has the contents that it had; the spare region,
/// unless a memory was to be made in it; and the meter, unless it is a growth that was paid before
/// it ran out of memory: then the meter has its price less. A plain refusal, or one that makes
/// nothing and lets nothing grow, changes neither the machine nor the limiter.
pub fn call_refused<L: ResourceLimiter>(
    machine: &mut Machine,
    call: &Call,
    limiter: &mut L,
) -> Reply
    ensures contents { IsRefusal result → SameContents machine.old machine.new }
    ensures spare { IsRefusal result → KeepsSpare call.now result machine.old machine.new }
    ensures meter { IsRefusal result
        → IsMeterKept (optional_rules L.rules) call.now
        (world machine.old (Some limiter.old)) result (world machine.new (Some limiter.new)) }
    ensures machine { IsPlainRefusal result → machine.new ≡ machine.old }
    ensures limiter { IsPlainRefusal result → limiter.new ≡ limiter.old }
    ensures others { place_of call.now ≡ Nowhere → IsRefusal result
        → (machine.new ≡ machine.old) × (limiter.new ≡ limiter.old) }
{
    laws::refusals_keep_contents::<L>();
    wasmi_laws::plain_refusals_change_nothing::<L>();
    machine.step_lending(call, limiter)
}

/// Makes calls. Each that is refused keeps what `call_refused` says. Where all are, the machine has
/// the contents that it had; where all are refused plainly, neither it nor the limiter has changed.
pub fn run_refused<L: ResourceLimiter>(
    machine: &mut Machine,
    calls: &[Call],
    limiter: &mut L,
) -> Result<Vec<Reply>, AllocError>
    ensures turns { IfOk result
        (λ replies. RunsByTurns (optional_rules L.rules)
        (λ before turn after. IsRefusal turn.reply
        → Keeps (optional_rules L.rules) before turn after) calls.now
        (world machine.old (Some limiter.old)) replies.items
        (world machine.new (Some limiter.new))) }
    ensures all { IfOk result
        (λ replies. All IsRefusal replies.items → SameContents machine.old machine.new) }
    ensures plain { IfOk result (λ replies. All IsPlainRefusal replies.items
        → (machine.new ≡ machine.old) × (limiter.new ≡ limiter.old)) }
{
    laws::refusals_keep_contents::<L>();
    wasmi_laws::plain_refusals_change_nothing::<L>();
    run_lending(machine, calls, limiter)
}

/// Makes calls, and knows what was paid for them, how much they can have written, and that the
/// meter keeps its costs and is on or off as it was. If none of them sets the fuel, no more of it
/// is left, and what was left before is what is left after and what they were charged, which bounds
/// what they have written.
pub fn run_billed<L: ResourceLimiter>(
    machine: &mut Machine,
    calls: &[Call],
    limiter: &mut L,
) -> Result<Vec<Reply>, AllocError>
    ensures billed { IfOk result (λ replies. IsBilled (optional_rules L.rules) calls.now
        (world machine.old (Some limiter.old)) replies.items
        (world machine.new (Some limiter.new))) }
    ensures bounded { IfOk result (λ replies. IsBoundedBy (optional_rules L.rules) calls.now
        (world machine.old (Some limiter.old)) replies.items
        (world machine.new (Some limiter.new))) }
    ensures spent { All SetsNoFuel calls.now → IfOk result
        (λ replies. IsSpentBy (optional_rules L.rules) calls.now
        (world machine.old (Some limiter.old)) replies.items
        (world machine.new (Some limiter.new))) }
    ensures costs { machine.new.meter.costs ≡ machine.old.meter.costs }
    ensures switch { is_some machine.new.meter.left ≡ is_some machine.old.meter.left }
    ensures fuel { All SetsNoFuel calls.now
        → amount_left machine.new.meter ≤ amount_left machine.old.meter }
{
    laws::fuel_balances::<L>();
    laws::fuel_bounds_writing::<L>();
    laws::charges_are_spent::<L>();
    wasmi_laws::meters_are_kept::<L>();
    run_lending(machine, calls, limiter)
}

/// Makes calls, and knows of each turn what the limiter was asked and told, and what has grown: a
/// memory in a lent region does so, or the limiter denies it, if its type and the region have place
/// for it and it can be paid. If no reply tells of a denial, the limiter has permitted all that it
/// was asked. Each memory and each table that was there is at its index, with at least the size
/// that it had or was dropped with, and the totals are at least what they were.
pub fn run_exchanged<L: ResourceLimiter>(
    machine: &mut Machine,
    calls: &[Call],
    limiter: &mut L,
) -> Result<Vec<Reply>, AllocError>
    ensures exchanged { IfOk result
        (λ replies. RunsByTurns (optional_rules L.rules) (Exchanges (optional_rules L.rules)) calls.now
        (world machine.old (Some limiter.old)) replies.items
        (world machine.new (Some limiter.new))) }
    ensures regions { IfOk result (λ replies. RunsByTurns (optional_rules L.rules)
        (GrowsInRegion (optional_rules L.rules)) calls.now
        (world machine.old (Some limiter.old)) replies.items
        (world machine.new (Some limiter.new))) }
    ensures permitted { IfOk result
        (λ replies. All TellsNoDenial replies.items
        → IsRunOf (permitting (optional_rules L.rules)) calls.now
        (world machine.old (Some limiter.old)) replies.items
        (world machine.new (Some limiter.new))) }
    ensures sizes { (kind : Kind) (k n : ℕ) → slice_get (sizes machine.old kind) k ≡ Some n
        → (m : ℕ) × (slice_get (sizes machine.new kind) k ≡ Some m) × (n ≤ m) }
    ensures totals { (kind : Kind) → total machine.old kind ≤ total machine.new kind }
{
    laws::growths_are_permitted::<L>();
    laws::lent_growths_succeed::<L>();
    laws::replies_permit::<L>();
    wasmi_laws::sizes_never_shrink::<L>();
    run_lending(machine, calls, limiter)
}

/// Makes calls whose types are valid, on a machine whose state is valid as every machine's is: it
/// is so after each call.
pub fn run_valid<L: ResourceLimiter>(
    machine: &mut Machine,
    calls: &[Call],
    limiter: &mut L,
) -> Result<Vec<Reply>, AllocError>
    requires valid { All IsValidCall calls.now }
    ensures turns { IfOk result (λ replies. RunsByTurns (optional_rules L.rules)
        (λ before turn after. IsValid after.state) calls.now
        (world machine.old (Some limiter.old)) replies.items
        (world machine.new (Some limiter.new))) }
    ensures after { IfOk result (λ _. IsValid machine.new) }
{
    laws::states_are_valid(machine);
    laws::runs_keep_validity::<L>();
    run_lending(machine, calls, limiter)
}

/// Makes calls under a quota. If it holds what the machine has, it does so again afterwards, and if
/// it was also within its caps, the machine is within them after each turn. If no call sets the
/// fuel or asks for it, and no reply says out of fuel, then with any more fuel there is a run with
/// the same replies that ends in the same state, with that much more left.
pub fn run_within_quota(
    machine: &mut Machine,
    calls: &[Call],
    quota: &mut Quota,
) -> Result<Vec<Reply>, AllocError>
    ensures held { HoldsTotals (holdings quota.old) machine.old
        → HoldsTotals (holdings quota.new) machine.new }
    ensures caps { HoldsTotals (holdings quota.old) machine.old → IsWithinCaps quota.old
        → IsWithinCapsOf quota.old machine.new }
    ensures turns { HoldsTotals (holdings quota.old) machine.old → IsWithinCaps quota.old
        → IfOk result (λ replies. RunsByTurns (optional_rules quota_rules)
        (λ before turn after. IsWithinCapsOf quota.old after.state) calls.now
        (world machine.old (Some quota.old)) replies.items
        (world machine.new (Some quota.new))) }
    ensures enough { All NamesNoFuel calls.now → IfOk result
        (λ replies. All HasFuel replies.items → (more : ℕ)
        → IsRunOf (optional_rules quota_rules) calls.now
        (world_with_more more (world machine.old (Some quota.old))) replies.items
        (world_with_more more (world machine.new (Some quota.new)))) }
{
    laws::totals_are_held::<Quota>();
    laws::quotas_stay_within();
    laws::limiters_accept_notices();
    wasmi_laws::caps_hold_in_runs();
    wasmi_laws::more_fuel_changes_nothing::<Quota>();
    run_lending(machine, calls, quota)
}

/// Makes some calls and then others. If both are made, it is as if all were made in one run, by the
/// turns of the first and then those of the others.
pub fn run_both<L: ResourceLimiter>(
    machine: &mut Machine,
    calls: &[Call],
    more: &[Call],
    limiter: &mut L,
) -> (
    Result<Vec<Reply>, AllocError>,
    Result<Vec<Reply>, AllocError>,
)
    ensures calls { IfOk result.0 (λ first. IfOk result.1
        (λ second. IsRunOf (optional_rules L.rules) (calls.now ++ more.now)
        (world machine.old (Some limiter.old)) (first.items ++ second.items)
        (world machine.new (Some limiter.new)))) }
    ensures turns { IfOk result.0 (λ first. IfOk result.1
        (λ second. IsRunOfBoth (optional_rules L.rules) calls.now more.now
        (world machine.old (Some limiter.old)) first.items second.items
        (world machine.new (Some limiter.new)))) }
{
    laws::runs_join::<L>();
    let first = run_lending(machine, calls, limiter);
    let second = run_lending(machine, more, limiter);
    (first, second)
}

/// Makes the same calls on two equal machines under equal quotas. If no reply is that memory ran
/// out, the replies are the same, and the machines and the quotas are equal again. Both are then
/// runs of the same turns, so each call was charged and has written the same in both.
pub fn run_twice(
    machine: &mut Machine,
    other: &mut Machine,
    calls: &[Call],
    quota: &mut Quota,
    other_quota: &mut Quota,
) -> (
    Result<Vec<Reply>, AllocError>,
    Result<Vec<Reply>, AllocError>,
)
    requires machines { other.old ≡ machine.old }
    requires quotas { other_quota.old ≡ quota.old }
    ensures same { IfOk result.0 (λ first. IfOk result.1
        (λ second. NeitherIsOutOfMemory first.items second.items
        → (first.items ≡ second.items) × (machine.new ≡ other.new)
        × (quota.new ≡ other_quota.new))) }
    ensures turns { IfOk result.0 (λ first. IfOk result.1
        (λ second. NeitherIsOutOfMemory first.items second.items
        → AreSameTurns (optional_rules quota_rules)
        (world machine.old (Some quota.old)) (world machine.new (Some quota.new))
        (world other.new (Some other_quota.new)))) }
{
    laws::limiters_leave_no_choice();
    laws::limiters_accept_notices();
    laws::replies_are_one::<Quota>();
    laws::replies_tell::<Quota>();
    laws::runs_are_one::<Quota>();
    let first = run_lending(machine, calls, quota);
    let second = run_lending(other, calls, other_quota);
    (first, second)
}

/// Makes calls. If they fit whatever regions there are, the replies are those of a machine whose
/// memories are all its own. If they make one memory in the spare region, which is long enough for
/// it, the reply is that of a machine that makes one of its own. Wherever the calls are cut, the
/// first ones with as many replies are a run, and the others are a run from where that ends.
pub fn run_in_regions<L: ResourceLimiter>(
    machine: &mut Machine,
    calls: &[Call],
    limiter: &mut L,
) -> Result<Vec<Reply>, AllocError>
    ensures owned { All FitsAnyRegions calls.now → IfOk result
        (λ replies. IsRunOf (optional_rules L.rules) calls.now
        (owned_world (world machine.old (Some limiter.old))) replies.items
        (owned_world (world machine.new (Some limiter.new)))) }
    ensures made { (ty : MemoryTypeValue) → calls.now ≡ Call.NewLentMemory ty ∷ []
        → HasRegionFor ty machine.old → IfOk result
        (λ replies. IsRunOf (optional_rules L.rules) (Call.NewMemory ty ∷ [])
        (unlent_world (world machine.old (Some limiter.old))) replies.items
        (unlent_world (world machine.new (Some limiter.new)))) }
    ensures parts { IfOk result (λ replies. (first : List Call) (rest : List Call)
        → calls.now ≡ first ++ rest → IsRunInTwo (optional_rules L.rules) first rest
        (world machine.old (Some limiter.old)) replies.items
        (world machine.new (Some limiter.new))) }
{
    laws::lent_runs_are_owned::<L>();
    laws::lent_creations_are_owned::<L>();
    wasmi_laws::runs_are_cut::<L>();
    run_lending(machine, calls, limiter)
}

/// Makes calls on the machine of a tenant: whatever comes of it, and whatever calls on the pool
/// follow, the caps stay, and all machines together stay within them. If no reply tells of a
/// denial, it is as if the tenant had a pool of its own with the same caps, or as if the others
/// held nothing.
pub fn run_within(pool: &mut Pool, index: usize, calls: &[Call]) -> Result<Vec<Reply>, PoolError>
    ensures caps { pool.new.caps ≡ pool.old.caps }
    ensures within { pools.IsWithinCaps pool.new }
    ensures later { KeepsCaps pool.old.caps pool.new }
    ensures alone { IfOk result
        (λ replies. All TellsNoDenial replies.items
        → RunsAlone pool.old index calls.now replies.items pool.new) }
    ensures beside { IfOk result
        (λ replies. All TellsNoDenial replies.items
        → RunsBeside pool.old index calls.now replies.items) }
{
    pool_laws::caps_hold();
    pool_laws::replies_permit();
    pool_laws::permitted_runs_as_alone();
    pool_laws::others_do_not_show();
    pool.run(index, calls)
}

/// Removes a tenant. All that are left stay within the caps, and whatever calls on the pool follow,
/// no tenant has its index.
pub fn remove_for_good<'r>(pool: &mut Pool<'r>, index: usize) -> Option<Machine<'r>>
    ensures later { KeepsCaps pool.old.caps pool.new }
    ensures vacant { OnSome result (StaysVacant index pool.new) }
{
    pool_laws::caps_hold();
    pool_laws::removed_stay_removed();
    pool.remove(index)
}

/// Removes two tenants. What both their machines have counts no more.
pub fn remove_both<'r>(
    pool: &mut Pool<'r>,
    one: usize,
    other: usize,
) -> (Option<Machine<'r>>, Option<Machine<'r>>)
    ensures less { IfSome result.0 (λ first. IfSome result.1 (λ second. (kind : Kind)
        → pools.total_of pool.new.machines kind + total first kind + total second kind
        ≡ pools.total_of pool.old.machines kind)) }
{
    pool_laws::removals_give_back();
    let first = pool.remove(one);
    let second = pool.remove(other);
    (first, second)
}

/// Makes the same calls on a tenant's machine in two equal pools: if no reply is that memory ran
/// out, the replies are the same, and the pools are equal again.
pub fn run_on_both(
    pool: &mut Pool,
    other: &mut Pool,
    index: usize,
    calls: &[Call],
) -> (Result<Vec<Reply>, PoolError>, Result<Vec<Reply>, PoolError>)
    requires pools { other.old ≡ pool.old }
    ensures same { IfOk result.0 (λ first. IfOk result.1
        (λ second. NeitherIsOutOfMemory first.items second.items
        → (first.items ≡ second.items) × (pool.new ≡ other.new))) }
{
    pool_laws::tenants_leave_no_choice();
    laws::replies_are_one::<Tenant>();
    let first = pool.run(index, calls);
    let second = other.run(index, calls);
    (first, second)
}
