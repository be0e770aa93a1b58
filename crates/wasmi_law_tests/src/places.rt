//! Callers of the laws of what is at an index of a machine: what calls leave there, a stored number
//! that is loaded again, and calls in either order.
ghost use Rattle.std.specs.Prelude.{◌≡◌, ◌≢◌, [], ◌∷◌, Some, IfOk, All};
ghost use Rattle.wasmi_meter.specs.Limiter.{optional_rules};
ghost use Rattle.wasmi_machine.specs.declared.calls.Reply.TheVariants.{Done, Value};
ghost use Rattle.wasmi_machine.specs.Steps.{IsRunOf};
ghost use Rattle.wasmi_machine.specs.State.{world};
ghost use Rattle.wasmi_laws.specs.Places.{Content, DropsNot, HasAt, IsIndependent, IsLater, IsLive, IsLocal, KeepsOtherBytes, LeavesAlone, Location, MemoryAt, NumberStore, StaysAt, content_at, load_call, store_call, stored_part};

use std::alloc::AllocError;
use wasmi_machine::{Call, Machine, Reply, run_lending};
use wasmi_meter::ResourceLimiter;

/// Makes one call. What is at each index that it may not change is as it was: so a call on one
/// memory leaves every other memory, and all tables, element segments, globals and registers. If it
/// is a store of a number to a memory that is done, all other bytes of that memory are as they were,
/// and there are as many.
pub fn call_elsewhere<L: ResourceLimiter>(
    machine: &mut Machine,
    call: &Call,
    limiter: &mut L,
) -> Reply
    ensures stays { (location : Location) → LeavesAlone location call.now
        → StaysAt location machine.old machine.new }
    ensures bytes { (it : NumberStore) → call.now ≡ store_call it → result ≡ Done
        → KeepsOtherBytes it machine.old machine.new }
{
    wasmi_laws::others_stay::<L>();
    wasmi_laws::stores_are_read_back::<L>();
    machine.step_lending(call, limiter)
}

/// Makes calls. What is at each index that none of them may change is as it was: so a guest whose
/// calls name its own memories, tables, element segments, globals and registers leaves those of
/// another. What was at an index is there afterwards, as it may have become; and a memory or a
/// table that was live there is so, if no call drops it.
pub fn run_elsewhere<L: ResourceLimiter>(
    machine: &mut Machine,
    calls: &[Call],
    limiter: &mut L,
) -> Result<Vec<Reply>, AllocError>
    ensures stays { (location : Location) → All (LeavesAlone location) calls.now
        → StaysAt location machine.old machine.new }
    ensures later { (location : Location) → (x : Content location)
        → content_at location machine.old ≡ Some x
        → HasAt location machine.new (IsLater location x) }
    ensures live { (location : Location) → All (DropsNot location) calls.now
        → HasAt location machine.old (IsLive location)
        → HasAt location machine.new (IsLive location) }
{
    wasmi_laws::others_stay::<L>();
    wasmi_laws::indices_last::<L>();
    run_lending(machine, calls, limiter)
}

/// Makes a call, then others, and then one more. If the first is a store of a number to a memory
/// that is done, the last the load of as many bytes from the same address, and no call between may
/// change that memory, then what is loaded is what was stored.
pub fn load_stored<L: ResourceLimiter>(
    machine: &mut Machine,
    store: &Call,
    calls: &[Call],
    load: &Call,
    limiter: &mut L,
) -> (Reply, Result<Vec<Reply>, AllocError>, Reply)
    ensures { (it : NumberStore) → store.now ≡ store_call it → load.now ≡ load_call it
        → All (LeavesAlone (MemoryAt it.memory)) calls.now → IfOk result.1
        (λ _. result.0 ≡ Done → result.2 ≡ Value (stored_part it.op it.value)) }
{
    wasmi_laws::stores_are_read_back::<L>();
    let stored = machine.step_lending(store, limiter);
    let replies = run_lending(machine, calls, limiter);
    let loaded = machine.step_lending(load, limiter);
    (stored, replies, loaded)
}

/// Makes two calls. If each acts on what is at indices alone, and neither may change what the other
/// may change or reads, they might as well have been made in the other order. Two stores of numbers
/// to different memories are such calls.
pub fn call_in_either_order<L: ResourceLimiter>(
    machine: &mut Machine,
    first: &Call,
    second: &Call,
    limiter: &mut L,
) -> (Reply, Reply)
    ensures independent { IsLocal first.now → IsLocal second.now
        → IsIndependent first.now second.now
        → IsRunOf (optional_rules L.rules) (second.now ∷ first.now ∷ [])
        (world machine.old (Some limiter.old)) (result.1 ∷ result.0 ∷ [])
        (world machine.new (Some limiter.new)) }
    ensures stores { (it : NumberStore) → (other : NumberStore) → first.now ≡ store_call it
        → second.now ≡ store_call other → it.memory ≢ other.memory
        → IsRunOf (optional_rules L.rules) (store_call other ∷ store_call it ∷ [])
        (world machine.old (Some limiter.old)) (result.1 ∷ result.0 ∷ [])
        (world machine.new (Some limiter.new)) }
{
    wasmi_laws::independent_calls_commute::<L>();
    let reply = machine.step_lending(first, limiter);
    let other_reply = machine.step_lending(second, limiter);
    (reply, other_reply)
}
