//! A host of plug-ins: a run of a new machine under a quota, and two tenants of a pool.
ghost use Rattle.std.specs.Prelude.{◌≡◌, ◌≤◌, ◌⊎◌, [], ◌∷◌, None, IfOk, IsErr, IsErrOf};
ghost use Rattle.wasmi_meter.specs.declared.limiter.Kind.TheVariants.{Bytes, Elements};
ghost use Rattle.wasmi_core.specs.State.{total};
ghost use Rattle.wasmi_budget.specs.Pool.{IsWithinCaps, machine_of};
ghost use Rattle.wasmi_budget.specs.Laws.{Ran, PoolRun};
ghost use Rattle.wasmi_example_callers.specs.Host.{RunsUnderQuota};

use std::alloc::{AllocError, Global};
use wasmi_budget::{Pool, PoolError};
use wasmi_core::{Call, Fuel, Machine, Quota, Reply, laws, run_reserving};

/// A plug-in that has run.
#[derive(Debug, Drop)]
pub struct Plugin<'r> {
    /// Its machine.
    pub machine: Machine<'r>,
    /// The replies to its calls.
    pub replies: Vec<Reply>,
}

/// Runs the calls of a plug-in on a machine of its own with this meter, under a quota with these
/// caps on the bytes of memories and the elements of tables. Whatever the calls are, the machine
/// doesn't exceed the caps afterwards.
pub fn run_plugin<'r>(
    alloc: Global,
    fuel: Fuel,
    calls: &[Call],
    bytes: u64,
    elements: u64,
) -> Result<Plugin<'r>, AllocError>
    ensures run { IfOk result
        (λ ran. RunsUnderQuota bytes elements fuel calls.now ran.replies.items ran.machine) }
    ensures bytes { IfOk result (λ ran. total ran.machine Bytes ≤ bytes) }
    ensures elements { IfOk result (λ ran. total ran.machine Elements ≤ elements) }
{
    laws::quotas_stay_within();
    let mut machine = Machine::new(alloc, fuel);
    let mut quota = Quota::new(bytes, elements);
    let replies = run_reserving(&mut machine, calls, &mut quota)?;
    Ok(Plugin { machine, replies })
}

/// Runs the calls of the first tenant of a pool, and then those of the second. Whatever they ask
/// for, all tenants together stay within the pool's caps, which don't change. After an error the
/// first may have run.
pub fn run_two_tenants(
    pool: &mut Pool,
    first: &[Call],
    second: &[Call],
) -> Result<(Vec<Reply>, Vec<Reply>), PoolError>
    ensures run { IfOk result (λ replies. PoolRun pool.old
        (Ran 0 first.now replies.0.items ∷ Ran 1 second.now replies.1.items ∷ []) pool.new) }
    ensures no_tenant { IsErrOf result PoolError.NoTenant
        → (machine_of pool.old 0 ≡ None) ⊎ (machine_of pool.old 1 ≡ None) }
    ensures few { (machine_of pool.old 0 ≡ None) ⊎ (machine_of pool.old 1 ≡ None) → IsErr result }
    ensures within { IsWithinCaps pool.new }
    ensures caps { pool.new.caps ≡ pool.old.caps }
{
    let first_replies = pool.run(0, first)?;
    let second_replies = pool.run(1, second)?;
    Ok((first_replies, second_replies))
}
