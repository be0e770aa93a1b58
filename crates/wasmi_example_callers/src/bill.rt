//! A bill: what a run was charged.
ghost use Rattle.std.specs.Prelude.{◌≡◌, ◌↔◌, None, Some, IfOk, IsErrOf, OnErr, All};
ghost use Rattle.wasmi_meter.specs.Limiter.{optional_rules};
ghost use Rattle.wasmi_meter.specs.Meter.{amount_left};
ghost use Rattle.wasmi_core.specs.Account.{SetsNoFuel};
ghost use Rattle.wasmi_core.specs.State.{world};
ghost use Rattle.wasmi_example_callers.specs.Host.{IsBill};

use std::alloc::AllocError;
use wasmi_core::{Call, Machine, Reply, ResourceLimiter, laws, run_lending};

/// The replies to calls, and the fuel that they were charged.
#[derive(Debug, Drop)]
pub struct Bill {
    /// A reply for each call.
    pub replies: Vec<Reply>,
    /// The fuel, which is 0 if metering is off.
    pub charged: u64,
}

/// Why no call was made, in the order of the tests.
#[derive(Debug, PartialEq, Eq, Drop)]
pub enum BillError {
    /// A call sets the fuel.
    SetsFuel,
    /// Memory for the replies was refused.
    OutOfMemory,
}

/// Runs calls, and returns their bill: the fuel that the calls were charged, one by one. The bill
/// and what is left add up to what was left before. No call may set the fuel.
pub fn run_and_bill<L: ResourceLimiter>(
    machine: &mut Machine,
    calls: &[Call],
    limiter: &mut L,
) -> Result<Bill, AllocError>
    requires sets_no_fuel { All SetsNoFuel calls.now }
    ensures bill { IfOk result (λ bill. IsBill (optional_rules L.rules) calls.now
        (world machine.old (Some limiter.old)) bill.replies.items bill.charged
        (world machine.new (Some limiter.new))) }
    ensures off { machine.old.meter.left ≡ None → IfOk result (λ bill. bill.charged ≡ 0) }
    ensures err { OnErr result ((machine.new ≡ machine.old) × (limiter.new ≡ limiter.old)) }
{
    laws::charges_are_spent::<L>();
    let before = left(machine);
    let replies = run_lending(machine, calls, limiter)?;
    let charged = before.saturating_sub(left(machine));
    Ok(Bill { replies, charged })
}

/// As `run_and_bill`, for calls of unknown origin: if one of them sets the fuel, none is executed.
pub fn run_if_billable<L: ResourceLimiter>(
    machine: &mut Machine,
    calls: &[Call],
    limiter: &mut L,
) -> Result<Bill, BillError>
    ensures bill { IfOk result (λ bill. IsBill (optional_rules L.rules) calls.now
        (world machine.old (Some limiter.old)) bill.replies.items bill.charged
        (world machine.new (Some limiter.new))) }
    ensures off { machine.old.meter.left ≡ None → IfOk result (λ bill. bill.charged ≡ 0) }
    ensures sets_fuel { IsErrOf result BillError.SetsFuel ↔ ¬ (All SetsNoFuel calls.now) }
    ensures err { OnErr result ((machine.new ≡ machine.old) × (limiter.new ≡ limiter.old)) }
{
    if calls.iter().any(Call::sets_fuel) {
        return Err(BillError::SetsFuel);
    }
    run_and_bill(machine, calls, limiter).map_err(|_| BillError::OutOfMemory)
}

/// What is left, or 0 if metering is off.
fn left(machine: &Machine) -> u64
    ensures { result ≡ amount_left machine.now.meter }
{
    machine.fuel().get_fuel().unwrap_or(0)
}
