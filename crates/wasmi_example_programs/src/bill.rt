//! A bill: what a list of calls of unknown origin costs, and what is left for the next one.

use std::io;
use wasmi_core::{Call, Fuel, FuelCostsProvider, Machine, MemoryType, NoLimits, run_lending};

/// Runs a list of calls and prints what it was charged.
pub fn main(rt: HostRuntime) -> anyhow::Result<()> {
    // Fuel is counted at the default prices: one unit pays for 64 copied bytes.
    let mut fuel = Fuel::new(true, FuelCostsProvider::default());
    fuel.set_fuel(2000)?;
    let mut builder = MemoryType::builder();
    builder.min(1);
    let ty = builder.build()?;
    let grow = Call::GrowMemory {
        memory: 0,
        pages: 1,
    };
    let calls = [Call::NewMemory(ty), grow, Call::GetFuel];
    let mut machine = Machine::new(rt.alloc(), fuel);
    bill(&rt, &mut machine, &calls)?;
    Ok(())
}

/// Runs calls, and prints their replies and what they were charged.
fn bill(rt: &impl Print, machine: &mut Machine, calls: &[Call]) -> io::Result<()> {
    // Whoever pays must not set the fuel.
    if calls.iter().any(Call::sets_fuel) {
        return println!(rt; "refused: a call sets the fuel");
    }
    let before = left(machine);
    let replies = run_lending(machine, calls, &mut NoLimits)?;
    let after = left(machine);
    let charged = before.saturating_sub(after);
    println!(rt; "replies: {replies:?}\ncharged {charged}, left {after}")
}

/// What is left, or 0 if metering is off.
fn left(machine: &Machine) -> u64 {
    machine.fuel().get_fuel().unwrap_or(0)
}
