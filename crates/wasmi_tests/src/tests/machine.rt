//! The machine: lists of calls, their replies, and what a host sees afterwards; what these tests
//! share: machines, types of memories, and runs.
ghost use Rattle.std.specs.Prelude.{None};
ghost use Rattle.wasmi_meter.specs.Capped.{nothing};
ghost use Rattle.wasmi_machine.specs.State.{HoldsTotals};

mod limiters;
mod regions;

use super::same;
use std::alloc::Global;
use std::process::Abort;
use wasmi_machine::{Call, Machine, Reply, run};
use wasmi_meter::{CustomFuelCosts, Fuel, FuelCostsProvider, NoLimits, ResourceLimiterRef};
use wasmi_raw::RawRef;
use wasmi_store::MemoryType;
use wasmi_typed::TypedRawRef;
use wasmi_types::RefType;

/// Runs calls without a limiter, and compares the replies.
fn runs_to(rt: &impl Abort, machine: &mut Machine, calls: &[Call], expected: &[Reply]) {
    let mut limiter = ResourceLimiterRef::<NoLimits>::default();
    let replies = run(machine, calls, &mut limiter).expect(rt, "there is room");
    same(rt, "replies", replies.as_slice(), expected);
}

/// A new machine whose meter is off.
fn unmetered(alloc: Global) -> Machine<'static>
    ensures { HoldsTotals (record { held = nothing; last = None }) result }
{
    Machine::new(alloc, Fuel::unmetered())
}

/// A meter that takes one fuel for 64 copied bytes, where it is on.
fn meter(is_on: bool) -> Fuel {
    let costs = CustomFuelCosts {
        bytes_copied_per_fuel: 64,
        fuel_per_bytes_translated: 7,
        fuel_per_bytes_validated: 2,
    };
    Fuel::new(is_on, FuelCostsProvider::custom(costs))
}

/// A new machine with such a meter, which is on.
fn metered(alloc: Global) -> Machine<'static>
    ensures { HoldsTotals (record { held = nothing; last = None }) result }
{
    Machine::new(alloc, meter(true))
}

/// A type of memories without a maximum.
fn memory_type(rt: &impl Abort, minimum: u64, page_size_log2: u8) -> MemoryType {
    let mut builder = MemoryType::builder();
    builder.min(minimum).page_size_log2(page_size_log2);
    builder.build().expect(rt, "a memory type")
}

/// A function reference.
fn func(number: u32) -> TypedRawRef {
    TypedRawRef::new(RawRef::from(number), RefType::Func)
}
