//! A machine under a quota: a list of calls, their replies, and what the quota holds afterwards.

use std::io;
use wasmi_core::{Call, Fuel, FuelCostsProvider, Machine, MemoryType, Quota, Reply, run_reserving};

/// Makes a memory and lets it grow past the cap.
pub fn main(rt: HostRuntime) -> anyhow::Result<()> {
    // One to sixteen pages of 64 KiB, as a module may declare it.
    let mut builder = MemoryType::builder();
    builder.min(1).max(Some(16));
    let ty = builder.build()?;
    let grow = Call::GrowMemory {
        memory: 0,
        pages: 2,
    };
    let calls = [Call::NewMemory(ty), grow];
    let (replies, held) = run(&rt, &calls)?;
    print(&rt, &calls, &replies, held)?;
    Ok(())
}

/// Runs calls on a new machine. Returns their replies, and the bytes that the quota holds.
fn run(rt: &HostRuntime, calls: &[Call]) -> io::Result<(Vec<Reply>, u64)> {
    // A meter that is off, and a cap of two pages on all memories; no tables.
    let fuel = Fuel::new(false, FuelCostsProvider::default());
    let mut machine = Machine::new(rt.alloc(), fuel);
    let mut quota = Quota::new(131_072, 0);

    let replies = run_reserving(&mut machine, calls, &mut quota)?;
    Ok((replies, quota.held_bytes()))
}

/// Prints each call with its reply, and then what is held.
fn print(rt: &impl Print, calls: &[Call], replies: &[Reply], held: u64) -> io::Result<()> {
    for (call, reply) in calls.iter().zip(replies) {
        println!(rt; "{call:?}: {reply:?}")?;
    }
    println!(rt; "held: {held} bytes")
}
