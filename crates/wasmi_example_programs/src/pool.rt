//! A pool of two tenants: one run of each, and what each holds afterwards.

use wasmi_budget::Pool;
use wasmi_core::{Call, Fuel, FuelCostsProvider, Machine, MemoryType};

/// Runs one list of calls on each tenant.
pub fn main(rt: HostRuntime) -> anyhow::Result<()> {
    let mut builder = MemoryType::builder();
    builder.min(1);
    let calls = [Call::NewMemory(builder.build()?)];

    // One page of 64 KiB for both tenants together, and no tables. Each asks for a page: the second
    // one is denied.
    let mut pool = Pool::new(rt.alloc(), 65_536, 0);
    host(&rt, &mut pool, &calls)
}

/// Adds two tenants, each of which runs the calls, and prints what they hold.
fn host(rt: &HostRuntime, pool: &mut Pool, calls: &[Call]) -> anyhow::Result<()> {
    for tenant in 0..2 {
        add(rt, pool)?;
        run(rt, pool, tenant, calls)?;
    }
    for tenant in 0..pool.len() {
        let bytes = pool.held_bytes(tenant).unwrap_or(0);
        println!(rt; "tenant {tenant} holds {bytes} bytes")?;
    }
    Ok(())
}

/// Adds a tenant whose meter is off.
fn add(rt: &HostRuntime, pool: &mut Pool) -> anyhow::Result<()> {
    let fuel = Fuel::new(false, FuelCostsProvider::default());
    match pool.add(Machine::new(rt.alloc(), fuel)) {
        Ok(_tenant) => Ok(()),
        Err((error, _machine)) => Err(error.into()),
    }
}

/// Runs calls on a tenant and prints their replies.
fn run(rt: &HostRuntime, pool: &mut Pool, tenant: usize, calls: &[Call]) -> anyhow::Result<()> {
    let replies = pool.run(tenant, calls)?;
    println!(rt; "tenant {tenant}: {replies:?}")?;
    Ok(())
}
