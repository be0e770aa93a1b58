//! A growth under a quota, with the contract that its caller wants.
ghost use Rattle.std.specs.Prelude.{Some};
ghost use Rattle.wasmi_core.specs.Growth.{metered_value};
ghost use Rattle.wasmi_core.specs.Limiter.{optional_rules};
ghost use Rattle.wasmi_core.specs.Memory.{GrowsMemory};
ghost use Rattle.wasmi_core.specs.Capped.{quota_rules};

use wasmi_core::{Fuel, FuelCostsProvider, Memory, MemoryError, MemoryType, Quota};

/// Grows by so many pages, pays for them, and counts them in the quota.
pub fn grow(
    memory: &mut Memory,
    pages: u64,
    fuel: &mut Fuel,
    quota: &mut Quota,
) -> Result<u64, MemoryError>
    ensures { GrowsMemory (optional_rules quota_rules) pages
        (metered_value memory.old (Some fuel.old) (Some quota.old)) result
        (metered_value memory.new (Some fuel.new) (Some quota.new)) }
{
    memory.grow_lending(pages, fuel, quota)
}

/// Grows a memory of bytes by more than the quota has left, then by less.
pub fn main(rt: HostRuntime) -> anyhow::Result<()> {
    let mut builder = MemoryType::builder();
    builder.min(60).page_size_log2(0);
    let ty = builder.build()?;
    let mut quota = Quota::new(100, 0);
    let mut memory = Memory::new_lending(rt.alloc(), ty, &mut quota)?;
    let mut fuel = Fuel::new(false, FuelCostsProvider::default());
    let denied = grow(&mut memory, 41, &mut fuel, &mut quota);
    let grown = grow(&mut memory, 40, &mut fuel, &mut quota);
    let (bytes, held) = (memory.data().len(), quota.held_bytes());
    println!(rt; "{denied:?}\n{grown:?}\n{bytes} bytes, held {held}")?;
    Ok(())
}
