//! A machine that is set up once: a memory in a region, and a table and globals for which memory is
//! reserved. Then a thousand guests run on it, and no call of theirs takes memory.

use wasmi_core::{
    Call, Fuel, FuelCostsProvider, GlobalType, Machine, MemoryType, Mutability, NoLimits, RawRef,
    RawVal, RefType, Replies, Reply, SlotCounts, TableType, TooManyCalls, TypedRawRef, ValType,
    run_into_lending, run_lending,
};

/// Makes a machine with a region, sets it up, and runs the guests on it.
pub fn main(rt: HostRuntime) -> anyhow::Result<()> {
    let mut region = [0; 64];
    let fuel = Fuel::new(false, FuelCostsProvider::default());
    let mut machine = Machine::with_region(rt.alloc(), fuel, &mut region);
    host(&rt, &mut machine)
}

/// Sets the machine up, and runs the guests on it one after another.
fn host(rt: &HostRuntime, machine: &mut Machine) -> anyhow::Result<()> {
    set_up(rt, machine)?;
    let mut replies = Replies::with_capacity(rt.alloc(), 3)?;

    let mut done = 0u32;
    for guest in 0..1000u32 {
        if runs(machine, guest, &mut replies)? {
            done = done.saturating_add(1);
        }
    }
    println!(rt; "of 1000 guests {done} did all their calls")?;
    Ok(())
}

/// Makes the memory, of one page in the region, and the table, and reserves all that guests take:
/// the slots of globals, and the elements of the table up to its maximum.
fn set_up(rt: &impl Print, machine: &mut Machine) -> anyhow::Result<()> {
    let mut builder = MemoryType::builder();
    builder.min(64).page_size_log2(0);
    let memory = builder.build()?;
    machine.reserve(SlotCounts {
        globals: 1000,
        ..SlotCounts::default()
    })?;
    let ty = TableType::new(RefType::Func, 0, Some(1000));
    let init = func(0);
    let calls = [Call::NewLentMemory(memory), Call::NewTable { ty, init }];
    let made = run_lending(machine, &calls, &mut NoLimits)?;
    let reserved = machine.reserve_elements(0, 1000);
    println!(rt; "set up: {made:?}, {reserved:?}")?;
    Ok(())
}

/// A function reference.
fn func(number: u32) -> TypedRawRef {
    TypedRawRef::new(RawRef::from(number), RefType::Func)
}

/// Runs a guest, which fills the memory, adds an element to the table and makes a global: whether
/// all of it was done.
fn runs(machine: &mut Machine, guest: u32, replies: &mut Replies) -> Result<bool, TooManyCalls> {
    let value = RawVal::from(guest);
    let ty = GlobalType::new(ValType::I32, Mutability::Var);
    let calls = [
        Call::FillMemory {
            memory: 0,
            dst: 0,
            value: 1,
            len: 64,
        },
        Call::GrowTable {
            table: 0,
            delta: 1,
            init: func(guest),
        },
        Call::NewGlobal { value, ty },
    ];
    run_into_lending(machine, &calls, &mut NoLimits, replies)?;
    Ok(replies.as_slice().iter().all(is_done))
}

/// Whether a reply says that the call was done.
fn is_done(reply: &Reply) -> bool {
    matches!(reply, Reply::Done | Reply::Number(_) | Reply::Made(_))
}
