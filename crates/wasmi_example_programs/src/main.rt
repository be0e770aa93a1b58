//! Runs the guides one after another.
#![tactic(auto)]

mod bill;
mod growth;
mod limiter;
mod memory;
mod pool;
mod quota;
mod set_up;

fn main(rt: HostRuntime) -> anyhow::Result<()> {
    memory::main(rt)?;
    quota::main(rt)?;
    pool::main(rt)?;
    bill::main(rt)?;
    limiter::main(rt)?;
    growth::main(rt)?;
    set_up::main(rt)
}
