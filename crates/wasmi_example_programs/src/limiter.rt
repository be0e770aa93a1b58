//! A limiter of one's own: no memory above so many bytes, and no table above so many elements.
ghost use Rattle.std.specs.Prelude.{◌≡◌, Ok, nat_le};

use wasmi_core::{
    Call, Fuel, FuelCostsProvider, Kind, LimiterByKind, LimiterError, Machine, MemoryType,
    run_lending,
};

/// Permits each memory up to so many bytes, and each table up to so many elements.
#[derive(Clone, Copy, Debug)]
struct AtMost {
    most: usize,
}

impl LimiterByKind for AtMost {
    ghost kind_rules = { record {
      asked = λ l q answer l'. (answer ≡ Ok (nat_le q.desired l.most)) × (l' ≡ l);
      noticed = λ l failure notice_answer l'. (notice_answer ≡ Ok tt) × (l' ≡ l);
    } };

    fn growing(&mut self, _kind: Kind, _from: usize, to: usize) -> Result<bool, LimiterError> {
        Ok(to <= self.most)
    }

    fn grow_failed(&mut self, _kind: Kind) -> Result<(), LimiterError> {
        Ok(())
    }
}

/// Makes two memories, of which the second is above the limit.
pub fn main(rt: HostRuntime) -> anyhow::Result<()> {
    let fuel = Fuel::new(false, FuelCostsProvider::default());
    let mut machine = Machine::new(rt.alloc(), fuel);
    for pages in 1..3 {
        make(&rt, &mut machine, pages)?;
    }
    Ok(())
}

/// Makes a memory of at most one page of 64 KiB, and prints the replies.
fn make(rt: &impl Print, machine: &mut Machine, pages: u64) -> anyhow::Result<()> {
    let mut builder = MemoryType::builder();
    builder.min(pages);
    let calls = [Call::NewMemory(builder.build()?)];
    let mut limiter = AtMost { most: 65_536 };
    let replies = run_lending(machine, &calls, &mut limiter)?;
    println!(rt; "{replies:?}")?;
    Ok(())
}
