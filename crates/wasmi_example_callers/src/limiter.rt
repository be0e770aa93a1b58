//! A limiter of one's own, and what grows under it.
ghost use Rattle.std.specs.Prelude.{◌≡◌, ◌≤◌, Some, Ok, length};
ghost use Rattle.wasmi_meter.specs.Limiter.{optional_rules};
ghost use Rattle.wasmi_store.specs.Growth.{metered_value};
ghost use Rattle.wasmi_store.specs.Memory.{GrowsMemory};
ghost use Rattle.wasmi_example_callers.specs.Host.{at_most_rules};

use wasmi_core::{Fuel, Kind, LimiterByKind, LimiterError, Memory, MemoryError};

/// Permits each memory up to a number of bytes, and no table.
#[derive(Clone, Copy, Debug)]
pub struct AtMost {
    /// The most bytes that a memory may have.
    pub bytes: usize,
}

impl LimiterByKind for AtMost {
    ghost kind_rules = { at_most_rules };

    fn growing(&mut self, kind: Kind, _from: usize, to: usize) -> Result<bool, LimiterError> {
        Ok(kind == Kind::Bytes && to <= self.bytes)
    }

    fn grow_failed(&mut self, _kind: Kind) -> Result<(), LimiterError> {
        Ok(())
    }
}

/// Grows a memory by `pages` pages of its type, and returns its old size in pages. If the memory
/// had no more bytes than the limiter permits, it has no more afterwards. The limiter is unchanged.
///
/// The errors are those of `Memory::grow`, in its order.
#[tactic(auto, using(crate::proofs::HostLemmas::growths))]
pub fn grow(
    memory: &mut Memory,
    pages: u64,
    fuel: &mut Fuel,
    limiter: &mut AtMost,
) -> Result<u64, MemoryError>
    ensures grown { GrowsMemory (optional_rules at_most_rules) pages
        (metered_value memory.old (Some fuel.old) (Some limiter.old)) result
        (metered_value memory.new (Some fuel.new) (Some limiter.new)) }
    ensures within { length memory.old.bytes ≤ limiter.old.bytes
        → length memory.new.bytes ≤ limiter.old.bytes }
    ensures limiter { limiter.new ≡ limiter.old }
{
    memory.grow_lending(pages, fuel, limiter)
}
