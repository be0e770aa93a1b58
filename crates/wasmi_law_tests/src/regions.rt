//! Callers that keep memories and tables in regions of their own: a memory as a machine keeps one
//! at an index, and tables that nothing refuses, on regions that are long enough, without a
//! limiter.
ghost use Rattle.std.specs.Prelude.{◌≡◌, ◌≤◌, ℕ, Option, Some, length, None, IsOk};
ghost use Rattle.wasmi_meter.specs.Limiter.{optional_rules, lent_limiter};
ghost use Rattle.wasmi_store.specs.Memory.{IsSized};
ghost use Rattle.wasmi_region.specs.Memory.{memory_in};
ghost use Rattle.wasmi_machine.specs.declared.calls.Call.TheVariants.{GrowMemory};
ghost use Rattle.wasmi_machine.specs.declared.calls.Reply.TheVariants.{Number, Memory};
ghost use Rattle.wasmi_machine.specs.Effects.{reply_of};
ghost use Rattle.wasmi_machine.specs.State.{live_at, World, world};
ghost use Rattle.wasmi_machine.specs.Steps.{RepliesWith};
ghost use Rattle.wasmi_laws.specs.Places.{with_memory_at, with_meter};
ghost use Rattle.wasmi_meter.specs.Capped.{quota_rules};
ghost use Rattle.wasmi_store.specs.Growth.{metered_value};
ghost use Rattle.wasmi_store.specs.Table as tables;
ghost use Rattle.wasmi_store.specs.Table.{MakesTable, GrowsTableRaw};
ghost use Rattle.wasmi_region.specs.Laws.{CanGrowIn};
ghost use Rattle.wasmi_region.specs.Table.{made_in, table_in, typed_as};

use wasmi_meter::{Fuel, MemoryError, Quota, ResourceLimiter, ResourceLimiterRef, TableError};
use wasmi_region::laws::{
    region_tables_are_tables, table_creations_succeed, table_growths_succeed,
};
use wasmi_region::{memory, table};
use wasmi_store::{MemoryType, TableType};

/// Grows a memory in a region, as a machine does that has the same memory at an index, and the same
/// meter and limiter: with the same reply, and leaving the same.
pub fn grow_in_region<L: ResourceLimiter>(
    ty: MemoryType,
    size: &mut usize,
    region: &mut [u8],
    pages: u64,
    fuel: &mut Fuel,
    limiter: &mut ResourceLimiterRef<L>,
) -> Result<u64, MemoryError>
    requires sized { IsSized ty size.old }
    requires within { size.old ≤ length region.old }
    ensures alike { (w : World (Option L)) (k : ℕ) → w.state.meter ≡ fuel.old
        → w.limiter ≡ lent_limiter limiter.old
        → live_at w.state.memories k ≡ Some (memory_in ty region.old size.old)
        → RepliesWith (optional_rules L.rules) (GrowMemory k pages) w
        (reply_of Number Memory result)
        (world (with_meter (with_memory_at w.state k (memory_in ty region.new size.new)) fuel.new)
        (lent_limiter limiter.new)) }
{
    wasmi_laws::machines_do_alike::<L>();
    memory::grow(ty, size, region, pages, fuel, limiter)
}

/// Makes a table with one reference in each place at the front of a region that is no shorter than
/// the minimum, and returns its size. It isn't refused, and is made as a table of `wasmi_store`.
pub fn make_table(ty: TableType, region: &mut [u32], reference: u32) -> Result<usize, TableError>
    requires place { ty.minimum ≤ length region.old }
    ensures there { IsOk result }
    ensures made { MakesTable (optional_rules quota_rules) ty (typed_as ty reference) None
        (made_in ty region.new result) None }
{
    table_creations_succeed::<Quota>();
    region_tables_are_tables::<Quota>();
    let mut absent: ResourceLimiterRef<Quota> = ResourceLimiterRef::default();
    table::make(ty, region, reference, &mut absent)
}

/// Grows a table for which its type and its region have room, and whose fuel is left, and returns
/// the old size. It isn't refused, and grows as a table of `wasmi_store`.
pub fn grow_table(
    ty: TableType,
    size: &mut usize,
    region: &mut [u32],
    delta: u64,
    reference: u32,
    fuel: &mut Fuel,
) -> Result<u64, TableError>
    requires sized { tables.IsSized ty size.old }
    requires within { size.old ≤ length region.old }
    requires can { CanGrowIn (length region.old) delta (table_in ty region.old size.old)
        (Some fuel.old) }
    ensures there { IsOk result }
    ensures grown { GrowsTableRaw (optional_rules quota_rules) delta reference
        (metered_value (table_in ty region.old size.old) (Some fuel.old) None) result
        (metered_value (table_in ty region.new size.new) (Some fuel.new) None) }
{
    table_growths_succeed::<Quota>();
    region_tables_are_tables::<Quota>();
    let mut absent: ResourceLimiterRef<Quota> = ResourceLimiterRef::default();
    table::grow(ty, size, region, delta, reference, fuel, &mut absent)
}
