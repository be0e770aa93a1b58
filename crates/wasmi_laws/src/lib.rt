//! Laws over the turns and runs of a machine, besides those of `wasmi_machine::laws`, over its
//! meter and its indices, and over the tenants of a pool, in the order of the README: each function
//! does nothing, and states a law as its contract.
#![tactic(auto)]

ghost use Rattle.wasmi_meter.specs.Limiter.{optional_rules};
ghost use Rattle.wasmi_laws.specs.Places.{IndependentTurnsSwap, OthersStay, OthersStayInRuns, IndicesLast, LiveUntilDropped, MemoriesGrowAlike, MemoriesReadAlike, MemoriesWriteAlike, StoresAreReadBack, StoresKeepOtherBytes, TablesGrowAlike};
ghost use Rattle.wasmi_laws.specs.Reserved.{ReservedCallsSucceed, ReservedRunsSucceed, SlotsSuffice};
ghost use Rattle.wasmi_laws.specs.ReservedPools.{ReservedTenantsSucceed, SlotsSufficeForTenants};
ghost use Rattle.wasmi_laws.specs.Runs.{CostsAreKept, SwitchIsKept, FuelNeverRises, MoreFuelChangesNothing, RunsAreCut, RunsOfCallsAreCut, SizesNeverShrink, TotalsNeverShrink, PlainRefusalsChangeNothing, OtherRefusalsChangeNothing, PlainlyRefusedRunsChangeNothing, CapsHoldInRuns};

use wasmi_machine::laws;
use wasmi_meter::{Quota, ResourceLimiter};

/// A run can be cut at each place: what comes before it, of turns or of calls with the first
/// replies, is a run, and the rest is a run from where that ends. `wasmi_machine::laws::runs_join` is
/// the converse.
#[tactic(auto, using(crate::proofs::RunsLemmas::cuts))]
pub fn runs_are_cut<L: ResourceLimiter>()
    ensures turns { RunsAreCut (optional_rules L.rules) }
    ensures calls { RunsOfCallsAreCut (optional_rules L.rules) }
{}

/// No size shrinks in a run: a memory in bytes and a table in elements are afterwards at least what
/// they were at their index, as are the totals. One that was dropped counts with its last size.
#[tactic(auto, using(crate::proofs::RunsLemmas::no_shrinking))]
pub fn sizes_never_shrink<L: ResourceLimiter>()
    ensures sizes { SizesNeverShrink (optional_rules L.rules) }
    ensures totals { TotalsNeverShrink (optional_rules L.rules) }
{}

/// A plain refusal changes neither the machine, nor its meter, nor the limiter: a trap, an index
/// that names nothing, an access past the end, another type, metering that is off, or no place for
/// a new slot (`IsPlainRefusal`). Nor does a run of such turns, nor any refusal of a call that
/// makes nothing and lets nothing grow, as one that lacks the fuel to write over a part of a table.
#[tactic(auto, using(crate::proofs::RefusalLemmas::refusals))]
pub fn plain_refusals_change_nothing<L: ResourceLimiter>()
    ensures turn { PlainRefusalsChangeNothing (optional_rules L.rules) }
    ensures others { OtherRefusalsChangeNothing (optional_rules L.rules) }
    ensures run { PlainlyRefusedRunsChangeNothing (optional_rules L.rules) }
{}

/// Under a quota that holds what a machine has, and no more than its caps, the machine is within
/// these caps after each turn of a run, and not only at its end.
#[tactic(auto, using(crate::proofs::RunsLemmas::caps_hold_in_runs))]
pub fn caps_hold_in_runs()
    ensures { CapsHoldInRuns }
{
    laws::totals_are_held::<Quota>();
    laws::quotas_stay_within();
}

/// A run keeps the costs of its meter, and a meter that is on stays on, as one that is off stays
/// off. Calls that don't set the fuel leave no more of it than there was.
#[tactic(auto, using(crate::proofs::RunsLemmas::meter_kept))]
pub fn meters_are_kept<L: ResourceLimiter>()
    ensures costs { CostsAreKept (optional_rules L.rules) }
    ensures switch { SwitchIsKept (optional_rules L.rules) }
    ensures fuel { FuelNeverRises (optional_rules L.rules) }
{}

/// A run that never ran short of fuel is the same run with more fuel: the same replies, charges and
/// bytes, and the same machine, whose meter has that much more left. No call of it may set the fuel
/// or ask for it, no reply may say out of fuel, and the limiter accepts each notice.
pub fn more_fuel_changes_nothing<L: ResourceLimiter>()
    ensures { MoreFuelChangesNothing L.rules }
{}

/// A call changes what is at one index at most: that of the memory, table, element segment, global
/// or register that it names for that (`changed_location`); one that makes something or only reads
/// changes none. So a run changes nothing at an index that none of its calls names for that.
#[tactic(auto, using(crate::proofs::LocationLemmas::all_others_stay))]
pub fn others_stay<L: ResourceLimiter>()
    ensures turn { OthersStay (optional_rules L.rules) }
    ensures run { OthersStayInRuns (optional_rules L.rules) }
{}

/// What was made stays at the index of its making. A memory or a table keeps its type until it is
/// dropped, and then stays dropped, with its last size; an element segment keeps its type, and its
/// items until they are dropped; a global keeps its type, and a constant one its value.
///
/// A memory or a table is live until a call drops it.
pub fn indices_last<L: ResourceLimiter>()
    ensures later { IndicesLast (optional_rules L.rules) }
    ensures live { LiveUntilDropped (optional_rules L.rules) }
{}

/// A load without a sign returns the number that a store of as many bytes has written to the same
/// address of the same memory, cut to these bytes, whatever calls come between the two that may not
/// change this memory. An accepted store keeps all other bytes of the memory, and its size.
pub fn stores_are_read_back<L: ResourceLimiter>()
    ensures read { StoresAreReadBack (optional_rules L.rules) }
    ensures others { StoresKeepOtherBytes (optional_rules L.rules) }
{}

/// Two calls one after the other may be made in either order, if each acts on what is at indices
/// alone (`IsLocal`) and neither may change what the other may change or reads (`IsIndependent`):
/// both orders have the same replies, call by call, and lead to the same machine.
#[tactic(auto, using(crate::proofs::IndependenceLemmas::independent_turns_swap))]
pub fn independent_calls_commute<L: ResourceLimiter>()
    ensures { IndependentTurnsSwap (optional_rules L.rules) }
{}

/// A memory or a table that a host keeps by itself, as in a header and a region, does what the
/// machine's does that has the same one at an index: it grows with the same reply and leaves the
/// same, and the bytes of a memory are read and written alike.
#[tactic(auto, using(crate::proofs::PlacesLemmas::done_alike))]
pub fn machines_do_alike<L: ResourceLimiter>()
    ensures memories_grow { MemoriesGrowAlike (optional_rules L.rules) }
    ensures tables_grow { TablesGrowAlike (optional_rules L.rules) }
    ensures memories_read { MemoriesReadAlike (optional_rules L.rules) }
    ensures memories_write { MemoriesWriteAlike (optional_rules L.rules) }
{}

/// The reply to a call that needs no memory but what was reserved doesn't say out of memory
/// (`NeedsNoMemory`): it makes nothing, or a memory in the spare region, a global or a segment of
/// nothing in a slot that is reserved; a memory that it grows lies in a lent region, and a table
/// that it grows has the elements reserved; and it reads no byte.
///
/// Nor does any reply to a list of such calls, if each memory that they grow lies in a lent region
/// at first, each table that they grow is reserved up to its maximum, and as many slots of each kind
/// are reserved and free as the list takes (`IsReservedFor`): what is asked is known before the
/// first call. With as many more slots reserved as the list takes, enough slots are (`FitsSlots`).
pub fn reserved_suffices<L: ResourceLimiter>()
    ensures turn { ReservedCallsSucceed (optional_rules L.rules) }
    ensures run { ReservedRunsSucceed (optional_rules L.rules) }
    ensures slots { SlotsSuffice }
{}

/// No reply to a tenant's calls says out of memory, in however many runs they are made, if its
/// machine has reserved what all of them need at first, as `reserved_suffices` says, whatever the
/// other tenants do in between, and whatever else is reserved, made or removed. So it is after
/// `Pool::reserve` of as many more slots as the calls take (`FitsSlots`).
pub fn reserved_tenants_suffice()
    ensures runs { ReservedTenantsSucceed }
    ensures slots { SlotsSufficeForTenants }
{}
