//! What holds of all turns and runs, and is continued in `wasmi_laws`: runs in a row, what refusals
//! keep, permissions, charges, validity, quotas and totals, lent regions, and runs that are equal.
//! These functions do nothing: each states a law as its contract, for any limiter, of which a run
//! may also have none. Own: upstream states no laws.
ghost use Rattle.wasmi_meter.specs.Limiter.{optional_rules, unlimited_rules};
ghost use Rattle.wasmi_meter.specs.declared.limiter.NoLimits.{NoLimits};
ghost use Rattle.wasmi_meter.specs.Capped.{quota_rules};
ghost use Rattle.wasmi_machine.specs.Determinism.{IsDeterministic, AcceptsNotices, RepliesKeepKind, RunsKeepKind, RunsOfCallsKeepKind};
ghost use Rattle.wasmi_machine.specs.State.{IsValid};
ghost use Rattle.wasmi_machine.specs.Laws.{RunsJoin, RunsOfCallsJoin, RefusalsKeepContents, RefusalsInRunsKeepContents, RefusedRunsKeepContents, GrowsAsPermitted, RunsGrowAsPermitted, RepliesPermit, RunsKeepValidity, ChargesAreSpent, QuotasStayWithin, FuelBalances, FuelBoundsWriting, HoldsTotalsAlways, LentRunsAreOwned, LentCreationsAreOwned, LentGrowthsSucceed, RunsAreOne, RepliesTell, RepliesAreOne};

use crate::machine::Machine;
use wasmi_meter::{Reserving, ResourceLimiter};

/// Two runs in a row are one: of both lists of turns, and of both lists of calls with their
/// replies. So what holds of each run holds of all that a machine is ever asked.
pub fn runs_join<L: ResourceLimiter>()
    ensures turns { RunsJoin (optional_rules L.rules) }
    ensures calls { RunsOfCallsJoin (optional_rules L.rules) }
{}

/// A turn that is refused keeps the contents, as does a run of such turns. It keeps the spare
/// region, unless a memory was to be made in it and there was a slot for it. It keeps the meter,
/// unless it is a growth that lacks memory once it is permitted and paid (`FailsAfterCharge`): then
/// the limiter was notified, the reply says so unless the limiter answers by another error, and the
/// meter has exactly the price less.
pub fn refusals_keep_contents<L: ResourceLimiter>()
    ensures turn { RefusalsKeepContents (optional_rules L.rules) }
    ensures run { RefusalsInRunsKeepContents (optional_rules L.rules) }
    ensures all_refused { RefusedRunsKeepContents (optional_rules L.rules) }
{}

/// In each turn the limiter is asked the question of the call (`question_of`) if it has one, unless
/// there is no room for the slot of what it makes, and nothing else. A permission is followed by
/// exactly the growth that was asked for, or by exactly one notice, which the reply reports, and a
/// denial by neither.
///
/// A growth is charged its price if it succeeds or fails for lack of memory, and a write over a
/// range of a memory or a table its bytes or elements. Nothing else is charged. The charge was left
/// in the meter, and is taken from it. Without a limiter each question is permitted.
pub fn growths_are_permitted<L: ResourceLimiter>()
    ensures turn { GrowsAsPermitted (optional_rules L.rules) }
    ensures run { RunsGrowAsPermitted (optional_rules L.rules) }
{}

/// While metering is on, the fuel that is left and the charges since it was set last, or since the
/// start of the run, are what was set then, or was left at the start.
pub fn fuel_balances<L: ResourceLimiter>()
    ensures { FuelBalances (optional_rules L.rules) }
{}

/// While metering is on, calls that don't set the fuel were charged what was left before and isn't
/// left after. At a rate above 0 that bounds the bytes they wrote by growing and copying: `IsSpent`
/// gives each turn that writes less than one fuel's worth of bytes beyond what its charge pays for.
pub fn charges_are_spent<L: ResourceLimiter>()
    ensures { ChargesAreSpent (optional_rules L.rules) }
{}

/// Every machine's state is valid: its memories and tables have valid types and as many whole pages
/// and elements as these allow, its element segments are no longer than 2^32 - 1 items, and it has
/// 16 registers.
pub fn states_are_valid(machine: &Machine)
    ensures { IsValid machine.now }
{
    machine.tell_valid();
}

/// A run of calls whose types are valid, as those of a `Call` in code are, keeps a state valid.
#[tactic(auto, using(crate::proofs::ValidityLemmas::run_keeps_validity))]
pub fn runs_keep_validity<L: ResourceLimiter>()
    ensures { RunsKeepValidity (optional_rules L.rules) }
{}

/// If no reply of a run reports a denial, the limiter permitted each question. A growth out of
/// bounds counts as a denial here, since both have the same error.
#[tactic(auto, using(crate::proofs::RevealingLemmas::permitted_run))]
pub fn replies_permit<L: ResourceLimiter>()
    ensures { RepliesPermit (optional_rules L.rules) }
{}

/// A quota that holds at most its caps before a run does so after it, and has the same caps.
#[tactic(auto, using(crate::proofs::HoldingLemmas::quota_stays_within))]
pub fn quotas_stay_within()
    ensures { QuotasStayWithin }
{}

/// A run under a limiter whose kind was chosen while the program ran is one by the rules of its
/// kind, and the kind stays. So are a run of calls with its replies, and a reply to one call.
#[tactic(auto, using(crate::proofs::LimiterKindsLemmas::runs_keep_kind, crate::proofs::LimiterKindsLemmas::runs_of_calls_keep_kind, crate::proofs::LimiterKindsLemmas::replies_keep_kind))]
pub fn kinds_stay()
    ensures turns { RunsKeepKind }
    ensures calls { RunsOfCallsKeepKind }
    ensures reply { RepliesKeepKind }
{}

/// A reserving limiter that holds a machine's totals before a run holds them after it.
pub fn totals_are_held<L: Reserving>()
    ensures { HoldsTotalsAlways L.rules L.Reserving.holdings }
{}

/// While metering is on at a rate above 0, the bytes that a run writes by growing and copying are
/// bounded by the fuel that is charged for them, and so by the fuel that was left at its start and
/// all amounts that were set; `IsBounded` says what each turn has beyond that, as `IsSpent` does.
pub fn fuel_bounds_writing<L: ResourceLimiter>()
    ensures { FuelBoundsWriting (optional_rules L.rules) }
{}

/// A run that makes no memory in a lent region, and grows no memory past the region that it lies
/// in unless that is refused before the limiter is asked (`FitsRegions`), is a run of the same
/// machine with memories of their own: the same replies, charges, written bytes and limiter.
#[tactic(auto, using(crate::proofs::LentMemoryLemmas::run_is_owned))]
pub fn lent_runs_are_owned<L: ResourceLimiter>()
    ensures { LentRunsAreOwned (optional_rules L.rules) }
{}

/// A memory that is made in a spare region of at least its minimum is made as one with memory of
/// its own, except for its room and the spare region.
pub fn lent_creations_are_owned<L: ResourceLimiter>()
    ensures { LentCreationsAreOwned (optional_rules L.rules) }
{}

/// A growth of a lent memory for which its type and its region have room, and which can be paid
/// for, takes no memory: the limiter alone can refuse it.
pub fn lent_growths_succeed<L: ResourceLimiter>()
    ensures { LentGrowthsSucceed (optional_rules L.rules) }
{}

/// If the limiter is deterministic, two runs of one list of calls from one machine and one limiter
/// are equal, as long as neither is out of memory: no reply and no notice says so.
pub fn runs_are_one<L: ResourceLimiter>()
    ensures { RunsAreOne L.rules }
{}

/// If the limiter accepts each notice, a run in which no reply says out of memory is one in which
/// no notice does either, as `runs_are_one` requires.
pub fn replies_tell<L: ResourceLimiter>()
    ensures { RepliesTell L.rules }
{}

/// If the limiter is deterministic and accepts each notice, two runs of one list of calls from one
/// machine and one limiter have the same replies and lead to the same machine and limiter, as long
/// as no reply says out of memory. Its premises are what `run` promises and what a caller sees.
pub fn replies_are_one<L: ResourceLimiter>()
    ensures { RepliesAreOne L.rules }
{}

/// The limiter that permits everything and a quota accept each notice.
#[tactic(auto, using(crate::proofs::ToldLemmas::unlimited_accepts, crate::proofs::ToldLemmas::quota_accepts))]
pub fn limiters_accept_notices()
    ensures no_limits { AcceptsNotices (unlimited_rules {S = NoLimits}) }
    ensures quota { AcceptsNotices quota_rules }
{}

/// The limiter that permits everything and a quota are deterministic.
#[tactic(auto, using(crate::proofs::DeterminismLemmas::unlimited_unique, crate::proofs::DeterminismLemmas::quota_unique))]
pub fn limiters_leave_no_choice()
    ensures no_limits { IsDeterministic (unlimited_rules {S = NoLimits}) }
    ensures quota { IsDeterministic quota_rules }
{}
