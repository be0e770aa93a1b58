//! What holds of all calls and lines by a handle, of all growths and creations by the host's
//! answers, of all that is under one quota, and of all numbers that were released. Each function
//! does nothing, and states a law.
ghost use Rattle.std.specs.Prelude.{◌≡◌, map};
ghost use Rattle.wasmi_meter.specs.Limiter.{optional_rules};
ghost use Rattle.wasmi_ops.specs.LaneOps.{extract_name, load_lane_name, replace_name, store_lane_name};
ghost use Rattle.wasmi_ops.specs.VectorOps.{ternary_name};
ghost use Rattle.wasmi_ops.specs.declared.vector.TheConstants.{EXTRACTIONS, LANE_LOADS, LANE_STORES, REPLACEMENTS, TERNARIES};
ghost use Rattle.wasmi_c.specs.declared.instruction.numbers.TheConstants.{BINARY_INSTRUCTIONS, LOAD_INSTRUCTIONS, STORE_INSTRUCTIONS, UNARY_INSTRUCTIONS};
ghost use Rattle.wasmi_c.specs.Instruction.{name_of_binary, name_of_load, name_of_store, name_of_unary, names_in};
ghost use Rattle.wasmi_c.specs.ReleasedNumbers.{binary_names, extract_lane_names, load_lane_names, load_names, replace_lane_names, statuses, store_lane_names, store_names, ternary_names, unary_names};
ghost use Rattle.wasmi_c.specs.Machine.Calls.{CallsAreRuns, ListsAreRuns, MachineRunsJoin, QuotasAreKept};
ghost use Rattle.wasmi_c.specs.SharedQuota.{OneQuotaHoldsAll, OneQuotaHoldsEach};
ghost use Rattle.wasmi_c.specs.Placement.{SettlementsAreGrowths, TableSettlementsAreGrowths, SettlementsAreCreations, TableSettlementsAreCreations};

use wasmi_machine::laws;
use wasmi_meter::{AnyLimiter, Quota, ResourceLimiter};

/// A quota that holds what its machine has before a run does so after it, and has the same caps. A
/// limiter of another kind keeps its kind.
#[tactic(auto, using(crate::proofs::MachineLemmas::quotas_kept))]
pub fn quotas_are_kept()
    ensures { QuotasAreKept }
{
    laws::kinds_stay();
    laws::totals_are_held::<Quota>();
    laws::quotas_stay_within();
}

/// A call on a machine that is held by a handle is a run of this call alone, and two runs in a row
/// are one. So calls and lines by a handle, one after the other, are one run of its machine, of
/// which the laws of `wasmi_machine` hold. Fuel that is taken between two calls ends a run. So is a
/// list of calls by numbers, if all of them stand for calls.
#[tactic(auto, using(crate::proofs::MachineLemmas::calls_run, crate::proofs::MachineLemmas::lists_run))]
pub fn calls_are_runs()
    ensures call { CallsAreRuns }
    ensures lists { ListsAreRuns }
    ensures join { MachineRunsJoin }
{
    laws::runs_join::<AnyLimiter>();
}

/// A growth by the host's answers, as a question and a settlement make it, is a growth by all rules
/// that allow these answers: the limiter is asked that question and gives that answer, and it is
/// told of the failure, if any, and gives that answer to the notice.
pub fn settlements_are_growths<L: ResourceLimiter>()
    ensures memories { SettlementsAreGrowths (optional_rules L.rules) }
    ensures tables { TableSettlementsAreGrowths (optional_rules L.rules) }
{}

/// A creation by the host's answers is one by all rules that allow these answers, as a growth is.
pub fn settlements_are_creations<L: ResourceLimiter>()
    ensures memories { SettlementsAreCreations (optional_rules L.rules) }
    ensures tables { TableSettlementsAreCreations (optional_rules L.rules) }
{}

/// One quota that is on serves any number of memories and tables: after each creation and growth
/// under it, and each end, whether done or refused, it holds the sum of the memories' bytes and the
/// sum of the tables' elements, within its caps. It does so from a quota that holds nothing on.
#[tactic(auto, using(crate::proofs::SharedQuotaLemmas::one_quota_holds_all))]
pub fn one_quota_holds_all()
    ensures { OneQuotaHoldsAll }
{}

/// A quota that holds the sums of the sizes holds what each memory and each table has, so no end of
/// one is refused because less is held.
pub fn one_quota_holds_each()
    ensures { OneQuotaHoldsEach }
{}

/// Each instruction has the number that was released with its name, and each status its own.
pub fn numbers_are_released()
    ensures unary { map name_of_unary UNARY_INSTRUCTIONS ≡ unary_names }
    ensures binary { map name_of_binary BINARY_INSTRUCTIONS ≡ binary_names }
    ensures ternary { names_in ternary_name TERNARIES ≡ ternary_names }
    ensures extract_lane { names_in extract_name EXTRACTIONS ≡ extract_lane_names }
    ensures replace_lane { names_in replace_name REPLACEMENTS ≡ replace_lane_names }
    ensures load { map name_of_load LOAD_INSTRUCTIONS ≡ load_names }
    ensures store { map name_of_store STORE_INSTRUCTIONS ≡ store_names }
    ensures load_lane { names_in load_lane_name LANE_LOADS ≡ load_lane_names }
    ensures store_lane { names_in store_lane_name LANE_STORES ≡ store_lane_names }
    ensures statuses { map (λ row. row.0) statuses ≡ map (λ row. row.1) statuses }
{}
