//! What holds of all pools. These functions do nothing: each states a law as its contract.
ghost use Rattle.wasmi_machine.specs.Determinism.{IsDeterministic, AcceptsNotices};
ghost use Rattle.wasmi_budget.specs.Laws.{CapsHold, OthersDontShow, RemovalsGiveBack, RemovedStayRemoved, RepliesPermit, RunsAsAlone};
ghost use Rattle.wasmi_budget.specs.Pool.{tenant_rules};

/// From a pool whose machines are within its caps, as a new one's are, all calls lead to one whose
/// machines are within the same caps.
#[tactic(auto, using(crate::proofs::LawsLemmas::caps_hold))]
pub fn caps_hold()
    ensures { CapsHold }
{}

/// What the other tenants hold doesn't matter to a run that is never denied: beside tenants that
/// hold nothing there is a run with the same turns and the same machine.
#[tactic(auto, using(crate::proofs::IsolationLemmas::others_do_not_show))]
pub fn others_do_not_show()
    ensures { OthersDontShow }
{}

/// A tenant that is never denied gets, run after run until it is removed, what it gets in a pool of
/// its own with the same caps, whatever the others do in between.
#[tactic(auto, using(crate::proofs::IsolationLemmas::permitted_runs_as_alone))]
pub fn permitted_runs_as_alone()
    ensures { RunsAsAlone }
{}

/// If no reply of a run of a tenant reports a denial, each question was permitted: so what
/// `Pool::run` promises leads to `permitted_runs_as_alone`.
#[tactic(auto, using(crate::proofs::IsolationLemmas::replies_permit))]
pub fn replies_permit()
    ensures { RepliesPermit }
{}

/// A tenant's limiter is deterministic, and accepts each notice.
#[tactic(auto, using(crate::proofs::TenantLemmas::tenant_unique, crate::proofs::TenantLemmas::tenant_accepts))]
pub fn tenants_leave_no_choice()
    ensures choice { IsDeterministic tenant_rules }
    ensures notices { AcceptsNotices tenant_rules }
{}

/// Once a tenant is removed, what its machine has counts no more against the caps.
#[tactic(auto, using(crate::proofs::PoolLemmas::removals_give_back))]
pub fn removals_give_back()
    ensures { RemovalsGiveBack }
{}

/// The index of a removed tenant is never another one's: no later call finds a tenant there.
#[tactic(auto, using(crate::proofs::LawsLemmas::removed_stay_removed))]
pub fn removed_stay_removed()
    ensures { RemovedStayRemoved }
{}
