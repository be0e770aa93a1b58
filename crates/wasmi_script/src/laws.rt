//! Laws of all scripts and of all that run them, each the contract of a function.
ghost use Rattle.wasmi_machine.specs.Determinism.{IsDeterministic};
ghost use Rattle.wasmi_meter.specs.AnswerList.{answer_list_rules};
ghost use Rattle.wasmi_script.specs.Decided.{QuietListsAcceptNotices, QuietListsDecideReplies, OutcomesAreOne};

use wasmi_budget::laws::tenants_leave_no_choice;
pub use wasmi_grammar::laws::{
    first_bad_lines_are_one, texts_write_one_script, written_texts_have_no_bad_line,
};

/// A limiter that answers from a list is deterministic. One whose list has no `Complain` accepts
/// each notice and stays such a limiter: if no memory is refused, two runs of one list of calls
/// from one machine under it have the same replies and end alike.
#[tactic(auto, using(crate::proofs::DecidedLemmas::answers_unique, crate::proofs::DecidedLemmas::quiet_lists))]
pub fn quiet_lists_decide_replies()
    ensures choice { IsDeterministic answer_list_rules }
    ensures notices { QuietListsAcceptNotices }
    ensures replies { QuietListsDecideReplies }
{}

/// If no memory is refused and the reader doesn't fail, the bytes of the reader decide the text and
/// the status of an outcome. A word `complain` is left out: the answer to a notice hides whether
/// memory was refused.
#[tactic(auto, using(crate::proofs::DecidedLemmas::outcomes_unique))]
pub fn outcomes_are_one()
    ensures { OutcomesAreOne }
{
    tenants_leave_no_choice();
}
