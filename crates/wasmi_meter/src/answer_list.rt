//! A limiter that answers from a list, and the answers in such a list.
ghost use Rattle.std.specs.Prelude.{◌≡◌};
ghost use Rattle.wasmi_meter.specs.AnswerList.{new_answers, answer_list_rules};

use crate::error::LimiterError;
use crate::limiter::{Kind, LimiterByKind};
use std::marker::Model;

/// What a limiter answers to one question, and to a notice after it.
#[derive(Clone, Copy, Debug, PartialEq, Eq)]
pub enum LimiterAnswer {
    /// It may grow.
    Permit,
    /// It may not.
    Deny,
    /// The answer is an error.
    Error,
    /// It may grow, and the answer to a notice of it is an error.
    Complain,
}

/// A limiter that answers each question by the next answer of a list, and permits once there is
/// none left. It answers a notice by the answer to the last question, and accepts one before any.
#[derive(Debug, Drop)]
pub struct AnswerList {
    /// The answers, one for each question.
    answers: Vec<LimiterAnswer>,
    /// How many of them were taken.
    taken: usize,
    /// The answer to the last question: `Permit` before the first.
    last: LimiterAnswer,
}

impl Model for AnswerList {
    ghost use Rattle.std.specs.Prelude.{drop};
    ghost use Rattle.wasmi_meter.specs.AnswerList.{AnswersAhead};

    ghost Value = { AnswersAhead };

    ghost view = { λ list.
        record { ahead = drop list.taken list.answers.items; last = list.last } };
}

impl AnswerList {
    /// A limiter that was asked nothing yet.
    pub fn new(answers: Vec<LimiterAnswer>) -> Self
        ensures { result ≡ new_answers answers.items }
    {
        AnswerList {
            answers,
            taken: 0,
            last: LimiterAnswer::Permit,
        }
    }
}

impl LimiterByKind for AnswerList {
    ghost kind_rules = { answer_list_rules };

    fn growing(&mut self, _: Kind, _: usize, _: usize) -> Result<bool, LimiterError> {
        self.last = match self.answers.get(self.taken) {
            Some(answer) => {
                self.taken += 1;
                *answer
            }
            None => LimiterAnswer::Permit,
        };
        match self.last {
            LimiterAnswer::Permit | LimiterAnswer::Complain => Ok(true),
            LimiterAnswer::Deny => Ok(false),
            LimiterAnswer::Error => Err(LimiterError::ResourceLimiterDeniedAllocation),
        }
    }

    fn grow_failed(&mut self, _: Kind) -> Result<(), LimiterError> {
        match self.last {
            LimiterAnswer::Complain => Err(LimiterError::ResourceLimiterDeniedAllocation),
            _ => Ok(()),
        }
    }
}
