//! A limiter whose kind is chosen at run time: without limits, a quota, or a list of answers.
ghost use Rattle.wasmi_meter.specs.AnyLimiter.{any_limiter_rules};

use crate::answer_list::AnswerList;
use crate::error::LimiterError;
use crate::limiter::{Kind, LimiterByKind};
use crate::quota::Quota;

/// A limiter whose kind is chosen while the program runs. It keeps its kind, and answers as a
/// limiter of that kind.
#[derive(Debug, Drop)]
pub enum AnyLimiter {
    /// Permits everything, and accepts each notice.
    Unlimited,
    /// A quota.
    Quota(Quota),
    /// A list of answers.
    Answers(AnswerList),
}

impl LimiterByKind for AnyLimiter {
    ghost kind_rules = { any_limiter_rules };

    fn growing(&mut self, kind: Kind, from: usize, to: usize) -> Result<bool, LimiterError> {
        match self {
            AnyLimiter::Unlimited => Ok(true),
            AnyLimiter::Quota(quota) => quota.growing(kind, from, to),
            AnyLimiter::Answers(list) => list.growing(kind, from, to),
        }
    }

    fn grow_failed(&mut self, kind: Kind) -> Result<(), LimiterError> {
        match self {
            AnyLimiter::Unlimited => Ok(()),
            AnyLimiter::Quota(quota) => quota.grow_failed(kind),
            AnyLimiter::Answers(list) => list.grow_failed(kind),
        }
    }
}
