//! A limiter of the host's own: the structs of a question to it and of its answers.
ghost use Rattle.std.specs.Prelude.{◌≡◌};
ghost use Rattle.wasmi_c.specs.Host.{fresh, host_rules, plain_sizes};

use wasmi_meter::{Kind, LimiterByKind, LimiterError};

/// What a limiter of the host's own answered, and whether a growth asks and tells it.
#[repr(C)]
#[derive(Clone, Copy)]
pub struct HostAnswers {
    /// The present size that it was asked about.
    pub current: usize,
    /// To the question: 1 for yes, 0 for no, any other number for an error.
    pub answer: u8,
    /// To the notice: 0 where it accepts it, any other number for an error.
    pub notice_answer: u8,
    /// 1 where it is asked, else 0.
    pub asked: u8,
    /// 1 where it is told of a growth that was permitted and failed, else 0.
    pub told: u8,
    /// The size after the growth that it was asked about. It isn't read if nothing is asked.
    pub desired: usize,
}

impl HostAnswers {
    /// Forgets that it was asked and told.
    pub fn reset(&mut self)
        ensures { self.new ≡ fresh self.old }
    {
        self.asked = 0;
        self.told = 0;
    }
}

impl LimiterByKind for HostAnswers {
    ghost kind_rules = { host_rules };

    fn growing(&mut self, _: Kind, _: usize, _: usize) -> Result<bool, LimiterError> {
        self.asked = 1;
        match self.answer {
            1 => Ok(true),
            0 => Ok(false),
            _ => Err(LimiterError::ResourceLimiterDeniedAllocation),
        }
    }

    fn grow_failed(&mut self, _kind: Kind) -> Result<(), LimiterError> {
        self.told = 1;
        match self.notice_answer {
            0 => Ok(()),
            _ => Err(LimiterError::ResourceLimiterDeniedAllocation),
        }
    }
}

/// What a growth asks a limiter, in bytes or elements.
#[repr(C)]
#[derive(Clone, Copy)]
pub struct Question {
    /// The present size.
    pub current: usize,
    /// The size after the growth.
    pub desired: usize,
    /// The most that the type allows, where there is a maximum.
    pub maximum: usize,
    /// Whether there is a maximum: 1 or 0.
    pub has_maximum: u8,
}

impl Question {
    /// The question whether something may grow from one size to another.
    pub fn new(current: usize, desired: usize, most: Option<usize>) -> Question
        ensures { result ≡ plain_sizes current desired most }
    {
        Question {
            current,
            desired,
            maximum: most.unwrap_or(0),
            has_maximum: u8::from(most.is_some()),
        }
    }
}
