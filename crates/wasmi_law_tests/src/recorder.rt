//! A limiter that keeps a trace of what it is asked and told, and one call under it.
ghost use Rattle.std.specs.Prelude.{◌≡◌, IfOk, length};
ghost use Rattle.wasmi_machine.specs.State.{sizes};
ghost use Rattle.wasmi_law_tests.specs.Limiters.{recorder_rules, LeavesTrace};

use std::alloc::{AllocError, Global};
use wasmi_machine::{Call, Machine, Reply, laws, run_lending};
use wasmi_meter::{Kind, LimiterByKind, LimiterError};

/// What a limiter was asked and has permitted, or was told.
#[derive(Clone, Copy)]
pub enum Event {
    /// A growth was permitted.
    Permitted {
        kind: Kind,
        current: usize,
        desired: usize,
    },
    /// A permitted growth failed.
    Failed(Kind),
}

/// A limiter that permits each growth of which it can keep the trace.
#[derive(Drop)]
pub struct Recorder {
    /// What it permitted and was told of, in order.
    pub events: Vec<Event>,
}

impl Recorder {
    /// A recorder that was asked nothing yet.
    pub fn new(alloc: Global) -> Self
        ensures { length result.events.items ≡ 0 }
    {
        Recorder {
            events: Vec::new(alloc),
        }
    }
}

impl LimiterByKind for Recorder {
    ghost kind_rules = { recorder_rules };

    fn growing(&mut self, kind: Kind, from: usize, to: usize) -> Result<bool, LimiterError> {
        if self.events.try_reserve(2).is_err() {
            return Ok(false);
        }
        self.events.push_reserved(Event::Permitted {
            kind,
            current: from,
            desired: to,
        });
        Ok(true)
    }

    fn grow_failed(&mut self, kind: Kind) -> Result<(), LimiterError> {
        if self.events.len() == self.events.capacity() {
            return Err(LimiterError::ResourceLimiterDeniedAllocation);
        }
        self.events.push_reserved(Event::Failed(kind));
        Ok(())
    }
}

/// Makes one call. The trace has become longer by nothing; by a permission, and the growth that it
/// permitted is done; or by a permission and exactly one failure, and nothing has grown.
pub fn call_recorded(
    machine: &mut Machine,
    calls: &[Call],
    recorder: &mut Recorder,
) -> Result<Vec<Reply>, AllocError>
    requires one { length calls.now ≡ 1 }
    ensures trace { IfOk result
        (λ _. LeavesTrace recorder.old.events.items (sizes machine.old) recorder.new.events.items
        (sizes machine.new)) }
{
    laws::growths_are_permitted::<Recorder>();
    run_lending(machine, calls, recorder)
}
