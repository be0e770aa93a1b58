//! What C holds: a machine with its limiter, or none. A call works on the machine where it is, and
//! a handle, also of a pool, may go to another thread. `include/wasmi_machine.h` says which
//! statuses calls return, in which order.
ghost use Rattle.std.specs.Prelude.{◌≡◌, None, is_some};
ghost use Rattle.wasmi_c.specs.Machine.Calls.{OnHeld, RepliesToStruct};
ghost use Rattle.wasmi_c.specs.Machine.NewMachines.{IsNewMachine, MakesMachine, MakesWithAnswers};
ghost use Rattle.wasmi_c.specs.Machine.Replies.{only};
ghost use Rattle.wasmi_c.specs.declared.status.TheConstants.{NO_MACHINE};

use crate::held_box::HeldBox;
use crate::machine::call_struct::CallStruct;
use crate::machine::limited_machine::LimitedMachine;
use crate::machine::limits::{Limits, answers_of};
use crate::machine::machine_box::MachineBox;
use crate::machine::reply_struct::ReplyStruct;
use crate::pool::PoolHandle;
use crate::status::{DONE, HAS_MACHINE, NO_ANSWER, NO_MACHINE, NO_ROOM};
use std::alloc::Global;
use std::mem;

/// What a call on the machine of a handle returns; or what is returned where there is none.
#[macro_export]
macro_rules! on_machine {
    ($handle:expr, $machine:ident => $call:expr) => {
        $crate::on_machine!($handle, ReplyStruct::only(NO_MACHINE), $machine => $call)
    };
    ($handle:expr, $none:expr, $machine:ident => $call:expr) => {{
        if $handle.is_made() {
            let $machine = $handle.machine.machine_mut();
            let reply = $call;
            $machine.show_within();
            reply
        } else {
            $none
        }
    }};
}

/// A machine with its limiter, or none. A handle of zeros has none.
#[repr(C)]
pub struct Handle {
    /// The machine with its limiter, or none.
    pub machine: MachineBox,
    is_made: bool,
    ghost tells: { is_some machine.held ≡ is_made },
}

impl Handle {
    /// Whether the handle has a machine.
    pub fn is_made(&self) -> bool
        ensures { result ≡ is_some self.now.machine.held }
    {
        self.is_made
    }

    /// Puts a machine in where there is none.
    fn hold(&mut self, alloc: Global, machine: LimitedMachine) -> u8
        ensures { MakesMachine (λ held. held ≡ machine.entry) self.old.machine.held result
            self.new.machine.held }
    {
        if self.is_made() {
            return HAS_MACHINE;
        }
        let Ok(machine) = Box::new(alloc, machine) else {
            return NO_ROOM;
        };
        let made = Handle {
            machine: MachineBox::from_held(HeldBox::from_box(machine)),
            is_made: true,
        };
        let Handle {
            machine,
            is_made: _,
        } = mem::replace(self, made);
        machine.into_held().end();
        DONE
    }

    /// Makes a machine in a handle that has none.
    #[tactic(auto, using(crate::proofs::MachineLemmas::made_so))]
    pub fn new_machine(&mut self, alloc: Global, limits: &Limits) -> u8
        ensures { MakesMachine (IsNewMachine limits.now) self.old.machine.held result
            self.new.machine.held }
    {
        self.hold(alloc, LimitedMachine::new(alloc, limits))
    }

    /// Makes a machine with a list of answers in a handle that has none. Each byte is the number of
    /// an answer: 0 permits, 1 denies, 2 is an error, and 3 permits and returns an error to a
    /// notice. The caps of the limits aren't read.
    #[tactic(auto, using(crate::proofs::MachineLemmas::made_with_answers))]
    pub fn new_with_answers(&mut self, alloc: Global, limits: &Limits, answers: &[u8]) -> u8
        ensures { MakesWithAnswers limits.now answers.now self.old.machine.held result
            self.new.machine.held }
    {
        if self.is_made() {
            return HAS_MACHINE;
        }
        if !answers.iter().all(|number| *number < 4) {
            return NO_ANSWER;
        }
        let Ok(answers) = answers_of(alloc, answers) else {
            return NO_ROOM;
        };
        self.hold(alloc, LimitedMachine::with_answers(alloc, limits, answers))
    }

    /// Ends the machine of a handle, if there is one.
    pub fn drop_machine(&mut self, alloc: Global)
        ensures { self.new.machine.held ≡ None }
    {
        let none = Handle {
            machine: MachineBox::from_held(HeldBox::empty(alloc)),
            is_made: false,
        };
        let Handle { machine, is_made } = mem::replace(self, none);
        let held = machine.into_held();
        if is_made {
            let _machine = held.into_box();
        } else {
            held.end();
        }
    }

    /// Replies to a call, if the numbers stand for one.
    #[inline(always)]
    pub fn call(&mut self, call: &CallStruct) -> ReplyStruct
        ensures { OnHeld (RepliesToStruct call.now) (only NO_MACHINE)
            self.old.machine.held result self.new.machine.held }
    {
        on_machine!(self, machine => machine.reply_to_struct(call))
    }
}

/// Does nothing: that it compiles says that a handle may go to another thread.
pub fn handles_may_move() {
    may_move::<Handle>();
    may_move::<PoolHandle>();
}

/// Does nothing: it can be called at a type that may go to another thread, and at no other.
fn may_move<T: Send>() {}
