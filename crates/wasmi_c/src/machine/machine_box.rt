//! Where the machine of a handle lies on the heap: a box that C sees, made, taken apart and lent.
ghost use Rattle.std.specs.Coded.{coded_option};
ghost use Rattle.std.specs.Prelude.{◌≡◌, Option, IsSome};
ghost use Rattle.wasmi_c.specs.HeldBox.{box_or_none_owns, global_token, machine_row};
ghost use Rattle.wasmi_c.specs.Machine.Caps.{MachineValue};

use crate::held_box::HeldBox;
use crate::machine::limited_machine::LimitedMachine;
use std::alloc::Global;
use std::marker::Model;

/// A [`HeldBox`] of a machine: a type that C sees has no parameters.
#[repr(C)]
pub struct MachineBox {
    at: *mut u8,
    alloc: Global,
    /// The machine, if there is one.
    pub ghost held: { Option MachineValue } by { coded_option machine_row.coded },
}

impl Model for MachineBox {
    ghost also_owns = { λ s. box_or_none_owns (global_token s.alloc) machine_row s.at s.held };
}

// A proof in `proofs/machine/machine_box/MachineBox/TheSendSync` shows it.
unsafe impl Send for MachineBox {}

impl MachineBox {
    ghost use Rattle.std.specs.Borrow.{sem};
    ghost use Rattle.std.specs.Prelude.{Some};
    ghost use Rattle.wasmi_c.specs.Lending.{LendsMachine};

    /// The machine or none, as C has it.
    pub fn from_held(held: HeldBox<LimitedMachine, Global>) -> MachineBox
        ensures { result.held ≡ held.entry.held }
    {
        let HeldBox { at, alloc } = held;
        MachineBox {
            at: at as *mut u8,
            alloc,
        }
    }

    /// The machine or none, as Rattle has it.
    pub fn into_held(self) -> HeldBox<LimitedMachine, Global>
        ensures { result.held ≡ self.held }
    {
        let MachineBox { at, alloc } = self;
        HeldBox {
            at: at as *mut LimitedMachine,
            alloc,
        }
    }

    /// The machine, in its place.
    pub fn machine_mut(&mut self) -> &mut LimitedMachine
        requires there { IsSome self.old.held }
        ensures* writes_back { sem 𝓛 (LendsMachine self.entry result) }
        ensures value { Some result.now ≡ self.old.held }
    {
        unsafe { &mut *(self.at as *mut LimitedMachine) }
    }
}
