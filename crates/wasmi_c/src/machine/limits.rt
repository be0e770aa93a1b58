//! The structs of plain numbers of what a machine is made with, the answers of its limiter among
//! it, of what is reserved on it, and of what it has.
ghost use Rattle.std.specs.Prelude.{◌≡◌, IfOk, map};
ghost use Rattle.wasmi_c.specs.Machine.Calls.{slots_of, totals_in};
ghost use Rattle.wasmi_c.specs.Machine.NewMachines.{IsNewLimiter, meter_with, listed_answer};

use crate::types::{if_flag, meter};
use std::alloc::{AllocError, Global};
use wasmi_machine::SlotCounts;
use wasmi_meter::{AnyLimiter, CustomFuelCosts, Fuel, LimiterAnswer, Quota};
use wasmi_raw::{RawVal, V128};

/// What a machine is made with: its caps, if it has any, and its meter with what work costs.
#[repr(C)]
#[derive(Clone, Copy)]
pub struct Limits {
    /// The most bytes that its memories may have together.
    pub bytes: u64,
    /// The most elements that its tables may have together.
    pub elements: u64,
    /// How many bytes are copied for one fuel; 0 makes each copy cost the greatest `u64`.
    pub bytes_copied_per_fuel: u32,
    /// The fuel for translating one byte, which no call takes.
    pub fuel_per_bytes_translated: u32,
    /// The fuel for validating one byte, which no call takes.
    pub fuel_per_bytes_validated: u32,
    /// Whether the meter is on: 0 is no. One that is on has no fuel at first.
    pub is_metered: u8,
    /// Whether there are no caps: 0 is no. Where there are none, nothing is asked before a growth.
    pub is_unlimited: u8,
}

impl Limits {
    /// The meter.
    pub fn fuel(&self) -> Fuel
        ensures { result ≡ meter_with self.now }
    {
        let costs = CustomFuelCosts {
            bytes_copied_per_fuel: self.bytes_copied_per_fuel,
            fuel_per_bytes_translated: self.fuel_per_bytes_translated,
            fuel_per_bytes_validated: self.fuel_per_bytes_validated,
        };
        meter(if_flag(self.is_metered, 0), costs)
    }

    /// The quota of the caps, if there are caps.
    pub fn limiter(&self) -> AnyLimiter
        ensures { IsNewLimiter self.now result }
    {
        if self.is_unlimited == 0 {
            AnyLimiter::Quota(Quota::new(self.bytes, self.elements))
        } else {
            AnyLimiter::Unlimited
        }
    }
}

/// How many slots are reserved on a machine, beside those of what was made.
#[repr(C)]
#[derive(Clone, Copy)]
pub struct Room {
    /// Slots of memories.
    pub memories: usize,
    /// Slots of tables.
    pub tables: usize,
    /// Slots of element segments.
    pub segments: usize,
    /// Slots of data segments.
    pub data_segments: usize,
    /// Slots of globals.
    pub globals: usize,
}

impl Room {
    /// The slots of each kind.
    pub fn slots(&self) -> SlotCounts
        ensures { result ≡ slots_of self.now }
    {
        SlotCounts {
            memories: self.memories,
            tables: self.tables,
            segments: self.segments,
            data_segments: self.data_segments,
            globals: self.globals,
        }
    }
}

/// How many bytes the memories of a machine have together, and how many elements its tables;
/// dropped ones count at their last size.
#[repr(C)]
#[derive(Clone, Copy)]
pub struct Totals {
    /// The bytes, as a number of 128 bits.
    pub bytes: RawVal,
    /// The elements, as a number of 128 bits.
    pub elements: RawVal,
    /// 0, or that there is no machine.
    pub status: u8,
}

impl Totals {
    /// So many bytes and elements.
    pub fn from_amounts(status: u8, bytes: u128, elements: u128) -> Totals
        ensures { result ≡ totals_in status bytes elements }
    {
        Totals {
            bytes: RawVal::from(V128::from(bytes)),
            elements: RawVal::from(V128::from(elements)),
            status,
        }
    }
}

/// The answers that numbers below 4 stand for.
pub(super) fn answers_of(alloc: Global, numbers: &[u8]) -> Result<Vec<LimiterAnswer>, AllocError>
    ensures answers { IfOk result (λ answers. answers.items ≡ map listed_answer numbers.now) }
{
    numbers.iter().map(|number| answer(*number)).collect(alloc)
}

fn answer(number: u8) -> LimiterAnswer
    ensures { result ≡ listed_answer number }
{
    match number {
        0 => LimiterAnswer::Permit,
        1 => LimiterAnswer::Deny,
        2 => LimiterAnswer::Error,
        _ => LimiterAnswer::Complain,
    }
}
