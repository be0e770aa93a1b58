//! The header lines of a script: what the words after their first say.
ghost use Rattle.std.specs.Prelude.{◌≡◌, codes};
ghost use Rattle.wasmi_operands.specs.LineWords.{Accepts, AcceptsWithMemory};
ghost use Rattle.wasmi_grammar.specs.Headers.{WritesMeter, NamesLimiterAfter, WritesRegion, WritesReserve, slots_of, tenants_of};

use std::alloc::Global;
use wasmi_machine::SlotCounts;
use wasmi_meter::{Amounts, LimiterAnswer};
use wasmi_operands::operand::{self, list_of};
use wasmi_operands::{LineError, number};

/// The most tenants that a script may have.
const MOST_TENANTS: usize = 1024;

/// What a `meter` line says.
#[derive(Clone, Copy)]
pub enum MeterLine {
    /// `meter off`: no fuel is counted.
    Off,
    /// `meter on R`: R bytes are copied for one fuel.
    On(u32),
}

/// What a limiter line says. A script has at most one, of whatever kind.
#[derive(Drop)]
pub enum LimiterLine {
    /// `quota B E`: the most bytes of all memories, and the most elements of all tables.
    Quota(Amounts),
    /// `answers W ...`, which may have no word: one for each question, in order.
    Answers(Vec<LimiterAnswer>),
    /// `tenants N B E`.
    Tenants(TenantsLine),
}

/// What a `tenants` line says: a pool of so many machines.
#[derive(Clone, Copy)]
pub struct TenantsLine {
    /// How many machines there are, from 1 to 1,024.
    pub count: usize,
    /// The most bytes and the most elements that all of them have together.
    pub caps: Amounts,
}

/// What a `region` line says: a lent region of so many bytes, all the same.
#[derive(Clone, Copy)]
pub struct RegionLine {
    /// How many bytes it has.
    pub len: usize,
    /// Each of its bytes.
    pub byte: u8,
}

/// The header lines that a script has.
#[derive(Drop, Default)]
pub struct Header {
    /// The `meter` line, if there is one. Without it the meter is off.
    pub meter: Option<MeterLine>,
    /// The limiter line, if there is one. Without it no limiter is given.
    pub limiter_line: Option<LimiterLine>,
    /// The `region` line, if there is one. Without it no region is lent.
    pub region: Option<RegionLine>,
    /// The `reserve` line, if there is one. Without it no slot is reserved.
    pub reserve: Option<SlotCounts>,
}

impl Header {
    /// How many tenants the script has: none without a `tenants` line.
    pub fn tenants(&self) -> usize
        ensures { result ≡ tenants_of self.now.limiter_line }
    {
        match &self.limiter_line {
            Some(LimiterLine::Tenants(line)) => line.count,
            _ => 0,
        }
    }

    /// How many slots of each kind the script's machine, or each of its tenants, has reserved: none
    /// without a `reserve` line.
    pub fn slots(&self) -> SlotCounts
        ensures { result ≡ slots_of self.now }
    {
        self.reserve.unwrap_or_default()
    }
}

/// What the words after `meter` say.
pub(crate) fn meter_line(operands: &[&str]) -> Result<MeterLine, LineError>
    ensures { Accepts result (WritesMeter operands.now) }
{
    match operands {
        ["off"] => Ok(MeterLine::Off),
        ["on", bytes_per_fuel] => Ok(MeterLine::On(number(bytes_per_fuel)?)),
        _ => Err(LineError::BadCommand),
    }
}

/// What the words after `region` say.
pub(crate) fn region_line(operands: &[&str]) -> Result<RegionLine, LineError>
    ensures { Accepts result (WritesRegion operands.now) }
{
    let (len, byte) = operand::two(operands)?;
    Ok(RegionLine { len, byte })
}

/// What the words after `reserve` say.
pub(crate) fn reserve_line(operands: &[&str]) -> Result<SlotCounts, LineError>
    ensures { Accepts result (WritesReserve operands.now) }
{
    let (memories, tables, segments, data_segments, globals) = operand::five(operands)?;
    Ok(SlotCounts {
        memories,
        tables,
        segments,
        data_segments,
        globals,
    })
}

/// `quota B E`.
pub(crate) fn quota(operands: &[&str]) -> Result<LimiterLine, LineError>
    ensures { Accepts result (NamesLimiterAfter (codes "quota") operands.now) }
{
    let (bytes, elements) = operand::two(operands)?;
    Ok(LimiterLine::Quota(Amounts { bytes, elements }))
}

/// `tenants N B E`.
pub(crate) fn tenants(operands: &[&str]) -> Result<LimiterLine, LineError>
    ensures { Accepts result (NamesLimiterAfter (codes "tenants") operands.now) }
{
    let (count, bytes, elements) = operand::three(operands)?;
    match count {
        1..=MOST_TENANTS => Ok(LimiterLine::Tenants(TenantsLine {
            count,
            caps: Amounts { bytes, elements },
        })),
        _ => Err(LineError::BadCommand),
    }
}

/// `answers W ...`, which may have no word.
pub(crate) fn listed(alloc: Global, operands: &[&str]) -> Result<LimiterLine, LineError>
    ensures { AcceptsWithMemory result (NamesLimiterAfter (codes "answers") operands.now) }
{
    Ok(LimiterLine::Answers(list_of(alloc, operands)?))
}
