//! The script that a text writes: how a line adds to its header or its calls by parts; the parser.
ghost use Rattle.std.specs.Prelude.{◌≡◌, [], ℕ, ◌+◌, ◌-◌, ◌<◌, ◌≤◌, length, take, drop, IfOk, IfErr, OnOk, OnErr};
ghost use Rattle.wasmi_operands.specs.LineWords.{AcceptsWithMemory};
ghost use Rattle.wasmi_grammar.specs.Lines.{WritesScript, NamesLine, calls_of, IsParseError};

use crate::command::command;
use crate::error::ParseError;
use crate::header::{
    Header, LimiterLine, MeterLine, RegionLine, listed, meter_line, quota, region_line,
    reserve_line, tenants,
};
use std::alloc::{AllocError, Global};
use std::marker::Model;
use std::str;
use wasmi_machine::{Call, SlotCounts};
use wasmi_operands::{LineError, operand, read_words};

/// What a script asks for: what its lines say that were taken in.
pub struct Script {
    /// What its header lines say.
    pub header: Header,
    /// Its calls by parts.
    pub parts: Parts,
}

// A drop is one call, as that of `Machine`.
impl Drop for Script {
    fn drop(self) {
        let Script { header, parts } = self;
        drop(header);
        drop(parts);
    }
}

/// Calls by parts, which `as` lines separate: without one there is one part, tenant 0's.
#[derive(Drop)]
pub struct Parts {
    /// The call of each command, in order.
    calls: Vec<Call>,
    /// The parts before the last `as` line.
    earlier: Vec<Span>,
    /// Whose calls the last part has, from 0.
    tenant: usize,
    /// Where the last part begins.
    start: usize,
}

/// Whose calls a part has, and the places where they stand.
#[derive(Clone, Copy)]
struct Span {
    tenant: usize,
    start: usize,
    end: usize,
}

impl Model for Parts {
    ghost use Rattle.std.specs.Prelude.{map, drop};
    ghost use Rattle.wasmi_grammar.specs.Parts.{PartsValue, part_at, AreCut};

    ghost Value = { PartsValue };

    ghost view = { λ p. record {
      earlier = map (part_at p.calls.items) p.earlier.items;
      tenant = p.tenant;
      calls = drop p.start p.calls.items;
    } };

    ghost invariant = { λ p. AreCut p.earlier.items p.start p.calls.items };
}

impl Parts {
    ghost use Rattle.std.specs.Prelude.{[], ◌++◌, ◌∷◌, ◌↔◌, IsTrue, slice_get};
    ghost use Rattle.std.specs.Option.{option_map};
    ghost use Rattle.wasmi_grammar.specs.Parts.{calls_in, parts_in};

    /// One part without calls.
    fn new(alloc: Global) -> Self
        ensures { result ≡ record { earlier = []; tenant = 0; calls = [] } }
    {
        Parts {
            calls: Vec::new(alloc),
            earlier: Vec::new(alloc),
            tenant: 0,
            start: 0,
        }
    }

    /// Whether there is no call, and no part but the first.
    fn is_empty(&self) -> bool
        ensures { IsTrue result ↔ ((self.now.calls ≡ []) × (self.now.earlier ≡ [])) }
    {
        self.calls.is_empty() && self.earlier.is_empty()
    }

    /// Adds a call to the last part.
    fn push(&mut self, call: Call) -> Result<(), AllocError>
        ensures { OnOk result (self.new ≡ record self.old { calls = self.old.calls ++ call ∷ [] }) }
    {
        self.calls.push(call)?;
        Ok(())
    }

    /// Adds a part of a tenant, which has no call yet.
    fn begin(&mut self, tenant: usize) -> Result<(), AllocError>
        ensures { OnOk result
            (self.new ≡ record { earlier = parts_in self.old; tenant = tenant; calls = [] }) }
    {
        let end = self.calls.len();
        let span = Span {
            tenant: self.tenant,
            start: self.start,
            end,
        };
        self.earlier.push(span)?;
        self.tenant = tenant;
        self.start = end;
        Ok(())
    }

    /// How many parts there are, one at least.
    pub fn len(&self) -> usize
        ensures { result ≡ length (parts_in self.now) }
    {
        self.earlier.len() + 1
    }

    /// The tenant and the calls of a part, by its index from 0.
    pub fn get(&self, index: usize) -> Option<(usize, &[Call])>
        ensures { option_map (λ part. record { tenant = part.0; calls = part.1.now }) result
            ≡ slice_get (parts_in self.now) index }
    {
        if index < self.earlier.len() {
            let span = self.earlier[index];
            Some((span.tenant, calls_at(&self.calls, span.start, span.end)))
        } else if index == self.earlier.len() {
            Some((
                self.tenant,
                calls_at(&self.calls, self.start, self.calls.len()),
            ))
        } else {
            None
        }
    }

    /// The calls of all parts, in order.
    pub fn calls(&self) -> &[Call]
        ensures { result.now ≡ calls_in (parts_in self.now) }
    {
        &self.calls
    }
}

/// The calls from one place to another.
fn calls_at(calls: &[Call], start: usize, end: usize) -> &[Call]
    requires order { start ≤ end }
    requires within { end ≤ length calls.now }
    ensures calls { result.now ≡ take (end - start) (drop start calls.now) }
{
    &calls[start..end]
}

impl Script {
    ghost use Rattle.wasmi_grammar.specs.Lines.{AddsWords, AddsLine, AddsCall, AddsPart, IsNewScript};

    /// A script without lines.
    fn new(alloc: Global) -> Self
        ensures { IsNewScript result }
    {
        Script {
            header: Header::default(),
            parts: Parts::new(alloc),
        }
    }

    /// Takes in one line's words, which may be none. Header lines stand before all commands.
    fn take_line(&mut self, alloc: Global, words: &[&str]) -> Result<(), LineError>
        ensures ok { OnOk result (AddsWords self.old words.now self.new) }
        ensures refused { IfErr result (λ error. error ≡ LineError.BadCommand
            → (new : Script) → ¬ (AddsWords self.old words.now new)) }
    {
        let [name, operands @ ..] = words else {
            return Ok(());
        };
        let line = line_of(alloc, name, operands)?;
        self.take(line)
    }

    /// Takes in what a line says.
    fn take(&mut self, line: Line) -> Result<(), LineError>
        ensures ok { OnOk result (AddsLine self.old line self.new) }
        ensures refused { IfErr result (λ error. error ≡ LineError.BadCommand
            → (new : Script) → ¬ (AddsLine self.old line new)) }
    {
        match line {
            Line::Meter(line) => self.take_meter(line),
            Line::Limiter(line) => self.take_limiter(line),
            Line::Region(line) => self.take_region(line),
            Line::Reserve(slots) => self.take_reserve(slots),
            Line::As(tenant) => self.take_part(tenant),
            Line::Call(call) => self.take_call(call),
        }
    }

    /// Takes in a `meter` line, of which a script has at most one.
    fn take_meter(&mut self, line: MeterLine) -> Result<(), LineError>
        ensures ok { OnOk result (AddsLine self.old (Line.Meter line) self.new) }
        ensures refused { OnErr result
            ((new : Script) → ¬ (AddsLine self.old (Line.Meter line) new)) }
    {
        if !self.parts.is_empty() || self.header.meter.is_some() {
            return Err(LineError::BadCommand);
        }
        self.header.meter = Some(line);
        Ok(())
    }

    /// Takes in a limiter line, of which a script has at most one. A pool has no region.
    fn take_limiter(&mut self, line: LimiterLine) -> Result<(), LineError>
        ensures ok { OnOk result (AddsLine self.old (Line.Limiter line) self.new) }
        ensures refused { OnErr result
            ((new : Script) → ¬ (AddsLine self.old (Line.Limiter line) new)) }
    {
        if !self.parts.is_empty() || self.header.limiter_line.is_some() {
            return Err(LineError::BadCommand);
        }
        if self.header.region.is_some() && matches!(line, LimiterLine::Tenants(_)) {
            return Err(LineError::BadCommand);
        }
        self.header.limiter_line = Some(line);
        Ok(())
    }

    /// Takes in a `region` line, of which a script has at most one, and none beside a pool.
    fn take_region(&mut self, line: RegionLine) -> Result<(), LineError>
        ensures ok { OnOk result (AddsLine self.old (Line.Region line) self.new) }
        ensures refused { OnErr result
            ((new : Script) → ¬ (AddsLine self.old (Line.Region line) new)) }
    {
        if !self.parts.is_empty()
            || self.header.region.is_some()
            || matches!(self.header.limiter_line, Some(LimiterLine::Tenants(_)))
        {
            return Err(LineError::BadCommand);
        }
        self.header.region = Some(line);
        Ok(())
    }

    /// Takes in a `reserve` line, of which a script has at most one.
    fn take_reserve(&mut self, slots: SlotCounts) -> Result<(), LineError>
        ensures ok { OnOk result (AddsLine self.old (Line.Reserve slots) self.new) }
        ensures refused { OnErr result
            ((new : Script) → ¬ (AddsLine self.old (Line.Reserve slots) new)) }
    {
        if !self.parts.is_empty() || self.header.reserve.is_some() {
            return Err(LineError::BadCommand);
        }
        self.header.reserve = Some(slots);
        Ok(())
    }

    /// Takes in a command's call.
    fn take_call(&mut self, call: Call) -> Result<(), LineError>
        ensures ok { OnOk result (AddsCall self.old call self.new) }
        ensures memory { IfErr result (λ error. error ≡ LineError.OutOfMemory) }
    {
        self.parts.push(call)?;
        Ok(())
    }

    /// Takes in an `as` line: what follows are the calls of another tenant, of whom there is one.
    fn take_part(&mut self, tenant: usize) -> Result<(), LineError>
        ensures ok { OnOk result (AddsPart self.old tenant self.new) }
        ensures refused { IfErr result (λ error. error ≡ LineError.BadCommand
            → (new : Script) → ¬ (AddsPart self.old tenant new)) }
    {
        if tenant >= self.header.tenants() {
            return Err(LineError::BadCommand);
        }
        self.parts.begin(tenant)?;
        Ok(())
    }
}

/// What a line with words says.
#[derive(Drop)]
enum Line {
    Meter(MeterLine),
    Limiter(LimiterLine),
    Region(RegionLine),
    Reserve(SlotCounts),
    As(usize),
    Call(Call),
}

/// What a line's first word and the words after it say.
fn line_of(alloc: Global, name: &str, operands: &[&str]) -> Result<Line, LineError>
    ensures { AcceptsWithMemory result (NamesLine name.now operands.now) }
{
    match name {
        "meter" => Ok(Line::Meter(meter_line(operands)?)),
        "quota" => Ok(Line::Limiter(quota(operands)?)),
        "answers" => Ok(Line::Limiter(listed(alloc, operands)?)),
        "tenants" => Ok(Line::Limiter(tenants(operands)?)),
        "region" => Ok(Line::Region(region_line(operands)?)),
        "reserve" => Ok(Line::Reserve(reserve_line(operands)?)),
        "as" => Ok(Line::As(operand::one(operands)?)),
        _ => Ok(Line::Call(command(alloc, name, operands)?)),
    }
}

/// The script that the bytes write.
///
/// # Errors
///
/// `BadCommand` with the first line that is no command; `OutOfMemory` if memory is refused.
pub fn parse(alloc: Global, bytes: &[u8]) -> Result<Script, ParseError>
    ensures script { IfOk result (WritesScript bytes.now) }
    ensures calls { IfOk result (λ script. length (calls_of script) ≤ length bytes.now + 1) }
    ensures refused { IfErr result (IsParseError bytes.now) }
    ensures line { IfErr result (λ error. (line : ℕ) → error ≡ ParseError.BadCommand line
        → (0 < line) × (line ≤ length bytes.now + 1)) }
{
    let mut script = Script::new(alloc);
    let mut words = Vec::new(alloc);
    for (index, bytes) in bytes.split(|byte| *byte == b'\n').enumerate() {
        let line = index + 1;
        let Ok(text) = str::from_utf8(bytes) else {
            return Err(ParseError::BadCommand { line });
        };
        read_words(text, &mut words)?;
        match script.take_line(alloc, words.as_slice()) {
            Ok(()) => {}
            Err(LineError::BadCommand) => return Err(ParseError::BadCommand { line }),
            Err(LineError::OutOfMemory) => return Err(ParseError::OutOfMemory),
        }
    }
    Ok(script)
}
