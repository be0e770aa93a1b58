//! A script from its reader to the printed lines: the streams, the replay with its status, and the
//! run of the calls on a new machine or a new pool, as the header lines ask for it.
ghost use Rattle.std.specs.Prelude.{◌≡◌, ◌+◌, ◌≤◌, vec_len, None, Some, IfOk, IfErr, IfSome, OnErr, OnOk};
ghost use Rattle.std.specs.Io.KnownBytes.{Keeps as KeepsContents, ReadConsumes};
ghost use Rattle.std.specs.Io.{ReadsAtMost};
ghost use Rattle.std.specs.Option.{option_map, option_copied_mut};
ghost use Rattle.wasmi_grammar.specs.Headers.{meter_of, region_bytes, start_of, tenant_start};
ghost use Rattle.wasmi_machine.specs.State.{new_state};
ghost use Rattle.wasmi_script.specs.Outcomes.{IsReadError, script_limit, IsOutcomeOf, IsOutcomeOfReader, PrintsOutcome, Replays, status_number, status_after};
ghost use Rattle.wasmi_script.specs.ScriptRuns.{IsReplayOf, IsReplayOnOne, IsListedReplay, IsPoolReplay, new_pool};

use crate::error::ReplayError;
use crate::printing::{Replayed, print};
use std::alloc::{AllocError, Global};
use std::io;
use wasmi_budget::Pool;
use wasmi_grammar::{
    Header, LimiterLine, MeterLine, ParseError, RegionLine, Script, TenantsLine, parse,
};
use wasmi_machine::{Call, Machine, Reply, run, run_lending, run_reserving};
use wasmi_meter::{
    Amounts, AnswerList, CustomFuelCosts, Fuel, FuelCostsProvider, LimiterAnswer, NoLimits, Quota,
    ResourceLimiterRef,
};

/// A reader of a script. Each [`io::Read`] is one.
pub trait Input: io::Read {
    ghost has_failed: { Self → Type 0 };

    /// Reads bytes, as [`io::Read::read`] does.
    ///
    /// # Errors
    ///
    /// That of the reader, which has failed then.
    fn read_some(&mut self, buffer: &mut [u8]) -> io::Result<usize>
        ensures bound { ReadsAtMost result buffer.new }
        ensures bytes { ReadConsumes (Self.remaining self.old) (Self.remaining self.new) result
            buffer.new }
        ensures failed { OnErr result (has_failed self.new) };
}

impl<R: io::Read> Input for R {
    ghost has_failed = { λ _. Unit {0} };

    fn read_some(&mut self, buffer: &mut [u8]) -> io::Result<usize> {
        self.read(buffer)
    }
}

/// A writer of what a script prints. Each [`io::Write`] is one.
pub trait Output: io::Write {
    ghost is_flushed: { Self → Type 0 };

    /// Flushes it, as [`io::Write::flush`] does.
    ///
    /// # Errors
    ///
    /// That of the writer, which then isn't known to be flushed.
    fn flush_all(&mut self) -> io::Result<()>
        ensures bytes { KeepsContents (Self.contents self.old) (Self.contents self.new) }
        ensures flushed { OnOk result (is_flushed self.new) };
}

impl<W: io::Write> Output for W {
    ghost is_flushed = { λ _. Unit {0} };

    fn flush_all(&mut self) -> io::Result<()> {
        self.flush()
    }
}

/// The most bytes that a script may have.
pub const LIMIT: usize = 1_048_576;

/// How a replay ended.
#[derive(Clone, Copy, Debug, PartialEq, Eq)]
pub enum Status {
    /// Each call has a reply, which may be a refusal.
    Answered,
    /// A line is no command, or the script is too long.
    BadScript,
    /// There wasn't enough memory to read, to parse or for the replies.
    OutOfMemory,
    /// The reader or the writer failed.
    Fault,
}

impl Status {
    /// The exit status of the program.
    pub fn code(self) -> u8
        ensures { result ≡ status_number self }
    {
        match self {
            Status::Answered => 0,
            Status::BadScript => 2,
            Status::OutOfMemory => 3,
            Status::Fault => 4,
        }
    }
}

/// Reads the script, runs it and prints its replies, or prints why it isn't run. A line that can't
/// be printed, or a flush that fails, makes the status `Fault`; what went out before it stays.
pub fn replay<R: Input, W: Output>(alloc: Global, reader: &mut R, writer: &mut W) -> Status
    ensures ends { Replays (IsOutcomeOfReader (R.remaining reader.old) (R.has_failed reader.new))
        (W.contents writer.old) (W.contents writer.new) (W.is_flushed writer.new) result }
{
    let outcome = outcome_of_reader(alloc, reader);
    tell(writer, &outcome)
}

/// Runs the script of these bytes and prints its replies, as [`replay`] does. No reader fails.
pub fn replay_bytes<W: Output>(alloc: Global, script: &[u8], writer: &mut W) -> Status
    ensures ends { Replays (IsOutcomeOf script.now)
        (W.contents writer.old) (W.contents writer.new) (W.is_flushed writer.new) result }
{
    let outcome = outcome_of(alloc, script);
    tell(writer, &outcome)
}

/// Prints the outcome, and says how the replay ends.
fn tell<W: Output>(writer: &mut W, outcome: &Result<Replayed, ReplayError>) -> Status
    ensures { PrintsOutcome (W.contents writer.old) (W.contents writer.new)
        (W.is_flushed writer.new) outcome.now result }
{
    match print(writer, outcome) {
        Ok(()) => status_of(outcome),
        Err(_) => Status::Fault,
    }
}

/// Reads the script and runs it.
fn outcome_of_reader<R: Input>(alloc: Global, reader: &mut R) -> Result<Replayed, ReplayError>
    ensures { IsOutcomeOfReader (R.remaining reader.old) (R.has_failed reader.new) result }
{
    let mut counted = CountedReader { reader, taken: 0 };
    let script = read(alloc, &mut counted);
    // No effect at run time: the proof reads what the reader is then from this use.
    let _ = &*counted.reader;
    outcome_of(alloc, script?.as_slice())
}

/// Runs the script that these bytes write.
fn outcome_of(alloc: Global, bytes: &[u8]) -> Result<Replayed, ReplayError>
    ensures { IsOutcomeOf bytes.now result }
{
    if LIMIT < bytes.len() {
        return Err(ReplayError::TooLong);
    }
    let script = parse(alloc, bytes)?;
    let ran = run_script(alloc, &script)?;
    Ok(Replayed { script, ran })
}

/// How the replay ends if its lines can be printed.
fn status_of(outcome: &Result<Replayed, ReplayError>) -> Status
    ensures { result ≡ status_after outcome.now }
{
    match outcome {
        Ok(_) => Status::Answered,
        Err(ReplayError::Parse(ParseError::BadCommand { .. }) | ReplayError::TooLong) => {
            Status::BadScript
        }
        Err(ReplayError::Parse(ParseError::OutOfMemory)) => Status::OutOfMemory,
        Err(ReplayError::ReadFault) => Status::Fault,
    }
}

/// A reader whose turns are counted.
#[derive(Drop)]
struct CountedReader<'r, R> {
    reader: &'r mut R,
    /// How many turns it took.
    taken: usize,
}

impl<R: Input> CountedReader<'_, R> {
    /// One turn more.
    fn turn(&mut self, buffer: &mut [u8]) -> io::Result<usize>
        requires turns { self.old.taken ≤ script_limit }
        ensures reader { self.new.reader.ghost_name ≡ self.old.reader.ghost_name }
        ensures taken { self.new.taken ≡ self.old.taken + 1 }
        ensures bound { ReadsAtMost result buffer.new }
        ensures bytes { ReadConsumes (R.remaining self.old.reader.now)
            (R.remaining self.new.reader.now) result buffer.new }
        ensures failed { OnErr result (R.has_failed self.new.reader.now) }
    {
        self.taken += 1;
        self.reader.read_some(buffer)
    }
}

/// The bytes of the reader up to a turn that gives nothing, in at most `LIMIT + 1` turns.
fn read<R: Input>(alloc: Global, reader: &mut CountedReader<'_, R>) -> Result<Vec<u8>, ReplayError>
    requires fresh { reader.old.taken ≡ 0 }
    ensures reader { reader.new.reader.ghost_name ≡ reader.old.reader.ghost_name }
    ensures bounded { IfOk result (λ script. vec_len script ≤ LIMIT) }
    ensures whole { IfOk result
        (λ script. IfSome (R.remaining reader.old.reader.now) (λ bytes. script.items ≡ bytes)) }
    ensures refused { IfErr result (IsReadError (R.remaining reader.old.reader.now)
        (R.has_failed reader.new.reader.now)) }
    ensures turns { reader.new.taken ≤ script_limit + 1 }
{
    let mut script = Vec::new(alloc);
    let mut chunk = [0u8; 4096];
    for _turn in 0..LIMIT + 1 {
        let Ok(count) = reader.turn(&mut chunk) else {
            return Err(ReplayError::ReadFault);
        };
        if count == 0 {
            return Ok(script);
        }
        if LIMIT - script.len() < count {
            return Err(ReplayError::TooLong);
        }
        script.extend_from_slice(&chunk[..count])?;
    }
    Err(ReplayError::TooLong)
}

/// The replies of a script's run, and what is held afterwards.
#[derive(Drop)]
pub struct Ran {
    /// A reply to each call, in order.
    pub replies: Vec<Reply>,
    /// What is held afterwards.
    pub held: Held,
}

/// What is held after a run, as far as it is printed.
#[derive(Drop)]
pub enum Held {
    /// Nothing is counted without a limiter that counts.
    Nothing,
    /// What a quota holds.
    Quota(Amounts),
    /// What the tenants of a pool hold.
    Tenants(Pool<'static>),
}

/// Runs the script's calls on a new machine, or its parts on a pool of new machines.
pub fn run_script(alloc: Global, script: &Script) -> Result<Ran, AllocError>
    ensures { IfOk result (IsReplayOf script.now) }
{
    let header = &script.header;
    let calls = script.parts.calls();
    match &header.limiter_line {
        None => run_freely(alloc, header, calls),
        Some(LimiterLine::Quota(caps)) => run_under_quota(alloc, header, calls, *caps),
        Some(LimiterLine::Answers(answers)) => run_answered(alloc, header, calls, answers),
        Some(LimiterLine::Tenants(line)) => run_pool(alloc, script, *line),
    }
}

/// The meter that the header lines ask for. Without a `meter` line it is off.
fn fuel_of(header: &Header) -> Fuel
    ensures { result ≡ meter_of header.now }
{
    match header.meter {
        Some(MeterLine::On(bytes_copied_per_fuel)) => {
            let costs = CustomFuelCosts {
                bytes_copied_per_fuel,
                fuel_per_bytes_translated: 7,
                fuel_per_bytes_validated: 2,
            };
            Fuel::new(true, FuelCostsProvider::custom(costs))
        }
        Some(MeterLine::Off) | None => Fuel::new(false, FuelCostsProvider::default()),
    }
}

/// The bytes of the region that the header lines ask for, if there is one.
fn region_of(alloc: Global, header: &Header) -> Result<Option<Vec<u8>>, AllocError>
    ensures { IfOk result (λ region. option_map (λ bytes. bytes.items) region
        ≡ option_map region_bytes header.now.region) }
{
    match header.region {
        None => Ok(None),
        Some(RegionLine { len, byte }) => Ok(Some(vec![in alloc; byte; len]?)),
    }
}

/// A new machine with the meter of the header, which is lent this region if there is one.
fn machine_of<'r>(alloc: Global, header: &Header, region: Option<&'r mut Vec<u8>>) -> Machine<'r>
    ensures { result ≡ record (new_state (meter_of header.now))
        { spare = option_map (λ bytes. bytes.items) (option_copied_mut region.entry) } }
{
    let fuel = fuel_of(header);
    match region {
        None => Machine::new(alloc, fuel),
        Some(bytes) => Machine::with_region(alloc, fuel, bytes.as_mut_slice()),
    }
}

/// The machine that the script starts with, or each of its tenants: a new one, as by `machine_of`,
/// with the slots reserved that the header lines ask for.
fn start<'r>(
    alloc: Global,
    header: &Header,
    region: Option<&'r mut Vec<u8>>,
) -> Result<Machine<'r>, AllocError>
    ensures { IfOk result (λ machine. machine ≡ record (tenant_start header.now)
        { spare = option_map (λ bytes. bytes.items) (option_copied_mut region.entry) }) }
{
    let mut machine = machine_of(alloc, header, region);
    machine.reserve(header.slots())?;
    Ok(machine)
}

/// Runs the calls on a new machine without a limiter.
fn run_freely(alloc: Global, header: &Header, calls: &[Call]) -> Result<Ran, AllocError>
    ensures { IfOk result (IsReplayOnOne None header.now calls.now) }
{
    let mut region = region_of(alloc, header)?;
    let mut machine = start(alloc, header, region.as_mut())?;
    let mut limiter = ResourceLimiterRef::<NoLimits>::default();
    let replies = run(&mut machine, calls, &mut limiter)?;
    let held = Held::Nothing;
    Ok(Ran { replies, held })
}

/// Runs the calls on a new machine under a quota of these caps.
fn run_under_quota(
    alloc: Global,
    header: &Header,
    calls: &[Call],
    caps: Amounts,
) -> Result<Ran, AllocError>
    ensures { IfOk result (IsReplayOnOne (Some (LimiterLine.Quota caps)) header.now calls.now) }
{
    let mut region = region_of(alloc, header)?;
    let mut machine = start(alloc, header, region.as_mut())?;
    let mut quota = Quota::new(caps.bytes, caps.elements);
    let replies = run_reserving(&mut machine, calls, &mut quota)?;
    let held = Held::Quota(Amounts {
        bytes: quota.held_bytes(),
        elements: quota.held_elements(),
    });
    Ok(Ran { replies, held })
}

/// Runs the calls on a new machine under a limiter that answers from a list.
fn run_answered(
    alloc: Global,
    header: &Header,
    calls: &[Call],
    answers: &[LimiterAnswer],
) -> Result<Ran, AllocError>
    ensures { IfOk result (λ ran.
        IsListedReplay answers.now (start_of header.now) calls.now ran.replies.items ran.held) }
{
    let mut limiter = AnswerList::new(answers.to_vec(alloc)?);
    let mut region = region_of(alloc, header)?;
    let mut machine = start(alloc, header, region.as_mut())?;
    let replies = run_lending(&mut machine, calls, &mut limiter)?;
    let held = Held::Nothing;
    Ok(Ran { replies, held })
}

/// Runs the script's parts, each by its tenant, on a pool of new machines with its meter and slots.
fn run_pool(alloc: Global, script: &Script, line: TenantsLine) -> Result<Ran, AllocError>
    ensures { IfOk result (IsPoolReplay line script.now) }
{
    let mut pool = pool_of(alloc, &script.header, line)?;
    let parts = &script.parts;
    let mut replies = Vec::with_capacity(alloc, parts.calls().len())?;
    for index in 0..parts.len() {
        let (tenant, calls) = parts.get(index).unwrap();
        // No script names a tenant that its pool lacks, so an error is one of memory.
        let Ok(mut answered) = pool.run(tenant, calls) else {
            return Err(AllocError);
        };
        replies.append(&mut answered)?;
    }
    let held = Held::Tenants(pool);
    Ok(Ran { replies, held })
}

/// A pool of new machines with the header's meter and reserved slots, under the caps of the line.
fn pool_of(alloc: Global, header: &Header, line: TenantsLine) -> Result<Pool<'static>, AllocError>
    ensures { IfOk result (λ pool. pool ≡ new_pool line (tenant_start header.now)) }
{
    let mut pool = Pool::new(alloc, line.caps.bytes, line.caps.elements);
    for _index in 0..line.count {
        // A new machine has nothing, so only memory for its place can be refused.
        if pool.add(start(alloc, header, None)?).is_err() {
            return Err(AllocError);
        }
    }
    Ok(pool)
}
