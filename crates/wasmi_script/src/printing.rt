//! The lines that a replay prints, by its outcome: the script with what its run has given, the
//! words of a reply (`Wording`), what is held, and the printer, which sends texts to a writer.
ghost use Rattle.std.specs.Prelude.{◌≡◌, ◌+◌, ◌≤◌, ◌++◌, [], codes, length, Some, IsOk, OnOk, OnErr, IfSome};
ghost use Rattle.std.specs.Io.KnownBytes.{Appends};
ghost use Rattle.wasmi_meter.specs.Texts.{numbered};
ghost use Rattle.wasmi_script.specs.Printing.{AddsToFront, AppendsFront, Flushes, IsShort, Prints, PrintsFront, PrintsText, Sends, SendsFront, line};
ghost use Rattle.wasmi_script.specs.Texts.{reply_text, head_text, kind_text, wording_text, bytes_in};
ghost use Rattle.wasmi_script.specs.Outcomes.{replies_text, tenants_text, held_text, outcome_text, tenant_line};
ghost use Rattle.wasmi_budget.specs.Pool.{machine_of};

use crate::error::ReplayError;
use crate::lines::{put, put_optional};
use crate::replaying::{Held, Output, Ran};
use arrayvec::ArrayString;
use std::fmt::{Display, Write};
use std::{fmt, io};
use wasmi_budget::Pool;
use wasmi_grammar::Script;
use wasmi_machine::{Call, Reply};
use wasmi_meter::Amounts;
use wasmi_types::RefType;

/// How many bytes wait at most before they go to the writer.
const CHUNK: usize = 4096;

/// How long a text may be that is printed at once, with a line feed.
const LONGEST: usize = 256;

/// A script and the outcome of its run.
pub struct Replayed {
    /// What was run.
    pub script: Script,
    /// The outcome.
    pub ran: Ran,
}

// A drop is one call, as that of `Machine`.
impl Drop for Replayed {
    fn drop(self) {
        let Replayed { script, ran } = self;
        drop(script);
        drop(ran);
    }
}

/// Prints the outcome to its last byte, and flushes the writer.
pub fn print<W: Output>(writer: &mut W, outcome: &Result<Replayed, ReplayError>) -> fmt::Result
    ensures ok { OnOk result
        (Appends (W.contents writer.old) (W.contents writer.new) (outcome_text outcome.now)) }
    ensures flushed { OnOk result (W.is_flushed writer.new) }
    ensures front { OnErr result
        (AppendsFront (W.contents writer.old) (W.contents writer.new) (outcome_text outcome.now)) }
{
    let mut printer = Printer {
        writer,
        chunk: ArrayString::new(),
    };
    let printed = print_outcome(&mut printer, outcome);
    let flushed = printer.flush(printed);
    // No effect at run time: the proof reads what the writer has from this use.
    let _ = &*printer.writer;
    flushed
}

/// Prints a line for each call with its reply, to the last byte, and flushes the writer.
///
/// # Errors
///
/// That of the writer, which then has the front of the text.
pub fn print_lines<W: Output>(writer: &mut W, calls: &[Call], replies: &[Reply]) -> fmt::Result
    ensures ok { OnOk result (Appends (W.contents writer.old) (W.contents writer.new)
        (replies_text calls.now replies.now)) }
    ensures flushed { OnOk result (W.is_flushed writer.new) }
    ensures front { OnErr result (AppendsFront (W.contents writer.old) (W.contents writer.new)
        (replies_text calls.now replies.now)) }
{
    let mut printer = Printer {
        writer,
        chunk: ArrayString::new(),
    };
    let printed = print_replies(&mut printer, calls, replies);
    let flushed = printer.flush(printed);
    // No effect at run time: the proof reads what the writer has from this use.
    let _ = &*printer.writer;
    flushed
}

/// Prints a line for each call and what is held, or why the script isn't run.
fn print_outcome<W: io::Write>(
    printer: &mut Printer<W>,
    outcome: &Result<Replayed, ReplayError>,
) -> fmt::Result
    ensures { PrintsText W.contents (outcome_text outcome.now) printer.old result printer.new }
{
    match outcome {
        Ok(replayed) => {
            let calls = replayed.script.parts.calls();
            print_replies(printer, calls, &replayed.ran.replies)?;
            print_held(printer, &replayed.ran.held)
        }
        Err(error) => printer.print_line(format_args!("{error}")),
    }
}

/// A line for each call, with its reply.
fn print_replies<W: io::Write>(
    printer: &mut Printer<W>,
    calls: &[Call],
    replies: &[Reply],
) -> fmt::Result
    ensures { PrintsText W.contents (replies_text calls.now replies.now) printer.old result
        printer.new }
{
    for (call, reply) in calls.iter().zip(replies) {
        print_reply(printer, call, reply)?;
    }
    Ok(())
}

/// A call's reply. The numbers of bytes are printed one after the other, since they may be many.
fn print_reply<W: io::Write>(printer: &mut Printer<W>, call: &Call, reply: &Reply) -> fmt::Result
    ensures { PrintsText W.contents (line (reply_text call.now reply.now)) printer.old result
        printer.new }
{
    printer.print(ReplyHead { call, reply })?;
    for byte in bytes_of(reply) {
        printer.print(format_args!(" {byte}"))?;
    }
    printer.print("\n")
}

/// The bytes that are printed of a reply: none unless some were read.
pub fn bytes_of(reply: &Reply) -> &[u8]
    ensures { result.now ≡ bytes_in reply.now }
{
    match reply {
        Reply::Bytes(bytes) => bytes.as_slice(),
        _ => &[],
    }
}

/// What a quota holds, or what each tenant of a pool holds.
#[tactic(auto, using(crate::proofs::LengthLemmas::held_short))]
fn print_held<W: io::Write>(printer: &mut Printer<W>, held: &Held) -> fmt::Result
    ensures { PrintsText W.contents (held_text held.now) printer.old result printer.new }
{
    match held {
        Held::Nothing => Ok(()),
        Held::Quota(Amounts { bytes, elements }) => {
            printer.print_line(format_args!("held {bytes} {elements}"))
        }
        Held::Tenants(pool) => print_tenants(printer, pool),
    }
}

/// What each tenant of a pool holds.
fn print_tenants<W: io::Write>(printer: &mut Printer<W>, pool: &Pool) -> fmt::Result
    ensures { PrintsText W.contents (tenants_text pool.now.machines) printer.old result
        printer.new }
{
    for index in 0..pool.len() {
        print_tenant(printer, pool, index)?;
    }
    Ok(())
}

/// What the tenant of an index holds, if there is one.
fn print_tenant<W: io::Write>(printer: &mut Printer<W>, pool: &Pool, index: usize) -> fmt::Result
    ensures { PrintsText W.contents (tenant_line index (machine_of pool.now index)) printer.old
        result printer.new }
{
    let (Some(bytes), Some(elements)) = (pool.held_bytes(index), pool.held_elements(index)) else {
        return Ok(());
    };
    printer.print_line(format_args!("held {index} {bytes} {elements}"))
}

/// A call's reply, as the program prints it, without the numbers that follow `bytes`.
#[derive(Clone, Copy)]
pub struct ReplyHead<'a> {
    /// The call, which says what a creation has made.
    pub call: &'a Call,
    /// Its reply.
    pub reply: &'a Reply,
}

impl fmt::Display for ReplyHead<'_> {
    ghost output = { λ head. Some (head_text head.call.now head.reply.now) };

    fn fmt<W: fmt::Write>(&self, f: &mut fmt::Formatter<W>) -> fmt::Result {
        let wording = Wording::of(self.call, self.reply);
        write!(f, "{}{}", wording.start, wording.words)?;
        match (wording.first, wording.second) {
            (None, None) => Ok(()),
            (Some(first), None) => write!(f, "{first}"),
            (None, Some(second)) => write!(f, " {second}"),
            (Some(first), Some(second)) => write!(f, "{first} {second}"),
        }
    }
}

/// Words in two parts, then a number, if there is one, and then a second one after a space.
#[derive(Clone, Copy)]
pub struct Wording {
    /// The first words.
    pub start: &'static str,
    /// The words after them, which may be none.
    pub words: &'static str,
    /// The number after the words.
    pub first: Option<u64>,
    /// The number after that one and a space.
    pub second: Option<u64>,
}

impl Wording {
    /// What a reply says but for its bytes.
    pub fn of(call: &Call, reply: &Reply) -> Wording
        ensures { wording_text result ≡ head_text call.now reply.now }
    {
        match reply {
            Reply::Done => Wording::with("done", "", None),
            Reply::Bytes(_) => Wording::with("bytes", "", None),
            Reply::Reference(None) => Wording::with("none", "", None),
            Reply::NoSuch => Wording::with("no such", "", None),
            Reply::NoRegion => Wording::with("no region", "", None),
            Reply::NoRoom => Wording::with("no room", "", None),
            Reply::Made(index) => Wording::with(made_word(call), " ", Some(*index as u64)),
            Reply::Value(value) => Wording {
                start: "raw ",
                words: "",
                first: Some(value.lo),
                second: Some(value.hi),
            },
            Reply::Number(number) => Wording::with("value ", "", Some(*number)),
            Reply::Reference(Some(reference)) => {
                let raw = u64::from(u32::from(reference.raw));
                match reference.ty {
                    RefType::Func => Wording::with("func", " ", Some(raw)),
                    RefType::Extern => Wording::with("extern", " ", Some(raw)),
                }
            }
            Reply::Memory(error) => Wording::of_error(error.words()),
            Reply::Table(error) => Wording::of_error(error.words()),
            Reply::Fuel(error) => Wording::of_error(error.words()),
            Reply::Global(error) => Wording::with("error ", error.words(), None),
            Reply::Segment(error) => Wording::with("error ", error.words(), None),
            Reply::Trap(code) => Wording::with("error ", code.trap_message(), None),
        }
    }

    fn with(start: &'static str, words: &'static str, first: Option<u64>) -> Wording
        ensures { wording_text result ≡ start.now ++ numbered words.now first }
    {
        Wording {
            start,
            words,
            first,
            second: None,
        }
    }

    fn of_error(error: (&'static str, Option<u64>)) -> Wording
        ensures { wording_text result ≡ codes "error " ++ numbered error.entry.0.now error.entry.1 }
    {
        Wording::with("error ", error.0, error.1)
    }

    /// Writes it to the front of bytes, as [`put`] does a text.
    pub fn put(self, bytes: &mut [u8], written: usize) -> usize
        ensures { AddsToFront (wording_text self) bytes.old written bytes.new result }
    {
        let started = put(bytes, written, self.start.as_bytes());
        let worded = put(bytes, started, self.words.as_bytes());
        let numbered = put_optional(bytes, worded, "", self.first);
        put_optional(bytes, numbered, " ", self.second)
    }
}

/// The word for what the call makes. `Made` answers no call that isn't a creation.
fn made_word(call: &Call) -> &'static str
    ensures { result.now ≡ kind_text call.now }
{
    match call {
        Call::NewMemory(_) | Call::NewLentMemory(_) => "memory",
        Call::NewTable { .. } => "table",
        Call::NewSegment { .. } => "segment",
        Call::NewData(_) => "data",
        Call::NewGlobal { .. } => "global",
        _ => "nothing",
    }
}

/// Text that goes to a writer in chunks, without memory. Any error of the writer ends the printing,
/// and so does a write that takes no byte.
#[derive(Drop)]
pub struct Printer<'w, W> {
    writer: &'w mut W,
    chunk: ArrayString<CHUNK>,
}

impl<W: io::Write> Printer<'_, W> {
    /// Prints a text of less than `LONGEST` bytes.
    pub fn print<D: Display + Drop>(&mut self, text: D) -> fmt::Result
        requires short { IsShort (D.output text) }
        ensures ok { OnOk result
            (IfSome (D.output text) (λ bytes. Prints W.contents self.old self.new bytes)) }
        ensures front { OnErr result
            (IfSome (D.output text) (λ bytes. PrintsFront W.contents self.old self.new bytes)) }
    {
        self.make_room()?;
        self.chunk.write(text)
    }

    /// Prints a line of at most `LONGEST` bytes with its feed.
    pub fn print_line<D: Display + Drop>(&mut self, text: D) -> fmt::Result
        requires short { IsShort (D.output text) }
        ensures ok { OnOk result
            (IfSome (D.output text) (λ bytes. Prints W.contents self.old self.new (line bytes))) }
        ensures front { OnErr result
            (IfSome (D.output text)
            (λ bytes. PrintsFront W.contents self.old self.new (line bytes))) }
    {
        self.make_room()?;
        self.chunk.writeln(text)
    }

    /// Makes room for the longest text.
    fn make_room(&mut self) -> fmt::Result
        ensures ok { OnOk result (Prints W.contents self.old self.new []) }
        ensures front { OnErr result (SendsFront W.contents self.old self.new) }
        ensures room { OnOk result (length self.new.chunk.bytes + LONGEST ≤ CHUNK) }
    {
        if self.chunk.remaining_capacity() < LONGEST {
            self.send()?;
        }
        Ok(())
    }

    /// Sends what waits to the writer.
    fn send(&mut self) -> fmt::Result
        ensures ok { OnOk result (Sends W.contents self.old self.new) }
        ensures empty { OnOk result (self.new.chunk.bytes ≡ []) }
        ensures front { OnErr result (SendsFront W.contents self.old self.new) }
    {
        send_all(self.writer, self.chunk.as_str())?;
        self.chunk.clear();
        Ok(())
    }
}

impl<W: Output> Printer<'_, W> {
    /// Sends what waits to the writer, and flushes it, if all texts were printed.
    pub fn flush(&mut self, printed: fmt::Result) -> fmt::Result
        ensures sent { Flushes W.contents printed self.old result self.new }
        ensures flushed { OnOk result (W.is_flushed self.new.writer.now) }
    {
        printed?;
        self.send()?;
        self.writer.flush_all().map_err(|_| fmt::Error)
    }
}

/// Writes a whole text.
fn send_all<W: io::Write>(writer: &mut W, text: &str) -> fmt::Result
    ensures ok { IsOk result → Appends (W.contents writer.old) (W.contents writer.new) text.now }
    ensures front { AppendsFront (W.contents writer.old) (W.contents writer.new) text.now }
{
    let mut rest = text.as_bytes();
    while !rest.is_empty() {
        match writer.write(rest) {
            Ok(0) => return Err(fmt::Error),
            Ok(count) => rest = &rest[count..],
            Err(_) => return Err(fmt::Error),
        }
    }
    Ok(())
}
