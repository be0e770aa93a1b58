//! A machine with the limiter that it asks: how it is made, its calls, reservations and totals, its
//! lists and lines of calls, and what these leave with the caller.
ghost use Rattle.std.specs.Prelude.{◌≡◌, Some, IfOk, MatchResult, OnErr};
ghost use Rattle.wasmi_meter.specs.AnyLimiter.{caps_of};
ghost use Rattle.wasmi_machine.specs.declared.calls.Call.TheVariants.{CopyMemory, FillMemory, GetFuel, GrowMemory, InitMemory, Load, NewData, NewSegment, Store, Write};
ghost use Rattle.wasmi_c.specs.Machine.Calls.{ReadsOut, MachineRuns, RefusesLines, RunsLines, WritesOut, no_header, item_load, item_store, vector_binary, word_after};
ghost use Rattle.wasmi_c.specs.Machine.Replies.{status_of};
ghost use Rattle.wasmi_grammar.specs.Lines.{WritesScript};
ghost use Rattle.wasmi_script.specs.Outcomes.{replies_text};

use crate::laws;
use crate::machine::call_struct::{
    BINARY, CallStruct, LOAD, STORE, item_load_numbered, item_store_numbered,
    vector_binary_numbered,
};
use crate::machine::limits::{Limits, Room, Totals};
use crate::machine::reply_struct::ReplyStruct;
use crate::status::{
    BAD_LINE, DONE, HEADER_LINE, LENGTHS_DIFFER, NO_CALL, NO_ROOM, NO_SUCH, TEXT_CUT,
    memory_refusal,
};
use crate::types::reference_type;
use std::alloc::{AllocError, Global};
use std::marker::Model;
use wasmi_grammar::{ParseError, Script, parse};
use wasmi_machine::{Call, Machine, Reply, run_lending};
use wasmi_meter::{AnswerList, AnyLimiter, LimiterAnswer};
use wasmi_ops::{LoadOp, StoreOp};
use wasmi_raw::{RawRef, RawVal};
use wasmi_script::write_lines;

/// A machine with the limiter that it asks. A quota holds what it has, so it is within its caps.
#[derive(Drop)]
pub struct LimitedMachine {
    pub(crate) machine: Machine<'static>,
    pub(crate) limiter: AnyLimiter,
}

impl Model for LimitedMachine {
    ghost use Rattle.wasmi_c.specs.Machine.Caps.{MachineValue, Keeps};

    ghost Value = { MachineValue };

    ghost view = { λ limited. record { state = limited.machine; limiter = limited.limiter } };

    ghost invariant = { λ limited. Keeps limited.machine limited.limiter };
}

impl LimitedMachine {
    ghost use Rattle.wasmi_c.specs.Machine.Calls.{MachineReplies, RepliesInStatus, RepliesInStruct, RepliesInTurn, RepliesInWord, RepliesToCopy, RepliesToItems, RepliesToSegment, RepliesToStruct, Reserves, PaysFuel, totals_of, ReservesElementsByStatus};
    ghost use Rattle.wasmi_c.specs.Machine.Caps.{IsCapped};
    ghost use Rattle.wasmi_c.specs.Machine.NewMachines.{IsNewMachine, IsNewWithAnswers};

    /// A machine with nothing on it, and with its quota if there are caps. It takes no memory.
    pub fn new(alloc: Global, limits: &Limits) -> LimitedMachine
        ensures { IsNewMachine limits.now result }
    {
        LimitedMachine {
            machine: Machine::new(alloc, limits.fuel()),
            limiter: limits.limiter(),
        }
    }

    /// A machine with nothing on it, and with a list of answers, of which none was taken. Its
    /// limits have the meter, and their caps aren't read. It takes no memory.
    pub fn with_answers(
        alloc: Global,
        limits: &Limits,
        answers: Vec<LimiterAnswer>,
    ) -> LimitedMachine
        ensures { IsNewWithAnswers limits.now answers.items result }
    {
        LimitedMachine {
            machine: Machine::new(alloc, limits.fuel()),
            limiter: AnyLimiter::Answers(AnswerList::new(answers)),
        }
    }

    /// Does nothing: its contract says that the machine is within its caps.
    pub fn show_within(&self)
        ensures { IsCapped self.now }
    {
        let _ = &self.limiter;
    }

    /// Replies to one call.
    #[inline(always)]
    pub fn reply(&mut self, call: &Call) -> Reply
        ensures step { MachineReplies call.now self.old result self.new }
        ensures caps { caps_of self.new.limiter ≡ caps_of self.old.limiter }
    {
        laws::quotas_are_kept();
        self.machine.step_lending(call, &mut self.limiter)
    }

    fn reply_in_struct(&mut self, call: &Call) -> ReplyStruct
        ensures step { RepliesInStruct call.now self.old result self.new }
        ensures caps { caps_of self.new.limiter ≡ caps_of self.old.limiter }
    {
        ReplyStruct::from_common(self.reply(call))
    }

    /// Replies to the call that numbers stand for, if there is one.
    #[inline(always)]
    #[tactic(auto, unfolding(crate::specs::Machine::CallStructs::call_of))]
    pub fn reply_to_struct(&mut self, numbers: &CallStruct) -> ReplyStruct
        ensures step { RepliesToStruct numbers.now self.old result self.new }
        ensures caps { caps_of self.new.limiter ≡ caps_of self.old.limiter }
    {
        let (index, ptr, offset) = (numbers.index, numbers.ptr, numbers.offset);
        // These read their own fields alone: to make a `Call` of all takes longer than the call.
        if numbers.kind == LOAD
            && let Some(op) = item_load_numbered(numbers.op)
        {
            return ReplyStruct::from_common(self.load_item(op, index, ptr, offset));
        }
        if numbers.kind == STORE
            && let Some(op) = item_store_numbered(numbers.op)
        {
            return ReplyStruct::from_common(self.store_item(op, index, ptr, offset, numbers.value));
        }
        if numbers.kind == BINARY
            && let Some(op) = vector_binary_numbered(numbers.op)
        {
            let (dst, a, b) = (numbers.dst, numbers.a, numbers.b);
            return ReplyStruct::from_common(self.reply(&Call::Binary { op, dst, a, b }));
        }
        match &numbers.call() {
            Some(call) => self.reply_in_struct(call).by_fields(),
            None => ReplyStruct::only(NO_CALL),
        }
    }

    /// Replies to the calls that numbers stand for, one after the other, and writes the replies into
    /// the caller's, if there are as many. It takes no memory for them.
    #[tactic(auto, unfolding(crate::specs::Machine::Calls::RepliesInTurn))]
    pub fn run_into(&mut self, calls: &[CallStruct], replies: &mut [ReplyStruct]) -> u8
        ensures step { RepliesInTurn RepliesToStruct calls.now replies.old self.old
            (result, replies.new) self.new }
        ensures caps { caps_of self.new.limiter ≡ caps_of self.old.limiter }
    {
        if replies.len() != calls.len() {
            return LENGTHS_DIFFER;
        }
        for i in 0..calls.len() {
            replies[i] = self.reply_to_struct(&calls[i]);
        }
        DONE
    }

    /// Reserves so many more slots of each kind. If memory for some is refused, none more is.
    #[tactic(auto, using(crate::proofs::MachineLemmas::kept_by_reserve))]
    pub fn reserve(&mut self, room: &Room) -> u8
        ensures step { Reserves room.now self.old result self.new }
        ensures caps { caps_of self.new.limiter ≡ caps_of self.old.limiter }
    {
        match self.machine.reserve(room.slots()) {
            Ok(()) => DONE,
            Err(_) => NO_ROOM,
        }
    }

    /// Reserves memory for so many elements in all of a table, or changes nothing if it is refused.
    #[tactic(auto, using(crate::proofs::MachineLemmas::kept_by_elements))]
    pub fn reserve_elements(&mut self, table: usize, elements: u64) -> u8
        ensures step { ReservesElementsByStatus table elements self.old result self.new }
        ensures caps { caps_of self.new.limiter ≡ caps_of self.old.limiter }
    {
        let reply = self.machine.reserve_elements(table, elements);
        ReplyStruct::from_reply(&reply).status
    }

    /// Loads an item by the load that has the number, if there is one.
    #[inline(always)]
    #[tactic(auto, unfolding(crate::specs::Machine::Calls::RepliesInWord))]
    pub fn load(&self, number: u16, memory: usize, ptr: u64, offset: u64, value: &mut u64) -> u8
        ensures { RepliesInWord (item_load number memory ptr offset) value.old self.now
            (result, value.new) self.now }
    {
        match item_load_numbered(number) {
            Some(op) => leave(self.load_item(op, memory, ptr, offset), value),
            None => NO_CALL,
        }
    }

    #[inline(always)]
    fn load_item(&self, op: LoadOp, memory: usize, ptr: u64, offset: u64) -> Reply
        ensures { MachineReplies (Load op memory ptr offset) self.now result self.now }
    {
        let Some(memory) = self.machine.memory(memory) else {
            return Reply::NoSuch;
        };
        match op.load(memory.data(), ptr, offset) {
            Ok(raw) => Reply::Value(raw),
            Err(trap) => Reply::Trap(trap),
        }
    }

    /// Tells the fuel that is left.
    #[inline(always)]
    #[tactic(auto, unfolding(crate::specs::Machine::Calls::RepliesInWord))]
    pub fn fuel_left(&self, left: &mut u64) -> u8
        ensures { RepliesInWord (Some GetFuel) left.old self.now (result, left.new) self.now }
    {
        match self.machine.fuel().get_fuel() {
            Ok(amount) => leave(Reply::Number(amount), left),
            Err(error) => leave(Reply::Fuel(error), left),
        }
    }

    /// Stores an item by the store that has the number, if there is one.
    #[inline(always)]
    #[tactic(auto, unfolding(crate::specs::Machine::Calls::RepliesInStatus))]
    pub fn store(&mut self, number: u16, memory: usize, ptr: u64, offset: u64, value: u64) -> u8
        ensures step { RepliesInStatus (item_store number memory ptr offset value) self.old result
            self.new }
        ensures caps { caps_of self.new.limiter ≡ caps_of self.old.limiter }
    {
        let Some(op) = item_store_numbered(number) else {
            return NO_CALL;
        };
        let value = RawVal { lo: value, hi: 0 };
        ReplyStruct::from_common(self.store_item(op, memory, ptr, offset, value)).status
    }

    /// Stores an item, which asks no limiter.
    #[inline(always)]
    #[tactic(auto, using(crate::proofs::MachineLemmas::kept_by_store))]
    fn store_item(
        &mut self,
        op: StoreOp,
        memory: usize,
        ptr: u64,
        offset: u64,
        value: RawVal,
    ) -> Reply
        ensures step { MachineReplies (Store op memory ptr offset value) self.old result self.new }
        ensures caps { caps_of self.new.limiter ≡ caps_of self.old.limiter }
    {
        self.machine.store_item(op, memory, ptr, offset, value)
    }

    /// Executes the instruction on two vectors that has the number, if there is one.
    #[inline(always)]
    #[tactic(auto, unfolding(crate::specs::Machine::Calls::RepliesInStatus))]
    pub fn binary(&mut self, number: u16, dst: u8, a: u8, b: u8) -> u8
        ensures step { RepliesInStatus (vector_binary number dst a b) self.old result self.new }
        ensures caps { caps_of self.new.limiter ≡ caps_of self.old.limiter }
    {
        let Some(op) = vector_binary_numbered(number) else {
            return NO_CALL;
        };
        ReplyStruct::from_common(self.reply(&Call::Binary { op, dst, a, b })).status
    }

    /// Grows a memory by so many pages, and leaves a status and a word of the reply.
    #[inline(always)]
    #[tactic(auto, unfolding(crate::specs::Machine::Calls::RepliesInWord))]
    pub fn grow(&mut self, memory: usize, pages: u64, number: &mut u64) -> u8
        ensures step { RepliesInWord (Some (GrowMemory memory pages)) number.old self.old
            (result, number.new) self.new }
        ensures caps { caps_of self.new.limiter ≡ caps_of self.old.limiter }
    {
        leave(self.grow_memory(memory, pages), number)
    }

    #[inline(always)]
    fn grow_memory(&mut self, memory: usize, pages: u64) -> Reply
        ensures step { MachineReplies (GrowMemory memory pages) self.old result self.new }
        ensures caps { caps_of self.new.limiter ≡ caps_of self.old.limiter }
    {
        laws::quotas_are_kept();
        self.machine
            .grow_memory_lending(memory, pages, &mut self.limiter)
    }

    /// Fills a range of a memory with a byte, and leaves a status and a word of the reply.
    #[inline(always)]
    #[tactic(auto, unfolding(crate::specs::Machine::Calls::RepliesInWord))]
    pub fn fill(&mut self, memory: usize, dst: u64, value: u8, len: u64, number: &mut u64) -> u8
        ensures step { RepliesInWord (Some (FillMemory memory dst value len)) number.old self.old
            (result, number.new) self.new }
        ensures caps { caps_of self.new.limiter ≡ caps_of self.old.limiter }
    {
        let call = Call::FillMemory {
            memory,
            dst,
            value,
            len,
        };
        leave(self.reply(&call), number)
    }

    /// Copies a range of a memory to another or within it; leaves a status and a word of the reply.
    #[inline(always)]
    #[tactic(auto, unfolding(crate::specs::Machine::Calls::RepliesInWord))]
    pub fn copy(
        &mut self,
        dst_memory: usize,
        dst: u64,
        src_memory: usize,
        src: u64,
        len: u64,
        number: &mut u64,
    ) -> u8
        ensures step { RepliesInWord (Some (CopyMemory dst_memory dst src_memory src len))
            number.old self.old (result, number.new) self.new }
        ensures caps { caps_of self.new.limiter ≡ caps_of self.old.limiter }
    {
        let call = Call::CopyMemory {
            dst_memory,
            dst,
            src_memory,
            src,
            len,
        };
        leave(self.reply(&call), number)
    }

    /// Copies a range of a data segment to a memory, and leaves a status and a word of the reply.
    #[inline(always)]
    #[tactic(auto, unfolding(crate::specs::Machine::Calls::RepliesInWord))]
    pub fn init(
        &mut self,
        memory: usize,
        segment: usize,
        dst: u64,
        src: u32,
        len: u32,
        number: &mut u64,
    ) -> u8
        ensures step { RepliesInWord (Some (InitMemory memory segment dst src len)) number.old
            self.old (result, number.new) self.new }
        ensures caps { caps_of self.new.limiter ≡ caps_of self.old.limiter }
    {
        let call = Call::InitMemory {
            memory,
            segment,
            dst,
            src,
            len,
        };
        leave(self.reply(&call), number)
    }

    /// Copies the bytes of a memory from an offset on to the caller's.
    pub fn read(&self, memory: usize, offset: usize, bytes: &mut [u8]) -> ReplyStruct
        ensures { ReadsOut memory offset self.now.state bytes.old result bytes.new }
    {
        read_out(&self.machine, memory, offset, bytes)
    }

    /// Writes the caller's bytes over those of a memory from an offset on, which asks no limiter.
    #[tactic(auto, using(crate::proofs::MachineLemmas::kept_by_write))]
    pub fn write(&mut self, memory: usize, offset: usize, bytes: &[u8]) -> ReplyStruct
        ensures step { RepliesToItems (Write memory offset) bytes.now self.old result self.new }
        ensures caps { caps_of self.new.limiter ≡ caps_of self.old.limiter }
    {
        ReplyStruct::from_common(self.machine.write(memory, offset, bytes))
    }

    /// Makes an element segment of a copy of the caller's references, if there is such a type.
    #[tactic(auto, unfolding(crate::specs::Machine::Calls::RepliesToCopy))]
    pub fn new_segment(&mut self, alloc: Global, ty: u8, items: &[u32]) -> ReplyStruct
        ensures step { RepliesToSegment ty items.now self.old result self.new }
        ensures caps { caps_of self.new.limiter ≡ caps_of self.old.limiter }
    {
        let Some(ty) = reference_type(ty) else {
            return ReplyStruct::only(NO_CALL);
        };
        let Ok(items) = references(alloc, items) else {
            return ReplyStruct::only(NO_ROOM);
        };
        self.reply_in_struct(&Call::NewSegment { ty, items })
    }

    /// Makes a data segment of a copy of the caller's bytes.
    #[tactic(auto, unfolding(crate::specs::Machine::Calls::RepliesToCopy))]
    pub fn new_data(&mut self, alloc: Global, bytes: &[u8]) -> ReplyStruct
        ensures step { RepliesToCopy NewData bytes.now self.old result self.new }
        ensures caps { caps_of self.new.limiter ≡ caps_of self.old.limiter }
    {
        let Ok(copy) = Vec::from_slice(alloc, bytes) else {
            return ReplyStruct::only(NO_ROOM);
        };
        self.reply_in_struct(&Call::NewData(copy))
    }

    /// How many bytes and elements the machine has, as a quota holds them; else they are added up.
    pub fn totals(&self) -> Totals
        ensures { result ≡ totals_of self.now }
    {
        let (bytes, elements) = match &self.limiter {
            AnyLimiter::Quota(quota) => (
                u128::from(quota.held_bytes()),
                u128::from(quota.held_elements()),
            ),
            _ => (self.machine.total_bytes(), self.machine.total_elements()),
        };
        Totals::from_amounts(DONE, bytes, elements)
    }

    /// Takes fuel that isn't a call's.
    pub fn consume_fuel(&mut self, amount: u64) -> ReplyStruct
        ensures step { PaysFuel amount self.old result self.new }
        ensures caps { caps_of self.new.limiter ≡ caps_of self.old.limiter }
    {
        match self.machine.consume_fuel(amount) {
            Ok(left) => ReplyStruct::with_number(DONE, left),
            Err(error) => ReplyStruct::from_reply(&Reply::Fuel(error)),
        }
    }

    /// Runs lines of calls, and writes their replies to the front of a text.
    #[tactic(auto, unfolding(crate::specs::Machine::Calls::RunsLines))]
    pub fn run_lines(&mut self, alloc: Global, lines: &[u8], text: &mut [u8]) -> ReplyStruct
        ensures lines { RunsLines lines.now self.old text.old result text.new self.new }
        ensures caps { caps_of self.new.limiter ≡ caps_of self.old.limiter }
    {
        let script = match headless(alloc, lines) {
            Ok(script) => script,
            Err(refusal) => return refusal,
        };
        let calls = script.parts.calls();
        let Ok(replies) = self.run(calls) else {
            return ReplyStruct::only(NO_ROOM);
        };
        write_out(calls, &replies, text)
    }

    /// Runs calls. If memory for the replies is refused, nothing has happened.
    fn run(&mut self, calls: &[Call]) -> Result<Vec<Reply>, AllocError>
        ensures run { IfOk result
            (λ replies. MachineRuns calls.now self.old replies.items self.new) }
        ensures err { OnErr result (self.new ≡ self.old) }
        ensures caps { caps_of self.new.limiter ≡ caps_of self.old.limiter }
    {
        laws::quotas_are_kept();
        run_lending(&mut self.machine, calls, &mut self.limiter)
    }
}

/// Leaves the word of a reply with the caller, and returns the status. It is matched where it is
/// returned, since a reply that is kept in a variable is copied.
#[inline(always)]
pub(crate) fn leave(reply: Reply, word: &mut u64) -> u8
    ensures status { result ≡ status_of reply }
    ensures word { word.new ≡ word_after reply word.old }
{
    match reply {
        Reply::Value(value) => {
            *word = value.lo;
            DONE
        }
        Reply::Number(number) => {
            *word = number;
            DONE
        }
        Reply::Memory(error) => memory_refusal(error, word),
        other => ReplyStruct::from_reply(&other).status,
    }
}

/// A copy of the caller's references, for a segment.
pub(crate) fn references(alloc: Global, items: &[u32]) -> Result<Vec<RawRef>, AllocError>
    ensures { IfOk result (λ copy. copy.items ≡ items.now) }
{
    let mut copy = Vec::with_capacity(alloc, items.len())?;
    for item in items {
        copy.push_reserved(RawRef::from(*item));
    }
    Ok(copy)
}

/// Copies the bytes of a memory from an offset on to the caller's.
pub(crate) fn read_out(
    machine: &Machine,
    memory: usize,
    offset: usize,
    bytes: &mut [u8],
) -> ReplyStruct
    ensures { ReadsOut memory offset machine.now bytes.old result bytes.new }
{
    let Some(memory) = machine.memory(memory) else {
        return ReplyStruct::only(NO_SUCH);
    };
    match memory.read(offset, bytes) {
        Ok(()) => ReplyStruct::only(DONE),
        Err(error) => ReplyStruct::from_reply(&Reply::Memory(error)),
    }
}

/// The script that lines write, if it has no header lines; else why they aren't run.
pub(crate) fn headless(alloc: Global, lines: &[u8]) -> Result<Script, ReplyStruct>
    ensures { MatchResult result (λ script. WritesScript lines.now script
        × (script.header ≡ no_header)) (λ refusal. RefusesLines lines.now refusal) }
{
    match parse(alloc, lines) {
        Ok(script) => {
            let header = &script.header;
            if header.meter.is_none()
                && header.limiter_line.is_none()
                && header.region.is_none()
                && header.reserve.is_none()
            {
                Ok(script)
            } else {
                Err(ReplyStruct::only(HEADER_LINE))
            }
        }
        Err(ParseError::BadCommand { line }) => {
            Err(ReplyStruct::with_number(BAD_LINE, line as u64))
        }
        Err(ParseError::OutOfMemory) => Err(ReplyStruct::only(NO_ROOM)),
    }
}

/// Writes the replies to calls to the front of the bytes, as much of their text as fits.
pub(crate) fn write_out(calls: &[Call], replies: &[Reply], bytes: &mut [u8]) -> ReplyStruct
    ensures text { WritesOut (replies_text calls.now replies.now) bytes.old result bytes.new }
{
    let length = write_lines(bytes, calls, replies);
    let status = if length == usize::MAX { TEXT_CUT } else { DONE };
    ReplyStruct::with_number(status, length as u64)
}
