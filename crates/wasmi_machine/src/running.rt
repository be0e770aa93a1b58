//! Executing one call or one growth on a machine, and runs of calls. They are our own: upstream
//! leaves running to the interpreter.
ghost use Rattle.std.specs.Prelude.{◌≡◌, ◌≤◌, ◌↔◌, Some, IfOk, IsOk, OnErr, OnOk, length};
ghost use Rattle.wasmi_meter.specs.Limiter.{optional_rules, lent_limiter, KeepsLoan};
ghost use Rattle.wasmi_machine.specs.State.{IsValid, world, HoldsTotals};
ghost use Rattle.wasmi_machine.specs.Steps.{IsRunOf, RepliesWith};
ghost use Rattle.wasmi_machine.specs.declared.calls.Call.TheVariants.{GrowMemory};

use crate::calls::{Call, Reply};
use crate::machine::Machine;
use crate::replies::{Replies, TooManyCalls};
use std::alloc::AllocError;
use wasmi_meter::{Reserving, ResourceLimiter, ResourceLimiterRef};

impl<'r> Machine<'r> {
    /// Executes one call, as `run` executes each of a list.
    #[inline(always)]
    pub fn step<L: ResourceLimiter>(
        &mut self,
        call: &Call,
        limiter: &mut ResourceLimiterRef<L>,
    ) -> Reply
        ensures loan { KeepsLoan limiter.old limiter.new }
        ensures step { RepliesWith (optional_rules L.rules) call.now
            (world self.old (lent_limiter limiter.old)) result
            (world self.new (lent_limiter limiter.new)) }
        ensures valid { IsValid self.new }
    {
        self.step_lending(call, limiter)
    }

    /// Grows a memory by so many pages, as `step_lending` does for `Call::GrowMemory`. The reply is
    /// `Number` with the old size in pages, `NoSuch` if there is no such memory, or `Memory` with
    /// an error of [`wasmi_store::LinearMemory::grow`].
    #[inline(always)]
    pub fn grow_memory_lending<L: ResourceLimiter>(
        &mut self,
        memory: usize,
        pages: u64,
        limiter: &mut L,
    ) -> Reply
        ensures step { RepliesWith (optional_rules L.rules) (GrowMemory memory pages)
            (world self.old (Some limiter.old)) result (world self.new (Some limiter.new)) }
        ensures valid { IsValid self.new }
    {
        let reply = self.store.grow_memory(memory, pages, limiter);
        reply.unwrap_or(Reply::NoSuch)
    }

    /// Executes one call, as `step`, but borrows the limiter for this call alone, so that its state
    /// afterwards is known.
    #[inline(always)]
    pub fn step_lending<L: ResourceLimiter>(&mut self, call: &Call, limiter: &mut L) -> Reply
        ensures step { RepliesWith (optional_rules L.rules) call.now
            (world self.old (Some limiter.old)) result (world self.new (Some limiter.new)) }
        ensures valid { IsValid self.new }
    {
        call.tell_valid();
        self.store.step(call, limiter)
    }
}

/// Executes calls one after another.
pub fn run<L: ResourceLimiter>(
    machine: &mut Machine,
    calls: &[Call],
    limiter: &mut ResourceLimiterRef<L>,
) -> Result<Vec<Reply>, AllocError>
    ensures loan { KeepsLoan limiter.old limiter.new }
    ensures run { IfOk result (λ replies. IsRunOf (optional_rules L.rules) calls.now
        (world machine.old (lent_limiter limiter.old)) replies.items
        (world machine.new (lent_limiter limiter.new))) }
    ensures err { OnErr result ((machine.new ≡ machine.old) × (limiter.new ≡ limiter.old)) }
    ensures valid { IsValid machine.new }
{
    run_lending(machine, calls, limiter)
}

/// Executes calls, as `run`, but only borrows the limiter, so its state afterwards is known.
#[tactic(auto, using(std::proofs::lemmas::Grind::common_steps))]
pub fn run_lending<L: ResourceLimiter>(
    machine: &mut Machine,
    calls: &[Call],
    limiter: &mut L,
) -> Result<Vec<Reply>, AllocError>
    ensures run { IfOk result (λ replies. IsRunOf (optional_rules L.rules) calls.now
        (world machine.old (Some limiter.old)) replies.items
        (world machine.new (Some limiter.new))) }
    ensures err { OnErr result ((machine.new ≡ machine.old) × (limiter.new ≡ limiter.old)) }
    ensures valid { IsValid machine.new }
{
    machine.tell_valid();
    let mut replies = Vec::with_capacity(machine.store.alloc, calls.len())?;
    for call in calls {
        let reply = machine.step_lending(call, limiter);
        replies.push_reserved(reply);
    }
    Ok(replies)
}

/// Executes calls, as `run`, under a limiter that holds exactly what the machine has, also after.
pub fn run_reserving<L: Reserving>(
    machine: &mut Machine,
    calls: &[Call],
    limiter: &mut L,
) -> Result<Vec<Reply>, AllocError>
    requires totals { HoldsTotals (L.Reserving.holdings limiter.old) machine.old }
    ensures run { IfOk result (λ replies. IsRunOf (optional_rules L.rules) calls.now
        (world machine.old (Some limiter.old)) replies.items
        (world machine.new (Some limiter.new))) }
    ensures err { OnErr result ((machine.new ≡ machine.old) × (limiter.new ≡ limiter.old)) }
    ensures held { HoldsTotals (L.Reserving.holdings limiter.new) machine.new }
    ensures valid { IsValid machine.new }
{
    run_lending(machine, calls, limiter)
}

/// Executes calls one after another, as `run`, but puts their replies into memory that is there, in
/// place of those that it has. It takes no memory for them.
pub fn run_into<L: ResourceLimiter>(
    machine: &mut Machine,
    calls: &[Call],
    limiter: &mut ResourceLimiterRef<L>,
    replies: &mut Replies,
) -> Result<(), TooManyCalls>
    ensures loan { KeepsLoan limiter.old limiter.new }
    ensures run { OnOk result (IsRunOf (optional_rules L.rules) calls.now
        (world machine.old (lent_limiter limiter.old)) replies.new.items
        (world machine.new (lent_limiter limiter.new))) }
    ensures accepted { IsOk result ↔ (length calls.now ≤ replies.old.capacity) }
    ensures err { OnErr result ((machine.new ≡ machine.old) × (limiter.new ≡ limiter.old)
        × (replies.new ≡ replies.old)) }
    ensures capacity { replies.new.capacity ≡ replies.old.capacity }
    ensures valid { IsValid machine.new }
{
    run_into_lending(machine, calls, limiter, replies)
}

/// Executes calls, as `run_into`, but only borrows the limiter, so its state afterwards is known.
pub fn run_into_lending<L: ResourceLimiter>(
    machine: &mut Machine,
    calls: &[Call],
    limiter: &mut L,
    replies: &mut Replies,
) -> Result<(), TooManyCalls>
    ensures run { OnOk result (IsRunOf (optional_rules L.rules) calls.now
        (world machine.old (Some limiter.old)) replies.new.items
        (world machine.new (Some limiter.new))) }
    ensures accepted { IsOk result ↔ (length calls.now ≤ replies.old.capacity) }
    ensures err { OnErr result ((machine.new ≡ machine.old) × (limiter.new ≡ limiter.old)
        × (replies.new ≡ replies.old)) }
    ensures capacity { replies.new.capacity ≡ replies.old.capacity }
    ensures valid { IsValid machine.new }
{
    machine.tell_valid();
    if replies.capacity() < calls.len() {
        return Err(TooManyCalls);
    }
    replies.clear();
    for call in calls {
        let reply = machine.step_lending(call, limiter);
        replies.push(reply);
    }
    Ok(())
}

/// Executes calls, as `run_into`, under a limiter that holds what the machine has, also after.
pub fn run_into_reserving<L: Reserving>(
    machine: &mut Machine,
    calls: &[Call],
    limiter: &mut L,
    replies: &mut Replies,
) -> Result<(), TooManyCalls>
    requires totals { HoldsTotals (L.Reserving.holdings limiter.old) machine.old }
    ensures run { OnOk result (IsRunOf (optional_rules L.rules) calls.now
        (world machine.old (Some limiter.old)) replies.new.items
        (world machine.new (Some limiter.new))) }
    ensures accepted { IsOk result ↔ (length calls.now ≤ replies.old.capacity) }
    ensures err { OnErr result ((machine.new ≡ machine.old) × (limiter.new ≡ limiter.old)
        × (replies.new ≡ replies.old)) }
    ensures capacity { replies.new.capacity ≡ replies.old.capacity }
    ensures held { HoldsTotals (L.Reserving.holdings limiter.new) machine.new }
    ensures valid { IsValid machine.new }
{
    run_into_lending(machine, calls, limiter, replies)
}
