//! One machine of a pool with the amounts it has, the calls on it, and its limiter, the tenant.
ghost use Rattle.std.specs.Prelude.{◌≡◌, ◌≤◌, ◌<◌, ◌^◌, ◌∷◌, ◌↔◌, [], Some, IsErrOf, IsTrue, IfErr, IfOk, OnErr, OnOk, length};
ghost use Rattle.wasmi_meter.specs.declared.limiter.Kind.{Kind};
ghost use Rattle.wasmi_meter.specs.Capped.{amounts_of, held_together};
ghost use Rattle.wasmi_meter.specs.Limiter.{optional_rules};
ghost use Rattle.wasmi_machine.specs.Steps.{RepliesWith, SomeCopy};
ghost use Rattle.wasmi_machine.specs.State.{total, with_reserved, world, IsRefusal};
ghost use Rattle.wasmi_budget.specs.Pool.{holdings, capped_tenant, tenant_rules, tenant_of, held_before, IsPart, RunsAsPart, IsUnasked, RepliesUnasked, ReservesElements};
ghost use Rattle.wasmi_machine.specs.declared.calls.Call.TheVariants.{Write};

use crate::error::{PoolError, RunIntoError};
use std::alloc::AllocError;
use std::marker::Model;
use wasmi_machine::{Call, Machine, Replies, Reply, SlotCounts, run_into_reserving, run_reserving};
use wasmi_meter::{Amounts, CappedLimiter, Holdings, Kind, ResourceLimiterRef};

/// The limiter of one machine of a pool: it permits what keeps all tenants together within the
/// caps, and denies the rest. It counts each difference it permitted. At a notice it takes back the
/// last one if that is of the same kind, once. What the others hold stays while its machine runs.
#[derive(Clone, Copy, Debug)]
pub struct Tenant {
    caps: Amounts,
    others: Amounts,
    holdings: Holdings,
}

impl Tenant {
    /// A tenant that holds so much of what all tenants hold, under the caps.
    fn new(caps: Amounts, all: Amounts, held: Amounts) -> Self
        requires bytes { held.bytes ≤ all.bytes }
        requires elements { held.elements ≤ all.elements }
        ensures value { result ≡ tenant_of caps all held }
    {
        Tenant {
            caps,
            others: Amounts {
                bytes: all.bytes - held.bytes,
                elements: all.elements - held.elements,
            },
            holdings: Holdings::new(held),
        }
    }

    fn held_by_all(&self) -> Amounts
        requires fits { (kind : Kind) → held_together capped_tenant self.now kind < 2 ^ 64 }
        ensures value { result ≡ amounts_of (held_together capped_tenant self.now) }
    {
        let held = self.holdings.held();
        Amounts {
            bytes: self.others.bytes + held.bytes,
            elements: self.others.elements + held.elements,
        }
    }

    /// Leaves what it holds, and what all tenants hold, in the place of what it held and what all
    /// held before. Nothing is written where it holds as much, as it does after most calls: it
    /// takes longer to read both amounts at once after each was written by itself.
    #[inline(always)]
    fn leave(&self, held: &mut Amounts, all: &mut Amounts)
        requires fits { (kind : Kind) → held_together capped_tenant self.now kind < 2 ^ 64 }
        requires before { all.old ≡ amounts_of (held_before self.now held.old) }
        ensures held { held.new ≡ (holdings self.now).held }
        ensures all { all.new ≡ amounts_of (held_together capped_tenant self.now) }
    {
        let now = self.holdings.held();
        if held.bytes != now.bytes || held.elements != now.elements {
            *held = now;
            *all = self.held_by_all();
        }
    }
}

impl CappedLimiter for Tenant {
    ghost capped = { capped_tenant };

    fn holdings(&self) -> Holdings {
        self.holdings
    }

    fn take(&mut self, kind: Kind, difference: u64) -> bool {
        self.holdings
            .take(kind, difference, self.others.of(kind), self.caps.of(kind))
    }

    fn give_back(&mut self, kind: Kind) {
        self.holdings.give_back(kind);
    }
}

/// A machine, with what its memories and tables have, dropped ones with their last size. So what
/// it has is known without a walk over them.
#[derive(Debug, Drop)]
pub(crate) struct CountedMachine<'r> {
    pub(crate) machine: Machine<'r>,
    pub(crate) held: Amounts,
}

impl<'r> Model for CountedMachine<'r> {
    ghost use Rattle.std.specs.Prelude.{◌≡◌};
    ghost use Rattle.wasmi_meter.specs.Capped.{amounts_of};
    ghost use Rattle.wasmi_machine.specs.State.{State, total};

    ghost Value = { State };

    ghost view = { λ m. m.machine };

    ghost invariant = { λ m. m.held ≡ amounts_of (total m.machine) };
}

impl<'r> CountedMachine<'r> {
    /// Reserves so many more slots. What the machine has stays, so no tenant holds it.
    pub(crate) fn reserve(&mut self, slots: SlotCounts) -> Result<(), AllocError>
        ensures reserved { OnOk result (self.new ≡ with_reserved self.old slots) }
        ensures refused { OnErr result (self.new ≡ self.old) }
    {
        self.machine.reserve(slots)
    }

    /// Reserves memory for so many elements in all of a table. No tenant holds it, as at `reserve`.
    pub(crate) fn reserve_elements(&mut self, table: usize, elements: u64) -> Reply
        ensures reserved { ReservesElements self.old table elements result self.new }
    {
        self.machine.reserve_elements(table, elements)
    }

    /// Executes calls under its limiter in a pool with these caps, whose tenants hold `all`, which
    /// becomes what they hold afterwards.
    pub(crate) fn run(
        &mut self,
        calls: &[Call],
        caps: Amounts,
        all: &mut Amounts,
    ) -> Result<Vec<Reply>, PoolError>
        requires part { IsPart caps all.old self.old }
        ensures run { IfOk result (λ replies. RunsAsPart caps all.old self.old calls.now
            replies.items self.new all.new) }
        ensures err { IfErr result (λ error. (error ≡ PoolError.OutOfMemory)
            × (self.new ≡ self.old) × (all.new ≡ all.old)) }
    {
        let mut tenant = Tenant::new(caps, *all, self.held);
        let replies = run_reserving(&mut self.machine, calls, &mut tenant)?;
        tenant.leave(&mut self.held, all);
        Ok(replies)
    }

    /// Executes calls, as `run`, but puts their replies into memory that is there.
    pub(crate) fn run_into(
        &mut self,
        calls: &[Call],
        caps: Amounts,
        all: &mut Amounts,
        replies: &mut Replies,
    ) -> Result<(), RunIntoError>
        requires part { IsPart caps all.old self.old }
        ensures run { OnOk result (RunsAsPart caps all.old self.old calls.now replies.new.items
            self.new all.new) }
        ensures too_many { IsErrOf result RunIntoError.TooManyCalls
            → (replies.old.capacity < length calls.now) }
        ensures accepted { OnOk result (length calls.now ≤ replies.old.capacity) }
        ensures err { IfErr result (λ error. (error ≡ RunIntoError.TooManyCalls)
            × (self.new ≡ self.old) × (all.new ≡ all.old)) }
        ensures same { OnErr result (replies.new ≡ replies.old) }
        ensures capacity { replies.new.capacity ≡ replies.old.capacity }
    {
        let mut tenant = Tenant::new(caps, *all, self.held);
        run_into_reserving(&mut self.machine, calls, &mut tenant, replies)?;
        tenant.leave(&mut self.held, all);
        Ok(())
    }

    /// Executes one call, as `run` executes a list of it alone. It takes no memory for the reply.
    #[inline(always)]
    pub(crate) fn step(&mut self, call: &Call, caps: Amounts, all: &mut Amounts) -> Reply
        requires part { IsPart caps all.old self.old }
        ensures run { RunsAsPart caps all.old self.old (call.now ∷ []) (result ∷ []) self.new
            all.new }
    {
        let mut tenant = Tenant::new(caps, *all, self.held);
        let reply = step_lending(&mut self.machine, call, &mut tenant);
        if !is_refused_growth(&reply) {
            tenant.leave(&mut self.held, all);
        }
        reply
    }

    /// Writes bytes over those of a memory, which asks no limiter. What the machine has stays.
    #[inline(always)]
    pub(crate) fn write(&mut self, memory: usize, offset: usize, bytes: &[u8]) -> Reply
        ensures replied { SomeCopy bytes.now
            (λ copy. RepliesUnasked (Write memory offset copy) self.old result self.new) }
    {
        self.machine.write(memory, offset, bytes)
    }

    /// Executes one call that asks no limiter. What the machine has stays, so no tenant holds it.
    #[inline(always)]
    pub(crate) fn step_unasked(&mut self, call: &Call) -> Reply
        requires unasked { IsUnasked call.now }
        ensures replied { RepliesUnasked call.now self.old result self.new }
    {
        step_without_tenant(&mut self.machine, call)
    }
}

/// Whether a reply is a memory's or table's error, after which a tenant's machine has what it had.
#[inline(always)]
fn is_refused_growth(reply: &Reply) -> bool
    ensures { IsTrue result → IsRefusal reply.now }
{
    matches!(reply, Reply::Memory(_) | Reply::Table(_))
}

/// Executes one call under a limiter that is known again afterwards.
#[inline(always)]
fn step_lending(machine: &mut Machine, call: &Call, tenant: &mut Tenant) -> Reply
    ensures { RepliesWith (optional_rules tenant_rules) call.now
        (world machine.old (Some tenant.old)) result (world machine.new (Some tenant.new)) }
{
    // By itself, so that a growth by plain arguments is no `Call` in memory.
    if let Call::GrowMemory { memory, pages } = call {
        return machine.grow_memory_lending(*memory, *pages, tenant);
    }
    machine.step_lending(call, tenant)
}

/// Executes one call that asks no limiter on a machine, whatever its tenant is.
#[inline(always)]
fn step_without_tenant(machine: &mut Machine, call: &Call) -> Reply
    requires unasked { IsUnasked call.now }
    ensures replied { RepliesUnasked call.now machine.old result machine.new }
{
    match call {
        Call::Store {
            op,
            memory,
            ptr,
            offset,
            value,
        } => machine.store_item(*op, *memory, *ptr, *offset, *value),
        _ => {
            let mut nobody = ResourceLimiterRef::<Tenant>::default();
            machine.step(call, &mut nobody)
        }
    }
}
