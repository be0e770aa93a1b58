//! The pool: how machines are added, removed, run and reserved for within caps, and what they hold.
ghost use Rattle.std.specs.Prelude.{◌≡◌, ◌↔◌, ◌<◌, ◌≤◌, ◌∷◌, length, [], None, IsTrue, IfOk, IfErr, OnErr, OnOk, IsErrOf, MatchOption};
ghost use Rattle.std.specs.Option.{option_map, option_copied};
ghost use Rattle.wasmi_meter.specs.declared.limiter.Kind.TheVariants.{Bytes, Elements};
ghost use Rattle.wasmi_meter.specs.Capped.{amounts_of};
ghost use Rattle.wasmi_machine.specs.State.{total};
ghost use Rattle.wasmi_machine.specs.Steps.{SomeCopy};
ghost use Rattle.wasmi_machine.specs.declared.calls.Call.TheVariants.{Write};
ghost use Rattle.wasmi_budget.specs.Pool.{IsUnasked, IsWithinCaps, machine_of, total_of, AddsTenant, IsAddRefusal, RemovesTenant, ReservesForTenant, RunsTenant, ReservesElementsForTenant};
ghost use Rattle.wasmi_budget.specs.Tenants.{HasAllUpTo};

use crate::error::{AddError, PoolError, ReserveError, RunIntoError};
use crate::tenant::CountedMachine;
use crate::tenants::Tenants;
use std::alloc::Global as Allocator;
use std::marker::Model;
use wasmi_machine::{Call, Machine, Replies, Reply, SlotCounts};
use wasmi_meter::Amounts;

/// Machines that share a cap on the bytes of their memories, and one on the elements of their
/// tables: what all of them have, with what they dropped, stays within both. Each machine is a
/// tenant; the indices of tenants count from 0. What a tenant dropped counts until it is removed.
/// What is held is kept, so it is read at no cost; it fits a `u64`, as the caps.
#[derive(Debug, Drop)]
pub struct Pool<'r> {
    caps: Amounts,
    held_by_all: Amounts,
    tenants: Tenants<'r>,
}

impl<'r> Model for Pool<'r> {
    ghost use Rattle.wasmi_budget.specs.Pool.{PoolValue, IsKept};

    ghost Value = { PoolValue };

    ghost view = { λ p. record { caps = p.caps; machines = p.tenants } };

    ghost invariant = { λ p.
        IsKept (record { caps = p.caps; machines = p.tenants }) p.held_by_all };
}

impl<'r> Pool<'r> {
    /// A pool with these caps and no tenant. It takes no memory.
    pub fn new(alloc: Allocator, bytes: u64, elements: u64) -> Pool<'r>
        ensures made { result
            ≡ record { caps = record { bytes = bytes; elements = elements }; machines = [] } }
        ensures within { IsWithinCaps result }
    {
        Pool {
            caps: Amounts { bytes, elements },
            held_by_all: Amounts::default(),
            tenants: Tenants::new(alloc),
        }
    }

    /// How many tenants were added, also removed ones, which is the index of the next one.
    pub fn len(&self) -> usize
        ensures value { result ≡ length self.now.machines }
        ensures within { IsWithinCaps self.now }
    {
        self.tenants.len()
    }

    /// Whether no tenant was added.
    pub fn is_empty(&self) -> bool
        ensures { IsTrue result ↔ (self.now.machines ≡ []) }
    {
        self.tenants.len() == 0
    }

    /// Adds a machine that has nothing yet, and returns its index. It costs what
    /// `Machine::total_bytes` and `total_elements` cost on the added machine, nothing for a new
    /// one, and a place in two vectors. No index is given twice.
    pub fn add(&mut self, machine: Machine<'r>) -> Result<usize, (AddError, Machine<'r>)>
        ensures added { IfOk result (λ index. (index ≡ length self.old.machines)
            × AddsTenant self.old machine.entry self.new) }
        ensures refused { IfErr result (λ refusal. IsAddRefusal machine.entry refusal.0) }
        ensures same { IfErr result
            (λ refusal. (refusal.1 ≡ machine.entry) × (self.new ≡ self.old)) }
        ensures within { IsWithinCaps self.new }
    {
        let index = self.tenants.len();
        if machine.total_bytes() > 0 || machine.total_elements() > 0 {
            return Err((AddError::NotEmpty, machine));
        }
        let held = Amounts::default();
        if let Err(refused) = self.tenants.push(CountedMachine { machine, held }) {
            return Err((AddError::NoRoom, refused.machine));
        }
        Ok(index)
    }

    /// Removes a tenant, if there is one, and hands its machine back. What it held, with what it
    /// dropped, can be held by others from then on. Its index is given to no other, and each later
    /// call on it finds no tenant. Those that were added after it move in memory. Nothing is kept
    /// of it but that its index was given, so a pool takes memory for the tenants that it has.
    pub fn remove(&mut self, index: usize) -> Option<Machine<'r>>
        ensures removed { MatchOption result
            ((machine_of self.old index ≡ None) × (self.new ≡ self.old))
            (λ machine. RemovesTenant self.old index machine self.new) }
        ensures within { IsWithinCaps self.new }
    {
        let CountedMachine { machine, held } = self.tenants.remove(index)?;
        self.held_by_all = Amounts {
            bytes: self.held_by_all.bytes - held.bytes,
            elements: self.held_by_all.elements - held.elements,
        };
        Some(machine)
    }

    /// Reserves so many more slots of each kind on the machine of a tenant, as `Machine::reserve`
    /// does. What is reserved counts within no cap.
    pub fn reserve(&mut self, index: usize, slots: SlotCounts) -> Result<(), ReserveError>
        ensures reserved { OnOk result (ReservesForTenant self.old index slots self.new) }
        ensures no_tenant { IsErrOf result ReserveError.NoTenant
            ↔ (machine_of self.old index ≡ None) }
        ensures refused { OnErr result (self.new ≡ self.old) }
        ensures within { IsWithinCaps self.new }
    {
        self.tenants.reserve(index, slots)
    }

    /// Reserves memory for so many elements in all of a table of a tenant, those there included, as
    /// `Machine::reserve_elements` does, with its replies. What is reserved counts within no cap.
    pub fn reserve_elements(
        &mut self,
        index: usize,
        table: usize,
        elements: u64,
    ) -> Result<Reply, PoolError>
        ensures reserved { IfOk result (λ reply. ReservesElementsForTenant self.old index table
            elements reply self.new) }
        ensures refused { IfErr result (λ error. (error ≡ PoolError.NoTenant)
            × (machine_of self.old index ≡ None) × (self.new ≡ self.old)) }
        ensures within { IsWithinCaps self.new }
    {
        let Some(reply) = self.tenants.reserve_elements(index, table, elements) else {
            return Err(PoolError::NoTenant);
        };
        Ok(reply)
    }

    /// Executes calls on the machine of a tenant, under a limiter that permits what keeps all
    /// tenants together within the caps. It costs memory for the replies, a search among the indices
    /// of the tenants, and what the calls cost, however much was made or dropped before.
    pub fn run(&mut self, index: usize, calls: &[Call]) -> Result<Vec<Reply>, PoolError>
        ensures ran { IfOk result
            (λ replies. RunsTenant self.old index calls.now replies.items self.new) }
        ensures no_tenant { IsErrOf result PoolError.NoTenant ↔ (machine_of self.old index ≡ None) }
        ensures refused { OnErr result (self.new ≡ self.old) }
        ensures within { IsWithinCaps self.new }
    {
        self.tenants
            .run(index, calls, self.caps, &mut self.held_by_all)
    }

    /// Executes calls on the machine of a tenant, as `run`, but puts their replies into memory that
    /// is there, in place of those that it has. It takes no memory for them.
    pub fn run_into(
        &mut self,
        index: usize,
        calls: &[Call],
        replies: &mut Replies,
    ) -> Result<(), RunIntoError>
        ensures ran { OnOk result (RunsTenant self.old index calls.now replies.new.items self.new) }
        ensures no_tenant { IsErrOf result RunIntoError.NoTenant
            ↔ (machine_of self.old index ≡ None) }
        ensures too_many { IsErrOf result RunIntoError.TooManyCalls
            → (replies.old.capacity < length calls.now) }
        ensures accepted { OnOk result (length calls.now ≤ replies.old.capacity) }
        ensures refused { OnErr result ((self.new ≡ self.old) × (replies.new ≡ replies.old)) }
        ensures capacity { replies.new.capacity ≡ replies.old.capacity }
        ensures within { IsWithinCaps self.new }
    {
        self.tenants
            .run_into(index, calls, self.caps, &mut self.held_by_all, replies)
    }

    /// Executes one call on the machine of a tenant, as `run` executes a list of it alone. It takes
    /// no memory for the reply. It costs a search among the indices of the tenants, none where no
    /// tenant before this one was removed, and what the call costs.
    #[inline(always)]
    pub fn step(&mut self, index: usize, call: &Call) -> Result<Reply, PoolError>
        ensures ran { IfOk result
            (λ reply. RunsTenant self.old index (call.now ∷ []) (reply ∷ []) self.new) }
        ensures refused { IfErr result (λ error. (error ≡ PoolError.NoTenant)
            × (machine_of self.old index ≡ None) × (self.new ≡ self.old)) }
        ensures within { IsWithinCaps self.new }
    {
        if let Call::Store { .. }
        | Call::Binary { .. }
        | Call::FillMemory { .. }
        | Call::CopyMemory { .. }
        | Call::InitMemory { .. }
        | Call::SetFuel(_) = call
        {
            return self.step_unasked(index, call);
        }
        let stepped = self
            .tenants
            .step(index, call, self.caps, &mut self.held_by_all);
        let Some(reply) = stepped else {
            return Err(PoolError::NoTenant);
        };
        Ok(reply)
    }

    /// Executes a call that asks no limiter, so that none is made, and what is held stays.
    #[inline(always)]
    fn step_unasked(&mut self, index: usize, call: &Call) -> Result<Reply, PoolError>
        requires unasked { IsUnasked call.now }
        ensures ran { IfOk result
            (λ reply. RunsTenant self.old index (call.now ∷ []) (reply ∷ []) self.new) }
        ensures refused { IfErr result (λ error. (error ≡ PoolError.NoTenant)
            × (machine_of self.old index ≡ None) × (self.new ≡ self.old)) }
        ensures within { IsWithinCaps self.new }
    {
        let Some(reply) = self.tenants.step_unasked(index, call) else {
            return Err(PoolError::NoTenant);
        };
        Ok(reply)
    }

    /// Writes bytes over those of a memory of a tenant from an offset on, as the call `Write` does,
    /// but those of a slice and not of a list. It takes no memory, and costs what `step` costs.
    #[inline(always)]
    pub fn write(
        &mut self,
        index: usize,
        memory: usize,
        offset: usize,
        bytes: &[u8],
    ) -> Result<Reply, PoolError>
        ensures ran { IfOk result (λ reply. SomeCopy bytes.now
            (λ copy. RunsTenant self.old index (Write memory offset copy ∷ []) (reply ∷ [])
            self.new)) }
        ensures refused { IfErr result (λ error. (error ≡ PoolError.NoTenant)
            × (machine_of self.old index ≡ None) × (self.new ≡ self.old)) }
        ensures within { IsWithinCaps self.new }
    {
        let Some(reply) = self.tenants.write(index, memory, offset, bytes) else {
            return Err(PoolError::NoTenant);
        };
        Ok(reply)
    }

    /// Whether each index up to this one has a tenant. The tenant is found without a search then.
    #[inline(always)]
    pub fn is_in_place(&self, index: usize) -> bool
        ensures { IsTrue result ↔ HasAllUpTo self.now.machines index }
    {
        self.tenants.is_in_place(index)
    }

    /// The machine of a tenant, if one has the index.
    #[inline(always)]
    pub fn machine(&self, index: usize) -> Option<&Machine<'r>>
        ensures machine { option_copied result ≡ machine_of self.now index }
        ensures within { IsWithinCaps self.now }
    {
        Some(&self.tenants.get(index)?.machine)
    }

    /// The bytes of a tenant's memories, including those that it dropped.
    pub fn held_bytes(&self, index: usize) -> Option<u64>
        ensures { result ≡ option_map (λ s. total s Bytes) (machine_of self.now index) }
    {
        Some(self.held(index)?.bytes)
    }

    /// The elements of a tenant's tables, including those that it dropped.
    pub fn held_elements(&self, index: usize) -> Option<u64>
        ensures { result ≡ option_map (λ s. total s Elements) (machine_of self.now index) }
    {
        Some(self.held(index)?.elements)
    }

    /// The bytes of all memories and the elements of all tables of the tenants, also dropped ones.
    pub fn held_by_all(&self) -> Amounts
        ensures { result ≡ amounts_of (total_of self.now.machines) }
    {
        self.held_by_all
    }

    #[inline(always)]
    fn held(&self, index: usize) -> Option<Amounts>
        ensures { result ≡ option_map (λ s. amounts_of (total s)) (machine_of self.now index) }
    {
        Some(self.tenants.get(index)?.held)
    }
}
