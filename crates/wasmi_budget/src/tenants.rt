//! The machines of a pool at their indices: where an index lies, and what is done with its machine.
ghost use Rattle.std.specs.Prelude.{◌≡◌, ◌∷◌, ◌++◌, ◌↔◌, ◌<◌, ◌≤◌, [], length, slice_index_or, slice_set, None, Some, MatchOption, IfOk, IfErr, OnErr, OnOk, IsErrOf, IsTrue};
ghost use Rattle.std.specs.Option.{option_copied};
ghost use Rattle.wasmi_machine.specs.Steps.{SomeCopy};
ghost use Rattle.wasmi_machine.specs.declared.calls.Call.TheVariants.{Write};
ghost use Rattle.wasmi_budget.specs.Pool.{pool_of, IsKept, IsUnasked, ReservesAt, RunsTenant, RunsUnasked, ReservesElementsIn};
ghost use Rattle.wasmi_budget.specs.Tenants.{HasAllUpTo, IsPlace, Rises};

use crate::error::{PoolError, ReserveError, RunIntoError};
use crate::tenant::CountedMachine;
use std::alloc::Global as Allocator;
use std::marker::Model;
use wasmi_machine::{Call, Replies, Reply, SlotCounts};
use wasmi_meter::Amounts;

/// Whether an index lies at the place that it names.
#[inline(always)]
fn is_own_place(indices: &[usize], index: usize) -> bool
    ensures { IsTrue result ↔ IsPlace indices.now index (Some index) }
{
    index < indices.len() && indices[index] == index
}

/// The place of an index among rising ones, if it is one of them. It is found without a search
/// where no machine before it was removed.
#[inline(always)]
fn place_of(indices: &[usize], index: usize) -> Option<usize>
    requires rises { Rises indices.now }
    ensures found { IsPlace indices.now index result }
{
    if is_own_place(indices, index) {
        return Some(index);
    }
    indices.binary_search(&index).ok()
}

/// Machines at indices that are given in order, each once. One that was removed keeps no memory.
#[derive(Debug, Drop)]
pub(crate) struct Tenants<'r> {
    /// The next index that is given.
    next: usize,
    /// The indices of the machines, which rise.
    indices: Vec<usize>,
    machines: Vec<CountedMachine<'r>>,
}

impl<'r> Model for Tenants<'r> {
    ghost use Rattle.std.specs.Prelude.{List, Option};
    ghost use Rattle.wasmi_machine.specs.State.{State};
    ghost use Rattle.wasmi_budget.specs.Tenants.{by_index, IsListed};

    ghost Value = { List (Option State) };

    ghost view = { λ t. by_index t.next t.indices.items t.machines.items };

    ghost invariant = { λ t. IsListed t.next t.indices.items t.machines.items };
}

impl<'r> Tenants<'r> {
    /// No index was given yet. It takes no memory.
    pub(crate) fn new(alloc: Allocator) -> Self
        ensures { result ≡ [] }
    {
        Tenants {
            next: 0,
            indices: Vec::new(alloc),
            machines: Vec::new(alloc),
        }
    }

    pub(crate) fn len(&self) -> usize
        ensures { result ≡ length self.now }
    {
        self.next
    }

    /// Whether each index up to this one has a machine.
    #[inline(always)]
    pub(crate) fn is_in_place(&self, index: usize) -> bool
        ensures { IsTrue result ↔ HasAllUpTo self.now index }
    {
        is_own_place(&self.indices, index)
    }

    #[inline(always)]
    pub(crate) fn get(&self, index: usize) -> Option<&CountedMachine<'r>>
        ensures { option_copied result ≡ slice_index_or self.now index None }
    {
        let place = place_of(&self.indices, index)?;
        Some(&self.machines[place])
    }

    /// Puts a machine at the next index, or hands it back if memory is refused or no index is left.
    pub(crate) fn push(&mut self, machine: CountedMachine<'r>) -> Result<(), CountedMachine<'r>>
        ensures added { OnOk result (self.new ≡ self.old ++ Some machine.entry ∷ []) }
        ensures refused { IfErr result (λ back. (back ≡ machine.entry) × (self.new ≡ self.old)) }
    {
        let index = self.next;
        let Some(next) = index.checked_add(1) else {
            return Err(machine);
        };
        if self.indices.try_reserve(1).is_err() || self.machines.try_reserve(1).is_err() {
            return Err(machine);
        }
        self.indices.push_reserved(index);
        self.machines.push_reserved(machine);
        self.next = next;
        Ok(())
    }

    /// Takes the machine at an index out, if there is one.
    pub(crate) fn remove(&mut self, index: usize) -> Option<CountedMachine<'r>>
        ensures { MatchOption result
            ((slice_index_or self.old index None ≡ None) × (self.new ≡ self.old))
            (λ machine. (slice_index_or self.old index None ≡ Some machine)
            × (self.new ≡ slice_set self.old index None)) }
    {
        let place = place_of(&self.indices, index)?;
        self.indices.remove(place);
        Some(self.machines.remove(place))
    }

    /// Reserves so many more slots of the machine at an index.
    pub(crate) fn reserve(&mut self, index: usize, slots: SlotCounts) -> Result<(), ReserveError>
        ensures reserved { OnOk result (ReservesAt self.old index slots self.new) }
        ensures no_tenant { IsErrOf result ReserveError.NoTenant
            ↔ (slice_index_or self.old index None ≡ None) }
        ensures refused { OnErr result (self.new ≡ self.old) }
    {
        let Some(place) = place_of(&self.indices, index) else {
            return Err(ReserveError::NoTenant);
        };
        let counted = &mut self.machines[place];
        counted.reserve(slots)?;
        Ok(())
    }

    /// Reserves memory for so many elements in all of a table of the machine at an index, if any.
    pub(crate) fn reserve_elements(
        &mut self,
        index: usize,
        table: usize,
        elements: u64,
    ) -> Option<Reply>
        ensures reserved { MatchOption result
            ((slice_index_or self.old index None ≡ None) × (self.new ≡ self.old))
            (λ reply. ReservesElementsIn self.old index table elements reply self.new) }
    {
        let place = place_of(&self.indices, index)?;
        Some(self.machines[place].reserve_elements(table, elements))
    }

    /// Executes calls on the machine at an index, under its limiter in a pool with these caps, whose
    /// tenants hold `all`, which becomes what they hold afterwards.
    pub(crate) fn run(
        &mut self,
        index: usize,
        calls: &[Call],
        caps: Amounts,
        all: &mut Amounts,
    ) -> Result<Vec<Reply>, PoolError>
        requires kept { IsKept (pool_of caps self.old) all.old }
        ensures ran { IfOk result (λ replies. RunsTenant (pool_of caps self.old) index calls.now
            replies.items (pool_of caps self.new)) }
        ensures no_tenant { IsErrOf result PoolError.NoTenant
            ↔ (slice_index_or self.old index None ≡ None) }
        ensures refused { OnErr result (self.new ≡ self.old) }
        ensures kept { IsKept (pool_of caps self.new) all.new }
    {
        let Some(place) = place_of(&self.indices, index) else {
            return Err(PoolError::NoTenant);
        };
        let machine = &mut self.machines[place];
        machine.run(calls, caps, all)
    }

    /// Executes calls, as `run`, but puts their replies into memory that is there.
    pub(crate) fn run_into(
        &mut self,
        index: usize,
        calls: &[Call],
        caps: Amounts,
        all: &mut Amounts,
        replies: &mut Replies,
    ) -> Result<(), RunIntoError>
        requires kept { IsKept (pool_of caps self.old) all.old }
        ensures ran { OnOk result (RunsTenant (pool_of caps self.old) index calls.now
            replies.new.items (pool_of caps self.new)) }
        ensures no_tenant { IsErrOf result RunIntoError.NoTenant
            ↔ (slice_index_or self.old index None ≡ None) }
        ensures too_many { IsErrOf result RunIntoError.TooManyCalls
            → (replies.old.capacity < length calls.now) }
        ensures accepted { OnOk result (length calls.now ≤ replies.old.capacity) }
        ensures refused { OnErr result ((self.new ≡ self.old) × (replies.new ≡ replies.old)) }
        ensures capacity { replies.new.capacity ≡ replies.old.capacity }
        ensures kept { IsKept (pool_of caps self.new) all.new }
    {
        let Some(place) = place_of(&self.indices, index) else {
            return Err(RunIntoError::NoTenant);
        };
        let counted = &mut self.machines[place];
        counted.run_into(calls, caps, all, replies)
    }

    /// Executes one call on the machine at an index, if any, as `run` executes a list of it alone.
    #[inline(always)]
    pub(crate) fn step(
        &mut self,
        index: usize,
        call: &Call,
        caps: Amounts,
        all: &mut Amounts,
    ) -> Option<Reply>
        requires kept { IsKept (pool_of caps self.old) all.old }
        ensures stepped { MatchOption result
            ((slice_index_or self.old index None ≡ None) × (self.new ≡ self.old))
            (λ reply. RunsTenant (pool_of caps self.old) index (call.now ∷ []) (reply ∷ [])
            (pool_of caps self.new)) }
        ensures kept { IsKept (pool_of caps self.new) all.new }
    {
        let place = place_of(&self.indices, index)?;
        Some(self.machines[place].step(call, caps, all))
    }

    /// Writes bytes over those of a memory of the machine at an index, if there is one.
    #[inline(always)]
    pub(crate) fn write(
        &mut self,
        index: usize,
        memory: usize,
        offset: usize,
        bytes: &[u8],
    ) -> Option<Reply>
        ensures stepped { MatchOption result
            ((slice_index_or self.old index None ≡ None) × (self.new ≡ self.old))
            (λ reply. SomeCopy bytes.now
            (λ copy. RunsUnasked self.old index (Write memory offset copy) reply self.new)) }
    {
        let place = place_of(&self.indices, index)?;
        Some(self.machines[place].write(memory, offset, bytes))
    }

    /// Executes one call that asks no limiter on the machine at an index, if there is one.
    #[inline(always)]
    pub(crate) fn step_unasked(&mut self, index: usize, call: &Call) -> Option<Reply>
        requires unasked { IsUnasked call.now }
        ensures stepped { MatchOption result
            ((slice_index_or self.old index None ≡ None) × (self.new ≡ self.old))
            (λ reply. RunsUnasked self.old index call.now reply self.new) }
    {
        let place = place_of(&self.indices, index)?;
        Some(self.machines[place].step_unasked(call))
    }
}
