//! Slots: what was made, at the index of its making, and total sizes; lists with memory for more.
ghost use Rattle.std.specs.Prelude.{◌≡◌, ◌+◌, ◌<◌, ◌≤◌, ◌++◌, ℕ, [], ◌∷◌, length, map, max, sum, IsSome, IfSome, IfNone, OnErr, OnOk, Some, slice_get, slice_set};
ghost use Rattle.std.specs.Borrow.{sem, Lends, LendsIf};
ghost use Rattle.std.specs.Option.{option_copied, option_copied_mut};
ghost use Rattle.wasmi_store.specs.Table.{size_of};
ghost use Rattle.wasmi_machine.specs.Effects.{DropsAt, reply_or_no_such};
ghost use Rattle.wasmi_machine.specs.ReservedList.{with_item};
ghost use Rattle.wasmi_machine.specs.State.{live_value, live_at, with_live, slot_count};
ghost use Rattle.wasmi_machine.specs.declared.slots.Slot.TheVariants.{Gone, Live};

use crate::calls::Reply;
use std::alloc::{AllocError, Global};
use std::marker::Model;
use std::mem;
use wasmi_store::{Memory, Table};

/// What counts in a machine's totals: a memory by its bytes, a table by its elements.
pub(crate) trait Counted {
    /// How many it has.
    ghost count: { Self → ℕ };

    fn count(&self) -> u64
        ensures { result ≡ count self.now };
}

impl<'r> Counted for Memory<'r> {
    ghost use Rattle.wasmi_store.specs.Memory.{MemoryValue};

    ghost count = { λ x. length x.bytes };

    fn count(&self) -> u64 {
        self.data_size() as u64
    }
}

impl Counted for Table {
    ghost count = { size_of };

    fn count(&self) -> u64 {
        self.size()
    }
}

/// A live value, or the size of one when it was dropped.
#[derive(Drop)]
pub(crate) enum Slot<T> {
    Live(T),
    Gone(u64),
}

impl<T> Slot<T> {
    ghost use Rattle.wasmi_machine.specs.contracts.slots.Slot.{the_row};

    fn value_mut(&mut self) -> &mut T
        requires live { IsSome (live_value self.old) }
        ensures* writes_back { sem 𝓛 (Lends (the_row T.row) T.row self.entry result Live) }
        ensures value { live_value self.old ≡ Some result.now }
    {
        match self {
            Slot::Live(value) => value,
            Slot::Gone(_) => unreachable!(),
        }
    }

    /// How many bytes or elements it has, or had when it was dropped.
    fn count(&self) -> u64
    where
        T: Counted,
        ensures { result ≡ slot_count T.Counted.count self.now }
    {
        match self {
            Slot::Live(value) => value.count(),
            Slot::Gone(last) => *last,
        }
    }
}

/// How many slots of each kind.
#[derive(Clone, Copy, Debug, Default)]
pub struct SlotCounts {
    /// Of memories.
    pub memories: usize,
    /// Of tables.
    pub tables: usize,
    /// Of element segments.
    pub segments: usize,
    /// Of data segments.
    pub data_segments: usize,
    /// Of globals.
    pub globals: usize,
}

/// Slots by their indices, which count from 0.
#[derive(Drop)]
pub(crate) struct Slots<T> {
    pub(crate) slots: ReservedList<Slot<T>>,
}

impl<T> Slots<T> {
    ghost use Rattle.wasmi_machine.specs.contracts.slots.Slots.{the_row};

    /// No slot yet, and none reserved. It takes no memory.
    pub(crate) fn new(alloc: Global) -> Self
        ensures { result.slots ≡ record { items = []; reserved = 0; capacity = 0 } }
    {
        Slots {
            slots: ReservedList::new(alloc),
        }
    }

    /// The live value of an index, if there is one.
    #[tactic(auto, using(std::proofs::lemmas::Grind::elements))]
    pub(crate) fn live(&self, index: usize) -> Option<&T>
        ensures { option_copied result ≡ live_at self.now.slots.items index }
    {
        match self.slots.get(index) {
            Some(Slot::Live(value)) => Some(value),
            _ => None,
        }
    }

    /// The live value of an index, if there is one, to be changed.
    pub(crate) fn live_mut(&mut self, index: usize) -> Option<&mut T>
        ensures* writes_back { sem 𝓛 (LendsIf (the_row T.row) T.row self.entry result
            (with_live self.old index) self.old) }
        ensures value { option_copied_mut result ≡ live_at self.old.slots.items index }
    {
        if self.live(index).is_some() {
            Some(self.value_mut(index))
        } else {
            None
        }
    }

    #[tactic(auto, using(std::proofs::lemmas::Grind::elements))]
    fn value_mut(&mut self, index: usize) -> &mut T
        requires live { IsSome (live_at self.old.slots.items index) }
        ensures* writes_back { sem 𝓛
            (Lends (the_row T.row) T.row self.entry result (with_live self.old index)) }
        ensures value { live_at self.old.slots.items index ≡ Some result.now }
    {
        self.slots.item_mut(index).value_mut()
    }

    /// Takes the live value of an index out of its slot, if there is one, so that it can be changed
    /// while another one is read. The slot counts nothing until a value is put into it.
    pub(crate) fn take(&mut self, index: usize) -> Option<T>
        ensures value { result ≡ live_at self.old.slots.items index }
        ensures taken { IfSome result
            (λ x. self.new.slots.items ≡ slice_set self.old.slots.items index (Gone 0)) }
        ensures none { IfNone result (self.new.slots.items ≡ self.old.slots.items) }
        ensures reserved { self.new.slots.reserved ≡ self.old.slots.reserved }
    {
        if self.live(index).is_none() {
            return None;
        }
        match mem::replace(self.slots.item_mut(index), Slot::Gone(0)) {
            Slot::Live(value) => Some(value),
            Slot::Gone(_) => unreachable!(),
        }
    }

    /// Puts a value into a new slot, and returns its index.
    pub(crate) fn push(&mut self, value: T) -> usize
    where
        T: Drop,
        requires room { length self.old.slots.items < self.old.slots.capacity }
        ensures index { result ≡ length self.old.slots.items }
        ensures slots { self.new.slots.items ≡ self.old.slots.items ++ Live value ∷ [] }
        ensures reserved { self.new.slots.reserved ≡ self.old.slots.reserved }
    {
        self.slots.push(Slot::Live(value))
    }
}

impl<T: Counted> Slots<T> {
    /// Drops the live value of an index, and keeps how many it had.
    pub(crate) fn drop_live(&mut self, index: usize) -> Option<Reply>
    where
        T: Drop,
        ensures dropped { DropsAt T.Counted.count index self.old.slots.items
            (reply_or_no_such result) self.new.slots.items }
        ensures reserved { self.new.slots.reserved ≡ self.old.slots.reserved }
    {
        let last = self.live(index)?.count();
        *self.slots.item_mut(index) = Slot::Gone(last);
        Some(Reply::Done)
    }

    /// How many bytes or elements all of them have; dropped ones count with their last size.
    pub(crate) fn total(&self) -> u128
        ensures { result ≡ sum (map (slot_count T.Counted.count) self.now.slots.items) }
    {
        let mut total = 0;
        for slot in self.slots.as_slice() {
            total += slot.count() as u128;
        }
        total
    }
}

/// Items by their indices, which count from 0. Up to as many as are reserved, those that are there
/// included, one more takes no memory.
#[derive(Drop)]
pub(crate) struct ReservedList<T> {
    items: Vec<T>,
    reserved: usize,
}

impl<T> Model for ReservedList<T> {
    ghost use Rattle.std.specs.Prelude.{◌≤◌};
    ghost use Rattle.std.specs.Vec.{vec_capacity};
    ghost use Rattle.wasmi_machine.specs.ReservedList.{ReservedListValue};

    ghost Value = { ReservedListValue T };

    ghost view = { λ list. record
        { items = list.items.items; reserved = list.reserved; capacity = vec_capacity list.items } };

    ghost invariant = { λ list. list.reserved ≤ vec_capacity list.items };
}

impl<T> ReservedList<T> {
    ghost use Rattle.wasmi_machine.specs.contracts.slots.ReservedList.{the_row};

    /// No item yet, and none reserved. It takes no memory.
    pub(crate) fn new(alloc: Global) -> Self
        ensures { result ≡ record { items = []; reserved = 0; capacity = 0 } }
    {
        ReservedList {
            items: Vec::new(alloc),
            reserved: 0,
        }
    }

    pub(crate) fn as_slice(&self) -> &[T]
        ensures { result.now ≡ self.now.items }
    {
        self.items.as_slice()
    }

    pub(crate) fn get(&self, index: usize) -> Option<&T>
        ensures { option_copied result ≡ slice_get self.now.items index }
    {
        self.items.get(index)
    }

    /// The item of an index, to be changed.
    pub(crate) fn item_mut(&mut self, index: usize) -> &mut T
        requires there { index < length self.old.items }
        ensures* writes_back { sem 𝓛
            (Lends (the_row T.row) T.row self.entry result (with_item self.old index)) }
        ensures value { slice_get self.old.items index ≡ Some result.now }
    {
        &mut self.items[index]
    }

    /// The item of an index, if there is one, to be changed.
    pub(crate) fn get_mut(&mut self, index: usize) -> Option<&mut T>
        ensures* writes_back { sem 𝓛
            (LendsIf (the_row T.row) T.row self.entry result (with_item self.old index) self.old) }
        ensures value { option_copied_mut result ≡ slice_get self.old.items index }
    {
        self.items.get_mut(index)
    }

    /// Asks for memory for so many more items, unless it is there.
    pub(crate) fn try_reserve(&mut self, additional: usize) -> Result<(), AllocError>
        ensures items { self.new.items ≡ self.old.items }
        ensures reserved { self.new.reserved ≡ self.old.reserved }
        ensures had { OnOk result (length self.old.items + additional ≤ self.new.capacity) }
        ensures refused { OnErr result (self.old.reserved < length self.old.items + additional) }
    {
        self.items.try_reserve(additional)
    }

    /// Reserves so many more items, for which there is memory.
    pub(crate) fn keep_reserved(&mut self, additional: usize)
        requires room { length self.old.items + additional ≤ self.old.capacity }
        ensures reserved { self.new ≡ record self.old
            { reserved = max self.old.reserved (length self.old.items + additional) } }
    {
        self.reserved = self.reserved.max(self.items.len() + additional);
    }

    /// Adds an item, for which there is memory, and returns its index.
    pub(crate) fn push(&mut self, item: T) -> usize
    where
        T: Drop,
        requires room { length self.old.items < self.old.capacity }
        ensures index { result ≡ length self.old.items }
        ensures items { self.new ≡ record self.old { items = self.old.items ++ item ∷ [] } }
    {
        let index = self.items.len();
        self.items.push_reserved(item);
        index
    }
}
