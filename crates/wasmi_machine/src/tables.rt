//! What calls do to the tables of a machine, by their indices, and the replies to calls on tables.
ghost use Rattle.std.specs.Prelude.{◌≡◌, ◌≤◌, length, Some};
ghost use Rattle.std.specs.Option.{option_copied, option_map};
ghost use Rattle.wasmi_meter.specs.Limiter.{optional_rules};
ghost use Rattle.wasmi_store.specs.Growth.{metered_value, metered, WithCharge};
ghost use Rattle.wasmi_store.specs.Table.{MakesTable, GrowsTableCharging, filling_of, copy_of, initialization_of};
ghost use Rattle.wasmi_machine.specs.Effects.{reply_of, reply_or_no_such, ActsAt, Creates, IfNoRoom, WritesRangeAt, WritesAt, WritesFrom};
ghost use Rattle.wasmi_machine.specs.TableEffects.{element_reply, ReservesElementsAt, SetsElementAt};
ghost use Rattle.wasmi_machine.specs.State.{live_at};

use crate::calls::Reply;
use crate::slots::{Slot, Slots};
use std::alloc::Global;
use wasmi_meter::{Fuel, ResourceLimiter, TableError};
use wasmi_store::{ElementSegment, ElementSegmentRef, Table, TableType};
use wasmi_typed::TypedRawRef;

impl Slots<Table> {
    /// Makes a table in a new slot, which is reserved before the limiter is asked.
    pub(crate) fn create<L: ResourceLimiter>(
        &mut self,
        alloc: Global,
        ty: TableType,
        init: TypedRawRef,
        limiter: &mut L,
    ) -> Reply
        ensures made { Creates Reply.Table
            (MakesTable (optional_rules L.rules) ty init) self.old.slots.items
            (Some limiter.old) result self.new.slots.items (Some limiter.new) }
        ensures room { IfNoRoom result (self.old.slots.reserved ≤ length self.old.slots.items) }
        ensures reserved { self.new.slots.reserved ≡ self.old.slots.reserved }
    {
        if self.slots.try_reserve(1).is_err() {
            return Reply::NoRoom;
        }
        match Table::new_lending(alloc, ty, init, limiter) {
            Ok(table) => Reply::Made(self.push(table)),
            Err(error) => Reply::Table(error),
        }
    }

    pub(crate) fn grow<L: ResourceLimiter>(
        &mut self,
        index: usize,
        delta: u64,
        init: TypedRawRef,
        fuel: &mut Fuel,
        limiter: &mut L,
    ) -> Option<Reply>
        ensures grown { WithCharge (ActsAt index (reply_of Reply.Number Reply.Table)
            (GrowsTableCharging (optional_rules L.rules) delta init))
            (metered_value self.old.slots.items (Some fuel.old) (Some limiter.old))
            (reply_or_no_such result)
            (metered_value self.new.slots.items (Some fuel.new) (Some limiter.new)) }
        ensures reserved { self.new.slots.reserved ≡ self.old.slots.reserved }
    {
        let table = self.live_mut(index)?;
        let grown = table.grow_lending(delta, init, fuel, limiter);
        Some(grown.map_or_else(Reply::Table, Reply::Number))
    }

    /// Reserves memory for so many elements of a table in all.
    pub(crate) fn reserve(&mut self, index: usize, elements: u64) -> Option<Reply>
        ensures elements { ReservesElementsAt index elements self.old.slots.items
            (reply_or_no_such result) self.new.slots.items }
        ensures reserved { self.new.slots.reserved ≡ self.old.slots.reserved }
    {
        let table = self.live_mut(index)?;
        match table.reserve(elements) {
            Ok(()) => Some(Reply::Done),
            Err(_) => Some(Reply::NoRoom),
        }
    }

    /// The element of a table at an index, as a reply.
    #[inline(always)]
    pub(crate) fn get(&self, index: usize, element: u64) -> Option<Reply>
        ensures { reply_or_no_such result
            ≡ element_reply element (live_at self.now.slots.items index) }
    {
        Some(Reply::Reference(self.live(index)?.get(element)))
    }

    pub(crate) fn set(&mut self, index: usize, element: u64, value: TypedRawRef) -> Option<Reply>
        ensures set { SetsElementAt index element value self.old.slots.items
            (reply_or_no_such result) self.new.slots.items }
        ensures reserved { self.new.slots.reserved ≡ self.old.slots.reserved }
    {
        let table = self.live_mut(index)?;
        Some(table_reply(table.set(element, value)))
    }

    pub(crate) fn fill(
        &mut self,
        index: usize,
        dst: u64,
        value: TypedRawRef,
        len: u64,
        fuel: &mut Fuel,
    ) -> Option<Reply>
        ensures filled { WithCharge (WritesAt Reply.Table index (filling_of dst value len))
            (metered self.old.slots.items (Some fuel.old)) (reply_or_no_such result)
            (metered self.new.slots.items (Some fuel.new)) }
        ensures reserved { self.new.slots.reserved ≡ self.old.slots.reserved }
    {
        let table = self.live_mut(index)?;
        Some(table_reply(table.fill_metered(dst, value, len, fuel)))
    }

    /// Initializes a part of a table from an element segment, if there is one.
    pub(crate) fn init(
        &mut self,
        index: usize,
        segment: Option<&ElementSegment>,
        dst: u64,
        src: u32,
        len: u32,
        fuel: &mut Fuel,
    ) -> Option<Reply>
        ensures copied { WithCharge
            (WritesRangeAt Reply.Table index
            (option_map (initialization_of dst src len) (option_copied segment.entry)))
            (metered self.old.slots.items (Some fuel.old)) (reply_or_no_such result)
            (metered self.new.slots.items (Some fuel.new)) }
        ensures reserved { self.new.slots.reserved ≡ self.old.slots.reserved }
    {
        let segment = ElementSegmentRef::from(segment?);
        let table = self.live_mut(index)?;
        Some(table_reply(table.init_metered(segment, dst, src, len, fuel)))
    }

    /// Copies a range of a table to another one, or within it.
    pub(crate) fn copy(
        &mut self,
        dst_index: usize,
        dst: u64,
        src_index: usize,
        src: u64,
        len: u64,
        fuel: &mut Fuel,
    ) -> Option<Reply>
        ensures copied { WithCharge
            (WritesFrom Reply.Table (live_at self.old.slots.items src_index) dst_index
            (copy_of dst src len))
            (metered self.old.slots.items (Some fuel.old)) (reply_or_no_such result)
            (metered self.new.slots.items (Some fuel.new)) }
        ensures reserved { self.new.slots.reserved ≡ self.old.slots.reserved }
    {
        if dst_index == src_index {
            return self.copy_in_one(dst_index, dst, src, len, fuel);
        }
        let mut table = self.take(dst_index)?;
        let copied = match self.live(src_index) {
            Some(source) => Some(table_reply(table.copy_metered(dst, source, src, len, fuel))),
            None => None,
        };
        *self.slots.item_mut(dst_index) = Slot::Live(table);
        copied
    }

    /// Copies a range of a table within it.
    fn copy_in_one(
        &mut self,
        index: usize,
        dst: u64,
        src: u64,
        len: u64,
        fuel: &mut Fuel,
    ) -> Option<Reply>
        ensures copied { WithCharge
            (WritesFrom Reply.Table (live_at self.old.slots.items index) index
            (copy_of dst src len))
            (metered self.old.slots.items (Some fuel.old)) (reply_or_no_such result)
            (metered self.new.slots.items (Some fuel.new)) }
        ensures reserved { self.new.slots.reserved ≡ self.old.slots.reserved }
    {
        let table = self.live_mut(index)?;
        Some(table_reply(table.copy_within_metered(dst, src, len, fuel)))
    }
}

/// The reply to a call on a table that returns nothing.
fn table_reply(answer: Result<(), TableError>) -> Reply
    ensures { result ≡ reply_of (λ _. Reply.Done) Reply.Table answer }
{
    answer.map_or_else(Reply::Table, |()| Reply::Done)
}
