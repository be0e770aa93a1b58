//! Tables: how one is made, grows and is reserved for, its type and size, and how its elements are
//! read, set, filled, copied and initialized.
ghost use Rattle.std.specs.Prelude.{◌≡◌, ◌≢◌, ◌<◌, OnErr, OnOk, length, Some};
ghost use Rattle.wasmi_meter.specs.Limiter.{optional_rules, lent_limiter, KeepsLoan};
ghost use Rattle.wasmi_meter.specs.Meter.{meter_at_entry as at_entry, meter_at_exit as at_exit};
ghost use Rattle.wasmi_store.specs.Growth.{metered_value, metered};
ghost use Rattle.wasmi_store.specs.Segment.{segment_of};
ghost use Rattle.wasmi_store.specs.Table.{IsSubtype, TableValue, with_elements_reserved, IsSized, size_of, dynamic_type, element_at, MakesTable, GrowsTableRaw, GrowsTable, SetsTable, SetsTableRaw, WritesTable, filling_of, raw_filling_of, copy_of, initialization_of};

mod element;
mod ty;

use crate::bulk::{copy_items, copy_items_within, fill_items, init_elements};
use crate::growth::{TABLE_DENIED as DENIED, charge, permission, tell};
use crate::range::write_range;
use crate::with_meter;
pub use element::{ElementSegment, ElementSegmentRef, SegmentError};
use std::alloc::{AllocError, Global};
use std::marker::Model;
pub use ty::TableType;
use wasmi_meter::{Fuel, ResourceLimiter, ResourceLimiterRef, TableError};
use wasmi_raw::RawRef;
use wasmi_typed::TypedRawRef;

/// A table: references of one type, of which some may be null.
///
/// The functions that charge fuel take an optional meter; without one, or with one that is off,
/// nothing is charged. The forms whose name ends in `_metered` take one that isn't optional. If a
/// host chooses no other costs, a unit of fuel pays for 64 bytes, and an element has 4 bytes.
///
/// It is valid at any time: see [`crate::laws::tables_are_valid`]. Core specification, table
/// instances. Upstream: `wasmi_core::Table`.
#[derive(Debug, Drop)]
pub struct Table {
    ty: TableType,
    elements: Vec<RawRef>,
    reserved: usize,
}

impl Model for Table {
    ghost use Rattle.std.specs.Prelude.{◌≤◌, length};
    ghost use Rattle.std.specs.Vec.{vec_capacity};
    ghost use Rattle.wasmi_store.specs.Table.{TableValue, IsSized};

    ghost Value = { TableValue };

    ghost view = { λ t. record { ty = t.ty; elements = t.elements.items; reserved = t.reserved } };

    ghost invariant = { λ t. IsSized t.ty (length t.elements.items)
        × (t.reserved ≤ vec_capacity t.elements) };
}

impl Table {
    /// A table of one reference, at the minimum of its type. It takes no fuel.
    pub fn new<L: ResourceLimiter>(
        alloc: Global,
        ty: TableType,
        init: TypedRawRef,
        limiter: &mut ResourceLimiterRef<L>,
    ) -> Result<Self, TableError>
        ensures loan { KeepsLoan limiter.old limiter.new }
        ensures made { MakesTable (optional_rules L.rules) ty init (lent_limiter limiter.old) result
            (lent_limiter limiter.new) }
    {
        Table::new_lending(alloc, ty, init, limiter)
    }

    /// As `new`, with a limiter that is known again after this call.
    pub fn new_lending<L: ResourceLimiter>(
        alloc: Global,
        ty: TableType,
        init: TypedRawRef,
        limiter: &mut L,
    ) -> Result<Self, TableError>
        ensures { MakesTable (optional_rules L.rules) ty init (Some limiter.old) result
            (Some limiter.new) }
    {
        ty.ensure_element_type_matches(init.ty)?;
        let Ok(size) = usize::try_from(ty.minimum()) else {
            return Err(TableError::MinimumSizeOverflow);
        };
        let answer = limiter.table_growing(0, size, ty.maximum_size());
        permission(answer, DENIED, DENIED)?;
        match vec![in alloc; init.raw; size] {
            Ok(elements) => Ok(Table {
                ty,
                elements,
                reserved: 0,
            }),
            Err(_) => Err(tell(limiter, TableError::OutOfSystemMemory, DENIED)),
        }
    }

    /// Reserves memory for so many elements in all, those that are there included: until it has
    /// more, a growth isn't refused with `OutOfSystemMemory`. What is reserved already stays so, and
    /// no element is added.
    pub fn reserve(&mut self, elements: u64) -> Result<(), AllocError>
        ensures reserved { OnOk result (self.new ≡ with_elements_reserved self.old elements) }
        ensures refused { OnErr result ((self.new ≡ self.old) × (self.old.reserved < elements)) }
    {
        let Ok(elements) = usize::try_from(elements) else {
            return Err(AllocError);
        };
        let additional = elements.saturating_sub(self.elements.len());
        self.elements.try_reserve_exact(additional)?;
        self.reserved = self.reserved.max(elements);
        Ok(())
    }

    /// The type that it was made with.
    pub fn ty(&self) -> TableType
        ensures { result ≡ self.now.ty }
    {
        self.ty
    }

    /// The type that it was made with, with the present size as its minimum: a subtype of it.
    pub fn dynamic_ty(&self) -> TableType
        ensures value { result ≡ dynamic_type self.now }
        ensures subtype { IsSubtype result self.now.ty }
    {
        self.ty.with_minimum(self.size())
    }

    /// The size in elements: as many as its type allows.
    pub fn size(&self) -> u64
        ensures value { result ≡ size_of self.now }
        ensures sized { IsSized self.now.ty result }
    {
        self.elements.len() as u64
    }

    /// Grows by `delta` elements, each the given reference, and returns the old size.
    pub fn grow<L: ResourceLimiter>(
        &mut self,
        delta: u64,
        init: TypedRawRef,
        fuel: Option<&mut Fuel>,
        limiter: &mut ResourceLimiterRef<L>,
    ) -> Result<u64, TableError>
        ensures loan { KeepsLoan limiter.old limiter.new }
        ensures grown { GrowsTable (optional_rules L.rules) delta init
            (metered_value self.old (at_entry fuel.entry) (lent_limiter limiter.old)) result
            (metered_value self.new (at_exit fuel.exit) (lent_limiter limiter.new)) }
    {
        with_meter!(fuel => self.grow_metered(delta, init, fuel, limiter))
    }

    /// As `grow`, with a meter that isn't optional.
    pub fn grow_metered<L: ResourceLimiter>(
        &mut self,
        delta: u64,
        init: TypedRawRef,
        fuel: &mut Fuel,
        limiter: &mut ResourceLimiterRef<L>,
    ) -> Result<u64, TableError>
        ensures loan { KeepsLoan limiter.old limiter.new }
        ensures grown { GrowsTable (optional_rules L.rules) delta init
            (metered_value self.old (Some fuel.old) (lent_limiter limiter.old)) result
            (metered_value self.new (Some fuel.new) (lent_limiter limiter.new)) }
    {
        self.grow_lending(delta, init, fuel, limiter)
    }

    /// As `grow_metered`, with a limiter that is known again after this call.
    pub fn grow_lending<L: ResourceLimiter>(
        &mut self,
        delta: u64,
        init: TypedRawRef,
        fuel: &mut Fuel,
        limiter: &mut L,
    ) -> Result<u64, TableError>
        ensures { GrowsTable (optional_rules L.rules) delta init
            (metered_value self.old (Some fuel.old) (Some limiter.old)) result
            (metered_value self.new (Some fuel.new) (Some limiter.new)) }
    {
        self.ty.ensure_element_type_matches(init.ty)?;
        self.grow_raw_metered(delta, init.raw, fuel, limiter)
    }

    /// Grows by `delta` elements, each the given reference, and returns the old size. A growth by 0
    /// changes nothing and asks no limiter.
    ///
    /// # Errors
    ///
    /// In the order of the tests:
    ///
    /// - `GrowOutOfBounds` if there would be as many elements as indices, 2^32 or 2^64;
    /// - `GrowOutOfBounds` if the limiter says no, `ResourceLimiterDeniedAllocation` if it returns
    ///   an error;
    /// - `GrowOutOfBounds` above the maximum;
    /// - `OutOfFuel` if the meter is on and the new elements cost more than is left;
    /// - `OutOfSystemMemory`, after which the fuel stays spent.
    ///
    /// The limiter is notified of the last three, and if it returns an error, the error is
    /// `ResourceLimiterDeniedAllocation` instead.
    pub fn grow_raw<L: ResourceLimiter>(
        &mut self,
        delta: u64,
        init: RawRef,
        fuel: Option<&mut Fuel>,
        limiter: &mut ResourceLimiterRef<L>,
    ) -> Result<u64, TableError>
        ensures loan { KeepsLoan limiter.old limiter.new }
        ensures grown { GrowsTableRaw (optional_rules L.rules) delta init
            (metered_value self.old (at_entry fuel.entry) (lent_limiter limiter.old)) result
            (metered_value self.new (at_exit fuel.exit) (lent_limiter limiter.new)) }
    {
        with_meter!(fuel => self.grow_raw_metered(delta, init, fuel, limiter))
    }

    #[inline(always)]
    fn grow_raw_metered<L: ResourceLimiter>(
        &mut self,
        delta: u64,
        init: RawRef,
        fuel: &mut Fuel,
        limiter: &mut L,
    ) -> Result<u64, TableError>
        ensures { GrowsTableRaw (optional_rules L.rules) delta init
            (metered_value self.old (Some fuel.old) (Some limiter.old)) result
            (metered_value self.new (Some fuel.new) (Some limiter.new)) }
    {
        if delta == 0 {
            return Ok(self.size());
        }
        self.grow_raw_asked(delta, init, fuel, limiter)
    }

    /// A growth by at least one element, for which the limiter is asked. A growth by nothing is a test
    /// where it is called, so that the calls of a machine beside it don't pay for this function.
    #[inline]
    fn grow_raw_asked<L: ResourceLimiter>(
        &mut self,
        delta: u64,
        init: RawRef,
        fuel: &mut Fuel,
        limiter: &mut L,
    ) -> Result<u64, TableError>
        requires asked { delta ≢ 0 }
        ensures grown { GrowsTableRaw (optional_rules L.rules) delta init
            (metered_value self.old (Some fuel.old) (Some limiter.old)) result
            (metered_value self.new (Some fuel.new) (Some limiter.new)) }
    {
        let size = self.elements.len();
        let Some(desired) = self.ty.grown_size(size as u64, delta) else {
            return Err(TableError::GrowOutOfBounds);
        };
        let answer = limiter.table_growing(size, desired, self.ty.maximum_size());
        permission(answer, TableError::GrowOutOfBounds, DENIED)?;
        if !self.ty.allows_size(desired) {
            return Err(tell(limiter, TableError::GrowOutOfBounds, DENIED));
        }
        if let Err(required_fuel) = charge::<RawRef>(fuel, delta) {
            return Err(tell(limiter, TableError::OutOfFuel { required_fuel }, DENIED));
        }
        if self.elements.resize(desired, init).is_err() {
            return Err(tell(limiter, TableError::OutOfSystemMemory, DENIED));
        }
        Ok(size as u64)
    }

    /// The element at an index with its type, or `None` past the end.
    pub fn get(&self, index: u64) -> Option<TypedRawRef>
        ensures { result ≡ element_at self.now index }
    {
        let index = usize::try_from(index).ok()?;
        let raw = *self.elements.as_slice().get(index)?;
        Some(TypedRawRef::new(raw, self.ty.element()))
    }

    /// Sets the element at an index.
    pub fn set(&mut self, index: u64, value: TypedRawRef) -> Result<(), TableError>
        ensures { SetsTable index value self.old result self.new }
    {
        self.ty.ensure_element_type_matches(value.ty)?;
        self.set_raw(index, value.raw)
    }

    /// Sets the element at an index. The reference's type isn't tested: that is up to the caller.
    pub fn set_raw(&mut self, index: u64, value: RawRef) -> Result<(), TableError>
        ensures { SetsTableRaw index value self.old result self.new }
    {
        let index = usize::try_from(index).map_err(|_| TableError::SetOutOfBounds)?;
        if index >= self.elements.len() {
            return Err(TableError::SetOutOfBounds);
        }
        write_range(self.elements.as_mut_slice(), index, &[value]);
        Ok(())
    }

    /// Copies `len` items of an element segment, from `src` on, over the elements from `dst` on.
    /// Copying no items costs no fuel.
    pub fn init(
        &mut self,
        element: ElementSegmentRef,
        dst: u64,
        src: u32,
        len: u32,
        fuel: Option<&mut Fuel>,
    ) -> Result<(), TableError>
        ensures { WritesTable (initialization_of dst src len (segment_of element.entry))
            (metered self.old (at_entry fuel.entry)) result (metered self.new (at_exit fuel.exit)) }
    {
        with_meter!(fuel => self.init_metered(element, dst, src, len, fuel))
    }

    /// As `init`, with a meter that isn't optional.
    pub fn init_metered(
        &mut self,
        element: ElementSegmentRef,
        dst: u64,
        src: u32,
        len: u32,
        fuel: &mut Fuel,
    ) -> Result<(), TableError>
        ensures { WritesTable (initialization_of dst src len (segment_of element.entry))
            (metered self.old (Some fuel.old)) result (metered self.new (Some fuel.new)) }
    {
        self.ty.ensure_element_type_matches(element.ty())?;
        let (items, src, len) = (element.items(), u64::from(src), u64::from(len));
        init_elements(self.elements.as_mut_slice(), dst, items, src, len, fuel)
    }

    /// Copies `len` elements of another table, from `src` on, over those of a table from `dst` on.
    pub fn copy(
        dst_table: &mut Table,
        dst: u64,
        src_table: &Table,
        src: u64,
        len: u64,
        fuel: Option<&mut Fuel>,
    ) -> Result<(), TableError>
        ensures { WritesTable (copy_of dst src len src_table.now)
            (metered dst_table.old (at_entry fuel.entry)) result
            (metered dst_table.new (at_exit fuel.exit)) }
    {
        with_meter!(fuel => dst_table.copy_metered(dst, src_table, src, len, fuel))
    }

    /// As `copy`, with a meter that isn't optional.
    pub fn copy_metered(
        &mut self,
        dst: u64,
        src_table: &Table,
        src: u64,
        len: u64,
        fuel: &mut Fuel,
    ) -> Result<(), TableError>
        ensures { WritesTable (copy_of dst src len src_table.now)
            (metered self.old (Some fuel.old)) result (metered self.new (Some fuel.new)) }
    {
        self.ty.ensure_element_type_matches(src_table.ty.element())?;
        let elements = self.elements.as_mut_slice();
        let (items, outside) = (src_table.elements.as_slice(), TableError::CopyOutOfBounds);
        copy_items(elements, dst, items, src, len, outside, fuel)
    }

    /// Copies `len` elements from `src` on over those from `dst` on: the old ones if they overlap.
    pub fn copy_within(
        &mut self,
        dst: u64,
        src: u64,
        len: u64,
        fuel: Option<&mut Fuel>,
    ) -> Result<(), TableError>
        ensures { WritesTable (copy_of dst src len self.old)
            (metered self.old (at_entry fuel.entry)) result (metered self.new (at_exit fuel.exit)) }
    {
        with_meter!(fuel => self.copy_within_metered(dst, src, len, fuel))
    }

    /// As `copy_within`, with a meter that isn't optional.
    pub fn copy_within_metered(
        &mut self,
        dst: u64,
        src: u64,
        len: u64,
        fuel: &mut Fuel,
    ) -> Result<(), TableError>
        ensures { WritesTable (copy_of dst src len self.old)
            (metered self.old (Some fuel.old)) result (metered self.new (Some fuel.new)) }
    {
        let (elements, outside) = (self.elements.as_mut_slice(), TableError::CopyOutOfBounds);
        copy_items_within(elements, dst, src, len, outside, fuel)
    }

    /// Fills `len` elements from `dst` on with a reference.
    pub fn fill(
        &mut self,
        dst: u64,
        val: TypedRawRef,
        len: u64,
        fuel: Option<&mut Fuel>,
    ) -> Result<(), TableError>
        ensures { WritesTable (filling_of dst val len)
            (metered self.old (at_entry fuel.entry)) result (metered self.new (at_exit fuel.exit)) }
    {
        with_meter!(fuel => self.fill_metered(dst, val, len, fuel))
    }

    /// As `fill`, with a meter that isn't optional.
    pub fn fill_metered(
        &mut self,
        dst: u64,
        val: TypedRawRef,
        len: u64,
        fuel: &mut Fuel,
    ) -> Result<(), TableError>
        ensures { WritesTable (filling_of dst val len)
            (metered self.old (Some fuel.old)) result (metered self.new (Some fuel.new)) }
    {
        self.ty.ensure_element_type_matches(val.ty)?;
        let (elements, outside) = (self.elements.as_mut_slice(), TableError::FillOutOfBounds);
        fill_items(elements, dst, val.raw, len, outside, fuel)
    }

    /// Fills `len` elements from `dst` on with a reference.
    pub fn fill_raw(
        &mut self,
        dst: u64,
        val: RawRef,
        len: u64,
        fuel: Option<&mut Fuel>,
    ) -> Result<(), TableError>
        ensures { WritesTable (raw_filling_of dst val len)
            (metered self.old (at_entry fuel.entry)) result (metered self.new (at_exit fuel.exit)) }
    {
        let outside = TableError::FillOutOfBounds;
        with_meter!(fuel => fill_items(self.elements.as_mut_slice(), dst, val, len, outside, fuel))
    }
}
