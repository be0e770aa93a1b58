//! Linear memories: how one is made and grows, its type and size, and how its bytes are read,
//! written, filled, copied and initialized.
ghost use Rattle.std.specs.Prelude.{◌≡◌, ◌/◌, length, Option, Some, None, Result, Ok, Err, OnOk, IfErr, true};
ghost use Rattle.std.specs.Borrow.{sem, Lends, Array, u8};
ghost use Rattle.wasmi_types.specs.Access.{at};
ghost use Rattle.wasmi_meter.specs.Limiter.{optional_rules, lent_limiter, KeepsLoan};
ghost use Rattle.wasmi_meter.specs.Meter.{meter_at_entry as at_entry, meter_at_exit as at_exit};
ghost use Rattle.wasmi_store.specs.Buffer.{Owned, Lent, with_bytes};
ghost use Rattle.wasmi_store.specs.Growth.{metered_value, metered};
ghost use Rattle.wasmi_store.specs.Memory.{MemoryValue, GrowsMemory, IsSized, in_bounds, MakesMemory, memory_of, buffer_of, pages_of, dynamic_type, WritesMemory, WritesMemoryRange, byte_filling_of, byte_copy_of, IsSubtype};
ghost use Rattle.wasmi_store.specs.contracts.memory.LinearMemory.{the_row};

mod buffer;
mod ty;

use crate::bulk::{MEMORY_OUTSIDE as OUTSIDE, copy_items, copy_items_within, fill_items};
use crate::growth::{MEMORY_DENIED as DENIED, decide_growth, permitted_minimum, tell};
use crate::range::{read_bytes, write_bytes};
use crate::with_meter;
pub use buffer::{Buffer, ByteBuffer, Region};
use std::alloc::Global;
use std::marker::Model;
pub(crate) use ty::is_no_looser;
pub use ty::{MemoryType, MemoryTypeBuilder};
use wasmi_meter::{Fuel, MemoryError, ResourceLimiter, ResourceLimiterRef};

/// A linear memory. Its name in signatures is [`Memory`].
#[derive(Debug, Drop)]
pub struct LinearMemory<R: Region> {
    buffer: Buffer<R>,
    ty: MemoryType,
}

impl<R: Region> Model for LinearMemory<R> {
    ghost use Rattle.std.specs.Prelude.{length};
    ghost use Rattle.wasmi_store.specs.Memory.{MemoryValue, memory_of, IsSized};

    ghost Value = { MemoryValue };

    ghost view = { λ m. memory_of m.ty m.buffer };

    ghost invariant = { λ m. IsSized m.ty (length m.buffer.bytes) };
}

/// A linear memory of whole pages; `'r` is the lifetime of a buffer that its bytes may lie in.
///
/// It is valid at any time: see [`crate::laws::memories_are_valid`]. Core specification, memory
/// instances. Upstream: `wasmi_core::Memory`.
pub type Memory<'r> = LinearMemory<&'r mut [u8]>;

impl<'r> LinearMemory<&'r mut [u8]> {
    /// A memory of zeros, at the minimum of its type. It takes no fuel.
    pub fn new<L: ResourceLimiter>(
        alloc: Global,
        ty: MemoryType,
        limiter: &mut ResourceLimiterRef<L>,
    ) -> Result<Memory<'r>, MemoryError>
        ensures loan { KeepsLoan limiter.old limiter.new }
        ensures made { MakesMemory (optional_rules L.rules) Owned ty
            (lent_limiter limiter.old) result (lent_limiter limiter.new) }
    {
        Memory::new_lending(alloc, ty, limiter)
    }

    /// A memory of zeros at the front of a borrowed buffer, at the minimum of its type. It takes no
    /// fuel and no memory, and the bytes past the minimum stay. After an error the loan has ended.
    pub fn new_static<L: ResourceLimiter>(
        ty: MemoryType,
        limiter: &mut ResourceLimiterRef<L>,
        region: &'r mut [u8],
    ) -> Result<Memory<'r>, MemoryError>
        ensures loan { KeepsLoan limiter.old limiter.new }
        ensures made { MakesMemory (optional_rules L.rules) (Lent region.entry.now) ty
            (lent_limiter limiter.old) result (lent_limiter limiter.new) }
    {
        Memory::new_static_lending(ty, limiter, region)
    }

    /// As `new_static`, with a limiter that is known again after this call.
    pub fn new_static_lending<L: ResourceLimiter>(
        ty: MemoryType,
        limiter: &mut L,
        region: &'r mut [u8],
    ) -> Result<Memory<'r>, MemoryError>
        ensures { MakesMemory (optional_rules L.rules) (Lent region.entry.now) ty
            (Some limiter.old) result (Some limiter.new) }
    {
        let size = permitted_minimum(ty, limiter)?;
        match Buffer::new_static(region, size) {
            Ok(buffer) => Ok(LinearMemory { buffer, ty }),
            Err(cause) => Err(tell(limiter, cause, DENIED)),
        }
    }

    /// As `new`, with a limiter that is known again after this call.
    pub fn new_lending<L: ResourceLimiter>(
        alloc: Global,
        ty: MemoryType,
        limiter: &mut L,
    ) -> Result<Memory<'r>, MemoryError>
        ensures { MakesMemory (optional_rules L.rules) Owned ty (Some limiter.old) result
            (Some limiter.new) }
    {
        let size = permitted_minimum(ty, limiter)?;
        match Buffer::new(alloc, size) {
            Ok(buffer) => Ok(LinearMemory { buffer, ty }),
            Err(cause) => Err(tell(limiter, cause, DENIED)),
        }
    }
}

impl<R: Region> LinearMemory<R> {
    /// The type that it was made with.
    pub fn ty(&self) -> MemoryType
        ensures { result ≡ self.now.ty }
    {
        self.ty
    }

    /// The type that it was made with, with the present size as its minimum: a subtype of it.
    pub fn dynamic_ty(&self) -> MemoryType
        ensures value { result ≡ dynamic_type self.now }
        ensures subtype { IsSubtype result self.now.ty }
    {
        self.ty.with_minimum(self.size())
    }

    /// The size in pages.
    pub fn size(&self) -> u64
        ensures value { result ≡ pages_of self.now }
        ensures within { in_bounds self.now.ty result ≡ true }
    {
        self.buffer.len() as u64 / u64::from(self.ty.page_size())
    }

    /// The size in bytes: whole pages, as many as its type allows.
    pub fn data_size(&self) -> usize
        ensures value { result ≡ length self.now.bytes }
        ensures sized { IsSized self.now.ty result }
    {
        self.buffer.len()
    }

    /// The bytes.
    pub fn data(&self) -> &[u8]
        ensures { result.now ≡ self.now.bytes }
    {
        self.buffer.data()
    }

    /// The bytes, which may be overwritten.
    pub fn data_mut(&mut self) -> &mut [u8]
        ensures* writes_back { sem 𝓛 (Lends (the_row R.row R.Region) (Array u8 0) self.entry result
            (λ ws. memory_of self.old.ty (with_bytes (buffer_of self.old) ws))) }
        ensures value { result.now ≡ self.old.bytes }
    {
        self.buffer.data_mut()
    }

    /// Grows by `additional` pages of zeros, and returns the old size in pages. A growth by 0 pages
    /// changes nothing and asks no limiter. Bytes of a borrowed buffer past the new size stay.
    ///
    /// # Errors
    ///
    /// In the order of the tests:
    ///
    /// - `OutOfBoundsGrowth` above the greatest number of pages or the maximum, or at 2^64 bytes or
    ///   more;
    /// - `OutOfBoundsGrowth` if the limiter says no, `ResourceLimiterDeniedAllocation` if it
    ///   returns an error;
    /// - `InvalidStaticBufferSize` if a borrowed buffer is shorter than the new size, which charges
    ///   nothing;
    /// - `OutOfFuel` if the meter is on and the added bytes cost more than is left;
    /// - `OutOfSystemMemory`, after which the fuel stays spent, and which doesn't occur on a
    ///   borrowed buffer.
    ///
    /// The limiter is notified of the last three, and if it returns an error, the error is
    /// `ResourceLimiterDeniedAllocation` instead.
    pub fn grow<L: ResourceLimiter>(
        &mut self,
        additional: u64,
        fuel: Option<&mut Fuel>,
        limiter: &mut ResourceLimiterRef<L>,
    ) -> Result<u64, MemoryError>
        ensures loan { KeepsLoan limiter.old limiter.new }
        ensures grown { GrowsMemory (optional_rules L.rules) additional
            (metered_value self.old (at_entry fuel.entry) (lent_limiter limiter.old)) result
            (metered_value self.new (at_exit fuel.exit) (lent_limiter limiter.new)) }
    {
        with_meter!(fuel => self.grow_metered(additional, fuel, limiter))
    }

    /// As `grow`, with a meter that isn't optional.
    pub fn grow_metered<L: ResourceLimiter>(
        &mut self,
        additional: u64,
        fuel: &mut Fuel,
        limiter: &mut ResourceLimiterRef<L>,
    ) -> Result<u64, MemoryError>
        ensures loan { KeepsLoan limiter.old limiter.new }
        ensures grown { GrowsMemory (optional_rules L.rules) additional
            (metered_value self.old (Some fuel.old) (lent_limiter limiter.old)) result
            (metered_value self.new (Some fuel.new) (lent_limiter limiter.new)) }
    {
        self.grow_lending(additional, fuel, limiter)
    }

    /// As `grow_metered`, with a limiter that is known again after this call.
    pub fn grow_lending<L: ResourceLimiter>(
        &mut self,
        additional: u64,
        fuel: &mut Fuel,
        limiter: &mut L,
    ) -> Result<u64, MemoryError>
        ensures { GrowsMemory (optional_rules L.rules) additional
            (metered_value self.old (Some fuel.old) (Some limiter.old)) result
            (metered_value self.new (Some fuel.new) (Some limiter.new)) }
    {
        let old_pages = self.size();
        if additional == 0 {
            return Ok(old_pages);
        }
        let old_size = self.buffer.len();
        let Some(size) = self.ty.grown_size(old_size, additional) else {
            return Err(MemoryError::OutOfBoundsGrowth);
        };
        let maximum = self.ty.maximum_size();
        let has_room = self.buffer.has_room(size);
        decide_growth(old_size, size, maximum, has_room, fuel, limiter)?;
        if let Err(cause) = self.buffer.grow(size) {
            return Err(tell(limiter, cause, DENIED));
        }
        Ok(old_pages)
    }

    /// Fills a buffer with the bytes from an offset on.
    pub fn read(&self, offset: usize, buffer: &mut [u8]) -> Result<(), MemoryError>
        ensures ok { OnOk result (at self.now.bytes offset (length buffer.old) ≡ Some buffer.new) }
        ensures err { IfErr result (λ error. (error ≡ MemoryError.OutOfBoundsAccess)
            × (at self.now.bytes offset (length buffer.old) ≡ None) × (buffer.new ≡ buffer.old)) }
    {
        read_bytes(self.buffer.data(), offset, buffer)
    }

    /// Writes bytes over those from an offset on.
    pub fn write(&mut self, offset: usize, buffer: &[u8]) -> Result<(), MemoryError>
        ensures { WritesMemory self.old offset buffer.now result self.new }
    {
        write_bytes(self.buffer.data_mut(), offset, buffer)
    }

    /// Fills `len` bytes from `dst` on with a value. It is charged as a table's `fill`, by bytes.
    /// Core specification, memory.fill.
    pub fn fill(
        &mut self,
        dst: u64,
        value: u8,
        len: u64,
        fuel: Option<&mut Fuel>,
    ) -> Result<(), MemoryError>
        ensures { WritesMemoryRange (byte_filling_of dst value len)
            (metered self.old (at_entry fuel.entry)) result (metered self.new (at_exit fuel.exit)) }
    {
        with_meter!(fuel => self.fill_metered(dst, value, len, fuel))
    }

    /// As `fill`, with a meter that isn't optional.
    pub fn fill_metered(
        &mut self,
        dst: u64,
        value: u8,
        len: u64,
        fuel: &mut Fuel,
    ) -> Result<(), MemoryError>
        ensures { WritesMemoryRange (byte_filling_of dst value len)
            (metered self.old (Some fuel.old)) result (metered self.new (Some fuel.new)) }
    {
        fill_items(self.data_mut(), dst, value, len, OUTSIDE, fuel)
    }

    /// Copies `len` bytes from `src` on over those from `dst` on: the old ones if they overlap.
    /// Core specification, memory.copy within a memory.
    pub fn copy_within(
        &mut self,
        dst: u64,
        src: u64,
        len: u64,
        fuel: Option<&mut Fuel>,
    ) -> Result<(), MemoryError>
        ensures { WritesMemoryRange (byte_copy_of dst src len self.old.bytes)
            (metered self.old (at_entry fuel.entry)) result (metered self.new (at_exit fuel.exit)) }
    {
        with_meter!(fuel => self.copy_within_metered(dst, src, len, fuel))
    }

    /// As `copy_within`, with a meter that isn't optional.
    pub fn copy_within_metered(
        &mut self,
        dst: u64,
        src: u64,
        len: u64,
        fuel: &mut Fuel,
    ) -> Result<(), MemoryError>
        ensures { WritesMemoryRange (byte_copy_of dst src len self.old.bytes)
            (metered self.old (Some fuel.old)) result (metered self.new (Some fuel.new)) }
    {
        copy_items_within(self.data_mut(), dst, src, len, OUTSIDE, fuel)
    }

    /// Copies `len` bytes of another memory, from `src` on, over those of a memory from `dst` on.
    /// Core specification, memory.copy of two memories.
    pub fn copy<S: Region>(
        dst_memory: &mut LinearMemory<R>,
        dst: u64,
        src_memory: &LinearMemory<S>,
        src: u64,
        len: u64,
        fuel: Option<&mut Fuel>,
    ) -> Result<(), MemoryError>
        ensures { WritesMemoryRange (byte_copy_of dst src len src_memory.now.bytes)
            (metered dst_memory.old (at_entry fuel.entry)) result
            (metered dst_memory.new (at_exit fuel.exit)) }
    {
        with_meter!(fuel => dst_memory.copy_metered(dst, src_memory, src, len, fuel))
    }

    /// As `copy`, with a meter that isn't optional.
    pub fn copy_metered<S: Region>(
        &mut self,
        dst: u64,
        src_memory: &LinearMemory<S>,
        src: u64,
        len: u64,
        fuel: &mut Fuel,
    ) -> Result<(), MemoryError>
        ensures { WritesMemoryRange (byte_copy_of dst src len src_memory.now.bytes)
            (metered self.old (Some fuel.old)) result (metered self.new (Some fuel.new)) }
    {
        let source = src_memory.data();
        copy_items(self.data_mut(), dst, source, src, len, OUTSIDE, fuel)
    }

    /// Copies `len` bytes of a data segment, from `src` on, over the bytes from `dst` on. A segment
    /// that was dropped has no bytes. Core specification, memory.init.
    pub fn init(
        &mut self,
        segment: &[u8],
        dst: u64,
        src: u32,
        len: u32,
        fuel: Option<&mut Fuel>,
    ) -> Result<(), MemoryError>
        ensures { WritesMemoryRange (byte_copy_of dst src len segment.now)
            (metered self.old (at_entry fuel.entry)) result (metered self.new (at_exit fuel.exit)) }
    {
        with_meter!(fuel => self.init_metered(segment, dst, src, len, fuel))
    }

    /// As `init`, with a meter that isn't optional.
    pub fn init_metered(
        &mut self,
        segment: &[u8],
        dst: u64,
        src: u32,
        len: u32,
        fuel: &mut Fuel,
    ) -> Result<(), MemoryError>
        ensures { WritesMemoryRange (byte_copy_of dst src len segment.now)
            (metered self.old (Some fuel.old)) result (metered self.new (Some fuel.new)) }
    {
        let (src, len) = (u64::from(src), u64::from(len));
        copy_items(self.data_mut(), dst, segment, src, len, OUTSIDE, fuel)
    }
}
