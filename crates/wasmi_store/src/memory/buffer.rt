//! A linear memory's bytes: its own, or the front of a borrowed region; how they are lent and grow.
ghost use Rattle.std.specs.Prelude.{◌≡◌, ◌≤◌, ◌<◌, ℕ, List, length, take, drop, IfOk, IfErr, ◌-◌, OnOk, OnErr, true, false};
ghost use Rattle.std.proofs.Common.{refl};
ghost use Rattle.std.specs.Borrow.{sem, Lends, Array, u8};
ghost use Rattle.wasmi_store.specs.Buffer.{refilled_front, region_refilled, block, block_refilled, with_bytes, with_zeros, fits_room, CanFail, Owned, Lent, zeros_in};

use crate::range::fill_range;
use std::alloc::Global;
use std::marker::Model;
use wasmi_meter::MemoryError;

mod sealed {
    pub trait Sealed {}

    impl<'r> Sealed for &'r mut [u8] {}
}

/// A borrowed buffer of bytes: a `&mut [u8]`, and nothing else.
pub trait Region: sealed::Sealed {
    /// The buffer's bytes.
    ghost bytes: { Self → List ℕ };

    /// The buffer after its front, up to an end, was overwritten.
    ghost refilled: { Self → ℕ → List ℕ → Self };

    /// All of its bytes.
    fn whole(&self) -> &[u8]
        ensures { result.now ≡ bytes self.now };

    /// Lends its front.
    fn front_mut(&mut self, end: usize) -> &mut [u8]
        requires { end ≤ length (bytes self.old) }
        ensures* writes_back { sem 𝓛
            (Lends Self.row (Array u8 0) self.entry result (refilled self.old end)) }
        ensures value { result.now ≡ take end (bytes self.old) };

    /// The bytes of a buffer whose front was overwritten.
    ghost refills: { (r : Self) (end : ℕ) (ws : List ℕ)
        → bytes (refilled r end ws) ≡ refilled_front (bytes r) end ws };
}

impl<'r> Region for &'r mut [u8] {
    ghost bytes = { λ r. r.now };

    ghost refilled = { region_refilled };

    ghost refills = { λ r end ws. refl };

    fn whole(&self) -> &[u8] {
        &self[..]
    }

    fn front_mut(&mut self, end: usize) -> &mut [u8] {
        &mut self[..end]
    }
}

/// A block of bytes; a buffer's bytes are the first of it. Both forms begin with their pointer, so
/// that an access to a buffer doesn't depend on the form.
#[derive(Debug, Drop)]
enum Storage<R: Region> {
    Owned(Vec<u8>),
    Lent(R),
}

impl<R: Region> Storage<R> {
    ghost use Rattle.wasmi_store.specs.contracts.memory.buffer.Storage.{the_row};

    fn front_mut(&mut self, end: usize) -> &mut [u8]
        requires inside { end ≤ length (block R.bytes self.old) }
        ensures* writes_back { sem 𝓛 (Lends (the_row R.row) (Array u8 0) self.entry result
            (block_refilled R.refilled self.old end)) }
        ensures value { result.now ≡ take end (block R.bytes self.old) }
    {
        match self {
            Storage::Owned(bytes) => bytes.slice_mut(..end),
            Storage::Lent(region) => region.front_mut(end),
        }
    }
}

/// Bytes in memory of their own, or at the front of a borrowed buffer. Its name in signatures is
/// [`ByteBuffer`].
#[derive(Debug)]
pub struct Buffer<R: Region> {
    storage: Storage<R>,
    len: usize,
}

impl<R: Region> Model for Buffer<R> {
    ghost use Rattle.wasmi_store.specs.Buffer.{BufferValue, view_of, EndsWithin};

    ghost Value = { BufferValue };

    ghost view = { λ b. view_of R.bytes b.storage b.len };

    ghost invariant = { λ b. EndsWithin R.bytes b.storage b.len };
}

// The block is dropped in a variable: the borrow checker doesn't follow the drop of an enum that
// holds a `&mut` and lies in a field.
impl<R: Region + Drop> Drop for Buffer<R> {
    fn drop(self) {
        let Buffer { storage, len: _ } = self;
        drop(storage);
    }
}

/// A growable buffer of bytes; `'r` is the lifetime of a borrowed buffer that they may lie in.
/// Upstream: `ByteBuffer` of `wasmi_core`'s module `memory`.
pub type ByteBuffer<'r> = Buffer<&'r mut [u8]>;

impl<R: Region> Buffer<R> {
    ghost use Rattle.wasmi_store.specs.contracts.memory.buffer.Buffer.{the_row};

    /// The bytes.
    pub fn data(&self) -> &[u8]
        ensures { result.now ≡ self.now.bytes }
    {
        let block = match &self.storage {
            Storage::Owned(bytes) => bytes.as_slice(),
            Storage::Lent(region) => region.whole(),
        };
        &block[..self.len]
    }

    /// The bytes, which may be overwritten.
    pub fn data_mut(&mut self) -> &mut [u8]
        ensures* writes_back { sem 𝓛 (Lends (the_row R.row R.Region) (Array u8 0) self.entry result
            (with_bytes self.old)) }
        ensures value { result.now ≡ self.old.bytes }
    {
        self.storage.front_mut(self.len)
    }

    /// The number of bytes.
    pub fn len(&self) -> usize
        ensures { result ≡ length self.now.bytes }
    {
        self.len
    }

    /// Whether there is room for `new_size` bytes. It is false only for a shorter borrowed buffer.
    pub fn has_room(&self, new_size: usize) -> bool
        ensures { result ≡ fits_room self.now.room (new_size - length self.now.bytes) }
    {
        match &self.storage {
            Storage::Owned(_) => true,
            Storage::Lent(region) => new_size <= region.whole().len(),
        }
    }

    /// Appends zeros up to `new_size` bytes, which isn't below the present number. If the bytes are
    /// borrowed, nothing is allocated, and those past the new size stay as they are.
    pub fn grow(&mut self, new_size: usize) -> Result<(), MemoryError>
        requires grows { length self.old.bytes ≤ new_size }
        ensures ok { OnOk result
            (self.new ≡ with_zeros self.old (new_size - length self.old.bytes)) }
        ensures fits { OnOk result
            (fits_room self.old.room (new_size - length self.old.bytes) ≡ true) }
        ensures err { OnErr result (self.new ≡ self.old) }
        ensures cause { IfErr result (CanFail self.old.room (new_size - length self.old.bytes)) }
    {
        if !self.has_room(new_size) {
            return Err(MemoryError::InvalidStaticBufferSize);
        }
        match &mut self.storage {
            Storage::Owned(bytes) => match bytes.resize(new_size, 0) {
                Ok(()) => {}
                Err(_) => return Err(MemoryError::OutOfSystemMemory),
            },
            Storage::Lent(region) => fill_range(region.front_mut(new_size), self.len, new_size, 0),
        }
        self.len = new_size;
        Ok(())
    }
}

impl<'r> Buffer<&'r mut [u8]> {
    /// A buffer of `size` zeros in memory of its own.
    pub fn new(alloc: Global, size: usize) -> Result<ByteBuffer<'r>, MemoryError>
        ensures ok { IfOk result (λ b. b ≡ zeros_in Owned size) }
        ensures err { IfErr result (λ e. e ≡ MemoryError.OutOfSystemMemory) }
    {
        let bytes = vec![in alloc; 0u8; size].map_err(|_| MemoryError::OutOfSystemMemory)?;
        let storage = Storage::Owned(bytes);
        Ok(Buffer { storage, len: size })
    }

    /// A buffer of `size` zeros at the front of a borrowed one. It allocates nothing, and the bytes
    /// past them stay as they are.
    pub fn new_static(region: &'r mut [u8], size: usize) -> Result<ByteBuffer<'r>, MemoryError>
        ensures ok { IfOk result (λ b. (fits_room (Lent region.entry.now) size ≡ true)
            × (b ≡ zeros_in (Lent region.entry.now) size)) }
        ensures err { IfErr result (λ e. (fits_room (Lent region.entry.now) size ≡ false)
            × (e ≡ MemoryError.InvalidStaticBufferSize)) }
    {
        if region.len() < size {
            return Err(MemoryError::InvalidStaticBufferSize);
        }
        let front = &mut region[..size];
        front.fill(0);
        let storage = Storage::Lent(region);
        Ok(Buffer { storage, len: size })
    }
}
