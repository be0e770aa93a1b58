//! Ranges of a memory's bytes or of other lists, without a charge: whether one lies within its list,
//! and how one is read, written over, filled, and copied over another, a part at a time.
ghost use Rattle.std.specs.Prelude.{◌≡◌, ◌+◌, ◌-◌, ◌≤◌, ◌++◌, length, take, drop, replicate, Some, None, OnOk, IfErr, nat_le};
ghost use Rattle.wasmi_types.specs.Access.{at, overwrite};

use wasmi_meter::MemoryError;
use wasmi_raw::RawRef;

/// How many items are copied at once.
pub const CHUNK: usize = 4096;

/// Whether `len` items from an index on lie within a list.
pub fn lies_within<T>(items: &[T], index: u64, len: u64) -> bool
    ensures { result ≡ nat_le (index + len) (length items.now) }
{
    let size = items.len() as u64;
    index <= size && len <= size - index
}

/// Fills a buffer with the bytes from an offset on.
pub fn read_bytes(bytes: &[u8], offset: usize, buffer: &mut [u8]) -> Result<(), MemoryError>
    ensures ok { OnOk result (at bytes.now offset (length buffer.old) ≡ Some buffer.new) }
    ensures err { IfErr result (λ error. (error ≡ MemoryError.OutOfBoundsAccess)
        × (at bytes.now offset (length buffer.old) ≡ None) × (buffer.new ≡ buffer.old)) }
{
    if !lies_within(bytes, offset as u64, buffer.len() as u64) {
        return Err(MemoryError::OutOfBoundsAccess);
    }
    let end = offset + buffer.len();
    buffer.copy_from_slice(&bytes[offset..end]);
    Ok(())
}

/// Writes bytes over those from an offset on.
pub fn write_bytes(bytes: &mut [u8], offset: usize, buffer: &[u8]) -> Result<(), MemoryError>
    ensures ok { OnOk result (overwrite bytes.old offset buffer.now ≡ Some bytes.new) }
    ensures err { IfErr result (λ error. (error ≡ MemoryError.OutOfBoundsAccess)
        × (overwrite bytes.old offset buffer.now ≡ None) × (bytes.new ≡ bytes.old)) }
    ensures len { length bytes.new ≡ length bytes.old }
{
    if !lies_within(bytes, offset as u64, buffer.len() as u64) {
        return Err(MemoryError::OutOfBoundsAccess);
    }
    write_range(bytes, offset, buffer);
    Ok(())
}

/// Copies items over those from an index on.
pub fn write_range<T: Copy>(elements: &mut [T], index: usize, items: &[T])
    requires inside { index + length items.now ≤ length elements.old }
    ensures written { overwrite elements.old index items.now ≡ Some elements.new }
    ensures len { length elements.new ≡ length elements.old }
{
    let part = &mut elements[index..index + items.len()];
    part.copy_from_slice(items);
}

/// Fills the items from `start` up to `end`, which is left out, with a value. A clone of the value
/// is the value itself, as for numbers and references.
pub fn fill_range<T: Copy>(elements: &mut [T], start: usize, end: usize, value: T)
    requires infallible { T.is_infallible value }
    requires same { (clone : T) → T.is_clone value clone → clone ≡ value }
    requires start { start ≤ end }
    requires end { end ≤ length elements.old }
    ensures filled { elements.new
        ≡ take start elements.old ++ replicate (end - start) value ++ drop end elements.old }
    ensures len { length elements.new ≡ length elements.old }
{
    let part = &mut elements[start..end];
    part.fill(value);
}

/// An item of a list of which a part can be copied over another part.
pub trait Chunk: Copy {
    /// Copies `len` items, at most `CHUNK`, from `src` on over those from `dst` on. Each
    /// implementation has a buffer of its type. LLVM drops it: the two copies become one `memmove`.
    fn copy_chunk(elements: &mut [Self], dst: usize, src: usize, len: usize)
        requires few { len ≤ 4096 }
        requires dst { dst + len ≤ length elements.old }
        requires src { src + len ≤ length elements.old }
        ensures copied { elements.new
            ≡ take dst elements.old ++ take len (drop src elements.old) ++ drop
            (dst + len) elements.old };
}

impl Chunk for RawRef {
    fn copy_chunk(elements: &mut [RawRef], dst: usize, src: usize, len: usize) {
        let mut few = [RawRef::null(); CHUNK];
        few[..len].copy_from_slice(&elements[src..src + len]);
        elements[dst..dst + len].copy_from_slice(&few[..len]);
    }
}

impl Chunk for u8 {
    fn copy_chunk(elements: &mut [u8], dst: usize, src: usize, len: usize) {
        let mut few = [0; CHUNK];
        few[..len].copy_from_slice(&elements[src..src + len]);
        elements[dst..dst + len].copy_from_slice(&few[..len]);
    }
}

impl Chunk for u32 {
    fn copy_chunk(elements: &mut [u32], dst: usize, src: usize, len: usize) {
        let mut few = [0; CHUNK];
        few[..len].copy_from_slice(&elements[src..src + len]);
        elements[dst..dst + len].copy_from_slice(&few[..len]);
    }
}

/// Copies `len` items from `src` on over those from `dst` on. Items that move up are copied from
/// the last part on, so that each is read before it is written over.
pub fn copy_overlapping<T: Chunk>(elements: &mut [T], dst: usize, src: usize, len: usize)
    requires dst { dst + len ≤ length elements.old }
    requires src { src + len ≤ length elements.old }
    ensures copied { overwrite elements.old dst (take len (drop src elements.old))
        ≡ Some elements.new }
{
    if len <= CHUNK {
        T::copy_chunk(elements, dst, src, len);
    } else if dst <= src {
        let mut done = 0;
        while done < len {
            let count = CHUNK.min(len - done);
            T::copy_chunk(elements, dst + done, src + done, count);
            done += count;
        }
    } else {
        let mut left = len;
        while 0 < left {
            let count = CHUNK.min(left);
            left -= count;
            T::copy_chunk(elements, dst + left, src + left, count);
        }
    }
}
