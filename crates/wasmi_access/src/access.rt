//! Loads and stores of any type with little-endian bytes; traits of these, of wrapping, extending.
//!
//! A memory is a slice of bytes, and an address counts bytes from its start. An access to `ptr +
//! offset` has the unbounded sum for its address. The only error is `MemoryOutOfBounds`, where the
//! memory ends before the last byte, and then nothing is written. Upstream: the module
//! `memory::access`, private there. Core specification: memory instructions; storage of integers.
ghost use Rattle.std.specs.Prelude.{◌≡◌, ◌↔◌, ℕ, ◌+◌, ◌*◌, ◌^◌, ◌<◌, ◌≤◌, IsTrue, List, MatchResult, length, Some};
ghost use Rattle.std.specs.Int.{int_wrap};
ghost use mir.Val.{bits};
ghost use Rattle.wasmi_types.specs.Numbers.{number_of, le_bytes, wrap};
ghost use Rattle.wasmi_types.specs.Access.{overwrite};
ghost use Rattle.wasmi_raw.specs.Number.{number_of_bits};
ghost use Rattle.wasmi_access.specs.LoadStore.{loaded, GivesNumber, IsStore, IsCopy};

use wasmi_raw::Number;
use wasmi_types::TrapCode;

mod sealed {
    pub trait Sealed {}

    impl<const N: usize> Sealed for [u8; N] {}
}

/// A conversion to the low bits of a number, as many as `T` has. Upstream: the private `WrapInto`.
pub trait WrapInto<T: Number>: Number {
    /// The number of `T` that differs from `self` by a multiple of 2 to the power of `T`'s width.
    fn wrap_into(self) -> T
        ensures value { result ≡ T.of_number (int_wrap T.width (Self.number self)) }
        ensures low_bits { wrap T.width (T.number result) ≡ wrap T.width (Self.number self) };
}

/// A conversion to a wider number: a signed one is extended by its sign, an unsigned one by zeros.
/// Upstream: `ExtendInto`, private there.
pub trait ExtendInto<T: Number>: Number {
    /// The number of `self` as a `T`.
    fn extend_into(self) -> T
        ensures { result ≡ T.of_number (Self.number self) };
}

/// An array of bytes, as the contracts of this module see it. The arrays `[u8; N]` have it, and no
/// other type can.
pub trait ByteArray: sealed::Sealed {
    /// How many bytes there are.
    ghost LEN: { ℕ };

    /// The bytes, in their order.
    ghost bytes_of: { Self → List ℕ };
}

impl<const N: usize> ByteArray for [u8; N] {
    ghost LEN = { N };

    ghost bytes_of = { λ bytes. bytes };
}

/// Whether `N` bytes at an address end past a length. Of one byte that is one comparison.
#[inline(always)]
fn ends_past<const N: usize>(len: usize, address: usize) -> bool
    ensures { IsTrue result ↔ len < address + N }
{
    if N == 1 {
        address >= len
    } else {
        len < N || address > len - N
    }
}

/// Bytes that are read from a memory. Upstream: `LoadInto`, private there.
pub trait LoadInto: ByteArray {
    /// Copies the bytes at `address` into `self`.
    fn load_into(&mut self, memory: &[u8], address: usize) -> Result<(), TrapCode>
        ensures copied { IsCopy memory.now address Self.LEN (Self.bytes_of self.old)
            (Self.bytes_of self.new) result }
        ensures length { length (Self.bytes_of self.new) ≡ Self.LEN };
}

impl<const N: usize> LoadInto for [u8; N] {
    fn load_into(&mut self, memory: &[u8], address: usize) -> Result<(), TrapCode> {
        if ends_past::<N>(memory.len(), address) {
            return Err(TrapCode::MemoryOutOfBounds);
        }
        let Some((bytes, _)) = memory[address..address + N].split_first_chunk::<N>() else {
            return Err(TrapCode::MemoryOutOfBounds);
        };
        *self = *bytes;
        Ok(())
    }
}

/// Bytes that are written to a memory. Upstream: `StoreFrom`, private there.
pub trait StoreFrom: ByteArray {
    /// Copies `self` to the bytes at `address`.
    fn store_from(&self, memory: &mut [u8], address: usize) -> Result<(), TrapCode>
        ensures stored { IsStore memory.old address (Self.bytes_of self.now) memory.new result }
        ensures length { length (Self.bytes_of self.now) ≡ Self.LEN };
}

impl<const N: usize> StoreFrom for [u8; N] {
    fn store_from(&self, memory: &mut [u8], address: usize) -> Result<(), TrapCode> {
        if ends_past::<N>(memory.len(), address) {
            return Err(TrapCode::MemoryOutOfBounds);
        }
        put(memory, address, self);
        Ok(())
    }
}

/// Writes bytes over those at an address. In this form a number is stored from a register.
fn put<const N: usize>(memory: &mut [u8], address: usize, bytes: &[u8; N])
    requires room { address + N ≤ length memory.old }
    ensures written { overwrite memory.old address bytes.now ≡ Some memory.new }
{
    for i in 0..N {
        memory[address + i] = bytes[i];
    }
}

/// A number that is stored in little-endian bytes. Upstream: `LittleEndianConvert`, private there.
pub trait LittleEndianConvert: Number {
    /// As many bytes as the number has.
    type Bytes: Default + Drop + LoadInto + StoreFrom;

    /// The bytes of `self`, lowest first: those of its number modulo 2 to the power of its width.
    fn into_le_bytes(self) -> Self::Bytes
        ensures bytes { Self.Bytes.bytes_of result
            ≡ le_bytes Self.Bytes.LEN (wrap Self.width (Self.number self)) }
        ensures number { number_of (Self.Bytes.bytes_of result)
            ≡ wrap Self.width (Self.number self) }
        ensures round_trip { Self.of_number (number_of_bits Self.is_signed Self.width
            (number_of (Self.Bytes.bytes_of result))) ≡ self };

    /// The value of some bytes, the lowest first.
    fn from_le_bytes(bytes: Self::Bytes) -> Self
        ensures value { result ≡ Self.of_number
            (number_of_bits Self.is_signed Self.width (number_of (Self.Bytes.bytes_of bytes))) }
        ensures read { Self.number result
            ≡ number_of_bits Self.is_signed Self.width (number_of (Self.Bytes.bytes_of bytes)) }
        ensures number { wrap Self.width (Self.number result)
            ≡ number_of (Self.Bytes.bytes_of bytes) }
        ensures round_trip { le_bytes Self.Bytes.LEN (wrap Self.width (Self.number result))
            ≡ Self.Bytes.bytes_of bytes };

    /// The bytes have the bits of the number.
    ghost is_as_wide: { Self.Bytes.LEN * 8 ≡ bits Self.width };
}

/// The address of an access, `ptr + offset`, if it is below 2 to the power 64. The only error is
/// `MemoryOutOfBounds`. Core specification, effective addresses under memory instructions.
#[inline(always)]
pub fn effective_address(ptr: u64, offset: u64) -> Result<usize, TrapCode>
    ensures { MatchResult result (λ address. address ≡ ptr + offset)
        (λ trap. (trap ≡ TrapCode.MemoryOutOfBounds) × (2 ^ 64 ≤ ptr + offset)) }
{
    let address = ptr.wrapping_add(offset);
    // A sum that wraps is below both numbers. In this form the compiler tests the carry.
    if address < ptr {
        return Err(TrapCode::MemoryOutOfBounds);
    }
    usize::try_from(address).map_err(|_| TrapCode::MemoryOutOfBounds)
}

/// The number at `ptr + offset`.
pub fn load<T: LittleEndianConvert>(memory: &[u8], ptr: u64, offset: u64) -> Result<T, TrapCode>
    ensures value { result ≡ loaded T.Bytes.LEN
        (λ n. T.of_number (number_of_bits T.is_signed T.width n)) memory.now (ptr + offset) }
    ensures number { GivesNumber T.number result
        (loaded T.Bytes.LEN (number_of_bits T.is_signed T.width) memory.now (ptr + offset)) }
{
    load_at::<T>(memory, effective_address(ptr, offset)?)
}

/// The number at `address`.
pub fn load_at<T: LittleEndianConvert>(memory: &[u8], address: usize) -> Result<T, TrapCode>
    ensures value { result ≡ loaded T.Bytes.LEN
        (λ n. T.of_number (number_of_bits T.is_signed T.width n)) memory.now address }
    ensures number { GivesNumber T.number result
        (loaded T.Bytes.LEN (number_of_bits T.is_signed T.width) memory.now address) }
{
    let mut buffer = T::Bytes::default();
    buffer.load_into(memory, address)?;
    Ok(T::from_le_bytes(buffer))
}

/// The number at `ptr + offset`, read as a `U` and extended to a `T`.
pub fn load_extend<T, U>(memory: &[u8], ptr: u64, offset: u64) -> Result<T, TrapCode>
where
    T: Number,
    U: LittleEndianConvert + ExtendInto<T>,
    ensures { result ≡ loaded U.Bytes.LEN
        (λ n. T.of_number (number_of_bits U.is_signed U.width n)) memory.now (ptr + offset) }
{
    load_extend_at::<T, U>(memory, effective_address(ptr, offset)?)
}

/// The number at `address`, read as a `U` and extended to a `T`.
pub fn load_extend_at<T, U>(memory: &[u8], address: usize) -> Result<T, TrapCode>
where
    T: Number,
    U: LittleEndianConvert + ExtendInto<T>,
    ensures { result ≡ loaded U.Bytes.LEN
        (λ n. T.of_number (number_of_bits U.is_signed U.width n)) memory.now address }
{
    Ok(load_at::<U>(memory, address)?.extend_into())
}

/// Writes a number at `ptr + offset`.
pub fn store<T>(memory: &mut [u8], ptr: u64, offset: u64, value: T) -> Result<(), TrapCode>
where
    T: LittleEndianConvert + Drop,
    ensures { IsStore memory.old (ptr + offset)
        (le_bytes T.Bytes.LEN (wrap T.width (T.number value))) memory.new result }
{
    store_at::<T>(memory, effective_address(ptr, offset)?, value)
}

/// Writes a number at `address`.
pub fn store_at<T>(memory: &mut [u8], address: usize, value: T) -> Result<(), TrapCode>
where
    T: LittleEndianConvert,
    ensures { IsStore memory.old address
        (le_bytes T.Bytes.LEN (wrap T.width (T.number value))) memory.new result }
{
    value.into_le_bytes().store_from(memory, address)
}

/// Writes a number at `ptr + offset`, wrapped to a `U`.
pub fn store_wrap<T, U>(memory: &mut [u8], ptr: u64, offset: u64, value: T) -> Result<(), TrapCode>
where
    T: WrapInto<U> + Drop,
    U: LittleEndianConvert,
    ensures { IsStore memory.old (ptr + offset)
        (le_bytes U.Bytes.LEN (wrap U.width (T.number value))) memory.new result }
{
    store_wrap_at::<T, U>(memory, effective_address(ptr, offset)?, value)
}

/// Writes a number at `address`, wrapped to a `U`.
pub fn store_wrap_at<T, U>(memory: &mut [u8], address: usize, value: T) -> Result<(), TrapCode>
where
    T: WrapInto<U>,
    U: LittleEndianConvert,
    ensures { IsStore memory.old address
        (le_bytes U.Bytes.LEN (wrap U.width (T.number value))) memory.new result }
{
    store_at::<U>(memory, address, value.wrap_into())
}
