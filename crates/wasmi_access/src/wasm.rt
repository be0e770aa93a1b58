//! The loads and stores of the integer types.
//!
//! A form without `_at` accesses the address `ptr + offset`, a form with `_at` the given one;
//! addresses count bytes. The only error is `MemoryOutOfBounds`, and then nothing is written. Core
//! specification: memory instructions. Upstream: `wasmi_core::wasm`.
#![tactic(auto, using(crate::proofs::ConvertLemmas::low_bits))]

ghost use Rattle.std.specs.Prelude.{◌≡◌, ◌+◌, ◌%◌, ◌^◌, pos};
ghost use Rattle.std.specs.Int.{w8, w16, w32, w64, cast_signed, cast_unsigned};
ghost use Rattle.wasmi_types.specs.Numbers.{le_bytes};
ghost use Rattle.wasmi_access.specs.LoadStore.{loaded, IsStore};

use crate::access::{
    load, load_at, load_extend, load_extend_at, store, store_at, store_wrap, store_wrap_at,
};
use wasmi_types::TrapCode;

/// `i32.load8_s`: 8 bits, read signed.
pub fn i32_load8_s(memory: &[u8], ptr: u64, offset: u64) -> Result<i32, TrapCode>
    ensures { result ≡ loaded 1 (cast_signed w8) memory.now (ptr + offset) }
{
    load_extend::<i32, i8>(memory, ptr, offset)
}

/// `i32.load8_s` at an address.
pub fn i32_load8_s_at(memory: &[u8], address: usize) -> Result<i32, TrapCode>
    ensures { result ≡ loaded 1 (cast_signed w8) memory.now address }
{
    load_extend_at::<i32, i8>(memory, address)
}

/// `i32.load8_u`: 8 bits, read unsigned.
pub fn i32_load8_u(memory: &[u8], ptr: u64, offset: u64) -> Result<i32, TrapCode>
    ensures { result ≡ loaded 1 pos memory.now (ptr + offset) }
{
    load_extend::<i32, u8>(memory, ptr, offset)
}

/// `i32.load8_u` at an address.
pub fn i32_load8_u_at(memory: &[u8], address: usize) -> Result<i32, TrapCode>
    ensures { result ≡ loaded 1 pos memory.now address }
{
    load_extend_at::<i32, u8>(memory, address)
}

/// `i32.load16_s`: 16 bits, read signed.
pub fn i32_load16_s(memory: &[u8], ptr: u64, offset: u64) -> Result<i32, TrapCode>
    ensures { result ≡ loaded 2 (cast_signed w16) memory.now (ptr + offset) }
{
    load_extend::<i32, i16>(memory, ptr, offset)
}

/// `i32.load16_s` at an address.
pub fn i32_load16_s_at(memory: &[u8], address: usize) -> Result<i32, TrapCode>
    ensures { result ≡ loaded 2 (cast_signed w16) memory.now address }
{
    load_extend_at::<i32, i16>(memory, address)
}

/// `i32.load16_u`: 16 bits, read unsigned.
pub fn i32_load16_u(memory: &[u8], ptr: u64, offset: u64) -> Result<i32, TrapCode>
    ensures { result ≡ loaded 2 pos memory.now (ptr + offset) }
{
    load_extend::<i32, u16>(memory, ptr, offset)
}

/// `i32.load16_u` at an address.
pub fn i32_load16_u_at(memory: &[u8], address: usize) -> Result<i32, TrapCode>
    ensures { result ≡ loaded 2 pos memory.now address }
{
    load_extend_at::<i32, u16>(memory, address)
}

/// `i64.load8_s`: 8 bits, read signed.
pub fn i64_load8_s(memory: &[u8], ptr: u64, offset: u64) -> Result<i64, TrapCode>
    ensures { result ≡ loaded 1 (cast_signed w8) memory.now (ptr + offset) }
{
    load_extend::<i64, i8>(memory, ptr, offset)
}

/// `i64.load8_s` at an address.
pub fn i64_load8_s_at(memory: &[u8], address: usize) -> Result<i64, TrapCode>
    ensures { result ≡ loaded 1 (cast_signed w8) memory.now address }
{
    load_extend_at::<i64, i8>(memory, address)
}

/// `i64.load8_u`: 8 bits, read unsigned.
pub fn i64_load8_u(memory: &[u8], ptr: u64, offset: u64) -> Result<i64, TrapCode>
    ensures { result ≡ loaded 1 pos memory.now (ptr + offset) }
{
    load_extend::<i64, u8>(memory, ptr, offset)
}

/// `i64.load8_u` at an address.
pub fn i64_load8_u_at(memory: &[u8], address: usize) -> Result<i64, TrapCode>
    ensures { result ≡ loaded 1 pos memory.now address }
{
    load_extend_at::<i64, u8>(memory, address)
}

/// `i64.load16_s`: 16 bits, read signed.
pub fn i64_load16_s(memory: &[u8], ptr: u64, offset: u64) -> Result<i64, TrapCode>
    ensures { result ≡ loaded 2 (cast_signed w16) memory.now (ptr + offset) }
{
    load_extend::<i64, i16>(memory, ptr, offset)
}

/// `i64.load16_s` at an address.
pub fn i64_load16_s_at(memory: &[u8], address: usize) -> Result<i64, TrapCode>
    ensures { result ≡ loaded 2 (cast_signed w16) memory.now address }
{
    load_extend_at::<i64, i16>(memory, address)
}

/// `i64.load16_u`: 16 bits, read unsigned.
pub fn i64_load16_u(memory: &[u8], ptr: u64, offset: u64) -> Result<i64, TrapCode>
    ensures { result ≡ loaded 2 pos memory.now (ptr + offset) }
{
    load_extend::<i64, u16>(memory, ptr, offset)
}

/// `i64.load16_u` at an address.
pub fn i64_load16_u_at(memory: &[u8], address: usize) -> Result<i64, TrapCode>
    ensures { result ≡ loaded 2 pos memory.now address }
{
    load_extend_at::<i64, u16>(memory, address)
}

/// `i64.load32_s`: 32 bits, read signed.
pub fn i64_load32_s(memory: &[u8], ptr: u64, offset: u64) -> Result<i64, TrapCode>
    ensures { result ≡ loaded 4 (cast_signed w32) memory.now (ptr + offset) }
{
    load_extend::<i64, i32>(memory, ptr, offset)
}

/// `i64.load32_s` at an address.
pub fn i64_load32_s_at(memory: &[u8], address: usize) -> Result<i64, TrapCode>
    ensures { result ≡ loaded 4 (cast_signed w32) memory.now address }
{
    load_extend_at::<i64, i32>(memory, address)
}

/// `i64.load32_u`: 32 bits, read unsigned.
pub fn i64_load32_u(memory: &[u8], ptr: u64, offset: u64) -> Result<i64, TrapCode>
    ensures { result ≡ loaded 4 pos memory.now (ptr + offset) }
{
    load_extend::<i64, u32>(memory, ptr, offset)
}

/// `i64.load32_u` at an address.
pub fn i64_load32_u_at(memory: &[u8], address: usize) -> Result<i64, TrapCode>
    ensures { result ≡ loaded 4 pos memory.now address }
{
    load_extend_at::<i64, u32>(memory, address)
}

/// `i32.load`: 32 bits, read unsigned.
pub fn load_u32(memory: &[u8], ptr: u64, offset: u64) -> Result<u32, TrapCode>
    ensures { result ≡ loaded 4 (λ n. n) memory.now (ptr + offset) }
{
    load::<u32>(memory, ptr, offset)
}

/// `i32.load` at an address.
pub fn load_u32_at(memory: &[u8], address: usize) -> Result<u32, TrapCode>
    ensures { result ≡ loaded 4 (λ n. n) memory.now address }
{
    load_at::<u32>(memory, address)
}

/// `i64.load`: 64 bits, read unsigned.
pub fn load_u64(memory: &[u8], ptr: u64, offset: u64) -> Result<u64, TrapCode>
    ensures { result ≡ loaded 8 (λ n. n) memory.now (ptr + offset) }
{
    load::<u64>(memory, ptr, offset)
}

/// `i64.load` at an address.
pub fn load_u64_at(memory: &[u8], address: usize) -> Result<u64, TrapCode>
    ensures { result ≡ loaded 8 (λ n. n) memory.now address }
{
    load_at::<u64>(memory, address)
}

/// `i32.store8`: the value modulo 2 to the power 8.
pub fn i32_store8(memory: &mut [u8], ptr: u64, offset: u64, value: i32) -> Result<(), TrapCode>
    ensures { IsStore memory.old (ptr + offset)
        (le_bytes 1 (cast_unsigned w32 value % 2 ^ 8)) memory.new result }
{
    store_wrap::<i32, i8>(memory, ptr, offset, value)
}

/// `i32.store8` at an address.
pub fn i32_store8_at(memory: &mut [u8], address: usize, value: i32) -> Result<(), TrapCode>
    ensures { IsStore memory.old address
        (le_bytes 1 (cast_unsigned w32 value % 2 ^ 8)) memory.new result }
{
    store_wrap_at::<i32, i8>(memory, address, value)
}

/// `i32.store16`: the value modulo 2 to the power 16.
pub fn i32_store16(memory: &mut [u8], ptr: u64, offset: u64, value: i32) -> Result<(), TrapCode>
    ensures { IsStore memory.old (ptr + offset)
        (le_bytes 2 (cast_unsigned w32 value % 2 ^ 16)) memory.new result }
{
    store_wrap::<i32, i16>(memory, ptr, offset, value)
}

/// `i32.store16` at an address.
pub fn i32_store16_at(memory: &mut [u8], address: usize, value: i32) -> Result<(), TrapCode>
    ensures { IsStore memory.old address
        (le_bytes 2 (cast_unsigned w32 value % 2 ^ 16)) memory.new result }
{
    store_wrap_at::<i32, i16>(memory, address, value)
}

/// `i64.store8`: the value modulo 2 to the power 8.
pub fn i64_store8(memory: &mut [u8], ptr: u64, offset: u64, value: i64) -> Result<(), TrapCode>
    ensures { IsStore memory.old (ptr + offset)
        (le_bytes 1 (cast_unsigned w64 value % 2 ^ 8)) memory.new result }
{
    store_wrap::<i64, i8>(memory, ptr, offset, value)
}

/// `i64.store8` at an address.
pub fn i64_store8_at(memory: &mut [u8], address: usize, value: i64) -> Result<(), TrapCode>
    ensures { IsStore memory.old address
        (le_bytes 1 (cast_unsigned w64 value % 2 ^ 8)) memory.new result }
{
    store_wrap_at::<i64, i8>(memory, address, value)
}

/// `i64.store16`: the value modulo 2 to the power 16.
pub fn i64_store16(memory: &mut [u8], ptr: u64, offset: u64, value: i64) -> Result<(), TrapCode>
    ensures { IsStore memory.old (ptr + offset)
        (le_bytes 2 (cast_unsigned w64 value % 2 ^ 16)) memory.new result }
{
    store_wrap::<i64, i16>(memory, ptr, offset, value)
}

/// `i64.store16` at an address.
pub fn i64_store16_at(memory: &mut [u8], address: usize, value: i64) -> Result<(), TrapCode>
    ensures { IsStore memory.old address
        (le_bytes 2 (cast_unsigned w64 value % 2 ^ 16)) memory.new result }
{
    store_wrap_at::<i64, i16>(memory, address, value)
}

/// `i64.store32`: the value modulo 2 to the power 32.
pub fn i64_store32(memory: &mut [u8], ptr: u64, offset: u64, value: i64) -> Result<(), TrapCode>
    ensures { IsStore memory.old (ptr + offset)
        (le_bytes 4 (cast_unsigned w64 value % 2 ^ 32)) memory.new result }
{
    store_wrap::<i64, i32>(memory, ptr, offset, value)
}

/// `i64.store32` at an address.
pub fn i64_store32_at(memory: &mut [u8], address: usize, value: i64) -> Result<(), TrapCode>
    ensures { IsStore memory.old address
        (le_bytes 4 (cast_unsigned w64 value % 2 ^ 32)) memory.new result }
{
    store_wrap_at::<i64, i32>(memory, address, value)
}

/// `i32.store`: the 32 bits of the value.
pub fn store32(memory: &mut [u8], ptr: u64, offset: u64, value: u32) -> Result<(), TrapCode>
    ensures { IsStore memory.old (ptr + offset) (le_bytes 4 value) memory.new result }
{
    store::<u32>(memory, ptr, offset, value)
}

/// `i32.store` at an address.
pub fn store32_at(memory: &mut [u8], address: usize, value: u32) -> Result<(), TrapCode>
    ensures { IsStore memory.old address (le_bytes 4 value) memory.new result }
{
    store_at::<u32>(memory, address, value)
}

/// `i64.store`: the 64 bits of the value.
pub fn store64(memory: &mut [u8], ptr: u64, offset: u64, value: u64) -> Result<(), TrapCode>
    ensures { IsStore memory.old (ptr + offset) (le_bytes 8 value) memory.new result }
{
    store::<u64>(memory, ptr, offset, value)
}

/// `i64.store` at an address.
pub fn store64_at(memory: &mut [u8], address: usize, value: u64) -> Result<(), TrapCode>
    ensures { IsStore memory.old address (le_bytes 8 value) memory.new result }
{
    store_at::<u64>(memory, address, value)
}
