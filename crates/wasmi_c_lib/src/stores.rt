//! The stores by name, each described at the function of its name in `wasmi_access::wasm`.
//! `tools/header` writes this file.
//!
//! A status is 0, or the number of the trap; then nothing is written.
ghost use Rattle.std.specs.Int.{w32, w64, cast_unsigned};
ghost use Rattle.std.specs.Prelude.{◌+◌, ◌%◌, ◌^◌};
ghost use Rattle.wasmi_c.specs.Instruction.{StoresBytes};
ghost use Rattle.wasmi_types.specs.Numbers.{le_bytes};

use wasmi_access::wasm;
use wasmi_c::instruction::result::status_of;

#[unsafe(no_mangle)]
pub extern "C" fn wasmi_i32_store8(memory: &mut [u8], ptr: u64, offset: u64, value: i32) -> u8
    ensures { StoresBytes memory.old (ptr + offset) (le_bytes 1 (cast_unsigned w32 value % 2 ^ 8))
        memory.new result }
{
    status_of(wasm::i32_store8(memory, ptr, offset, value))
}

#[unsafe(no_mangle)]
pub extern "C" fn wasmi_i32_store16(memory: &mut [u8], ptr: u64, offset: u64, value: i32) -> u8
    ensures { StoresBytes memory.old (ptr + offset) (le_bytes 2 (cast_unsigned w32 value % 2 ^ 16))
        memory.new result }
{
    status_of(wasm::i32_store16(memory, ptr, offset, value))
}

#[unsafe(no_mangle)]
pub extern "C" fn wasmi_i64_store8(memory: &mut [u8], ptr: u64, offset: u64, value: i64) -> u8
    ensures { StoresBytes memory.old (ptr + offset) (le_bytes 1 (cast_unsigned w64 value % 2 ^ 8))
        memory.new result }
{
    status_of(wasm::i64_store8(memory, ptr, offset, value))
}

#[unsafe(no_mangle)]
pub extern "C" fn wasmi_i64_store16(memory: &mut [u8], ptr: u64, offset: u64, value: i64) -> u8
    ensures { StoresBytes memory.old (ptr + offset) (le_bytes 2 (cast_unsigned w64 value % 2 ^ 16))
        memory.new result }
{
    status_of(wasm::i64_store16(memory, ptr, offset, value))
}

#[unsafe(no_mangle)]
pub extern "C" fn wasmi_i64_store32(memory: &mut [u8], ptr: u64, offset: u64, value: i64) -> u8
    ensures { StoresBytes memory.old (ptr + offset) (le_bytes 4 (cast_unsigned w64 value % 2 ^ 32))
        memory.new result }
{
    status_of(wasm::i64_store32(memory, ptr, offset, value))
}

#[unsafe(no_mangle)]
pub extern "C" fn wasmi_store32(memory: &mut [u8], ptr: u64, offset: u64, value: u32) -> u8
    ensures { StoresBytes memory.old (ptr + offset) (le_bytes 4 value) memory.new result }
{
    status_of(wasm::store32(memory, ptr, offset, value))
}

#[unsafe(no_mangle)]
pub extern "C" fn wasmi_store64(memory: &mut [u8], ptr: u64, offset: u64, value: u64) -> u8
    ensures { StoresBytes memory.old (ptr + offset) (le_bytes 8 value) memory.new result }
{
    status_of(wasm::store64(memory, ptr, offset, value))
}
