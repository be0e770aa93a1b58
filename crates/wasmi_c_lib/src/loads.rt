//! The loads by name, each described at the function of its name in `wasmi_access::wasm`.
//! `tools/header` writes this file.
//!
//! A status is 0, or the number of the trap; then nothing is written.
ghost use Rattle.std.specs.Int.{w8, w16, w32, cast_signed};
ghost use Rattle.std.specs.Prelude.{◌+◌, pos};
ghost use Rattle.wasmi_access.specs.LoadStore.{loaded};
ghost use Rattle.wasmi_c.specs.Instruction.{Gives};

use wasmi_access::wasm;
use wasmi_c::instruction::result::leave_item;

#[unsafe(no_mangle)]
pub extern "C" fn wasmi_i32_load8_s(memory: &[u8], ptr: u64, offset: u64, value: &mut i32) -> u8
    ensures { Gives (loaded 1 (cast_signed w8) memory.now (ptr + offset)) value.old value.new
        result }
{
    leave_item(wasm::i32_load8_s(memory, ptr, offset), value)
}

#[unsafe(no_mangle)]
pub extern "C" fn wasmi_i32_load8_u(memory: &[u8], ptr: u64, offset: u64, value: &mut i32) -> u8
    ensures { Gives (loaded 1 pos memory.now (ptr + offset)) value.old value.new result }
{
    leave_item(wasm::i32_load8_u(memory, ptr, offset), value)
}

#[unsafe(no_mangle)]
pub extern "C" fn wasmi_i32_load16_s(memory: &[u8], ptr: u64, offset: u64, value: &mut i32) -> u8
    ensures { Gives (loaded 2 (cast_signed w16) memory.now (ptr + offset)) value.old value.new
        result }
{
    leave_item(wasm::i32_load16_s(memory, ptr, offset), value)
}

#[unsafe(no_mangle)]
pub extern "C" fn wasmi_i32_load16_u(memory: &[u8], ptr: u64, offset: u64, value: &mut i32) -> u8
    ensures { Gives (loaded 2 pos memory.now (ptr + offset)) value.old value.new result }
{
    leave_item(wasm::i32_load16_u(memory, ptr, offset), value)
}

#[unsafe(no_mangle)]
pub extern "C" fn wasmi_i64_load8_s(memory: &[u8], ptr: u64, offset: u64, value: &mut i64) -> u8
    ensures { Gives (loaded 1 (cast_signed w8) memory.now (ptr + offset)) value.old value.new
        result }
{
    leave_item(wasm::i64_load8_s(memory, ptr, offset), value)
}

#[unsafe(no_mangle)]
pub extern "C" fn wasmi_i64_load8_u(memory: &[u8], ptr: u64, offset: u64, value: &mut i64) -> u8
    ensures { Gives (loaded 1 pos memory.now (ptr + offset)) value.old value.new result }
{
    leave_item(wasm::i64_load8_u(memory, ptr, offset), value)
}

#[unsafe(no_mangle)]
pub extern "C" fn wasmi_i64_load16_s(memory: &[u8], ptr: u64, offset: u64, value: &mut i64) -> u8
    ensures { Gives (loaded 2 (cast_signed w16) memory.now (ptr + offset)) value.old value.new
        result }
{
    leave_item(wasm::i64_load16_s(memory, ptr, offset), value)
}

#[unsafe(no_mangle)]
pub extern "C" fn wasmi_i64_load16_u(memory: &[u8], ptr: u64, offset: u64, value: &mut i64) -> u8
    ensures { Gives (loaded 2 pos memory.now (ptr + offset)) value.old value.new result }
{
    leave_item(wasm::i64_load16_u(memory, ptr, offset), value)
}

#[unsafe(no_mangle)]
pub extern "C" fn wasmi_i64_load32_s(memory: &[u8], ptr: u64, offset: u64, value: &mut i64) -> u8
    ensures { Gives (loaded 4 (cast_signed w32) memory.now (ptr + offset)) value.old value.new
        result }
{
    leave_item(wasm::i64_load32_s(memory, ptr, offset), value)
}

#[unsafe(no_mangle)]
pub extern "C" fn wasmi_i64_load32_u(memory: &[u8], ptr: u64, offset: u64, value: &mut i64) -> u8
    ensures { Gives (loaded 4 pos memory.now (ptr + offset)) value.old value.new result }
{
    leave_item(wasm::i64_load32_u(memory, ptr, offset), value)
}

#[unsafe(no_mangle)]
pub extern "C" fn wasmi_load_u32(memory: &[u8], ptr: u64, offset: u64, value: &mut u32) -> u8
    ensures { Gives (loaded 4 (λ n. n) memory.now (ptr + offset)) value.old value.new result }
{
    leave_item(wasm::load_u32(memory, ptr, offset), value)
}

#[unsafe(no_mangle)]
pub extern "C" fn wasmi_load_u64(memory: &[u8], ptr: u64, offset: u64, value: &mut u64) -> u8
    ensures { Gives (loaded 8 (λ n. n) memory.now (ptr + offset)) value.old value.new result }
{
    leave_item(wasm::load_u64(memory, ptr, offset), value)
}
