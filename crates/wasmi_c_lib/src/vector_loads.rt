//! The loads of vectors by name, each described at the function of its name in
//! `wasmi_vector_access::simd`. `tools/header` writes this file.
//!
//! A status is 0, or the number of the trap; then nothing is written.
ghost use Rattle.std.specs.Prelude.{◌+◌};
ghost use Rattle.wasmi_access.specs.LoadStore.{loaded};
ghost use Rattle.wasmi_c.specs.Instruction.{Gives};
ghost use Rattle.wasmi_lanes.specs.Vector.{splat_of};
ghost use Rattle.wasmi_ops.specs.LoadStoreOps.{as_raw};
ghost use Rattle.wasmi_raw.specs.RawVal.{raw_of_vector};
ghost use Rattle.wasmi_simd.specs.WideningTable as vector;
ghost use Rattle.wasmi_types.specs.Numbers.{w8, w16, w32, w64};

use wasmi_c::instruction::result::leave_vector;
use wasmi_raw::RawVal;
use wasmi_vector_access::simd;

#[unsafe(no_mangle)]
pub extern "C" fn wasmi_v128_load(memory: &[u8], ptr: u64, offset: u64, value: &mut RawVal) -> u8
    ensures { Gives (as_raw raw_of_vector (loaded 16 (λ n. n) memory.now (ptr + offset))) value.old
        value.new result }
{
    leave_vector(simd::v128_load(memory, ptr, offset), value)
}

#[unsafe(no_mangle)]
pub extern "C" fn wasmi_v128_load8x8_s(
    memory: &[u8],
    ptr: u64,
    offset: u64,
    value: &mut RawVal,
) -> u8
    ensures { Gives (as_raw raw_of_vector (loaded 8 (vector.widen_s w8 w16) memory.now (ptr +
        offset))) value.old value.new result }
{
    leave_vector(simd::v128_load8x8_s(memory, ptr, offset), value)
}

#[unsafe(no_mangle)]
pub extern "C" fn wasmi_v128_load8x8_u(
    memory: &[u8],
    ptr: u64,
    offset: u64,
    value: &mut RawVal,
) -> u8
    ensures { Gives (as_raw raw_of_vector (loaded 8 (vector.widen_u w8 w16) memory.now (ptr +
        offset))) value.old value.new result }
{
    leave_vector(simd::v128_load8x8_u(memory, ptr, offset), value)
}

#[unsafe(no_mangle)]
pub extern "C" fn wasmi_v128_load16x4_s(
    memory: &[u8],
    ptr: u64,
    offset: u64,
    value: &mut RawVal,
) -> u8
    ensures { Gives (as_raw raw_of_vector (loaded 8 (vector.widen_s w16 w32) memory.now (ptr +
        offset))) value.old value.new result }
{
    leave_vector(simd::v128_load16x4_s(memory, ptr, offset), value)
}

#[unsafe(no_mangle)]
pub extern "C" fn wasmi_v128_load16x4_u(
    memory: &[u8],
    ptr: u64,
    offset: u64,
    value: &mut RawVal,
) -> u8
    ensures { Gives (as_raw raw_of_vector (loaded 8 (vector.widen_u w16 w32) memory.now (ptr +
        offset))) value.old value.new result }
{
    leave_vector(simd::v128_load16x4_u(memory, ptr, offset), value)
}

#[unsafe(no_mangle)]
pub extern "C" fn wasmi_v128_load32x2_s(
    memory: &[u8],
    ptr: u64,
    offset: u64,
    value: &mut RawVal,
) -> u8
    ensures { Gives (as_raw raw_of_vector (loaded 8 (vector.widen_s w32 w64) memory.now (ptr +
        offset))) value.old value.new result }
{
    leave_vector(simd::v128_load32x2_s(memory, ptr, offset), value)
}

#[unsafe(no_mangle)]
pub extern "C" fn wasmi_v128_load32x2_u(
    memory: &[u8],
    ptr: u64,
    offset: u64,
    value: &mut RawVal,
) -> u8
    ensures { Gives (as_raw raw_of_vector (loaded 8 (vector.widen_u w32 w64) memory.now (ptr +
        offset))) value.old value.new result }
{
    leave_vector(simd::v128_load32x2_u(memory, ptr, offset), value)
}

#[unsafe(no_mangle)]
pub extern "C" fn wasmi_v128_load8_splat(
    memory: &[u8],
    ptr: u64,
    offset: u64,
    value: &mut RawVal,
) -> u8
    ensures { Gives (as_raw raw_of_vector (loaded 1 (splat_of w8) memory.now (ptr + offset)))
        value.old value.new result }
{
    leave_vector(simd::v128_load8_splat(memory, ptr, offset), value)
}

#[unsafe(no_mangle)]
pub extern "C" fn wasmi_v128_load16_splat(
    memory: &[u8],
    ptr: u64,
    offset: u64,
    value: &mut RawVal,
) -> u8
    ensures { Gives (as_raw raw_of_vector (loaded 2 (splat_of w16) memory.now (ptr + offset)))
        value.old value.new result }
{
    leave_vector(simd::v128_load16_splat(memory, ptr, offset), value)
}

#[unsafe(no_mangle)]
pub extern "C" fn wasmi_v128_load32_splat(
    memory: &[u8],
    ptr: u64,
    offset: u64,
    value: &mut RawVal,
) -> u8
    ensures { Gives (as_raw raw_of_vector (loaded 4 (splat_of w32) memory.now (ptr + offset)))
        value.old value.new result }
{
    leave_vector(simd::v128_load32_splat(memory, ptr, offset), value)
}

#[unsafe(no_mangle)]
pub extern "C" fn wasmi_v128_load64_splat(
    memory: &[u8],
    ptr: u64,
    offset: u64,
    value: &mut RawVal,
) -> u8
    ensures { Gives (as_raw raw_of_vector (loaded 8 (splat_of w64) memory.now (ptr + offset)))
        value.old value.new result }
{
    leave_vector(simd::v128_load64_splat(memory, ptr, offset), value)
}

#[unsafe(no_mangle)]
pub extern "C" fn wasmi_v128_load32_zero(
    memory: &[u8],
    ptr: u64,
    offset: u64,
    value: &mut RawVal,
) -> u8
    ensures { Gives (as_raw raw_of_vector (loaded 4 (vector.low_zero w32) memory.now (ptr +
        offset))) value.old value.new result }
{
    leave_vector(simd::v128_load32_zero(memory, ptr, offset), value)
}

#[unsafe(no_mangle)]
pub extern "C" fn wasmi_v128_load64_zero(
    memory: &[u8],
    ptr: u64,
    offset: u64,
    value: &mut RawVal,
) -> u8
    ensures { Gives (as_raw raw_of_vector (loaded 8 (vector.low_zero w64) memory.now (ptr +
        offset))) value.old value.new result }
{
    leave_vector(simd::v128_load64_zero(memory, ptr, offset), value)
}
