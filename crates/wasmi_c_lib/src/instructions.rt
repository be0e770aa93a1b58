//! Each instruction by its number, on values and on arrays; the shuffle and the store of a vector by
//! name; a script of calls; the version.
//! `tools/header` writes this file, by the rows of `tools/exports.toml`.
ghost use Rattle.std.specs.Prelude.{◌≡◌, ◌+◌, length};
ghost use Rattle.wasmi_c.specs.Instruction.{Leaves, unary_result, unary_results, binary_result, binary_results, ternary_result, ternary_results, load_result, load_results, store_result, extract_result, extract_results, load_lane_result, replace_result, replace_results, store_lane_result, StoresBytes, shuffle_result};
ghost use Rattle.wasmi_types.specs.Numbers.{le_bytes};
ghost use Rattle.wasmi_raw.specs.RawVal.{vector_in};
ghost use Rattle.wasmi_c.specs.Script.{AnswersScript};

use std::alloc::Global;
use wasmi_c::instruction::result::{InstructionResult, status_of};
use wasmi_c::instruction::{binary, lanes, load, shuffle, store, ternary, unary};
use wasmi_c::script;
use wasmi_raw::RawVal;
use wasmi_vector_access::simd;

#[unsafe(no_mangle)]
pub extern "C" fn wasmi_unary(number: u16, a: RawVal, value: &mut RawVal) -> u8
    ensures { Leaves (unary_result number a) value.old value.new result }
{
    unary::unary_by_number(number, a, value)
}

#[unsafe(no_mangle)]
pub extern "C" fn wasmi_unary_each(number: u16, a: &[RawVal], values: &mut [RawVal]) -> u8
    ensures { Leaves (unary_results number a.now (length values.old)) values.old values.new result }
{
    unary::unary_each(number, a, values)
}

#[unsafe(no_mangle)]
pub extern "C" fn wasmi_binary(number: u16, a: RawVal, b: RawVal, value: &mut RawVal) -> u8
    ensures { Leaves (binary_result number a b) value.old value.new result }
{
    binary::binary_by_number(number, a, b, value)
}

#[unsafe(no_mangle)]
pub extern "C" fn wasmi_binary_each(
    number: u16,
    a: &[RawVal],
    b: &[RawVal],
    results: &mut [InstructionResult],
) -> u8
    ensures { Leaves (binary_results number a.now b.now (length results.old))
        results.old results.new result }
{
    binary::binary_each(number, a, b, results)
}

#[unsafe(no_mangle)]
pub extern "C" fn wasmi_ternary(
    number: u16,
    a: RawVal,
    b: RawVal,
    c: RawVal,
    value: &mut RawVal,
) -> u8
    ensures { Leaves (ternary_result number a b c) value.old value.new result }
{
    ternary::ternary_by_number(number, a, b, c, value)
}

#[unsafe(no_mangle)]
pub extern "C" fn wasmi_ternary_each(
    number: u16,
    a: &[RawVal],
    b: &[RawVal],
    c: &[RawVal],
    values: &mut [RawVal],
) -> u8
    ensures { Leaves (ternary_results number a.now b.now c.now (length values.old))
        values.old values.new result }
{
    ternary::ternary_each(number, a, b, c, values)
}

#[unsafe(no_mangle)]
pub extern "C" fn wasmi_load(
    number: u16,
    memory: &[u8],
    ptr: u64,
    offset: u64,
    value: &mut RawVal,
) -> u8
    ensures { Leaves (load_result number memory.now (ptr + offset)) value.old value.new result }
{
    load::load_by_number(number, memory, ptr, offset, value)
}

#[unsafe(no_mangle)]
pub extern "C" fn wasmi_load_each(
    number: u16,
    memory: &[u8],
    ptrs: &[u64],
    offset: u64,
    results: &mut [InstructionResult],
) -> u8
    ensures { Leaves (load_results number memory.now ptrs.now offset (length results.old))
        results.old results.new result }
{
    load::load_each(number, memory, ptrs, offset, results)
}

#[unsafe(no_mangle)]
pub extern "C" fn wasmi_store(
    number: u16,
    memory: &mut [u8],
    ptr: u64,
    offset: u64,
    value: RawVal,
) -> u8
    ensures { Leaves (store_result number memory.old (ptr + offset) value)
        memory.old memory.new result }
{
    store::store_by_number(number, memory, ptr, offset, value)
}

#[unsafe(no_mangle)]
pub extern "C" fn wasmi_extract_lane(number: u16, lane: u8, a: RawVal, value: &mut RawVal) -> u8
    ensures { Leaves (extract_result number lane a) value.old value.new result }
{
    lanes::extract_by_number(number, lane, a, value)
}

#[unsafe(no_mangle)]
pub extern "C" fn wasmi_extract_lane_each(
    number: u16,
    lane: u8,
    a: &[RawVal],
    values: &mut [RawVal],
) -> u8
    ensures { Leaves (extract_results number lane a.now (length values.old))
        values.old values.new result }
{
    lanes::extract_each(number, lane, a, values)
}

#[unsafe(no_mangle)]
pub extern "C" fn wasmi_replace_lane(
    number: u16,
    lane: u8,
    a: RawVal,
    item: RawVal,
    value: &mut RawVal,
) -> u8
    ensures { Leaves (replace_result number lane a item) value.old value.new result }
{
    lanes::replace_by_number(number, lane, a, item, value)
}

#[unsafe(no_mangle)]
pub extern "C" fn wasmi_replace_lane_each(
    number: u16,
    lane: u8,
    a: &[RawVal],
    items: &[RawVal],
    values: &mut [RawVal],
) -> u8
    ensures { Leaves (replace_results number lane a.now items.now (length values.old))
        values.old values.new result }
{
    lanes::replace_each(number, lane, a, items, values)
}

#[unsafe(no_mangle)]
pub extern "C" fn wasmi_load_lane(
    number: u16,
    lane: u8,
    memory: &[u8],
    ptr: u64,
    offset: u64,
    a: RawVal,
    value: &mut RawVal,
) -> u8
    ensures { Leaves (load_lane_result number lane memory.now (ptr + offset) a)
        value.old value.new result }
{
    lanes::load_lane(number, lane, memory, ptr, offset, a, value)
}

#[unsafe(no_mangle)]
pub extern "C" fn wasmi_store_lane(
    number: u16,
    lane: u8,
    memory: &mut [u8],
    ptr: u64,
    offset: u64,
    a: RawVal,
) -> u8
    ensures { Leaves (store_lane_result number lane memory.old (ptr + offset) a)
        memory.old memory.new result }
{
    lanes::store_lane(number, lane, memory, ptr, offset, a)
}

#[unsafe(no_mangle)]
pub extern "C" fn wasmi_i8x16_shuffle(
    a: RawVal,
    b: RawVal,
    lanes: &[u8; 16],
    value: &mut RawVal,
) -> u8
    ensures { Leaves (shuffle_result a b lanes.now) value.old value.new result }
{
    shuffle::shuffle(a, b, *lanes, value)
}

#[unsafe(no_mangle)]
pub extern "C" fn wasmi_v128_store(memory: &mut [u8], ptr: u64, offset: u64, value: RawVal) -> u8
    ensures { StoresBytes memory.old (ptr + offset) (le_bytes 16 (vector_in value)) memory.new result }
{
    status_of(simd::v128_store(memory, ptr, offset, value.into()))
}

#[unsafe(no_mangle)]
pub extern "C" fn wasmi_script_run(
    alloc: Global,
    script: &[u8],
    text: &mut [u8],
    needed: &mut usize,
) -> u8
    ensures answers { AnswersScript script.now text.old text.new needed.new result }
{
    script::run(alloc, script, text, needed)
}

/// The version of `include/wasmi_core.h`: major × 65536 + minor × 256 + patch.
#[unsafe(no_mangle)]
pub extern "C" fn wasmi_core_version() -> u32
    ensures { result ≡ 131072 }
{
    131_072
}
