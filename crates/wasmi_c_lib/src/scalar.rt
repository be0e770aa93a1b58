//! The scalar instructions by name, each described at the function of its name in
//! `wasmi_scalar::wasm`. `tools/header` writes this file.
//!
//! A status is 0, or the number of the trap; then nothing is written.
ghost use Rattle.std.specs.Int.{w8, w16, w32, w64, cast_unsigned, int_wrap};
ghost use Rattle.std.specs.Prelude.{◌≡◌, ◌*◌, ◌*ℤ◌};
ghost use Rattle.wasmi_c.specs.Instruction.{Gives};
ghost use Rattle.wasmi_scalar.specs.Numerics.{iadd, isub, imul, idiv_s, idiv_u, irem_s, irem_u, iand, ior, ixor, ishl, ishr_s, ishr_u, irotl, irotr, iclz, ictz, ipopcnt, ieqz, ieq, ine, ilt_s, ilt_u, igt_s, igt_u, ile_s, ile_u, ige_s, ige_u, unsigned_of, signed_of, add128, sub128};

use wasmi_c::instruction::result::{leave_item, leave_pair};
use wasmi_scalar::wasm;

#[unsafe(no_mangle)]
pub extern "C" fn wasmi_i32_clz(value: i32) -> i32
    ensures { result ≡ iclz w32 value }
{
    wasm::i32_clz(value)
}

#[unsafe(no_mangle)]
pub extern "C" fn wasmi_i32_ctz(value: i32) -> i32
    ensures { result ≡ ictz w32 value }
{
    wasm::i32_ctz(value)
}

#[unsafe(no_mangle)]
pub extern "C" fn wasmi_i32_popcnt(value: i32) -> i32
    ensures { result ≡ ipopcnt w32 value }
{
    wasm::i32_popcnt(value)
}

#[unsafe(no_mangle)]
pub extern "C" fn wasmi_i32_eqz(value: i32) -> bool
    ensures { result ≡ ieqz value }
{
    wasm::i32_eqz(value)
}

#[unsafe(no_mangle)]
pub extern "C" fn wasmi_i64_clz(value: i64) -> i64
    ensures { result ≡ iclz w64 value }
{
    wasm::i64_clz(value)
}

#[unsafe(no_mangle)]
pub extern "C" fn wasmi_i64_ctz(value: i64) -> i64
    ensures { result ≡ ictz w64 value }
{
    wasm::i64_ctz(value)
}

#[unsafe(no_mangle)]
pub extern "C" fn wasmi_i64_popcnt(value: i64) -> i64
    ensures { result ≡ ipopcnt w64 value }
{
    wasm::i64_popcnt(value)
}

#[unsafe(no_mangle)]
pub extern "C" fn wasmi_i64_eqz(value: i64) -> bool
    ensures { result ≡ ieqz value }
{
    wasm::i64_eqz(value)
}

#[unsafe(no_mangle)]
pub extern "C" fn wasmi_i32_wrap_i64(value: i64) -> i32
    ensures { result ≡ int_wrap w32 value }
{
    wasm::i32_wrap_i64(value)
}

#[unsafe(no_mangle)]
pub extern "C" fn wasmi_i64_extend_i32_s(value: i32) -> i64
    ensures { result ≡ value }
{
    wasm::i64_extend_i32_s(value)
}

#[unsafe(no_mangle)]
pub extern "C" fn wasmi_i64_extend_i32_u(value: u32) -> u64
    ensures { result ≡ value }
{
    wasm::i64_extend_i32_u(value)
}

#[unsafe(no_mangle)]
pub extern "C" fn wasmi_i32_extend8_s(value: i32) -> i32
    ensures { result ≡ int_wrap w8 value }
{
    wasm::i32_extend8_s(value)
}

#[unsafe(no_mangle)]
pub extern "C" fn wasmi_i32_extend16_s(value: i32) -> i32
    ensures { result ≡ int_wrap w16 value }
{
    wasm::i32_extend16_s(value)
}

#[unsafe(no_mangle)]
pub extern "C" fn wasmi_i64_extend8_s(value: i64) -> i64
    ensures { result ≡ int_wrap w8 value }
{
    wasm::i64_extend8_s(value)
}

#[unsafe(no_mangle)]
pub extern "C" fn wasmi_i64_extend16_s(value: i64) -> i64
    ensures { result ≡ int_wrap w16 value }
{
    wasm::i64_extend16_s(value)
}

#[unsafe(no_mangle)]
pub extern "C" fn wasmi_i64_extend32_s(value: i64) -> i64
    ensures { result ≡ int_wrap w32 value }
{
    wasm::i64_extend32_s(value)
}

#[unsafe(no_mangle)]
pub extern "C" fn wasmi_i32_add(lhs: i32, rhs: i32) -> i32
    ensures { result ≡ iadd w32 lhs rhs }
{
    wasm::i32_add(lhs, rhs)
}

#[unsafe(no_mangle)]
pub extern "C" fn wasmi_i32_sub(lhs: i32, rhs: i32) -> i32
    ensures { result ≡ isub w32 lhs rhs }
{
    wasm::i32_sub(lhs, rhs)
}

#[unsafe(no_mangle)]
pub extern "C" fn wasmi_i32_mul(lhs: i32, rhs: i32) -> i32
    ensures { result ≡ imul w32 lhs rhs }
{
    wasm::i32_mul(lhs, rhs)
}

#[unsafe(no_mangle)]
pub extern "C" fn wasmi_i32_bitand(lhs: i32, rhs: i32) -> i32
    ensures { result ≡ iand w32 lhs rhs }
{
    wasm::i32_bitand(lhs, rhs)
}

#[unsafe(no_mangle)]
pub extern "C" fn wasmi_i32_bitor(lhs: i32, rhs: i32) -> i32
    ensures { result ≡ ior w32 lhs rhs }
{
    wasm::i32_bitor(lhs, rhs)
}

#[unsafe(no_mangle)]
pub extern "C" fn wasmi_i32_bitxor(lhs: i32, rhs: i32) -> i32
    ensures { result ≡ ixor w32 lhs rhs }
{
    wasm::i32_bitxor(lhs, rhs)
}

#[unsafe(no_mangle)]
pub extern "C" fn wasmi_i32_shl(lhs: i32, rhs: i32) -> i32
    ensures { result ≡ ishl w32 lhs rhs }
{
    wasm::i32_shl(lhs, rhs)
}

#[unsafe(no_mangle)]
pub extern "C" fn wasmi_i32_shr_s(lhs: i32, rhs: i32) -> i32
    ensures { result ≡ ishr_s w32 lhs rhs }
{
    wasm::i32_shr_s(lhs, rhs)
}

#[unsafe(no_mangle)]
pub extern "C" fn wasmi_i32_shr_u(lhs: u32, rhs: u32) -> u32
    ensures { result ≡ ishr_u w32 lhs rhs }
{
    wasm::i32_shr_u(lhs, rhs)
}

#[unsafe(no_mangle)]
pub extern "C" fn wasmi_i32_rotl(lhs: i32, rhs: i32) -> i32
    ensures { result ≡ irotl w32 lhs rhs }
{
    wasm::i32_rotl(lhs, rhs)
}

#[unsafe(no_mangle)]
pub extern "C" fn wasmi_i32_rotr(lhs: i32, rhs: i32) -> i32
    ensures { result ≡ irotr w32 lhs rhs }
{
    wasm::i32_rotr(lhs, rhs)
}

#[unsafe(no_mangle)]
pub extern "C" fn wasmi_i32_div_s(lhs: i32, rhs: i32, value: &mut i32) -> u8
    ensures { Gives (idiv_s w32 lhs rhs) value.old value.new result }
{
    leave_item(wasm::i32_div_s(lhs, rhs), value)
}

#[unsafe(no_mangle)]
pub extern "C" fn wasmi_i32_div_u(lhs: u32, rhs: u32, value: &mut u32) -> u8
    ensures { Gives (idiv_u lhs rhs) value.old value.new result }
{
    leave_item(wasm::i32_div_u(lhs, rhs), value)
}

#[unsafe(no_mangle)]
pub extern "C" fn wasmi_i32_rem_s(lhs: i32, rhs: i32, value: &mut i32) -> u8
    ensures { Gives (irem_s lhs rhs) value.old value.new result }
{
    leave_item(wasm::i32_rem_s(lhs, rhs), value)
}

#[unsafe(no_mangle)]
pub extern "C" fn wasmi_i32_rem_u(lhs: u32, rhs: u32, value: &mut u32) -> u8
    ensures { Gives (irem_u lhs rhs) value.old value.new result }
{
    leave_item(wasm::i32_rem_u(lhs, rhs), value)
}

#[unsafe(no_mangle)]
pub extern "C" fn wasmi_i32_eq(lhs: i32, rhs: i32) -> bool
    ensures { result ≡ ieq lhs rhs }
{
    wasm::i32_eq(lhs, rhs)
}

#[unsafe(no_mangle)]
pub extern "C" fn wasmi_i32_ne(lhs: i32, rhs: i32) -> bool
    ensures { result ≡ ine lhs rhs }
{
    wasm::i32_ne(lhs, rhs)
}

#[unsafe(no_mangle)]
pub extern "C" fn wasmi_i32_lt_s(lhs: i32, rhs: i32) -> bool
    ensures { result ≡ ilt_s lhs rhs }
{
    wasm::i32_lt_s(lhs, rhs)
}

#[unsafe(no_mangle)]
pub extern "C" fn wasmi_i32_lt_u(lhs: u32, rhs: u32) -> bool
    ensures { result ≡ ilt_u lhs rhs }
{
    wasm::i32_lt_u(lhs, rhs)
}

#[unsafe(no_mangle)]
pub extern "C" fn wasmi_i32_le_s(lhs: i32, rhs: i32) -> bool
    ensures { result ≡ ile_s lhs rhs }
{
    wasm::i32_le_s(lhs, rhs)
}

#[unsafe(no_mangle)]
pub extern "C" fn wasmi_i32_le_u(lhs: u32, rhs: u32) -> bool
    ensures { result ≡ ile_u lhs rhs }
{
    wasm::i32_le_u(lhs, rhs)
}

#[unsafe(no_mangle)]
pub extern "C" fn wasmi_i32_gt_s(lhs: i32, rhs: i32) -> bool
    ensures { result ≡ igt_s lhs rhs }
{
    wasm::i32_gt_s(lhs, rhs)
}

#[unsafe(no_mangle)]
pub extern "C" fn wasmi_i32_gt_u(lhs: u32, rhs: u32) -> bool
    ensures { result ≡ igt_u lhs rhs }
{
    wasm::i32_gt_u(lhs, rhs)
}

#[unsafe(no_mangle)]
pub extern "C" fn wasmi_i32_ge_s(lhs: i32, rhs: i32) -> bool
    ensures { result ≡ ige_s lhs rhs }
{
    wasm::i32_ge_s(lhs, rhs)
}

#[unsafe(no_mangle)]
pub extern "C" fn wasmi_i32_ge_u(lhs: u32, rhs: u32) -> bool
    ensures { result ≡ ige_u lhs rhs }
{
    wasm::i32_ge_u(lhs, rhs)
}

#[unsafe(no_mangle)]
pub extern "C" fn wasmi_i64_add(lhs: i64, rhs: i64) -> i64
    ensures { result ≡ iadd w64 lhs rhs }
{
    wasm::i64_add(lhs, rhs)
}

#[unsafe(no_mangle)]
pub extern "C" fn wasmi_i64_sub(lhs: i64, rhs: i64) -> i64
    ensures { result ≡ isub w64 lhs rhs }
{
    wasm::i64_sub(lhs, rhs)
}

#[unsafe(no_mangle)]
pub extern "C" fn wasmi_i64_mul(lhs: i64, rhs: i64) -> i64
    ensures { result ≡ imul w64 lhs rhs }
{
    wasm::i64_mul(lhs, rhs)
}

#[unsafe(no_mangle)]
pub extern "C" fn wasmi_i64_bitand(lhs: i64, rhs: i64) -> i64
    ensures { result ≡ iand w64 lhs rhs }
{
    wasm::i64_bitand(lhs, rhs)
}

#[unsafe(no_mangle)]
pub extern "C" fn wasmi_i64_bitor(lhs: i64, rhs: i64) -> i64
    ensures { result ≡ ior w64 lhs rhs }
{
    wasm::i64_bitor(lhs, rhs)
}

#[unsafe(no_mangle)]
pub extern "C" fn wasmi_i64_bitxor(lhs: i64, rhs: i64) -> i64
    ensures { result ≡ ixor w64 lhs rhs }
{
    wasm::i64_bitxor(lhs, rhs)
}

#[unsafe(no_mangle)]
pub extern "C" fn wasmi_i64_shl(lhs: i64, rhs: i64) -> i64
    ensures { result ≡ ishl w64 lhs rhs }
{
    wasm::i64_shl(lhs, rhs)
}

#[unsafe(no_mangle)]
pub extern "C" fn wasmi_i64_shr_s(lhs: i64, rhs: i64) -> i64
    ensures { result ≡ ishr_s w64 lhs rhs }
{
    wasm::i64_shr_s(lhs, rhs)
}

#[unsafe(no_mangle)]
pub extern "C" fn wasmi_i64_shr_u(lhs: u64, rhs: u64) -> u64
    ensures { result ≡ ishr_u w64 lhs rhs }
{
    wasm::i64_shr_u(lhs, rhs)
}

#[unsafe(no_mangle)]
pub extern "C" fn wasmi_i64_rotl(lhs: i64, rhs: i64) -> i64
    ensures { result ≡ irotl w64 lhs rhs }
{
    wasm::i64_rotl(lhs, rhs)
}

#[unsafe(no_mangle)]
pub extern "C" fn wasmi_i64_rotr(lhs: i64, rhs: i64) -> i64
    ensures { result ≡ irotr w64 lhs rhs }
{
    wasm::i64_rotr(lhs, rhs)
}

#[unsafe(no_mangle)]
pub extern "C" fn wasmi_i64_div_s(lhs: i64, rhs: i64, value: &mut i64) -> u8
    ensures { Gives (idiv_s w64 lhs rhs) value.old value.new result }
{
    leave_item(wasm::i64_div_s(lhs, rhs), value)
}

#[unsafe(no_mangle)]
pub extern "C" fn wasmi_i64_div_u(lhs: u64, rhs: u64, value: &mut u64) -> u8
    ensures { Gives (idiv_u lhs rhs) value.old value.new result }
{
    leave_item(wasm::i64_div_u(lhs, rhs), value)
}

#[unsafe(no_mangle)]
pub extern "C" fn wasmi_i64_rem_s(lhs: i64, rhs: i64, value: &mut i64) -> u8
    ensures { Gives (irem_s lhs rhs) value.old value.new result }
{
    leave_item(wasm::i64_rem_s(lhs, rhs), value)
}

#[unsafe(no_mangle)]
pub extern "C" fn wasmi_i64_rem_u(lhs: u64, rhs: u64, value: &mut u64) -> u8
    ensures { Gives (irem_u lhs rhs) value.old value.new result }
{
    leave_item(wasm::i64_rem_u(lhs, rhs), value)
}

#[unsafe(no_mangle)]
pub extern "C" fn wasmi_i64_eq(lhs: i64, rhs: i64) -> bool
    ensures { result ≡ ieq lhs rhs }
{
    wasm::i64_eq(lhs, rhs)
}

#[unsafe(no_mangle)]
pub extern "C" fn wasmi_i64_ne(lhs: i64, rhs: i64) -> bool
    ensures { result ≡ ine lhs rhs }
{
    wasm::i64_ne(lhs, rhs)
}

#[unsafe(no_mangle)]
pub extern "C" fn wasmi_i64_lt_s(lhs: i64, rhs: i64) -> bool
    ensures { result ≡ ilt_s lhs rhs }
{
    wasm::i64_lt_s(lhs, rhs)
}

#[unsafe(no_mangle)]
pub extern "C" fn wasmi_i64_lt_u(lhs: u64, rhs: u64) -> bool
    ensures { result ≡ ilt_u lhs rhs }
{
    wasm::i64_lt_u(lhs, rhs)
}

#[unsafe(no_mangle)]
pub extern "C" fn wasmi_i64_le_s(lhs: i64, rhs: i64) -> bool
    ensures { result ≡ ile_s lhs rhs }
{
    wasm::i64_le_s(lhs, rhs)
}

#[unsafe(no_mangle)]
pub extern "C" fn wasmi_i64_le_u(lhs: u64, rhs: u64) -> bool
    ensures { result ≡ ile_u lhs rhs }
{
    wasm::i64_le_u(lhs, rhs)
}

#[unsafe(no_mangle)]
pub extern "C" fn wasmi_i64_gt_s(lhs: i64, rhs: i64) -> bool
    ensures { result ≡ igt_s lhs rhs }
{
    wasm::i64_gt_s(lhs, rhs)
}

#[unsafe(no_mangle)]
pub extern "C" fn wasmi_i64_gt_u(lhs: u64, rhs: u64) -> bool
    ensures { result ≡ igt_u lhs rhs }
{
    wasm::i64_gt_u(lhs, rhs)
}

#[unsafe(no_mangle)]
pub extern "C" fn wasmi_i64_ge_s(lhs: i64, rhs: i64) -> bool
    ensures { result ≡ ige_s lhs rhs }
{
    wasm::i64_ge_s(lhs, rhs)
}

#[unsafe(no_mangle)]
pub extern "C" fn wasmi_i64_ge_u(lhs: u64, rhs: u64) -> bool
    ensures { result ≡ ige_u lhs rhs }
{
    wasm::i64_ge_u(lhs, rhs)
}

#[unsafe(no_mangle)]
pub extern "C" fn wasmi_i64_add128(
    lhs_lo: i64,
    lhs_hi: i64,
    rhs_lo: i64,
    rhs_hi: i64,
    lo: &mut i64,
    hi: &mut i64,
)
    ensures { unsigned_of lo.new hi.new ≡ add128 (unsigned_of lhs_lo lhs_hi) (unsigned_of rhs_lo
        rhs_hi) }
{
    leave_pair(wasm::i64_add128(lhs_lo, lhs_hi, rhs_lo, rhs_hi), lo, hi)
}

#[unsafe(no_mangle)]
pub extern "C" fn wasmi_i64_sub128(
    lhs_lo: i64,
    lhs_hi: i64,
    rhs_lo: i64,
    rhs_hi: i64,
    lo: &mut i64,
    hi: &mut i64,
)
    ensures { unsigned_of lo.new hi.new ≡ sub128 (unsigned_of lhs_lo lhs_hi) (unsigned_of rhs_lo
        rhs_hi) }
{
    leave_pair(wasm::i64_sub128(lhs_lo, lhs_hi, rhs_lo, rhs_hi), lo, hi)
}

#[unsafe(no_mangle)]
pub extern "C" fn wasmi_i64_mul_wide_s(lhs: i64, rhs: i64, lo: &mut i64, hi: &mut i64)
    ensures { signed_of lo.new hi.new ≡ lhs *ℤ rhs }
{
    leave_pair(wasm::i64_mul_wide_s(lhs, rhs), lo, hi)
}

#[unsafe(no_mangle)]
pub extern "C" fn wasmi_i64_mul_wide_u(lhs: i64, rhs: i64, lo: &mut i64, hi: &mut i64)
    ensures { unsigned_of lo.new hi.new ≡ cast_unsigned w64 lhs * cast_unsigned w64 rhs }
{
    leave_pair(wasm::i64_mul_wide_u(lhs, rhs), lo, hi)
}
