//! The scalar integer instructions, and the loads and stores of the integer types.
//!
//! A load or store without `_at` accesses the address `ptr + offset`, one with `_at` the given
//! address; addresses count bytes. The only error of all 38 is `TrapCode::MemoryOutOfBounds`, if
//! the access ends past the memory; then nothing is written. Upstream: `wasmi_core::wasm`.

// Loads and stores.
pub use wasmi_access::wasm::{
    i32_load8_s, i32_load8_s_at, i32_load8_u, i32_load8_u_at, i32_load16_s, i32_load16_s_at,
    i32_load16_u, i32_load16_u_at, i32_store8, i32_store8_at, i32_store16, i32_store16_at,
    i64_load8_s, i64_load8_s_at, i64_load8_u, i64_load8_u_at, i64_load16_s, i64_load16_s_at,
    i64_load16_u, i64_load16_u_at, i64_load32_s, i64_load32_s_at, i64_load32_u, i64_load32_u_at,
    i64_store8, i64_store8_at, i64_store16, i64_store16_at, i64_store32, i64_store32_at, load_u32,
    load_u32_at, load_u64, load_u64_at, store32, store32_at, store64, store64_at,
};

// Integer instructions.
pub use wasmi_scalar::wasm::{
    i32_add, i32_bitand, i32_bitor, i32_bitxor, i32_clz, i32_ctz, i32_div_s, i32_div_u, i32_eq,
    i32_eqz, i32_extend8_s, i32_extend16_s, i32_ge_s, i32_ge_u, i32_gt_s, i32_gt_u, i32_le_s,
    i32_le_u, i32_lt_s, i32_lt_u, i32_mul, i32_ne, i32_popcnt, i32_rem_s, i32_rem_u, i32_rotl,
    i32_rotr, i32_shl, i32_shr_s, i32_shr_u, i32_sub, i32_wrap_i64, i64_add, i64_add128,
    i64_bitand, i64_bitor, i64_bitxor, i64_clz, i64_ctz, i64_div_s, i64_div_u, i64_eq, i64_eqz,
    i64_extend_i32_s, i64_extend_i32_u, i64_extend8_s, i64_extend16_s, i64_extend32_s, i64_ge_s,
    i64_ge_u, i64_gt_s, i64_gt_u, i64_le_s, i64_le_u, i64_lt_s, i64_lt_u, i64_mul, i64_mul_wide_s,
    i64_mul_wide_u, i64_ne, i64_popcnt, i64_rem_s, i64_rem_u, i64_rotl, i64_rotr, i64_shl,
    i64_shr_s, i64_shr_u, i64_sub, i64_sub128,
};
