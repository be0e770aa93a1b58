//! The vector instructions, the loads and stores of vectors, and the lane types and indices.
//! Upstream: `wasmi_core::simd`.

// Lanes, their indices, and vectors as lanes.
pub use wasmi_lanes::{LaneArray, LaneIndex, LaneInteger, LaneItem, Narrower, SimdLane, WordLane};
pub use wasmi_lanewise::simd::{
    FromNarrow, FromWide, I8x16, I16x8, I32x4, I64x2, ImmLaneIdx, ImmLaneIdx2, ImmLaneIdx4,
    ImmLaneIdx8, ImmLaneIdx16, ImmLaneIdx32, IntoLaneIdx, IntoLanes, Lanes, OutOfBoundsLaneIdx,
    U8x16, U16x8, U32x4, U64x2,
};

// Lane by lane, on lanes of 8 or 16 bits.
pub use wasmi_lanewise::simd::{
    i8x16_abs, i8x16_add, i8x16_add_sat_s, i8x16_add_sat_u, i8x16_avgr_u, i8x16_eq,
    i8x16_extract_lane_s, i8x16_extract_lane_u, i8x16_ge_s, i8x16_ge_u, i8x16_gt_s, i8x16_gt_u,
    i8x16_le_s, i8x16_le_u, i8x16_lt_s, i8x16_lt_u, i8x16_max_s, i8x16_max_u, i8x16_min_s,
    i8x16_min_u, i8x16_mul, i8x16_ne, i8x16_neg, i8x16_popcnt, i8x16_replace_lane, i8x16_shuffle,
    i8x16_splat, i8x16_sub, i8x16_sub_sat_s, i8x16_sub_sat_u, i8x16_swizzle, i16x8_abs, i16x8_add,
    i16x8_add_sat_s, i16x8_add_sat_u, i16x8_avgr_u, i16x8_eq, i16x8_extract_lane_s,
    i16x8_extract_lane_u, i16x8_ge_s, i16x8_ge_u, i16x8_gt_s, i16x8_gt_u, i16x8_le_s, i16x8_le_u,
    i16x8_lt_s, i16x8_lt_u, i16x8_max_s, i16x8_max_u, i16x8_min_s, i16x8_min_u, i16x8_mul,
    i16x8_ne, i16x8_neg, i16x8_q15mulr_sat_s, i16x8_replace_lane, i16x8_splat, i16x8_sub,
    i16x8_sub_sat_s, i16x8_sub_sat_u,
};

// Lane by lane, on lanes of 32 or 64 bits, and on whole vectors.
pub use wasmi_lanewise::simd::{
    i32x4_abs, i32x4_add, i32x4_eq, i32x4_extract_lane, i32x4_ge_s, i32x4_ge_u, i32x4_gt_s,
    i32x4_gt_u, i32x4_le_s, i32x4_le_u, i32x4_lt_s, i32x4_lt_u, i32x4_max_s, i32x4_max_u,
    i32x4_min_s, i32x4_min_u, i32x4_mul, i32x4_ne, i32x4_neg, i32x4_replace_lane, i32x4_splat,
    i32x4_sub, i64x2_abs, i64x2_add, i64x2_eq, i64x2_extract_lane, i64x2_ge_s, i64x2_gt_s,
    i64x2_le_s, i64x2_lt_s, i64x2_mul, i64x2_ne, i64x2_neg, i64x2_replace_lane, i64x2_splat,
    i64x2_sub, v128_and, v128_andnot, v128_bitselect, v128_not, v128_or, v128_xor,
};

// Instructions that widen, narrow, shift or test lanes, and the relaxed ones.
pub use wasmi_simd::simd::{
    i8x16_all_true, i8x16_bitmask, i8x16_narrow_i16x8_s, i8x16_narrow_i16x8_u,
    i8x16_relaxed_laneselect, i8x16_relaxed_swizzle, i8x16_shl, i8x16_shr_s, i8x16_shr_u,
    i16x8_all_true, i16x8_bitmask, i16x8_extadd_pairwise_i8x16_s, i16x8_extadd_pairwise_i8x16_u,
    i16x8_extend_high_i8x16_s, i16x8_extend_high_i8x16_u, i16x8_extend_low_i8x16_s,
    i16x8_extend_low_i8x16_u, i16x8_extmul_high_i8x16_s, i16x8_extmul_high_i8x16_u,
    i16x8_extmul_low_i8x16_s, i16x8_extmul_low_i8x16_u, i16x8_narrow_i32x4_s, i16x8_narrow_i32x4_u,
    i16x8_relaxed_dot_i8x16_i7x16_s, i16x8_relaxed_laneselect, i16x8_relaxed_q15mulr_s, i16x8_shl,
    i16x8_shr_s, i16x8_shr_u, i32x4_all_true, i32x4_bitmask, i32x4_dot_i16x8_s,
    i32x4_extadd_pairwise_i16x8_s, i32x4_extadd_pairwise_i16x8_u, i32x4_extend_high_i16x8_s,
    i32x4_extend_high_i16x8_u, i32x4_extend_low_i16x8_s, i32x4_extend_low_i16x8_u,
    i32x4_extmul_high_i16x8_s, i32x4_extmul_high_i16x8_u, i32x4_extmul_low_i16x8_s,
    i32x4_extmul_low_i16x8_u, i32x4_relaxed_dot_i8x16_i7x16_add_s, i32x4_relaxed_laneselect,
    i32x4_shl, i32x4_shr_s, i32x4_shr_u, i64x2_all_true, i64x2_bitmask, i64x2_extend_high_i32x4_s,
    i64x2_extend_high_i32x4_u, i64x2_extend_low_i32x4_s, i64x2_extend_low_i32x4_u,
    i64x2_extmul_high_i32x4_s, i64x2_extmul_high_i32x4_u, i64x2_extmul_low_i32x4_s,
    i64x2_extmul_low_i32x4_u, i64x2_relaxed_laneselect, i64x2_shl, i64x2_shr_s, i64x2_shr_u,
    v128_any_true, v128_low32_zero, v128_low64_zero, v128_widen8x8_s, v128_widen8x8_u,
    v128_widen16x4_s, v128_widen16x4_u, v128_widen32x2_s, v128_widen32x2_u,
};

// Loads and stores.
pub use wasmi_vector_access::simd::{
    v128_load, v128_load_at, v128_load8_lane, v128_load8_lane_at, v128_load8_splat,
    v128_load8_splat_at, v128_load8x8_s, v128_load8x8_s_at, v128_load8x8_u, v128_load8x8_u_at,
    v128_load16_lane, v128_load16_lane_at, v128_load16_splat, v128_load16_splat_at,
    v128_load16x4_s, v128_load16x4_s_at, v128_load16x4_u, v128_load16x4_u_at, v128_load32_lane,
    v128_load32_lane_at, v128_load32_splat, v128_load32_splat_at, v128_load32_zero,
    v128_load32_zero_at, v128_load32x2_s, v128_load32x2_s_at, v128_load32x2_u, v128_load32x2_u_at,
    v128_load64_lane, v128_load64_lane_at, v128_load64_splat, v128_load64_splat_at,
    v128_load64_zero, v128_load64_zero_at, v128_store, v128_store_at, v128_store8_lane,
    v128_store8_lane_at, v128_store16_lane, v128_store16_lane_at, v128_store32_lane,
    v128_store32_lane_at, v128_store64_lane, v128_store64_lane_at,
};
