//! The vector instructions as values, on vectors and raw values, with the loads and stores of
//! vectors and of one lane. A kind is an instruction on one lane without its index.
ghost use Rattle.std.specs.Prelude.{◌≡◌, ◌+◌};
ghost use Rattle.wasmi_access.specs.LoadStore.{IsStore};
ghost use Rattle.wasmi_ops.specs.LaneOps.{extracted_raw, extract_op, replaced_vector, replace_op, loaded_lane, load_lane_op, stored_lane, store_lane_op};
ghost use Rattle.wasmi_ops.specs.VectorOps.{made_vector, unary_vector, binary_vector, ternary_vector, shifted_vector, tested_raw, loaded_vector};

use crate::rows::{calls, names, on_lane};
use wasmi_lanes::{ImmLaneIdx2, ImmLaneIdx4, ImmLaneIdx8, ImmLaneIdx16};
use wasmi_lanewise::simd as lanewise;
use wasmi_raw::{RawVal, ReadAs, V128};
use wasmi_simd::simd;
use wasmi_types::TrapCode;
use wasmi_vector_access::simd as access;

/// A vector instruction whose operand is an item.
#[derive(Clone, Copy, Debug, PartialEq, Eq)]
pub enum MakeOp {
    I8x16Splat,
    I16x8Splat,
    I32x4Splat,
    I64x2Splat,
    V128Widen8x8S,
    V128Widen8x8U,
    V128Widen16x4S,
    V128Widen16x4U,
    V128Widen32x2S,
    V128Widen32x2U,
    V128Low32Zero,
    V128Low64Zero,
}

macro_rules! makes {
    ($make:ident! $($with:tt)*) => { $make! { [$($with)*]
        lanewise [] {
            I8x16Splat i8x16_splat, I16x8Splat i16x8_splat,
            I32x4Splat i32x4_splat, I64x2Splat i64x2_splat,
        }
        simd [] {
            V128Widen8x8S v128_widen8x8_s, V128Widen8x8U v128_widen8x8_u,
            V128Widen16x4S v128_widen16x4_s, V128Widen16x4U v128_widen16x4_u,
            V128Widen32x2S v128_widen32x2_s, V128Widen32x2U v128_widen32x2_u,
            V128Low32Zero v128_low32_zero, V128Low64Zero v128_low64_zero,
        }
    } };
}

/// What makes a vector of an item, by name, in the order of the C library's numbers.
pub const MAKES: [(&str, MakeOp); 12] = makes!(names! MakeOp);

impl MakeOp {
    /// The vector that is made of an item in a raw value.
    pub fn apply(self, raw: RawVal) -> V128
        ensures { result ≡ made_vector self raw }
    {
        makes!(calls! self(raw.read_as()))
    }
}

/// A vector instruction of one operand.
#[derive(Clone, Copy, Debug, PartialEq, Eq)]
pub enum UnaryOp {
    V128Not,
    I8x16Neg,
    I16x8Neg,
    I32x4Neg,
    I64x2Neg,
    I8x16Abs,
    I16x8Abs,
    I32x4Abs,
    I64x2Abs,
    I8x16Popcnt,
    I16x8ExtendLowI8x16S,
    I16x8ExtendLowI8x16U,
    I16x8ExtendHighI8x16S,
    I16x8ExtendHighI8x16U,
    I32x4ExtendLowI16x8S,
    I32x4ExtendLowI16x8U,
    I32x4ExtendHighI16x8S,
    I32x4ExtendHighI16x8U,
    I64x2ExtendLowI32x4S,
    I64x2ExtendLowI32x4U,
    I64x2ExtendHighI32x4S,
    I64x2ExtendHighI32x4U,
    I16x8ExtaddPairwiseI8x16S,
    I16x8ExtaddPairwiseI8x16U,
    I32x4ExtaddPairwiseI16x8S,
    I32x4ExtaddPairwiseI16x8U,
}

macro_rules! unaries {
    ($make:ident! $($with:tt)*) => { $make! { [$($with)*]
        lanewise [] {
            V128Not v128_not,
            I8x16Neg i8x16_neg, I16x8Neg i16x8_neg, I32x4Neg i32x4_neg, I64x2Neg i64x2_neg,
            I8x16Abs i8x16_abs, I16x8Abs i16x8_abs, I32x4Abs i32x4_abs, I64x2Abs i64x2_abs,
            I8x16Popcnt i8x16_popcnt,
        }
        simd [] {
            I16x8ExtendLowI8x16S i16x8_extend_low_i8x16_s,
            I16x8ExtendLowI8x16U i16x8_extend_low_i8x16_u,
            I16x8ExtendHighI8x16S i16x8_extend_high_i8x16_s,
            I16x8ExtendHighI8x16U i16x8_extend_high_i8x16_u,
            I32x4ExtendLowI16x8S i32x4_extend_low_i16x8_s,
            I32x4ExtendLowI16x8U i32x4_extend_low_i16x8_u,
            I32x4ExtendHighI16x8S i32x4_extend_high_i16x8_s,
            I32x4ExtendHighI16x8U i32x4_extend_high_i16x8_u,
            I64x2ExtendLowI32x4S i64x2_extend_low_i32x4_s,
            I64x2ExtendLowI32x4U i64x2_extend_low_i32x4_u,
            I64x2ExtendHighI32x4S i64x2_extend_high_i32x4_s,
            I64x2ExtendHighI32x4U i64x2_extend_high_i32x4_u,
            I16x8ExtaddPairwiseI8x16S i16x8_extadd_pairwise_i8x16_s,
            I16x8ExtaddPairwiseI8x16U i16x8_extadd_pairwise_i8x16_u,
            I32x4ExtaddPairwiseI16x8S i32x4_extadd_pairwise_i16x8_s,
            I32x4ExtaddPairwiseI16x8U i32x4_extadd_pairwise_i16x8_u,
        }
    } };
}

/// The instructions of one vector by name, in the order of the C library's numbers.
pub const UNARIES: [(&str, UnaryOp); 26] = unaries!(names! UnaryOp);

impl UnaryOp {
    /// The result for an operand.
    pub fn apply(self, a: V128) -> V128
        ensures { result ≡ unary_vector self a }
    {
        unaries!(calls! self(a))
    }
}

/// A vector instruction of two operands.
#[derive(Clone, Copy, Debug, PartialEq, Eq)]
pub enum BinaryOp {
    I8x16Add,
    I16x8Add,
    I32x4Add,
    I64x2Add,
    I8x16Sub,
    I16x8Sub,
    I32x4Sub,
    I64x2Sub,
    I8x16Mul,
    I16x8Mul,
    I32x4Mul,
    I64x2Mul,
    I8x16AddSatS,
    I8x16AddSatU,
    I16x8AddSatS,
    I16x8AddSatU,
    I8x16SubSatS,
    I8x16SubSatU,
    I16x8SubSatS,
    I16x8SubSatU,
    I16x8Q15mulrSatS,
    I8x16MinS,
    I8x16MinU,
    I16x8MinS,
    I16x8MinU,
    I32x4MinS,
    I32x4MinU,
    I8x16MaxS,
    I8x16MaxU,
    I16x8MaxS,
    I16x8MaxU,
    I32x4MaxS,
    I32x4MaxU,
    I8x16AvgrU,
    I16x8AvgrU,
    V128And,
    V128Or,
    V128Xor,
    V128Andnot,
    I8x16Eq,
    I16x8Eq,
    I32x4Eq,
    I64x2Eq,
    I8x16Ne,
    I16x8Ne,
    I32x4Ne,
    I64x2Ne,
    I8x16LtS,
    I16x8LtS,
    I32x4LtS,
    I64x2LtS,
    I8x16LtU,
    I16x8LtU,
    I32x4LtU,
    I8x16LeS,
    I16x8LeS,
    I32x4LeS,
    I64x2LeS,
    I8x16LeU,
    I16x8LeU,
    I32x4LeU,
    I8x16GtS,
    I16x8GtS,
    I32x4GtS,
    I64x2GtS,
    I8x16GtU,
    I16x8GtU,
    I32x4GtU,
    I8x16GeS,
    I16x8GeS,
    I32x4GeS,
    I64x2GeS,
    I8x16GeU,
    I16x8GeU,
    I32x4GeU,
    I8x16Swizzle,
    I16x8ExtmulLowI8x16S,
    I16x8ExtmulLowI8x16U,
    I16x8ExtmulHighI8x16S,
    I16x8ExtmulHighI8x16U,
    I32x4ExtmulLowI16x8S,
    I32x4ExtmulLowI16x8U,
    I32x4ExtmulHighI16x8S,
    I32x4ExtmulHighI16x8U,
    I64x2ExtmulLowI32x4S,
    I64x2ExtmulLowI32x4U,
    I64x2ExtmulHighI32x4S,
    I64x2ExtmulHighI32x4U,
    I8x16NarrowI16x8S,
    I8x16NarrowI16x8U,
    I16x8NarrowI32x4S,
    I16x8NarrowI32x4U,
    I32x4DotI16x8S,
    I16x8RelaxedDotI8x16I7x16S,
    I8x16RelaxedSwizzle,
    I16x8RelaxedQ15mulrS,
}

macro_rules! binaries {
    ($make:ident! $($with:tt)*) => { $make! { [$($with)*]
        lanewise [] {
            I8x16Add i8x16_add, I16x8Add i16x8_add, I32x4Add i32x4_add, I64x2Add i64x2_add,
            I8x16Sub i8x16_sub, I16x8Sub i16x8_sub, I32x4Sub i32x4_sub, I64x2Sub i64x2_sub,
            I8x16Mul i8x16_mul, I16x8Mul i16x8_mul, I32x4Mul i32x4_mul, I64x2Mul i64x2_mul,
            I8x16AddSatS i8x16_add_sat_s, I8x16AddSatU i8x16_add_sat_u,
            I16x8AddSatS i16x8_add_sat_s, I16x8AddSatU i16x8_add_sat_u,
            I8x16SubSatS i8x16_sub_sat_s, I8x16SubSatU i8x16_sub_sat_u,
            I16x8SubSatS i16x8_sub_sat_s, I16x8SubSatU i16x8_sub_sat_u,
            I16x8Q15mulrSatS i16x8_q15mulr_sat_s,
            I8x16MinS i8x16_min_s, I8x16MinU i8x16_min_u, I16x8MinS i16x8_min_s,
            I16x8MinU i16x8_min_u, I32x4MinS i32x4_min_s, I32x4MinU i32x4_min_u,
            I8x16MaxS i8x16_max_s, I8x16MaxU i8x16_max_u, I16x8MaxS i16x8_max_s,
            I16x8MaxU i16x8_max_u, I32x4MaxS i32x4_max_s, I32x4MaxU i32x4_max_u,
            I8x16AvgrU i8x16_avgr_u, I16x8AvgrU i16x8_avgr_u,
            V128And v128_and, V128Or v128_or, V128Xor v128_xor, V128Andnot v128_andnot,
            I8x16Eq i8x16_eq, I16x8Eq i16x8_eq, I32x4Eq i32x4_eq, I64x2Eq i64x2_eq,
            I8x16Ne i8x16_ne, I16x8Ne i16x8_ne, I32x4Ne i32x4_ne, I64x2Ne i64x2_ne,
            I8x16LtS i8x16_lt_s, I16x8LtS i16x8_lt_s, I32x4LtS i32x4_lt_s, I64x2LtS i64x2_lt_s,
            I8x16LtU i8x16_lt_u, I16x8LtU i16x8_lt_u, I32x4LtU i32x4_lt_u,
            I8x16LeS i8x16_le_s, I16x8LeS i16x8_le_s, I32x4LeS i32x4_le_s, I64x2LeS i64x2_le_s,
            I8x16LeU i8x16_le_u, I16x8LeU i16x8_le_u, I32x4LeU i32x4_le_u,
            I8x16GtS i8x16_gt_s, I16x8GtS i16x8_gt_s, I32x4GtS i32x4_gt_s, I64x2GtS i64x2_gt_s,
            I8x16GtU i8x16_gt_u, I16x8GtU i16x8_gt_u, I32x4GtU i32x4_gt_u,
            I8x16GeS i8x16_ge_s, I16x8GeS i16x8_ge_s, I32x4GeS i32x4_ge_s, I64x2GeS i64x2_ge_s,
            I8x16GeU i8x16_ge_u, I16x8GeU i16x8_ge_u, I32x4GeU i32x4_ge_u,
            I8x16Swizzle i8x16_swizzle,
        }
        simd [] {
            I16x8ExtmulLowI8x16S i16x8_extmul_low_i8x16_s,
            I16x8ExtmulLowI8x16U i16x8_extmul_low_i8x16_u,
            I16x8ExtmulHighI8x16S i16x8_extmul_high_i8x16_s,
            I16x8ExtmulHighI8x16U i16x8_extmul_high_i8x16_u,
            I32x4ExtmulLowI16x8S i32x4_extmul_low_i16x8_s,
            I32x4ExtmulLowI16x8U i32x4_extmul_low_i16x8_u,
            I32x4ExtmulHighI16x8S i32x4_extmul_high_i16x8_s,
            I32x4ExtmulHighI16x8U i32x4_extmul_high_i16x8_u,
            I64x2ExtmulLowI32x4S i64x2_extmul_low_i32x4_s,
            I64x2ExtmulLowI32x4U i64x2_extmul_low_i32x4_u,
            I64x2ExtmulHighI32x4S i64x2_extmul_high_i32x4_s,
            I64x2ExtmulHighI32x4U i64x2_extmul_high_i32x4_u,
            I8x16NarrowI16x8S i8x16_narrow_i16x8_s, I8x16NarrowI16x8U i8x16_narrow_i16x8_u,
            I16x8NarrowI32x4S i16x8_narrow_i32x4_s, I16x8NarrowI32x4U i16x8_narrow_i32x4_u,
            I32x4DotI16x8S i32x4_dot_i16x8_s,
            I16x8RelaxedDotI8x16I7x16S i16x8_relaxed_dot_i8x16_i7x16_s,
            I8x16RelaxedSwizzle i8x16_relaxed_swizzle, I16x8RelaxedQ15mulrS i16x8_relaxed_q15mulr_s,
        }
    } };
}

/// The instructions of two vectors by name, in the order of the C library's numbers.
pub const BINARIES: [(&str, BinaryOp); 96] = binaries!(names! BinaryOp);

impl BinaryOp {
    /// The result for two operands.
    pub fn apply(self, a: V128, b: V128) -> V128
        ensures { result ≡ binary_vector self a b }
    {
        binaries!(calls! self(a, b))
    }
}

/// A vector instruction of three operands.
#[derive(Clone, Copy, Debug, PartialEq, Eq)]
pub enum TernaryOp {
    V128Bitselect,
    I8x16RelaxedLaneselect,
    I16x8RelaxedLaneselect,
    I32x4RelaxedLaneselect,
    I64x2RelaxedLaneselect,
    I32x4RelaxedDotI8x16I7x16AddS,
}

macro_rules! ternaries {
    ($make:ident! $($with:tt)*) => { $make! { [$($with)*]
        lanewise [] {
            V128Bitselect v128_bitselect,
        }
        simd [] {
            I8x16RelaxedLaneselect i8x16_relaxed_laneselect,
            I16x8RelaxedLaneselect i16x8_relaxed_laneselect,
            I32x4RelaxedLaneselect i32x4_relaxed_laneselect,
            I64x2RelaxedLaneselect i64x2_relaxed_laneselect,
            I32x4RelaxedDotI8x16I7x16AddS i32x4_relaxed_dot_i8x16_i7x16_add_s,
        }
    } };
}

/// The instructions of three vectors by name, in the order of the C library's numbers.
pub const TERNARIES: [(&str, TernaryOp); 6] = ternaries!(names! TernaryOp);

impl TernaryOp {
    /// The result for three operands.
    pub fn apply(self, a: V128, b: V128, c: V128) -> V128
        ensures { result ≡ ternary_vector self a b c }
    {
        ternaries!(calls! self(a, b, c))
    }
}

/// A shift of the lanes of a vector, by an amount modulo their width.
#[derive(Clone, Copy, Debug, PartialEq, Eq)]
pub enum ShiftOp {
    I8x16Shl,
    I8x16ShrS,
    I8x16ShrU,
    I16x8Shl,
    I16x8ShrS,
    I16x8ShrU,
    I32x4Shl,
    I32x4ShrS,
    I32x4ShrU,
    I64x2Shl,
    I64x2ShrS,
    I64x2ShrU,
}

macro_rules! shifts {
    ($make:ident! $($with:tt)*) => { $make! { [$($with)*] simd [] {
        I8x16Shl i8x16_shl, I8x16ShrS i8x16_shr_s, I8x16ShrU i8x16_shr_u,
        I16x8Shl i16x8_shl, I16x8ShrS i16x8_shr_s, I16x8ShrU i16x8_shr_u,
        I32x4Shl i32x4_shl, I32x4ShrS i32x4_shr_s, I32x4ShrU i32x4_shr_u,
        I64x2Shl i64x2_shl, I64x2ShrS i64x2_shr_s, I64x2ShrU i64x2_shr_u,
    } } };
}

/// The shifts of lanes by name, in the order of the C library's numbers.
pub const SHIFTS: [(&str, ShiftOp); 12] = shifts!(names! ShiftOp);

impl ShiftOp {
    /// The result for an operand and an amount.
    pub fn apply(self, a: V128, amount: u32) -> V128
        ensures { result ≡ shifted_vector self a amount }
    {
        shifts!(calls! self(a, amount))
    }
}

/// A test of a vector, or its mask.
#[derive(Clone, Copy, Debug, PartialEq, Eq)]
pub enum TestOp {
    I8x16AllTrue,
    I16x8AllTrue,
    I32x4AllTrue,
    I64x2AllTrue,
    V128AnyTrue,
    I8x16Bitmask,
    I16x8Bitmask,
    I32x4Bitmask,
    I64x2Bitmask,
}

macro_rules! tests {
    ($make:ident! $($with:tt)*) => { $make! { [$($with)*] simd [.into()] {
        I8x16AllTrue i8x16_all_true, I16x8AllTrue i16x8_all_true,
        I32x4AllTrue i32x4_all_true, I64x2AllTrue i64x2_all_true,
        V128AnyTrue v128_any_true,
        I8x16Bitmask i8x16_bitmask, I16x8Bitmask i16x8_bitmask,
        I32x4Bitmask i32x4_bitmask, I64x2Bitmask i64x2_bitmask,
    } } };
}

/// The tests and masks of a vector by name, in the order of the C library's numbers.
pub const TESTS: [(&str, TestOp); 9] = tests!(names! TestOp);

impl TestOp {
    /// The Boolean, as 0 or 1, or the mask.
    pub fn apply(self, a: V128) -> RawVal
        ensures { result ≡ tested_raw self a }
    {
        tests!(calls! self(a))
    }
}

/// A lane that is taken from a vector, with its index.
#[derive(Clone, Copy, Debug, PartialEq, Eq)]
pub enum ExtractOp {
    I8x16ExtractLaneS(ImmLaneIdx16),
    I8x16ExtractLaneU(ImmLaneIdx16),
    I16x8ExtractLaneS(ImmLaneIdx8),
    I16x8ExtractLaneU(ImmLaneIdx8),
    I32x4ExtractLane(ImmLaneIdx4),
    I64x2ExtractLane(ImmLaneIdx2),
}

macro_rules! extractions {
    ($make:ident! $($with:tt)*) => { $make! { [$($with)*] lanewise [.into()] {
        I8x16ExtractLaneS i8x16_extract_lane_s, I8x16ExtractLaneU i8x16_extract_lane_u,
        I16x8ExtractLaneS i16x8_extract_lane_s, I16x8ExtractLaneU i16x8_extract_lane_u,
        I32x4ExtractLane i32x4_extract_lane, I64x2ExtractLane i64x2_extract_lane,
    } } };
}

impl ExtractOp {
    /// The lane in the low bits of a raw value: one of 8 or 16 bits extended to 32, by its sign
    /// (`_s`) or by zeros (`_u`), one of 32 or 64 bits as it is. All higher bits are 0.
    pub fn apply(self, a: V128) -> RawVal
        ensures { result ≡ extracted_raw self a }
    {
        extractions!(calls! self(lane) (a, lane))
    }
}

/// A lane that is taken from a vector, whatever the lane.
#[derive(Clone, Copy, Debug, PartialEq, Eq)]
pub enum ExtractKind {
    I8x16ExtractLaneS,
    I8x16ExtractLaneU,
    I16x8ExtractLaneS,
    I16x8ExtractLaneU,
    I32x4ExtractLane,
    I64x2ExtractLane,
}

/// The extractions of a lane by name, in the order of the C library's numbers.
pub const EXTRACTIONS: [(&str, ExtractKind); 6] = extractions!(names! ExtractKind);

impl ExtractKind {
    /// The instruction on the lane of an index, if there is such a lane.
    pub fn on(self, lane: u8) -> Option<ExtractOp>
        ensures { result ≡ extract_op self lane }
    {
        extractions!(on_lane! self ExtractOp lane)
    }
}

/// A lane of a vector that takes an item, with its index.
#[derive(Clone, Copy, Debug, PartialEq, Eq)]
pub enum ReplaceOp {
    I8x16ReplaceLane(ImmLaneIdx16),
    I16x8ReplaceLane(ImmLaneIdx8),
    I32x4ReplaceLane(ImmLaneIdx4),
    I64x2ReplaceLane(ImmLaneIdx2),
}

macro_rules! replacements {
    ($make:ident! $($with:tt)*) => { $make! { [$($with)*] lanewise [] {
        I8x16ReplaceLane i8x16_replace_lane, I16x8ReplaceLane i16x8_replace_lane,
        I32x4ReplaceLane i32x4_replace_lane, I64x2ReplaceLane i64x2_replace_lane,
    } } };
}

impl ReplaceOp {
    /// The vector with an item of a raw value in the lane.
    pub fn apply(self, a: V128, raw: RawVal) -> V128
        ensures { result ≡ replaced_vector self a raw }
    {
        replacements!(calls! self(lane) (a, lane, raw.read_as()))
    }
}

/// A lane of a vector that takes an item, whatever the lane.
#[derive(Clone, Copy, Debug, PartialEq, Eq)]
pub enum ReplaceKind {
    I8x16ReplaceLane,
    I16x8ReplaceLane,
    I32x4ReplaceLane,
    I64x2ReplaceLane,
}

/// The replacements of a lane by name, in the order of the C library's numbers.
pub const REPLACEMENTS: [(&str, ReplaceKind); 4] = replacements!(names! ReplaceKind);

impl ReplaceKind {
    /// The instruction on the lane of an index, if there is such a lane.
    pub fn on(self, lane: u8) -> Option<ReplaceOp>
        ensures { result ≡ replace_op self lane }
    {
        replacements!(on_lane! self ReplaceOp lane)
    }
}

/// A load of a vector.
#[derive(Clone, Copy, Debug, PartialEq, Eq)]
pub enum VectorLoadOp {
    V128Load,
    V128Load8x8S,
    V128Load8x8U,
    V128Load16x4S,
    V128Load16x4U,
    V128Load32x2S,
    V128Load32x2U,
    V128Load8Splat,
    V128Load16Splat,
    V128Load32Splat,
    V128Load64Splat,
    V128Load32Zero,
    V128Load64Zero,
}

macro_rules! vector_loads {
    ($make:ident! $($with:tt)*) => { $make! { [$($with)*] access [] {
        V128Load v128_load, V128Load8x8S v128_load8x8_s, V128Load8x8U v128_load8x8_u,
        V128Load16x4S v128_load16x4_s, V128Load16x4U v128_load16x4_u,
        V128Load32x2S v128_load32x2_s, V128Load32x2U v128_load32x2_u,
        V128Load8Splat v128_load8_splat, V128Load16Splat v128_load16_splat,
        V128Load32Splat v128_load32_splat, V128Load64Splat v128_load64_splat,
        V128Load32Zero v128_load32_zero, V128Load64Zero v128_load64_zero,
    } } };
}

/// The loads of a vector by name, in the order of the C library's numbers.
pub const VECTOR_LOADS: [(&str, VectorLoadOp); 13] = vector_loads!(names! VectorLoadOp);

impl VectorLoadOp {
    /// Loads from `ptr + offset`.
    pub fn load(self, memory: &[u8], ptr: u64, offset: u64) -> Result<V128, TrapCode>
        ensures { result ≡ loaded_vector self memory.now (ptr + offset) }
    {
        vector_loads!(calls! self(memory, ptr, offset))
    }
}

/// A load of one lane of a vector, with its index.
#[derive(Clone, Copy, Debug, PartialEq, Eq)]
pub enum LoadLaneOp {
    V128Load8Lane(ImmLaneIdx16),
    V128Load16Lane(ImmLaneIdx8),
    V128Load32Lane(ImmLaneIdx4),
    V128Load64Lane(ImmLaneIdx2),
}

macro_rules! lane_loads {
    ($make:ident! $($with:tt)*) => { $make! { [$($with)*] access [] {
        V128Load8Lane v128_load8_lane, V128Load16Lane v128_load16_lane,
        V128Load32Lane v128_load32_lane, V128Load64Lane v128_load64_lane,
    } } };
}

impl LoadLaneOp {
    /// The vector with the lane loaded from `ptr + offset`.
    pub fn load(self, memory: &[u8], ptr: u64, offset: u64, v: V128) -> Result<V128, TrapCode>
        ensures { result ≡ loaded_lane self v memory.now (ptr + offset) }
    {
        lane_loads!(calls! self(lane) (memory, ptr, offset, v, lane))
    }
}

/// A load of one lane of a vector, whatever the lane.
#[derive(Clone, Copy, Debug, PartialEq, Eq)]
pub enum LoadLaneKind {
    V128Load8Lane,
    V128Load16Lane,
    V128Load32Lane,
    V128Load64Lane,
}

/// The loads of a lane by name, in the order of the C library's numbers.
pub const LANE_LOADS: [(&str, LoadLaneKind); 4] = lane_loads!(names! LoadLaneKind);

impl LoadLaneKind {
    /// The instruction on the lane of an index, if there is such a lane.
    pub fn on(self, lane: u8) -> Option<LoadLaneOp>
        ensures { result ≡ load_lane_op self lane }
    {
        lane_loads!(on_lane! self LoadLaneOp lane)
    }
}

/// A store of one lane of a vector, with its index.
#[derive(Clone, Copy, Debug, PartialEq, Eq)]
pub enum StoreLaneOp {
    V128Store8Lane(ImmLaneIdx16),
    V128Store16Lane(ImmLaneIdx8),
    V128Store32Lane(ImmLaneIdx4),
    V128Store64Lane(ImmLaneIdx2),
}

macro_rules! lane_stores {
    ($make:ident! $($with:tt)*) => { $make! { [$($with)*] access [] {
        V128Store8Lane v128_store8_lane, V128Store16Lane v128_store16_lane,
        V128Store32Lane v128_store32_lane, V128Store64Lane v128_store64_lane,
    } } };
}

impl StoreLaneOp {
    /// Stores the lane at `ptr + offset`.
    pub fn store(self, memory: &mut [u8], ptr: u64, offset: u64, v: V128) -> Result<(), TrapCode>
        ensures { IsStore memory.old (ptr + offset) (stored_lane self v) memory.new result }
    {
        lane_stores!(calls! self(lane) (memory, ptr, offset, v, lane))
    }
}

/// A store of one lane of a vector, whatever the lane.
#[derive(Clone, Copy, Debug, PartialEq, Eq)]
pub enum StoreLaneKind {
    V128Store8Lane,
    V128Store16Lane,
    V128Store32Lane,
    V128Store64Lane,
}

/// The stores of a lane by name, in the order of the C library's numbers.
pub const LANE_STORES: [(&str, StoreLaneKind); 4] = lane_stores!(names! StoreLaneKind);

impl StoreLaneKind {
    /// The instruction on the lane of an index, if there is such a lane.
    pub fn on(self, lane: u8) -> Option<StoreLaneOp>
        ensures { result ≡ store_lane_op self lane }
    {
        lane_stores!(on_lane! self StoreLaneOp lane)
    }
}
