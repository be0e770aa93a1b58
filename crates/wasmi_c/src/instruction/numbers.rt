//! The number of each instruction of a shape that has several lists in `wasmi_ops` and
//! `wasmi_scalar_ops`: its place among the rows. `tools/header` writes this file: first the numbers
//! of `include/numbers.tsv`, then what the lists have besides.

use crate::instruction::binary::Binary;
use crate::instruction::load::Load;
use crate::instruction::rows::numbered;
use crate::instruction::store::Store;
use crate::instruction::unary::Unary;
use wasmi_ops::{BinaryOp, LoadOp, MakeOp, ShiftOp, StoreOp, TestOp, UnaryOp, VectorLoadOp};
use wasmi_scalar_ops::{ScalarBinaryOp, ScalarUnaryOp};

/// The instructions that `Unary` has, by number.
pub const UNARY_INSTRUCTIONS: [Unary; 63] = numbered! {
    [Unary]
    Scalar ScalarUnaryOp {
        I32Clz, I32Ctz, I32Popcnt, I32Eqz, I64Clz, I64Ctz, I64Popcnt, I64Eqz, I32WrapI64,
        I64ExtendI32S, I64ExtendI32U, I32Extend8S, I32Extend16S, I64Extend8S, I64Extend16S,
        I64Extend32S,
    }
    Make MakeOp {
        I8x16Splat, I16x8Splat, I32x4Splat, I64x2Splat, V128Widen8x8S, V128Widen8x8U,
        V128Widen16x4S, V128Widen16x4U, V128Widen32x2S, V128Widen32x2U, V128Low32Zero,
        V128Low64Zero,
    }
    Vector UnaryOp {
        V128Not, I8x16Neg, I16x8Neg, I32x4Neg, I64x2Neg, I8x16Abs, I16x8Abs, I32x4Abs, I64x2Abs,
        I8x16Popcnt, I16x8ExtendLowI8x16S, I16x8ExtendLowI8x16U, I16x8ExtendHighI8x16S,
        I16x8ExtendHighI8x16U, I32x4ExtendLowI16x8S, I32x4ExtendLowI16x8U, I32x4ExtendHighI16x8S,
        I32x4ExtendHighI16x8U, I64x2ExtendLowI32x4S, I64x2ExtendLowI32x4U, I64x2ExtendHighI32x4S,
        I64x2ExtendHighI32x4U, I16x8ExtaddPairwiseI8x16S, I16x8ExtaddPairwiseI8x16U,
        I32x4ExtaddPairwiseI16x8S, I32x4ExtaddPairwiseI16x8U,
    }
    Test TestOp {
        I8x16AllTrue, I16x8AllTrue, I32x4AllTrue, I64x2AllTrue, V128AnyTrue, I8x16Bitmask,
        I16x8Bitmask, I32x4Bitmask, I64x2Bitmask,
    }
};

/// The instructions that `Binary` has, by number.
pub const BINARY_INSTRUCTIONS: [Binary; 162] = numbered! {
    [Binary]
    Scalar ScalarBinaryOp {
        I32Add, I32Sub, I32Mul, I32Bitand, I32Bitor, I32Bitxor, I32Shl, I32ShrS, I32ShrU, I32Rotl,
        I32Rotr, I32DivS, I32DivU, I32RemS, I32RemU, I32Eq, I32Ne, I32LtS, I32LtU, I32LeS, I32LeU,
        I32GtS, I32GtU, I32GeS, I32GeU, I64Add, I64Sub, I64Mul, I64Bitand, I64Bitor, I64Bitxor,
        I64Shl, I64ShrS, I64ShrU, I64Rotl, I64Rotr, I64DivS, I64DivU, I64RemS, I64RemU, I64Eq,
        I64Ne, I64LtS, I64LtU, I64LeS, I64LeU, I64GtS, I64GtU, I64GeS, I64GeU, I64Add128,
        I64Sub128, I64MulWideS, I64MulWideU,
    }
    Vector BinaryOp {
        I8x16Add, I16x8Add, I32x4Add, I64x2Add, I8x16Sub, I16x8Sub, I32x4Sub, I64x2Sub, I8x16Mul,
        I16x8Mul, I32x4Mul, I64x2Mul, I8x16AddSatS, I8x16AddSatU, I16x8AddSatS, I16x8AddSatU,
        I8x16SubSatS, I8x16SubSatU, I16x8SubSatS, I16x8SubSatU, I16x8Q15mulrSatS, I8x16MinS,
        I8x16MinU, I16x8MinS, I16x8MinU, I32x4MinS, I32x4MinU, I8x16MaxS, I8x16MaxU, I16x8MaxS,
        I16x8MaxU, I32x4MaxS, I32x4MaxU, I8x16AvgrU, I16x8AvgrU, V128And, V128Or, V128Xor,
        V128Andnot, I8x16Eq, I16x8Eq, I32x4Eq, I64x2Eq, I8x16Ne, I16x8Ne, I32x4Ne, I64x2Ne,
        I8x16LtS, I16x8LtS, I32x4LtS, I64x2LtS, I8x16LtU, I16x8LtU, I32x4LtU, I8x16LeS, I16x8LeS,
        I32x4LeS, I64x2LeS, I8x16LeU, I16x8LeU, I32x4LeU, I8x16GtS, I16x8GtS, I32x4GtS, I64x2GtS,
        I8x16GtU, I16x8GtU, I32x4GtU, I8x16GeS, I16x8GeS, I32x4GeS, I64x2GeS, I8x16GeU, I16x8GeU,
        I32x4GeU, I8x16Swizzle, I16x8ExtmulLowI8x16S, I16x8ExtmulLowI8x16U, I16x8ExtmulHighI8x16S,
        I16x8ExtmulHighI8x16U, I32x4ExtmulLowI16x8S, I32x4ExtmulLowI16x8U, I32x4ExtmulHighI16x8S,
        I32x4ExtmulHighI16x8U, I64x2ExtmulLowI32x4S, I64x2ExtmulLowI32x4U, I64x2ExtmulHighI32x4S,
        I64x2ExtmulHighI32x4U, I8x16NarrowI16x8S, I8x16NarrowI16x8U, I16x8NarrowI32x4S,
        I16x8NarrowI32x4U, I32x4DotI16x8S, I16x8RelaxedDotI8x16I7x16S, I8x16RelaxedSwizzle,
        I16x8RelaxedQ15mulrS,
    }
    Shift ShiftOp {
        I8x16Shl, I8x16ShrS, I8x16ShrU, I16x8Shl, I16x8ShrS, I16x8ShrU, I32x4Shl, I32x4ShrS,
        I32x4ShrU, I64x2Shl, I64x2ShrS, I64x2ShrU,
    }
};

/// The rows of `LOAD_INSTRUCTIONS`.
macro_rules! load_numbers {
    ($make:ident! $($with:tt)*) => { $make! { [$($with)*]
        Scalar LoadOp {
            I32Load8S, I32Load8U, I32Load16S, I32Load16U, I64Load8S, I64Load8U, I64Load16S,
            I64Load16U, I64Load32S, I64Load32U, LoadU32, LoadU64,
        }
        Vector VectorLoadOp {
            V128Load, V128Load8x8S, V128Load8x8U, V128Load16x4S, V128Load16x4U, V128Load32x2S,
            V128Load32x2U, V128Load8Splat, V128Load16Splat, V128Load32Splat, V128Load64Splat,
            V128Load32Zero, V128Load64Zero,
        }
    } };
}

/// The instructions that `Load` has, by number.
pub const LOAD_INSTRUCTIONS: [Load; 25] = load_numbers!(numbered! Load);

/// The instructions that `Store` has, by number.
pub const STORE_INSTRUCTIONS: [Store; 8] = [
    Store::Scalar(StoreOp::I32Store8),
    Store::Scalar(StoreOp::I32Store16),
    Store::Scalar(StoreOp::I64Store8),
    Store::Scalar(StoreOp::I64Store16),
    Store::Scalar(StoreOp::I64Store32),
    Store::Scalar(StoreOp::Store32),
    Store::Scalar(StoreOp::Store64),
    Store::V128Store,
];

pub(crate) use load_numbers;
