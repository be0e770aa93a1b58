//! The scalar instructions of one and of two operands as values, on raw values.
ghost use Rattle.std.specs.Prelude.{◌≡◌};
ghost use Rattle.wasmi_scalar_ops.specs.ScalarOps.{unary_raw, binary_raw};

use crate::rows::{calls, names};
use crate::wide;
use wasmi_raw::{RawVal, ReadAs};
use wasmi_scalar::wasm;
use wasmi_types::TrapCode;

/// A scalar instruction of one operand.
#[derive(Clone, Copy, Debug, PartialEq, Eq)]
pub enum ScalarUnaryOp {
    I32Clz,
    I32Ctz,
    I32Popcnt,
    I32Eqz,
    I64Clz,
    I64Ctz,
    I64Popcnt,
    I64Eqz,
    I32WrapI64,
    I64ExtendI32S,
    I64ExtendI32U,
    I32Extend8S,
    I32Extend16S,
    I64Extend8S,
    I64Extend16S,
    I64Extend32S,
}

macro_rules! scalar_unaries {
    ($make:ident! $($with:tt)*) => { $make! { [$($with)*] wasm [.into()] {
        I32Clz i32_clz, I32Ctz i32_ctz, I32Popcnt i32_popcnt, I32Eqz i32_eqz,
        I64Clz i64_clz, I64Ctz i64_ctz, I64Popcnt i64_popcnt, I64Eqz i64_eqz,
        I32WrapI64 i32_wrap_i64, I64ExtendI32S i64_extend_i32_s, I64ExtendI32U i64_extend_i32_u,
        I32Extend8S i32_extend8_s, I32Extend16S i32_extend16_s,
        I64Extend8S i64_extend8_s, I64Extend16S i64_extend16_s, I64Extend32S i64_extend32_s,
    } } };
}

/// The scalar instructions of one operand by name, in the order of the C library's numbers.
pub const SCALAR_UNARIES: [(&str, ScalarUnaryOp); 16] = scalar_unaries!(names! ScalarUnaryOp);

impl ScalarUnaryOp {
    /// The result for an operand in a raw value. A Boolean is 0 or 1.
    pub fn apply(self, raw: RawVal) -> RawVal
        ensures { result ≡ unary_raw self raw }
    {
        scalar_unaries!(calls! self(raw.read_as()))
    }
}

/// A scalar instruction of two operands.
#[derive(Clone, Copy, Debug, PartialEq, Eq)]
pub enum ScalarBinaryOp {
    I32Add,
    I32Sub,
    I32Mul,
    I32Bitand,
    I32Bitor,
    I32Bitxor,
    I32Shl,
    I32ShrS,
    I32ShrU,
    I32Rotl,
    I32Rotr,
    I32DivS,
    I32DivU,
    I32RemS,
    I32RemU,
    I32Eq,
    I32Ne,
    I32LtS,
    I32LtU,
    I32LeS,
    I32LeU,
    I32GtS,
    I32GtU,
    I32GeS,
    I32GeU,
    I64Add,
    I64Sub,
    I64Mul,
    I64Bitand,
    I64Bitor,
    I64Bitxor,
    I64Shl,
    I64ShrS,
    I64ShrU,
    I64Rotl,
    I64Rotr,
    I64DivS,
    I64DivU,
    I64RemS,
    I64RemU,
    I64Eq,
    I64Ne,
    I64LtS,
    I64LtU,
    I64LeS,
    I64LeU,
    I64GtS,
    I64GtU,
    I64GeS,
    I64GeU,
    I64Add128,
    I64Sub128,
    I64MulWideS,
    I64MulWideU,
}

macro_rules! scalar_binaries {
    ($make:ident! $($with:tt)*) => { $make! { [$($with)*]
        wasm [.into()] {
            I32Add i32_add, I32Sub i32_sub, I32Mul i32_mul,
            I32Bitand i32_bitand, I32Bitor i32_bitor, I32Bitxor i32_bitxor,
            I32Shl i32_shl, I32ShrS i32_shr_s, I32ShrU i32_shr_u,
            I32Rotl i32_rotl, I32Rotr i32_rotr,
        }
        wasm [?.into()] {
            I32DivS i32_div_s, I32DivU i32_div_u, I32RemS i32_rem_s, I32RemU i32_rem_u,
        }
        wasm [.into()] {
            I32Eq i32_eq, I32Ne i32_ne, I32LtS i32_lt_s, I32LtU i32_lt_u, I32LeS i32_le_s,
            I32LeU i32_le_u, I32GtS i32_gt_s, I32GtU i32_gt_u, I32GeS i32_ge_s, I32GeU i32_ge_u,
            I64Add i64_add, I64Sub i64_sub, I64Mul i64_mul,
            I64Bitand i64_bitand, I64Bitor i64_bitor, I64Bitxor i64_bitxor,
            I64Shl i64_shl, I64ShrS i64_shr_s, I64ShrU i64_shr_u,
            I64Rotl i64_rotl, I64Rotr i64_rotr,
        }
        wasm [?.into()] {
            I64DivS i64_div_s, I64DivU i64_div_u, I64RemS i64_rem_s, I64RemU i64_rem_u,
        }
        wasm [.into()] {
            I64Eq i64_eq, I64Ne i64_ne, I64LtS i64_lt_s, I64LtU i64_lt_u, I64LeS i64_le_s,
            I64LeU i64_le_u, I64GtS i64_gt_s, I64GtU i64_gt_u, I64GeS i64_ge_s, I64GeU i64_ge_u,
        }
        wide [] {
            I64Add128 i64_add128, I64Sub128 i64_sub128,
            I64MulWideS i64_mul_wide_s, I64MulWideU i64_mul_wide_u,
        }
    } };
}

/// The scalar instructions of two operands by name, in the order of the C library's numbers.
pub const SCALAR_BINARIES: [(&str, ScalarBinaryOp); 54] = scalar_binaries!(names! ScalarBinaryOp);

impl ScalarBinaryOp {
    /// The result for two operands in raw values. A Boolean is 0 or 1; the operands of 128 bits,
    /// and results of them, are the two words of a raw value.
    pub fn apply(self, lhs: RawVal, rhs: RawVal) -> Result<RawVal, TrapCode>
        ensures { result ≡ binary_raw self lhs rhs }
    {
        Ok(scalar_binaries!(calls! self(lhs.read_as(), rhs.read_as())))
    }
}
