//! The instructions of the wide-arithmetic proposal, on raw values of two words.
ghost use Rattle.std.specs.Prelude.{◌≡◌, ◌*◌, ◌*ℤ◌};
ghost use Rattle.std.specs.Int.{w64, w128, cast_unsigned};
ghost use Rattle.wasmi_raw.specs.RawVal.{raw_of_vector, vector_in};
ghost use Rattle.wasmi_scalar.specs.Numerics.{add128, sub128, unsigned_of};

use wasmi_raw::{RawVal, V128};
use wasmi_scalar::wasm;

/// The sum modulo 2 to the power 128.
pub fn i64_add128(lhs: RawVal, rhs: RawVal) -> RawVal
    ensures { result ≡ raw_of_vector (add128 (vector_in lhs) (vector_in rhs)) }
{
    let (lhs_lo, lhs_hi) = words(lhs);
    let (rhs_lo, rhs_hi) = words(rhs);
    of_words(wasm::i64_add128(lhs_lo, lhs_hi, rhs_lo, rhs_hi))
}

/// The difference modulo 2 to the power 128.
pub fn i64_sub128(lhs: RawVal, rhs: RawVal) -> RawVal
    ensures { result ≡ raw_of_vector (sub128 (vector_in lhs) (vector_in rhs)) }
{
    let (lhs_lo, lhs_hi) = words(lhs);
    let (rhs_lo, rhs_hi) = words(rhs);
    of_words(wasm::i64_sub128(lhs_lo, lhs_hi, rhs_lo, rhs_hi))
}

/// The whole product of two numbers read signed.
pub fn i64_mul_wide_s(lhs: i64, rhs: i64) -> RawVal
    ensures { result ≡ raw_of_vector (cast_unsigned w128 (lhs *ℤ rhs)) }
{
    of_words(wasm::i64_mul_wide_s(lhs, rhs))
}

/// The whole product of two numbers read unsigned.
pub fn i64_mul_wide_u(lhs: i64, rhs: i64) -> RawVal
    ensures { result ≡ raw_of_vector (cast_unsigned w64 lhs * cast_unsigned w64 rhs) }
{
    of_words(wasm::i64_mul_wide_u(lhs, rhs))
}

/// The low and the high word of a raw value.
fn words(raw: RawVal) -> (i64, i64)
    ensures { unsigned_of result.0 result.1 ≡ vector_in raw }
{
    (raw.lo.cast_signed(), raw.hi.cast_signed())
}

/// The raw value of a low and a high word.
fn of_words(pair: (i64, i64)) -> RawVal
    ensures { result ≡ raw_of_vector (unsigned_of pair.0 pair.1) }
{
    RawVal::from(V128::from_word_pair(pair.0.cast_unsigned(), pair.1.cast_unsigned()))
}
