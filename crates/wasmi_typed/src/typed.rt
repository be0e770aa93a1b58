//! Raw values with their types, and of which value type the values of a Rust type are.
ghost use Rattle.std.specs.Prelude.{◌≡◌};
ghost use Rattle.std.specs.Int.{w8, w16, w32, w64};
ghost use Rattle.wasmi_raw.specs.RawVal.{unsigned_in, signed_in, bool_in, vector_in};
ghost use Rattle.wasmi_types.specs.declared.value.ValType.{ValType};
ghost use Rattle.wasmi_types.specs.declared.value.ValType.TheVariants as types;

use crate::shift_amount::ShiftAmount;
use std::num::NonZero;
use wasmi_raw::{F32, F64, RawVal, ReadAs, V128};
use wasmi_types::ValType;

/// A type whose values are all of one value type. Upstream: `wasmi_core::Typed`.
pub trait Typed {
    /// The value type, in contracts.
    ghost TY: { ValType };

    /// The value type.
    const TY: ValType;
}

/// A type whose values are of the value type `I32`. Only this crate's `Typed` names it.
pub trait TypedI32 {}

/// Of type `I32` are `bool`, `i8`, `u8`, `i16`, `u16`, `i32`, `u32`, `NonZero<i32>`,
/// `NonZero<u32>` and [`ShiftAmount`].
impl<T: TypedI32> Typed for T {
    ghost TY = { types.I32 };

    const TY: ValType = ValType::I32;
}

impl TypedI32 for bool {}

impl TypedI32 for i8 {}

impl TypedI32 for u8 {}

impl TypedI32 for i16 {}

impl TypedI32 for u16 {}

impl TypedI32 for i32 {}

impl TypedI32 for u32 {}

impl TypedI32 for ShiftAmount {}

impl TypedI32 for NonZero<i32> {}

impl TypedI32 for NonZero<u32> {}

impl Typed for i64 {
    ghost TY = { types.I64 };

    const TY: ValType = ValType::I64;
}

impl Typed for u64 {
    ghost TY = { types.I64 };

    const TY: ValType = ValType::I64;
}

impl Typed for NonZero<i64> {
    ghost TY = { types.I64 };

    const TY: ValType = ValType::I64;
}

impl Typed for NonZero<u64> {
    ghost TY = { types.I64 };

    const TY: ValType = ValType::I64;
}

impl Typed for F32 {
    ghost TY = { types.F32 };

    const TY: ValType = ValType::F32;
}

impl Typed for F64 {
    ghost TY = { types.F64 };

    const TY: ValType = ValType::F64;
}

impl Typed for V128 {
    ghost TY = { types.V128 };

    const TY: ValType = ValType::V128;
}

/// A raw value with its type. Upstream: `wasmi_core::TypedRawVal`.
#[derive(Clone, Copy, Debug, PartialEq, Eq)]
pub struct TypedRawVal {
    /// The type.
    pub ty: ValType,
    /// The value.
    pub raw: RawVal,
}

impl TypedRawVal {
    /// The raw value with a type. None is refused: every raw value has a reading at every type.
    pub fn new(ty: ValType, raw: RawVal) -> TypedRawVal
        ensures { result ≡ record { ty = ty; raw = raw } }
    {
        TypedRawVal { ty, raw }
    }

    /// The type.
    pub fn ty(&self) -> ValType
        ensures { result ≡ self.now.ty }
    {
        self.ty
    }

    /// The value.
    pub fn raw(&self) -> RawVal
        ensures { result ≡ self.now.raw }
    {
        self.raw
    }
}

impl<T: Typed + Into<RawVal>> From<T> for TypedRawVal {
    ghost from_gives = { λ value typed. (typed.ty ≡ T.TY) × (T.converts value typed.raw) };

    fn from(value: T) -> TypedRawVal {
        TypedRawVal::new(T::TY, value.into())
    }
}

impl From<TypedRawVal> for RawVal {
    ghost from_gives = { λ typed raw. raw ≡ typed.raw };

    fn from(typed: TypedRawVal) -> RawVal {
        typed.raw
    }
}

impl From<TypedRawVal> for bool {
    ghost from_gives = { λ typed value. value ≡ bool_in typed.raw };

    fn from(typed: TypedRawVal) -> bool {
        typed.raw.read_as()
    }
}

impl From<TypedRawVal> for i8 {
    ghost from_gives = { λ typed value. value ≡ signed_in w8 typed.raw };

    fn from(typed: TypedRawVal) -> i8 {
        typed.raw.read_as()
    }
}

impl From<TypedRawVal> for i16 {
    ghost from_gives = { λ typed value. value ≡ signed_in w16 typed.raw };

    fn from(typed: TypedRawVal) -> i16 {
        typed.raw.read_as()
    }
}

impl From<TypedRawVal> for i32 {
    ghost from_gives = { λ typed value. value ≡ signed_in w32 typed.raw };

    fn from(typed: TypedRawVal) -> i32 {
        typed.raw.read_as()
    }
}

impl From<TypedRawVal> for i64 {
    ghost from_gives = { λ typed value. value ≡ signed_in w64 typed.raw };

    fn from(typed: TypedRawVal) -> i64 {
        typed.raw.read_as()
    }
}

impl From<TypedRawVal> for u8 {
    ghost from_gives = { λ typed value. value ≡ unsigned_in w8 typed.raw };

    fn from(typed: TypedRawVal) -> u8 {
        typed.raw.read_as()
    }
}

impl From<TypedRawVal> for u16 {
    ghost from_gives = { λ typed value. value ≡ unsigned_in w16 typed.raw };

    fn from(typed: TypedRawVal) -> u16 {
        typed.raw.read_as()
    }
}

impl From<TypedRawVal> for u32 {
    ghost from_gives = { λ typed value. value ≡ unsigned_in w32 typed.raw };

    fn from(typed: TypedRawVal) -> u32 {
        typed.raw.read_as()
    }
}

impl From<TypedRawVal> for u64 {
    ghost from_gives = { λ typed value. value ≡ unsigned_in w64 typed.raw };

    fn from(typed: TypedRawVal) -> u64 {
        typed.raw.read_as()
    }
}

impl From<TypedRawVal> for V128 {
    ghost from_gives = { λ typed value. value ≡ vector_in typed.raw };

    fn from(typed: TypedRawVal) -> V128 {
        typed.raw.read_as()
    }
}
