//! Raw references with their types, and the error where a typed raw value is none.
ghost use Rattle.std.specs.Prelude.{◌≡◌, Some, None};
ghost use Rattle.wasmi_raw.specs.RawVal.{raw_of};
ghost use Rattle.wasmi_types.specs.Value.{value_of};
ghost use Rattle.wasmi_typed.specs.Typed.{not_a_reference_text, IsReference};

use crate::typed::TypedRawVal;
use std::fmt;
use wasmi_raw::{RawRef, RawVal};
use wasmi_types::{RefType, ValType};

/// A raw reference with its type. Upstream: `wasmi_core::TypedRawRef`.
#[derive(Clone, Copy, Debug, PartialEq, Eq)]
pub struct TypedRawRef {
    /// The reference.
    pub raw: RawRef,
    /// The type.
    pub ty: RefType,
}

impl TypedRawRef {
    /// The raw reference with a type. Any raw reference can be one of either type.
    pub fn new(raw: RawRef, ty: RefType) -> TypedRawRef
        ensures { result ≡ record { raw = raw; ty = ty } }
    {
        TypedRawRef { raw, ty }
    }

    /// The null reference of a type.
    pub fn null(ty: RefType) -> TypedRawRef
        ensures { result ≡ record { raw = 0; ty = ty } }
    {
        TypedRawRef::new(RawRef::null(), ty)
    }

    /// The reference.
    pub fn raw(&self) -> RawRef
        ensures { result ≡ self.now.raw }
    {
        self.raw
    }

    /// The type.
    pub fn ty(&self) -> RefType
        ensures { result ≡ self.now.ty }
    {
        self.ty
    }
}

impl From<TypedRawRef> for TypedRawVal {
    ghost from_gives = { λ reference typed. typed
        ≡ record { ty = value_of reference.ty; raw = raw_of reference.raw } };

    fn from(reference: TypedRawRef) -> TypedRawVal {
        TypedRawVal::new(ValType::from(reference.ty), RawVal::from(reference.raw))
    }
}

/// Why a typed raw value is no reference: its type is none of references. Own: upstream panics.
#[derive(Debug, PartialEq, Eq, Drop)]
pub struct NotAReference;

impl fmt::Display for NotAReference {
    ghost output = { λ _. Some not_a_reference_text };

    fn fmt<W: fmt::Write>(&self, f: &mut fmt::Formatter<W>) -> fmt::Result {
        f.write_str("not a reference type")
    }
}

impl std::error::Error for NotAReference {}

impl TryFrom<TypedRawVal> for TypedRawRef {
    type Error = NotAReference;

    ghost try_from_gives = { IsReference };

    fn try_from(typed: TypedRawVal) -> Result<TypedRawRef, NotAReference> {
        match typed.ty.as_ref() {
            Some(ty) => Ok(TypedRawRef::new(RawRef::from(typed.raw), ty)),
            None => Err(NotAReference),
        }
    }
}
