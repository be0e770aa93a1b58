//! Value types and reference types, and the conversion between them.
ghost use Rattle.std.specs.Prelude.{◌≡◌, is_some};
ghost use Rattle.wasmi_types.specs.Value.{is_number_type, reference_of, value_of};

/// The type of a value. Ordered as listed. Core specification 2.3, value types. Upstream:
/// `wasmi_core::ValType`.
#[derive(Clone, Copy, Debug, PartialEq, Eq, PartialOrd, Ord, Hash)]
pub enum ValType {
    /// A 32-bit integer.
    I32,
    /// A 64-bit integer.
    I64,
    /// A 32-bit float.
    F32,
    /// A 64-bit float.
    F64,
    /// A 128-bit vector.
    V128,
    /// A reference to a function, or null.
    FuncRef,
    /// A reference to an object of the host, or null.
    ExternRef,
}

impl ValType {
    /// Whether this is a number type: `I32`, `I64`, `F32` or `F64`.
    pub fn is_num(&self) -> bool
        ensures { result ≡ is_number_type self.now }
    {
        matches!(self, Self::I32 | Self::I64 | Self::F32 | Self::F64)
    }

    /// Whether this is a reference type: `FuncRef` or `ExternRef`.
    pub fn is_ref(&self) -> bool
        ensures { result ≡ is_some (reference_of self.now) }
    {
        matches!(self, Self::FuncRef | Self::ExternRef)
    }

    /// The reference type, or `None` where this is none.
    pub fn as_ref(&self) -> Option<RefType>
        ensures { result ≡ reference_of self.now }
    {
        match self {
            Self::FuncRef => Some(RefType::Func),
            Self::ExternRef => Some(RefType::Extern),
            _ => None,
        }
    }
}

/// The type of a reference. `Func` is below `Extern`. Core specification 2.3, reference types.
/// Upstream: `wasmi_core::RefType`.
#[derive(Clone, Copy, Debug, PartialEq, Eq, PartialOrd, Ord, Hash)]
pub enum RefType {
    /// A reference to a function.
    Func,
    /// A reference to an object of the host.
    Extern,
}

impl From<RefType> for ValType {
    ghost from_gives = { λ ty value. value ≡ value_of ty };

    fn from(ty: RefType) -> ValType {
        match ty {
            RefType::Func => ValType::FuncRef,
            RefType::Extern => ValType::ExternRef,
        }
    }
}
