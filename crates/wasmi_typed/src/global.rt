//! Global variables, their types, and the errors of writing one.
ghost use Rattle.std.specs.Prelude.{◌≡◌, ◌↔◌, IsTrue, Some};
ghost use Rattle.std.specs.Borrow.{sem};
ghost use Rattle.wasmi_typed.specs.Global.{SetsGlobal, LendsValue, global_error_text};

use crate::typed::TypedRawVal;
use std::fmt;
use wasmi_raw::RawVal;
use wasmi_types::ValType;

/// Why a global variable was not written. Upstream: `wasmi_core::GlobalError`.
#[derive(Debug, PartialEq, Eq, Drop)]
pub enum GlobalError {
    /// The variable is a constant.
    ImmutableWrite,
    /// The variable can be written, and holds values of another type.
    TypeMismatch,
}

impl GlobalError {
    /// Its text.
    pub fn words(&self) -> &'static str
        ensures { result.now ≡ global_error_text self.now }
    {
        match self {
            Self::ImmutableWrite => "tried to write to immutable global variable",
            Self::TypeMismatch => "tried to write value of non-matching type to global variable",
        }
    }
}

impl fmt::Display for GlobalError {
    ghost output = { λ error. Some (global_error_text error) };

    fn fmt<W: fmt::Write>(&self, f: &mut fmt::Formatter<W>) -> fmt::Result {
        f.write_str(self.words())
    }
}

impl std::error::Error for GlobalError {}

/// Whether a global variable can be written. Core specification 2.3, global types. Upstream:
/// `wasmi_core::Mutability`.
#[derive(Clone, Copy, Debug, PartialEq, Eq)]
pub enum Mutability {
    /// It keeps its first value.
    Const,
    /// It can be written.
    Var,
}

impl Mutability {
    /// Whether a global variable keeps its first value.
    pub fn is_const(&self) -> bool
        ensures { IsTrue result ↔ (self.now ≡ Mutability.Const) }
    {
        matches!(self, Mutability::Const)
    }

    /// Whether a global variable can be written.
    pub fn is_mut(&self) -> bool
        ensures { IsTrue result ↔ (self.now ≡ Mutability.Var) }
    {
        matches!(self, Mutability::Var)
    }
}

/// The type of a global variable. Core specification 2.3, global types. Upstream:
/// `wasmi_core::GlobalType`.
#[derive(Clone, Copy, Debug, PartialEq, Eq)]
pub struct GlobalType {
    /// The type of its value.
    pub content: ValType,
    /// Whether it can be written.
    pub mutability: Mutability,
}

impl GlobalType {
    /// The type of the global variables with this type of value, constant or not.
    pub fn new(content: ValType, mutability: Mutability) -> GlobalType
        ensures { result ≡ record { content = content; mutability = mutability } }
    {
        GlobalType {
            content,
            mutability,
        }
    }

    /// The type of the value.
    pub fn content(&self) -> ValType
        ensures { result ≡ self.now.content }
    {
        self.content
    }

    /// Whether the global variable can be written.
    pub fn mutability(&self) -> Mutability
        ensures { result ≡ self.now.mutability }
    {
        self.mutability
    }
}

/// A global variable, which contracts see as its present value and its type. Core specification
/// 4.2, global instances. Upstream: `wasmi_core::Global`.
#[derive(Debug, Drop)]
pub struct Global {
    value: RawVal,
    ty: GlobalType,
}

impl Global {
    /// The global variable of this type with `value`, which is taken to be of that type.
    pub fn new(value: RawVal, ty: GlobalType) -> Global
        ensures { result ≡ record { value = value; ty = ty } }
    {
        Global { value, ty }
    }

    /// The type.
    pub fn ty(&self) -> GlobalType
        ensures { result ≡ self.now.ty }
    {
        self.ty
    }

    /// Writes `new_value`, where the variable is no constant and the value is of its type.
    pub fn set(&mut self, new_value: TypedRawVal) -> Result<(), GlobalError>
        ensures { SetsGlobal self.old new_value result self.new }
    {
        if self.ty.mutability.is_const() {
            return Err(GlobalError::ImmutableWrite);
        }
        if self.ty.content != new_value.ty {
            return Err(GlobalError::TypeMismatch);
        }
        self.value = new_value.raw;
        Ok(())
    }

    /// The present value with its type.
    pub fn get(&self) -> TypedRawVal
        ensures { result ≡ record { ty = self.now.ty.content; raw = self.now.value } }
    {
        TypedRawVal::new(self.ty.content, self.value)
    }

    /// The present value.
    pub fn get_raw(&self) -> &RawVal
        ensures { result.now ≡ self.now.value }
    {
        &self.value
    }

    /// The present value, to be written in place, of a variable that is no constant.
    ///
    /// What is written has no type, so it is read as a value of the variable's type.
    pub fn get_raw_mut(&mut self) -> &mut RawVal
        requires variable { self.old.ty.mutability ≡ Mutability.Var }
        ensures* writes_back { sem 𝓛 (LendsValue self.entry result) }
        ensures value { result.now ≡ self.old.value }
    {
        &mut self.value
    }
}
