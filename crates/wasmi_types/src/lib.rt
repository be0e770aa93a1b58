//! The value types, traps, function types and address types of WebAssembly.
#![tactic(auto)]

mod func_type;
pub mod hint;
mod index_ty;
mod trap;
mod value;

pub use func_type::{FuncType, FuncTypeError};
pub use index_ty::IndexType;
pub use trap::{HostError, InvalidTrapCode, Trap, TrapCode};
pub use value::{RefType, ValType};
