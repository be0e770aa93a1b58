//! Raw values: what a register, local or global variable of WebAssembly holds, whatever its type.
#![tactic(auto)]

mod convert;
mod float;
pub mod laws;
mod number;
mod raw;
mod raw_ref;
mod read_write;
mod vector;

pub use float::{F32, F64};
pub use number::Number;
pub use raw::{RawVal, ReadAs, ReadBack, WriteAs};
pub use raw_ref::RawRef;
pub use vector::V128;
