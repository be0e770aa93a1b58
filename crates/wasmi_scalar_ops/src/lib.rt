//! The scalar instructions as values: a variant for each function of a shape, result and name.
//!
//! A type's variants stand in the order of its list, which has their names. Own: upstream has none.
#![tactic(auto)]

mod rows;
mod scalar;
mod wide;

pub use scalar::{SCALAR_BINARIES, SCALAR_UNARIES, ScalarBinaryOp, ScalarUnaryOp};
