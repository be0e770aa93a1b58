//! The instructions that a machine executes, as values: a variant for each function of a shape, what
//! it gives, and its name.
//!
//! A type's variants stand in the order of its list, which has their names. Own: upstream has none.
#![tactic(auto)]

mod load_store;
mod rows;
mod vector;

pub use load_store::{LOADS, LoadOp, STORES, StoreOp};
pub use vector::{
    BINARIES, BinaryOp, EXTRACTIONS, ExtractKind, ExtractOp, LANE_LOADS, LANE_STORES, LoadLaneKind,
    LoadLaneOp, MAKES, MakeOp, REPLACEMENTS, ReplaceKind, ReplaceOp, SHIFTS, ShiftOp,
    StoreLaneKind, StoreLaneOp, TERNARIES, TESTS, TernaryOp, TestOp, UNARIES, UnaryOp,
    VECTOR_LOADS, VectorLoadOp,
};
