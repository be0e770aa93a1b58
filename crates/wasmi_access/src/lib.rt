//! Loads and stores of little-endian numbers in a linear memory.
#![tactic(auto)]

pub mod access;
mod convert;
mod integer;
pub mod laws;
pub mod wasm;
