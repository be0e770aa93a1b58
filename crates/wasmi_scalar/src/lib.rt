//! The scalar integer instructions of WebAssembly.
#![tactic(auto)]

pub mod value;
pub mod wasm;
