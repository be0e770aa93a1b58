//! The vector instructions of WebAssembly that work lane by lane.
#![tactic(auto)]

pub mod clamp;
pub mod shift;
pub mod simd;
