//! WebAssembly's vector instructions that widen, narrow, shift or test lanes, and the relaxed ones.
#![tactic(auto)]

pub mod laws;
pub mod simd;
