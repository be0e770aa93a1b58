//! The loads and stores of vectors, of parts of vectors, and of one lane.
#![tactic(auto)]

pub mod simd;
