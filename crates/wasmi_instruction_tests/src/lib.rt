//! Tests of instructions on numbers and vectors, and of loads and stores.
#![tactic(auto)]

#[cfg(test)]
mod tests;
