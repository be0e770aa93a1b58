//! Tests of the crates: values, memories and tables, machines, and scripts.
#![tactic(auto)]

#[cfg(test)]
mod tests;
