//! Linear memories and tables that are the first bytes or elements of a region of the caller's.
#![tactic(auto)]

pub mod laws;
pub mod memory;
pub mod table;
