//! The calls for C, one line each over `wasmi_c`, which the headers of `include/` describe.
#![tactic(auto)]

mod instructions;
mod loads;
mod machine;
mod memory;
mod scalar;
mod stores;
mod table;
mod vector_loads;
