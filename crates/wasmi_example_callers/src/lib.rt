//! Callers of `wasmi_core` and `wasmi_budget` to read as examples: a limiter of one's own, a host,
//! a bill, and a small interpreter.
#![tactic(auto)]

pub mod bill;
pub mod host;
pub mod interpreter;
pub mod limiter;
