//! Callers of the laws of `wasmi_machine`, its parts, `wasmi_budget` and `wasmi_c`: each law is called
//! by a function whose contract a user of the law would want.
#![tactic(auto)]

pub mod hosts;
pub mod lanes;
pub mod places;
pub mod recorder;
pub mod regions;
pub mod reserved;
pub mod runs;
pub mod values;
