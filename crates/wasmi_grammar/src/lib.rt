//! The text of a script: what its lines say, and the script that they write.
#![tactic(auto)]

mod command;
mod error;
mod header;
pub mod laws;
mod script;

pub use error::ParseError;
pub use header::{Header, LimiterLine, MeterLine, RegionLine, TenantsLine};
pub use script::{Parts, Script, parse};
