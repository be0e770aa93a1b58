//! Scripts of calls on a metered machine: reading, running, printing.
#![tactic(auto)]

mod error;
pub mod laws;
mod lines;
mod printing;
mod replaying;

pub use error::ReplayError;
pub use lines::write_lines;
pub use printing::{ReplyHead, print_lines};
pub use replaying::{Input, LIMIT, Output, Status, replay, replay_bytes};
pub use wasmi_grammar::ParseError;
