//! The words of a script's line, and what they write: numbers, types, instructions and operands.
#![tactic(auto)]

mod error;
pub mod lane;
pub mod operand;

pub use error::LineError;
pub use operand::{number, read_words};
