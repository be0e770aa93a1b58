//! Each instruction by its number in `include/wasmi_core.h`, on values and on arrays. A call writes
//! and returns 0; or it writes nothing, and returns 255 if no instruction has the number, 253 if no
//! lane has the index, 254 if the arrays differ in length, or the number of the trap, which on
//! arrays each result has.

pub mod binary;
pub mod lanes;
pub mod list;
pub mod load;
pub mod numbers;
pub mod result;
mod rows;
pub mod shuffle;
pub mod store;
pub mod ternary;
pub mod unary;
