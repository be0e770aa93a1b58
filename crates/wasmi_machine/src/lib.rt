//! A machine that runs lists of calls on metered WebAssembly memories and tables under a limiter.
#![tactic(auto)]

mod calls;
mod data;
pub mod laws;
mod machine;
mod memories;
mod registers;
mod replies;
mod running;
mod slots;
mod store;
mod tables;
mod values;

pub use calls::{ByteList, Call, Reply};
pub use data::DataSegment;
pub use machine::Machine;
pub use replies::{Replies, TooManyCalls};
pub use running::{
    run, run_into, run_into_lending, run_into_reserving, run_lending, run_reserving,
};
pub use slots::SlotCounts;
