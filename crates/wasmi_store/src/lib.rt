//! Linear memories and tables: their types, what they contain, and how they are made and grow.
#![tactic(auto)]

pub mod bulk;
pub mod growth;
pub mod laws;
mod memory;
pub mod range;
mod table;

pub use memory::{Buffer, ByteBuffer, LinearMemory, Memory, MemoryType, MemoryTypeBuilder, Region};
pub use table::{ElementSegment, ElementSegmentRef, SegmentError, Table, TableType};

/// Makes a call with the meter of an option, or, if there is none, with one that is off. The call
/// is of a function that takes a meter which isn't optional.
///
/// This is a macro because the prover knows what is left in the meter where the option is matched,
/// and not where the option is passed on.
macro_rules! with_meter {
    ($fuel:ident => $call:expr) => {
        match $fuel {
            Some($fuel) => $call,
            None => {
                let mut off = Fuel::unmetered();
                let $fuel = &mut off;
                $call
            }
        }
    };
}

pub(crate) use with_meter;
