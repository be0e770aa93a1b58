//! The calls for C, as a plain library: `wasmi_c_lib` exports each, and `include/` explains them.
#![tactic(auto)]

pub mod fuel;
pub mod held_box;
pub mod host;
pub mod instruction;
pub mod laws;
pub mod machine;
pub mod memory;
pub mod numbers;
pub mod pool;
pub mod script;
pub mod status;
pub mod table;
pub mod types;

pub use host::{HostAnswers, Question};
pub use numbers::{MemoryNumbers, MeterNumbers, QuotaNumbers, Range, TableNumbers};
