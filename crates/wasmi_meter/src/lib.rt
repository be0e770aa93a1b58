//! Fuel metering, resource limits of growth, and the errors of memories and tables.
#![tactic(auto)]

mod answer_list;
mod any_limiter;
mod error;
mod fuel;
mod limiter;
mod quota;

pub use answer_list::{AnswerList, LimiterAnswer};
pub use any_limiter::AnyLimiter;
pub use error::{LimiterError, MemoryError, TableError};
pub use fuel::{CustomFuelCosts, Fuel, FuelCosts, FuelCostsProvider, FuelError, ValueSize};
pub use limiter::{
    Kind, Lender, LimiterByKind, LimiterRef, NoLimits, ResourceLimiter, ResourceLimiterRef,
};
pub use quota::{Amounts, CappedLimiter, Holdings, Quota, Reserving};
