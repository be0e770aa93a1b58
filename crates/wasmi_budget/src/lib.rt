//! Pools of machines whose memories and tables stay, all together, within one cap of each kind.
//! Own: upstream has no pool.
#![tactic(auto)]

mod error;
pub mod laws;
mod pool;
mod tenant;
mod tenants;

pub use error::{AddError, PoolError, ReserveError, RunIntoError};
pub use pool::Pool;
pub use tenant::Tenant;
