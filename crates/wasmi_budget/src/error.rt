//! Why a pool adds no machine, runs no tenant, or reserves no slots.
ghost use Rattle.std.specs.Prelude.{◌≡◌, Some};
ghost use Rattle.wasmi_budget.specs.Pool.{add_error_text, pool_error_text, reserve_error_text, run_into_error_text};
ghost use Rattle.wasmi_budget.specs.declared.error.PoolError.TheVariants.{OutOfMemory};

use std::alloc::AllocError;
use std::fmt;
use wasmi_machine::TooManyCalls;

/// Why a machine isn't added to a pool, in the order of the tests.
#[derive(Debug, PartialEq, Eq, Drop)]
pub enum AddError {
    /// The machine has bytes or elements, or had some that it dropped.
    NotEmpty,
    /// Memory for one more tenant was refused.
    NoRoom,
}

impl fmt::Display for AddError {
    ghost output = { λ error. Some (add_error_text error) };

    fn fmt<W: fmt::Write>(&self, f: &mut fmt::Formatter<W>) -> fmt::Result {
        f.write_str(match self {
            Self::NotEmpty => "tried to add a machine that has or had bytes or elements",
            Self::NoRoom => "out of memory for one more tenant",
        })
    }
}

impl std::error::Error for AddError {}

/// Why a pool doesn't run a tenant's calls, in the order of the tests.
#[derive(Debug, PartialEq, Eq, Drop)]
pub enum PoolError {
    /// No tenant has the index.
    NoTenant,
    /// Memory for the replies, one for each call, was refused. No call was executed.
    OutOfMemory,
}

impl fmt::Display for PoolError {
    ghost output = { λ error. Some (pool_error_text error) };

    fn fmt<W: fmt::Write>(&self, f: &mut fmt::Formatter<W>) -> fmt::Result {
        f.write_str(match self {
            Self::NoTenant => "tried to run a tenant that is not in the pool",
            Self::OutOfMemory => "out of memory for the replies",
        })
    }
}

impl std::error::Error for PoolError {}

/// Why a pool doesn't run a tenant's calls into memory kept for replies, in the order of the tests.
#[derive(Debug, PartialEq, Eq, Drop)]
pub enum RunIntoError {
    /// No tenant has the index.
    NoTenant,
    /// There are more calls than there is memory for replies. No call was executed.
    TooManyCalls,
}

impl fmt::Display for RunIntoError {
    ghost output = { λ error. Some (run_into_error_text error) };

    fn fmt<W: fmt::Write>(&self, f: &mut fmt::Formatter<W>) -> fmt::Result {
        f.write_str(match self {
            Self::NoTenant => "tried to run a tenant that is not in the pool",
            Self::TooManyCalls => "more calls than there is memory for replies",
        })
    }
}

impl std::error::Error for RunIntoError {}

impl From<TooManyCalls> for RunIntoError {
    ghost use Rattle.wasmi_budget.specs.declared.error.RunIntoError.TheVariants as into;

    ghost from_gives = { λ _ error. error ≡ into.TooManyCalls };

    fn from(_: TooManyCalls) -> Self {
        RunIntoError::TooManyCalls
    }
}

impl From<AllocError> for PoolError {
    ghost from_gives = { λ _ error. error ≡ OutOfMemory };

    fn from(_: AllocError) -> Self {
        PoolError::OutOfMemory
    }
}

/// Why a pool reserves no slots for a tenant, in the order of the tests.
#[derive(Debug, PartialEq, Eq, Drop)]
pub enum ReserveError {
    /// No tenant has the index.
    NoTenant,
    /// Memory for some of the slots was refused. None more is reserved.
    OutOfMemory,
}

impl fmt::Display for ReserveError {
    ghost output = { λ error. Some (reserve_error_text error) };

    fn fmt<W: fmt::Write>(&self, f: &mut fmt::Formatter<W>) -> fmt::Result {
        f.write_str(match self {
            Self::NoTenant => "tried to reserve slots for a tenant that is not in the pool",
            Self::OutOfMemory => "out of memory for the slots",
        })
    }
}

impl std::error::Error for ReserveError {}

impl From<AllocError> for ReserveError {
    ghost use Rattle.wasmi_budget.specs.declared.error.ReserveError.TheVariants as reserve;

    ghost from_gives = { λ _ error. error ≡ reserve.OutOfMemory };

    fn from(_: AllocError) -> Self {
        ReserveError::OutOfMemory
    }
}
