//! Why calls on memories and tables are refused, and the error of a resource limiter.
ghost use Rattle.std.specs.Prelude.{◌≡◌, Some};
ghost use Rattle.wasmi_meter.specs.Meter.{IsOfFuel};
ghost use Rattle.wasmi_meter.specs.Texts.{limiter_error_text, memory_error_text, numbered, table_error_text};
ghost use Rattle.wasmi_meter.specs.declared.error.MemoryError.TheVariants as memory;
ghost use Rattle.wasmi_meter.specs.declared.error.TableError.TheVariants as table;

use crate::fuel::FuelError;
use std::fmt;

/// A resource limiter's error, to a question or a notice. Upstream: `wasmi_core::LimiterError`.
#[derive(Clone, Copy, Debug, PartialEq, Eq)]
pub enum LimiterError {
    /// The limiter refuses what it was asked, or rejects the notice that it got.
    ResourceLimiterDeniedAllocation,
}

impl fmt::Display for LimiterError {
    ghost output = { λ error. Some (limiter_error_text error) };

    fn fmt<W: fmt::Write>(&self, f: &mut fmt::Formatter<W>) -> fmt::Result {
        f.write_str("resource limiter denied allocation")
    }
}

impl std::error::Error for LimiterError {}

/// Why a call on a linear memory or a memory type is refused. Upstream: `wasmi_core::MemoryError`.
#[derive(Clone, Copy, Debug, PartialEq, Eq)]
pub enum MemoryError {
    /// The system refused memory for an owned memory.
    OutOfSystemMemory,
    /// A growth above the greatest number of pages or the maximum, or one that the limiter denies.
    OutOfBoundsGrowth,
    /// A read or a write that ends past the memory.
    OutOfBoundsAccess,
    /// Pages not of 1 byte or 64 KiB, or limits out of order or above the greatest number of pages.
    InvalidMemoryType,
    /// A borrowed buffer that is too short.
    InvalidStaticBufferSize,
    /// The limiter denied a creation, or returned an error to a question or a notice.
    ResourceLimiterDeniedAllocation,
    /// A creation whose minimum has 2^64 bytes or more, or 2^32 where `usize` has 32 bits.
    MinimumSizeOverflow,
    /// Never returned: a maximum above the greatest `usize` counts as that.
    MaximumSizeOverflow,
    /// A growth costs more fuel than is left.
    OutOfFuel { required_fuel: u64 },
}

impl MemoryError {
    /// The words of its text, and the number after them, if there is one.
    pub fn words(&self) -> (&'static str, Option<u64>)
        ensures { numbered result.0.now result.1 ≡ memory_error_text self.now }
    {
        let words = match self {
            Self::OutOfSystemMemory => {
                "tried to allocate more virtual memory than available on the system"
            }
            Self::OutOfBoundsGrowth => "out of bounds memory growth",
            Self::OutOfBoundsAccess => "out of bounds memory access",
            Self::InvalidMemoryType => "tried to create an invalid linear memory type",
            Self::InvalidStaticBufferSize => "tried to use too small static buffer",
            Self::ResourceLimiterDeniedAllocation => {
                "a resource limiter denied to allocate or grow the linear memory"
            }
            Self::MinimumSizeOverflow => {
                "the minimum size of the memory type overflows the system index type"
            }
            Self::MaximumSizeOverflow => {
                "the maximum size of the memory type overflows the system index type"
            }
            Self::OutOfFuel { required_fuel } => return (
                "not enough fuel. required=",
                Some(*required_fuel),
            ),
        };
        (words, None)
    }
}

impl fmt::Display for MemoryError {
    ghost output = { λ error. Some (memory_error_text error) };

    fn fmt<W: fmt::Write>(&self, f: &mut fmt::Formatter<W>) -> fmt::Result {
        match self.words() {
            (words, None) => f.write_str(words),
            (words, Some(number)) => write!(f, "{words}{number}"),
        }
    }
}

impl std::error::Error for MemoryError {}

/// Why a call on a table is refused. Upstream: `wasmi_core::TableError`.
#[derive(Clone, Copy, Debug, PartialEq, Eq)]
pub enum TableError {
    /// The system refused memory.
    OutOfSystemMemory,
    /// A creation whose minimum has 2^32 elements or more, where `usize` has 32 bits.
    MinimumSizeOverflow,
    /// Never returned: a maximum above the greatest `usize` counts as that.
    MaximumSizeOverflow,
    /// The limiter denied a creation, or returned an error to a question or a notice.
    ResourceLimiterDeniedAllocation,
    /// A growth above the greatest number of elements or the maximum, or that the limiter denies.
    GrowOutOfBounds,
    /// An initialization that ends past the table or the element segment.
    InitOutOfBounds,
    /// A fill that ends past the table.
    FillOutOfBounds,
    /// A write past the table.
    SetOutOfBounds,
    /// A copy that ends past one of its tables.
    CopyOutOfBounds,
    /// A reference or an element segment of another type than the table's elements.
    ElementTypeMismatch,
    /// A call costs more fuel than is left.
    OutOfFuel { required_fuel: u64 },
}

impl TableError {
    /// The words of its text, and the number after them, if there is one.
    pub fn words(&self) -> (&'static str, Option<u64>)
        ensures { numbered result.0.now result.1 ≡ table_error_text self.now }
    {
        let words = match self {
            Self::OutOfSystemMemory => {
                "tried to allocate more virtual memory than available on the system"
            }
            Self::MinimumSizeOverflow => "the minimum table size overflows the system bounds",
            Self::MaximumSizeOverflow => "the maximum table size overflows the system bounds",
            Self::ResourceLimiterDeniedAllocation => {
                "a resource limiter denied to allocate or grow the table"
            }
            Self::GrowOutOfBounds => "out of bounds table access: `table.growth`",
            Self::InitOutOfBounds => "out of bounds table access: `table.init`",
            Self::FillOutOfBounds => "out of bounds table access: `table.fill`",
            Self::SetOutOfBounds => "out of bounds table access: `table.set`",
            Self::CopyOutOfBounds => "out of bounds table access: `table.copy`",
            Self::ElementTypeMismatch => "encountered mismatching table element type",
            Self::OutOfFuel { required_fuel } => return (
                "not enough fuel: required=",
                Some(*required_fuel),
            ),
        };
        (words, None)
    }
}

impl fmt::Display for TableError {
    ghost output = { λ error. Some (table_error_text error) };

    fn fmt<W: fmt::Write>(&self, f: &mut fmt::Formatter<W>) -> fmt::Result {
        match self.words() {
            (words, None) => f.write_str(words),
            (words, Some(number)) => write!(f, "{words}{number}"),
        }
    }
}

impl std::error::Error for TableError {}

impl From<LimiterError> for MemoryError {
    ghost from_gives = { λ _ error. error ≡ memory.ResourceLimiterDeniedAllocation };

    fn from(_: LimiterError) -> Self {
        MemoryError::ResourceLimiterDeniedAllocation
    }
}

impl From<LimiterError> for TableError {
    ghost from_gives = { λ _ error. error ≡ table.ResourceLimiterDeniedAllocation };

    fn from(_: LimiterError) -> Self {
        TableError::ResourceLimiterDeniedAllocation
    }
}

impl TryFrom<FuelError> for TableError {
    type Error = FuelError;

    ghost try_from_gives = { IsOfFuel };

    // The error of a meter that is off is handed back. Upstream panics there.
    fn try_from(error: FuelError) -> Result<TableError, FuelError> {
        match error {
            FuelError::OutOfFuel { required_fuel } => Ok(TableError::OutOfFuel { required_fuel }),
            FuelError::FuelMeteringDisabled => Err(error),
        }
    }
}
