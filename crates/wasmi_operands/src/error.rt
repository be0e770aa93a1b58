//! Why a line isn't taken: it is a bad command, or memory is refused.
ghost use Rattle.std.specs.Prelude.{◌≡◌};
ghost use Rattle.wasmi_operands.specs.declared.error.LineError.TheVariants.{OutOfMemory};

use std::alloc::AllocError;

/// Why a line isn't taken.
#[derive(Clone, Copy)]
pub enum LineError {
    /// It is no command, or no header line that may stand there.
    BadCommand,
    /// There isn't enough memory for its words or its call.
    OutOfMemory,
}

impl From<AllocError> for LineError {
    ghost from_gives = { λ _ error. error ≡ OutOfMemory };

    fn from(_: AllocError) -> Self {
        LineError::OutOfMemory
    }
}
