//! Why a text isn't parsed.
ghost use Rattle.std.specs.Prelude.{◌≡◌};
ghost use Rattle.wasmi_grammar.specs.declared.error.ParseError.TheVariants.{OutOfMemory};

use std::alloc::AllocError;

/// Why a text isn't parsed.
#[derive(Clone, Copy, Debug, PartialEq, Eq)]
pub enum ParseError {
    /// The first line that is no command, counted from 1.
    BadCommand { line: usize },
    /// There wasn't enough memory for the script.
    OutOfMemory,
}

impl From<AllocError> for ParseError {
    ghost from_gives = { λ _ error. error ≡ OutOfMemory };

    fn from(_: AllocError) -> Self {
        ParseError::OutOfMemory
    }
}
