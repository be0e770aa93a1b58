//! Why a script isn't run to its end.
ghost use Rattle.std.specs.Prelude.{◌≡◌, Some};
ghost use Rattle.wasmi_grammar.specs.declared.error.ParseError.TheVariants.{OutOfMemory};
ghost use Rattle.wasmi_script.specs.Texts.{error_text};
ghost use Rattle.wasmi_script.specs.declared.error.ReplayError.TheVariants.{Parse};

use std::alloc::AllocError;
use std::fmt;
use wasmi_grammar::ParseError;

/// Why a script isn't run. The text is what the program prints.
#[derive(Clone, Copy, Debug, PartialEq, Eq)]
pub enum ReplayError {
    /// A line is no command, or there wasn't enough memory: to read, to parse or for the replies.
    Parse(ParseError),
    /// More bytes than a script may have.
    TooLong,
    /// The reader returned an error.
    ReadFault,
}

impl fmt::Display for ReplayError {
    ghost output = { λ error. Some (error_text error) };

    fn fmt<W: fmt::Write>(&self, f: &mut fmt::Formatter<W>) -> fmt::Result {
        match self {
            Self::Parse(ParseError::BadCommand { line }) => write!(f, "line {line}: bad command"),
            Self::Parse(ParseError::OutOfMemory) => f.write_str("out of memory"),
            Self::TooLong => f.write_str("script too long"),
            Self::ReadFault => f.write_str("read fault"),
        }
    }
}

impl std::error::Error for ReplayError {}

impl From<AllocError> for ReplayError {
    ghost from_gives = { λ _ error. error ≡ Parse OutOfMemory };

    fn from(_: AllocError) -> Self {
        ReplayError::Parse(ParseError::OutOfMemory)
    }
}

impl From<ParseError> for ReplayError {
    ghost from_gives = { λ error replayed. replayed ≡ Parse error };

    fn from(error: ParseError) -> Self {
        ReplayError::Parse(error)
    }
}
