//! Traps: why a call ended early. Trap codes with their numbers and texts, and errors of the host.
ghost use Rattle.std.specs.Prelude.{◌≡◌, Some};
ghost use Rattle.std.specs.Option.{option_copied, option_copied_mut};
ghost use Rattle.std.specs.Borrow.{sem, LendsIf};
ghost use Rattle.wasmi_types.specs.Trap.{code_number, code_message, IsCodeOf, exit_status_of, code_of, host_error_of, with_host_error, text_of};
ghost use Rattle.wasmi_types.specs.declared.trap.TrapReason.TheVariants as reason;
ghost use Rattle.wasmi_types.specs.contracts.trap.Trap.{the_row};

use std::error::Error;
use std::fmt;
use std::marker::Model;

/// An error of the host, which a [`Trap`] can carry. Upstream: `wasmi_core::HostError`.
pub trait HostError: fmt::Display + fmt::Debug + Drop {}

/// Why a call of WebAssembly code or of the host ended early: a trap code, an exit status, a
/// message or an error of the host. It stands in the value, and nothing is allocated for it.
/// Upstream: `wasmi_core::Trap`.
#[derive(Debug, Drop)]
pub struct Trap<H> {
    reason: TrapReason<H>,
}

#[derive(Debug, Drop)]
enum TrapReason<H> {
    InstructionTrap(TrapCode),
    I32Exit(i32),
    Message(String),
    Host(H),
}

impl<H> Model for Trap<H> {
    ghost use Rattle.wasmi_types.specs.declared.trap.TrapReason.{TrapReason};

    ghost Value = { TrapReason H };

    ghost view = { λ trap. trap.reason };
}

impl<H: HostError> Trap<H> {
    /// A trap that a message describes.
    pub fn new(message: String) -> Self
        ensures { result ≡ reason.Message message }
    {
        let reason = TrapReason::Message(message);
        Trap { reason }
    }

    /// An exit of the program with a status.
    pub fn i32_exit(status: i32) -> Self
        ensures { result ≡ reason.I32Exit status }
    {
        let reason = TrapReason::I32Exit(status);
        Trap { reason }
    }

    /// The exit status, if this is an exit.
    pub fn i32_exit_status(&self) -> Option<i32>
        ensures { result ≡ exit_status_of self.now }
    {
        match &self.reason {
            TrapReason::I32Exit(status) => Some(*status),
            _ => None,
        }
    }

    /// The trap code, if an instruction trapped.
    pub fn trap_code(&self) -> Option<TrapCode>
        ensures { result ≡ code_of self.now }
    {
        match &self.reason {
            TrapReason::InstructionTrap(code) => Some(*code),
            _ => None,
        }
    }

    /// The error of the host, if this carries one.
    pub fn downcast_ref(&self) -> Option<&H>
        ensures { option_copied result ≡ host_error_of self.now }
    {
        match &self.reason {
            TrapReason::Host(error) => Some(error),
            _ => None,
        }
    }

    /// The error of the host to be changed, if this carries one.
    pub fn downcast_mut(&mut self) -> Option<&mut H>
        ensures* writes_back { sem 𝓛 (LendsIf (the_row H.row) H.row self.entry result
            (with_host_error self.old) self.old) }
        ensures value { option_copied_mut result ≡ host_error_of self.old }
    {
        match &mut self.reason {
            TrapReason::Host(error) => Some(error),
            _ => None,
        }
    }

    /// The error of the host, if this carries one. A trap without one is dropped.
    pub fn downcast(self) -> Option<H>
        ensures { result ≡ host_error_of self }
    {
        match self.reason {
            TrapReason::Host(error) => Some(error),
            _ => None,
        }
    }
}

impl<H: HostError> fmt::Display for Trap<H> {
    ghost output = { text_of H.output };

    fn fmt<W: fmt::Write>(&self, f: &mut fmt::Formatter<W>) -> fmt::Result {
        match &self.reason {
            TrapReason::InstructionTrap(code) => fmt::Display::fmt(code, f),
            TrapReason::I32Exit(status) => write!(f, "Exited with i32 exit status {status}"),
            TrapReason::Message(message) => f.write_str(message),
            TrapReason::Host(error) => fmt::Display::fmt(error, f),
        }
    }
}

impl<H: HostError> Error for Trap<H> {}

impl<H: HostError> From<TrapCode> for Trap<H> {
    ghost from_gives = { λ code trap. trap ≡ reason.InstructionTrap code };

    fn from(code: TrapCode) -> Self {
        let reason = TrapReason::InstructionTrap(code);
        Trap { reason }
    }
}

impl<H: HostError> From<H> for Trap<H> {
    ghost from_gives = { λ error trap. trap ≡ reason.Host error };

    fn from(error: H) -> Self {
        let reason = TrapReason::Host(error);
        Trap { reason }
    }
}

/// A number that no trap code has. Upstream: `wasmi_core::InvalidTrapCode`.
#[derive(Clone, Copy, Debug, PartialEq, Eq)]
pub struct InvalidTrapCode;

/// Why an instruction trapped, as the numbers 1 to 12. Upstream: `wasmi_core::TrapCode`.
#[derive(Clone, Copy, Debug, PartialEq, Eq)]
pub enum TrapCode {
    /// The instruction `unreachable` was executed.
    UnreachableCodeReached = 1,
    /// An access to a linear memory past its end.
    MemoryOutOfBounds = 2,
    /// An access to a table past its end.
    TableOutOfBounds = 3,
    /// An indirect call through a null reference.
    IndirectCallToNull = 4,
    /// An integer division or remainder by 0.
    IntegerDivisionByZero = 5,
    /// The quotient of a signed division does not fit its type.
    IntegerOverflow = 6,
    /// A float that is a NaN or does not fit was converted to an integer.
    BadConversionToInteger = 7,
    /// The calls are nested too deeply.
    StackOverflow = 8,
    /// An indirect call of a function of another type.
    BadSignature = 9,
    /// The fuel is used up.
    OutOfFuel = 10,
    /// A resource limiter answered a growth with an error.
    GrowthOperationLimited = 11,
    /// The system refused memory.
    OutOfSystemMemory = 12,
}

impl TrapCode {
    /// The message of this code, mostly that of the core specification's test suite.
    pub fn trap_message(&self) -> &'static str
        ensures { result.now ≡ code_message self.now }
    {
        match self {
            Self::UnreachableCodeReached => "wasm `unreachable` instruction executed",
            Self::MemoryOutOfBounds => "out of bounds memory access",
            Self::TableOutOfBounds => "undefined element: out of bounds table access",
            Self::IndirectCallToNull => "uninitialized element 2",
            Self::IntegerDivisionByZero => "integer divide by zero",
            Self::IntegerOverflow => "integer overflow",
            Self::BadConversionToInteger => "invalid conversion to integer",
            Self::StackOverflow => "call stack exhausted",
            Self::BadSignature => "indirect call type mismatch",
            Self::OutOfFuel => "all fuel consumed by WebAssembly",
            Self::GrowthOperationLimited => "growth operation limited",
            Self::OutOfSystemMemory => "out of system memory",
        }
    }
}

impl fmt::Display for TrapCode {
    ghost output = { λ code. Some (code_message code) };

    fn fmt<W: fmt::Write>(&self, f: &mut fmt::Formatter<W>) -> fmt::Result {
        f.write_str(self.trap_message())
    }
}

impl From<TrapCode> for u8 {
    ghost from_gives = { λ code number. number ≡ code_number code };

    fn from(code: TrapCode) -> u8 {
        code as u8
    }
}

impl TryFrom<u8> for TrapCode {
    type Error = InvalidTrapCode;

    ghost try_from_gives = { IsCodeOf };

    fn try_from(number: u8) -> Result<Self, InvalidTrapCode> {
        match number {
            1 => Ok(TrapCode::UnreachableCodeReached),
            2 => Ok(TrapCode::MemoryOutOfBounds),
            3 => Ok(TrapCode::TableOutOfBounds),
            4 => Ok(TrapCode::IndirectCallToNull),
            5 => Ok(TrapCode::IntegerDivisionByZero),
            6 => Ok(TrapCode::IntegerOverflow),
            7 => Ok(TrapCode::BadConversionToInteger),
            8 => Ok(TrapCode::StackOverflow),
            9 => Ok(TrapCode::BadSignature),
            10 => Ok(TrapCode::OutOfFuel),
            11 => Ok(TrapCode::GrowthOperationLimited),
            12 => Ok(TrapCode::OutOfSystemMemory),
            _ => Err(InvalidTrapCode),
        }
    }
}
