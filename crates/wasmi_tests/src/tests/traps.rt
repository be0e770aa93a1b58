//! Traps and trap codes: their numbers, their texts, and what a trap carries.

use super::{same, same_text};
use std::alloc::Global;
use std::fmt;
use std::process::Abort;
use wasmi_types::{HostError, InvalidTrapCode, Trap, TrapCode};

/// Each trap code with its number and its text.
static TRAP_CODES: [(u8, TrapCode, &str); 12] = [
    (
        1,
        TrapCode::UnreachableCodeReached,
        "wasm `unreachable` instruction executed",
    ),
    (
        2,
        TrapCode::MemoryOutOfBounds,
        "out of bounds memory access",
    ),
    (
        3,
        TrapCode::TableOutOfBounds,
        "undefined element: out of bounds table access",
    ),
    (4, TrapCode::IndirectCallToNull, "uninitialized element 2"),
    (5, TrapCode::IntegerDivisionByZero, "integer divide by zero"),
    (6, TrapCode::IntegerOverflow, "integer overflow"),
    (
        7,
        TrapCode::BadConversionToInteger,
        "invalid conversion to integer",
    ),
    (8, TrapCode::StackOverflow, "call stack exhausted"),
    (9, TrapCode::BadSignature, "indirect call type mismatch"),
    (10, TrapCode::OutOfFuel, "all fuel consumed by WebAssembly"),
    (
        11,
        TrapCode::GrowthOperationLimited,
        "growth operation limited",
    ),
    (12, TrapCode::OutOfSystemMemory, "out of system memory"),
];

#[test]
fn trap_code_conversion(rt: HostRuntime) {
    for (number, code, text) in &TRAP_CODES {
        let codes = (u8::from(*code), TrapCode::try_from(*number));
        let answer = (codes, code.trap_message());
        same(&rt, text, answer, ((*number, Ok(*code)), *text));
        same_text(&rt, rt.alloc(), code, text);
    }
    let answers = [
        TrapCode::try_from(0),
        TrapCode::try_from(13),
        TrapCode::try_from(255),
    ];
    let expected = [Err(InvalidTrapCode); 3];
    same(&rt, "no trap codes, 0, 13 and 255", answers, expected);
}

/// An error of the host.
#[derive(Clone, Copy, Debug, PartialEq, Eq)]
struct Refused(u8);

impl fmt::Display for Refused {
    fn fmt<W: fmt::Write>(&self, f: &mut fmt::Formatter<W>) -> fmt::Result {
        write!(f, "refused {}", self.0)
    }
}

impl HostError for Refused {}

/// What a trap answers: its code, its exit status and its error of the host.
type Reason = (Option<TrapCode>, Option<i32>, Option<Refused>);

fn check_trap(rt: &impl Abort, alloc: Global, mut trap: Trap<Refused>, text: &str, reason: Reason) {
    same_text(rt, alloc, &trap, text);
    let error = trap.downcast_ref().copied();
    let answer = (trap.trap_code(), trap.i32_exit_status(), error);
    same(rt, text, answer, reason);
    if let Some(error) = trap.downcast_mut() {
        error.0 = 8;
    }
    same(rt, text, trap.downcast(), error.and(Some(Refused(8))));
}

#[test]
fn a_trap_is_its_reason(rt: HostRuntime) {
    let alloc = rt.alloc();
    let code = TrapCode::StackOverflow;
    let reason = (Some(code), None, None);
    check_trap(&rt, alloc, code.into(), "call stack exhausted", reason);
    let exit = Trap::i32_exit(-1);
    let reason = (None, Some(-1), None);
    check_trap(&rt, alloc, exit, "Exited with i32 exit status -1", reason);
    let message = String::from_str(alloc, "the message").expect(&rt, "memory");
    let reason = (None, None, None);
    check_trap(&rt, alloc, Trap::new(message), "the message", reason);
    let error = Refused(7);
    let reason = (None, None, Some(error));
    check_trap(&rt, alloc, error.into(), "refused 7", reason);
}
