//! Lines that are no commands, and scripts that are too long.
use super::streams::{Source, Target};
use super::{answers, prints};
use std::alloc::Global;
use std::process::Abort;
use wasmi_script::{LIMIT, Status};

// Scripts, and what is printed of their first bad line.
static BAD_LINES: [(&[u8], &str); 17] = [
    (b"fuel", "line 1: bad command\n"),
    (b"fuel +1", "line 1: bad command\n"),
    (b"fuel 18446744073709551616", "line 1: bad command\n"),
    (b"memory 2 1 16 32", "line 1: bad command\n"),
    (b"memory 0 none 1 32", "line 1: bad command\n"),
    (b"memory 65537 none 16 32", "line 1: bad command\n"),
    (
        b"table func 4294967296 none 32 func 0",
        "line 1: bad command\n",
    ),
    (b"write 0 0 256", "line 1: bad command\n"),
    (
        b"extract i8x16_extract_lane_u 0 16",
        "line 1: bad command\n",
    ),
    (b"quota 1", "line 1: bad command\n"),
    (b"fuel\t1", "line 1: bad command\n"),
    (b"left\r", "line 1: bad command\n"),
    (b"left \xff", "line 1: bad command\n"),
    (b"fuel 1\nmeter on 64", "line 2: bad command\n"),
    (b"meter off\nmeter off", "line 2: bad command\n"),
    (b"meter off\n\ngrow 0", "line 3: bad command\n"),
    (b"tenants 1 0 0\nas 1", "line 2: bad command\n"),
];

fn is_bad<R: Abort>(rt: &R, alloc: Global, script: &[u8], printed: &str) {
    let (reader, writer) = (Source::of(script), Target::new(alloc));
    prints(
        rt,
        alloc,
        reader,
        writer,
        printed.as_bytes(),
        Status::BadScript,
    );
}

#[test]
fn names_the_first_bad_line(rt: HostRuntime) {
    for &(script, printed) in &BAD_LINES {
        is_bad(&rt, rt.alloc(), script, printed);
    }
}

// A text, so many times.
fn repeated<R: Abort>(rt: &R, alloc: Global, text: &str, times: usize) -> String {
    text.repeat(alloc, times).expect(rt, "there is room")
}

#[test]
fn takes_a_script_of_at_most_the_limit(rt: HostRuntime) {
    let spaces = repeated(&rt, rt.alloc(), " ", 1_048_576);
    answers(&rt, rt.alloc(), spaces.as_str(), "");
    for text in [" ", "x"] {
        let script = repeated(&rt, rt.alloc(), text, LIMIT + 1);
        is_bad(&rt, rt.alloc(), script.as_bytes(), "script too long\n");
    }
}
