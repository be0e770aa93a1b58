//! Scripts, from a reader to a writer; what their tests share: scripts that are run, and
//! comparisons with what they have to print.

// Lines, and beside each what is printed for it; after a `;` stands what is printed at the end. An
// empty last line is a line feed at the end.
macro_rules! script {
    (
        $first:expr $(=> $first_printed:expr)?
        $(, $line:expr $(=> $printed:expr)?)* $(,)?
        $(; $($last:expr),+ $(,)?)?
    ) => {
        $crate::tests::script::Script {
            text: concat!($first $(, "\n", $line)*),
            printed: concat!(
                $($first_printed, "\n",)?
                $($($printed, "\n",)?)*
                $($($last, "\n",)+)?
            ),
        }
    };
}

// A script whose calls are answered, with one more header line or none, and what is held then.
macro_rules! metered {
    ($($header:literal; $held:literal)?) => {
        script! {
            "meter on 64",
            $($header,)?
            "fuel 2000" => "done",
            "memory 1 2 16 32" => "memory 0",
            "write 0 65535 44" => "done",
            "grow 0 1" => "value 1",
            "grow 0 1" => "error out of bounds memory growth",
            "read 0 65535 2" => "bytes 44 0",
            "left" => "value 976",
            ""
            $(; $held)?
        }
    };
}

mod bad_lines;
mod replies;
mod streams;

use super::same;
use std::alloc::Global;
use std::process::Abort;
use std::str;
use streams::{Source, Target};
use wasmi_script::{Status, replay};

// A text, and all that is printed for it.
#[derive(Clone, Copy)]
struct Script {
    text: &'static str,
    printed: &'static str,
}

// A script whose calls are answered.
const METERED: Script = metered! {};

// Runs what the reader gives, and compares what the writer takes and how it ends.
fn prints<R: Abort>(
    rt: &R,
    alloc: Global,
    mut reader: Source<'_>,
    mut writer: Target,
    printed: &[u8],
    status: Status,
) {
    let ended = replay(alloc, &mut reader, &mut writer);
    let answer = (ended, str::from_utf8(writer.text()));
    same(
        rt,
        "how it ends, its text",
        answer,
        (status, str::from_utf8(printed)),
    );
}

// Replays a script whose calls are answered, and compares what is printed.
fn answers<R: Abort>(rt: &R, alloc: Global, script: &str, printed: &str) {
    let (reader, writer) = (Source::of(script.as_bytes()), Target::new(alloc));
    prints(
        rt,
        alloc,
        reader,
        writer,
        printed.as_bytes(),
        Status::Answered,
    );
}

// Replays scripts whose calls are answered, and compares what is printed.
fn answers_each<R: Abort>(rt: &R, alloc: Global, scripts: &[Script]) {
    for script in scripts {
        answers(rt, alloc, script.text, script.printed);
    }
}
