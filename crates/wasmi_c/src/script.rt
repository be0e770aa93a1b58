//! A script of calls, from bytes to bytes.
ghost use Rattle.wasmi_c.specs.Script.{AnswersScript};

use crate::status::TEXT_TOO_SHORT;
use std::alloc::Global;
use wasmi_script::replay_bytes;

/// Runs a script, and writes what it prints to the front of `text`; `needed` becomes its length in
/// bytes. The status is the program's (docs/SCRIPT.md), or 5 if `text` is shorter, which stays.
pub fn run(alloc: Global, script: &[u8], text: &mut [u8], needed: &mut usize) -> u8
    ensures answers { AnswersScript script.now text.old text.new needed.new result }
{
    let mut printed = Vec::new(alloc);
    let status = replay_bytes(alloc, script, &mut printed);
    *needed = printed.len();
    if text.len() < printed.len() {
        return TEXT_TOO_SHORT;
    }
    let front = &mut text[..printed.len()];
    front.copy_from_slice(printed.as_slice());
    status.code()
}
