//! The lines for calls and their replies, written to the front of bytes as far as they fit, and the
//! texts and numbers that are written there one after the other.
ghost use Rattle.std.specs.Prelude.{◌≡◌, ◌-◌, ◌^◌, length, min};
ghost use Rattle.std.specs.Fmt.{decimal};
ghost use Rattle.wasmi_script.specs.Printing.{AddsToFront, FillsFront, line};
ghost use Rattle.wasmi_script.specs.Outcomes.{replies_text};
ghost use Rattle.wasmi_script.specs.Texts.{bytes_text, number_text, reply_text};

use crate::printing::{Wording, bytes_of};
use wasmi_machine::{Call, Reply};

/// Writes a line for each call with its reply to the front of bytes, as much of the lines as fits.
/// It returns the length of all the lines, or 2^64 - 1 if they are longer. It takes no memory.
pub fn write_lines(bytes: &mut [u8], calls: &[Call], replies: &[Reply]) -> usize
    ensures front { FillsFront (replies_text calls.now replies.now) bytes.old bytes.new }
    ensures length { result ≡ min (length (replies_text calls.now replies.now)) (2 ^ 64 - 1) }
{
    let mut end = 0;
    for (call, reply) in calls.iter().zip(replies) {
        end = put_line(bytes, end, call, reply);
    }
    end
}

/// A call's reply and a line feed, as [`put`] does a text.
fn put_line(bytes: &mut [u8], written: usize, call: &Call, reply: &Reply) -> usize
    ensures { AddsToFront (line (reply_text call.now reply.now)) bytes.old written bytes.new
        result }
{
    let worded = Wording::of(call, reply).put(bytes, written);
    let told = put_bytes(bytes, worded, bytes_of(reply));
    put(bytes, told, b"\n")
}

/// A space and a number for each of the bytes that were told, as [`put`] does a text.
fn put_bytes(bytes: &mut [u8], written: usize, told: &[u8]) -> usize
    ensures { AddsToFront (bytes_text told.now) bytes.old written bytes.new result }
{
    let mut end = written;
    for byte in told {
        let spaced = put(bytes, end, b" ");
        end = put_number(bytes, spaced, u64::from(*byte));
    }
    end
}

/// Writes a text after those of `written` bytes in all that were written before, as much of it as
/// fits, and returns the length of all of them, or 2^64 - 1 if they are longer.
pub fn put(bytes: &mut [u8], written: usize, text: &[u8]) -> usize
    ensures { AddsToFront text.now bytes.old written bytes.new result }
{
    let start = written.min(bytes.len());
    let count = text.len().min(bytes.len() - start);
    bytes[start..start + count].copy_from_slice(&text[..count]);
    written.saturating_add(text.len())
}

/// Writes a number in decimal, as [`put`] does a text.
pub fn put_number(bytes: &mut [u8], written: usize, number: u64) -> usize
    ensures { AddsToFront (decimal number) bytes.old written bytes.new result }
{
    let digit = [b'0' + (number % 10) as u8];
    if number < 10 {
        return put(bytes, written, &digit);
    }
    let before_last = put_number(bytes, written, number / 10);
    put(bytes, before_last, &digit)
}

/// Writes a number in decimal after a text, if there is a number, as [`put`] does a text.
pub fn put_optional(bytes: &mut [u8], written: usize, before: &str, number: Option<u64>) -> usize
    ensures { AddsToFront (number_text before.now number) bytes.old written bytes.new result }
{
    match number {
        None => written,
        Some(number) => {
            let begun = put(bytes, written, before.as_bytes());
            put_number(bytes, begun, number)
        }
    }
}
