//! Instructions on a memory of one's own: stores, loads, a sum, a vector sum, and a trap.

use std::fmt::Display;
use std::io;
use wasmi_core::{TrapCode, simd, wasm};

/// Adds two numbers of a memory, and loads past its end.
pub fn main(rt: HostRuntime) -> io::Result<()> {
    let mut memory = [0u8; 64];
    print(&rt, "sum", sum(&mut memory))?;
    match lanes(&memory) {
        Ok(bits) => println!(rt; "each byte plus one: {bits:032x}")?,
        Err(trap) => println!(rt; "each byte plus one: {trap}")?,
    }
    print(&rt, "past the end", wasm::load_u32(&memory, 60, 1))
}

/// Prints a number, or why there is none.
fn print<T: Display + Drop>(
    rt: &impl Print,
    what: &str,
    number: Result<T, TrapCode>,
) -> io::Result<()> {
    match number {
        Ok(number) => println!(rt; "{what}: {number}"),
        Err(trap) => println!(rt; "{what}: {trap}"),
    }
}

/// Stores two numbers side by side, loads them and adds them.
fn sum(memory: &mut [u8]) -> Result<i32, TrapCode> {
    wasm::store32(memory, 8, 0, 40)?;
    wasm::store32(memory, 8, 4, 2)?;
    let first = wasm::load_u32(memory, 8, 0)?;
    let second = wasm::load_u32(memory, 8, 4)?;
    Ok(wasm::i32_add(first.cast_signed(), second.cast_signed()))
}

/// Loads 16 bytes as a vector, and adds one to each of them.
fn lanes(memory: &[u8]) -> Result<u128, TrapCode> {
    let bytes = simd::v128_load(memory, 8, 0)?;
    let sums = simd::i8x16_add(bytes, simd::i8x16_splat(1));
    Ok(sums.as_u128())
}
