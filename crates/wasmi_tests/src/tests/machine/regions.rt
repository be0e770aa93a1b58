//! What the lender of a machine's spare region finds in it after the loan.
use super::{memory_type, runs_to, same};
use std::process::Abort;
use wasmi_machine::{Call, Machine, Reply};
use wasmi_meter::{Fuel, FuelCostsProvider, MemoryError};

/// Runs calls on a machine with a region of ten bytes of 7, and compares the replies, and what the
/// lender finds then.
fn finds(rt: &(impl Abort + AllocGlobal), calls: &[Call], replies: &[Reply], expected: [u8; 10]) {
    let mut region = [7; 10];
    let fuel = Fuel::new(false, FuelCostsProvider::default());
    let mut machine = Machine::with_region(rt.alloc(), fuel, &mut region);
    runs_to(rt, &mut machine, calls, replies);
    drop(machine);
    same(rt, "the lender's bytes", region, expected);
}

#[test]
fn the_lender_finds_the_memory(rt: HostRuntime) {
    let calls = [
        Call::NewLentMemory(memory_type(&rt, 2, 0)),
        Call::GrowMemory {
            memory: 0,
            pages: 5,
        },
        Call::Write {
            memory: 0,
            offset: 1,
            bytes: vec![in rt.alloc(); 1, 2].expect(&rt, "there is room"),
        },
    ];
    let replies = [Reply::Made(0), Reply::Number(2), Reply::Done];
    finds(&rt, &calls, &replies, [0, 1, 2, 0, 0, 0, 0, 7, 7, 7]);
}

#[test]
fn a_refused_creation_spends_the_region(rt: HostRuntime) {
    let calls = [
        Call::NewLentMemory(memory_type(&rt, 11, 0)),
        Call::NewLentMemory(memory_type(&rt, 0, 0)),
    ];
    let replies = [
        Reply::Memory(MemoryError::InvalidStaticBufferSize),
        Reply::NoRegion,
    ];
    finds(&rt, &calls, &replies, [7; 10]);
}

#[test]
fn a_dropped_memory_leaves_its_bytes(rt: HostRuntime) {
    let calls = [
        Call::NewLentMemory(memory_type(&rt, 2, 0)),
        Call::Write {
            memory: 0,
            offset: 0,
            bytes: vec![in rt.alloc(); 1, 2].expect(&rt, "there is room"),
        },
        Call::DropMemory(0),
    ];
    let replies = [Reply::Made(0), Reply::Done, Reply::Done];
    finds(&rt, &calls, &replies, [1, 2, 7, 7, 7, 7, 7, 7, 7, 7]);
}
