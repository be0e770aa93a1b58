//! Linear memories and their buffers: types, and how they are made, grow, are read and are written;
//! what the lender of a region finds in it after the loan, and what a caller knows of a memory
//! after it wrote through a loan.
ghost use Rattle.std.specs.Prelude.{◌≡◌, ◌<◌, length, slice_set};

use super::limiters::{COMPLAINT, Failure, Recorder, memory_question, same_record};
use super::{
    SUBTYPES, ample_memory, build_type, grow, lent_memory, metered, new_memory, page_type, same,
};
use std::alloc::Global;
use std::process::Abort;
use wasmi_meter::{LimiterError, MemoryError, NoLimits, Quota, ResourceLimiter};
use wasmi_store::{ByteBuffer, Memory};

const DENIED: MemoryError = MemoryError::ResourceLimiterDeniedAllocation;

const OUT_OF_BOUNDS: MemoryError = MemoryError::OutOfBoundsGrowth;

const OUT_OF_FUEL: MemoryError = MemoryError::OutOfFuel {
    required_fuel: 1024,
};

#[test]
fn subtyping_works(rt: HostRuntime) {
    for &(what, own, other, expected) in &SUBTYPES {
        let own = page_type(&rt, u64::from(own.0), own.1.map(u64::from));
        let other = page_type(&rt, u64::from(other.0), other.1.map(u64::from));
        same(&rt, what, own.is_subtype_of(&other), expected);
    }
}

#[test]
fn all_addresses_are_too_many(rt: HostRuntime) {
    let types = [
        build_type(65536, None, 16, false).is_ok(),
        build_type(65537, None, 16, false).is_ok(),
    ];
    same(&rt, "all pages, one more", types, [true, false]);
    let mut recorder = Recorder::new(Ok(true), Ok(()));
    let wide = build_type(1 << 48, None, 16, true).expect(&rt, "a type");
    let made = new_memory(rt.alloc(), wide, &mut recorder).err();
    let overflow = Some(MemoryError::MinimumSizeOverflow);
    same(&rt, "a minimum of all addresses", made, overflow);
    let ty = build_type(0, Some(1 << 48), 16, true).expect(&rt, "a type");
    let mut memory = new_memory(rt.alloc(), ty, &mut recorder).expect(&rt, "a memory");
    let grown = grow(&mut memory, 1 << 48, None, &mut recorder);
    same(&rt, "all addresses", grown, Err(OUT_OF_BOUNDS));
    let creation = memory_question(0, 0, Some(usize::MAX));
    same_record(&rt, "the creation alone", &recorder, creation, None);
}

/// The outcome of a growth, and the fuel that is left.
type Paid = (Result<u64, MemoryError>, u64);

/// Grows a memory page by page on a meter with so much fuel, and compares how each growth ends.
fn grows<L: ResourceLimiter>(
    rt: &impl Abort,
    memory: &mut Memory,
    limiter: &mut L,
    fuel: u64,
    growths: &[Paid],
) {
    let mut meter = metered(fuel);
    for &(outcome, left) in growths {
        let grown = grow(memory, 1, Some(&mut meter), limiter);
        same(
            rt,
            "a page more",
            (grown, meter.get_fuel()),
            (outcome, Ok(left)),
        );
    }
}

/// Fuel, the growths that it has to pay for, and the bytes that the quota then holds.
static METERED_GROWTHS: [(u64, &[Paid], u64); 2] = [
    (1000, &[(Err(OUT_OF_FUEL), 1000)], 65536),
    (1024, &TO_THE_MAXIMUM, 131072),
];

/// A page more, to the maximum, and one above it.
const TO_THE_MAXIMUM: [Paid; 2] = [(Ok(1), 0), (Err(OUT_OF_BOUNDS), 0)];

#[test]
fn quota_bounds_growth(rt: HostRuntime) {
    for &(fuel, growths, held) in &METERED_GROWTHS {
        let mut quota = Quota::new(131072, 0);
        let ty = page_type(&rt, 1, Some(2));
        let mut memory = new_memory(rt.alloc(), ty, &mut quota).expect(&rt, "a memory");
        grows(&rt, &mut memory, &mut quota, fuel, growths);
        same(&rt, "held", quota.held_bytes(), held);
    }
}

#[test]
fn growth_above_the_maximum_asks_no_limiter(rt: HostRuntime) {
    let mut recorder = Recorder::new(Ok(true), Ok(()));
    let mut memory = ample_memory(&rt, rt.alloc(), page_type(&rt, 1, Some(2)));
    grows(&rt, &mut memory, &mut recorder, 1024, &TO_THE_MAXIMUM);
    let question = memory_question(65536, 131072, Some(131072));
    same_record(&rt, "the first growth alone", &recorder, question, None);
}

#[test]
fn a_limiter_refuses_creations(rt: HostRuntime) {
    for answer in [Ok(false), Err(COMPLAINT)] {
        let mut recorder = Recorder::new(answer, Ok(()));
        let made = new_memory(rt.alloc(), page_type(&rt, 1, None), &mut recorder);
        same(&rt, "a creation", made.err(), Some(DENIED));
    }
}

/// A limiter's answers to the question and to the notice of a growth without enough fuel, how the
/// growth ends, and the notices.
static REFUSALS: [(
    Result<bool, LimiterError>,
    Result<(), LimiterError>,
    Paid,
    u32,
); 3] = [
    (Ok(false), Ok(()), (Err(OUT_OF_BOUNDS), 1000), 0),
    (Err(COMPLAINT), Ok(()), (Err(DENIED), 1000), 0),
    (Ok(true), Err(COMPLAINT), (Err(DENIED), 1000), 1),
];

#[test]
fn a_limiter_refuses_growths(rt: HostRuntime) {
    for &(answer, notice_answer, growth, notices) in &REFUSALS {
        let mut memory = ample_memory(&rt, rt.alloc(), page_type(&rt, 1, Some(2)));
        let mut recorder = Recorder::new(answer, notice_answer);
        grows(&rt, &mut memory, &mut recorder, 1000, &[growth]);
        same(&rt, "notices", recorder.notices, notices);
    }
}

#[test]
fn the_greatest_address_is_past_the_end(rt: HostRuntime) {
    let mut memory = ample_memory(&rt, rt.alloc(), page_type(&rt, 1, None));
    let answers = [
        memory.read(usize::MAX, &mut [0]),
        memory.write(usize::MAX, &[0]),
    ];
    let refused = Err(MemoryError::OutOfBoundsAccess);
    same(&rt, "a read, a write", answers, [refused; 2]);
}

/// A page in the region, and one more.
static IN_ONE_PAGE: [Paid; 2] = [
    (Ok(0), 1024),
    (Err(MemoryError::InvalidStaticBufferSize), 1024),
];

#[test]
fn a_region_of_one_page_holds_one(rt: HostRuntime) {
    let mut region = [7; 65536];
    let mut recorder = Recorder::new(Ok(true), Ok(()));
    let ty = page_type(&rt, 0, Some(2));
    let mut memory = lent_memory(ty, &mut NoLimits, &mut region).expect(&rt, "a memory");
    grows(&rt, &mut memory, &mut recorder, 2048, &IN_ONE_PAGE);
    same(&rt, "bytes", memory.data(), [0; 65536].as_slice());
    let question = memory_question(65536, 131072, Some(131072));
    let last = (recorder.questions, recorder.question, recorder.notices);
    same(&rt, "questions", last, (2, question, 1));
    let too_short = Failure::Memory(MemoryError::InvalidStaticBufferSize);
    same(&rt, "the notice", recorder.notice, Some(too_short));
}

#[test]
fn a_short_region_is_left_as_it_was(rt: HostRuntime) {
    let mut region = [7; 4];
    let ty = build_type(5, None, 0, false).expect(&rt, "a type");
    let made = lent_memory(ty, &mut NoLimits, &mut region).err();
    let expected = (Some(MemoryError::InvalidStaticBufferSize), [7; 4]);
    same(&rt, "the error, the bytes", (made, region), expected);
}

/// How many bytes a buffer grows by, how that ends, and the bytes then.
type Growth<'a> = (usize, Result<(), MemoryError>, &'a [u8]);

/// Compares the bytes of a new buffer, and then those after each growth.
fn buffer_grows(
    rt: &impl Abort,
    made: Result<ByteBuffer, MemoryError>,
    bytes: &[u8],
    growths: &[Growth],
) {
    let mut buffer = made.expect(rt, "a buffer");
    same(rt, "the bytes at first", buffer.data(), bytes);
    for &(more, outcome, bytes) in growths {
        let grown = buffer.grow(buffer.len().saturating_add(more));
        same(
            rt,
            "a growth, the bytes",
            (grown, buffer.data()),
            (outcome, bytes),
        );
    }
}

#[test]
fn test_basic_allocation_deallocation(rt: HostRuntime) {
    let buffer = ByteBuffer::new(rt.alloc(), 10).expect(&rt, "a buffer");
    same(&rt, "length", buffer.len(), 10);
}

#[test]
fn test_basic_data_manipulation(rt: HostRuntime) {
    let mut buffer = ByteBuffer::new(rt.alloc(), 10).expect(&rt, "a buffer");
    same(&rt, "zeros", buffer.data(), [0; 10].as_slice());
    buffer.data_mut()[4] = 4;
    let written = [0, 0, 0, 0, 4, 0, 0, 0, 0, 0];
    same(&rt, "a byte written", buffer.data(), written.as_slice());
}

#[test]
fn test_growing_buffer(rt: HostRuntime) {
    let made = ByteBuffer::new(rt.alloc(), 5);
    buffer_grows(&rt, made, &[0; 5], &[(5, Ok(()), &[0; 10])]);
}

/// No byte and one byte can't grow to all addresses.
static WITHOUT_MEMORY: [Growth; 3] = [
    (usize::MAX, Err(MemoryError::OutOfSystemMemory), &[]),
    (1, Ok(()), &[0]),
    (usize::MAX, Err(MemoryError::OutOfSystemMemory), &[0]),
];

#[test]
fn out_of_memory_works(rt: HostRuntime) {
    let made = ByteBuffer::new(rt.alloc(), 0);
    buffer_grows(&rt, made, &[], &WITHOUT_MEMORY);
}

#[test]
fn test_growing_static(rt: HostRuntime) {
    let mut region = [7; 10];
    let made = ByteBuffer::new_static(&mut region, 5);
    let growths: [Growth; 2] = [(3, Ok(()), &[0; 8]), (2, Ok(()), &[0; 10])];
    buffer_grows(&rt, made, &[0; 5], &growths);
}

#[test]
fn test_static_buffer_overflow(rt: HostRuntime) {
    let mut region = [7; 5];
    let made = ByteBuffer::new_static(&mut region, 5);
    let refused = Err(MemoryError::InvalidStaticBufferSize);
    buffer_grows(&rt, made, &[0; 5], &[(5, refused, &[0; 5])]);
}

#[test]
fn test_static_buffer_initialization(rt: HostRuntime) {
    let mut region = [7; 10];
    let mut buffer = ByteBuffer::new_static(&mut region, 5).expect(&rt, "a buffer");
    same(&rt, "length", buffer.len(), 5);
    buffer.data_mut()[0] = 1;
    drop(buffer);
    let found = [1, 0, 0, 0, 0, 7, 7, 7, 7, 7];
    same(&rt, "the lender's bytes", region, found);
}

/// A caller that writes through what a memory lends, and knows the memory afterwards.
fn put_first(memory: &mut Memory)
    ensures bytes { 0 < length memory.old.bytes
        → memory.new.bytes ≡ slice_set memory.old.bytes 0 7 }
    ensures same_type { memory.new.ty ≡ memory.old.ty }
    ensures room { memory.new.room ≡ memory.old.room }
{
    let data = memory.data_mut();
    if 0 < data.len() {
        data[0] = 7;
    }
}

#[test]
fn writes_through_a_loan(rt: HostRuntime) {
    let ty = build_type(3, None, 0, false).expect(&rt, "a type");
    let mut memory = ample_memory(&rt, rt.alloc(), ty);
    put_first(&mut memory);
    same(&rt, "the bytes", memory.data(), [7, 0, 0].as_slice());
    drop(memory);
}
