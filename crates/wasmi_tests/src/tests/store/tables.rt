//! Tables: their types, and how they grow, are filled, copied and initialized; element segments,
//! and the iterators that they are read of.
use super::limiters::{COMPLAINT, Failure, Question, Recorder, same_record};
use super::{
    SUBTYPES, external, five_functions, func, metered, metered_at, same, same_elements, table_of,
};
use std::alloc::Global;
use std::process::Abort;
use wasmi_meter::{Fuel, Kind, LimiterError, ResourceLimiterRef, TableError};
use wasmi_raw::RawRef;
use wasmi_store::{ElementSegment, Table, TableType};
use wasmi_types::RefType;

/// A type of tables of functions. A maximum below the minimum is left out.
fn func_type(limits: (u32, Option<u32>)) -> TableType {
    match limits {
        (minimum, Some(maximum)) if minimum <= maximum => {
            TableType::new(RefType::Func, minimum, Some(maximum))
        }
        (minimum, _) => TableType::new(RefType::Func, minimum, None),
    }
}

#[test]
fn subtyping_works(rt: HostRuntime) {
    for &(what, own, other, expected) in &SUBTYPES {
        let is_subtype = func_type(own).is_subtype_of(&func_type(other));
        same(&rt, what, is_subtype, expected);
    }
    let functions = TableType::new(RefType::Func, 0, Some(1));
    let externals = TableType::new(RefType::Extern, 0, Some(1));
    let answer = functions.is_subtype_of(&externals);
    same(&rt, "another type", answer, false);
}

/// Grows a table by null references under a limiter.
fn grow_raw(
    table: &mut Table,
    delta: u64,
    fuel: Option<&mut Fuel>,
    limiter: &mut Recorder,
) -> Result<u64, TableError> {
    let mut limiter = ResourceLimiterRef::from(limiter);
    table.grow_raw(delta, RawRef::null(), fuel, &mut limiter)
}

const OUT_OF_BOUNDS: TableError = TableError::GrowOutOfBounds;

/// A growth of a table of one element: the maximum, by how many elements, the limiter's answer, how
/// the growth ends, and what the limiter is asked and told.
struct Growth {
    maximum: Option<u32>,
    delta: u64,
    answer: Result<bool, LimiterError>,
    error: TableError,
    question: Option<Question>,
    notice: Option<Failure>,
}

/// Grows a table, and compares how that ends. No fuel is taken.
fn grows(rt: &impl Abort, alloc: Global, growth: &Growth) {
    let ty = func_type((1, growth.maximum));
    let mut table = table_of(rt, alloc, ty, func(1));
    let mut meter = metered(7);
    let mut recorder = Recorder::new(growth.answer, Ok(()));
    let grown = grow_raw(&mut table, growth.delta, Some(&mut meter), &mut recorder);
    let ended = (grown, meter.get_fuel());
    same(rt, "a growth", ended, (Err(growth.error), Ok(7)));
    same_record(rt, "a growth", &recorder, growth.question, growth.notice);
}

static ABOVE_THE_MAXIMUM: Growth = Growth {
    maximum: Some(2),
    delta: 2,
    answer: Ok(true),
    error: OUT_OF_BOUNDS,
    question: Some(Question {
        kind: Kind::Elements,
        current: 1,
        desired: 3,
        maximum: Some(2),
    }),
    notice: Some(Failure::Table(OUT_OF_BOUNDS)),
};

#[test]
fn a_growth_above_the_maximum_is_asked_for(rt: HostRuntime) {
    grows(&rt, rt.alloc(), &ABOVE_THE_MAXIMUM);
}

/// To as many elements as there are indices, to one less, and what a limiter refuses.
static REFUSED: [Growth; 4] = [
    Growth {
        maximum: None,
        delta: 4294967295,
        answer: Ok(false),
        error: OUT_OF_BOUNDS,
        question: None,
        notice: None,
    },
    Growth {
        maximum: None,
        delta: 4294967294,
        answer: Ok(false),
        error: OUT_OF_BOUNDS,
        question: Some(Question {
            kind: Kind::Elements,
            current: 1,
            desired: 4294967295,
            maximum: None,
        }),
        notice: None,
    },
    Growth {
        maximum: None,
        delta: 1,
        answer: Ok(false),
        error: OUT_OF_BOUNDS,
        question: Some(Question {
            kind: Kind::Elements,
            current: 1,
            desired: 2,
            maximum: None,
        }),
        notice: None,
    },
    Growth {
        maximum: None,
        delta: 1,
        answer: Err(COMPLAINT),
        error: TableError::ResourceLimiterDeniedAllocation,
        question: Some(Question {
            kind: Kind::Elements,
            current: 1,
            desired: 2,
            maximum: None,
        }),
        notice: None,
    },
];

#[test]
fn a_limiter_refuses_growths(rt: HostRuntime) {
    for growth in &REFUSED {
        grows(&rt, rt.alloc(), growth);
    }
}

#[test]
fn tests_the_type_also_for_no_element(rt: HostRuntime) {
    let ty = TableType::new(RefType::Func, 1, Some(2));
    let mut table = table_of(&rt, rt.alloc(), ty, func(1));
    let mut recorder = Recorder::new(Ok(true), Ok(()));
    let mut limiter = ResourceLimiterRef::from(&mut recorder);
    let mismatch = Err(TableError::ElementTypeMismatch);
    let answers = [
        table.grow(0, external(0), None, &mut limiter),
        table.grow(0, func(0), None, &mut limiter),
        table.grow_raw(0, external(0).raw(), None, &mut limiter),
    ];
    let expected = [mismatch, Ok(1), Ok(1)];
    same(&rt, "another, the same, no type", answers, expected);
    same_record(&rt, "nobody is asked", &recorder, None, None);
}

/// Copies within a table of the functions 1 to 5: to, from, how many, and the elements then.
static COPIES: [((u64, u64, u64), [u32; 5]); 2] = [
    ((1, 0, 3), [1, 1, 2, 3, 5]),
    ((0, 2, 3), [3, 4, 5, 4, 5]),
];

#[test]
fn copies_within(rt: HostRuntime) {
    for &((to, from, len), elements) in &COPIES {
        let mut table = five_functions(&rt, rt.alloc());
        let copied = table.copy_within(to, from, len, None);
        same(&rt, "a copy", copied, Ok(()));
        same_elements(&rt, "a copy", &table, elements);
    }
}

#[test]
fn refuses_what_is_past_the_table(rt: HostRuntime) {
    let mut table = five_functions(&rt, rt.alloc());
    let mut meter = metered_at(1, 100);
    let answers = [
        table.copy_within(u64::MAX, 0, 1, Some(&mut meter)),
        table.copy_within(0, 0, u64::MAX, Some(&mut meter)),
        table.fill_raw(4, RawRef::from(9), 2, Some(&mut meter)),
        table.fill_raw(u64::MAX, RawRef::from(9), 1, Some(&mut meter)),
    ];
    let copy = Err(TableError::CopyOutOfBounds);
    let fill = Err(TableError::FillOutOfBounds);
    let expected = ([copy, copy, fill, fill], Ok(100));
    same(
        &rt,
        "copies, fills, fuel",
        (answers, meter.get_fuel()),
        expected,
    );
    same_elements(&rt, "unchanged", &table, [1, 2, 3, 4, 5]);
}

#[test]
fn charges_for_no_element(rt: HostRuntime) {
    let mut table = five_functions(&rt, rt.alloc());
    let mut meter = metered_at(0, 10);
    let segment = ElementSegment::new(rt.alloc(), RefType::Func, [RawRef::null()]);
    let segment = segment.expect(&rt, "a segment");
    let answers = [
        table.init(segment.as_ref(), 5, 1, 0, Some(&mut meter)),
        table.copy_within(5, 0, 0, Some(&mut meter)),
    ];
    let out_of_fuel = TableError::OutOfFuel {
        required_fuel: u64::MAX,
    };
    let answer = (answers, meter.get_fuel());
    let expected = ([Ok(()), Err(out_of_fuel)], Ok(10));
    same(&rt, "an initialization, a copy, fuel", answer, expected);
}

/// Gives two references, then `None` once, then references without end.
#[derive(Drop)]
struct Wavering {
    calls: u32,
}

impl Iterator for Wavering {
    type Item = RawRef;

    fn next(&mut self) -> Option<RawRef> {
        let call = self.calls;
        self.calls = call.saturating_add(1);
        if call == 2 {
            return None;
        }
        Some(RawRef::from(call))
    }
}

#[test]
fn ends_at_the_first_none(rt: HostRuntime) {
    let mut items = Wavering { calls: 0 };
    let read = ElementSegment::read(rt.alloc(), RefType::Func, &mut items);
    let segment = read.expect(&rt, "a segment");
    let expected = [RawRef::from(0), RawRef::from(1)];
    same(&rt, "the items", segment.items(), expected.as_slice());
    let rest = Wavering { calls: 1 };
    let again = ElementSegment::new(rt.alloc(), RefType::Extern, rest).expect(&rt, "a segment");
    let answer = (items.calls, again.size(), again.ty());
    let expected = (3, 1, RefType::Extern);
    same(&rt, "calls, the second's size and type", answer, expected);
}
