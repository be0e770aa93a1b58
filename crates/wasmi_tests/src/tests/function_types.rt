//! Function types: how they are made, copied, compared and hashed, and what is refused.

use super::same;
use FuncTypeError::{TooManyFunctionParams, TooManyFunctionResults};
use ValType::{ExternRef, F32, F64, I32, I64, V128};
use std::alloc::Global;
use std::cmp::Ordering;
use std::hash::{DefaultHasher, Hash, Hasher};
use std::process::Abort;
use wasmi_types::{FuncType, FuncTypeError, ValType};

/// The types of the parameters, and those of the results.
type Lists<'a> = (&'a [ValType], &'a [ValType]);

/// The function type of two lists, after a look at each way to read it.
fn function_type(rt: &impl Abort, alloc: Global, lists: Lists) -> FuncType {
    let (params, results) = lists;
    let made = FuncType::new(alloc, params.iter().copied(), results.iter().copied());
    let ty = made.expect(rt, "a function type");
    same(rt, "both lists", ty.params_results(), lists);
    same(rt, "each list", (ty.params(), ty.results()), lists);
    let counts = (usize::from(ty.len_params()), usize::from(ty.len_results()));
    same(rt, "counts", counts, (params.len(), results.len()));
    ty
}

fn hash_of(ty: &FuncType) -> u64 {
    let mut hasher = DefaultHasher::new();
    ty.hash(&mut hasher);
    hasher.finish()
}

/// Compares a copy of a function type with another one of the same lists.
fn check_copy(rt: &impl Abort, alloc: Global, lists: Lists) {
    let ty = function_type(rt, alloc, lists);
    let copy = ty.clone().expect(rt, "memory");
    same(rt, "hash of a copy", hash_of(&copy), hash_of(&ty));
    same(rt, "copy", copy, function_type(rt, alloc, lists));
}

/// Compares two function types, of which the first is below the second.
fn check_order(rt: &impl Abort, alloc: Global, pair: (Lists, Lists)) {
    let lower = function_type(rt, alloc, pair.0);
    let higher = function_type(rt, alloc, pair.1);
    let orders = (lower.cmp(&higher), higher.cmp(&lower));
    let answer = (pair, orders, lower < higher, lower != higher);
    let orders = (Ordering::Less, Ordering::Greater);
    same(rt, "order", answer, (pair, orders, true, true));
}

#[test]
fn new_empty_works(rt: HostRuntime) {
    check_copy(&rt, rt.alloc(), (&[], &[]));
}

static INLINE: [&[ValType]; 9] = [
    &[I32],
    &[I64],
    &[F32],
    &[F64],
    &[I32, I32],
    &[I32, I32, I32],
    &[I32, I32, I32, I32],
    &[I32, I32, I32, I32, I32, I32, I32, I32],
    &[I32, I64, F32, F64],
];

#[test]
fn new_inline_works(rt: HostRuntime) {
    for list in &INLINE {
        check_order(&rt, rt.alloc(), ((&[], list), (list, &[])));
        check_copy(&rt, rt.alloc(), (list, list));
    }
}

#[test]
fn new_big_works(rt: HostRuntime) {
    let big: Lists = (&[I32; 100], &[I64; 100]);
    check_copy(&rt, rt.alloc(), big);
    let shorter: Lists = (&[I32; 100], &[I64; 99]);
    check_order(&rt, rt.alloc(), (shorter, big));
}

/// Pairs of function types, the lower one first.
static ASCENDING: [(Lists, Lists); 8] = [
    // at most 21 entries come first
    ((&[V128; 21], &[]), (&[I32; 22], &[])),
    ((&[I32; 11], &[I32; 10]), (&[I32; 10], &[I32; 12])),
    // then fewer parameters
    ((&[], &[I64, I64]), (&[I32], &[])),
    ((&[ExternRef; 22], &[]), (&[I32; 23], &[])),
    // then, among small ones, fewer results
    ((&[I32], &[ExternRef]), (&[I32], &[I32, I32])),
    // then the entries
    ((&[I32, F32], &[V128]), (&[I32, F64], &[I32])),
    ((&[I32; 22], &[I32, I32]), (&[I32; 22], &[ExternRef])),
    // a list comes before its extensions
    ((&[I32; 22], &[I64]), (&[I32; 22], &[I64, I32])),
];

#[test]
fn function_types_are_ordered(rt: HostRuntime) {
    for pair in &ASCENDING {
        check_order(&rt, rt.alloc(), *pair);
    }
}

/// Gives `I32` until the read that gives `None`, then `I64` for ever, and counts the reads.
#[derive(Drop)]
struct Source<'a> {
    reads: &'a mut usize,
    end: usize,
}

impl Iterator for Source<'_> {
    type Item = ValType;

    fn next(&mut self) -> Option<ValType> {
        let read = *self.reads;
        *self.reads = read.wrapping_add(1);
        if read == self.end {
            return None;
        }
        Some(if read < self.end { I32 } else { I64 })
    }

    // More than there is memory for: nobody may trust it.
    fn size_hint(&self) -> (usize, Option<usize>) {
        (usize::MAX, None)
    }
}

/// The function type of two sources that end at these reads, and how often each was read.
fn read(alloc: Global, ends: (usize, usize)) -> (Result<FuncType, FuncTypeError>, (usize, usize)) {
    let mut reads = (0, 0);
    let params = Source {
        reads: &mut reads.0,
        end: ends.0,
    };
    let results = Source {
        reads: &mut reads.1,
        end: ends.1,
    };
    let made = FuncType::new(alloc, params, results);
    (made, reads)
}

const ENDLESS: usize = usize::MAX;

/// The reads that give `None`, how often each source is read, and the types that are taken.
static READS: [((usize, usize), (usize, usize), Result<Lists, FuncTypeError>); 10] = [
    ((0, 0), (1, 1), Ok((&[], &[]))),
    ((0, 1), (1, 2), Ok((&[], &[I32]))),
    ((2, 0), (3, 1), Ok((&[I32, I32], &[]))),
    ((2, 3), (3, 4), Ok((&[I32, I32], &[I32, I32, I32]))),
    ((12, 11), (13, 12), Ok((&[I32; 12], &[I32; 11]))),
    (
        (1_000, 1_000),
        (1_001, 1_001),
        Ok((&[I32; 1_000], &[I32; 1_000])),
    ),
    ((ENDLESS, 0), (1_001, 0), Err(TooManyFunctionParams)),
    ((1_001, 1_001), (1_001, 0), Err(TooManyFunctionParams)),
    (
        (1_000, ENDLESS),
        (1_001, 1_001),
        Err(TooManyFunctionResults),
    ),
    ((0, 1_001), (1, 1_001), Err(TooManyFunctionResults)),
];

#[test]
fn reads_until_the_first_none(rt: HostRuntime) {
    for &(ends, expected, taken) in &READS {
        let (made, reads) = read(rt.alloc(), ends);
        let lists = match &made {
            Ok(ty) => Ok(ty.params_results()),
            Err(error) => Err(*error),
        };
        same(&rt, "reads, types", (reads, lists), (expected, taken));
    }
}
