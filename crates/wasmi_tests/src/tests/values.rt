//! Raw and typed values, shift amounts, and what a caller knows of a global variable after a loan.

ghost use Rattle.std.specs.Prelude.{◌≡◌};
ghost use Rattle.wasmi_typed.specs.Global.{with_value};

use super::{same, same_text};
use wasmi_raw::{RawVal, ReadAs, V128, WriteAs};
use wasmi_typed::{
    Global, GlobalType, IntoShiftAmount, Mutability, NotAReference, ShiftAmount, TypedRawRef,
    TypedRawVal,
};
use wasmi_types::{FuncTypeError, ValType};

#[test]
fn equality_looks_at_both_words(rt: HostRuntime) {
    let mut raw = RawVal::from(V128::from(u128::MAX));
    raw.write_as(0u32);
    let answer = (raw.lo, raw.hi, raw == RawVal::from(0u32));
    let expected = (0, 18446744073709551615, false);
    same(&rt, "words and equality", answer, expected);
}

#[test]
fn numbers_are_read_of_the_low_word(rt: HostRuntime) {
    let raw = RawVal::from_bits64(256);
    let boolean: bool = raw.read_as();
    let byte: u8 = raw.read_as();
    same(&rt, "a bool and a byte of 256", (boolean, byte), (true, 0));
    let expected = RawVal {
        lo: 4294967295,
        hi: 0,
    };
    same(&rt, "-1", RawVal::from(-1i32), expected);
}

#[test]
fn other_values_are_no_references(rt: HostRuntime) {
    for ty in [
        ValType::I32,
        ValType::I64,
        ValType::F32,
        ValType::F64,
        ValType::V128,
    ] {
        let typed = TypedRawVal::new(ty, RawVal::from(1u32));
        let reference = TypedRawRef::try_from(typed);
        same(&rt, "no reference", reference, Err(NotAReference));
    }
    same_text(&rt, rt.alloc(), &NotAReference, "not a reference type");
    let error = FuncTypeError::OutOfMemory;
    same_text(&rt, rt.alloc(), &error, "out of memory");
}

/// The remainder of an amount, which is `None` where nothing is shifted.
fn remainder<T: IntoShiftAmount>(amount: T::ShiftSource) -> Option<u8> {
    T::into_shift_amount(amount).map(u8::from)
}

#[test]
fn shift_amounts_are_remainders(rt: HostRuntime) {
    let answers = [
        remainder::<i32>(32),
        remainder::<i32>(33),
        remainder::<i32>(-1),
        remainder::<i8>(-9),
        remainder::<i16>(i16::MIN),
        remainder::<i64>(-1),
        remainder::<i128>(-1),
        remainder::<u8>(255),
        remainder::<u16>(17),
        remainder::<u32>(u32::MAX),
        remainder::<u64>(128),
        remainder::<u128>(129),
        remainder::<[u8; 16]>(17),
        remainder::<[u16; 8]>(17),
        remainder::<[u32; 4]>(64),
        remainder::<[u64; 2]>(65),
    ];
    let expected = [
        None,
        Some(1),
        Some(31),
        Some(7),
        None,
        Some(63),
        Some(127),
        Some(7),
        Some(1),
        Some(31),
        None,
        Some(1),
        Some(1),
        Some(1),
        None,
        Some(1),
    ];
    same(&rt, "remainders", answers, expected);
    same(&rt, "amount", u8::from(ShiftAmount::from(200)), 200);
}

/// A caller of `get_raw_mut` knows what the variable holds after the loan.
fn replace(global: &mut Global, value: RawVal) -> RawVal
    requires { global.old.ty.mutability ≡ Mutability.Var }
    ensures after { global.new ≡ with_value global.old value }
    ensures before { result ≡ global.old.value }
{
    let raw = global.get_raw_mut();
    let before = *raw;
    *raw = value;
    before
}

#[test]
fn globals_are_written_in_place(rt: HostRuntime) {
    let variable = GlobalType::new(ValType::V128, Mutability::Var);
    let mut global = Global::new(RawVal::default(), variable);
    let before = replace(&mut global, RawVal { lo: 1, hi: 2 });
    same(&rt, "value before", before, RawVal::default());
    global.get_raw_mut().hi = 5;
    let written = RawVal { lo: 1, hi: 5 };
    same(&rt, "value written in place", *global.get_raw(), written);
}
