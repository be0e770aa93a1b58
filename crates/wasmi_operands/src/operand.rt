//! The words of a line, and what they write: numbers, types, references, a limiter's answers, the
//! names of instructions, also of those on one lane with its index, and the indices of lanes, by
//! one word, by as many as a command has, or as a list.
ghost use Rattle.std.specs.Char.{digit_value};
ghost use Rattle.std.specs.Int.{IsInRange};
ghost use Rattle.std.specs.Option.{SomeIff};
ghost use Rattle.std.specs.Prelude.{◌≡◌, ◌+◌, ◌*◌, ◌<◌, ◌^◌, ℕ, Err, IfErr, IfOk, List, Ok, OnOk, length, map};
ghost use Rattle.std.specs.Result.{OkIff};
ghost use Rattle.wasmi_operands.specs.Names.{WritesAnswer, IsName, IsNamed, mutability_word, reference_word, value_word, width_word};
ghost use Rattle.wasmi_operands.specs.LineWords.{Accepts, AcceptsWithMemory, IsDecimal, WritesNumber, WritesLimit, WritesEach, decimal_value, word_at, words_in};
ghost use Rattle.wasmi_ops.specs.LoadStoreOps.{load_name, store_name};
ghost use Rattle.wasmi_ops.specs.VectorOps.{vector_load_name, binary_name, make_name, shift_name, ternary_name, test_name, unary_name};
ghost use Rattle.wasmi_ops.specs.LaneOps.{extract_name, load_lane_name, replace_name, store_lane_name};

use crate::error::LineError;
use std::alloc::{AllocError, Global};
use wasmi_lanes::ImmLaneIdx32;
use wasmi_meter::LimiterAnswer;
use wasmi_ops::{
    BINARIES, BinaryOp, EXTRACTIONS, ExtractKind, LANE_LOADS, LANE_STORES, LOADS, LoadLaneKind,
    LoadOp, MAKES, MakeOp, REPLACEMENTS, ReplaceKind, SHIFTS, STORES, ShiftOp, StoreLaneKind,
    StoreOp, TERNARIES, TESTS, TernaryOp, TestOp, UNARIES, UnaryOp, VECTOR_LOADS, VectorLoadOp,
};
use wasmi_raw::RawRef;
use wasmi_typed::Mutability;
use wasmi_types::{IndexType, RefType, ValType};

/// Puts the words of a line, which spaces alone separate, in place of those of the line before.
pub fn read_words<'a>(line: &'a str, words: &mut Vec<&'a str>) -> Result<(), AllocError>
    ensures { OnOk result (map (λ word. word.now) words.new.items ≡ words_in line.now) }
{
    words.clear();
    for word in line.split(' ') {
        if !word.is_empty() {
            words.push(word)?;
        }
    }
    Ok(())
}

/// The number that a word writes in decimal digits (zeros may lead), if it fits its type.
pub fn number<T: TryFrom<u64>>(word: &str) -> Result<T, LineError>
where
    T::Error: Drop,
    ensures digits { IfOk result (λ _. IsDecimal word.now) }
    ensures value { IfOk result (λ number. T.try_from_gives (decimal_value word.now) (Ok number)) }
    ensures refused { IfErr result (λ error. error ≡ LineError.BadCommand) }
    ensures unfit { IfErr result (λ _. IsDecimal word.now → decimal_value word.now < 2 ^ 64
        → (error : T.Error) × T.try_from_gives (decimal_value word.now) (Err error)) }
{
    T::try_from(decimal(word)?).map_err(|_| LineError::BadCommand)
}

/// The number that a word writes in decimal digits, if it is below 2^64.
fn decimal(word: &str) -> Result<u64, LineError>
    ensures value { OkIff result (IsDecimal word.now × (decimal_value word.now < 2 ^ 64))
        (decimal_value word.now) }
    ensures refused { IfErr result (λ error. error ≡ LineError.BadCommand) }
{
    if word.is_empty() {
        return Err(LineError::BadCommand);
    }
    let mut number = 0;
    for digit in word.as_bytes() {
        number = appended(number, *digit).ok_or(LineError::BadCommand)?;
    }
    Ok(number)
}

/// The number with one more digit, if the byte is a digit and the result is below 2^64.
#[inline(always)]
fn appended(number: u64, byte: u8) -> Option<u64>
    ensures { SomeIff result (IsInRange 48 57 byte × (number * 10 + digit_value byte < 2 ^ 64))
        (number * 10 + digit_value byte) }
{
    let digit = byte.wrapping_sub(b'0');
    if digit > 9 {
        return None;
    }
    number.checked_mul(10)?.checked_add(digit as u64)
}

/// What one word of a command can write.
pub trait Operand: Copy {
    /// The word writes this value.
    ghost writes: { List ℕ → Self → Type 0 };

    /// What the word writes.
    fn from_word(word: &str) -> Result<Self, LineError>
        ensures { Accepts result (writes word.now) };
}

impl Operand for u64 {
    ghost writes = { WritesNumber 64 };

    fn from_word(word: &str) -> Result<Self, LineError> {
        number(word)
    }
}

// Where a `usize` has 32 bits, a greater number counts as the greatest, past the end of every list.
impl Operand for usize {
    ghost writes = { WritesNumber 64 };

    fn from_word(word: &str) -> Result<Self, LineError> {
        Ok(usize::try_from(number::<u64>(word)?).unwrap_or(usize::MAX))
    }
}

impl Operand for u32 {
    ghost writes = { WritesNumber 32 };

    fn from_word(word: &str) -> Result<Self, LineError> {
        number(word)
    }
}

impl Operand for u8 {
    ghost writes = { WritesNumber 8 };

    fn from_word(word: &str) -> Result<Self, LineError> {
        number(word)
    }
}

impl Operand for RawRef {
    ghost writes = { WritesNumber 32 };

    fn from_word(word: &str) -> Result<Self, LineError> {
        Ok(RawRef::from(number::<u32>(word)?))
    }
}

impl Operand for IndexType {
    ghost writes = { λ word index. word ≡ width_word index };

    fn from_word(word: &str) -> Result<Self, LineError> {
        match word {
            "32" => Ok(IndexType::I32),
            "64" => Ok(IndexType::I64),
            _ => Err(LineError::BadCommand),
        }
    }
}

impl Operand for Option<u64> {
    ghost writes = { WritesLimit };

    fn from_word(word: &str) -> Result<Self, LineError> {
        match word {
            "none" => Ok(None),
            _ => Ok(Some(number(word)?)),
        }
    }
}

impl Operand for ImmLaneIdx32 {
    ghost writes = { WritesNumber 5 };

    fn from_word(word: &str) -> Result<Self, LineError> {
        ImmLaneIdx32::try_from(number::<u8>(word)?).map_err(|_| LineError::BadCommand)
    }
}

impl Operand for RefType {
    ghost writes = { λ word ty. word ≡ reference_word ty };

    fn from_word(word: &str) -> Result<Self, LineError> {
        match word {
            "func" => Ok(RefType::Func),
            "extern" => Ok(RefType::Extern),
            _ => Err(LineError::BadCommand),
        }
    }
}

impl Operand for ValType {
    ghost writes = { λ word ty. word ≡ value_word ty };

    fn from_word(word: &str) -> Result<Self, LineError> {
        match word {
            "i32" => Ok(ValType::I32),
            "i64" => Ok(ValType::I64),
            "f32" => Ok(ValType::F32),
            "f64" => Ok(ValType::F64),
            "v128" => Ok(ValType::V128),
            "funcref" => Ok(ValType::FuncRef),
            "externref" => Ok(ValType::ExternRef),
            _ => Err(LineError::BadCommand),
        }
    }
}

impl Operand for Mutability {
    ghost writes = { λ word mutability. word ≡ mutability_word mutability };

    fn from_word(word: &str) -> Result<Self, LineError> {
        match word {
            "const" => Ok(Mutability::Const),
            "var" => Ok(Mutability::Var),
            _ => Err(LineError::BadCommand),
        }
    }
}

impl Operand for LimiterAnswer {
    ghost writes = { WritesAnswer };

    fn from_word(word: &str) -> Result<Self, LineError> {
        match word {
            "permit" => Ok(LimiterAnswer::Permit),
            "deny" => Ok(LimiterAnswer::Deny),
            "error" => Ok(LimiterAnswer::Error),
            "complain" => Ok(LimiterAnswer::Complain),
            _ => Err(LineError::BadCommand),
        }
    }
}

impl Operand for LoadOp {
    ghost writes = { IsName load_name };

    #[tactic(auto, using(crate::proofs::OpNamesLemmas::op_names))]
    fn from_word(word: &str) -> Result<Self, LineError> {
        op_named(&LOADS, word)
    }
}

impl Operand for StoreOp {
    ghost writes = { IsName store_name };

    #[tactic(auto, using(crate::proofs::OpNamesLemmas::op_names))]
    fn from_word(word: &str) -> Result<Self, LineError> {
        op_named(&STORES, word)
    }
}

impl Operand for MakeOp {
    ghost writes = { IsName make_name };

    #[tactic(auto, using(crate::proofs::OpNamesLemmas::op_names))]
    fn from_word(word: &str) -> Result<Self, LineError> {
        op_named(&MAKES, word)
    }
}

impl Operand for UnaryOp {
    ghost writes = { IsName unary_name };

    #[tactic(auto, using(crate::proofs::OpNamesLemmas::op_names))]
    fn from_word(word: &str) -> Result<Self, LineError> {
        op_named(&UNARIES, word)
    }
}

impl Operand for BinaryOp {
    ghost writes = { IsName binary_name };

    #[tactic(auto, using(crate::proofs::OpNamesLemmas::op_names))]
    fn from_word(word: &str) -> Result<Self, LineError> {
        op_named(&BINARIES, word)
    }
}

impl Operand for TernaryOp {
    ghost writes = { IsName ternary_name };

    #[tactic(auto, using(crate::proofs::OpNamesLemmas::op_names))]
    fn from_word(word: &str) -> Result<Self, LineError> {
        op_named(&TERNARIES, word)
    }
}

impl Operand for ShiftOp {
    ghost writes = { IsName shift_name };

    #[tactic(auto, using(crate::proofs::OpNamesLemmas::op_names))]
    fn from_word(word: &str) -> Result<Self, LineError> {
        op_named(&SHIFTS, word)
    }
}

impl Operand for TestOp {
    ghost writes = { IsName test_name };

    #[tactic(auto, using(crate::proofs::OpNamesLemmas::op_names))]
    fn from_word(word: &str) -> Result<Self, LineError> {
        op_named(&TESTS, word)
    }
}

impl Operand for ExtractKind {
    ghost writes = { IsName extract_name };

    #[tactic(auto, using(crate::proofs::OpNamesLemmas::op_names))]
    fn from_word(word: &str) -> Result<Self, LineError> {
        op_named(&EXTRACTIONS, word)
    }
}

impl Operand for ReplaceKind {
    ghost writes = { IsName replace_name };

    #[tactic(auto, using(crate::proofs::OpNamesLemmas::op_names))]
    fn from_word(word: &str) -> Result<Self, LineError> {
        op_named(&REPLACEMENTS, word)
    }
}

impl Operand for VectorLoadOp {
    ghost writes = { IsName vector_load_name };

    #[tactic(auto, using(crate::proofs::OpNamesLemmas::op_names))]
    fn from_word(word: &str) -> Result<Self, LineError> {
        op_named(&VECTOR_LOADS, word)
    }
}

impl Operand for LoadLaneKind {
    ghost writes = { IsName load_lane_name };

    #[tactic(auto, using(crate::proofs::OpNamesLemmas::op_names))]
    fn from_word(word: &str) -> Result<Self, LineError> {
        op_named(&LANE_LOADS, word)
    }
}

impl Operand for StoreLaneKind {
    ghost writes = { IsName store_lane_name };

    #[tactic(auto, using(crate::proofs::OpNamesLemmas::op_names))]
    fn from_word(word: &str) -> Result<Self, LineError> {
        op_named(&LANE_STORES, word)
    }
}

/// The op of a name in a list of names.
fn op_named<T: Copy>(names: &[(&str, T)], name: &str) -> Result<T, LineError>
    ensures { Accepts result (IsNamed (map (λ entry. (entry.0.now, entry.1)) names.now) name.now) }
{
    let entry = names.iter().find(|(known, _)| *known == name);
    entry.map(|(_, op)| *op).ok_or(LineError::BadCommand)
}

/// What one word writes, with none beside it.
pub fn one<A: Operand>(words: &[&str]) -> Result<A, LineError>
    ensures { Accepts result (λ a. (length words.now ≡ 1) × A.writes (word_at words.now 0) a) }
{
    let &[a] = words else {
        return Err(LineError::BadCommand);
    };
    A::from_word(a)
}

/// What two words write.
pub fn two<A: Operand, B: Operand>(words: &[&str]) -> Result<(A, B), LineError>
    ensures { Accepts result (λ all. (length words.now ≡ 2) × A.writes (word_at words.now 0) all.0
        × B.writes (word_at words.now 1) all.1) }
{
    let &[a, b] = words else {
        return Err(LineError::BadCommand);
    };
    match (A::from_word(a), B::from_word(b)) {
        (Ok(a), Ok(b)) => Ok((a, b)),
        _ => Err(LineError::BadCommand),
    }
}

/// What three words write.
pub fn three<A: Operand, B: Operand, C: Operand>(words: &[&str]) -> Result<(A, B, C), LineError>
    ensures { Accepts result (λ all. (length words.now ≡ 3) × A.writes (word_at words.now 0) all.0
        × B.writes (word_at words.now 1) all.1 × C.writes (word_at words.now 2) all.2) }
{
    let &[a, b, c] = words else {
        return Err(LineError::BadCommand);
    };
    match (A::from_word(a), B::from_word(b), C::from_word(c)) {
        (Ok(a), Ok(b), Ok(c)) => Ok((a, b, c)),
        _ => Err(LineError::BadCommand),
    }
}

/// What four words write.
pub fn four<A: Operand, B: Operand, C: Operand, D: Operand>(
    words: &[&str],
) -> Result<(A, B, C, D), LineError>
    ensures { Accepts result (λ all. (length words.now ≡ 4) × A.writes (word_at words.now 0) all.0
        × B.writes (word_at words.now 1) all.1 × C.writes (word_at words.now 2) all.2
        × D.writes (word_at words.now 3) all.3) }
{
    let &[a, b, c, d] = words else {
        return Err(LineError::BadCommand);
    };
    match (
        A::from_word(a),
        B::from_word(b),
        C::from_word(c),
        D::from_word(d),
    ) {
        (Ok(a), Ok(b), Ok(c), Ok(d)) => Ok((a, b, c, d)),
        _ => Err(LineError::BadCommand),
    }
}

/// What five words write.
pub fn five<A: Operand, B: Operand, C: Operand, D: Operand, E: Operand>(
    words: &[&str],
) -> Result<(A, B, C, D, E), LineError>
    ensures { Accepts result (λ all. (length words.now ≡ 5) × A.writes (word_at words.now 0) all.0
        × B.writes (word_at words.now 1) all.1 × C.writes (word_at words.now 2) all.2
        × D.writes (word_at words.now 3) all.3 × E.writes (word_at words.now 4) all.4) }
{
    let &[a, b, c, d, e] = words else {
        return Err(LineError::BadCommand);
    };
    match (
        A::from_word(a),
        B::from_word(b),
        C::from_word(c),
        D::from_word(d),
        E::from_word(e),
    ) {
        (Ok(a), Ok(b), Ok(c), Ok(d), Ok(e)) => Ok((a, b, c, d, e)),
        _ => Err(LineError::BadCommand),
    }
}

/// What the words write, one each.
pub fn list_of<T: Operand>(alloc: Global, words: &[&str]) -> Result<Vec<T>, LineError>
    ensures { AcceptsWithMemory result (λ list. WritesEach T.writes words.now list.items) }
{
    let mut list = Vec::with_capacity(alloc, words.len())?;
    for word in words {
        list.push_reserved(T::from_word(word)?);
    }
    Ok(list)
}
