//! Function types: how one is read of two iterators, kept, compared and hashed; why one isn't.
ghost use Rattle.std.specs.Prelude.{◌≡◌, not, nat_le, if◌then◌else◌, ◌↔◌, IsTrue, ◌+◌, ◌<◌, ◌≤◌, ◌++◌, ◌∷◌, [], length, take, IfOk, IfErr, IsErr, OnOk, OnErr, Some};
ghost use Rattle.std.specs.Cmp.{partial_equiv_from_equiv, partial_order_from_agreeing_total};
ghost use Rattle.std.specs.Cmp.Lexicographic.{on_texts};
ghost use Rattle.std.specs.Ordering.{as_partial_cmp};
ghost use Rattle.std.proofs.Common.{refl, ap};
ghost use Rattle.wasmi_types.specs.FunctionType.{entries, entry_count, same_lists, order_key, function_type_cmp, lists_input, func_type_error_text, KeepsEntries};
ghost use Rattle.wasmi_types.specs.FunctionTypeProofs.{same_lists_decides, same_lists_equiv, same_lists_by_cmp, same_type_decides};
ghost use Rattle.wasmi_types.specs.Reading.{EachBecomes, IsReading, IsReadingOf, AfterAll, ReadsNextType, ReadsTypes, IsReadingRefusal};

use crate::ValType;
use std::alloc::{AllocError, Global};
use std::cmp::Ordering;
use std::error::Error;
use std::fmt;
use std::hash::{Hash, Hasher};
use std::marker::Model;
use std::rc::RcSlice;

/// Why a function type cannot be made. Upstream: `wasmi_core::FuncTypeError`.
#[derive(Clone, Copy, Debug, PartialEq, Eq)]
pub enum FuncTypeError {
    /// There are more than 1,000 parameters.
    TooManyFunctionParams,
    /// There are more than 1,000 results.
    TooManyFunctionResults,
    /// The system refused memory.
    OutOfMemory,
}

impl fmt::Display for FuncTypeError {
    ghost output = { λ error. Some (func_type_error_text error) };

    fn fmt<W: fmt::Write>(&self, f: &mut fmt::Formatter<W>) -> fmt::Result {
        f.write_str(match self {
            Self::TooManyFunctionParams => "encountered a function with too many parameters",
            Self::TooManyFunctionResults => "encountered a function with too many results",
            Self::OutOfMemory => "out of memory",
        })
    }
}

impl Error for FuncTypeError {}

/// The types of a function's parameters and of its results, at most 1,000 each.
///
/// Up to 21 of them together stand in the value; more are shared by all clones of it.
/// Core specification 2.3, function types. Upstream: `wasmi_core::FuncType`.
#[derive(Drop)]
pub struct FuncType {
    len_params: u16,
    len_results: u16,
    kept: Kept,
}

/// The parameters, then the results.
#[derive(Drop)]
enum Kept {
    /// After them stand entries that mean nothing.
    Inline([ValType; INLINE_SIZE]),
    Big(RcSlice<ValType>),
}

/// How many parameters there are at most, and how many results.
const MAX_LEN: u16 = 1_000;

/// How many entries stand inline at most.
const INLINE_SIZE: usize = 21;

impl Model for FuncType {
    ghost use Rattle.wasmi_types.specs.FunctionType.{FunctionType, function_type_of, IsKept};

    ghost Value = { FunctionType };

    ghost view = { λ ty. function_type_of ty.len_params ty.len_results ty.kept };

    ghost invariant = { λ ty. IsKept ty.len_params ty.len_results ty.kept };
}

impl FuncType {
    /// Makes the type of a function with these parameters and results, as `read` reads them.
    /// Upstream: `FuncType::new`, there of iterators that know their lengths.
    pub fn new<P, R>(alloc: Global, params: P, results: R) -> Result<Self, FuncTypeError>
    where
        P: IntoIterator<Item = ValType>,
        R: IntoIterator<Item = ValType>,
        requires params { EachBecomes P.into_iter_gives params P.IntoIter.can_next }
        requires results { EachBecomes P.into_iter_gives params
            (λ first. EachBecomes R.into_iter_gives results
            (λ second. AfterAll P.IntoIter.next_gives first (R.IntoIter.can_next second))) }
        ensures reading { IsReadingOf P.into_iter_gives P.IntoIter.next_gives R.into_iter_gives
            R.IntoIter.next_gives params results result }
    {
        let mut params = params.into_iter();
        let mut results = results.into_iter();
        Self::read(alloc, &mut params, &mut results)
    }

    /// Reads the parameters, then the results, each up to the first `None`, which ends them.
    ///
    /// Of each it reads at most 1,001 items: more than 1,000 parameters are refused before any
    /// result is read, then more than 1,000 results. Memory is taken, and can be refused, only
    /// where there are more than 21 items. Of an iterator nothing is read after its end or after
    /// its item number 1,001, and the results are read only once the parameters have ended. Own:
    /// `new` takes its iterators by value, so its contract can't say what is left of them.
    pub fn read<P, R>(alloc: Global, params: &mut P, results: &mut R) -> Result<Self, FuncTypeError>
    where
        P: Iterator<Item = ValType>,
        R: Iterator<Item = ValType>,
        requires params { P.can_next params.old }
        requires results { AfterAll P.next_gives params.old (R.can_next results.old) }
        ensures reading { IsReading
            P.next_gives R.next_gives params.old results.old result params.new results.new }
    {
        let mut entries = Entries::new(alloc);
        let len_params = entries.read(params, FuncTypeError::TooManyFunctionParams)?;
        let len_results = entries.read(results, FuncTypeError::TooManyFunctionResults)?;
        match entries.kept(alloc) {
            Ok(kept) => Ok(FuncType {
                len_params,
                len_results,
                kept,
            }),
            Err(_) => Err(FuncTypeError::OutOfMemory),
        }
    }

    /// The types of the parameters.
    pub fn params(&self) -> &[ValType]
        ensures { result.now ≡ self.now.params }
    {
        self.params_results().0
    }

    /// The types of the results.
    pub fn results(&self) -> &[ValType]
        ensures { result.now ≡ self.now.results }
    {
        self.params_results().1
    }

    /// How many parameters there are.
    pub fn len_params(&self) -> u16
        ensures { result ≡ length self.now.params }
    {
        self.len_params
    }

    /// How many results there are.
    pub fn len_results(&self) -> u16
        ensures { result ≡ length self.now.results }
    {
        self.len_results
    }

    /// The types of the parameters, and those of the results.
    #[tactic(auto, using(crate::proofs::FunctionTypeOrderLemmas::parts))]
    pub fn params_results(&self) -> (&[ValType], &[ValType])
        ensures params { result.0.now ≡ self.now.params }
        ensures results { result.1.now ≡ self.now.results }
    {
        self.entries().split_at(usize::from(self.len_params()))
    }

    /// What function types are ordered by, place by place.
    fn order_key(&self) -> (bool, u16, u16, &[ValType])
        ensures big { result.0 ≡ not (nat_le (entry_count self.now) 21) }
        ensures params { result.1 ≡ length self.now.params }
        ensures results { result.2
            ≡ (if nat_le (entry_count self.now) 21 then length self.now.results else 0) }
        ensures entries { result.3.now ≡ entries self.now }
    {
        let entries = self.entries();
        let is_big = entries.len() > INLINE_SIZE;
        let len_results = if is_big { 0 } else { self.len_results() };
        (is_big, self.len_params(), len_results, entries)
    }

    /// The types of the parameters, then those of the results.
    fn entries(&self) -> &[ValType]
        ensures { result.now ≡ entries self.now }
    {
        let types = match &self.kept {
            Kept::Inline(types) => &types[..],
            Kept::Big(types) => types.as_slice(),
        };
        &types[..usize::from(self.len_params) + usize::from(self.len_results)]
    }
}

impl Clone for FuncType {
    ghost is_clone = { λ ty copy. copy ≡ ty };

    /// The same function type. Memory can be refused only where it has more than 21 entries.
    fn clone(&self) -> Result<Self, AllocError>
        ensures is_clone { IfOk result (λ copy. copy ≡ self.now) }
        ensures refused { IsErr result → 21 < entry_count self.now }
    {
        let kept = match &self.kept {
            Kept::Inline(types) => Kept::Inline(*types),
            Kept::Big(types) => Kept::Big(types.clone()?),
        };
        Ok(FuncType { kept, ..*self })
    }
}

impl PartialEq for FuncType {
    ghost eq = { same_lists ⟦<ValType as PartialEq>⟧.eq };

    ghost laws = { partial_equiv_from_equiv (same_lists_equiv same_type_decides) };

    fn eq(&self, other: &Self) -> bool
        ensures eq { result ≡ same_lists ⟦<ValType as PartialEq>⟧.eq self.now other.now }
        ensures same { IsTrue result ↔ (self.now ≡ other.now) }
    {
        self.params_results() == other.params_results()
    }
}

impl Eq for FuncType {
    ghost laws = { same_lists_equiv same_type_decides };
}

impl Ord for FuncType {
    ghost cmp = { function_type_cmp };

    ghost total = { on_texts order_key };

    ghost matches_partial_cmp = { λ a b. refl };

    ghost matches_eq = { same_lists_by_cmp same_type_decides };

    fn cmp(&self, other: &Self) -> Ordering
        ensures cmp { result ≡ function_type_cmp self.now other.now }
        ensures equal { (result ≡ Ordering.Equal) ↔ (self.now ≡ other.now) }
    {
        self.order_key().cmp(&other.order_key())
    }
}

impl PartialOrd for FuncType {
    ghost partial_cmp = { as_partial_cmp function_type_cmp };

    ghost laws = { partial_order_from_agreeing_total function_type_cmp (on_texts order_key)
        (λ a b. refl) (same_lists_by_cmp same_type_decides) };

    fn partial_cmp(&self, other: &Self) -> Option<Ordering> {
        Some(self.cmp(other))
    }
}

impl Hash for FuncType {
    ghost hash_input = { lists_input ⟦<ValType as Hash>⟧.hash_input };

    ghost respects_eq = { λ a b e. ap (lists_input ⟦<ValType as Hash>⟧.hash_input)
        ((same_lists_decides same_type_decides a b).0 e) };

    fn hash<H: Hasher>(&self, state: &mut H) {
        self.params().hash(state);
        self.results().hash(state);
    }
}

impl fmt::Debug for FuncType {
    fn fmt<W: fmt::Write>(&self, f: &mut fmt::Formatter<W>) -> fmt::Result {
        f.debug_struct("FuncType")
            .field("params", &self.params())
            .field("results", &self.results())
            .finish()
    }
}

/// The entries of a function type while they are read.
#[derive(Drop)]
struct Entries {
    /// The first 21 entries, then types that mean nothing.
    inline: [ValType; INLINE_SIZE],
    /// How many entries stand inline.
    len: usize,
    /// The entries after the first 21.
    rest: Vec<ValType>,
}

impl Model for Entries {
    ghost use Rattle.std.specs.Prelude.{◌≡◌, ◌<◌, ◌≤◌, ◌++◌, [], List, length, take};
    ghost use Rattle.wasmi_types.specs.declared.value.ValType.{ValType};

    ghost Value = { List ValType };

    ghost view = { λ entries. take entries.len entries.inline ++ entries.rest.items };

    ghost invariant = { λ entries. (length entries.inline ≡ 21) × (entries.len ≤ 21)
        × (entries.len < 21 → entries.rest.items ≡ []) };
}

impl Entries {
    fn new(alloc: Global) -> Self
        ensures { result ≡ [] }
    {
        Entries {
            inline: [ValType::I32; INLINE_SIZE],
            len: 0,
            rest: Vec::new(alloc),
        }
    }

    /// Appends a type. Memory is taken only after the first 21.
    fn push(&mut self, ty: ValType) -> Result<(), AllocError>
        ensures ok { OnOk result (self.new ≡ self.old ++ ty ∷ []) }
        ensures refused { OnErr result (21 ≤ length self.old) }
    {
        if self.len < INLINE_SIZE {
            self.inline[self.len] = ty;
            self.len += 1;
        } else {
            self.rest.push(ty)?;
        }
        Ok(())
    }

    /// The entries as a function type has them. Memory is taken only for more than 21.
    fn kept(&self, alloc: Global) -> Result<Kept, AllocError>
        ensures kept { IfOk result (λ kept. KeepsEntries self.now kept) }
        ensures refused { IsErr result → 21 < length self.now }
    {
        if self.rest.is_empty() {
            return Ok(Kept::Inline(self.inline));
        }
        let mut items = Vec::from_slice(alloc, &self.inline)?;
        items.extend_from_slice(self.rest.as_slice())?;
        Ok(Kept::Big(RcSlice::from_vec(items)?))
    }

    /// Appends the next type, and answers whether there was one.
    fn push_next<I>(&mut self, types: &mut I) -> Result<bool, AllocError>
    where
        I: Iterator<Item = ValType>,
        requires readable { I.can_next types.old }
        ensures read { ReadsNextType I.next_gives I.can_next types.old self.old result types.new
            self.new }
    {
        let Some(ty) = types.next() else {
            return Ok(false);
        };
        self.push(ty)?;
        Ok(true)
    }

    /// Appends what an iterator gives until its first `None`, and answers how many came.
    fn read<I>(&mut self, types: &mut I, too_many: FuncTypeError) -> Result<u16, FuncTypeError>
    where
        I: Iterator<Item = ValType>,
        requires readable { I.can_next types.old }
        ensures ok { IfOk result
            (λ count. ReadsTypes I.next_gives types.old self.old count types.new self.new) }
        ensures err { IfErr result
            (λ error. IsReadingRefusal I.next_gives too_many types.old self.old error types.new) }
    {
        for count in 0..MAX_LEN {
            match self.push_next(types) {
                Ok(true) => {}
                Ok(false) => return Ok(count),
                Err(_) => return Err(FuncTypeError::OutOfMemory),
            }
        }
        match types.next() {
            Some(_) => Err(too_many),
            None => Ok(MAX_LEN),
        }
    }
}
