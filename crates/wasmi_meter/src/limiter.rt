//! Resource limiters: each is asked before a growth of a memory or a table, and notified if a
//! growth that it permitted fails. Limiters by the kind of what grows, without limits, and absent
//! ones; and references to limiters that are lent.
ghost use Rattle.std.specs.Prelude.{◌≡◌, ◌≤◌, ℕ, Option, IsSome, Some, None, Result, Ok, option_map, true};
ghost use Rattle.std.specs.Option.{option_copied_mut};
ghost use Rattle.std.specs.Borrow.{sem, Lends};
ghost use denote.Ref.{at_last};
ghost use Rattle.wasmi_meter.specs.Limiter.{Failure, MemoryFailure, TableFailure, Rules, kind_of, optional_rules, lent_rules, unlimited_rules, loan, lent_limiter, KeepsLoan, LendsLimiter};
ghost use Rattle.wasmi_meter.specs.declared.limiter.Kind.TheVariants.{Bytes, Elements};

use crate::error::{LimiterError, MemoryError, TableError};
use std::fmt;

/// What grows: a memory, in bytes, or a table, in elements. Own: upstream has two methods for each.
#[derive(Clone, Copy, Debug, PartialEq, Eq)]
pub enum Kind {
    /// The bytes of linear memories.
    Bytes,
    /// The elements of tables.
    Elements,
}

/// Decides which memories and tables may be made and may grow.
///
/// Its `rules` say which answers it may give to a question or a notice, and which state it has
/// afterwards; each implementation has its own. A creation asks with a current size of 0.
///
/// # What the answers mean
///
/// To a question `Ok(true)` permits, and nothing else does. After `Ok(false)` a creation returns
/// `ResourceLimiterDeniedAllocation`, and a growth returns `OutOfBoundsGrowth` for a memory and
/// `GrowOutOfBounds` for a table. After `Err` both return `ResourceLimiterDeniedAllocation`. In
/// these cases nothing has changed and no notice follows.
///
/// A notice follows a permission if the creation or growth then fails. After `Ok(())` the call
/// returns the error that the notice named. After `Err` it returns
/// `ResourceLimiterDeniedAllocation` instead.
///
/// Upstream: `wasmi_core::ResourceLimiter`, whose notices have default bodies; here each
/// implementation writes them.
pub trait ResourceLimiter {
    /// The answers that it may give to a question and to a notice, and its state afterwards.
    ghost rules: { Rules Self };

    /// May a memory grow from `current` to `desired` bytes? `maximum`, in bytes, is the most that
    /// its type allows. `Ok(true)` permits; `Ok(false)` and `Err` deny.
    fn memory_growing(
        &mut self,
        current: usize,
        desired: usize,
        maximum: Option<usize>,
    ) -> Result<bool, LimiterError>
        requires grows { current ≤ desired }
        ensures asked { rules.asked self.old
            (record { kind = Bytes; current = current; desired = desired; maximum = maximum })
            result self.new };

    /// May a table grow from `current` to `desired` elements? `maximum` is the most that its type
    /// allows. `Ok(true)` permits; `Ok(false)` and `Err` deny.
    fn table_growing(
        &mut self,
        current: usize,
        desired: usize,
        maximum: Option<usize>,
    ) -> Result<bool, LimiterError>
        requires grows { current ≤ desired }
        ensures asked { rules.asked self.old
            (record { kind = Elements; current = current; desired = desired; maximum = maximum })
            result self.new };

    /// A permitted growth of a memory failed by this error, which the call returns after `Ok(())`.
    fn memory_grow_failed(&mut self, error: &MemoryError) -> Result<(), LimiterError>
        ensures { rules.noticed self.old (MemoryFailure error.now) result self.new };

    /// A permitted growth of a table failed by this error, which the call returns after `Ok(())`.
    fn table_grow_failed(&mut self, error: &TableError) -> Result<(), LimiterError>
        ensures { rules.noticed self.old (TableFailure error.now) result self.new };

    /// The greatest number of instances of a store. No call of this library asks for it.
    fn instances(&self) -> usize;

    /// The greatest number of tables of a store. No call of this library asks for it.
    fn tables(&self) -> usize;

    /// The greatest number of linear memories of a store. No call of this library asks for it.
    fn memories(&self) -> usize;
}

/// A limiter that may be absent: without one everything is permitted, each notice is accepted, and
/// any number of instances, tables and memories is allowed.
impl<L: ResourceLimiter> ResourceLimiter for Option<L> {
    ghost rules = { optional_rules L.rules };

    fn memory_growing(
        &mut self,
        current: usize,
        desired: usize,
        maximum: Option<usize>,
    ) -> Result<bool, LimiterError> {
        match self {
            Some(limiter) => limiter.memory_growing(current, desired, maximum),
            None => Ok(true),
        }
    }

    fn table_growing(
        &mut self,
        current: usize,
        desired: usize,
        maximum: Option<usize>,
    ) -> Result<bool, LimiterError> {
        match self {
            Some(limiter) => limiter.table_growing(current, desired, maximum),
            None => Ok(true),
        }
    }

    fn memory_grow_failed(&mut self, error: &MemoryError) -> Result<(), LimiterError> {
        match self {
            Some(limiter) => limiter.memory_grow_failed(error),
            None => Ok(()),
        }
    }

    fn table_grow_failed(&mut self, error: &TableError) -> Result<(), LimiterError> {
        match self {
            Some(limiter) => limiter.table_grow_failed(error),
            None => Ok(()),
        }
    }

    fn instances(&self) -> usize
        ensures absent { self.now ≡ None → result ≡ usize.MAX }
    {
        self.as_ref()
            .map_or(usize::MAX, |limiter| limiter.instances())
    }

    fn tables(&self) -> usize
        ensures absent { self.now ≡ None → result ≡ usize.MAX }
    {
        self.as_ref().map_or(usize::MAX, |limiter| limiter.tables())
    }

    fn memories(&self) -> usize
        ensures absent { self.now ≡ None → result ≡ usize.MAX }
    {
        self.as_ref()
            .map_or(usize::MAX, |limiter| limiter.memories())
    }
}

/// Decides by the kind of what grows, and ignores the maximum of its type and the error of a
/// notice. Each is a [`ResourceLimiter`] that allows any number of instances, tables and memories.
pub trait LimiterByKind {
    /// The answers that it may give to a question and to a notice, and its state afterwards.
    ghost kind_rules: { Rules Self };

    /// May something of this kind grow from `current` to `desired`, in bytes or elements? The
    /// answers mean what they mean for a [`ResourceLimiter`]: only `Ok(true)` permits.
    fn growing(&mut self, kind: Kind, current: usize, desired: usize) -> Result<bool, LimiterError>
        requires grows { current ≤ desired }
        ensures asked { (maximum : Option ℕ) → kind_rules.asked self.old
            (record { kind = kind; current = current; desired = desired; maximum = maximum })
            result self.new };

    /// A permitted growth of this kind failed. After `Ok(())` the call returns its error.
    fn grow_failed(&mut self, kind: Kind) -> Result<(), LimiterError>
        ensures { (failure : Failure) → kind_of failure ≡ kind
            → kind_rules.noticed self.old failure result self.new };
}

impl<L: LimiterByKind> ResourceLimiter for L {
    ghost rules = { L.kind_rules };

    fn memory_growing(
        &mut self,
        current: usize,
        desired: usize,
        _maximum: Option<usize>,
    ) -> Result<bool, LimiterError> {
        self.growing(Kind::Bytes, current, desired)
    }

    fn table_growing(
        &mut self,
        current: usize,
        desired: usize,
        _maximum: Option<usize>,
    ) -> Result<bool, LimiterError> {
        self.growing(Kind::Elements, current, desired)
    }

    fn memory_grow_failed(&mut self, _error: &MemoryError) -> Result<(), LimiterError> {
        self.grow_failed(Kind::Bytes)
    }

    fn table_grow_failed(&mut self, _error: &TableError) -> Result<(), LimiterError> {
        self.grow_failed(Kind::Elements)
    }

    fn instances(&self) -> usize
        ensures { result ≡ usize.MAX }
    {
        usize::MAX
    }

    fn tables(&self) -> usize
        ensures { result ≡ usize.MAX }
    {
        usize::MAX
    }

    fn memories(&self) -> usize
        ensures { result ≡ usize.MAX }
    {
        usize::MAX
    }
}

/// A limiter that permits everything and accepts each notice.
#[derive(Clone, Copy, Debug)]
pub struct NoLimits;

impl LimiterByKind for NoLimits {
    ghost kind_rules = { unlimited_rules };

    fn growing(&mut self, _: Kind, _: usize, _: usize) -> Result<bool, LimiterError> {
        Ok(true)
    }

    fn grow_failed(&mut self, _: Kind) -> Result<(), LimiterError> {
        Ok(())
    }
}

mod sealed {
    pub trait Sealed {}

    impl<'a, L> Sealed for &'a mut L {}
}

/// What lends a value: a `&mut` reference, and nothing else. Own: it gives contracts a name for the
/// reference after the loan.
pub trait Lender: sealed::Sealed {
    /// The type of what is lent.
    type Lent;

    /// The present value of what is lent.
    ghost shown: { Self → Self.Lent };

    /// The lender after a loan that left this value.
    ghost last: { Self → Self.Lent → Self };

    /// Lends it.
    fn lend(&mut self) -> &mut Self::Lent
        ensures* writes_back { sem 𝓛
            (Lends Self.row Self.Lent.row self.entry result (last self.old)) }
        ensures value { result.now ≡ shown self.old };
}

impl<'a, L> Lender for &'a mut L {
    type Lent = L;

    ghost shown = { λ l. l.now };

    ghost last = { at_last };

    fn lend(&mut self) -> &mut Self::Lent {
        &mut **self
    }
}

/// A reference to a limiter, or none. Its name in signatures is [`ResourceLimiterRef`].
#[derive(Drop)]
pub struct LimiterRef<R> {
    limiter: Option<R>,
}

impl<R> fmt::Debug for LimiterRef<R> {
    fn fmt<W: fmt::Write>(&self, f: &mut fmt::Formatter<W>) -> fmt::Result {
        f.write_str("ResourceLimiterRef(...)")
    }
}

/// A borrowed limiter, or none. Without a limiter every growth is permitted (`Ok(true)`), and every
/// notice is accepted (`Ok(())`).
///
/// If this reference goes out of scope or is dropped, nothing is known of the limiter afterwards.
/// To know its state, end the loan by [`LimiterRef::into_resource_limiter`], or use a function that
/// borrows the limiter for one call: `new_lending` and `grow_lending` of memories and tables,
/// `step_lending` and `run_lending` of machines. Upstream: `wasmi_core::ResourceLimiterRef`.
pub type ResourceLimiterRef<'a, L> = LimiterRef<&'a mut L>;

impl<'a, L> Default for LimiterRef<&'a mut L> {
    ghost is_default = { λ r. loan r ≡ None };

    fn default() -> Self {
        LimiterRef { limiter: None }
    }
}

impl<'a, L> From<&'a mut L> for LimiterRef<&'a mut L> {
    ghost from_gives = { λ l r. loan r ≡ Some l };

    fn from(limiter: &'a mut L) -> Self {
        LimiterRef {
            limiter: Some(limiter),
        }
    }
}

impl<R> LimiterRef<R> {
    /// Ends the loan, and returns the reference to the limiter, if there is one. From then on the
    /// state of the limiter is known.
    pub fn into_resource_limiter(self) -> Option<R>
        ensures { result ≡ loan self }
    {
        self.limiter
    }

    /// Ends the loan of a limiter that is there, as `into_resource_limiter` does. Own: functions
    /// that borrow a limiter for one call end its loan by it.
    pub fn into_limiter(self) -> R
        requires lent { IsSome (loan self) }
        ensures value { loan self ≡ Some result }
    {
        self.into_resource_limiter().unwrap()
    }

    /// The limiter, if there is one.
    pub fn as_resource_limiter(&mut self) -> Option<&mut R::Lent>
    where
        R: Lender,
        ensures* writes_back { sem 𝓛
            (LendsLimiter R.row R.Lent.row R.Lender.last self.entry result) }
        ensures value { option_copied_mut result ≡ option_map R.Lender.shown (loan self.old) }
    {
        match &mut self.limiter {
            Some(limiter) => Some(limiter.lend()),
            None => None,
        }
    }
}

impl<'a, L: ResourceLimiter> LimiterRef<&'a mut L> {
    /// Asks the limiter whether a memory may grow from `current` to `desired` bytes.
    pub fn memory_growing(
        &mut self,
        current: usize,
        desired: usize,
        maximum: Option<usize>,
    ) -> Result<bool, LimiterError>
        requires grows { current ≤ desired }
        ensures loan { KeepsLoan self.old self.new }
        ensures asked { (optional_rules L.rules).asked (lent_limiter self.old)
            (record { kind = Bytes; current = current; desired = desired; maximum = maximum })
            result (lent_limiter self.new) }
    {
        match &mut self.limiter {
            Some(limiter) => limiter.memory_growing(current, desired, maximum),
            None => Ok(true),
        }
    }

    /// Asks the limiter whether a table may grow from `current` to `desired` elements.
    pub fn table_growing(
        &mut self,
        current: usize,
        desired: usize,
        maximum: Option<usize>,
    ) -> Result<bool, LimiterError>
        requires grows { current ≤ desired }
        ensures loan { KeepsLoan self.old self.new }
        ensures asked { (optional_rules L.rules).asked (lent_limiter self.old)
            (record { kind = Elements; current = current; desired = desired; maximum = maximum })
            result (lent_limiter self.new) }
    {
        match &mut self.limiter {
            Some(limiter) => limiter.table_growing(current, desired, maximum),
            None => Ok(true),
        }
    }

    /// Notifies the limiter that a memory which it permitted to grow did not.
    pub fn memory_grow_failed(&mut self, error: &MemoryError) -> Result<(), LimiterError>
        ensures loan { KeepsLoan self.old self.new }
        ensures noticed { (optional_rules L.rules).noticed (lent_limiter self.old)
            (MemoryFailure error.now) result (lent_limiter self.new) }
    {
        match &mut self.limiter {
            Some(limiter) => limiter.memory_grow_failed(error),
            None => Ok(()),
        }
    }

    /// Notifies the limiter that a table which it permitted to grow did not.
    pub fn table_grow_failed(&mut self, error: &TableError) -> Result<(), LimiterError>
        ensures loan { KeepsLoan self.old self.new }
        ensures noticed { (optional_rules L.rules).noticed (lent_limiter self.old)
            (TableFailure error.now) result (lent_limiter self.new) }
    {
        match &mut self.limiter {
            Some(limiter) => limiter.table_grow_failed(error),
            None => Ok(()),
        }
    }
}

/// A reference to a limiter, or none, is a limiter: its methods call those of the same names above.
impl<'a, L: ResourceLimiter> ResourceLimiter for LimiterRef<&'a mut L> {
    ghost rules = { lent_rules L.rules };

    fn memory_growing(
        &mut self,
        current: usize,
        desired: usize,
        maximum: Option<usize>,
    ) -> Result<bool, LimiterError> {
        self.memory_growing(current, desired, maximum)
    }

    fn table_growing(
        &mut self,
        current: usize,
        desired: usize,
        maximum: Option<usize>,
    ) -> Result<bool, LimiterError> {
        self.table_growing(current, desired, maximum)
    }

    fn memory_grow_failed(&mut self, error: &MemoryError) -> Result<(), LimiterError> {
        self.memory_grow_failed(error)
    }

    fn table_grow_failed(&mut self, error: &TableError) -> Result<(), LimiterError> {
        self.table_grow_failed(error)
    }

    fn instances(&self) -> usize
        ensures absent { loan self.now ≡ None → result ≡ usize.MAX }
    {
        match &self.limiter {
            Some(limiter) => limiter.instances(),
            None => usize::MAX,
        }
    }

    fn tables(&self) -> usize
        ensures absent { loan self.now ≡ None → result ≡ usize.MAX }
    {
        match &self.limiter {
            Some(limiter) => limiter.tables(),
            None => usize::MAX,
        }
    }

    fn memories(&self) -> usize
        ensures absent { loan self.now ≡ None → result ≡ usize.MAX }
    {
        match &self.limiter {
            Some(limiter) => limiter.memories(),
            None => usize::MAX,
        }
    }
}
