//! What every creation and growth does with its limiter's answers and its meter, whatever it is
//! that grows; and what making and growing a memory decides, wherever its bytes lie. Own: upstream
//! writes these steps in each function that grows something.
ghost use Rattle.std.specs.Prelude.{◌≡◌, ◌-◌, ◌<◌, ℕ, Some, Ok, Err, OnOk, IfOk, IfErr, true};
ghost use Rattle.wasmi_meter.specs.declared.error.MemoryError.{MemoryError};
ghost use Rattle.wasmi_meter.specs.declared.error.TableError.{TableError};
ghost use Rattle.wasmi_meter.specs.Attempt.{Permits, error_of_failure};
ghost use Rattle.wasmi_meter.specs.Limiter.{Failure, MemoryFailure, TableFailure, NoticeAnswer, optional_rules};
ghost use Rattle.wasmi_meter.specs.Meter.{copy_cost, Charges, due};
ghost use Rattle.wasmi_store.specs.Buffer.{fits_room};
ghost use Rattle.wasmi_store.specs.Growth.{metered_value, IsAsked};
ghost use Rattle.wasmi_store.specs.Memory.{MemoryValue, PermitsMinimum, GrowsMemory, IsSized, size_question, growth_of};

use crate::memory::MemoryType;
use wasmi_meter::{
    Fuel, FuelError, LimiterError, MemoryError, ResourceLimiter, TableError, ValueSize,
};

/// The error of a memory if the limiter returns an error.
pub const MEMORY_DENIED: MemoryError = MemoryError::ResourceLimiterDeniedAllocation;

/// The error of a table if the limiter returns an error.
pub const TABLE_DENIED: TableError = TableError::ResourceLimiterDeniedAllocation;

/// Returns `Ok` if the limiter permits.
///
/// # Errors
///
/// `denial` if the limiter says no; `error` if it returns an error.
pub fn permission<E: Drop>(answer: Result<bool, LimiterError>, denial: E, error: E) -> Result<(), E>
    ensures { Permits denial error answer result }
{
    match answer {
        Ok(true) => Ok(()),
        Ok(false) => Err(denial),
        Err(_) => Err(error),
    }
}

/// An error of a growth, of which a limiter can be notified, or of a bulk instruction.
pub trait GrowthError: Drop {
    /// The notice that a limiter gets of it.
    ghost notice: { Self → Failure };

    /// The error if less fuel is left than is needed, in contracts.
    ghost unpaid: { ℕ → Self };

    /// The error if less fuel is left than is needed.
    fn out_of_fuel(required_fuel: u64) -> Self
        ensures { result ≡ unpaid required_fuel };

    /// Notifies the limiter that a growth which it permitted failed with this error.
    fn notify<L: ResourceLimiter>(&self, limiter: &mut L) -> Result<(), LimiterError>
        ensures { (optional_rules L.rules).noticed (Some limiter.old) (notice self.now) result
            (Some limiter.new) };
}

impl GrowthError for MemoryError {
    ghost notice = { MemoryFailure };

    ghost unpaid = { MemoryError.OutOfFuel };

    fn out_of_fuel(required_fuel: u64) -> Self {
        MemoryError::OutOfFuel { required_fuel }
    }

    fn notify<L: ResourceLimiter>(&self, limiter: &mut L) -> Result<(), LimiterError> {
        limiter.memory_grow_failed(self)
    }
}

impl GrowthError for TableError {
    ghost notice = { TableFailure };

    ghost unpaid = { TableError.OutOfFuel };

    fn out_of_fuel(required_fuel: u64) -> Self {
        TableError::OutOfFuel { required_fuel }
    }

    fn notify<L: ResourceLimiter>(&self, limiter: &mut L) -> Result<(), LimiterError> {
        limiter.table_grow_failed(self)
    }
}

/// Notifies the limiter why a growth that it permitted failed. Returns the cause, or `refusal` if
/// the limiter answers the notice with an error.
pub fn tell<L: ResourceLimiter, E: GrowthError>(limiter: &mut L, cause: E, refusal: E) -> E
    ensures { (notice_answer : NoticeAnswer)
        × (optional_rules L.rules).noticed (Some limiter.old) (E.notice cause) notice_answer
        (Some limiter.new) × (result ≡ error_of_failure refusal cause notice_answer) }
{
    let notice_answer = cause.notify(limiter);
    match notice_answer {
        Ok(()) => cause,
        Err(_) => refusal,
    }
}

/// Takes the fuel for copying `values` values of a type, as a growth or a write over a range is
/// charged. A meter that is off takes nothing.
///
/// # Errors
///
/// The amount that is needed, if less is left; then nothing is taken.
pub fn charge<T: ValueSize>(fuel: &mut Fuel, values: u64) -> Result<(), u64>
    ensures { Charges fuel.old
        (due fuel.old (λ costs. copy_cost costs values T.SIZE)) result fuel.new }
{
    match fuel.consume_fuel_if(|costs| costs.fuel_for_copying_values::<T>(values)) {
        Err(FuelError::OutOfFuel { required_fuel }) => Err(required_fuel),
        Ok(()) | Err(FuelError::FuelMeteringDisabled) => Ok(()),
    }
}

/// Asks whether a memory of a type may be made, and returns its minimum in bytes.
pub fn permitted_minimum<L: ResourceLimiter>(
    ty: MemoryType,
    limiter: &mut L,
) -> Result<usize, MemoryError>
    ensures permitted { PermitsMinimum (optional_rules L.rules) ty (Some limiter.old) result
        (Some limiter.new) }
    ensures sized { IfOk result (λ size. IsSized ty size) }
{
    let Some(size) = ty.minimum_size() else {
        return Err(MemoryError::MinimumSizeOverflow);
    };
    let answer = limiter.memory_growing(0, size, ty.maximum_size());
    permission(answer, MEMORY_DENIED, MEMORY_DENIED)?;
    Ok(size)
}

/// Decides whether `old_size` bytes may become `size`, which is more: the limiter permits it, there
/// is room for them, and the added ones are paid, in this order. The fuel is taken if they may; no
/// byte is written yet, so it is the same wherever the bytes lie.
///
/// # Errors
///
/// Those of [`crate::LinearMemory::grow`] from the limiter's denial to `OutOfFuel`.
pub fn decide_growth<L: ResourceLimiter>(
    old_size: usize,
    size: usize,
    maximum: Option<usize>,
    has_room: bool,
    fuel: &mut Fuel,
    limiter: &mut L,
) -> Result<(), MemoryError>
    requires grows { old_size < size }
    ensures permitted { OnOk result ((optional_rules L.rules).asked (Some limiter.old)
        (size_question old_size size maximum) (Ok true) (Some limiter.new)) }
    ensures room { OnOk result (has_room ≡ true) }
    ensures paid { OnOk result (Charges fuel.old
        (due fuel.old (λ costs. copy_cost costs (size - old_size) 1)) (Ok tt) fuel.new) }
    ensures refused { IfErr result (λ error. (x : MemoryValue) (pages : ℕ) → 0 < pages
        → IsAsked (growth_of x pages) (size_question old_size size maximum)
        → fits_room x.room (size - old_size) ≡ has_room
        → GrowsMemory (optional_rules L.rules) pages
        (metered_value x (Some fuel.old) (Some limiter.old)) (Err error)
        (metered_value x (Some fuel.new) (Some limiter.new))) }
{
    let answer = limiter.memory_growing(old_size, size, maximum);
    permission(answer, MemoryError::OutOfBoundsGrowth, MEMORY_DENIED)?;
    if !has_room {
        return Err(tell(limiter, MemoryError::InvalidStaticBufferSize, MEMORY_DENIED));
    }
    let paid = charge::<u8>(fuel, (size - old_size) as u64);
    if let Err(required_fuel) = paid {
        let cause = MemoryError::OutOfFuel { required_fuel };
        return Err(tell(limiter, cause, MEMORY_DENIED));
    }
    Ok(())
}
