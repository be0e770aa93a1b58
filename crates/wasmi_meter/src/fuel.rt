//! Fuel meters, what work costs, which a host may choose, and why a call on a meter is refused.
ghost use Rattle.std.specs.Prelude.{◌≡◌, ℕ, ◌-◌, Option, Some, None, Result, Ok, Err, IsSome, if◌then◌else◌};
ghost use Rattle.wasmi_meter.specs.declared.fuel.CustomFuelCosts.{CustomFuelCosts};
ghost use Rattle.wasmi_meter.specs.Meter.{costs_of, cut_product, copy_cost, Meter, amount_left, meter_set, ConsumesFuel, default_costs, Computes};
ghost use Rattle.wasmi_meter.specs.Texts.{fuel_error_text, numbered};

use std::fmt;
use std::marker::Model;
use wasmi_raw::RawRef;

/// The number of bytes that a copied value counts for, in place of its size in memory. Own:
/// upstream takes the size in memory of any type.
pub trait ValueSize {
    /// The number of bytes, in contracts.
    ghost SIZE: { ℕ };

    /// The number of bytes.
    const SIZE: u64;
}

impl ValueSize for u8 {
    ghost SIZE = { 1 };

    const SIZE: u64 = 1;
}

impl ValueSize for u32 {
    ghost SIZE = { 4 };

    const SIZE: u64 = 4;
}

impl ValueSize for RawRef {
    ghost SIZE = { 4 };

    const SIZE: u64 = 4;
}

/// What work costs. Upstream: `wasmi_core::FuelCosts`.
pub trait FuelCosts {
    /// The three costs as one value.
    ghost costs: { Self → CustomFuelCosts };

    /// How many bytes are copied for one unit of fuel; at 0 each copy costs `u64::MAX`.
    fn bytes_copied_per_fuel(&self) -> u32
        ensures { result ≡ (costs self.now).bytes_copied_per_fuel };

    /// The fuel for translating one byte.
    fn fuel_per_bytes_translated(&self) -> u32
        ensures { result ≡ (costs self.now).fuel_per_bytes_translated };

    /// The fuel for validating one byte.
    fn fuel_per_bytes_validated(&self) -> u32
        ensures { result ≡ (costs self.now).fuel_per_bytes_validated };
}

/// Costs that a host chooses. Upstream: `wasmi_core::CustomFuelCosts`.
#[derive(Clone, Copy, Debug)]
pub struct CustomFuelCosts {
    /// How many bytes are copied for one unit of fuel; at 0 each copy costs `u64::MAX`.
    pub bytes_copied_per_fuel: u32,
    /// The fuel for translating one byte.
    pub fuel_per_bytes_translated: u32,
    /// The fuel for validating one byte.
    pub fuel_per_bytes_validated: u32,
}

impl FuelCosts for CustomFuelCosts {
    ghost costs = { λ c. c };

    fn bytes_copied_per_fuel(&self) -> u32 {
        self.bytes_copied_per_fuel
    }

    fn fuel_per_bytes_translated(&self) -> u32 {
        self.fuel_per_bytes_translated
    }

    fn fuel_per_bytes_validated(&self) -> u32 {
        self.fuel_per_bytes_validated
    }
}

/// The costs if a host chooses none: one unit of fuel for 64 copied bytes, 7 for a translated byte
/// and 2 for a validated byte.
const DEFAULT_COSTS: CustomFuelCosts = CustomFuelCosts {
    bytes_copied_per_fuel: 64,
    fuel_per_bytes_translated: 7,
    fuel_per_bytes_validated: 2,
};

/// The costs of a meter: those that a host chose, or the default ones. Upstream:
/// `wasmi_core::FuelCostsProvider`.
#[derive(Clone, Debug, Default, Drop)]
pub struct FuelCostsProvider {
    custom: Option<CustomFuelCosts>,
}

impl FuelCostsProvider {
    /// The costs that a host chose.
    pub fn custom(custom: CustomFuelCosts) -> Self
        ensures { costs_of result ≡ custom }
    {
        FuelCostsProvider {
            custom: Some(custom),
        }
    }

    fn costs(&self) -> CustomFuelCosts
        ensures { result ≡ costs_of self.now }
    {
        self.custom.unwrap_or(DEFAULT_COSTS)
    }

    /// The fuel for translating `len_bytes` bytes, at most `u64::MAX`.
    pub fn fuel_for_translating_bytes(&self, len_bytes: u64) -> u64
        ensures { result ≡ cut_product len_bytes (costs_of self.now).fuel_per_bytes_translated }
    {
        len_bytes.saturating_mul(u64::from(self.costs().fuel_per_bytes_translated))
    }

    /// The fuel for validating `len_bytes` bytes, at most `u64::MAX`.
    pub fn fuel_for_validating_bytes(&self, len_bytes: u64) -> u64
        ensures { result ≡ cut_product len_bytes (costs_of self.now).fuel_per_bytes_validated }
    {
        len_bytes.saturating_mul(u64::from(self.costs().fuel_per_bytes_validated))
    }

    /// The fuel for copying `len_values` values of a type. If no bytes are copied for a unit of
    /// fuel, it is `u64::MAX`, also for no values.
    pub fn fuel_for_copying_values<T: ValueSize>(&self, len_values: u64) -> u64
        ensures { result ≡ copy_cost (costs_of self.now) len_values T.SIZE }
    {
        let len_bytes = len_values.saturating_mul(T::SIZE);
        match self.costs().bytes_copied_per_fuel {
            0 => u64::MAX,
            bytes_per_fuel => len_bytes / u64::from(bytes_per_fuel),
        }
    }
}

/// Why a call on a fuel meter is refused. Upstream: `wasmi_core::FuelError`.
#[derive(Clone, Debug, PartialEq, Eq, Drop)]
pub enum FuelError {
    /// The meter is off, so there is no fuel to set, read or consume.
    FuelMeteringDisabled,
    /// Less fuel is left than the `required_fuel` that was asked for. The text is upstream's.
    OutOfFuel { required_fuel: u64 },
}

impl FuelError {
    /// The error of a meter that is off.
    #[cold]
    pub fn fuel_metering_disabled() -> Self
        ensures { result ≡ FuelError.FuelMeteringDisabled }
    {
        FuelError::FuelMeteringDisabled
    }

    /// The error if less fuel is left than was asked for.
    #[cold]
    pub fn out_of_fuel(required_fuel: u64) -> Self
        ensures { result ≡ FuelError.OutOfFuel required_fuel }
    {
        FuelError::OutOfFuel { required_fuel }
    }

    /// The words of its text, and the number after them, if there is one.
    pub fn words(&self) -> (&'static str, Option<u64>)
        ensures { numbered result.0.now result.1 ≡ fuel_error_text self.now }
    {
        match self {
            Self::FuelMeteringDisabled => ("fuel metering is disabled", None),
            Self::OutOfFuel { required_fuel } => ("ouf of fuel. required=", Some(*required_fuel)),
        }
    }
}

impl fmt::Display for FuelError {
    ghost output = { λ error. Some (fuel_error_text error) };

    fn fmt<W: fmt::Write>(&self, f: &mut fmt::Formatter<W>) -> fmt::Result {
        match self.words() {
            (words, None) => f.write_str(words),
            (words, Some(number)) => write!(f, "{words}{number}"),
        }
    }
}

impl std::error::Error for FuelError {}

/// A fuel meter. It is on or off, and stays so. Upstream: `wasmi_core::Fuel`.
#[derive(Drop, Debug)]
pub struct Fuel {
    remaining: u64,
    enabled: bool,
    costs: FuelCostsProvider,
}

impl Model for Fuel {
    ghost use Rattle.std.specs.Prelude.{◌≡◌, false, Some, None, if◌then◌else◌};
    ghost use Rattle.wasmi_meter.specs.Meter.{Meter, costs_of};

    ghost Value = { Meter };

    ghost view = { λ f. record
        { left = (if f.enabled then Some f.remaining else None); costs = costs_of f.costs } };

    ghost invariant = { λ f. f.enabled ≡ false → f.remaining ≡ 0 };
}

impl Fuel {
    /// A meter that has no fuel yet.
    pub fn new(enabled: bool, costs: FuelCostsProvider) -> Self
        ensures { result
            ≡ record { left = (if enabled then Some 0 else None); costs = costs_of costs } }
    {
        Fuel {
            remaining: 0,
            enabled,
            costs,
        }
    }

    /// A meter that is off, at the default costs.
    pub fn unmetered() -> Self
        ensures { result ≡ record { left = None; costs = default_costs } }
    {
        Fuel::new(false, FuelCostsProvider::default())
    }

    fn check_fuel_metering_enabled(&self) -> Result<(), FuelError>
        ensures on { IsSome self.now.left → result ≡ Ok tt }
        ensures off { self.now.left ≡ None → result ≡ Err FuelError.FuelMeteringDisabled }
    {
        if !self.enabled {
            return Err(FuelError::fuel_metering_disabled());
        }
        Ok(())
    }

    /// Sets the fuel that is left.
    pub fn set_fuel(&mut self, fuel: u64) -> Result<(), FuelError>
        ensures on { IsSome self.old.left
            → (result ≡ Ok tt) × (self.new ≡ meter_set self.old fuel) }
        ensures off { self.old.left ≡ None
            → (result ≡ Err FuelError.FuelMeteringDisabled) × (self.new ≡ self.old) }
    {
        self.check_fuel_metering_enabled()?;
        self.remaining = fuel;
        Ok(())
    }

    /// Returns the fuel that is left.
    pub fn get_fuel(&self) -> Result<u64, FuelError>
        ensures on { IsSome self.now.left → result ≡ Ok (amount_left self.now) }
        ensures off { self.now.left ≡ None → result ≡ Err FuelError.FuelMeteringDisabled }
    {
        self.check_fuel_metering_enabled()?;
        Ok(self.remaining)
    }

    /// Consumes `delta` fuel, and returns what is left. It doesn't test whether the meter is on:
    /// one that is off has no fuel left.
    pub fn consume_fuel_unchecked(&mut self, delta: u64) -> Result<u64, FuelError>
        ensures { ConsumesFuel self.old delta (amount_left self.old - delta) result self.new }
    {
        let Some(left) = self.remaining.checked_sub(delta) else {
            return Err(FuelError::out_of_fuel(delta));
        };
        self.remaining = left;
        Ok(left)
    }

    /// Consumes the fuel that `f`, called if the meter is on, makes of the costs; returns the rest.
    pub fn consume_fuel<C: FnOnce(&FuelCostsProvider) -> u64>(
        &mut self,
        f: C,
    ) -> Result<u64, FuelError>
        requires callable { IsSome self.old.left → C.IsAlwaysCallable f }
        ensures on { IsSome self.old.left → (amount : ℕ) × Computes C.FnOnce f self.old.costs amount
            × ConsumesFuel self.old amount (amount_left self.old - amount) result self.new }
        ensures off { self.old.left ≡ None
            → (result ≡ Err FuelError.FuelMeteringDisabled) × (self.new ≡ self.old) }
    {
        self.check_fuel_metering_enabled()?;
        let delta = f(&self.costs);
        self.consume_fuel_unchecked(delta)
    }

    /// Consumes the fuel that `f` computes from the costs; if the meter is off, `f` isn't called.
    pub fn consume_fuel_if<C: FnOnce(&FuelCostsProvider) -> u64>(
        &mut self,
        f: C,
    ) -> Result<(), FuelError>
        requires callable { IsSome self.old.left → C.IsAlwaysCallable f }
        ensures on { IsSome self.old.left → (amount : ℕ) × Computes C.FnOnce f self.old.costs amount
            × ConsumesFuel self.old amount tt result self.new }
        ensures off { self.old.left ≡ None → (result ≡ Ok tt) × (self.new ≡ self.old) }
    {
        if !self.enabled {
            return Ok(());
        }
        let delta = f(&self.costs);
        self.consume_fuel_unchecked(delta)?;
        Ok(())
    }
}
