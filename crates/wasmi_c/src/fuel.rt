//! The calls on a fuel meter that lies with C.
ghost use Rattle.std.specs.Prelude.{◌≡◌};
ghost use Rattle.wasmi_meter.specs.Meter.{copy_cost};
ghost use Rattle.wasmi_c.specs.FuelCalls.{SetsFuel, TellsFuel, PaysFuel};
ghost use Rattle.wasmi_c.specs.Numbers.{meter_of};

use crate::numbers::MeterNumbers;
use crate::status::{DONE, METERING_DISABLED, OUT_OF_FUEL};
use wasmi_meter::FuelCostsProvider;

/// Sets the fuel that is left: `METERING_DISABLED` where the meter is off.
pub fn set(meter: &mut MeterNumbers, amount: u64) -> u8
    ensures { SetsFuel amount meter.old result meter.new }
{
    if meter.is_on == 0 {
        return METERING_DISABLED;
    }
    meter.left = amount;
    DONE
}

/// The fuel that is left: `METERING_DISABLED` where the meter is off.
pub fn left(meter: &MeterNumbers, left: &mut u64) -> u8
    ensures { TellsFuel meter.now left.old result left.new }
{
    if meter.is_on == 0 {
        return METERING_DISABLED;
    }
    *left = meter.left;
    DONE
}

/// Takes an amount, and `number` becomes what is left. It is `METERING_DISABLED` where the meter is
/// off, and `OUT_OF_FUEL` with the amount as number where less is left; then nothing is taken.
pub fn consume(meter: &mut MeterNumbers, amount: u64, number: &mut u64) -> u8
    ensures { PaysFuel amount meter.old number.old result meter.new number.new }
{
    if meter.is_on == 0 {
        return METERING_DISABLED;
    }
    if meter.left < amount {
        *number = amount;
        return OUT_OF_FUEL;
    }
    meter.left -= amount;
    *number = meter.left;
    DONE
}

/// The price of a copy of so many bytes, also by a meter that is off.
pub fn copy_cost(meter: &MeterNumbers, bytes: u64) -> u64
    ensures { result ≡ copy_cost (meter_of meter.now).costs bytes 1 }
{
    FuelCostsProvider::custom(meter.costs()).fuel_for_copying_values::<u8>(bytes)
}

/// Takes the price of a copy of so many bytes, as [`consume`] takes an amount.
pub fn consume_copy(meter: &mut MeterNumbers, bytes: u64, number: &mut u64) -> u8
    ensures { PaysFuel (copy_cost (meter_of meter.old).costs bytes 1) meter.old number.old result
        meter.new number.new }
{
    let amount = copy_cost(meter, bytes);
    consume(meter, amount, number)
}
