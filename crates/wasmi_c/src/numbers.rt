//! The plain numbers of memories, tables, meters, quotas and ranges that lie with C, any numbers,
//! and what each of them stands for.
ghost use Rattle.std.specs.Prelude.{◌≡◌, IsFalse, MatchOption, OnSome, Some};
ghost use Rattle.wasmi_store.specs.Memory.{MemoryTypeValue, IsValid, named_type};
ghost use Rattle.wasmi_store.specs.Table.{TableTypeValue};
ghost use Rattle.wasmi_c.specs.Numbers.{limiter_of, meter_of, quota_numbers_rules, settings_of, ReleasesIf, table_type_of, with_left, IsState, IsTable, KeepsQuota};

use crate::types;
use wasmi_meter::{
    Amounts, CustomFuelCosts, Fuel, Holdings, Kind, LimiterByKind, LimiterError, Quota,
};
use wasmi_region::{memory, table};
use wasmi_store::{MemoryType, TableType};

/// Names the type of the memory or the table that numbers stand for on a region; where they stand
/// for none, the function that it is written in returns that.
macro_rules! type_or_return {
    ($ty:ident, $numbers:expr, $region:expr) => {
        let Some($ty) = $numbers.type_if_valid($region) else {
            return $crate::status::INVALID_STATE;
        };
    };
}

pub(crate) use type_or_return;

/// A linear memory, except its bytes: `size` bytes at the front of a region.
#[repr(C)]
#[derive(Clone, Copy)]
pub struct MemoryNumbers {
    /// The minimum in pages.
    pub minimum: u64,
    /// The maximum in pages, where there is one.
    pub maximum: u64,
    /// The size in bytes.
    pub size: usize,
    /// Whether there is a maximum: any number but 0.
    pub has_maximum: u8,
    /// Whether addresses have 64 bits: any number but 0.
    pub is_64: u8,
    /// 16 for pages of 64 KiB, 0 for pages of one byte.
    pub page_size_log2: u8,
}

impl MemoryNumbers {
    /// The type of the memory, if the numbers have one.
    pub fn ty(&self) -> Option<MemoryType>
        ensures { MatchOption result
            ((ty : MemoryTypeValue) → named_type (settings_of self.now) ≡ Some ty → IsValid ty → ⊥)
            (λ ty. (named_type (settings_of self.now) ≡ Some ty) × IsValid ty) }
    {
        let maximum = types::if_flag(self.has_maximum, self.maximum);
        types::memory_type(self.minimum, maximum, self.is_64, self.page_size_log2)
    }

    /// The type, if the numbers stand for a memory at the front of a region.
    pub fn type_if_valid(&self, region: &[u8]) -> Option<MemoryType>
        ensures { MatchOption result ((ty : MemoryTypeValue) → IsState self.now region.now ty → ⊥)
            (λ ty. IsState self.now region.now ty) }
    {
        let ty = self.ty()?;
        let is_valid = self.size <= region.len() && memory::is_sized(ty, self.size);
        if is_valid { Some(ty) } else { None }
    }
}

/// A table, except its elements: `size` references at the front of a region.
#[repr(C)]
#[derive(Clone, Copy)]
pub struct TableNumbers {
    /// The minimum in elements.
    pub minimum: u64,
    /// The maximum in elements, where there is one.
    pub maximum: u64,
    /// The size in elements.
    pub size: usize,
    /// Whether there is a maximum: any number but 0.
    pub has_maximum: u8,
    /// Whether indices have 64 bits: any number but 0.
    pub is_64: u8,
    /// The type of the elements: 5 for functions, 6 for external references.
    pub ty: u8,
}

impl TableNumbers {
    /// The type of the table, if the numbers have one.
    pub fn table_type(&self) -> Option<TableType>
        ensures { result ≡ table_type_of self.now }
    {
        let maximum = types::if_flag(self.has_maximum, self.maximum);
        types::table_type(self.ty, self.minimum, maximum, self.is_64)
    }

    /// The type, if the numbers stand for a table at the front of a region.
    pub fn type_if_valid(&self, region: &[u32]) -> Option<TableType>
        ensures { MatchOption result ((ty : TableTypeValue) → IsTable self.now region.now ty → ⊥)
            (λ ty. IsTable self.now region.now ty) }
    {
        let ty = self.table_type()?;
        let is_valid = self.size <= region.len() && table::is_sized(ty, self.size);
        if is_valid { Some(ty) } else { None }
    }
}

/// A fuel meter.
#[repr(C)]
#[derive(Clone, Copy)]
pub struct MeterNumbers {
    /// The fuel that is left, where the meter is on.
    pub left: u64,
    /// How many bytes are copied for one fuel; 0 makes each copy cost the greatest `u64`.
    pub bytes_copied_per_fuel: u32,
    /// The fuel for translating one byte.
    pub fuel_per_bytes_translated: u32,
    /// The fuel for validating one byte.
    pub fuel_per_bytes_validated: u32,
    /// Whether the meter is on: any number but 0.
    pub is_on: u8,
}

impl MeterNumbers {
    /// The meter.
    pub fn fuel(&self) -> Fuel
        ensures { result ≡ meter_of self.now }
    {
        types::meter(types::if_flag(self.is_on, self.left), self.costs())
    }

    /// What work costs.
    pub fn costs(&self) -> CustomFuelCosts
        ensures { result ≡ (meter_of self.now).costs }
    {
        CustomFuelCosts {
            bytes_copied_per_fuel: self.bytes_copied_per_fuel,
            fuel_per_bytes_translated: self.fuel_per_bytes_translated,
            fuel_per_bytes_validated: self.fuel_per_bytes_validated,
        }
    }

    /// Stores what is left of the meter.
    pub fn store_left(&mut self, fuel: &Fuel)
        ensures { self.new ≡ with_left self.old fuel.now.left }
    {
        if let Ok(left) = fuel.get_fuel() {
            self.left = left;
        }
    }
}

/// A limiter with caps, and what it holds.
#[repr(C)]
#[derive(Clone, Copy)]
pub struct QuotaNumbers {
    /// The most bytes of memories that may be held.
    pub cap_bytes: u64,
    /// The most elements of tables that may be held.
    pub cap_elements: u64,
    /// The bytes that are held.
    pub held_bytes: u64,
    /// The elements that are held.
    pub held_elements: u64,
    /// The last difference that was permitted.
    pub last: u64,
    /// Its kind: 1 for bytes, 2 for elements, any other number where there is none.
    pub last_kind: u8,
    /// Whether there is a limiter: any number but 0.
    pub is_on: u8,
}

impl QuotaNumbers {
    /// The quota that these numbers stand for, if there is a limiter.
    pub fn quota(&self) -> Option<Quota>
        ensures value { result ≡ limiter_of self.now }
        ensures on { OnSome result (self.now.is_on ≡ 0 → ⊥) }
    {
        if self.is_on == 0 {
            return None;
        }
        let last = match self.last_kind {
            1 => Some((Kind::Bytes, self.last)),
            2 => Some((Kind::Elements, self.last)),
            _ => None,
        };
        let caps = Amounts {
            bytes: self.cap_bytes,
            elements: self.cap_elements,
        };
        let held = Amounts {
            bytes: self.held_bytes,
            elements: self.held_elements,
        };
        Some(Quota::resume(caps, Holdings::resume(held, last)))
    }

    /// Gives up what ended, if so much is held; without a quota nothing is. Returns whether it did
    /// so: if not, nothing is written.
    pub fn release(&mut self, kind: Kind, amount: u64) -> bool
        ensures released { ReleasesIf kind amount (limiter_of self.old) result
            (limiter_of self.new) }
        ensures kept { KeepsQuota self.old self.new }
        ensures refused { IsFalse result → self.new ≡ self.old }
    {
        let Some(mut quota) = self.quota() else {
            return true;
        };
        if !quota.release(kind, amount) {
            return false;
        }
        self.store(&quota);
        true
    }

    /// Stores what a quota that is on has become; the flag stays.
    fn store(&mut self, quota: &Quota)
        requires on { self.old.is_on ≡ 0 → ⊥ }
        ensures limiter { limiter_of self.new ≡ Some quota.now }
        ensures kept { KeepsQuota self.old self.new }
    {
        let caps = quota.caps();
        let holdings = quota.holdings();
        let held = holdings.held();
        let (last_kind, last) = match holdings.last() {
            Some((Kind::Bytes, last)) => (1, last),
            Some((Kind::Elements, last)) => (2, last),
            None => (0, 0),
        };
        *self = QuotaNumbers {
            cap_bytes: caps.bytes,
            cap_elements: caps.elements,
            held_bytes: held.bytes,
            held_elements: held.elements,
            last,
            last_kind,
            is_on: self.is_on,
        };
    }
}

/// Without a quota every question is permitted and every notice accepted. The numbers are read and
/// written only where they are asked or told.
impl LimiterByKind for QuotaNumbers {
    ghost kind_rules = { quota_numbers_rules };

    fn growing(&mut self, kind: Kind, size: usize, desired: usize) -> Result<bool, LimiterError> {
        let Some(mut quota) = self.quota() else {
            return Ok(true);
        };
        let answer = quota.growing(kind, size, desired);
        self.store(&quota);
        answer
    }

    fn grow_failed(&mut self, kind: Kind) -> Result<(), LimiterError> {
        let Some(mut quota) = self.quota() else {
            return Ok(());
        };
        let answer = quota.grow_failed(kind);
        self.store(&quota);
        answer
    }
}

/// What is written over: `count` bytes or elements from `to` on, in a copy by those from `from` on.
#[repr(C)]
#[derive(Clone, Copy)]
pub struct Range {
    /// The first byte or element that is written over.
    pub to: u64,
    /// The first one that is copied.
    pub from: u64,
    /// How many.
    pub count: u64,
}
