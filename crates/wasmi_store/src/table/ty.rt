//! The types of tables: whether indices have 64 bits, the elements' type and limits, and subtypes.
ghost use Rattle.std.specs.Prelude.{◌≡◌, ◌≤◌, ◌+◌, ◌-◌, ◌^◌, ◌↔◌, IfSome, IsTrue, true, false, MatchOption, MatchResult};
ghost use Rattle.wasmi_types.specs.Value.{address_bits};
ghost use Rattle.wasmi_store.specs.Table.{IsSubtype, IsValid, is_indexable, is_within_maximum, same_type};
ghost use Rattle.wasmi_types.specs.declared.index_ty.IndexType.TheVariants.{I32, I64};

use crate::memory::is_no_looser;
use std::marker::Model;
use wasmi_meter::TableError;
use wasmi_types::{IndexType, RefType};

/// The type of a table: its index and element types, minimum and optional maximum in elements. Core
/// specification, table types. Upstream: `wasmi_core::TableType`.
#[derive(Clone, Copy, Debug, PartialEq, Eq)]
pub struct TableType {
    index: IndexType,
    element: RefType,
    minimum: u64,
    maximum: Option<u64>,
}

impl Model for TableType {
    ghost use Rattle.wasmi_store.specs.Table.{TableTypeValue, IsValid};

    ghost Value = { TableTypeValue };

    ghost view = { λ t. record
        { index = t.index; element = t.element; minimum = t.minimum; maximum = t.maximum } };

    ghost invariant = { λ t. IsValid (record
        { index = t.index; element = t.element; minimum = t.minimum; maximum = t.maximum }) };

    ghost inverse = { λ t. record
        { index = t.index; element = t.element; minimum = t.minimum; maximum = t.maximum } };
}

impl TableType {
    /// A type with 32-bit indices. The minimum isn't above the maximum.
    pub fn new(element: RefType, minimum: u32, maximum: Option<u32>) -> Self
        requires ordered { IfSome maximum (λ most. minimum ≤ most) }
        ensures value { result
            ≡ record { index = I32; element = element; minimum = minimum; maximum = maximum } }
    {
        TableType {
            index: IndexType::I32,
            element,
            minimum: u64::from(minimum),
            maximum: maximum.map(u64::from),
        }
    }

    /// A type with 64-bit indices. The minimum isn't above the maximum.
    pub fn new64(element: RefType, minimum: u64, maximum: Option<u64>) -> Self
        requires ordered { IfSome maximum (λ most. minimum ≤ most) }
        ensures value { result
            ≡ record { index = I64; element = element; minimum = minimum; maximum = maximum } }
    {
        TableType {
            index: IndexType::I64,
            element,
            minimum,
            maximum,
        }
    }

    /// Whether indices have 64 bits.
    pub fn is_64(&self) -> bool
        ensures { IsTrue result ↔ (self.now.index ≡ I64) }
    {
        self.index.is_64()
    }

    /// The type of the indices.
    pub fn index_ty(&self) -> IndexType
        ensures { result ≡ self.now.index }
    {
        self.index
    }

    /// The type of the elements.
    pub fn element(&self) -> RefType
        ensures { result ≡ self.now.element }
    {
        self.element
    }

    /// The minimum in elements.
    pub fn minimum(&self) -> u64
        ensures value { result ≡ self.now.minimum }
        ensures valid { IsValid self.now }
    {
        self.minimum
    }

    /// The maximum in elements, if there is one.
    pub fn maximum(&self) -> Option<u64>
        ensures { result ≡ self.now.maximum }
    {
        self.maximum
    }

    /// Whether a table of this type may be used where one of the other type is required: both have
    /// the same index type and type of elements, the minimum isn't below the other's, and the
    /// maximum isn't above the other's, if that has one.
    pub fn is_subtype_of(&self, other: &Self) -> bool
        ensures { IsTrue result ↔ IsSubtype self.now other.now }
    {
        self.index == other.index
            && self.element == other.element
            && self.minimum >= other.minimum
            && is_no_looser(self.maximum, other.maximum)
    }

    /// Returns `Ok` if references of a type are elements of this type.
    pub fn ensure_element_type_matches(self, ty: RefType) -> Result<(), TableError>
        ensures { MatchResult result (λ _. same_type self.element ty ≡ true)
            (λ e. (e ≡ TableError.ElementTypeMismatch) × (same_type self.element ty ≡ false)) }
    {
        if self.element != ty {
            return Err(TableError::ElementTypeMismatch);
        }
        Ok(())
    }

    pub(super) fn with_minimum(self, minimum: u64) -> Self
        requires indexable { is_indexable self minimum ≡ true }
        requires within { is_within_maximum self minimum ≡ true }
        ensures value { result ≡ record self { minimum = minimum } }
    {
        TableType { minimum, ..self }
    }

    /// The number of elements after a growth, if there are more indices than elements.
    pub fn grown_size(self, size: u64, delta: u64) -> Option<usize>
        ensures { MatchOption result (is_indexable self (size + delta) ≡ false)
            (λ grown. (is_indexable self (size + delta) ≡ true) × (grown ≡ size + delta)) }
    {
        let grown = size.checked_add(delta)?;
        if grown > most_elements(self.index) {
            return None;
        }
        usize::try_from(grown).ok()
    }

    /// Whether there are more indices than so many elements.
    pub fn indexes_size(self, size: usize) -> bool
        ensures { result ≡ is_indexable self size }
    {
        size as u64 <= most_elements(self.index)
    }

    /// The maximum as a size, at most the greatest `usize`.
    pub fn maximum_size(self) -> Option<usize>
        ensures { result ≡ self.maximum }
    {
        self.maximum
            .map(|maximum| usize::try_from(maximum).unwrap_or(usize::MAX))
    }

    /// Whether `size` elements are no more than the maximum, if there is one.
    pub fn allows_size(self, size: usize) -> bool
        ensures { result ≡ is_within_maximum self size }
    {
        self.maximum.is_none_or(|maximum| size as u64 <= maximum)
    }
}

/// The most elements of a table by its index type: one fewer than there are indices.
fn most_elements(index: IndexType) -> u64
    ensures { result ≡ 2 ^ address_bits index - 1 }
{
    match index {
        IndexType::I32 => u64::from(u32::MAX),
        IndexType::I64 => u64::MAX,
    }
}
