//! Address types: the types of the addresses of a linear memory and of the indices of a table.
ghost use Rattle.std.specs.Prelude.{◌≡◌, ◌↔◌, ◌^◌, IsTrue};
ghost use Rattle.wasmi_types.specs.Value.{address_type, address_bits, narrower};

use crate::ValType;

/// The type of the addresses of a linear memory, or of the indices of a table. The memory64
/// proposal, address types. Upstream: `wasmi_core::IndexType`.
#[derive(Clone, Copy, Debug, PartialEq, Eq)]
pub enum IndexType {
    /// 32-bit addresses.
    I32,
    /// 64-bit addresses.
    I64,
}

impl IndexType {
    /// The value type of an address.
    pub fn ty(&self) -> ValType
        ensures { result ≡ address_type self.now }
    {
        match self {
            Self::I32 => ValType::I32,
            Self::I64 => ValType::I64,
        }
    }

    /// Whether it is the type of 64 bits.
    pub fn is_64(&self) -> bool
        ensures { IsTrue result ↔ (self.now ≡ IndexType.I64) }
    {
        matches!(self, Self::I64)
    }

    /// How many addresses there are: 2^32 or 2^64.
    pub fn max_size(&self) -> u128
        ensures { result ≡ 2 ^ address_bits self.now }
    {
        match self {
            Self::I32 => 1 << 32,
            Self::I64 => 1 << 64,
        }
    }

    /// The narrower of the two: `I64` only where both are.
    pub fn min(&self, other: &Self) -> Self
        ensures { result ≡ narrower self.now other.now }
    {
        match (self, other) {
            (Self::I64, Self::I64) => Self::I64,
            _ => Self::I32,
        }
    }
}
