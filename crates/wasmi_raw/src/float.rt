//! Floats of 32 and 64 bits, of which only the bits are known.
ghost use Rattle.std.specs.Prelude.{◌≡◌, ℕ};

use std::marker::Model;

/// The 32 bits of a float, which contracts see as a number. Upstream: `wasmi_core::F32`.
#[derive(Clone, Copy)]
pub struct F32 {
    bits: u32,
}

impl Model for F32 {
    ghost Value = { ℕ };

    ghost view = { λ float. float.bits };

    ghost inverse = { λ bits. record { bits = bits } };
}

impl F32 {
    /// The float with these bits.
    pub fn from_bits(bits: u32) -> F32
        ensures { result ≡ bits }
    {
        F32 { bits }
    }

    /// The bits of the float.
    pub fn to_bits(self) -> u32
        ensures { result ≡ self }
    {
        self.bits
    }
}

/// The 64 bits of a float, which contracts see as a number. Upstream: `wasmi_core::F64`.
#[derive(Clone, Copy)]
pub struct F64 {
    bits: u64,
}

impl Model for F64 {
    ghost Value = { ℕ };

    ghost view = { λ float. float.bits };

    ghost inverse = { λ bits. record { bits = bits } };
}

impl F64 {
    /// The float with these bits.
    pub fn from_bits(bits: u64) -> F64
        ensures { result ≡ bits }
    {
        F64 { bits }
    }

    /// The bits of the float.
    pub fn to_bits(self) -> u64
        ensures { result ≡ self }
    {
        self.bits
    }
}
