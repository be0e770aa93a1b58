//! Raw values, and the traits that say what it means to read and write one.
ghost use Rattle.std.specs.Prelude.{◌≡◌};
ghost use Rattle.wasmi_raw.specs.RawVal.{raw_of};

/// A raw value: two words of 64 bits, without a type.
///
/// A value of up to 64 bits stands in `lo`, and a vector in both words. The order is that of `lo`,
/// then of `hi`. C has it as a struct of the two. Upstream: `wasmi_core::RawVal`.
#[repr(C)]
#[derive(Clone, Copy, Debug, Default, PartialEq, Eq, PartialOrd, Ord)]
pub struct RawVal {
    /// Bits 0 to 63.
    pub lo: u64,
    /// Bits 64 to 127.
    pub hi: u64,
}

impl RawVal {
    /// The raw value with `lo` as its low word, and 0 as its high word.
    pub fn from_bits64(lo: u64) -> RawVal
        ensures { result ≡ raw_of lo }
    {
        RawVal { lo, hi: 0 }
    }

    /// The low word. The high word is left out.
    pub fn to_bits64(self) -> u64
        ensures { result ≡ self.lo }
    {
        self.lo
    }
}

/// What can be read as a `T`.
///
/// Of a raw value, an integer is the low word cut to the width of the integer, and a `bool` is
/// whether the low word is not 0. A vector is both words. Upstream: `wasmi_core::ReadAs`.
pub trait ReadAs<T> {
    /// The `T` that `self` is read as.
    ghost read: { Self → T };

    /// Reads `self` as a `T`.
    fn read_as(&self) -> T
        ensures { result ≡ read self.now };
}

/// A type whose values can be written, and what is read after that.
///
/// The crate has no such trait. There too a `NonZero` can be written, and its integer is read.
pub trait ReadBack {
    /// The type that is read after a `Self` was written: a `NonZero`'s integer type, else `Self`.
    type Read;

    /// The value that is read after the `Self` was written.
    ghost read_back: { Self → Self.Read };
}

/// What a `T` can be written to, and read back from.
///
/// An integer or a `bool` sets the low word of a raw value and keeps the high word. The low word is
/// then the integer's unsigned image at its own width, so `-1i32` gives 4294967295. A vector or a
/// raw value sets both words. Upstream: `wasmi_core::WriteAs`.
pub trait WriteAs<T: ReadBack>: ReadAs<T::Read> {
    /// What `self` becomes when the `T` is written to it.
    ghost written: { Self → T → Self };

    /// Writes `value` to `self`.
    fn write_as(&mut self, value: T)
        ensures written { self.new ≡ written self.old value }
        ensures read_back { Self.read self.new ≡ T.read_back value };
}

/// A type whose values stand in the low word of a raw value. Only this crate's `From` names it.
pub trait OneWord: ReadBack {}
