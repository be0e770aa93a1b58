//! The integer types, as contracts see them: the trait that has the numbers of each.
ghost use Rattle.std.specs.Prelude.{ℤ, Bool};
ghost use Rattle.std.specs.Int.{Width, w8, w16, w32, w64, w128};
ghost use Rattle.wasmi_raw.specs.Number.{AreNumbers, NumberType};
ghost use Rattle.wasmi_raw.specs.NumberProofs.{signed_type, unsigned_type};

mod sealed {
    pub trait Sealed {
        /// The numbers of the type.
        ghost numbers: { NumberType Self };
    }

    impl Sealed for i8 {
        ghost numbers = { signed_type w8 };
    }

    impl Sealed for i16 {
        ghost numbers = { signed_type w16 };
    }

    impl Sealed for i32 {
        ghost numbers = { signed_type w32 };
    }

    impl Sealed for i64 {
        ghost numbers = { signed_type w64 };
    }

    impl Sealed for i128 {
        ghost numbers = { signed_type w128 };
    }

    impl Sealed for u8 {
        ghost numbers = { unsigned_type w8 };
    }

    impl Sealed for u16 {
        ghost numbers = { unsigned_type w16 };
    }

    impl Sealed for u32 {
        ghost numbers = { unsigned_type w32 };
    }

    impl Sealed for u64 {
        ghost numbers = { unsigned_type w64 };
    }

    impl Sealed for u128 {
        ghost numbers = { unsigned_type w128 };
    }
}

/// An integer type: its width, its sign, and the numbers that its values stand for.
///
/// The crate has no such trait. It has no function: contracts of conversions, loads, stores and
/// shifts name its members. The ten integer types from 8 to 128 bits have it, and no other can.
pub trait Number: sealed::Sealed {
    /// How many bits the type has.
    ghost width: { Width };

    /// Whether its numbers are signed.
    ghost is_signed: { Bool };

    /// The number of a value.
    ghost number: { Self → ℤ };

    /// The value of a number of the type.
    ghost of_number: { ℤ → Self };

    /// A value is that of its number, and a number of the type is that of its value.
    ghost laws: { AreNumbers is_signed width number of_number };
}

impl<T: sealed::Sealed> Number for T {
    ghost width = { T.numbers.width };

    ghost is_signed = { T.numbers.is_signed };

    ghost number = { T.numbers.number };

    ghost of_number = { T.numbers.of_number };

    ghost laws = { T.numbers.laws };
}
