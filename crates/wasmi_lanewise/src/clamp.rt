//! Numbers clamped to the unsigned range of a lane of half their width.
ghost use Rattle.std.specs.Prelude.{◌≡◌};
ghost use Rattle.wasmi_types.specs.Numbers.{w8, w16, clamp_unsigned};
ghost use Rattle.std.specs.Int.{cast_unsigned};

/// The item of a lane that holds the number, clamped to the unsigned range of 8 bits.
pub fn clamped_u8(x: i16) -> i8
    ensures { cast_unsigned w8 result ≡ clamp_unsigned w8 x }
{
    (x.clamp(0, 255) as u8).cast_signed()
}

/// The item of a lane that holds the number, clamped to the unsigned range of 16 bits.
pub fn clamped_u16(x: i32) -> i16
    ensures { cast_unsigned w16 result ≡ clamp_unsigned w16 x }
{
    (x.clamp(0, 65535) as u16).cast_signed()
}
