//! Lanes at twice their width, and lanes read as signed ones, as `std::simd` vectors.
//! `ExtendedLane` takes those of half a vector and makes their products, `PairedLane` takes every
//! second one of a vector and makes their sums. LLVM takes plain lanes out one by one.
ghost use Rattle.std.specs.Prelude.{◌≡◌, ℕ, pos, ◌+◌, ◌*◌, ◌%◌, ◌^◌, ◌<◌, slice_index, slice_index_or};
ghost use Rattle.std.specs.Int.{cast_unsigned};
ghost use Rattle.wasmi_types.specs.Numbers.{w8, w16, w32, bits, signed};
ghost use Rattle.wasmi_lanes.specs.Vector.{lane, lane_count};
ghost use Rattle.wasmi_simd.specs.WideningProofs.{IsWidening, bytes_widened, u16x8_widened, u32x4_widened};

use std::simd::prelude::*;
use wasmi_lanes::{SimdLane, bytes_of};
use wasmi_raw::V128;

/// A lane that is extended to twice its width.
pub(super) trait ExtendedLane: SimdLane {
    /// The lane of twice the width.
    type Wide: SimdLane;

    /// The lanes of the lower half.
    fn low(v: V128) -> <Self::Wide as SimdLane>::Vector
        ensures lanes { (i : ℕ) → i < lane_count Self.Wide.width
            → Self.Wide.at result i ≡ lane Self.width v i };

    /// The lanes of the upper half.
    fn high(v: V128) -> <Self::Wide as SimdLane>::Vector
        ensures lanes { (i : ℕ) → i < lane_count Self.Wide.width
            → Self.Wide.at result i ≡ lane Self.width v (lane_count Self.Wide.width + i) };

    /// The lanes of the lower half, the sign copied.
    fn low_signed(v: V128) -> <Self::Wide as SimdLane>::Vector
        ensures lanes { (i : ℕ) → i < lane_count Self.Wide.width → Self.Wide.at result i
            ≡ cast_unsigned Self.Wide.width (signed Self.width (lane Self.width v i)) };

    /// The lanes of the upper half, the sign copied.
    fn high_signed(v: V128) -> <Self::Wide as SimdLane>::Vector
        ensures lanes { (i : ℕ) → i < lane_count Self.Wide.width → Self.Wide.at result i
            ≡ cast_unsigned Self.Wide.width
            (signed Self.width (lane Self.width v (lane_count Self.Wide.width + i))) };

    /// The products of wide lanes, modulo 2 to the power of their width.
    fn products(
        a: <Self::Wide as SimdLane>::Vector,
        b: <Self::Wide as SimdLane>::Vector,
    ) -> <Self::Wide as SimdLane>::Vector
        ensures lanes { (i : ℕ) → i < lane_count Self.Wide.width → Self.Wide.at result i
            ≡ Self.Wide.at a i * Self.Wide.at b i % 2 ^ bits Self.Wide.width };

    /// `Wide` has twice the width.
    ghost widens: { IsWidening Self.LaneInteger.width Self.Wide.LaneInteger.width
        (lane_count Self.Wide.LaneInteger.width) };
}

/// A lane of which neighbouring ones are put together at twice their width: a lane of twice the
/// width is two neighbours, and shifts take each out of it.
pub(super) trait PairedLane: ExtendedLane {
    /// The lanes with an even number.
    fn even(v: V128) -> <Self::Wide as SimdLane>::Vector
        ensures lanes { (i : ℕ) → i < lane_count Self.Wide.width
            → Self.Wide.at result i ≡ lane Self.width v (2 * i) };

    /// The lanes with an odd number.
    fn odd(v: V128) -> <Self::Wide as SimdLane>::Vector
        ensures lanes { (i : ℕ) → i < lane_count Self.Wide.width
            → Self.Wide.at result i ≡ lane Self.width v (2 * i + 1) };

    /// The lanes with an even number, the sign copied.
    fn even_signed(v: V128) -> <Self::Wide as SimdLane>::Vector
        ensures lanes { (i : ℕ) → i < lane_count Self.Wide.width → Self.Wide.at result i
            ≡ cast_unsigned Self.Wide.width (signed Self.width (lane Self.width v (2 * i))) };

    /// The lanes with an odd number, the sign copied.
    fn odd_signed(v: V128) -> <Self::Wide as SimdLane>::Vector
        ensures lanes { (i : ℕ) → i < lane_count Self.Wide.width → Self.Wide.at result i
            ≡ cast_unsigned Self.Wide.width (signed Self.width (lane Self.width v (2 * i + 1))) };

    /// The sums of wide lanes, modulo 2 to the power of their width.
    fn sums(
        a: <Self::Wide as SimdLane>::Vector,
        b: <Self::Wide as SimdLane>::Vector,
    ) -> <Self::Wide as SimdLane>::Vector
        ensures lanes { (i : ℕ) → i < lane_count Self.Wide.width → Self.Wide.at result i
            ≡ (Self.Wide.at a i + Self.Wide.at b i) % 2 ^ bits Self.Wide.width };
}

impl ExtendedLane for u8 {
    type Wide = u16;

    ghost widens = { bytes_widened };

    #[inline(always)]
    fn low(v: V128) -> u16x8 {
        bytes_of(v).extract::<0, 8>().cast::<u16>()
    }

    #[inline(always)]
    fn high(v: V128) -> u16x8 {
        bytes_of(v).extract::<8, 8>().cast::<u16>()
    }

    #[inline(always)]
    fn low_signed(v: V128) -> u16x8 {
        sign_copied(u8::low(v))
    }

    #[inline(always)]
    fn high_signed(v: V128) -> u16x8 {
        sign_copied(u8::high(v))
    }

    #[inline(always)]
    fn products(a: u16x8, b: u16x8) -> u16x8 {
        a * b
    }
}

impl PairedLane for u8 {
    #[inline(always)]
    fn even(v: V128) -> u16x8 {
        u16::lanes_of(v) & u16x8::splat(0xff)
    }

    #[inline(always)]
    fn odd(v: V128) -> u16x8 {
        u16::lanes_of(v) >> 8
    }

    #[inline(always)]
    fn even_signed(v: V128) -> u16x8 {
        u16x8::from_le_bytes(((i16x8_of(v) << 8) >> 8).to_le_bytes())
    }

    #[inline(always)]
    fn odd_signed(v: V128) -> u16x8 {
        u16x8::from_le_bytes((i16x8_of(v) >> 8).to_le_bytes())
    }

    #[inline(always)]
    fn sums(a: u16x8, b: u16x8) -> u16x8 {
        a + b
    }
}

impl ExtendedLane for u16 {
    type Wide = u32;

    ghost widens = { u16x8_widened };

    #[inline(always)]
    fn low(v: V128) -> u32x4 {
        u16::lanes_of(v).extract::<0, 4>().cast::<u32>()
    }

    #[inline(always)]
    fn high(v: V128) -> u32x4 {
        u16::lanes_of(v).extract::<4, 4>().cast::<u32>()
    }

    #[inline(always)]
    fn low_signed(v: V128) -> u32x4 {
        u32x4::from_le_bytes(i16x8_of(v).extract::<0, 4>().cast::<i32>().to_le_bytes())
    }

    #[inline(always)]
    fn high_signed(v: V128) -> u32x4 {
        u32x4::from_le_bytes(i16x8_of(v).extract::<4, 4>().cast::<i32>().to_le_bytes())
    }

    #[inline(always)]
    fn products(a: u32x4, b: u32x4) -> u32x4 {
        a * b
    }
}

impl PairedLane for u16 {
    #[inline(always)]
    fn even(v: V128) -> u32x4 {
        u32::lanes_of(v) & u32x4::splat(0xffff)
    }

    #[inline(always)]
    fn odd(v: V128) -> u32x4 {
        u32::lanes_of(v) >> 16
    }

    #[inline(always)]
    fn even_signed(v: V128) -> u32x4 {
        u32x4::from_le_bytes(((i32x4_of(v) << 16) >> 16).to_le_bytes())
    }

    #[inline(always)]
    fn odd_signed(v: V128) -> u32x4 {
        u32x4::from_le_bytes((i32x4_of(v) >> 16).to_le_bytes())
    }

    #[inline(always)]
    fn sums(a: u32x4, b: u32x4) -> u32x4 {
        a + b
    }
}

// Zeros come between the lanes of a half: of a cast LLVM takes the lanes out of their word.
impl ExtendedLane for u32 {
    type Wide = u64;

    ghost widens = { u32x4_widened };

    #[inline(always)]
    fn low(v: V128) -> u64x2 {
        let items = u32::lanes_of(v).shuffle(u32x4::splat(0), [0, 4, 1, 5]);
        u64x2::from_le_bytes(items.to_le_bytes())
    }

    #[inline(always)]
    fn high(v: V128) -> u64x2 {
        let items = u32::lanes_of(v).shuffle(u32x4::splat(0), [2, 4, 3, 5]);
        u64x2::from_le_bytes(items.to_le_bytes())
    }

    #[inline(always)]
    fn low_signed(v: V128) -> u64x2 {
        u64x2::from_le_bytes(i32x4_of(v).extract::<0, 2>().cast::<i64>().to_le_bytes())
    }

    #[inline(always)]
    fn high_signed(v: V128) -> u64x2 {
        u64x2::from_le_bytes(i32x4_of(v).extract::<2, 2>().cast::<i64>().to_le_bytes())
    }

    #[inline(always)]
    fn products(a: u64x2, b: u64x2) -> u64x2 {
        a * b
    }
}

// Numbers of 8 bits, the sign copied to 16: their highest bit is flipped, and taken off again.
#[tactic(auto, using(crate::proofs::HalfLemmas::sign_copied_at))]
#[inline(always)]
fn sign_copied(bytes: u16x8) -> u16x8
    ensures lanes { (i x : ℕ) → i < 8 → slice_index bytes i ≡ x → x < 2 ^ 8
        → slice_index result i ≡ cast_unsigned w16 (signed w8 x) }
{
    let tops = u16x8::splat(0x80);
    (bytes ^ tops) - tops
}

// The lanes of 16 bits, read signed.
#[inline(always)]
fn i16x8_of(v: V128) -> i16x8
    ensures lanes { (i : ℕ) → i < 8 → slice_index_or result i (pos 0) ≡ signed w16 (lane w16 v i) }
{
    i16x8::from_le_bytes(bytes_of(v))
}

// The lanes of 32 bits, read signed.
#[inline(always)]
fn i32x4_of(v: V128) -> i32x4
    ensures lanes { (i : ℕ) → i < 4 → slice_index_or result i (pos 0) ≡ signed w32 (lane w32 v i) }
{
    i32x4::from_le_bytes(bytes_of(v))
}
