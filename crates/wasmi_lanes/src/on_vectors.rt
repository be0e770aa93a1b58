//! Work on whole vectors lane by lane: each gives the vector of whatever row its closure computes.
ghost use Rattle.std.specs.Prelude.{◌≡◌, ℕ, ◌<◌};
ghost use Rattle.wasmi_lanes.specs.Vector.{lane, unary_of_lanes, binary_of_lanes, splat_of, ComputesLane, ComputesLaneOfTwo};

use crate::lanes::Lanes;
use wasmi_raw::V128;

/// Applies `f` to the lanes of a vector.
#[inline(always)]
pub fn unary<L: Lanes, F: Fn(L::Item) -> L::Item>(a: V128, f: F) -> V128
    requires callable { F.IsAlwaysCallable f }
    ensures each { (i : ℕ) → i < L.LANES → F.post f
        (L.Item.read (lane L.Item.width a i)) (L.Item.read (lane L.Item.width result i)) }
    ensures lanes { (row : L.Item → ℕ) → ComputesLane L.Item.Fits L.Item.image
        (λ x z. F.post f x z) row → result ≡ unary_of_lanes L.Item.width L.Item.read row a }
{
    L::from_v128(a).lanewise_unary(f).into_v128()
}

/// Applies `f` to the lanes of two vectors.
#[inline(always)]
pub fn binary<L: Lanes, F: Fn(L::Item, L::Item) -> L::Item>(a: V128, b: V128, f: F) -> V128
    requires callable { F.IsAlwaysCallable f }
    ensures each { (i : ℕ) → i < L.LANES → F.post f (L.Item.read (lane L.Item.width a i))
        (L.Item.read (lane L.Item.width b i)) (L.Item.read (lane L.Item.width result i)) }
    ensures lanes { (row : L.Item → L.Item → ℕ) → ComputesLaneOfTwo L.Item.Fits L.Item.image
        (λ x y z. F.post f x y z) row → result ≡ binary_of_lanes L.Item.width L.Item.read row a b }
{
    L::from_v128(a)
        .lanewise_binary(L::from_v128(b), f)
        .into_v128()
}

/// The vector with `value` in each lane.
#[inline(always)]
pub fn splat<L: Lanes>(value: L::Item) -> V128
    ensures lanes { (number : ℕ) → (L.Item.Fits value → L.Item.image value ≡ number)
        → result ≡ splat_of L.Item.width number }
    ensures image { result ≡ splat_of L.Item.width (L.Item.image value) }
{
    L::splat(value).into_v128()
}
