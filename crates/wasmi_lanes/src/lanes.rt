//! Vectors as lanes of one item, and the lane types; lanes made of narrower lanes, and of wider
//! ones, and numbers clamped to the range of a narrower lane.
ghost use Rattle.std.specs.Prelude.{◌≡◌, refl, ℕ, ◌+◌, ◌*◌, ◌^◌, ◌<◌, [], ◌∷◌, slice_index_or, if◌then◌else◌, ◌==◌, Bool};
ghost use Rattle.wasmi_types.specs.Numbers.{bits, w8, w16, clamp_signed};
ghost use Rattle.wasmi_lanes.specs.Vector.{lane, AreWholeLanes, ReducesTo};
ghost use Rattle.std.proofs.Common.{ap, ◌∙◌};

use crate::index::{
    CountsLanes, ImmLaneIdx, ImmLaneIdx2, ImmLaneIdx4, ImmLaneIdx8, ImmLaneIdx16, IntoLaneIdx,
    LaneIndex,
};
use crate::item::{LaneInteger, LaneItem};
use wasmi_raw::V128;

/// A vector as lanes of one item, lane 0 the lowest. Upstream: `simd::Lanes`.
pub trait Lanes: Copy {
    /// The integer of one lane.
    type Item: LaneInteger;

    /// The index of a lane.
    type LaneIdx: LaneIndex;

    /// The item of the lane at an index.
    ghost item: { Self → ℕ → Self.Item };

    /// The number of lanes.
    const LANES: usize;

    ghost LANES: { ℕ };

    /// The item whose bits are all ones.
    const ALL_ONES: Self::Item;

    /// The item whose bits are all zeros.
    const ALL_ZEROS: Self::Item;

    ghost ALL_ONES: { Self.Item };

    ghost ALL_ZEROS: { Self.Item };

    /// The lanes of a vector.
    fn from_v128(vector: V128) -> Self
        ensures lanes { (i : ℕ) → i < LANES
            → item result i ≡ Self.Item.read (lane Self.Item.width vector i) };

    /// The vector with these lanes.
    fn into_v128(self) -> V128
        ensures lanes { (i : ℕ) → i < LANES
            → item self i ≡ Self.Item.read (lane Self.Item.width result i) }
        ensures in_range { result < 2 ^ 128 };

    /// The same item in all lanes.
    fn splat(value: Self::Item) -> Self
        ensures lanes { (i : ℕ) → i < LANES → item result i ≡ value };

    /// The item of one lane.
    fn extract_lane(self, lane: Self::LaneIdx) -> Self::Item
        ensures item { result ≡ item self (Self.LaneIdx.number lane) }
        ensures inside { Self.LaneIdx.number lane < LANES };

    /// The lanes with `value` in one of them.
    fn replace_lane(self, lane: Self::LaneIdx, value: Self::Item) -> Self
        ensures lanes { (i : ℕ) → i < LANES
            → item result i ≡ (if i == Self.LaneIdx.number lane then value else item self i) };

    /// What `f` gives for each lane.
    fn lanewise_unary<F: Fn(Self::Item) -> Self::Item>(self, f: F) -> Self
        requires callable { F.IsAlwaysCallable f }
        ensures lanes { (i : ℕ) → i < LANES → F.post f (item self i) (item result i) };

    /// What `f` gives for the lanes of two vectors at each index.
    fn lanewise_binary<F: Fn(Self::Item, Self::Item) -> Self::Item>(self, other: Self, f: F) -> Self
        requires callable { F.IsAlwaysCallable f }
        ensures lanes { (i : ℕ) → i < LANES
            → F.post f (item self i) (item other i) (item result i) };

    /// What `f` gives for the lanes of three vectors at each index.
    fn lanewise_ternary<F: Fn(Self::Item, Self::Item, Self::Item) -> Self::Item>(
        self,
        b: Self,
        c: Self,
        f: F,
    ) -> Self
        requires callable { F.IsAlwaysCallable f }
        ensures lanes { (i : ℕ) → i < LANES
            → F.post f (item self i) (item b i) (item c i) (item result i) };

    /// `ALL_ONES` in the lanes where `f` holds, `ALL_ZEROS` in the others.
    fn lanewise_comparison<F: Fn(Self::Item, Self::Item) -> bool>(self, other: Self, f: F) -> Self
        requires callable { F.IsAlwaysCallable f }
        ensures lanes { (i : ℕ) → i < LANES → (holds : Bool) × F.post f (item self i)
            (item other i) holds × (item result i ≡ (if holds then ALL_ONES else ALL_ZEROS)) };

    /// Turns `acc` into `f(i, lane i, acc)` for each lane index from 0 upwards.
    fn lanewise_reduce<T, F: Fn(u8, Self::Item, T) -> T>(self, acc: T, f: F) -> T
        requires callable { F.IsAlwaysCallable f }
        ensures steps { ReducesTo
            (λ i before after. F.post f i (item self i) before after) LANES acc result };

    /// The lanes make 128 bits, there are as many indices, and all ones and zeros are the item's.
    ghost laws: { AreWholeLanes Self.Item.width LANES Self.LaneIdx.COUNT ALL_ONES ALL_ZEROS
        Self.Item.ALL_ONES Self.Item.ALL_ZEROS };
}

/// The `N` lanes of a vector, which each lane type names for its item.
#[derive(Clone, Copy)]
pub struct LaneArray<T, const N: usize> {
    pub(crate) items: [T; N],
}

// The item of a comparison of lanes: all ones where the test holds, else all zeros.
#[inline(always)]
fn ones_if<T: LaneInteger>(holds: bool) -> T
    ensures { result ≡ (if holds then T.ALL_ONES else T.ALL_ZEROS) }
{
    if holds { T::ALL_ONES } else { T::ALL_ZEROS }
}

impl<T: LaneItem<N>, const N: usize> Lanes for LaneArray<T, N>
where
    ImmLaneIdx<N>: CountsLanes<N>,
{
    type Item = T;

    type LaneIdx = ImmLaneIdx<N>;

    ghost item = { λ lanes i. slice_index_or lanes.items i T.ALL_ZEROS };

    ghost LANES = { N };

    ghost ALL_ONES = { T.ALL_ONES };

    ghost ALL_ZEROS = { T.ALL_ZEROS };

    ghost laws = { record { filled = T.filled; counted = refl; ones_eq = refl; zeros_eq = refl } };

    const LANES: usize = N;

    const ALL_ONES: T = T::ALL_ONES;

    const ALL_ZEROS: T = T::ALL_ZEROS;

    #[inline(always)]
    fn from_v128(vector: V128) -> Self {
        let mut items = [T::ALL_ZEROS; N];
        T::read_into(vector, &mut items);
        LaneArray { items }
    }

    #[inline(always)]
    fn into_v128(self) -> V128 {
        T::write_from(&self.items)
    }

    #[inline(always)]
    fn splat(value: T) -> Self {
        LaneArray { items: [value; N] }
    }

    #[inline(always)]
    fn extract_lane(self, lane: ImmLaneIdx<N>) -> T {
        self.items[usize::from(u8::from(lane))]
    }

    #[inline(always)]
    fn replace_lane(self, lane: ImmLaneIdx<N>, value: T) -> Self {
        let mut items = self.items;
        items[usize::from(u8::from(lane))] = value;
        LaneArray { items }
    }

    #[inline(always)]
    fn lanewise_unary<F: Fn(T) -> T>(self, f: F) -> Self {
        let mut items = self.items;
        for i in 0..N {
            items[i] = f(self.items[i]);
        }
        LaneArray { items }
    }

    #[inline(always)]
    fn lanewise_binary<F: Fn(T, T) -> T>(self, other: Self, f: F) -> Self {
        let mut items = self.items;
        for i in 0..N {
            items[i] = f(self.items[i], other.items[i]);
        }
        LaneArray { items }
    }

    #[inline(always)]
    fn lanewise_ternary<F: Fn(T, T, T) -> T>(self, b: Self, c: Self, f: F) -> Self {
        let mut items = self.items;
        for i in 0..N {
            items[i] = f(self.items[i], b.items[i], c.items[i]);
        }
        LaneArray { items }
    }

    #[inline(always)]
    fn lanewise_comparison<F: Fn(T, T) -> bool>(self, other: Self, f: F) -> Self {
        let mut items = self.items;
        for i in 0..N {
            items[i] = ones_if::<T>(f(self.items[i], other.items[i]));
        }
        LaneArray { items }
    }

    #[inline(always)]
    fn lanewise_reduce<A, F: Fn(u8, T, A) -> A>(self, acc: A, f: F) -> A {
        let mut acc = acc;
        for i in 0..N {
            acc = f(i as u8, self.items[i], acc);
        }
        acc
    }
}

/// Two signed lanes of 64 bits.
pub type I64x2 = LaneArray<i64, 2>;
/// Two unsigned lanes of 64 bits.
pub type U64x2 = LaneArray<u64, 2>;
/// Four signed lanes of 32 bits.
pub type I32x4 = LaneArray<i32, 4>;
/// Four unsigned lanes of 32 bits.
pub type U32x4 = LaneArray<u32, 4>;
/// Eight signed lanes of 16 bits.
pub type I16x8 = LaneArray<i16, 8>;
/// Eight unsigned lanes of 16 bits.
pub type U16x8 = LaneArray<u16, 8>;
/// Sixteen signed lanes of 8 bits.
pub type I8x16 = LaneArray<i8, 16>;
/// Sixteen unsigned lanes of 8 bits.
pub type U8x16 = LaneArray<u8, 16>;

/// An integer that is the item of lanes. Upstream: `simd::IntoLanes`.
pub trait IntoLanes: Sized {
    /// The lanes of a vector that are such integers.
    type Lanes: Lanes<Item = Self, LaneIdx = Self::LaneIdx>;

    /// The index of one of these lanes.
    type LaneIdx: LaneIndex;
}

// The index of a lane of an integer is that of its lanes.
impl<T: LaneInteger + IntoLanes> IntoLaneIdx for T {
    type LaneIdx = <T as IntoLanes>::LaneIdx;

    ghost count = { ap (λ n. n * bits T.width) T.Lanes.laws.counted ∙ T.Lanes.laws.filled };
}

impl IntoLanes for i64 {
    type Lanes = I64x2;

    type LaneIdx = ImmLaneIdx2;
}

impl IntoLanes for u64 {
    type Lanes = U64x2;

    type LaneIdx = ImmLaneIdx2;
}

impl IntoLanes for i32 {
    type Lanes = I32x4;

    type LaneIdx = ImmLaneIdx4;
}

impl IntoLanes for u32 {
    type Lanes = U32x4;

    type LaneIdx = ImmLaneIdx4;
}

impl IntoLanes for i16 {
    type Lanes = I16x8;

    type LaneIdx = ImmLaneIdx8;
}

impl IntoLanes for u16 {
    type Lanes = U16x8;

    type LaneIdx = ImmLaneIdx8;
}

impl IntoLanes for i8 {
    type Lanes = I8x16;

    type LaneIdx = ImmLaneIdx16;
}

impl IntoLanes for u8 {
    type Lanes = U8x16;

    type LaneIdx = ImmLaneIdx16;
}

/// An integer of which twice as many fill a vector as of `U`.
pub trait Narrower<U: LaneItem<M>, const N: usize, const M: usize>: LaneItem<N> {
    /// There are twice as many as of `U`.
    ghost twice: { N ≡ 2 * M };
}

impl Narrower<u16, 16, 8> for u8 {
    ghost twice = { refl };
}

impl Narrower<i16, 16, 8> for i8 {
    ghost twice = { refl };
}

impl Narrower<u32, 8, 4> for u16 {
    ghost twice = { refl };
}

impl Narrower<i32, 8, 4> for i16 {
    ghost twice = { refl };
}

impl Narrower<u64, 4, 2> for u32 {
    ghost twice = { refl };
}

impl Narrower<i64, 4, 2> for i32 {
    ghost twice = { refl };
}

/// Lanes that are made of wider ones, of two vectors. Upstream: `simd::FromWide`.
pub trait FromWide<W: Lanes>: Lanes {
    /// Lanes made of each lane of `low`, then of each lane of `high`.
    fn from_low_high<F: Fn(W::Item) -> Self::Item>(low: W, high: W, f: F) -> Self
        requires callable { F.IsAlwaysCallable f }
        ensures low { (i : ℕ) → i < W.LANES → F.post f (W.item low i) (Self.item result i) }
        ensures high { (i : ℕ) → i < W.LANES
            → F.post f (W.item high i) (Self.item result (W.LANES + i)) };

    /// There are twice as many lanes as wide ones.
    ghost twice: { Self.LANES ≡ 2 * W.LANES };
}

impl<T: Narrower<U, N, M>, U: LaneItem<M>, const N: usize, const M: usize> FromWide<LaneArray<U, M>>
    for LaneArray<T, N>
where
    ImmLaneIdx<N>: CountsLanes<N>,
    ImmLaneIdx<M>: CountsLanes<M>,
{
    ghost twice = { T.twice };

    #[inline(always)]
    fn from_low_high<F: Fn(U) -> T>(low: LaneArray<U, M>, high: LaneArray<U, M>, f: F) -> Self {
        let mut items = [T::ALL_ZEROS; N];
        for i in 0..M {
            items[i] = f(low.items[i]);
            items[M + i] = f(high.items[i]);
        }
        LaneArray { items }
    }
}

/// Lanes made of narrower ones, of which there are twice as many. Upstream: `simd::FromNarrow`.
pub trait FromNarrow<S: FromWide<Self>>: Lanes {
    /// Lane i is made of the narrow lanes 2i and 2i + 1.
    fn pairwise_unary<F: Fn(S::Item, S::Item) -> Self::Item>(narrow: S, f: F) -> Self
        requires callable { F.IsAlwaysCallable f }
        ensures lanes { (i : ℕ) → i < Self.LANES
            → F.post f (S.item narrow (2 * i)) (S.item narrow (2 * i + 1)) (Self.item result i) };

    /// Lane i is made of the narrow lanes 2i and 2i + 1 of both operands.
    fn pairwise_binary<F: Fn([S::Item; 2], [S::Item; 2]) -> Self::Item>(a: S, b: S, f: F) -> Self
        requires callable { F.IsAlwaysCallable f }
        ensures lanes { (i : ℕ) → i < Self.LANES
            → F.post f (S.item a (2 * i) ∷ S.item a (2 * i + 1) ∷ [])
            (S.item b (2 * i) ∷ S.item b (2 * i + 1) ∷ []) (Self.item result i) };

    /// Lane i is made of the narrow lane i.
    fn low_unary<F: Fn(S::Item) -> Self::Item>(narrow: S, f: F) -> Self
        requires callable { F.IsAlwaysCallable f }
        ensures lanes { (i : ℕ) → i < Self.LANES
            → F.post f (S.item narrow i) (Self.item result i) };

    /// Lane i is made of the narrow lane i of the upper half.
    fn high_unary<F: Fn(S::Item) -> Self::Item>(narrow: S, f: F) -> Self
        requires callable { F.IsAlwaysCallable f }
        ensures lanes { (i : ℕ) → i < Self.LANES
            → F.post f (S.item narrow (Self.LANES + i)) (Self.item result i) };

    /// Lane i is made of the narrow lanes i of both operands.
    fn low_binary<F: Fn(S::Item, S::Item) -> Self::Item>(a: S, b: S, f: F) -> Self
        requires callable { F.IsAlwaysCallable f }
        ensures lanes { (i : ℕ) → i < Self.LANES
            → F.post f (S.item a i) (S.item b i) (Self.item result i) };

    /// Lane i is made of the narrow lanes i of the upper halves of both operands.
    fn high_binary<F: Fn(S::Item, S::Item) -> Self::Item>(a: S, b: S, f: F) -> Self
        requires callable { F.IsAlwaysCallable f }
        ensures lanes { (i : ℕ) → i < Self.LANES → F.post f
            (S.item a (Self.LANES + i)) (S.item b (Self.LANES + i)) (Self.item result i) };
}

impl<T: Narrower<U, N, M>, U: LaneItem<M>, const N: usize, const M: usize> FromNarrow<
    LaneArray<T, N>,
> for LaneArray<U, M>
where
    ImmLaneIdx<N>: CountsLanes<N>,
    ImmLaneIdx<M>: CountsLanes<M>,
{
    #[inline(always)]
    fn pairwise_unary<F: Fn(T, T) -> U>(narrow: LaneArray<T, N>, f: F) -> Self {
        let mut items = [U::ALL_ZEROS; M];
        for i in 0..M {
            items[i] = f(narrow.items[2 * i], narrow.items[2 * i + 1]);
        }
        LaneArray { items }
    }

    #[inline(always)]
    fn pairwise_binary<F: Fn([T; 2], [T; 2]) -> U>(
        a: LaneArray<T, N>,
        b: LaneArray<T, N>,
        f: F,
    ) -> Self {
        let mut items = [U::ALL_ZEROS; M];
        for i in 0..M {
            items[i] = f(
                [a.items[2 * i], a.items[2 * i + 1]],
                [b.items[2 * i], b.items[2 * i + 1]],
            );
        }
        LaneArray { items }
    }

    #[inline(always)]
    fn low_unary<F: Fn(T) -> U>(narrow: LaneArray<T, N>, f: F) -> Self {
        let mut items = [U::ALL_ZEROS; M];
        for i in 0..M {
            items[i] = f(narrow.items[i]);
        }
        LaneArray { items }
    }

    #[inline(always)]
    fn high_unary<F: Fn(T) -> U>(narrow: LaneArray<T, N>, f: F) -> Self {
        let mut items = [U::ALL_ZEROS; M];
        for i in 0..M {
            items[i] = f(narrow.items[M + i]);
        }
        LaneArray { items }
    }

    #[inline(always)]
    fn low_binary<F: Fn(T, T) -> U>(a: LaneArray<T, N>, b: LaneArray<T, N>, f: F) -> Self {
        let mut items = [U::ALL_ZEROS; M];
        for i in 0..M {
            items[i] = f(a.items[i], b.items[i]);
        }
        LaneArray { items }
    }

    #[inline(always)]
    fn high_binary<F: Fn(T, T) -> U>(a: LaneArray<T, N>, b: LaneArray<T, N>, f: F) -> Self {
        let mut items = [U::ALL_ZEROS; M];
        for i in 0..M {
            items[i] = f(a.items[M + i], b.items[M + i]);
        }
        LaneArray { items }
    }
}

/// The number clamped to the signed range of 8 bits.
///
/// Of a clamped sum or difference LLVM makes a saturating one, which it doesn't of `saturating_add`
/// and `saturating_sub`.
pub fn clamped_i8(number: i16) -> i8
    ensures { result ≡ clamp_signed w8 number }
{
    number.clamp(-128, 127) as i8
}

/// The number clamped to the signed range of 16 bits, as `clamped_i8` does at 8.
pub fn clamped_i16(number: i32) -> i16
    ensures { result ≡ clamp_signed w16 number }
{
    number.clamp(-32768, 32767) as i16
}
