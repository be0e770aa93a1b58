//! Laws on the lanes of vectors and of words.
ghost use Rattle.std.specs.Prelude.{◌≡◌, ℕ, ◌+◌, ◌-◌, ◌/◌, ◌%◌, ◌^◌, ◌<◌, ◌==◌, Bool, if◌then◌else◌, List, sum};
ghost use Rattle.wasmi_types.specs.Numbers.{Width, bits};
ghost use Rattle.wasmi_lanes.specs.Vector.{lane, from_lanes, unary_of_lanes, binary_of_lanes, comparison_of_lanes, splat_of, with_lane};
ghost use Rattle.wasmi_lanes.specs.Words.{field, AreLanes, word_of_lanes};

use crate::lanes::Lanes;
use crate::words::{word_add, word_differ, word_sub};

/// The lanes of the vector of some lanes are these lanes.
pub fn lanes_there_and_back<L: Lanes>(lanes: L) -> L
    ensures same { (i : ℕ) → i < L.LANES → L.item result i ≡ L.item lanes i }
{
    L::from_v128(lanes.into_v128())
}

/// Lane i of a vector made of lanes is the number of lane i, wrapped to the width of the lanes.
#[tactic(auto, using(crate::proofs::VectorLemmas::made))]
pub fn lanes_of_made_vector()
    ensures made { (w : Width) (f : ℕ → ℕ) (i : ℕ) → i < 128 / bits w
        → lane w (from_lanes w f) i ≡ f i % 2 ^ bits w }
    ensures splat { (w : Width) (n i : ℕ) → i < 128 / bits w → n < 2 ^ bits w
        → lane w (splat_of w n) i ≡ n }
    ensures with_lane { (w : Width) (v k n i : ℕ) → i < 128 / bits w → n < 2 ^ bits w
        → lane w (with_lane w v k n) i ≡ (if i == k then n else lane w v i) }
{}

/// Lane i of a vector that a row of lanes names is the row of the operands' lanes i, wrapped to the
/// width of the lanes; `read` is how the operands' lanes are read.
pub fn lanes_of_rows<L: Lanes>()
    ensures unary { (read : ℕ → L.Item) (row : L.Item → ℕ) (a i : ℕ) → i < L.LANES
        → lane L.Item.width (unary_of_lanes L.Item.width read row a) i
        ≡ row (read (lane L.Item.width a i)) % 2 ^ bits L.Item.width }
    ensures binary { (read : ℕ → L.Item) (row : L.Item → L.Item → ℕ) (a b i : ℕ)
        → i < L.LANES → lane L.Item.width (binary_of_lanes L.Item.width read row a b) i ≡ row
        (read (lane L.Item.width a i)) (read (lane L.Item.width b i)) % 2 ^ bits L.Item.width }
    ensures comparison { (read : ℕ → L.Item) (test : L.Item → L.Item → Bool) (a b i : ℕ)
        → i < L.LANES → lane L.Item.width (comparison_of_lanes L.Item.width read test a b) i
        ≡ (if test (read (lane L.Item.width a i))
        (read (lane L.Item.width b i)) then 2 ^ bits L.Item.width - 1 else 0) }
{}

/// A word is made of its lanes, whatever widths it is divided into.
pub fn word_is_made_of_lanes(word: u64)
    ensures { (widths : List ℕ) → sum widths ≡ 64
        → word ≡ word_of_lanes (λ start width. field start width word) 0 widths }
{}

/// The sums of the lanes of two words are the word of `word_add`.
pub fn sums_of_lanes(a: u64, b: u64, tops: u64) -> u64
    ensures { (widths : List ℕ) → AreLanes tops 0 widths → result ≡ word_of_lanes
        (λ start width. (field start width a + field start width b) % 2 ^ width) 0 widths }
{
    word_add(a, b, tops)
}

/// The differences of the lanes of two words are the word of `word_sub`.
pub fn differences_of_lanes(a: u64, b: u64, tops: u64) -> u64
    ensures { (widths : List ℕ) → AreLanes tops 0 widths → result ≡ word_of_lanes (λ start width.
        (field start width a + (2 ^ width - field start width b)) % 2 ^ width) 0 widths }
{
    word_sub(a, b, tops)
}

/// The highest bits of the lanes in which two words differ are the word of `word_differ`.
pub fn tops_of_different_lanes(a: u64, b: u64, tops: u64) -> u64
    ensures { (widths : List ℕ) → AreLanes tops 0 widths → result ≡ word_of_lanes (λ start width.
        if field start width a == field start width b then 0 else 2 ^ (width - 1)) 0 widths }
{
    word_differ(a, b, tops)
}
