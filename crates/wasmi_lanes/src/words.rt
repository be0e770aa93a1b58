//! Sums, differences and inequality of the lanes of a word, without taking the lanes out, and the
//! integers as which lanes of a word are read.
//!
//! `tops` has the highest bit of each lane, and no other; the widths may be unequal. No carry or
//! borrow leaves a lane: at each lane's highest bit the operands are made to leave room. A sum or a
//! difference needs no top at the end of the word, where a carry or borrow is dropped.
ghost use Rattle.std.specs.Prelude.{◌≡◌, ℕ, ◌+◌, ◌-◌, ◌%◌, ◌^◌, ◌==◌, if◌then◌else◌, bit_and, refl};
ghost use Rattle.wasmi_lanes.specs.Words.{field, IsLane, IsLastLane, IsWordLane};

use crate::item::LaneInteger;

/// The sums of the lanes of `a` and `b`, each modulo 2 to the power of its width.
#[tactic(auto, using(crate::proofs::WordLemmas::add_lane, crate::proofs::WordLemmas::add_last))]
pub fn word_add(a: u64, b: u64, tops: u64) -> u64
    ensures lanes { (start width : ℕ) → IsLane tops start width
        → field start width result ≡ (field start width a + field start width b) % 2 ^ width }
    ensures last { (start width : ℕ) → IsLastLane tops start width
        → field start width result ≡ (field start width a + field start width b) % 2 ^ width }
{
    let rest = !tops;
    (a & rest).wrapping_add(b & rest) ^ ((a ^ b) & tops)
}

/// The differences of the lanes of `a` and `b`, each modulo 2 to the power of its width.
#[tactic(auto, using(crate::proofs::WordLemmas::sub_lane, crate::proofs::WordLemmas::sub_last))]
pub fn word_sub(a: u64, b: u64, tops: u64) -> u64
    ensures lanes { (start width : ℕ) → IsLane tops start width → field start width result
        ≡ (field start width a + (2 ^ width - field start width b)) % 2 ^ width }
    ensures last { (start width : ℕ) → IsLastLane tops start width → field start width result
        ≡ (field start width a + (2 ^ width - field start width b)) % 2 ^ width }
{
    (a | tops).wrapping_sub(b & !tops) ^ ((a ^ !b) & tops)
}

/// The highest bits of the lanes in which `a` and `b` differ.
#[tactic(auto, using(crate::proofs::WordLemmas::differ))]
pub fn word_differ(a: u64, b: u64, tops: u64) -> u64
    ensures lanes { (start width : ℕ) → IsLane tops start width → field start width result
        ≡ (if field start width a == field start width b then 0 else 2 ^ (width - 1)) }
    ensures tops_alone { bit_and result tops ≡ result }
{
    let rest = !tops;
    let different = a ^ b;
    ((different & rest).wrapping_add(rest) | different) & tops
}

/// An unsigned integer as which the lanes of a word are read, of which a word has a whole number.
pub trait WordLane: LaneInteger {
    /// The width of a lane.
    const BITS: u32;

    ghost BITS: { ℕ };

    /// The highest bit of each lane of a word.
    const TOPS: u64;

    ghost TOPS: { ℕ };

    /// The lowest bit of each lane of a word.
    const ONES: u64;

    ghost ONES: { ℕ };

    /// These are the numbers of the lanes of the width.
    ghost laws: { IsWordLane Self.width BITS TOPS ONES };
}

impl WordLane for u8 {
    const BITS: u32 = 8;

    ghost BITS = { 8 };

    const TOPS: u64 = 0x8080_8080_8080_8080;

    ghost TOPS = { 0x8080_8080_8080_8080 };

    const ONES: u64 = 0x0101_0101_0101_0101;

    ghost ONES = { 0x0101_0101_0101_0101 };

    ghost laws = { record { wide = refl; whole = refl; highest = refl; lowest = refl } };
}

impl WordLane for u16 {
    const BITS: u32 = 16;

    ghost BITS = { 16 };

    const TOPS: u64 = 0x8000_8000_8000_8000;

    ghost TOPS = { 0x8000_8000_8000_8000 };

    const ONES: u64 = 0x0001_0001_0001_0001;

    ghost ONES = { 0x0001_0001_0001_0001 };

    ghost laws = { record { wide = refl; whole = refl; highest = refl; lowest = refl } };
}

impl WordLane for u32 {
    const BITS: u32 = 32;

    ghost BITS = { 32 };

    const TOPS: u64 = 0x8000_0000_8000_0000;

    ghost TOPS = { 0x8000_0000_8000_0000 };

    const ONES: u64 = 0x0000_0001_0000_0001;

    ghost ONES = { 0x0000_0001_0000_0001 };

    ghost laws = { record { wide = refl; whole = refl; highest = refl; lowest = refl } };
}

impl WordLane for u64 {
    const BITS: u32 = 64;

    ghost BITS = { 64 };

    const TOPS: u64 = 0x8000_0000_0000_0000;

    ghost TOPS = { 0x8000_0000_0000_0000 };

    const ONES: u64 = 1;

    ghost ONES = { 1 };

    ghost laws = { record { wide = refl; whole = refl; highest = refl; lowest = refl } };
}
