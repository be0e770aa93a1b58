//! Laws on lanes that are made of lanes of another width and on wrapped numbers, on tests of lanes
//! and on the bits that they give.
#![tactic(auto, using(crate::proofs::WideningLemmas::laws))]

ghost use Rattle.std.specs.Prelude.{◌≡◌, ◌↔◌, ℕ, ℤ, FitsSigned, ◌+◌, ◌*◌, ◌%◌, ◌^◌, ◌<◌, ◌≤◌, Bool, IsTrue, if◌then◌else◌};
ghost use Rattle.std.specs.Int.{bit_at};
ghost use Rattle.wasmi_types.specs.Numbers.{Width, bits, signed, wrap};
ghost use Rattle.wasmi_lanes.specs.Vector.{lane, lane_count};
ghost use Rattle.wasmi_simd.specs.WideningTable.{half_unary, half_binary, pairwise_unary, pairwise_binary, from_low_high, holds_below, first_bits, every_lane, lane_bits};
ghost use Rattle.wasmi_simd.specs.WideningTable as vector;

/// Lane i of a vector that is made of half of the narrow lanes is the row of the narrow lanes
/// `first + i`, wrapped to the wide width. `A` is the integer as which a narrow lane is read.
pub fn lanes_of_halves<A>()
    ensures unary { (narrow wide : Width) (first : ℕ) (read : ℕ → A) (row : A → ℕ) (v i : ℕ)
        → i < lane_count wide → lane wide (half_unary narrow wide first read row v) i
        ≡ row (read (lane narrow v (first + i))) % 2 ^ bits wide }
    ensures binary { (narrow wide : Width) (first : ℕ) (read : ℕ → A) (row : A → A → ℕ) (a b i : ℕ)
        → i < lane_count wide → lane wide (half_binary narrow wide first read row a b) i
        ≡ row (read (lane narrow a (first + i)))
        (read (lane narrow b (first + i))) % 2 ^ bits wide }
{}

/// Lane i of half of a vector, extended, is read as the narrow lane is: the lanes of the lower half
/// keep their index, and those of the upper half are counted on.
pub fn extended_lanes()
    ensures low_s { (narrow wide : Width) (v i : ℕ) → bits narrow ≤ bits wide → i < lane_count wide
        → signed wide (lane wide (vector.extend_low_s narrow wide v) i)
        ≡ signed narrow (lane narrow v i) }
    ensures low_u { (narrow wide : Width) (v i : ℕ) → bits narrow ≤ bits wide → i < lane_count wide
        → lane wide (vector.extend_low_u narrow wide v) i ≡ lane narrow v i }
    ensures high_s { (narrow wide : Width) (v i : ℕ) → bits narrow ≤ bits wide → i < lane_count wide
        → signed wide (lane wide (vector.extend_high_s narrow wide v) i)
        ≡ signed narrow (lane narrow v (lane_count wide + i)) }
    ensures high_u { (narrow wide : Width) (v i : ℕ) → bits narrow ≤ bits wide → i < lane_count wide
        → lane wide (vector.extend_high_u narrow wide v) i ≡ lane narrow v (lane_count wide + i) }
{}

/// A number wrapped to a width is below 2 to its power; one in the signed range is read as itself.
pub fn wrapped_numbers()
    ensures below { (w : Width) (z : ℤ) → wrap w z < 2 ^ bits w }
    ensures signed { (w : Width) (z : ℤ) → FitsSigned w z → signed w (wrap w z) ≡ z }
{}

/// Lane i of a vector that is made of neighbouring narrow lanes is the row of the narrow lanes 2i
/// and 2i + 1, wrapped to the wide width. `A` is the integer as which a narrow lane is read.
pub fn pairwise_lanes<A>()
    ensures unary { (narrow wide : Width) (read : ℕ → A) (row : A → A → ℕ) (v i : ℕ)
        → i < lane_count wide → lane wide (pairwise_unary narrow wide read row v) i
        ≡ row (read (lane narrow v (2 * i))) (read (lane narrow v (2 * i + 1))) % 2 ^ bits wide }
    ensures binary { (narrow wide : Width) (read : ℕ → A) (row : A → A → A → A → ℕ) (a b i : ℕ)
        → i < lane_count wide → lane wide (pairwise_binary narrow wide read row a b) i
        ≡ row (read (lane narrow a (2 * i))) (read (lane narrow a (2 * i + 1)))
        (read (lane narrow b (2 * i))) (read (lane narrow b (2 * i + 1))) % 2 ^ bits wide }
{}

/// The lanes of a vector made of two vectors' wide lanes are the rows of the first one's, then the
/// second's, wrapped to the narrow width. `A` is the integer as which a wide lane is read.
pub fn lanes_of_wide_lanes<A>()
    ensures low { (wide narrow : Width) (read : ℕ → A) (row : A → ℕ) (low high i : ℕ)
        → i < lane_count wide → i < lane_count narrow
        → lane narrow (from_low_high wide narrow read row low high) i
        ≡ row (read (lane wide low i)) % 2 ^ bits narrow }
    ensures high { (wide narrow : Width) (read : ℕ → A) (row : A → ℕ) (low high i : ℕ)
        → lane_count wide + i < lane_count narrow
        → lane narrow (from_low_high wide narrow read row low high) (lane_count wide + i)
        ≡ row (read (lane wide high i)) % 2 ^ bits narrow }
{}

/// Bit i of the number that is made of a test of each lane tells whether the test holds of lane i,
/// and no other bit is 1. `A` is the integer as which a lane is read.
#[tactic(auto, using(crate::proofs::WideningLemmas::laws), unfolding(crate::specs::WideningTable::lane_bits))]
pub fn bits_of_lanes<A>()
    ensures bit { (w : Width) (read : ℕ → A) (test : A → Bool) (v i : ℕ) → i < lane_count w
        → bit_at (lane_bits w read test v) i ≡ (if test (read (lane w v i)) then 1 else 0) }
    ensures below { (w : Width) (read : ℕ → A) (test : A → Bool) (v : ℕ)
        → lane_bits w read test v < 2 ^ lane_count w }
    ensures bit_of_test { (n : ℕ) (test : ℕ → Bool) (i : ℕ) → i < n
        → bit_at (first_bits n test) i ≡ (if test i then 1 else 0) }
    ensures tests_below { (n : ℕ) (test : ℕ → Bool) → first_bits n test < 2 ^ n }
{}

/// A test of every lane holds exactly where it holds of each. `A` is the integer a lane is read as.
#[tactic(auto, using(crate::proofs::WideningLemmas::laws), unfolding(crate::specs::WideningTable::every_lane))]
pub fn tests_of_lanes<A>()
    ensures lanes { (w : Width) (read : ℕ → A) (test : A → Bool) (v : ℕ)
        → IsTrue (every_lane w read test v)
        ↔ ((i : ℕ) → i < lane_count w → IsTrue (test (read (lane w v i)))) }
    ensures numbers { (n : ℕ) (test : ℕ → Bool)
        → IsTrue (holds_below n test) ↔ ((i : ℕ) → i < n → IsTrue (test i)) }
{}
