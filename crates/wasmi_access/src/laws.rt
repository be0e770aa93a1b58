//! Laws on loads, on stores and on the bytes of numbers.
ghost use Rattle.std.specs.Prelude.{◌≡◌, ℕ, ℤ, ◌*◌, ◌%◌, ◌^◌, List, Ok};
ghost use Rattle.wasmi_types.specs.Numbers.{le_bytes};
ghost use Rattle.wasmi_access.specs.LoadStore.{loaded, IsStore, IsSameOutside};

use crate::access::LittleEndianConvert;

/// After an accepted store of `k` bytes of a number `n`, every load of `k` bytes at the same
/// address gives `n` modulo 2 to the power `8 * k`, read signed or unsigned as its `value` makes an
/// integer or a natural number of it. All other bytes are the same.
pub fn stored_number_is_loaded()
    ensures integer { (k n a : ℕ) (old new : List ℕ) (value : ℕ → ℤ)
        → IsStore old a (le_bytes k n) new (Ok (tt {0}))
        → loaded k value new a ≡ Ok (value (n % 2 ^ (8 * k))) }
    ensures natural { (k n a : ℕ) (old new : List ℕ) (value : ℕ → ℕ)
        → IsStore old a (le_bytes k n) new (Ok (tt {0}))
        → loaded k value new a ≡ Ok (value (n % 2 ^ (8 * k))) }
    ensures outside { (k n a : ℕ) (old new : List ℕ)
        → IsStore old a (le_bytes k n) new (Ok (tt {0})) → IsSameOutside old new a k }
{}

/// The bytes of the value of some bytes are those bytes.
pub fn bytes_of_their_value<T: LittleEndianConvert>(bytes: T::Bytes) -> T::Bytes
    ensures { T.Bytes.bytes_of result ≡ T.Bytes.bytes_of bytes }
{
    T::from_le_bytes(bytes).into_le_bytes()
}

/// The value of the bytes of a value is that value.
pub fn value_of_its_bytes<T: LittleEndianConvert>(value: T) -> T
    ensures { result ≡ value }
{
    T::from_le_bytes(value.into_le_bytes())
}
