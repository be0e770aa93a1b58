//! The law of a write and the read that follows it.
ghost use Rattle.std.specs.Prelude.{◌≡◌};

use crate::raw::{ReadAs, ReadBack, WriteAs};

/// Whatever a value is written to, reading gives it back.
pub fn written_value_is_read<T: ReadBack, P: WriteAs<T>>(place: &mut P, value: T) -> T::Read
    ensures { result ≡ T.read_back value }
{
    place.write_as(value);
    place.read_as()
}
