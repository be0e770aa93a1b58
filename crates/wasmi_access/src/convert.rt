//! Extending and wrapping between the integers: the implementations of `ExtendInto` and `WrapInto`.

use crate::access::{ExtendInto, WrapInto};

impl ExtendInto<u16> for u8 {
    fn extend_into(self) -> u16 {
        self as u16
    }
}

impl ExtendInto<u32> for u16 {
    fn extend_into(self) -> u32 {
        self as u32
    }
}

impl ExtendInto<u64> for u32 {
    fn extend_into(self) -> u64 {
        self as u64
    }
}

impl ExtendInto<i16> for i8 {
    fn extend_into(self) -> i16 {
        self as i16
    }
}

impl ExtendInto<i32> for i8 {
    fn extend_into(self) -> i32 {
        self as i32
    }
}

impl ExtendInto<i64> for i8 {
    fn extend_into(self) -> i64 {
        self as i64
    }
}

impl ExtendInto<i32> for i16 {
    fn extend_into(self) -> i32 {
        self as i32
    }
}

impl ExtendInto<i64> for i16 {
    fn extend_into(self) -> i64 {
        self as i64
    }
}

impl ExtendInto<i64> for i32 {
    fn extend_into(self) -> i64 {
        self as i64
    }
}

impl ExtendInto<i32> for u8 {
    fn extend_into(self) -> i32 {
        self as i32
    }
}

impl ExtendInto<i64> for u8 {
    fn extend_into(self) -> i64 {
        self as i64
    }
}

impl ExtendInto<i32> for u16 {
    fn extend_into(self) -> i32 {
        self as i32
    }
}

impl ExtendInto<i64> for u16 {
    fn extend_into(self) -> i64 {
        self as i64
    }
}

impl ExtendInto<i64> for u32 {
    fn extend_into(self) -> i64 {
        self as i64
    }
}

impl WrapInto<i8> for i32 {
    fn wrap_into(self) -> i8 {
        <i64 as WrapInto<i8>>::wrap_into(self as i64)
    }
}

impl WrapInto<i16> for i32 {
    fn wrap_into(self) -> i16 {
        <i64 as WrapInto<i16>>::wrap_into(self as i64)
    }
}

impl WrapInto<i8> for i64 {
    fn wrap_into(self) -> i8 {
        ((self.cast_unsigned() % 256) as u8).cast_signed()
    }
}

impl WrapInto<i16> for i64 {
    fn wrap_into(self) -> i16 {
        ((self.cast_unsigned() % 65536) as u16).cast_signed()
    }
}

impl WrapInto<i32> for i64 {
    fn wrap_into(self) -> i32 {
        ((self.cast_unsigned() % 0x1_0000_0000) as u32).cast_signed()
    }
}
