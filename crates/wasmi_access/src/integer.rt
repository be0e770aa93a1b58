//! The integers of 8 to 128 bits in little-endian bytes: `LittleEndianConvert` of each.
#![tactic(auto, using(crate::proofs::ByteLemmas::byte_numbers))]

ghost use Rattle.std.specs.Prelude.{refl};

use crate::access::LittleEndianConvert;

impl LittleEndianConvert for u8 {
    type Bytes = [u8; 1];

    fn into_le_bytes(self) -> [u8; 1] {
        self.to_le_bytes()
    }

    fn from_le_bytes(bytes: [u8; 1]) -> u8 {
        u8::from_le_bytes(bytes)
    }

    ghost is_as_wide = { refl };
}

impl LittleEndianConvert for u16 {
    type Bytes = [u8; 2];

    fn into_le_bytes(self) -> [u8; 2] {
        self.to_le_bytes()
    }

    fn from_le_bytes(bytes: [u8; 2]) -> u16 {
        u16::from_le_bytes(bytes)
    }

    ghost is_as_wide = { refl };
}

impl LittleEndianConvert for u32 {
    type Bytes = [u8; 4];

    fn into_le_bytes(self) -> [u8; 4] {
        self.to_le_bytes()
    }

    fn from_le_bytes(bytes: [u8; 4]) -> u32 {
        u32::from_le_bytes(bytes)
    }

    ghost is_as_wide = { refl };
}

impl LittleEndianConvert for u64 {
    type Bytes = [u8; 8];

    fn into_le_bytes(self) -> [u8; 8] {
        self.to_le_bytes()
    }

    fn from_le_bytes(bytes: [u8; 8]) -> u64 {
        u64::from_le_bytes(bytes)
    }

    ghost is_as_wide = { refl };
}

impl LittleEndianConvert for u128 {
    type Bytes = [u8; 16];

    fn into_le_bytes(self) -> [u8; 16] {
        self.to_le_bytes()
    }

    fn from_le_bytes(bytes: [u8; 16]) -> u128 {
        u128::from_le_bytes(bytes)
    }

    ghost is_as_wide = { refl };
}

impl LittleEndianConvert for i8 {
    type Bytes = [u8; 1];

    fn into_le_bytes(self) -> [u8; 1] {
        self.cast_unsigned().into_le_bytes()
    }

    fn from_le_bytes(bytes: [u8; 1]) -> i8 {
        <u8 as LittleEndianConvert>::from_le_bytes(bytes).cast_signed()
    }

    ghost is_as_wide = { refl };
}

impl LittleEndianConvert for i16 {
    type Bytes = [u8; 2];

    fn into_le_bytes(self) -> [u8; 2] {
        self.cast_unsigned().into_le_bytes()
    }

    fn from_le_bytes(bytes: [u8; 2]) -> i16 {
        <u16 as LittleEndianConvert>::from_le_bytes(bytes).cast_signed()
    }

    ghost is_as_wide = { refl };
}

impl LittleEndianConvert for i32 {
    type Bytes = [u8; 4];

    fn into_le_bytes(self) -> [u8; 4] {
        self.cast_unsigned().into_le_bytes()
    }

    fn from_le_bytes(bytes: [u8; 4]) -> i32 {
        <u32 as LittleEndianConvert>::from_le_bytes(bytes).cast_signed()
    }

    ghost is_as_wide = { refl };
}

impl LittleEndianConvert for i64 {
    type Bytes = [u8; 8];

    fn into_le_bytes(self) -> [u8; 8] {
        self.cast_unsigned().into_le_bytes()
    }

    fn from_le_bytes(bytes: [u8; 8]) -> i64 {
        <u64 as LittleEndianConvert>::from_le_bytes(bytes).cast_signed()
    }

    ghost is_as_wide = { refl };
}

impl LittleEndianConvert for i128 {
    type Bytes = [u8; 16];

    fn into_le_bytes(self) -> [u8; 16] {
        self.cast_unsigned().into_le_bytes()
    }

    fn from_le_bytes(bytes: [u8; 16]) -> i128 {
        <u128 as LittleEndianConvert>::from_le_bytes(bytes).cast_signed()
    }

    ghost is_as_wide = { refl };
}
