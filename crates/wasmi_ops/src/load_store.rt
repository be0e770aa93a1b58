//! The scalar loads and stores as values, at a pointer and an offset.
ghost use Rattle.std.specs.Prelude.{◌≡◌, ◌+◌};
ghost use Rattle.wasmi_access.specs.LoadStore.{IsStore};
ghost use Rattle.wasmi_ops.specs.LoadStoreOps.{loaded_raw, stored_bytes};

use crate::rows::{calls, names};
use wasmi_access::access::effective_address;
use wasmi_access::wasm as accesses;
use wasmi_raw::{RawVal, ReadAs};
use wasmi_types::TrapCode;

/// A scalar load.
#[derive(Clone, Copy, Debug, PartialEq, Eq)]
pub enum LoadOp {
    I32Load8S,
    I32Load8U,
    I32Load16S,
    I32Load16U,
    I64Load8S,
    I64Load8U,
    I64Load16S,
    I64Load16U,
    I64Load32S,
    I64Load32U,
    LoadU32,
    LoadU64,
}

macro_rules! loads {
    ($make:ident! $($with:tt)*) => { $make! { [$($with)*] accesses [.map(RawVal::from)] {
        I32Load8S i32_load8_s, I32Load8U i32_load8_u,
        I32Load16S i32_load16_s, I32Load16U i32_load16_u,
        I64Load8S i64_load8_s, I64Load8U i64_load8_u,
        I64Load16S i64_load16_s, I64Load16U i64_load16_u,
        I64Load32S i64_load32_s, I64Load32U i64_load32_u,
        LoadU32 load_u32, LoadU64 load_u64,
    } } };
}

/// The scalar loads by name, in the order of the C library's numbers.
pub const LOADS: [(&str, LoadOp); 12] = loads!(names! LoadOp);

impl LoadOp {
    /// Loads from `ptr + offset`.
    #[inline(always)]
    pub fn load(self, memory: &[u8], ptr: u64, offset: u64) -> Result<RawVal, TrapCode>
        ensures { result ≡ loaded_raw self memory.now (ptr + offset) }
    {
        // The address is tested once, and not in the arm of each load.
        let address = effective_address(ptr, offset)?;
        if address > memory.len() {
            return Err(TrapCode::MemoryOutOfBounds);
        }
        self.load_front(&memory[address..])
    }

    #[inline(always)]
    fn load_front(self, bytes: &[u8]) -> Result<RawVal, TrapCode>
        ensures { result ≡ loaded_raw self bytes.now 0 }
    {
        loads!(calls! self(bytes, 0, 0))
    }
}

/// A scalar store.
#[derive(Clone, Copy, Debug, PartialEq, Eq)]
pub enum StoreOp {
    I32Store8,
    I32Store16,
    I64Store8,
    I64Store16,
    I64Store32,
    Store32,
    Store64,
}

macro_rules! stores {
    ($make:ident! $($with:tt)*) => { $make! { [$($with)*] accesses [] {
        I32Store8 i32_store8, I32Store16 i32_store16,
        I64Store8 i64_store8, I64Store16 i64_store16, I64Store32 i64_store32,
        Store32 store32, Store64 store64,
    } } };
}

/// The scalar stores by name, in the order of the C library's numbers.
pub const STORES: [(&str, StoreOp); 7] = stores!(names! StoreOp);

impl StoreOp {
    /// Stores a value at `ptr + offset`.
    #[inline(always)]
    pub fn store(
        self,
        memory: &mut [u8],
        ptr: u64,
        offset: u64,
        value: RawVal,
    ) -> Result<(), TrapCode>
        ensures { IsStore memory.old (ptr + offset) (stored_bytes self value) memory.new result }
    {
        let address = effective_address(ptr, offset)?;
        stores!(calls! self(memory, address as u64, 0, value.read_as()))
    }
}
