//! Callers of the laws on raw values, on the bytes of numbers, on memories and tables, and on their
//! types.
ghost use Rattle.std.specs.Prelude.{◌≡◌, ◌<◌, ◌≤◌, ◌*◌, ◌^◌, true, IfOk, MatchResult, ◌↔◌, IsTrue, length};
ghost use Rattle.wasmi_types.specs.declared.index_ty.IndexType.TheVariants.{I32};
ghost use Rattle.wasmi_access.specs.LoadStore.{IsSameOutside};
ghost use Rattle.wasmi_store.specs.Memory as memory_type;
ghost use Rattle.wasmi_store.specs.Memory.{IsSubtype, page_bytes, in_bounds};
ghost use Rattle.wasmi_store.specs.Table.{IsSized, size_of, is_within_maximum};
ghost use Rattle.wasmi_store.specs.Table as table_type;
ghost use Rattle.wasmi_law_tests.specs.Chains.{RelatesForward};

use wasmi_access::access::{LittleEndianConvert, load_at, store_at};
use wasmi_access::laws;
use wasmi_raw::RawVal;
use wasmi_store::{Memory, MemoryType, Table, TableType, laws as store_laws};
use wasmi_types::TrapCode;

/// An integer that is written to a raw value is read back from it.
pub fn kept_in_a_register(register: &mut RawVal, value: i32) -> i32
    ensures { result ≡ value }
{
    wasmi_raw::laws::written_value_is_read::<i32, RawVal>(register, value)
}

/// A number that is stored at an address is the number that is then loaded from there, and the
/// other bytes are the same.
pub fn stored_and_loaded(memory: &mut [u8], address: usize, value: u32) -> Result<u32, TrapCode>
    ensures loaded { MatchResult result (λ number. number ≡ value)
        (λ trap. trap ≡ TrapCode.MemoryOutOfBounds) }
    ensures outside { IfOk result (λ _. IsSameOutside memory.old memory.new address 4) }
{
    store_at(memory, address, value)?;
    laws::stored_number_is_loaded();
    load_at(memory, address)
}

/// Bytes that are read as a number and written again are the same.
pub fn rewritten(bytes: [u8; 4]) -> [u8; 4]
    ensures { result ≡ bytes }
{
    laws::bytes_of_their_value::<i32>(bytes)
}

/// A number that is written to its bytes is read back from them, whatever its type.
pub fn sent<T: LittleEndianConvert>(value: T) -> T
    ensures { result ≡ value }
{
    laws::value_of_its_bytes(value)
}

/// Whether each memory type of a list may stand for the next one: it is so exactly where each may
/// stand for itself and for each that follows.
pub fn is_memory_subtype_chain(types: &[MemoryType]) -> bool
    ensures { IsTrue result ↔ RelatesForward IsSubtype types.now (length types.now) }
{
    store_laws::memory_subtyping_is_reflexive();
    store_laws::memory_subtyping_is_transitive();
    for i in 1..types.len() {
        if !types[i - 1].is_subtype_of(&types[i]) {
            return false;
        }
    }
    true
}

/// Whether each table type of a list may stand for the next one: it is so exactly where each may
/// stand for itself and for each that follows.
pub fn is_table_subtype_chain(types: &[TableType]) -> bool
    ensures { IsTrue result ↔ RelatesForward table_type.IsSubtype types.now (length types.now) }
{
    store_laws::table_subtyping_is_reflexive();
    store_laws::table_subtyping_is_transitive();
    for i in 1..types.len() {
        if !types[i - 1].is_subtype_of(&types[i]) {
            return false;
        }
    }
    true
}

/// The size of any memory in pages, by a valid type: that many pages are its bytes, no fewer than
/// its type's minimum, and as many as its type allows.
pub fn pages_of_memory(memory: &Memory) -> u64
    ensures whole { result * page_bytes memory.now.ty.page ≡ length memory.now.bytes }
    ensures valid { memory_type.IsValid memory.now.ty }
    ensures minimum { memory.now.ty.minimum ≤ result }
    ensures within { in_bounds memory.now.ty result ≡ true }
{
    store_laws::memories_are_valid(memory);
    memory.size()
}

/// The size of any table, by a valid type: no fewer elements than its type's minimum, no more than
/// its maximum, and as many as its type allows; so fewer than 2^32 if its indices are 32 bits long.
pub fn elements_of_table(table: &Table) -> u64
    ensures value { result ≡ size_of table.now }
    ensures valid { table_type.IsValid table.now.ty }
    ensures minimum { table.now.ty.minimum ≤ result }
    ensures maximum { is_within_maximum table.now.ty result ≡ true }
    ensures indices { table.now.ty.index ≡ I32 → result < 2 ^ 32 }
    ensures sized { IsSized table.now.ty (size_of table.now) }
{
    store_laws::tables_are_valid(table);
    table.size()
}
