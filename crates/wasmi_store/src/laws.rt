//! What holds of all memories and tables and their types. Each function does nothing: it is a law.
ghost use Rattle.wasmi_store.specs.Memory.{IsValidMemory, MemoryTypeValue, IsSubtype};
ghost use Rattle.wasmi_store.specs.Table.{IsValidTable};
ghost use Rattle.wasmi_store.specs.Table as table;

use crate::memory::{LinearMemory, Region};
use crate::table::Table;

/// Every memory is valid, also one that was written to or has grown: its type is valid, and it has
/// whole pages, as many as that allows. Core specification, validity of memory instances.
pub fn memories_are_valid<R: Region>(memory: &LinearMemory<R>)
    ensures { IsValidMemory memory.now }
{
    let _minimum = memory.ty().minimum();
    let _size = memory.data_size();
}

/// Every table is valid, also one that was written to or has grown: its type is valid, and it has
/// as many elements as that allows. Core specification, validity of table instances.
pub fn tables_are_valid(table: &Table)
    ensures { IsValidTable table.now }
{
    let _minimum = table.ty().minimum();
    let _size = table.size();
}

/// Each memory type is a subtype of itself.
pub fn memory_subtyping_is_reflexive()
    ensures { (a : MemoryTypeValue) → IsSubtype a a }
{}

/// A subtype of a subtype is a subtype.
pub fn memory_subtyping_is_transitive()
    ensures { (a b c : MemoryTypeValue) → IsSubtype a b → IsSubtype b c → IsSubtype a c }
{}

/// Each table type is a subtype of itself.
pub fn table_subtyping_is_reflexive()
    ensures { (a : table.TableTypeValue) → table.IsSubtype a a }
{}

/// A subtype of a subtype is a subtype.
pub fn table_subtyping_is_transitive()
    ensures { (a b c : table.TableTypeValue) → table.IsSubtype a b → table.IsSubtype b c
        → table.IsSubtype a c }
{}
