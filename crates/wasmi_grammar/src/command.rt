//! The commands of a script, each of which is one call: what the words after its first say, and the
//! memory type, the table type or the lanes that some of them name.
ghost use Rattle.std.specs.Prelude.{◌≡◌, ◌<◌, ◌^◌, codes, length, IfErr};
ghost use Rattle.std.specs.Result.{OkIff};
ghost use Rattle.wasmi_operands.specs.LineWords.{Accepts, AcceptsWithMemory, word_at};
ghost use Rattle.wasmi_operands.specs.Names.{WritesLanes};
ghost use Rattle.wasmi_grammar.specs.Commands.{NamesAfter, IsValueWord, IsMemoryWord, IsAccessWord, IsTableWord, IsVectorWord, NamesType, NamesTableType};

use std::alloc::Global;
use wasmi_lanes::ImmLaneIdx32;
use wasmi_machine::Call;
use wasmi_operands::lane::{extract_op, load_lane_op, replace_op, store_lane_op};
use wasmi_operands::operand::{self, Operand, list_of};
use wasmi_operands::{LineError, number};
use wasmi_raw::RawVal;
use wasmi_store::{MemoryType, TableType};
use wasmi_typed::{GlobalType, TypedRawRef, TypedRawVal};
use wasmi_types::{IndexType, RefType};

/// The call of a kind: each part is what an operand writes, or is made of what has these names.
macro_rules! call {
    ($operands:expr, $count:ident => $kind:ident { $($part:ident),+ }) => {
        call!($operands, $count($($part),+) => $kind { $($part),+ })
    };
    ($operands:expr, $count:ident($($written:ident),+) => $kind:ident
        { $($part:ident $(: $value:expr)?),+ }) => {{
        let ($($written),+) = operand::$count($operands)?;
        Ok(Call::$kind { $($part $(: $value)?),+ })
    }};
}

pub(crate) fn command(alloc: Global, name: &str, operands: &[&str]) -> Result<Call, LineError>
    ensures { AcceptsWithMemory result (NamesAfter name.now operands.now) }
{
    match name {
        "write" => write(alloc, operands),
        "segment" => new_segment(alloc, operands),
        "data" => new_data(alloc, operands),
        // What tools/generate writes begins.
        "fuel" | "left" | "global" | "gset" | "gget" | "set" | "show" => {
            values_call(name, operands)
        }
        "memory" | "lent" | "grow" | "drop" | "read" | "mfill" | "mcopy" | "minit" => {
            memory_call(name, operands)
        }
        "load" | "store" | "vload" | "vloadlane" | "vstore" | "vstorelane" => {
            access_call(name, operands)
        }
        "table" | "tgrow" | "get" | "tset" | "init" | "copy" | "fill" | "empty" | "dempty" => {
            table_call(name, operands)
        }
        "make"
        | "unary"
        | "binary"
        | "ternary"
        | "shift"
        | "test"
        | "extract"
        | "replace"
        | "shuffle" => vector_call(name, operands),
        // What tools/generate writes ends.
        _ => Err(LineError::BadCommand),
    }
}

/// The call of a command of the meter, of a global or of a register.
fn values_call(name: &str, operands: &[&str]) -> Result<Call, LineError>
    requires word { IsValueWord name.now }
    ensures call { Accepts result (NamesAfter name.now operands.now) }
{
    match name {
        "fuel" => Ok(Call::SetFuel(operand::one(operands)?)),
        "left" if operands.is_empty() => Ok(Call::GetFuel),
        "left" => Err(LineError::BadCommand),
        "global" => call!(operands, four(content, mutability, lo, hi) => NewGlobal {
            value: RawVal { lo, hi }, ty: GlobalType::new(content, mutability)
        }),
        "gset" => call!(operands, four(global, ty, lo, hi) => SetGlobal {
            global, value: TypedRawVal::new(ty, RawVal { lo, hi })
        }),
        "gget" => Ok(Call::GetGlobal(operand::one(operands)?)),
        "set" => call!(operands, three(dst, lo, hi) => SetRegister {
            dst, value: RawVal { lo, hi }
        }),
        _ => Ok(Call::GetRegister(operand::one(operands)?)),
    }
}

/// The call of a command of a memory, or of one that drops a memory or a table.
fn memory_call(name: &str, operands: &[&str]) -> Result<Call, LineError>
    requires word { IsMemoryWord name.now }
    ensures call { Accepts result (NamesAfter name.now operands.now) }
{
    match name {
        "memory" => Ok(Call::NewMemory(memory_type(operands)?)),
        "lent" => Ok(Call::NewLentMemory(memory_type(operands)?)),
        // What tools/generate writes begins.
        "grow" => call!(operands, two => GrowMemory { memory, pages }),
        "read" => call!(operands, three => Read { memory, offset, len }),
        "mfill" => call!(operands, four => FillMemory { memory, dst, value, len }),
        "mcopy" => call!(operands, five => CopyMemory { dst_memory, dst, src_memory, src, len }),
        "minit" => call!(operands, five => InitMemory { memory, segment, dst, src, len }),
        // What tools/generate writes ends.
        _ => drop_live(operands),
    }
}

/// `write K OFFSET BYTE ...`, which may have no byte.
fn write(alloc: Global, operands: &[&str]) -> Result<Call, LineError>
    ensures { AcceptsWithMemory result (NamesAfter (codes "write") operands.now) }
{
    let [memory, offset, bytes @ ..] = operands else {
        return Err(LineError::BadCommand);
    };
    Ok(Call::Write {
        memory: usize::from_word(memory)?,
        offset: usize::from_word(offset)?,
        bytes: list_of(alloc, bytes)?,
    })
}

/// `drop memory K` and `drop table K`.
fn drop_live(operands: &[&str]) -> Result<Call, LineError>
    ensures { Accepts result (NamesAfter (codes "drop") operands.now) }
{
    let [kind, index] = operands else {
        return Err(LineError::BadCommand);
    };
    let index = usize::from_word(index)?;
    match *kind {
        "memory" => Ok(Call::DropMemory(index)),
        "table" => Ok(Call::DropTable(index)),
        _ => Err(LineError::BadCommand),
    }
}

/// The memory type of four words, if there is such a type.
fn memory_type(words: &[&str]) -> Result<MemoryType, LineError>
    ensures { Accepts result (λ ty. (length words.now ≡ 4) × NamesType (word_at words.now 0)
        (word_at words.now 1) (word_at words.now 2) (word_at words.now 3) ty) }
{
    let (minimum, maximum, page_size_log2, index) = operand::four(words)?;
    let mut builder = MemoryType::builder();
    builder
        .min(minimum)
        .max(maximum)
        .page_size_log2(page_size_log2)
        .memory64(matches!(index, IndexType::I64));
    builder.build().map_err(|_| LineError::BadCommand)
}

/// The call of a command that loads or stores.
fn access_call(name: &str, operands: &[&str]) -> Result<Call, LineError>
    requires word { IsAccessWord name.now }
    ensures call { Accepts result (NamesAfter name.now operands.now) }
{
    match name {
        "store" => call!(operands, five(op, memory, ptr, offset, lo) => Store {
            op, memory, ptr, offset, value: RawVal::from_bits64(lo)
        }),
        "vloadlane" => load_lane(operands),
        // What tools/generate writes begins.
        "load" => call!(operands, four => Load { op, memory, ptr, offset }),
        "vload" => call!(operands, five => VectorLoad { op, dst, memory, ptr, offset }),
        "vstore" => call!(operands, four => VectorStore { a, memory, ptr, offset }),
        // What tools/generate writes ends.
        _ => store_lane(operands),
    }
}

/// `vloadlane NAME D A LANE K PTR OFFSET`.
fn load_lane(operands: &[&str]) -> Result<Call, LineError>
    ensures { Accepts result (NamesAfter (codes "vloadlane") operands.now) }
{
    let &[name, dst, a, lane, memory, ptr, offset] = operands else {
        return Err(LineError::BadCommand);
    };
    let op = load_lane_op(name, lane)?;
    call!(&[dst, a, memory, ptr, offset], five(dst, a, memory, ptr, offset) => LoadLane {
        op, dst, a, memory, ptr, offset
    })
}

/// `vstorelane NAME A LANE K PTR OFFSET`.
fn store_lane(operands: &[&str]) -> Result<Call, LineError>
    ensures { Accepts result (NamesAfter (codes "vstorelane") operands.now) }
{
    let &[name, a, lane, memory, ptr, offset] = operands else {
        return Err(LineError::BadCommand);
    };
    let op = store_lane_op(name, lane)?;
    call!(&[a, memory, ptr, offset], four(a, memory, ptr, offset) => StoreLane {
        op, a, memory, ptr, offset
    })
}

/// The call of a command of a table, or of one that empties a segment.
fn table_call(name: &str, operands: &[&str]) -> Result<Call, LineError>
    requires word { IsTableWord name.now }
    ensures call { Accepts result (NamesAfter name.now operands.now) }
{
    match name {
        "table" => new_table(operands),
        "tgrow" => call!(operands, four(table, delta, ty, raw) => GrowTable {
            table, delta, init: TypedRawRef::new(raw, ty)
        }),
        "tset" => call!(operands, four(table, index, ty, raw) => SetElement {
            table, index, value: TypedRawRef::new(raw, ty)
        }),
        "fill" => call!(operands, five(table, dst, ty, raw, len) => FillTable {
            table, dst, value: TypedRawRef::new(raw, ty), len
        }),
        "dempty" => Ok(Call::DropData(operand::one(operands)?)),
        // What tools/generate writes begins.
        "get" => call!(operands, two => GetElement { table, index }),
        "init" => call!(operands, five => InitTable { table, segment, dst, src, len }),
        "copy" => call!(operands, five => CopyTable { dst_table, dst, src_table, src, len }),
        // What tools/generate writes ends.
        _ => Ok(Call::DropItems(operand::one(operands)?)),
    }
}

/// `table T MIN X WIDTH T N`.
fn new_table(operands: &[&str]) -> Result<Call, LineError>
    ensures { Accepts result (NamesAfter (codes "table") operands.now) }
{
    let &[element, min, max, width, init_ty, raw] = operands else {
        return Err(LineError::BadCommand);
    };
    let ty = table_type(&[element, min, max, width])?;
    call!(&[init_ty, raw], two(init_ty, raw) => NewTable {
        ty, init: TypedRawRef::new(raw, init_ty)
    })
}

/// `segment T N ...`, which may have no reference.
fn new_segment(alloc: Global, operands: &[&str]) -> Result<Call, LineError>
    ensures { AcceptsWithMemory result (NamesAfter (codes "segment") operands.now) }
{
    let [ty, items @ ..] = operands else {
        return Err(LineError::BadCommand);
    };
    Ok(Call::NewSegment {
        ty: RefType::from_word(ty)?,
        items: list_of(alloc, items)?,
    })
}

/// `data BYTE ...`, which may have no byte.
fn new_data(alloc: Global, operands: &[&str]) -> Result<Call, LineError>
    ensures { AcceptsWithMemory result (NamesAfter (codes "data") operands.now) }
{
    Ok(Call::NewData(list_of(alloc, operands)?))
}

/// The table type of four words, if there is such a type.
fn table_type(words: &[&str]) -> Result<TableType, LineError>
    ensures { Accepts result (λ ty. (length words.now ≡ 4) × NamesTableType (word_at words.now 0)
        (word_at words.now 1) (word_at words.now 2) (word_at words.now 3) ty) }
{
    let (element, minimum, maximum, index) = operand::four::<_, u64, Option<u64>, _>(words)?;
    if maximum.is_some_and(|most| most < minimum) {
        return Err(LineError::BadCommand);
    }
    match index {
        IndexType::I32 => {
            let minimum = index32(minimum)?;
            let maximum = maximum.map(index32).transpose()?;
            Ok(TableType::new(element, minimum, maximum))
        }
        IndexType::I64 => Ok(TableType::new64(element, minimum, maximum)),
    }
}

/// The limit of a table whose indices have 32 bits.
fn index32(limit: u64) -> Result<u32, LineError>
    ensures value { OkIff result (limit < 2 ^ 32) limit }
    ensures refused { IfErr result (λ error. error ≡ LineError.BadCommand) }
{
    u32::try_from(limit).map_err(|_| LineError::BadCommand)
}

/// The call of a command of a vector instruction.
fn vector_call(name: &str, operands: &[&str]) -> Result<Call, LineError>
    requires word { IsVectorWord name.now }
    ensures call { Accepts result (NamesAfter name.now operands.now) }
{
    match name {
        "extract" => extract(operands),
        "replace" => replace(operands),
        // What tools/generate writes begins.
        "make" => call!(operands, three => Make { op, dst, a }),
        "unary" => call!(operands, three => Unary { op, dst, a }),
        "binary" => call!(operands, four => Binary { op, dst, a, b }),
        "ternary" => call!(operands, five => Ternary { op, dst, a, b, c }),
        "shift" => call!(operands, four => Shift { op, dst, a, amount }),
        "test" => call!(operands, two => Test { op, a }),
        // What tools/generate writes ends.
        _ => shuffle(operands),
    }
}

/// `extract NAME A LANE`.
fn extract(operands: &[&str]) -> Result<Call, LineError>
    ensures { Accepts result (NamesAfter (codes "extract") operands.now) }
{
    let &[name, a, lane] = operands else {
        return Err(LineError::BadCommand);
    };
    match (extract_op(name, lane), number(a)) {
        (Ok(op), Ok(a)) => Ok(Call::Extract { op, a }),
        _ => Err(LineError::BadCommand),
    }
}

/// `replace NAME D A LANE B`.
fn replace(operands: &[&str]) -> Result<Call, LineError>
    ensures { Accepts result (NamesAfter (codes "replace") operands.now) }
{
    let &[name, dst, a, lane, item] = operands else {
        return Err(LineError::BadCommand);
    };
    match (replace_op(name, lane), number(dst), number(a), number(item)) {
        (Ok(op), Ok(dst), Ok(a), Ok(item)) => Ok(Call::Replace { op, dst, a, item }),
        _ => Err(LineError::BadCommand),
    }
}

/// `shuffle D A B LANE ...`, with sixteen lanes.
fn shuffle(operands: &[&str]) -> Result<Call, LineError>
    ensures { Accepts result (NamesAfter (codes "shuffle") operands.now) }
{
    let [dst, a, b, lanes @ ..] = operands else {
        return Err(LineError::BadCommand);
    };
    match (number(dst), number(a), number(b), lanes_of(lanes)) {
        (Ok(dst), Ok(a), Ok(b), Ok(lanes)) => Ok(Call::Shuffle { dst, a, b, lanes }),
        _ => Err(LineError::BadCommand),
    }
}

/// The indices of lanes that sixteen words write, one each.
fn lanes_of(words: &[&str]) -> Result<[ImmLaneIdx32; 16], LineError>
    ensures { Accepts result (WritesLanes words.now) }
{
    let Some(words) = words.as_array::<16>() else {
        return Err(LineError::BadCommand);
    };
    words.try_map(|word| ImmLaneIdx32::from_word(word))
}
