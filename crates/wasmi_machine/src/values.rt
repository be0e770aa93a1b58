//! The element segments, data segments and globals of a machine, by their indices: functions of one
//! list of the store each, so that what else the store has stays out of their contracts.
ghost use Rattle.std.specs.Prelude.{◌≡◌, ◌⊎◌, ◌<◌, ◌≤◌, length, slice_get};
ghost use Rattle.wasmi_machine.specs.Effects.{AddsItem};
ghost use Rattle.wasmi_machine.specs.ValueEffects.{CreatesSegment, DropsDataAt, DropsItemsAt, SetsGlobalAt, global_reply};

use crate::calls::Reply;
use crate::data::DataSegment;
use crate::slots::ReservedList;
use std::alloc::Global as Allocator;
use wasmi_raw::{RawRef, RawVal};
use wasmi_store::ElementSegment;
use wasmi_typed::{Global, GlobalType, TypedRawVal};
use wasmi_types::RefType;

pub(crate) fn create_segment(
    segments: &mut ReservedList<ElementSegment>,
    alloc: Allocator,
    ty: RefType,
    items: &[RawRef],
) -> Reply
    ensures made { CreatesSegment (segments.old.reserved ≤ length segments.old.items) ty items.now
        segments.old.items result segments.new.items }
    ensures reserved { segments.new.reserved ≡ segments.old.reserved }
{
    if segments.try_reserve(1).is_err() {
        return Reply::NoRoom;
    }
    match ElementSegment::new(alloc, ty, items.iter().copied()) {
        Ok(segment) => Reply::Made(segments.push(segment)),
        Err(error) => Reply::Segment(error),
    }
}

#[tactic(auto, using(std::proofs::lemmas::Grind::elements))]
pub(crate) fn drop_items(segments: &mut ReservedList<ElementSegment>, index: usize) -> Reply
    ensures dropped { DropsItemsAt index segments.old.items result segments.new.items }
    ensures reserved { segments.new.reserved ≡ segments.old.reserved }
{
    let Some(segment) = segments.get_mut(index) else {
        return Reply::NoSuch;
    };
    segment.drop_items();
    Reply::Done
}

/// Makes a data segment of a copy of the bytes.
pub(crate) fn create_data(
    segments: &mut ReservedList<DataSegment>,
    alloc: Allocator,
    bytes: &[u8],
) -> Reply
    ensures made { AddsItem
        ((0 < length bytes.now) ⊎ (segments.old.reserved ≤ length segments.old.items)) bytes.now
        segments.old.items result segments.new.items }
    ensures reserved { segments.new.reserved ≡ segments.old.reserved }
{
    match DataSegment::new(alloc, bytes) {
        Ok(segment) => add_item(segments, segment),
        Err(_) => Reply::NoRoom,
    }
}

pub(crate) fn drop_data(segments: &mut ReservedList<DataSegment>, index: usize) -> Reply
    ensures dropped { DropsDataAt index segments.old.items result segments.new.items }
    ensures reserved { segments.new.reserved ≡ segments.old.reserved }
{
    let Some(segment) = segments.get_mut(index) else {
        return Reply::NoSuch;
    };
    segment.drop_bytes();
    Reply::Done
}

pub(crate) fn create_global(
    globals: &mut ReservedList<Global>,
    value: RawVal,
    ty: GlobalType,
) -> Reply
    ensures made { AddsItem (globals.old.reserved ≤ length globals.old.items)
        (record { value = value; ty = ty }) globals.old.items result globals.new.items }
    ensures reserved { globals.new.reserved ≡ globals.old.reserved }
{
    add_item(globals, Global::new(value, ty))
}

/// Adds a data segment or a global to its list, unless memory for its place is refused.
fn add_item<T: Drop>(items: &mut ReservedList<T>, item: T) -> Reply
    ensures made { AddsItem (items.old.reserved ≤ length items.old.items) item items.old.items result
        items.new.items }
    ensures reserved { items.new.reserved ≡ items.old.reserved }
{
    if items.try_reserve(1).is_err() {
        return Reply::NoRoom;
    }
    Reply::Made(items.push(item))
}

#[tactic(auto, using(std::proofs::lemmas::Grind::elements))]
pub(crate) fn set_global(
    globals: &mut ReservedList<Global>,
    index: usize,
    value: TypedRawVal,
) -> Reply
    ensures set { SetsGlobalAt index value globals.old.items result globals.new.items }
    ensures reserved { globals.new.reserved ≡ globals.old.reserved }
{
    let Some(global) = globals.get_mut(index) else {
        return Reply::NoSuch;
    };
    global
        .set(value)
        .map_or_else(Reply::Global, |()| Reply::Done)
}

pub(crate) fn get_global(globals: &[Global], index: usize) -> Reply
    ensures { result ≡ global_reply (slice_get globals.now index) }
{
    globals
        .get(index)
        .map_or(Reply::NoSuch, |global| Reply::Value(*global.get_raw()))
}
