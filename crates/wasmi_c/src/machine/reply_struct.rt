//! Replies as structs of plain numbers.
ghost use Rattle.std.specs.Prelude.{◌≡◌};
ghost use Rattle.wasmi_c.specs.Machine.Replies.{only, reference_number, reply_struct, with_number, with_value};

use crate::status::{
    DONE, GLOBAL_IMMUTABLE, GLOBAL_TYPE, METERING_DISABLED, NO_ELEMENT, NO_REGION, NO_ROOM,
    NO_SUCH, OUT_OF_FUEL, SEGMENT_OUT_OF_MEMORY, SEGMENT_TOO_MANY_ITEMS, memory_refusal,
    table_refusal,
};
use wasmi_machine::Reply;
use wasmi_meter::FuelError;
use wasmi_raw::RawVal;
use wasmi_store::SegmentError;
use wasmi_typed::GlobalError;
use wasmi_types::RefType;

/// A reply as numbers. What a reply doesn't have is 0.
#[repr(C)]
#[derive(Clone, Copy)]
pub struct ReplyStruct {
    /// The value of a global or a register, or what a load or an instruction gives.
    pub value: RawVal,
    /// The index of what was made, the old size of a growth, the fuel that is left, or the fuel
    /// that a refused call needs.
    pub number: u64,
    /// An element of a table.
    pub reference: u32,
    /// The type of that element, by its number.
    pub ty: u8,
    /// 0 where the call was done, else why it was refused.
    pub status: u8,
}

impl ReplyStruct {
    /// A reply that has a status and nothing else.
    pub fn only(status: u8) -> ReplyStruct
        ensures { result ≡ only status }
    {
        ReplyStruct::with_number(status, 0)
    }

    /// A reply with a number.
    pub fn with_number(status: u8, number: u64) -> ReplyStruct
        ensures { result ≡ with_number status number }
    {
        ReplyStruct {
            value: RawVal { lo: 0, hi: 0 },
            number,
            reference: 0,
            ty: 0,
            status,
        }
    }

    /// A reply with a value.
    pub fn with_value(value: RawVal) -> ReplyStruct
        ensures { result ≡ with_value value }
    {
        ReplyStruct {
            value,
            ..ReplyStruct::only(DONE)
        }
    }

    /// The same reply, copied a field at a time. A copy of the whole may be made in pieces that
    /// overlap, and the processor then waits for the first to be stored.
    #[inline(always)]
    pub fn by_fields(self) -> ReplyStruct
        ensures { result ≡ self }
    {
        ReplyStruct {
            value: self.value,
            number: self.number,
            reference: self.reference,
            ty: self.ty,
            status: self.status,
        }
    }

    /// The reply as numbers. Those of the calls that engines make most are matched where they are
    /// returned, since a reply that is kept in a variable is copied.
    #[inline(always)]
    pub fn from_common(reply: Reply) -> ReplyStruct
        ensures { result ≡ reply_struct reply }
    {
        match reply {
            Reply::Done => ReplyStruct::only(DONE),
            Reply::NoSuch => ReplyStruct::only(NO_SUCH),
            Reply::Trap(trap) => ReplyStruct::only(u8::from(trap)),
            Reply::Value(value) => ReplyStruct::with_value(value),
            Reply::Number(number) => ReplyStruct::with_number(DONE, number),
            other => ReplyStruct::from_reply(&other),
        }
    }

    /// The reply as numbers.
    pub fn from_reply(reply: &Reply) -> ReplyStruct
        ensures { result ≡ reply_struct reply.now }
    {
        match reply {
            Reply::Done => ReplyStruct::only(DONE),
            Reply::Made(index) => ReplyStruct::with_number(DONE, *index as u64),
            Reply::Value(value) => ReplyStruct::with_value(*value),
            Reply::Number(number) => ReplyStruct::with_number(DONE, *number),
            Reply::Bytes(bytes) => ReplyStruct::with_number(DONE, bytes.as_slice().len() as u64),
            Reply::Reference(Some(element)) => ReplyStruct {
                reference: u32::from(element.raw()),
                ty: reference_number(element.ty()),
                ..ReplyStruct::only(DONE)
            },
            Reply::Reference(None) => ReplyStruct::only(NO_ELEMENT),
            Reply::Memory(error) => {
                let mut number = 0;
                let status = memory_refusal(*error, &mut number);
                ReplyStruct::with_number(status, number)
            }
            Reply::Table(error) => {
                let mut number = 0;
                let status = table_refusal(*error, &mut number);
                ReplyStruct::with_number(status, number)
            }
            Reply::Fuel(FuelError::FuelMeteringDisabled) => ReplyStruct::only(METERING_DISABLED),
            Reply::Fuel(FuelError::OutOfFuel { required_fuel }) => {
                ReplyStruct::with_number(OUT_OF_FUEL, *required_fuel)
            }
            Reply::Global(GlobalError::ImmutableWrite) => ReplyStruct::only(GLOBAL_IMMUTABLE),
            Reply::Global(GlobalError::TypeMismatch) => ReplyStruct::only(GLOBAL_TYPE),
            Reply::Segment(SegmentError::TooManyItems) => ReplyStruct::only(SEGMENT_TOO_MANY_ITEMS),
            Reply::Segment(SegmentError::OutOfSystemMemory) => {
                ReplyStruct::only(SEGMENT_OUT_OF_MEMORY)
            }
            Reply::Trap(code) => ReplyStruct::only(u8::from(*code)),
            Reply::NoSuch => ReplyStruct::only(NO_SUCH),
            Reply::NoRegion => ReplyStruct::only(NO_REGION),
            Reply::NoRoom => ReplyStruct::only(NO_ROOM),
        }
    }
}

/// The number that a reply has for a reference type, among those of the value types.
fn reference_number(ty: RefType) -> u8
    ensures { result ≡ reference_number ty }
{
    match ty {
        RefType::Func => 5,
        RefType::Extern => 6,
    }
}
