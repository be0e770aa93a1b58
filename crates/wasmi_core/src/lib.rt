//! Metered WebAssembly memories and tables under a resource limiter, instructions on numbers and
//! vectors, and a machine that runs lists of calls: the crates of this library under one name.
#![tactic(auto)]

pub use wasmi_access::{access, laws as access_laws};
pub use wasmi_lanes::{laws as lane_laws, on_vectors, words};
pub use wasmi_machine::{
    ByteList, Call, DataSegment, Machine, Replies, Reply, SlotCounts, TooManyCalls, laws, run,
    run_into, run_into_lending, run_into_reserving, run_lending, run_reserving,
};

pub mod simd;
pub mod wasm;

pub use wasmi_meter::{
    Amounts, AnswerList, AnyLimiter, CustomFuelCosts, Fuel, FuelCosts, FuelCostsProvider,
    FuelError, Holdings, Kind, Lender, LimiterAnswer, LimiterByKind, LimiterError, LimiterRef,
    MemoryError, NoLimits, Quota, Reserving, ResourceLimiter, ResourceLimiterRef, TableError,
    ValueSize,
};
pub use wasmi_ops::{
    BinaryOp, ExtractOp, LoadLaneOp, LoadOp, MakeOp, ReplaceOp, ShiftOp, StoreLaneOp, StoreOp,
    TernaryOp, TestOp, UnaryOp, VectorLoadOp,
};
pub use wasmi_raw::{
    F32, F64, Number, RawRef, RawVal, ReadAs, ReadBack, V128, WriteAs, laws as raw_laws,
};
pub use wasmi_scalar::value::{Integer, SignExtendFrom, Unsigned};
pub use wasmi_scalar_ops::{ScalarBinaryOp, ScalarUnaryOp};
pub use wasmi_simd::laws as widening_laws;
pub use wasmi_store::{
    Buffer, ByteBuffer, ElementSegment, ElementSegmentRef, LinearMemory, Memory, MemoryType,
    MemoryTypeBuilder, Region, SegmentError, Table, TableType, growth, laws as store_laws,
};
pub use wasmi_typed::{
    Global, GlobalError, GlobalType, IntoShiftAmount, Mutability, NotAReference, ShiftAmount,
    Typed, TypedRawRef, TypedRawVal,
};
pub use wasmi_types::{
    FuncType, FuncTypeError, HostError, IndexType, InvalidTrapCode, RefType, Trap, TrapCode,
    ValType, hint,
};
