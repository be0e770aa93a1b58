//! The loads and stores of vectors, of parts of vectors, and of one lane.
//!
//! A form without `_at` accesses the address `ptr + offset`, a form with `_at` the given one;
//! addresses count bytes. The only error is `MemoryOutOfBounds`, and then nothing is written. Core
//! specification: memory instructions. Upstream: `wasmi_core::simd`.
ghost use Rattle.std.specs.Prelude.{◌≡◌, ◌+◌};
ghost use Rattle.wasmi_types.specs.Numbers.{le_bytes, w8, w16, w32, w64};
ghost use Rattle.wasmi_access.specs.LoadStore.{loaded, IsStore};
ghost use Rattle.wasmi_lanes.specs.Vector as lanes;
ghost use Rattle.wasmi_lanes.specs.Vector.{splat_of, with_lane};
ghost use Rattle.wasmi_simd.specs.WideningTable as vector;

use wasmi_access::access::{load, load_at, store, store_at};
use wasmi_lanes::{
    ImmLaneIdx2, ImmLaneIdx4, ImmLaneIdx8, ImmLaneIdx16, U8x16, U16x8, U32x4, U64x2, VariableLane,
    on_vectors,
};
use wasmi_raw::V128;
use wasmi_simd::simd::{
    v128_low32_zero, v128_low64_zero, v128_widen8x8_s, v128_widen8x8_u, v128_widen16x4_s,
    v128_widen16x4_u, v128_widen32x2_s, v128_widen32x2_u,
};
use wasmi_types::TrapCode;

/// `v128.load`: 128 bits.
pub fn v128_load(memory: &[u8], ptr: u64, offset: u64) -> Result<V128, TrapCode>
    ensures { result ≡ loaded 16 (λ n. n) memory.now (ptr + offset) }
{
    Ok(V128::from(load::<u128>(memory, ptr, offset)?))
}

/// `v128.load` at an address.
pub fn v128_load_at(memory: &[u8], address: usize) -> Result<V128, TrapCode>
    ensures { result ≡ loaded 16 (λ n. n) memory.now address }
{
    Ok(V128::from(load_at::<u128>(memory, address)?))
}

/// `v128.store`: the 128 bits of the vector.
pub fn v128_store(memory: &mut [u8], ptr: u64, offset: u64, value: V128) -> Result<(), TrapCode>
    ensures { IsStore memory.old (ptr + offset) (le_bytes 16 value) memory.new result }
{
    store::<u128>(memory, ptr, offset, value.as_u128())
}

/// `v128.store` at an address.
pub fn v128_store_at(memory: &mut [u8], address: usize, value: V128) -> Result<(), TrapCode>
    ensures { IsStore memory.old address (le_bytes 16 value) memory.new result }
{
    store_at::<u128>(memory, address, value.as_u128())
}

/// `v128.load8x8_s`: 8 lanes of 8 bits, read signed and extended to 16.
pub fn v128_load8x8_s(memory: &[u8], ptr: u64, offset: u64) -> Result<V128, TrapCode>
    ensures { result ≡ loaded 8 (vector.widen_s w8 w16) memory.now (ptr + offset) }
{
    Ok(v128_widen8x8_s(load::<u64>(memory, ptr, offset)?))
}

/// `v128.load8x8_s` at an address.
pub fn v128_load8x8_s_at(memory: &[u8], address: usize) -> Result<V128, TrapCode>
    ensures { result ≡ loaded 8 (vector.widen_s w8 w16) memory.now address }
{
    Ok(v128_widen8x8_s(load_at::<u64>(memory, address)?))
}

/// `v128.load8x8_u`: 8 lanes of 8 bits, read unsigned and extended to 16.
pub fn v128_load8x8_u(memory: &[u8], ptr: u64, offset: u64) -> Result<V128, TrapCode>
    ensures { result ≡ loaded 8 (vector.widen_u w8 w16) memory.now (ptr + offset) }
{
    Ok(v128_widen8x8_u(load::<u64>(memory, ptr, offset)?))
}

/// `v128.load8x8_u` at an address.
pub fn v128_load8x8_u_at(memory: &[u8], address: usize) -> Result<V128, TrapCode>
    ensures { result ≡ loaded 8 (vector.widen_u w8 w16) memory.now address }
{
    Ok(v128_widen8x8_u(load_at::<u64>(memory, address)?))
}

/// `v128.load16x4_s`: 4 lanes of 16 bits, read signed and extended to 32.
pub fn v128_load16x4_s(memory: &[u8], ptr: u64, offset: u64) -> Result<V128, TrapCode>
    ensures { result ≡ loaded 8 (vector.widen_s w16 w32) memory.now (ptr + offset) }
{
    Ok(v128_widen16x4_s(load::<u64>(memory, ptr, offset)?))
}

/// `v128.load16x4_s` at an address.
pub fn v128_load16x4_s_at(memory: &[u8], address: usize) -> Result<V128, TrapCode>
    ensures { result ≡ loaded 8 (vector.widen_s w16 w32) memory.now address }
{
    Ok(v128_widen16x4_s(load_at::<u64>(memory, address)?))
}

/// `v128.load16x4_u`: 4 lanes of 16 bits, read unsigned and extended to 32.
pub fn v128_load16x4_u(memory: &[u8], ptr: u64, offset: u64) -> Result<V128, TrapCode>
    ensures { result ≡ loaded 8 (vector.widen_u w16 w32) memory.now (ptr + offset) }
{
    Ok(v128_widen16x4_u(load::<u64>(memory, ptr, offset)?))
}

/// `v128.load16x4_u` at an address.
pub fn v128_load16x4_u_at(memory: &[u8], address: usize) -> Result<V128, TrapCode>
    ensures { result ≡ loaded 8 (vector.widen_u w16 w32) memory.now address }
{
    Ok(v128_widen16x4_u(load_at::<u64>(memory, address)?))
}

/// `v128.load32x2_s`: 2 lanes of 32 bits, read signed and extended to 64.
pub fn v128_load32x2_s(memory: &[u8], ptr: u64, offset: u64) -> Result<V128, TrapCode>
    ensures { result ≡ loaded 8 (vector.widen_s w32 w64) memory.now (ptr + offset) }
{
    Ok(v128_widen32x2_s(load::<u64>(memory, ptr, offset)?))
}

/// `v128.load32x2_s` at an address.
pub fn v128_load32x2_s_at(memory: &[u8], address: usize) -> Result<V128, TrapCode>
    ensures { result ≡ loaded 8 (vector.widen_s w32 w64) memory.now address }
{
    Ok(v128_widen32x2_s(load_at::<u64>(memory, address)?))
}

/// `v128.load32x2_u`: 2 lanes of 32 bits, read unsigned and extended to 64.
pub fn v128_load32x2_u(memory: &[u8], ptr: u64, offset: u64) -> Result<V128, TrapCode>
    ensures { result ≡ loaded 8 (vector.widen_u w32 w64) memory.now (ptr + offset) }
{
    Ok(v128_widen32x2_u(load::<u64>(memory, ptr, offset)?))
}

/// `v128.load32x2_u` at an address.
pub fn v128_load32x2_u_at(memory: &[u8], address: usize) -> Result<V128, TrapCode>
    ensures { result ≡ loaded 8 (vector.widen_u w32 w64) memory.now address }
{
    Ok(v128_widen32x2_u(load_at::<u64>(memory, address)?))
}

/// `v128.load8_splat`: 8 bits, in each lane.
pub fn v128_load8_splat(memory: &[u8], ptr: u64, offset: u64) -> Result<V128, TrapCode>
    ensures { result ≡ loaded 1 (splat_of w8) memory.now (ptr + offset) }
{
    Ok(on_vectors::splat::<U8x16>(load::<u8>(memory, ptr, offset)?))
}

/// `v128.load8_splat` at an address.
pub fn v128_load8_splat_at(memory: &[u8], address: usize) -> Result<V128, TrapCode>
    ensures { result ≡ loaded 1 (splat_of w8) memory.now address }
{
    Ok(on_vectors::splat::<U8x16>(load_at::<u8>(memory, address)?))
}

/// `v128.load16_splat`: 16 bits, in each lane.
pub fn v128_load16_splat(memory: &[u8], ptr: u64, offset: u64) -> Result<V128, TrapCode>
    ensures { result ≡ loaded 2 (splat_of w16) memory.now (ptr + offset) }
{
    Ok(on_vectors::splat::<U16x8>(load::<u16>(memory, ptr, offset)?))
}

/// `v128.load16_splat` at an address.
pub fn v128_load16_splat_at(memory: &[u8], address: usize) -> Result<V128, TrapCode>
    ensures { result ≡ loaded 2 (splat_of w16) memory.now address }
{
    Ok(on_vectors::splat::<U16x8>(load_at::<u16>(memory, address)?))
}

/// `v128.load32_splat`: 32 bits, in each lane.
pub fn v128_load32_splat(memory: &[u8], ptr: u64, offset: u64) -> Result<V128, TrapCode>
    ensures { result ≡ loaded 4 (splat_of w32) memory.now (ptr + offset) }
{
    Ok(on_vectors::splat::<U32x4>(load::<u32>(memory, ptr, offset)?))
}

/// `v128.load32_splat` at an address.
pub fn v128_load32_splat_at(memory: &[u8], address: usize) -> Result<V128, TrapCode>
    ensures { result ≡ loaded 4 (splat_of w32) memory.now address }
{
    Ok(on_vectors::splat::<U32x4>(load_at::<u32>(memory, address)?))
}

/// `v128.load64_splat`: 64 bits, in each lane.
pub fn v128_load64_splat(memory: &[u8], ptr: u64, offset: u64) -> Result<V128, TrapCode>
    ensures { result ≡ loaded 8 (splat_of w64) memory.now (ptr + offset) }
{
    Ok(on_vectors::splat::<U64x2>(load::<u64>(memory, ptr, offset)?))
}

/// `v128.load64_splat` at an address.
pub fn v128_load64_splat_at(memory: &[u8], address: usize) -> Result<V128, TrapCode>
    ensures { result ≡ loaded 8 (splat_of w64) memory.now address }
{
    Ok(on_vectors::splat::<U64x2>(load_at::<u64>(memory, address)?))
}

/// `v128.load32_zero`: 32 bits in lane 0, and 0 in the others.
pub fn v128_load32_zero(memory: &[u8], ptr: u64, offset: u64) -> Result<V128, TrapCode>
    ensures { result ≡ loaded 4 (vector.low_zero w32) memory.now (ptr + offset) }
{
    Ok(v128_low32_zero(load::<u32>(memory, ptr, offset)?))
}

/// `v128.load32_zero` at an address.
pub fn v128_load32_zero_at(memory: &[u8], address: usize) -> Result<V128, TrapCode>
    ensures { result ≡ loaded 4 (vector.low_zero w32) memory.now address }
{
    Ok(v128_low32_zero(load_at::<u32>(memory, address)?))
}

/// `v128.load64_zero`: 64 bits in lane 0, and 0 in the others.
pub fn v128_load64_zero(memory: &[u8], ptr: u64, offset: u64) -> Result<V128, TrapCode>
    ensures { result ≡ loaded 8 (vector.low_zero w64) memory.now (ptr + offset) }
{
    Ok(v128_low64_zero(load::<u64>(memory, ptr, offset)?))
}

/// `v128.load64_zero` at an address.
pub fn v128_load64_zero_at(memory: &[u8], address: usize) -> Result<V128, TrapCode>
    ensures { result ≡ loaded 8 (vector.low_zero w64) memory.now address }
{
    Ok(v128_low64_zero(load_at::<u64>(memory, address)?))
}

/// `v128.load8_lane`: `v` with 8 bits in one lane.
pub fn v128_load8_lane(
    memory: &[u8],
    ptr: u64,
    offset: u64,
    v: V128,
    lane: ImmLaneIdx16,
) -> Result<V128, TrapCode>
    ensures { result ≡ loaded 1 (with_lane w8 v lane) memory.now (ptr + offset) }
{
    Ok(u8::with_lane(v, lane, load::<u8>(memory, ptr, offset)?))
}

/// `v128.load8_lane` at an address.
pub fn v128_load8_lane_at(
    memory: &[u8],
    address: usize,
    v: V128,
    lane: ImmLaneIdx16,
) -> Result<V128, TrapCode>
    ensures { result ≡ loaded 1 (with_lane w8 v lane) memory.now address }
{
    Ok(u8::with_lane(v, lane, load_at::<u8>(memory, address)?))
}

/// `v128.load16_lane`: `v` with 16 bits in one lane.
pub fn v128_load16_lane(
    memory: &[u8],
    ptr: u64,
    offset: u64,
    v: V128,
    lane: ImmLaneIdx8,
) -> Result<V128, TrapCode>
    ensures { result ≡ loaded 2 (with_lane w16 v lane) memory.now (ptr + offset) }
{
    Ok(u16::with_lane(v, lane, load::<u16>(memory, ptr, offset)?))
}

/// `v128.load16_lane` at an address.
pub fn v128_load16_lane_at(
    memory: &[u8],
    address: usize,
    v: V128,
    lane: ImmLaneIdx8,
) -> Result<V128, TrapCode>
    ensures { result ≡ loaded 2 (with_lane w16 v lane) memory.now address }
{
    Ok(u16::with_lane(v, lane, load_at::<u16>(memory, address)?))
}

/// `v128.load32_lane`: `v` with 32 bits in one lane.
pub fn v128_load32_lane(
    memory: &[u8],
    ptr: u64,
    offset: u64,
    v: V128,
    lane: ImmLaneIdx4,
) -> Result<V128, TrapCode>
    ensures { result ≡ loaded 4 (with_lane w32 v lane) memory.now (ptr + offset) }
{
    Ok(u32::with_lane(v, lane, load::<u32>(memory, ptr, offset)?))
}

/// `v128.load32_lane` at an address.
pub fn v128_load32_lane_at(
    memory: &[u8],
    address: usize,
    v: V128,
    lane: ImmLaneIdx4,
) -> Result<V128, TrapCode>
    ensures { result ≡ loaded 4 (with_lane w32 v lane) memory.now address }
{
    Ok(u32::with_lane(v, lane, load_at::<u32>(memory, address)?))
}

/// `v128.load64_lane`: `v` with 64 bits in one lane.
pub fn v128_load64_lane(
    memory: &[u8],
    ptr: u64,
    offset: u64,
    v: V128,
    lane: ImmLaneIdx2,
) -> Result<V128, TrapCode>
    ensures { result ≡ loaded 8 (with_lane w64 v lane) memory.now (ptr + offset) }
{
    Ok(u64::with_lane(v, lane, load::<u64>(memory, ptr, offset)?))
}

/// `v128.load64_lane` at an address.
pub fn v128_load64_lane_at(
    memory: &[u8],
    address: usize,
    v: V128,
    lane: ImmLaneIdx2,
) -> Result<V128, TrapCode>
    ensures { result ≡ loaded 8 (with_lane w64 v lane) memory.now address }
{
    Ok(u64::with_lane(v, lane, load_at::<u64>(memory, address)?))
}

/// `v128.store8_lane`: the 8 bits of one lane of `v`.
pub fn v128_store8_lane(
    memory: &mut [u8],
    ptr: u64,
    offset: u64,
    v: V128,
    lane: ImmLaneIdx16,
) -> Result<(), TrapCode>
    ensures { IsStore memory.old (ptr + offset)
        (le_bytes 1 (lanes.lane w8 v lane)) memory.new result }
{
    store::<u8>(memory, ptr, offset, u8::lane_at(v, lane))
}

/// `v128.store8_lane` at an address.
pub fn v128_store8_lane_at(
    memory: &mut [u8],
    address: usize,
    v: V128,
    lane: ImmLaneIdx16,
) -> Result<(), TrapCode>
    ensures { IsStore memory.old address (le_bytes 1 (lanes.lane w8 v lane)) memory.new result }
{
    store_at::<u8>(memory, address, u8::lane_at(v, lane))
}

/// `v128.store16_lane`: the 16 bits of one lane of `v`.
pub fn v128_store16_lane(
    memory: &mut [u8],
    ptr: u64,
    offset: u64,
    v: V128,
    lane: ImmLaneIdx8,
) -> Result<(), TrapCode>
    ensures { IsStore memory.old (ptr + offset)
        (le_bytes 2 (lanes.lane w16 v lane)) memory.new result }
{
    store::<u16>(memory, ptr, offset, u16::lane_at(v, lane))
}

/// `v128.store16_lane` at an address.
pub fn v128_store16_lane_at(
    memory: &mut [u8],
    address: usize,
    v: V128,
    lane: ImmLaneIdx8,
) -> Result<(), TrapCode>
    ensures { IsStore memory.old address (le_bytes 2 (lanes.lane w16 v lane)) memory.new result }
{
    store_at::<u16>(memory, address, u16::lane_at(v, lane))
}

/// `v128.store32_lane`: the 32 bits of one lane of `v`.
pub fn v128_store32_lane(
    memory: &mut [u8],
    ptr: u64,
    offset: u64,
    v: V128,
    lane: ImmLaneIdx4,
) -> Result<(), TrapCode>
    ensures { IsStore memory.old (ptr + offset)
        (le_bytes 4 (lanes.lane w32 v lane)) memory.new result }
{
    store::<u32>(memory, ptr, offset, u32::lane_at(v, lane))
}

/// `v128.store32_lane` at an address.
pub fn v128_store32_lane_at(
    memory: &mut [u8],
    address: usize,
    v: V128,
    lane: ImmLaneIdx4,
) -> Result<(), TrapCode>
    ensures { IsStore memory.old address (le_bytes 4 (lanes.lane w32 v lane)) memory.new result }
{
    store_at::<u32>(memory, address, u32::lane_at(v, lane))
}

/// `v128.store64_lane`: the 64 bits of one lane of `v`.
pub fn v128_store64_lane(
    memory: &mut [u8],
    ptr: u64,
    offset: u64,
    v: V128,
    lane: ImmLaneIdx2,
) -> Result<(), TrapCode>
    ensures { IsStore memory.old (ptr + offset)
        (le_bytes 8 (lanes.lane w64 v lane)) memory.new result }
{
    store::<u64>(memory, ptr, offset, u64::lane_at(v, lane))
}

/// `v128.store64_lane` at an address.
pub fn v128_store64_lane_at(
    memory: &mut [u8],
    address: usize,
    v: V128,
    lane: ImmLaneIdx2,
) -> Result<(), TrapCode>
    ensures { IsStore memory.old address (le_bytes 8 (lanes.lane w64 v lane)) memory.new result }
{
    store_at::<u64>(memory, address, u64::lane_at(v, lane))
}
