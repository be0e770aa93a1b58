//! A pool of machines under common caps that C holds by a handle, or none. A call works on the pool
//! where it is; loads, sizes and fuel are replies of a tenant's machine alone.
//! `include/wasmi_machine.h` says which statuses calls return, in which order.
ghost use Rattle.std.specs.Prelude.{◌≡◌, ◌-◌, ◌≤◌, ◌<◌, Err, IfErr, IfOk, Ok, Some, None, is_some, MatchOption};
ghost use Rattle.wasmi_budget.specs.Pool.{tenant_rules};
ghost use Rattle.wasmi_budget.specs.declared.tenant.Tenant.{Tenant};
ghost use Rattle.wasmi_machine.specs.State.{world};
ghost use Rattle.wasmi_machine.specs.Steps.{RepliesWith};
ghost use Rattle.wasmi_machine.specs.declared.calls.Call.TheVariants.{CopyMemory, FillMemory, GetFuel, GrowMemory, InitMemory, Load, NewData, Store, Write};
ghost use Rattle.wasmi_meter.specs.Limiter.{optional_rules};
ghost use Rattle.wasmi_meter.specs.declared.fuel.FuelError.TheVariants.{FuelMeteringDisabled, OutOfFuel};
ghost use Rattle.wasmi_c.specs.Machine.Calls.{ActsOnHeld, item_load, item_store, vector_binary};
ghost use Rattle.wasmi_c.specs.Machine.Replies.{only};
ghost use Rattle.wasmi_c.specs.Pool.{KeepsCaps, MakesPool, TenantRepliesToStruct};
ghost use Rattle.wasmi_c.specs.declared.status.TheConstants.{NO_POOL};

mod pool_box;

use crate::held_box::HeldBox;
use crate::machine::call_struct::{
    BINARY, CallStruct, LOAD, STORE, item_load_numbered, item_store_numbered,
    vector_binary_numbered,
};
use crate::machine::limited_machine::{headless, leave, read_out, references, write_out};
use crate::machine::limits::{Limits, Room, Totals};
use crate::machine::reply_struct::ReplyStruct;
use crate::pool::pool_box::PoolBox;
use crate::status::{DONE, HAS_POOL, LENGTHS_DIFFER, NO_CALL, NO_POOL, NO_ROOM, NO_TENANT};
use crate::types::reference_type;
use std::alloc::Global;
use std::marker::Model;
use std::mem;
use wasmi_budget::{Pool, PoolError, ReserveError};
use wasmi_machine::{Call, Machine, Reply};
use wasmi_meter::FuelError;
use wasmi_ops::{LoadOp, StoreOp};
use wasmi_raw::RawVal;

/// What a call on the pool of a handle returns; or what is returned where there is none.
#[macro_export]
macro_rules! on_pool {
    ($handle:expr, $pool:ident => $call:expr) => {
        $crate::on_pool!($handle, ReplyStruct::only(NO_POOL), $pool => $call)
    };
    ($handle:expr, $none:expr, $pool:ident => $call:expr) => {{
        if $handle.is_made() {
            let $pool = $handle.pool.pool_mut();
            let reply = $call;
            $pool.show_within();
            reply
        } else {
            $none
        }
    }};
}

/// A pool, or none. A handle of zeros has none.
#[repr(C)]
pub struct PoolHandle {
    /// The pool, or none.
    pub pool: PoolBox,
    is_made: bool,
    ghost tells: { is_some pool.held ≡ is_made },
}

impl PoolHandle {
    /// Whether the handle has a pool.
    pub fn is_made(&self) -> bool
        ensures { result ≡ is_some self.now.pool.held }
    {
        self.is_made
    }

    /// Makes a pool with these caps in a handle that has none.
    pub fn new_pool(&mut self, alloc: Global, bytes: u64, elements: u64) -> u8
        ensures { MakesPool bytes elements self.old.pool.held result self.new.pool.held }
    {
        if self.is_made() {
            return HAS_POOL;
        }
        let pool = TenantPool {
            pool: Pool::new(alloc, bytes, elements),
        };
        let Ok(pool) = Box::new(alloc, pool) else {
            return NO_ROOM;
        };
        let made = PoolHandle {
            pool: PoolBox::from_held(HeldBox::from_box(pool)),
            is_made: true,
        };
        let PoolHandle { pool, is_made: _ } = mem::replace(self, made);
        pool.into_held().end();
        DONE
    }

    /// Ends the pool of a handle with all its tenants, if there is one.
    pub fn drop_pool(&mut self, alloc: Global)
        ensures { self.new.pool.held ≡ None }
    {
        let none = PoolHandle {
            pool: PoolBox::from_held(HeldBox::empty(alloc)),
            is_made: false,
        };
        let PoolHandle { pool, is_made } = mem::replace(self, none);
        let held = pool.into_held();
        if is_made {
            let _pool = held.into_box();
        } else {
            held.end();
        }
    }

    /// Replies to a call on the machine of a tenant, if the numbers stand for one.
    #[inline(always)]
    pub fn call(&mut self, tenant: usize, call: &CallStruct) -> ReplyStruct
        ensures step { ActsOnHeld (only NO_POOL) self.old.pool.held result self.new.pool.held
            (TenantRepliesToStruct tenant call.now result) }
        ensures caps { KeepsCaps self.old.pool.held self.new.pool.held }
    {
        on_pool!(self, pool => pool.reply_to_struct(tenant, call))
    }
}

/// A pool whose tenants are called by numbers and by lines.
#[derive(Drop)]
pub struct TenantPool {
    pool: Pool<'static>,
}

impl Model for TenantPool {
    ghost use Rattle.wasmi_budget.specs.Pool.{PoolValue};

    ghost Value = { PoolValue };

    ghost view = { λ held. held.pool };
}

impl TenantPool {
    ghost use Rattle.wasmi_budget.specs.Pool.{IsWithinCaps, RunsTenant};
    ghost use Rattle.wasmi_c.specs.Pool.{AddsNewTenant, RefusesTenant, RemovesByStatus, RunsTenantLines, TenantPaysFuel, TenantReadsOut, TenantReplies, TenantRepliesInStatus, TenantRepliesInWord, TenantRepliesToCopy, TenantRepliesToItems, TenantRepliesToList, TenantRepliesToSegment, TenantReserves, pool_totals, tenant_totals, TenantReservesElements};

    /// Does nothing: its contract says that the pool is within its caps.
    pub fn show_within(&self)
        ensures { IsWithinCaps self.now }
    {
        let _ = self.pool.len();
    }

    /// Adds a machine with nothing on it and the meter of the limits, whose caps aren't read.
    pub fn add(&mut self, alloc: Global, limits: &Limits) -> ReplyStruct
        ensures step { AddsNewTenant limits.now result self.old self.new }
        ensures caps { self.new.caps ≡ self.old.caps }
    {
        match self.pool.add(Machine::new(alloc, limits.fuel())) {
            Ok(index) => ReplyStruct::with_number(DONE, index as u64),
            Err(_) => ReplyStruct::only(NO_ROOM),
        }
    }

    /// Removes a tenant and ends its machine, if there is one.
    pub fn remove(&mut self, tenant: usize) -> u8
        ensures step { RemovesByStatus tenant result self.old self.new }
        ensures caps { self.new.caps ≡ self.old.caps }
    {
        match self.pool.remove(tenant) {
            Some(_machine) => DONE,
            None => NO_TENANT,
        }
    }

    /// Replies to the call that numbers stand for, if there is one, on the machine of a tenant.
    #[inline(always)]
    #[tactic(auto, unfolding(crate::specs::Machine::CallStructs::call_of))]
    pub fn reply_to_struct(&mut self, tenant: usize, numbers: &CallStruct) -> ReplyStruct
        ensures step { TenantRepliesToStruct tenant numbers.now result self.old self.new }
        ensures caps { self.new.caps ≡ self.old.caps }
    {
        let (memory, ptr, offset) = (numbers.index, numbers.ptr, numbers.offset);
        // These read their own fields alone: to make a `Call` of all takes longer than the call.
        if numbers.kind == LOAD
            && let Some(op) = item_load_numbered(numbers.op)
        {
            return self.load_reply(tenant, op, memory, ptr, offset);
        }
        if numbers.kind == STORE
            && let Some(op) = item_store_numbered(numbers.op)
        {
            return self.store_reply(tenant, op, memory, ptr, offset, numbers.value);
        }
        if numbers.kind == BINARY
            && let Some(op) = vector_binary_numbered(numbers.op)
        {
            let (dst, a, b) = (numbers.dst, numbers.a, numbers.b);
            return self.reply(tenant, &Call::Binary { op, dst, a, b });
        }
        self.reply_to_any_struct(tenant, numbers)
    }

    /// Replies to the call that numbers stand for by a `Call` of all of them. It is no part of
    /// `reply_to_struct`, which has one caller, so that it is inlined there.
    #[tactic(auto, unfolding(crate::specs::Machine::CallStructs::call_of))]
    fn reply_to_any_struct(&mut self, tenant: usize, numbers: &CallStruct) -> ReplyStruct
        ensures step { TenantRepliesToStruct tenant numbers.now result self.old self.new }
        ensures caps { self.new.caps ≡ self.old.caps }
    {
        match &numbers.call() {
            Some(call) => self.reply(tenant, call).by_fields(),
            None => ReplyStruct::only(NO_CALL),
        }
    }

    /// Replies to the calls that numbers stand for, one after the other, on the machine of a tenant,
    /// and writes the replies into the caller's, if there are as many. It takes no memory for them.
    #[tactic(auto, unfolding(crate::specs::Machine::Calls::RepliesInTurn))]
    pub fn run_into(
        &mut self,
        tenant: usize,
        calls: &[CallStruct],
        replies: &mut [ReplyStruct],
    ) -> u8
        ensures step { TenantRepliesToList tenant calls.now replies.old (result, replies.new)
            self.old self.new }
        ensures caps { self.new.caps ≡ self.old.caps }
    {
        let Some(_) = self.pool.machine(tenant) else {
            return NO_TENANT;
        };
        if replies.len() != calls.len() {
            return LENGTHS_DIFFER;
        }
        for i in 0..calls.len() {
            replies[i] = self.reply_to_any_struct(tenant, &calls[i]);
        }
        DONE
    }

    /// Reserves so many more slots of each kind on a tenant's machine, or none if some are refused.
    pub fn reserve(&mut self, tenant: usize, room: &Room) -> u8
        ensures step { TenantReserves tenant room.now result self.old self.new }
        ensures caps { self.new.caps ≡ self.old.caps }
    {
        match self.pool.reserve(tenant, room.slots()) {
            Ok(()) => DONE,
            Err(ReserveError::NoTenant) => NO_TENANT,
            Err(ReserveError::OutOfMemory) => NO_ROOM,
        }
    }

    /// Reserves memory for so many elements in all of a table of a tenant. If the memory is refused,
    /// nothing has changed.
    pub fn reserve_elements(&mut self, tenant: usize, table: usize, elements: u64) -> u8
        ensures step { TenantReservesElements tenant table elements result self.old self.new }
        ensures caps { self.new.caps ≡ self.old.caps }
    {
        match self.pool.reserve_elements(tenant, table, elements) {
            Ok(reply) => ReplyStruct::from_reply(&reply).status,
            Err(_) => NO_TENANT,
        }
    }

    #[inline(always)]
    #[tactic(auto, unfolding(crate::specs::Pool::TenantReplies))]
    fn load_reply(
        &self,
        tenant: usize,
        op: LoadOp,
        memory: usize,
        ptr: u64,
        offset: u64,
    ) -> ReplyStruct
        ensures { TenantReplies tenant (Load op memory ptr offset) result self.now self.now }
    {
        match self.pool.machine(tenant) {
            Some(machine) => {
                ReplyStruct::from_common(load_item(machine, op, memory, ptr, offset))
            }
            None => ReplyStruct::only(NO_TENANT),
        }
    }

    #[inline(always)]
    fn store_reply(
        &mut self,
        tenant: usize,
        op: StoreOp,
        memory: usize,
        ptr: u64,
        offset: u64,
        value: RawVal,
    ) -> ReplyStruct
        ensures step { TenantReplies tenant (Store op memory ptr offset value) result self.old
            self.new }
        ensures caps { self.new.caps ≡ self.old.caps }
    {
        let call = Call::Store {
            op,
            memory,
            ptr,
            offset,
            value,
        };
        self.reply(tenant, &call)
    }

    #[inline(always)]
    #[tactic(auto, unfolding(crate::specs::Pool::TenantReplies))]
    fn reply(&mut self, tenant: usize, call: &Call) -> ReplyStruct
        ensures step { TenantReplies tenant call.now result self.old self.new }
        ensures caps { self.new.caps ≡ self.old.caps }
    {
        match self.pool.step(tenant, call) {
            Ok(reply) => ReplyStruct::from_common(reply),
            Err(_) => ReplyStruct::only(NO_TENANT),
        }
    }

    /// Replies to one call on the machine of a tenant, and leaves a status and a word of the reply.
    #[inline(always)]
    #[tactic(auto, unfolding(crate::specs::Pool::TenantRepliesInWord))]
    fn reply_in_word(&mut self, tenant: usize, call: &Call, word: &mut u64) -> u8
        ensures step { TenantRepliesInWord tenant (Some call.now) word.old (result, word.new)
            self.old self.new }
        ensures caps { self.new.caps ≡ self.old.caps }
    {
        match self.pool.step(tenant, call) {
            Ok(reply) => leave(reply, word),
            Err(_) => NO_TENANT,
        }
    }

    /// Loads an item from a memory of a tenant by the load that has the number, if there is one.
    #[inline(always)]
    pub fn load(
        &self,
        tenant: usize,
        number: u16,
        memory: usize,
        ptr: u64,
        offset: u64,
        value: &mut u64,
    ) -> u8
        ensures { TenantRepliesInWord tenant (item_load number memory ptr offset) value.old
            (result, value.new) self.now self.now }
    {
        if self.pool.is_in_place(tenant) {
            return self.load_of(tenant, number, memory, ptr, offset, value);
        }
        self.load_searched(tenant, number, memory, ptr, offset, value)
    }

    /// `load` where a search finds the tenant: apart, so that `load` keeps no registers for it.
    #[cold]
    #[inline(never)]
    fn load_searched(
        &self,
        tenant: usize,
        number: u16,
        memory: usize,
        ptr: u64,
        offset: u64,
        value: &mut u64,
    ) -> u8
        ensures { TenantRepliesInWord tenant (item_load number memory ptr offset) value.old
            (result, value.new) self.now self.now }
    {
        self.load_of(tenant, number, memory, ptr, offset, value)
    }

    /// `load` by either way.
    #[inline(always)]
    #[tactic(auto, unfolding(crate::specs::Pool::TenantRepliesInWord))]
    fn load_of(
        &self,
        tenant: usize,
        number: u16,
        memory: usize,
        ptr: u64,
        offset: u64,
        value: &mut u64,
    ) -> u8
        ensures { TenantRepliesInWord tenant (item_load number memory ptr offset) value.old
            (result, value.new) self.now self.now }
    {
        let Some(op) = item_load_numbered(number) else {
            return NO_CALL;
        };
        match self.pool.machine(tenant) {
            Some(machine) => leave(load_item(machine, op, memory, ptr, offset), value),
            None => NO_TENANT,
        }
    }

    /// Tells the fuel that is left on the machine of a tenant.
    #[inline(always)]
    #[tactic(auto, unfolding(crate::specs::Pool::TenantRepliesInWord))]
    pub fn fuel_left(&self, tenant: usize, left: &mut u64) -> u8
        ensures { TenantRepliesInWord tenant (Some GetFuel) left.old (result, left.new) self.now
            self.now }
    {
        match self.pool.machine(tenant) {
            Some(machine) => leave(fuel_reply(machine), left),
            None => NO_TENANT,
        }
    }

    /// Stores an item to a memory of a tenant by the store that has the number, if there is one.
    #[inline(always)]
    pub fn store(
        &mut self,
        tenant: usize,
        number: u16,
        memory: usize,
        ptr: u64,
        offset: u64,
        value: u64,
    ) -> u8
        ensures step { TenantRepliesInStatus tenant (item_store number memory ptr offset value)
            result self.old self.new }
        ensures caps { self.new.caps ≡ self.old.caps }
    {
        if self.pool.is_in_place(tenant) {
            return self.store_of(tenant, number, memory, ptr, offset, value);
        }
        self.store_searched(tenant, number, memory, ptr, offset, value)
    }

    /// `store` where a search finds the tenant: apart, so that `store` keeps no registers for it.
    #[cold]
    #[inline(never)]
    fn store_searched(
        &mut self,
        tenant: usize,
        number: u16,
        memory: usize,
        ptr: u64,
        offset: u64,
        value: u64,
    ) -> u8
        ensures step { TenantRepliesInStatus tenant (item_store number memory ptr offset value)
            result self.old self.new }
        ensures caps { self.new.caps ≡ self.old.caps }
    {
        self.store_of(tenant, number, memory, ptr, offset, value)
    }

    /// `store` by either way.
    #[inline(always)]
    #[tactic(auto, unfolding(crate::specs::Pool::TenantRepliesInStatus))]
    fn store_of(
        &mut self,
        tenant: usize,
        number: u16,
        memory: usize,
        ptr: u64,
        offset: u64,
        value: u64,
    ) -> u8
        ensures step { TenantRepliesInStatus tenant (item_store number memory ptr offset value)
            result self.old self.new }
        ensures caps { self.new.caps ≡ self.old.caps }
    {
        let Some(op) = item_store_numbered(number) else {
            return NO_CALL;
        };
        let value = RawVal { lo: value, hi: 0 };
        self.store_reply(tenant, op, memory, ptr, offset, value)
            .status
    }

    /// Executes the instruction on two vectors that has the number, if any, on a tenant's machine.
    #[inline(always)]
    #[tactic(auto, unfolding(crate::specs::Pool::TenantRepliesInStatus))]
    pub fn binary(&mut self, tenant: usize, number: u16, dst: u8, a: u8, b: u8) -> u8
        ensures step { TenantRepliesInStatus tenant (vector_binary number dst a b) result self.old
            self.new }
        ensures caps { self.new.caps ≡ self.old.caps }
    {
        let Some(op) = vector_binary_numbered(number) else {
            return NO_CALL;
        };
        let call = Call::Binary { op, dst, a, b };
        self.reply(tenant, &call).status
    }

    /// Grows a memory of a tenant by so many pages, and leaves a status and a word of the reply.
    #[inline(always)]
    #[tactic(auto, unfolding(crate::specs::Pool::TenantRepliesInWord))]
    pub fn grow(&mut self, tenant: usize, memory: usize, pages: u64, number: &mut u64) -> u8
        ensures step { TenantRepliesInWord tenant (Some (GrowMemory memory pages)) number.old
            (result, number.new) self.old self.new }
        ensures caps { self.new.caps ≡ self.old.caps }
    {
        if pages == 0 {
            return self.grow_by_none(tenant, memory, number);
        }
        self.reply_in_word(tenant, &Call::GrowMemory { memory, pages }, number)
    }

    /// Grows a memory of a tenant by no page. It asks no limiter, so none is made.
    #[inline(always)]
    #[tactic(auto, unfolding(crate::specs::Pool::TenantRepliesInWord))]
    fn grow_by_none(&self, tenant: usize, memory: usize, number: &mut u64) -> u8
        ensures { TenantRepliesInWord tenant (Some (GrowMemory memory 0)) number.old
            (result, number.new) self.now self.now }
    {
        match self.pool.machine(tenant) {
            Some(machine) => leave(size_reply(machine, memory), number),
            None => NO_TENANT,
        }
    }

    /// Fills a range of a tenant's memory with a byte, and leaves a status and a word of the reply.
    #[inline(always)]
    pub fn fill(
        &mut self,
        tenant: usize,
        memory: usize,
        dst: u64,
        value: u8,
        len: u64,
        number: &mut u64,
    ) -> u8
        ensures step { TenantRepliesInWord tenant (Some (FillMemory memory dst value len))
            number.old (result, number.new) self.old self.new }
        ensures caps { self.new.caps ≡ self.old.caps }
    {
        let call = Call::FillMemory {
            memory,
            dst,
            value,
            len,
        };
        self.reply_in_word(tenant, &call, number)
    }

    /// Copies a range of a memory of a tenant to another one of it, or within it, and leaves a
    /// status and a word of the reply.
    #[inline(always)]
    pub fn copy(
        &mut self,
        tenant: usize,
        dst_memory: usize,
        dst: u64,
        src_memory: usize,
        src: u64,
        len: u64,
        number: &mut u64,
    ) -> u8
        ensures step { TenantRepliesInWord tenant
            (Some (CopyMemory dst_memory dst src_memory src len)) number.old (result, number.new)
            self.old self.new }
        ensures caps { self.new.caps ≡ self.old.caps }
    {
        let call = Call::CopyMemory {
            dst_memory,
            dst,
            src_memory,
            src,
            len,
        };
        self.reply_in_word(tenant, &call, number)
    }

    /// Copies a range of a data segment of a tenant to a memory of it, and leaves a status and a
    /// word of the reply.
    #[inline(always)]
    pub fn init(
        &mut self,
        tenant: usize,
        memory: usize,
        segment: usize,
        dst: u64,
        src: u32,
        len: u32,
        number: &mut u64,
    ) -> u8
        ensures step { TenantRepliesInWord tenant (Some (InitMemory memory segment dst src len))
            number.old (result, number.new) self.old self.new }
        ensures caps { self.new.caps ≡ self.old.caps }
    {
        let call = Call::InitMemory {
            memory,
            segment,
            dst,
            src,
            len,
        };
        self.reply_in_word(tenant, &call, number)
    }

    /// Runs calls on the machine of a tenant, or says why not; then the pool is the same.
    fn run(&mut self, tenant: usize, calls: &[Call]) -> Result<Vec<Reply>, ReplyStruct>
        ensures ran { IfOk result
            (λ replies. RunsTenant self.old tenant calls.now replies.items self.new) }
        ensures refused { IfErr result
            (λ reply. RefusesTenant tenant self.old reply × (self.new ≡ self.old)) }
        ensures caps { self.new.caps ≡ self.old.caps }
    {
        match self.pool.run(tenant, calls) {
            Ok(replies) => Ok(replies),
            Err(PoolError::NoTenant) => Err(ReplyStruct::only(NO_TENANT)),
            Err(PoolError::OutOfMemory) => Err(ReplyStruct::only(NO_ROOM)),
        }
    }

    /// Copies the bytes of a memory of a tenant from an offset on to the caller's.
    pub fn read(&self, tenant: usize, memory: usize, offset: usize, bytes: &mut [u8]) -> ReplyStruct
        ensures { TenantReadsOut tenant memory offset bytes.old result bytes.new self.now self.now }
    {
        let Some(machine) = self.pool.machine(tenant) else {
            return ReplyStruct::only(NO_TENANT);
        };
        read_out(machine, memory, offset, bytes)
    }

    /// Writes the caller's bytes over those of a memory of a tenant from an offset on.
    pub fn write(
        &mut self,
        tenant: usize,
        memory: usize,
        offset: usize,
        bytes: &[u8],
    ) -> ReplyStruct
        ensures step { TenantRepliesToItems tenant (Write memory offset) bytes.now result self.old
            self.new }
        ensures caps { self.new.caps ≡ self.old.caps }
    {
        match self.pool.write(tenant, memory, offset, bytes) {
            Ok(reply) => ReplyStruct::from_common(reply),
            Err(_) => ReplyStruct::only(NO_TENANT),
        }
    }

    /// Makes an element segment of a copy of the caller's references on the machine of a tenant, if
    /// there is such a type.
    #[tactic(auto, unfolding(crate::specs::Pool::TenantRepliesToCopy))]
    pub fn new_segment(
        &mut self,
        alloc: Global,
        tenant: usize,
        ty: u8,
        items: &[u32],
    ) -> ReplyStruct
        ensures step { TenantRepliesToSegment tenant ty items.now result self.old self.new }
        ensures caps { self.new.caps ≡ self.old.caps }
    {
        let Some(ty) = reference_type(ty) else {
            return ReplyStruct::only(NO_CALL);
        };
        let Ok(items) = references(alloc, items) else {
            return ReplyStruct::only(NO_ROOM);
        };
        self.reply(tenant, &Call::NewSegment { ty, items })
    }

    /// Makes a data segment of a copy of the caller's bytes on the machine of a tenant.
    #[tactic(auto, unfolding(crate::specs::Pool::TenantRepliesToCopy))]
    pub fn new_data(&mut self, alloc: Global, tenant: usize, bytes: &[u8]) -> ReplyStruct
        ensures step { TenantRepliesToCopy tenant NewData bytes.now result self.old self.new }
        ensures caps { self.new.caps ≡ self.old.caps }
    {
        let Ok(copy) = Vec::from_slice(alloc, bytes) else {
            return ReplyStruct::only(NO_ROOM);
        };
        self.reply(tenant, &Call::NewData(copy))
    }

    /// Takes fuel that isn't a call's from the machine of a tenant: the meter is set to what is left.
    pub fn consume_fuel(&mut self, tenant: usize, amount: u64) -> ReplyStruct
        ensures step { TenantPaysFuel tenant amount result self.old self.new }
        ensures caps { self.new.caps ≡ self.old.caps }
    {
        let Some(machine) = self.pool.machine(tenant) else {
            return ReplyStruct::only(NO_TENANT);
        };
        match left_after(machine, amount) {
            Ok(left) => match self.pool.step(tenant, &Call::SetFuel(left)) {
                Ok(_) => ReplyStruct::with_number(DONE, left),
                Err(_) => ReplyStruct::only(NO_TENANT),
            },
            Err(error) => ReplyStruct::from_reply(&Reply::Fuel(error)),
        }
    }

    /// Runs lines of calls on a tenant's machine, and writes their replies to the front of a text.
    #[tactic(auto, unfolding(crate::specs::Pool::RunsTenantLines))]
    pub fn run_lines(
        &mut self,
        alloc: Global,
        tenant: usize,
        lines: &[u8],
        text: &mut [u8],
    ) -> ReplyStruct
        ensures step { RunsTenantLines tenant lines.now text.old result text.new self.old self.new }
        ensures caps { self.new.caps ≡ self.old.caps }
    {
        let script = match headless(alloc, lines) {
            Ok(script) => script,
            Err(refusal) => return refusal,
        };
        let calls = script.parts.calls();
        let replies = match self.run(tenant, calls) {
            Ok(replies) => replies,
            Err(refusal) => return refusal,
        };
        write_out(calls, &replies, text)
    }

    /// What a tenant's machine has.
    pub fn tenant_totals(&self, tenant: usize) -> Totals
        ensures { result ≡ tenant_totals tenant self.now }
    {
        let pool = &self.pool;
        let held = (pool.held_bytes(tenant), pool.held_elements(tenant));
        let (Some(bytes), Some(elements)) = held else {
            return Totals::from_amounts(NO_TENANT, 0, 0);
        };
        Totals::from_amounts(DONE, u128::from(bytes), u128::from(elements))
    }

    /// What all tenants' machines have.
    pub fn totals(&self) -> Totals
        ensures { result ≡ pool_totals self.now }
    {
        let held = self.pool.held_by_all();
        Totals::from_amounts(DONE, u128::from(held.bytes), u128::from(held.elements))
    }
}

/// The reply of a tenant's machine to the load of an item, which reaches no limiter.
#[inline(always)]
fn load_item(machine: &Machine, op: LoadOp, memory: usize, ptr: u64, offset: u64) -> Reply
    ensures { (tenant : Tenant) → RepliesWith (optional_rules tenant_rules)
        (Load op memory ptr offset) (world machine.now (Some tenant)) result
        (world machine.now (Some tenant)) }
{
    let Some(memory) = machine.memory(memory) else {
        return Reply::NoSuch;
    };
    match op.load(memory.data(), ptr, offset) {
        Ok(raw) => Reply::Value(raw),
        Err(trap) => Reply::Trap(trap),
    }
}

/// The reply of a tenant's machine to the question for the fuel left, which reaches no limiter.
#[inline(always)]
fn fuel_reply(machine: &Machine) -> Reply
    ensures { (tenant : Tenant) → RepliesWith (optional_rules tenant_rules) GetFuel
        (world machine.now (Some tenant)) result (world machine.now (Some tenant)) }
{
    match machine.fuel().get_fuel() {
        Ok(amount) => Reply::Number(amount),
        Err(error) => Reply::Fuel(error),
    }
}

/// The reply of a tenant's machine to a growth of a memory by no page, which reaches no limiter.
#[inline(always)]
fn size_reply(machine: &Machine, memory: usize) -> Reply
    ensures { (tenant : Tenant) → RepliesWith (optional_rules tenant_rules) (GrowMemory memory 0)
        (world machine.now (Some tenant)) result (world machine.now (Some tenant)) }
{
    match machine.memory(memory) {
        Some(memory) => Reply::Number(memory.size()),
        None => Reply::NoSuch,
    }
}

/// What is left of the fuel of a tenant's machine once an amount is taken; or why so much isn't. It
/// is inlined before LLVM makes one number of both results, for which each call would wait.
#[inline(always)]
fn left_after(machine: &Machine, amount: u64) -> Result<u64, FuelError>
    ensures { MatchOption machine.now.meter.left (result ≡ Err FuelMeteringDisabled)
        (λ left. (amount ≤ left → result ≡ Ok (left - amount))
        × (left < amount → result ≡ Err (OutOfFuel amount))) }
{
    let left = machine.fuel().get_fuel()?;
    match left.checked_sub(amount) {
        Some(left) => Ok(left),
        None => Err(FuelError::out_of_fuel(amount)),
    }
}
