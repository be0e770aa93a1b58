//! Data segments, and the copies of bytes that they and replies are made of.
ghost use Rattle.std.specs.Prelude.{◌≡◌, ◌<◌, [], IfOk, OnErr, length};
ghost use Rattle.std.specs.Vec.{vec_capacity};

use std::alloc::{AllocError, Global};
use std::marker::Model;

/// A data segment: the bytes that `Call::InitMemory` copies to a memory. Once dropped it has none.
/// Core specification, data instances.
#[derive(Debug, Drop)]
pub struct DataSegment {
    bytes: Vec<u8>,
}

impl Model for DataSegment {
    ghost use Rattle.std.specs.Prelude.{◌≡◌, ℕ, List, length};
    ghost use Rattle.std.specs.Vec.{vec_capacity};

    ghost Value = { List ℕ };

    ghost view = { λ segment. segment.bytes.items };

    ghost invariant = { λ segment.
        length segment.bytes.items ≡ 0 → vec_capacity segment.bytes ≡ 0 };
}

impl DataSegment {
    /// The segment of a copy of the bytes.
    pub(crate) fn new(alloc: Global, bytes: &[u8]) -> Result<Self, AllocError>
        ensures made { IfOk result (λ segment. segment ≡ bytes.now) }
        ensures refused { OnErr result (0 < length bytes.now) }
    {
        let copy = copy_of_bytes(alloc, bytes)?;
        Ok(DataSegment { bytes: copy })
    }

    /// The bytes.
    pub fn bytes(&self) -> &[u8]
        ensures { result.now ≡ self.now }
    {
        self.bytes.as_slice()
    }

    /// How many bytes it has.
    pub fn size(&self) -> usize
        ensures { result ≡ length self.now }
    {
        self.bytes.len()
    }

    /// Drops the bytes, and gives their memory back. Core specification, data.drop.
    pub(crate) fn drop_bytes(&mut self)
        ensures { self.new ≡ [] }
    {
        self.bytes = Vec::new(*self.bytes.allocator());
    }
}

/// A copy of bytes. That of no byte takes no memory.
pub(crate) fn copy_of_bytes(alloc: Global, bytes: &[u8]) -> Result<Vec<u8>, AllocError>
    ensures copied { IfOk result (λ copy. copy.items ≡ bytes.now) }
    ensures empty { IfOk result (λ copy. length copy.items ≡ 0 → vec_capacity copy ≡ 0) }
    ensures refused { OnErr result (0 < length bytes.now) }
{
    if bytes.is_empty() {
        return Ok(Vec::new(alloc));
    }
    bytes.to_vec(alloc)
}
