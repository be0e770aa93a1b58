//! Element segments: references that a table can be initialized from, how they are read of an
//! iterator, and why one isn't made.
ghost use Rattle.std.specs.Prelude.{◌≡◌, ◌<◌, ◌^◌, length, Some};

use std::alloc::Global;
use std::fmt;
use std::marker::Model;
use wasmi_raw::RawRef;
use wasmi_types::RefType;

/// Why an element segment cannot be made. Own: upstream panics above 2^32 - 1 items, and ends the
/// process if it is out of memory.
#[derive(Debug, PartialEq, Eq, Drop)]
pub enum SegmentError {
    /// There are 2^32 items or more.
    TooManyItems,
    /// The system refused memory.
    OutOfSystemMemory,
}

impl SegmentError {
    ghost use Rattle.wasmi_store.specs.Segment.{segment_error_text};

    /// Its text.
    pub fn words(&self) -> &'static str
        ensures { result.now ≡ segment_error_text self.now }
    {
        match self {
            Self::TooManyItems => "too many items in an element segment",
            Self::OutOfSystemMemory => "out of memory",
        }
    }
}

impl fmt::Display for SegmentError {
    ghost use Rattle.wasmi_store.specs.Segment.{segment_error_text};

    ghost output = { λ error. Some (segment_error_text error) };

    fn fmt<W: fmt::Write>(&self, f: &mut fmt::Formatter<W>) -> fmt::Result {
        f.write_str(self.words())
    }
}

impl std::error::Error for SegmentError {}

/// References of one type, at most 2^32 - 1 of them. Core specification, element instances.
/// Upstream: `wasmi_core::ElementSegment`.
#[derive(Debug, Drop)]
pub struct ElementSegment {
    ty: RefType,
    items: Vec<RawRef>,
}

impl Model for ElementSegment {
    ghost use Rattle.std.specs.Vec.{vec_capacity};
    ghost use Rattle.wasmi_store.specs.Segment.{SegmentValue, IsKept};

    ghost Value = { SegmentValue };

    ghost view = { λ segment. record { ty = segment.ty; items = segment.items.items } };

    ghost invariant = { λ segment. IsKept segment.items.items (vec_capacity segment.items) };
}

/// A shared reference to the items of an element segment, with their type. Upstream:
/// `wasmi_core::ElementSegmentRef`.
#[derive(Clone, Copy, Debug)]
pub struct ElementSegmentRef<'a> {
    ty: RefType,
    items: &'a [RawRef],
    ghost short: { length items.now < 2 ^ 32 },
}

/// The greatest number of items of a segment.
const MAX_ITEMS: usize = 4_294_967_295;

impl ElementSegment {
    ghost use Rattle.wasmi_types.specs.Reading.{EachBecomes};
    ghost use Rattle.wasmi_store.specs.Segment.{IsReading, IsReadingOf, segment_of, dropped};

    /// A segment of references of a type, read from an iterator as `read` does. Upstream:
    /// `ElementSegment::new`, which panics above 2^32 - 1 items.
    pub fn new<I>(alloc: Global, ty: RefType, items: I) -> Result<Self, SegmentError>
    where
        I: IntoIterator<Item = RawRef>,
        requires readable { EachBecomes I.into_iter_gives items I.IntoIter.can_next }
        ensures reading { IsReadingOf I.into_iter_gives I.IntoIter.next_gives ty items result }
    {
        let mut items = items.into_iter();
        Self::read(alloc, ty, &mut items)
    }

    /// Reads references of a type up to the first `None`, which counts as the end. It reads at most
    /// 2^32 items, and none after the end or after an error. Own: `new` takes its iterator by
    /// value, so its contract can't say what is left of it.
    pub fn read<I>(alloc: Global, ty: RefType, items: &mut I) -> Result<Self, SegmentError>
    where
        I: Iterator<Item = RawRef>,
        requires readable { I.can_next items.old }
        ensures reading { IsReading I.next_gives items.old ty result items.new }
    {
        let mut read = Vec::new(alloc);
        'items: while read.len() < MAX_ITEMS {
            let Some(item) = items.next() else {
                return Ok(ElementSegment { ty, items: read });
            };
            if read.push(item).is_err() {
                return Err(SegmentError::OutOfSystemMemory);
            }
        }
        match items.next() {
            Some(_) => Err(SegmentError::TooManyItems),
            None => Ok(ElementSegment { ty, items: read }),
        }
    }

    /// A shared reference to the segment.
    pub fn as_ref(&self) -> ElementSegmentRef
        ensures { segment_of result ≡ self.now }
    {
        ElementSegmentRef::from(self)
    }

    /// The type of the items.
    pub fn ty(&self) -> RefType
        ensures { result ≡ self.now.ty }
    {
        self.ty
    }

    /// The items.
    pub fn items(&self) -> &[RawRef]
        ensures { result.now ≡ self.now.items }
    {
        self.items.as_slice()
    }

    /// The number of items.
    pub fn size(&self) -> u32
        ensures { result ≡ length self.now.items }
    {
        self.items.len() as u32
    }

    /// Drops the items and gives their memory back. The type stays.
    pub fn drop_items(&mut self)
        ensures { self.new ≡ dropped self.old }
    {
        self.items = Vec::new(*self.items.allocator());
    }
}

impl<'a> From<&'a ElementSegment> for ElementSegmentRef<'a> {
    ghost use Rattle.wasmi_store.specs.Segment.{segment_of};

    ghost from_gives = { λ segment shared. segment_of shared ≡ segment.now };

    fn from(segment: &'a ElementSegment) -> Self {
        ElementSegmentRef {
            ty: segment.ty,
            items: segment.items(),
        }
    }
}

impl<'a> ElementSegmentRef<'a> {
    ghost use Rattle.wasmi_store.specs.Segment.{segment_of};

    /// The type of the items.
    pub fn ty(self) -> RefType
        ensures { result ≡ (segment_of self.entry).ty }
    {
        self.ty
    }

    /// The items.
    pub fn items(self) -> &'a [RawRef]
        ensures { result.now ≡ (segment_of self.entry).items }
    {
        self.items
    }

    /// The number of items.
    pub fn size(self) -> u32
        ensures { result ≡ length (segment_of self.entry).items }
    {
        self.items.len() as u32
    }
}
