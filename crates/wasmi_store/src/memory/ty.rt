//! The types of linear memories: whether addresses have 64 bits, page sizes, limits in pages and in
//! bytes, subtypes, and the builder of a type.
ghost use Rattle.std.specs.Prelude.{◌≡◌, ◌+◌, ◌-◌, ◌*◌, ◌/◌, ◌%◌, ◌^◌, ◌↔◌, Option, Some, None, IsTrue, true, false, MatchOption, MatchResult, IsSomeAnd, nat_lt, if◌then◌else◌, min};
ghost use Rattle.wasmi_types.specs.Value.{address_bits};
ghost use Rattle.wasmi_store.specs.Memory.{IsNoLooser, page_bytes, page_log2, page_of_log2, minimum_bytes, maximum_bytes, in_bounds, IsSubtype, IsValid, default_settings, named_type};
ghost use Rattle.wasmi_types.specs.declared.index_ty.IndexType.TheVariants.{I64, I32};

use std::marker::Model;
use wasmi_meter::MemoryError;
use wasmi_types::IndexType;

/// A page has one byte or 64 KiB.
#[derive(Clone, Copy, Debug, PartialEq, Eq)]
pub(super) enum PageSize {
    Byte = 0,
    Wasm = 16,
}

impl PageSize {
    fn from_log2(log2: u8) -> Option<Self>
        ensures { result ≡ page_of_log2 log2 }
    {
        match log2 {
            0 => Some(PageSize::Byte),
            16 => Some(PageSize::Wasm),
            _ => None,
        }
    }

    fn bytes(self) -> u32
        ensures { result ≡ page_bytes self }
    {
        match self {
            PageSize::Byte => 1,
            PageSize::Wasm => 65536,
        }
    }

    fn log2(self) -> u8
        ensures { result ≡ page_log2 self }
    {
        self as u8
    }
}

/// The type of a linear memory: its address type, page size, minimum and optional maximum in pages.
/// Core specification, memory types. Upstream: `wasmi_core::MemoryType`.
#[derive(Clone, Copy, Debug, PartialEq, Eq)]
pub struct MemoryType {
    index: IndexType,
    page: PageSize,
    minimum: u64,
    maximum: Option<u64>,
}

impl Model for MemoryType {
    ghost use Rattle.wasmi_store.specs.Memory.{MemoryTypeValue, IsValid};

    ghost Value = { MemoryTypeValue };

    ghost view = { λ t. record
        { index = t.index; page = t.page; minimum = t.minimum; maximum = t.maximum } };

    ghost invariant = { λ t. IsValid
        (record { index = t.index; page = t.page; minimum = t.minimum; maximum = t.maximum }) };

    ghost inverse = { λ t. record
        { index = t.index; page = t.page; minimum = t.minimum; maximum = t.maximum } };
}

impl MemoryType {
    /// A builder with the defaults: a minimum of 0, no maximum, pages of 64 KiB, 32-bit addresses.
    pub fn builder() -> MemoryTypeBuilder
        ensures { result ≡ default_settings }
    {
        MemoryTypeBuilder::default()
    }

    /// Whether addresses have 64 bits.
    pub fn is_64(&self) -> bool
        ensures { IsTrue result ↔ (self.now.index ≡ I64) }
    {
        self.index.is_64()
    }

    /// The type of the addresses.
    pub fn index_ty(&self) -> IndexType
        ensures { result ≡ self.now.index }
    {
        self.index
    }

    /// The minimum in pages.
    pub fn minimum(self) -> u64
        ensures value { result ≡ self.minimum }
        ensures valid { IsValid self }
    {
        self.minimum
    }

    /// The maximum in pages, if there is one.
    pub fn maximum(self) -> Option<u64>
        ensures { result ≡ self.maximum }
    {
        self.maximum
    }

    /// The bytes of a page: 1 or 65,536.
    pub fn page_size(self) -> u32
        ensures { result ≡ page_bytes self.page }
    {
        self.page.bytes()
    }

    /// The base-2 logarithm of a page's bytes: 0 or 16.
    pub fn page_size_log2(self) -> u8
        ensures { result ≡ page_log2 self.page }
    {
        self.page.log2()
    }

    /// Whether a memory of this type may be used where one of the other type is required: both have
    /// the same address type and page size, the minimum isn't below the other's, and the maximum
    /// isn't above the other's, if that has one.
    pub fn is_subtype_of(&self, other: &Self) -> bool
        ensures { IsTrue result ↔ IsSubtype self.now other.now }
    {
        self.index == other.index
            && self.page == other.page
            && self.minimum >= other.minimum
            && is_no_looser(self.maximum, other.maximum)
    }

    pub(super) fn with_minimum(self, minimum: u64) -> Self
        requires within { in_bounds self minimum ≡ true }
        ensures value { result ≡ record self { minimum = minimum } }
    {
        MemoryType { minimum, ..self }
    }

    /// The minimum in bytes, if it is below 2^64.
    pub(crate) fn minimum_size(self) -> Option<usize>
        ensures size { result
            ≡ (if nat_lt (minimum_bytes self) (2 ^ 64) then Some (minimum_bytes self) else None) }
        ensures valid { IsValid self }
    {
        usize::try_from(self.minimum.checked_mul(u64::from(self.page.bytes()))?).ok()
    }

    /// The maximum in bytes, at most the greatest `usize`.
    pub fn maximum_size(self) -> Option<usize>
        ensures { result ≡ maximum_bytes self }
    {
        self.maximum.map(|pages| {
            let size = pages.saturating_mul(u64::from(self.page.bytes()));
            usize::try_from(size).unwrap_or(usize::MAX)
        })
    }

    /// The number of whole pages in `size` bytes.
    pub fn pages_in(self, size: usize) -> u64
        ensures { result ≡ size / page_bytes self.page }
    {
        size as u64 >> self.page.log2()
    }

    /// The number of bytes after a growth by `additional` pages, if the type allows it.
    pub fn grown_size(self, size: usize, additional: u64) -> Option<usize>
        requires whole { size % page_bytes self.page ≡ 0 }
        ensures size { MatchOption result
            (in_bounds self (size / page_bytes self.page + additional) ≡ false)
            (λ grown. (in_bounds self (size / page_bytes self.page + additional) ≡ true)
            × (grown ≡ size + additional * page_bytes self.page)) }
    {
        self.size_of_pages(self.pages_in(size).checked_add(additional)?)
    }

    /// The bytes of `pages` pages, if a memory of this type may have that many.
    pub fn size_of_pages(self, pages: u64) -> Option<usize>
        ensures { MatchOption result (in_bounds self pages ≡ false)
            (λ size. (in_bounds self pages ≡ true) × (size ≡ pages * page_bytes self.page)) }
    {
        if pages > self.maximum.unwrap_or(most_pages(self.index, self.page)) {
            return None;
        }
        usize::try_from(pages.checked_mul(u64::from(self.page.bytes()))?).ok()
    }
}

/// The most pages that an address type reaches, at most the greatest `u64`.
fn most_pages(index: IndexType, page: PageSize) -> u64
    ensures { result ≡ min (2 ^ address_bits index / page_bytes page) (2 ^ 64 - 1) }
{
    match (index, page) {
        (IndexType::I32, PageSize::Byte) => 1 << 32,
        (IndexType::I32, PageSize::Wasm) => 1 << 16,
        (IndexType::I64, PageSize::Byte) => u64::MAX,
        (IndexType::I64, PageSize::Wasm) => 1 << 48,
    }
}

/// Whether an optional maximum is no looser than another.
pub(crate) fn is_no_looser(own: Option<u64>, other: Option<u64>) -> bool
    ensures { IsTrue result ↔ IsNoLooser own other }
{
    other.is_none_or(|most| own.is_some_and(|maximum| maximum <= most))
}

/// Builds a [`MemoryType`] step by step. Upstream: `wasmi_core::MemoryTypeBuilder`.
#[derive(Drop)]
pub struct MemoryTypeBuilder {
    index: IndexType,
    page_size_log2: u8,
    minimum: u64,
    maximum: Option<u64>,
}

impl Default for MemoryTypeBuilder {
    ghost is_default = { λ b. b ≡ default_settings };

    fn default() -> Self {
        MemoryTypeBuilder {
            index: IndexType::I32,
            page_size_log2: 16,
            minimum: 0,
            maximum: None,
        }
    }
}

impl MemoryTypeBuilder {
    /// Sets whether addresses have 64 bits. The default is 32 bits.
    pub fn memory64(&mut self, memory64: bool) -> &mut Self
        ensures same_reference { result.ghost_name ≡ self.entry.ghost_name }
        ensures value { result.now ≡ record self.old { index = (if memory64 then I64 else I32) } }
    {
        self.index = if memory64 {
            IndexType::I64
        } else {
            IndexType::I32
        };
        self
    }

    /// Sets the minimum in pages. The default is 0.
    pub fn min(&mut self, minimum: u64) -> &mut Self
        ensures same_reference { result.ghost_name ≡ self.entry.ghost_name }
        ensures value { result.now ≡ record self.old { minimum = minimum } }
    {
        self.minimum = minimum;
        self
    }

    /// Sets the maximum in pages, or none. The default is none.
    pub fn max(&mut self, maximum: Option<u64>) -> &mut Self
        ensures same_reference { result.ghost_name ≡ self.entry.ghost_name }
        ensures value { result.now ≡ record self.old { maximum = maximum } }
    {
        self.maximum = maximum;
        self
    }

    /// Sets the base-2 logarithm of a page's bytes. The default is 16.
    pub fn page_size_log2(&mut self, page_size_log2: u8) -> &mut Self
        ensures same_reference { result.ghost_name ≡ self.entry.ghost_name }
        ensures value { result.now ≡ record self.old { page_size_log2 = page_size_log2 } }
    {
        self.page_size_log2 = page_size_log2;
        self
    }

    /// Builds the type.
    ///
    /// # Errors
    ///
    /// `InvalidMemoryType` for a page size other than 1 byte and 64 KiB, for limits above what the
    /// address type reaches, and for a minimum above the maximum.
    pub fn build(self) -> Result<MemoryType, MemoryError>
        ensures { MatchResult result (λ ty. (named_type self ≡ Some ty) × IsValid ty)
            (λ e. (e ≡ MemoryError.InvalidMemoryType) × ¬ (IsSomeAnd (named_type self) IsValid)) }
    {
        let Some(page) = PageSize::from_log2(self.page_size_log2) else {
            return Err(MemoryError::InvalidMemoryType);
        };
        let most = most_pages(self.index, page);
        let maximum = self.maximum.unwrap_or(most);
        if maximum > most || self.minimum > maximum {
            return Err(MemoryError::InvalidMemoryType);
        }
        Ok(MemoryType {
            index: self.index,
            page,
            minimum: self.minimum,
            maximum: self.maximum,
        })
    }
}
