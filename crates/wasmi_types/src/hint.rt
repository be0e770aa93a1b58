//! Hints on which branch is taken.
ghost use Rattle.std.specs.Prelude.{◌≡◌};

/// Does nothing. A branch that calls it is unlikely. Upstream: `wasmi_core::hint::cold`.
#[cold]
pub fn cold() {}

/// The condition, which is likely true. Upstream: `wasmi_core::hint::likely`.
pub fn likely(condition: bool) -> bool
    ensures { result ≡ condition }
{
    if !condition {
        cold();
    }
    condition
}

/// The condition, which is unlikely true. Upstream: `wasmi_core::hint::unlikely`.
pub fn unlikely(condition: bool) -> bool
    ensures { result ≡ condition }
{
    if condition {
        cold();
    }
    condition
}
