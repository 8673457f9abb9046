use css_places::{Finding, LimitKind};

/// Why a sheet is not clean.
#[derive(Clone, Copy, Debug, PartialEq, Eq)]
pub enum CheckFault {
    /// Something stands in it that cannot be expressed.
    Finding(Finding),
    /// It passes a limit.
    Limit(LimitKind),
}
