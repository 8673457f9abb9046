use crate::Place;

/// Why a file is refused.
#[derive(Clone, Copy, Debug, PartialEq, Eq)]
pub enum Code {
    /// It cannot be read.
    Syntax,
    /// Its blocks nest deeper than 64.
    Depth,
    /// An import stands in it behind other rules or in a block.
    LateImport,
    /// It is not there.
    Missing,
    /// It has a construct that is not built yet.
    Unbuilt,
    /// It has a `:where`.
    X6,
    /// It has a `:not` of other than one simple selector.
    X7,
    /// It has a functional pseudo-class or pseudo-element that has no other code.
    X11,
    /// It has an at-rule of another name, or one that may not stand at its place.
    X12,
    /// It has a media feature that older browsers do not know under a `not`.
    X16,
    /// It has a function in a supports condition.
    X17,
    /// It has an attribute selector with a flag.
    X22,
}

/// A refusal, with its place.
#[derive(Clone, Copy, Debug, PartialEq, Eq)]
pub struct Finding {
    pub place: Place,
    pub code: Code,
}

/// The limits.
#[derive(Clone, Copy, Debug, PartialEq, Eq)]
pub enum LimitKind {
    /// A file has at most 4,194,304 bytes.
    L2,
    /// A media query list has at most 64 clauses.
    L8,
}
