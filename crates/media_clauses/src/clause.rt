use css_tokens::{List, Text};
use media_spelling::Feature;

/// What a media list can ask about (Media Queries 4, sections 2.3 and 2.4).
#[derive(Debug, Drop)]
pub enum Fact<'a> {
    /// Is this the media type?
    Media(Text<'a>),
    /// Does this feature hold?
    Feature(Feature<'a>),
}

/// A fact that is to hold, or one that is not to.
#[derive(Debug, Drop)]
pub struct Literal<'a> {
    /// Whether the fact is to hold.
    pub positive: bool,
    pub fact: Fact<'a>,
}

/// Literals of which one is to hold. Without literals a clause holds nowhere.
#[derive(Debug, Drop)]
pub struct Clause<'a> {
    pub literals: List<Literal<'a>>,
}
