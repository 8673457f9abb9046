use css_tokens::{Boxed, List, Text};

/// The text of a value that a media feature is compared with (Media Queries 4, section 2.4): a number, a dimension, an
/// identifier, a ratio or a function, as it prints, with no white space round the `/` of a ratio.
pub type Value<'a> = Text<'a>;

/// A media feature in parentheses, in the plain or the boolean context (Media Queries 4, sections 2.4.1 and 2.4.2).
#[derive(Debug, Drop)]
pub struct Feature<'a> {
    /// The name in lower case, its escapes decoded.
    pub name: Text<'a>,
    /// None in the boolean context.
    pub value: Option<Value<'a>>,
}

/// How a feature stands to a value, seen from the feature.
#[derive(Clone, Copy, Debug, PartialEq, Eq)]
pub enum Relation {
    /// `<`
    Less,
    /// `<=`
    LessEqual,
    /// `>`
    Greater,
    /// `>=`
    GreaterEqual,
    /// `=`
    Equal,
}

/// A relation and the value behind it.
#[derive(Debug, Drop)]
pub struct Bound<'a> {
    pub relation: Relation,
    pub value: Value<'a>,
}

/// A media feature in the range context (Media Queries 4, section 2.4.3).
#[derive(Debug, Drop)]
pub struct Range<'a> {
    /// The name in lower case, its escapes decoded.
    pub name: Text<'a>,
    /// The one bound, or the one that is written before the name.
    pub first: Bound<'a>,
    /// The bound that is written behind the name, where there are two.
    pub second: Option<Bound<'a>>,
}

/// A media condition (Media Queries 4, section 2.5).
#[derive(Debug, Drop)]
#[cycle(condition)]
pub enum Condition<'a> {
    /// Two or more conditions joined by `and`.
    And(List<Condition<'a>>),
    /// Two or more conditions joined by `or`.
    Or(List<Condition<'a>>),
    /// A condition behind `not`.
    Not(Boxed<Condition<'a>>),
    Feature(Feature<'a>),
    Range(Range<'a>),
}

/// What stands before a media type (Media Queries 4, section 2.2).
#[derive(Clone, Copy, Debug, PartialEq, Eq)]
pub enum Prefix {
    /// Nothing.
    Plain,
    /// `not`, which negates the whole query.
    Not,
    /// `only`, which changes nothing.
    Only,
}

/// A media query (Media Queries 4, section 2).
#[derive(Debug, Drop)]
pub struct Query<'a> {
    pub prefix: Prefix,
    /// The media type in lower case, its escapes decoded.
    pub media: Option<Text<'a>>,
    pub condition: Option<Condition<'a>>,
}
