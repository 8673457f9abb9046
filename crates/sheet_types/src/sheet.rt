use css_tokens::{Component, List, Text};
use media_spelling::{Query, Supports};
use selector_types::Selector;

/// A declaration (CSS Syntax 3, section 5).
#[derive(Debug, Drop)]
pub struct Declaration<'a> {
    /// The property's name: in lower case, but for a custom property, whose name is kept as written.
    pub name: Text<'a>,
    /// What stands behind the colon, without the white space and comments at both ends and without `!important`.
    pub value: List<Component<'a>>,
    pub important: bool,
    /// How many bytes of the source stand before its name.
    pub at: u32,
}

/// A step of the path of a layer (CSS Cascading 5, section 6.4).
#[derive(Debug, Drop)]
pub enum LayerName<'a> {
    Named(Text<'a>),
    /// The number of a layer without a name.
    Anonymous(u32),
}

/// What stands in a sheet, in a style rule or in a group.
#[derive(Debug, Drop)]
#[cycle(item)]
pub enum Item<'a> {
    Style(Style<'a>),
    /// A run of declarations. It stands only inside a style rule.
    Plain(List<Declaration<'a>>),
    Group(Group<'a>),
    Passed(Passed<'a>),
    /// An at-rule of another name, and how many bytes of the source stand before it.
    Other(u32),
}

/// A style rule (CSS Syntax 3, section 9).
#[derive(Debug, Drop)]
#[cycle(item)]
pub struct Style<'a> {
    pub selectors: List<Selector<'a>>,
    pub items: List<Item<'a>>,
    /// How many bytes of the source stand before it.
    pub at: u32,
}

/// What has to hold for the rules in a conditional group rule (Conditional Rules 3, section 2).
#[derive(Debug, Drop)]
pub enum GroupCondition<'a> {
    /// The media query list of an `@media` rule.
    Media(List<Query<'a>>),
    /// The condition of an `@supports` rule.
    Supports(Supports<'a>),
}

/// A conditional group rule: `@media` or `@supports` (Conditional Rules 3, section 2).
#[derive(Debug, Drop)]
#[cycle(item)]
pub struct Group<'a> {
    pub condition: GroupCondition<'a>,
    pub items: List<Item<'a>>,
    /// How many bytes of the source stand before it.
    pub at: u32,
}

/// A kind of rule that is passed on as text.
#[derive(Clone, Copy, Debug, PartialEq, Eq)]
pub enum PassedKind {
    /// `@font-face` (CSS Fonts 4, section 4).
    FontFace,
    /// `@keyframes` (CSS Animations 1, section 3).
    Keyframes,
    /// `@-webkit-keyframes`, as older browsers have it.
    WebkitKeyframes,
    /// `@-moz-keyframes`, as older browsers have it.
    MozKeyframes,
    /// `@page` (CSS Paged Media 3).
    Page,
    /// `@counter-style` (CSS Counter Styles 3).
    CounterStyle,
}

/// A rule that is passed on as text.
#[derive(Debug, Drop)]
pub struct Passed<'a> {
    pub kind: PassedKind,
    /// What stands between its at-keyword and its block.
    pub prelude: List<Component<'a>>,
    /// What stands in its block.
    pub block: List<Component<'a>>,
    /// How many bytes of the source stand before it.
    pub at: u32,
}

/// An import of another sheet (CSS Cascading 5, section 2).
#[derive(Debug, Drop)]
pub struct Import<'a> {
    /// The address of that sheet, its escapes decoded.
    pub target: Text<'a>,
    /// The condition of its `supports(..)`, where it has one.
    pub supports: Option<Supports<'a>>,
    /// Its media query list. It is empty where none is written.
    pub media: List<Query<'a>>,
    /// How many bytes of the source stand before it.
    pub at: u32,
}

/// A style sheet: its imports, and what stands behind them.
#[derive(Debug, Drop)]
pub struct Sheet<'a> {
    pub imports: List<Import<'a>>,
    pub items: List<Item<'a>>,
}
