use css_tokens::{Boxed, List, Text};

/// How the elements of two neighbouring compounds stand to each other (Selectors 4, section 15).
#[derive(Clone, Copy, Debug, PartialEq, Eq)]
pub enum Combinator {
    /// White space: an ancestor.
    Descendant,
    /// `>`: the parent.
    Child,
    /// `+`: the sibling just before.
    Next,
    /// `~`: any sibling before.
    Later,
}

/// The type selector of a compound (Selectors 4, section 5).
#[derive(Debug, Drop)]
pub enum TypeName<'a> {
    /// None is written.
    None,
    /// `*`.
    Universal,
    /// A type name, as written.
    Name(Text<'a>),
}

/// What an attribute selector asks of an attribute (Selectors 4, section 6).
#[derive(Clone, Copy, Debug, PartialEq, Eq)]
pub enum Test {
    /// It is there.
    Has,
    /// `=`: it is the value.
    Equals,
    /// `~=`: it is a list of words, one of which is the value.
    Word,
    /// `|=`: it is the value, or begins with the value and `-`.
    Dash,
    /// `^=`: it begins with the value.
    Prefix,
    /// `$=`: it ends with the value.
    Suffix,
    /// `*=`: it holds the value.
    Contains,
}

/// An attribute selector (Selectors 4, section 6).
#[derive(Debug, Drop)]
pub struct Attribute<'a> {
    /// The name of the attribute, as written.
    pub name: Text<'a>,
    pub test: Test,
    /// The value, as written but without quotes. Empty where the test takes none.
    pub value: Text<'a>,
    /// Whether `i` or `s` stands behind the value.
    pub flag: bool,
}

/// A pseudo-element and the pseudo-classes behind it (Selectors 4, section 3.6).
#[derive(Debug, Drop)]
pub struct Tail<'a> {
    /// The name of the pseudo-element in lower case, without colons.
    pub element: Text<'a>,
    /// The pseudo-classes behind it in lower case, each without its colon.
    pub states: List<Text<'a>>,
}

/// A simple selector other than the type selector (Selectors 4, sections 4, 6, 7 and 9 to 14; CSS Nesting 1, section 3).
#[derive(Debug, Drop)]
#[cycle(selector)]
pub enum Simple<'a> {
    /// `.name`
    Class(Text<'a>),
    /// `#name`
    Id(Text<'a>),
    /// `[name]` or `[name="value"]`
    Attribute(Boxed<Attribute<'a>>),
    /// A pseudo-class in lower case, without its colon: `hover`, and with their argument `nth-child(2n+1)` and `lang(en)`.
    Pseudo(Text<'a>),
    /// `:not(..)`
    Not(List<Selector<'a>>),
    /// `:is(..)`
    Is(List<Selector<'a>>),
    /// `:where(..)`
    Where(List<Selector<'a>>),
    /// `&`
    Parent,
    /// `:local(..)`
    Local(Boxed<Compound<'a>>),
    /// `:global(..)`
    Global(Boxed<Compound<'a>>),
    /// Any other pseudo-class or pseudo-element with an argument.
    Foreign,
}

/// A simple selector, and how many bytes of the source stand before it.
#[derive(Debug, Drop)]
#[cycle(selector)]
pub enum Part<'a> {
    Placed(Simple<'a>, u32),
}

/// A compound selector: what one element has to be (Selectors 4, section 3.1).
#[derive(Debug, Drop)]
#[cycle(selector)]
pub struct Compound<'a> {
    pub kind: TypeName<'a>,
    pub parts: List<Part<'a>>,
    pub tail: Option<Boxed<Tail<'a>>>,
}

/// A combinator and the compound behind it.
#[derive(Debug, Drop)]
#[cycle(selector)]
pub enum Link<'a> {
    Linked(Combinator, Compound<'a>),
}

/// A complex selector (Selectors 4, section 3.1).
#[derive(Debug, Drop)]
#[cycle(selector)]
pub struct Selector<'a> {
    /// The combinator that a nested selector may begin with (CSS Nesting 1, section 3).
    pub lead: Option<Combinator>,
    pub first: Compound<'a>,
    pub rest: List<Link<'a>>,
    /// How many bytes of the source stand before its first token.
    pub at: u32,
}
