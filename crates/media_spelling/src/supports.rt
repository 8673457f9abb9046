use css_tokens::{Boxed, Component, List, Text};

/// A supports condition (Conditional Rules 3, section 6).
#[derive(Debug, Drop)]
#[cycle(supports)]
pub enum Supports<'a> {
    /// Two or more conditions joined by `and`.
    And(List<Supports<'a>>),
    /// Two or more conditions joined by `or`.
    Or(List<Supports<'a>>),
    /// A condition behind `not`.
    Not(Boxed<Supports<'a>>),
    /// A declaration in parentheses: the name of the property, in lower case but for a custom property, and its value.
    Declared(Text<'a>, List<Component<'a>>),
    /// A function, and its place in bytes of the source.
    Function(u32),
}
