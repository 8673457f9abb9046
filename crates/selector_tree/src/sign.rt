//! What component values are to the grammar of selectors (Selectors 4, section 18).

ghost use Rattle.selector_tree.specs.Grammar.{is_comma_sign};
ghost use Rattle.std.specs.Prelude.{◌≡◌};

use css_tokens::Text;
use selector_types::{Combinator, Simple};

/// What a component value is to the grammar of selectors.
#[derive(Drop)]
pub enum Sign<'a> {
    /// A comment, which counts as nothing.
    Comment,
    /// White space.
    White,
    Comma,
    /// `>`, `+` or `~`
    Joint(Combinator),
    /// An Ident.
    Name(Text<'a>),
    /// `*`
    Star,
    /// `.`, with its place.
    Dot(u32),
    /// `:`, with its place.
    Colon(u32),
    /// A simple selector that is one component value, with its place: an id, an attribute selector or `&`.
    Whole(Simple<'a>, u32),
    /// A Function, and the simple selector that it is behind one colon, where it is one.
    Call(Option<Simple<'a>>),
    /// Anything else.
    Other,
}

impl<'a> Sign<'a> {
    pub fn is_comma(&self) -> bool
        ensures { result ≡ is_comma_sign self.now }
    {
        matches!(self, Sign::Comma)
    }
}

/// What a Function begins behind a colon.
#[derive(Clone, Copy)]
pub enum Callee {
    Not,
    Is,
    Where,
    Local,
    Global,
    /// A pseudo-class that takes AN+B.
    Step,
    Lang,
    Other,
}
