//! What component values are to the grammar that media conditions and supports conditions share.

ghost use Rattle.media_tree.specs.Conditions.{name_sign, token_sign, within};
ghost use Rattle.std.specs.Prelude.{◌≡◌, IfOk};

use crate::mark::lowered;
use css_tokens::{Kind, OutOfMemory, Text, Token, name_of};
use std::alloc::Global;

/// What a component value is to the grammar of conditions.
#[derive(Drop)]
pub enum Sign<'a, C> {
    /// White space or a comment.
    Gap,
    Comma,
    /// The keyword `not`.
    Not,
    /// The keyword `only`.
    Only,
    /// The keyword `and`.
    And,
    /// The keyword `or`.
    Or,
    /// Another name, in lower case.
    Name(Text<'a>),
    /// A condition that stands in parentheses.
    Within(C),
    /// Anything else.
    Other,
}

fn name_sign<'a, C>(name: Text<'a>) -> Sign<'a, C>
    ensures { result ≡ name_sign name.entry }
{
    match name.as_str() {
        "not" => Sign::Not,
        "only" => Sign::Only,
        "and" => Sign::And,
        "or" => Sign::Or,
        "layer" => Sign::Other,
        _ => Sign::Name(name),
    }
}

/// The sign of a token that opens nothing.
pub fn token_sign<'a, C>(alloc: Global, token: &Token<'a>) -> Result<Sign<'a, C>, OutOfMemory>
    ensures { IfOk result (λ w. w ≡ token_sign token.now) }
{
    match token.kind {
        Kind::White | Kind::Comment => Ok(Sign::Gap),
        Kind::Comma => Ok(Sign::Comma),
        Kind::Ident => Ok(name_sign(lowered(alloc, name_of(alloc, token)?)?)),
        _ => Ok(Sign::Other),
    }
}

/// The sign of a condition in parentheses, where one stands there.
pub fn within<'a, C>(condition: Option<C>) -> Sign<'a, C>
    ensures { result ≡ within condition }
{
    match condition {
        Some(condition) => Sign::Within(condition),
        None => Sign::Other,
    }
}
