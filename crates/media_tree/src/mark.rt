//! What single component values are to the grammar of media features and declarations.

ghost use Rattle.css_tokens.specs.Names.{name_of_word};
ghost use Rattle.media_tree.specs.Marks.{block_mark, delim_mark, ident_name, is_gap, is_white, lowered, mark_of, token_mark, trimmed, trimmed_end, trimmed_start};
ghost use Rattle.std.specs.Char.{is_ascii_uppercase};
ghost use Rattle.std.specs.List.{list_any};
ghost use Rattle.std.specs.Prelude.{◌≡◌, IfOk};

use css_tokens::{Component, Kind, OutOfMemory, Text, Token, name_of};
use media_spelling::Relation;
use std::alloc::Global;

/// What a component value is to the grammar of media features and declarations.
#[derive(Clone, Copy, Debug)]
pub enum Mark {
    White,
    Comment,
    Colon,
    Semicolon,
    /// `!`
    Bang,
    /// `<`
    Less,
    /// `>`
    Greater,
    /// `=`
    Equals,
    /// `/`
    Slash,
    /// A `{}` block.
    Braces,
    /// Anything else.
    Other,
}

/// What parts the name of a feature from a value.
#[derive(Clone, Copy, Debug)]
pub enum Separator {
    /// Nothing does.
    None,
    Colon,
    Relation(Relation),
}

fn delim_mark(text: &str) -> Mark
    ensures { result ≡ delim_mark text.now }
{
    match text {
        "<" => Mark::Less,
        ">" => Mark::Greater,
        "=" => Mark::Equals,
        "/" => Mark::Slash,
        "!" => Mark::Bang,
        _ => Mark::Other,
    }
}

fn token_mark(token: &Token) -> Mark
    ensures { result ≡ token_mark token.now.kind token.now.text }
{
    match token.kind {
        Kind::White => Mark::White,
        Kind::Comment => Mark::Comment,
        Kind::Colon => Mark::Colon,
        Kind::Semicolon => Mark::Semicolon,
        Kind::Delim => delim_mark(token.text),
        _ => Mark::Other,
    }
}

fn block_mark(text: &str) -> Mark
    ensures { result ≡ block_mark text.now }
{
    match text {
        "{" => Mark::Braces,
        _ => Mark::Other,
    }
}

pub fn mark_of(component: &Component) -> Mark
    ensures { result ≡ mark_of component.now }
{
    match component {
        Component::Single(token) => token_mark(token),
        Component::Block(block) => block_mark(block.get().opening.text),
    }
}

/// Whether it is white space or a comment.
pub fn is_gap(component: &Component) -> bool
    ensures { result ≡ is_gap component.now }
{
    matches!(mark_of(component), Mark::White | Mark::Comment)
}

pub fn is_white(component: &Component) -> bool
    ensures { result ≡ is_white component.now }
{
    matches!(mark_of(component), Mark::White)
}

/// The components without white space and comments at the start.
pub fn trimmed_start<'s, 'a>(components: &'s [Component<'a>]) -> &'s [Component<'a>]
    ensures { result.now ≡ trimmed_start components.now }
{
    let mut from = 0;
    while from < components.len() && is_gap(&components[from]) {
        from += 1;
    }
    &components[from..]
}

fn trimmed_end<'s, 'a>(components: &'s [Component<'a>]) -> &'s [Component<'a>]
    ensures { result.now ≡ trimmed_end components.now }
{
    let mut to = components.len();
    while to > 0 && is_gap(&components[to - 1]) {
        to -= 1;
    }
    &components[..to]
}

/// The components without white space and comments at both ends.
pub fn trimmed<'s, 'a>(components: &'s [Component<'a>]) -> &'s [Component<'a>]
    ensures { result.now ≡ trimmed components.now }
{
    trimmed_end(trimmed_start(components))
}

fn has_capitals(name: &str) -> bool
    ensures { result ≡ list_any is_ascii_uppercase name.now }
{
    name.as_bytes().iter().any(|byte| byte.is_ascii_uppercase())
}

/// The name in lower case.
pub fn lowered<'a>(alloc: Global, name: Text<'a>) -> Result<Text<'a>, OutOfMemory>
    ensures { IfOk result (λ text. text ≡ lowered name.entry) }
{
    if has_capitals(name.as_str()) {
        Ok(Text::owned(name.as_str().to_ascii_lowercase(alloc)?))
    } else {
        Ok(name)
    }
}

/// The name of a component that is an Ident, in lower case.
pub fn ident_name<'a>(
    alloc: Global,
    component: &Component<'a>,
) -> Result<Option<Text<'a>>, OutOfMemory>
    ensures { IfOk result (λ name. name ≡ ident_name component.now) }
{
    match component {
        Component::Single(token) => match token.kind {
            Kind::Ident => Ok(Some(lowered(alloc, name_of(alloc, token)?)?)),
            _ => Ok(None),
        },
        Component::Block(_) => Ok(None),
    }
}
