//! Declarations: a name, a colon, a value, and perhaps `!important` (CSS Syntax 3, section 5.4.6).

ghost use Rattle.std.specs.Prelude.{◌≡◌, ◌∷◌, [], ◌&&◌, ◌+◌, ◌<◌, ◌≤◌, ◌^◌, IfOk, IfSome, IsTrue, length, not};
ghost use Rattle.std.specs.List.{list_any};
ghost use Rattle.std.specs.Char.{is_ascii_uppercase};
ghost use Rattle.std.specs.Option.{option_map};
ghost use Rattle.css_components.specs.Components.{is_ident, is_ident_kind, is_colon, is_custom, is_bang, name_of};
ghost use Rattle.css_rules.specs.Cuts.{cuts_at};
ghost use Rattle.css_rules.specs.Declarations.{property_name, after_colon, is_important, may_be_value, value_of, declared, declaration_of, begins_custom};
ghost use Rattle.css_rules.specs.Private.Spans.{IsWithin, StandsLast, at_span, behind, declared_in};

use crate::cuts::{Mark, Span, end_of_cut, trimmed_span};
use css_components::{
    head_of, is_block_in, is_ident, is_keyword, is_token, trimmed, trimmed_start,
};
use css_tokens::{Component, Kind, OutOfMemory, Text, Token, name_of};
use sheet_types::Declaration;
use std::alloc::Global;

fn is_colon(component: &Component) -> bool
    ensures { result ≡ is_colon component.now }
{
    is_token(component) && matches!(head_of(component).kind, Kind::Colon)
}

/// Whether a name is that of a custom property (CSS Variables 1, section 2).
pub fn is_custom(name: &str) -> bool
    ensures { result ≡ is_custom name.now }
{
    name.as_bytes().starts_with(b"--")
}

fn has_capitals(name: &str) -> bool
    ensures { result ≡ list_any is_ascii_uppercase name.now }
{
    name.as_bytes().iter().any(|byte| byte.is_ascii_uppercase())
}

/// Whether the name of a property is kept in other letters than it is written in.
fn is_lowered(name: &str) -> bool
    ensures { result ≡ (not (is_custom name.now) && list_any is_ascii_uppercase name.now) }
{
    !is_custom(name) && has_capitals(name)
}

/// The name of a property as it is kept. Takes memory only where it is kept in other letters.
fn property_name<'a>(alloc: Global, name: Text<'a>) -> Result<Text<'a>, OutOfMemory>
    ensures { IfOk result (λ text. text ≡ property_name name.entry) }
{
    if is_lowered(name.as_str()) {
        return Ok(Text::owned(name.as_str().to_ascii_lowercase(alloc)?));
    }
    Ok(name)
}

/// What stands behind a colon, where the components begin with one.
fn after_colon<'s, 'a>(components: &'s [Component<'a>]) -> Option<&'s [Component<'a>]>
    ensures { option_map (λ tail. tail.now) result ≡ after_colon components.now }
{
    let [first, tail @ ..] = components else {
        return None;
    };
    if is_colon(first) { Some(tail) } else { None }
}

/// Whether the components are the keyword `important` alone.
fn is_important(alloc: Global, components: &[Component]) -> Result<bool, OutOfMemory>
    ensures { IfOk result (λ is. is ≡ is_important components.now) }
{
    let [word] = components else {
        return Ok(false);
    };
    if is_ident(word) {
        is_keyword(alloc, head_of(word), "important")
    } else {
        Ok(false)
    }
}

/// The place of a value, and whether it is marked important.
#[derive(Clone, Copy, Debug)]
struct Marked {
    place: Span,
    important: bool,
}

/// The value behind a colon, and whether it is marked important. Nothing where a `!` stands elsewhere.
fn marked_value(alloc: Global, tail: &[Component]) -> Result<Option<Marked>, OutOfMemory>
    ensures value { IfOk result (λ found. option_map (λ marked. (at_span tail.now marked.place, marked.important)) found ≡ value_of (cuts_at is_bang tail.now)) }
    ensures within { IfOk result (λ found. IfSome found (λ marked. IsWithin marked.place tail.now)) }
{
    let end = end_of_cut(tail, 0, Mark::Bang);
    let place = trimmed_span(&tail[..end]);
    if end == tail.len() {
        return Ok(Some(Marked {
            place,
            important: false,
        }));
    }
    let next = end_of_cut(tail, end + 1, Mark::Bang);
    if next < tail.len() {
        return Ok(None);
    }
    if is_important(alloc, trimmed(&tail[end + 1..next]))? {
        Ok(Some(Marked {
            place,
            important: true,
        }))
    } else {
        Ok(None)
    }
}

/// Whether these components may be the value of a property.
fn may_be_value(custom: bool, value: &[Component]) -> bool
    ensures { result ≡ may_be_value custom value.now }
{
    custom || (!value.is_empty() && !is_block_in(value))
}

/// A declaration that components spell, with the place of its value among them.
#[derive(Debug, Drop)]
pub struct Found<'a> {
    pub name: Text<'a>,
    pub value: Span,
    pub important: bool,
    pub at: u32,
}

impl<'a> Found<'a> {
    /// The same among components of which so many more stand in front.
    pub fn behind(self, count: usize) -> Found<'a>
        requires small { count + self.value.to < 2 ^ 64 }
        requires ordered { self.value.from ≤ self.value.to }
        ensures { result ≡ behind count self.entry }
    {
        let value = Span {
            from: count + self.value.from,
            to: count + self.value.to,
        };
        Found {
            name: self.name,
            value,
            important: self.important,
            at: self.at,
        }
    }
}

fn declared<'a>(
    alloc: Global,
    name: &Token<'a>,
    tail: &[Component<'a>],
) -> Result<Option<Found<'a>>, OutOfMemory>
    requires { IsTrue (is_ident_kind name.now.kind) }
    ensures found { IfOk result (λ found. option_map (declared_in tail.now) found ≡ declared name.now (value_of (cuts_at is_bang tail.now))) }
    ensures within { IfOk result (λ found. IfSome found (λ found. IsWithin found.value tail.now)) }
{
    let Some(marked) = marked_value(alloc, tail)? else {
        return Ok(None);
    };
    let property = name_of(alloc, name)?;
    let value = marked.place;
    if !may_be_value(is_custom(property.as_str()), &tail[value.from..value.to]) {
        return Ok(None);
    }
    Ok(Some(Found {
        name: property_name(alloc, property)?,
        value,
        important: marked.important,
        at: name.at,
    }))
}

/// The declaration of a name and of what stands behind its colon, with its place among the components that end so.
fn declared_among<'a>(
    alloc: Global,
    components: &[Component<'a>],
    name: &Token<'a>,
    tail: &[Component<'a>],
) -> Result<Option<Found<'a>>, OutOfMemory>
    requires named { IsTrue (is_ident_kind name.now.kind) }
    requires last { StandsLast components.now tail.now }
    ensures found { IfOk result (λ found. option_map (declared_in components.now) found ≡ declared name.now (value_of (cuts_at is_bang tail.now))) }
    ensures within { IfOk result (λ found. IfSome found (λ found. IsWithin found.value components.now)) }
{
    match declared(alloc, name, tail)? {
        Some(found) => Ok(Some(found.behind(components.len() - tail.len()))),
        None => Ok(None),
    }
}

/// The declaration that these components spell, where they spell one.
pub fn find_declaration<'a>(
    alloc: Global,
    components: &[Component<'a>],
) -> Result<Option<Found<'a>>, OutOfMemory>
    ensures found { IfOk result (λ found. option_map (declared_in components.now) found ≡ declaration_of components.now) }
    ensures within { IfOk result (λ found. IfSome found (λ found. IsWithin found.value components.now)) }
{
    let [first, rest @ ..] = components else {
        return Ok(None);
    };
    if !is_ident(first) {
        return Ok(None);
    }
    match after_colon(trimmed_start(rest)) {
        Some(tail) => declared_among(alloc, components, head_of(first), tail),
        None => Ok(None),
    }
}

/// Whether an Ident is the name of a custom property. One that begins with neither `-` nor an escape is looked at no further.
fn names_custom(alloc: Global, token: &Token) -> Result<bool, OutOfMemory>
    requires { IsTrue (is_ident_kind token.now.kind) }
    ensures { IfOk result (λ is. is ≡ is_custom (name_of token.now)) }
{
    match token.text.as_bytes().first() {
        Some(b'-' | b'\\') => Ok(is_custom(name_of(alloc, token)?.as_str())),
        _ => Ok(false),
    }
}

/// Whether the components begin with the name of a custom property and a colon.
pub fn begins_custom(alloc: Global, components: &[Component]) -> Result<bool, OutOfMemory>
    ensures { IfOk result (λ is. is ≡ begins_custom components.now) }
{
    let [first, rest @ ..] = components else {
        return Ok(false);
    };
    if is_ident(first) && names_custom(alloc, head_of(first))? {
        Ok(after_colon(trimmed_start(rest)).is_some())
    } else {
        Ok(false)
    }
}
