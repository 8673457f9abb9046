//! The first token of a text, where its first character and a run of characters tell it.
ghost use Rattle.std.specs.Prelude.{◌≡◌, ◌≤◌, IfSome, Some, length, true, false};
ghost use Rattle.css_tokens.specs.Characters.{has};
ghost use Rattle.css_tokens.specs.Kinds.{is_kind};
ghost use Rattle.css_tokens.specs.Private.Machine.{from_start};
ghost use Rattle.css_tokens.specs.Private.Runs.{in_set, run_length, is_headed};
ghost use Rattle.css_tokens.specs.Tokens.{classes_of, first_front};

use crate::Kind;
use crate::class::{Class, classify};
use crate::machine::State;

/// Sets of characters by which a token is told.
#[derive(Clone, Copy)]
pub(crate) enum Set {
    White,
    Digits,
    Name,
    NameStart,
    Hash,
    Dot,
    Percent,
    /// What begins a unit that can't be an exponent.
    UnitStart,
    Escape,
    /// What a name goes on with behind its plain characters.
    AfterIdent,
    /// What a number goes on with behind its first digits.
    AfterInteger,
}

/// Whether the character is in the set.
#[inline(always)]
fn has(set: Set, class: Class) -> bool
    ensures { result ≡ has (in_set set) class }
{
    match set {
        Set::White => matches!(
            class,
            Class::Blank | Class::Feed | Class::Return | Class::FormFeed
        ),
        Set::Digits => matches!(class, Class::Digit),
        Set::Name => matches!(
            class,
            Class::Exponent | Class::Hex | Class::Letter | Class::High | Class::Digit | Class::Minus
        ),
        Set::NameStart => matches!(
            class,
            Class::Exponent | Class::Hex | Class::Letter | Class::High
        ),
        Set::Hash => matches!(class, Class::Hash),
        Set::Dot => matches!(class, Class::Dot),
        Set::Percent => matches!(class, Class::Percent),
        Set::UnitStart => matches!(class, Class::Hex | Class::Letter),
        Set::Escape => matches!(class, Class::Backslash),
        Set::AfterIdent => matches!(class, Class::OpenParen | Class::Backslash),
        Set::AfterInteger => matches!(
            class,
            Class::Dot
                | Class::Minus
                | Class::Percent
                | Class::Backslash
                | Class::Exponent
                | Class::Hex
                | Class::Letter
                | Class::High
        ),
    }
}

/// How many characters of the set the text begins with.
#[inline(always)]
fn run_length(set: Set, text: &[u8]) -> usize
    ensures value { result ≡ run_length (in_set set) (classes_of text.now) }
    ensures within { result ≤ length text.now }
{
    for (i, byte) in text.iter().enumerate() {
        if !has(set, classify(*byte)) {
            return i;
        }
    }
    text.len()
}

/// Whether there is a first character, and in the set.
#[inline(always)]
fn is_headed(set: Set, text: &[u8]) -> bool
    ensures { result ≡ is_headed (in_set set) (classes_of text.now) }
{
    match text {
        [] => false,
        [byte, ..] => has(set, classify(*byte)),
    }
}

/// White space.
fn white(text: &[u8]) -> Option<(Kind, usize)>
    requires { is_headed (in_set Set.White) (classes_of text.now) ≡ true }
    ensures value { IfSome result (λ front. Some front ≡ first_front text.now) }
    ensures within { IfSome result (λ front. front.1 ≤ length text.now) }
{
    Some((Kind::White, run_length(Set::White, text)))
}

/// A name, which is an Ident where neither `(` nor an escape follows its plain characters.
fn name(text: &[u8]) -> Option<(Kind, usize)>
    requires { is_headed (in_set Set.NameStart) (classes_of text.now) ≡ true }
    ensures value { IfSome result (λ front. Some front ≡ first_front text.now) }
    ensures within { IfSome result (λ front. front.1 ≤ length text.now) }
{
    let length = run_length(Set::Name, text);
    let (_, rest) = text.split_at(length);
    if is_headed(Set::AfterIdent, rest) {
        return None;
    }
    Some((Kind::Ident, length))
}

/// A `#`: a Hash where a name follows, else a Delim.
fn hash(text: &[u8]) -> Option<(Kind, usize)>
    requires { is_headed (in_set Set.Hash) (classes_of text.now) ≡ true }
    ensures value { IfSome result (λ front. Some front ≡ first_front text.now) }
    ensures within { IfSome result (λ front. front.1 ≤ length text.now) }
{
    let (_, name) = text.split_at(1);
    let length = run_length(Set::Name, name);
    let (_, rest) = name.split_at(length);
    if is_headed(Set::Escape, rest) {
        return None;
    }
    let kind = if length == 0 { Kind::Delim } else { Kind::Hash };
    Some((kind, length + 1))
}

/// A `.`, which is a Delim where no digit follows.
fn dot(text: &[u8]) -> Option<(Kind, usize)>
    requires { is_headed (in_set Set.Dot) (classes_of text.now) ≡ true }
    ensures value { IfSome result (λ front. Some front ≡ first_front text.now) }
    ensures within { IfSome result (λ front. front.1 ≤ length text.now) }
{
    let (_, rest) = text.split_at(1);
    if is_headed(Set::Digits, rest) {
        return None;
    }
    Some((Kind::Delim, 1))
}

/// A number without fraction or exponent, alone or with a unit or `%`.
fn number(text: &[u8]) -> Option<(Kind, usize)>
    requires { is_headed (in_set Set.Digits) (classes_of text.now) ≡ true }
    ensures value { IfSome result (λ front. Some front ≡ first_front text.now) }
    ensures within { IfSome result (λ front. front.1 ≤ length text.now) }
{
    let digits = run_length(Set::Digits, text);
    let (_, rest) = text.split_at(digits);
    if !is_headed(Set::AfterInteger, rest) {
        return Some((Kind::Number, digits));
    }
    if is_headed(Set::Percent, rest) {
        return Some((Kind::Percentage, digits + 1));
    }
    if !is_headed(Set::UnitStart, rest) {
        return None;
    }
    let unit = run_length(Set::Name, rest);
    let (_, after) = rest.split_at(unit);
    if is_headed(Set::Escape, after) {
        return None;
    }
    Some((Kind::Dimension, digits + unit))
}

/// The kind of a character that is a token whatever follows it.
fn kind_of_mark(class: Class) -> Option<Kind>
    ensures value { IfSome result (λ kind. from_start class ≡ State.End kind) }
    ensures other { IfSome result (λ kind. is_kind Kind.Function kind ≡ false) }
{
    match class {
        Class::Colon => Some(Kind::Colon),
        Class::Semicolon => Some(Kind::Semicolon),
        Class::Comma => Some(Kind::Comma),
        Class::OpenParen | Class::Open => Some(Kind::Open),
        Class::CloseParen | Class::Close => Some(Kind::Close),
        Class::Star | Class::Greater | Class::Bang | Class::Percent | Class::Symbol => Some(
            Kind::Delim,
        ),
        _ => None,
    }
}

/// A character that is a token whatever follows it.
fn mark(text: &[u8]) -> Option<(Kind, usize)>
    ensures value { IfSome result (λ front. Some front ≡ first_front text.now) }
    ensures within { IfSome result (λ front. front.1 ≤ length text.now) }
{
    match text {
        [] => None,
        [byte, ..] => {
            let kind = kind_of_mark(classify(*byte))?;
            Some((kind, 1))
        }
    }
}

/// The kind and the length of the first token, where its first character and a run of characters tell them. None leaves
/// open what the first token is.
pub(crate) fn plain_front(text: &[u8]) -> Option<(Kind, usize)>
    ensures value { IfSome result (λ front. Some front ≡ first_front text.now) }
    ensures within { IfSome result (λ front. front.1 ≤ length text.now) }
{
    let [byte, ..] = text else {
        return None;
    };
    match classify(*byte) {
        Class::Exponent | Class::Hex | Class::Letter | Class::High => name(text),
        Class::Blank | Class::Feed | Class::Return | Class::FormFeed => white(text),
        Class::Digit => number(text),
        Class::Hash => hash(text),
        Class::Dot => dot(text),
        _ => mark(text),
    }
}
