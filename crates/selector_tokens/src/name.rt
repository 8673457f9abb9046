//! Names: in lower case, as they print, and which of them spell an identifier (CSS Syntax 3, section 4.3).

ghost use Rattle.css_tokens.specs.NameText.{name_text};
ghost use Rattle.css_tokens.specs.Names.{is_name_start, starts_behind_dash, starts_ident};
ghost use Rattle.selector_types.specs.Names.{has_space, is_id, lowered, pseudo_text};
ghost use Rattle.std.specs.Char.{is_ascii_uppercase};
ghost use Rattle.std.specs.List.{list_any};
ghost use Rattle.std.specs.Prelude.{◌≡◌, IfOk};

use css_tokens::{List, OutOfMemory, Text, is_plain_name, plain_name};
use selector_types::write_name;
use std::alloc::Global;
use std::str;

pub fn has_space(name: &str) -> bool
    ensures { result ≡ has_space name.now }
{
    name.as_bytes().iter().any(|byte| *byte == b' ')
}

fn has_capitals(name: &str) -> bool
    ensures { result ≡ list_any is_ascii_uppercase name.now }
{
    name.as_bytes().iter().any(|byte| byte.is_ascii_uppercase())
}

/// The name in lower case.
pub fn lowered<'a>(alloc: Global, name: Text<'a>) -> Result<Text<'a>, OutOfMemory>
    ensures { IfOk result (λ text. text ≡ lowered name.entry) }
{
    if has_capitals(name.as_str()) {
        Ok(Text::owned(name.as_str().to_ascii_lowercase(alloc)?))
    } else {
        Ok(name)
    }
}

/// A name as it prints, made anew.
fn printed<'a>(alloc: Global, name: &str) -> Result<Text<'a>, OutOfMemory>
    ensures { IfOk result (λ text. text ≡ name_text name.now) }
{
    let mut out = List::new(alloc);
    write_name(name, &mut out)?;
    match str::from_utf8(out.as_slice()) {
        Ok(text) => Ok(Text::owned(text.to_owned(alloc)?)),
        Err(_) => Ok(Text::lent("")),
    }
}

/// The name as it prints. Takes memory only where an escape is needed or a character is not in ASCII.
pub fn name_text<'a>(alloc: Global, name: Text<'a>) -> Result<Text<'a>, OutOfMemory>
    ensures { IfOk result (λ text. text ≡ name_text name.entry) }
{
    plain_name();
    if is_plain_name(name.as_str()) {
        Ok(name)
    } else {
        printed(alloc, name.as_str())
    }
}

/// The name of a pseudo-class or a pseudo-element as it is kept.
pub fn pseudo_text<'a>(alloc: Global, name: Text<'a>) -> Result<Text<'a>, OutOfMemory>
    ensures { IfOk result (λ text. text ≡ pseudo_text name.entry) }
{
    let lower = lowered(alloc, name)?;
    name_text(alloc, lower)
}

fn is_name_start(byte: u8) -> bool
    ensures { result ≡ is_name_start byte }
{
    byte.is_ascii_alphabetic() || byte == b'_' || byte == b'\\' || byte >= 128
}

fn starts_behind_dash(text: &[u8]) -> bool
    ensures { result ≡ starts_behind_dash text.now }
{
    match text {
        [] => false,
        [first, ..] => *first == b'-' || is_name_start(*first),
    }
}

/// Whether a text would start an identifier, where it has no `\` but in escapes.
fn starts_ident(text: &[u8]) -> bool
    ensures { result ≡ starts_ident text.now }
{
    match text {
        [] => false,
        [first, rest @ ..] => {
            is_name_start(*first) || *first == b'-' && starts_behind_dash(rest)
        }
    }
}

/// Whether a Hash of this text is an id.
pub fn is_id(text: &[u8]) -> bool
    ensures { result ≡ is_id text.now }
{
    match text {
        [] => false,
        [_, rest @ ..] => starts_ident(rest),
    }
}
