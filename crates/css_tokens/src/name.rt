ghost use Rattle.std.specs.Prelude.{◌≡◌, ◌<◌, IsTrue, IfOk};
ghost use Rattle.css_tokens.specs.Names.{has_name, after_byte, after_first, after_space, name_of_word};

use crate::content::{End, content, is_space};
use crate::{Kind, OutOfMemory, Text, Token};
use std::alloc::Global;

/// The text without this byte at its start.
fn after_byte(text: &str, byte: u8) -> &str
    requires { byte < 128 }
    ensures { result.now ≡ after_byte byte text.now }
{
    match text.as_bytes().first() {
        Some(first) if *first == byte => text.split_at(1).1,
        _ => text,
    }
}

/// What follows this byte where it first stands.
fn after_first(text: &str, byte: u8) -> &str
    requires { byte < 128 }
    ensures { result.now ≡ after_first byte text.now }
{
    for (i, b) in text.as_bytes().iter().enumerate() {
        if *b == byte {
            return text.split_at(i + 1).1;
        }
    }
    ""
}

/// The text without white space at its start.
fn after_space(text: &str) -> &str
    ensures { result.now ≡ after_space text.now }
{
    let mut rest = text;
    while let Some(first) = rest.as_bytes().first() {
        if !is_space(*first) {
            return rest;
        }
        rest = rest.split_at(1).1;
    }
    rest
}

/// The content of a String between its quotes.
fn string_content<'a>(alloc: Global, text: &'a str) -> Result<Text<'a>, OutOfMemory>
    ensures { IfOk result (λ name. name ≡ name_of_word Kind.String text.now) }
{
    match text.as_bytes().first() {
        Some(b'"') => content(alloc, after_byte(text, b'"'), End::DoubleQuote),
        _ => content(alloc, after_byte(text, b'\''), End::SingleQuote),
    }
}

/// The name that a token holds, its escapes decoded: a Function without `(`, an At without `@`, a Hash without `#`, the
/// content of a String without its quotes and escaped newlines, the address of a Url. Takes memory only where the token
/// has a `\`. (CSS Syntax 3, section 4.3.)
pub fn name_of<'a>(alloc: Global, token: &Token<'a>) -> Result<Text<'a>, OutOfMemory>
    requires { IsTrue (has_name token.now.kind) }
    ensures { IfOk result (λ name. name ≡ name_of_word token.now.kind token.now.text) }
{
    let text = token.text;
    match token.kind {
        Kind::Function => content(alloc, text, End::Paren),
        Kind::At => content(alloc, after_byte(text, b'@'), End::Never),
        Kind::Hash => content(alloc, after_byte(text, b'#'), End::Never),
        Kind::String => string_content(alloc, text),
        Kind::Url => content(alloc, after_space(after_first(text, b'(')), End::Address),
        _ => content(alloc, text, End::Never),
    }
}
