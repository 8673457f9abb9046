//! What stands in `[]`, in `:nth-..()` and in `:lang()` (Selectors 4, sections 6, 7.2 and 18; CSS Syntax 3, section 6).

ghost use Rattle.css_tokens.specs.Numbers.{begins_digit};
ghost use Rattle.selector_types.specs.AnPlusB.{after_digits, after_spaces, is_an_plus_b, is_blank, is_integer, is_offset, is_step, is_word};
ghost use Rattle.selector_tokens.specs.Arguments.{after_white, an_plus_b, attribute_of, begun, flagged, is_delim, is_flag, is_white, is_white_kind, kind_text, lone, lone_name, name_in, named, operated, test_before_equals, test_of, texts_of, unspaced, value_in_kind, valued};
ghost use Rattle.selector_types.specs.Names.{lowered};
ghost use Rattle.selector_types.specs.Spelling.{unsigned};
ghost use Rattle.std.specs.Option.{option_map};
ghost use Rattle.std.specs.Prelude.{◌≡◌, codes, string_bytes, IfOk};

use crate::name::has_space;
use css_tokens::{Kind, OutOfMemory, Text, Token, name_of};
use selector_types::{Attribute, Test};
use std::alloc::Global;

fn is_white_token(token: &Token) -> bool
    ensures { result ≡ is_white_kind token.now.kind }
{
    matches!(token.kind, Kind::White)
}

/// The tokens without white space in front.
fn after_white<'s, 'a>(tokens: &'s [Token<'a>]) -> &'s [Token<'a>]
    ensures { result.now ≡ after_white tokens.now }
{
    let mut from = 0;
    while from < tokens.len() && is_white_token(&tokens[from]) {
        from += 1;
    }
    &tokens[from..]
}

fn is_white(tokens: &[Token]) -> bool
    ensures { result ≡ is_white tokens.now }
{
    tokens.iter().all(|token| is_white_token(token))
}

/// The name that an identifier spells.
fn name_in<'a>(alloc: Global, token: &Token<'a>) -> Result<Option<Text<'a>>, OutOfMemory>
    ensures { IfOk result (λ name. name ≡ name_in token.now) }
{
    match token.kind {
        Kind::Ident => Ok(Some(name_of(alloc, token)?)),
        _ => Ok(None),
    }
}

fn is_equals(token: &Token) -> bool
    ensures { result ≡ is_delim (codes "=") token.now }
{
    matches!(token.kind, Kind::Delim) && token.text == "="
}

fn test_before_equals(text: &str) -> Option<Test>
    ensures { result ≡ test_before_equals text.now }
{
    match text {
        "~" => Some(Test::Word),
        "|" => Some(Test::Dash),
        "^" => Some(Test::Prefix),
        "$" => Some(Test::Suffix),
        "*" => Some(Test::Contains),
        _ => None,
    }
}

/// The test of an operator that begins with this token and goes on with a `=`.
fn test_of(token: &Token) -> Option<Test>
    ensures { result ≡ test_of token.now }
{
    if matches!(token.kind, Kind::Delim) {
        test_before_equals(token.text)
    } else {
        None
    }
}

/// The value that a name or a String is.
fn value_in<'a>(alloc: Global, token: &Token<'a>) -> Result<Option<Text<'a>>, OutOfMemory>
    ensures { IfOk result (λ value. value ≡ value_in_kind token.now.kind token.now.text) }
{
    match token.kind {
        Kind::Ident | Kind::String => Ok(Some(name_of(alloc, token)?)),
        _ => Ok(None),
    }
}

/// Whether it is `i` or `s`, in any case of letters.
fn is_flag(alloc: Global, token: &Token) -> Result<bool, OutOfMemory>
    ensures { IfOk result (λ b. b ≡ is_flag token.now) }
{
    if !matches!(token.kind, Kind::Ident) {
        return Ok(false);
    }
    let name = name_of(alloc, token)?;
    let name = name.as_str();
    Ok(name.eq_ignore_ascii_case("i") || name.eq_ignore_ascii_case("s"))
}

/// What stands behind a value: nothing, or a flag.
fn flagged<'a>(
    alloc: Global,
    name: Text<'a>,
    test: Test,
    value: Text<'a>,
    tokens: &[Token<'a>],
) -> Result<Option<Attribute<'a>>, OutOfMemory>
    ensures { IfOk result (λ a. a ≡ flagged name.entry test value.entry tokens.now) }
{
    let flag = match tokens {
        [] => false,
        [first, rest @ ..] => {
            if !(is_flag(alloc, first)? && is_white(rest)) {
                return Ok(None);
            }
            true
        }
    };
    Ok(Some(Attribute {
        name,
        test,
        value,
        flag,
    }))
}

/// What stands behind an operator: a value.
fn valued<'a>(
    alloc: Global,
    name: Text<'a>,
    test: Test,
    tokens: &[Token<'a>],
) -> Result<Option<Attribute<'a>>, OutOfMemory>
    ensures { IfOk result (λ a. a ≡ valued name.entry test tokens.now) }
{
    let [first, rest @ ..] = tokens else {
        return Ok(None);
    };
    match value_in(alloc, first)? {
        Some(value) => flagged(alloc, name, test, value, after_white(rest)),
        None => Ok(None),
    }
}

/// What stands behind the first Delim of an operator: `=`, and a value.
fn operated<'a>(
    alloc: Global,
    name: Text<'a>,
    test: Test,
    tokens: &[Token<'a>],
) -> Result<Option<Attribute<'a>>, OutOfMemory>
    ensures { IfOk result (λ a. a ≡ operated name.entry test tokens.now) }
{
    let [first, rest @ ..] = tokens else {
        return Ok(None);
    };
    if is_equals(first) {
        valued(alloc, name, test, after_white(rest))
    } else {
        Ok(None)
    }
}

/// What stands behind the name: nothing, or an operator and a value.
fn named<'a>(
    alloc: Global,
    name: Text<'a>,
    tokens: &[Token<'a>],
) -> Result<Option<Attribute<'a>>, OutOfMemory>
    ensures { IfOk result (λ a. a ≡ named name.entry tokens.now) }
{
    let [first, rest @ ..] = tokens else {
        return Ok(Some(Attribute {
            name,
            test: Test::Has,
            value: Text::lent(""),
            flag: false,
        }));
    };
    if is_equals(first) {
        return valued(alloc, name, Test::Equals, after_white(rest));
    }
    match test_of(first) {
        Some(test) => operated(alloc, name, test, rest),
        None => Ok(None),
    }
}

/// The attribute selector that these tokens spell between `[` and `]`, if they spell one. They hold no comment.
pub fn attribute_of<'a>(
    alloc: Global,
    tokens: &[Token<'a>],
) -> Result<Option<Attribute<'a>>, OutOfMemory>
    ensures { IfOk result (λ a. a ≡ attribute_of tokens.now) }
{
    let [first, rest @ ..] = after_white(tokens) else {
        return Ok(None);
    };
    match name_in(alloc, first)? {
        Some(name) => named(alloc, name, after_white(rest)),
        None => Ok(None),
    }
}

/// The name that these tokens spell, white space at both ends aside, if they spell one. They hold no comment.
pub fn lone_name<'a>(alloc: Global, tokens: &[Token<'a>]) -> Result<Option<Text<'a>>, OutOfMemory>
    ensures { IfOk result (λ name. name ≡ lone_name tokens.now) }
{
    let [first, rest @ ..] = after_white(tokens) else {
        return Ok(None);
    };
    if is_white(rest) {
        name_in(alloc, first)
    } else {
        Ok(None)
    }
}

// AN+B.

fn after_spaces(text: &[u8]) -> &[u8]
    ensures { result.now ≡ after_spaces text.now }
{
    let mut from = 0;
    while from < text.len() && text[from] == b' ' {
        from += 1;
    }
    &text[from..]
}

fn after_digits(text: &[u8]) -> &[u8]
    ensures { result.now ≡ after_digits text.now }
{
    let mut from = 0;
    while from < text.len() && text[from].is_ascii_digit() {
        from += 1;
    }
    &text[from..]
}

fn is_blank(text: &[u8]) -> bool
    ensures { result ≡ is_blank text.now }
{
    text.iter().all(|byte| *byte == b' ')
}

fn begins_digit(text: &[u8]) -> bool
    ensures { result ≡ begins_digit text.now }
{
    match text {
        [] => false,
        [first, ..] => first.is_ascii_digit(),
    }
}

/// Without a sign in front.
fn unsigned(text: &[u8]) -> &[u8]
    ensures { result.now ≡ unsigned text.now }
{
    match text {
        [first, rest @ ..] if *first == b'+' || *first == b'-' => rest,
        _ => text,
    }
}

/// This word, and then spaces.
#[tactic(auto, using(crate::proofs::JoiningLemmas::cuts))]
fn is_word(word: &[u8], text: &[u8]) -> bool
    ensures { result ≡ is_word word.now text.now }
{
    let end = word.len().min(text.len());
    let (front, rest) = text.split_at(end);
    front == word && is_blank(rest)
}

/// Digits, and then spaces.
fn is_integer(text: &[u8]) -> bool
    ensures { result ≡ is_integer text.now }
{
    begins_digit(text) && is_blank(after_digits(text))
}

/// A sign and digits, with spaces round the sign and behind; or nothing.
fn is_offset(text: &[u8]) -> bool
    ensures { result ≡ is_offset text.now }
{
    match text {
        [] => true,
        [first, rest @ ..] => (*first == b'+' || *first == b'-') && is_integer(after_spaces(rest)),
    }
}

/// `n`, and then perhaps a sign and digits.
fn is_step(text: &[u8]) -> bool
    ensures { result ≡ is_step text.now }
{
    match text {
        [] => false,
        [first, rest @ ..] => *first == b'n' && is_offset(after_spaces(rest)),
    }
}

fn is_an_plus_b(text: &[u8]) -> bool
    ensures { result ≡ is_an_plus_b text.now }
{
    is_word(b"odd", text)
        || is_word(b"even", text)
        || is_integer(unsigned(text))
        || is_step(after_digits(unsigned(text)))
}

/// The text; none that has a space, since that is no white space between tokens.
fn unspaced<'a>(text: Text<'a>) -> Option<Text<'a>>
    ensures { result ≡ unspaced text.entry }
{
    if has_space(text.as_str()) {
        None
    } else {
        Some(text)
    }
}

/// The text of a token of AN+B, where white space has this one.
fn kind_text<'a>(
    alloc: Global,
    white: &'static str,
    token: &Token<'a>,
) -> Result<Option<Text<'a>>, OutOfMemory>
    ensures { IfOk result (λ text. text ≡ kind_text white.now token.now.kind token.now.text) }
{
    match token.kind {
        Kind::White => Ok(Some(Text::lent(white))),
        Kind::Ident => Ok(unspaced(name_of(alloc, token)?)),
        Kind::Number | Kind::Dimension => Ok(unspaced(Text::lent(token.text))),
        Kind::Delim if token.text == "+" || token.text == "-" => Ok(Some(Text::lent(token.text))),
        _ => Ok(None),
    }
}

/// The texts of tokens one after another, where each may stand in AN+B.
fn texts_of(
    alloc: Global,
    white: &'static str,
    tokens: &[Token],
) -> Result<Option<String>, OutOfMemory>
    ensures { IfOk result (λ text. option_map string_bytes text ≡ texts_of white.now tokens.now) }
{
    let mut joined = String::new(alloc);
    for token in tokens {
        match kind_text(alloc, white, token)? {
            Some(text) => joined.push_str(text.as_str())?,
            None => return Ok(None),
        }
    }
    Ok(Some(joined))
}

fn in_lower_case(alloc: Global, text: String) -> Result<String, OutOfMemory>
    ensures { IfOk result (λ lower. string_bytes lower ≡ lowered (string_bytes text)) }
{
    Ok(text.as_str().to_ascii_lowercase(alloc)?)
}

/// The canonical text of the AN+B that these tokens spell, if they spell one. They hold no comment.
pub fn an_plus_b(alloc: Global, tokens: &[Token]) -> Result<Option<String>, OutOfMemory>
    ensures { IfOk result (λ text. option_map string_bytes text ≡ an_plus_b tokens.now) }
{
    let Some(text) = texts_of(alloc, " ", tokens)? else {
        return Ok(None);
    };
    let text = in_lower_case(alloc, text)?;
    if !is_an_plus_b(after_spaces(text.as_bytes())) {
        return Ok(None);
    }
    match texts_of(alloc, "", tokens)? {
        Some(text) => Ok(Some(in_lower_case(alloc, text)?)),
        None => Ok(None),
    }
}
