ghost use Rattle.std.specs.Prelude.{◌≡◌, ◌+◌, ◌-◌, ◌*◌, ◌^◌, ◌<◌, ◌≤◌, ◌∷◌, ◌&&◌, [], ℕ, IfOk, IfErr, IfSome, IfNone, Some, None, not, map, length};
ghost use Rattle.std.specs.List.{position, list_any};
ghost use Rattle.std.specs.Option.{option_map};
ghost use Rattle.css_tokens.specs.Characters.{has, white};
ghost use Rattle.css_tokens.specs.Contents.{is_url_name};
ghost use Rattle.css_tokens.specs.Kinds.{is_kind, kind_of};
ghost use Rattle.css_tokens.specs.Private.Machine.{rows};
ghost use Rattle.css_tokens.specs.Faults.{IsFault, RefusesAt};
ghost use Rattle.css_tokens.specs.Private.Reading.{IsReadingFault, Begins};
ghost use Rattle.css_tokens.specs.Piece.{spelled, word_of};
ghost use Rattle.css_tokens.specs.Tokens.{or_else, as_front, longest, classes_of, quote_follows, first_front, is_control, after_mark, bad_place, mark_length, is_refused, Reads, ReadsTo, IsPlaced, Stops, StopsAt};

use crate::class::{Class, classify};
use crate::content::is_url_name;
use crate::front::plain_front;
use crate::machine::{State, kind_at, step};
use crate::{Kind, List, OutOfMemory, Token};
use std::alloc::{AllocError, AllocFailed, Global};
use std::str;
use thiserror::Error;

/// Why a text has no list of tokens.
#[derive(Debug, Drop, Error)]
pub enum TokenFault {
    /// The text can't be read on from this byte, which is counted from 0.
    #[error("no token begins at byte {0}")]
    Syntax(u32),
    /// Memory ran out.
    #[error("out of memory")]
    Memory,
}

impl From<OutOfMemory> for TokenFault {
    ghost use Rattle.css_tokens.specs.declared.reader.TokenFault.TheVariants.{Memory};

    ghost from_gives = { λ _ e. e ≡ Memory };

    fn from(_error: OutOfMemory) -> TokenFault {
        TokenFault::Memory
    }
}

impl From<AllocError> for TokenFault {
    ghost use Rattle.css_tokens.specs.declared.reader.TokenFault.TheVariants.{Memory};

    ghost from_gives = { λ _ e. e ≡ Memory };

    fn from(_error: AllocError) -> TokenFault {
        TokenFault::Memory
    }
}

impl<T: Drop> From<AllocFailed<T>> for TokenFault {
    ghost use Rattle.css_tokens.specs.declared.reader.TokenFault.TheVariants.{Memory};

    ghost from_gives = { λ _ e. e ≡ Memory };

    fn from(_error: AllocFailed<T>) -> TokenFault {
        TokenFault::Memory
    }
}

/// The tokens of a text in order, each with its place in bytes from 0. The text has fewer than 2^32 - 1 bytes. A byte order
/// mark at its start is skipped, and places count it. Refused with `Syntax` at the first byte that belongs to no character
/// in UTF-8 or is a control character other than tab, LF, FF and CR, or else where no token begins or the token is `<!--`
/// or `-->` (CSS Syntax 3, sections 3.2 and 4).
pub fn tokens<'a>(alloc: Global, text: &'a [u8]) -> Result<List<Token<'a>>, TokenFault>
    requires short { length text.now < 2 ^ 32 - 1 }
    ensures read { IfOk result (λ ts. Reads text.now (map word_of ts)) }
    ensures whole { IfOk result (λ ts. spelled (map word_of ts) ≡ after_mark text.now) }
    ensures placed { IfOk result (λ ts. IsPlaced (mark_length text.now) ts) }
    ensures fault { IfErr result (λ e. IsFault text.now e) }

    // Each fault is named, unless memory runs out.
    ensures named { (o : ℕ) → StopsAt text.now o → RefusesAt result o }
{
    let mark = mark_length(text);
    match checked(&text[mark..]) {
        Ok(rest) => all_tokens(alloc, rest, mark as u32),
        Err(at) => Err(TokenFault::Syntax((mark + at) as u32)),
    }
}

/// The bytes of the byte order mark that the text begins with.
pub(crate) fn mark_length(text: &[u8]) -> usize
    ensures value { result ≡ mark_length text.now }
    ensures within { result ≤ length text.now }
{
    if text.starts_with(b"\xef\xbb\xbf") {
        3
    } else {
        0
    }
}

/// The text, where it is in UTF-8 and has no character that no text may hold, or else the place of the first byte that is
/// not so.
pub(crate) fn checked(text: &[u8]) -> Result<&str, usize>
    ensures ok { IfOk result (λ s. (s.now ≡ text.now) × (bad_place text.now ≡ None)) }
    ensures err { IfErr result (λ at. bad_place text.now ≡ Some at) }
    ensures within { IfErr result (λ at. at < length text.now) }
{
    match str::from_utf8(text) {
        Ok(whole) => match control_place(text) {
            Some(at) => Err(at),
            None => Ok(whole),
        },
        Err(fault) => {
            let valid = fault.valid_up_to();
            match control_place(&text[..valid]) {
                Some(at) => Err(at),
                None => Err(valid),
            }
        }
    }
}

/// The place of the first byte that no text may hold.
#[tactic(auto, using(crate::proofs::Scans::none_found))]
fn control_place(text: &[u8]) -> Option<usize>
    ensures value { result ≡ position is_control text.now }
    ensures within { IfSome result (λ at. at < length text.now) }
{
    if !has_control(text) {
        return None;
    }
    text.iter().position(|byte| is_control_character(*byte))
}

/// Whether any byte is one that no text may hold. No byte ends the loop early, so that many are tested at once.
fn has_control(text: &[u8]) -> bool
    ensures { result ≡ list_any is_control text.now }
{
    let mut found = false;
    for byte in text {
        found |= is_control_character(*byte);
    }
    found
}

/// Whether the byte is one that no text may hold.
fn is_control_character(byte: u8) -> bool
    ensures { result ≡ is_control byte }
{
    matches!(byte, 0..=8 | 11 | 14..=31 | 127)
}

/// The tokens of a text that was checked, which stands at this place.
fn all_tokens<'a>(alloc: Global, text: &'a str, start: u32) -> Result<List<Token<'a>>, TokenFault>
    requires { start + length text.now < 2 ^ 32 - 1 }
    ensures read { IfOk result (λ ts. ReadsTo text.now (map word_of ts) []) }
    ensures placed { IfOk result (λ ts. IsPlaced start ts) }
    ensures fault { IfErr result (λ e. IsReadingFault start text.now e) }
{
    let mut tokens = List::new(alloc);
    let mut rest = text;
    let mut at = start;
    while !rest.is_empty() {
        let Some(token) = next_token(rest, at) else {
            return Err(TokenFault::Syntax(at));
        };
        let length = token.text.len();
        tokens.push(token)?;
        at += length as u32;
        rest = rest.split_at(length).1;
    }
    Ok(tokens)
}

/// The token that the text begins with, where it has one that is read.
pub(crate) fn next_token<'a>(text: &'a str, at: u32) -> Option<Token<'a>>
    requires { 0 < length text.now }
    ensures token { IfSome result (λ token. Begins text.now token) }
    ensures placed { IfSome result (λ token. token.at ≡ at) }
    ensures none { IfNone result (Stops text.now) }
{
    let (kind, length) = first(text.as_bytes())?;
    if is_unread(kind) {
        return None;
    }
    let (text, _) = text.split_at(length);
    Some(Token::new(kind, text, at))
}

/// Whether this is `<!--` or `-->`.
fn is_unread(kind: Kind) -> bool
    ensures { result ≡ is_refused kind }
{
    matches!(kind, Kind::Cdo | Kind::Cdc)
}

/// The longest front of the text that is a whole token from this state on, as its kind and its bytes.
fn longest_front(start: State, text: &[u8]) -> Option<(Kind, usize)>
    ensures value { result ≡ longest (kind_of (rows start)) (classes_of text.now) }
    ensures within { IfSome result (λ front. front.1 ≤ length text.now) }
{
    let mut state = start;
    let mut best = None;
    for (i, byte) in text.iter().enumerate() {
        best = better(kind_at(state, &text[i..]), i, best);
        state = step(state, classify(*byte));
        if let State::Dead = state {
            return best;
        }
    }
    better(kind_at(state, &[]), text.len(), best)
}

/// The front of this kind and length, where there is one, or else the best before it.
fn better(kind: Option<Kind>, length: usize, best: Option<(Kind, usize)>) -> Option<(Kind, usize)>
    ensures { result ≡ or_else (option_map (as_front length) kind) best }
{
    match kind {
        Some(kind) => Some((kind, length)),
        None => best,
    }
}

/// Whether this is white space.
fn is_white(class: Class) -> bool
    ensures { result ≡ has white class }
{
    matches!(
        class,
        Class::Blank | Class::Feed | Class::Return | Class::FormFeed
    )
}

/// Whether this is a quote.
fn is_quote(class: Class) -> bool
    ensures { result ≡ has (Class.DoubleQuote ∷ Class.SingleQuote ∷ []) class }
{
    matches!(class, Class::DoubleQuote | Class::SingleQuote)
}

/// Whether the first character that is not white space is a quote.
fn is_quote_next(text: &[u8]) -> bool
    ensures { result ≡ quote_follows (classes_of text.now) }
{
    for byte in text {
        let class = classify(*byte);
        if !is_white(class) {
            return is_quote(class);
        }
    }
    false
}

/// Whether a token of this kind and text is a Function named `url`.
fn is_url_function(kind: Kind, text: &[u8]) -> bool
    ensures { result ≡ is_kind Kind.Function kind && is_url_name text.now }
{
    matches!(kind, Kind::Function) && is_url_name(text)
}

/// Whether a Url, and no Function, begins with this front and what follows it.
fn begins_url(kind: Kind, front: &[u8], rest: &[u8]) -> bool
    ensures { result ≡ ((is_kind Kind.Function kind && is_url_name front.now) && not (quote_follows (classes_of rest.now))) }
{
    is_url_function(kind, front) && !is_quote_next(rest)
}

/// The kind and the length of the first token, where there is one, told character by character.
fn machine_front(text: &[u8]) -> Option<(Kind, usize)>
    ensures value { result ≡ first_front text.now }
    ensures within { IfSome result (λ front. front.1 ≤ length text.now) }
{
    let front = longest_front(State::Start, text)?;
    let (name, rest) = text.split_at(front.1);
    if begins_url(front.0, name, rest) {
        let inside = longest_front(State::UrlStart, rest)?;
        return Some((inside.0, inside.1 + front.1));
    }
    Some(front)
}

/// The kind and the length of the first token, where there is one.
pub(crate) fn first(text: &[u8]) -> Option<(Kind, usize)>
    ensures value { result ≡ first_front text.now }
    ensures within { IfSome result (λ front. front.1 ≤ length text.now) }
{
    match plain_front(text) {
        Some(front) => Some(front),
        None => machine_front(text),
    }
}
