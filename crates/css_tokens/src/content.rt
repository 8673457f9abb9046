ghost use Rattle.std.specs.Prelude.{◌≡◌, ◌<◌, ◌≤◌, ◌++◌, IsTrue, IfOk, IfSome, OnOk, string_bytes, true, false, Some, None, if◌then◌else◌};
ghost use Rattle.std.specs.Char.{encode_utf8, digit_value, is_ascii_hexdigit};
ghost use Rattle.css_tokens.specs.Contents.{begun, behind, behind_digits, content, flush, is_space, is_url_name, meant, outside, step};
ghost use Rattle.css_tokens.specs.Private.Contents.{Says, ends_of, escaped_text, is_bounded, is_over, is_whole, letters_after, next_letter, taken};

use crate::{OutOfMemory, Text};
use std::alloc::Global;

/// How far an escape has been read (CSS Syntax 3, section 4.3.7).
#[derive(Clone, Copy)]
pub(crate) enum Part {
    /// No escape is open.
    Outside,
    /// Its `\` has been read.
    Begun,
    /// So many further digits may come, and those so far have this value.
    Digits(u8, u32),
    /// A CR has been read that belongs to it.
    Return,
    /// The content is over.
    Over,
}

/// What ends a content, outside escapes.
#[derive(Clone, Copy)]
pub(crate) enum End {
    Never,
    Paren,
    DoubleQuote,
    SingleQuote,
    /// White space, or `)`.
    Address,
}

/// What a byte adds to a content: the character that an escape before it means, then the byte itself.
#[derive(Clone, Copy)]
pub(crate) struct Step {
    pub part: Part,
    pub escaped: Option<char>,
    pub is_itself: bool,
}

/// What a character adds to a content: the character that an escape before it means, then the character itself.
#[derive(Clone, Copy)]
struct Said {
    part: Part,
    escaped: Option<char>,
    own: Option<char>,
}

impl End {
    /// Whether the byte ends the content.
    fn ends(self, byte: u8) -> bool
        ensures { result ≡ ends_of self byte }
    {
        match self {
            End::Never => false,
            End::Paren => byte == b'(',
            End::DoubleQuote => byte == b'"',
            End::SingleQuote => byte == b'\'',
            End::Address => is_space(byte) || byte == b')',
        }
    }
}

/// Space, tab, LF, CR and FF.
pub(crate) fn is_space(byte: u8) -> bool
    ensures { result ≡ is_space byte }
{
    matches!(byte, b' ' | b'\t' | b'\n' | b'\r' | 12)
}

/// A byte that adds nothing.
fn nothing(part: Part) -> Step
    ensures { result ≡ record { part = part; escaped = None; is_itself = false } }
{
    Step {
        part,
        escaped: None,
        is_itself: false,
    }
}

/// A byte that is a part of the content.
fn itself() -> Step
    ensures { result ≡ record { part = Part.Outside; escaped = None; is_itself = true } }
{
    Step {
        part: Part::Outside,
        escaped: None,
        is_itself: true,
    }
}

/// The value of a hexadecimal digit.
fn hex_value(byte: u8) -> Option<u32>
    ensures value { result ≡ (if is_ascii_hexdigit byte then Some (digit_value byte) else None) }
    ensures bound { IfSome result (λ value. value < 16) }
{
    (byte as char).to_digit(16)
}

/// The character that an escape of this value means.
fn meant(value: u32) -> char
    ensures { result ≡ meant value }
{
    match char::from_u32(value) {
        Some(c) if value != 0 => c,
        _ => '\u{fffd}',
    }
}

/// A byte outside escapes.
fn outside(end: End, byte: u8) -> Step
    ensures step { taken result byte ≡ outside (ends_of end) byte }
    ensures bounded { IsTrue (is_bounded result.part) }
    ensures none { result.escaped ≡ None }
{
    if end.ends(byte) {
        nothing(Part::Over)
    } else if byte == b'\\' {
        nothing(Part::Begun)
    } else {
        itself()
    }
}

/// The byte behind a `\`.
fn begun(byte: u8) -> Step
    ensures step { taken result byte ≡ begun byte }
    ensures bounded { IsTrue (is_bounded result.part) }
{
    if let Some(value) = hex_value(byte) {
        return nothing(Part::Digits(5, value));
    }
    match byte {
        b'\r' => nothing(Part::Return),
        b'\n' | 12 => nothing(Part::Outside),
        _ => itself(),
    }
}

/// The byte behind the digits of an escape.
fn behind_digits(end: End, byte: u8) -> Step
    ensures step { taken result byte ≡ behind_digits (ends_of end) byte }
    ensures bounded { IsTrue (is_bounded result.part) }
    ensures none { result.escaped ≡ None }
{
    if byte == b'\r' {
        nothing(Part::Return)
    } else if is_space(byte) {
        nothing(Part::Outside)
    } else {
        outside(end, byte)
    }
}

/// The byte behind the digits of an escape of this value, which ends it.
fn after_escape(end: End, value: u32, byte: u8) -> Step
    ensures step { taken result byte ≡ behind (encode_utf8 (meant value)) (behind_digits (ends_of end) byte) }
    ensures bounded { IsTrue (is_bounded result.part) }
{
    let step = behind_digits(end, byte);
    Step {
        part: step.part,
        escaped: Some(meant(value)),
        is_itself: step.is_itself,
    }
}

/// A further digit, or the byte behind the digits.
#[tactic(auto, using(crate::proofs::ContentSteps::bounded_more))]
fn digits(end: End, more: u8, value: u32, byte: u8) -> Step
    requires { IsTrue (is_bounded (Part.Digits more value)) }
    ensures step { taken result byte ≡ step (ends_of end) (Part.Digits more value) byte }
    ensures bounded { IsTrue (is_bounded result.part) }
{
    if more == 0 {
        return after_escape(end, value, byte);
    }
    match hex_value(byte) {
        Some(digit) => nothing(Part::Digits(more - 1, value * 16 + digit)),
        None => after_escape(end, value, byte),
    }
}

impl Part {
    /// How far the content is read after one byte more, and what the byte adds.
    pub(crate) fn step(self, end: End, byte: u8) -> Step
        requires { IsTrue (is_bounded self) }
        ensures step { taken result byte ≡ step (ends_of end) self byte }
        ensures bounded { IsTrue (is_bounded result.part) }
    {
        match self {
            Part::Outside => outside(end, byte),
            Part::Begun => begun(byte),
            Part::Digits(more, value) => digits(end, more, value, byte),
            Part::Return => {
                if byte == b'\n' {
                    nothing(Part::Outside)
                } else {
                    outside(end, byte)
                }
            }
            Part::Over => nothing(Part::Over),
        }
    }

    /// Whether the content is over.
    fn is_over(self) -> bool
        ensures { result ≡ is_over self }
    {
        matches!(self, Part::Over)
    }

    /// The character that the end of the text adds.
    pub(crate) fn flush(self) -> Option<char>
        ensures { escaped_text result ≡ flush self }
    {
        match self {
            Part::Digits(_, value) => Some(meant(value)),
            _ => None,
        }
    }
}

/// What an ASCII character adds.
fn say_ascii(part: Part, end: End, c: char) -> Said
    requires bounded { IsTrue (is_bounded part) }
    requires ascii { c < 128 }
    ensures says { Says (ends_of end) part (encode_utf8 c) result }
    ensures bounded { IsTrue (is_bounded result.part) }
{
    let step = part.step(end, c as u8);
    Said {
        part: step.part,
        escaped: step.escaped,
        own: if step.is_itself { Some(c) } else { None },
    }
}

/// What a character from U+0080 on adds: none of its bytes ends a content or belongs to an escape of digits.
fn say_high(part: Part, end: End, c: char) -> Said
    requires { 128 ≤ c }
    ensures says { Says (ends_of end) part (encode_utf8 c) result }
    ensures bounded { IsTrue (is_bounded result.part) }
{
    let _ = end;
    if part.is_over() {
        return Said {
            part,
            escaped: None,
            own: None,
        };
    }
    Said {
        part: Part::Outside,
        escaped: part.flush(),
        own: Some(c),
    }
}

/// What a character adds.
fn say(part: Part, end: End, c: char) -> Said
    requires { IsTrue (is_bounded part) }
    ensures says { Says (ends_of end) part (encode_utf8 c) result }
    ensures bounded { IsTrue (is_bounded result.part) }
{
    if c.is_ascii() {
        say_ascii(part, end, c)
    } else {
        say_high(part, end, c)
    }
}

/// Appends a character, where there is one.
fn push_some(out: &mut String, c: Option<char>) -> Result<(), OutOfMemory>
    ensures { OnOk result (string_bytes out.new ≡ string_bytes out.old ++ escaped_text c) }
{
    if let Some(c) = c {
        out.push(c)?;
    }
    Ok(())
}

/// The content of a text, its escapes decoded.
fn decode(alloc: Global, text: &str, end: End) -> Result<String, OutOfMemory>
    ensures { IfOk result (λ out. string_bytes out ≡ content (ends_of end) text.now) }
{
    let mut out = String::new(alloc);
    let mut part = Part::Outside;
    for c in text.chars() {
        let said = say(part, end, c);
        push_some(&mut out, said.escaped)?;
        push_some(&mut out, said.own)?;
        part = said.part;
    }
    push_some(&mut out, part.flush())?;
    Ok(out)
}

/// The content of a text, where no `\` stands before its end. Takes no memory.
#[inline(always)]
fn plain_content(text: &str, end: End) -> Option<&str>
    ensures { IfSome result (λ front. front.now ≡ content (ends_of end) text.now) }
{
    for (i, byte) in text.as_bytes().iter().enumerate() {
        if end.ends(*byte) {
            return Some(text.split_at(i).0);
        }
        if *byte == b'\\' {
            return None;
        }
    }
    Some(text)
}

/// The content of a text up to what ends it, its escapes decoded; borrowed where it has none (CSS Syntax 3, section 4.3.7).
#[inline(always)]
pub(crate) fn content<'a>(alloc: Global, text: &'a str, end: End) -> Result<Text<'a>, OutOfMemory>
    ensures { IfOk result (λ name. name ≡ content (ends_of end) text.now) }
{
    match plain_content(text, end) {
        Some(front) => Ok(Text::lent(front)),
        None => Ok(Text::owned(decode(alloc, text, end)?)),
    }
}

/// How much of the name `url` has been read.
#[derive(Clone, Copy)]
enum Letters {
    Nothing,
    U,
    Ur,
    Url,
    /// The name is another one.
    Other,
}

impl Letters {
    /// After one byte more.
    fn after_byte(self, byte: u8) -> Letters
        ensures { result ≡ next_letter self byte }
    {
        match self {
            Letters::Nothing if byte.to_ascii_lowercase() == b'u' => Letters::U,
            Letters::U if byte.to_ascii_lowercase() == b'r' => Letters::Ur,
            Letters::Ur if byte.to_ascii_lowercase() == b'l' => Letters::Url,
            _ => Letters::Other,
        }
    }

    /// After a character, where there is one.
    #[tactic(auto, using(crate::proofs::ContentSteps::letter_steps))]
    fn after_escape(self, escaped: Option<char>) -> Letters
        ensures { result ≡ letters_after self (escaped_text escaped) }
    {
        match escaped {
            None => self,
            Some(c) if c.is_ascii() => self.after_byte(c as u8),
            Some(_) => Letters::Other,
        }
    }

    /// Whether they are the whole name.
    fn are_whole(self) -> bool
        ensures { result ≡ is_whole self }
    {
        matches!(self, Letters::Url)
    }

    /// After what a step over this byte adds.
    #[tactic(auto, using(crate::proofs::ContentSteps::letter_steps))]
    fn after_step(self, step: Step, byte: u8) -> Letters
        ensures { result ≡ letters_after self (taken step byte).1 }
    {
        let letters = self.after_escape(step.escaped);
        if step.is_itself {
            letters.after_byte(byte)
        } else {
            letters
        }
    }
}

/// Whether the content up to a `(` is the name `url`, in any case of ASCII letters. Takes no memory.
pub(crate) fn is_url_name(text: &[u8]) -> bool
    ensures { result ≡ is_url_name text.now }
{
    let mut part = Part::Outside;
    let mut letters = Letters::Nothing;
    for byte in text {
        let step = part.step(End::Paren, *byte);
        letters = letters.after_step(step, *byte);
        part = step.part;
        if let Letters::Other = letters {
            return false;
        }
    }
    letters.after_escape(part.flush()).are_whole()
}
