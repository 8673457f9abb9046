ghost use Rattle.std.specs.Prelude.{◌≡◌, map, ◌∷◌, []};
ghost use Rattle.css_tokens.specs.Characters.{class_of};
ghost use Rattle.css_tokens.specs.Private.Machine.{next, from_start, from_text, from_name, from_number, from_exponent, from_url, from_escape, from_digits, from_around, around, ended, ended_escape};
ghost use Rattle.css_tokens.specs.Characters.{has, hex};

use crate::Kind;
use crate::class::{Class, classify};

/// What an escape stands in.
#[derive(Clone, Copy)]
pub(crate) enum Holder {
    Name,
    AtName,
    HashName,
    Unit,
    DoubleQuoted,
    SingleQuoted,
    UrlText,
}

/// How much of an escape has been read: its `\\`, so many digits, or a CR behind the digits or the `\\`.
#[derive(Clone, Copy)]
pub(crate) enum Escape {
    Begun,
    Hex1,
    Hex2,
    Hex3,
    Hex4,
    Hex5,
    Hex6,
    Return,
}

/// What the reader of one token has read of it.
#[derive(Clone, Copy)]
pub(crate) enum State {
    Start,
    White,
    Slash,
    Comment,
    CommentStar,
    DoubleQuoted,
    SingleQuoted,
    Less,
    LessBang,
    LessBangMinus,
    Minus,
    MinusMinus,
    Name,
    At,
    AtMinus,
    AtName,
    Hash,
    HashName,
    Plus,
    Dot,
    Point,
    Integer,
    Fraction,
    Exponent,
    ExponentPlus,
    ExponentMinus,
    ExponentDigits,
    ExponentDash,
    PlusDigits,
    UnitMinus,
    Unit,
    UrlStart,
    UrlWhite,
    UrlText,
    UrlAfter,
    Escaped(Holder, Escape),
    /// A whole token that nothing makes longer.
    End(Kind),
    /// No token begins so.
    Dead,
}

/// What has been read after one more character.
#[inline(always)]
pub(crate) fn step(state: State, class: Class) -> State
    ensures { result ≡ next state class }
{
    match state {
        State::Start => step_start(class),
        State::White
        | State::Slash
        | State::Comment
        | State::CommentStar
        | State::DoubleQuoted
        | State::SingleQuoted
        | State::Less
        | State::LessBang
        | State::LessBangMinus => step_text(state, class),
        State::Minus
        | State::MinusMinus
        | State::Name
        | State::At
        | State::AtMinus
        | State::AtName
        | State::Hash
        | State::HashName => step_name(state, class),
        State::Plus
        | State::Dot
        | State::Point
        | State::Integer
        | State::Fraction
        | State::UnitMinus
        | State::Unit => step_number(state, class),
        State::Exponent
        | State::ExponentPlus
        | State::ExponentMinus
        | State::ExponentDigits
        | State::ExponentDash
        | State::PlusDigits => step_exponent(state, class),
        State::UrlStart | State::UrlWhite | State::UrlText | State::UrlAfter => step_url(
            state, class,
        ),
        State::Escaped(holder, escape) => step_escape(holder, escape, class),
        State::End(_) | State::Dead => State::Dead,
    }
}

#[inline(always)]
fn step_start(class: Class) -> State
    ensures { result ≡ from_start class }
{
    match class {
        Class::Blank | Class::Feed | Class::Return | Class::FormFeed => State::White,
        Class::DoubleQuote => State::DoubleQuoted,
        Class::SingleQuote => State::SingleQuoted,
        Class::Hash => State::Hash,
        Class::Plus => State::Plus,
        Class::Minus => State::Minus,
        Class::Dot => State::Dot,
        Class::Slash => State::Slash,
        Class::Digit => State::Integer,
        Class::Exponent | Class::Hex | Class::Letter | Class::High => State::Name,
        Class::Less => State::Less,
        Class::At => State::At,
        Class::Colon => State::End(Kind::Colon),
        Class::Semicolon => State::End(Kind::Semicolon),
        Class::Comma => State::End(Kind::Comma),
        Class::OpenParen | Class::Open => State::End(Kind::Open),
        Class::CloseParen | Class::Close => State::End(Kind::Close),
        Class::Star | Class::Greater | Class::Bang | Class::Percent | Class::Symbol => State::End(
            Kind::Delim,
        ),
        Class::Backslash => State::Escaped(Holder::Name, Escape::Begun),
        _ => State::Dead,
    }
}

/// In white space, a comment, a string or `<!--`.
#[inline(always)]
fn step_text(state: State, class: Class) -> State
    ensures { result ≡ from_text state class }
{
    match state {
        State::White => match class {
            Class::Blank | Class::Feed | Class::Return | Class::FormFeed => State::White,
            _ => State::Dead,
        },
        State::Slash => match class {
            Class::Star => State::Comment,
            _ => State::Dead,
        },
        State::Comment => match class {
            Class::Star => State::CommentStar,
            Class::Control => State::Dead,
            _ => State::Comment,
        },
        State::CommentStar => match class {
            Class::Slash => State::End(Kind::Comment),
            Class::Star => State::CommentStar,
            Class::Control => State::Dead,
            _ => State::Comment,
        },
        State::DoubleQuoted => match class {
            Class::DoubleQuote => State::End(Kind::String),
            Class::Backslash => State::Escaped(Holder::DoubleQuoted, Escape::Begun),
            Class::Feed | Class::Return | Class::FormFeed | Class::Control => State::Dead,
            _ => State::DoubleQuoted,
        },
        State::SingleQuoted => match class {
            Class::SingleQuote => State::End(Kind::String),
            Class::Backslash => State::Escaped(Holder::SingleQuoted, Escape::Begun),
            Class::Feed | Class::Return | Class::FormFeed | Class::Control => State::Dead,
            _ => State::SingleQuoted,
        },
        State::Less => match class {
            Class::Bang => State::LessBang,
            _ => State::Dead,
        },
        State::LessBang => match class {
            Class::Minus => State::LessBangMinus,
            _ => State::Dead,
        },
        State::LessBangMinus => match class {
            Class::Minus => State::End(Kind::Cdo),
            _ => State::Dead,
        },
        _ => State::Dead,
    }
}

/// In a name, whatever stands before it.
#[inline(always)]
fn step_name(state: State, class: Class) -> State
    ensures { result ≡ from_name state class }
{
    match state {
        State::Minus => match class {
            Class::Minus => State::MinusMinus,
            Class::Exponent | Class::Hex | Class::Letter | Class::High => State::Name,
            Class::Digit => State::Integer,
            Class::Dot => State::Point,
            Class::Backslash => State::Escaped(Holder::Name, Escape::Begun),
            _ => State::Dead,
        },
        State::MinusMinus => match class {
            Class::Exponent
            | Class::Hex
            | Class::Letter
            | Class::High
            | Class::Digit
            | Class::Minus => State::Name,
            Class::OpenParen => State::End(Kind::Function),
            Class::Greater => State::End(Kind::Cdc),
            Class::Backslash => State::Escaped(Holder::Name, Escape::Begun),
            _ => State::Dead,
        },
        State::Name => match class {
            Class::Exponent
            | Class::Hex
            | Class::Letter
            | Class::High
            | Class::Digit
            | Class::Minus => State::Name,
            Class::OpenParen => State::End(Kind::Function),
            Class::Backslash => State::Escaped(Holder::Name, Escape::Begun),
            _ => State::Dead,
        },
        State::At => match class {
            Class::Minus => State::AtMinus,
            Class::Exponent | Class::Hex | Class::Letter | Class::High => State::AtName,
            Class::Backslash => State::Escaped(Holder::AtName, Escape::Begun),
            _ => State::Dead,
        },
        State::AtMinus => match class {
            Class::Minus | Class::Exponent | Class::Hex | Class::Letter | Class::High =>
                State::AtName,
            Class::Backslash => State::Escaped(Holder::AtName, Escape::Begun),
            _ => State::Dead,
        },
        State::AtName => match class {
            Class::Exponent
            | Class::Hex
            | Class::Letter
            | Class::High
            | Class::Digit
            | Class::Minus => State::AtName,
            Class::Backslash => State::Escaped(Holder::AtName, Escape::Begun),
            _ => State::Dead,
        },
        State::Hash | State::HashName => match class {
            Class::Exponent
            | Class::Hex
            | Class::Letter
            | Class::High
            | Class::Digit
            | Class::Minus => State::HashName,
            Class::Backslash => State::Escaped(Holder::HashName, Escape::Begun),
            _ => State::Dead,
        },
        _ => State::Dead,
    }
}

/// In a number or its unit.
#[inline(always)]
fn step_number(state: State, class: Class) -> State
    ensures { result ≡ from_number state class }
{
    match state {
        State::Plus => match class {
            Class::Digit => State::Integer,
            Class::Dot => State::Point,
            _ => State::Dead,
        },
        State::Dot | State::Point => match class {
            Class::Digit => State::Fraction,
            _ => State::Dead,
        },
        State::Integer => match class {
            Class::Digit => State::Integer,
            Class::Dot => State::Point,
            Class::Exponent => State::Exponent,
            Class::Hex | Class::Letter | Class::High => State::Unit,
            Class::Minus => State::UnitMinus,
            Class::Percent => State::End(Kind::Percentage),
            Class::Backslash => State::Escaped(Holder::Unit, Escape::Begun),
            _ => State::Dead,
        },
        State::Fraction => match class {
            Class::Digit => State::Fraction,
            Class::Exponent => State::Exponent,
            Class::Hex | Class::Letter | Class::High => State::Unit,
            Class::Minus => State::UnitMinus,
            Class::Percent => State::End(Kind::Percentage),
            Class::Backslash => State::Escaped(Holder::Unit, Escape::Begun),
            _ => State::Dead,
        },
        State::UnitMinus => match class {
            Class::Minus | Class::Exponent | Class::Hex | Class::Letter | Class::High =>
                State::Unit,
            Class::Backslash => State::Escaped(Holder::Unit, Escape::Begun),
            _ => State::Dead,
        },
        State::Unit => match class {
            Class::Exponent
            | Class::Hex
            | Class::Letter
            | Class::High
            | Class::Digit
            | Class::Minus => State::Unit,
            Class::Backslash => State::Escaped(Holder::Unit, Escape::Begun),
            _ => State::Dead,
        },
        _ => State::Dead,
    }
}

/// In what may be the exponent of a number, or its unit.
#[inline(always)]
fn step_exponent(state: State, class: Class) -> State
    ensures { result ≡ from_exponent state class }
{
    match state {
        State::Exponent => match class {
            Class::Digit => State::ExponentDigits,
            Class::Plus => State::ExponentPlus,
            Class::Minus => State::ExponentMinus,
            Class::Exponent | Class::Hex | Class::Letter | Class::High => State::Unit,
            Class::Backslash => State::Escaped(Holder::Unit, Escape::Begun),
            _ => State::Dead,
        },
        State::ExponentPlus => match class {
            Class::Digit => State::PlusDigits,
            _ => State::Dead,
        },
        State::ExponentMinus => match class {
            Class::Digit => State::ExponentDigits,
            Class::Minus | Class::Exponent | Class::Hex | Class::Letter | Class::High =>
                State::Unit,
            Class::Backslash => State::Escaped(Holder::Unit, Escape::Begun),
            _ => State::Dead,
        },
        State::ExponentDigits => match class {
            Class::Digit => State::ExponentDigits,
            Class::Exponent | Class::Hex | Class::Letter | Class::High => State::Unit,
            Class::Minus => State::ExponentDash,
            Class::Percent => State::End(Kind::Percentage),
            Class::Backslash => State::Escaped(Holder::Unit, Escape::Begun),
            _ => State::Dead,
        },
        State::ExponentDash => match class {
            Class::Exponent
            | Class::Hex
            | Class::Letter
            | Class::High
            | Class::Digit
            | Class::Minus => State::Unit,
            Class::Backslash => State::Escaped(Holder::Unit, Escape::Begun),
            _ => State::Dead,
        },
        State::PlusDigits => match class {
            Class::Digit => State::PlusDigits,
            Class::Exponent | Class::Hex | Class::Letter | Class::High => State::Unit,
            Class::Minus => State::UnitMinus,
            Class::Percent => State::End(Kind::Percentage),
            Class::Backslash => State::Escaped(Holder::Unit, Escape::Begun),
            _ => State::Dead,
        },
        _ => State::Dead,
    }
}

/// In what follows the `(` of a Url.
#[inline(always)]
fn step_url(state: State, class: Class) -> State
    ensures { result ≡ from_url state class }
{
    match state {
        State::UrlStart | State::UrlWhite => match class {
            Class::Blank | Class::Feed | Class::Return | Class::FormFeed => State::UrlWhite,
            Class::CloseParen => State::End(Kind::Url),
            Class::DoubleQuote | Class::SingleQuote | Class::OpenParen | Class::Control =>
                State::Dead,
            Class::Backslash => State::Escaped(Holder::UrlText, Escape::Begun),
            _ => State::UrlText,
        },
        State::UrlText => match class {
            Class::Blank | Class::Feed | Class::Return | Class::FormFeed => State::UrlAfter,
            Class::CloseParen => State::End(Kind::Url),
            Class::DoubleQuote | Class::SingleQuote | Class::OpenParen | Class::Control =>
                State::Dead,
            Class::Backslash => State::Escaped(Holder::UrlText, Escape::Begun),
            _ => State::UrlText,
        },
        State::UrlAfter => match class {
            Class::Blank | Class::Feed | Class::Return | Class::FormFeed => State::UrlAfter,
            Class::CloseParen => State::End(Kind::Url),
            _ => State::Dead,
        },
        _ => State::Dead,
    }
}

/// Whether this is a hexadecimal digit.
fn is_hex(class: Class) -> bool
    ensures { result ≡ has hex class }
{
    matches!(class, Class::Digit | Class::Exponent | Class::Hex)
}

/// Behind what the escape stands in.
fn around(holder: Holder) -> State
    ensures { result ≡ around holder }
{
    match holder {
        Holder::Name => State::Name,
        Holder::AtName => State::AtName,
        Holder::HashName => State::HashName,
        Holder::Unit => State::Unit,
        Holder::DoubleQuoted => State::DoubleQuoted,
        Holder::SingleQuoted => State::SingleQuoted,
        Holder::UrlText => State::UrlText,
    }
}

/// After a character that is no part of the escape: where the escape stands it is read as ever.
fn step_around(holder: Holder, class: Class) -> State
    ensures { result ≡ from_around holder class }
{
    match holder {
        Holder::Name => step_name(State::Name, class),
        Holder::AtName => step_name(State::AtName, class),
        Holder::HashName => step_name(State::HashName, class),
        Holder::Unit => step_number(State::Unit, class),
        Holder::DoubleQuoted => step_text(State::DoubleQuoted, class),
        Holder::SingleQuoted => step_text(State::SingleQuoted, class),
        Holder::UrlText => step_url(State::UrlText, class),
    }
}

/// After one digit more, or what ends the escape.
fn step_digits(holder: Holder, more: State, class: Class) -> State
    ensures { result ≡ from_digits holder more class }
{
    if is_hex(class) {
        return more;
    }
    match class {
        Class::Return => State::Escaped(holder, Escape::Return),
        Class::Blank | Class::Feed | Class::FormFeed => around(holder),
        _ => step_around(holder, class),
    }
}

/// After the character behind a `\\`.
fn step_begun(holder: Holder, class: Class) -> State
    ensures { result ≡ from_escape holder Escape.Begun class }
{
    if is_hex(class) {
        return State::Escaped(holder, Escape::Hex1);
    }
    match class {
        Class::Control => State::Dead,
        Class::Feed | Class::FormFeed => match holder {
            Holder::DoubleQuoted | Holder::SingleQuoted => around(holder),
            _ => State::Dead,
        },
        Class::Return => match holder {
            Holder::DoubleQuoted | Holder::SingleQuoted => State::Escaped(holder, Escape::Return),
            _ => State::Dead,
        },
        _ => around(holder),
    }
}

/// In an escape.
fn step_escape(holder: Holder, escape: Escape, class: Class) -> State
    ensures { result ≡ from_escape holder escape class }
{
    match escape {
        Escape::Begun => step_begun(holder, class),
        Escape::Hex1 => step_digits(holder, State::Escaped(holder, Escape::Hex2), class),
        Escape::Hex2 => step_digits(holder, State::Escaped(holder, Escape::Hex3), class),
        Escape::Hex3 => step_digits(holder, State::Escaped(holder, Escape::Hex4), class),
        Escape::Hex4 => step_digits(holder, State::Escaped(holder, Escape::Hex5), class),
        Escape::Hex5 => step_digits(holder, State::Escaped(holder, Escape::Hex6), class),
        Escape::Hex6 => match class {
            Class::Return => State::Escaped(holder, Escape::Return),
            Class::Blank | Class::Feed | Class::FormFeed => around(holder),
            _ => step_around(holder, class),
        },
        Escape::Return => match class {
            Class::Feed => around(holder),
            _ => step_around(holder, class),
        },
    }
}

/// The kind of what has been read, where it ends in an escape.
fn kind_of_escape(holder: Holder, escape: Escape) -> Option<Kind>
    ensures { result ≡ ended_escape holder escape }
{
    if let Escape::Begun = escape {
        return None;
    }
    match holder {
        Holder::Name => Some(Kind::Ident),
        Holder::AtName => Some(Kind::At),
        Holder::HashName => Some(Kind::Hash),
        Holder::Unit => Some(Kind::Dimension),
        _ => None,
    }
}

/// A `/` is a Delim where no `*` follows.
fn kind_of_slash(after: &[u8]) -> Option<Kind>
    ensures { result ≡ ended State.Slash (map class_of after.now) }
{
    match after.first() {
        Some(byte) => kind_of_slash_before(classify(*byte)),
        None => Some(Kind::Delim),
    }
}

fn kind_of_slash_before(class: Class) -> Option<Kind>
    ensures { result ≡ ended State.Slash (class ∷ []) }
{
    match class {
        Class::Star => None,
        _ => Some(Kind::Delim),
    }
}

/// The kind of what has been read, if it is a whole token before these bytes.
#[inline(always)]
pub(crate) fn kind_at(state: State, after: &[u8]) -> Option<Kind>
    ensures { result ≡ ended state (map class_of after.now) }
{
    match state {
        State::Slash => kind_of_slash(after),
        State::White => Some(Kind::White),
        State::Minus | State::At | State::Hash | State::Plus | State::Dot | State::Less => Some(
            Kind::Delim,
        ),
        State::MinusMinus | State::Name => Some(Kind::Ident),
        State::AtName => Some(Kind::At),
        State::HashName => Some(Kind::Hash),
        State::Integer | State::Fraction | State::ExponentDigits | State::PlusDigits => Some(
            Kind::Number,
        ),
        State::Exponent | State::ExponentMinus | State::ExponentDash | State::Unit => Some(
            Kind::Dimension,
        ),
        State::Escaped(holder, escape) => kind_of_escape(holder, escape),
        State::End(kind) => Some(kind),
        _ => None,
    }
}
