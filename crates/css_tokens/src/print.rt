ghost use Rattle.std.specs.Prelude.{◌≡◌, ◌≢◌, ◌⊎◌, ◌<◌, if◌then◌else◌, ℕ, [], ◌∷◌, ◌++◌, IsTrue, OnOk, OnErr, codes, flat_map, true, false};
ghost use Rattle.std.specs.Fmt.{digit_glyph};
ghost use Rattle.css_tokens.specs.Appends.{AppendsFront};
ghost use Rattle.css_tokens.specs.NameText.{name_text, code_escape, char_text, first_text, needs_code, stands_for_itself};
ghost use Rattle.css_tokens.specs.PlainNames.{is_plain_name};
ghost use Rattle.css_tokens.specs.StringText.{string_byte, string_text};
ghost use Rattle.css_tokens.specs.Private.NamePlaces.{place_after, is_early};

use crate::plain::is_plain_name;
use crate::{List, OutOfMemory};

/// The hexadecimal digit of a number below 16, in lower case.
fn hex_digit(number: u8) -> u8
    requires { number < 16 }
    ensures { result ≡ digit_glyph false number }
{
    if number < 10 {
        b'0' + number
    } else {
        b'a' + (number - 10)
    }
}

/// Writes `\`, an ASCII code in lower case hexadecimal, and a space.
#[tactic(auto, using(crate::proofs::NameTextLemmas::escapes))]
fn write_ascii_escape(code: u8, out: &mut List<u8>) -> Result<(), OutOfMemory>
    ensures ok { OnOk result (out.new ≡ out.old ++ code_escape code) }
    ensures err { OnErr result (out.new ≡ out.old) }
{
    if code < 16 {
        out.extend_from_slice(&[b'\\', hex_digit(code), b' '])
    } else {
        out.extend_from_slice(&[b'\\', hex_digit(code / 16), hex_digit(code % 16), b' '])
    }
}

/// U+0001 to U+001F, U+007F and U+FEFF.
fn needs_code(c: char) -> bool
    ensures { result ≡ needs_code c }
{
    matches!(c, '\u{1}'..='\u{1f}' | '\u{7f}' | '\u{feff}')
}

/// Letters, digits, `_`, `-`, and all from U+0080 on.
fn stands_for_itself(c: char) -> bool
    ensures { result ≡ stands_for_itself c }
{
    c.is_ascii_alphanumeric() || c == '_' || c == '-' || c >= '\u{80}'
}

/// Writes an escape by the code point.
#[tactic(auto, using(crate::proofs::NameTextLemmas::escapes))]
fn write_escape(c: char, out: &mut List<u8>) -> Result<(), OutOfMemory>
    requires { (c < 128) ⊎ (c ≡ 0xFEFF) }
    ensures ok { OnOk result (out.new ≡ out.old ++ code_escape c) }
    ensures err { OnErr result (out.new ≡ out.old) }
{
    if c == '\u{feff}' {
        return out.extend_from_slice(b"\\feff ");
    }
    write_ascii_escape(c as u8, out)
}

/// Writes a character of a name, a digit as itself unless it would begin a number.
fn write_char(c: char, early: bool, out: &mut List<u8>) -> Result<(), OutOfMemory>
    ensures ok { OnOk result (out.new ≡ out.old ++ (if early then first_text c else char_text c)) }
    ensures err { OnErr result (out.new ≡ out.old) }
{
    if early && c.is_ascii_digit() || needs_code(c) {
        return write_escape(c, out);
    }
    if stands_for_itself(c) {
        let mut bytes = [0; 4];
        return out.extend_from_slice(c.encode_utf8(&mut bytes).as_bytes());
    }
    out.extend_from_slice(&[b'\\', c as u8])
}

/// Where in a name the next character stands.
#[derive(Clone, Copy, Debug)]
enum Place {
    First,
    /// Right after a `-` in first place.
    AfterDash,
    Later,
}

impl Place {
    /// Whether a digit here would begin a number.
    fn is_early(self) -> bool
        ensures { result ≡ is_early self }
    {
        match self {
            Place::First | Place::AfterDash => true,
            Place::Later => false,
        }
    }

    /// The place after this character.
    fn after(self, c: char) -> Place
        ensures { result ≡ place_after self c }
    {
        match self {
            Place::First if c == '-' => Place::AfterDash,
            _ => Place::Later,
        }
    }
}

/// Appends a name by the identifier serialization of CSSOM (section 2.1), which here escapes U+FEFF too. Where memory
/// runs out, a front of the text is appended.
pub fn write_name(name: &str, out: &mut List<u8>) -> Result<(), OutOfMemory>
    requires { name.now ≢ [] }
    ensures ok { OnOk result (out.new ≡ out.old ++ name_text name.now) }
    ensures err { OnErr result (AppendsFront out.old out.new (name_text name.now)) }
{
    plain_name();
    if is_plain_name(name) {
        return out.extend_from_slice(name.as_bytes());
    }
    write_chars(name, out)
}

/// Appends a name character by character.
fn write_chars(name: &str, out: &mut List<u8>) -> Result<(), OutOfMemory>
    requires { name.now ≢ [] }
    ensures ok { OnOk result (out.new ≡ out.old ++ name_text name.now) }
    ensures err { OnErr result (AppendsFront out.old out.new (name_text name.now)) }
{
    if name == "-" {
        return out.extend_from_slice(b"\\-");
    }
    let mut place = Place::First;
    for c in name.chars() {
        write_char(c, place.is_early(), out)?;
        place = place.after(c);
    }
    Ok(())
}

/// Appends a byte of a string.
fn write_string_byte(byte: u8, out: &mut List<u8>) -> Result<(), OutOfMemory>
    ensures ok { OnOk result (out.new ≡ out.old ++ string_byte byte) }
    ensures err { OnErr result (out.new ≡ out.old) }
{
    match byte {
        1..=0x1f | 0x7f => write_ascii_escape(byte, out),
        b'"' | b'\\' => out.extend_from_slice(&[b'\\', byte]),
        _ => out.push(byte),
    }
}

/// Appends what stands between the quotes of a string.
fn write_content(bytes: &[u8], out: &mut List<u8>) -> Result<(), OutOfMemory>
    ensures ok { OnOk result (out.new ≡ out.old ++ flat_map string_byte bytes.now) }
    ensures err { OnErr result (AppendsFront out.old out.new (flat_map string_byte bytes.now)) }
{
    for byte in bytes {
        write_string_byte(*byte, out)?;
    }
    Ok(())
}

/// Appends a text as a string in double quotes, by the string serialization of CSSOM (section 2.1). Where memory runs
/// out, a front of the string is appended.
pub fn write_string(text: &str, out: &mut List<u8>) -> Result<(), OutOfMemory>
    ensures ok { OnOk result (out.new ≡ out.old ++ string_text text.now) }
    ensures err { OnErr result (AppendsFront out.old out.new (string_text text.now)) }
{
    out.push(b'"')?;
    write_content(text.as_bytes(), out)?;
    out.push(b'"')
}

/// A name of ASCII letters, digits, `_` and `-` that spells an Ident prints as it is.
pub fn plain_name()
    ensures { (name : List ℕ) → IsTrue (is_plain_name name) → name_text name ≡ name }
{}
