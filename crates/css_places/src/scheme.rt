ghost use Rattle.css_places.specs.Schemes.{begins_with, behind_scheme, has_scheme, is_letter, is_scheme_character};
ghost use Rattle.std.specs.Prelude.{◌≡◌};

fn is_letter(byte: u8) -> bool
    ensures { result ≡ is_letter byte }
{
    byte.is_ascii_alphabetic()
}

fn is_scheme_character(byte: u8) -> bool
    ensures { result ≡ is_scheme_character byte }
{
    matches!(byte, b'a'..=b'z' | b'A'..=b'Z' | b'0'..=b'9' | b'+' | b'-' | b'.')
}

/// Whether the text begins with this byte.
pub(crate) fn begins_with(byte: u8, text: &[u8]) -> bool
    ensures { result ≡ begins_with byte text.now }
{
    match text.first() {
        Some(first) => *first == byte,
        None => false,
    }
}

/// What stands behind the characters of a scheme.
fn behind_scheme(text: &[u8]) -> &[u8]
    ensures { result.now ≡ behind_scheme text.now }
{
    let mut rest = text;
    'characters: while let Some((first, more)) = rest.split_first() {
        if !is_scheme_character(*first) {
            return rest;
        }
        rest = more;
    }
    rest
}

/// Whether an address begins with a scheme.
pub(crate) fn has_scheme(text: &[u8]) -> bool
    ensures { result ≡ has_scheme text.now }
{
    match text.split_first() {
        Some((first, rest)) => is_letter(*first) && begins_with(b':', behind_scheme(rest)),
        None => false,
    }
}
