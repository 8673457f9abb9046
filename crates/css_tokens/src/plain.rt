ghost use Rattle.std.specs.List.{list_all};
ghost use Rattle.std.specs.Prelude.{◌≡◌};
ghost use Rattle.css_tokens.specs.PlainNames.{is_plain, is_plain_after_dash, is_plain_name, is_plain_start};

/// A letter or `_`.
fn is_plain_start(byte: u8) -> bool
    ensures { result ≡ is_plain_start byte }
{
    byte.is_ascii_alphabetic() || byte == b'_'
}

/// A letter, a digit, `_` or `-`.
fn is_plain(byte: u8) -> bool
    ensures { result ≡ is_plain byte }
{
    byte.is_ascii_alphanumeric() || byte == b'_' || byte == b'-'
}

fn all_plain(bytes: &[u8]) -> bool
    ensures { result ≡ list_all is_plain bytes.now }
{
    bytes.iter().all(|byte| is_plain(*byte))
}

/// Whether what stands behind a first `-` completes a name.
fn is_plain_after_dash(bytes: &[u8]) -> bool
    ensures { result ≡ is_plain_after_dash bytes.now }
{
    match bytes {
        [] => false,
        [first, rest @ ..] => (*first == b'-' || is_plain_start(*first)) && all_plain(rest),
    }
}

/// Whether a text spells an Ident (CSS Syntax 3, section 4.3.9) with ASCII letters, digits, `_` and `-` alone.
pub fn is_plain_name(text: &str) -> bool
    ensures { result ≡ is_plain_name text.now }
{
    match text.as_bytes() {
        [] => false,
        [first, rest @ ..] => {
            if *first == b'-' {
                is_plain_after_dash(rest)
            } else {
                is_plain_start(*first) && all_plain(rest)
            }
        }
    }
}
