ghost use Rattle.std.specs.Char.{is_ascii};
ghost use Rattle.std.specs.List.{list_all};
ghost use Rattle.std.specs.Option.{option_map};
ghost use Rattle.std.specs.Prelude.{◌≡◌, ◌∷◌, [], IsTrue};
ghost use Rattle.std.specs.Str.{str_to_ascii_lowercase};
ghost use Rattle.css_tokens.specs.Contents.{content, never};
ghost use Rattle.css_tokens.specs.Names.{name_of_word};
ghost use Rattle.css_tokens.specs.Private.Contents.{escaped_text, taken};
ghost use Rattle.css_tokens.specs.Private.Keywords.{left_after};
ghost use Rattle.css_tokens.specs.Trees.{is_text};

use crate::content::{End, Part, Step};
use crate::{Kind, Token};

/// What is left of a word behind this byte, which may be a letter in any case.
fn after_byte(word: &[u8], byte: u8) -> Option<&[u8]>
    ensures { option_map (λ rest. rest.now) result ≡ left_after word.now (byte ∷ []) }
{
    match word {
        [first, rest @ ..] if *first == byte.to_ascii_lowercase() => Some(rest),
        _ => None,
    }
}

/// What is left of a word behind a character, where there is one.
#[tactic(auto, using(crate::proofs::KeywordLemmas::keyword_steps))]
fn after_escape(word: &[u8], escaped: Option<char>) -> Option<&[u8]>
    requires { IsTrue (list_all is_ascii word.now) }
    ensures { option_map (λ rest. rest.now) result ≡ left_after word.now (escaped_text escaped) }
{
    match escaped {
        None => Some(word),
        Some(c) if c.is_ascii() => after_byte(word, c as u8),
        Some(_) => None,
    }
}

/// What is left of a word behind what a step over this byte adds.
#[tactic(auto, using(crate::proofs::KeywordLemmas::keyword_steps))]
fn after_step(word: &[u8], step: Step, byte: u8) -> Option<&[u8]>
    requires { IsTrue (list_all is_ascii word.now) }
    ensures { option_map (λ rest. rest.now) result ≡ left_after word.now (taken step byte).1 }
{
    match after_escape(word, step.escaped) {
        Some(rest) if step.is_itself => after_byte(rest, byte),
        rest => rest,
    }
}

/// Whether a text, its escapes decoded, is this word, in any case of ASCII letters.
fn is_word(text: &[u8], word: &[u8]) -> bool
    requires { IsTrue (list_all is_ascii word.now) }
    ensures { result ≡ is_text (str_to_ascii_lowercase (content never text.now)) word.now }
{
    let mut part = Part::Outside;
    let mut left = word;
    for byte in text {
        let step = part.step(End::Never, *byte);
        match after_step(left, step, *byte) {
            Some(rest) => left = rest,
            None => return false,
        }
        part = step.part;
    }
    match after_escape(left, part.flush()) {
        Some(rest) => rest.is_empty(),
        None => false,
    }
}

/// Whether an Ident is this keyword, which is given in lower case, in any case of ASCII letters and whatever its escapes (CSS
/// Values 4, section 4.1). Takes no memory.
pub fn is_keyword(token: &Token, keyword: &str) -> bool
    requires ident { token.now.kind ≡ Kind.Ident }
    requires ascii { IsTrue (list_all is_ascii keyword.now) }
    ensures { result ≡ is_text (str_to_ascii_lowercase (name_of_word Kind.Ident token.now.text)) keyword.now }
{
    is_word(token.text.as_bytes(), keyword.as_bytes())
}
