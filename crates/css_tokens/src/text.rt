ghost use Rattle.std.specs.Prelude.{◌≡◌, string_bytes};

use crate::OutOfMemory;
use std::alloc::Global;
use std::marker::Model;

/// Where the characters of a `Text` lie.
#[derive(Debug, Drop)]
enum Held<'a> {
    Lent(&'a str),
    Owned(String),
}

/// A text in UTF-8 that is borrowed from a file or made by the program. Contracts see it as the list of its bytes.
#[derive(Debug, Drop)]
pub struct Text<'a> {
    held: Held<'a>,
}

impl<'a> Model for Text<'a> {
    ghost use Rattle.std.specs.Prelude.{List, ℕ};

    ghost Value = { List ℕ };

    ghost use Rattle.css_tokens.specs.Texts.{bytes_of};

    ghost view = { λ text. bytes_of text.held };
}

impl<'a> Text<'a> {
    /// A text that lies elsewhere. Takes no memory.
    pub fn lent(text: &'a str) -> Text<'a>
        ensures { result ≡ text.now }
    {
        Text {
            held: Held::Lent(text),
        }
    }

    /// A text that the program made. Takes no memory.
    pub fn owned(text: String) -> Text<'a>
        ensures { result ≡ string_bytes text }
    {
        Text {
            held: Held::Owned(text),
        }
    }

    /// The characters.
    pub fn as_str(&self) -> &str
        ensures { result.now ≡ self.now }
    {
        match &self.held {
            Held::Lent(text) => text,
            Held::Owned(text) => text.as_str(),
        }
    }
}
