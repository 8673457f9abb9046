ghost use Rattle.std.specs.Prelude.{◌≡◌, IsTrue};
ghost use Rattle.css_tokens.specs.Tokens.{spells};

use crate::Kind;
use std::marker::Model;

/// A token of a text (CSS Syntax 3, section 4). Its characters spell its kind by the table of `specs/Kinds.antt`, what
/// follows them in the source aside. Contracts see it as a `Piece`.
#[derive(Debug, Drop)]
pub struct Token<'a> {
    /// What it is.
    pub kind: Kind,
    /// How many bytes of the source stand before it.
    pub at: u32,
    /// The characters, as the source has them.
    pub text: &'a str,
}

impl<'a> Model for Token<'a> {
    ghost use Rattle.css_tokens.specs.Piece.{Piece};

    ghost Value = { Piece };

    ghost view = { λ token. record { kind = token.kind; text = token.text.now; at = token.at } };

    ghost use Rattle.std.specs.Prelude.{IsTrue};
    ghost use Rattle.css_tokens.specs.Tokens.{spells};

    ghost invariant = { λ token. IsTrue (spells token.kind token.text.now) };
}

impl<'a> Token<'a> {
    /// A token of this kind, where the characters spell it. Takes no memory.
    pub fn new(kind: Kind, text: &'a str, at: u32) -> Token<'a>
        requires { IsTrue (spells kind text.now) }
        ensures { result ≡ record { kind = kind; text = text.now; at = at } }
    {
        Token { kind, text, at }
    }

    /// The same token again. Takes no memory.
    pub fn copy(&self) -> Token<'a>
        ensures { result ≡ self.now }
    {
        Token {
            kind: self.kind,
            text: self.text,
            at: self.at,
        }
    }
}
