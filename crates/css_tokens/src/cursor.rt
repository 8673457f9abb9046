//! Where reading stands in a text.

ghost use Rattle.std.specs.Prelude.{ℕ, List, [], ◌∷◌, ◌++◌, ◌≡◌, ◌+◌, ◌<◌, ◌^◌, IfSome, IfNone, length};
ghost use Rattle.css_tokens.specs.declared.pairing.ComponentFault.TheVariants.{Syntax};
ghost use Rattle.css_tokens.specs.Piece.{Piece};
ghost use Rattle.css_tokens.specs.Private.ComponentReading.{IsReadOn, IsFaultBehind};
ghost use Rattle.css_tokens.specs.Tokens.{Stops};

use crate::Token;
use crate::reader::next_token;

/// Where reading stands in a text that was checked.
#[derive(Clone, Copy, Debug)]
pub(crate) struct Cursor<'a> {
    /// What is not read yet.
    pub(crate) rest: &'a str,
    /// The place of its first byte.
    pub(crate) at: u32,
}

impl<'a> Cursor<'a> {
    /// Reads the next token, where one begins that is read.
    pub(crate) fn next(&mut self) -> Option<Token<'a>>
        requires some { 0 < length self.old.rest.now }
        requires short { self.old.at + length self.old.rest.now < 2 ^ 32 }
        ensures read { IfSome result (λ token. (before : List Piece) → IsReadOn before self.old.rest.now self.old.at (before ++ token ∷ []) self.new.rest.now self.new.at) }
        ensures forward { IfSome result (λ _. length self.new.rest.now < length self.old.rest.now) }
        ensures end { IfSome result (λ _. self.new.at + length self.new.rest.now ≡ self.old.at + length self.old.rest.now) }
        ensures none { IfNone result (Stops self.old.rest.now) }
        ensures stays { IfNone result (self.new.at ≡ self.old.at) }
    {
        let token = next_token(self.rest, self.at)?;
        let length = token.text.len();
        self.at += length as u32;
        self.rest = self.rest.split_at(length).1;
        Some(token)
    }

    /// The place of the first byte from here on where no token begins that is read. No token is kept.
    pub(crate) fn stop(self) -> Option<u32>
        requires { self.at + length self.rest.now < 2 ^ 32 }
        ensures some { IfSome result (λ place. (before : List Piece) → IsFaultBehind before self.entry.rest.now self.entry.at (Syntax place)) }
        ensures none { IfNone result ((more : List Piece) × ((before : List Piece) → IsReadOn before self.entry.rest.now self.entry.at (before ++ more) [] (self.entry.at + length self.entry.rest.now))) }
    {
        let mut cursor = self;
        while !cursor.rest.is_empty() {
            let Some(_token) = cursor.next() else {
                return Some(cursor.at);
            };
        }
        None
    }
}
