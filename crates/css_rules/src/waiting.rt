//! The tokens of a prelude that wait for a later stage.

ghost use Rattle.std.specs.Prelude.{◌≡◌, ℕ, IfOk};
ghost use Rattle.css_tokens.specs.declared.component.Component.{Block as the_block};
ghost use Rattle.css_tokens.specs.Piece.{Piece};
ghost use Rattle.css_tokens.specs.Trees.{closing, pieces_of, pieces_all};
ghost use Rattle.css_rules.specs.Private.Waiting.{begun, place_seen, seen_at, seen_over};
ghost use Rattle.css_rules.specs.Refusals.{first_refusal, is_ampersand, is_is, waiting_in};

use crate::refusal::Refusal;
use css_components::is_keyword;
use css_tokens::{Block, Component, Kind, OutOfMemory, Token};
use std::alloc::Global;

/// What is seen of the tokens of a prelude up to one of them.
#[derive(Clone, Copy, Debug)]
enum Seen {
    /// Nothing that waits.
    Nothing,
    /// A colon at this place, and behind it nothing but comments.
    Colon(u32),
    /// `&` or the colon of `:is(`, at this place.
    Waiting(u32),
}

#[inline(always)]
fn is_ampersand(token: &Token) -> bool
    ensures { result ≡ is_ampersand token.now.kind token.now.text }
{
    match token.kind {
        Kind::Delim => matches!(token.text.as_bytes(), [b'&']),
        _ => false,
    }
}

fn is_is(alloc: Global, token: &Token) -> Result<bool, OutOfMemory>
    ensures { IfOk result (λ is. is ≡ is_is token.now.kind token.now.text) }
{
    match token.kind {
        Kind::Function => is_keyword(alloc, token, "is"),
        _ => Ok(false),
    }
}

/// What is seen at a token with nothing before it.
#[inline(always)]
fn begun(token: &Token) -> Seen
    ensures { result ≡ begun token.now }
{
    if is_ampersand(token) {
        Seen::Waiting(token.at)
    } else if matches!(token.kind, Kind::Colon) {
        Seen::Colon(token.at)
    } else {
        Seen::Nothing
    }
}

/// What is seen at a token behind a colon.
fn behind_colon(alloc: Global, at: u32, token: &Token) -> Result<Seen, OutOfMemory>
    ensures { IfOk result (λ seen. seen ≡ seen_at (Seen.Colon at) token.now) }
{
    if matches!(token.kind, Kind::Comment) {
        Ok(Seen::Colon(at))
    } else if is_is(alloc, token)? {
        Ok(Seen::Waiting(at))
    } else {
        Ok(begun(token))
    }
}

impl Seen {
    /// What is seen at one more token.
    #[inline(always)]
    fn at(self, alloc: Global, token: &Token) -> Result<Seen, OutOfMemory>
        ensures { IfOk result (λ seen. seen ≡ seen_at self token.now) }
    {
        match self {
            Seen::Nothing => Ok(begun(token)),
            Seen::Colon(at) => behind_colon(alloc, at, token),
            Seen::Waiting(_) => Ok(self),
        }
    }

    /// What is seen at a token that closes a block.
    fn closed(self) -> Seen
        ensures { (opening : Piece) (at : ℕ) → result ≡ seen_at self (closing opening at) }
    {
        match self {
            Seen::Waiting(_) => self,
            _ => Seen::Nothing,
        }
    }

    fn place(self) -> Option<u32>
        ensures { result ≡ place_seen self }
    {
        match self {
            Seen::Waiting(at) => Some(at),
            _ => None,
        }
    }
}

/// What is seen at the end of a component.
#[cycle(seen)]
#[inline(always)]
fn over_one(alloc: Global, seen: Seen, component: &Component) -> Result<Seen, OutOfMemory>
    ensures { IfOk result (λ s. s ≡ seen_over seen (pieces_of component.now)) }
{
    match component {
        Component::Single(token) => seen.at(alloc, token),
        Component::Block(block) => over_block(alloc, seen, block.get()),
    }
}

#[cycle(seen)]
fn over_block(alloc: Global, seen: Seen, block: &Block) -> Result<Seen, OutOfMemory>
    ensures { IfOk result (λ s. s ≡ seen_over seen (pieces_of (the_block block.now))) }
{
    let opened = seen.at(alloc, &block.opening)?;
    let inside = over_all(alloc, opened, block.items.as_slice())?;
    Ok(inside.closed())
}

/// What is seen at the end of components.
#[cycle(seen)]
fn over_all(alloc: Global, begun: Seen, components: &[Component]) -> Result<Seen, OutOfMemory>
    ensures { IfOk result (λ s. s ≡ seen_over begun (pieces_all components.now)) }
{
    let mut seen = begun;
    for component in components {
        seen = over_one(alloc, seen, component)?;
    }
    Ok(seen)
}

/// The refusal at the first token of a prelude that waits for a later stage, at any depth, where there is one.
pub fn waiting_in(alloc: Global, prelude: &[Component]) -> Result<Option<Refusal>, OutOfMemory>
    ensures { IfOk result (λ refusal. refusal ≡ first_refusal (waiting_in prelude.now)) }
{
    let seen = over_all(alloc, Seen::Nothing, prelude)?;
    match seen.place() {
        Some(at) => Ok(Some(Refusal::unbuilt(at))),
        None => Ok(None),
    }
}
