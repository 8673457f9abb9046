//! The components of a text one after another, without a list of its tokens.

ghost use Rattle.std.specs.Prelude.{ℕ, List, [], ◌∷◌, ◌++◌, ◌≡◌, ◌+◌, ◌-◌, ◌^◌, ◌<◌, ◌≤◌, IfOk, IfErr, OnOk, OnErr, IfSome, IfNone, OnSome, length, true};
ghost use Rattle.css_tokens.specs.declared.component.Component.{Component};
ghost use Rattle.css_tokens.specs.Components.{HasComponents, HasRead, IsFirstFault};
ghost use Rattle.css_tokens.specs.Pairing.{IsPaired};
ghost use Rattle.css_tokens.specs.Private.ComponentReading.{IsReadOn, IsFaultBehind, IsFaultOf, HoldsOne, HoldsNothing};
ghost use Rattle.css_tokens.specs.Private.Nests.{nest_pieces, nest_awaited};
ghost use Rattle.css_tokens.specs.Piece.{Piece};
ghost use Rattle.css_tokens.specs.Trees.{is_formed, pieces_of};

use crate::cursor::Cursor;
use crate::pairing::{Nest, closes, opens};
use crate::reader::{checked, mark_length};
use crate::{Component, ComponentFault, List, Token};
use std::alloc::Global;
use std::marker::Model;

/// Reads the components of a text one after another, each whole with its block. Contracts see how far the text is read
/// (CSS Syntax 3, sections 4 and 5).
#[derive(Debug, Drop)]
pub struct ComponentReader<'a> {
    text: &'a [u8],
    cursor: Cursor<'a>,
    alloc: Global,
    /// What is made of the tokens of one component. It is empty between two of them.
    nest: Nest<'a>,
}

impl<'a> Model for ComponentReader<'a> {
    ghost use Rattle.css_tokens.specs.Progress.{Progress};

    ghost Value = { Progress };

    ghost view = { λ reader. record { text = reader.text.now; at = reader.cursor.at } };

    ghost use Rattle.css_tokens.specs.Private.ComponentReading.{StandsIn};

    ghost invariant = { λ reader. StandsIn reader.text.now reader.cursor.rest.now reader.cursor.at reader.nest };
}

impl<'a> ComponentReader<'a> {
    /// A reader that stands before the first component of the text, behind a byte order mark. The text has fewer than
    /// 2^32 - 1 bytes. Refused with `Syntax` at the first byte that belongs to no character in UTF-8 or is a control
    /// character other than tab, LF, FF and CR. Takes no memory.
    pub fn new(alloc: Global, text: &'a [u8]) -> Result<ComponentReader<'a>, ComponentFault>
        requires short { length text.now < 2 ^ 32 - 1 }
        ensures text { IfOk result (λ reader. reader.text ≡ text.now) }
        ensures start { IfOk result (λ reader. HasRead reader []) }
        ensures fault { IfErr result (λ f. IsFirstFault text.now f) }
    {
        let mark = mark_length(text);
        match checked(&text[mark..]) {
            Ok(rest) => Ok(ComponentReader {
                text,
                cursor: Cursor {
                    rest,
                    at: mark as u32,
                },
                alloc,
                nest: Nest {
                    outer: Vec::new(alloc),
                    items: List::new(alloc),
                    spare: Vec::new(alloc),
                },
            }),
            Err(at) => Err(ComponentFault::Syntax((mark + at) as u32)),
        }
    }

    /// The next component, or None at the end of the text. A single token takes no memory. Refused with the first fault of
    /// the whole text: with `Syntax` at a place where no token begins that is read, be it behind a fault of brackets, and
    /// else with that. After None or a refusal the reader stands where it stood, so the next call says the same again.
    pub fn next(&mut self) -> Result<Option<Component<'a>>, ComponentFault>
        ensures text { self.new.text ≡ self.old.text }
        ensures some { IfOk result (λ next. IfSome next (λ c. (done : List Component) → HasRead self.old done → HasRead self.new (done ++ c ∷ []))) }
        ensures none { IfOk result (λ next. IfNone next ((done : List Component) → HasRead self.old done → HasComponents self.old.text done)) }
        ensures fault { IfErr result (λ f. (done : List Component) → HasRead self.old done → IsFirstFault self.old.text f) }

        // How far it goes.
        ensures forward { IfOk result (λ next. OnSome next (self.old.at < self.new.at)) }
        ensures within { self.new.at ≤ length self.new.text }
        ensures stays { IfOk result (λ next. IfNone next (self.new ≡ self.old)) }
        ensures stays_refused { OnErr result (self.new ≡ self.old) }
    {
        if self.cursor.rest.is_empty() {
            return Ok(None);
        }
        let mut cursor = self.cursor;
        match read_one(self.alloc, &mut self.nest, &mut cursor) {
            Ok(component) => {
                self.cursor = cursor;
                Ok(Some(component))
            }
            Err(fault) => {
                self.nest.outer.clear();
                self.nest.items.clear();
                Err(fault)
            }
        }
    }
}

/// A fault of brackets, or else the place behind it where no token begins that is read.
#[inline(never)]
fn first_fault(fault: ComponentFault, behind: Cursor<'_>) -> ComponentFault
    requires { behind.at + length behind.rest.now < 2 ^ 32 }
    ensures { (front : List Piece) → IsFaultOf front fault → IsFaultBehind front behind.entry.rest.now behind.entry.at result }
{
    if let ComponentFault::Memory = fault {
        return fault;
    }
    match behind.stop() {
        Some(place) => ComponentFault::Syntax(place),
        None => fault,
    }
}

/// Takes a token, which stands before the rest of the text.
#[inline(always)]
fn take<'a>(
    alloc: Global,
    nest: &mut Nest<'a>,
    token: &Token<'a>,
    behind: Cursor<'a>,
) -> Result<(), ComponentFault>
    requires holds { HoldsOne nest.old }
    requires unclosed { 0 < length (nest_pieces nest.old) → 0 < length (nest_awaited nest.old) }
    requires short { behind.at + length behind.rest.now < 2 ^ 32 }
    ensures holds { OnOk result (HoldsOne nest.new) }
    ensures pieces { OnOk result (nest_pieces nest.new ≡ nest_pieces nest.old ++ token.now ∷ []) }
    ensures fault { IfErr result (λ f. IsFaultBehind (nest_pieces nest.old ++ token.now ∷ []) behind.entry.rest.now behind.entry.at f) }
{
    match nest.take(alloc, token) {
        Ok(()) => Ok(()),
        Err(fault) => Err(first_fault(fault, behind)),
    }
}

/// Reads one more token of a block.
#[inline(always)]
fn take_next<'a>(
    alloc: Global,
    nest: &mut Nest<'a>,
    cursor: &mut Cursor<'a>,
) -> Result<(), ComponentFault>
    requires holds { HoldsOne nest.old }
    requires unclosed { 0 < length (nest_awaited nest.old) }
    requires short { cursor.old.at + length cursor.old.rest.now < 2 ^ 32 }
    ensures holds { OnOk result (HoldsOne nest.new) }
    ensures read { OnOk result (IsReadOn (nest_pieces nest.old) cursor.old.rest.now cursor.old.at (nest_pieces nest.new) cursor.new.rest.now cursor.new.at) }
    ensures forward { OnOk result (length cursor.new.rest.now < length cursor.old.rest.now) }
    ensures end { OnOk result (cursor.new.at + length cursor.new.rest.now ≡ cursor.old.at + length cursor.old.rest.now) }
    ensures fault { IfErr result (λ f. IsFaultBehind (nest_pieces nest.old) cursor.old.rest.now cursor.old.at f) }
{
    if cursor.rest.is_empty() {
        return Err(ComponentFault::Syntax(cursor.at));
    }
    let Some(token) = cursor.next() else {
        return Err(ComponentFault::Syntax(cursor.at));
    };
    take(alloc, nest, &token, *cursor)
}

/// Reads up to where no block is open.
fn take_block<'a>(
    alloc: Global,
    nest: &mut Nest<'a>,
    cursor: &mut Cursor<'a>,
) -> Result<(), ComponentFault>
    requires holds { HoldsOne nest.old }
    requires short { cursor.old.at + length cursor.old.rest.now < 2 ^ 32 }
    ensures closed { OnOk result (nest.new.outer.items ≡ []) }
    ensures holds { OnOk result (HoldsOne nest.new) }
    ensures read { OnOk result (IsReadOn (nest_pieces nest.old) cursor.old.rest.now cursor.old.at (nest_pieces nest.new) cursor.new.rest.now cursor.new.at) }
    ensures forward { OnOk result (length cursor.new.rest.now ≤ length cursor.old.rest.now) }
    ensures end { OnOk result (cursor.new.at + length cursor.new.rest.now ≡ cursor.old.at + length cursor.old.rest.now) }
    ensures fault { IfErr result (λ f. IsFaultBehind (nest_pieces nest.old) cursor.old.rest.now cursor.old.at f) }
{
    while !nest.outer.is_empty() {
        take_next(alloc, nest, cursor)?;
    }
    Ok(())
}

/// Takes out the one component that the nest holds.
fn take_out<'a>(nest: &mut Nest<'a>) -> Component<'a>
    requires holds { HoldsOne nest.old }
    requires closed { nest.old.outer.items ≡ [] }
    requires some { 0 < length (nest_pieces nest.old) }
    ensures pieces { pieces_of result ≡ nest_pieces nest.old }
    ensures formed { is_formed result ≡ true }
    ensures paired { IsPaired (pieces_of result) }
    ensures nothing { HoldsNothing nest.new }
{
    match nest.items.pop() {
        Some(component) => component,
        None => unreachable!(),
    }
}

/// Reads the first component of a text. A single token takes no memory.
fn read_one<'a>(
    alloc: Global,
    nest: &mut Nest<'a>,
    cursor: &mut Cursor<'a>,
) -> Result<Component<'a>, ComponentFault>
    requires nothing { HoldsNothing nest.old }
    requires some { 0 < length cursor.old.rest.now }
    requires short { cursor.old.at + length cursor.old.rest.now < 2 ^ 32 }
    ensures formed { IfOk result (λ c. is_formed c ≡ true) }
    ensures paired { IfOk result (λ c. IsPaired (pieces_of c)) }
    ensures read { IfOk result (λ c. IsReadOn [] cursor.old.rest.now cursor.old.at (pieces_of c) cursor.new.rest.now cursor.new.at) }
    ensures nothing { OnOk result (HoldsNothing nest.new) }
    ensures forward { OnOk result (length cursor.new.rest.now < length cursor.old.rest.now) }
    ensures end { OnOk result (cursor.new.at + length cursor.new.rest.now ≡ cursor.old.at + length cursor.old.rest.now) }
    ensures fault { IfErr result (λ f. IsFaultBehind [] cursor.old.rest.now cursor.old.at f) }
{
    let Some(token) = cursor.next() else {
        return Err(ComponentFault::Syntax(cursor.at));
    };
    if !opens(token.kind) && !closes(token.kind) {
        return Ok(Component::Single(token));
    }
    take(alloc, nest, &token, *cursor)?;
    take_block(alloc, nest, cursor)?;
    Ok(take_out(nest))
}
