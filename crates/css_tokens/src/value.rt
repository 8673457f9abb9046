ghost use Rattle.std.specs.Prelude.{◌≡◌, ◌++◌, ◌∷◌, ◌&&◌, [], nat_eq, map, IsTrue, OnOk, OnErr};
ghost use Rattle.std.specs.List.{filter, list_any};
ghost use Rattle.css_tokens.specs.Appends.{AppendsFront};
ghost use Rattle.css_tokens.specs.Kinds.{kind_of, table};
ghost use Rattle.css_tokens.specs.Piece.{word_of};
ghost use Rattle.css_tokens.specs.Tokens.{classes_of, names};
ghost use Rattle.css_tokens.specs.Trees.{pieces_of, words_all, all_formed};
ghost use Rattle.css_tokens.specs.Values.{is_gap, takes_space, value_words, value_text};
ghost use Rattle.css_tokens.specs.ValueAgain.{again, value_again, is_solid};
ghost use Rattle.css_tokens.specs.Private.Pendings.{after_solid, after_waiting_gap, may_take, pending_text, block_words, Writes};

use crate::class::{Class, classify};
use crate::machine::{State, kind_at, step};
use crate::pairing::closing_text;
use crate::{Block, Component, Kind, List, OutOfMemory};

/// White space and comments that wait until the next word shows that the value goes on.
#[derive(Clone, Copy, Debug)]
enum Pending {
    /// Nothing is written yet, so they are dropped.
    Start,
    Nothing,
    Comment,
    Space,
    /// Nothing either, and the word before takes a space that follows it.
    AfterEscape,
    /// A comment behind such a word.
    EscapeComment,
    /// White space behind such a word, from which a comment parts it.
    EscapeSpace,
}

/// Whether a token of this kind is white space or a comment (CSS Syntax 3, section 4).
pub fn is_gap(kind: Kind) -> bool
    ensures { result ≡ is_gap kind }
{
    matches!(kind, Kind::White | Kind::Comment)
}

/// What waits after a word that takes a space, or does not.
fn after_solid(takes: bool) -> Pending
    ensures { result ≡ after_solid takes }
{
    if takes {
        Pending::AfterEscape
    } else {
        Pending::Nothing
    }
}

/// Whether any byte is a `\`.
fn has_escape(text: &[u8]) -> bool
    ensures { result ≡ list_any (nat_eq 92) text.now }
{
    text.iter().any(|byte| *byte == b'\\')
}

/// The kind of a text with a space behind it, where it is a token.
fn kind_with_space(text: &[u8]) -> Option<Kind>
    ensures { result ≡ kind_of table (classes_of (text.now ++ 32 ∷ [])) [] }
{
    let mut state = State::Start;
    for byte in text {
        state = step(state, classify(*byte));
    }
    kind_at(step(state, Class::Blank), &[])
}

/// Whether a token of this kind may end in an escape, and this is the kind.
fn is_same_taking(kind: Kind, found: Option<Kind>) -> bool
    ensures { result ≡ (may_take kind && names kind found) }
{
    match kind {
        Kind::Ident => matches!(found, Some(Kind::Ident)),
        Kind::At => matches!(found, Some(Kind::At)),
        Kind::Hash => matches!(found, Some(Kind::Hash)),
        Kind::Dimension => matches!(found, Some(Kind::Dimension)),
        _ => false,
    }
}

/// Whether a token of this kind may end in an escape.
fn may_take(kind: Kind) -> bool
    ensures { result ≡ may_take kind }
{
    matches!(kind, Kind::Ident | Kind::At | Kind::Hash | Kind::Dimension)
}

/// Whether a word ends in an escape that takes a space which follows it.
#[tactic(auto, using(crate::proofs::TakesSpace::escaped_takes))]
fn takes_space(kind: Kind, text: &str) -> bool
    ensures { result ≡ takes_space (record { kind = kind; text = text.now }) }
{
    if !may_take(kind) {
        return false;
    }
    if !has_escape(text.as_bytes()) {
        return false;
    }
    is_same_taking(kind, kind_with_space(text.as_bytes()))
}

impl Pending {
    /// What waits after a gap of this kind.
    fn after_gap(self, kind: Kind) -> Pending
        ensures { result ≡ after_waiting_gap self kind }
    {
        match self {
            Pending::Start => Pending::Start,
            Pending::Space => Pending::Space,
            Pending::EscapeSpace => Pending::EscapeSpace,
            Pending::Nothing | Pending::Comment => match kind {
                Kind::White => Pending::Space,
                _ => Pending::Comment,
            },
            Pending::AfterEscape | Pending::EscapeComment => match kind {
                Kind::White => Pending::EscapeSpace,
                _ => Pending::EscapeComment,
            },
        }
    }

    /// The text of what waits.
    fn text(self) -> &'static str
        ensures { result.now ≡ pending_text self }
    {
        match self {
            Pending::Start | Pending::Nothing | Pending::AfterEscape => "",
            Pending::Comment | Pending::EscapeComment => "/**/",
            Pending::Space => " ",
            Pending::EscapeSpace => "/**/ ",
        }
    }
}

/// Writes a word, or lets a gap wait.
fn write_word(
    kind: Kind,
    text: &str,
    pending: Pending,
    out: &mut List<u8>,
) -> Result<Pending, OutOfMemory>
    ensures { Writes pending (record { kind = kind; text = text.now } ∷ []) out.old out.new result }
{
    if is_gap(kind) {
        return Ok(pending.after_gap(kind));
    }
    out.extend_from_slice(pending.text().as_bytes())?;
    out.extend_from_slice(text.as_bytes())?;
    Ok(after_solid(takes_space(kind, text)))
}

/// Writes components in order.
#[cycle(write_components)]
fn write_components(
    items: &[Component],
    pending: Pending,
    out: &mut List<u8>,
) -> Result<Pending, OutOfMemory>
    ensures { Writes pending (words_all items.now) out.old out.new result }
{
    let mut waiting = pending;
    for item in items {
        waiting = write_component(item, waiting, out)?;
    }
    Ok(waiting)
}

/// Writes a component, a block with all that stands in it.
#[cycle(write_components)]
fn write_component(
    item: &Component,
    pending: Pending,
    out: &mut List<u8>,
) -> Result<Pending, OutOfMemory>
    ensures { Writes pending (map word_of (pieces_of item.now)) out.old out.new result }
{
    match item {
        Component::Single(token) => write_word(token.kind, token.text, pending, out),
        Component::Block(block) => write_block(block.get(), pending, out),
    }
}

/// Writes a block: its opening token, what stands in it, and the token that closes it.
#[cycle(write_components)]
fn write_block(block: &Block, pending: Pending, out: &mut List<u8>) -> Result<Pending, OutOfMemory>
    ensures { Writes pending (block_words block.now) out.old out.new result }
{
    let inside = write_word(block.opening.kind, block.opening.text, pending, out)?;
    let close = write_components(block.items.as_slice(), inside, out)?;
    write_word(Kind::Close, closing_text(block.opening.text), close, out)
}

/// Appends a value as it prints: each token as its text, each run of white space and comments as one space where it has
/// white space, else as `/**/`, and at both ends as nothing. Where the token before the run ends in an escape that would
/// take the space, `/**/` stands before it. Where memory runs out, a front of the text is appended.
pub fn write_value(value: &[Component], out: &mut List<u8>) -> Result<(), OutOfMemory>
    ensures ok { OnOk result (out.new ≡ out.old ++ value_text value.now) }
    ensures err { OnErr result (AppendsFront out.old out.new (value_text value.now)) }
{
    write_components(value, Pending::Start, out)?;
    Ok(())
}

/// What a value's printed text is made of: its words, its text, and its components other than white space and comments.
pub fn printed_again()
    ensures words { (v : List Component) → IsTrue (all_formed v) → words_all (value_again v) ≡ value_words v }
    ensures formed { (v : List Component) → IsTrue (all_formed v) → IsTrue (all_formed (value_again v)) }
    ensures text { (v : List Component) → IsTrue (all_formed v) → value_text (value_again v) ≡ value_text v }
    ensures twice { (v : List Component) → IsTrue (all_formed v) → value_words (value_again v) ≡ value_words v }
    ensures solid { (v : List Component) → filter is_solid (value_again v) ≡ map again (filter is_solid v) }
    ensures starts { (v cs : List Component) (c : Component) → value_again v ≡ c ∷ cs → IsTrue (is_solid c) }
    ensures ends { (v cs : List Component) (c : Component) → value_again v ≡ cs ++ c ∷ [] → IsTrue (is_solid c) }
{}
