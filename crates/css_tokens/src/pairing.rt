ghost use Rattle.std.specs.Prelude.{◌≡◌, ◌⊎◌, ◌≤◌, ℕ, [], ◌∷◌, ◌++◌, IsTrue, false, IfOk, OnOk, IsErrOf, Some, None, length, true};
ghost use Rattle.css_tokens.specs.Pairing.{awaited_next, closed_by, IsPaired, IsMismatch, IsTooDeep, IsUnclosed, places_rise};
ghost use Rattle.css_tokens.specs.Trees.{pieces_all, all_formed, opens, closes, closing_text};
ghost use Rattle.css_tokens.specs.Refusals.{IsRefusal};
ghost use Rattle.css_tokens.specs.Private.Nests.{nest_pieces, nest_awaited, nest_formed, IsOneTooDeep};

use crate::{Block, Boxed, Component, Kind, List, OutOfMemory, Token};
use std::alloc::{AllocFailed, Global};
use std::mem;
use thiserror::Error;

/// Why tokens are no components.
#[derive(Debug, Drop, Error)]
pub enum ComponentFault {
    /// A closing token matches no open one, or a block is open at the end.
    #[error("brackets do not match at byte {0}")]
    Syntax(u32),
    /// An opening token makes the depth 65.
    #[error("nested too deep at byte {0}")]
    Depth(u32),
    #[error("out of memory")]
    Memory,
}

impl From<OutOfMemory> for ComponentFault {
    ghost use Rattle.css_tokens.specs.declared.pairing.ComponentFault.TheVariants.{Memory};

    ghost from_gives = { λ _ e. e ≡ Memory };

    fn from(_error: OutOfMemory) -> ComponentFault {
        ComponentFault::Memory
    }
}

impl<T: Drop> From<AllocFailed<T>> for ComponentFault {
    ghost use Rattle.css_tokens.specs.declared.pairing.ComponentFault.TheVariants.{Memory};

    ghost from_gives = { λ _ e. e ≡ Memory };

    fn from(_error: AllocFailed<T>) -> ComponentFault {
        ComponentFault::Memory
    }
}

/// How many blocks may be open at once.
const MOST_OPEN: usize = 64;

/// A block whose closing token is still to come.
#[derive(Debug, Drop)]
pub(crate) struct Opened<'a> {
    /// What stands before it in the block around it.
    before: List<Component<'a>>,
    opening: Token<'a>,
}

/// What the tokens so far are made into.
#[derive(Debug, Drop)]
pub(crate) struct Nest<'a> {
    /// The open blocks, the outermost first.
    pub(crate) outer: Vec<Opened<'a>>,
    /// What stands in the innermost open block.
    pub(crate) items: List<Component<'a>>,
    /// Lists of blocks that are closed, whose room the next blocks take.
    pub(crate) spare: Vec<List<Component<'a>>>,
}

/// The text that closes what a token of this text opens.
pub(crate) fn closing_text(opening: &str) -> &'static str
    ensures { result.now ≡ closing_text opening.now }
{
    match opening {
        "[" => "]",
        "{" => "}",
        _ => ")",
    }
}

/// Whether a token of this kind opens a block.
pub(crate) fn opens(kind: Kind) -> bool
    ensures { result ≡ opens kind }
{
    matches!(kind, Kind::Open | Kind::Function)
}

/// Whether a token of this kind closes a block.
pub(crate) fn closes(kind: Kind) -> bool
    ensures { result ≡ closes kind }
{
    matches!(kind, Kind::Close)
}

impl<'a> Nest<'a> {
    /// Takes a token that neither opens nor closes.
    #[inline(always)]
    fn single(&mut self, token: Token<'a>) -> Result<(), OutOfMemory>
        requires opens { opens token.kind ≡ false }
        requires closes { closes token.kind ≡ false }
        ensures pieces { OnOk result (nest_pieces self.new ≡ nest_pieces self.old ++ token.entry ∷ []) }
        ensures awaited { OnOk result (nest_awaited self.new ≡ nest_awaited self.old) }
        ensures formed { OnOk result (nest_formed self.old ≡ true → nest_formed self.new ≡ true) }
    {
        self.items.push(Component::Single(token))
    }

    /// An empty list, with the room of a closed block where there is one.
    fn room(&mut self, alloc: Global) -> List<Component<'a>>
        ensures empty { result ≡ [] }
        ensures outer { self.new.outer ≡ self.old.outer }
        ensures items { self.new.items ≡ self.old.items }
    {
        match self.spare.pop() {
            Some(mut list) => {
                list.clear();
                list
            }
            None => List::new(alloc),
        }
    }

    /// Takes a token that opens a block.
    // Out of line, as `end` is, so that a token between brackets is taken in few steps.
    #[inline(never)]
    fn begin(&mut self, alloc: Global, token: Token<'a>) -> Result<(), OutOfMemory>
        requires opens { opens token.kind ≡ true }
        ensures pieces { OnOk result (nest_pieces self.new ≡ nest_pieces self.old ++ token.entry ∷ []) }
        ensures awaited { OnOk result (nest_awaited self.new ≡ closing_text token.entry.text ∷ nest_awaited self.old) }
        ensures formed { OnOk result (nest_formed self.old ≡ true → nest_formed self.new ≡ true) }
    {
        let inside = self.room(alloc);
        let before = mem::replace(&mut self.items, inside);
        self.outer.push(Opened {
            before,
            opening: token,
        })?;
        Ok(())
    }

    /// Takes a token that closes a block, if it matches the innermost open one.
    #[inline(never)]
    fn end(&mut self, alloc: Global, token: &Token<'a>) -> Result<(), ComponentFault>
        requires { closes token.now.kind ≡ true }
        ensures pieces { OnOk result (nest_pieces self.new ≡ nest_pieces self.old ++ token.now ∷ []) }
        ensures awaited { OnOk result (closed_by token.now.text (nest_awaited self.old) ≡ Some (nest_awaited self.new)) }
        ensures formed { OnOk result (nest_formed self.old ≡ true → nest_formed self.new ≡ true) }
        ensures mismatch { (o : ℕ) → IsErrOf result (ComponentFault.Syntax o) → (o ≡ token.now.at) × (closed_by token.now.text (nest_awaited self.old) ≡ None) }
        ensures depth { (o : ℕ) → IsErrOf result (ComponentFault.Depth o) → ⊥ }
    {
        let Some(opened) = self.outer.pop() else {
            return Err(ComponentFault::Syntax(token.at));
        };
        let Opened { before, opening } = opened;
        if token.text != closing_text(opening.text) {
            return Err(ComponentFault::Syntax(token.at));
        }
        let mut filled = mem::replace(&mut self.items, before);
        let items = filled.take_all()?;
        self.spare.push(filled)?;
        let close = token.at;
        let block = Boxed::new(
            alloc,
            Block {
                opening,
                items,
                close,
            },
        )?;
        self.items.push(Component::Block(block))?;
        Ok(())
    }

    /// Takes the next token.
    #[inline(always)]
    pub(crate) fn take(&mut self, alloc: Global, token: &Token<'a>) -> Result<(), ComponentFault>
        requires { length (nest_awaited self.old) ≤ 64 }
        ensures pieces { OnOk result (nest_pieces self.new ≡ nest_pieces self.old ++ token.now ∷ []) }
        ensures awaited { OnOk result (awaited_next (nest_awaited self.old) token.now ≡ Some (nest_awaited self.new)) }
        ensures shallow { OnOk result (length (nest_awaited self.new) ≤ 64) }
        ensures formed { OnOk result (nest_formed self.old ≡ true → nest_formed self.new ≡ true) }
        ensures mismatch { (o : ℕ) → IsErrOf result (ComponentFault.Syntax o) → (o ≡ token.now.at) × (awaited_next (nest_awaited self.old) token.now ≡ None) }
        ensures deep { (o : ℕ) → IsErrOf result (ComponentFault.Depth o) → IsOneTooDeep (nest_awaited self.old) token.now o }
    {
        if opens(token.kind) {
            if self.outer.len() == MOST_OPEN {
                return Err(ComponentFault::Depth(token.at));
            }
            self.begin(alloc, token.copy())?;
            return Ok(());
        }
        if closes(token.kind) {
            return self.end(alloc, token);
        }
        self.single(token.copy())?;
        Ok(())
    }
}

/// Pairs the brackets of the tokens, and says of each answer what it means.
fn paired<'a>(
    alloc: Global,
    tokens: &[Token<'a>],
    end: u32,
) -> Result<List<Component<'a>>, ComponentFault>
    ensures paired { IfOk result (λ cs. (pieces_all cs ≡ tokens.now) × IsTrue (all_formed cs)) }
    ensures ok { OnOk result (IsPaired tokens.now) }
    ensures syntax { (o : ℕ) → IsErrOf result (ComponentFault.Syntax o) → IsMismatch tokens.now o ⊎ IsUnclosed tokens.now end o }
    ensures depth { (o : ℕ) → IsErrOf result (ComponentFault.Depth o) → IsTooDeep tokens.now o }
{
    let mut nest = Nest {
        outer: Vec::new(alloc),
        items: List::new(alloc),
        spare: Vec::new(alloc),
    };
    for token in tokens {
        nest.take(alloc, token)?;
    }
    let Nest {
        outer,
        items,
        spare: _,
    } = nest;
    if outer.is_empty() {
        Ok(items)
    } else {
        Err(ComponentFault::Syntax(end))
    }
}

/// The components that the tokens of a text of `end` bytes make. Syntax at a closing token that does not match the
/// innermost open one, or at `end` where a block is open. Depth at an opening token that makes the depth 65.
/// (CSS Syntax 3, section 5.4.)
pub fn components<'a>(
    alloc: Global,
    tokens: &[Token<'a>],
    end: u32,
) -> Result<List<Component<'a>>, ComponentFault>
    requires { IsTrue (places_rise tokens.now end) }
    ensures paired { IfOk result (λ cs. (pieces_all cs ≡ tokens.now) × IsTrue (all_formed cs)) }
    ensures ok { OnOk result (IsPaired tokens.now) }
    ensures syntax { (o : ℕ) → IsErrOf result (ComponentFault.Syntax o) → IsMismatch tokens.now o ⊎ IsUnclosed tokens.now end o }
    ensures depth { (o : ℕ) → IsErrOf result (ComponentFault.Depth o) → IsTooDeep tokens.now o }

    // Each fault is named, unless memory runs out.
    ensures mismatch { (o : ℕ) → IsMismatch tokens.now o → IsRefusal result (ComponentFault.Syntax o) }
    ensures unclosed { (o : ℕ) → IsUnclosed tokens.now end o → IsRefusal result (ComponentFault.Syntax o) }
    ensures deep { (o : ℕ) → IsTooDeep tokens.now o → IsRefusal result (ComponentFault.Depth o) }
{
    paired(alloc, tokens, end)
}

/// Tokens make one list of components at most.
pub fn one_pairing()
    ensures { (a b : List Component) → pieces_all a ≡ pieces_all b → IsTrue (all_formed a) → IsTrue (all_formed b) → a ≡ b }
{}
