//! Selectors and lists of them, read from component values (Selectors 4, section 18).

ghost use Rattle.css_tokens.specs.NameText.{name_text};
ghost use Rattle.selector_tree.specs.Faults.{FaultIs};
ghost use Rattle.selector_tree.specs.Grammar.{Mark};
ghost use Rattle.selector_tree.specs.Private.ReadingSteps.{listing_step, Reads};
ghost use Rattle.selector_tokens.specs.Arguments.{an_plus_b, attribute_of, lone_name};
ghost use Rattle.selector_tree.specs.Signs.{argued, attribute_sign, call_of, callee_of, compound_in, delim_sign, call_by, forgiving_list, id_sign, is_gap, kind_sign, list_in, list_reading, mark_of, opened_sign, takes_list, tokens_of, with_argument};
ghost use Rattle.selector_types.specs.declared.selector.Simple as simple;
ghost use Rattle.std.specs.List.{list_all};
ghost use Rattle.std.specs.Option.{option_and_then, option_map};
ghost use Rattle.std.specs.Prelude.{◌≡◌, ℕ, List, map, IfOk, IfErr, OnOk, Ok, true, false};

use crate::fault::SelectorFault;
use crate::reading::Listing;
use crate::sign::{Callee, Sign};
use css_tokens::{Block, Boxed, Component, Kind, List, OutOfMemory, Text, Token, name_of};
use selector_tokens::{an_plus_b, attribute_of, is_id, lone_name, lowered, name_text};
use selector_types::{Combinator, Compound, Selector, Simple};
use std::alloc::Global;
use std::mem;

/// The sign of a Hash: an id where what stands behind `#` spells an identifier.
fn id_sign<'a>(text: &str, name: Text<'a>, at: u32) -> Sign<'a>
    ensures { result ≡ id_sign text.now name.entry at }
{
    if is_id(text.as_bytes()) {
        Sign::Whole(Simple::Id(name), at)
    } else {
        Sign::Other
    }
}

/// The sign of a Delim.
fn delim_sign<'a>(text: &str, at: u32) -> Sign<'a>
    ensures { result ≡ delim_sign text.now at }
{
    match text.as_bytes() {
        [b'>'] => Sign::Joint(Combinator::Child),
        [b'+'] => Sign::Joint(Combinator::Next),
        [b'~'] => Sign::Joint(Combinator::Later),
        [b'*'] => Sign::Star,
        [b'.'] => Sign::Dot(at),
        [b'&'] => Sign::Whole(Simple::Parent, at),
        _ => Sign::Other,
    }
}

/// The sign of a token that opens nothing.
fn token_sign<'a>(alloc: Global, token: &Token<'a>) -> Result<Sign<'a>, OutOfMemory>
    ensures { IfOk result (λ w. w ≡ kind_sign token.now.kind token.now.text token.now.at) }
{
    match token.kind {
        Kind::Comment => Ok(Sign::Comment),
        Kind::White => Ok(Sign::White),
        Kind::Ident => Ok(Sign::Name(name_of(alloc, token)?)),
        Kind::Hash => Ok(id_sign(token.text, name_of(alloc, token)?, token.at)),
        Kind::Delim => Ok(delim_sign(token.text, token.at)),
        Kind::Colon => Ok(Sign::Colon(token.at)),
        Kind::Comma => Ok(Sign::Comma),
        _ => Ok(Sign::Other),
    }
}

/// The place of the first token of a component.
fn place_of(component: &Component) -> u32
    ensures { result ≡ (mark_of component.now).at }
{
    match component {
        Component::Single(token) => token.at,
        Component::Block(block) => block.get().opening.at,
    }
}

/// The token that a component is, where it is no block.
fn token_in<'s, 'a>(component: &'s Component<'a>) -> Option<&'s Token<'a>>
    ensures { option_map (λ t. t.now) result ≡ (mark_of component.now).token }
{
    match component {
        Component::Single(token) => Some(token),
        Component::Block(_) => None,
    }
}

/// The tokens without comments, where there is no block.
fn tokens_of<'a>(
    alloc: Global,
    components: &[Component<'a>],
) -> Result<Option<List<Token<'a>>>, OutOfMemory>
    ensures { IfOk result (λ tokens. tokens ≡ tokens_of (map mark_of components.now)) }
{
    let mut tokens = List::new(alloc);
    for component in components {
        match token_in(component) {
            Some(token) => {
                if !matches!(token.kind, Kind::Comment) {
                    tokens.push(token.copy())?;
                }
            }
            None => return Ok(None),
        }
    }
    Ok(Some(tokens))
}

/// What the Function of this name begins behind a colon.
fn callee_of(name: &str) -> Callee
    ensures { result ≡ callee_of name.now }
{
    match name {
        "not" => Callee::Not,
        "is" => Callee::Is,
        "where" => Callee::Where,
        "local" => Callee::Local,
        "global" => Callee::Global,
        "nth-child" => Callee::Step,
        "nth-last-child" => Callee::Step,
        "nth-of-type" => Callee::Step,
        "nth-last-of-type" => Callee::Step,
        "lang" => Callee::Lang,
        _ => Callee::Other,
    }
}

/// Whether it is white space or a comment.
fn is_gap(component: &Component) -> bool
    ensures { result ≡ is_gap (mark_of component.now).token }
{
    match token_in(component) {
        Some(token) => matches!(token.kind, Kind::White | Kind::Comment),
        None => false,
    }
}

/// Whether there are white space and comments alone.
fn is_nothing(components: &[Component]) -> bool
    ensures { result ≡ list_all (λ c. is_gap (mark_of c).token) components.now }
{
    components.iter().all(is_gap)
}

fn not_of<'a>(list: Option<List<Selector<'a>>>) -> Option<Simple<'a>>
    ensures { result ≡ option_map (λ ss. simple.Not ss) list.entry }
{
    match list {
        Some(list) => Some(Simple::Not(list)),
        None => None,
    }
}

fn is_of<'a>(list: Option<List<Selector<'a>>>) -> Option<Simple<'a>>
    ensures { result ≡ option_map (λ ss. simple.Is ss) list.entry }
{
    match list {
        Some(list) => Some(Simple::Is(list)),
        None => None,
    }
}

fn where_of<'a>(list: Option<List<Selector<'a>>>) -> Option<Simple<'a>>
    ensures { result ≡ option_map (λ ss. simple.Where ss) list.entry }
{
    match list {
        Some(list) => Some(Simple::Where(list)),
        None => None,
    }
}

fn local_of<'a>(
    alloc: Global,
    compound: Option<Compound<'a>>,
) -> Result<Option<Simple<'a>>, OutOfMemory>
    ensures { IfOk result (λ x. x ≡ option_map (λ k. simple.Local k) compound.entry) }
{
    match compound {
        Some(compound) => Ok(Some(Simple::Local(Boxed::new(alloc, compound)?))),
        None => Ok(None),
    }
}

fn global_of<'a>(
    alloc: Global,
    compound: Option<Compound<'a>>,
) -> Result<Option<Simple<'a>>, OutOfMemory>
    ensures { IfOk result (λ x. x ≡ option_map (λ k. simple.Global k) compound.entry) }
{
    match compound {
        Some(compound) => Ok(Some(Simple::Global(Boxed::new(alloc, compound)?))),
        None => Ok(None),
    }
}

/// A pseudo-class with its argument.
fn with_argument<'a>(alloc: Global, name: &str, argument: &str) -> Result<Simple<'a>, OutOfMemory>
    ensures { IfOk result (λ x. x ≡ with_argument name.now argument.now) }
{
    let mut text = String::new(alloc);
    text.push_str(name)?;
    text.push_str("(")?;
    text.push_str(argument)?;
    text.push_str(")")?;
    Ok(Simple::Pseudo(Text::owned(text)))
}

/// A pseudo-class that takes AN+B.
fn step_call<'a>(
    alloc: Global,
    name: &str,
    components: &[Component<'a>],
) -> Result<Simple<'a>, OutOfMemory>
    ensures { IfOk result (λ x. x ≡ argued name.now (option_and_then an_plus_b (tokens_of (map mark_of components.now)))) }
{
    let Some(tokens) = tokens_of(alloc, components)? else {
        return Ok(Simple::Foreign);
    };
    match an_plus_b(alloc, tokens.as_slice())? {
        Some(argument) => with_argument(alloc, name, argument.as_str()),
        None => Ok(Simple::Foreign),
    }
}

/// `:lang()`
fn lang_call<'a>(
    alloc: Global,
    name: &str,
    components: &[Component<'a>],
) -> Result<Simple<'a>, OutOfMemory>
    ensures { IfOk result (λ x. x ≡ argued name.now (option_map name_text (option_and_then lone_name (tokens_of (map mark_of components.now))))) }
{
    let Some(tokens) = tokens_of(alloc, components)? else {
        return Ok(Simple::Foreign);
    };
    match lone_name(alloc, tokens.as_slice())? {
        Some(argument) => {
            let argument = name_text(alloc, argument)?;
            with_argument(alloc, name, argument.as_str())
        }
        None => Ok(Simple::Foreign),
    }
}

/// The sign of a `[]` block.
fn attribute_sign<'a>(
    alloc: Global,
    at: u32,
    components: &[Component<'a>],
) -> Result<Sign<'a>, OutOfMemory>
    ensures { IfOk result (λ w. w ≡ attribute_sign at (option_and_then attribute_of (tokens_of (map mark_of components.now)))) }
{
    let Some(tokens) = tokens_of(alloc, components)? else {
        return Ok(Sign::Other);
    };
    match attribute_of(alloc, tokens.as_slice())? {
        Some(attribute) => {
            let attribute = Boxed::new(alloc, attribute)?;
            Ok(Sign::Whole(Simple::Attribute(attribute), at))
        }
        None => Ok(Sign::Other),
    }
}

/// Whether the Function takes selectors.
fn takes_list(callee: Callee) -> bool
    ensures { result ≡ takes_list callee }
{
    match callee {
        Callee::Not | Callee::Is | Callee::Where | Callee::Local | Callee::Global => true,
        Callee::Step | Callee::Lang | Callee::Other => false,
    }
}

/// The selectors of a list in a Function, where each member is one.
fn finished<'a>(
    alloc: Global,
    read: Result<Listing<'a>, SelectorFault>,
) -> Result<Option<List<Selector<'a>>>, OutOfMemory>
    ensures { IfOk result (λ list. (ms : List Mark) → Reads false read.entry ms → list ≡ list_in ms) }
{
    let finished = match read {
        Ok(listing) => listing.finish(alloc, 0),
        Err(fault) => Err(fault),
    };
    match finished {
        Ok(list) => Ok(Some(list)),
        Err(SelectorFault::Syntax(_)) => Ok(None),
        Err(SelectorFault::Memory) => Err(OutOfMemory),
    }
}

/// Such a list, or nothing.
fn forgiving<'a>(
    alloc: Global,
    nothing: bool,
    read: Result<Listing<'a>, SelectorFault>,
) -> Result<Option<List<Selector<'a>>>, OutOfMemory>
    ensures { IfOk result (λ list. (ms : List Mark) → Reads false read.entry ms → nothing ≡ list_all (λ m. is_gap m.token) ms → list ≡ forgiving_list ms) }
{
    if nothing {
        mem::drop(read);
        Ok(Some(List::new(alloc)))
    } else {
        finished(alloc, read)
    }
}

/// The compound in a Function, where one stands there alone.
fn alone<'a>(
    alloc: Global,
    read: Result<Listing<'a>, SelectorFault>,
) -> Result<Option<Compound<'a>>, OutOfMemory>
    ensures { IfOk result (λ k. (ms : List Mark) → Reads false read.entry ms → k ≡ compound_in ms) }
{
    match read {
        Ok(listing) => listing.finish_alone(alloc),
        Err(SelectorFault::Syntax(_)) => Ok(None),
        Err(SelectorFault::Memory) => Err(OutOfMemory),
    }
}

/// The simple selector that a Function is which takes selectors.
fn list_call<'a>(
    alloc: Global,
    callee: Callee,
    nothing: bool,
    read: Result<Listing<'a>, SelectorFault>,
) -> Result<Option<Simple<'a>>, OutOfMemory>
    ensures { IfOk result (λ x. (name : List ℕ) (ms : List Mark) → takes_list callee ≡ true → Reads false read.entry ms → nothing ≡ list_all (λ m. is_gap m.token) ms → x ≡ call_by callee name ms) }
{
    match callee {
        Callee::Not => Ok(not_of(finished(alloc, read)?)),
        Callee::Is => Ok(is_of(forgiving(alloc, nothing, read)?)),
        Callee::Where => Ok(where_of(forgiving(alloc, nothing, read)?)),
        Callee::Local => local_of(alloc, alone(alloc, read)?),
        Callee::Global => global_of(alloc, alone(alloc, read)?),
        Callee::Step | Callee::Lang | Callee::Other => {
            mem::drop(read);
            Ok(None)
        }
    }
}

/// The simple selector that another Function is.
fn text_call<'a>(
    alloc: Global,
    callee: Callee,
    name: &str,
    components: &[Component<'a>],
) -> Result<Option<Simple<'a>>, OutOfMemory>
    ensures { IfOk result (λ x. takes_list callee ≡ false → x ≡ call_by callee name.now (map mark_of components.now)) }
{
    match callee {
        Callee::Step => Ok(Some(step_call(alloc, name, components)?)),
        Callee::Lang => Ok(Some(lang_call(alloc, name, components)?)),
        _ => Ok(Some(Simple::Foreign)),
    }
}

#[cycle(reads)]
fn sign_of<'a>(alloc: Global, component: &Component<'a>) -> Result<Sign<'a>, OutOfMemory>
    ensures { IfOk result (λ w. w ≡ (mark_of component.now).sign) }
{
    match component {
        Component::Single(token) => token_sign(alloc, token),
        Component::Block(block) => block_sign(alloc, block.get()),
    }
}

#[cycle(reads)]
fn block_sign<'a>(alloc: Global, block: &Block<'a>) -> Result<Sign<'a>, OutOfMemory>
    ensures { IfOk result (λ w. w ≡ opened_sign block.now.opening.kind block.now.opening.text block.now.opening.at (map mark_of block.now.items)) }
{
    match block.opening.kind {
        Kind::Function => {
            let name = lowered(alloc, name_of(alloc, &block.opening)?)?;
            Ok(Sign::Call(call_of(alloc, name, block.items.as_slice())?))
        }
        Kind::Open if block.opening.text == "[" => {
            attribute_sign(alloc, block.opening.at, block.items.as_slice())
        }
        _ => Ok(Sign::Other),
    }
}

/// The simple selector that a Function is behind a colon, where it is one.
#[cycle(reads)]
fn call_of<'a>(
    alloc: Global,
    name: Text<'a>,
    components: &[Component<'a>],
) -> Result<Option<Simple<'a>>, OutOfMemory>
    ensures { IfOk result (λ x. x ≡ call_of name.entry (map mark_of components.now)) }
{
    let callee = callee_of(name.as_str());
    if takes_list(callee) {
        let read = listing_of(alloc, components, false);
        list_call(alloc, callee, is_nothing(components), read)
    } else {
        text_call(alloc, callee, name.as_str(), components)
    }
}

/// One more component of a list.
#[cycle(reads)]
fn step_over<'a>(
    alloc: Global,
    nested: bool,
    component: &Component<'a>,
    listing: &mut Listing<'a>,
) -> Result<(), SelectorFault>
    ensures found { OnOk result (listing_step nested listing.old (mark_of component.now).sign (mark_of component.now).at ≡ Ok listing.new) }
    ensures fault { IfErr result (λ e. FaultIs e (listing_step nested listing.old (mark_of component.now).sign (mark_of component.now).at)) }
{
    let at = place_of(component);
    let sign = sign_of(alloc, component)?;
    listing.step(alloc, nested, sign, at)
}

/// The list that components spell, but for the end of its last member.
#[cycle(reads)]
fn listing_of<'a>(
    alloc: Global,
    components: &[Component<'a>],
    nested: bool,
) -> Result<Listing<'a>, SelectorFault>
    ensures { Reads nested result (map mark_of components.now) }
{
    let mut listing = Listing::fresh(alloc, nested);
    for component in components {
        if let Err(fault) = step_over(alloc, nested, component, &mut listing) {
            mem::drop(listing);
            return Err(fault);
        }
    }
    Ok(listing)
}

/// Reads a selector list (Selectors 4, section 18; CSS Nesting 1, section 3). `end` is the place behind the list. A member
/// may begin with a combinator where `nested`. The first member that is no selector is refused, at its first token that is
/// neither white space nor a comment, or at the `,` behind it, or at `end`.
pub fn read_list<'a>(
    alloc: Global,
    prelude: &[Component<'a>],
    end: u32,
    nested: bool,
) -> Result<List<Selector<'a>>, SelectorFault>
    ensures found { IfOk result (λ list. list_reading nested prelude.now end ≡ Ok list) }
    ensures fault { IfErr result (λ e. FaultIs e (list_reading nested prelude.now end)) }
{
    let listing = listing_of(alloc, prelude, nested)?;
    listing.finish(alloc, end)
}
