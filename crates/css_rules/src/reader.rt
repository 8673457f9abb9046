//! Style rules, read from component values.

ghost use Rattle.std.specs.Prelude.{◌≡◌, ◌≤◌, ◌+◌, ◌<◌, ◌^◌, ◌||◌, ◌++◌, ◌∷◌, [], ℕ, IfOk, IfErr, IfSome, OnOk, OnErr, IsNone, Option, Some, None, drop, length, slice_get, slice_range};
ghost use Rattle.std.specs.Option.{option_copied, option_map, option_to_list};
ghost use Rattle.css_components.specs.Components.{inside, head};
ghost use Rattle.css_rules.specs.Places.{first_place};
ghost use Rattle.css_rules.specs.Refusals.{first_refusal, holds, is_unbuilt_property, sought_for};
ghost use Rattle.css_rules.specs.Sheets.{block_refusals, declaration_refusals, declarations_of, is_rule, item_of, item_refusals, mark_place, plain_item, plain_refusals, prelude_of, prelude_refusals, rule_of, rule_refusals, style_of, style_refusals, IsNamed, IsLeast};
ghost use Rattle.css_rules.specs.RuleEnds.{begins_at_rule, ends_in_braces, ends_item};
ghost use Rattle.sheet_types.specs.Runs.{run_of};
ghost use Rattle.css_rules.specs.Private.Faults.{fault_of};
ghost use Rattle.css_rules.specs.Private.Marks.{EndsCut};
ghost use Rattle.css_rules.specs.Private.Spans.{IsWithin, at_span, behind, declared_in};

use crate::cuts::{Span, end_of_cut, item_mark, mark_at, rule_mark, trimmed_span};
use crate::declaration::{Found, find_declaration, is_custom};
use crate::first_law::the_first_refusal_is_named;
use crate::parts::begins_at_rule;
use crate::refusal::{Cause, Refusal, Sought, sooner_of, sought_in};
use crate::waiting::waiting_in;
use css_components::{head_of, is_braces, is_semicolon, is_token, place_of, trimmed};
use css_tokens::{Block, Component, Kind, List, OutOfMemory};
use selector_tree::{Selector, SelectorFault, read_list};
use sheet_types::{Declaration, Item, Style};
use std::alloc::Global;
use std::mem;

/// Why a sheet is not read, with the place in bytes of the source.
#[derive(Debug, Drop, thiserror::Error)]
pub enum RuleFault {
    /// It cannot be read.
    #[error("cannot be read")]
    Syntax(u32),
    /// It has a construct that is not built yet.
    #[error("not built yet")]
    Unbuilt(u32),
    /// An import stands behind other rules or in a block.
    #[error("import comes too late")]
    LateImport(u32),
    /// Memory ran out.
    #[error("out of memory")]
    Memory,
}

impl From<OutOfMemory> for RuleFault {
    ghost use Rattle.css_rules.specs.declared.reader.RuleFault.TheVariants.{Memory};

    ghost from_gives = { λ _ fault. fault ≡ Memory };

    fn from(_error: OutOfMemory) -> RuleFault {
        RuleFault::Memory
    }
}

/// What was read, and what it is refused for. Where it is refused, what was read means nothing.
#[derive(Drop)]
pub struct Judged<T> {
    pub value: T,
    pub refusal: Option<Refusal>,
}

/// Whether a text holds a word.
fn holds(word: &[u8], text: &[u8]) -> bool
    ensures { result ≡ holds word.now text.now }
{
    for from in 0..text.len() {
        if text[from..].starts_with(word) {
            return true;
        }
    }
    word.is_empty()
}

/// Whether later stages rewrite this property.
fn is_unbuilt_property(name: &str) -> bool
    ensures { result ≡ is_unbuilt_property name.now }
{
    let bytes = name.as_bytes();
    holds(b"inline", bytes)
        || (holds(b"block", bytes)
            || (bytes.starts_with(b"inset")
                || (bytes.starts_with(b"border-start-")
                    || (bytes.starts_with(b"border-end-")
                        || matches!(bytes, b"float" | b"clear" | b"resize" | b"composes")))))
}

/// What is not built yet in the value of a property of this name.
fn sought_for(name: &str) -> Sought
    ensures { result ≡ sought_for name.now }
{
    if is_custom(name) {
        Sought::RevertLayer
    } else {
        Sought::RevertLayerOrUrl
    }
}

/// What a declaration is refused for, which stands at a place.
fn declaration_refusal(
    alloc: Global,
    at: u32,
    item: &[Component],
    found: &Option<Found>,
) -> Result<Option<Refusal>, OutOfMemory>
    requires { IfSome found.now (λ found. IsWithin found.value item.now) }
    ensures { IfOk result (λ refusal. refusal ≡ first_refusal (declaration_refusals at (option_map (declared_in item.now) found.now))) }
{
    let Some(found) = found else {
        return Ok(Some(Refusal::syntax(at)));
    };
    let name = found.name.as_str();
    let property = if is_unbuilt_property(name) {
        Some(Refusal::unbuilt(at))
    } else {
        None
    };
    let value = sought_in(
        alloc,
        &item[found.value.from..found.value.to],
        sought_for(name),
    )?;
    Ok(sooner_of(property, value))
}

/// The declaration that an item of a block spells which is no rule.
fn read_plain<'a>(
    alloc: Global,
    item: &[Component<'a>],
) -> Result<Judged<Option<Found<'a>>>, OutOfMemory>
    ensures refusal { IfOk result (λ read. read.refusal ≡ first_refusal (plain_refusals item.now)) }
    ensures value { IfOk result (λ read. read.refusal ≡ None → plain_item item.now ≡ Some (option_to_list (option_map (declared_in item.now) read.value))) }
    ensures within { IfOk result (λ read. IfSome read.value (λ found. IsWithin found.value item.now)) }
{
    let [first, ..] = item else {
        return Ok(Judged {
            value: None,
            refusal: None,
        });
    };
    let value = find_declaration(alloc, item)?;
    let refusal = declaration_refusal(alloc, place_of(first), item, &value)?;
    Ok(Judged { value, refusal })
}

/// The place of a mark.
fn mark_place(mark: Option<&Component>) -> u32
    ensures { result ≡ mark_place (option_copied mark.entry) }
{
    match mark {
        Some(mark) => place_of(mark),
        None => 0,
    }
}

/// Whether an item of a style rule's block is an at-rule or a nested rule.
fn is_rule(item: &[Component], mark: Option<&Component>) -> bool
    ensures { result ≡ (begins_at_rule item.now || ends_in_braces (option_copied mark.entry)) }
{
    begins_at_rule(item)
        || match mark {
            Some(mark) => is_braces(mark),
            None => false,
        }
}

/// What stands in a block before a mark, or before its end.
fn read_item<'a>(
    alloc: Global,
    front: &[Component<'a>],
    mark: Option<&Component<'a>>,
) -> Result<Judged<Option<Found<'a>>>, OutOfMemory>
    ensures refusal { IfOk result (λ read. read.refusal ≡ first_refusal (item_refusals (record { front = front.now; mark = option_copied mark.entry }))) }
    ensures value { IfOk result (λ read. read.refusal ≡ None → item_of (record { front = front.now; mark = option_copied mark.entry }) ≡ Some (option_to_list (option_map (declared_in front.now) read.value))) }
    ensures within { IfOk result (λ read. IfSome read.value (λ found. IsWithin found.value front.now)) }
{
    let place = trimmed_span(front);
    let item = &front[place.from..place.to];
    if is_rule(item, mark) {
        return Ok(Judged {
            value: None,
            refusal: Some(Refusal::unbuilt(first_place(item, mark_place(mark)))),
        });
    }
    let Judged { value, refusal } = read_plain(alloc, item)?;
    Ok(Judged {
        value: behind(place.from, value),
        refusal,
    })
}

/// Adds what there is to a list. A refusal changes nothing.
pub fn push_some<T: Drop>(list: &mut List<T>, item: Option<T>) -> Result<(), OutOfMemory>
    ensures ok { OnOk result (list.new ≡ list.old ++ option_to_list item) }
    ensures err { OnErr result (list.new ≡ list.old) }
{
    match item {
        Some(item) => list.push(item),
        None => Ok(()),
    }
}

/// For no more items than this is room taken at once.
const MOST_ROOM: usize = 1_024;

/// How many items the semicolons of a block part, as far as room is taken for them at once.
fn count_of_items(block: &[Component]) -> usize {
    let semicolons = block
        .iter()
        .filter(|component| is_semicolon(component))
        .count();
    semicolons.saturating_add(1).min(MOST_ROOM)
}

/// Takes a component out of the list that holds it. Its first token is left in its place.
pub fn take_one<'a>(component: &mut Component<'a>) -> Component<'a>
    ensures { result ≡ component.old }
{
    let first = Component::Single(head_of(component).copy());
    if is_token(component) {
        first
    } else {
        mem::replace(component, first)
    }
}

/// Takes the components between two places out of the list that holds them.
fn take_all<'a>(
    alloc: Global,
    components: &mut [Component<'a>],
    place: Span,
) -> Result<List<Component<'a>>, OutOfMemory>
    requires { IsWithin place components.old }
    ensures taken { IfOk result (λ taken. taken ≡ at_span components.old place) }
    ensures left { OnOk result (drop place.to components.new ≡ drop place.to components.old) }
    ensures length { OnOk result (length components.new ≡ length components.old) }
{
    let mut taken = List::with_capacity(alloc, place.to - place.from)?;
    let mut at = place.from;
    while at < place.to {
        taken.push(take_one(&mut components[at]))?;
        at += 1;
    }
    Ok(taken)
}

/// The same among components of which so many more stand in front.
fn behind<'a>(count: usize, found: Option<Found<'a>>) -> Option<Found<'a>>
    requires { IfSome found (λ found. (found.value.from ≤ found.value.to) × (count + found.value.to < 2 ^ 64)) }
    ensures { result ≡ option_map (behind count) found.entry }
{
    match found {
        Some(found) => Some(found.behind(count)),
        None => None,
    }
}

/// Adds what declaration there is to a list, its value taken out of the components among which it stands.
fn push_found<'a>(
    alloc: Global,
    components: &mut [Component<'a>],
    found: Option<Found<'a>>,
    declarations: &mut List<Declaration<'a>>,
) -> Result<(), OutOfMemory>
    requires { IfSome found (λ found. IsWithin found.value components.old) }
    ensures pushed { OnOk result (declarations.new ≡ declarations.old ++ option_to_list (option_map (declared_in components.old) found.entry)) }
    ensures left { OnOk result ((end : ℕ) → IfSome found.entry (λ found. found.value.to ≤ end) → drop end components.new ≡ drop end components.old) }
    ensures length { OnOk result (length components.new ≡ length components.old) }
{
    let Some(found) = found else {
        return Ok(());
    };
    let Found {
        name,
        value,
        important,
        at,
    } = found;
    declarations.push(Declaration {
        name,
        value: take_all(alloc, components, value)?,
        important,
        at,
    })
}

/// What stands in a block from a place on up to a mark or the end, and where that is. A declaration has its place in the block.
#[derive(Drop)]
struct Next<'a> {
    value: Option<Found<'a>>,
    refusal: Option<Refusal>,
    end: usize,
}

/// The item of a block that begins at a place.
fn read_next<'a>(
    alloc: Global,
    block: &[Component<'a>],
    from: usize,
) -> Result<Next<'a>, OutOfMemory>
    requires { from ≤ length block.now }
    ensures after { IfOk result (λ next. from ≤ next.end) }
    ensures within { IfOk result (λ next. next.end ≤ length block.now) }
    ensures ends { IfOk result (λ next. EndsCut ends_item block.now from next.end) }
    ensures refusal { IfOk result (λ next. next.refusal ≡ first_refusal (item_refusals (record { front = slice_range block.now from next.end; mark = slice_get block.now next.end }))) }
    ensures value { IfOk result (λ next. next.refusal ≡ None → item_of (record { front = slice_range block.now from next.end; mark = slice_get block.now next.end }) ≡ Some (option_to_list (option_map (declared_in block.now) next.value))) }
    ensures found { IfOk result (λ next. IfSome next.value (λ found. (found.value.from ≤ found.value.to) × (found.value.to ≤ next.end))) }
{
    let mark = item_mark(alloc, &block[from..])?;
    let end = end_of_cut(block, from, mark);
    let item = read_item(alloc, &block[from..end], mark_at(block, end))?;
    let Judged { value, refusal } = item;
    Ok(Next {
        value: behind(from, value),
        refusal,
        end,
    })
}

/// The declarations of a style rule's block. Their values are taken out of it.
fn read_items<'a>(
    alloc: Global,
    block: &mut [Component<'a>],
) -> Result<Judged<List<Declaration<'a>>>, OutOfMemory>
    ensures refusal { IfOk result (λ read. read.refusal ≡ first_refusal (block_refusals block.old)) }
    ensures value { IfOk result (λ read. read.refusal ≡ None → declarations_of block.old ≡ Some read.value) }
{
    let mut declarations = List::with_capacity(alloc, count_of_items(block))?;
    let mut refusal = None;
    let mut from = 0;
    while from <= block.len() {
        let next = read_next(alloc, block, from)?;
        refusal = sooner_of(refusal, next.refusal);
        from = next.end + 1;
        push_found(alloc, block, next.value, &mut declarations)?;
    }
    declarations.shrink_to_fit();
    Ok(Judged {
        value: declarations,
        refusal,
    })
}

/// The declarations of a style rule's block.
fn read_block<'a>(
    alloc: Global,
    block: List<Component<'a>>,
) -> Result<Judged<List<Declaration<'a>>>, OutOfMemory>
    ensures refusal { IfOk result (λ read. read.refusal ≡ first_refusal (block_refusals block.entry)) }
    ensures value { IfOk result (λ read. read.refusal ≡ None → declarations_of block.entry ≡ Some read.value) }
{
    let mut components = block.into_vec();
    read_items(alloc, components.as_mut_slice())
}

/// A run of declarations as the items of a block: none where there is no declaration.
fn run_of<'a>(
    alloc: Global,
    declarations: List<Declaration<'a>>,
) -> Result<List<Item<'a>>, OutOfMemory>
    ensures { IfOk result (λ items. items ≡ run_of declarations.entry) }
{
    if declarations.is_empty() {
        return Ok(List::new(alloc));
    }
    let mut items = List::new(alloc);
    items.push(Item::Plain(declarations))?;
    Ok(items)
}

/// The selectors of a style rule.
fn read_prelude<'a>(
    alloc: Global,
    prelude: &[Component<'a>],
    end: u32,
) -> Result<Judged<List<Selector<'a>>>, OutOfMemory>
    ensures refusal { IfOk result (λ read. read.refusal ≡ first_refusal (prelude_refusals prelude.now end)) }
    ensures value { IfOk result (λ read. read.refusal ≡ None → prelude_of prelude.now ≡ Some read.value) }
{
    let waiting = waiting_in(alloc, prelude)?;
    match read_list(alloc, prelude, end, false) {
        Ok(value) => Ok(Judged {
            value,
            refusal: waiting,
        }),
        Err(SelectorFault::Syntax(at)) => Ok(Judged {
            value: List::new(alloc),
            refusal: sooner_of(waiting, Some(Refusal::syntax(at))),
        }),
        Err(SelectorFault::Memory) => Err(OutOfMemory),
    }
}

/// What stands in a block.
pub fn into_inside<'a>(alloc: Global, component: Component<'a>) -> List<Component<'a>>
    ensures { result ≡ inside component.entry }
{
    match component {
        Component::Single(_) => List::new(alloc),
        Component::Block(block) => {
            let Block {
                opening: _,
                items,
                close: _,
            } = block.into_inner();
            items
        }
    }
}

/// The place of the first component, or another place where there is none.
pub fn first_place(components: &[Component], otherwise: u32) -> u32
    ensures { result ≡ first_place components.now otherwise }
{
    match components {
        [first, ..] => place_of(first),
        [] => otherwise,
    }
}

/// A style rule.
pub fn read_style<'a>(
    alloc: Global,
    prelude: &[Component<'a>],
    block: Component<'a>,
) -> Result<Judged<Option<Item<'a>>>, OutOfMemory>
    ensures refusal { IfOk result (λ read. read.refusal ≡ first_refusal (style_refusals prelude.now (Some block.entry))) }
    ensures value { IfOk result (λ read. read.refusal ≡ None → style_of prelude.now (Some block.entry) ≡ Some (option_to_list read.value)) }
{
    let opening = place_of(&block);
    let selectors = read_prelude(alloc, prelude, opening)?;
    let declarations = read_block(alloc, into_inside(alloc, block))?;
    let refusal = sooner_of(selectors.refusal, declarations.refusal);
    let Judged {
        value: selectors,
        refusal: _,
    } = selectors;
    let Judged {
        value: declarations,
        refusal: _,
    } = declarations;
    Ok(Judged {
        value: Some(Item::Style(Style {
            selectors,
            items: run_of(alloc, declarations)?,
            at: first_place(trimmed(prelude), opening),
        })),
        refusal,
    })
}

/// The fault that names a refusal.
pub fn fault_of(refusal: Refusal) -> RuleFault
    ensures { result ≡ fault_of refusal }
{
    match refusal.cause {
        Cause::Syntax => RuleFault::Syntax(refusal.at),
        Cause::Unbuilt => RuleFault::Unbuilt(refusal.at),
        Cause::LateImport => RuleFault::LateImport(refusal.at),
    }
}
