//! Items, in which media lists are told by lists that target sheets can have.

ghost use Rattle.std.specs.Prelude.{◌≡◌, [], ◌∷◌, ◌++◌, flat_map, IfOk};
ghost use Rattle.media_lower.specs.MediaItems.{in_group, in_groups, lowered_group, lowered_item};

use crate::settled::is_settled;
use css_tokens::{List, OutOfMemory};
use media_clauses::lower_queries;
use media_spelling::Query;
use sheet_types::{Group, GroupCondition, Item, Style};
use std::alloc::Global;

/// The items made before, and this one.
fn with<'a>(before: List<Item<'a>>, item: Item<'a>) -> Result<List<Item<'a>>, OutOfMemory>
    ensures { IfOk result (λ made. made ≡ before.entry ++ item.entry ∷ []) }
{
    let mut made = before;
    made.push(item)?;
    Ok(made)
}

/// The items made before, and these.
fn joined<'a>(before: List<Item<'a>>, items: List<Item<'a>>) -> Result<List<Item<'a>>, OutOfMemory>
    ensures { IfOk result (λ made. made ≡ before.entry ++ items.entry) }
{
    let mut made = before;
    for item in items.into_vec() {
        made.push(item)?;
    }
    Ok(made)
}

/// A group at this place with this media list and these items, alone.
fn in_group<'a>(
    alloc: Global,
    at: u32,
    list: List<Query<'a>>,
    items: List<Item<'a>>,
) -> Result<List<Item<'a>>, OutOfMemory>
    ensures { IfOk result (λ made. made ≡ in_group at list.entry items.entry) }
{
    let group = Item::Group(Group {
        condition: GroupCondition::Media(list),
        items,
        at,
    });
    with(List::new(alloc), group)
}

/// These items inside groups at this place with these media lists, the first outermost.
#[tactic(auto, using(crate::proofs::MediaCases::last_group))]
fn in_groups<'a>(
    alloc: Global,
    at: u32,
    lists: List<List<Query<'a>>>,
    items: List<Item<'a>>,
) -> Result<List<Item<'a>>, OutOfMemory>
    ensures { IfOk result (λ made. made ≡ in_groups at lists.entry items.entry) }
{
    let mut outer = lists;
    let mut inner = items;
    while let Some(list) = outer.pop() {
        inner = in_group(alloc, at, list, inner)?;
    }
    Ok(inner)
}

/// The items made before, and what these become inside groups with these media lists.
#[cycle(lowered)]
fn lowered_inside<'a>(
    alloc: Global,
    items: List<Item<'a>>,
    lists: List<List<Query<'a>>>,
    at: u32,
    before: List<Item<'a>>,
) -> Result<List<Item<'a>>, OutOfMemory>
    ensures { IfOk result (λ made. made ≡ before.entry ++ in_groups at lists.entry (flat_map lowered_item items.entry)) }
{
    if lists.is_empty() {
        return lowered_items(alloc, items, before);
    }
    let inner = lowered_items(alloc, items, List::new(alloc))?;
    let made = in_groups(alloc, at, lists, inner)?;
    joined(before, made)
}

/// The items made before, and what this group becomes.
#[cycle(lowered)]
fn lowered_group<'a>(
    alloc: Global,
    group: Group<'a>,
    before: List<Item<'a>>,
) -> Result<List<Item<'a>>, OutOfMemory>
    ensures { IfOk result (λ made. made ≡ before.entry ++ lowered_group group.entry.condition group.entry.at (flat_map lowered_item group.entry.items)) }
{
    let Group {
        condition,
        items,
        at,
    } = group;
    match condition {
        GroupCondition::Media(list) => {
            let lists = lower_queries(alloc, list)?;
            lowered_inside(alloc, items, lists, at, before)
        }
        GroupCondition::Supports(condition) => {
            let lowered = lowered_items(alloc, items, List::new(alloc))?;
            with(
                before,
                Item::Group(Group {
                    condition: GroupCondition::Supports(condition),
                    items: lowered,
                    at,
                }),
            )
        }
    }
}

/// The items made before, and what this one becomes.
#[cycle(lowered)]
#[tactic(auto, using(crate::proofs::MediaCases::lowered_cases))]
fn lowered_item<'a>(
    alloc: Global,
    item: Item<'a>,
    before: List<Item<'a>>,
) -> Result<List<Item<'a>>, OutOfMemory>
    ensures { IfOk result (λ made. made ≡ before.entry ++ lowered_item item.entry) }
{
    if is_settled(&item) {
        return with(before, item);
    }
    match item {
        Item::Style(style) => {
            let items = lowered_items(alloc, style.items, List::new(alloc))?;
            with(
                before,
                Item::Style(Style {
                    selectors: style.selectors,
                    items,
                    at: style.at,
                }),
            )
        }
        Item::Plain(declarations) => with(before, Item::Plain(declarations)),
        Item::Group(group) => lowered_group(alloc, group, before),
        Item::Passed(rule) => with(before, Item::Passed(rule)),
        Item::Other(at) => with(before, Item::Other(at)),
    }
}

/// The items made before, and what these become.
#[cycle(lowered)]
pub fn lowered_items<'a>(
    alloc: Global,
    items: List<Item<'a>>,
    before: List<Item<'a>>,
) -> Result<List<Item<'a>>, OutOfMemory>
    ensures { IfOk result (λ made. made ≡ before.entry ++ flat_map lowered_item items.entry) }
{
    let mut made = before;
    for item in items.into_vec() {
        made = lowered_item(alloc, item, made)?;
    }
    Ok(made)
}
