//! The limit of the media query lists of a sheet.

ghost use Rattle.findings.specs.Limits.{is_long, item_lists, items_lists, lists_of, sheet_limit};
ghost use Rattle.std.specs.List.{list_any};
ghost use Rattle.std.specs.Prelude.{◌≡◌, ◌++◌};

use css_places::LimitKind;
use media_clauses::{are_plain, count_clauses};
use media_spelling::Query;
use sheet_types::{Group, GroupCondition, Item, Sheet};

/// How many clauses a media query list may have.
const MOST: u64 = 64;

// Whether it has more clauses than it may have. An empty list, and one of plain queries, is told without clauses.
fn is_long(list: &[Query]) -> bool
    ensures { result ≡ is_long list.now }
{
    !are_plain(list) && count_clauses(list) > MOST
}

fn is_long_condition(condition: &GroupCondition) -> bool
    ensures { result ≡ list_any is_long (lists_of condition.now) }
{
    match condition {
        GroupCondition::Media(list) => is_long(list.as_slice()),
        GroupCondition::Supports(_) => false,
    }
}

#[cycle(limits)]
#[tactic(auto, using(crate::proofs::Lists::listed))]
fn has_long(item: &Item) -> bool
    ensures { result ≡ list_any is_long (item_lists item.now) }
{
    match item {
        Item::Style(style) => have_long(style.items.as_slice()),
        Item::Group(group) => has_long_within(group),
        Item::Plain(_) | Item::Passed(_) | Item::Other(_) => false,
    }
}

#[cycle(limits)]
fn has_long_within(group: &Group) -> bool
    ensures { result ≡ list_any is_long (lists_of group.now.condition ++ items_lists group.now.items) }
{
    is_long_condition(&group.condition) || have_long(group.items.as_slice())
}

#[cycle(limits)]
fn have_long(items: &[Item]) -> bool
    ensures { result ≡ list_any is_long (items_lists items.now) }
{
    for item in items {
        if has_long(item) {
            return true;
        }
    }
    false
}

/// The limit that a sheet passes.
pub fn sheet_limit(sheet: &Sheet) -> Option<LimitKind>
    ensures { result ≡ sheet_limit sheet.now }
{
    if have_long(sheet.items.as_slice()) {
        Some(LimitKind::L8)
    } else {
        None
    }
}
