ghost use Rattle.std.specs.List.{list_all, list_any};
ghost use Rattle.std.specs.Prelude.{◌≡◌, ◌&&◌};
ghost use Rattle.target_check.specs.Targets.{declares, has_some, is_old_condition, is_old_declaration, is_old_item, is_old_selector, is_run, is_target};

use crate::declaration::is_old_declaration;
use crate::media::is_old_condition;
use crate::selector::is_old_selector;
use selector_tree::Selector;
use sheet_types::{Declaration, Group, Item, Sheet, Style};

fn are_old(declarations: &[Declaration]) -> bool
    ensures { result ≡ list_all is_old_declaration declarations.now }
{
    declarations.iter().all(is_old_declaration)
}

#[tactic(auto, using(crate::proofs::Parts::runs))]
fn is_run(item: &Item) -> bool
    ensures { result ≡ is_run item.now }
{
    match item {
        Item::Plain(declarations) => are_old(declarations.as_slice()),
        Item::Style(_) | Item::Group(_) | Item::Passed(_) | Item::Other(_) => false,
    }
}

fn are_runs(items: &[Item]) -> bool
    ensures { result ≡ list_all is_run items.now }
{
    items.iter().all(is_run)
}

#[tactic(auto, using(crate::proofs::Parts::fills))]
fn declares(item: &Item) -> bool
    ensures { result ≡ declares item.now }
{
    match item {
        Item::Plain(declarations) => !declarations.is_empty(),
        Item::Style(_) | Item::Group(_) | Item::Passed(_) | Item::Other(_) => false,
    }
}

fn is_full(items: &[Item]) -> bool
    ensures { result ≡ list_any declares items.now }
{
    items.iter().any(declares)
}

fn are_old_selectors(selectors: &[Selector]) -> bool
    ensures { result ≡ list_all is_old_selector selectors.now }
{
    selectors.iter().all(is_old_selector)
}

fn is_old_style(style: &Style) -> bool
    ensures { result ≡ (list_all is_old_selector style.now.selectors && (list_all is_run style.now.items && list_any declares style.now.items)) }
{
    are_old_selectors(style.selectors.as_slice())
        && are_runs(style.items.as_slice())
        && is_full(style.items.as_slice())
}

#[cycle(ages)]
#[tactic(auto, using(crate::proofs::Parts::olds))]
fn is_old_item(item: &Item) -> bool
    ensures { result ≡ is_old_item item.now }
{
    match item {
        Item::Style(style) => is_old_style(style),
        Item::Group(group) => is_old_group(group),
        Item::Passed(_) => true,
        Item::Plain(_) | Item::Other(_) => false,
    }
}

#[cycle(ages)]
fn is_old_group(group: &Group) -> bool
    ensures { result ≡ (is_old_condition group.now.condition && (has_some group.now.items && list_all is_old_item group.now.items)) }
{
    is_old_condition(&group.condition)
        && !group.items.is_empty()
        && are_old_items(group.items.as_slice())
}

#[cycle(ages)]
fn are_old_items(items: &[Item]) -> bool
    ensures { result ≡ list_all is_old_item items.now }
{
    for item in items {
        if !is_old_item(item) {
            return false;
        }
    }
    true
}

/// Whether a sheet is a target sheet: it imports none, and holds style rules, groups and rules that are passed on alone. A style rule declares
/// something and holds no rule or group, and each selector is one of Selectors 3, but for pseudo-classes and pseudo-elements of
/// any name without an argument. A group holds something, each of it such a rule or group, and asks for a media query list that
/// Media Queries 3, section 2, has, but for features of any name, or for a supports condition without functions (Conditional Rules
/// 3, section 6). No declaration is `composes`, a logical property (CSS Logical 1, section 4), or `float`, `clear` or `resize` with a
/// flow-relative keyword alone (sections 2.2 and 2.4). Takes no memory.
pub fn is_target(sheet: &Sheet) -> bool
    ensures { result ≡ is_target sheet.now }
{
    sheet.imports.is_empty() && are_old_items(sheet.items.as_slice())
}
