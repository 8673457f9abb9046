//! Rules, read from component values.

ghost use Rattle.std.specs.Prelude.{◌≡◌, ◌+◌, [], IfOk, IsTrue, None, Some, drop, length, slice_get};
ghost use Rattle.std.specs.Option.{option_to_list};
ghost use Rattle.css_rules.specs.AtRules.{at_rule_of};
ghost use Rattle.css_rules.specs.NestedRules.{in_block};
ghost use Rattle.css_rules.specs.Places.{first_place};
ghost use Rattle.css_rules.specs.Refusals.{first_refusal};
ghost use Rattle.css_rules.specs.RuleEnds.{begins_at_rule, block_of, ends_in_braces};
ghost use Rattle.css_rules.specs.Sheets.{at_rule_items, at_rule_refusals, reading, refusing, rule_of, rule_refusals, rules_of, rules_refusals};

use crate::at_rule::{AtRule, at_rule_of};
use crate::cuts::{end_of_cut, rule_mark};
use crate::parts::begins_at_rule;
use crate::reader::{Judged, first_place, into_inside, push_some, read_style, take_one};
use crate::refusal::{Refusal, Sought, sooner_of, sought_in};
use css_components::{is_braces, place_of, trimmed};
use css_tokens::{Component, List, OutOfMemory};
use sheet_types::{Group, GroupCondition, Item, Passed, PassedKind};
use std::alloc::Global;

/// Nothing, for this refusal.
fn refused<'a>(refusal: Option<Refusal>) -> Judged<Option<Item<'a>>>
    ensures value { result.value ≡ None }
    ensures refusal { result.refusal ≡ refusal }
{
    Judged {
        value: None,
        refusal,
    }
}

/// Whether a block ends a rule.
fn ends_in_braces(mark: &Option<Component>) -> bool
    ensures { result ≡ ends_in_braces mark.now }
{
    match mark {
        Some(mark) => is_braces(mark),
        None => false,
    }
}

/// What stands in the block that ends a rule, where one does.
fn into_block<'a>(alloc: Global, mark: Option<Component<'a>>) -> List<Component<'a>>
    ensures { result ≡ block_of mark.entry }
{
    match mark {
        Some(mark) => into_inside(alloc, mark),
        None => List::new(alloc),
    }
}

/// A rule that is passed on.
fn read_passed<'a>(
    alloc: Global,
    at: u32,
    kind: PassedKind,
    prelude: List<Component<'a>>,
    block: List<Component<'a>>,
) -> Result<Judged<Option<Item<'a>>>, OutOfMemory>
    ensures refusal { IfOk result (λ read. read.refusal ≡ first_refusal (at_rule_refusals at (AtRule.PassedOn kind prelude.entry) block.entry [])) }
    ensures value { IfOk result (λ read. read.refusal ≡ None → at_rule_items at (AtRule.PassedOn kind prelude.entry) block.entry None ≡ Some (option_to_list read.value)) }
{
    let before = sought_in(alloc, prelude.as_slice(), Sought::RevertLayerOrUrl)?;
    let within = sought_in(alloc, block.as_slice(), Sought::RevertLayerOrUrl)?;
    Ok(Judged {
        value: Some(Item::Passed(Passed {
            kind,
            prelude,
            block,
            at,
        })),
        refusal: sooner_of(before, within),
    })
}

/// A group of rules.
#[cycle(rules)]
fn read_group<'a>(
    alloc: Global,
    at: u32,
    condition: GroupCondition<'a>,
    block: List<Component<'a>>,
) -> Result<Judged<Option<Item<'a>>>, OutOfMemory>
    ensures refusal { IfOk result (λ read. read.refusal ≡ first_refusal (at_rule_refusals at (AtRule.Group condition.entry) block.entry (rules_refusals block.entry))) }
    ensures value { IfOk result (λ read. read.refusal ≡ None → at_rule_items at (AtRule.Group condition.entry) block.entry (rules_of block.entry) ≡ Some (option_to_list read.value)) }
{
    let Judged {
        value: items,
        refusal,
    } = read_rules(alloc, block)?;
    Ok(Judged {
        value: Some(Item::Group(Group {
            condition,
            items,
            at,
        })),
        refusal,
    })
}

/// An at-rule, and the mark that ends it.
#[cycle(rules)]
fn read_at_rule<'a>(
    alloc: Global,
    rule: &[Component<'a>],
    mark: Option<Component<'a>>,
) -> Result<Judged<Option<Item<'a>>>, OutOfMemory>
    requires { IsTrue (begins_at_rule rule.now) }
    ensures refusal { IfOk result (λ read. read.refusal ≡ first_refusal (at_rule_refusals (first_place rule.now 0) (at_rule_of rule.now (ends_in_braces mark.entry)) (block_of mark.entry) (in_block refusing rules_refusals mark.entry))) }
    ensures value { IfOk result (λ read. read.refusal ≡ None → at_rule_items (first_place rule.now 0) (at_rule_of rule.now (ends_in_braces mark.entry)) (block_of mark.entry) (in_block reading rules_of mark.entry) ≡ Some (option_to_list read.value)) }
{
    let at = first_place(rule, 0);
    let has_block = ends_in_braces(&mark);
    match at_rule_of(alloc, rule, has_block)? {
        AtRule::Group(condition) => read_group(alloc, at, condition, into_block(alloc, mark)),
        AtRule::PassedOn(kind, prelude) => {
            read_passed(alloc, at, kind, prelude, into_block(alloc, mark))
        }
        AtRule::Import => Ok(refused(Some(Refusal::late_import(at)))),
        AtRule::Waiting => Ok(refused(Some(Refusal::unbuilt(at)))),
        AtRule::Unknown => Ok(Judged {
            value: Some(Item::Other(at)),
            refusal: None,
        }),
        AtRule::Unread => Ok(refused(Some(Refusal::syntax(at)))),
    }
}

/// What stands among rules before a mark and the mark, or what stands behind the last one.
#[cycle(rules)]
pub fn read_rule<'a>(
    alloc: Global,
    front: &[Component<'a>],
    mark: Option<Component<'a>>,
) -> Result<Judged<Option<Item<'a>>>, OutOfMemory>
    ensures refusal { IfOk result (λ read. read.refusal ≡ first_refusal (rule_refusals (record { front = front.now; mark = mark.entry }))) }
    ensures value { IfOk result (λ read. read.refusal ≡ None → rule_of (record { front = front.now; mark = mark.entry }) ≡ Some (option_to_list read.value)) }
{
    let rule = trimmed(front);
    if begins_at_rule(rule) {
        return read_at_rule(alloc, rule, mark);
    }
    match (rule, mark) {
        (_, Some(block)) => read_style(alloc, front, block),
        ([first, ..], None) => Ok(refused(Some(Refusal::syntax(place_of(first))))),
        ([], None) => Ok(refused(None)),
    }
}

/// Takes the mark out of the list that holds it, where there is one at this place.
fn take_mark<'a>(components: &mut [Component<'a>], at: usize) -> Option<Component<'a>>
    ensures taken { result ≡ slice_get components.old at }
    ensures behind { drop (at + 1) components.new ≡ drop (at + 1) components.old }
    ensures length { length components.new ≡ length components.old }
{
    if at < components.len() {
        Some(take_one(&mut components[at]))
    } else {
        None
    }
}

/// Rules one after another. The blocks that end them are taken out.
#[cycle(rules)]
fn read_rules<'a>(
    alloc: Global,
    rules: List<Component<'a>>,
) -> Result<Judged<List<Item<'a>>>, OutOfMemory>
    ensures refusal { IfOk result (λ read. read.refusal ≡ first_refusal (rules_refusals rules.entry)) }
    ensures value { IfOk result (λ read. read.refusal ≡ None → rules_of rules.entry ≡ Some read.value) }
{
    let mut components = rules.into_vec();
    let mut items = List::new(alloc);
    let mut refusal = None;
    let mut from = 0;
    while from <= components.len() {
        let end = end_of_cut(components.as_slice(), from, rule_mark(&components[from..]));
        let mark = take_mark(&mut components[end..], 0);
        let rule = read_rule(alloc, &components[from..end], mark)?;
        refusal = sooner_of(refusal, rule.refusal);
        let Judged { value, refusal: _ } = rule;
        push_some(&mut items, value)?;
        from = end + 1;
    }
    Ok(Judged {
        value: items,
        refusal,
    })
}
