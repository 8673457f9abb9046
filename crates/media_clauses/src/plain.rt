//! Media lists that target sheets can have, but for ranges that features tell.

ghost use Rattle.std.specs.Prelude.{◌≡◌, ◌++◌, flat_map, map, OnOk, IfOk};
ghost use Rattle.std.specs.List.{list_all};
ghost use Rattle.media_spelling.specs.declared.condition.Condition as conditions;
ghost use Rattle.media_spelling.specs.declared.condition.Condition.{out-Condition};
ghost use Rattle.media_clauses.specs.Clauses.{bound_feature, bounds, is_strict};
ghost use Rattle.media_clauses.specs.Lowered.{all_of, features_of, is_closed_range, is_plain, is_row, joined_features, layer_features, layer_is_plain, layer_is_row, layer_row, plain_query, range_features};

use crate::clause_list::is_strict;
use crate::copied::{bound_feature, copied_feature, copied_option};
use css_tokens::{List, OutOfMemory};
use media_spelling::{Condition, Prefix, Query, Range};
use std::alloc::Global;
use target_check::are_target_queries;

/// Conditions joined by `and`, where there are any.
pub fn all_of<'a>(mut list: List<Condition<'a>>) -> Option<Condition<'a>>
    ensures { result ≡ all_of list.entry }
{
    if list.len() < 2 {
        list.pop()
    } else {
        Some(Condition::And(list))
    }
}

fn is_closed_range(range: &Range) -> bool
    ensures { result ≡ is_closed_range range.now }
{
    match &range.second {
        None => !is_strict(range.first.relation),
        Some(second) => !is_strict(range.first.relation) && !is_strict(second.relation),
    }
}

#[tactic(auto, using(crate::proofs::Variants::variants))]
fn is_plain_part(condition: &Condition) -> bool
    ensures { result ≡ layer_is_plain (out-Condition condition.now) }
{
    match condition {
        Condition::Feature(_) => true,
        Condition::Range(range) => is_closed_range(range),
        _ => false,
    }
}

fn are_plain_parts(list: &[Condition]) -> bool
    ensures { result ≡ list_all (λ c. layer_is_plain (out-Condition c)) list.now }
{
    list.iter().all(is_plain_part)
}

#[tactic(auto, using(crate::proofs::Variants::variants))]
fn is_row(condition: &Condition) -> bool
    ensures { result ≡ is_row condition.now }
{
    match condition {
        Condition::And(list) => !list.is_empty() && are_plain_parts(list.as_slice()),
        Condition::Feature(_) => true,
        Condition::Range(range) => is_closed_range(range),
        _ => false,
    }
}

fn is_plain(query: &Query) -> bool
    ensures { result ≡ is_plain query.now }
{
    match (&query.media, &query.condition) {
        (Some(_), None) => true,
        (Some(_), Some(condition)) => is_row(condition),
        (None, Some(condition)) => matches!(query.prefix, Prefix::Plain) && is_row(condition),
        (None, None) => false,
    }
}

/// Whether each of the queries is a prefix, a media type and features joined by `and`, but for ranges that features tell.
pub fn are_plain(list: &[Query]) -> bool
    ensures { result ≡ list_all is_plain list.now }
{
    list.iter().all(is_plain)
}

fn push_range<'a>(
    alloc: Global,
    range: &Range,
    out: &mut List<Condition<'a>>,
) -> Result<(), OutOfMemory>
    ensures { OnOk result (out.new ≡ out.old ++ map conditions.Feature (range_features range.now)) }
{
    let first = bound_feature(alloc, &range.name, &range.first)?;
    out.push(Condition::Feature(first))?;
    if let Some(second) = &range.second {
        let second = bound_feature(alloc, &range.name, second)?;
        out.push(Condition::Feature(second))?;
    }
    Ok(())
}

/// Puts the features behind others that tell a feature or a range.
#[tactic(auto, using(crate::proofs::Variants::variants))]
fn push_part<'a>(
    alloc: Global,
    condition: &Condition,
    out: &mut List<Condition<'a>>,
) -> Result<(), OutOfMemory>
    ensures { OnOk result (out.new ≡ out.old ++ map conditions.Feature (layer_features (out-Condition condition.now))) }
{
    match condition {
        Condition::Feature(feature) => {
            let copy = copied_feature(alloc, feature)?;
            out.push(Condition::Feature(copy))
        }
        Condition::Range(range) => push_range(alloc, range, out),
        _ => Ok(()),
    }
}

fn push_parts<'a>(
    alloc: Global,
    list: &[Condition],
    out: &mut List<Condition<'a>>,
) -> Result<(), OutOfMemory>
    ensures { OnOk result (out.new ≡ out.old ++ map conditions.Feature (flat_map (λ c. layer_features (out-Condition c)) list.now)) }
{
    for condition in list {
        push_part(alloc, condition, out)?;
    }
    Ok(())
}

#[tactic(auto, using(crate::proofs::Variants::variants))]
fn push_row<'a>(
    alloc: Global,
    condition: &Condition,
    out: &mut List<Condition<'a>>,
) -> Result<(), OutOfMemory>
    ensures { OnOk result (out.new ≡ out.old ++ map conditions.Feature (layer_row (out-Condition condition.now))) }
{
    match condition {
        Condition::And(list) => push_parts(alloc, list.as_slice(), out),
        _ => push_part(alloc, condition, out),
    }
}

/// The features that tell a condition, joined by `and`.
fn told<'a>(
    alloc: Global,
    condition: &Option<Condition>,
) -> Result<Option<Condition<'a>>, OutOfMemory>
    ensures { IfOk result (λ made. made ≡ joined_features (features_of condition.now)) }
{
    match condition {
        None => Ok(None),
        Some(condition) => {
            let mut row = List::new(alloc);
            push_row(alloc, condition, &mut row)?;
            Ok(all_of(row))
        }
    }
}

fn plain_query<'a>(alloc: Global, query: &Query) -> Result<Query<'a>, OutOfMemory>
    ensures { IfOk result (λ made. made ≡ plain_query query.now) }
{
    let media = copied_option(alloc, &query.media)?;
    let condition = told(alloc, &query.condition)?;
    Ok(Query {
        prefix: query.prefix,
        media,
        condition,
    })
}

fn plain_queries<'a>(alloc: Global, list: &[Query]) -> Result<List<Query<'a>>, OutOfMemory>
    ensures { IfOk result (λ made. made ≡ map plain_query list.now) }
{
    let mut made = List::new(alloc);
    for query in list {
        let query = plain_query(alloc, query)?;
        made.push(query)?;
    }
    Ok(made)
}

/// The same queries, their ranges told by features. Takes no memory where there is no range.
#[tactic(auto, using(crate::proofs::PlainLemmas::targets_are_plain))]
pub fn plain_list<'a>(alloc: Global, list: List<Query<'a>>) -> Result<List<Query<'a>>, OutOfMemory>
    ensures { IfOk result (λ made. made ≡ map plain_query list.entry) }
{
    if are_target_queries(list.as_slice()) {
        Ok(list)
    } else {
        plain_queries(alloc, list.as_slice())
    }
}
