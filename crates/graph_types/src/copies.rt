//! Copies of conditions. Their texts are made anew; the tokens in them lie over the same source.

ghost use Rattle.std.specs.Prelude.{◌≡◌, ◌++◌, OnOk, IfOk};
ghost use Rattle.graph_types.specs.Unfolding.{import_conditions};

use css_tokens::{Boxed, List, OutOfMemory, Text, copy_all};
use media_spelling::{Bound, Condition, Feature, Query, Range, Supports};
use sheet_types::{GroupCondition, Import};
use std::alloc::Global;

fn copy_text<'a>(alloc: Global, text: &Text) -> Result<Text<'a>, OutOfMemory>
    ensures { IfOk result (λ copy. copy ≡ text.now) }
{
    Ok(Text::owned(text.as_str().to_owned(alloc)?))
}

fn copy_some_text<'a>(alloc: Global, text: &Option<Text>) -> Result<Option<Text<'a>>, OutOfMemory>
    ensures { IfOk result (λ copy. copy ≡ text.now) }
{
    match text {
        None => Ok(None),
        Some(text) => Ok(Some(copy_text(alloc, text)?)),
    }
}

fn copy_feature<'a>(alloc: Global, feature: &Feature) -> Result<Feature<'a>, OutOfMemory>
    ensures { IfOk result (λ copy. copy ≡ feature.now) }
{
    let name = copy_text(alloc, &feature.name)?;
    let value = copy_some_text(alloc, &feature.value)?;
    Ok(Feature { name, value })
}

fn copy_bound<'a>(alloc: Global, bound: &Bound) -> Result<Bound<'a>, OutOfMemory>
    ensures { IfOk result (λ copy. copy ≡ bound.now) }
{
    let value = copy_text(alloc, &bound.value)?;
    Ok(Bound {
        relation: bound.relation,
        value,
    })
}

fn copy_some_bound<'a>(
    alloc: Global,
    bound: &Option<Bound>,
) -> Result<Option<Bound<'a>>, OutOfMemory>
    ensures { IfOk result (λ copy. copy ≡ bound.now) }
{
    match bound {
        None => Ok(None),
        Some(bound) => Ok(Some(copy_bound(alloc, bound)?)),
    }
}

fn copy_range<'a>(alloc: Global, range: &Range) -> Result<Range<'a>, OutOfMemory>
    ensures { IfOk result (λ copy. copy ≡ range.now) }
{
    let name = copy_text(alloc, &range.name)?;
    let first = copy_bound(alloc, &range.first)?;
    let second = copy_some_bound(alloc, &range.second)?;
    Ok(Range {
        name,
        first,
        second,
    })
}

#[cycle(media)]
fn copy_media<'a>(alloc: Global, condition: &Condition) -> Result<Condition<'a>, OutOfMemory>
    ensures { IfOk result (λ copy. copy ≡ condition.now) }
{
    match condition {
        Condition::And(conditions) => {
            Ok(Condition::And(copy_medias(alloc, conditions.as_slice())?))
        }
        Condition::Or(conditions) => Ok(Condition::Or(copy_medias(alloc, conditions.as_slice())?)),
        Condition::Not(condition) => {
            let copy = copy_media(alloc, condition.get())?;
            Ok(Condition::Not(Boxed::new(alloc, copy)?))
        }
        Condition::Feature(feature) => Ok(Condition::Feature(copy_feature(alloc, feature)?)),
        Condition::Range(range) => Ok(Condition::Range(copy_range(alloc, range)?)),
    }
}

#[cycle(media)]
fn copy_medias<'a>(
    alloc: Global,
    conditions: &[Condition],
) -> Result<List<Condition<'a>>, OutOfMemory>
    ensures { IfOk result (λ copies. copies ≡ conditions.now) }
{
    let mut copies = List::with_capacity(alloc, conditions.len())?;
    for condition in conditions {
        copies.push(copy_media(alloc, condition)?)?;
    }
    Ok(copies)
}

fn copy_some_media<'a>(
    alloc: Global,
    condition: &Option<Condition>,
) -> Result<Option<Condition<'a>>, OutOfMemory>
    ensures { IfOk result (λ copy. copy ≡ condition.now) }
{
    match condition {
        None => Ok(None),
        Some(condition) => Ok(Some(copy_media(alloc, condition)?)),
    }
}

fn copy_query<'a>(alloc: Global, query: &Query) -> Result<Query<'a>, OutOfMemory>
    ensures { IfOk result (λ copy. copy ≡ query.now) }
{
    let media = copy_some_text(alloc, &query.media)?;
    let condition = copy_some_media(alloc, &query.condition)?;
    Ok(Query {
        prefix: query.prefix,
        media,
        condition,
    })
}

fn copy_queries<'a>(alloc: Global, queries: &[Query]) -> Result<List<Query<'a>>, OutOfMemory>
    ensures { IfOk result (λ copies. copies ≡ queries.now) }
{
    let mut copies = List::with_capacity(alloc, queries.len())?;
    for query in queries {
        copies.push(copy_query(alloc, query)?)?;
    }
    Ok(copies)
}

#[cycle(supports)]
fn copy_supports<'a>(alloc: Global, condition: &Supports<'a>) -> Result<Supports<'a>, OutOfMemory>
    ensures { IfOk result (λ copy. copy ≡ condition.now) }
{
    match condition {
        Supports::And(conditions) => {
            Ok(Supports::And(copy_all_supports(alloc, conditions.as_slice())?))
        }
        Supports::Or(conditions) => {
            Ok(Supports::Or(copy_all_supports(alloc, conditions.as_slice())?))
        }
        Supports::Not(condition) => {
            let copy = copy_supports(alloc, condition.get())?;
            Ok(Supports::Not(Boxed::new(alloc, copy)?))
        }
        Supports::Declared(name, value) => {
            let name = copy_text(alloc, name)?;
            Ok(Supports::Declared(name, copy_all(alloc, value.as_slice())?))
        }
        Supports::Function(at) => Ok(Supports::Function(*at)),
    }
}

#[cycle(supports)]
fn copy_all_supports<'a>(
    alloc: Global,
    conditions: &[Supports<'a>],
) -> Result<List<Supports<'a>>, OutOfMemory>
    ensures { IfOk result (λ copies. copies ≡ conditions.now) }
{
    let mut copies = List::with_capacity(alloc, conditions.len())?;
    for condition in conditions {
        copies.push(copy_supports(alloc, condition)?)?;
    }
    Ok(copies)
}

/// The same condition again, over the same source. Refused for want of memory alone.
pub fn copy_condition<'a>(
    alloc: Global,
    condition: &GroupCondition<'a>,
) -> Result<GroupCondition<'a>, OutOfMemory>
    ensures { IfOk result (λ copy. copy ≡ condition.now) }
{
    match condition {
        GroupCondition::Media(queries) => {
            Ok(GroupCondition::Media(copy_queries(alloc, queries.as_slice())?))
        }
        GroupCondition::Supports(condition) => {
            Ok(GroupCondition::Supports(copy_supports(alloc, condition)?))
        }
    }
}

/// The same conditions again, over the same source. Refused for want of memory alone.
pub fn copy_conditions<'a>(
    alloc: Global,
    conditions: &[GroupCondition<'a>],
) -> Result<List<GroupCondition<'a>>, OutOfMemory>
    ensures { IfOk result (λ copies. copies ≡ conditions.now) }
{
    let mut copies = List::with_capacity(alloc, conditions.len())?;
    for condition in conditions {
        copies.push(copy_condition(alloc, condition)?)?;
    }
    Ok(copies)
}

/// The conditions of an import: that of its `supports(..)` where it has one, then its media list where it is not empty (CSS
/// Cascading 5, section 2). They are put behind others. Refused for want of memory alone, with some of them there.
pub fn push_import_conditions<'a>(
    alloc: Global,
    import: &Import<'a>,
    conditions: &mut List<GroupCondition<'a>>,
) -> Result<(), OutOfMemory>
    ensures { OnOk result (conditions.new ≡ conditions.old ++ import_conditions import.now) }
{
    if let Some(supports) = &import.supports {
        let copy = copy_supports(alloc, supports)?;
        conditions.push(GroupCondition::Supports(copy))?;
    }
    if !import.media.is_empty() {
        let copy = copy_queries(alloc, import.media.as_slice())?;
        conditions.push(GroupCondition::Media(copy))?;
    }
    Ok(())
}
