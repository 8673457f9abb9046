//! Media query lists, read from component values (Media Queries 4, section 3).

ghost use Rattle.media_tree.specs.Conditions.{condition_of, solid};
ghost use Rattle.media_tree.specs.Faults.{FaultIs};
ghost use Rattle.media_tree.specs.Features.{feature_of};
ghost use Rattle.media_tree.specs.Private.Readings.{begun_step, both_step, empty_step, ended, finished, list_end, list_step, negative_step, only_step, query_end, query_step, start_step, typed_step, with_query};
ghost use Rattle.media_tree.specs.Queries.{block_sign, makes, queries_reading, sign_of, with_condition};
ghost use Rattle.std.specs.Option.{option_or};
ghost use Rattle.std.specs.Prelude.{◌≡◌, [], map, IfOk, IfErr, Some};

use crate::fault::MediaFault;
use crate::feature::feature_of;
use crate::reading::{Reading, step};
use crate::sign::{Sign, token_sign, within};
use css_tokens::{Block, Boxed, Component, Kind, List, OutOfMemory, Text};
use media_spelling::{Condition, Prefix, Query};
use std::alloc::Global;

/// How far a query is read.
#[derive(Drop)]
enum Pending<'a> {
    /// Nothing is read.
    Start,
    /// `not`
    Negative,
    /// `only`
    Only,
    /// A media type, with its prefix.
    Typed(Prefix, Text<'a>),
    /// A media type and `and`, and what is read of the condition behind them.
    Both(Prefix, Text<'a>, Reading<Condition<'a>>),
    /// A condition without a media type.
    Untyped(Reading<Condition<'a>>),
    /// What stands there is no query.
    Failed,
}

/// A list that is being read.
#[derive(Drop)]
enum Listing<'a> {
    /// Nothing is read but white space and comments.
    Empty,
    /// Its whole queries, and the one that has begun.
    Begun(List<Query<'a>>, Pending<'a>),
}

/// The condition, where it may end here.
fn finished<'a>(
    alloc: Global,
    reading: Reading<Condition<'a>>,
) -> Result<Option<Condition<'a>>, OutOfMemory>
    ensures { IfOk result (λ c. c ≡ finished makes reading.entry) }
{
    match reading {
        Reading::Lone(condition) => Ok(Some(condition)),
        Reading::Negation(condition) => Ok(Some(Condition::Not(Boxed::new(alloc, condition)?))),
        Reading::AndRow(list) => Ok(Some(Condition::And(list))),
        Reading::OrRow(list) => Ok(Some(Condition::Or(list))),
        _ => Ok(None),
    }
}

/// What stands in parentheses: the condition, where it is one, and else the media feature.
fn inside_of<'a>(
    alloc: Global,
    condition: Option<Condition<'a>>,
    components: &[Component<'a>],
) -> Result<Option<Condition<'a>>, OutOfMemory>
    ensures { IfOk result (λ c. c ≡ option_or condition.entry (feature_of components.now)) }
{
    match condition {
        Some(condition) => Ok(Some(condition)),
        None => feature_of(alloc, components),
    }
}

#[cycle(reads)]
#[tactic(auto, using(crate::proofs::SignEquations::query_signs))]
fn sign_of<'a>(
    alloc: Global,
    component: &Component<'a>,
) -> Result<Sign<'a, Condition<'a>>, OutOfMemory>
    ensures { IfOk result (λ w. w ≡ sign_of component.now) }
{
    match component {
        Component::Single(token) => token_sign(alloc, token),
        Component::Block(block) => block_sign(alloc, block.get()),
    }
}

#[cycle(reads)]
fn block_sign<'a>(alloc: Global, block: &Block<'a>) -> Result<Sign<'a, Condition<'a>>, OutOfMemory>
    ensures { IfOk result (λ w. w ≡ block_sign block.now (map sign_of block.now.items)) }
{
    if matches!(block.opening.kind, Kind::Open) && block.opening.text == "(" {
        let condition = condition_in(alloc, block.items.as_slice())?;
        Ok(within(inside_of(alloc, condition, block.items.as_slice())?))
    } else {
        Ok(Sign::Other)
    }
}

/// The condition that components spell, where they spell one.
#[cycle(reads)]
fn condition_in<'a>(
    alloc: Global,
    components: &[Component<'a>],
) -> Result<Option<Condition<'a>>, OutOfMemory>
    ensures { IfOk result (λ c. c ≡ condition_of makes (solid (map sign_of components.now))) }
{
    let mut reading = Reading::Begin;
    for component in components {
        let sign = sign_of(alloc, component)?;
        reading = step(alloc, reading, sign)?;
    }
    finished(alloc, reading)
}

fn start_step<'a>(alloc: Global, sign: Sign<'a, Condition<'a>>) -> Result<Pending<'a>, OutOfMemory>
    ensures { IfOk result (λ p. p ≡ start_step sign.entry) }
{
    match sign {
        Sign::Not => Ok(Pending::Negative),
        Sign::Only => Ok(Pending::Only),
        Sign::Name(media) => Ok(Pending::Typed(Prefix::Plain, media)),
        sign => Ok(Pending::Untyped(step(alloc, Reading::Begin, sign)?)),
    }
}

fn negative_step<'a>(
    alloc: Global,
    sign: Sign<'a, Condition<'a>>,
) -> Result<Pending<'a>, OutOfMemory>
    ensures { IfOk result (λ p. p ≡ negative_step sign.entry) }
{
    match sign {
        Sign::Name(media) => Ok(Pending::Typed(Prefix::Not, media)),
        sign => Ok(Pending::Untyped(step(alloc, Reading::Negative, sign)?)),
    }
}

fn only_step<'a>(sign: Sign<'a, Condition<'a>>) -> Pending<'a>
    ensures { result ≡ only_step sign.entry }
{
    match sign {
        Sign::Name(media) => Pending::Typed(Prefix::Only, media),
        _ => Pending::Failed,
    }
}

fn typed_step<'a>(prefix: Prefix, media: Text<'a>, sign: Sign<'a, Condition<'a>>) -> Pending<'a>
    ensures { result ≡ typed_step prefix media.entry sign.entry }
{
    match sign {
        Sign::And => Pending::Both(prefix, media, Reading::Begin),
        _ => Pending::Failed,
    }
}

fn both_step<'a>(
    alloc: Global,
    prefix: Prefix,
    media: Text<'a>,
    reading: Reading<Condition<'a>>,
    sign: Sign<'a, Condition<'a>>,
) -> Result<Pending<'a>, OutOfMemory>
    ensures { IfOk result (λ p. p ≡ both_step prefix media.entry reading.entry sign.entry) }
{
    match sign {
        Sign::Or => Ok(Pending::Failed),
        sign => Ok(Pending::Both(prefix, media, step(alloc, reading, sign)?)),
    }
}

/// One more sign of a query.
fn query_step<'a>(
    alloc: Global,
    pending: Pending<'a>,
    sign: Sign<'a, Condition<'a>>,
) -> Result<Pending<'a>, OutOfMemory>
    ensures { IfOk result (λ p. p ≡ query_step sign.entry pending.entry) }
{
    match pending {
        Pending::Start => start_step(alloc, sign),
        Pending::Negative => negative_step(alloc, sign),
        Pending::Only => Ok(only_step(sign)),
        Pending::Typed(prefix, media) => Ok(typed_step(prefix, media, sign)),
        Pending::Both(prefix, media, reading) => both_step(alloc, prefix, media, reading, sign),
        Pending::Untyped(reading) => Ok(Pending::Untyped(step(alloc, reading, sign)?)),
        Pending::Failed => Ok(Pending::Failed),
    }
}

fn with_condition<'a>(
    prefix: Prefix,
    media: Option<Text<'a>>,
    condition: Option<Condition<'a>>,
) -> Option<Query<'a>>
    ensures { result ≡ with_condition prefix media.entry condition.entry }
{
    match condition {
        Some(condition) => Some(Query {
            prefix,
            media,
            condition: Some(condition),
        }),
        None => None,
    }
}

/// The query, where it may end here.
fn query_end<'a>(alloc: Global, pending: Pending<'a>) -> Result<Option<Query<'a>>, OutOfMemory>
    ensures { IfOk result (λ q. q ≡ query_end pending.entry) }
{
    match pending {
        Pending::Typed(prefix, media) => Ok(Some(Query {
            prefix,
            media: Some(media),
            condition: None,
        })),
        Pending::Both(prefix, media, reading) => Ok(with_condition(
            prefix,
            Some(media),
            finished(alloc, reading)?,
        )),
        Pending::Untyped(reading) => Ok(with_condition(
            Prefix::Plain,
            None,
            finished(alloc, reading)?,
        )),
        _ => Ok(None),
    }
}

/// One more query of a list, where it is one. A list of which a query fails has failed.
fn with_query<'a>(
    list: List<Query<'a>>,
    query: Option<Query<'a>>,
) -> Result<Listing<'a>, OutOfMemory>
    ensures { IfOk result (λ l. l ≡ with_query list.entry query.entry) }
{
    let mut list = list;
    match query {
        Some(query) => {
            list.push(query)?;
            Ok(Listing::Begun(list, Pending::Start))
        }
        None => Ok(Listing::Begun(list, Pending::Failed)),
    }
}

/// One more sign of a list of which something is read.
fn begun_step<'a>(
    alloc: Global,
    list: List<Query<'a>>,
    pending: Pending<'a>,
    sign: Sign<'a, Condition<'a>>,
) -> Result<Listing<'a>, OutOfMemory>
    ensures { IfOk result (λ l. l ≡ begun_step list.entry pending.entry sign.entry) }
{
    match sign {
        Sign::Gap => Ok(Listing::Begun(list, pending)),
        Sign::Comma => with_query(list, query_end(alloc, pending)?),
        sign => Ok(Listing::Begun(list, query_step(alloc, pending, sign)?)),
    }
}

/// One more sign of a list of which nothing is read.
fn empty_step<'a>(alloc: Global, sign: Sign<'a, Condition<'a>>) -> Result<Listing<'a>, OutOfMemory>
    ensures { IfOk result (λ l. l ≡ empty_step sign.entry) }
{
    match sign {
        Sign::Gap => Ok(Listing::Empty),
        sign => begun_step(alloc, List::new(alloc), Pending::Start, sign),
    }
}

/// One more sign of a list.
fn list_step<'a>(
    alloc: Global,
    listing: Listing<'a>,
    sign: Sign<'a, Condition<'a>>,
) -> Result<Listing<'a>, OutOfMemory>
    ensures { IfOk result (λ l. l ≡ list_step sign.entry listing.entry) }
{
    match listing {
        Listing::Empty => empty_step(alloc, sign),
        Listing::Begun(list, pending) => begun_step(alloc, list, pending, sign),
    }
}

fn ended<'a>(
    list: List<Query<'a>>,
    query: Option<Query<'a>>,
) -> Result<Option<List<Query<'a>>>, OutOfMemory>
    ensures { IfOk result (λ qs. qs ≡ ended list.entry query.entry) }
{
    let mut list = list;
    match query {
        Some(query) => {
            list.push(query)?;
            Ok(Some(list))
        }
        None => Ok(None),
    }
}

/// The list, where its last query may end here.
fn list_end<'a>(alloc: Global, listing: Listing<'a>) -> Result<Option<List<Query<'a>>>, OutOfMemory>
    ensures { IfOk result (λ qs. qs ≡ list_end listing.entry) }
{
    match listing {
        Listing::Empty => Ok(Some(List::new(alloc))),
        Listing::Begun(list, pending) => ended(list, query_end(alloc, pending)?),
    }
}

/// The list that components spell, where they spell one.
fn list_in<'a>(
    alloc: Global,
    components: &[Component<'a>],
) -> Result<Option<List<Query<'a>>>, OutOfMemory>
    ensures { IfOk result (λ qs. qs ≡ queries_reading components.now) }
{
    let mut listing = Listing::Empty;
    for component in components {
        let sign = sign_of(alloc, component)?;
        listing = list_step(alloc, listing, sign)?;
    }
    list_end(alloc, listing)
}

/// Reads a media query list (Media Queries 4, section 3): queries with commas between them, or nothing but white space and
/// comments. Any other component values are refused.
pub fn read_queries<'a>(
    alloc: Global,
    prelude: &[Component<'a>],
) -> Result<List<Query<'a>>, MediaFault>
    ensures found { IfOk result (λ list. queries_reading prelude.now ≡ Some list) }
    ensures fault { IfErr result (λ e. FaultIs e (queries_reading prelude.now)) }
{
    match list_in(alloc, prelude)? {
        Some(list) => Ok(list),
        None => Err(MediaFault::Syntax),
    }
}
