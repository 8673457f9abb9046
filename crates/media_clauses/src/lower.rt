//! Media lists told by lists that target sheets can have.

ghost use Rattle.std.specs.Prelude.{◌≡◌, ◌≢◌, ◌↔◌, [], ◌++◌, map, flat_map, IsTrue, OnOk, IfOk};
ghost use Rattle.media_spelling.specs.declared.condition.Condition as conditions;
ghost use Rattle.media_clauses.specs.declared.clause.Fact.TheVariants as facts;
ghost use Rattle.media_clauses.specs.Lowered.{by_clauses, by_parts, clause_queries, fact_features, fact_query, first_list, further_lists, literal_queries, literal_query, lone_features, lowered, named_type};
ghost use Rattle.media_clauses.specs.Clauses.{clauses, option_sides};

use crate::clause_list::{clauses, push_option};
use crate::copied::{copied_feature, copied_text};
use crate::plain::{all_of, are_plain, plain_list};
use crate::{Clause, Fact, Literal};
use css_tokens::{List, OutOfMemory, Text};
use media_spelling::{Condition, Feature, Prefix, Query};
use std::alloc::Global;

fn media_query<'a>(positive: bool, media: Text<'a>) -> Query<'a>
    ensures { result ≡ fact_query positive (facts.Media media.entry) }
{
    Query {
        prefix: if positive { Prefix::Plain } else { Prefix::Not },
        media: Some(media),
        condition: None,
    }
}

fn feature_query<'a>(positive: bool, feature: Feature<'a>) -> Query<'a>
    ensures { result ≡ fact_query positive (facts.Feature feature.entry) }
{
    let condition = Some(Condition::Feature(feature));
    if positive {
        Query {
            prefix: Prefix::Plain,
            media: None,
            condition,
        }
    } else {
        Query {
            prefix: Prefix::Not,
            media: Some(Text::lent("all")),
            condition,
        }
    }
}

/// The query that holds where the literal does.
fn literal_query<'a>(alloc: Global, literal: &Literal) -> Result<Query<'a>, OutOfMemory>
    ensures { IfOk result (λ query. query ≡ literal_query literal.now) }
{
    match &literal.fact {
        Fact::Media(media) => {
            let media = copied_text(alloc, media)?;
            Ok(media_query(literal.positive, media))
        }
        Fact::Feature(feature) => {
            let feature = copied_feature(alloc, feature)?;
            Ok(feature_query(literal.positive, feature))
        }
    }
}

/// `not all`
fn no_query<'a>(alloc: Global) -> Result<List<Query<'a>>, OutOfMemory>
    ensures { IfOk result (λ list. list ≡ literal_queries []) }
{
    let mut list = List::new(alloc);
    list.push(Query {
        prefix: Prefix::Not,
        media: Some(Text::lent("all")),
        condition: None,
    })?;
    Ok(list)
}

fn each_query<'a>(alloc: Global, literals: &[Literal]) -> Result<List<Query<'a>>, OutOfMemory>
    ensures { IfOk result (λ list. list ≡ map literal_query literals.now) }
{
    let mut list = List::new(alloc);
    for literal in literals {
        let query = literal_query(alloc, literal)?;
        list.push(query)?;
    }
    Ok(list)
}

/// The media list that holds where the clause does.
fn clause_queries<'a>(alloc: Global, clause: &Clause) -> Result<List<Query<'a>>, OutOfMemory>
    ensures { IfOk result (λ list. list ≡ clause_queries clause.now) }
{
    match clause.literals.as_slice() {
        [] => no_query(alloc),
        literals => each_query(alloc, literals),
    }
}

fn push_lists<'a>(
    alloc: Global,
    clauses: &[Clause],
    out: &mut List<List<Query<'a>>>,
) -> Result<(), OutOfMemory>
    ensures { OnOk result (out.new ≡ out.old ++ map clause_queries clauses.now) }
{
    for clause in clauses {
        let list = clause_queries(alloc, clause)?;
        out.push(list)?;
    }
    Ok(())
}

fn push_feature<'a>(
    alloc: Global,
    literal: &Literal,
    out: &mut List<Condition<'a>>,
) -> Result<(), OutOfMemory>
    ensures { OnOk result (out.new ≡ out.old ++ map conditions.Feature (fact_features literal.now.positive literal.now.fact)) }
{
    match &literal.fact {
        Fact::Feature(feature) if literal.positive => {
            let copy = copied_feature(alloc, feature)?;
            out.push(Condition::Feature(copy))
        }
        _ => Ok(()),
    }
}

fn push_lone_feature<'a>(
    alloc: Global,
    clause: &Clause,
    out: &mut List<Condition<'a>>,
) -> Result<(), OutOfMemory>
    ensures { OnOk result (out.new ≡ out.old ++ map conditions.Feature (lone_features clause.now)) }
{
    match clause.literals.as_slice() {
        [literal] => push_feature(alloc, literal, out),
        _ => Ok(()),
    }
}

/// Pushes the features of clauses of which the one literal is a feature that is to hold.
fn push_lone_features<'a>(
    alloc: Global,
    clauses: &[Clause],
    out: &mut List<Condition<'a>>,
) -> Result<(), OutOfMemory>
    ensures { OnOk result (out.new ≡ out.old ++ map conditions.Feature (flat_map lone_features clauses.now)) }
{
    for clause in clauses {
        push_lone_feature(alloc, clause, out)?;
    }
    Ok(())
}

fn is_wanted_feature(literal: &Literal) -> bool
    ensures { IsTrue result ↔ (fact_features literal.now.positive literal.now.fact ≢ []) }
{
    literal.positive && matches!(literal.fact, Fact::Feature(_))
}

fn is_lone_feature(clause: &Clause) -> bool
    ensures { IsTrue result ↔ (lone_features clause.now ≢ []) }
{
    match clause.literals.as_slice() {
        [literal] => is_wanted_feature(literal),
        _ => false,
    }
}

fn push_further_list<'a>(
    alloc: Global,
    clause: &Clause,
    out: &mut List<List<Query<'a>>>,
) -> Result<(), OutOfMemory>
    ensures { OnOk result (out.new ≡ out.old ++ further_lists clause.now (lone_features clause.now)) }
{
    if is_lone_feature(clause) {
        return Ok(());
    }
    let list = clause_queries(alloc, clause)?;
    out.push(list)
}

/// Pushes the lists of the other clauses.
fn push_further_lists<'a>(
    alloc: Global,
    clauses: &[Clause],
    out: &mut List<List<Query<'a>>>,
) -> Result<(), OutOfMemory>
    ensures { OnOk result (out.new ≡ out.old ++ flat_map (λ c. further_lists c (lone_features c)) clauses.now) }
{
    for clause in clauses {
        push_further_list(alloc, clause, out)?;
    }
    Ok(())
}

/// The media type, but `all`.
fn named_type<'a>(alloc: Global, media: &Option<Text>) -> Result<Option<Text<'a>>, OutOfMemory>
    ensures { IfOk result (λ name. name ≡ named_type media.now) }
{
    match media {
        Some(media) if media.as_str() != "all" => Ok(Some(copied_text(alloc, media)?)),
        _ => Ok(None),
    }
}

/// Pushes the list of the query of this media type and condition, where it has one of them.
fn push_first_list<'a>(
    alloc: Global,
    media: Option<Text<'a>>,
    condition: Option<Condition<'a>>,
    out: &mut List<List<Query<'a>>>,
) -> Result<(), OutOfMemory>
    ensures { OnOk result (out.new ≡ out.old ++ first_list media.entry condition.entry) }
{
    if media.is_none() && condition.is_none() {
        return Ok(());
    }
    let mut list = List::new(alloc);
    list.push(Query {
        prefix: Prefix::Plain,
        media,
        condition,
    })?;
    out.push(list)
}

/// Pushes the lists of a query without the prefix `not`.
fn push_parts<'a>(
    alloc: Global,
    query: &Query,
    out: &mut List<List<Query<'a>>>,
) -> Result<(), OutOfMemory>
    ensures { OnOk result (out.new ≡ out.old ++ by_parts query.now.media (option_sides query.now.condition).pos) }
{
    let mut clauses = Vec::new(alloc);
    push_option(alloc, true, &query.condition, &mut clauses)?;
    let mut features = List::new(alloc);
    push_lone_features(alloc, clauses.as_slice(), &mut features)?;
    let media = named_type(alloc, &query.media)?;
    push_first_list(alloc, media, all_of(features), out)?;
    push_further_lists(alloc, clauses.as_slice(), out)
}

/// Pushes the list of each clause.
fn push_clauses<'a>(
    alloc: Global,
    list: &[Query],
    out: &mut List<List<Query<'a>>>,
) -> Result<(), OutOfMemory>
    ensures { OnOk result (out.new ≡ out.old ++ map clause_queries (clauses list.now)) }
{
    let made = clauses(alloc, list)?;
    push_lists(alloc, made.as_slice(), out)
}

/// Pushes the lists that tell one that is not plain.
fn push_told<'a>(
    alloc: Global,
    list: &[Query],
    out: &mut List<List<Query<'a>>>,
) -> Result<(), OutOfMemory>
    ensures { OnOk result (out.new ≡ out.old ++ by_clauses list.now) }
{
    match list {
        [query] if !matches!(query.prefix, Prefix::Not) => push_parts(alloc, query, out),
        _ => push_clauses(alloc, list, out),
    }
}

/// The media lists of a target sheet that tell a media list, one inside the other, the first outermost: the list holds where
/// each of them does (Media Queries 4, sections 2.4.4 and 2.5). None for the empty list. The list itself where each query is
/// plain, its ranges told by features; without such a range that takes no memory for the queries. Of another query without
/// the prefix `not` first its media type and the features that have to hold, and then a list for each other clause. Of any
/// other list a list for each clause.
pub fn lower_queries<'a>(
    alloc: Global,
    list: List<Query<'a>>,
) -> Result<List<List<Query<'a>>>, OutOfMemory>
    ensures { IfOk result (λ lists. lists ≡ lowered list.entry) }
{
    let mut lists = List::new(alloc);
    if list.is_empty() {
        return Ok(lists);
    }
    if are_plain(list.as_slice()) {
        let plain = plain_list(alloc, list)?;
        lists.push(plain)?;
    } else {
        push_told(alloc, list.as_slice(), &mut lists)?;
    }
    Ok(lists)
}
