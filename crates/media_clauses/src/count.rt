//! How many clauses a media list has, told without making them.

ghost use Rattle.std.specs.Prelude.{◌≡◌, ◌-◌, ◌^◌, [], ◌∷◌, map, flat_map, length, min, if◌then◌else◌};
ghost use Rattle.media_clauses.specs.Clauses.{alone, clauses, option_sides, products, query_clauses, range_literals, side, sides_of, turned, type_facts};
ghost use Rattle.media_clauses.specs.Counts.{capped};

use css_tokens::Text;
use media_spelling::{Condition, Prefix, Query, Range};

fn count_range(positive: bool, range: &Range) -> u64
    ensures { result ≡ capped (length (side positive (record { pos = map alone (range_literals range.now); neg = record { literals = map turned (range_literals range.now) } ∷ [] }))) }
{
    match &range.second {
        Some(_) if positive => 2,
        _ => 1,
    }
}

#[cycle(counts)]
#[tactic(auto, using(crate::proofs::SideEquations::sides))]
fn count_condition(positive: bool, condition: &Condition) -> u64
    ensures { result ≡ capped (length (side positive (sides_of condition.now))) }
{
    match condition {
        Condition::And(list) => count_list(positive, positive, list.as_slice()),
        Condition::Or(list) => count_list(!positive, positive, list.as_slice()),
        Condition::Not(inner) => count_condition(!positive, inner.get()),
        Condition::Feature(_) => 1,
        Condition::Range(range) => count_range(positive, range),
    }
}

#[cycle(counts)]
fn count_list(each: bool, positive: bool, list: &[Condition]) -> u64
    ensures { result ≡ capped (length (if each then flat_map (λ c. side positive (sides_of c)) list.now else products (map (λ c. side positive (sides_of c)) list.now))) }
{
    if each {
        count_each(positive, list)
    } else {
        count_product(positive, list)
    }
}

#[cycle(counts)]
fn count_each(positive: bool, list: &[Condition]) -> u64
    ensures { result ≡ capped (length (flat_map (λ c. side positive (sides_of c)) list.now)) }
{
    let mut total: u64 = 0;
    for condition in list {
        total = total.saturating_add(count_condition(positive, condition));
    }
    total
}

#[cycle(counts)]
fn count_product(positive: bool, list: &[Condition]) -> u64
    ensures { result ≡ capped (length (products (map (λ c. side positive (sides_of c)) list.now))) }
{
    let mut total: u64 = 1;
    for condition in list {
        total = total.saturating_mul(count_condition(positive, condition));
    }
    total
}

fn count_option(positive: bool, condition: &Option<Condition>) -> u64
    ensures { result ≡ capped (length (side positive (option_sides condition.now))) }
{
    match condition {
        Some(condition) => count_condition(positive, condition),
        None if positive => 0,
        None => 1,
    }
}

fn count_type(media: &Option<Text>) -> u64
    ensures { result ≡ length (type_facts media.now) }
{
    match media {
        Some(media) if media.as_str() != "all" => 1,
        _ => 0,
    }
}

#[tactic(auto, using(crate::proofs::CountLemmas::query_lengths))]
fn count_query(query: &Query) -> u64
    ensures { result ≡ capped (length (query_clauses query.now)) }
{
    match query.prefix {
        Prefix::Not => count_option(false, &query.condition),
        Prefix::Plain | Prefix::Only => {
            count_type(&query.media).saturating_add(count_option(true, &query.condition))
        }
    }
}

fn count_queries(list: &[Query]) -> u64
    ensures { result ≡ capped (length (products (map query_clauses list.now))) }
{
    let mut total: u64 = 1;
    for query in list {
        total = total.saturating_mul(count_query(query));
    }
    total
}

/// How many clauses a media list has, and at most 2^64 - 1. Takes no memory, and time in the length of the list alone.
pub fn count_clauses(list: &[Query]) -> u64
    ensures { result ≡ min (length (clauses list.now)) (2 ^ 64 - 1) }
{
    if list.is_empty() {
        0
    } else {
        count_queries(list)
    }
}
