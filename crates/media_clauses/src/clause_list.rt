//! The clauses of a media list.

ghost use Rattle.std.specs.Prelude.{◌≡◌, [], ◌∷◌, ◌++◌, map, flat_map, OnOk, IfOk, if◌then◌else◌, option_to_list};
ghost use Rattle.media_spelling.specs.declared.condition.Prefix.TheVariants as prefixes;
ghost use Rattle.media_clauses.specs.declared.clause.Fact.TheVariants as facts;
ghost use Rattle.media_clauses.specs.Clauses.{alone, bound_literal, clauses, is_strict, joined, never, option_sides, positive, negative, prefixed_clauses, product, products, query_clauses, range_literals, side, sides_of, turned, type_facts};

use crate::copied::{bound_feature, copied_feature, copied_text, push_literals};
use crate::{Clause, Fact, Literal};
use css_tokens::{List, OutOfMemory, Text};
use media_spelling::{Bound, Condition, Feature, Prefix, Query, Range, Relation};
use std::alloc::Global;

/// The clause of one literal.
fn lone<'a>(alloc: Global, literal: Literal<'a>) -> Result<Clause<'a>, OutOfMemory>
    ensures { IfOk result (λ clause. clause ≡ alone literal.entry) }
{
    let mut literals = List::new(alloc);
    literals.push(literal)?;
    Ok(Clause { literals })
}

fn push_lone<'a>(
    alloc: Global,
    literal: Literal<'a>,
    out: &mut Vec<Clause<'a>>,
) -> Result<(), OutOfMemory>
    ensures { OnOk result (out.new.items ≡ out.old.items ++ alone literal.entry ∷ []) }
{
    let clause = lone(alloc, literal)?;
    out.push(clause)?;
    Ok(())
}

/// The literals of both clauses.
fn joined<'a>(alloc: Global, left: &Clause, right: &Clause) -> Result<Clause<'a>, OutOfMemory>
    ensures { IfOk result (λ clause. clause ≡ joined left.now right.now) }
{
    let mut literals = List::new(alloc);
    push_literals(alloc, left.literals.as_slice(), &mut literals)?;
    push_literals(alloc, right.literals.as_slice(), &mut literals)?;
    Ok(Clause { literals })
}

/// Pushes the left clause joined to each of the right ones.
fn push_joined<'a>(
    alloc: Global,
    left: &Clause,
    right: &[Clause],
    out: &mut Vec<Clause<'a>>,
) -> Result<(), OutOfMemory>
    ensures { OnOk result (out.new.items ≡ out.old.items ++ map (joined left.now) right.now) }
{
    for clause in right {
        let both = joined(alloc, left, clause)?;
        out.push(both)?;
    }
    Ok(())
}

/// The clauses that hold where the left ones do or the right ones.
fn product<'a>(
    alloc: Global,
    left: &[Clause],
    right: &[Clause],
) -> Result<Vec<Clause<'a>>, OutOfMemory>
    ensures { IfOk result (λ made. made.items ≡ product left.now right.now) }
{
    let mut made = Vec::new(alloc);
    for clause in left {
        push_joined(alloc, clause, right, &mut made)?;
    }
    Ok(made)
}

/// The product of no lists: the clause that holds nowhere.
fn product_of_none<'a>(alloc: Global) -> Result<Vec<Clause<'a>>, OutOfMemory>
    ensures { IfOk result (λ made. made.items ≡ products []) }
{
    let mut made = Vec::new(alloc);
    made.push(Clause {
        literals: List::new(alloc),
    })?;
    Ok(made)
}

pub fn is_strict(relation: Relation) -> bool
    ensures { result ≡ is_strict relation }
{
    matches!(relation, Relation::Greater | Relation::Less)
}

/// The literal of a bound, or where that is wanted the one turned round.
fn bound_literal<'a>(
    alloc: Global,
    positive: bool,
    name: &Text,
    bound: &Bound,
) -> Result<Literal<'a>, OutOfMemory>
    ensures { IfOk result (λ literal. literal ≡ (if positive then bound_literal name.now bound.now else turned (bound_literal name.now bound.now))) }
{
    let feature = bound_feature(alloc, name, bound)?;
    Ok(Literal {
        positive: is_strict(bound.relation) != positive,
        fact: Fact::Feature(feature),
    })
}

fn push_bounds<'a>(
    alloc: Global,
    range: &Range,
    out: &mut Vec<Clause<'a>>,
) -> Result<(), OutOfMemory>
    ensures { OnOk result (out.new.items ≡ out.old.items ++ map alone (range_literals range.now)) }
{
    let first = bound_literal(alloc, true, &range.name, &range.first)?;
    push_lone(alloc, first, out)?;
    match &range.second {
        None => Ok(()),
        Some(second) => {
            let second = bound_literal(alloc, true, &range.name, second)?;
            push_lone(alloc, second, out)
        }
    }
}

fn push_turned_bounds<'a>(
    alloc: Global,
    range: &Range,
    out: &mut Vec<Clause<'a>>,
) -> Result<(), OutOfMemory>
    ensures { OnOk result (out.new.items ≡ out.old.items ++ record { literals = map turned (range_literals range.now) } ∷ []) }
{
    let first = bound_literal(alloc, false, &range.name, &range.first)?;
    let mut clause = lone(alloc, first)?;
    if let Some(second) = &range.second {
        let second = bound_literal(alloc, false, &range.name, second)?;
        clause.literals.push(second)?;
    }
    out.push(clause)?;
    Ok(())
}

fn push_range<'a>(
    alloc: Global,
    positive: bool,
    range: &Range,
    out: &mut Vec<Clause<'a>>,
) -> Result<(), OutOfMemory>
    ensures { OnOk result (out.new.items ≡ out.old.items ++ side positive (record { pos = map alone (range_literals range.now); neg = record { literals = map turned (range_literals range.now) } ∷ [] })) }
{
    if positive {
        push_bounds(alloc, range, out)
    } else {
        push_turned_bounds(alloc, range, out)
    }
}

fn push_feature<'a>(
    alloc: Global,
    positive: bool,
    feature: &Feature,
    out: &mut Vec<Clause<'a>>,
) -> Result<(), OutOfMemory>
    ensures { OnOk result (out.new.items ≡ out.old.items ++ alone (record { positive = positive; fact = facts.Feature feature.now }) ∷ []) }
{
    let copy = copied_feature(alloc, feature)?;
    let fact = Fact::Feature(copy);
    push_lone(alloc, Literal { positive, fact }, out)
}

/// Pushes the clauses of a condition, or where that is wanted those of its negation.
#[cycle(sides)]
#[tactic(auto, using(crate::proofs::SideEquations::sides))]
fn push_condition<'a>(
    alloc: Global,
    positive: bool,
    condition: &Condition,
    out: &mut Vec<Clause<'a>>,
) -> Result<(), OutOfMemory>
    ensures { OnOk result (out.new.items ≡ out.old.items ++ side positive (sides_of condition.now)) }
{
    match condition {
        Condition::And(list) => push_list(alloc, positive, positive, list.as_slice(), out),
        Condition::Or(list) => push_list(alloc, !positive, positive, list.as_slice(), out),
        Condition::Not(inner) => push_condition(alloc, !positive, inner.get(), out),
        Condition::Feature(feature) => push_feature(alloc, positive, feature, out),
        Condition::Range(range) => push_range(alloc, positive, range, out),
    }
}

/// Pushes the clauses of several conditions: of each, or else those that hold where one of the conditions does.
#[cycle(sides)]
fn push_list<'a>(
    alloc: Global,
    each: bool,
    positive: bool,
    list: &[Condition],
    out: &mut Vec<Clause<'a>>,
) -> Result<(), OutOfMemory>
    ensures { OnOk result (out.new.items ≡ out.old.items ++ (if each then flat_map (λ c. side positive (sides_of c)) list.now else products (map (λ c. side positive (sides_of c)) list.now))) }
{
    if each {
        push_each(alloc, positive, list, out)
    } else {
        push_product(alloc, positive, list, out)
    }
}

#[cycle(sides)]
fn push_each<'a>(
    alloc: Global,
    positive: bool,
    list: &[Condition],
    out: &mut Vec<Clause<'a>>,
) -> Result<(), OutOfMemory>
    ensures { OnOk result (out.new.items ≡ out.old.items ++ flat_map (λ c. side positive (sides_of c)) list.now) }
{
    for condition in list {
        push_condition(alloc, positive, condition, out)?;
    }
    Ok(())
}

#[cycle(sides)]
fn push_product<'a>(
    alloc: Global,
    positive: bool,
    list: &[Condition],
    out: &mut Vec<Clause<'a>>,
) -> Result<(), OutOfMemory>
    ensures { OnOk result (out.new.items ≡ out.old.items ++ products (map (λ c. side positive (sides_of c)) list.now)) }
{
    let mut all = product_of(alloc, positive, list)?;
    out.append(&mut all)?;
    Ok(())
}

#[cycle(sides)]
fn product_of<'a>(
    alloc: Global,
    positive: bool,
    list: &[Condition],
) -> Result<Vec<Clause<'a>>, OutOfMemory>
    ensures { IfOk result (λ made. made.items ≡ products (map (λ c. side positive (sides_of c)) list.now)) }
{
    let mut all = product_of_none(alloc)?;
    for condition in list {
        let mut next = Vec::new(alloc);
        push_condition(alloc, positive, condition, &mut next)?;
        all = product(alloc, all.as_slice(), next.as_slice())?;
    }
    Ok(all)
}

/// Pushes the clauses of what may be a condition. No condition is one that always holds.
pub fn push_option<'a>(
    alloc: Global,
    positive: bool,
    condition: &Option<Condition>,
    out: &mut Vec<Clause<'a>>,
) -> Result<(), OutOfMemory>
    ensures { OnOk result (out.new.items ≡ out.old.items ++ side positive (option_sides condition.now)) }
{
    match condition {
        Some(condition) => push_condition(alloc, positive, condition, out),
        None if positive => Ok(()),
        None => {
            let mut never = product_of_none(alloc)?;
            out.append(&mut never)?;
            Ok(())
        }
    }
}

/// The media type, where it asks for something.
fn type_fact<'a>(alloc: Global, media: &Option<Text>) -> Result<Option<Fact<'a>>, OutOfMemory>
    ensures { IfOk result (λ fact. option_to_list fact ≡ type_facts media.now) }
{
    match media {
        Some(media) if media.as_str() != "all" => {
            Ok(Some(Fact::Media(copied_text(alloc, media)?)))
        }
        _ => Ok(None),
    }
}

fn push_type<'a>(
    alloc: Global,
    media: &Option<Text>,
    out: &mut Vec<Clause<'a>>,
) -> Result<(), OutOfMemory>
    ensures { OnOk result (out.new.items ≡ out.old.items ++ map (λ t. alone (positive t)) (type_facts media.now)) }
{
    match type_fact(alloc, media)? {
        None => Ok(()),
        Some(fact) => push_lone(
            alloc,
            Literal {
                positive: true,
                fact,
            },
            out,
        ),
    }
}

/// The clause that a media type is not this one.
fn other_type<'a>(alloc: Global, media: &Option<Text>) -> Result<Clause<'a>, OutOfMemory>
    ensures { IfOk result (λ clause. clause ≡ record { literals = map negative (type_facts media.now) }) }
{
    let mut literals = List::new(alloc);
    if let Some(fact) = type_fact(alloc, media)? {
        literals.push(Literal {
            positive: false,
            fact,
        })?;
    }
    Ok(Clause { literals })
}

fn push_negated<'a>(
    alloc: Global,
    query: &Query,
    out: &mut Vec<Clause<'a>>,
) -> Result<(), OutOfMemory>
    ensures { OnOk result (out.new.items ≡ out.old.items ++ prefixed_clauses prefixes.Not (type_facts query.now.media) (option_sides query.now.condition)) }
{
    let types = other_type(alloc, &query.media)?;
    let mut condition = Vec::new(alloc);
    push_option(alloc, false, &query.condition, &mut condition)?;
    push_joined(alloc, &types, condition.as_slice(), out)
}

/// Pushes the clauses of a query.
fn push_query<'a>(
    alloc: Global,
    query: &Query,
    out: &mut Vec<Clause<'a>>,
) -> Result<(), OutOfMemory>
    ensures { OnOk result (out.new.items ≡ out.old.items ++ query_clauses query.now) }
{
    match query.prefix {
        Prefix::Not => push_negated(alloc, query, out),
        Prefix::Plain | Prefix::Only => {
            push_type(alloc, &query.media, out)?;
            push_option(alloc, true, &query.condition, out)
        }
    }
}

fn product_of_queries<'a>(alloc: Global, list: &[Query]) -> Result<Vec<Clause<'a>>, OutOfMemory>
    ensures { IfOk result (λ made. made.items ≡ products (map query_clauses list.now)) }
{
    let mut all = product_of_none(alloc)?;
    for query in list {
        let mut next = Vec::new(alloc);
        push_query(alloc, query, &mut next)?;
        all = product(alloc, all.as_slice(), next.as_slice())?;
    }
    Ok(all)
}

/// The clauses of a media list (Media Queries 4, section 2.5): the list holds where each of them has a literal that holds.
pub fn clauses<'a>(alloc: Global, list: &[Query]) -> Result<List<Clause<'a>>, OutOfMemory>
    ensures { IfOk result (λ made. made ≡ clauses list.now) }
{
    if list.is_empty() {
        return Ok(List::new(alloc));
    }
    let all = product_of_queries(alloc, list)?;
    Ok(List::from_vec(all))
}
