ghost use Rattle.std.specs.Prelude.{◌≡◌, ◌+◌, map};
ghost use Rattle.selector_types.specs.Specificities.{
  capped,
  plus,
  greater_of,
  greatest,
  sum_of,
  nothing,
  type_specificity,
  tail_specificity,
  simple_specificity,
  compound_specificity,
  selector_specificity,
};
ghost use Rattle.selector_types.specs.SelectorFold.{compound_of, simple_of};

use crate::Specificity;
use crate::selector::{Compound, Link, Part, Selector, Simple, Tail, TypeName};
use css_tokens::Boxed;

const NOTHING: Specificity = Specificity { a: 0, b: 0, c: 0 };

fn capped_sum(a: u32, b: u32) -> u32
    ensures { result ≡ capped (a + b) }
{
    a.saturating_add(b).min(65536)
}

fn both(s: Specificity, t: Specificity) -> Specificity
    ensures { result ≡ plus s t }
{
    Specificity {
        a: capped_sum(s.a, t.a),
        b: capped_sum(s.b, t.b),
        c: capped_sum(s.c, t.c),
    }
}

fn greater(s: Specificity, t: Specificity) -> Specificity
    ensures { result ≡ greater_of s t }
{
    if s < t { t } else { s }
}

fn of_type(kind: &TypeName) -> Specificity
    ensures { result ≡ type_specificity kind.now }
{
    match kind {
        TypeName::Name(_) => Specificity { a: 0, b: 0, c: 1 },
        _ => NOTHING,
    }
}

fn of_tail(tail: &Option<Boxed<Tail>>) -> Specificity
    ensures { result ≡ tail_specificity tail.now }
{
    match tail {
        None => NOTHING,
        Some(tail) => {
            let states = tail.get().states.len().min(65536);
            Specificity {
                a: 0,
                b: states as u32,
                c: 1,
            }
        }
    }
}

/// How specific a selector is, where the most specific member of the list around counts so much.
#[cycle(counts)]
pub fn specificity(selector: &Selector, parent: Specificity) -> Specificity
    ensures { result ≡ selector_specificity parent selector.now }
{
    let first = of_compound(&selector.first, parent);
    let rest = of_links(selector.rest.as_slice(), parent);
    both(first, rest)
}

#[cycle(counts)]
fn of_links(links: &[Link], parent: Specificity) -> Specificity
    ensures { result ≡ sum_of (map (λ l. compound_specificity parent (compound_of l)) links.now) }
{
    let mut sum = NOTHING;
    for link in links {
        sum = both(sum, of_link(link, parent));
    }
    sum
}

#[cycle(counts)]
fn of_link(link: &Link, parent: Specificity) -> Specificity
    ensures { result ≡ compound_specificity parent (compound_of link.now) }
{
    match link {
        Link::Linked(_, compound) => of_compound(compound, parent),
    }
}

#[cycle(counts)]
fn of_compound(compound: &Compound, parent: Specificity) -> Specificity
    ensures { result ≡ compound_specificity parent compound.now }
{
    let kind = both(of_type(&compound.kind), of_tail(&compound.tail));
    let parts = of_parts(compound.parts.as_slice(), parent);
    both(kind, parts)
}

#[cycle(counts)]
fn of_parts(parts: &[Part], parent: Specificity) -> Specificity
    ensures { result ≡ sum_of (map (λ p. simple_specificity parent (simple_of p)) parts.now) }
{
    let mut sum = NOTHING;
    for part in parts {
        sum = both(sum, of_part(part, parent));
    }
    sum
}

#[cycle(counts)]
fn of_part(part: &Part, parent: Specificity) -> Specificity
    ensures { result ≡ simple_specificity parent (simple_of part.now) }
{
    match part {
        Part::Placed(simple, _) => of_simple(simple, parent),
    }
}

#[cycle(counts)]
#[tactic(auto, using(crate::proofs::CountLemmas::counts))]
fn of_simple(simple: &Simple, parent: Specificity) -> Specificity
    ensures { result ≡ simple_specificity parent simple.now }
{
    match simple {
        Simple::Class(_) | Simple::Attribute(_) | Simple::Pseudo(_) => {
            Specificity { a: 0, b: 1, c: 0 }
        }
        Simple::Id(_) => Specificity { a: 1, b: 0, c: 0 },
        Simple::Not(list) => greatest_of(list.as_slice(), parent),
        Simple::Is(list) => greatest_of(list.as_slice(), parent),
        Simple::Where(_) => NOTHING,
        Simple::Parent => parent,
        Simple::Local(compound) => of_compound(compound.get(), parent),
        Simple::Global(compound) => of_compound(compound.get(), parent),
        Simple::Foreign => NOTHING,
    }
}

#[cycle(counts)]
fn greatest_of(list: &[Selector], parent: Specificity) -> Specificity
    ensures { result ≡ greatest (map (selector_specificity parent) list.now) }
{
    let mut most = NOTHING;
    for selector in list {
        most = greater(most, specificity(selector, parent));
    }
    most
}
