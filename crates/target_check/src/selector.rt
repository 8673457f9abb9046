ghost use Rattle.std.specs.List.{list_all};
ghost use Rattle.std.specs.Prelude.{◌≡◌, ◌∷◌, flat_map};
ghost use Rattle.selector_types.specs.PartsWithin.{compound_parts, list_parts, selector_parts, simple_parts};
ghost use Rattle.selector_types.specs.SelectorFold.{compound_of, simple_of};
ghost use Rattle.target_check.specs.Targets.{is_old_part, is_old_selector, is_old_simple};

use selector_tree::{Compound, Link, Part, Selector, Simple, is_one_simple};

/// Whether older browsers read a simple selector, its argument aside.
#[tactic(auto, using(crate::proofs::Parts::opened))]
fn is_old_simple(simple: &Simple) -> bool
    ensures { result ≡ is_old_simple simple.now }
{
    match simple {
        Simple::Class(_) | Simple::Id(_) | Simple::Pseudo(_) => true,
        Simple::Attribute(attribute) => !attribute.get().flag,
        Simple::Not(list) => is_one_simple(list.as_slice()),
        _ => false,
    }
}

/// Whether older browsers read a selector: all its parts, at any depth, and no combinator leads it.
pub fn is_old_selector(selector: &Selector) -> bool
    ensures { result ≡ is_old_selector selector.now }
{
    selector.lead.is_none() && in_selector(selector)
}

#[cycle(looks)]
#[tactic(auto, using(crate::proofs::Parts::joined))]
fn in_list(list: &[Selector]) -> bool
    ensures { result ≡ list_all is_old_part (list_parts list.now) }
{
    let mut old = true;
    for selector in list {
        old = in_selector(selector) && old;
    }
    old
}

#[cycle(looks)]
#[tactic(auto, using(crate::proofs::Parts::joined))]
fn in_selector(selector: &Selector) -> bool
    ensures { result ≡ list_all is_old_part (selector_parts selector.now) }
{
    in_compound(&selector.first) && in_links(selector.rest.as_slice())
}

#[cycle(looks)]
#[tactic(auto, using(crate::proofs::Parts::joined))]
fn in_links(links: &[Link]) -> bool
    ensures { result ≡ list_all is_old_part (flat_map (λ l. compound_parts (compound_of l)) links.now) }
{
    let mut old = true;
    for link in links {
        old = in_link(link) && old;
    }
    old
}

#[cycle(looks)]
fn in_link(link: &Link) -> bool
    ensures { result ≡ list_all is_old_part (compound_parts (compound_of link.now)) }
{
    match link {
        Link::Linked(_, compound) => in_compound(compound),
    }
}

#[cycle(looks)]
#[tactic(auto, using(crate::proofs::Parts::joined))]
fn in_compound(compound: &Compound) -> bool
    ensures { result ≡ list_all is_old_part (compound_parts compound.now) }
{
    in_parts(compound.parts.as_slice())
}

#[cycle(looks)]
#[tactic(auto, using(crate::proofs::Parts::joined))]
fn in_parts(parts: &[Part]) -> bool
    ensures { result ≡ list_all is_old_part (flat_map (λ p. p ∷ simple_parts (simple_of p)) parts.now) }
{
    let mut old = true;
    for part in parts {
        old = in_part(part) && old;
    }
    old
}

#[cycle(looks)]
fn in_part(part: &Part) -> bool
    ensures { result ≡ list_all is_old_part (part.now ∷ simple_parts (simple_of part.now)) }
{
    match part {
        Part::Placed(simple, _) => is_old_simple(simple) && in_simple(simple),
    }
}

#[cycle(looks)]
#[tactic(auto, using(crate::proofs::Parts::simple_found))]
fn in_simple(simple: &Simple) -> bool
    ensures { result ≡ list_all is_old_part (simple_parts simple.now) }
{
    match simple {
        Simple::Not(list) => in_list(list.as_slice()),
        Simple::Is(list) => in_list(list.as_slice()),
        Simple::Where(list) => in_list(list.as_slice()),
        Simple::Local(compound) => in_compound(compound.get()),
        Simple::Global(compound) => in_compound(compound.get()),
        _ => true,
    }
}
