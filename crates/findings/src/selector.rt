//! What stands in the selectors of a rule, at any depth.

ghost use Rattle.findings.specs.Constructs.{code_of, list_findings, part_finding, part_findings};
ghost use Rattle.findings.specs.Firsts.{first_from};
ghost use Rattle.selector_types.specs.PartsWithin.{compound_parts, list_parts, selector_parts, simple_parts};
ghost use Rattle.selector_types.specs.SelectorFold.{compound_of, simple_of};
ghost use Rattle.std.specs.Prelude.{◌≡◌, ◌∷◌, flat_map};

use crate::first::sooner;
use css_places::{Code, Finding, Place};
use selector_tree::{Compound, Link, Part, Selector, Simple, is_one_scopable};

/// The code of a simple selector that cannot be expressed.
#[tactic(auto, using(crate::proofs::Opened::opened))]
fn code_of(simple: &Simple) -> Option<Code>
    ensures { result ≡ code_of simple.now }
{
    match simple {
        Simple::Where(_) => Some(Code::X6),
        Simple::Not(list) if !is_one_scopable(list.as_slice()) => Some(Code::X7),
        Simple::Local(_) | Simple::Global(_) | Simple::Foreign => Some(Code::X11),
        Simple::Attribute(attribute) if attribute.get().flag => Some(Code::X22),
        _ => None,
    }
}

/// What stands at a part.
fn finding_at(part: &Part, file: u32) -> Option<Finding>
    ensures { result ≡ part_finding file part.now }
{
    match part {
        Part::Placed(simple, offset) => {
            let place = Place {
                file,
                offset: *offset,
            };
            code_of(simple).map(|code| Finding { place, code })
        }
    }
}

/// Of what was found so far and what stands in a selector list, the finding that is named.
#[cycle(finds)]
#[tactic(auto, using(crate::proofs::Finding::joined))]
pub fn in_list(list: &[Selector], file: u32, best: Option<Finding>) -> Option<Finding>
    ensures { result ≡ first_from best (list_findings file list.now) }
{
    let mut best = best;
    for selector in list {
        best = in_selector(selector, file, best);
    }
    best
}

#[cycle(finds)]
#[tactic(auto, using(crate::proofs::Finding::joined))]
fn in_selector(selector: &Selector, file: u32, best: Option<Finding>) -> Option<Finding>
    ensures { result ≡ first_from best (part_findings file (selector_parts selector.now)) }
{
    let best = in_compound(&selector.first, file, best);
    in_links(selector.rest.as_slice(), file, best)
}

#[cycle(finds)]
#[tactic(auto, using(crate::proofs::Finding::joined))]
fn in_links(links: &[Link], file: u32, best: Option<Finding>) -> Option<Finding>
    ensures { result ≡ first_from best (part_findings file (flat_map (λ l. compound_parts (compound_of l)) links.now)) }
{
    let mut best = best;
    for link in links {
        best = in_link(link, file, best);
    }
    best
}

#[cycle(finds)]
fn in_link(link: &Link, file: u32, best: Option<Finding>) -> Option<Finding>
    ensures { result ≡ first_from best (part_findings file (compound_parts (compound_of link.now))) }
{
    match link {
        Link::Linked(_, compound) => in_compound(compound, file, best),
    }
}

#[cycle(finds)]
#[tactic(auto, using(crate::proofs::Finding::joined))]
fn in_compound(compound: &Compound, file: u32, best: Option<Finding>) -> Option<Finding>
    ensures { result ≡ first_from best (part_findings file (compound_parts compound.now)) }
{
    in_parts(compound.parts.as_slice(), file, best)
}

#[cycle(finds)]
#[tactic(auto, using(crate::proofs::Finding::joined))]
fn in_parts(parts: &[Part], file: u32, best: Option<Finding>) -> Option<Finding>
    ensures { result ≡ first_from best (part_findings file (flat_map (λ p. p ∷ simple_parts (simple_of p)) parts.now)) }
{
    let mut best = best;
    for part in parts {
        best = in_part(part, file, best);
    }
    best
}

#[cycle(finds)]
#[tactic(auto, using(crate::proofs::Finding::joined))]
fn in_part(part: &Part, file: u32, best: Option<Finding>) -> Option<Finding>
    ensures { result ≡ first_from best (part_findings file (part.now ∷ simple_parts (simple_of part.now))) }
{
    let best = sooner(best, finding_at(part, file));
    match part {
        Part::Placed(simple, _) => in_simple(simple, file, best),
    }
}

#[cycle(finds)]
#[tactic(auto, using(crate::proofs::Finding::simple_parts))]
fn in_simple(simple: &Simple, file: u32, best: Option<Finding>) -> Option<Finding>
    ensures { result ≡ first_from best (part_findings file (simple_parts simple.now)) }
{
    match simple {
        Simple::Not(list) => in_list(list.as_slice(), file, best),
        Simple::Is(list) => in_list(list.as_slice(), file, best),
        Simple::Where(list) => in_list(list.as_slice(), file, best),
        Simple::Local(compound) => in_compound(compound.get(), file, best),
        Simple::Global(compound) => in_compound(compound.get(), file, best),
        _ => best,
    }
}
