ghost use Rattle.selector_types.specs.LoneSimples.{is_basic, is_one, is_one_of, is_one_scopable, is_one_simple, is_scopable, only_compound};
ghost use Rattle.selector_types.specs.SelectorFold.{simple_of};
ghost use Rattle.std.specs.Option.{option_map};
ghost use Rattle.std.specs.Prelude.{◌≡◌, ◌&&◌};

use crate::selector::{Compound, Part, Selector, Simple, TypeName};

/// Whether it is a class, an id, an attribute selector, or a pseudo-class that takes no selectors.
#[tactic(auto, using(crate::proofs::LoneLemmas::opened))]
fn is_basic(simple: &Simple) -> bool
    ensures { result ≡ is_basic simple.now }
{
    matches!(
        simple,
        Simple::Class(_) | Simple::Id(_) | Simple::Attribute(_) | Simple::Pseudo(_)
    )
}

/// Whether it is such a simple selector, or one whose names are made local or global.
#[tactic(auto, using(crate::proofs::LoneLemmas::opened))]
fn is_scopable(simple: &Simple) -> bool
    ensures { result ≡ is_scopable simple.now }
{
    match simple {
        Simple::Local(compound) => is_one_basic(compound.get()),
        Simple::Global(compound) => is_one_basic(compound.get()),
        _ => is_basic(simple),
    }
}

fn simple_of<'s, 'a>(part: &'s Part<'a>) -> &'s Simple<'a>
    ensures { result.now ≡ simple_of part.now }
{
    match part {
        Part::Placed(simple, _) => simple,
    }
}

fn is_one_basic(compound: &Compound) -> bool
    ensures { result ≡ is_one is_basic compound.now }
{
    compound.tail.is_none()
        && match (&compound.kind, compound.parts.as_slice()) {
            (TypeName::None, [part]) => is_basic(simple_of(part)),
            (TypeName::None, _) => false,
            (_, parts) => parts.is_empty(),
        }
}

fn is_one_scoped(compound: &Compound) -> bool
    ensures { result ≡ is_one is_scopable compound.now }
{
    compound.tail.is_none()
        && match (&compound.kind, compound.parts.as_slice()) {
            (TypeName::None, [part]) => is_scopable(simple_of(part)),
            (TypeName::None, _) => false,
            (_, parts) => parts.is_empty(),
        }
}

/// The compound that a list is, where it is one selector of one compound.
fn only_compound<'s, 'a>(list: &'s [Selector<'a>]) -> Option<&'s Compound<'a>>
    ensures { option_map (λ k. k.now) result ≡ only_compound list.now }
{
    match list {
        [selector] if selector.lead.is_none() && selector.rest.is_empty() => Some(&selector.first),
        _ => None,
    }
}

/// Whether a list is one selector that is one simple selector, which holds no selectors: a type selector, `*`, a class, an
/// id, an attribute selector or a pseudo-class (Selectors 4, section 3.1).
pub fn is_one_simple(list: &[Selector]) -> bool
    ensures { result ≡ is_one_simple list.now }
{
    match only_compound(list) {
        Some(compound) => is_one_basic(compound),
        None => false,
    }
}

/// Whether a list is one such simple selector, or one that is `:local(..)` or `:global(..)` of one.
pub fn is_one_scopable(list: &[Selector]) -> bool
    ensures { result ≡ is_one_scopable list.now }
{
    match only_compound(list) {
        Some(compound) => is_one_scoped(compound),
        None => false,
    }
}
