//! Media features that older browsers do not know under a `not`.

ghost use Rattle.findings.specs.MediaFeatures.{asks_young, features_in, is_not, is_young, query_negated, under_not};
ghost use Rattle.std.specs.List.{list_any};
ghost use Rattle.std.specs.Prelude.{◌≡◌, flat_map};

use css_tokens::Text;
use media_spelling::{Condition, Prefix, Query};
use prop_table::is_old_feature;

fn is_young(name: &Text) -> bool
    ensures { result ≡ is_young name.now }
{
    !is_old_feature(name.as_str())
}

// Whether such a feature stands in a condition, where a `not` stands over it, and else whether one stands under a `not` of it.
#[cycle(young)]
#[tactic(auto, using(crate::proofs::YoungFeatures::young))]
fn is_young_in(negated: bool, condition: &Condition) -> bool
    ensures { result ≡ list_any is_young (under_not negated (features_in condition.now)) }
{
    match condition {
        Condition::And(list) => is_young_among(negated, list.as_slice()),
        Condition::Or(list) => is_young_among(negated, list.as_slice()),
        Condition::Not(inner) => is_young_in(true, inner.get()),
        Condition::Feature(feature) => negated && is_young(&feature.name),
        Condition::Range(range) => negated && is_young(&range.name),
    }
}

#[cycle(young)]
fn is_young_among(negated: bool, list: &[Condition]) -> bool
    ensures { result ≡ list_any is_young (flat_map (λ c. under_not negated (features_in c)) list.now) }
{
    for condition in list {
        if is_young_in(negated, condition) {
            return true;
        }
    }
    false
}

fn is_not(prefix: Prefix) -> bool
    ensures { result ≡ is_not prefix }
{
    match prefix {
        Prefix::Not => true,
        Prefix::Plain | Prefix::Only => false,
    }
}

fn asks(query: &Query) -> bool
    ensures { result ≡ list_any is_young (query_negated query.now) }
{
    match &query.condition {
        Some(condition) => is_young_in(is_not(query.prefix), condition),
        None => false,
    }
}

/// Whether a media feature that older browsers do not know stands under a `not` in a media query list.
pub fn asks_young(list: &[Query]) -> bool
    ensures { result ≡ asks_young list.now }
{
    for query in list {
        if asks(query) {
            return true;
        }
    }
    false
}
