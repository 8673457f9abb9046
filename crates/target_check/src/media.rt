//! Which conditions a target sheet can have.

ghost use Rattle.std.specs.List.{list_all};
ghost use Rattle.std.specs.Prelude.{◌≡◌};
ghost use Rattle.target_check.specs.MediaTargets.{are_features, is_feature, is_target_condition, is_target_list, is_target_query};
ghost use Rattle.target_check.specs.Targets.{is_old_condition};

use media_spelling::{Condition, Prefix, Query};
use sheet_types::GroupCondition;

#[tactic(auto, using(crate::proofs::Computing::conditions))]
fn is_feature(condition: &Condition) -> bool
    ensures { result ≡ is_feature condition.now }
{
    matches!(condition, Condition::Feature(_))
}

fn all_features(list: &[Condition]) -> bool
    ensures { result ≡ list_all is_feature list.now }
{
    list.iter().all(is_feature)
}

fn are_features(list: &[Condition]) -> bool
    ensures { result ≡ are_features list.now }
{
    match list {
        [] | [_] => false,
        _ => all_features(list),
    }
}

#[tactic(auto, using(crate::proofs::Computing::conditions))]
fn is_target_condition(condition: &Condition) -> bool
    ensures { result ≡ is_target_condition condition.now }
{
    match condition {
        Condition::And(list) => are_features(list.as_slice()),
        Condition::Feature(_) => true,
        _ => false,
    }
}

fn is_target_query(query: &Query) -> bool
    ensures { result ≡ is_target_query query.now }
{
    match (&query.media, &query.condition) {
        (Some(_), None) => true,
        (Some(_), Some(condition)) => is_target_condition(condition),
        (None, Some(condition)) => {
            matches!(query.prefix, Prefix::Plain) && is_target_condition(condition)
        }
        (None, None) => false,
    }
}

/// Whether a target sheet can have each of the queries: a prefix, a media type and features joined by `and`, and no prefix where there
/// is no media type (Media Queries 3, section 2).
pub fn are_target_queries(list: &[Query]) -> bool
    ensures { result ≡ list_all is_target_query list.now }
{
    list.iter().all(is_target_query)
}

fn is_target_list(list: &[Query]) -> bool
    ensures { result ≡ is_target_list list.now }
{
    match list {
        [] => false,
        [_, ..] => are_target_queries(list),
    }
}

/// Whether a target sheet can have a group under this condition.
pub fn is_old_condition(condition: &GroupCondition) -> bool
    ensures { result ≡ is_old_condition condition.now }
{
    match condition {
        GroupCondition::Media(list) => is_target_list(list.as_slice()),
        GroupCondition::Supports(_) => true,
    }
}
