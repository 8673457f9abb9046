//! What stands in the condition of a group.

ghost use Rattle.findings.specs.Constructs.{condition_findings};
ghost use Rattle.findings.specs.Firsts.{first_from};
ghost use Rattle.findings.specs.SupportsFunctions.{supports_findings};
ghost use Rattle.std.specs.Prelude.{◌≡◌, flat_map};

use crate::first::{found_at, sooner};
use crate::media::asks_young;
use css_places::{Code, Finding};
use media_spelling::Supports;
use sheet_types::GroupCondition;

#[cycle(finds)]
#[tactic(auto, using(crate::proofs::Conditions::called))]
fn in_supports(condition: &Supports, file: u32, best: Option<Finding>) -> Option<Finding>
    ensures { result ≡ first_from best (supports_findings file condition.now) }
{
    match condition {
        Supports::And(list) => in_each(list.as_slice(), file, best),
        Supports::Or(list) => in_each(list.as_slice(), file, best),
        Supports::Not(inner) => in_supports(inner.get(), file, best),
        Supports::Declared(_, _) => best,
        Supports::Function(at) => sooner(best, Some(found_at(file, *at, Code::X17))),
    }
}

#[cycle(finds)]
fn in_each(list: &[Supports], file: u32, best: Option<Finding>) -> Option<Finding>
    ensures { result ≡ first_from best (flat_map (supports_findings file) list.now) }
{
    let mut best = best;
    for condition in list {
        best = in_supports(condition, file, best);
    }
    best
}

/// Of what was found so far and what stands in the condition of a group, whose at-keyword stands at this place, the finding that
/// is named.
pub fn in_condition(
    condition: &GroupCondition,
    file: u32,
    at: u32,
    best: Option<Finding>,
) -> Option<Finding>
    ensures { result ≡ first_from best (condition_findings file at condition.now) }
{
    match condition {
        GroupCondition::Media(list) => {
            if asks_young(list.as_slice()) {
                sooner(best, Some(found_at(file, at, Code::X16)))
            } else {
                best
            }
        }
        GroupCondition::Supports(condition) => in_supports(condition, file, best),
    }
}
