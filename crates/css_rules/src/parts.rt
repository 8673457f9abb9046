//! Tests of rules that the readers share.

ghost use Rattle.std.specs.Prelude.{◌≡◌};
ghost use Rattle.css_rules.specs.RuleEnds.{begins_at_rule};

use css_components::is_at_keyword;
use css_tokens::Component;

/// Whether the components begin with an at-keyword.
pub fn begins_at_rule(components: &[Component]) -> bool
    ensures { result ≡ begins_at_rule components.now }
{
    match components {
        [first, ..] => is_at_keyword(first),
        [] => false,
    }
}
