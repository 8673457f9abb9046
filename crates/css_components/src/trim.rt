//! Lists of component values without white space and comments at their ends (CSS Syntax 3, section 5.4).

ghost use Rattle.std.specs.Prelude.{◌≡◌};
ghost use Rattle.css_components.specs.Trimming.{trimmed, trimmed_start, trimmed_end};

use crate::tests::is_gap;
use css_tokens::Component;

/// The components without white space and comments at the start.
pub fn trimmed_start<'s, 'a>(components: &'s [Component<'a>]) -> &'s [Component<'a>]
    ensures { result.now ≡ trimmed_start components.now }
{
    let mut from = 0;
    while from < components.len() && is_gap(&components[from]) {
        from += 1;
    }
    &components[from..]
}

/// The components without white space and comments at the end.
pub fn trimmed_end<'s, 'a>(components: &'s [Component<'a>]) -> &'s [Component<'a>]
    ensures { result.now ≡ trimmed_end components.now }
{
    let mut to = components.len();
    while to > 0 && is_gap(&components[to - 1]) {
        to -= 1;
    }
    &components[..to]
}

/// The components without white space and comments at both ends.
pub fn trimmed<'s, 'a>(components: &'s [Component<'a>]) -> &'s [Component<'a>]
    ensures { result.now ≡ trimmed components.now }
{
    trimmed_end(trimmed_start(components))
}
