//! Lists of components cut at marks, and the places of what they hold between white space and comments.

ghost use Rattle.std.specs.Prelude.{◌≡◌, ◌≤◌, ◌+◌, ◌∷◌, [], IfOk, length, drop, slice_get, slice_range, MatchOption};
ghost use Rattle.std.specs.Option.{option_copied};
ghost use Rattle.css_components.specs.Components.{is_semicolon};
ghost use Rattle.css_components.specs.Trimming.{trimmed, trimmed_start, trimmed_end};
ghost use Rattle.css_rules.specs.Private.Marks.{EndsAt, IsFirstMark, is_mark};
ghost use Rattle.css_rules.specs.Private.Spans.{IsWithin, at_span};
ghost use Rattle.css_rules.specs.RuleEnds.{ends_item, ends_rule};

use crate::declaration::begins_custom;
use crate::parts::begins_at_rule;
use css_components::{head_of, is_braces, is_semicolon, is_token, trimmed_end, trimmed_start};
use css_tokens::{Component, Kind, OutOfMemory};
use std::alloc::Global;

/// What a list is cut at.
#[derive(Clone, Copy, Debug)]
pub enum Mark {
    /// A `{}` block.
    Braces,
    Semicolon,
    /// A `{}` block or a semicolon.
    BracesOrSemicolon,
    /// A `!` that stands alone.
    Bang,
}

impl Mark {
    fn is(self, component: &Component) -> bool
        ensures { result ≡ is_mark self component.now }
    {
        match self {
            Mark::Braces => is_braces(component),
            Mark::Semicolon => is_semicolon(component),
            Mark::BracesOrSemicolon => is_braces(component) || is_semicolon(component),
            Mark::Bang => {
                let token = head_of(component);
                is_token(component)
                    && (matches!(token.kind, Kind::Delim)
                        && matches!(token.text.as_bytes(), [b'!']))
            }
        }
    }
}

/// What ends the rule that begins with these components.
pub fn rule_mark(components: &[Component]) -> Mark
    ensures { EndsAt ends_rule (is_mark result) components.now }
{
    if begins_at_rule(trimmed_start(components)) {
        Mark::BracesOrSemicolon
    } else {
        Mark::Braces
    }
}

/// What ends the item of a block that begins with these components.
pub fn item_mark(alloc: Global, components: &[Component]) -> Result<Mark, OutOfMemory>
    ensures { IfOk result (λ mark. EndsAt ends_item (is_mark mark) components.now) }
{
    if begins_custom(alloc, trimmed_start(components))? {
        Ok(Mark::Semicolon)
    } else {
        Ok(Mark::BracesOrSemicolon)
    }
}

/// Where the first mark stands from a place on, or where the list ends.
pub fn end_of_cut(components: &[Component], from: usize, mark: Mark) -> usize
    requires { from ≤ length components.now }
    ensures after { from ≤ result }
    ensures within { result ≤ length components.now }
    ensures first { IsFirstMark (is_mark mark) components.now from result }
{
    let mut to = from;
    while to < components.len() && !mark.is(&components[to]) {
        to += 1;
    }
    to
}

/// The places of a list from one on and before another.
#[derive(Clone, Copy, Debug)]
pub struct Span {
    pub from: usize,
    pub to: usize,
}

/// Where the components stand that `trimmed` leaves.
pub fn trimmed_span(components: &[Component]) -> Span
    ensures items { at_span components.now result ≡ trimmed components.now }
    ensures within { IsWithin result components.now }
{
    let rest = trimmed_start(components);
    let from = components.len() - rest.len();
    Span {
        from,
        to: from + trimmed_end(rest).len(),
    }
}

/// The mark at a place, if the list goes so far.
pub fn mark_at<'s, 'a>(components: &'s [Component<'a>], at: usize) -> Option<&'s Component<'a>>
    ensures { option_copied result ≡ slice_get components.now at }
{
    components.get(at)
}
