//! Media features, read from the component values in parentheses (Media Queries 4, section 3).

ghost use Rattle.css_tokens.specs.Values.{value_text};
ghost use Rattle.media_tree.specs.Features.{begins_equals, behind_one, behind_separator, boolean, feature_of, front_length, gap_length, gap_text, goes_unseen, in_utf8, interval, is_rising, is_falling, is_same_way, is_separator, is_solid, lone_name, name_in, number_text, one_bound, plain, ranged, ratio, ratio_behind, ratio_end, ray, sections, separator_at, separator_of, single_value, takes_equals, token_number, token_value, value_in, value_of, with_equals};
ghost use Rattle.media_tree.specs.Marks.{is_white};
ghost use Rattle.std.specs.List.{list_any, position};
ghost use Rattle.std.specs.Option.{option_map};
ghost use Rattle.std.specs.Prelude.{◌≡◌, ◌++◌, ◌∷◌, ◌≤◌, ◌<◌, [], codes, length, IfOk, IfSome};

use crate::mark::{Mark, Separator, ident_name, is_gap, is_white, mark_of, trimmed, trimmed_start};
use css_tokens::{Component, Kind, List, OutOfMemory, Text, Token, write_value};
use media_spelling::{Bound, Condition, Feature, Range, Relation, turned};
use prop_table::is_range_feature;
use std::alloc::Global;
use std::{slice, str};

fn token_number<'a>(token: &Token<'a>) -> Option<&'a str>
    ensures { option_map (λ t. t.now) result ≡ token_number token.now.kind token.now.text }
{
    match token.kind {
        Kind::Number => Some(token.text),
        _ => None,
    }
}

fn number_text<'a>(component: &Component<'a>) -> Option<&'a str>
    ensures { option_map (λ t. t.now) result ≡ number_text component.now }
{
    match component {
        Component::Single(token) => token_number(token),
        Component::Block(_) => None,
    }
}

fn token_value<'a>(token: &Token<'a>) -> Option<Text<'a>>
    ensures { result ≡ token_value token.now.kind token.now.text }
{
    match token.kind {
        Kind::Number | Kind::Dimension | Kind::Ident => Some(Text::lent(token.text)),
        _ => None,
    }
}

/// A text made of bytes in UTF-8.
fn in_utf8<'a>(alloc: Global, bytes: &[u8]) -> Result<Option<Text<'a>>, OutOfMemory>
    ensures { IfOk result (λ text. text ≡ in_utf8 bytes.now) }
{
    match str::from_utf8(bytes) {
        Ok(text) => Ok(Some(Text::owned(text.to_owned(alloc)?))),
        Err(_) => Ok(None),
    }
}

/// The text of one component, as it prints.
fn printed<'a>(alloc: Global, component: &Component) -> Result<Option<Text<'a>>, OutOfMemory>
    ensures { IfOk result (λ text. text ≡ in_utf8 (value_text (component.now ∷ []))) }
{
    let mut out = List::new(alloc);
    write_value(slice::from_ref(component), &mut out)?;
    in_utf8(alloc, out.as_slice())
}

/// The text of one component that is a value: a Number, a Dimension, an Ident or a Function.
fn single_value<'a>(
    alloc: Global,
    component: &Component<'a>,
) -> Result<Option<Text<'a>>, OutOfMemory>
    ensures { IfOk result (λ text. text ≡ single_value component.now) }
{
    match component {
        Component::Single(token) => Ok(token_value(token)),
        Component::Block(block) => match block.get().opening.kind {
            Kind::Function => printed(alloc, component),
            _ => Ok(None),
        },
    }
}

fn is_solid(component: &Component) -> bool
    ensures { result ≡ is_solid component.now }
{
    !is_gap(component)
}

/// Where the first component stands that is neither white space nor a comment.
fn solid_place(components: &[Component]) -> Option<usize>
    ensures value { result ≡ position is_solid components.now }
    ensures within { IfSome result (λ at. at < length components.now) }
{
    components.iter().position(is_solid)
}

/// How many of the first components are white space and comments.
fn gap_length(components: &[Component]) -> usize
    ensures value { result ≡ gap_length components.now }
    ensures within { result ≤ length components.now }
{
    solid_place(components).unwrap_or(components.len())
}

fn has_white(components: &[Component]) -> bool
    ensures { result ≡ list_any is_white components.now }
{
    components.iter().any(is_white)
}

/// Whether there is no component, or white space among them.
fn goes_unseen(components: &[Component]) -> bool
    ensures { result ≡ goes_unseen components.now }
{
    if components.is_empty() {
        true
    } else {
        has_white(components)
    }
}

/// What white space and comments beside the `/` of a ratio print as.
fn gap_text(components: &[Component]) -> &'static str
    ensures { result.now ≡ gap_text components.now }
{
    let gap = &components[..gap_length(components)];
    if goes_unseen(gap) { "" } else { "/**/" }
}

/// The text of a ratio.
fn ratio_text<'a>(
    alloc: Global,
    first: &str,
    before: &str,
    behind: &str,
    second: &str,
) -> Result<Text<'a>, OutOfMemory>
    ensures { IfOk result (λ text. text ≡ first.now ++ (before.now ++ (codes "/" ++ (behind.now ++ second.now)))) }
{
    let mut text = String::new(alloc);
    text.push_str(first)?;
    text.push_str(before)?;
    text.push_str("/")?;
    text.push_str(behind)?;
    text.push_str(second)?;
    Ok(Text::owned(text))
}

fn ratio_end<'a>(
    alloc: Global,
    first: &str,
    before: &str,
    behind: &str,
    components: &[Component],
) -> Result<Option<Text<'a>>, OutOfMemory>
    ensures { IfOk result (λ text. text ≡ ratio_end first.now before.now behind.now components.now) }
{
    let [component] = components else {
        return Ok(None);
    };
    match number_text(component) {
        Some(second) => Ok(Some(ratio_text(alloc, first, before, behind, second)?)),
        None => Ok(None),
    }
}

fn ratio_behind<'a>(
    alloc: Global,
    first: &str,
    before: &str,
    components: &[Component],
) -> Result<Option<Text<'a>>, OutOfMemory>
    ensures { IfOk result (λ text. text ≡ ratio_behind first.now before.now components.now) }
{
    let [slash, rest @ ..] = components else {
        return Ok(None);
    };
    if matches!(mark_of(slash), Mark::Slash) {
        ratio_end(alloc, first, before, gap_text(rest), trimmed_start(rest))
    } else {
        Ok(None)
    }
}

/// The text of a ratio that begins with this component.
fn ratio<'a>(
    alloc: Global,
    first: &Component,
    rest: &[Component],
) -> Result<Option<Text<'a>>, OutOfMemory>
    ensures { IfOk result (λ text. text ≡ ratio (number_text first.now) rest.now) }
{
    match number_text(first) {
        Some(number) => ratio_behind(alloc, number, gap_text(rest), trimmed_start(rest)),
        None => Ok(None),
    }
}

fn value_of<'a>(
    alloc: Global,
    components: &[Component<'a>],
) -> Result<Option<Text<'a>>, OutOfMemory>
    ensures { IfOk result (λ text. text ≡ value_of components.now) }
{
    match components {
        [] => Ok(None),
        [component] => single_value(alloc, component),
        [first, rest @ ..] => ratio(alloc, first, rest),
    }
}

/// The text of a value that stands there with nothing but white space and comments beside it.
fn value_in<'a>(
    alloc: Global,
    components: &[Component<'a>],
) -> Result<Option<Text<'a>>, OutOfMemory>
    ensures { IfOk result (λ text. text ≡ value_in components.now) }
{
    value_of(alloc, trimmed(components))
}

fn lone_name<'a>(
    alloc: Global,
    components: &[Component<'a>],
) -> Result<Option<Text<'a>>, OutOfMemory>
    ensures { IfOk result (λ name. name ≡ lone_name components.now) }
{
    match components {
        [component] => ident_name(alloc, component),
        _ => Ok(None),
    }
}

/// The name that stands there with nothing but white space and comments beside it.
fn name_in<'a>(alloc: Global, components: &[Component<'a>]) -> Result<Option<Text<'a>>, OutOfMemory>
    ensures { IfOk result (λ name. name ≡ name_in components.now) }
{
    lone_name(alloc, trimmed(components))
}

/// Whether it is a colon, or begins a relation.
fn is_separator(component: &Component) -> bool
    ensures { result ≡ is_separator component.now }
{
    matches!(
        mark_of(component),
        Mark::Colon | Mark::Less | Mark::Greater | Mark::Equals
    )
}

/// Where the first separator stands.
fn separator_place(components: &[Component]) -> Option<usize>
    ensures value { result ≡ position is_separator components.now }
    ensures within { IfSome result (λ at. at < length components.now) }
{
    components.iter().position(is_separator)
}

/// How many components stand before the first separator.
fn front_length(components: &[Component]) -> usize
    ensures value { result ≡ front_length components.now }
    ensures within { result ≤ length components.now }
{
    separator_place(components).unwrap_or(components.len())
}

fn begins_equals(components: &[Component]) -> bool
    ensures { result ≡ begins_equals components.now }
{
    match components {
        [first, ..] => matches!(mark_of(first), Mark::Equals),
        [] => false,
    }
}

fn with_equals(bare: Relation, equal: Relation, equals: bool) -> Separator
    ensures { result ≡ with_equals bare equal equals }
{
    if equals {
        Separator::Relation(equal)
    } else {
        Separator::Relation(bare)
    }
}

fn separator_at(mark: Mark, equals: bool) -> Separator
    ensures { result ≡ separator_at mark equals }
{
    match mark {
        Mark::Colon => Separator::Colon,
        Mark::Less => with_equals(Relation::Less, Relation::LessEqual, equals),
        Mark::Greater => with_equals(Relation::Greater, Relation::GreaterEqual, equals),
        Mark::Equals => Separator::Relation(Relation::Equal),
        _ => Separator::None,
    }
}

/// Whether the mark is the first of two Delims that make one relation.
fn takes_equals(mark: Mark, equals: bool) -> bool
    ensures { result ≡ takes_equals mark equals }
{
    match mark {
        Mark::Less | Mark::Greater => equals,
        _ => false,
    }
}

/// The separator that the components begin with.
fn separator_of(components: &[Component]) -> Separator
    ensures { result ≡ separator_of components.now }
{
    match components {
        [] => Separator::None,
        [first, rest @ ..] => separator_at(mark_of(first), begins_equals(rest)),
    }
}

fn behind_one<'s, 'a>(components: &'s [Component<'a>]) -> &'s [Component<'a>]
    ensures { result.now ≡ behind_one components.now }
{
    match components {
        [] => components,
        [_, rest @ ..] => rest,
    }
}

/// What stands behind the separator that the components begin with.
fn behind_separator<'s, 'a>(components: &'s [Component<'a>]) -> &'s [Component<'a>]
    ensures { result.now ≡ behind_separator components.now }
{
    match components {
        [] => components,
        [first, rest @ ..] => {
            if takes_equals(mark_of(first), begins_equals(rest)) {
                behind_one(rest)
            } else {
                rest
            }
        }
    }
}

fn boolean<'a>(name: Option<Text<'a>>) -> Option<Condition<'a>>
    ensures { result ≡ boolean name.entry }
{
    match name {
        Some(name) => Some(Condition::Feature(Feature { name, value: None })),
        None => None,
    }
}

fn plain<'a>(name: Option<Text<'a>>, value: Option<Text<'a>>) -> Option<Condition<'a>>
    ensures { result ≡ plain name.entry value.entry }
{
    match (name, value) {
        (Some(name), Some(value)) => Some(Condition::Feature(Feature {
            name,
            value: Some(value),
        })),
        _ => None,
    }
}

fn ray<'a>(
    name: Option<Text<'a>>,
    relation: Relation,
    value: Option<Text<'a>>,
) -> Option<Condition<'a>>
    ensures { result ≡ ray name.entry relation value.entry }
{
    match (name, value) {
        (Some(name), Some(value)) => {
            if is_range_feature(name.as_str()) {
                Some(Condition::Range(Range {
                    name,
                    first: Bound { relation, value },
                    second: None,
                }))
            } else {
                None
            }
        }
        _ => None,
    }
}

fn one_bound<'a>(
    alloc: Global,
    left: &[Component<'a>],
    relation: Relation,
    right: &[Component<'a>],
) -> Result<Option<Condition<'a>>, OutOfMemory>
    ensures { IfOk result (λ c. c ≡ one_bound left.now relation right.now) }
{
    let named = ray(name_in(alloc, left)?, relation, value_in(alloc, right)?);
    if named.is_some() {
        return Ok(named);
    }
    Ok(ray(
        name_in(alloc, right)?,
        turned(relation),
        value_in(alloc, left)?,
    ))
}

fn is_rising(relation: Relation) -> bool
    ensures { result ≡ is_rising relation }
{
    matches!(relation, Relation::Less | Relation::LessEqual)
}

fn is_falling(relation: Relation) -> bool
    ensures { result ≡ is_falling relation }
{
    matches!(relation, Relation::Greater | Relation::GreaterEqual)
}

fn is_same_way(first: Relation, second: Relation) -> bool
    ensures { result ≡ is_same_way first second }
{
    is_rising(first) && is_rising(second) || is_falling(first) && is_falling(second)
}

fn interval<'a>(
    low: Option<Text<'a>>,
    first: Relation,
    name: Option<Text<'a>>,
    second: Relation,
    high: Option<Text<'a>>,
) -> Option<Condition<'a>>
    ensures { result ≡ interval low.entry first name.entry second high.entry }
{
    match (low, name, high) {
        (Some(low), Some(name), Some(high)) => {
            if is_range_feature(name.as_str()) && is_same_way(first, second) {
                Some(Condition::Range(Range {
                    name,
                    first: Bound {
                        relation: turned(first),
                        value: low,
                    },
                    second: Some(Bound {
                        relation: second,
                        value: high,
                    }),
                }))
            } else {
                None
            }
        }
        _ => None,
    }
}

fn ranged<'a>(
    alloc: Global,
    left: &[Component<'a>],
    first: Relation,
    middle: &[Component<'a>],
    separator: Separator,
    right: &[Component<'a>],
) -> Result<Option<Condition<'a>>, OutOfMemory>
    ensures { IfOk result (λ c. c ≡ ranged left.now first middle.now separator right.now) }
{
    match separator {
        Separator::None => one_bound(alloc, left, first, middle),
        Separator::Colon => Ok(None),
        Separator::Relation(second) => Ok(interval(
            value_in(alloc, left)?,
            first,
            name_in(alloc, middle)?,
            second,
            value_in(alloc, right)?,
        )),
    }
}

fn sections<'a>(
    alloc: Global,
    left: &[Component<'a>],
    separator: Separator,
    rest: &[Component<'a>],
) -> Result<Option<Condition<'a>>, OutOfMemory>
    ensures { IfOk result (λ c. c ≡ sections left.now separator rest.now) }
{
    match separator {
        Separator::None => Ok(boolean(name_in(alloc, left)?)),
        Separator::Colon => Ok(plain(name_in(alloc, left)?, value_in(alloc, rest)?)),
        Separator::Relation(relation) => {
            let end = front_length(rest);
            let behind = &rest[end..];
            ranged(
                alloc,
                left,
                relation,
                &rest[..end],
                separator_of(behind),
                behind_separator(behind),
            )
        }
    }
}

/// The media feature that these components are, where they are one.
pub fn feature_of<'a>(
    alloc: Global,
    components: &[Component<'a>],
) -> Result<Option<Condition<'a>>, OutOfMemory>
    ensures { IfOk result (λ c. c ≡ feature_of components.now) }
{
    let end = front_length(components);
    let rest = &components[end..];
    sections(
        alloc,
        &components[..end],
        separator_of(rest),
        behind_separator(rest),
    )
}
