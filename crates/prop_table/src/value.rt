//! Values of declarations, by their parts: their components without white space and comments (CSS Values 4, section 2).

ghost use Rattle.std.specs.Char.{is_ascii};
ghost use Rattle.std.specs.List.{filter, list_all, list_any};
ghost use Rattle.std.specs.Option.{option_map};
ghost use Rattle.std.specs.Prelude.{◌≡◌, ◌∷◌, [], codes, map, true, IfOk, IfSome, IsTrue};
ghost use Rattle.css_tokens.specs.Tokens.{spells};
ghost use Rattle.css_tokens.specs.ValueAgain.{is_solid};
ghost use Rattle.css_tokens.specs.declared.component.Component.{out-Component};
ghost use Rattle.prop_table.specs.PhysicalProperties.{axis_keywords, directed, is_keyword, is_mixed, line_sides, ltr_ends, meaning, meaning_among, opened_place, parts_of, physical_value, put_for, replaced, resized, side_at, side_keywords, wide_keywords};
ghost use Rattle.prop_table.specs.Private.LogicalNames.{edge_name, takes_flow, way_along};
ghost use Rattle.prop_table.specs.declared.mode.Writing.TheVariants as writings;

use crate::property::{Axis, Edge};
use crate::{Direction, Mode, Writing};
use css_tokens::{
    Component, Kind, List, OutOfMemory, Token, copy_all, is_gap, is_keyword as is_keyword_token,
};
use std::alloc::Global;

#[tactic(auto, using(crate::proofs::Components::solid_told))]
fn is_solid(component: &Component) -> bool
    ensures { result ≡ is_solid component.now }
{
    match component {
        Component::Single(token) => !is_gap(token.kind),
        Component::Block(block) => !is_gap(block.get().opening.kind),
    }
}

/// Copies of the components that are neither white space nor a comment.
pub fn parts_of<'a>(
    alloc: Global,
    value: &[Component<'a>],
) -> Result<List<Component<'a>>, OutOfMemory>
    ensures { IfOk result (λ parts. parts ≡ parts_of value.now) }
{
    let mut parts = List::new(alloc);
    for component in value {
        if is_solid(component) {
            parts.push(component.copy(alloc)?)?;
        }
    }
    Ok(parts)
}

/// Whether a component is this keyword, which is given in lower case.
fn is_keyword(component: &Component, keyword: &str) -> bool
    requires { IsTrue (list_all is_ascii keyword.now) }
    ensures { result ≡ is_keyword keyword.now component.now }
{
    match component {
        Component::Single(token) => match token.kind {
            Kind::Ident => is_keyword_token(token, keyword),
            _ => false,
        },
        Component::Block(_) => false,
    }
}

/// Whether a component is a keyword that each property takes as its whole value.
fn is_wide(component: &Component) -> bool
    ensures { result ≡ list_any (λ keyword. is_keyword keyword component.now) wide_keywords }
{
    is_keyword(component, "initial")
        || is_keyword(component, "inherit")
        || is_keyword(component, "unset")
        || is_keyword(component, "revert")
}

fn is_any_wide(parts: &[Component]) -> bool
    ensures { result ≡ list_any (λ part. list_any (λ keyword. is_keyword keyword part) wide_keywords) parts.now }
{
    parts.iter().any(is_wide)
}

/// Whether such a keyword stands beside another part.
pub fn is_mixed(parts: &[Component]) -> bool
    ensures { result ≡ is_mixed parts.now }
{
    parts.len() > 1 && is_any_wide(parts)
}

/// Whether some values of the property go by the flow of the text.
fn takes_flow(name: &str) -> bool
    ensures { result ≡ takes_flow name.now }
{
    matches!(name, "float" | "clear" | "resize")
}

/// The side of a line that an end of the inline axis is at where lines are laid from top to bottom.
#[tactic(auto, using(crate::proofs::Components::words_spell))]
fn line_side(direction: Direction, edge: Edge) -> &'static str
    ensures side { result.now ≡ side_at (edge_name edge) (directed direction (ltr_ends writings.HorizontalTb)) }
    ensures spelled { spells Kind.Ident result.now ≡ true }
{
    match direction {
        Direction::Ltr => match edge {
            Edge::Start => "left",
            Edge::End => "right",
        },
        Direction::Rtl => match edge {
            Edge::Start => "right",
            Edge::End => "left",
        },
    }
}

/// What a value of `float` and `clear` means, where it is an end of the inline axis (CSS Logical 1, sections 2.2 and 2.3).
fn side_meant(part: &Component, direction: Direction) -> Option<&'static str>
    ensures meaning { option_map (λ text. text.now) result ≡ meaning_among side_keywords (line_sides direction) part.now }
    ensures spelled { IfSome result (λ text. spells Kind.Ident text.now ≡ true) }
{
    if is_keyword(part, "inline-start") {
        return Some(line_side(direction, Edge::Start));
    }
    if is_keyword(part, "inline-end") {
        return Some(line_side(direction, Edge::End));
    }
    None
}

/// The way in which a box is resized along an axis.
#[tactic(auto, using(crate::proofs::Components::words_spell))]
fn way(writing: Writing, axis: Axis) -> &'static str
    ensures way { result.now ≡ way_along writing axis }
    ensures spelled { spells Kind.Ident result.now ≡ true }
{
    match writing {
        Writing::HorizontalTb => match axis {
            Axis::Inline => "horizontal",
            Axis::Block => "vertical",
        },
        Writing::VerticalRl | Writing::VerticalLr => match axis {
            Axis::Inline => "vertical",
            Axis::Block => "horizontal",
        },
    }
}

/// What a value of `resize` means, where it is an axis (CSS Logical 1, section 2.4).
#[tactic(auto, using(crate::proofs::Components::ways_told))]
fn way_meant(part: &Component, writing: Writing) -> Option<&'static str>
    ensures meaning { option_map (λ text. text.now) result ≡ meaning_among axis_keywords (resized writing) part.now }
    ensures spelled { IfSome result (λ text. spells Kind.Ident text.now ≡ true) }
{
    if is_keyword(part, "inline") {
        return Some(way(writing, Axis::Inline));
    }
    if is_keyword(part, "block") {
        return Some(way(writing, Axis::Block));
    }
    None
}

/// What a part of the value of this property means, where it goes by the flow of the text.
fn meaning(name: &str, part: &Component, mode: Mode) -> Option<&'static str>
    ensures meaning { option_map (λ text. text.now) result ≡ meaning mode name.now part.now }
    ensures spelled { IfSome result (λ text. spells Kind.Ident text.now ≡ true) }
{
    match name {
        "float" | "clear" => side_meant(part, mode.direction),
        "resize" => way_meant(part, mode.writing),
        _ => None,
    }
}

fn place_of(component: &Component) -> u32
    ensures { result ≡ opened_place (out-Component component.now) }
{
    match component {
        Component::Single(token) => token.at,
        Component::Block(block) => block.get().opening.at,
    }
}

/// A value that is an identifier alone, in the place of a component.
fn put_for<'a>(
    alloc: Global,
    part: &Component,
    text: &'static str,
) -> Result<List<Component<'a>>, OutOfMemory>
    requires { spells Kind.Ident text.now ≡ true }
    ensures { IfOk result (λ value. value ≡ put_for part.now text.now ∷ []) }
{
    let token = Token::new(Kind::Ident, text, place_of(part));
    let mut value = List::new(alloc);
    value.push(Component::Single(token))?;
    Ok(value)
}

/// The value by its only part.
fn by_part<'a>(
    alloc: Global,
    name: &str,
    value: &[Component<'a>],
    part: &Component,
    mode: Mode,
) -> Result<List<Component<'a>>, OutOfMemory>
    ensures { IfOk result (λ physical. physical ≡ replaced value.now part.now (meaning mode name.now part.now)) }
{
    match meaning(name, part, mode) {
        Some(text) => put_for(alloc, part, text),
        None => copy_all(alloc, value),
    }
}

/// The value of a property that is not logical: what its only part means where that goes by the flow of the text, else a copy.
#[tactic(auto, using(crate::proofs::Components::values_told))]
pub fn physical_value<'a>(
    alloc: Global,
    name: &str,
    value: &[Component<'a>],
    mode: Mode,
) -> Result<List<Component<'a>>, OutOfMemory>
    ensures { IfOk result (λ physical. physical ≡ physical_value mode name.now value.now) }
{
    if !takes_flow(name) {
        return copy_all(alloc, value);
    }
    let parts = parts_of(alloc, value)?;
    match parts.as_slice() {
        [part] => by_part(alloc, name, value, part, mode),
        _ => copy_all(alloc, value),
    }
}
