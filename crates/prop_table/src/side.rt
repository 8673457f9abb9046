//! Physical sides and properties of a mode, by the axes of the flow of the text (CSS Writing Modes 4, section 6).

ghost use Rattle.std.specs.Prelude.{◌≡◌, if◌then◌else◌, codes, false, true};
ghost use Rattle.prop_table.specs.PhysicalProperties.{block_ends, corner, ltr_ends, side_at};
ghost use Rattle.prop_table.specs.Private.LogicalNames.{edge_name, extent_name, other_edge, ltr_edge, physical_part, radius_at, side_in, side_name, size_in};
ghost use Rattle.prop_table.specs.declared.property.Axis.TheVariants as axis;

use crate::property::{Axis, Edge, Extent, Part, Side};
use crate::{Direction, Mode, Writing};

fn block_side(writing: Writing, edge: Edge) -> Side
    ensures { side_name result ≡ side_at (edge_name edge) (block_ends writing) }
{
    match writing {
        Writing::HorizontalTb => match edge {
            Edge::Start => Side::Top,
            Edge::End => Side::Bottom,
        },
        Writing::VerticalRl => match edge {
            Edge::Start => Side::Right,
            Edge::End => Side::Left,
        },
        Writing::VerticalLr => match edge {
            Edge::Start => Side::Left,
            Edge::End => Side::Right,
        },
    }
}

/// The side of the inline axis where the direction is ltr.
fn ltr_side(writing: Writing, edge: Edge) -> Side
    ensures { side_name result ≡ side_at (edge_name edge) (ltr_ends writing) }
{
    match writing {
        Writing::HorizontalTb => match edge {
            Edge::Start => Side::Left,
            Edge::End => Side::Right,
        },
        Writing::VerticalRl | Writing::VerticalLr => match edge {
            Edge::Start => Side::Top,
            Edge::End => Side::Bottom,
        },
    }
}

fn other_edge(edge: Edge) -> Edge
    ensures { result ≡ other_edge edge }
{
    match edge {
        Edge::Start => Edge::End,
        Edge::End => Edge::Start,
    }
}

/// The end of the inline axis that lies in ltr where this one lies.
fn ltr_edge(direction: Direction, edge: Edge) -> Edge
    ensures { result ≡ ltr_edge direction edge }
{
    match direction {
        Direction::Ltr => edge,
        Direction::Rtl => other_edge(edge),
    }
}

/// The physical side at an end of an axis.
#[tactic(auto, using(crate::proofs::Sides::sides_told))]
fn side(mode: Mode, axis: Axis, edge: Edge) -> Side
    ensures { side_name result ≡ side_in mode axis edge }
{
    match axis {
        Axis::Block => block_side(mode.writing, edge),
        Axis::Inline => ltr_side(mode.writing, ltr_edge(mode.direction, edge)),
    }
}

fn margin(side: Side) -> &'static str
    ensures { result.now ≡ physical_part Part.Margin (side_name side) }
{
    match side {
        Side::Top => "margin-top",
        Side::Right => "margin-right",
        Side::Bottom => "margin-bottom",
        Side::Left => "margin-left",
    }
}

fn inset(side: Side) -> &'static str
    ensures { result.now ≡ physical_part Part.Inset (side_name side) }
{
    match side {
        Side::Top => "top",
        Side::Right => "right",
        Side::Bottom => "bottom",
        Side::Left => "left",
    }
}

fn padding(side: Side) -> &'static str
    ensures { result.now ≡ physical_part Part.Padding (side_name side) }
{
    match side {
        Side::Top => "padding-top",
        Side::Right => "padding-right",
        Side::Bottom => "padding-bottom",
        Side::Left => "padding-left",
    }
}

fn border_width(side: Side) -> &'static str
    ensures { result.now ≡ physical_part Part.BorderWidth (side_name side) }
{
    match side {
        Side::Top => "border-top-width",
        Side::Right => "border-right-width",
        Side::Bottom => "border-bottom-width",
        Side::Left => "border-left-width",
    }
}

fn border_style(side: Side) -> &'static str
    ensures { result.now ≡ physical_part Part.BorderStyle (side_name side) }
{
    match side {
        Side::Top => "border-top-style",
        Side::Right => "border-right-style",
        Side::Bottom => "border-bottom-style",
        Side::Left => "border-left-style",
    }
}

fn border_color(side: Side) -> &'static str
    ensures { result.now ≡ physical_part Part.BorderColor (side_name side) }
{
    match side {
        Side::Top => "border-top-color",
        Side::Right => "border-right-color",
        Side::Bottom => "border-bottom-color",
        Side::Left => "border-left-color",
    }
}

fn border(side: Side) -> &'static str
    ensures { result.now ≡ physical_part Part.Border (side_name side) }
{
    match side {
        Side::Top => "border-top",
        Side::Right => "border-right",
        Side::Bottom => "border-bottom",
        Side::Left => "border-left",
    }
}

fn part_of(part: Part, side: Side) -> &'static str
    ensures { result.now ≡ physical_part part (side_name side) }
{
    match part {
        Part::Margin => margin(side),
        Part::Inset => inset(side),
        Part::Padding => padding(side),
        Part::BorderWidth => border_width(side),
        Part::BorderStyle => border_style(side),
        Part::BorderColor => border_color(side),
        Part::Border => border(side),
    }
}

/// The physical property of an end of an axis.
pub fn part_at(mode: Mode, part: Part, axis: Axis, edge: Edge) -> &'static str
    ensures { result.now ≡ physical_part part (side_in mode axis edge) }
{
    part_of(part, side(mode, axis, edge))
}

/// The radius of the corner at the top or the bottom and at the left or the right, each the first and the second.
fn radius_at(vertical: Edge, horizontal: Edge) -> &'static str
    ensures { result.now ≡ radius_at vertical horizontal }
{
    match vertical {
        Edge::Start => match horizontal {
            Edge::Start => "border-top-left-radius",
            Edge::End => "border-top-right-radius",
        },
        Edge::End => match horizontal {
            Edge::Start => "border-bottom-left-radius",
            Edge::End => "border-bottom-right-radius",
        },
    }
}

/// The radius of the corner between an end of the block axis and one of the inline axis.
#[tactic(auto, using(crate::proofs::Sides::corners_told))]
pub fn corner_at(mode: Mode, block: Edge, inline: Edge) -> &'static str
    ensures { result.now ≡ corner mode.writing (side_in mode axis.Block block) (side_in mode axis.Inline inline) }
{
    let along = ltr_edge(mode.direction, inline);
    match mode.writing {
        Writing::HorizontalTb => radius_at(block, along),
        Writing::VerticalRl => radius_at(along, other_edge(block)),
        Writing::VerticalLr => radius_at(along, block),
    }
}

fn width(extent: Extent) -> &'static str
    ensures { result.now ≡ extent_name extent (codes "width") }
{
    match extent {
        Extent::Whole => "width",
        Extent::Least => "min-width",
        Extent::Greatest => "max-width",
    }
}

fn height(extent: Extent) -> &'static str
    ensures { result.now ≡ extent_name extent (codes "height") }
{
    match extent {
        Extent::Whole => "height",
        Extent::Least => "min-height",
        Extent::Greatest => "max-height",
    }
}

/// The physical size along an axis.
pub fn size_at(mode: Mode, extent: Extent, axis: Axis) -> &'static str
    ensures { result.now ≡ extent_name extent (size_in mode axis) }
{
    match mode.writing {
        Writing::HorizontalTb => match axis {
            Axis::Block => height(extent),
            Axis::Inline => width(extent),
        },
        Writing::VerticalRl | Writing::VerticalLr => match axis {
            Axis::Block => width(extent),
            Axis::Inline => height(extent),
        },
    }
}
