//! Logical properties, each by what of a box it sets and where (CSS Logical 1, section 4).

ghost use Rattle.std.specs.Prelude.{◌≡◌, ◌++◌, ◌∷◌, [], codes, flat_map, false, map, IfSome, IfNone};
ghost use Rattle.std.specs.List.{list_any};
ghost use Rattle.css_tokens.specs.Trees.{is_text};
ghost use Rattle.prop_table.specs.LogicalProperties.{axes, border_of, border_parts_of, borders, corners, is_logical, sides, sizes_of, spaces_of};
ghost use Rattle.prop_table.specs.Private.LogicalNames.{logical_name};

/// An axis of a box by the flow of its text.
#[derive(Clone, Copy, Debug)]
pub enum Axis {
    Block,
    Inline,
}

/// An end of an axis.
#[derive(Clone, Copy, Debug)]
pub enum Edge {
    Start,
    End,
}

/// A physical side of a box.
#[derive(Clone, Copy, Debug)]
pub enum Side {
    Top,
    Right,
    Bottom,
    Left,
}

/// What is set of a side, or of both sides of an axis.
#[derive(Clone, Copy, Debug)]
pub enum Part {
    Margin,
    Inset,
    Padding,
    BorderWidth,
    BorderStyle,
    BorderColor,
    Border,
}

/// A size, or its least or its greatest.
#[derive(Clone, Copy, Debug)]
pub enum Extent {
    Whole,
    Least,
    Greatest,
}

/// A logical property.
#[derive(Clone, Copy, Debug)]
pub enum Logical {
    OfSide(Part, Axis, Edge),
    OfAxis(Part, Axis),
    /// The corner between an end of the block axis and one of the inline axis.
    Corner(Edge, Edge),
    Size(Extent, Axis),
    /// `inset`.
    AllSides,
}

fn space_of_side(name: &str) -> Option<Logical>
    ensures some { IfSome result (λ property. name.now ≡ logical_name property) }
    ensures none { IfNone result (list_any (is_text name.now) (flat_map spaces_of sides) ≡ false) }
{
    match name {
        "margin-block-start" => Some(Logical::OfSide(Part::Margin, Axis::Block, Edge::Start)),
        "margin-block-end" => Some(Logical::OfSide(Part::Margin, Axis::Block, Edge::End)),
        "margin-inline-start" => Some(Logical::OfSide(Part::Margin, Axis::Inline, Edge::Start)),
        "margin-inline-end" => Some(Logical::OfSide(Part::Margin, Axis::Inline, Edge::End)),
        "inset-block-start" => Some(Logical::OfSide(Part::Inset, Axis::Block, Edge::Start)),
        "inset-block-end" => Some(Logical::OfSide(Part::Inset, Axis::Block, Edge::End)),
        "inset-inline-start" => Some(Logical::OfSide(Part::Inset, Axis::Inline, Edge::Start)),
        "inset-inline-end" => Some(Logical::OfSide(Part::Inset, Axis::Inline, Edge::End)),
        "padding-block-start" => Some(Logical::OfSide(Part::Padding, Axis::Block, Edge::Start)),
        "padding-block-end" => Some(Logical::OfSide(Part::Padding, Axis::Block, Edge::End)),
        "padding-inline-start" => Some(Logical::OfSide(Part::Padding, Axis::Inline, Edge::Start)),
        "padding-inline-end" => Some(Logical::OfSide(Part::Padding, Axis::Inline, Edge::End)),
        _ => None,
    }
}

fn space_of_axis(name: &str) -> Option<Logical>
    ensures some { IfSome result (λ property. name.now ≡ logical_name property) }
    ensures none { IfNone result (list_any (is_text name.now) (flat_map spaces_of axes) ≡ false) }
{
    match name {
        "margin-block" => Some(Logical::OfAxis(Part::Margin, Axis::Block)),
        "margin-inline" => Some(Logical::OfAxis(Part::Margin, Axis::Inline)),
        "inset-block" => Some(Logical::OfAxis(Part::Inset, Axis::Block)),
        "inset-inline" => Some(Logical::OfAxis(Part::Inset, Axis::Inline)),
        "padding-block" => Some(Logical::OfAxis(Part::Padding, Axis::Block)),
        "padding-inline" => Some(Logical::OfAxis(Part::Padding, Axis::Inline)),
        _ => None,
    }
}

fn border_of_side(name: &str) -> Option<Logical>
    ensures some { IfSome result (λ property. name.now ≡ logical_name property) }
    ensures none { IfNone result (list_any (is_text name.now) (map border_of sides) ≡ false) }
{
    match name {
        "border-block-start" => Some(Logical::OfSide(Part::Border, Axis::Block, Edge::Start)),
        "border-block-end" => Some(Logical::OfSide(Part::Border, Axis::Block, Edge::End)),
        "border-inline-start" => Some(Logical::OfSide(Part::Border, Axis::Inline, Edge::Start)),
        "border-inline-end" => Some(Logical::OfSide(Part::Border, Axis::Inline, Edge::End)),
        _ => None,
    }
}

fn border_of_axis(name: &str) -> Option<Logical>
    ensures some { IfSome result (λ property. name.now ≡ logical_name property) }
    ensures none { IfNone result (list_any (is_text name.now) (map border_of axes) ≡ false) }
{
    match name {
        "border-block" => Some(Logical::OfAxis(Part::Border, Axis::Block)),
        "border-inline" => Some(Logical::OfAxis(Part::Border, Axis::Inline)),
        _ => None,
    }
}

fn border_part_of_side(name: &str) -> Option<Logical>
    ensures some { IfSome result (λ property. name.now ≡ logical_name property) }
    ensures none { IfNone result (list_any (is_text name.now) (flat_map border_parts_of sides) ≡ false) }
{
    let (part, axis, edge) = match name {
        "border-block-start-width" => (Part::BorderWidth, Axis::Block, Edge::Start),
        "border-block-start-style" => (Part::BorderStyle, Axis::Block, Edge::Start),
        "border-block-start-color" => (Part::BorderColor, Axis::Block, Edge::Start),
        "border-block-end-width" => (Part::BorderWidth, Axis::Block, Edge::End),
        "border-block-end-style" => (Part::BorderStyle, Axis::Block, Edge::End),
        "border-block-end-color" => (Part::BorderColor, Axis::Block, Edge::End),
        "border-inline-start-width" => (Part::BorderWidth, Axis::Inline, Edge::Start),
        "border-inline-start-style" => (Part::BorderStyle, Axis::Inline, Edge::Start),
        "border-inline-start-color" => (Part::BorderColor, Axis::Inline, Edge::Start),
        "border-inline-end-width" => (Part::BorderWidth, Axis::Inline, Edge::End),
        "border-inline-end-style" => (Part::BorderStyle, Axis::Inline, Edge::End),
        "border-inline-end-color" => (Part::BorderColor, Axis::Inline, Edge::End),
        _ => return None,
    };
    Some(Logical::OfSide(part, axis, edge))
}

fn border_part_of_axis(name: &str) -> Option<Logical>
    ensures some { IfSome result (λ property. name.now ≡ logical_name property) }
    ensures none { IfNone result (list_any (is_text name.now) (flat_map border_parts_of axes) ≡ false) }
{
    match name {
        "border-block-width" => Some(Logical::OfAxis(Part::BorderWidth, Axis::Block)),
        "border-block-style" => Some(Logical::OfAxis(Part::BorderStyle, Axis::Block)),
        "border-block-color" => Some(Logical::OfAxis(Part::BorderColor, Axis::Block)),
        "border-inline-width" => Some(Logical::OfAxis(Part::BorderWidth, Axis::Inline)),
        "border-inline-style" => Some(Logical::OfAxis(Part::BorderStyle, Axis::Inline)),
        "border-inline-color" => Some(Logical::OfAxis(Part::BorderColor, Axis::Inline)),
        _ => None,
    }
}

fn corner(name: &str) -> Option<Logical>
    ensures some { IfSome result (λ property. name.now ≡ logical_name property) }
    ensures none { IfNone result (list_any (is_text name.now) corners ≡ false) }
{
    match name {
        "border-start-start-radius" => Some(Logical::Corner(Edge::Start, Edge::Start)),
        "border-start-end-radius" => Some(Logical::Corner(Edge::Start, Edge::End)),
        "border-end-start-radius" => Some(Logical::Corner(Edge::End, Edge::Start)),
        "border-end-end-radius" => Some(Logical::Corner(Edge::End, Edge::End)),
        _ => None,
    }
}

fn size(name: &str) -> Option<Logical>
    ensures some { IfSome result (λ property. name.now ≡ logical_name property) }
    ensures none { IfNone result (list_any (is_text name.now) (flat_map sizes_of axes) ≡ false) }
{
    match name {
        "block-size" => Some(Logical::Size(Extent::Whole, Axis::Block)),
        "min-block-size" => Some(Logical::Size(Extent::Least, Axis::Block)),
        "max-block-size" => Some(Logical::Size(Extent::Greatest, Axis::Block)),
        "inline-size" => Some(Logical::Size(Extent::Whole, Axis::Inline)),
        "min-inline-size" => Some(Logical::Size(Extent::Least, Axis::Inline)),
        "max-inline-size" => Some(Logical::Size(Extent::Greatest, Axis::Inline)),
        _ => None,
    }
}

fn all_sides(name: &str) -> Option<Logical>
    ensures some { IfSome result (λ property. name.now ≡ logical_name property) }
    ensures none { IfNone result (list_any (is_text name.now) (codes "inset" ∷ []) ≡ false) }
{
    match name {
        "inset" => Some(Logical::AllSides),
        _ => None,
    }
}

/// Which logical property has this name, if one has. Takes the name in lower case.
pub fn logical_of(name: &str) -> Option<Logical>
    ensures some { IfSome result (λ property. name.now ≡ logical_name property) }
    ensures none { IfNone result (is_logical name.now ≡ false) }
{
    if let Some(property) = space_of_side(name) {
        return Some(property);
    }
    if let Some(property) = space_of_axis(name) {
        return Some(property);
    }
    if let Some(property) = border_part_of_side(name) {
        return Some(property);
    }
    if let Some(property) = border_part_of_axis(name) {
        return Some(property);
    }
    if let Some(property) = border_of_side(name) {
        return Some(property);
    }
    if let Some(property) = border_of_axis(name) {
        return Some(property);
    }
    if let Some(property) = corner(name) {
        return Some(property);
    }
    if let Some(property) = size(name) {
        return Some(property);
    }
    if let Some(property) = all_sides(name) {
        return Some(property);
    }
    None
}
