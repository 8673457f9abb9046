//! The physical declarations that a declaration stands for (CSS Logical 1, section 4).

ghost use Rattle.std.specs.Prelude.{◌≡◌, ◌++◌, ◌∷◌, [], IfOk, OnOk};
ghost use Rattle.prop_table.specs.PhysicalProperties.{declares, physical, physical_value};
ghost use Rattle.prop_table.specs.Private.LogicalNames.{all_names, all_shares, axis_lowered, both_names, both_shares, lowered, shared_out};

use crate::property::{Axis, Edge, Logical, Part, logical_of};
use crate::side::{corner_at, part_at, size_at};
use crate::value::{is_mixed, parts_of, physical_value};
use crate::{Mode, Physical};
use css_tokens::{Component, List, OutOfMemory, Text, copy_all};
use std::alloc::Global;

/// Adds a declaration with a copy of the whole value.
fn push_whole<'a>(
    alloc: Global,
    name: &'static str,
    value: &[Component<'a>],
    out: &mut List<Physical<'a>>,
) -> Result<(), OutOfMemory>
    ensures { OnOk result (out.new ≡ out.old ++ declares name.now value.now ∷ []) }
{
    let value = copy_all(alloc, value)?;
    out.push(Physical {
        name: Text::lent(name),
        value,
    })?;
    Ok(())
}

/// Adds a declaration with a copy of one part of the value.
fn push_share<'a>(
    alloc: Global,
    name: &'static str,
    part: &Component<'a>,
    out: &mut List<Physical<'a>>,
) -> Result<(), OutOfMemory>
    ensures { OnOk result (out.new ≡ out.old ++ declares name.now (part.now ∷ []) ∷ []) }
{
    let copy = part.copy(alloc)?;
    let mut value = List::new(alloc);
    value.push(copy)?;
    out.push(Physical {
        name: Text::lent(name),
        value,
    })?;
    Ok(())
}

fn one<'a>(
    alloc: Global,
    name: &'static str,
    value: &[Component<'a>],
) -> Result<List<Physical<'a>>, OutOfMemory>
    ensures { IfOk result (λ list. list ≡ declares name.now value.now ∷ []) }
{
    let mut out = List::new(alloc);
    push_whole(alloc, name, value, &mut out)?;
    Ok(out)
}

/// The declarations of both sides of an axis, each with the whole value.
fn whole_borders<'a>(
    alloc: Global,
    axis: Axis,
    value: &[Component<'a>],
    mode: Mode,
) -> Result<List<Physical<'a>>, OutOfMemory>
    ensures { IfOk result (λ list. list ≡ axis_lowered mode Part.Border axis value.now) }
{
    let mut out = List::new(alloc);
    push_whole(
        alloc,
        part_at(mode, Part::Border, axis, Edge::Start),
        value,
        &mut out,
    )?;
    push_whole(
        alloc,
        part_at(mode, Part::Border, axis, Edge::End),
        value,
        &mut out,
    )?;
    Ok(out)
}

/// Each of two properties with its share.
fn two_shares<'a>(
    alloc: Global,
    start: &'static str,
    end: &'static str,
    parts: &[Component<'a>],
) -> Result<List<Physical<'a>>, OutOfMemory>
    ensures { IfOk result (λ list. list ≡ shared_out (start.now ∷ end.now ∷ []) (both_shares parts.now)) }
{
    let mut out = List::new(alloc);
    if is_mixed(parts) {
        return Ok(out);
    }
    let (first, second) = match parts {
        [both] => (both, both),
        [first, second] => (first, second),
        _ => return Ok(out),
    };
    push_share(alloc, start, first, &mut out)?;
    push_share(alloc, end, second, &mut out)?;
    Ok(out)
}

/// Each of these parts for its side: the top, the right, the bottom and the left.
fn push_all<'a>(
    alloc: Global,
    top: &Component<'a>,
    right: &Component<'a>,
    bottom: &Component<'a>,
    left: &Component<'a>,
) -> Result<List<Physical<'a>>, OutOfMemory>
    ensures { IfOk result (λ list. list ≡ shared_out all_names (top.now ∷ right.now ∷ bottom.now ∷ left.now ∷ [])) }
{
    let mut out = List::new(alloc);
    push_share(alloc, "top", top, &mut out)?;
    push_share(alloc, "right", right, &mut out)?;
    push_share(alloc, "bottom", bottom, &mut out)?;
    push_share(alloc, "left", left, &mut out)?;
    Ok(out)
}

/// The offset of each side with its share.
fn four_shares<'a>(
    alloc: Global,
    parts: &[Component<'a>],
) -> Result<List<Physical<'a>>, OutOfMemory>
    ensures { IfOk result (λ list. list ≡ shared_out all_names (all_shares parts.now)) }
{
    if is_mixed(parts) {
        return Ok(List::new(alloc));
    }
    match parts {
        [all] => push_all(alloc, all, all, all, all),
        [vertical, horizontal] => push_all(alloc, vertical, horizontal, vertical, horizontal),
        [top, horizontal, bottom] => push_all(alloc, top, horizontal, bottom, horizontal),
        [top, right, bottom, left] => push_all(alloc, top, right, bottom, left),
        _ => Ok(List::new(alloc)),
    }
}

/// The declarations of both sides of an axis.
fn of_axis<'a>(
    alloc: Global,
    part: Part,
    axis: Axis,
    value: &[Component<'a>],
    mode: Mode,
) -> Result<List<Physical<'a>>, OutOfMemory>
    ensures { IfOk result (λ list. list ≡ axis_lowered mode part axis value.now) }
{
    if matches!(part, Part::Border) {
        return whole_borders(alloc, axis, value, mode);
    }
    let parts = parts_of(alloc, value)?;
    let start = part_at(mode, part, axis, Edge::Start);
    let end = part_at(mode, part, axis, Edge::End);
    two_shares(alloc, start, end, parts.as_slice())
}

/// The declarations that one of a logical property stands for.
fn of_logical<'a>(
    alloc: Global,
    property: Logical,
    value: &[Component<'a>],
    mode: Mode,
) -> Result<List<Physical<'a>>, OutOfMemory>
    ensures { IfOk result (λ list. list ≡ lowered mode property value.now) }
{
    match property {
        Logical::OfSide(part, axis, edge) => one(alloc, part_at(mode, part, axis, edge), value),
        Logical::OfAxis(part, axis) => of_axis(alloc, part, axis, value, mode),
        Logical::Corner(block, inline) => one(alloc, corner_at(mode, block, inline), value),
        Logical::Size(extent, axis) => one(alloc, size_at(mode, extent, axis), value),
        Logical::AllSides => {
            let parts = parts_of(alloc, value)?;
            four_shares(alloc, parts.as_slice())
        }
    }
}

/// The declaration itself, but for a keyword of the flow.
fn itself<'a>(
    alloc: Global,
    name: &str,
    value: &[Component<'a>],
    mode: Mode,
) -> Result<List<Physical<'a>>, OutOfMemory>
    ensures { IfOk result (λ list. list ≡ declares name.now (physical_value mode name.now value.now) ∷ []) }
{
    let value = physical_value(alloc, name, value, mode)?;
    let mut out = List::new(alloc);
    out.push(Physical {
        name: Text::owned(name.to_owned(alloc)?),
        value,
    })?;
    Ok(out)
}

/// The physical declarations that a declaration stands for in a mode, in the order in which they are made (CSS Logical 1, section
/// 4; the sides are those of CSS Writing Modes 4, section 6.4). It takes the name in lower case. A property that is not
/// logical gives itself, and `float`, `clear` and `resize` a keyword of the flow alone as the physical one in its place. A
/// property that shares out its value gives none where the number of parts is wrong, or where one of two or more is
/// `initial`, `inherit`, `unset` or `revert`. It refuses nothing but want of memory.
pub fn physical<'a>(
    alloc: Global,
    name: &str,
    value: &[Component<'a>],
    mode: Mode,
) -> Result<List<Physical<'a>>, OutOfMemory>
    ensures { IfOk result (λ list. list ≡ physical mode name.now value.now) }
{
    match logical_of(name) {
        Some(property) => of_logical(alloc, property, value, mode),
        None => itself(alloc, name, value, mode),
    }
}
