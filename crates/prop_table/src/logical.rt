ghost use Rattle.std.specs.Prelude.{◌≡◌, ◌++◌, flat_map, map};
ghost use Rattle.std.specs.List.{list_any};
ghost use Rattle.css_tokens.specs.Trees.{is_text};
ghost use Rattle.prop_table.specs.LogicalProperties.{axes, border_of, border_parts_of, borders, corners, is_logical, is_split, sides, sizes_of, spaces_of};

fn is_space(name: &str) -> bool
    ensures { result ≡ list_any (is_text name.now) (flat_map spaces_of (sides ++ axes)) }
{
    matches!(
        name,
        "margin-block-start"
            | "margin-block-end"
            | "margin-inline-start"
            | "margin-inline-end"
            | "margin-block"
            | "margin-inline"
            | "inset-block-start"
            | "inset-block-end"
            | "inset-inline-start"
            | "inset-inline-end"
            | "inset-block"
            | "inset-inline"
            | "padding-block-start"
            | "padding-block-end"
            | "padding-inline-start"
            | "padding-inline-end"
            | "padding-block"
            | "padding-inline"
    )
}

fn is_size(name: &str) -> bool
    ensures { result ≡ list_any (is_text name.now) (flat_map sizes_of axes) }
{
    matches!(
        name,
        "block-size"
            | "min-block-size"
            | "max-block-size"
            | "inline-size"
            | "min-inline-size"
            | "max-inline-size"
    )
}

fn is_border_part(name: &str) -> bool
    ensures { result ≡ list_any (is_text name.now) (flat_map border_parts_of (sides ++ axes)) }
{
    matches!(
        name,
        "border-block-start-width"
            | "border-block-start-style"
            | "border-block-start-color"
            | "border-block-end-width"
            | "border-block-end-style"
            | "border-block-end-color"
            | "border-inline-start-width"
            | "border-inline-start-style"
            | "border-inline-start-color"
            | "border-inline-end-width"
            | "border-inline-end-style"
            | "border-inline-end-color"
            | "border-block-width"
            | "border-block-style"
            | "border-block-color"
            | "border-inline-width"
            | "border-inline-style"
            | "border-inline-color"
    )
}

fn is_whole_border(name: &str) -> bool
    ensures { result ≡ list_any (is_text name.now) (map border_of (sides ++ axes)) }
{
    matches!(
        name,
        "border-block-start"
            | "border-block-end"
            | "border-inline-start"
            | "border-inline-end"
            | "border-block"
            | "border-inline"
    )
}

fn is_corner(name: &str) -> bool
    ensures { result ≡ list_any (is_text name.now) corners }
{
    matches!(
        name,
        "border-start-start-radius"
            | "border-start-end-radius"
            | "border-end-start-radius"
            | "border-end-end-radius"
    )
}

fn is_border(name: &str) -> bool
    ensures { result ≡ list_any (is_text name.now) borders }
{
    is_border_part(name) || is_whole_border(name) || is_corner(name)
}

/// Whether it is a logical property, whatever its value (CSS Logical 1, section 4). It takes the name in lower case. `float`,
/// `clear` and `resize` are physical properties, some values of which are logical.
pub fn is_logical(name: &str) -> bool
    ensures { result ≡ is_logical name.now }
{
    is_space(name) || is_border(name) || is_size(name) || name == "inset"
}

/// Whether it is a logical property that shares the components of its value out to sides: the margin, the offset, the padding,
/// or the width, style or color of the border of an axis, or `inset` (CSS Logical 1, sections 4.2 to 4.5). It takes the
/// name in lower case.
pub fn is_split(name: &str) -> bool
    ensures { result ≡ is_split name.now }
{
    matches!(
        name,
        "margin-block"
            | "margin-inline"
            | "inset-block"
            | "inset-inline"
            | "padding-block"
            | "padding-inline"
            | "border-block-width"
            | "border-block-style"
            | "border-block-color"
            | "border-inline-width"
            | "border-inline-style"
            | "border-inline-color"
            | "inset"
    )
}
