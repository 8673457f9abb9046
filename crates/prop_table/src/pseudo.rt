ghost use Rattle.std.specs.Prelude.{◌≡◌};
ghost use Rattle.prop_table.specs.OldPseudos.{is_old_class, is_old_element, is_old_pseudo, name_before_argument};

/// The name of a pseudo-class before its argument, which begins with `(`.
fn name_before_argument(text: &str) -> &str
    ensures { result.now ≡ name_before_argument text.now }
{
    match text.split_once('(') {
        Some((name, _)) => name,
        None => text,
    }
}

fn is_old_class(name: &str) -> bool
    ensures { result ≡ is_old_class name.now }
{
    matches!(
        name,
        "root"
            | "first-child"
            | "last-child"
            | "first-of-type"
            | "last-of-type"
            | "only-child"
            | "only-of-type"
            | "empty"
            | "link"
            | "visited"
            | "active"
            | "hover"
            | "focus"
            | "target"
            | "enabled"
            | "disabled"
            | "checked"
            | "nth-child"
            | "nth-last-child"
            | "nth-of-type"
            | "nth-last-of-type"
            | "lang"
    )
}

fn is_old_element(name: &str) -> bool
    ensures { result ≡ is_old_element name.now }
{
    matches!(name, "first-line" | "first-letter" | "before" | "after")
}

/// Whether Selectors 3 has this pseudo-class (section 6.6) or pseudo-element (section 7). It takes the canonical text,
/// without colons, and looks at the name before a `(` alone.
pub fn is_old_pseudo(text: &str) -> bool
    ensures { result ≡ is_old_pseudo text.now }
{
    let name = name_before_argument(text);
    is_old_class(name) || is_old_element(name)
}
