ghost use Rattle.std.specs.Char.{is_ascii};
ghost use Rattle.std.specs.List.{list_all};
ghost use Rattle.std.specs.Prelude.{◌≡◌, IsTrue};
ghost use Rattle.target_check.specs.Targets.{is_axis, is_flow_value, is_lone_keyword, is_old_declaration, is_old_property, is_side, is_the_keyword};

use css_components::trimmed;
use css_rules::Declaration;
use css_tokens::{Component, Kind, is_keyword};
use prop_table::is_logical;

/// Whether a component is this keyword.
fn is_the_keyword(component: &Component, keyword: &str) -> bool
    requires { IsTrue (list_all is_ascii keyword.now) }
    ensures { result ≡ is_the_keyword keyword.now component.now }
{
    match component {
        Component::Single(token) => match token.kind {
            Kind::Ident => is_keyword(token, keyword),
            _ => false,
        },
        Component::Block(_) => false,
    }
}

/// Whether a value is this keyword alone.
fn is_lone_keyword(value: &[Component], keyword: &str) -> bool
    requires { IsTrue (list_all is_ascii keyword.now) }
    ensures { result ≡ is_lone_keyword keyword.now value.now }
{
    match trimmed(value) {
        [word] => is_the_keyword(word, keyword),
        _ => false,
    }
}

fn is_side(value: &[Component]) -> bool
    ensures { result ≡ is_side value.now }
{
    is_lone_keyword(value, "inline-start") || is_lone_keyword(value, "inline-end")
}

fn is_axis(value: &[Component]) -> bool
    ensures { result ≡ is_axis value.now }
{
    is_lone_keyword(value, "inline") || is_lone_keyword(value, "block")
}

/// Whether the value of a property of this name is a side or an axis of the flow of the text.
fn is_flow_value(name: &str, value: &[Component]) -> bool
    ensures { result ≡ is_flow_value name.now value.now }
{
    match name {
        "float" | "clear" => is_side(value),
        "resize" => is_axis(value),
        _ => false,
    }
}

/// Whether older browsers know a property of this name: it is not `composes`, and no logical property.
fn is_old_property(name: &str) -> bool
    ensures { result ≡ is_old_property name.now }
{
    name != "composes" && !is_logical(name)
}

/// Whether older browsers know the declaration: they know its property, and its value names no side or axis of the flow of the
/// text.
pub fn is_old_declaration(declaration: &Declaration) -> bool
    ensures { result ≡ is_old_declaration declaration.now }
{
    let name = declaration.name.as_str();
    is_old_property(name) && !is_flow_value(name, declaration.value.as_slice())
}
