//! What component values begin with, and tests of them (CSS Syntax 3, sections 4 and 5).

ghost use Rattle.std.specs.Prelude.{◌≡◌, IsTrue, IfOk};
ghost use Rattle.std.specs.List.{list_any};
ghost use Rattle.std.specs.Str.{str_to_ascii_lowercase};
ghost use Rattle.css_components.specs.Components.{head, is_at_keyword, is_braces, is_comma, is_gap, is_ident, is_keyword, is_semicolon, is_single, is_string, name_of, place_of};
ghost use Rattle.css_tokens.specs.Names.{has_name};

use css_tokens::{Component, Kind, OutOfMemory, Token, is_gap as is_gap_kind, name_of};
use std::alloc::Global;

/// The first token of a component.
pub fn head_of<'s, 'a>(component: &'s Component<'a>) -> &'s Token<'a>
    ensures { result.now ≡ head component.now }
{
    match component {
        Component::Single(token) => token,
        Component::Block(block) => &block.get().opening,
    }
}

/// Whether it is a token alone.
pub fn is_token(component: &Component) -> bool
    ensures { result ≡ is_single component.now }
{
    match component {
        Component::Single(_) => true,
        Component::Block(_) => false,
    }
}

/// How many bytes of the source stand before a component.
pub fn place_of(component: &Component) -> u32
    ensures { result ≡ place_of component.now }
{
    head_of(component).at
}

/// Whether it is white space or a comment.
pub fn is_gap(component: &Component) -> bool
    ensures { result ≡ is_gap component.now }
{
    is_token(component) && is_gap_kind(head_of(component).kind)
}

/// Whether it is a comma.
pub fn is_comma(component: &Component) -> bool
    ensures { result ≡ is_comma component.now }
{
    is_token(component) && matches!(head_of(component).kind, Kind::Comma)
}

/// Whether it is an identifier.
pub fn is_ident(component: &Component) -> bool
    ensures { result ≡ is_ident component.now }
{
    is_token(component) && matches!(head_of(component).kind, Kind::Ident)
}

/// Whether it is a string.
pub fn is_string(component: &Component) -> bool
    ensures { result ≡ is_string component.now }
{
    is_token(component) && matches!(head_of(component).kind, Kind::String)
}

/// Whether it is a semicolon.
pub fn is_semicolon(component: &Component) -> bool
    ensures { result ≡ is_semicolon component.now }
{
    is_token(component) && matches!(head_of(component).kind, Kind::Semicolon)
}

/// Whether the name of a token is a keyword, which is given in lower case, in any case of letters.
pub fn is_keyword(alloc: Global, token: &Token, keyword: &str) -> Result<bool, OutOfMemory>
    requires named { IsTrue (has_name token.now.kind) }
    requires lower { str_to_ascii_lowercase keyword.now ≡ keyword.now }
    ensures { IfOk result (λ is. is ≡ is_keyword keyword.now (name_of token.now)) }
{
    Ok(
        name_of(alloc, token)?
            .as_str()
            .eq_ignore_ascii_case(keyword),
    )
}

/// Whether a `{}` block stands among the components.
pub fn is_block_in(components: &[Component]) -> bool
    ensures { result ≡ list_any is_braces components.now }
{
    components.iter().any(is_braces)
}

/// Whether it is a `{}` block.
pub fn is_braces(component: &Component) -> bool
    ensures { result ≡ is_braces component.now }
{
    !is_token(component) && matches!(head_of(component).text.as_bytes(), [b'{'])
}

/// Whether it is an at-keyword.
pub fn is_at_keyword(component: &Component) -> bool
    ensures { result ≡ is_at_keyword component.now }
{
    is_token(component) && matches!(head_of(component).kind, Kind::At)
}
