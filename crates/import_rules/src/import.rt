ghost use Rattle.std.specs.Prelude.{◌≡◌, IfOk, None, Some, if◌then◌else◌};
ghost use Rattle.std.specs.Option.{option_map};
ghost use Rattle.std.specs.Str.{str_to_ascii_lowercase};
ghost use Rattle.css_components.specs.Components.{inside};
ghost use Rattle.media_tree.specs.Queries.{queries_reading};
ghost use Rattle.media_tree.specs.SupportsReading.{supports_inside};
ghost use Rattle.import_rules.specs.Imports.{begins_layer, conditioned, import_reading, imported, is_function, is_url, lone_string, target_of};

use css_components::{head_of, is_ident, is_keyword, is_string, is_token, trimmed, trimmed_start};
use css_tokens::{Component, Kind, OutOfMemory, Text, name_of};
use media_spelling::Supports;
use media_tree::{MediaFault, read_queries, read_supports_inside};
use sheet_types::Import;
use std::alloc::Global;

/// What stands between `@import` and its semicolon.
#[derive(Debug, Drop)]
pub enum ImportRule<'a> {
    Read(Import<'a>),
    /// It names a layer, which waits for a later stage.
    Waiting,
    /// It cannot be read.
    Unread,
}

/// Whether it is a Url.
fn is_url(component: &Component) -> bool
    ensures { result ≡ is_url component.now }
{
    is_token(component) && matches!(head_of(component).kind, Kind::Url)
}

/// What stands in a component where it is a function of this name, which is given in lower case.
fn inside_function<'s, 'a>(
    alloc: Global,
    component: &'s Component<'a>,
    name: &str,
) -> Result<Option<&'s [Component<'a>]>, OutOfMemory>
    requires lower { str_to_ascii_lowercase name.now ≡ name.now }
    ensures { IfOk result (λ found. option_map (λ items. items.now) found ≡ (if is_function name.now component.now then Some (inside component.now) else None)) }
{
    let Component::Block(block) = component else {
        return Ok(None);
    };
    let block = block.get();
    if matches!(block.opening.kind, Kind::Function) && is_keyword(alloc, &block.opening, name)? {
        Ok(Some(block.items.as_slice()))
    } else {
        Ok(None)
    }
}

/// The content of a string that stands alone.
fn lone_string<'a>(
    alloc: Global,
    components: &[Component<'a>],
) -> Result<Option<Text<'a>>, OutOfMemory>
    ensures { IfOk result (λ found. found ≡ lone_string components.now) }
{
    match components {
        [string] if is_string(string) => Ok(Some(name_of(alloc, head_of(string))?)),
        _ => Ok(None),
    }
}

/// The address that an import names.
fn target_of<'a>(alloc: Global, component: &Component<'a>) -> Result<Option<Text<'a>>, OutOfMemory>
    ensures { IfOk result (λ found. found ≡ target_of component.now) }
{
    if is_string(component) || is_url(component) {
        return Ok(Some(name_of(alloc, head_of(component))?));
    }
    match inside_function(alloc, component, "url")? {
        Some(inside) => lone_string(alloc, trimmed(inside)),
        None => Ok(None),
    }
}

/// Whether components begin with the layer of an import.
fn begins_layer(alloc: Global, components: &[Component]) -> Result<bool, OutOfMemory>
    ensures { IfOk result (λ begins. begins ≡ begins_layer components.now) }
{
    let [first, ..] = components else {
        return Ok(false);
    };
    if is_ident(first) {
        is_keyword(alloc, head_of(first), "layer")
    } else {
        Ok(inside_function(alloc, first, "layer")?.is_some())
    }
}

/// The import of this target under these conditions.
fn imported<'a>(
    alloc: Global,
    at: u32,
    target: Text<'a>,
    supports: Option<Supports<'a>>,
    media: &[Component<'a>],
) -> Result<ImportRule<'a>, OutOfMemory>
    ensures { IfOk result (λ rule. rule ≡ imported at target.entry (Some supports.entry) (queries_reading media.now)) }
{
    match read_queries(alloc, media) {
        Ok(media) => Ok(ImportRule::Read(Import {
            target,
            supports,
            media,
            at,
        })),
        Err(MediaFault::Syntax) => Ok(ImportRule::Unread),
        Err(MediaFault::Memory) => Err(OutOfMemory),
    }
}

/// The import of this target, with what stands in `supports(` and what stands behind it.
fn supported<'a>(
    alloc: Global,
    at: u32,
    target: Text<'a>,
    inside: &[Component<'a>],
    media: &[Component<'a>],
) -> Result<ImportRule<'a>, OutOfMemory>
    ensures { IfOk result (λ rule. rule ≡ imported at target.entry (option_map Some (supports_inside inside.now)) (queries_reading media.now)) }
{
    match read_supports_inside(alloc, inside) {
        Ok(supports) => imported(alloc, at, target, Some(supports), media),
        Err(MediaFault::Syntax) => Ok(ImportRule::Unread),
        Err(MediaFault::Memory) => Err(OutOfMemory),
    }
}

/// The import of this target, with its conditions.
fn conditioned<'a>(
    alloc: Global,
    at: u32,
    target: Text<'a>,
    rest: &[Component<'a>],
) -> Result<ImportRule<'a>, OutOfMemory>
    ensures { IfOk result (λ rule. rule ≡ conditioned at target.entry rest.now) }
{
    let [first, media @ ..] = rest else {
        return imported(alloc, at, target, None, rest);
    };
    match inside_function(alloc, first, "supports")? {
        Some(inside) => supported(alloc, at, target, inside, media),
        None => imported(alloc, at, target, None, rest),
    }
}

/// Reads what stands between `@import` and its semicolon, without white space and comments at both ends (CSS Cascading 5,
/// section 2): a target, perhaps `supports(..)`, and a media query list. The place is that of the rule in bytes of the source.
/// An import into a layer is `Waiting`, and what spells no import is `Unread`.
pub fn read_import<'a>(
    alloc: Global,
    at: u32,
    prelude: &[Component<'a>],
) -> Result<ImportRule<'a>, OutOfMemory>
    ensures { IfOk result (λ rule. rule ≡ import_reading at prelude.now) }
{
    let [first, rest @ ..] = prelude else {
        return Ok(ImportRule::Unread);
    };
    let Some(target) = target_of(alloc, first)? else {
        return Ok(ImportRule::Unread);
    };
    let rest = trimmed_start(rest);
    if begins_layer(alloc, rest)? {
        return Ok(ImportRule::Waiting);
    }
    conditioned(alloc, at, target, rest)
}
