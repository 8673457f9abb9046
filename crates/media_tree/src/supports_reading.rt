//! Supports conditions, read from component values (Conditional Rules 3, section 6).

ghost use Rattle.media_tree.specs.Conditions.{condition_of, solid};
ghost use Rattle.media_tree.specs.Faults.{FaultIs};
ghost use Rattle.media_tree.specs.Private.Readings.{finished};
ghost use Rattle.media_tree.specs.SupportsReading.{block_sign, declaration_from, declaration_of, declared, declared_by, declared_from, is_barred, is_braces, is_custom, is_own_value, is_plain_value, makes, may_be_value, name_of, property_name, sign_of, supports_inside, supports_reading};
ghost use Rattle.std.specs.List.{list_any};
ghost use Rattle.std.specs.Option.{option_or};
ghost use Rattle.std.specs.Prelude.{◌≡◌, map, IfOk, IfErr, Some};

use crate::fault::MediaFault;
use crate::mark::{Mark, lowered, mark_of, trimmed, trimmed_start};
use crate::reading::{Reading, step};
use crate::sign::{Sign, token_sign, within};
use css_tokens::{Block, Boxed, Component, Kind, List, OutOfMemory, Text, copy_all};
use media_spelling::Supports;
use std::alloc::Global;

/// The name of a component that is an Ident.
fn name_of<'a>(alloc: Global, component: &Component<'a>) -> Result<Option<Text<'a>>, OutOfMemory>
    ensures { IfOk result (λ name. name ≡ name_of component.now) }
{
    match component {
        Component::Single(token) => match token.kind {
            Kind::Ident => Ok(Some(css_tokens::name_of(alloc, token)?)),
            _ => Ok(None),
        },
        Component::Block(_) => Ok(None),
    }
}

/// Whether a name is that of a custom property (CSS Variables 1, section 2).
fn is_custom(name: &str) -> bool
    ensures { result ≡ is_custom name.now }
{
    name.as_bytes().starts_with(b"--")
}

/// The name of a property as it is kept.
fn property_name<'a>(alloc: Global, name: Text<'a>) -> Result<Text<'a>, OutOfMemory>
    ensures { IfOk result (λ text. text ≡ property_name name.entry) }
{
    if is_custom(name.as_str()) {
        Ok(name)
    } else {
        lowered(alloc, name)
    }
}

fn is_barred(component: &Component) -> bool
    ensures { result ≡ is_barred component.now }
{
    matches!(mark_of(component), Mark::Bang | Mark::Semicolon)
}

fn is_braces(component: &Component) -> bool
    ensures { result ≡ is_braces component.now }
{
    matches!(mark_of(component), Mark::Braces)
}

fn has_braces(components: &[Component]) -> bool
    ensures { result ≡ list_any is_braces components.now }
{
    components.iter().any(is_braces)
}

fn has_barred(components: &[Component]) -> bool
    ensures { result ≡ list_any is_barred components.now }
{
    components.iter().any(is_barred)
}

/// Whether there is something, and no `{}` block outside other blocks.
fn is_plain_value(value: &[Component]) -> bool
    ensures { result ≡ is_plain_value value.now }
{
    if value.is_empty() {
        false
    } else {
        !has_braces(value)
    }
}

fn is_own_value(custom: bool, value: &[Component]) -> bool
    ensures { result ≡ is_own_value custom value.now }
{
    if custom { true } else { is_plain_value(value) }
}

/// Whether these components may be the value of a property.
fn may_be_value(custom: bool, value: &[Component]) -> bool
    ensures { result ≡ may_be_value custom value.now }
{
    if has_barred(value) {
        false
    } else {
        is_own_value(custom, value)
    }
}

fn declared<'a>(
    alloc: Global,
    name: Text<'a>,
    value: &[Component<'a>],
) -> Result<Option<Supports<'a>>, OutOfMemory>
    ensures { IfOk result (λ s. s ≡ declared name.entry value.now) }
{
    if may_be_value(is_custom(name.as_str()), value) {
        let property = property_name(alloc, name)?;
        Ok(Some(Supports::Declared(property, copy_all(alloc, value)?)))
    } else {
        Ok(None)
    }
}

/// The declaration of this property, from the colon on.
fn declared_from<'a>(
    alloc: Global,
    name: Text<'a>,
    components: &[Component<'a>],
) -> Result<Option<Supports<'a>>, OutOfMemory>
    ensures { IfOk result (λ s. s ≡ declared_from name.entry components.now) }
{
    let [colon, value @ ..] = components else {
        return Ok(None);
    };
    if matches!(mark_of(colon), Mark::Colon) {
        declared(alloc, name, trimmed(value))
    } else {
        Ok(None)
    }
}

fn declared_by<'a>(
    alloc: Global,
    name: Option<Text<'a>>,
    components: &[Component<'a>],
) -> Result<Option<Supports<'a>>, OutOfMemory>
    ensures { IfOk result (λ s. s ≡ declared_by name.entry components.now) }
{
    match name {
        Some(name) => declared_from(alloc, name, trimmed_start(components)),
        None => Ok(None),
    }
}

fn declaration_from<'a>(
    alloc: Global,
    components: &[Component<'a>],
) -> Result<Option<Supports<'a>>, OutOfMemory>
    ensures { IfOk result (λ s. s ≡ declaration_from components.now) }
{
    let [first, rest @ ..] = components else {
        return Ok(None);
    };
    declared_by(alloc, name_of(alloc, first)?, rest)
}

/// The declaration that these components are, where they are one.
fn declaration_of<'a>(
    alloc: Global,
    components: &[Component<'a>],
) -> Result<Option<Supports<'a>>, OutOfMemory>
    ensures { IfOk result (λ s. s ≡ declaration_of components.now) }
{
    declaration_from(alloc, trimmed_start(components))
}

/// The condition, where it may end here.
fn finished<'a>(
    alloc: Global,
    reading: Reading<Supports<'a>>,
) -> Result<Option<Supports<'a>>, OutOfMemory>
    ensures { IfOk result (λ c. c ≡ finished makes reading.entry) }
{
    match reading {
        Reading::Lone(condition) => Ok(Some(condition)),
        Reading::Negation(condition) => Ok(Some(Supports::Not(Boxed::new(alloc, condition)?))),
        Reading::AndRow(list) => Ok(Some(Supports::And(list))),
        Reading::OrRow(list) => Ok(Some(Supports::Or(list))),
        _ => Ok(None),
    }
}

/// What stands in parentheses: the condition, where it is one, and else the declaration.
fn inside_of<'a>(
    alloc: Global,
    condition: Option<Supports<'a>>,
    components: &[Component<'a>],
) -> Result<Option<Supports<'a>>, OutOfMemory>
    ensures { IfOk result (λ c. c ≡ option_or condition.entry (declaration_of components.now)) }
{
    match condition {
        Some(condition) => Ok(Some(condition)),
        None => declaration_of(alloc, components),
    }
}

#[cycle(supports_reads)]
#[tactic(auto, using(crate::proofs::SignEquations::supports_signs))]
fn sign_of<'a>(
    alloc: Global,
    component: &Component<'a>,
) -> Result<Sign<'a, Supports<'a>>, OutOfMemory>
    ensures { IfOk result (λ w. w ≡ sign_of component.now) }
{
    match component {
        Component::Single(token) => token_sign(alloc, token),
        Component::Block(block) => block_sign(alloc, block.get()),
    }
}

#[cycle(supports_reads)]
fn block_sign<'a>(alloc: Global, block: &Block<'a>) -> Result<Sign<'a, Supports<'a>>, OutOfMemory>
    ensures { IfOk result (λ w. w ≡ block_sign block.now (map sign_of block.now.items)) }
{
    match block.opening.kind {
        Kind::Function => Ok(Sign::Within(Supports::Function(block.opening.at))),
        Kind::Open if block.opening.text == "(" => {
            let condition = condition_in(alloc, block.items.as_slice())?;
            Ok(within(inside_of(alloc, condition, block.items.as_slice())?))
        }
        _ => Ok(Sign::Other),
    }
}

/// The condition that components spell, where they spell one.
#[cycle(supports_reads)]
fn condition_in<'a>(
    alloc: Global,
    components: &[Component<'a>],
) -> Result<Option<Supports<'a>>, OutOfMemory>
    ensures { IfOk result (λ c. c ≡ condition_of makes (solid (map sign_of components.now))) }
{
    let mut reading = Reading::Begin;
    for component in components {
        let sign = sign_of(alloc, component)?;
        reading = step(alloc, reading, sign)?;
    }
    finished(alloc, reading)
}

/// Reads a supports condition (Conditional Rules 3, section 6). Component values that spell none are refused. A function is
/// read as one, whatever it is.
pub fn read_supports<'a>(
    alloc: Global,
    prelude: &[Component<'a>],
) -> Result<Supports<'a>, MediaFault>
    ensures found { IfOk result (λ s. supports_reading prelude.now ≡ Some s) }
    ensures fault { IfErr result (λ e. FaultIs e (supports_reading prelude.now)) }
{
    match condition_in(alloc, prelude)? {
        Some(condition) => Ok(condition),
        None => Err(MediaFault::Syntax),
    }
}

/// Reads what stands in parentheses: a supports condition, or else one declaration (Conditional Rules 3, section 6). Component
/// values that spell neither are refused.
pub fn read_supports_inside<'a>(
    alloc: Global,
    inside: &[Component<'a>],
) -> Result<Supports<'a>, MediaFault>
    ensures found { IfOk result (λ s. supports_inside inside.now ≡ Some s) }
    ensures fault { IfErr result (λ e. FaultIs e (supports_inside inside.now)) }
{
    let condition = condition_in(alloc, inside)?;
    match inside_of(alloc, condition, inside)? {
        Some(condition) => Ok(condition),
        None => Err(MediaFault::Syntax),
    }
}
