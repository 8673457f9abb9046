//! Copies of what clauses and queries hold.

ghost use Rattle.std.specs.Prelude.{◌≡◌, ◌++◌, OnOk, IfOk};
ghost use Rattle.media_clauses.specs.Clauses.{bound_feature, range_prefix};

use crate::{Fact, Literal};
use css_tokens::{List, OutOfMemory, Text};
use media_spelling::{Bound, Feature, Relation};
use std::alloc::Global;

pub fn copied_text<'a>(alloc: Global, text: &Text) -> Result<Text<'a>, OutOfMemory>
    ensures { IfOk result (λ copy. copy ≡ text.now) }
{
    Ok(Text::owned(text.as_str().to_owned(alloc)?))
}

pub fn copied_option<'a>(
    alloc: Global,
    text: &Option<Text>,
) -> Result<Option<Text<'a>>, OutOfMemory>
    ensures { IfOk result (λ copy. copy ≡ text.now) }
{
    match text {
        None => Ok(None),
        Some(text) => Ok(Some(copied_text(alloc, text)?)),
    }
}

pub fn copied_feature<'a>(alloc: Global, feature: &Feature) -> Result<Feature<'a>, OutOfMemory>
    ensures { IfOk result (λ copy. copy ≡ feature.now) }
{
    let name = copied_text(alloc, &feature.name)?;
    let value = copied_option(alloc, &feature.value)?;
    Ok(Feature { name, value })
}

fn copied_fact<'a>(alloc: Global, fact: &Fact) -> Result<Fact<'a>, OutOfMemory>
    ensures { IfOk result (λ copy. copy ≡ fact.now) }
{
    match fact {
        Fact::Media(media) => Ok(Fact::Media(copied_text(alloc, media)?)),
        Fact::Feature(feature) => Ok(Fact::Feature(copied_feature(alloc, feature)?)),
    }
}

fn copied_literal<'a>(alloc: Global, literal: &Literal) -> Result<Literal<'a>, OutOfMemory>
    ensures { IfOk result (λ copy. copy ≡ literal.now) }
{
    let fact = copied_fact(alloc, &literal.fact)?;
    Ok(Literal {
        positive: literal.positive,
        fact,
    })
}

/// Puts copies of literals behind others.
pub fn push_literals<'a>(
    alloc: Global,
    literals: &[Literal],
    out: &mut List<Literal<'a>>,
) -> Result<(), OutOfMemory>
    ensures { OnOk result (out.new ≡ out.old ++ literals.now) }
{
    for literal in literals {
        let copy = copied_literal(alloc, literal)?;
        out.push(copy)?;
    }
    Ok(())
}

fn range_prefix(relation: Relation) -> &'static str
    ensures { result.now ≡ range_prefix relation }
{
    match relation {
        Relation::GreaterEqual | Relation::Less => "min-",
        Relation::LessEqual | Relation::Greater => "max-",
        Relation::Equal => "",
    }
}

fn name_behind<'a>(alloc: Global, prefix: &str, name: &Text) -> Result<Text<'a>, OutOfMemory>
    ensures { IfOk result (λ text. text ≡ prefix.now ++ name.now) }
{
    let mut text = prefix.to_owned(alloc)?;
    text.push_str(name.as_str())?;
    Ok(Text::owned(text))
}

/// The feature in the plain context that tells a bound of the feature of this name.
pub fn bound_feature<'a>(
    alloc: Global,
    name: &Text,
    bound: &Bound,
) -> Result<Feature<'a>, OutOfMemory>
    ensures { IfOk result (λ feature. feature ≡ bound_feature name.now bound.now) }
{
    let prefixed = name_behind(alloc, range_prefix(bound.relation), name)?;
    let value = copied_text(alloc, &bound.value)?;
    Ok(Feature {
        name: prefixed,
        value: Some(value),
    })
}
