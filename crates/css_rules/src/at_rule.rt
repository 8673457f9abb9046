//! At-rules, told by their keywords and by what stands behind these.

ghost use Rattle.std.specs.Prelude.{◌≡◌, ◌||◌, IfOk, IsTrue, Option};
ghost use Rattle.std.specs.Option.{option_map};
ghost use Rattle.css_rules.specs.AtRules.{at_rule_of, behind_keyword, fits_prelude, grouped, is_one, keyword_in, keyword_named, with_block, without_block};
ghost use Rattle.css_components.specs.Components.{is_ident, is_string};
ghost use Rattle.css_rules.specs.RuleEnds.{begins_at_rule};
ghost use Rattle.media_tree.specs.Queries.{queries_reading};
ghost use Rattle.media_tree.specs.SupportsReading.{supports_reading};
ghost use Rattle.sheet_types.specs.declared.sheet.GroupCondition.TheVariants as conditions;

use css_components::{copied, head_of, is_ident, is_string, trimmed};
use css_tokens::{Component, List, OutOfMemory, name_of};
use media_tree::{MediaFault, read_queries, read_supports};
use sheet_types::{GroupCondition, PassedKind};
use std::alloc::Global;

/// The keyword of an at-rule (CSS Syntax 3, section 9).
#[derive(Clone, Copy, Debug)]
pub enum AtKeyword {
    Media,
    Supports,
    /// That of a rule that is passed on.
    PassedOn(PassedKind),
    Import,
    Charset,
    /// It waits for a later stage.
    Layer,
    /// Any other.
    Unknown,
}

/// What an at-rule is.
#[derive(Debug, Drop)]
pub enum AtRule<'a> {
    /// A group of rules under this condition.
    Group(GroupCondition<'a>),
    /// A rule that is passed on, and what stands between its keyword and its block.
    PassedOn(PassedKind, List<Component<'a>>),
    /// An import, which stands here too late.
    Import,
    /// A rule that waits for a later stage.
    Waiting,
    /// A rule of another name.
    Unknown,
    /// What stands there cannot be read.
    Unread,
}

impl AtKeyword {
    /// The at-keyword of a name in lower case.
    fn named(name: &str) -> AtKeyword
        ensures { result ≡ keyword_named name.now }
    {
        match name {
            "media" => AtKeyword::Media,
            "supports" => AtKeyword::Supports,
            "font-face" => AtKeyword::PassedOn(PassedKind::FontFace),
            "keyframes" => AtKeyword::PassedOn(PassedKind::Keyframes),
            "-webkit-keyframes" => AtKeyword::PassedOn(PassedKind::WebkitKeyframes),
            "-moz-keyframes" => AtKeyword::PassedOn(PassedKind::MozKeyframes),
            "page" => AtKeyword::PassedOn(PassedKind::Page),
            "counter-style" => AtKeyword::PassedOn(PassedKind::CounterStyle),
            "import" => AtKeyword::Import,
            "charset" => AtKeyword::Charset,
            "layer" => AtKeyword::Layer,
            _ => AtKeyword::Unknown,
        }
    }
}

/// The at-keyword that an at-rule begins with.
pub fn keyword_in(alloc: Global, rule: &[Component]) -> Result<AtKeyword, OutOfMemory>
    requires { IsTrue (begins_at_rule rule.now) }
    ensures { IfOk result (λ keyword. keyword ≡ keyword_in rule.now) }
{
    let [first, ..] = rule else {
        return Ok(AtKeyword::Unknown);
    };
    let name = name_of(alloc, head_of(first))?;
    let lower = name.as_str().to_ascii_lowercase(alloc)?;
    Ok(AtKeyword::named(lower.as_str()))
}

/// What stands behind the keyword that an at-rule begins with.
pub fn behind_keyword<'s, 'a>(rule: &'s [Component<'a>]) -> &'s [Component<'a>]
    ensures { result.now ≡ behind_keyword rule.now }
{
    match rule {
        [_, rest @ ..] => trimmed(rest),
        [] => rule,
    }
}

/// Whether the components are one identifier or string.
fn is_name(components: &[Component]) -> bool
    ensures { result ≡ is_one (λ c. is_ident c || is_string c) components.now }
{
    match components {
        [name] => is_ident(name) || is_string(name),
        _ => false,
    }
}

/// Whether the components are one identifier.
fn is_one_ident(components: &[Component]) -> bool
    ensures { result ≡ is_one is_ident components.now }
{
    match components {
        [name] => is_ident(name),
        _ => false,
    }
}

/// Whether a rule of this kind may have this prelude.
fn fits_prelude(kind: PassedKind, prelude: &[Component]) -> bool
    ensures { result ≡ fits_prelude kind prelude.now }
{
    match kind {
        PassedKind::FontFace | PassedKind::Page => true,
        PassedKind::Keyframes | PassedKind::WebkitKeyframes | PassedKind::MozKeyframes => {
            is_name(prelude)
        }
        PassedKind::CounterStyle => is_one_ident(prelude),
    }
}

/// The group under this media query list, where it is one.
fn media_group<'a>(alloc: Global, prelude: &[Component<'a>]) -> Result<AtRule<'a>, OutOfMemory>
    ensures { IfOk result (λ rule. rule ≡ grouped (option_map conditions.Media (queries_reading prelude.now))) }
{
    match read_queries(alloc, prelude) {
        Ok(queries) => Ok(AtRule::Group(GroupCondition::Media(queries))),
        Err(MediaFault::Syntax) => Ok(AtRule::Unread),
        Err(MediaFault::Memory) => Err(OutOfMemory),
    }
}

/// The group under this supports condition, where it is one.
fn supports_group<'a>(alloc: Global, prelude: &[Component<'a>]) -> Result<AtRule<'a>, OutOfMemory>
    ensures { IfOk result (λ rule. rule ≡ grouped (option_map conditions.Supports (supports_reading prelude.now))) }
{
    match read_supports(alloc, prelude) {
        Ok(condition) => Ok(AtRule::Group(GroupCondition::Supports(condition))),
        Err(MediaFault::Syntax) => Ok(AtRule::Unread),
        Err(MediaFault::Memory) => Err(OutOfMemory),
    }
}

/// The rule of this keyword, with this before its block.
fn with_block<'a>(
    alloc: Global,
    keyword: AtKeyword,
    prelude: &[Component<'a>],
) -> Result<AtRule<'a>, OutOfMemory>
    ensures { IfOk result (λ rule. rule ≡ with_block keyword prelude.now) }
{
    match keyword {
        AtKeyword::Media => media_group(alloc, prelude),
        AtKeyword::Supports => supports_group(alloc, prelude),
        AtKeyword::PassedOn(kind) if fits_prelude(kind, prelude) => {
            Ok(AtRule::PassedOn(kind, copied(alloc, prelude)?))
        }
        AtKeyword::PassedOn(_) => Ok(AtRule::Unread),
        AtKeyword::Import => Ok(AtRule::Import),
        AtKeyword::Layer => Ok(AtRule::Waiting),
        AtKeyword::Charset | AtKeyword::Unknown => Ok(AtRule::Unknown),
    }
}

/// The rule of this keyword, with no block.
fn without_block<'a>(keyword: AtKeyword) -> AtRule<'a>
    ensures { result ≡ without_block keyword }
{
    match keyword {
        AtKeyword::Media | AtKeyword::Supports | AtKeyword::PassedOn(_) => AtRule::Unread,
        AtKeyword::Import => AtRule::Import,
        AtKeyword::Layer => AtRule::Waiting,
        AtKeyword::Charset | AtKeyword::Unknown => AtRule::Unknown,
    }
}

/// The at-rule that begins with these components, and that a block ends or none.
pub fn at_rule_of<'a>(
    alloc: Global,
    rule: &[Component<'a>],
    has_block: bool,
) -> Result<AtRule<'a>, OutOfMemory>
    requires { IsTrue (begins_at_rule rule.now) }
    ensures { IfOk result (λ read. read ≡ at_rule_of rule.now has_block) }
{
    let keyword = keyword_in(alloc, rule)?;
    if has_block {
        with_block(alloc, keyword, behind_keyword(rule))
    } else {
        Ok(without_block(keyword))
    }
}
