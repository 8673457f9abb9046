//! The rules at the front of a sheet: `@charset`, and imports (CSS Syntax 3, section 9; CSS Cascading 5, section 2).

ghost use Rattle.std.specs.Prelude.{◌≡◌, IfOk, IsTrue, None, Some};
ghost use Rattle.std.specs.Option.{option_to_list};
ghost use Rattle.css_rules.specs.Cuts.{Cut};
ghost use Rattle.css_rules.specs.Heads.{import_of, import_refusals, is_charset, is_import, names_utf8};
ghost use Rattle.css_rules.specs.Private.Roles.{role_in, role_behind, part_behind};
ghost use Rattle.css_rules.specs.Refusals.{first_refusal};
ghost use Rattle.css_rules.specs.RuleEnds.{ends_in_semicolon};

use crate::at_rule::{AtKeyword, behind_keyword, keyword_in};
use crate::parts::begins_at_rule;
use crate::reader::{Judged, first_place};
use crate::refusal::Refusal;
use css_components::{head_of, is_keyword, is_semicolon, is_string, trimmed};
use css_tokens::{Component, OutOfMemory};
use import_rules::{ImportRule, read_import};
use sheet_types::Import;
use std::alloc::Global;

/// How far the front of a sheet has been read.
#[derive(Clone, Copy, Debug)]
pub enum Part {
    /// Nothing has been read.
    Start,
    /// Imports may follow.
    Imports,
    /// A rule of another kind was read.
    Items,
}

/// What a rule is at its place in a sheet.
#[derive(Clone, Copy, Debug)]
pub enum Role {
    Charset,
    Import,
    Item,
}

/// Whether a semicolon ends a rule.
fn ends_in_semicolon(mark: &Option<Component>) -> bool
    ensures { result ≡ ends_in_semicolon mark.now }
{
    match mark {
        Some(mark) => is_semicolon(mark),
        None => false,
    }
}

/// Whether the components are the string `utf-8` alone, in any case of letters.
fn names_utf8(alloc: Global, components: &[Component]) -> Result<bool, OutOfMemory>
    ensures { IfOk result (λ names. names ≡ names_utf8 components.now) }
{
    match components {
        [string] if is_string(string) => is_keyword(alloc, head_of(string), "utf-8"),
        _ => Ok(false),
    }
}

/// Whether a rule is the `@charset` rule.
fn is_charset(
    alloc: Global,
    front: &[Component],
    mark: &Option<Component>,
) -> Result<bool, OutOfMemory>
    ensures { IfOk result (λ is. is ≡ is_charset (record { front = front.now; mark = mark.now })) }
{
    let rule = trimmed(front);
    if !begins_at_rule(rule) || !ends_in_semicolon(mark) {
        return Ok(false);
    }
    match keyword_in(alloc, rule)? {
        AtKeyword::Charset => names_utf8(alloc, behind_keyword(rule)),
        _ => Ok(false),
    }
}

/// Whether a rule begins with `@import`.
fn is_import(alloc: Global, front: &[Component]) -> Result<bool, OutOfMemory>
    ensures { IfOk result (λ is. is ≡ is_import front.now) }
{
    let rule = trimmed(front);
    if !begins_at_rule(rule) {
        return Ok(false);
    }
    match keyword_in(alloc, rule)? {
        AtKeyword::Import => Ok(true),
        _ => Ok(false),
    }
}

/// What a rule is that no `@charset` rule may be.
fn role_behind(alloc: Global, front: &[Component]) -> Result<Role, OutOfMemory>
    ensures { IfOk result (λ role. role ≡ role_behind front.now) }
{
    if is_import(alloc, front)? {
        Ok(Role::Import)
    } else {
        Ok(Role::Item)
    }
}

impl Part {
    /// What the next rule is.
    pub fn role(
        self,
        alloc: Global,
        front: &[Component],
        mark: &Option<Component>,
    ) -> Result<Role, OutOfMemory>
        ensures { IfOk result (λ role. role ≡ role_in self (record { front = front.now; mark = mark.now })) }
    {
        match self {
            Part::Start => {
                if is_charset(alloc, front, mark)? {
                    Ok(Role::Charset)
                } else {
                    role_behind(alloc, front)
                }
            }
            Part::Imports => role_behind(alloc, front),
            Part::Items => Ok(Role::Item),
        }
    }
}

impl Role {
    /// How far the front of a sheet has been read behind such a rule.
    pub fn behind(self) -> Part
        ensures { result ≡ part_behind self }
    {
        match self {
            Role::Charset | Role::Import => Part::Imports,
            Role::Item => Part::Items,
        }
    }
}

/// The import that a rule is which begins with `@import`.
pub fn read_import_rule<'a>(
    alloc: Global,
    front: &[Component<'a>],
    mark: &Option<Component<'a>>,
) -> Result<Judged<Option<Import<'a>>>, OutOfMemory>
    ensures refusal { IfOk result (λ read. read.refusal ≡ first_refusal (import_refusals (record { front = front.now; mark = mark.now }))) }
    ensures value { IfOk result (λ read. read.refusal ≡ None → import_of (record { front = front.now; mark = mark.now }) ≡ Some (option_to_list read.value)) }
{
    let rule = trimmed(front);
    let at = first_place(rule, 0);
    let read = if ends_in_semicolon(mark) {
        read_import(alloc, at, behind_keyword(rule))?
    } else {
        ImportRule::Unread
    };
    match read {
        ImportRule::Read(import) => Ok(Judged {
            value: Some(import),
            refusal: None,
        }),
        ImportRule::Waiting => Ok(Judged {
            value: None,
            refusal: Some(Refusal::unbuilt(at)),
        }),
        ImportRule::Unread => Ok(Judged {
            value: None,
            refusal: Some(Refusal::syntax(at)),
        }),
    }
}
