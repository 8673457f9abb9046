//! Sheets built from components that come one after another.

ghost use Rattle.std.specs.Prelude.{◌≡◌, ◌++◌, ◌∷◌, [], List as the_list, IfOk, IfErr, OnOk, OnErr, Some};
ghost use Rattle.std.specs.Option.{option_copied};
ghost use Rattle.css_tokens.specs.declared.component.Component.{Component as the_component};
ghost use Rattle.css_rules.specs.declared.sheet_builder.Start.TheVariants.{Nothing};
ghost use Rattle.css_rules.specs.Cuts.{Cut};
ghost use Rattle.css_rules.specs.Refusals.{first_refusal};
ghost use Rattle.css_rules.specs.SheetBuilding.{HasRead, HasTaken};
ghost use Rattle.css_rules.specs.Sheets.{sheet_of, sheet_refusals, IsNamed, IsLeast};
ghost use Rattle.css_rules.specs.Private.Adding.{HasAdded, HasAddedImport, HasAddedItem};
ghost use Rattle.css_rules.specs.Private.Starts.{ends_begun, start_with};

use crate::first_law::the_first_refusal_is_named;
use crate::head::{Part, Role, read_import_rule};
use crate::reader::{Judged, RuleFault, fault_of, push_some};
use crate::refusal::{Refusal, sooner_of};
use crate::rules::read_rule;
use css_components::{is_at_keyword, is_braces, is_gap, is_semicolon};
use css_tokens::{Component, List, OutOfMemory};
use sheet_types::{Import, Item, Sheet};
use std::alloc::Global;

/// How a rule begins, as far as it has come.
#[derive(Clone, Copy, Debug)]
enum Start {
    /// With nothing, or white space and comments alone.
    Nothing,
    /// With an at-keyword.
    AtRule,
    /// With anything else.
    Other,
}

impl Start {
    /// Whether a component ends a rule that begins so.
    fn is_ended_by(self, component: &Component) -> bool
        ensures { result ≡ ends_begun self component.now }
    {
        match self {
            Start::AtRule => is_braces(component) || is_semicolon(component),
            Start::Nothing | Start::Other => is_braces(component),
        }
    }

    /// How the rule begins with one more component.
    fn with(self, component: &Component) -> Start
        ensures { result ≡ start_with self component.now }
    {
        match self {
            Start::Nothing => {
                if is_gap(component) {
                    Start::Nothing
                } else if is_at_keyword(component) {
                    Start::AtRule
                } else {
                    Start::Other
                }
            }
            Start::AtRule => Start::AtRule,
            Start::Other => Start::Other,
        }
    }
}

/// Builds a sheet from the components at its top, taken one after another (CSS Syntax 3, section 9).
/// It keeps the components of the rule alone that is being read. Contracts say by `HasTaken` which components it has taken.
#[derive(Debug, Drop)]
pub struct SheetBuilder<'a> {
    alloc: Global,
    /// What has come of the rule that is being read.
    current: List<Component<'a>>,
    /// How that rule begins.
    start: Start,
    /// How far the front of the sheet has been read.
    part: Part,
    /// What the rules before it are read as. Where one is refused, they mean nothing.
    imports: List<Import<'a>>,
    items: List<Item<'a>>,
    /// What the rules before it are refused for.
    refusal: Option<Refusal>,
}

impl<'a> SheetBuilder<'a> {
    /// A builder that has taken nothing. Takes no memory.
    pub fn new(alloc: Global) -> SheetBuilder<'a>
        ensures { HasTaken result [] }
    {
        SheetBuilder {
            alloc,
            current: List::new(alloc),
            start: Start::Nothing,
            part: Part::Start,
            imports: List::new(alloc),
            items: List::new(alloc),
            refusal: None,
        }
    }

    /// Takes the next component. A refusal of memory changes nothing, and drops the component.
    pub fn add(&mut self, component: Component<'a>) -> Result<(), OutOfMemory>
        ensures ok { OnOk result ((taken : the_list the_component) → HasTaken self.old taken → HasTaken self.new (taken ++ component.entry ∷ [])) }
        ensures err { OnErr result (self.new ≡ self.old) }
    {
        if self.start.is_ended_by(&component) {
            return self.end_rule(Some(component));
        }
        let start = self.start.with(&component);
        self.current.push(component)?;
        self.start = start;
        Ok(())
    }

    /// Reads the rule that ends at a mark or at the end, and begins the next one. A refusal of memory changes nothing.
    fn end_rule(&mut self, mark: Option<Component<'a>>) -> Result<(), OutOfMemory>
        ensures read { OnOk result ((rules : the_list Cut) → HasRead self.old rules → HasRead self.new (rules ++ record { front = self.old.current; mark = mark.entry } ∷ [])) }
        ensures current { OnOk result (self.new.current ≡ []) }
        ensures start { OnOk result (self.new.start ≡ Nothing) }
        ensures err { OnErr result (self.new ≡ self.old) }
    {
        let role = self.part.role(self.alloc, self.current.as_slice(), &mark)?;
        self.add_rule(role, mark)?;
        self.part = role.behind();
        self.current.clear();
        self.start = Start::Nothing;
        Ok(())
    }

    /// Reads the rule that is being read and that this mark ends, by its role. A refusal of memory changes nothing.
    fn add_rule(&mut self, role: Role, mark: Option<Component<'a>>) -> Result<(), OutOfMemory>
        ensures ok { OnOk result (HasAdded role self.old self.new (record { front = self.old.current; mark = mark.entry })) }
        ensures err { OnErr result (self.new ≡ self.old) }
    {
        match role {
            Role::Charset => Ok(()),
            Role::Import => self.add_import(&mark),
            Role::Item => self.add_item(mark),
        }
    }

    /// Reads the import that is being read and that this mark ends. A refusal of memory changes nothing.
    fn add_import(&mut self, mark: &Option<Component<'a>>) -> Result<(), OutOfMemory>
        ensures ok { OnOk result (HasAddedImport self.old self.new (record { front = self.old.current; mark = mark.now })) }
        ensures err { OnErr result (self.new ≡ self.old) }
    {
        let import = read_import_rule(self.alloc, self.current.as_slice(), mark)?;
        let named = sooner_of(self.refusal, import.refusal);
        let Judged { value, refusal: _ } = import;
        push_some(&mut self.imports, value)?;
        self.refusal = named;
        Ok(())
    }

    /// Reads the item that is being read and that this mark ends. A refusal of memory changes nothing.
    fn add_item(&mut self, mark: Option<Component<'a>>) -> Result<(), OutOfMemory>
        ensures ok { OnOk result (HasAddedItem self.old self.new (record { front = self.old.current; mark = mark.entry })) }
        ensures err { OnErr result (self.new ≡ self.old) }
    {
        let rule = read_rule(self.alloc, self.current.as_slice(), mark)?;
        let Judged { value, refusal } = rule;
        push_some(&mut self.items, value)?;
        self.refusal = sooner_of(self.refusal, refusal);
        Ok(())
    }

    /// The sheet of the components that were taken, or why they are no sheet, as `read_sheet` gives it.
    pub fn finish(mut self) -> Result<Sheet<'a>, RuleFault>
        ensures found { (taken : the_list the_component) → HasTaken self.entry taken → IfOk result (λ sheet. sheet_of taken ≡ Some sheet) }
        ensures faultless { (taken : the_list the_component) → HasTaken self.entry taken → IfOk result (λ _. sheet_refusals taken ≡ []) }
        ensures fault { (taken : the_list the_component) → HasTaken self.entry taken → IfErr result (λ fault. IsNamed fault (first_refusal (sheet_refusals taken))) }
        ensures least { (taken : the_list the_component) → HasTaken self.entry taken → IfErr result (λ fault. IsLeast fault (sheet_refusals taken)) }
    {
        the_first_refusal_is_named();
        self.end_rule(None)?;
        match self.refusal {
            None => Ok(Sheet {
                imports: self.imports,
                items: self.items,
            }),
            Some(refusal) => Err(fault_of(refusal)),
        }
    }
}
