//! What stands in the rules of a sheet.

ghost use Rattle.findings.specs.Constructs.{condition_findings, imports_findings, item_findings, items_findings, list_findings, sheet_findings};
ghost use Rattle.findings.specs.Firsts.{first_finding, first_from};
ghost use Rattle.std.specs.Prelude.{◌≡◌, ◌++◌};

use crate::condition::in_condition;
use crate::first::{found_at, sooner};
use crate::selector::in_list;
use css_places::{Code, Finding};
use sheet_types::{Group, Import, Item, Sheet, Style};

#[cycle(finds)]
fn in_items(items: &[Item], file: u32, best: Option<Finding>) -> Option<Finding>
    ensures { result ≡ first_from best (items_findings file items.now) }
{
    let mut best = best;
    for item in items {
        best = in_item(item, file, best);
    }
    best
}

#[cycle(finds)]
#[tactic(auto, using(crate::proofs::Finding::found))]
fn in_item(item: &Item, file: u32, best: Option<Finding>) -> Option<Finding>
    ensures { result ≡ first_from best (item_findings file item.now) }
{
    match item {
        Item::Style(style) => in_style(style, file, best),
        Item::Group(group) => in_group(group, file, best),
        Item::Plain(_) | Item::Passed(_) => best,
        Item::Other(at) => sooner(best, Some(found_at(file, *at, Code::X12))),
    }
}

#[cycle(finds)]
fn in_style(style: &Style, file: u32, best: Option<Finding>) -> Option<Finding>
    ensures { result ≡ first_from best (list_findings file style.now.selectors ++ items_findings file style.now.items) }
{
    let best = in_list(style.selectors.as_slice(), file, best);
    in_items(style.items.as_slice(), file, best)
}

#[cycle(finds)]
fn in_group(group: &Group, file: u32, best: Option<Finding>) -> Option<Finding>
    ensures { result ≡ first_from best (condition_findings file group.now.at group.now.condition ++ items_findings file group.now.items) }
{
    let best = in_condition(&group.condition, file, group.at, best);
    in_items(group.items.as_slice(), file, best)
}

fn in_imports(imports: &[Import], file: u32) -> Option<Finding>
    ensures { result ≡ first_finding (imports_findings file imports.now) }
{
    let mut best = None;
    for import in imports {
        best = sooner(best, Some(found_at(file, import.at, Code::Unbuilt)));
    }
    best
}

/// The finding that is named of those in a sheet, which is the file of this number.
pub fn first_finding(sheet: &Sheet, file: u32) -> Option<Finding>
    ensures { result ≡ first_finding (sheet_findings file sheet.now) }
{
    let best = in_imports(sheet.imports.as_slice(), file);
    in_items(sheet.items.as_slice(), file, best)
}
