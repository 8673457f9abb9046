ghost use Rattle.std.specs.Prelude.{◌≡◌, [], IfOk, IfErr, Some};
ghost use Rattle.css_rules.specs.Refusals.{first_refusal};
ghost use Rattle.css_rules.specs.Sheets.{sheet_of, sheet_refusals, IsNamed, IsLeast};

use crate::reader::RuleFault;
use crate::sheet_builder::SheetBuilder;
use css_tokens::Component;
use sheet_types::Sheet;
use std::alloc::Global;

/// Reads a sheet: perhaps `@charset`, imports, and then style rules, groups of rules under conditions, rules that are passed on,
/// and at-rules of other names (CSS Syntax 3, section 9; CSS Cascading 5, section 2; Conditional Rules 3, section 2). The end is
/// the place behind the last component. Refused where something in it cannot be read, is an import behind other rules or in a
/// block, or waits for a later stage; the first such place is named.
pub fn read_sheet<'a>(
    alloc: Global,
    text: &[Component<'a>],
    _end: u32,
) -> Result<Sheet<'a>, RuleFault>
    ensures found { IfOk result (λ sheet. sheet_of text.now ≡ Some sheet) }
    ensures faultless { IfOk result (λ _. sheet_refusals text.now ≡ []) }
    ensures fault { IfErr result (λ fault. IsNamed fault (first_refusal (sheet_refusals text.now))) }
    ensures least { IfErr result (λ fault. IsLeast fault (sheet_refusals text.now)) }
{
    let mut builder = SheetBuilder::new(alloc);
    for component in text {
        builder.add(component.copy(alloc)?)?;
    }
    match builder.finish() {
        Ok(sheet) => Ok(sheet),
        Err(fault) => Err(fault),
    }
}
