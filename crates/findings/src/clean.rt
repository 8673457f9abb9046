ghost use Rattle.findings.specs.Constructs.{sheet_findings};
ghost use Rattle.findings.specs.Limits.{first_fault, sheet_limit};
ghost use Rattle.std.specs.Prelude.{◌≡◌, [], IfOk, IfErr, None, Some};

use crate::fault::CheckFault;
use crate::limit::sheet_limit;
use crate::sheet::first_finding;
use sheet_types::Sheet;
use std::marker::Model;

/// A sheet in which nothing stands that cannot be expressed, and which passes no limit. Contracts see it as the sheet.
#[derive(Debug, Drop)]
pub struct Clean<'s, 'a> {
    sheet: &'s Sheet<'a>,
}

impl<'s, 'a> Model for Clean<'s, 'a> {
    ghost use Rattle.sheet_types.specs.declared.sheet.Sheet.{Sheet};
    ghost use Rattle.media_spelling.specs.contracts.condition.Condition as the_condition;
    ghost use Rattle.media_spelling.specs.contracts.supports.Supports as the_supports;
    ghost use Rattle.sheet_types.specs.contracts.sheet.Item as the_item;
    ghost use Rattle.std.specs.Coded.{codes};
    ghost use Rattle.std.specs.Prelude.{[]};

    ghost Value = { Sheet };

    ghost use mir.Syntax.{named};

    ghost coded = { Prim.hlevel (codes, (the_condition.the_row (record { mir = named 0; lft = [] })).coded, (the_supports.the_row (record { mir = named 0; lft = [] })).coded, (the_item.the_row (record { mir = named 0; lft = [] })).coded) };

    ghost view = { λ clean. clean.sheet.now };

    ghost use Rattle.std.specs.Prelude.{◌≡◌};
    ghost use Rattle.findings.specs.Constructs.{sheet_findings};
    ghost use Rattle.findings.specs.Limits.{sheet_limit};
    ghost use Rattle.std.specs.Prelude.{None};

    ghost invariant = { λ clean. (sheet_findings 0 clean.sheet.now ≡ []) × (sheet_limit clean.sheet.now ≡ None) };
}

impl<'s, 'a> Clean<'s, 'a> {
    /// The sheet.
    pub fn sheet(&self) -> &'s Sheet<'a>
        ensures same { result.now ≡ self.now }
        ensures clean { sheet_findings 0 result.now ≡ [] }
        ensures within { sheet_limit result.now ≡ None }
    {
        self.sheet
    }
}

/// Takes the sheet of a bundle's one file, and gives it as clean, or the finding in it that is named, the first by its place and
/// at one place by the number of its code; or, where nothing is found, the limit that it passes. Takes no memory.
pub fn check<'s, 'a>(sheet: &'s Sheet<'a>) -> Result<Clean<'s, 'a>, CheckFault>
    ensures clean { IfOk result (λ clean. clean ≡ sheet.now) }
    ensures nothing { IfOk result (λ _. sheet_findings 0 sheet.now ≡ []) }
    ensures within { IfOk result (λ _. sheet_limit sheet.now ≡ None) }
    ensures fault { IfErr result (λ fault. first_fault sheet.now ≡ Some fault) }
{
    match first_finding(sheet, 0) {
        Some(finding) => Err(CheckFault::Finding(finding)),
        None => match sheet_limit(sheet) {
            Some(limit) => Err(CheckFault::Limit(limit)),
            None => Ok(Clean { sheet }),
        },
    }
}
