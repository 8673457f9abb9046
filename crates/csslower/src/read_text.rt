ghost use Rattle.std.specs.Prelude.{◌≡◌, ◌≤◌, [], length, None, IfOk, IfErr};
ghost use Rattle.csslower.specs.Private.TextFaults.{IsTextFault};
ghost use Rattle.findings.specs.Constructs.{sheet_findings};
ghost use Rattle.findings.specs.Limits.{sheet_limit};
ghost use Rattle.sheet_reader.specs.Texts.{SpellsSheet};

use crate::text_fault::TextFault;
use css_places::Code;
use css_rules::Sheet;
use findings::{CheckFault, Clean, check, the_first_finding_is_named};
use sheet_reader::{SheetFault, read_text};
use std::alloc::Global;

/// The sheet of a file's text.
#[tactic(auto, unfolding(crate::specs::Findings::HasFinding))]
pub(crate) fn text_sheet<'a>(alloc: Global, text: &'a [u8]) -> Result<Sheet<'a>, TextFault>
    requires short { length text.now ≤ 4194304 }
    ensures spelled { IfOk result (λ sheet. SpellsSheet text.now sheet) }
    ensures refused { IfErr result (λ fault. IsTextFault text.now fault) }
{
    match read_text(alloc, text) {
        Ok(sheet) => Ok(sheet),
        Err(SheetFault::Syntax(offset)) => Err(TextFault::Finding {
            code: Code::Syntax,
            offset,
        }),
        Err(SheetFault::Depth(offset)) => Err(TextFault::Finding {
            code: Code::Depth,
            offset,
        }),
        Err(SheetFault::Unbuilt(offset)) => Err(TextFault::Finding {
            code: Code::Unbuilt,
            offset,
        }),
        Err(SheetFault::LateImport(offset)) => Err(TextFault::Finding {
            code: Code::LateImport,
            offset,
        }),
        Err(SheetFault::Memory) => Err(TextFault::Memory),
    }
}

/// The sheet of a file's text, where all in it can be expressed and it passes no limit.
#[tactic(auto, unfolding(crate::specs::Findings::HasFinding, crate::specs::Findings::PassesLimit))]
pub(crate) fn text_clean<'s, 'a>(
    text: &[u8],
    sheet: &'s Sheet<'a>,
) -> Result<Clean<'s, 'a>, TextFault>
    requires spelled { SpellsSheet text.now sheet.now }
    ensures clean { IfOk result (λ clean. clean ≡ sheet.now) }
    ensures nothing { IfOk result (λ _. sheet_findings 0 sheet.now ≡ []) }
    ensures within { IfOk result (λ _. sheet_limit sheet.now ≡ None) }
    ensures refused { IfErr result (λ fault. IsTextFault text.now fault) }
{
    the_first_finding_is_named();
    match check(sheet) {
        Ok(clean) => Ok(clean),
        Err(CheckFault::Finding(finding)) => Err(TextFault::Finding {
            code: finding.code,
            offset: finding.place.offset,
        }),
        Err(CheckFault::Limit(kind)) => Err(TextFault::Limit(kind)),
    }
}
