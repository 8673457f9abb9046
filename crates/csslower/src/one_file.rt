ghost use Rattle.std.specs.Prelude.{◌≡◌, ◌≤◌, ℕ, List, flat_map, length, IfOk, IfErr};
ghost use Rattle.cascade_spec.specs.Readings.{HasSheet, KeepsWinners};
ghost use Rattle.csslower.specs.Findings.{IsAccepted};
ghost use Rattle.csslower.specs.TargetTexts.{IsTargetText};
ghost use Rattle.csslower.specs.Private.TextFaults.{IsTextFault};
ghost use Rattle.media_lower.specs.MediaItems.{lowered_item};
ghost use Rattle.sheet_types.specs.Contexts.{outside};
ghost use Rattle.sheet_types.specs.Statements.{say_all, statements_of};
ghost use Rattle.cascade_spec.specs.Contents.{SameWinners};

use crate::read_text::{text_clean, text_sheet};
use crate::target_law::lowered_sheets_are_targets;
use crate::text_fault::TextFault;
use cascade_spec::lower;
use css_print::print;
use css_rules::Sheet;
use css_tokens::{List, OutOfMemory};
use media_lower::MediaPass;
use std::alloc::Global;
use std::mem;

/// The sheet in terms of older browsers, with the winners and the passed rules of the sheet.
fn lowered<'a>(alloc: Global, sheet: Sheet<'a>) -> Result<Sheet<'a>, OutOfMemory>
    requires { (source : List ℕ) × HasSheet source sheet }
    ensures items { IfOk result (λ made. made.items ≡ flat_map lowered_item sheet.entry.items) }
    ensures imports { IfOk result (λ made. made.imports ≡ sheet.entry.imports) }
    ensures kept { IfOk result (λ made. SameWinners (statements_of sheet.entry) (say_all made.items outside)) }
{
    cascade_spec::laws::sheets_of_texts();
    media_lower::plain_items_are_taken();
    let made = lower(&MediaPass::new(), alloc, sheet)?;
    Ok(made)
}

/// The text of a file written again for older browsers.
#[tactic(auto, unfolding(crate::specs::Findings::IsAccepted))]
pub fn rewrite(alloc: Global, bytes: &[u8]) -> Result<List<u8>, TextFault>
    requires { length bytes.now ≤ 4194304 }
    ensures kept { IfOk result (λ text. KeepsWinners bytes.now text) }
    ensures target { IfOk result (λ text. IsTargetText text) }
    ensures accepted { IfOk result (λ _. IsAccepted bytes.now) }
    ensures refused { IfErr result (λ fault. IsTextFault bytes.now fault) }
{
    cascade_spec::laws::sheets_of_texts();
    cascade_spec::laws::printed_items_are_read();
    findings::clean_sheets_are_whole();
    media_lower::lowered_items_are_printable();
    lowered_sheets_are_targets();
    let sheet = text_sheet(alloc, bytes)?;
    let _clean = text_clean(bytes, &sheet)?;
    let made = lowered(alloc, sheet)?;
    let text = print(alloc, &made)?;
    // The sheet is not given back piece by piece, which would take a fifth of the time: a run ends soon after.
    mem::forget(made);
    Ok(text)
}
