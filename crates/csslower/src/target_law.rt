//! A law about the definitions of this crate, the contract of a function that does nothing.
ghost use Rattle.cascade_spec.specs.Readings.{HasSheet, ReadsAsItems};
ghost use Rattle.sheet_types.specs.declared.sheet.Sheet.{Sheet};
ghost use Rattle.csslower.specs.TargetTexts.{IsTargetText};
ghost use Rattle.findings.specs.Constructs.{sheet_findings};
ghost use Rattle.media_lower.specs.MediaItems.{lowered_item};
ghost use Rattle.std.specs.Prelude.{◌≡◌, [], ℕ, List, flat_map};

/// Older browsers read each text that reads as what the items of a text's sheet become, where all in the sheet can be expressed.
pub fn lowered_sheets_are_targets()
    ensures { (source text : List ℕ) (sheet : Sheet) → HasSheet source sheet → sheet_findings 0 sheet ≡ [] → ReadsAsItems text (flat_map lowered_item sheet.items) → IsTargetText text }
{
    cascade_spec::laws::sheets_of_texts();
    findings::clean_selectors_are_old();
    media_lower::media_lists_become_old();
    target_check::built_declarations_are_old();
    target_check::places_are_not_looked_at();
}
