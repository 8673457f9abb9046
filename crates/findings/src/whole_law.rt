ghost use Rattle.css_rules.specs.Printable.{all_whole};
ghost use Rattle.sheet_types.specs.declared.sheet.Sheet.{Sheet};
ghost use Rattle.findings.specs.Constructs.{sheet_findings};
ghost use Rattle.std.specs.Prelude.{◌≡◌, [], ℕ, IsTrue};

/// A sheet in which nothing stands that cannot be expressed has no import, since none is built yet. All is kept of the selectors
/// of a sheet in which nothing stands that cannot be expressed: they have no functions without a
/// name that is known, and no flags.
pub fn clean_sheets_are_whole()
    ensures importless { (file : ℕ) (sheet : Sheet) → sheet_findings file sheet ≡ [] → sheet.imports ≡ [] }
    ensures whole { (file : ℕ) (sheet : Sheet) → sheet_findings file sheet ≡ [] → IsTrue (all_whole sheet) }
{}
