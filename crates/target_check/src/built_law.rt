//! A law about the definitions of this crate, the contract of a function that does nothing.
ghost use Rattle.css_rules.specs.Refusals.{is_unbuilt_property};
ghost use Rattle.css_rules.specs.Sheets.{is_unbuilt};
ghost use Rattle.sheet_types.specs.declared.sheet.Declaration.{Declaration};
ghost use Rattle.prop_table.specs.LogicalProperties.{is_logical};
ghost use Rattle.std.specs.Prelude.{◌≡◌, ℕ, List, IsTrue, false};
ghost use Rattle.target_check.specs.Targets.{is_old_declaration};

/// The reader refuses each logical property by its name, and older browsers know each declaration that it takes.
pub fn built_declarations_are_old()
    ensures logical { (name : List ℕ) → IsTrue (is_logical name) → IsTrue (is_unbuilt_property name) }
    ensures old { (d : Declaration) → is_unbuilt d ≡ false → IsTrue (is_old_declaration d) }
{}
