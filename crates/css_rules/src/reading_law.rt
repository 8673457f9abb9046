ghost use Rattle.css_rules.specs.Cuts.{cuts};
ghost use Rattle.css_rules.specs.ReadAll.{read_all};
ghost use Rattle.css_rules.specs.RuleEnds.{ends_rule};
ghost use Rattle.css_rules.specs.Sheets.{rule_of, rule_refusals, rules_of, rules_refusals, sheet_of, sheet_refusals};
ghost use Rattle.sheet_types.specs.declared.sheet.Sheet.{Sheet};
ghost use Rattle.css_tokens.specs.declared.component.Component.{Component};
ghost use Rattle.std.specs.Prelude.{◌≡◌, ◌≢◌, List, [], Some, None, flat_map};

/// What stands in a group has the items of its rules, one after another, and is refused for what each of them is refused for,
/// as the items of a sheet are, to any depth (CSS Syntax 3, section 9).
pub fn sheets_are_read_rule_by_rule()
    ensures items { (cs : List Component) → rules_of cs ≡ read_all rule_of (cuts ends_rule cs) }
    ensures refusals { (cs : List Component) → rules_refusals cs ≡ flat_map rule_refusals (cuts ends_rule cs) }
{}

/// Components have a sheet exactly where it is refused for nothing.
pub fn sheets_have_readings_or_refusals()
    ensures read { (cs : List Component) (sheet : Sheet) → sheet_of cs ≡ Some sheet → sheet_refusals cs ≡ [] }
    ensures refused { (cs : List Component) → sheet_of cs ≡ None → sheet_refusals cs ≢ [] }
{}
