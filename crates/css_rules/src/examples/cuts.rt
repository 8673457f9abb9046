//! Worked examples of lists of components cut and trimmed, and of what cannot be read between the commas of a selector list.
#![tactic(auto, using(crate::proofs::Computing::computing))]

ghost use Rattle.std.specs.Prelude.{◌≡◌, List, [], ◌∷◌, Some, None};
ghost use Rattle.css_components.specs.Components.{is_semicolon};
ghost use Rattle.css_components.specs.Trimming.{trimmed};
ghost use Rattle.css_rules.specs.Cuts.{cuts, cuts_at};
ghost use Rattle.css_rules.specs.SelectorFaults.{list_faults};
ghost use Rattle.css_rules.specs.RuleEnds.{ends_item, ends_rule};
ghost use Rattle.css_rules.specs.Samples.{at_keyword, braces, dot, semicolon};
ghost use Rattle.selector_types.specs.Samples.{source, laid, ident, space, comment, comma, colon};

/// Where selectors of a list cannot be read: at the first token of each, and where nothing stands between commas at what follows.
pub fn selector_faults()
    ensures none { list_faults (source (ident "a" ∷ comma ∷ ident "b" ∷ [])) 3 ≡ [] }
    ensures nothing { list_faults [] 7 ≡ 7 ∷ [] }
    ensures nothing_last { list_faults (source (ident "a" ∷ comma ∷ [])) 2 ≡ 2 ∷ [] }
    ensures comment_between { list_faults (source (ident "a" ∷ comma ∷ comment ∷ comma ∷ ident "b" ∷ [])) 8 ≡ 6 ∷ [] }
    ensures two_faults { list_faults (source (ident "a" ∷ comma ∷ comma ∷ dot ∷ [])) 4 ≡ 2 ∷ 3 ∷ [] }
{}

/// Components without white space and comments at both ends.
pub fn components_are_trimmed()
    ensures both_ends { trimmed (source (space ∷ comment ∷ ident "a" ∷ space ∷ ident "b" ∷ space ∷ [])) ≡ laid 5 (ident "a" ∷ space ∷ ident "b" ∷ []) }
    ensures nothing_left { trimmed (source (space ∷ comment ∷ [])) ≡ [] }
    ensures nothing { trimmed [] ≡ [] }
{}

/// Where items of a block end: at a `;`, and at a `{}` block that is not in the value of a custom property.
pub fn items_are_cut()
    ensures block { cuts ends_item (source (ident "a" ∷ braces [] ∷ ident "b" ∷ [])) ≡ record { front = source (ident "a" ∷ []); mark = Some (braces [] 1).component } ∷ record { front = laid 3 (ident "b" ∷ []); mark = None } ∷ [] }
    ensures custom { cuts ends_item (source (space ∷ ident "--x" ∷ space ∷ colon ∷ braces [] ∷ semicolon ∷ [])) ≡ record { front = source (space ∷ ident "--x" ∷ space ∷ colon ∷ braces [] ∷ []); mark = Some (semicolon 8).component } ∷ record { front = []; mark = None } ∷ [] }
    ensures no_colon { cuts ends_item (source (ident "--x" ∷ braces [] ∷ colon ∷ [])) ≡ record { front = source (ident "--x" ∷ []); mark = Some (braces [] 3).component } ∷ record { front = laid 5 (colon ∷ []); mark = None } ∷ [] }
{}

/// Where rules end: at a `{}` block, and at a `;` that stands behind an at-keyword.
pub fn rules_are_cut()
    ensures at_rule { cuts ends_rule (source (space ∷ at_keyword "@a" ∷ semicolon ∷ ident "b" ∷ [])) ≡ record { front = source (space ∷ at_keyword "@a" ∷ []); mark = Some (semicolon 3).component } ∷ record { front = laid 4 (ident "b" ∷ []); mark = None } ∷ [] }
    ensures other { cuts ends_rule (source (ident "a" ∷ at_keyword "@b" ∷ semicolon ∷ braces [] ∷ [])) ≡ record { front = source (ident "a" ∷ at_keyword "@b" ∷ semicolon ∷ []); mark = Some (braces [] 4).component } ∷ record { front = []; mark = None } ∷ [] }
{}

/// Components cut at semicolons.
pub fn components_are_cut()
    ensures nothing { cuts_at is_semicolon [] ≡ record { front = []; mark = None } ∷ [] }
    ensures between { cuts_at is_semicolon (source (ident "a" ∷ semicolon ∷ ident "b" ∷ [])) ≡ record { front = source (ident "a" ∷ []); mark = Some (semicolon 1).component } ∷ record { front = laid 2 (ident "b" ∷ []); mark = None } ∷ [] }
    ensures last { cuts_at is_semicolon (source (ident "a" ∷ semicolon ∷ [])) ≡ record { front = source (ident "a" ∷ []); mark = Some (semicolon 1).component } ∷ record { front = []; mark = None } ∷ [] }
    ensures none_in_a_block { cuts_at is_semicolon (source (braces (semicolon ∷ []) ∷ [])) ≡ record { front = source (braces (semicolon ∷ []) ∷ []); mark = None } ∷ [] }
{}
