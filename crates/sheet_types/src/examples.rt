//! Worked examples of the definitions of this crate, each the contract of a function that does nothing.
#![tactic(auto, using(crate::proofs::Computing::computing))]

ghost use Rattle.std.specs.Prelude.{◌≡◌, [], ◌∷◌, None, Some, codes};
ghost use Rattle.media_spelling.specs.Samples.{bare, declared, ident as word, media, only_if};
ghost use Rattle.media_spelling.specs.declared.condition.Prefix.TheVariants as prefixes;
ghost use Rattle.selector_types.specs.Samples.{colon, comment, ident, source, space};
ghost use Rattle.sheet_types.specs.declared.sheet.GroupCondition.TheVariants.{Media, Supports};
ghost use Rattle.sheet_types.specs.declared.sheet.Item.{Style, Plain, Passed, Other};
ghost use Rattle.sheet_types.specs.declared.sheet.PassedKind.TheVariants.{FontFace, Page};
ghost use Rattle.sheet_types.specs.BareItems.{bare_import, filled_items};
ghost use Rattle.sheet_types.specs.Contexts.{outside, under_condition, under_list};
ghost use Rattle.sheet_types.specs.Samples.{type_at, plain, rule, empty_rule, group, passed};
ghost use Rattle.sheet_types.specs.SheetTexts.{import_text, items_text, sheet_text};
ghost use Rattle.sheet_types.specs.Statements.{Declares, Passes, bare_declaration, say_all};

/// What is left of items without the rules and groups that declare nothing.
pub fn empty_rules_are_left_out()
    ensures empty_rule_within { filled_items (Style (record { selectors = type_at 3 "a" ∷ []; items = empty_rule (type_at 0 "p" ∷ []) ∷ []; at = 3 }) ∷ []) ≡ [] }
    ensures no_run { filled_items (Plain ([]) ∷ []) ≡ [] }
    ensures rules_within { filled_items (Style (record { selectors = type_at 3 "a" ∷ []; items = empty_rule (type_at 0 "p" ∷ []) ∷ rule (type_at 0 "q" ∷ []) (plain "b" "c" ∷ []) ∷ []; at = 3 }) ∷ []) ≡ Style (record { selectors = type_at 3 "a" ∷ []; items = rule (type_at 0 "q" ∷ []) (plain "b" "c" ∷ []) ∷ []; at = 3 }) ∷ [] }
    ensures empty_group { filled_items (group (Media ([])) (empty_rule (type_at 0 "p" ∷ []) ∷ Other 4 ∷ []) ∷ []) ≡ [] }
    ensures rule_that_is_passed_on { filled_items (Passed (passed FontFace [] []) ∷ []) ≡ Passed (passed FontFace [] []) ∷ [] }
{}

/// What groups, rules that are passed on and other at-rules say.
pub fn at_rules_say()
    ensures group { say_all (group (Media (media prefixes.Plain "print" ∷ [])) (Plain (plain "b" "c" ∷ []) ∷ []) ∷ []) outside ≡ Declares (under_condition (Media (media prefixes.Plain "print" ∷ [])) outside) (bare_declaration (plain "b" "c")) ∷ [] }
    ensures two_groups { say_all (group (Media ([])) (group (Media (only_if (bare "color") ∷ [])) (Plain (plain "b" "c" ∷ []) ∷ []) ∷ []) ∷ []) outside ≡ Declares (under_condition (Media (only_if (bare "color") ∷ [])) (under_condition (Media ([])) outside)) (bare_declaration (plain "b" "c")) ∷ [] }
    ensures condition_at_zero { say_all (group (Supports (declared "a" 5 (word "b" ∷ []))) (Plain (plain "b" "c" ∷ []) ∷ []) ∷ []) outside ≡ Declares (under_condition (Supports (declared "a" 0 (word "b" ∷ []))) outside) (bare_declaration (plain "b" "c")) ∷ [] }
    ensures rule_that_is_passed_on { say_all (Passed (passed Page (source (space ∷ colon ∷ ident "first" ∷ space ∷ [])) (source (space ∷ ident "a" ∷ colon ∷ comment ∷ space ∷ ident "b" ∷ []))) ∷ []) outside ≡ Passes outside (record { keyword = codes "page"; prelude = codes ":first"; block = codes "a: b" }) ∷ [] }
    ensures other { say_all (Other 4 ∷ []) outside ≡ [] }
{}

/// How groups, rules that are passed on and other at-rules print.
pub fn at_rules_print()
    ensures media { items_text (group (Media (media prefixes.Plain "print" ∷ [])) (rule (type_at 0 "a" ∷ []) (plain "b" "c" ∷ []) ∷ []) ∷ []) ≡ codes "@media print{\na{b:c}\n}\n" }
    ensures no_query { items_text (group (Media ([])) (rule (type_at 0 "a" ∷ []) (plain "b" "c" ∷ []) ∷ []) ∷ []) ≡ codes "@media{\na{b:c}\n}\n" }
    ensures supports { items_text (group (Supports (declared "b" 0 (word "c" ∷ []))) (rule (type_at 0 "a" ∷ []) (plain "b" "c" ∷ []) ∷ []) ∷ []) ≡ codes "@supports (b:c){\na{b:c}\n}\n" }
    ensures in_a_rule { items_text (Style (record { selectors = type_at 0 "a" ∷ []; items = group (Media (only_if (bare "color") ∷ [])) (Plain (plain "b" "c" ∷ []) ∷ []) ∷ []; at = 0 }) ∷ []) ≡ codes "a{@media (color){\nb:c;}\n}\n" }
    ensures empty_group { items_text (group (Media ([])) (empty_rule (type_at 0 "p" ∷ []) ∷ Other 4 ∷ []) ∷ []) ≡ [] }
    ensures font_face { items_text (Passed (passed FontFace [] (source (ident "a" ∷ colon ∷ ident "b" ∷ []))) ∷ []) ≡ codes "@font-face{a:b}\n" }
    ensures page { items_text (Passed (passed Page (source (space ∷ colon ∷ ident "first" ∷ space ∷ [])) []) ∷ []) ≡ codes "@page :first{}\n" }
    ensures other { items_text (Other 4 ∷ []) ≡ [] }
{}

/// How imports print, and what is left of them without places.
pub fn imports_print()
    ensures bare { import_text (record { target = codes "b.css"; supports = None; media = []; at = 4 }) ≡ codes "@import \"b.css\";\n" }
    ensures media { import_text (record { target = codes "b\"c"; supports = None; media = media prefixes.Plain "print" ∷ []; at = 4 }) ≡ codes "@import \"b\\\"c\" print;\n" }
    ensures both { import_text (record { target = []; supports = Some (declared "a" 5 (word "b" ∷ [])); media = only_if (bare "color") ∷ []; at = 4 }) ≡ codes "@import \"\" supports((a:b)) (color);\n" }
    ensures placeless { bare_import (record { target = codes "b"; supports = Some (declared "a" 5 (word "b" ∷ [])); media = []; at = 4 }) ≡ record { target = codes "b"; supports = Some (declared "a" 0 (word "b" ∷ [])); media = []; at = 0 } }
    ensures first { sheet_text (record { imports = record { target = codes "b"; supports = None; media = []; at = 4 } ∷ []; items = rule (type_at 0 "a" ∷ []) (plain "b" "c" ∷ []) ∷ [] }) ≡ codes "@import \"b\";\na{b:c}\n" }
{}
