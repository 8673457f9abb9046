//! Worked examples of the definitions of this crate, each the contract of a function that does nothing.

ghost use Rattle.std.specs.Prelude.{◌≡◌, [], ◌∷◌, None, Some, false, true};
ghost use Rattle.media_spelling.specs.Samples.{bare, declared as supported, media, media_and, only_if, ray, valued};
ghost use Rattle.media_spelling.specs.declared.condition.Condition as conditions;
ghost use Rattle.media_spelling.specs.declared.condition.Prefix.TheVariants as prefixes;
ghost use Rattle.media_spelling.specs.declared.condition.Relation.TheVariants.{GreaterEqual, Less};
ghost use Rattle.media_spelling.specs.declared.supports.Supports as supports;
ghost use Rattle.sheet_types.specs.Samples.{group, passed, plain, rule, empty_rule, unmarked};
ghost use Rattle.sheet_types.specs.declared.sheet.GroupCondition.TheVariants.{Media, Supports};
ghost use Rattle.sheet_types.specs.declared.sheet.Item as items;
ghost use Rattle.sheet_types.specs.declared.sheet.PassedKind.TheVariants.{Page};
ghost use Rattle.target_check.specs.MediaTargets.{is_target_list};
ghost use Rattle.selector_types.specs.Samples.{attribute, class, comment, flagged, ident, laid, one, only, part_at, pseudo, space, typed, untyped};
ghost use Rattle.selector_types.specs.declared.selector.Simple as simple;
ghost use Rattle.selector_types.specs.declared.selector.Test.TheVariants.{Has};
ghost use Rattle.target_check.specs.Samples.{nested_in, rule_of, sheet_of_group, sheet_of_item, sheet_of_rule};
ghost use Rattle.target_check.specs.Targets.{is_old_declaration, is_old_selector, is_old_simple, is_target};

/// Which simple selectors older browsers read.
pub fn simple_selectors()
    ensures class_name { is_old_simple (class "a") ≡ true }
    ensures pseudo_class { is_old_simple (pseudo "focus-visible") ≡ true }
    ensures attribute_alone { is_old_simple (simple.Attribute (attribute "a" Has "")) ≡ true }
    ensures flag { is_old_simple (simple.Attribute (flagged "a" Has "")) ≡ false }
    ensures not_of_a_class { is_old_simple (simple.Not (only (class "a") ∷ [])) ≡ true }
    ensures not_of_two { is_old_simple (simple.Not (only (class "a") ∷ only (class "b") ∷ [])) ≡ false }
    ensures not_of_a_local_class { is_old_simple (simple.Not (only (simple.Local (untyped (part_at 0 (class "a") ∷ []))) ∷ [])) ≡ false }
    ensures is_of_one { is_old_simple (simple.Is (only (class "a") ∷ [])) ≡ false }
    ensures where_of_one { is_old_simple (simple.Where (only (class "a") ∷ [])) ≡ false }
    ensures parent { is_old_simple simple.Parent ≡ false }
    ensures local { is_old_simple (simple.Local (typed "a" [])) ≡ false }
    ensures global { is_old_simple (simple.Global (typed "a" [])) ≡ false }
    ensures foreign { is_old_simple simple.Foreign ≡ false }
    ensures flag_within { is_old_selector (only (simple.Not (only (simple.Attribute (flagged "a" Has "")) ∷ []))) ≡ false }
{}

/// Which declarations older browsers know: no logical property, and no keyword of the flow alone where the property takes one.
#[tactic(auto, using(crate::proofs::Computing::computing))]
pub fn declarations()
    ensures physical_property { is_old_declaration (unmarked 0 "margin-left" []) ≡ true }
    ensures logical_property { is_old_declaration (unmarked 0 "margin-inline" []) ≡ false }
    ensures short_for_physical { is_old_declaration (unmarked 0 "inset" []) ≡ false }
    ensures custom { is_old_declaration (unmarked 0 "--margin-inline" []) ≡ true }
    ensures composes { is_old_declaration (unmarked 0 "composes" []) ≡ false }
    ensures physical_side { is_old_declaration (unmarked 0 "float" (laid 0 (ident "left" ∷ []))) ≡ true }
    ensures side { is_old_declaration (unmarked 0 "float" (laid 0 (ident "inline-start" ∷ []))) ≡ false }
    ensures side_in_any_case { is_old_declaration (unmarked 0 "clear" (laid 0 (ident "INLINE-end" ∷ []))) ≡ false }
    ensures escaped_side { is_old_declaration (unmarked 0 "clear" (laid 0 (ident "inline-e\\6e d" ∷ []))) ≡ false }
    ensures side_among_gaps { is_old_declaration (unmarked 0 "float" (laid 0 (comment ∷ space ∷ ident "inline-start" ∷ comment ∷ []))) ≡ false }
    ensures two_sides { is_old_declaration (unmarked 0 "float" (laid 0 (ident "inline-start" ∷ space ∷ ident "inline-end" ∷ []))) ≡ true }
    ensures axis { is_old_declaration (unmarked 0 "resize" (laid 0 (ident "block" ∷ []))) ≡ false }
    ensures inline_axis { is_old_declaration (unmarked 0 "resize" (laid 0 (ident "inline" ∷ []))) ≡ false }
    ensures axis_of_float { is_old_declaration (unmarked 0 "float" (laid 0 (ident "inline" ∷ []))) ≡ true }
    ensures side_of_resize { is_old_declaration (unmarked 0 "resize" (laid 0 (ident "inline-start" ∷ []))) ≡ true }
    ensures other_property { is_old_declaration (unmarked 0 "display" (laid 0 (ident "block" ∷ []))) ≡ true }
{}

/// Which sheets are target sheets.
pub fn sheets()
    ensures rule { is_target (sheet_of_rule (rule_of (only (class "a") ∷ []) (unmarked 0 "b" [] ∷ []))) ≡ true }
    ensures younger_selector { is_target (sheet_of_rule (rule_of (only (class "a") ∷ only simple.Foreign ∷ []) (unmarked 0 "b" [] ∷ []))) ≡ false }
    ensures empty_rule { is_target (sheet_of_rule (rule_of (only (class "a") ∷ []) [])) ≡ false }
    ensures composes { is_target (sheet_of_rule (rule_of (only (class "a") ∷ []) (unmarked 0 "composes" [] ∷ []))) ≡ false }
    ensures logical_property { is_target (sheet_of_rule (rule_of (only (class "a") ∷ []) (unmarked 0 "b" [] ∷ unmarked 0 "inset" [] ∷ []))) ≡ false }
    ensures nested_rule { is_target (sheet_of_rule (nested_in (only (class "a") ∷ []) (rule_of (one (typed "b" []) ∷ []) (unmarked 0 "c" [] ∷ [])))) ≡ false }
{}

/// Which groups a target sheet has, and which rules that are passed on and other at-rules.
pub fn groups()
    ensures rule { is_target (sheet_of_group (Media (media prefixes.Plain "print" ∷ [])) (rule (only (class "a") ∷ []) (plain "b" "c" ∷ []) ∷ [])) ≡ true }
    ensures group_within { is_target (sheet_of_group (Supports (supported "b" 0 [])) (group (Media (media prefixes.Plain "print" ∷ [])) (items.Passed (passed Page [] []) ∷ []) ∷ [])) ≡ true }
    ensures nothing { is_target (sheet_of_group (Media (media prefixes.Plain "print" ∷ [])) []) ≡ false }
    ensures empty_group_within { is_target (sheet_of_group (Media (media prefixes.Plain "print" ∷ [])) (group (Media (media prefixes.Plain "print" ∷ [])) [] ∷ [])) ≡ false }
    ensures empty_rule_within { is_target (sheet_of_group (Media (media prefixes.Plain "print" ∷ [])) (empty_rule (only (class "a") ∷ []) ∷ [])) ≡ false }
    ensures declarations { is_target (sheet_of_group (Media (media prefixes.Plain "print" ∷ [])) (items.Plain (plain "b" "c" ∷ []) ∷ [])) ≡ false }
    ensures other_within { is_target (sheet_of_group (Media (media prefixes.Plain "print" ∷ [])) (items.Other 4 ∷ [])) ≡ false }
    ensures no_query { is_target (sheet_of_group (Media []) (items.Passed (passed Page [] []) ∷ [])) ≡ false }
    ensures range { is_target (sheet_of_group (Media (only_if (ray "width" GreaterEqual "5px") ∷ [])) (items.Passed (passed Page [] []) ∷ [])) ≡ false }
    ensures not_of_a_declaration { is_target (sheet_of_group (Supports (supports.Not (supported "b" 0 []))) (items.Passed (passed Page [] []) ∷ [])) ≡ true }
    ensures function { is_target (sheet_of_group (Supports (supports.And (supported "b" 0 [] ∷ supports.Not (supports.Function 4) ∷ []))) (items.Passed (passed Page [] []) ∷ [])) ≡ true }
    ensures passed_on { is_target (sheet_of_item (items.Passed (passed Page [] []))) ≡ true }
    ensures other { is_target (sheet_of_item (items.Other 4)) ≡ false }
    ensures group_in_a_rule { is_target (sheet_of_item (items.Style (record { selectors = only (class "a") ∷ []; items = items.Plain (plain "b" "c" ∷ []) ∷ group (Media (media prefixes.Plain "print" ∷ [])) (items.Plain (plain "b" "c" ∷ []) ∷ []) ∷ []; at = 0 }))) ≡ false }
{}

/// Which media lists a target sheet has.
pub fn target_lists()
    ensures empty { is_target_list ([]) ≡ false }
    ensures media_type { is_target_list (media prefixes.Only "screen" ∷ []) ≡ true }
    ensures features { is_target_list (media_and prefixes.Not "screen" (conditions.And (bare "a" ∷ valued "min-width" "5px" ∷ [])) ∷ only_if (bare "b") ∷ []) ≡ true }
    ensures range { is_target_list (only_if (ray "width" GreaterEqual "5px") ∷ []) ≡ false }
    ensures range_among_features { is_target_list (media_and prefixes.Plain "screen" (conditions.And (bare "a" ∷ ray "width" Less "5px" ∷ [])) ∷ []) ≡ false }
    ensures alternatives { is_target_list (only_if (conditions.Or (bare "a" ∷ bare "b" ∷ [])) ∷ []) ≡ false }
    ensures negation { is_target_list (only_if (conditions.Not (bare "a")) ∷ []) ≡ false }
    ensures nested { is_target_list (only_if (conditions.And (bare "a" ∷ conditions.And (bare "b" ∷ bare "c" ∷ []) ∷ [])) ∷ []) ≡ false }
    ensures one_joined { is_target_list (only_if (conditions.And (bare "a" ∷ [])) ∷ []) ≡ false }
    ensures prefix_alone { is_target_list (record { prefix = prefixes.Not; media = None; condition = Some (bare "a") } ∷ []) ≡ false }
    ensures nothing_in_a_query { is_target_list (record { prefix = prefixes.Plain; media = None; condition = None } ∷ []) ≡ false }
    ensures second_query { is_target_list (media prefixes.Plain "print" ∷ only_if (conditions.Not (bare "a")) ∷ []) ≡ false }
{}
