//! Worked examples of the definitions of this crate, each the contract of a function that does nothing.

ghost use Rattle.std.specs.Prelude.{◌≡◌, [], ◌∷◌, None, Some, false, true};
ghost use Rattle.css_places.specs.declared.finding.Code.TheVariants.{X6, X7, X11, X12, X16, X17, X22};
ghost use Rattle.css_places.specs.declared.finding.LimitKind.TheVariants.{L8};
ghost use Rattle.findings.specs.Constructs.{code_of, items_findings, list_findings};
ghost use Rattle.findings.specs.Firsts.{first_finding};
ghost use Rattle.findings.specs.Found.{found_at};
ghost use Rattle.findings.specs.Limits.{count_of, fault_of};
ghost use Rattle.findings.specs.MediaFeatures.{asks_young};
ghost use Rattle.findings.specs.declared.fault.CheckFault.TheVariants.{Finding, Limit};
ghost use Rattle.media_spelling.specs.Samples.{bare, bound, declared as supported, interval, media, media_and, only_if, ray};
ghost use Rattle.media_spelling.specs.declared.condition.Condition as conditions;
ghost use Rattle.media_spelling.specs.declared.condition.Prefix.TheVariants as prefixes;
ghost use Rattle.media_spelling.specs.declared.condition.Relation.TheVariants.{Greater, GreaterEqual, Less};
ghost use Rattle.media_spelling.specs.declared.supports.Supports as supports;
ghost use Rattle.sheet_types.specs.Samples.{passed};
ghost use Rattle.sheet_types.specs.declared.sheet.GroupCondition.TheVariants.{Media, Supports};
ghost use Rattle.sheet_types.specs.declared.sheet.Item as items;
ghost use Rattle.sheet_types.specs.declared.sheet.PassedKind.TheVariants.{Page};
ghost use Rattle.selector_types.specs.Samples.{attribute, class, flagged, one, only, part_at, pseudo, typed, untyped};
ghost use Rattle.selector_types.specs.declared.selector.Simple as simple;
ghost use Rattle.selector_types.specs.declared.selector.Test.TheVariants.{Has};

/// Which simple selectors cannot be expressed.
pub fn codes_of_simple_selectors()
    ensures where_of_none { code_of (simple.Where []) ≡ Some X6 }
    ensures not_of_a_class { code_of (simple.Not (only (class "a") ∷ [])) ≡ None }
    ensures not_of_a_type { code_of (simple.Not (one (typed "a" []) ∷ [])) ≡ None }
    ensures not_of_a_local_class { code_of (simple.Not (only (simple.Local (untyped (part_at 0 (class "a") ∷ []))) ∷ [])) ≡ None }
    ensures not_of_two { code_of (simple.Not (only (class "a") ∷ only (class "b") ∷ [])) ≡ Some X7 }
    ensures not_of_a_compound { code_of (simple.Not (one (typed "a" (part_at 0 (class "b") ∷ [])) ∷ [])) ≡ Some X7 }
    ensures not_of_a_not { code_of (simple.Not (only (simple.Not []) ∷ [])) ≡ Some X7 }
    ensures local { code_of (simple.Local (typed "a" [])) ≡ Some X11 }
    ensures global { code_of (simple.Global (typed "a" [])) ≡ Some X11 }
    ensures foreign { code_of simple.Foreign ≡ Some X11 }
    ensures flag { code_of (simple.Attribute (flagged "a" Has "")) ≡ Some X22 }
    ensures no_flag { code_of (simple.Attribute (attribute "a" Has "")) ≡ None }
    ensures pseudo_class { code_of (pseudo "hover") ≡ None }
{}

/// What stands in an argument stands in the list, and the finding that is named is first by file, place and number.
pub fn findings_of_lists()
    ensures within { list_findings 2 (one (untyped (part_at 4 (simple.Where (one (untyped (part_at 9 simple.Foreign ∷ [])) ∷ [])) ∷ [])) ∷ []) ≡ found_at 2 4 X6 ∷ found_at 2 9 X11 ∷ [] }
    ensures by_file { first_finding (found_at 2 0 X6 ∷ found_at 1 9 X22 ∷ []) ≡ Some (found_at 1 9 X22) }
    ensures by_place { first_finding (found_at 0 9 X6 ∷ found_at 0 4 X22 ∷ found_at 0 5 X6 ∷ []) ≡ Some (found_at 0 4 X22) }
    ensures by_number { first_finding (found_at 0 4 X22 ∷ found_at 0 4 X7 ∷ []) ≡ Some (found_at 0 4 X7) }
{}

/// What stands in groups and other at-rules, each at its place.
pub fn findings_of_groups()
    ensures other { items_findings 1 (items.Other 4 ∷ []) ≡ found_at 1 4 X12 ∷ [] }
    ensures other_in_a_group { items_findings 0 (items.Group (record { condition = Media (media prefixes.Plain "print" ∷ []); items = items.Other 8 ∷ []; at = 2 }) ∷ []) ≡ found_at 0 8 X12 ∷ [] }
    ensures passed_on { items_findings 0 (items.Passed (passed Page [] []) ∷ []) ≡ [] }
    ensures young_under_not { items_findings 0 (items.Group (record { condition = Media (only_if (conditions.Not (bare "hover")) ∷ []); items = []; at = 2 }) ∷ []) ≡ found_at 0 2 X16 ∷ [] }
    ensures two_functions { items_findings 0 (items.Group (record { condition = Supports (supports.And (supports.Function 9 ∷ supports.Not (supports.Function 14) ∷ supported "a" 0 [] ∷ [])); items = []; at = 2 }) ∷ []) ≡ found_at 0 9 X17 ∷ found_at 0 14 X17 ∷ [] }
    ensures condition_first { items_findings 0 (items.Group (record { condition = Supports (supports.Function 5); items = items.Other 8 ∷ []; at = 2 }) ∷ []) ≡ found_at 0 5 X17 ∷ found_at 0 8 X12 ∷ [] }
{}

/// Where a media feature that older browsers do not know stands under a `not`.
pub fn young_features()
    ensures old_under_not { asks_young (only_if (conditions.Not (bare "color")) ∷ []) ≡ false }
    ensures no_not { asks_young (only_if (bare "hover") ∷ []) ≡ false }
    ensures under_not { asks_young (only_if (conditions.Not (bare "hover")) ∷ []) ≡ true }
    ensures under_a_prefix { asks_young (media_and prefixes.Not "screen" (bare "hover") ∷ []) ≡ true }
    ensures another_prefix { asks_young (media_and prefixes.Only "screen" (bare "hover") ∷ []) ≡ false }
    ensures deep_under_not { asks_young (only_if (bare "color") ∷ only_if (conditions.Not (conditions.Or (bare "color" ∷ conditions.And (bare "grid" ∷ bare "hover" ∷ []) ∷ []))) ∷ []) ≡ true }
    ensures beside_a_not { asks_young (only_if (conditions.And (bare "hover" ∷ conditions.Not (bare "color") ∷ [])) ∷ []) ≡ false }
    ensures range_under_not { asks_young (only_if (conditions.Not (ray "width" GreaterEqual "5px")) ∷ []) ≡ false }
{}

/// How many clauses media query lists have, and that a finding is answered before a limit.
pub fn clauses_and_faults()
    ensures no_query { count_of ([]) ≡ 0 }
    ensures plain_queries { count_of (media prefixes.Plain "print" ∷ media_and prefixes.Not "screen" (bare "a") ∷ []) ≡ 0 }
    ensures one_clause { count_of (only_if (conditions.Or (bare "a" ∷ bare "b" ∷ [])) ∷ []) ≡ 1 }
    ensures two_bounds { count_of (only_if (interval "width" (bound Greater "4px") (bound Less "7px")) ∷ []) ≡ 2 }
    ensures product { count_of (only_if (conditions.Or (interval "width" (bound Greater "4px") (bound Less "7px") ∷ interval "height" (bound Greater "4px") (bound Less "7px") ∷ [])) ∷ []) ≡ 4 }
    ensures finding_first { fault_of (Some (found_at 0 4 X12)) (Some L8) ≡ Some (Finding (found_at 0 4 X12)) }
    ensures limit_behind { fault_of None (Some L8) ≡ Some (Limit L8) }
{}
