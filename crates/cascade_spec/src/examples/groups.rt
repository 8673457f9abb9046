//! What stands in groups counts where the conditions of all of them hold (Conditional Rules 3, section 2). The browser of
//! `specs/SelectorSamples.antt` is on a screen.

ghost use Rattle.std.specs.Prelude.{◌≡◌, [], ◌∷◌, true, false, Some, None, codes};
ghost use Rattle.selector_types.specs.Samples.{every, one};
ghost use Rattle.sheet_types.specs.declared.sheet.Item.{Passed};
ghost use Rattle.sheet_types.specs.declared.sheet.PassedKind.TheVariants.{FontFace};
ghost use Rattle.sheet_types.specs.Contexts.{outside};
ghost use Rattle.sheet_types.specs.Samples.{group, passed as passed_rule, plain, rule as style_rule};
ghost use Rattle.sheet_types.specs.Statements.{Passes, Mentions, say_all};
ghost use Rattle.cascade_spec.specs.Contents.{winner, passed_rules};
ghost use Rattle.cascade_spec.specs.Showing.{showing};
ghost use Rattle.cascade_spec.specs.Samples.{asked, face, important, in_layer, inside_groups, layer, layered, normal, on, under};

/// A declaration counts where the condition of each group round it holds.
pub fn declarations_count_in_groups()
    ensures condition_holds { winner (asked false "color") (under (on "screen" ∷ []) (normal "color" "red") ∷ []) ≡ Some (codes "red") }
    ensures condition_fails { winner (asked false "color") (under (on "print" ∷ []) (normal "color" "red") ∷ []) ≡ None }
    ensures nothing_is_shown { (showing (asked false "color") (under (on "print" ∷ []) (normal "color" "red") ∷ [])).entries ≡ [] }
    ensures both_hold { winner (asked false "color") (under (on "screen" ∷ on "all" ∷ []) (normal "color" "red") ∷ []) ≡ Some (codes "red") }
    ensures outermost_fails { winner (asked false "color") (under (on "print" ∷ on "screen" ∷ []) (normal "color" "red") ∷ []) ≡ None }
    ensures innermost_fails { winner (asked false "color") (under (on "screen" ∷ on "print" ∷ []) (normal "color" "red") ∷ []) ≡ None }
    ensures important_too { winner (asked true "color") (under (on "print" ∷ []) (important "color" "red") ∷ []) ≡ None }
    ensures earlier_beside_it { winner (asked false "color") (under [] (normal "color" "red") ∷ under (on "print" ∷ []) (normal "color" "blue") ∷ []) ≡ Some (codes "red") }
    ensures no_more_specific_for_it { winner (asked false "color") (under (on "screen" ∷ []) (normal "color" "red") ∷ under [] (normal "color" "blue") ∷ []) ≡ Some (codes "blue") }
{}

/// So does a rule that is passed on, and of equal ones the last that counts stands.
pub fn passed_rules_count_in_groups()
    ensures condition_holds { passed_rules (asked false "color") (Passes (inside_groups (on "screen" ∷ [])) (face "a") ∷ []) ≡ face "a" ∷ [] }
    ensures condition_fails { passed_rules (asked false "color") (Passes (inside_groups (on "print" ∷ [])) (face "a") ∷ []) ≡ [] }
    ensures outermost_fails { passed_rules (asked false "color") (Passes (inside_groups (on "print" ∷ on "screen" ∷ [])) (face "a") ∷ []) ≡ [] }
    ensures last_of_equal_ones { passed_rules (asked false "color") (Passes outside (face "a") ∷ Passes outside (face "b") ∷ Passes (inside_groups (on "screen" ∷ [])) (face "a") ∷ []) ≡ face "b" ∷ face "a" ∷ [] }
    ensures last_whose_condition_holds { passed_rules (asked false "color") (Passes outside (face "a") ∷ Passes outside (face "b") ∷ Passes (inside_groups (on "print" ∷ [])) (face "a") ∷ []) ≡ face "a" ∷ face "b" ∷ [] }
{}

/// A mention of a layer is one where the condition of each group round it holds (CSS Cascading 5, section 6.4).
pub fn mentions_count_in_groups()
    ensures condition_holds { (showing (asked false "color") (Mentions (inside_groups (on "screen" ∷ [])) (layer "a") ∷ [])).layers ≡ layer "a" ∷ [] }
    ensures condition_fails { (showing (asked false "color") (Mentions (inside_groups (on "print" ∷ [])) (layer "a") ∷ [])).layers ≡ [] }
    ensures outermost_fails { (showing (asked false "color") (Mentions (inside_groups (on "print" ∷ on "screen" ∷ [])) (layer "a") ∷ [])).layers ≡ [] }
    ensures order_where_it_holds { winner (asked false "color") (Mentions (inside_groups (on "screen" ∷ [])) (layer "b") ∷ layered (layer "a" ∷ layer "b" ∷ []) (in_layer (layer "a") (normal "color" "red") ∷ in_layer (layer "b") (normal "color" "blue") ∷ [])) ≡ Some (codes "red") }
    ensures order_where_it_fails { winner (asked false "color") (Mentions (inside_groups (on "print" ∷ [])) (layer "b") ∷ layered (layer "a" ∷ layer "b" ∷ []) (in_layer (layer "a") (normal "color" "red") ∷ in_layer (layer "b") (normal "color" "blue") ∷ [])) ≡ Some (codes "blue") }
{}

/// The same of items: a group gives its condition to all that stands in it.
pub fn groups_are_asked()
    ensures condition_holds { winner (asked false "color") (say_all (group (on "screen") (style_rule (one every ∷ []) (plain "color" "red" ∷ []) ∷ []) ∷ []) outside) ≡ Some (codes "red") }
    ensures condition_fails { winner (asked false "color") (say_all (group (on "print") (style_rule (one every ∷ []) (plain "color" "red" ∷ []) ∷ []) ∷ []) outside) ≡ None }
    ensures group_in_a_group { winner (asked false "color") (say_all (group (on "print") (group (on "screen") (style_rule (one every ∷ []) (plain "color" "red" ∷ []) ∷ []) ∷ []) ∷ []) outside) ≡ None }
    ensures rule_behind_a_group { winner (asked false "color") (say_all (group (on "print") (style_rule (one every ∷ []) (plain "color" "red" ∷ []) ∷ []) ∷ style_rule (one every ∷ []) (plain "color" "blue" ∷ []) ∷ []) outside) ≡ Some (codes "blue") }
    ensures passed_rule { passed_rules (asked false "color") (say_all (group (on "print") (Passed (passed_rule FontFace [] []) ∷ []) ∷ []) outside) ≡ [] }
{}
