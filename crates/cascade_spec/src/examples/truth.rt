//! Which media queries and supports conditions hold on the screen of `specs/TruthSamples.antt` (Media Queries 4, sections 2 and 3;
//! Conditional Rules 3, section 6).

ghost use Rattle.std.specs.Prelude.{◌≡◌, [], ◌∷◌, true, false};
ghost use Rattle.media_spelling.specs.declared.condition.Condition as conditions;
ghost use Rattle.media_spelling.specs.declared.condition.Prefix.TheVariants.{Plain, Not, Only};
ghost use Rattle.media_spelling.specs.declared.condition.Relation.TheVariants.{Less, LessEqual, Greater, GreaterEqual, Equal};
ghost use Rattle.media_spelling.specs.declared.supports.Supports as supports;
ghost use Rattle.media_spelling.specs.Samples.{bare, bound, declared, ident, interval, media, media_and, only_if, ray, valued};
ghost use Rattle.cascade_spec.specs.TruthSamples.{here, list_here, supported_here};

/// Media features in the plain and the boolean context (Media Queries 4, sections 2.4.2 and 2.4.4).
pub fn features_hold()
    ensures same_number { here (valued "width" "700px") ≡ true }
    ensures other_number { here (valued "width" "400px") ≡ false }
    ensures more_than_the_least { here (valued "min-width" "400px") ≡ true }
    ensures least_itself { here (valued "min-width" "700px") ≡ true }
    ensures less_than_the_least { here (valued "min-width" "900px") ≡ false }
    ensures less_than_the_most { here (valued "max-width" "900px") ≡ true }
    ensures most_itself { here (valued "max-width" "700px") ≡ true }
    ensures more_than_the_most { here (valued "max-width" "400px") ≡ false }
    ensures first_number_of_a_name { here (valued "color" "8") ≡ true }
    ensures no_number_is_0 { here (valued "height" "0") ≡ true }
    ensures value_without_a_number_is_0 { here (valued "monochrome" "1em") ≡ true }
    ensures boolean { here (bare "color") ≡ true }
    ensures boolean_by_the_list_alone { here (bare "width") ≡ false }
    ensures listed { here (valued "orientation" "landscape") ≡ true }
    ensures listed_with_another_value { here (valued "orientation" "portrait") ≡ false }
    ensures listed_without_a_value { here (bare "orientation") ≡ false }
    ensures prefix_of_a_name_without_a_range { here (valued "min-orientation" "portrait") ≡ true }
    ensures prefix_in_the_boolean_context { here (bare "min-width") ≡ false }
{}

/// Media features in the range context: `<` and `>` leave out the value itself (Media Queries 4, section 2.4.3).
pub fn ranges_hold()
    ensures less { here (ray "width" Less "900px") ≡ true }
    ensures not_less_than_itself { here (ray "width" Less "700px") ≡ false }
    ensures at_most_itself { here (ray "width" LessEqual "700px") ≡ true }
    ensures not_at_most { here (ray "width" LessEqual "400px") ≡ false }
    ensures greater { here (ray "width" Greater "400px") ≡ true }
    ensures not_greater_than_itself { here (ray "width" Greater "700px") ≡ false }
    ensures at_least_itself { here (ray "width" GreaterEqual "700px") ≡ true }
    ensures not_at_least { here (ray "width" GreaterEqual "900px") ≡ false }
    ensures equal { here (ray "width" Equal "700px") ≡ true }
    ensures not_equal { here (ray "width" Equal "900px") ≡ false }
    ensures between { here (interval "width" (bound Greater "400px") (bound LessEqual "700px")) ≡ true }
    ensures not_behind_the_first { here (interval "width" (bound Greater "700px") (bound Less "900px")) ≡ false }
    ensures not_before_the_second { here (interval "width" (bound Greater "400px") (bound Less "700px")) ≡ false }
{}

/// Conditions that are joined (Media Queries 4, section 2.5).
pub fn conditions_hold()
    ensures both { here (conditions.And (bare "color" ∷ ray "width" Greater "400px" ∷ [])) ≡ true }
    ensures one_alone { here (conditions.And (bare "color" ∷ bare "grid" ∷ [])) ≡ false }
    ensures either { here (conditions.Or (bare "grid" ∷ bare "color" ∷ [])) ≡ true }
    ensures neither { here (conditions.Or (bare "grid" ∷ bare "scan" ∷ [])) ≡ false }
    ensures negation { here (conditions.Not (bare "grid")) ≡ true }
    ensures negation_of_a_condition { here (conditions.Not (conditions.Or (bare "grid" ∷ bare "color" ∷ []))) ≡ false }
    ensures negation_of_a_negation { here (conditions.Not (conditions.Not (bare "color"))) ≡ true }
{}

/// Media queries and lists of them (Media Queries 4, sections 2.1 to 2.3).
pub fn lists_hold()
    ensures empty { list_here [] ≡ true }
    ensures same_type { list_here (media Plain "screen" ∷ []) ≡ true }
    ensures other_type { list_here (media Plain "print" ∷ []) ≡ false }
    ensures all { list_here (media Plain "all" ∷ []) ≡ true }
    ensures not_all { list_here (media Not "all" ∷ []) ≡ false }
    ensures only { list_here (media Only "screen" ∷ []) ≡ true }
    ensures only_another { list_here (media Only "print" ∷ []) ≡ false }
    ensures type_and_condition { list_here (media_and Plain "screen" (ray "width" Greater "400px") ∷ []) ≡ true }
    ensures type_alone { list_here (media_and Plain "screen" (ray "width" Greater "900px") ∷ []) ≡ false }
    ensures condition_alone { list_here (media_and Plain "print" (ray "width" Greater "400px") ∷ []) ≡ false }
    ensures negation_of_the_whole_query { list_here (media_and Not "print" (ray "width" Greater "900px") ∷ []) ≡ true }
    ensures negation_of_what_holds { list_here (media_and Not "screen" (ray "width" Greater "400px") ∷ []) ≡ false }
    ensures negation_of_what_holds_in_part { list_here (media_and Not "screen" (ray "width" Greater "900px") ∷ []) ≡ true }
    ensures condition_without_a_type { list_here (only_if (bare "color") ∷ []) ≡ true }
    ensures one_of_two { list_here (media Plain "print" ∷ media Plain "screen" ∷ []) ≡ true }
    ensures none_of_two { list_here (media Plain "print" ∷ media Not "screen" ∷ []) ≡ false }
{}

/// Supports conditions (Conditional Rules 3, section 6).
pub fn supports_conditions_hold()
    ensures listed { supported_here (declared "display" 0 (ident "grid" ∷ [])) ≡ true }
    ensures other_value { supported_here (declared "display" 0 (ident "flex" ∷ [])) ≡ false }
    ensures other_name { supported_here (declared "float" 0 (ident "grid" ∷ [])) ≡ false }
    ensures both { supported_here (supports.And (declared "display" 0 (ident "grid" ∷ []) ∷ declared "display" 9 (ident "flex" ∷ []) ∷ [])) ≡ false }
    ensures either { supported_here (supports.Or (declared "display" 0 (ident "flex" ∷ []) ∷ declared "display" 9 (ident "grid" ∷ []) ∷ [])) ≡ true }
    ensures both_listed { supported_here (supports.And (declared "display" 0 (ident "grid" ∷ []) ∷ declared "display" 9 (ident "grid" ∷ []) ∷ [])) ≡ true }
    ensures neither { supported_here (supports.Or (declared "display" 0 (ident "flex" ∷ []) ∷ declared "float" 9 (ident "grid" ∷ []) ∷ [])) ≡ false }
    ensures negation_of_what_is_listed { supported_here (supports.Not (declared "display" 0 (ident "grid" ∷ []))) ≡ false }
    ensures negation { supported_here (supports.Not (declared "display" 0 (ident "flex" ∷ []))) ≡ true }
    ensures function { supported_here (supports.Function 0) ≡ false }
{}
