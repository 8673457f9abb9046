//! Worked examples of the definitions of this crate, each the contract of a function that does nothing.

ghost use Rattle.std.specs.Prelude.{◌≡◌, [], ◌∷◌, Some, None, codes, true, false};
ghost use Rattle.css_tokens.specs.declared.kind.Kind.TheVariants as kinds;
ghost use Rattle.media_spelling.specs.declared.condition.Condition as condition;
ghost use Rattle.media_spelling.specs.declared.condition.Prefix.TheVariants.{Plain, Not, Only};
ghost use Rattle.media_spelling.specs.declared.condition.Relation.TheVariants.{Less, LessEqual, Greater, Equal};
ghost use Rattle.media_spelling.specs.declared.supports.Supports as supports;
ghost use Rattle.prop_table.specs.OldFeatures.{is_range_feature};
ghost use Rattle.media_tree.specs.Queries.{queries_reading};
ghost use Rattle.media_spelling.specs.Samples.{bare, bound, braces, call, colon, comma, comment, declared, delim, dimension, ident, interval, media, media_and, number, only_if, parens, ray, semicolon, source, space, token, valued};
ghost use Rattle.media_tree.specs.SupportsReading.{supports_reading};

/// What media query lists say.
pub fn query_readings()
    ensures nothing { queries_reading (source (space ∷ comment ∷ [])) ≡ Some ([]) }
    ensures type_in_capitals { queries_reading (source (ident "SCREEN" ∷ [])) ≡ Some (media Plain "screen" ∷ []) }
    ensures prefix { queries_reading (source (ident "NOT" ∷ space ∷ ident "print" ∷ [])) ≡ Some (media Not "print" ∷ []) }
    ensures only_prefix { queries_reading (source (ident "only" ∷ comment ∷ ident "all" ∷ [])) ≡ Some (media Only "all" ∷ []) }
    ensures two_queries { queries_reading (source (ident "print" ∷ comma ∷ space ∷ parens (ident "color" ∷ []) ∷ [])) ≡ Some (media Plain "print" ∷ only_if (bare "color") ∷ []) }
    ensures negation { queries_reading (source (ident "not" ∷ space ∷ parens (ident "color" ∷ []) ∷ [])) ≡ Some (only_if (condition.Not (bare "color")) ∷ []) }
    ensures three_joined { queries_reading (source (parens (ident "a" ∷ []) ∷ ident "and" ∷ parens (ident "b" ∷ []) ∷ ident "AND" ∷ parens (ident "c" ∷ []) ∷ [])) ≡ Some (only_if (condition.And (bare "a" ∷ bare "b" ∷ bare "c" ∷ [])) ∷ []) }
    ensures alternatives { queries_reading (source (parens (ident "a" ∷ []) ∷ ident "or" ∷ parens (ident "b" ∷ []) ∷ [])) ≡ Some (only_if (condition.Or (bare "a" ∷ bare "b" ∷ [])) ∷ []) }
    ensures behind_a_type { queries_reading (source (ident "screen" ∷ ident "and" ∷ parens (ident "a" ∷ []) ∷ ident "and" ∷ parens (ident "b" ∷ []) ∷ [])) ≡ Some (media_and Plain "screen" (condition.And (bare "a" ∷ bare "b" ∷ [])) ∷ []) }
    ensures negation_behind_a_type { queries_reading (source (ident "not" ∷ ident "screen" ∷ ident "and" ∷ ident "not" ∷ parens (ident "a" ∷ []) ∷ [])) ≡ Some (media_and Not "screen" (condition.Not (bare "a")) ∷ []) }
    ensures further_parentheses { queries_reading (source (parens (parens (parens (ident "a" ∷ []) ∷ []) ∷ []) ∷ [])) ≡ Some (only_if (bare "a") ∷ []) }
    ensures nested { queries_reading (source (parens (parens (ident "a" ∷ []) ∷ ident "or" ∷ parens (ident "b" ∷ []) ∷ []) ∷ ident "and" ∷ parens (ident "c" ∷ []) ∷ [])) ≡ Some (only_if (condition.And (condition.Or (bare "a" ∷ bare "b" ∷ []) ∷ bare "c" ∷ [])) ∷ []) }
    ensures not_as_a_feature { queries_reading (source (parens (ident "not" ∷ []) ∷ [])) ≡ Some (only_if (bare "not") ∷ []) }
{}

/// What is no media query list.
pub fn no_queries()
    ensures empty_query { queries_reading (source (ident "print" ∷ comma ∷ [])) ≡ None }
    ensures empty_first_query { queries_reading (source (comma ∷ ident "print" ∷ [])) ≡ None }
    ensures layer_as_a_type { queries_reading (source (ident "layer" ∷ [])) ≡ None }
    ensures keyword_as_a_type { queries_reading (source (ident "and" ∷ [])) ≡ None }
    ensures only_before_a_condition { queries_reading (source (ident "only" ∷ parens (ident "a" ∷ []) ∷ [])) ≡ None }
    ensures and_with_or { queries_reading (source (parens (ident "a" ∷ []) ∷ ident "and" ∷ parens (ident "b" ∷ []) ∷ ident "or" ∷ parens (ident "c" ∷ []) ∷ [])) ≡ None }
    ensures or_behind_a_type { queries_reading (source (ident "screen" ∷ ident "and" ∷ parens (ident "a" ∷ []) ∷ ident "or" ∷ parens (ident "b" ∷ []) ∷ [])) ≡ None }
    ensures not_behind_and { queries_reading (source (parens (ident "a" ∷ []) ∷ ident "and" ∷ ident "not" ∷ parens (ident "b" ∷ []) ∷ [])) ≡ None }
    ensures and_at_the_end { queries_reading (source (parens (ident "a" ∷ []) ∷ ident "and" ∷ [])) ≡ None }
    ensures without_and { queries_reading (source (ident "screen" ∷ parens (ident "a" ∷ []) ∷ [])) ≡ None }
    ensures function { queries_reading (source (call "f(" [] ∷ [])) ≡ None }
    ensures empty_parentheses { queries_reading (source (parens [] ∷ [])) ≡ None }
{}

/// What media features say.
pub fn feature_readings()
    ensures plain { queries_reading (source (parens (ident "MIN-width" ∷ space ∷ colon ∷ space ∷ dimension "5px" ∷ []) ∷ [])) ≡ Some (only_if (valued "min-width" "5px") ∷ []) }
    ensures name_as_a_value { queries_reading (source (parens (ident "scan" ∷ colon ∷ ident "Interlace" ∷ []) ∷ [])) ≡ Some (only_if (valued "scan" "Interlace") ∷ []) }
    ensures ratio { queries_reading (source (parens (ident "aspect-ratio" ∷ colon ∷ number "16" ∷ space ∷ delim "/" ∷ space ∷ number "9" ∷ []) ∷ [])) ≡ Some (only_if (valued "aspect-ratio" "16/9") ∷ []) }
    ensures ratio_with_a_comment { queries_reading (source (parens (ident "aspect-ratio" ∷ colon ∷ number "16" ∷ comment ∷ delim "/" ∷ number "9" ∷ []) ∷ [])) ≡ Some (only_if (valued "aspect-ratio" "16/**//9") ∷ []) }
    ensures less { queries_reading (source (parens (ident "width" ∷ delim "<" ∷ dimension "5px" ∷ []) ∷ [])) ≡ Some (only_if (ray "width" Less "5px") ∷ []) }
    ensures less_or_equal { queries_reading (source (parens (ident "width" ∷ delim "<" ∷ delim "=" ∷ dimension "5px" ∷ []) ∷ [])) ≡ Some (only_if (ray "width" LessEqual "5px") ∷ []) }
    ensures equal { queries_reading (source (parens (ident "width" ∷ delim "=" ∷ dimension "5px" ∷ []) ∷ [])) ≡ Some (only_if (ray "width" Equal "5px") ∷ []) }
    ensures value_first { queries_reading (source (parens (dimension "5px" ∷ delim ">" ∷ delim "=" ∷ ident "width" ∷ []) ∷ [])) ≡ Some (only_if (ray "width" LessEqual "5px") ∷ []) }
    ensures two_names { queries_reading (source (parens (ident "width" ∷ delim ">" ∷ ident "height" ∷ []) ∷ [])) ≡ Some (only_if (ray "width" Greater "height") ∷ []) }
    ensures name_behind_another { queries_reading (source (parens (ident "x" ∷ delim "<" ∷ ident "height" ∷ []) ∷ [])) ≡ Some (only_if (ray "height" Greater "x") ∷ []) }
    ensures two_bounds { queries_reading (source (parens (dimension "4px" ∷ delim "<" ∷ ident "width" ∷ delim "<" ∷ delim "=" ∷ dimension "7px" ∷ []) ∷ [])) ≡ Some (only_if (interval "width" (bound Greater "4px") (bound LessEqual "7px")) ∷ []) }
    ensures falling_bounds { queries_reading (source (parens (dimension "7px" ∷ delim ">" ∷ delim "=" ∷ ident "width" ∷ delim ">" ∷ dimension "4px" ∷ []) ∷ [])) ≡ Some (only_if (interval "width" (bound LessEqual "7px") (bound Greater "4px")) ∷ []) }
{}

/// What is no media feature.
pub fn no_features()
    ensures name_without_a_range { queries_reading (source (parens (ident "min-width" ∷ delim ">" ∷ dimension "5px" ∷ []) ∷ [])) ≡ None }
    ensures parted_relation { queries_reading (source (parens (ident "width" ∷ delim "<" ∷ comment ∷ delim "=" ∷ dimension "5px" ∷ []) ∷ [])) ≡ None }
    ensures bounds_both_ways { queries_reading (source (parens (dimension "4px" ∷ delim "<" ∷ ident "width" ∷ delim ">" ∷ dimension "7px" ∷ []) ∷ [])) ≡ None }
    ensures equal_bounds { queries_reading (source (parens (dimension "4px" ∷ delim "=" ∷ ident "width" ∷ delim "=" ∷ dimension "7px" ∷ []) ∷ [])) ≡ None }
    ensures no_value { queries_reading (source (parens (ident "width" ∷ colon ∷ []) ∷ [])) ≡ None }
    ensures two_values { queries_reading (source (parens (ident "width" ∷ colon ∷ number "1" ∷ space ∷ number "2" ∷ []) ∷ [])) ≡ None }
    ensures percentage { queries_reading (source (parens (ident "width" ∷ colon ∷ token kinds.Percentage "5%" ∷ []) ∷ [])) ≡ None }
    ensures ratio_of_dimensions { queries_reading (source (parens (ident "width" ∷ colon ∷ dimension "5px" ∷ delim "/" ∷ number "9" ∷ []) ∷ [])) ≡ None }
    ensures value_alone { queries_reading (source (parens (dimension "5px" ∷ []) ∷ [])) ≡ None }
    ensures monochrome { is_range_feature (codes "monochrome") ≡ true }
    ensures orientation { is_range_feature (codes "orientation") ≡ false }
{}

/// What supports conditions say.
pub fn supports_readings()
    ensures declaration { supports_reading (source (parens (ident "A" ∷ space ∷ colon ∷ space ∷ ident "b" ∷ space ∷ []) ∷ [])) ≡ Some (declared "a" 5 (ident "b" ∷ [])) }
    ensures custom_property { supports_reading (source (parens (ident "--X" ∷ colon ∷ []) ∷ [])) ≡ Some (declared "--X" 5 []) }
    ensures negation { supports_reading (source (ident "not" ∷ parens (ident "a" ∷ colon ∷ ident "b" ∷ []) ∷ [])) ≡ Some (supports.Not (declared "a" 6 (ident "b" ∷ []))) }
    ensures joined { supports_reading (source (parens (ident "a" ∷ colon ∷ ident "b" ∷ []) ∷ ident "and" ∷ parens (ident "a" ∷ colon ∷ ident "b" ∷ []) ∷ [])) ≡ Some (supports.And (declared "a" 3 (ident "b" ∷ []) ∷ declared "a" 11 (ident "b" ∷ []) ∷ [])) }
    ensures alternatives { supports_reading (source (parens (ident "a" ∷ colon ∷ ident "b" ∷ []) ∷ ident "or" ∷ call "f(" [] ∷ [])) ≡ Some (supports.Or (declared "a" 3 (ident "b" ∷ []) ∷ supports.Function 7 ∷ [])) }
    ensures further_parentheses { supports_reading (source (parens (parens (ident "a" ∷ colon ∷ ident "b" ∷ []) ∷ []) ∷ [])) ≡ Some (declared "a" 4 (ident "b" ∷ [])) }
{}

/// What is no supports condition.
pub fn no_supports()
    ensures nothing { supports_reading (source (space ∷ [])) ≡ None }
    ensures important { supports_reading (source (parens (ident "a" ∷ colon ∷ ident "b" ∷ delim "!" ∷ ident "important" ∷ []) ∷ [])) ≡ None }
    ensures semicolon { supports_reading (source (parens (ident "a" ∷ colon ∷ ident "b" ∷ semicolon ∷ []) ∷ [])) ≡ None }
    ensures empty_value { supports_reading (source (parens (ident "a" ∷ colon ∷ space ∷ []) ∷ [])) ≡ None }
    ensures block_in_a_value { supports_reading (source (parens (ident "a" ∷ colon ∷ braces [] ∷ []) ∷ [])) ≡ None }
    ensures no_colon { supports_reading (source (parens (ident "a" ∷ []) ∷ [])) ≡ None }
    ensures and_with_or { supports_reading (source (parens (ident "a" ∷ colon ∷ ident "b" ∷ []) ∷ ident "and" ∷ parens (ident "a" ∷ colon ∷ ident "b" ∷ []) ∷ ident "or" ∷ parens (ident "a" ∷ colon ∷ ident "b" ∷ []) ∷ [])) ≡ None }
    ensures name_alone { supports_reading (source (ident "a" ∷ [])) ≡ None }
{}
