//! Worked examples of the definitions of this crate, each the contract of a function that does nothing.

ghost use Rattle.std.specs.Prelude.{◌≡◌, [], ◌∷◌, codes};
ghost use Rattle.media_spelling.specs.declared.condition.Condition as condition;
ghost use Rattle.media_spelling.specs.declared.condition.Prefix.TheVariants.{Plain, Not, Only};
ghost use Rattle.media_spelling.specs.declared.condition.Relation.TheVariants.{Less, LessEqual, Greater, GreaterEqual, Equal};
ghost use Rattle.media_spelling.specs.declared.supports.Supports as supports;
ghost use Rattle.media_spelling.specs.Private.Texts.{behind_text};
ghost use Rattle.media_spelling.specs.Samples.{bare, bound, comment, declared, ident, interval, media, media_and, only_if, ray, space, valued};
ghost use Rattle.media_spelling.specs.Spelling.{queries_text, supports_text};

/// How media queries are written.
pub fn query_texts()
    ensures nothing { queries_text ([]) ≡ codes "" }
    ensures prefixes { queries_text (media Not "screen" ∷ media Only "all" ∷ []) ≡ codes "not screen,only all" }
    ensures name_with_an_escape { queries_text (media Plain "1a" ∷ []) ≡ codes "\\31 a" }
    ensures boolean { queries_text (only_if (bare "color") ∷ []) ≡ codes "(color)" }
    ensures negation { queries_text (only_if (condition.Not (bare "color")) ∷ []) ≡ codes "not (color)" }
    ensures two_joined { queries_text (only_if (condition.And (bare "color" ∷ bare "grid" ∷ [])) ∷ []) ≡ codes "(color) and (grid)" }
    ensures alternatives { queries_text (only_if (condition.Or (bare "color" ∷ bare "grid" ∷ [])) ∷ []) ≡ codes "(color) or (grid)" }
    ensures compound_inside { queries_text (only_if (condition.And (condition.Or (bare "a" ∷ bare "b" ∷ []) ∷ condition.Not (bare "c") ∷ [])) ∷ []) ≡ codes "((a) or (b)) and (not (c))" }
    ensures behind_a_type { behind_text (condition.And (bare "a" ∷ bare "b" ∷ [])) ≡ codes "(a) and (b)" }
    ensures negation_behind_a_type { queries_text (media_and Not "screen" (condition.Not (bare "a")) ∷ []) ≡ codes "not screen and not (a)" }
    ensures alternatives_behind_a_type { queries_text (media_and Only "screen" (condition.Or (bare "a" ∷ bare "b" ∷ [])) ∷ []) ≡ codes "only screen and ((a) or (b))" }
{}

/// How media features are written.
pub fn feature_texts()
    ensures plain { queries_text (only_if (valued "min-width" "5px") ∷ []) ≡ codes "(min-width:5px)" }
    ensures one_bound { queries_text (only_if (ray "width" GreaterEqual "5px") ∷ []) ≡ codes "(width>=5px)" }
    ensures equal { queries_text (only_if (ray "width" Equal "5px") ∷ []) ≡ codes "(width=5px)" }
    ensures two_bounds { queries_text (only_if (interval "width" (bound Greater "4px") (bound LessEqual "7px")) ∷ []) ≡ codes "(4px<width<=7px)" }
    ensures falling_bounds { queries_text (only_if (interval "width" (bound LessEqual "7px") (bound Greater "4px")) ∷ []) ≡ codes "(7px>=width>4px)" }
    ensures dashes_before_a_relation { queries_text (only_if (interval "width" (bound Less "x--") (bound Greater "y")) ∷ []) ≡ codes "(x-- >width>y)" }
{}

/// How supports conditions are written.
pub fn supports_texts()
    ensures declaration { supports_text (declared "display" 0 (ident "grid" ∷ [])) ≡ codes "(display:grid)" }
    ensures white_space_in_a_value { supports_text (declared "a" 0 (ident "b" ∷ comment ∷ space ∷ ident "c" ∷ [])) ≡ codes "(a:b c)" }
    ensures empty_value { supports_text (declared "--x" 0 []) ≡ codes "(--x:)" }
    ensures negation_inside { supports_text (supports.Or (supports.Not (declared "a" 0 (ident "b" ∷ [])) ∷ supports.Function 3 ∷ [])) ≡ codes "(not (a:b)) or f()" }
{}
