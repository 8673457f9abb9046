//! Worked examples of the definitions of this crate, each the contract of a function that does nothing.

ghost use Rattle.std.specs.Prelude.{◌≡◌, [], ◌∷◌, None, Some, codes};
ghost use Rattle.import_rules.specs.BareRules.{bare_rule};
ghost use Rattle.import_rules.specs.Imports.{import_reading};
ghost use Rattle.import_rules.specs.Samples.{import_of, import_under, import_where, string, url};
ghost use Rattle.import_rules.specs.declared.import.ImportRule.TheVariants.{Read, Waiting, Unread};
ghost use Rattle.media_spelling.specs.Samples.{bare, braces, call, colon, comma, comment, declared, ident, media, number, only_if, parens, source, space};
ghost use Rattle.media_spelling.specs.declared.condition.Prefix.TheVariants.{Plain, Not};
ghost use Rattle.media_spelling.specs.declared.supports.Supports as supports;

/// What imports a target alone.
pub fn targets()
    ensures quoted { import_reading 4 (source (string "\"b.css\"" ∷ [])) ≡ import_of "b.css" }
    ensures in_single_quotes { import_reading 4 (source (string "'b.css'" ∷ [])) ≡ import_of "b.css" }
    ensures escapes { import_reading 4 (source (string "\"\\62 \\\"c\"" ∷ [])) ≡ import_of "b\"c" }
    ensures empty { import_reading 4 (source (string "\"\"" ∷ [])) ≡ import_of "" }
    ensures address { import_reading 4 (source (url "url(b.css)" ∷ [])) ≡ import_of "b.css" }
    ensures escapes_in_an_address { import_reading 4 (source (url "url( \\62 c )" ∷ [])) ≡ import_of "bc" }
    ensures function { import_reading 4 (source (call "url(" (string "\"b\"" ∷ []) ∷ [])) ≡ import_of "b" }
    ensures function_in_capitals { import_reading 4 (source (call "URL(" (space ∷ string "\"b\"" ∷ comment ∷ []) ∷ [])) ≡ import_of "b" }
    ensures white_space_behind { import_reading 4 (source (string "\"b\"" ∷ space ∷ comment ∷ [])) ≡ import_of "b" }
{}

/// What imports nothing.
pub fn no_targets()
    ensures nothing { import_reading 4 (source []) ≡ Unread }
    ensures digit { import_reading 4 (source (number "1" ∷ [])) ≡ Unread }
    ensures name { import_reading 4 (source (ident "b" ∷ [])) ≡ Unread }
    ensures two_strings { import_reading 4 (source (call "url(" (string "\"b\"" ∷ space ∷ string "\"c\"" ∷ []) ∷ [])) ≡ Unread }
    ensures no_string { import_reading 4 (source (call "url(" (ident "b" ∷ []) ∷ [])) ≡ Unread }
    ensures empty_function { import_reading 4 (source (call "url(" [] ∷ [])) ≡ Unread }
    ensures another_function { import_reading 4 (source (call "f(" (string "\"b\"" ∷ []) ∷ [])) ≡ Unread }
    ensures in_parentheses { import_reading 4 (source (parens (string "\"b\"" ∷ []) ∷ [])) ≡ Unread }
    ensures conditions_alone { import_reading 4 (source (ident "print" ∷ space ∷ string "\"b\"" ∷ [])) ≡ Unread }
{}

/// What imports into a layer.
pub fn layers()
    ensures keyword { import_reading 4 (source (string "\"b\"" ∷ space ∷ ident "layer" ∷ [])) ≡ Waiting }
    ensures in_capitals { import_reading 4 (source (string "\"b\"" ∷ ident "LAYER" ∷ [])) ≡ Waiting }
    ensures named { import_reading 4 (source (string "\"b\"" ∷ comment ∷ call "Layer(" (ident "a" ∷ []) ∷ [])) ≡ Waiting }
    ensures before_conditions { import_reading 4 (source (url "url(b)" ∷ space ∷ ident "layer" ∷ space ∷ ident "print" ∷ [])) ≡ Waiting }
    ensures behind_a_type { import_reading 4 (source (string "\"b\"" ∷ space ∷ ident "print" ∷ space ∷ ident "layer" ∷ [])) ≡ Unread }
    ensures of_no_target { import_reading 4 (source (number "1" ∷ space ∷ ident "layer" ∷ [])) ≡ Unread }
{}

/// What imports under conditions.
pub fn conditions()
    ensures media { import_reading 4 (source (string "\"b\"" ∷ space ∷ ident "print" ∷ comma ∷ parens (ident "color" ∷ []) ∷ [])) ≡ import_under "b" None (media Plain "print" ∷ only_if (bare "color") ∷ []) }
    ensures function { import_reading 4 (source (call "url(" (string "\"b\"" ∷ []) ∷ ident "not" ∷ space ∷ ident "print" ∷ [])) ≡ import_under "b" None (media Not "print" ∷ []) }
    ensures declaration { import_reading 4 (source (string "\"b\"" ∷ space ∷ call "supports(" (ident "display" ∷ colon ∷ ident "grid" ∷ []) ∷ [])) ≡ import_where "b" (declared "display" 21 (ident "grid" ∷ [])) }
    ensures negation { import_reading 4 (source (string "\"b\"" ∷ call "SUPPORTS(" (ident "not" ∷ space ∷ parens (ident "a" ∷ colon ∷ ident "b" ∷ []) ∷ []) ∷ [])) ≡ import_where "b" (supports.Not (declared "a" 19 (ident "b" ∷ []))) }
    ensures in_parentheses { import_reading 4 (source (string "\"b\"" ∷ call "supports(" (parens (ident "a" ∷ colon ∷ ident "b" ∷ []) ∷ []) ∷ [])) ≡ import_where "b" (declared "a" 15 (ident "b" ∷ [])) }
    ensures both { import_reading 4 (source (string "\"b\"" ∷ comment ∷ space ∷ call "supports(" (ident "a" ∷ colon ∷ ident "b" ∷ []) ∷ comment ∷ ident "print" ∷ space ∷ [])) ≡ import_under "b" (Some (declared "a" 19 (ident "b" ∷ []))) (media Plain "print" ∷ []) }
    ensures without_places { bare_rule (import_reading 4 (source (string "\"b\"" ∷ call "supports(" (ident "a" ∷ colon ∷ ident "b" ∷ []) ∷ []))) ≡ Read (record { target = codes "b"; supports = Some (declared "a" 0 (ident "b" ∷ [])); media = []; at = 0 }) }
{}

/// What imports under no readable conditions.
pub fn no_conditions()
    ensures empty_supports { import_reading 4 (source (string "\"b\"" ∷ call "supports(" [] ∷ [])) ≡ Unread }
    ensures name_in_supports { import_reading 4 (source (string "\"b\"" ∷ call "supports(" (ident "a" ∷ []) ∷ [])) ≡ Unread }
    ensures block_as_a_value { import_reading 4 (source (string "\"b\"" ∷ call "supports(" (ident "a" ∷ colon ∷ braces [] ∷ []) ∷ [])) ≡ Unread }
    ensures unreadable_supports_before_media { import_reading 4 (source (string "\"b\"" ∷ call "supports(" [] ∷ ident "print" ∷ [])) ≡ Unread }
    ensures supports_behind_media { import_reading 4 (source (string "\"b\"" ∷ ident "print" ∷ space ∷ call "supports(" (ident "a" ∷ colon ∷ ident "b" ∷ []) ∷ [])) ≡ Unread }
    ensures two_supports { import_reading 4 (source (string "\"b\"" ∷ call "supports(" (ident "a" ∷ colon ∷ ident "b" ∷ []) ∷ call "supports(" (ident "a" ∷ colon ∷ ident "b" ∷ []) ∷ [])) ≡ Unread }
    ensures another_function { import_reading 4 (source (string "\"b\"" ∷ call "f(" (ident "a" ∷ colon ∷ ident "b" ∷ []) ∷ [])) ≡ Unread }
    ensures comma_at_the_end { import_reading 4 (source (string "\"b\"" ∷ ident "print" ∷ comma ∷ [])) ≡ Unread }
    ensures string_behind_the_target { import_reading 4 (source (string "\"b\"" ∷ space ∷ string "\"c\"" ∷ [])) ≡ Unread }
{}
