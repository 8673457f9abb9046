//! Worked examples of the definitions of this crate, each the contract of a function that does nothing.

ghost use Rattle.std.specs.Prelude.{◌≡◌, [], ◌∷◌, codes, false, Ok, Err};
ghost use Rattle.selector_types.specs.declared.selector.Simple as simple;
ghost use Rattle.selector_types.specs.declared.selector.Test.TheVariants.{Equals, Word};
ghost use Rattle.selector_tree.specs.Signs.{list_reading};
ghost use Rattle.selector_types.specs.Samples.{attribute, brackets, call, class, colon, comma, comment, delim, ended, hash, id, ident, one, one_at, only, part_at, pseudo, source, space, token, typed, untyped};
ghost use Rattle.css_tokens.specs.declared.kind.Kind.TheVariants as kinds;

/// What selector lists say.
pub fn readings()
    ensures class_name { list_reading false (source (delim "." ∷ ident "a" ∷ [])) 2 ≡ Ok (only (class "a") ∷ []) }
    ensures upper_case { list_reading false (source (ident "A" ∷ colon ∷ ident "HOVER" ∷ [])) 7 ≡ Ok (one (typed "A" (part_at 1 (pseudo "hover") ∷ [])) ∷ []) }
    ensures element_with_one_colon { list_reading false (source (ident "a" ∷ colon ∷ ident "AFTER" ∷ [])) 7 ≡ Ok (one (ended (typed "a" []) "after" []) ∷ []) }
    ensures element_with_two_colons { list_reading false (source (colon ∷ colon ∷ ident "before" ∷ colon ∷ ident "after" ∷ [])) 14 ≡ Ok (one (ended (untyped []) "before" (codes "after" ∷ [])) ∷ []) }
    ensures attribute_value { list_reading false (source (brackets (space ∷ ident "HREF" ∷ space ∷ delim "=" ∷ space ∷ token kinds.String "\"x\"" ∷ space ∷ []) ∷ [])) 16 ≡ Ok (only (simple.Attribute (attribute "HREF" Equals "x")) ∷ []) }
    ensures name_as_a_value { list_reading false (source (brackets (ident "a" ∷ delim "~" ∷ comment ∷ delim "=" ∷ ident "b" ∷ []) ∷ [])) 10 ≡ Ok (only (simple.Attribute (attribute "a" Word "b")) ∷ []) }
    ensures step { list_reading false (source (colon ∷ call "nth-child(" (token kinds.Dimension "2N" ∷ space ∷ delim "+" ∷ space ∷ token kinds.Number "1" ∷ []) ∷ [])) 18 ≡ Ok (only (pseudo "nth-child(2n+1)") ∷ []) }
    ensures lang { list_reading false (source (colon ∷ call "LANG(" (ident "en" ∷ []) ∷ [])) 9 ≡ Ok (only (pseudo "lang(en)") ∷ []) }
    ensures list_in_not { list_reading false (source (colon ∷ call "not(" (delim "." ∷ ident "a" ∷ comma ∷ ident "b" ∷ []) ∷ [])) 10 ≡ Ok (only (simple.Not (one_at 5 (untyped (part_at 5 (class "a") ∷ [])) ∷ one_at 8 (typed "b" []) ∷ [])) ∷ []) }
    ensures empty_is { list_reading false (source (colon ∷ call "is(" (space ∷ []) ∷ [])) 6 ≡ Ok (only (simple.Is []) ∷ []) }
    ensures foreign { list_reading false (source (colon ∷ call "has(" (ident "a" ∷ []) ∷ [])) 7 ≡ Ok (only simple.Foreign ∷ []) }
    ensures foreign_step { list_reading false (source (colon ∷ call "nth-child(" (ident "x" ∷ []) ∷ [])) 13 ≡ Ok (only simple.Foreign ∷ []) }
    ensures step_without_white_space { list_reading false (source (colon ∷ call "nth-child(" (ident "n\\ +\\ 1" ∷ []) ∷ [])) 19 ≡ Ok (only simple.Foreign ∷ []) }
    ensures comment_is_nothing { list_reading false (source (ident "a" ∷ comment ∷ delim "." ∷ ident "b" ∷ [])) 7 ≡ Ok (one (typed "a" (part_at 5 (class "b") ∷ [])) ∷ []) }
{}

/// Names may have escapes and any characters. What is kept of a pseudo-class is spelled as it prints.
pub fn names()
    ensures escaped_type { list_reading false (source (ident "\\31 0" ∷ [])) 5 ≡ Ok (one (typed "10" []) ∷ []) }
    ensures beyond_ascii { list_reading false (source (delim "." ∷ ident "\\e9" ∷ [])) 4 ≡ Ok (only (simple.Class (0xC3 ∷ 0xA9 ∷ [])) ∷ []) }
    ensures escaped_id { list_reading false (source (hash "#\\31 a" ∷ [])) 6 ≡ Ok (only (id "1a") ∷ []) }
    ensures dashes_as_an_id { list_reading false (source (hash "#--" ∷ [])) 3 ≡ Ok (only (id "--") ∷ []) }
    ensures digit_is_no_id { list_reading false (source (hash "#1a" ∷ [])) 3 ≡ Err 0 }
    ensures digit_behind_a_dash_is_no_id { list_reading false (source (hash "#-1" ∷ [])) 3 ≡ Err 0 }
    ensures escaped_letter { list_reading false (source (colon ∷ ident "\\68over" ∷ [])) 9 ≡ Ok (only (pseudo "hover") ∷ []) }
    ensures kept_as_it_prints { list_reading false (source (colon ∷ ident "\\31 A" ∷ [])) 6 ≡ Ok (only (pseudo "\\31 a") ∷ []) }
    ensures escaped_lang { list_reading false (source (colon ∷ call "lang(" (ident "\\65n" ∷ []) ∷ [])) 12 ≡ Ok (only (pseudo "lang(en)") ∷ []) }
    ensures lang_as_it_prints { list_reading false (source (colon ∷ call "lang(" (ident "\\31 A" ∷ []) ∷ [])) 12 ≡ Ok (only (pseudo "lang(\\31 A)") ∷ []) }
{}

/// What is no selector list, and where it is refused.
pub fn faults()
    ensures nothing { list_reading false [] 7 ≡ Err 7 }
    ensures nothing_between { list_reading false (source (ident "a" ∷ comma ∷ comma ∷ ident "b" ∷ [])) 4 ≡ Err 2 }
    ensures empty_not { list_reading false (source (ident "a" ∷ colon ∷ call "not(" [] ∷ [])) 7 ≡ Err 0 }
    ensures comma_in_is { list_reading false (source (colon ∷ call "is(" (comma ∷ []) ∷ [])) 6 ≡ Err 0 }
    ensures two_compounds_in_local { list_reading false (source (colon ∷ call "local(" (ident "a" ∷ space ∷ ident "b" ∷ []) ∷ [])) 12 ≡ Err 0 }
    ensures part_behind_an_element { list_reading false (source (colon ∷ colon ∷ ident "after" ∷ delim "." ∷ ident "a" ∷ [])) 9 ≡ Err 0 }
    ensures compound_behind_an_element { list_reading false (source (colon ∷ colon ∷ ident "after" ∷ space ∷ ident "a" ∷ [])) 9 ≡ Err 0 }
    ensures operator_apart { list_reading false (source (brackets (ident "a" ∷ delim "~" ∷ space ∷ delim "=" ∷ ident "b" ∷ []) ∷ [])) 7 ≡ Err 0 }
    ensures lead_outside { list_reading false (source (delim ">" ∷ ident "a" ∷ [])) 2 ≡ Err 0 }
{}
