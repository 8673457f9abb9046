//! Worked examples of the definitions of this crate, each the contract of a function that does nothing.

ghost use Rattle.std.specs.Prelude.{◌≡◌, [], ◌∷◌, codes, true, false};
ghost use Rattle.std.specs.declared.cmp.Ordering.TheVariants.{Less, Equal, Greater};
ghost use Rattle.selector_types.specs.declared.selector.Combinator.TheVariants.{Descendant, Child, Next, Later};
ghost use Rattle.selector_types.specs.declared.selector.Simple as simple;
ghost use Rattle.selector_types.specs.declared.selector.Test.TheVariants.{Has, Equals, Word};
ghost use Rattle.selector_types.specs.Preludes.{begins_solid, ends_solid, is_prelude_word};
ghost use Rattle.selector_types.specs.ReadableSelectors.{is_readable_list, is_spelled, is_writable_list};
ghost use Rattle.selector_types.specs.Spelling as spelled;
ghost use Rattle.selector_types.specs.Spelling.{list_spelling, list_text, test_spelling};
ghost use Rattle.selector_types.specs.Specificities.{greatest, nothing, plus, selector_specificity, specificity_cmp};
ghost use Rattle.selector_types.specs.Samples.{attribute, class, ended, every, flagged, id, led, one, only, part_at, pseudo, triple, two, typed, untyped};
ghost use Rattle.css_tokens.specs.Again.{word_from};
ghost use Rattle.css_tokens.specs.declared.kind.Kind.TheVariants as kinds;

/// How specific selectors are: examples of Selectors 4, section 17, where the list around counts two ids.
pub fn specificities()
    ensures universal { selector_specificity (triple 2 0 0) (one every) ≡ triple 0 0 0 }
    ensures type_name { selector_specificity (triple 2 0 0) (one (typed "li" [])) ≡ triple 0 0 1 }
    ensures descendant { selector_specificity (triple 2 0 0) (two (typed "ul" []) Descendant (typed "li" [])) ≡ triple 0 0 2 }
    ensures class_name { selector_specificity (triple 2 0 0) (only (class "a")) ≡ triple 0 1 0 }
    ensures id_name { selector_specificity (triple 2 0 0) (only (id "a")) ≡ triple 1 0 0 }
    ensures attribute_as_a_class { selector_specificity (triple 2 0 0) (only (simple.Attribute (attribute "a" Has ""))) ≡ triple 0 1 0 }
    ensures pseudo_class { selector_specificity (triple 2 0 0) (only (pseudo "hover")) ≡ triple 0 1 0 }
    ensures pseudo_element_as_a_type { selector_specificity (triple 2 0 0) (one (ended (untyped []) "before" [])) ≡ triple 0 0 1 }
    ensures states_as_classes { selector_specificity (triple 2 0 0) (one (ended (typed "p" []) "before" (codes "hover" ∷ codes "focus" ∷ []))) ≡ triple 0 2 2 }
    ensures parent_as_the_list_around { selector_specificity (triple 2 0 0) (only simple.Parent) ≡ triple 2 0 0 }
    ensures foreign { selector_specificity (triple 2 0 0) (only simple.Foreign) ≡ triple 0 0 0 }
    ensures local { selector_specificity (triple 2 0 0) (only (simple.Local (typed "p" (part_at 0 (class "a") ∷ [])))) ≡ triple 0 1 1 }
    ensures global { selector_specificity (triple 2 0 0) (only (simple.Global (untyped (part_at 0 (id "a") ∷ [])))) ≡ triple 1 0 0 }
{}

/// Lists in selectors count as their most specific member, and `:where` as nothing.
pub fn specificities_of_lists()
    ensures not_as_its_most { selector_specificity nothing (only (simple.Not (only (class "a") ∷ only (id "b") ∷ only (class "c") ∷ []))) ≡ triple 1 0 0 }
    ensures is_as_its_most { selector_specificity nothing (only (simple.Is (only (id "b") ∷ only (class "a") ∷ []))) ≡ triple 1 0 0 }
    ensures where_as_nothing { selector_specificity nothing (only (simple.Where (only (id "a") ∷ []))) ≡ triple 0 0 0 }
    ensures is_of_none { selector_specificity nothing (only (simple.Is [])) ≡ triple 0 0 0 }
    ensures greatest_of_several { greatest (triple 0 0 9 ∷ triple 0 1 0 ∷ triple 0 0 1 ∷ []) ≡ triple 0 1 0 }
    ensures ids_first { specificity_cmp (triple 1 0 0) (triple 0 300 300) ≡ Greater }
    ensures then_classes { specificity_cmp (triple 0 1 0) (triple 0 0 300) ≡ Greater }
    ensures then_types { specificity_cmp (triple 0 1 1) (triple 0 1 2) ≡ Less }
    ensures ties { specificity_cmp (triple 1 2 3) (triple 1 2 3) ≡ Equal }
    ensures classes_up_to_a_cap { plus (triple 0 65535 1) (triple 0 5 1) ≡ triple 0 65536 2 }
    ensures ids_up_to_a_cap { plus (triple 65536 0 0) (triple 1 1 1) ≡ triple 65536 1 1 }
    ensures types_up_to_a_cap { plus (triple 0 0 65536) (triple 0 0 65536) ≡ triple 0 0 65536 }
{}

/// How selectors are written.
pub fn texts()
    ensures class_name { list_spelling (only (class "a") ∷ []) ≡ spelled.delim (codes ".") ∷ spelled.ident (codes "a") ∷ [] }
    ensures class_that_begins_with_a_digit { list_text (only (class "1a") ∷ []) ≡ codes ".\\31 a" }
    ensures attribute_alone { list_spelling (only (simple.Attribute (attribute "a" Has "")) ∷ []) ≡ spelled.block kinds.Open (codes "[") (spelled.ident (codes "a") ∷ []) ∷ [] }
    ensures attribute_value { test_spelling Word (codes "x y") ≡ spelled.delim (codes "~") ∷ spelled.delim (codes "=") ∷ spelled.single kinds.String (codes "\"x y\"") ∷ [] }
    ensures quote_in_a_value { test_spelling Equals (codes "\"") ≡ spelled.delim (codes "=") ∷ spelled.single kinds.String (codes "\"\\\"\"") ∷ [] }
    ensures two_selectors { list_text (only simple.Parent ∷ one every ∷ []) ≡ codes "&,*" }
    ensures descendant { list_text (two every Descendant every ∷ []) ≡ codes "* *" }
    ensures child { list_text (two every Child every ∷ []) ≡ codes "*>*" }
    ensures child_behind_dashes { list_text (two (untyped (part_at 0 (pseudo "x--") ∷ [])) Child every ∷ []) ≡ codes ":x-- >*" }
    ensures next { list_text (two every Next every ∷ []) ≡ codes "*+*" }
    ensures later { list_text (two every Later every ∷ []) ≡ codes "*~*" }
    ensures step { list_text (only (pseudo "nth-child(2n+1)") ∷ []) ≡ codes ":nth-child(2n+1)" }
    ensures lang_of_a_plus { list_spelling (only (pseudo "lang(a\\+b)") ∷ []) ≡ spelled.colon ∷ spelled.block kinds.Function (codes "lang(") (spelled.single kinds.Ident (codes "a\\+b") ∷ []) ∷ [] }
    ensures step_of_two { list_spelling (only (pseudo "nth-child(-n+3)") ∷ []) ≡ spelled.colon ∷ spelled.block kinds.Function (codes "nth-child(") (spelled.single kinds.Ident (codes "-n") ∷ spelled.single kinds.Number (codes "+3") ∷ []) ∷ [] }
    ensures element { list_text (one (ended every "after" (codes "hover" ∷ [])) ∷ []) ≡ codes "*::after:hover" }
    ensures not_of_two { list_text (only (simple.Not (only (pseudo "hover") ∷ one every ∷ [])) ∷ []) ≡ codes ":not(:hover,*)" }
    ensures empty_is { list_text (only (simple.Is []) ∷ []) ≡ codes ":is()" }
    ensures where_in_local { list_text (only (simple.Local (untyped (part_at 0 (simple.Where (only simple.Parent ∷ [])) ∷ []))) ∷ []) ≡ codes ":local(:where(&))" }
{}

/// Words that end or begin a rule, and lists of words with white space or a comment at an end.
pub fn preludes()
    ensures name { is_prelude_word (word_from kinds.Ident (codes "a")) ≡ true }
    ensures bracket { is_prelude_word (word_from kinds.Open (codes "[")) ≡ true }
    ensures brace { is_prelude_word (word_from kinds.Open (codes "{")) ≡ false }
    ensures semicolon { is_prelude_word (word_from kinds.Semicolon (codes ";")) ≡ false }
    ensures at_keyword { is_prelude_word (word_from kinds.At (codes "@media")) ≡ false }
    ensures nothing_begins { begins_solid [] ≡ false }
    ensures nothing_ends { ends_solid [] ≡ false }
    ensures space_first { begins_solid (word_from kinds.White (codes " ") ∷ word_from kinds.Ident (codes "a") ∷ []) ≡ false }
    ensures name_last { ends_solid (word_from kinds.White (codes " ") ∷ word_from kinds.Ident (codes "a") ∷ []) ≡ true }
    ensures comment_last { ends_solid (word_from kinds.Ident (codes "a") ∷ word_from kinds.Comment (codes "/**/") ∷ []) ≡ false }
{}

/// Which selectors have a spelling that is read as them.
pub fn readable_lists()
    ensures class_and_id { is_readable_list false (one (typed "p" (part_at 0 (class "a") ∷ part_at 0 (id "1a") ∷ [])) ∷ one every ∷ []) ≡ true }
    ensures attribute_alone { is_readable_list false (only (simple.Attribute (attribute "a" Has "")) ∷ []) ≡ true }
    ensures attribute_value { is_readable_list false (only (simple.Attribute (attribute "a" Equals "\"")) ∷ []) ≡ true }
    ensures pseudo_class { is_readable_list false (only (pseudo "hover") ∷ []) ≡ true }
    ensures step { is_readable_list false (only (pseudo "nth-child(2n+1)") ∷ []) ≡ true }
    ensures step_with_a_sign { is_readable_list false (only (pseudo "nth-last-of-type(+2n)") ∷ []) ≡ true }
    ensures lang { is_readable_list false (only (pseudo "lang(a\\+b)") ∷ []) ≡ true }
    ensures element { is_readable_list false (two every Descendant (ended (untyped []) "after" (codes "hover" ∷ [])) ∷ []) ≡ true }
    ensures lead { is_readable_list true (led Child every ∷ []) ≡ true }
    ensures empty_is { is_readable_list false (only (simple.Is []) ∷ only (simple.Where []) ∷ []) ≡ true }
    ensures not_of_two { is_readable_list false (only (simple.Not (only (class "a") ∷ only simple.Parent ∷ [])) ∷ []) ≡ true }
    ensures local { is_readable_list false (only (simple.Local (typed "p" (part_at 0 (class "a") ∷ []))) ∷ []) ≡ true }
{}

/// Which have none.
pub fn unreadable_lists()
    ensures nothing { is_readable_list false [] ≡ false }
    ensures nothing_in_a_compound { is_readable_list false (one (untyped []) ∷ []) ≡ false }
    ensures class_without_a_name { is_readable_list false (only (class "") ∷ []) ≡ false }
    ensures type_without_a_name { is_readable_list false (one (typed "" []) ∷ []) ≡ false }
    ensures flag { is_readable_list false (only (simple.Attribute (flagged "a" Equals "b")) ∷ []) ≡ false }
    ensures value_of_no_test { is_readable_list false (only (simple.Attribute (attribute "a" Has "b")) ∷ []) ≡ false }
    ensures element_as_a_class { is_readable_list false (only (pseudo "before") ∷ []) ≡ false }
    ensures capitals { is_readable_list false (only (pseudo "HOVER") ∷ []) ≡ false }
    ensures step_with_white_space { is_readable_list false (only (pseudo "nth-child(2n +1)") ∷ []) ≡ false }
    ensures step_with_a_capital { is_readable_list false (only (pseudo "nth-child(2N)") ∷ []) ≡ false }
    ensures no_step { is_readable_list false (only (pseudo "nth-child(en)") ∷ []) ≡ false }
    ensures lang_of_a_number { is_readable_list false (only (pseudo "lang(1a)") ∷ []) ≡ false }
    ensures foreign { is_readable_list false (only simple.Foreign ∷ []) ≡ false }
    ensures element_before_a_compound { is_readable_list false (two (ended every "after" []) Child every ∷ []) ≡ false }
    ensures lead_outside { is_readable_list false (led Child every ∷ []) ≡ false }
    ensures white_space_as_a_lead { is_readable_list true (led Descendant every ∷ []) ≡ false }
    ensures lead_in_is { is_readable_list true (only (simple.Is (led Child every ∷ [])) ∷ []) ≡ false }
    ensures empty_not { is_readable_list false (only (simple.Not []) ∷ []) ≡ false }
    ensures element_in_local { is_readable_list false (only (simple.Local (ended every "after" [])) ∷ []) ≡ false }
{}

/// Selectors that cannot be written, and words whose meaning can be.
pub fn writable_lists()
    ensures empty { is_writable_list (one (untyped []) ∷ []) ≡ true }
    ensures foreign_in_where { is_writable_list (only (simple.Where (only simple.Foreign ∷ [])) ∷ []) ≡ false }
    ensures flag_in_global { is_writable_list (only (simple.Global (untyped (part_at 0 (simple.Attribute (flagged "a" Equals "b")) ∷ []))) ∷ []) ≡ false }
    ensures flag_behind_a_combinator { is_writable_list (two every Next (untyped (part_at 0 (simple.Attribute (flagged "a" Equals "b")) ∷ [])) ∷ []) ≡ false }
    ensures name { is_spelled (record { kind = kinds.Ident; text = codes "a" }) ≡ true }
    ensures no_name { is_spelled (record { kind = kinds.Ident; text = [] }) ≡ false }
    ensures no_id { is_spelled (record { kind = kinds.Hash; text = codes "#1" }) ≡ true }
    ensures empty_string { is_spelled (record { kind = kinds.String; text = codes "\"\"" }) ≡ true }
    ensures control { is_spelled (record { kind = kinds.Delim; text = 1 ∷ [] }) ≡ false }
    ensures no_text { is_spelled (record { kind = kinds.Delim; text = 255 ∷ [] }) ≡ false }
{}
