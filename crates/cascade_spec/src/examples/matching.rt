//! Which subjects selectors match, how specific they are there, and which rules the browser drops.

ghost use Rattle.std.specs.Prelude.{◌≡◌, List, [], ◌∷◌, true, false, Some, None, codes};
ghost use Rattle.selector_types.specs.declared.selector.Combinator.TheVariants.{Descendant, Child, Next, Later};
ghost use Rattle.selector_types.specs.declared.selector.Simple as simple;
ghost use Rattle.selector_types.specs.declared.selector.Test.TheVariants.{Has, Equals, Word};
ghost use Rattle.selector_types.specs.Samples.{attribute, ended, every, one, triple, two, untyped};
ghost use Rattle.cascade_spec.specs.Matching.{alone, pseudo_name};
ghost use Rattle.cascade_spec.specs.Implied.{has_parent};
ghost use Rattle.cascade_spec.specs.Surroundings.{top, within, member_of};
ghost use Rattle.cascade_spec.specs.SelectorSamples.{page, deep, pseudo_element, kind, class, id, pseudo, parent, simply, also, and_also, three, led, led_two, inside, inner, matched, has_unknown, selector_holds, specificity_in};

/// Which elements of the page a selector at the top of a sheet matches (Selectors 4, sections 5, 6 and 15).
pub fn selectors_match()
    ensures universal { matched top (one every) ≡ 0 ∷ 1 ∷ 2 ∷ 3 ∷ 4 ∷ 5 ∷ [] }
    ensures type_name { matched top (one (kind "p")) ≡ 2 ∷ 3 ∷ [] }
    ensures class_name { matched top (one (class "a")) ≡ 1 ∷ 3 ∷ [] }
    ensures id_name { matched top (one (id "b")) ≡ 2 ∷ [] }
    ensures id_is_no_class { matched top (one (class "b")) ≡ [] }
    ensures front_of_a_name { matched top (one (class "re")) ≡ [] }
    ensures compound { matched top (one (also (kind "p") "a")) ≡ 3 ∷ [] }
    ensures two_classes { matched top (one (also (class "a") "red")) ≡ 3 ∷ [] }
    ensures descendant { matched top (two (kind "main") Descendant (kind "em")) ≡ 4 ∷ [] }
    ensures not_of_itself { matched top (two (kind "em") Descendant (kind "em")) ≡ [] }
    ensures child { matched top (two (kind "main") Child every) ≡ 1 ∷ 2 ∷ 3 ∷ [] }
    ensures no_grandchild { matched top (two (kind "main") Child (kind "em")) ≡ [] }
    ensures next { matched top (two (kind "h1") Next (kind "p")) ≡ 2 ∷ [] }
    ensures next_of_a_kind { matched top (two (kind "p") Next (kind "p")) ≡ 3 ∷ [] }
    ensures later { matched top (two (kind "h1") Later (kind "p")) ≡ 2 ∷ 3 ∷ [] }
    ensures not_earlier { matched top (two (kind "p") Later (kind "h1")) ≡ [] }
    ensures without_parents_are_siblings { matched top (two (kind "main") Next (kind "aside")) ≡ 5 ∷ [] }
    ensures no_sibling_of_another_parent { matched top (two (kind "p") Later (kind "aside")) ≡ [] }
    ensures later_then_descendant { matched top (three (kind "h1") Later (kind "p") Descendant (kind "em")) ≡ 4 ∷ [] }
    ensures next_then_descendant { matched top (three (kind "h1") Next (kind "p") Descendant (kind "em")) ≡ [] }
    ensures no_element { selector_holds page top (one every) (alone 6) ≡ false }
    ensures no_pseudo_element { selector_holds page top (one every) (pseudo_element "before" 3) ≡ false }
    ensures no_parent_rule { matched top (one parent) ≡ [] }
{}

/// What names match, and which elements stand to others as a combinator says (Selectors 4, sections 5, 6 and 15).
/// Names are compared as in a document whose language tells upper and lower case apart.
pub fn names_and_places_match()
    ensures type_in_another_case { matched top (one (kind "P")) ≡ [] }
    ensures class_in_another_case { matched top (one (class "A")) ≡ [] }
    ensures id_in_another_case { matched top (one (id "B")) ≡ [] }
    ensures class_is_no_id { matched top (one (id "a")) ≡ [] }
    ensures type_is_no_class { matched top (one (class "em")) ≡ [] }
    ensures second_class { matched top (one (class "red")) ≡ 3 ∷ [] }
    ensures later_not_of_itself { matched top (two (kind "p") Later (kind "p")) ≡ 3 ∷ [] }
    ensures next_is_not_further { matched top (two (class "a") Next (class "a")) ≡ [] }
    ensures later_is_further { matched top (two (class "a") Later (class "a")) ≡ 3 ∷ [] }
    ensures later_without_parents { matched top (two (kind "main") Later (kind "aside")) ≡ 5 ∷ [] }
    ensures no_child_of_a_sibling { matched top (two (kind "h1") Descendant (kind "em")) ≡ [] }
    ensures child_of_a_child { matched top (three (kind "main") Child (kind "p") Child (kind "em")) ≡ 4 ∷ [] }
    ensures of_a_great_grandparent { selector_holds deep top (two (kind "main") Descendant (kind "em")) (alone 3) ≡ true }
    ensures of_the_outer_of_two { selector_holds deep top (three (kind "main") Child (kind "div") Descendant (kind "em")) (alone 3) ≡ true }
    ensures of_the_inner_of_two { selector_holds deep top (three (kind "div") Child (kind "div") Descendant (kind "em")) (alone 3) ≡ true }
    ensures only_of_the_outer { selector_holds deep top (three (kind "main") Child (kind "div") Child (kind "em")) (alone 3) ≡ false }
{}

/// Which elements an attribute selector and a pseudo-class match: those that list its canonical text (Selectors 4, sections 6 to 14).
pub fn attributes_and_pseudo_classes_match()
    ensures attribute_alone { matched top (one (simply (simple.Attribute (attribute "title" Has "")))) ≡ 2 ∷ 3 ∷ [] }
    ensures attribute_value { matched top (one (simply (simple.Attribute (attribute "title" Equals "x")))) ≡ 2 ∷ [] }
    ensures other_value { matched top (one (simply (simple.Attribute (attribute "title" Equals "y")))) ≡ [] }
    ensures other_operator { matched top (one (simply (simple.Attribute (attribute "title" Word "x")))) ≡ [] }
    ensures attribute_of_a_type { matched top (one (and_also (kind "h1") (simple.Attribute (attribute "title" Has "")))) ≡ [] }
    ensures pseudo_class { matched top (one (pseudo "hover")) ≡ 3 ∷ [] }
    ensures other_pseudo_class { matched top (one (pseudo "focus")) ≡ [] }
    ensures pseudo_class_with_its_argument { matched top (one (pseudo "nth-child(2n)")) ≡ 2 ∷ [] }
    ensures pseudo_class_is_no_class { matched top (one (class "hover")) ≡ [] }
    ensures class_is_no_pseudo_class { matched top (one (pseudo "a")) ≡ [] }
    ensures of_an_ancestor { matched top (two (pseudo "hover") Child (kind "em")) ≡ 4 ∷ [] }
    ensures foreign { matched top (one (simply simple.Foreign)) ≡ [] }
{}

/// Which elements selectors with lists and compounds inside match (Selectors 4, section 4).
pub fn lists_in_selectors_match()
    ensures is_of_two { matched top (one (simply (simple.Is (one (kind "h1") ∷ one (id "b") ∷ [])))) ≡ 1 ∷ 2 ∷ [] }
    ensures is_of_none { matched top (one (simply (simple.Is []))) ≡ [] }
    ensures is_with_a_combinator { matched top (one (simply (simple.Is (two (kind "h1") Next (kind "p") ∷ [])))) ≡ 2 ∷ [] }
    ensures where_as_is { matched top (one (and_also (kind "p") (simple.Where (one (class "a") ∷ one (kind "em") ∷ [])))) ≡ 3 ∷ [] }
    ensures not_of_one { matched top (one (simply (simple.Not (one (kind "p") ∷ [])))) ≡ 0 ∷ 1 ∷ 4 ∷ 5 ∷ [] }
    ensures not_of_two { matched top (one (and_also (kind "p") (simple.Not (one (class "red") ∷ one (kind "em") ∷ [])))) ≡ 2 ∷ [] }
    ensures not_behind_a_combinator { matched top (two (simply (simple.Not (one (class "a") ∷ []))) Child every) ≡ 1 ∷ 2 ∷ 3 ∷ [] }
    ensures not_of_not { matched top (one (simply (simple.Not (one (simply (simple.Not (one (id "b") ∷ []))) ∷ [])))) ≡ 2 ∷ [] }
    ensures local { matched top (one (simply (simple.Local (also (kind "p") "red")))) ≡ 3 ∷ [] }
    ensures global { matched top (one (simply (simple.Global (class "a")))) ≡ 1 ∷ 3 ∷ [] }
    ensures no_pseudo_element_in_is { selector_holds page top (one (simply (simple.Is (one (ended every "before" []) ∷ [])))) (pseudo_element "before" 3) ≡ false }
    ensures parent_in_is { matched inside (two (simply (simple.Is (one parent ∷ []))) Child (kind "em")) ≡ 4 ∷ [] }
    ensures parent_in_not { matched inside (one (and_also every (simple.Not (one parent ∷ [])))) ≡ 0 ∷ 4 ∷ 5 ∷ [] }
{}

/// Which pseudo-elements selectors match, in which states (Selectors 4, section 3.6).
pub fn pseudo_elements_match()
    ensures of_every_element { selector_holds page top (one (ended every "before" [])) (pseudo_element "before" 2) ≡ true }
    ensures of_the_type { selector_holds page top (one (ended (kind "h1") "before" [])) (pseudo_element "before" 3) ≡ false }
    ensures of_another_name { selector_holds page top (one (ended every "before" [])) (pseudo_element "after" 2) ≡ false }
    ensures not_the_element { selector_holds page top (one (ended every "before" [])) (alone 2) ≡ false }
    ensures in_a_state { selector_holds page top (one (ended every "before" (codes "hover" ∷ []))) (pseudo_element "before" 3) ≡ true }
    ensures in_one_state_of_two { selector_holds page top (one (ended every "before" (codes "hover" ∷ codes "focus" ∷ []))) (pseudo_element "before" 3) ≡ false }
    ensures state_of_another { selector_holds page top (one (ended every "after" (codes "hover" ∷ []))) (pseudo_element "after" 3) ≡ false }
    ensures state_of_the_element_alone { selector_holds page top (one (ended every "before" (codes "nth-child(2n+1)" ∷ []))) (pseudo_element "before" 3) ≡ false }
    ensures of_an_element_in_a_state { selector_holds page top (one (ended (pseudo "hover") "after" [])) (pseudo_element "after" 3) ≡ true }
    ensures of_an_element_in_no_such_state { selector_holds page top (one (ended (pseudo "hover") "after" [])) (pseudo_element "after" 2) ≡ false }
    ensures of_a_child { selector_holds page top (two (kind "main") Child (ended every "after" [])) (pseudo_element "after" 3) ≡ true }
    ensures no_child_of_a_pseudo_element { matched top (two (ended every "before" []) Child every) ≡ [] }
    ensures of_the_parent { selector_holds page inside (one (ended parent "before" [])) (pseudo_element "before" 3) ≡ true }
    ensures implied_before_it { selector_holds page inside (one (ended (untyped []) "before" [])) (pseudo_element "before" 4) ≡ true }
{}

/// Which elements a selector matches inside a rule `#b, .a` (CSS Nesting 1, section 3).
pub fn nested_selectors_match()
    ensures parent_alone { matched inside (one parent) ≡ 1 ∷ 2 ∷ 3 ∷ [] }
    ensures compound { matched inside (one (also parent "red")) ≡ 3 ∷ [] }
    ensures descendant_is_implied { matched inside (one (kind "em")) ≡ 4 ∷ [] }
    ensures of_any_ancestor { matched (within page top (one (kind "main") ∷ [])) (one (kind "em")) ≡ 4 ∷ [] }
    ensures not_of_the_parent_itself { matched inside (one (kind "p")) ≡ [] }
    ensures parent_is_implied { matched inside (led Child (kind "em")) ≡ 4 ∷ [] }
    ensures next_of_the_parent { matched inside (led Next every) ≡ 2 ∷ 3 ∷ [] }
    ensures parent_twice { matched inside (two parent Next parent) ≡ 2 ∷ 3 ∷ [] }
    ensures parent_last { matched inside (two (kind "h1") Next parent) ≡ 2 ∷ [] }
    ensures parent_first { matched inside (two parent Child (kind "em")) ≡ 4 ∷ [] }
    ensures parent_behind_two { matched inside (three (kind "main") Child (kind "h1") Next parent) ≡ 2 ∷ [] }
    ensures parent_is_implied_beside_another { matched inside (led_two Next (kind "h1") Next parent) ≡ [] }
    ensures parent_before_and_behind { matched inside (led_two Next (kind "p") Next parent) ≡ 3 ∷ [] }
    ensures no_pseudo_element { selector_holds page inside (one parent) (pseudo_element "before" 3) ≡ false }
    ensures no_pseudo_element_of_a_descendant { selector_holds page inside (one (kind "em")) (pseudo_element "before" 4) ≡ false }
    ensures parent_is_no_pseudo_element { selector_holds page (within page top (one (ended every "before" []) ∷ [])) (one parent) (pseudo_element "before" 3) ≡ false }
    ensures parent_is_the_inner_rule { matched inner (one parent) ≡ 3 ∷ [] }
    ensures descendant_of_the_inner_rule { matched inner (one (kind "em")) ≡ 4 ∷ [] }
    ensures nothing_in_the_inner_rule { matched inner (led Child (kind "p")) ≡ [] }
    ensures parent_in_a_list { has_parent (one (simply (simple.Not (one (simply (simple.Where (one parent ∷ []))) ∷ [])))) ≡ true }
    ensures no_parent_in_a_list { has_parent (one (simply (simple.Not (one (kind "p") ∷ [])))) ≡ false }
{}

/// How specific selectors are inside a rule `#b, .a`, and how specific lists are for a subject (Selectors 4, section 17; CSS Nesting 1, section 3.1).
pub fn specificities()
    ensures attribute_as_a_class { specificity_in top (one (simply (simple.Attribute (attribute "title" Equals "x")))) ≡ triple 0 1 0 }
    ensures pseudo_class_as_a_class { specificity_in top (one (and_also (kind "a") (simple.Pseudo (codes "hover")))) ≡ triple 0 1 1 }
    ensures pseudo_element_as_a_type { specificity_in top (one (ended (kind "p") "before" [])) ≡ triple 0 0 2 }
    ensures state_as_a_class { specificity_in top (one (ended (kind "p") "before" (codes "hover" ∷ []))) ≡ triple 0 1 2 }
    ensures not_as_its_most { specificity_in top (one (simply (simple.Not (one (class "a") ∷ one (id "b") ∷ [])))) ≡ triple 1 0 0 }
    ensures where_as_nothing { specificity_in top (one (and_also (kind "p") (simple.Where (one (id "b") ∷ [])))) ≡ triple 0 0 1 }
    ensures unknown_member_counts { specificity_in top (one (simply (simple.Is (one (kind "p") ∷ one (pseudo "lively") ∷ [])))) ≡ triple 0 1 0 }
    ensures most_of_the_parent { specificity_in inside (one parent) ≡ triple 1 0 0 }
    ensures parent_counts_each_time { specificity_in inside (two parent Next parent) ≡ triple 2 0 0 }
    ensures implied_parent { specificity_in inside (one (kind "em")) ≡ triple 1 0 1 }
    ensures implied_before_a_combinator { specificity_in inside (led Child (kind "em")) ≡ triple 1 0 1 }
    ensures implied_beside_another { specificity_in inside (led_two Next (kind "h1") Next parent) ≡ triple 2 0 1 }
    ensures parent_by_its_last { specificity_in (within page top (one (class "a") ∷ one (id "b") ∷ [])) (one parent) ≡ triple 1 0 0 }
    ensures parent_in_a_nested_rule { specificity_in inner (one parent) ≡ triple 1 1 0 }
    ensures implied_in_a_nested_rule { specificity_in inner (one (kind "em")) ≡ triple 1 1 1 }
    ensures nested_rule_by_the_most_of_its_parent { inner.specific (alone 3) ≡ triple 1 1 0 }
    ensures list_by_its_matching_class { inside.specific (alone 3) ≡ triple 0 1 0 }
    ensures list_by_its_matching_id { inside.specific (alone 2) ≡ triple 1 0 0 }
    ensures most_specific_is_last { (within page top (one (kind "p") ∷ one (class "a") ∷ [])).specific (alone 3) ≡ triple 0 1 0 }
    ensures most_specific_is_first { (within page top (one (class "a") ∷ one (kind "p") ∷ [])).specific (alone 3) ≡ triple 0 1 0 }
    ensures pseudo_element_by_its_member { (within page top (one (id "b") ∷ one (ended (kind "p") "before" []) ∷ [])).specific (pseudo_element "before" 2) ≡ triple 0 0 2 }
{}

/// Which pseudo-classes and pseudo-elements the browser does not know, and what it drops for them. A list in `:is` or
/// `:where` is forgiving (Selectors 4, sections 3.9 and 4.2).
pub fn unknown_pseudos()
    ensures known { has_unknown (one (pseudo "hover")) ≡ false }
    ensures unknown { has_unknown (one (and_also (kind "p") (simple.Pseudo (codes "lively")))) ≡ true }
    ensures unknown_function { has_unknown (one (pseudo "nth-last-child(2n)")) ≡ true }
    ensures known_function { has_unknown (one (pseudo "nth-child(2n)")) ≡ false }
    ensures class_is_no_pseudo_class { has_unknown (one (class "lively")) ≡ false }
    ensures unknown_pseudo_element { has_unknown (one (ended every "marker" [])) ≡ true }
    ensures unknown_state { has_unknown (one (ended every "before" (codes "hover" ∷ codes "lively" ∷ []))) ≡ true }
    ensures known_state { has_unknown (one (ended every "before" (codes "hover" ∷ []))) ≡ false }
    ensures in_an_earlier_compound { has_unknown (two (pseudo "lively") Child every) ≡ true }
    ensures in_a_later_compound { has_unknown (three every Child (kind "p") Child (pseudo "lively")) ≡ true }
    ensures in_not { has_unknown (one (simply (simple.Not (one every ∷ one (pseudo "lively") ∷ [])))) ≡ true }
    ensures in_local { has_unknown (one (simply (simple.Local (pseudo "lively")))) ≡ true }
    ensures in_is { has_unknown (one (simply (simple.Is (one (pseudo "lively") ∷ [])))) ≡ false }
    ensures in_where { has_unknown (one (simply (simple.Where (one (pseudo "lively") ∷ [])))) ≡ false }
    ensures unknown_member_matches_nothing { matched top (one (simply (simple.Is (one (id "b") ∷ one (pseudo "lively") ∷ [])))) ≡ 2 ∷ [] }
    ensures unknown_member_of_where { matched top (one (simply (simple.Where (one (pseudo "lively") ∷ [])))) ≡ [] }
    ensures not_of_an_unknown_member { matched top (one (simply (simple.Is (one (simply (simple.Not (one (pseudo "lively") ∷ []))) ∷ one (kind "em") ∷ [])))) ≡ 4 ∷ [] }
    ensures is_in_a_member { matched top (one (simply (simple.Is (one (and_also (kind "p") (simple.Not (one (simply (simple.Is (one (pseudo "lively") ∷ []))) ∷ []))) ∷ [])))) ≡ 2 ∷ 3 ∷ [] }
    ensures name_of_a_function { pseudo_name (codes "lang(en)") ≡ codes "lang" }
    ensures name_with_an_escape { pseudo_name (codes "a\\(b") ≡ codes "a\\(b" }
    ensures list_is_dropped { (within page top (one (kind "p") ∷ one (pseudo "lively") ∷ [])).dropped ≡ true }
    ensures list_is_not_dropped { (within page top (one (kind "p") ∷ one (simply (simple.Is (one (pseudo "lively") ∷ []))) ∷ [])).dropped ≡ false }
    ensures nested_rule_is_dropped { (within page (within page top (one (pseudo "lively") ∷ [])) (one (kind "p") ∷ [])).dropped ≡ true }
{}
