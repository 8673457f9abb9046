//! Worked examples of the definitions of this crate, each the contract of a function that does nothing. They speak of the
//! page, the browser and the rules of `specs/SelectorSamples.antt` and `specs/Samples.antt`.

pub mod groups;
pub mod matching;
pub mod passes;
pub mod truth;

ghost use Rattle.std.specs.Prelude.{◌≡◌, List, [], ◌∷◌, true, false, Some, None, codes};
ghost use Rattle.std.specs.declared.cmp.Ordering.TheVariants.{Less, Equal, Greater};
ghost use Rattle.css_rules.specs.Samples.{dot, semicolon, braces};
ghost use Rattle.css_rules.specs.Sheets.{sheet_of};
ghost use Rattle.std.specs.Option.{option_map};
ghost use Rattle.selector_types.specs.declared.selector.Simple as simple;
ghost use Rattle.selector_types.specs.Samples.{colon, delim, ended, every, ident, one, source, triple};
ghost use Rattle.cascade_spec.specs.Layers.{layer_cmp};
ghost use Rattle.cascade_spec.specs.Entries.{is_active, value_set};
ghost use Rattle.sheet_types.specs.Contexts.{outside};
ghost use Rattle.sheet_types.specs.Statements.{Passes, Mentions, statements_of};
ghost use Rattle.cascade_spec.specs.Cascade.{winning};
ghost use Rattle.cascade_spec.specs.Contents.{winner, passed_rules};
ghost use Rattle.cascade_spec.specs.Showing.{showing, last_ones};
ghost use Rattle.cascade_spec.specs.SelectorSamples.{kind, class, id, pseudo, parent, simply, also, browser, pseudo_element};
ghost use Rattle.cascade_spec.specs.Samples.{layer, sublayer, innermost, unnamed, mentions, more_mentions, seen, normal, important, entry, important_entry, at_top, rule, inside_lists, list_rule, nested_rule, asked, asked_of, given, layered, in_layer, passed, face};

/// The order of the layers of `@layer reset, base, base.theme` and of a longer statement (CSS Cascading 5, section 6.4).
pub fn layers_have_an_order()
    ensures earlier_is_lower { layer_cmp mentions (layer "reset") (layer "base") ≡ Less }
    ensures later_is_higher { layer_cmp mentions (layer "base") (layer "reset") ≡ Greater }
    ensures inner_is_lower { layer_cmp mentions (sublayer "base" "theme") (layer "base") ≡ Less }
    ensures inner_of_a_later { layer_cmp mentions (sublayer "base" "theme") (layer "reset") ≡ Greater }
    ensures none_is_highest { layer_cmp mentions [] (layer "base") ≡ Greater }
    ensures first_unnamed { layer_cmp (unnamed 0 ∷ layer "base" ∷ unnamed 1 ∷ []) (unnamed 0) (layer "base") ≡ Less }
    ensures second_unnamed { layer_cmp (unnamed 0 ∷ layer "base" ∷ unnamed 1 ∷ []) (unnamed 1) (layer "base") ≡ Greater }
    ensures itself { layer_cmp mentions (layer "base") (layer "base") ≡ Equal }
    ensures unnamed_itself { layer_cmp (unnamed 0 ∷ unnamed 1 ∷ []) (unnamed 1) (unnamed 1) ≡ Equal }
    ensures mentioned_again { layer_cmp more_mentions (layer "reset") (layer "base") ≡ Less }
    ensures inner_layers { layer_cmp more_mentions (sublayer "base" "theme") (sublayer "base" "reset") ≡ Less }
    ensures innermost_layers { layer_cmp more_mentions (innermost "base" "theme" "light") (innermost "base" "theme" "dark") ≡ Greater }
    ensures innermost_is_lower { layer_cmp more_mentions (innermost "base" "theme" "dark") (sublayer "base" "theme") ≡ Less }
    ensures inner_of_an_earlier_inner { layer_cmp more_mentions (innermost "base" "theme" "dark") (sublayer "base" "reset") ≡ Less }
    ensures same_inner_name { layer_cmp (layer "a" ∷ layer "b" ∷ sublayer "b" "x" ∷ sublayer "a" "x" ∷ []) (sublayer "a" "x") (sublayer "b" "x") ≡ Less }
    ensures mentioned_by_its_sublayer { layer_cmp (sublayer "b" "x" ∷ layer "a" ∷ layer "b" ∷ []) (layer "b") (layer "a") ≡ Less }
    ensures not_mentioned_by_its_layer { layer_cmp (layer "a" ∷ sublayer "a" "y" ∷ sublayer "a" "x" ∷ []) (sublayer "a" "x") (sublayer "a" "y") ≡ Greater }
    ensures name_in_another_case { layer_cmp (layer "Base" ∷ layer "base" ∷ []) (layer "base") (layer "Base") ≡ Greater }
{}

/// What declarations are active in the browser, and what they set.
pub fn declarations_set()
    ensures active { is_active browser at_top (entry "color" "red") ≡ true }
    ensures rejected { is_active browser at_top (entry "color" "oops") ≡ false }
    ensures second_rejected { is_active browser at_top (entry "width" "bad") ≡ false }
    ensures name_of_one_and_value_of_another { is_active browser at_top (entry "color" "bad") ≡ true }
    ensures important_and_rejected { is_active browser at_top (important_entry "color" "oops") ≡ false }
    ensures other_name { is_active browser at_top (entry "width" "oops") ≡ true }
    ensures own_longhand { value_set browser (entry "color" "red") (codes "color") ≡ Some (codes "red") }
    ensures other_longhand { value_set browser (entry "color" "red") (codes "width") ≡ None }
    ensures first_of_a_shorthand { value_set browser (entry "margin" "1px 2px") (codes "margin-top") ≡ Some (codes "1px") }
    ensures second_of_a_shorthand { value_set browser (entry "margin" "1px 2px") (codes "margin-left") ≡ Some (codes "2px") }
    ensures no_longhand_of_a_shorthand { value_set browser (entry "margin" "1px 2px") (codes "margin-right") ≡ None }
    ensures shorthand_is_no_longhand { value_set browser (entry "margin" "1px 2px") (codes "margin") ≡ None }
    ensures last_of_a_name { value_set browser (entry "gap" "1px") (codes "row-gap") ≡ Some (codes "1px") }
    ensures first_row { value_set browser (entry "gap" "1px") (codes "column-gap") ≡ None }
    ensures no_row { value_set browser (entry "margin" "3px") (codes "margin-top") ≡ None }
    ensures value_of_a_row_alone { value_set browser (entry "width" "1px") (codes "width") ≡ Some (codes "1px") }
    ensures important_shorthand { value_set browser (important_entry "margin" "1px 2px") (codes "margin-left") ≡ Some (codes "2px") }
{}

/// Which declaration wins for the paragraph `.a.red` (CSS Cascading 5, section 6.1).
pub fn declarations_win()
    ensures later { winner (asked false "color") (given (rule (class "a") (normal "color" "red" ∷ []) ∷ rule (class "red") (normal "color" "blue" ∷ []) ∷ [])) ≡ Some (codes "blue") }
    ensures later_in_a_rule { winner (asked false "color") (given (rule every (normal "color" "red" ∷ normal "color" "blue" ∷ []) ∷ [])) ≡ Some (codes "blue") }
    ensures more_specific { winner (asked false "color") (given (rule (class "a") (normal "color" "red" ∷ []) ∷ rule (kind "p") (normal "color" "blue" ∷ []) ∷ [])) ≡ Some (codes "red") }
    ensures more_specific_and_later { winner (asked false "color") (given (rule (kind "p") (normal "color" "red" ∷ []) ∷ rule (class "a") (normal "color" "blue" ∷ []) ∷ [])) ≡ Some (codes "blue") }
    ensures important { winner (asked true "color") (given (rule every (important "color" "red" ∷ []) ∷ rule (class "a") (normal "color" "blue" ∷ []) ∷ [])) ≡ Some (codes "red") }
    ensures normal { winner (asked false "color") (given (rule every (important "color" "red" ∷ []) ∷ rule (class "a") (normal "color" "blue" ∷ []) ∷ [])) ≡ Some (codes "blue") }
    ensures none_important { winner (asked true "color") (given (rule every (normal "color" "red" ∷ []) ∷ [])) ≡ None }
    ensures rejected { winner (asked false "color") (given (rule every (normal "color" "red" ∷ normal "color" "oops" ∷ []) ∷ [])) ≡ Some (codes "red") }
    ensures unmatched { winner (asked false "color") (given (rule (id "b") (normal "color" "red" ∷ []) ∷ [])) ≡ None }
    ensures list_by_its_matching_member { winner (asked false "color") (given (list_rule (normal "color" "red" ∷ []) ∷ rule (class "red") (normal "color" "blue" ∷ []) ∷ [])) ≡ Some (codes "blue") }
    ensures nested_by_the_most_of_its_parent { winner (asked false "color") (given (nested_rule (also parent "red") (normal "color" "red" ∷ []) ∷ rule (also (class "a") "red") (normal "color" "blue" ∷ []) ∷ [])) ≡ Some (codes "red") }
    ensures longhand_of_a_shorthand { winner (asked false "margin-left") (given (rule every (normal "margin" "1px 2px" ∷ normal "margin-top" "3px" ∷ []) ∷ [])) ≡ Some (codes "2px") }
    ensures longhand_over_a_shorthand { winner (asked false "margin-top") (given (rule every (normal "margin" "1px 2px" ∷ normal "margin-top" "3px" ∷ []) ∷ [])) ≡ Some (codes "3px") }
    ensures shorthand_over_a_longhand { winner (asked false "margin-top") (given (rule every (normal "margin-top" "3px" ∷ normal "margin" "1px 2px" ∷ []) ∷ [])) ≡ Some (codes "1px") }
    ensures other_longhand_later { winner (asked false "color") (given (rule every (normal "color" "red" ∷ normal "width" "1px" ∷ []) ∷ [])) ≡ Some (codes "red") }
    ensures later_important { winner (asked true "color") (given (rule (class "a") (important "color" "red" ∷ []) ∷ rule (class "red") (important "color" "blue" ∷ []) ∷ [])) ≡ Some (codes "blue") }
    ensures more_specific_important { winner (asked true "color") (given (rule (class "a") (important "color" "red" ∷ []) ∷ rule (kind "p") (important "color" "blue" ∷ []) ∷ [])) ≡ Some (codes "red") }
    ensures rejected_important { winner (asked true "color") (given (rule every (important "color" "red" ∷ important "color" "oops" ∷ []) ∷ [])) ≡ Some (codes "red") }
    ensures unmatched_later { winner (asked false "color") (given (rule (class "a") (normal "color" "red" ∷ []) ∷ rule (id "b") (normal "color" "blue" ∷ []) ∷ [])) ≡ Some (codes "red") }
    ensures second_of_three { winner (asked false "color") (given (rule every (normal "color" "red" ∷ []) ∷ rule (class "a") (normal "color" "blue" ∷ []) ∷ rule (kind "p") (normal "color" "green" ∷ []) ∷ [])) ≡ Some (codes "blue") }
{}

/// A rule is dropped where the browser does not know a pseudo-class or pseudo-element in its list or in one round it, outside
/// `:is` and `:where` (Selectors 4, sections 3.9 and 4.2). It counts for the subjects that its list matches, pseudo-elements too.
pub fn rules_are_dropped()
    ensures unknown { winner (asked false "color") (given (rule every (normal "color" "red" ∷ []) ∷ rule (pseudo "lively") (normal "color" "blue" ∷ []) ∷ [])) ≡ Some (codes "red") }
    ensures with_all_its_list { winner (asked false "color") (given (rule every (normal "color" "red" ∷ []) ∷ inside_lists ((one (kind "p") ∷ one (pseudo "lively") ∷ []) ∷ []) (normal "color" "blue" ∷ []) ∷ [])) ≡ Some (codes "red") }
    ensures with_its_nested_rules { winner (asked false "color") (given (rule every (normal "color" "red" ∷ []) ∷ inside_lists ((one (kind "main") ∷ one (pseudo "lively") ∷ []) ∷ (one (kind "p") ∷ []) ∷ []) (normal "color" "blue" ∷ []) ∷ [])) ≡ Some (codes "red") }
    ensures member_of_is_alone { winner (asked false "color") (given (rule every (normal "color" "red" ∷ []) ∷ rule (simply (simple.Is (one (kind "p") ∷ one (pseudo "lively") ∷ []))) (normal "color" "blue" ∷ []) ∷ [])) ≡ Some (codes "blue") }
    ensures important_too { winner (asked true "color") (given (rule (pseudo "lively") (important "color" "blue" ∷ []) ∷ [])) ≡ None }
    ensures of_a_pseudo_element { winner (asked_of (pseudo_element "before" 3) false "color") (given (rule (ended (kind "p") "before" (codes "hover" ∷ [])) (normal "color" "red" ∷ []) ∷ rule (kind "p") (normal "color" "blue" ∷ []) ∷ [])) ≡ Some (codes "red") }
    ensures unknown_pseudo_element { winner (asked_of (pseudo_element "marker" 3) false "color") (given (rule (ended every "marker" []) (normal "color" "red" ∷ []) ∷ [])) ≡ None }
{}

/// Layers count before specificity, and among important declarations the other way round (CSS Cascading 5, section 6.4).
pub fn layers_win()
    ensures higher { winning false mentions (seen (layer "base") (triple 0 0 1) "red" ∷ seen (layer "reset") (triple 1 0 0) "blue" ∷ []) ≡ Some (seen (layer "base") (triple 0 0 1) "red") }
    ensures lower_important { winning true mentions (seen (layer "base") (triple 0 0 1) "red" ∷ seen (layer "reset") (triple 1 0 0) "blue" ∷ []) ≡ Some (seen (layer "reset") (triple 1 0 0) "blue") }
    ensures without_a_layer { winning false mentions (seen [] (triple 0 0 1) "red" ∷ seen (layer "base") (triple 1 0 0) "blue" ∷ []) ≡ Some (seen [] (triple 0 0 1) "red") }
    ensures later_of_a_tie { winning false mentions (seen (layer "base") (triple 0 1 0) "red" ∷ seen (layer "base") (triple 0 1 0) "blue" ∷ []) ≡ Some (seen (layer "base") (triple 0 1 0) "blue") }
    ensures later_of_a_tie_important { winning true mentions (seen (layer "base") (triple 0 1 0) "red" ∷ seen (layer "base") (triple 0 1 0) "blue" ∷ []) ≡ Some (seen (layer "base") (triple 0 1 0) "blue") }
    ensures more_specific_important { winning true mentions (seen (layer "base") (triple 0 1 0) "red" ∷ seen (layer "base") (triple 0 0 1) "blue" ∷ []) ≡ Some (seen (layer "base") (triple 0 1 0) "red") }
    ensures without_a_layer_important { winning true mentions (seen (layer "base") (triple 0 0 1) "red" ∷ seen [] (triple 1 0 0) "blue" ∷ []) ≡ Some (seen (layer "base") (triple 0 0 1) "red") }
    ensures outer { winning false mentions (seen (layer "base") (triple 0 0 1) "red" ∷ seen (sublayer "base" "theme") (triple 1 0 0) "blue" ∷ []) ≡ Some (seen (layer "base") (triple 0 0 1) "red") }
    ensures inner_important { winning true mentions (seen (sublayer "base" "theme") (triple 0 0 1) "red" ∷ seen (layer "base") (triple 1 0 0) "blue" ∷ []) ≡ Some (seen (sublayer "base" "theme") (triple 0 0 1) "red") }
    ensures none { winning false mentions [] ≡ None }
    ensures by_the_order_of_mention { winner (asked false "color") (layered (layer "b" ∷ layer "a" ∷ []) (in_layer (layer "a") (normal "color" "red") ∷ in_layer (layer "b") (normal "color" "blue") ∷ [])) ≡ Some (codes "red") }
    ensures by_the_order_of_mention_important { winner (asked true "color") (layered (layer "b" ∷ layer "a" ∷ []) (in_layer (layer "a") (important "color" "red") ∷ in_layer (layer "b") (important "color" "blue") ∷ [])) ≡ Some (codes "blue") }
{}

/// Of equal rules that are passed on the last stands; what differs in its name, its prelude or its block stays.
pub fn rules_are_passed_on()
    ensures last_of_equal_ones { last_ones (face "a" ∷ face "b" ∷ face "a" ∷ []) ≡ face "b" ∷ face "a" ∷ [] }
    ensures each_of_three { last_ones (face "a" ∷ face "a" ∷ face "a" ∷ []) ≡ face "a" ∷ [] }
    ensures other_name { last_ones (face "a" ∷ passed "page" "" "a" ∷ []) ≡ face "a" ∷ passed "page" "" "a" ∷ [] }
    ensures other_prelude { last_ones (passed "keyframes" "x" "a" ∷ passed "keyframes" "y" "a" ∷ []) ≡ passed "keyframes" "x" "a" ∷ passed "keyframes" "y" "a" ∷ [] }
    ensures beside_others { passed_rules (asked false "color") (Passes outside (face "a") ∷ Mentions outside (layer "b") ∷ Passes outside (face "b") ∷ []) ≡ face "a" ∷ face "b" ∷ [] }
    ensures no_winner { winner (asked false "color") (Passes outside (face "a") ∷ []) ≡ None }
{}

/// Which declaration of a written sheet wins for the paragraph `.a.red`.
pub fn sheets_win()
    ensures later { option_map (λ sheet. winner (asked false "color") (statements_of sheet)) (sheet_of (source (ident "p" ∷ braces (ident "color" ∷ colon ∷ ident "red" ∷ []) ∷ ident "p" ∷ braces (ident "color" ∷ colon ∷ ident "blue" ∷ []) ∷ []))) ≡ Some (Some (codes "blue")) }
    ensures later_in_a_rule { option_map (λ sheet. winner (asked false "color") (statements_of sheet)) (sheet_of (source (ident "p" ∷ braces (ident "color" ∷ colon ∷ ident "red" ∷ semicolon ∷ ident "color" ∷ colon ∷ ident "blue" ∷ []) ∷ []))) ≡ Some (Some (codes "blue")) }
    ensures more_specific { option_map (λ sheet. winner (asked false "color") (statements_of sheet)) (sheet_of (source (dot ∷ ident "a" ∷ braces (ident "color" ∷ colon ∷ ident "red" ∷ []) ∷ ident "p" ∷ braces (ident "color" ∷ colon ∷ ident "blue" ∷ []) ∷ []))) ≡ Some (Some (codes "red")) }
    ensures important { option_map (λ sheet. winner (asked true "color") (statements_of sheet)) (sheet_of (source (ident "p" ∷ braces (ident "color" ∷ colon ∷ ident "red" ∷ delim "!" ∷ ident "important" ∷ []) ∷ []))) ≡ Some (Some (codes "red")) }
    ensures no_layer { option_map (λ sheet. (showing (asked false "color") (statements_of sheet)).layers) (sheet_of (source (ident "p" ∷ braces (ident "color" ∷ colon ∷ ident "red" ∷ []) ∷ []))) ≡ Some ([]) }
    ensures nothing { option_map (λ sheet. winner (asked false "color") (statements_of sheet)) (sheet_of []) ≡ Some (None) }
{}
