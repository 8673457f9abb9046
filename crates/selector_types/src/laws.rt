ghost use Rattle.css_tokens.specs.Again.{begins_none};
ghost use Rattle.css_tokens.specs.Characters.{white};
ghost use Rattle.css_tokens.specs.Tokens.{ReadsTo};
ghost use Rattle.css_tokens.specs.Trees.{words_all};
ghost use Rattle.selector_types.specs.Preludes.{begins_solid, ends_solid, is_prelude_word};
ghost use Rattle.selector_types.specs.ReadableSelectors.{is_readable_list};
ghost use Rattle.std.specs.List.{list_all};
ghost use Rattle.selector_types.specs.declared.selector.Selector.{Selector};
ghost use Rattle.selector_types.specs.declared.triple.Specificity.{Specificity};
ghost use Rattle.selector_types.specs.Erased.{erased};
ghost use Rattle.selector_types.specs.Specificities.{selector_specificity};
ghost use Rattle.selector_types.specs.Spelling.{list_spelling, list_text, selector_spelling};
ghost use Rattle.std.specs.Prelude.{◌≡◌, ◌++◌, ℕ, List, Bool, IsTrue, codes};

use css_tokens::{names_stay, numbers_stay, plain_name, strings_spell, words_again};

/// Selectors that differ in places alone are as specific as each other and are spelled alike.
pub fn places_do_not_count()
    ensures specificity { (most : Specificity) (s t : Selector) → erased s ≡ erased t → selector_specificity most s ≡ selector_specificity most t }
    ensures spelling { (s t : Selector) → erased s ≡ erased t → selector_spelling s ≡ selector_spelling t }
{}

/// The words of a list where it stands before a block: none of them ends or begins a rule, and neither the first nor the last
/// is white space or a comment. Its text begins with no white space.
pub fn selectors_stand_in_a_prelude()
    ensures words { (ss : List Selector) → IsTrue (list_all is_prelude_word (words_all (list_spelling ss))) }
    ensures begins { (nested : Bool) (ss : List Selector) → IsTrue (is_readable_list nested ss) → IsTrue (begins_solid (words_all (list_spelling ss))) }
    ensures ends { (nested : Bool) (ss : List Selector) → IsTrue (is_readable_list nested ss) → IsTrue (ends_solid (words_all (list_spelling ss))) }
    ensures text { (nested : Bool) (ss : List Selector) (rest : List ℕ) → IsTrue (is_readable_list nested ss) → IsTrue (begins_none white (list_text ss ++ rest)) }
{
    names_stay();
}

/// The text of a list before a block reads as its words (CSS Syntax 3, section 10).
pub fn selector_text_reads()
    ensures reads { (nested : Bool) (ss : List Selector) (rest : List ℕ) → IsTrue (is_readable_list nested ss) → ReadsTo (list_text ss ++ (codes "{" ++ rest)) (words_all (list_spelling ss)) (codes "{" ++ rest) }
{
    words_again();
    names_stay();
    numbers_stay();
    strings_spell();
    plain_name();
}
