ghost use Rattle.css_tokens.specs.Trees.{all_formed, words_all};
ghost use Rattle.css_tokens.specs.declared.component.Component.{Component};
ghost use Rattle.selector_types.specs.ReadableSelectors.{is_readable_list, is_spelled, is_writable_list};
ghost use Rattle.selector_tree.specs.Signs.{list_reading, read};
ghost use Rattle.std.specs.List.{list_all};
ghost use Rattle.std.specs.Option.{option_map};
ghost use Rattle.selector_types.specs.declared.selector.Selector.{Selector};
ghost use Rattle.selector_types.specs.Erased.{erased};
ghost use Rattle.selector_types.specs.Spelling.{list_spelling};
ghost use Rattle.std.specs.Prelude.{◌≡◌, ℕ, List, Bool, IsTrue, map, Some, Ok};

use css_tokens::{ids_spell, names_spell, names_stay, one_pairing, strings_spell, words_again};

/// The components that a list is spelled with are well formed, and they are read as that list again, also where they stand at
/// other places. What is read can be spelled so, where nothing in it cannot be written.
pub fn selectors_are_read_again()
    ensures formed { (ss : List Selector) → IsTrue (all_formed (list_spelling ss)) }
    ensures same { (nested : Bool) (ss : List Selector) (cs : List Component) (end : ℕ) → IsTrue (is_readable_list nested ss) → IsTrue (all_formed cs) → words_all cs ≡ words_all (list_spelling ss) → option_map (map erased) (read (list_reading nested cs end)) ≡ Some (map erased ss) }
    ensures readable { (nested : Bool) (cs : List Component) (end : ℕ) (ss : List Selector) → IsTrue (list_all is_spelled (words_all cs)) → list_reading nested cs end ≡ Ok ss → IsTrue (is_writable_list ss) → IsTrue (is_readable_list nested ss) }
{
    names_spell();
    ids_spell();
    names_stay();
    strings_spell();
    words_again();
    one_pairing();
}

/// Reading looks at no place: the same words are read as the same selectors, places aside, or as none.
pub fn places_are_not_read()
    ensures { (nested : Bool) (a b : List Component) (end stop : ℕ) → words_all a ≡ words_all b → IsTrue (all_formed a) → IsTrue (all_formed b) → option_map (map erased) (read (list_reading nested a end)) ≡ option_map (map erased) (read (list_reading nested b stop)) }
{
    one_pairing();
}
