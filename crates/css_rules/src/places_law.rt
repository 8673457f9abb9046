//! A law about the definitions of this crate, the contract of a function that does nothing.
ghost use Rattle.sheet_types.specs.BareItems.{bare_sheet};
ghost use Rattle.css_rules.specs.Sheets.{sheet_of};
ghost use Rattle.css_tokens.specs.Trees.{all_formed, words_all};
ghost use Rattle.css_tokens.specs.declared.component.Component.{Component};
ghost use Rattle.std.specs.Option.{option_map};
ghost use Rattle.std.specs.Prelude.{◌≡◌, List, IsTrue};

/// What components spell does not depend on where their tokens stand: the same words have sheets that are the same item by
/// item, places aside, or none has.
pub fn places_do_not_matter()
    ensures { (a b : List Component) → words_all a ≡ words_all b → IsTrue (all_formed a) → IsTrue (all_formed b) → option_map bare_sheet (sheet_of a) ≡ option_map bare_sheet (sheet_of b) }
{
    css_tokens::one_pairing();
    import_rules::places_of_imports_are_not_read();
    media_tree::places_of_queries_are_not_read();
    media_tree::places_of_supports_are_not_read();
    selector_tree::places_are_not_read();
}
