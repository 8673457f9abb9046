ghost use Rattle.sheet_types.specs.BareItems.{bare_items, bare_sheet, filled_items, importless};
ghost use Rattle.css_rules.specs.Printable.{ArePrintable, all_whole};
ghost use Rattle.sheet_types.specs.SheetAgain.{items_again};
ghost use Rattle.sheet_types.specs.SheetTexts.{items_text};
ghost use Rattle.css_rules.specs.Sheets.{sheet_of};
ghost use Rattle.sheet_types.specs.Standing.{AllStand};
ghost use Rattle.sheet_types.specs.declared.sheet.Item.{Item};
ghost use Rattle.sheet_types.specs.declared.sheet.Sheet.{Sheet};
ghost use Rattle.media_tree.specs.SpelledWords.{AreRead};
ghost use Rattle.css_tokens.specs.Tokens.{Reads};
ghost use Rattle.css_tokens.specs.Trees.{all_formed, words_all};
ghost use Rattle.css_tokens.specs.declared.component.Component.{Component};
ghost use Rattle.selector_types.specs.ReadableSelectors.{is_spelled};
ghost use Rattle.std.specs.List.{list_all};
ghost use Rattle.std.specs.Option.{option_map};
ghost use Rattle.std.specs.Prelude.{◌≡◌, List, Some, IsTrue};

/// The sheet that components spell is printable, where they are well formed, their tokens are in UTF-8, spell their kinds, and
/// are read one after another in some text, and all is kept of each selector list and each condition round what is printed
/// (`all_whole`): each style rule is empty or has one run of declarations, the selectors of a rule that declares anything have a
/// spelling and in it no `&` and no `:is(`, conditions have a spelling, and each declaration and each rule that is passed on is
/// written as it was read.
pub fn sheets_are_printable()
    ensures { (cs : List Component) (sheet : Sheet) → sheet_of cs ≡ Some sheet → IsTrue (all_formed cs) → IsTrue (list_all is_spelled (words_all cs)) → AreRead cs → IsTrue (all_whole sheet) → ArePrintable sheet.items }
{
    css_tokens::values_again();
    media_tree::queries_that_are_read_are_readable();
    media_tree::supports_that_are_read_are_readable();
    selector_tree::selectors_are_read_again();
}

/// The text that printable items print as reads as components that spell the same items: its tokens are their words, their
/// brackets are paired, and the sheet that they spell has no import and, item by item, these items without the rules and groups that declare
/// nothing, places aside.
pub fn sheets_are_read_again()
    ensures reads { (items : List Item) → ArePrintable items → AllStand items → Reads (items_text items) (words_all (items_again items)) }
    ensures formed { (items : List Item) → ArePrintable items → IsTrue (all_formed (items_again items)) }
    ensures same { (items : List Item) → ArePrintable items → option_map bare_sheet (sheet_of (items_again items)) ≡ Some (importless (filled_items (bare_items items))) }
{
    css_tokens::printed_again();
    css_tokens::one_pairing();
    css_tokens::plain_name();
    css_tokens::words_again();
    css_tokens::names_spell();
    css_tokens::names_stay();
    css_tokens::strings_spell();
    css_tokens::values_again();
    css_tokens::words_are_clean();
    media_tree::queries_are_read_again();
    media_tree::supports_are_read_again();
    media_tree::query_texts_are_read();
    media_tree::supports_texts_are_read();
    media_tree::texts_begin_solid();
    media_tree::queries_stand_in_a_prelude();
    media_tree::supports_stand_in_a_prelude();
    media_tree::places_of_supports_are_not_read();
    selector_tree::selectors_are_read_again();
    selector_tree::selectors_stand_in_a_prelude();
    selector_tree::selector_text_reads();
}
