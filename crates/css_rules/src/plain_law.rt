//! A law about the definitions of this crate, the contract of a function that does nothing.
ghost use Rattle.css_rules.specs.PlainRules.{is_plain_item};
ghost use Rattle.css_rules.specs.Sheets.{sheet_of};
ghost use Rattle.sheet_types.specs.declared.sheet.Sheet.{Sheet};
ghost use Rattle.css_tokens.specs.Trees.{all_formed, words_all};
ghost use Rattle.css_tokens.specs.declared.component.Component.{Component};
ghost use Rattle.media_tree.specs.SpelledWords.{AreRead};
ghost use Rattle.selector_types.specs.ReadableSelectors.{is_spelled};
ghost use Rattle.std.specs.List.{list_all};
ghost use Rattle.std.specs.Prelude.{◌≡◌, List, IsTrue, Some};

/// In a sheet that is read no rule stands in a style rule. No combinator leads a selector of a style rule and none holds `&` or
/// `:is(..)`, it has no declaration that a later stage rewrites, and each media query list has a spelling that is read as it,
/// where the tokens are as in `sheets_are_printable`.
pub fn sheets_are_plain()
    ensures { (cs : List Component) (sheet : Sheet) → sheet_of cs ≡ Some sheet → IsTrue (all_formed cs) → IsTrue (list_all is_spelled (words_all cs)) → AreRead cs → IsTrue (list_all is_plain_item sheet.items) }
{
    css_tokens::values_again();
    media_tree::queries_that_are_read_are_readable();
}
