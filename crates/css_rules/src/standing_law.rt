ghost use Rattle.css_rules.specs.Sheets.{sheet_of};
ghost use Rattle.sheet_types.specs.Standing.{AllStand};
ghost use Rattle.sheet_types.specs.declared.sheet.Sheet.{Sheet};
ghost use Rattle.css_tokens.specs.Tokens.{Reads};
ghost use Rattle.css_tokens.specs.Trees.{all_formed, words_all};
ghost use Rattle.css_tokens.specs.declared.component.Component.{Component};
ghost use Rattle.std.specs.Prelude.{◌≡◌, ℕ, List, Some, IsTrue};

use css_tokens::values_again;
use media_tree::{supports_that_are_read_stand, texts_give_spelled_words};

/// Each value of a sheet stands in the sheet's text before a stop: where the components are all that the text reads as,
/// the tokens of the value are read there one after another, and behind them is the end of the text, white space, a
/// comment, `;`, a closing bracket, or the `!` of `!important`.
pub fn values_stand()
    ensures { (text : List ℕ) (cs : List Component) (sheet : Sheet) → Reads text (words_all cs) → IsTrue (all_formed cs) → sheet_of cs ≡ Some sheet → AllStand sheet.items }
{
    values_again();
    supports_that_are_read_stand();
    texts_give_spelled_words();
}
