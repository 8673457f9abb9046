//! Laws about the definitions of this crate, each the contract of a function that does nothing.
ghost use Rattle.css_tokens.specs.Trees.{all_formed};
ghost use Rattle.css_tokens.specs.Values.{value_text};
ghost use Rattle.sheet_types.specs.BareItems.{bare_items, filled_items};
ghost use Rattle.sheet_types.specs.Contexts.{Context};
ghost use Rattle.sheet_types.specs.PassedRules.{keyword_of};
ghost use Rattle.sheet_types.specs.Statements.{bare_passed, say_all};
ghost use Rattle.sheet_types.specs.declared.sheet.Item.{Item};
ghost use Rattle.sheet_types.specs.declared.sheet.Passed.{Passed};
ghost use Rattle.std.specs.Prelude.{◌≡◌, List, IsTrue};

use css_tokens::printed_again;

/// Items say the same that are the same, places aside, or that are so but for rules and groups that declare nothing.
pub fn bare_items_say()
    ensures same { (a b : List Item) (c : Context) → bare_items a ≡ bare_items b → say_all a c ≡ say_all b c }
    ensures filled { (a b : List Item) (c : Context) → bare_items a ≡ filled_items (bare_items b) → say_all a c ≡ say_all b c }
{}

/// A rule that is passed on says the texts that its prelude and its block print as, where they are well formed.
pub fn passed_rules_say_their_texts()
    ensures { (rule : Passed) → IsTrue (all_formed rule.prelude) → IsTrue (all_formed rule.block) → bare_passed rule ≡ record { keyword = keyword_of rule.kind; prelude = value_text rule.prelude; block = value_text rule.block } }
{
    printed_again();
}
