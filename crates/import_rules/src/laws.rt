//! Laws about the definitions of this crate, each the contract of a function that does nothing.
ghost use Rattle.css_tokens.specs.Trees.{all_formed, words_all};
ghost use Rattle.css_tokens.specs.declared.component.Component.{Component};
ghost use Rattle.import_rules.specs.BareRules.{bare_rule};
ghost use Rattle.import_rules.specs.Imports.{import_reading};
ghost use Rattle.import_rules.specs.declared.import.ImportRule.TheVariants.{Read};
ghost use Rattle.media_spelling.specs.SupportsAgain.{has_no_function};
ghost use Rattle.media_spelling.specs.SupportsValues.{DeclaredValuesStand};
ghost use Rattle.media_spelling.specs.declared.supports.Supports.{Supports};
ghost use Rattle.media_tree.specs.ReadValues.{ValuesStand};
ghost use Rattle.media_tree.specs.ReadableQueries.{are_readable_queries};
ghost use Rattle.media_tree.specs.SpelledWords.{AreRead, is_spelled};
ghost use Rattle.media_tree.specs.SupportsAgain.{is_readable_supports};
ghost use Rattle.sheet_types.specs.declared.sheet.Import.{Import};
ghost use Rattle.std.specs.List.{list_all};
ghost use Rattle.std.specs.Prelude.{◌≡◌, ℕ, List, IsTrue, Some};

use css_tokens::{one_pairing, values_again};
use media_tree::{
    queries_that_are_read_are_readable, supports_that_are_read_are_readable,
    supports_that_are_read_stand,
};

/// Reading an import looks at no place: the same words are read as the same import, places aside, or as none.
pub fn places_of_imports_are_not_read()
    ensures { (a b : List Component) (m n : ℕ) → words_all a ≡ words_all b → IsTrue (all_formed a) → IsTrue (all_formed b) → bare_rule (import_reading m a) ≡ bare_rule (import_reading n b) }
{
    one_pairing();
}

/// Of an import that is read, of words that are spelled and read one after another in some text, each value of the supports
/// condition stands in that text before a stop, and so does each of the media query list. The list has a spelling that is
/// read as it, and so has the condition, where no function stands in it (CSS Cascading 5, section 2).
pub fn imports_that_are_read_stand()
    ensures supports_values { (at : ℕ) (cs : List Component) (i : Import) (s : Supports) → IsTrue (all_formed cs) → IsTrue (list_all is_spelled (words_all cs)) → AreRead cs → import_reading at cs ≡ Read i → i.supports ≡ Some s → DeclaredValuesStand s }
    ensures readable_supports { (at : ℕ) (cs : List Component) (i : Import) (s : Supports) → IsTrue (all_formed cs) → IsTrue (list_all is_spelled (words_all cs)) → AreRead cs → import_reading at cs ≡ Read i → i.supports ≡ Some s → IsTrue (has_no_function s) → IsTrue (is_readable_supports s) }
    ensures readable_media { (at : ℕ) (cs : List Component) (i : Import) → IsTrue (all_formed cs) → IsTrue (list_all is_spelled (words_all cs)) → AreRead cs → import_reading at cs ≡ Read i → IsTrue (are_readable_queries i.media) }
    ensures media_values { (at : ℕ) (cs : List Component) (i : Import) → IsTrue (all_formed cs) → IsTrue (list_all is_spelled (words_all cs)) → AreRead cs → import_reading at cs ≡ Read i → ValuesStand i.media }
{
    values_again();
    supports_that_are_read_stand();
    supports_that_are_read_are_readable();
    queries_that_are_read_are_readable();
}
