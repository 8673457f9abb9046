ghost use Rattle.css_tokens.specs.Again.{after_ident, begins_none};
ghost use Rattle.css_tokens.specs.Characters.{white};
ghost use Rattle.css_tokens.specs.Tokens.{Reads, ReadsTo};
ghost use Rattle.css_tokens.specs.Trees.{all_formed, words_all};
ghost use Rattle.css_tokens.specs.declared.component.Block as block;
ghost use Rattle.css_tokens.specs.declared.component.Component.{Component};
ghost use Rattle.css_tokens.specs.declared.component.Component as component;
ghost use Rattle.media_spelling.specs.Places.{bare_supports};
ghost use Rattle.media_tree.specs.Queries.{queries_reading};
ghost use Rattle.std.specs.Option.{option_map};
ghost use Rattle.media_tree.specs.ReadableQueries.{are_readable_queries};
ghost use Rattle.media_spelling.specs.Spelling.{queries_spelling, queries_text, supports_spelling, supports_text};
ghost use Rattle.media_spelling.specs.SupportsAgain.{has_no_function, supports_again};
ghost use Rattle.media_spelling.specs.SupportsValues.{DeclaredValuesStand};
ghost use Rattle.media_tree.specs.ReadValues.{ValuesStand};
ghost use Rattle.media_tree.specs.SpelledWords.{AreRead, is_spelled};
ghost use Rattle.media_tree.specs.SupportsAgain.{is_readable_supports};
ghost use Rattle.media_tree.specs.SupportsReading.{supports_inside, supports_reading};
ghost use Rattle.std.specs.List.{list_all};
ghost use Rattle.media_spelling.specs.declared.supports.Supports.{Supports};
ghost use Rattle.media_spelling.specs.declared.condition.Query.{Query};
ghost use Rattle.std.specs.Prelude.{◌≡◌, ◌++◌, ◌∷◌, [], ℕ, List, IsTrue, Some};

use css_tokens::{
    closing_brackets_stand, less_than_stays, names_spell, names_stay, numbers_part, one_pairing,
    plain_name, printed_again, values_again, values_stand_by_relations, words_again,
    words_are_clean,
};
use media_spelling::spellings_are_formed;

/// The components that a media query list is spelled with are well formed, and they are read as that list again, also where
/// they stand at other places.
pub fn queries_are_read_again()
    ensures formed { (qs : List Query) → IsTrue (all_formed (queries_spelling qs)) }
    ensures same { (qs : List Query) (cs : List Component) → IsTrue (are_readable_queries qs) → IsTrue (all_formed cs) → words_all cs ≡ words_all (queries_spelling qs) → queries_reading cs ≡ Some qs }
{
    spellings_are_formed();
    names_spell();
    one_pairing();
}

/// Reading a media query list looks at no place: the same words are read as the same list, or as none.
pub fn places_of_queries_are_not_read()
    ensures { (a b : List Component) → words_all a ≡ words_all b → IsTrue (all_formed a) → IsTrue (all_formed b) → queries_reading a ≡ queries_reading b }
{
    one_pairing();
}

/// The same of a supports condition, places aside, and of what stands in parentheses.
pub fn places_of_supports_are_not_read()
    ensures reading { (a b : List Component) → words_all a ≡ words_all b → IsTrue (all_formed a) → IsTrue (all_formed b) → option_map bare_supports (supports_reading a) ≡ option_map bare_supports (supports_reading b) }
    ensures inside { (a b : List Component) → words_all a ≡ words_all b → IsTrue (all_formed a) → IsTrue (all_formed b) → option_map bare_supports (supports_inside a) ≡ option_map bare_supports (supports_inside b) }
{
    one_pairing();
}

/// The components that a supports condition is spelled with are well formed, and they are read as that condition again, its
/// values as they print.
pub fn supports_are_read_again()
    ensures formed { (s : Supports) → IsTrue (all_formed (supports_spelling s)) }
    ensures same { (s : Supports) → IsTrue (is_readable_supports s) → supports_reading (supports_spelling s) ≡ Some (supports_again s) }
{
    spellings_are_formed();
    names_spell();
    printed_again();
}

/// What is read as a supports condition, of words that are spelled, has a spelling that is read as it, its values as they
/// print, where no function stands in it. So has what is read in parentheses.
pub fn supports_that_are_read_are_readable()
    ensures reading { (cs : List Component) (s : Supports) → IsTrue (all_formed cs) → IsTrue (list_all is_spelled (words_all cs)) → supports_reading cs ≡ Some s → IsTrue (has_no_function s) → IsTrue (is_readable_supports s) }
    ensures inside { (cs : List Component) (s : Supports) → IsTrue (all_formed cs) → IsTrue (list_all is_spelled (words_all cs)) → supports_inside cs ≡ Some s → IsTrue (has_no_function s) → IsTrue (is_readable_supports s) }
{
    names_spell();
    printed_again();
}

/// Each value of what is read as a supports condition, of words that are spelled and read one after another in some text,
/// stands in that text before a stop (Conditional Rules 3, section 6). So does each value of what is read in a block of that
/// text, where the bracket that closes the block is the last stop.
pub fn supports_that_are_read_stand()
    ensures reading { (cs : List Component) (s : Supports) → IsTrue (all_formed cs) → IsTrue (list_all is_spelled (words_all cs)) → AreRead cs → supports_reading cs ≡ Some s → DeclaredValuesStand s }
    ensures inside { (b : block.Block) (s : Supports) → IsTrue (all_formed (component.Block b ∷ [])) → IsTrue (list_all is_spelled (words_all (component.Block b ∷ []))) → AreRead (component.Block b ∷ []) → supports_inside b.items ≡ Some s → DeclaredValuesStand s }
{
    values_again();
}

/// The components of a text that is read have words that are spelled, and are read one after another (CSS Syntax 3, section 4).
pub fn texts_give_spelled_words()
    ensures spelled { (t : List ℕ) (cs : List Component) → Reads t (words_all cs) → IsTrue (list_all is_spelled (words_all cs)) }
    ensures read { (t : List ℕ) (cs : List Component) → Reads t (words_all cs) → AreRead cs }
{
    values_again();
    words_are_clean();
}

/// What is read as a media query list, of words that are spelled and read one after another in some text, has a spelling that
/// is read as it, and each value in it is read as what it is spelled with wherever it stands (Media Queries 4, section 3).
pub fn queries_that_are_read_are_readable()
    ensures readable { (cs : List Component) (qs : List Query) → IsTrue (all_formed cs) → IsTrue (list_all is_spelled (words_all cs)) → AreRead cs → queries_reading cs ≡ Some qs → IsTrue (are_readable_queries qs) }
    ensures values { (cs : List Component) (qs : List Query) → IsTrue (all_formed cs) → IsTrue (list_all is_spelled (words_all cs)) → AreRead cs → queries_reading cs ≡ Some qs → ValuesStand qs }
{
    names_spell();
    printed_again();
    values_again();
    words_again();
    numbers_part();
    closing_brackets_stand();
    values_stand_by_relations();
}

/// The text of a readable media query list, of which each value stands as one, reads as its words before whatever makes a
/// name no longer, as a block does (CSS Syntax 3, section 10).
pub fn query_texts_are_read()
    ensures { (qs : List Query) (rest : List ℕ) → IsTrue (are_readable_queries qs) → ValuesStand qs → IsTrue (begins_none after_ident rest) → ReadsTo (queries_text qs ++ rest) (words_all (queries_spelling qs)) rest }
{
    words_again();
    names_spell();
    names_stay();
    plain_name();
    less_than_stays();
    values_stand_by_relations();
}

/// The text of a readable supports condition, of which each value stands in a text, reads as its words, whatever follows (CSS
/// Syntax 3, section 10).
pub fn supports_texts_are_read()
    ensures { (s : Supports) (rest : List ℕ) → IsTrue (is_readable_supports s) → DeclaredValuesStand s → ReadsTo (supports_text s ++ rest) (words_all (supports_spelling s)) rest }
{
    words_again();
    names_stay();
    plain_name();
    printed_again();
    values_again();
}

/// The text of a media query list begins with no white space, where none stands behind it, and that of a supports condition
/// begins with none.
pub fn texts_begin_solid()
    ensures queries { (qs : List Query) (rest : List ℕ) → IsTrue (are_readable_queries qs) → IsTrue (begins_none white rest) → IsTrue (begins_none white (queries_text qs ++ rest)) }
    ensures supports { (s : Supports) (rest : List ℕ) → IsTrue (is_readable_supports s) → IsTrue (begins_none white (supports_text s ++ rest)) }
{
    names_stay();
}
