ghost use Rattle.css_tokens.specs.Trees.{all_formed};
ghost use Rattle.media_spelling.specs.Preludes.{stands};
ghost use Rattle.media_spelling.specs.Spelling.{queries_spelling, supports_spelling};
ghost use Rattle.media_spelling.specs.declared.condition.Query.{Query};
ghost use Rattle.media_spelling.specs.declared.supports.Supports.{Supports};
ghost use Rattle.std.specs.List.{list_all};
ghost use Rattle.std.specs.Prelude.{List, IsTrue};

use css_tokens::printed_again;

/// The components that media query lists and supports conditions are spelled with are well formed.
pub fn spellings_are_formed()
    ensures queries { (qs : List Query) → IsTrue (all_formed (queries_spelling qs)) }
    ensures supports { (s : Supports) → IsTrue (all_formed (supports_spelling s)) }
{
    printed_again();
}

/// The components of a media query list where it stands before a block: outside brackets none of them ends what stands
/// there, or begins a block or an at-rule.
pub fn queries_stand_in_a_prelude()
    ensures { (qs : List Query) → IsTrue (list_all stands (queries_spelling qs)) }
{}

/// The same of the components of a supports condition.
pub fn supports_stand_in_a_prelude()
    ensures { (s : Supports) → IsTrue (list_all stands (supports_spelling s)) }
{}
