//! Laws of clauses and of lowered lists, each the contract of a function that does nothing.

ghost use Rattle.std.specs.Prelude.{◌≡◌, List, IsTrue, Some};
ghost use Rattle.css_tokens.specs.declared.component.Component.{Component};
ghost use Rattle.media_tree.specs.Queries.{queries_reading};
ghost use Rattle.std.specs.List.{AllByRecursion, list_all};
ghost use Rattle.cascade_spec.specs.declared.environment.Environment.{Environment};
ghost use Rattle.cascade_spec.specs.Truth.{queries_hold};
ghost use Rattle.media_spelling.specs.declared.condition.Query.{Query};
ghost use Rattle.media_tree.specs.ReadValues.{ValuesStand};
ghost use Rattle.media_tree.specs.ReadableQueries.{are_readable_queries};
ghost use Rattle.media_clauses.specs.Clauses.{clauses};
ghost use Rattle.media_clauses.specs.Holding.{clauses_hold};
ghost use Rattle.media_clauses.specs.KnownRanges.{have_known_ranges};
ghost use Rattle.media_clauses.specs.Lowered.{clause_queries, lowered};
ghost use Rattle.target_check.specs.MediaTargets.{is_target_list};
ghost use Rattle.media_clauses.specs.ClauseTexts.{clause_text};
ghost use Rattle.media_clauses.specs.declared.clause.Clause.{Clause};
ghost use Rattle.media_spelling.specs.Spelling.{queries_text};

/// A media list holds, in each browser and on each device, exactly where each of its clauses has a literal that holds (Media
/// Queries 4, sections 2 and 3). Each range is to be one of a feature that takes a range: the standard gives no other a meaning.
pub fn clauses_tell_the_list()
    ensures { (env : Environment) (qs : List Query) → IsTrue (have_known_ranges qs) → clauses_hold env (clauses qs) ≡ queries_hold env qs }
{}

/// A media list holds, in each browser and on each device, exactly where each list of its lowered form does. Each range is to be
/// one of a feature that takes a range.
pub fn lowered_lists_hold()
    ensures { (env : Environment) (qs : List Query) → IsTrue (have_known_ranges qs) → list_all (queries_hold env) (lowered qs) ≡ queries_hold env qs }
{}

/// Each list of a lowered form is one that a target sheet can have, whatever the media list was: it is not empty, and each query
/// is a prefix, a media type and features joined by `and`, with no prefix where there is no media type.
pub fn lowered_lists_are_old()
    ensures { (qs : List Query) → IsTrue (list_all is_target_list (lowered qs)) }
{}

/// A clause prints as its literals with commas between them: a media type `T` or `not T`, a feature `(f)` or `not all and (f)`; a
/// clause without literals as `not all`.
pub fn clauses_print_by_literals()
    ensures { (c : Clause) → queries_text (clause_queries c) ≡ clause_text c }
{}

/// In a media list that component values spell, and in one that has a spelling, each range is one of a feature that takes a
/// range (Media Queries 4, section 2.4.3).
pub fn ranges_that_are_read_are_known()
    ensures read { (cs : List Component) (qs : List Query) → queries_reading cs ≡ Some qs → IsTrue (have_known_ranges qs) }
    ensures readable { (qs : List Query) → IsTrue (are_readable_queries qs) → IsTrue (have_known_ranges qs) }
{}

/// Each list of a lowered form has a spelling that is read as it, where the media list has one, and each value in it stands as
/// one, where each value in the media list does (Media Queries 4, section 3).
pub fn lowered_lists_are_readable()
    ensures readable { (qs : List Query) → IsTrue (are_readable_queries qs) → IsTrue (list_all are_readable_queries (lowered qs)) }
    ensures values { (qs : List Query) → ValuesStand qs → AllByRecursion ValuesStand (lowered qs) }
{}
