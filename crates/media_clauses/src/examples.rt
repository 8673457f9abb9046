//! Worked examples of clauses and of lowered lists, each the contract of a function that does nothing.

ghost use Rattle.std.specs.Prelude.{◌≡◌, [], ◌∷◌, Some, None, true, false};
ghost use Rattle.media_spelling.specs.declared.condition.Condition as conditions;
ghost use Rattle.media_spelling.specs.declared.condition.Prefix.TheVariants.{Plain, Not, Only};
ghost use Rattle.media_spelling.specs.declared.condition.Relation.TheVariants.{Less, LessEqual, Greater, GreaterEqual, Equal};
ghost use Rattle.media_spelling.specs.Samples.{bare, bound, interval, media, media_and, only_if, ray, valued};
ghost use Rattle.media_clauses.specs.Clauses.{clauses};
ghost use Rattle.media_clauses.specs.Lowered.{lowered};
ghost use Rattle.media_clauses.specs.Samples.{clause, clauses_of, fails, has, holds, lacks, lowered_condition, lowered_query, off, on};

/// The clauses of features and of ranges.
pub fn clauses_of_features()
    ensures feature { clauses_of (bare "color") ≡ clause (has "color" ∷ []) ∷ [] }
    ensures not_a_feature { clauses_of (conditions.Not (bare "color")) ≡ clause (lacks "color" ∷ []) ∷ [] }
    ensures at_least { clauses_of (ray "width" GreaterEqual "5px") ≡ clause (holds "min-width" "5px" ∷ []) ∷ [] }
    ensures at_most { clauses_of (ray "width" LessEqual "5px") ≡ clause (holds "max-width" "5px" ∷ []) ∷ [] }
    ensures equal { clauses_of (ray "width" Equal "5px") ≡ clause (holds "width" "5px" ∷ []) ∷ [] }
    ensures above { clauses_of (ray "width" Greater "5px") ≡ clause (fails "max-width" "5px" ∷ []) ∷ [] }
    ensures below { clauses_of (ray "width" Less "5px") ≡ clause (fails "min-width" "5px" ∷ []) ∷ [] }
    ensures not_at_least { clauses_of (conditions.Not (ray "width" GreaterEqual "5px")) ≡ clause (fails "min-width" "5px" ∷ []) ∷ [] }
    ensures not_at_most { clauses_of (conditions.Not (ray "width" LessEqual "5px")) ≡ clause (fails "max-width" "5px" ∷ []) ∷ [] }
    ensures not_equal { clauses_of (conditions.Not (ray "width" Equal "5px")) ≡ clause (fails "width" "5px" ∷ []) ∷ [] }
    ensures not_above { clauses_of (conditions.Not (ray "width" Greater "5px")) ≡ clause (holds "max-width" "5px" ∷ []) ∷ [] }
    ensures not_below { clauses_of (conditions.Not (ray "width" Less "5px")) ≡ clause (holds "min-width" "5px" ∷ []) ∷ [] }
    ensures between { clauses_of (interval "width" (bound Greater "4px") (bound LessEqual "7px")) ≡ clause (fails "max-width" "4px" ∷ []) ∷ clause (holds "max-width" "7px" ∷ []) ∷ [] }
    ensures not_between { clauses_of (conditions.Not (interval "width" (bound Greater "4px") (bound LessEqual "7px"))) ≡ clause (holds "max-width" "4px" ∷ fails "max-width" "7px" ∷ []) ∷ [] }
{}

/// The clauses of conditions that are joined.
pub fn clauses_of_conditions()
    ensures both { clauses_of (conditions.And (bare "a" ∷ bare "b" ∷ [])) ≡ clause (has "a" ∷ []) ∷ clause (has "b" ∷ []) ∷ [] }
    ensures not_both { clauses_of (conditions.Not (conditions.And (bare "a" ∷ bare "b" ∷ []))) ≡ clause (lacks "a" ∷ lacks "b" ∷ []) ∷ [] }
    ensures either { clauses_of (conditions.Or (bare "a" ∷ bare "b" ∷ [])) ≡ clause (has "a" ∷ has "b" ∷ []) ∷ [] }
    ensures neither { clauses_of (conditions.Not (conditions.Or (bare "a" ∷ bare "b" ∷ []))) ≡ clause (lacks "a" ∷ []) ∷ clause (lacks "b" ∷ []) ∷ [] }
    ensures three { clauses_of (conditions.Or (bare "a" ∷ conditions.Not (bare "b") ∷ bare "c" ∷ [])) ≡ clause (has "a" ∷ lacks "b" ∷ has "c" ∷ []) ∷ [] }
    ensures product { clauses_of (conditions.Or (conditions.And (bare "a" ∷ bare "b" ∷ []) ∷ conditions.And (bare "c" ∷ bare "d" ∷ []) ∷ [])) ≡ clause (has "a" ∷ has "c" ∷ []) ∷ clause (has "a" ∷ has "d" ∷ []) ∷ clause (has "b" ∷ has "c" ∷ []) ∷ clause (has "b" ∷ has "d" ∷ []) ∷ [] }
    ensures product_of_bounds { clauses_of (conditions.Or (interval "width" (bound Greater "4px") (bound Less "7px") ∷ bare "a" ∷ [])) ≡ clause (fails "max-width" "4px" ∷ has "a" ∷ []) ∷ clause (fails "min-width" "7px" ∷ has "a" ∷ []) ∷ [] }
    ensures inside_one_another { clauses_of (conditions.And (conditions.And (bare "a" ∷ conditions.Or (bare "b" ∷ bare "c" ∷ []) ∷ []) ∷ bare "d" ∷ [])) ≡ clause (has "a" ∷ []) ∷ clause (has "b" ∷ has "c" ∷ []) ∷ clause (has "d" ∷ []) ∷ [] }
    ensures negation_of_a_negation { clauses_of (conditions.Not (conditions.Not (bare "a"))) ≡ clause (has "a" ∷ []) ∷ [] }
{}

/// The clauses of queries and of lists.
pub fn clauses_of_lists()
    ensures empty { clauses ([]) ≡ [] }
    ensures type_alone { clauses (media Plain "screen" ∷ []) ≡ clause (on "screen" ∷ []) ∷ [] }
    ensures only { clauses (media Only "screen" ∷ []) ≡ clause (on "screen" ∷ []) ∷ [] }
    ensures all { clauses (media Plain "all" ∷ []) ≡ [] }
    ensures type_and_condition { clauses (media_and Plain "screen" (bare "a") ∷ []) ≡ clause (on "screen" ∷ []) ∷ clause (has "a" ∷ []) ∷ [] }
    ensures all_and_condition { clauses (media_and Plain "all" (bare "a") ∷ []) ≡ clause (has "a" ∷ []) ∷ [] }
    ensures not_the_type { clauses (media Not "screen" ∷ []) ≡ clause (off "screen" ∷ []) ∷ [] }
    ensures not_the_type_and_condition { clauses (media_and Not "screen" (bare "a") ∷ []) ≡ clause (off "screen" ∷ lacks "a" ∷ []) ∷ [] }
    ensures not_the_type_or_neither { clauses (media_and Not "screen" (conditions.Or (bare "a" ∷ bare "b" ∷ [])) ∷ []) ≡ clause (off "screen" ∷ lacks "a" ∷ []) ∷ clause (off "screen" ∷ lacks "b" ∷ []) ∷ [] }
    ensures not_all { clauses (media Not "all" ∷ []) ≡ clause ([]) ∷ [] }
    ensures not_all_and_condition { clauses (media_and Not "all" (bare "a") ∷ []) ≡ clause (lacks "a" ∷ []) ∷ [] }
    ensures two_queries { clauses (media Plain "print" ∷ only_if (ray "width" Greater "5px") ∷ []) ≡ clause (on "print" ∷ fails "max-width" "5px" ∷ []) ∷ [] }
    ensures product { clauses (media_and Plain "print" (bare "a") ∷ only_if (conditions.And (bare "b" ∷ bare "c" ∷ [])) ∷ []) ≡ clause (on "print" ∷ has "b" ∷ []) ∷ clause (on "print" ∷ has "c" ∷ []) ∷ clause (has "a" ∷ has "b" ∷ []) ∷ clause (has "a" ∷ has "c" ∷ []) ∷ [] }
    ensures all_in_a_list { clauses (media Plain "all" ∷ media Plain "print" ∷ []) ≡ [] }
{}

/// Plain lists are lowered to themselves, with features in place of ranges; the empty list to none.
pub fn plain_lists()
    ensures empty { lowered ([]) ≡ [] }
    ensures types { lowered (media Plain "print" ∷ media Only "screen" ∷ media Not "tty" ∷ []) ≡ (media Plain "print" ∷ media Only "screen" ∷ media Not "tty" ∷ []) ∷ [] }
    ensures features { lowered_condition (conditions.And (bare "color" ∷ valued "max-width" "5px" ∷ [])) ≡ (only_if (conditions.And (bare "color" ∷ valued "max-width" "5px" ∷ [])) ∷ []) ∷ [] }
    ensures prefix_and_features { lowered_query (media_and Only "screen" (bare "color")) ≡ (media_and Only "screen" (bare "color") ∷ []) ∷ [] }
    ensures negated { lowered_query (media_and Not "screen" (bare "color")) ≡ (media_and Not "screen" (bare "color") ∷ []) ∷ [] }
    ensures at_least { lowered_condition (ray "width" GreaterEqual "5px") ≡ (only_if (valued "min-width" "5px") ∷ []) ∷ [] }
    ensures at_most { lowered_condition (ray "width" LessEqual "5px") ≡ (only_if (valued "max-width" "5px") ∷ []) ∷ [] }
    ensures equal { lowered_condition (ray "width" Equal "5px") ≡ (only_if (valued "width" "5px") ∷ []) ∷ [] }
    ensures two_bounds { lowered_condition (interval "width" (bound GreaterEqual "4px") (bound LessEqual "7px")) ≡ (only_if (conditions.And (valued "min-width" "4px" ∷ valued "max-width" "7px" ∷ [])) ∷ []) ∷ [] }
    ensures falling_bounds { lowered_condition (interval "width" (bound LessEqual "7px") (bound GreaterEqual "4px")) ≡ (only_if (conditions.And (valued "max-width" "7px" ∷ valued "min-width" "4px" ∷ [])) ∷ []) ∷ [] }
    ensures ranges_in_a_list { lowered (media Plain "print" ∷ media_and Not "screen" (conditions.And (bare "color" ∷ ray "width" GreaterEqual "5px" ∷ [])) ∷ []) ≡ (media Plain "print" ∷ media_and Not "screen" (conditions.And (bare "color" ∷ valued "min-width" "5px" ∷ [])) ∷ []) ∷ [] }
{}

/// One query is lowered to its media type and the features that have to hold, and a list for each other clause.
pub fn single_queries()
    ensures above { lowered_condition (ray "width" Greater "5px") ≡ (media_and Not "all" (valued "max-width" "5px") ∷ []) ∷ [] }
    ensures half_open { lowered_condition (interval "width" (bound Greater "400px") (bound LessEqual "700px")) ≡ (only_if (valued "max-width" "700px") ∷ []) ∷ (media_and Not "all" (valued "max-width" "400px") ∷ []) ∷ [] }
    ensures open { lowered_condition (interval "width" (bound Greater "4px") (bound Less "7px")) ≡ (media_and Not "all" (valued "max-width" "4px") ∷ []) ∷ (media_and Not "all" (valued "min-width" "7px") ∷ []) ∷ [] }
    ensures media_type { lowered_query (media_and Plain "screen" (ray "width" Less "5px")) ≡ (media Plain "screen" ∷ []) ∷ (media_and Not "all" (valued "min-width" "5px") ∷ []) ∷ [] }
    ensures all { lowered_query (media_and Plain "all" (ray "width" Less "5px")) ≡ (media_and Not "all" (valued "min-width" "5px") ∷ []) ∷ [] }
    ensures media_type_and_features { lowered_query (media_and Plain "screen" (conditions.And (bare "a" ∷ ray "width" Greater "5px" ∷ bare "b" ∷ []))) ≡ (media_and Plain "screen" (conditions.And (bare "a" ∷ bare "b" ∷ [])) ∷ []) ∷ (media_and Not "all" (valued "max-width" "5px") ∷ []) ∷ [] }
    ensures only_is_dropped { lowered_query (media_and Only "screen" (conditions.And (bare "a" ∷ conditions.And (bare "b" ∷ bare "c" ∷ []) ∷ []))) ≡ (media_and Plain "screen" (conditions.And (bare "a" ∷ bare "b" ∷ bare "c" ∷ [])) ∷ []) ∷ [] }
    ensures alternatives { lowered_condition (conditions.Or (bare "a" ∷ conditions.Not (bare "b") ∷ [])) ≡ (only_if (bare "a") ∷ media_and Not "all" (bare "b") ∷ []) ∷ [] }
    ensures negation { lowered_condition (conditions.Not (bare "a")) ≡ (media_and Not "all" (bare "a") ∷ []) ∷ [] }
    ensures negation_of_alternatives { lowered_condition (conditions.Not (conditions.Or (bare "a" ∷ conditions.Not (bare "b") ∷ []))) ≡ (only_if (bare "b") ∷ []) ∷ (media_and Not "all" (bare "a") ∷ []) ∷ [] }
{}

/// Any other list is lowered to a list for each clause.
pub fn other_lists()
    ensures two_queries { lowered (media Plain "print" ∷ only_if (ray "width" Greater "5px") ∷ []) ≡ (media Plain "print" ∷ media_and Not "all" (valued "max-width" "5px") ∷ []) ∷ [] }
    ensures not_the_query { lowered_query (media_and Not "screen" (ray "width" Greater "5px")) ≡ (media Not "screen" ∷ only_if (valued "max-width" "5px") ∷ []) ∷ [] }
    ensures not_all { lowered_query (media_and Not "all" (ray "width" Greater "5px")) ≡ (only_if (valued "max-width" "5px") ∷ []) ∷ [] }
    ensures product { lowered (media Plain "print" ∷ only_if (interval "width" (bound Greater "4px") (bound Less "7px")) ∷ []) ≡ (media Plain "print" ∷ media_and Not "all" (valued "max-width" "4px") ∷ []) ∷ (media Plain "print" ∷ media_and Not "all" (valued "min-width" "7px") ∷ []) ∷ [] }
{}
