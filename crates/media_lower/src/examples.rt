//! Worked examples of what items become, each the contract of a function that does nothing.

ghost use Rattle.std.specs.Prelude.{◌≡◌, [], ◌∷◌, true, false};
ghost use Rattle.media_spelling.specs.declared.condition.Prefix.TheVariants.{Plain, Not};
ghost use Rattle.media_spelling.specs.declared.condition.Relation.TheVariants.{Greater, GreaterEqual, LessEqual};
ghost use Rattle.media_spelling.specs.Samples.{bound, declared, ident, interval, media, media_and, only_if, ray, valued};
ghost use Rattle.sheet_types.specs.declared.sheet.GroupCondition.TheVariants.{Supports};
ghost use Rattle.sheet_types.specs.declared.sheet.Item.{Style, Plain as Run, Passed, Other};
ghost use Rattle.sheet_types.specs.declared.sheet.PassedKind.TheVariants.{FontFace};
ghost use Rattle.sheet_types.specs.Samples.{group, passed, plain, type_at};
ghost use Rattle.media_lower.specs.MediaItems.{has_known_lists, has_old_lists, lowered_item};
ghost use Rattle.media_lower.specs.Samples.{media_at, paragraph};

/// A group with a media list becomes groups one inside the other, each at the place of the one that it stands for.
pub fn media_groups_become_old()
    ensures half_open { lowered_item (media_at 7 (only_if (interval "width" (bound Greater "400px") (bound LessEqual "700px")) ∷ []) (paragraph "red" ∷ [])) ≡ media_at 7 (only_if (valued "max-width" "700px") ∷ []) (media_at 7 (media_and Not "all" (valued "max-width" "400px") ∷ []) (paragraph "red" ∷ []) ∷ []) ∷ [] }
    ensures empty_list { lowered_item (media_at 7 [] (paragraph "red" ∷ paragraph "blue" ∷ [])) ≡ paragraph "red" ∷ paragraph "blue" ∷ [] }
    ensures plain_list { lowered_item (media_at 7 (media Plain "print" ∷ []) (paragraph "red" ∷ [])) ≡ media_at 7 (media Plain "print" ∷ []) (paragraph "red" ∷ []) ∷ [] }
    ensures group_in_a_group { lowered_item (media_at 7 (media Plain "print" ∷ []) (media_at 9 (only_if (ray "width" Greater "5px") ∷ []) (paragraph "red" ∷ []) ∷ paragraph "blue" ∷ [])) ≡ media_at 7 (media Plain "print" ∷ []) (media_at 9 (media_and Not "all" (valued "max-width" "5px") ∷ []) (paragraph "red" ∷ []) ∷ paragraph "blue" ∷ []) ∷ [] }
    ensures empty_list_in_a_group { lowered_item (media_at 7 (media Plain "print" ∷ []) (media_at 9 [] (paragraph "red" ∷ []) ∷ paragraph "blue" ∷ [])) ≡ media_at 7 (media Plain "print" ∷ []) (paragraph "red" ∷ paragraph "blue" ∷ []) ∷ [] }
{}

/// All else stays, with what the items in it become.
pub fn other_items_stay()
    ensures supports { lowered_item (group (Supports (declared "b" 5 (ident "c" ∷ []))) (media_at 9 (only_if (ray "width" GreaterEqual "5px") ∷ []) (paragraph "red" ∷ []) ∷ [])) ≡ group (Supports (declared "b" 5 (ident "c" ∷ []))) (media_at 9 (only_if (valued "min-width" "5px") ∷ []) (paragraph "red" ∷ []) ∷ []) ∷ [] }
    ensures rule { lowered_item (Style (record { selectors = type_at 3 "p" ∷ []; items = media_at 9 (only_if (ray "width" GreaterEqual "5px") ∷ []) (Run (plain "color" "red" ∷ []) ∷ []) ∷ []; at = 3 })) ≡ Style (record { selectors = type_at 3 "p" ∷ []; items = media_at 9 (only_if (valued "min-width" "5px") ∷ []) (Run (plain "color" "red" ∷ []) ∷ []) ∷ []; at = 3 }) ∷ [] }
    ensures passed_rule { lowered_item (Passed (passed FontFace [] [])) ≡ Passed (passed FontFace [] []) ∷ [] }
    ensures other_rule { lowered_item (Other 4) ≡ Other 4 ∷ [] }
{}

/// Which items the pass takes, and what its results have.
pub fn media_lists_are_looked_at()
    ensures known { has_known_lists (media_at 7 (only_if (ray "width" Greater "5px") ∷ []) (paragraph "red" ∷ [])) ≡ true }
    ensures unknown { has_known_lists (media_at 7 (only_if (ray "scan" Greater "5px") ∷ []) (paragraph "red" ∷ [])) ≡ false }
    ensures unknown_inside { has_known_lists (group (Supports (declared "b" 5 (ident "c" ∷ []))) (media_at 9 (only_if (ray "scan" Greater "5px") ∷ []) (paragraph "red" ∷ []) ∷ [])) ≡ false }
    ensures old { has_old_lists (media_at 7 (media Plain "print" ∷ []) (paragraph "red" ∷ [])) ≡ true }
    ensures range { has_old_lists (media_at 7 (only_if (ray "width" Greater "5px") ∷ []) (paragraph "red" ∷ [])) ≡ false }
    ensures empty_list { has_old_lists (media_at 7 [] (paragraph "red" ∷ [])) ≡ false }
    ensures range_inside { has_old_lists (media_at 7 (media Plain "print" ∷ []) (media_at 9 (only_if (ray "width" Greater "5px") ∷ []) (paragraph "red" ∷ []) ∷ [])) ≡ false }
{}
