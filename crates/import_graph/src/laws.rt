ghost use Rattle.import_graph.specs.Order.{module_order};
ghost use Rattle.import_graph.specs.Places.{path_order};
ghost use Rattle.import_graph.specs.Waves.{Targets, IsAll, IsCut, through, wave_of};
ghost use Rattle.std.specs.List.{IsDistinct};
ghost use Rattle.std.specs.Prelude.{◌≡◌, ◌⊎◌, ◌&&◌, ℕ, List, Option, is_some, nat_eq};
ghost use Rattle.std.specs.Set.{is_member};
ghost use Rattle.std.specs.Str.{bytes_eq};

/// No file has two numbers.
pub fn files_have_one_number()
    ensures { (targets : List (Option (List ℕ))) → IsDistinct nat_eq (module_order targets) }
{}

/// No path stands in two waves, or twice in one.
pub fn paths_stand_in_one_wave()
    ensures { (targets : Targets) (entry : List ℕ) (number : ℕ) → IsDistinct bytes_eq (through (wave_of targets entry number)) }
{}

/// Either the waves end, or one of them would bring too many paths, and not both. The paths of all waves, or of all before that
/// one, are one list.
pub fn waves_have_one_end()
    ensures some { (targets : Targets) (entry : List ℕ) → ((paths : List (List ℕ)) × IsAll targets entry paths) ⊎ ((paths : List (List ℕ)) × IsCut targets entry paths) }
    ensures either { (targets : Targets) (entry : List ℕ) (all cut : List (List ℕ)) → IsAll targets entry all → IsCut targets entry cut → ⊥ }
    ensures one_all { (targets : Targets) (entry : List ℕ) (a b : List (List ℕ)) → IsAll targets entry a → IsAll targets entry b → a ≡ b }
    ensures one_cut { (targets : Targets) (entry : List ℕ) (a b : List (List ℕ)) → IsCut targets entry a → IsCut targets entry b → a ≡ b }
{}

/// A path has a number exactly where it is in a wave and not missing, and no path has two.
pub fn numbers_reach_the_waves()
    ensures reached { (targets : Targets) (entry : List ℕ) (paths : List (List ℕ)) → IsAll targets entry paths → (path : List ℕ) → is_member bytes_eq (path_order targets entry) path ≡ (is_member bytes_eq paths path && is_some (targets path)) }
    ensures once { (targets : Targets) (entry : List ℕ) → IsDistinct bytes_eq (path_order targets entry) }
{}
