//! Worked examples of the definitions of this crate, each the contract of a function that does nothing.

ghost use Rattle.import_graph.specs.Order.{module_order};
ghost use Rattle.import_graph.specs.Places.{path_order};
ghost use Rattle.import_graph.specs.Samples.{sample};
ghost use Rattle.import_graph.specs.Waves.{new_among, wave_of};
ghost use Rattle.std.specs.Prelude.{◌≡◌, [], ◌∷◌, Some, None};

/// The order of files, by their places.
pub fn module_orders()
    ensures alone { module_order (Some [] ∷ []) ≡ 0 ∷ [] }
    ensures depth_first { module_order (Some (1 ∷ 2 ∷ []) ∷ Some (3 ∷ []) ∷ Some [] ∷ Some [] ∷ []) ≡ 0 ∷ 1 ∷ 3 ∷ 2 ∷ [] }
    ensures once { module_order (Some (1 ∷ 2 ∷ 1 ∷ []) ∷ Some (3 ∷ []) ∷ Some (3 ∷ []) ∷ Some [] ∷ []) ≡ 0 ∷ 1 ∷ 3 ∷ 2 ∷ [] }
    ensures missing { module_order (Some (1 ∷ 2 ∷ []) ∷ None ∷ Some (1 ∷ 3 ∷ []) ∷ Some [] ∷ []) ≡ 0 ∷ 2 ∷ 3 ∷ [] }
    ensures cycle { module_order (Some (1 ∷ []) ∷ Some (0 ∷ 1 ∷ 2 ∷ []) ∷ Some (0 ∷ []) ∷ []) ≡ 0 ∷ 1 ∷ 2 ∷ [] }
    ensures beyond { module_order (Some (9 ∷ 1 ∷ []) ∷ Some [] ∷ []) ≡ 0 ∷ 1 ∷ [] }
    ensures no_entry { module_order (None ∷ Some [] ∷ []) ≡ [] }
    ensures no_file { module_order [] ≡ [] }
{}

/// The paths that a wave brings: those that are not known, each once.
pub fn new_paths()
    ensures once { new_among ((1 ∷ []) ∷ []) ((2 ∷ []) ∷ (1 ∷ []) ∷ (3 ∷ []) ∷ (2 ∷ []) ∷ []) ≡ (2 ∷ []) ∷ (3 ∷ []) ∷ [] }
    ensures none { new_among ((1 ∷ []) ∷ []) ((1 ∷ []) ∷ (1 ∷ []) ∷ []) ≡ [] }
{}

/// The waves of four files and of one that is missing.
pub fn waves()
    ensures entry { (wave_of sample (0 ∷ []) 0).paths ≡ (0 ∷ []) ∷ [] }
    ensures named_by_the_entry { (wave_of sample (0 ∷ []) 1).paths ≡ (1 ∷ []) ∷ (2 ∷ []) ∷ [] }
    ensures named_by_those { (wave_of sample (0 ∷ []) 2).paths ≡ (3 ∷ []) ∷ (4 ∷ []) ∷ [] }
    ensures end { (wave_of sample (0 ∷ []) 3).paths ≡ [] }
{}

/// The same files in the order of their numbers.
pub fn path_orders()
    ensures { path_order sample (0 ∷ []) ≡ (0 ∷ []) ∷ (1 ∷ []) ∷ (3 ∷ []) ∷ (2 ∷ []) ∷ [] }
{}
