//! Worked examples of the definitions of this crate, each the contract of a function that does nothing.
#![tactic(auto)]

ghost use Rattle.graph_types.specs.Samples.{a_is_b, both_import, file_of, graph_of, plain_import, print, print_import, screen};
ghost use Rattle.graph_types.specs.Unfolding.{bodies, import_conditions, instance, total_length, unfolded};
ghost use Rattle.graph_types.specs.declared.graph.InstancePart.TheVariants.{Head, Body};
ghost use Rattle.sheet_types.specs.declared.sheet.GroupCondition.TheVariants.{Media, Supports};
ghost use Rattle.std.specs.Borrow.{Bor};
ghost use Rattle.std.specs.Prelude.{ℕ, List, ◌≡◌, ◌+◌, [], ◌∷◌, length};

/// The conditions of an import: supports before media.
pub fn conditions_of_imports()
    ensures none { import_conditions plain_import ≡ [] }
    ensures media { import_conditions print_import ≡ Media (print ∷ []) ∷ [] }
    ensures both { import_conditions both_import ≡ Supports a_is_b ∷ Media (screen ∷ []) ∷ [] }
{}

/// What graphs unfold to: a file that is reached twice stands twice, one that imports itself or its importer does not stand in
/// itself again, and the conditions of the importer stand round those of the import.
pub fn graphs_unfold()
    ensures alone { (bytes : Bor (List ℕ)) → unfolded (graph_of (file_of bytes [] [] ∷ [])) ≡ instance Head [] 0 ∷ instance Body [] 0 ∷ [] }
    ensures diamond { (bytes : Bor (List ℕ)) → unfolded (graph_of (file_of bytes (plain_import ∷ plain_import ∷ []) (1 ∷ 3 ∷ []) ∷ file_of bytes (plain_import ∷ []) (2 ∷ []) ∷ file_of bytes [] [] ∷ file_of bytes (plain_import ∷ []) (2 ∷ []) ∷ [])) ≡ instance Head [] 0 ∷ instance Head [] 1 ∷ instance Head [] 2 ∷ instance Body [] 2 ∷ instance Body [] 1 ∷ instance Head [] 3 ∷ instance Head [] 2 ∷ instance Body [] 2 ∷ instance Body [] 3 ∷ instance Body [] 0 ∷ [] }
    ensures itself { (bytes : Bor (List ℕ)) → unfolded (graph_of (file_of bytes (plain_import ∷ []) (0 ∷ []) ∷ [])) ≡ instance Head [] 0 ∷ instance Body [] 0 ∷ [] }
    ensures cycle { (bytes : Bor (List ℕ)) → unfolded (graph_of (file_of bytes (plain_import ∷ []) (1 ∷ []) ∷ file_of bytes (plain_import ∷ []) (0 ∷ []) ∷ [])) ≡ instance Head [] 0 ∷ instance Head [] 1 ∷ instance Body [] 1 ∷ instance Body [] 0 ∷ [] }
    ensures outermost_first { (bytes : Bor (List ℕ)) → unfolded (graph_of (file_of bytes (print_import ∷ []) (1 ∷ []) ∷ file_of bytes (both_import ∷ []) (2 ∷ []) ∷ file_of bytes [] [] ∷ [])) ≡ instance Head [] 0 ∷ instance Head (Media (print ∷ []) ∷ []) 1 ∷ instance Head (Media (print ∷ []) ∷ Supports a_is_b ∷ Media (screen ∷ []) ∷ []) 2 ∷ instance Body (Media (print ∷ []) ∷ Supports a_is_b ∷ Media (screen ∷ []) ∷ []) 2 ∷ instance Body (Media (print ∷ []) ∷ []) 1 ∷ instance Body [] 0 ∷ [] }
{}

/// The Bodies of a graph in which a file imports another twice, and their length.
pub fn bodies_are_counted()
    ensures bodies { (bytes : Bor (List ℕ)) → bodies (unfolded (graph_of (file_of bytes (plain_import ∷ plain_import ∷ []) (1 ∷ 1 ∷ []) ∷ file_of bytes [] [] ∷ []))) ≡ instance Body [] 1 ∷ instance Body [] 1 ∷ instance Body [] 0 ∷ [] }
    ensures length { (few more : Bor (List ℕ)) → total_length (graph_of (file_of few (plain_import ∷ plain_import ∷ []) (1 ∷ 1 ∷ []) ∷ file_of more [] [] ∷ [])) (unfolded (graph_of (file_of few (plain_import ∷ plain_import ∷ []) (1 ∷ 1 ∷ []) ∷ file_of more [] [] ∷ []))) ≡ length more.now + (length more.now + length few.now) }
{}
