//! Laws about the definitions of this crate, each the contract of a function that does nothing.
ghost use Rattle.graph_types.specs.Unfolding.{visits};
ghost use Rattle.graph_types.specs.Whole.{IsWhole};
ghost use Rattle.graph_types.specs.declared.graph.Graph.{Graph};
ghost use Rattle.sheet_types.specs.declared.sheet.GroupCondition.{GroupCondition};
ghost use Rattle.std.specs.Prelude.{ℕ, suc, List, ◌≡◌, ◌<◌, length};

/// No visit of a file of a whole graph has more files on its chain than the graph has: where one more may stand there, it gives
/// the same.
pub fn unfolding_is_whole()
    ensures { (graph : Graph) → IsWhole graph → (chain : List ℕ) (around : List GroupCondition) (file : ℕ) → file < length graph.files → visits (suc (length graph.files)) graph chain around file ≡ visits (length graph.files) graph chain around file }
{}
