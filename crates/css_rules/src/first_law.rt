ghost use Rattle.css_components.specs.Components.{head};
ghost use Rattle.css_rules.specs.Refusals.{first_refusal, leads};
ghost use Rattle.css_rules.specs.SelectorFaults.{list_faults};
ghost use Rattle.css_rules.specs.declared.refusal.Refusal.{Refusal};
ghost use Rattle.css_tokens.specs.Pairing.{places_rise};
ghost use Rattle.css_tokens.specs.Trees.{pieces_all};
ghost use Rattle.css_tokens.specs.declared.component.Component.{Component};
ghost use Rattle.std.specs.List.{AllByRecursion, Contains};
ghost use Rattle.selector_tree.specs.Signs.{list_reading};
ghost use Rattle.std.specs.Prelude.{◌≡◌, ◌≤◌, ℕ, List, [], ◌∷◌, ◌++◌, IsTrue, false, None, Some, Err};

/// The refusal that is named is one of those that stand, it comes first among them by place and at one place by cause, and
/// one is named where any stands.
pub fn the_first_refusal_is_named()
    ensures stands { (rs : List Refusal) (r : Refusal) → first_refusal rs ≡ Some r → Contains rs r }
    ensures first { (rs : List Refusal) (r : Refusal) → first_refusal rs ≡ Some r → AllByRecursion (λ s. IsTrue (leads r s)) rs }
    ensures some { (rs : List Refusal) → first_refusal rs ≡ None → rs ≡ [] }
{}

/// No fault of a selector list stands before the one that is named, where the places of its tokens rise. The same of a
/// prelude among components whose places rise, which ends where the block behind it begins.
pub fn the_first_fault_is_named()
    ensures least { (cs : List Component) (end at : ℕ) → IsTrue (places_rise (pieces_all cs) end) → list_reading false cs end ≡ Err at → AllByRecursion (λ other. at ≤ other) (list_faults cs end) }
    ensures prelude { (front cs behind : List Component) (block : Component) (end at : ℕ) → IsTrue (places_rise (pieces_all (front ++ (cs ++ block ∷ behind))) end) → list_reading false cs (head block).at ≡ Err at → AllByRecursion (λ other. at ≤ other) (list_faults cs (head block).at) }
{}
