//! A law about the definitions of this crate, the contract of a function that does nothing.
ghost use Rattle.selector_types.specs.Erased.{erased};
ghost use Rattle.selector_types.specs.declared.selector.Selector.{Selector};
ghost use Rattle.std.specs.List.{list_all};
ghost use Rattle.std.specs.Prelude.{◌≡◌, List, map};
ghost use Rattle.target_check.specs.Targets.{is_old_selector};

/// Whether older browsers read selectors does not depend on where their parts stand.
pub fn places_are_not_looked_at()
    ensures { (ss ts : List Selector) → map erased ss ≡ map erased ts → list_all is_old_selector ss ≡ list_all is_old_selector ts }
{}
