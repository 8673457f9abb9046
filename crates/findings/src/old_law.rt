ghost use Rattle.css_rules.specs.PlainRules.{is_unled, none_waits};
ghost use Rattle.findings.specs.Constructs.{list_findings};
ghost use Rattle.selector_types.specs.PartsWithin.{list_parts};
ghost use Rattle.selector_types.specs.declared.selector.Selector.{Selector};
ghost use Rattle.std.specs.List.{list_all};
ghost use Rattle.std.specs.Prelude.{◌≡◌, [], ℕ, List, IsTrue};
ghost use Rattle.target_check.specs.Targets.{is_old_selector};

/// Older browsers read selectors in which nothing stands that cannot be expressed, where no combinator leads one and none holds
/// `&` or `:is(..)`.
pub fn clean_selectors_are_old()
    ensures { (file : ℕ) (ss : List Selector) → list_findings file ss ≡ [] → IsTrue (list_all is_unled ss) → IsTrue (none_waits (list_parts ss)) → IsTrue (list_all is_old_selector ss) }
{}
