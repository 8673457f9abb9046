ghost use Rattle.css_places.specs.declared.finding.Finding.{Finding};
ghost use Rattle.findings.specs.Firsts.{first_finding, leads};
ghost use Rattle.std.specs.List.{AllByRecursion, Contains};
ghost use Rattle.std.specs.Prelude.{◌≡◌, [], IsTrue, List, None, Some};

/// The finding that is named is one of those that stand, it comes first among them by file, place and number, and one is
/// named where any stands.
pub fn the_first_finding_is_named()
    ensures stands { (fs : List Finding) (f : Finding) → first_finding fs ≡ Some f → Contains fs f }
    ensures first { (fs : List Finding) (f : Finding) → first_finding fs ≡ Some f → AllByRecursion (λ g. IsTrue (leads f g)) fs }
    ensures some { (fs : List Finding) → first_finding fs ≡ None → fs ≡ [] }
{}
