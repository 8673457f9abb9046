ghost use Rattle.css_rules.specs.Refusals.{first_refusal};
ghost use Rattle.css_rules.specs.Sheets.{sheet_refusals};
ghost use Rattle.css_rules.specs.declared.refusal.Refusal.{Refusal};
ghost use Rattle.css_tokens.specs.Piece.{Piece};
ghost use Rattle.css_tokens.specs.Trees.{pieces_all};
ghost use Rattle.css_tokens.specs.declared.component.Component.{Component};
ghost use Rattle.std.specs.List.{AllByRecursion};
ghost use Rattle.std.specs.Prelude.{◌≡◌, ◌≤◌, ℕ, List, Some};

/// What a sheet is refused for stands within its text: where no token stands behind the end, no refusal does, nor the
/// one that is named.
pub fn refusals_stand_within()
    ensures all { (cs : List Component) (end : ℕ) → AllByRecursion (λ (p : Piece). p.at ≤ end) (pieces_all cs) → AllByRecursion (λ (r : Refusal). r.at ≤ end) (sheet_refusals cs) }
    ensures named { (cs : List Component) (end : ℕ) (r : Refusal) → AllByRecursion (λ (p : Piece). p.at ≤ end) (pieces_all cs) → first_refusal (sheet_refusals cs) ≡ Some r → r.at ≤ end }
{}
