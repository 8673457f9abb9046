//! Laws about the definitions of this crate, each the contract of a function that does nothing.

ghost use Rattle.std.specs.Prelude.{◌≡◌, ℕ, List};
ghost use Rattle.css_places.specs.declared.finding.Code.{Code};
ghost use Rattle.css_places.specs.declared.finding.LimitKind.{LimitKind};
ghost use Rattle.css_outside.specs.Names.{Names};
ghost use Rattle.csslower.specs.Answers.{HasFirst};
ghost use Rattle.csslower.specs.Findings.{HasFinding, IsAccepted, PassesLimit};

/// At most one finding stands against a text, and none where the text is accepted or passes a limit; a text that is accepted
/// passes none.
pub fn one_finding()
    ensures one { (bytes : List ℕ) (c d : Code) (o p : ℕ) → HasFinding bytes c o → HasFinding bytes d p → (c ≡ d) × (o ≡ p) }
    ensures either { (bytes : List ℕ) (c : Code) (o : ℕ) → IsAccepted bytes → HasFinding bytes c o → ⊥ }
    ensures within { (bytes : List ℕ) (kind : LimitKind) (c : Code) (o : ℕ) → PassesLimit bytes kind → HasFinding bytes c o → ⊥ }
    ensures accepted { (bytes : List ℕ) (kind : LimitKind) → IsAccepted bytes → PassesLimit bytes kind → ⊥ }
{
    css_tokens::one_reading();
    css_tokens::one_bracket_fault();
    css_tokens::one_pairing();
    css_rules::sheets_have_readings_or_refusals();
}

/// Over all words and files one answer stands first, and no more than one.
pub fn first_answer()
    ensures { (words : List (List ℕ)) (files : Names) → HasFirst words files }
{
    one_finding();
    css_tokens::some_reading();
    css_tokens::some_pairing();
    css_rules::sheets_have_readings_or_refusals();
    findings::the_first_finding_is_named();
}
