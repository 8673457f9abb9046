//! Worked examples of what stands at the front of sheets: `@charset`, and imports (CSS Syntax 3, section 9; CSS Cascading 5,
//! section 2).
#![tactic(auto, using(crate::proofs::Computing::at_rules))]

ghost use Rattle.std.specs.Prelude.{◌≡◌, [], ◌∷◌, None, Some, codes, map};
ghost use Rattle.std.specs.Option.{option_map};
ghost use Rattle.media_spelling.specs.Samples.{media};
ghost use Rattle.media_spelling.specs.declared.condition.Prefix.TheVariants as prefixes;
ghost use Rattle.sheet_types.specs.declared.sheet.Item.{Other};
ghost use Rattle.selector_types.specs.Samples.{source, ident, space, comment};
ghost use Rattle.css_rules.specs.Refusals.{late_import, syntax, unbuilt};
ghost use Rattle.css_rules.specs.Samples.{at_keyword, braces, number, semicolon, string};
ghost use Rattle.css_rules.specs.Sheets.{sheet_of, sheet_refusals};

/// Which imports a sheet has.
pub fn imports_are_spelled()
    ensures one { sheet_of (source (at_keyword "@import" ∷ space ∷ string "'b.css'" ∷ semicolon ∷ [])) ≡ Some (record { imports = record { target = codes "b.css"; supports = None; media = []; at = 0 } ∷ []; items = [] }) }
    ensures two { option_map (λ sheet. map (λ i. i.at) sheet.imports) (sheet_of (source (at_keyword "@import" ∷ string "'b'" ∷ semicolon ∷ space ∷ at_keyword "@IMPORT" ∷ string "'c'" ∷ semicolon ∷ []))) ≡ Some (0 ∷ 12 ∷ []) }
    ensures media { option_map (λ sheet. map (λ i. i.media) sheet.imports) (sheet_of (source (at_keyword "@import" ∷ string "'b'" ∷ ident "print" ∷ semicolon ∷ []))) ≡ Some ((media prefixes.Plain "print" ∷ []) ∷ []) }
    ensures behind_charset { option_map (λ sheet. map (λ i. i.at) sheet.imports) (sheet_of (source (at_keyword "@charset" ∷ space ∷ string "'UTF-8'" ∷ semicolon ∷ at_keyword "@import" ∷ string "'b'" ∷ semicolon ∷ []))) ≡ Some (17 ∷ []) }
    ensures charset { sheet_of (source (comment ∷ at_keyword "@Charset" ∷ string "'utf-8'" ∷ semicolon ∷ [])) ≡ Some (record { imports = []; items = [] }) }
    ensures other_charset { sheet_of (source (at_keyword "@charset" ∷ string "'ascii'" ∷ semicolon ∷ [])) ≡ Some (record { imports = []; items = Other 0 ∷ [] }) }
    ensures charset_without_an_end { sheet_of (source (at_keyword "@charset" ∷ string "'utf-8'" ∷ [])) ≡ Some (record { imports = []; items = Other 0 ∷ [] }) }
    ensures charset_of_an_identifier { sheet_of (source (at_keyword "@charset" ∷ space ∷ ident "utf-8" ∷ semicolon ∷ [])) ≡ Some (record { imports = []; items = Other 0 ∷ [] }) }
    ensures second_charset { sheet_of (source (at_keyword "@charset" ∷ string "'utf-8'" ∷ semicolon ∷ at_keyword "@charset" ∷ string "'utf-8'" ∷ semicolon ∷ [])) ≡ Some (record { imports = []; items = Other 16 ∷ [] }) }
{}

/// What imports are refused for.
pub fn imports_are_refused()
    ensures none { sheet_refusals (source (at_keyword "@import" ∷ string "'b'" ∷ semicolon ∷ ident "p" ∷ braces [] ∷ [])) ≡ [] }
    ensures no_target { sheet_refusals (source (at_keyword "@import" ∷ space ∷ number "1" ∷ semicolon ∷ [])) ≡ syntax 0 ∷ [] }
    ensures no_semicolon { sheet_refusals (source (at_keyword "@import" ∷ string "'b'" ∷ [])) ≡ syntax 0 ∷ [] }
    ensures block { sheet_refusals (source (at_keyword "@import" ∷ string "'b'" ∷ braces [] ∷ [])) ≡ syntax 0 ∷ [] }
    ensures layer { sheet_refusals (source (at_keyword "@import" ∷ string "'b'" ∷ ident "layer" ∷ semicolon ∷ [])) ≡ unbuilt 0 ∷ [] }
    ensures behind_a_rule { sheet_refusals (source (ident "p" ∷ braces [] ∷ at_keyword "@import" ∷ string "'b'" ∷ semicolon ∷ [])) ≡ late_import 3 ∷ [] }
    ensures behind_another_at_rule { sheet_refusals (source (at_keyword "@a" ∷ semicolon ∷ at_keyword "@import" ∷ number "1" ∷ semicolon ∷ [])) ≡ late_import 3 ∷ [] }
    ensures behind_a_second_charset { sheet_refusals (source (at_keyword "@import" ∷ string "'b'" ∷ semicolon ∷ at_keyword "@charset" ∷ string "'utf-8'" ∷ semicolon ∷ at_keyword "@import" ∷ string "'c'" ∷ semicolon ∷ [])) ≡ late_import 27 ∷ [] }
    ensures in_a_group { sheet_refusals (source (at_keyword "@media" ∷ braces (at_keyword "@import" ∷ string "'b'" ∷ semicolon ∷ []) ∷ [])) ≡ late_import 7 ∷ [] }
{}
