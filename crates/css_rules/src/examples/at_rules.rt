//! Worked examples of at-rules, and of what stands in the blocks of groups (Conditional Rules 3, section 2).
#![tactic(auto, using(crate::proofs::Computing::at_rules))]

ghost use Rattle.std.specs.Prelude.{◌≡◌, List, [], ◌∷◌, true, false, Some, None, codes};
ghost use Rattle.media_spelling.specs.Samples.{media};
ghost use Rattle.media_spelling.specs.declared.condition.Prefix.TheVariants as prefixes;
ghost use Rattle.sheet_types.specs.declared.sheet.GroupCondition.TheVariants as conditions;
ghost use Rattle.sheet_types.specs.declared.sheet.Item.{Style, Plain, Group, Passed, Other};
ghost use Rattle.sheet_types.specs.declared.sheet.PassedKind.TheVariants.{FontFace, Keyframes, WebkitKeyframes, MozKeyframes, Page, CounterStyle};
ghost use Rattle.sheet_types.specs.Samples.{type_at, unmarked};
ghost use Rattle.selector_types.specs.Samples.{source, laid, ident, space, comment, colon, comma, call};
ghost use Rattle.css_rules.specs.AtRules.{at_rule_of, fits_prelude, keyword_named};
ghost use Rattle.css_rules.specs.declared.at_rule.AtKeyword.TheVariants as keywords;
ghost use Rattle.css_rules.specs.declared.at_rule.AtRule.TheVariants as rules;
ghost use Rattle.css_rules.specs.Refusals.{syntax, unbuilt};
ghost use Rattle.css_rules.specs.Samples.{at_keyword, braces, semicolon, string, url};
ghost use Rattle.css_rules.specs.Sheets.{sheet_of, sheet_refusals};

/// The at-keywords of names in lower case.
pub fn keywords_are_named()
    ensures media { keyword_named (codes "media") ≡ keywords.Media }
    ensures supports { keyword_named (codes "supports") ≡ keywords.Supports }
    ensures font_face { keyword_named (codes "font-face") ≡ keywords.PassedOn FontFace }
    ensures keyframes { keyword_named (codes "keyframes") ≡ keywords.PassedOn Keyframes }
    ensures webkit_keyframes { keyword_named (codes "-webkit-keyframes") ≡ keywords.PassedOn WebkitKeyframes }
    ensures moz_keyframes { keyword_named (codes "-moz-keyframes") ≡ keywords.PassedOn MozKeyframes }
    ensures page { keyword_named (codes "page") ≡ keywords.PassedOn Page }
    ensures counter_style { keyword_named (codes "counter-style") ≡ keywords.PassedOn CounterStyle }
    ensures import { keyword_named (codes "import") ≡ keywords.Import }
    ensures charset { keyword_named (codes "charset") ≡ keywords.Charset }
    ensures layer { keyword_named (codes "layer") ≡ keywords.Layer }
    ensures container { keyword_named (codes "container") ≡ keywords.Unknown }
    ensures opera_keyframes { keyword_named (codes "-o-keyframes") ≡ keywords.Unknown }
{}

/// What may stand before the block of a rule that is passed on.
pub fn preludes_fit()
    ensures keyframes_of_an_identifier { fits_prelude Keyframes (source (ident "a" ∷ [])) ≡ true }
    ensures keyframes_of_a_string { fits_prelude MozKeyframes (source (string "'a'" ∷ [])) ≡ true }
    ensures keyframes_of_two { fits_prelude WebkitKeyframes (source (ident "a" ∷ space ∷ ident "b" ∷ [])) ≡ false }
    ensures keyframes_of_none { fits_prelude Keyframes ([]) ≡ false }
    ensures counter_style_of_an_identifier { fits_prelude CounterStyle (source (ident "a" ∷ [])) ≡ true }
    ensures counter_style_of_a_string { fits_prelude CounterStyle (source (string "'a'" ∷ [])) ≡ false }
    ensures page { fits_prelude Page (source (colon ∷ ident "first" ∷ [])) ≡ true }
    ensures font_face { fits_prelude FontFace (source (ident "a" ∷ ident "b" ∷ [])) ≡ true }
{}

/// Which at-rules there are, with a block and without one.
pub fn at_rules_are_told()
    ensures media { at_rule_of (source (at_keyword "@MEDIA" ∷ space ∷ ident "print" ∷ comment ∷ [])) true ≡ rules.Group (conditions.Media (media prefixes.Plain "print" ∷ [])) }
    ensures empty_list { at_rule_of (source (at_keyword "@media" ∷ [])) true ≡ rules.Group (conditions.Media ([])) }
    ensures no_query { at_rule_of (source (at_keyword "@media" ∷ space ∷ comma ∷ [])) true ≡ rules.Unread }
    ensures media_without_a_block { at_rule_of (source (at_keyword "@media" ∷ space ∷ ident "print" ∷ [])) false ≡ rules.Unread }
    ensures no_condition { at_rule_of (source (at_keyword "@supports" ∷ space ∷ ident "a" ∷ [])) true ≡ rules.Unread }
    ensures escaped_keyword { at_rule_of (source (at_keyword "@m\\65 dia" ∷ [])) true ≡ rules.Group (conditions.Media ([])) }
    ensures page { at_rule_of (source (at_keyword "@page" ∷ space ∷ colon ∷ ident "left" ∷ space ∷ [])) true ≡ rules.PassedOn Page (laid 6 (colon ∷ ident "left" ∷ [])) }
    ensures keyframes_without_a_name { at_rule_of (source (at_keyword "@keyframes" ∷ [])) true ≡ rules.Unread }
    ensures page_without_a_block { at_rule_of (source (at_keyword "@page" ∷ [])) false ≡ rules.Unread }
    ensures import { at_rule_of (source (at_keyword "@import" ∷ space ∷ string "'a'" ∷ [])) false ≡ rules.Import }
    ensures import_with_a_block { at_rule_of (source (at_keyword "@IMPORT" ∷ space ∷ string "'a'" ∷ [])) true ≡ rules.Import }
    ensures charset { at_rule_of (source (at_keyword "@charset" ∷ space ∷ string "'utf-8'" ∷ [])) false ≡ rules.Unknown }
    ensures charset_with_a_block { at_rule_of (source (at_keyword "@charset" ∷ [])) true ≡ rules.Unknown }
    ensures layer_with_a_block { at_rule_of (source (at_keyword "@layer" ∷ [])) true ≡ rules.Waiting }
    ensures unknown { at_rule_of (source (at_keyword "@foo" ∷ space ∷ ident "a" ∷ [])) true ≡ rules.Unknown }
    ensures unknown_without_a_block { at_rule_of (source (at_keyword "@foo" ∷ [])) false ≡ rules.Unknown }
{}

/// What sheets with at-rules have, with their places. In the block of a group stands what may stand at the top.
pub fn at_rules_are_spelled()
    ensures group { sheet_of (source (at_keyword "@media" ∷ space ∷ ident "print" ∷ braces (ident "a" ∷ braces (ident "b" ∷ colon ∷ ident "c" ∷ []) ∷ []) ∷ [])) ≡ Some (record { imports = []; items = Group (record { condition = conditions.Media (media prefixes.Plain "print" ∷ []); items = Style (record { selectors = type_at 13 "a" ∷ []; items = Plain (unmarked 15 "b" (laid 17 (ident "c" ∷ [])) ∷ []) ∷ []; at = 13 }) ∷ []; at = 0 }) ∷ [] }) }
    ensures group_in_a_group { sheet_of (source (space ∷ at_keyword "@media" ∷ braces (at_keyword "@media" ∷ braces [] ∷ at_keyword "@a" ∷ semicolon ∷ at_keyword "@b" ∷ []) ∷ [])) ≡ Some (record { imports = []; items = Group (record { condition = conditions.Media ([]); items = Group (record { condition = conditions.Media ([]); items = []; at = 8 }) ∷ Other 16 ∷ Other 19 ∷ []; at = 1 }) ∷ [] }) }
    ensures rule_that_is_passed_on { sheet_of (source (at_keyword "@font-face" ∷ braces (ident "a" ∷ colon ∷ ident "b" ∷ []) ∷ [])) ≡ Some (record { imports = []; items = Passed (record { kind = FontFace; prelude = []; block = laid 11 (ident "a" ∷ colon ∷ ident "b" ∷ []); at = 0 }) ∷ [] }) }
    ensures unknown { sheet_of (source (at_keyword "@a" ∷ space ∷ braces (ident "b" ∷ []) ∷ space ∷ [])) ≡ Some (record { imports = []; items = Other 0 ∷ [] }) }
    ensures no_sheet_in_a_group { sheet_of (source (at_keyword "@media" ∷ braces (ident "a" ∷ []) ∷ [])) ≡ None }
    ensures layer_in_a_group { sheet_of (source (at_keyword "@media" ∷ braces (at_keyword "@layer" ∷ braces [] ∷ []) ∷ [])) ≡ None }
    ensures url_in_a_rule_that_is_passed_on { sheet_of (source (at_keyword "@font-face" ∷ braces (ident "a" ∷ colon ∷ url "url(b)" ∷ []) ∷ [])) ≡ None }
{}

/// What at-rules are refused for.
pub fn at_rules_are_refused()
    ensures no_block { sheet_refusals (source (at_keyword "@media" ∷ space ∷ ident "print" ∷ semicolon ∷ [])) ≡ syntax 0 ∷ [] }
    ensures no_query { sheet_refusals (source (at_keyword "@media" ∷ space ∷ comma ∷ braces (ident "a" ∷ []) ∷ [])) ≡ syntax 0 ∷ [] }
    ensures in_a_group { sheet_refusals (source (at_keyword "@media" ∷ braces (ident "a" ∷ braces [] ∷ at_keyword "@layer" ∷ semicolon ∷ ident "b" ∷ []) ∷ [])) ≡ unbuilt 10 ∷ syntax 17 ∷ [] }
    ensures in_a_rule_that_is_passed_on { sheet_refusals (source (at_keyword "@page" ∷ space ∷ url "url(a)" ∷ braces (ident "revert-layer" ∷ url "url(b)" ∷ []) ∷ [])) ≡ unbuilt 6 ∷ unbuilt 13 ∷ [] }
    ensures in_a_supports_condition { sheet_refusals (source (at_keyword "@supports" ∷ call "(" (ident "a" ∷ colon ∷ url "url(b)" ∷ []) ∷ braces [] ∷ [])) ≡ [] }
    ensures unknown { sheet_refusals (source (at_keyword "@a" ∷ braces (at_keyword "@layer" ∷ semicolon ∷ []) ∷ [])) ≡ [] }
{}
