//! Worked examples of what spells declarations and sheets (CSS syntax 3, section 5.4), of what a sheet is refused for, and of
//! how it prints.
#![tactic(auto, using(crate::proofs::Computing::computing))]

ghost use Rattle.std.specs.Prelude.{◌≡◌, List, [], ◌∷◌, true, false, Some, None, codes};
ghost use Rattle.std.specs.Option.{option_map};
ghost use Rattle.sheet_types.specs.declared.sheet.Item.{Style, Plain};
ghost use Rattle.sheet_types.specs.BareItems.{bare_sheet, filled_items, importless};
ghost use Rattle.css_rules.specs.Declarations.{declaration_of};
ghost use Rattle.css_rules.specs.Refusals.{first_refusal, syntax, unbuilt};
ghost use Rattle.css_rules.specs.Printable.{all_whole};
ghost use Rattle.css_rules.specs.Sheets.{sheet_of, sheet_refusals};
ghost use Rattle.sheet_types.specs.SheetTexts.{sheet_text};
ghost use Rattle.css_rules.specs.Samples.{number, at_keyword, url, string, dot, semicolon, braces};
ghost use Rattle.sheet_types.specs.Samples.{type_at, unmarked, marked, plain, rule, empty_rule};
ghost use Rattle.selector_types.specs.Samples.{source, laid, ident, delim, space, comment, comma, colon, brackets, call, class, typed, one, only};

/// What a declaration says: its name in lower case, but for a custom property, and its value without white space at both ends.
pub fn declarations_are_spelled()
    ensures plain { declaration_of (source (ident "color" ∷ colon ∷ ident "red" ∷ [])) ≡ Some (unmarked 0 "color" (laid 6 (ident "red" ∷ []))) }
    ensures important { declaration_of (source (ident "Color" ∷ space ∷ colon ∷ space ∷ ident "red" ∷ space ∷ delim "!" ∷ space ∷ ident "IMPORTANT" ∷ [])) ≡ Some (marked 0 "color" (laid 8 (ident "red" ∷ []))) }
    ensures space_inside_a_value { declaration_of (source (ident "a" ∷ colon ∷ number "0" ∷ space ∷ ident "b" ∷ [])) ≡ Some (unmarked 0 "a" (laid 2 (number "0" ∷ space ∷ ident "b" ∷ []))) }
    ensures comments_round_a_value { declaration_of (source (ident "a" ∷ colon ∷ comment ∷ ident "b" ∷ comment ∷ [])) ≡ Some (unmarked 0 "a" (laid 6 (ident "b" ∷ []))) }
    ensures empty_custom { declaration_of (source (ident "--X" ∷ colon ∷ [])) ≡ Some (unmarked 0 "--X" []) }
    ensures important_custom { declaration_of (source (ident "--x" ∷ colon ∷ delim "!" ∷ ident "important" ∷ [])) ≡ Some (marked 0 "--x" []) }
    ensures block_of_a_custom { declaration_of (source (ident "--x" ∷ colon ∷ braces [] ∷ [])) ≡ Some (unmarked 0 "--x" (laid 4 (braces [] ∷ []))) }
{}

/// What is no declaration.
pub fn no_declarations()
    ensures nothing { declaration_of [] ≡ None }
    ensures no_value { declaration_of (source (ident "color" ∷ colon ∷ [])) ≡ None }
    ensures no_colon { declaration_of (source (ident "color" ∷ [])) ≡ None }
    ensures two_names { declaration_of (source (ident "a" ∷ space ∷ ident "b" ∷ colon ∷ ident "c" ∷ [])) ≡ None }
    ensures number_for_a_name { declaration_of (source (number "1" ∷ colon ∷ ident "a" ∷ [])) ≡ None }
    ensures other_mark { declaration_of (source (ident "a" ∷ colon ∷ ident "b" ∷ delim "!" ∷ ident "c" ∷ [])) ≡ None }
    ensures two_marks { declaration_of (source (ident "a" ∷ colon ∷ ident "b" ∷ delim "!" ∷ ident "important" ∷ delim "!" ∷ ident "important" ∷ [])) ≡ None }
    ensures word_behind_the_mark { declaration_of (source (ident "a" ∷ colon ∷ ident "b" ∷ delim "!" ∷ ident "important" ∷ ident "c" ∷ [])) ≡ None }
    ensures mark_alone { declaration_of (source (ident "a" ∷ colon ∷ delim "!" ∷ ident "important" ∷ [])) ≡ None }
    ensures block { declaration_of (source (ident "a" ∷ colon ∷ braces [] ∷ [])) ≡ None }
{}

/// The sheet that components spell, with its places. What stands behind the last block is no rule.
pub fn sheets_are_spelled()
    ensures empty { sheet_of [] ≡ Some (record { imports = []; items = [] }) }
    ensures rule { sheet_of (source (space ∷ ident "a" ∷ braces (ident "b" ∷ colon ∷ ident "c" ∷ []) ∷ [])) ≡ Some (record { imports = []; items = Style (record { selectors = type_at 1 "a" ∷ []; items = Plain (unmarked 3 "b" (laid 5 (ident "c" ∷ [])) ∷ []) ∷ []; at = 1 }) ∷ [] }) }
    ensures no_declaration { sheet_of (source (ident "a" ∷ braces (semicolon ∷ comment ∷ []) ∷ space ∷ [])) ≡ Some (record { imports = []; items = Style (record { selectors = type_at 0 "a" ∷ []; items = []; at = 0 }) ∷ [] }) }
    ensures no_rule_behind { sheet_of (source (ident "a" ∷ braces (semicolon ∷ comment ∷ []) ∷ ident "b" ∷ [])) ≡ None }
    ensures two_colons { sheet_of (source (ident "p" ∷ braces (ident "a" ∷ colon ∷ ident "b" ∷ space ∷ ident "c" ∷ colon ∷ ident "d" ∷ []) ∷ [])) ≡ Some (record { imports = []; items = Style (record { selectors = type_at 0 "p" ∷ []; items = Plain (unmarked 2 "a" (laid 4 (ident "b" ∷ space ∷ ident "c" ∷ colon ∷ ident "d" ∷ [])) ∷ []) ∷ []; at = 0 }) ∷ [] }) }
    ensures block_of_a_custom { sheet_of (source (ident "p" ∷ braces (ident "--x" ∷ colon ∷ braces (ident "a" ∷ []) ∷ ident "b" ∷ semicolon ∷ ident "c" ∷ colon ∷ ident "d" ∷ []) ∷ [])) ≡ Some (record { imports = []; items = Style (record { selectors = type_at 0 "p" ∷ []; items = Plain (unmarked 2 "--x" (laid 6 (braces (ident "a" ∷ []) ∷ ident "b" ∷ [])) ∷ unmarked 11 "c" (laid 13 (ident "d" ∷ [])) ∷ []) ∷ []; at = 0 }) ∷ [] }) }
{}

/// What has no sheet: an item that spells no declaration, alone or beside one that does, and each construct that is not built yet.
pub fn no_sheets()
    ensures number_for_a_name { sheet_of (source (ident "p" ∷ braces (number "1" ∷ colon ∷ ident "a" ∷ []) ∷ [])) ≡ None }
    ensures beside_a_declaration { sheet_of (source (ident "p" ∷ braces (number "1" ∷ colon ∷ ident "a" ∷ semicolon ∷ ident "color" ∷ colon ∷ ident "red" ∷ []) ∷ [])) ≡ None }
    ensures behind_a_declaration { sheet_of (source (ident "p" ∷ braces (ident "color" ∷ colon ∷ ident "red" ∷ semicolon ∷ dot ∷ ident "b" ∷ []) ∷ [])) ≡ None }
    ensures class { sheet_of (source (ident "p" ∷ braces (dot ∷ ident "b" ∷ []) ∷ [])) ≡ None }
    ensures colon_first { sheet_of (source (ident "p" ∷ braces (colon ∷ ident "x" ∷ []) ∷ [])) ≡ None }
    ensures name_alone { sheet_of (source (ident "p" ∷ braces (ident "a" ∷ []) ∷ [])) ≡ None }
    ensures no_selector { sheet_of (source (ident "p" ∷ braces [] ∷ braces [] ∷ [])) ≡ None }
    ensures at_rule { sheet_of (source (at_keyword "@import" ∷ semicolon ∷ ident "p" ∷ braces [] ∷ [])) ≡ None }
    ensures is { sheet_of (source (ident "a" ∷ colon ∷ call "is(" (ident "b" ∷ []) ∷ braces [] ∷ [])) ≡ None }
    ensures combinator_first { sheet_of (source (delim ">" ∷ ident "a" ∷ braces [] ∷ [])) ≡ None }
    ensures nesting { sheet_of (source (delim "&" ∷ braces [] ∷ [])) ≡ None }
    ensures nested_rule { sheet_of (source (ident "p" ∷ braces (ident "a" ∷ braces [] ∷ []) ∷ [])) ≡ None }
    ensures nested_at_rule { sheet_of (source (ident "p" ∷ braces (at_keyword "@a" ∷ []) ∷ [])) ≡ None }
    ensures property { sheet_of (source (ident "p" ∷ braces (ident "float" ∷ colon ∷ ident "left" ∷ []) ∷ [])) ≡ None }
    ensures value { sheet_of (source (ident "p" ∷ braces (ident "a" ∷ colon ∷ url "url(x)" ∷ []) ∷ [])) ≡ None }
{}

/// The items of a sheet, places aside, and without the rules that declare nothing.
pub fn items_of_sheets()
    ensures rule { option_map bare_sheet (sheet_of (source (dot ∷ ident "a" ∷ braces (ident "color" ∷ colon ∷ ident "red" ∷ []) ∷ []))) ≡ Some (importless (rule (only (class "a") ∷ []) (plain "color" "red" ∷ []) ∷ [])) }
    ensures no_declaration { option_map bare_sheet (sheet_of (source (space ∷ ident "p" ∷ braces (semicolon ∷ comment ∷ []) ∷ []))) ≡ Some (importless (empty_rule (one (typed "p" []) ∷ []) ∷ [])) }
    ensures nothing_declared { option_map (λ sheet. filled_items sheet.items) (sheet_of (source (ident "p" ∷ braces (semicolon ∷ comment ∷ []) ∷ []))) ≡ Some [] }
    ensures something_declared { option_map (λ sheet. filled_items sheet.items) (sheet_of (source (ident "p" ∷ braces [] ∷ ident "a" ∷ braces (ident "b" ∷ colon ∷ ident "c" ∷ []) ∷ []))) ≡ Some (Style (record { selectors = type_at 3 "a" ∷ []; items = Plain (unmarked 5 "b" (laid 7 (ident "c" ∷ [])) ∷ []) ∷ []; at = 3 }) ∷ []) }
    ensures two_declarations { option_map bare_sheet (sheet_of (source (ident "a" ∷ braces (ident "b" ∷ colon ∷ ident "c" ∷ semicolon ∷ ident "d" ∷ colon ∷ ident "e" ∷ []) ∷ []))) ≡ Some (importless (rule (one (typed "a" []) ∷ []) (plain "b" "c" ∷ plain "d" "e" ∷ []) ∷ [])) }
    ensures two_rules { option_map bare_sheet (sheet_of (source (ident "a" ∷ braces (ident "b" ∷ colon ∷ ident "c" ∷ []) ∷ ident "d" ∷ braces (ident "e" ∷ colon ∷ ident "f" ∷ []) ∷ []))) ≡ Some (importless (rule (one (typed "a" []) ∷ []) (plain "b" "c" ∷ []) ∷ rule (one (typed "d" []) ∷ []) (plain "e" "f" ∷ []) ∷ [])) }
{}

/// How a sheet prints: a rule on a line, without the white space that is not needed.
pub fn sheets_print()
    ensures rule { option_map sheet_text (sheet_of (source (dot ∷ ident "a" ∷ braces (ident "color" ∷ colon ∷ ident "red" ∷ []) ∷ []))) ≡ Some (codes ".a{color:red}\n") }
    ensures nothing { option_map sheet_text (sheet_of []) ≡ Some ([]) }
    ensures no_declaration { option_map sheet_text (sheet_of (source (ident "p" ∷ braces (semicolon ∷ comment ∷ []) ∷ []))) ≡ Some ([]) }
    ensures two_declarations { option_map sheet_text (sheet_of (source (ident "a" ∷ braces (ident "b" ∷ colon ∷ ident "c" ∷ semicolon ∷ ident "d" ∷ colon ∷ ident "e" ∷ []) ∷ []))) ≡ Some (codes "a{b:c;d:e}\n") }
    ensures two_rules { option_map sheet_text (sheet_of (source (ident "a" ∷ braces (ident "b" ∷ colon ∷ ident "c" ∷ []) ∷ ident "d" ∷ braces (ident "e" ∷ colon ∷ ident "f" ∷ []) ∷ []))) ≡ Some (codes "a{b:c}\nd{e:f}\n") }
    ensures selectors { option_map sheet_text (sheet_of (source (ident "a" ∷ colon ∷ ident "HOVER" ∷ comma ∷ brackets (ident "x" ∷ delim "=" ∷ ident "y" ∷ []) ∷ colon ∷ ident "before" ∷ braces (ident "b" ∷ colon ∷ ident "c" ∷ []) ∷ []))) ≡ Some (codes "a:hover,[x=\"y\"]::before{b:c}\n") }
    ensures white_space { option_map sheet_text (sheet_of (source (ident "a" ∷ space ∷ braces (space ∷ ident "b" ∷ space ∷ colon ∷ space ∷ ident "c" ∷ space ∷ []) ∷ []))) ≡ Some (codes "a{b:c}\n") }
    ensures empty_custom { option_map sheet_text (sheet_of (source (ident "a" ∷ braces (ident "--x" ∷ colon ∷ []) ∷ []))) ≡ Some (codes "a{--x: }\n") }
    ensures important { option_map sheet_text (sheet_of (source (ident "a" ∷ braces (ident "b" ∷ colon ∷ ident "c" ∷ space ∷ delim "!" ∷ ident "Important" ∷ []) ∷ []))) ≡ Some (codes "a{b:c!important}\n") }
{}

/// Of which sheets all is kept: not where a declaration stands under a foreign function or an attribute selector with a flag.
pub fn sheets_are_whole()
    ensures no_flag { option_map all_whole (sheet_of (source (brackets (ident "x" ∷ delim "=" ∷ ident "y" ∷ []) ∷ braces (ident "b" ∷ colon ∷ ident "c" ∷ []) ∷ []))) ≡ Some true }
    ensures foreign { option_map all_whole (sheet_of (source (colon ∷ call "has(" (ident "a" ∷ []) ∷ braces (ident "b" ∷ colon ∷ ident "c" ∷ []) ∷ []))) ≡ Some false }
    ensures flag { option_map all_whole (sheet_of (source (brackets (ident "x" ∷ delim "=" ∷ ident "y" ∷ space ∷ ident "i" ∷ []) ∷ braces (ident "b" ∷ colon ∷ ident "c" ∷ []) ∷ []))) ≡ Some false }
    ensures no_declaration { option_map all_whole (sheet_of (source (colon ∷ call "has(" (ident "a" ∷ []) ∷ braces [] ∷ []))) ≡ Some true }
{}

/// What a sheet is refused for outside its rules, and that a rule of what is built is not refused.
pub fn rules_are_refused()
    ensures none { sheet_refusals (source (dot ∷ ident "a" ∷ braces (ident "color" ∷ colon ∷ ident "red" ∷ []) ∷ [])) ≡ [] }
    ensures at_rule { sheet_refusals (source (at_keyword "@layer" ∷ space ∷ ident "a" ∷ braces [] ∷ [])) ≡ unbuilt 0 ∷ [] }
    ensures at_rule_without_a_block { sheet_refusals (source (at_keyword "@layer" ∷ space ∷ ident "x" ∷ semicolon ∷ ident "p" ∷ braces [] ∷ [])) ≡ unbuilt 0 ∷ [] }
    ensures no_block { sheet_refusals (source (ident "p" ∷ braces [] ∷ space ∷ ident "q" ∷ [])) ≡ syntax 4 ∷ [] }
    ensures at_rule_before_a_rule { sheet_refusals (source (at_keyword "@layer" ∷ space ∷ ident "print" ∷ semicolon ∷ dot ∷ dot ∷ ident "a" ∷ braces [] ∷ [])) ≡ unbuilt 0 ∷ syntax 13 ∷ [] }
    ensures comment_behind { sheet_refusals (source (ident "p" ∷ braces [] ∷ space ∷ comment ∷ [])) ≡ [] }
{}

/// What a sheet is refused for in front of the block of a rule.
pub fn preludes_are_refused()
    ensures pseudo_class { sheet_refusals (source (ident "a" ∷ colon ∷ ident "hover" ∷ braces (ident "color" ∷ colon ∷ ident "red" ∷ []) ∷ [])) ≡ [] }
    ensures attribute { sheet_refusals (source (brackets (ident "x" ∷ []) ∷ braces [] ∷ [])) ≡ [] }
    ensures function_alone { sheet_refusals (source (call "a(" (ident "b" ∷ colon ∷ ident "c" ∷ []) ∷ braces [] ∷ [])) ≡ syntax 0 ∷ [] }
    ensures other_function { sheet_refusals (source (colon ∷ call "has(" (ident "a" ∷ []) ∷ braces [] ∷ [])) ≡ [] }
    ensures combinator_first { sheet_refusals (source (delim ">" ∷ ident "a" ∷ braces [] ∷ [])) ≡ syntax 0 ∷ [] }
    ensures first_of_two_that_are_no_selectors { sheet_refusals (source (ident "a" ∷ comma ∷ comma ∷ dot ∷ braces [] ∷ [])) ≡ syntax 2 ∷ [] }
    ensures nothing_before_the_block { sheet_refusals (source (ident "a" ∷ comma ∷ braces [] ∷ [])) ≡ syntax 2 ∷ [] }
    ensures no_selector { sheet_refusals (source (braces [] ∷ [])) ≡ syntax 0 ∷ [] }
{}

/// What it is refused for there where a selector waits for a later stage: `&` and `:is(..)` at any depth.
pub fn waiting_preludes_are_refused()
    ensures is { sheet_refusals (source (ident "a" ∷ colon ∷ call "IS(" (ident "b" ∷ []) ∷ braces [] ∷ [])) ≡ unbuilt 1 ∷ [] }
    ensures is_behind_a_comment { sheet_refusals (source (ident "a" ∷ colon ∷ comment ∷ call "is(" (ident "b" ∷ []) ∷ braces [] ∷ [])) ≡ unbuilt 1 ∷ [] }
    ensures is_behind_a_space { sheet_refusals (source (ident "a" ∷ colon ∷ space ∷ call "is(" (ident "b" ∷ []) ∷ braces [] ∷ [])) ≡ syntax 0 ∷ [] }
    ensures is_without_a_colon { sheet_refusals (source (call "is(" (ident "b" ∷ []) ∷ braces [] ∷ [])) ≡ syntax 0 ∷ [] }
    ensures is_at_any_depth { sheet_refusals (source (colon ∷ call "not(" (colon ∷ call "is(" (ident "b" ∷ []) ∷ []) ∷ braces [] ∷ [])) ≡ unbuilt 5 ∷ [] }
    ensures nesting_at_any_depth { sheet_refusals (source (colon ∷ call "not(" (delim "&" ∷ []) ∷ braces [] ∷ [])) ≡ unbuilt 5 ∷ [] }
    ensures nesting_behind_what_is_no_selector { sheet_refusals (source (ident "a" ∷ comma ∷ comma ∷ delim "&" ∷ braces [] ∷ [])) ≡ unbuilt 3 ∷ syntax 2 ∷ [] }
    ensures nesting { sheet_refusals (source (delim "&" ∷ ident "p" ∷ braces [] ∷ [])) ≡ unbuilt 0 ∷ syntax 0 ∷ [] }
    ensures nesting_is_named { first_refusal (sheet_refusals (source (delim "&" ∷ ident "p" ∷ braces [] ∷ []))) ≡ Some (unbuilt 0) }
{}

/// What a sheet is refused for in the block of a rule.
pub fn items_are_refused()
    ensures at_rule { sheet_refusals (source (ident "p" ∷ braces (at_keyword "@media" ∷ space ∷ ident "x" ∷ braces [] ∷ []) ∷ [])) ≡ unbuilt 2 ∷ [] }
    ensures at_rule_without_a_block { sheet_refusals (source (ident "p" ∷ braces (at_keyword "@layer" ∷ space ∷ ident "x" ∷ semicolon ∷ []) ∷ [])) ≡ unbuilt 2 ∷ [] }
    ensures rule { sheet_refusals (source (ident "p" ∷ braces (ident "a" ∷ braces [] ∷ []) ∷ [])) ≡ unbuilt 2 ∷ [] }
    ensures declaration_behind_a_rule { sheet_refusals (source (ident "p" ∷ braces (ident "a" ∷ braces (ident "b" ∷ colon ∷ ident "c" ∷ []) ∷ ident "d" ∷ colon ∷ ident "e" ∷ []) ∷ [])) ≡ unbuilt 2 ∷ [] }
    ensures block_in_a_value { sheet_refusals (source (ident "p" ∷ braces (ident "a" ∷ colon ∷ braces (ident "b" ∷ []) ∷ ident "c" ∷ semicolon ∷ ident "d" ∷ colon ∷ ident "e" ∷ []) ∷ [])) ≡ unbuilt 2 ∷ syntax 7 ∷ [] }
    ensures block_alone { sheet_refusals (source (ident "p" ∷ braces (space ∷ braces [] ∷ []) ∷ [])) ≡ unbuilt 3 ∷ [] }
    ensures block_of_a_custom { sheet_refusals (source (ident "p" ∷ braces (ident "--x" ∷ colon ∷ braces (ident "a" ∷ []) ∷ ident "b" ∷ semicolon ∷ ident "c" ∷ colon ∷ ident "d" ∷ []) ∷ [])) ≡ [] }
    ensures number_for_a_name { sheet_refusals (source (ident "p" ∷ braces (number "1" ∷ colon ∷ ident "a" ∷ []) ∷ [])) ≡ syntax 2 ∷ [] }
    ensures beside_a_declaration { sheet_refusals (source (ident "p" ∷ braces (number "1" ∷ colon ∷ ident "a" ∷ semicolon ∷ ident "color" ∷ colon ∷ ident "red" ∷ []) ∷ [])) ≡ syntax 2 ∷ [] }
    ensures class { sheet_refusals (source (ident "p" ∷ braces (dot ∷ ident "b" ∷ []) ∷ [])) ≡ syntax 2 ∷ [] }
    ensures colon_first { sheet_refusals (source (ident "p" ∷ braces (colon ∷ ident "x" ∷ []) ∷ [])) ≡ syntax 2 ∷ [] }
    ensures name_alone { sheet_refusals (source (ident "p" ∷ braces (ident "a" ∷ []) ∷ [])) ≡ syntax 2 ∷ [] }
    ensures two_colons { sheet_refusals (source (ident "p" ∷ braces (ident "a" ∷ colon ∷ ident "b" ∷ space ∷ ident "c" ∷ colon ∷ ident "d" ∷ []) ∷ [])) ≡ [] }
    ensures property { sheet_refusals (source (ident "p" ∷ braces (ident "margin-inline" ∷ colon ∷ number "0" ∷ []) ∷ [])) ≡ unbuilt 2 ∷ [] }
    ensures property_without_a_value { sheet_refusals (source (ident "p" ∷ braces (ident "inline-size" ∷ colon ∷ []) ∷ [])) ≡ syntax 2 ∷ [] }
    ensures both { sheet_refusals (source (ident "p" ∷ braces (ident "color" ∷ semicolon ∷ ident "float" ∷ colon ∷ ident "left" ∷ []) ∷ [])) ≡ syntax 2 ∷ unbuilt 8 ∷ [] }
    ensures first_of_both { first_refusal (sheet_refusals (source (ident "p" ∷ braces (ident "color" ∷ semicolon ∷ ident "float" ∷ colon ∷ ident "left" ∷ []) ∷ []))) ≡ Some (syntax 2) }
{}

/// What a sheet is refused for in the value of a declaration.
pub fn values_are_refused()
    ensures revert_layer { sheet_refusals (source (ident "p" ∷ braces (ident "color" ∷ colon ∷ ident "revert-layer" ∷ []) ∷ [])) ≡ unbuilt 8 ∷ [] }
    ensures revert_layer_of_a_custom { sheet_refusals (source (ident "p" ∷ braces (ident "--x" ∷ colon ∷ ident "revert-layer" ∷ []) ∷ [])) ≡ unbuilt 6 ∷ [] }
    ensures url { sheet_refusals (source (ident "p" ∷ braces (ident "background" ∷ colon ∷ url "url(x)" ∷ []) ∷ [])) ≡ unbuilt 13 ∷ [] }
    ensures url_of_a_string { sheet_refusals (source (ident "p" ∷ braces (ident "background" ∷ colon ∷ call "url(" (string "'x'" ∷ []) ∷ []) ∷ [])) ≡ unbuilt 13 ∷ [] }
    ensures url_at_any_depth { sheet_refusals (source (ident "p" ∷ braces (ident "a" ∷ colon ∷ call "b(" (url "url(x)" ∷ []) ∷ []) ∷ [])) ≡ unbuilt 6 ∷ [] }
    ensures url_of_a_custom { sheet_refusals (source (ident "p" ∷ braces (ident "--x" ∷ colon ∷ url "url(x)" ∷ []) ∷ [])) ≡ [] }
{}
