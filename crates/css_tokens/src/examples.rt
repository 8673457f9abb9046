//! Worked examples of the definitions of this crate, each the contract of a function that does nothing.

ghost use Rattle.std.specs.Prelude.{◌≡◌, [], ◌∷◌, true, false, Some, None, codes};
ghost use Rattle.css_tokens.specs.declared.kind.Kind.TheVariants.{White, Comment, Ident, Function, Url, At, Hash, String as quoted, Number, Percentage, Dimension, Open, Close, Delim, Cdo, Cdc};
ghost use Rattle.css_tokens.specs.Piece.{spelled};
ghost use Rattle.css_tokens.specs.Contents.{content, is_paren, never};
ghost use Rattle.css_tokens.specs.Names.{name_of_word};
ghost use Rattle.css_tokens.specs.Pairing.{awaited, depth};
ghost use Rattle.css_tokens.specs.Samples.{brackets, word};
ghost use Rattle.css_tokens.specs.StringText.{string_text};
ghost use Rattle.css_tokens.specs.Tokens.{first_front, spells};
ghost use Rattle.css_tokens.specs.Values.{printed_words};

/// The kind and the length of the first token of a text: its longest front that has a kind (CSS Syntax 3, section 4.3).
pub fn first_tokens()
    ensures white_space { first_front (codes " \n\t a") ≡ Some (White, 4) }
    ensures comment { first_front (codes "/* c */ a") ≡ Some (Comment, 7) }
    ensures comment_holds_an_opening { first_front (codes "/*/**/*/") ≡ Some (Comment, 6) }
    ensures open_comment { first_front (codes "/* c") ≡ None }
    ensures slash { first_front (codes "/ *") ≡ Some (Delim, 1) }
    ensures ident { first_front (codes "a-1_b c") ≡ Some (Ident, 5) }
    ensures custom_name { first_front (codes "--x:") ≡ Some (Ident, 3) }
    ensures two_dashes { first_front (codes "-- ") ≡ Some (Ident, 2) }
    ensures dash { first_front (codes "- ") ≡ Some (Delim, 1) }
    ensures function { first_front (codes "calc(1px") ≡ Some (Function, 5) }
    ensures at_keyword { first_front (codes "@media p") ≡ Some (At, 6) }
    ensures at_sign { first_front (codes "@ media") ≡ Some (Delim, 1) }
    ensures hash { first_front (codes "#1a b") ≡ Some (Hash, 3) }
    ensures hash_sign { first_front (codes "# a") ≡ Some (Delim, 1) }
    ensures string { first_front (codes "'a\"b'c") ≡ Some (quoted, 5) }
    ensures string_ends_at_no_newline { first_front (codes "\"a\nb\"") ≡ None }
    ensures open_string { first_front (codes "\"x") ≡ None }
    ensures number { first_front (codes "+.5 ") ≡ Some (Number, 3) }
    ensures number_and_full_stop { first_front (codes "1. ") ≡ Some (Number, 1) }
    ensures exponent { first_front (codes "1e3 ") ≡ Some (Number, 3) }
    ensures no_exponent { first_front (codes "1e ") ≡ Some (Dimension, 2) }
    ensures percentage { first_front (codes "50%%") ≡ Some (Percentage, 3) }
    ensures dimension { first_front (codes "1px 2") ≡ Some (Dimension, 3) }
    ensures dimension_with_a_dash { first_front (codes "1e3-") ≡ Some (Dimension, 4) }
    ensures plus { first_front (codes "+ 5") ≡ Some (Delim, 1) }
    ensures opening { first_front (codes "{a") ≡ Some (Open, 1) }
    ensures closing { first_front (codes ")a") ≡ Some (Close, 1) }
    ensures comment_open { first_front (codes "<!--a") ≡ Some (Cdo, 4) }
    ensures comment_close { first_front (codes "-->a") ≡ Some (Cdc, 3) }
    ensures less { first_front (codes "<!-a") ≡ Some (Delim, 1) }
    ensures nothing { first_front [] ≡ None }
{}

/// Escapes in names and strings, and characters from U+0080 on (CSS Syntax 3, sections 4.3.4, 4.3.7 and 4.3.8).
pub fn escapes()
    ensures digits_and_a_space { first_front (codes "\\31 a b") ≡ Some (Ident, 5) }
    ensures another_character { first_front (codes "a\\{b{") ≡ Some (Ident, 4) }
    ensures seven_digits { first_front (codes "\\1234567 ") ≡ Some (Ident, 8) }
    ensures one_newline { first_front (codes "\\a\r\n\n") ≡ Some (Ident, 4) }
    ensures no_escape { first_front (codes "\\\n") ≡ None }
    ensures string { first_front (codes "'\\'\\\n'") ≡ Some (quoted, 6) }
    ensures hash { first_front (codes "#\\31 \\31 1") ≡ Some (Hash, 10) }
    ensures dimension { first_front (codes "1\\65 3") ≡ Some (Dimension, 6) }
    ensures high { first_front (195 ∷ 169 ∷ codes " ") ≡ Some (Ident, 2) }
{}

/// What the text of a name or a string means (CSS Syntax 3, section 4.3.7).
pub fn contents()
    ensures digits { content never (codes "\\31 a") ≡ codes "1a" }
    ensures six_digits { content never (codes "\\0000312") ≡ codes "12" }
    ensures zero { content never (codes "\\0") ≡ 0xEF ∷ 0xBF ∷ 0xBD ∷ [] }
    ensures surrogate { content never (codes "\\d800 x") ≡ 0xEF ∷ 0xBF ∷ 0xBD ∷ codes "x" }
    ensures too_great { content never (codes "\\110000") ≡ 0xEF ∷ 0xBF ∷ 0xBD ∷ [] }
    ensures two_bytes { content never (codes "\\e9") ≡ 0xC3 ∷ 0xA9 ∷ [] }
    ensures itself { content never (codes "\\g\\\\") ≡ codes "g\\" }
    ensures newline { content never (codes "a\\\r\nb") ≡ codes "ab" }
    ensures up_to { content is_paren (codes "a\\(b(c") ≡ codes "a(b" }
{}

/// What begins with `url(`: a Function before a quote, and else a Url or nothing (CSS Syntax 3, section 4.3.6).
pub fn urls()
    ensures url { first_front (codes "url(a.png) b") ≡ Some (Url, 10) }
    ensures any_case { first_front (codes "URL( a )b") ≡ Some (Url, 8) }
    ensures empty { first_front (codes "url()") ≡ Some (Url, 5) }
    ensures quoted { first_front (codes "url( 'a')") ≡ Some (Function, 4) }
    ensures bad { first_front (codes "url(a b)") ≡ None }
    ensures bad_quote { first_front (codes "url(a'b)") ≡ None }
    ensures open { first_front (codes "url(a") ≡ None }
    ensures escaped { first_front (codes "\\75 rl(a)") ≡ Some (Url, 9) }
    ensures escaped_parenthesis { first_front (codes "url(\\)  )") ≡ Some (Url, 9) }
    ensures escaped_quoted { first_front (codes "u\\52 l('") ≡ Some (Function, 7) }
    ensures longer_name { first_front (codes "my-url(a b)") ≡ Some (Function, 7) }
{}

/// What a text spells, whatever follows it.
#[tactic(auto, unfolding(crate::specs::Tokens::spells))]
pub fn spellings()
    ensures dimension { spells Dimension (codes "1px") ≡ true }
    ensures dimension_is_no_number { spells Number (codes "1px") ≡ false }
    ensures ident { spells Ident (codes "-a") ≡ true }
    ensures two_tokens { spells Ident (codes "a b") ≡ false }
{}

/// The texts that close the open blocks, the innermost first (CSS Syntax 3, section 5.4).
pub fn open_blocks()
    ensures none { awaited (brackets "a") ≡ Some [] }
    ensures one { awaited (brackets "(") ≡ Some (codes ")" ∷ []) }
    ensures two { awaited (brackets "{[") ≡ Some (codes "]" ∷ codes "}" ∷ []) }
    ensures closed { awaited (brackets "{[]") ≡ Some (codes "}" ∷ []) }
    ensures all_closed { awaited (brackets "{[]}") ≡ Some [] }
    ensures crossed { awaited (brackets "[(]") ≡ None }
    ensures never_opened { awaited (brackets "}") ≡ None }
    ensures how_deep { depth (brackets "([{") ≡ 3 }
{}

/// How the words of a value print: a run of white space and comments is one space where it has white space, else `/**/`,
/// and nothing at both ends.
pub fn value_texts()
    ensures words { spelled (printed_words (word Ident "a" ∷ word White " \n " ∷ word Ident "b" ∷ [])) ≡ codes "a b" }
    ensures comment { spelled (printed_words (word Ident "a" ∷ word Comment "/* c */" ∷ word Ident "b" ∷ [])) ≡ codes "a/**/b" }
    ensures two_comments { spelled (printed_words (word Ident "a" ∷ word Comment "/*1*/" ∷ word Comment "/*2*/" ∷ word Ident "b" ∷ [])) ≡ codes "a/**/b" }
    ensures comment_and_space { spelled (printed_words (word Ident "a" ∷ word Comment "/* c */" ∷ word White "\t" ∷ word Ident "b" ∷ [])) ≡ codes "a b" }
    ensures escape { spelled (printed_words (word Ident "\\61" ∷ word Comment "/* c */" ∷ word White " " ∷ word Ident "b" ∷ [])) ≡ codes "\\61/**/ b" }
    ensures escape_with_its_space { spelled (printed_words (word Ident "\\61 " ∷ word White " " ∷ word Ident "b" ∷ [])) ≡ codes "\\61  b" }
    ensures no_ends { spelled (printed_words (word White " " ∷ word Ident "a" ∷ word Comment "/* c */" ∷ [])) ≡ codes "a" }
    ensures string { spelled (printed_words (word quoted "'a  b'" ∷ [])) ≡ codes "'a  b'" }
{}

/// The names that tokens hold: without what marks their kind, without quotes, and of a Url the address.
pub fn names_of_tokens()
    ensures ident { name_of_word Ident (codes "a-1") ≡ codes "a-1" }
    ensures function { name_of_word Function (codes "calc(") ≡ codes "calc" }
    ensures at_keyword { name_of_word At (codes "@media") ≡ codes "media" }
    ensures hash { name_of_word Hash (codes "#1a") ≡ codes "1a" }
    ensures string { name_of_word quoted (codes "'a\"b'") ≡ codes "a\"b" }
    ensures url { name_of_word Url (codes "URL( a.png\n)") ≡ codes "a.png" }
    ensures empty_url { name_of_word Url (codes "url()") ≡ [] }
{}

/// How texts print as strings: `"`, `\` and control characters are escaped, and nothing else is.
pub fn strings()
    ensures plain { string_text (codes "a 'b'") ≡ codes "\"a 'b'\"" }
    ensures empty { string_text [] ≡ codes "\"\"" }
    ensures quote { string_text (codes "\"") ≡ codes "\"\\\"\"" }
    ensures backslash { string_text (codes "\\") ≡ codes "\"\\\\\"" }
    ensures line_feed { string_text (codes "a\nb") ≡ codes "\"a\\a b\"" }
    ensures delete { string_text (0x7F ∷ []) ≡ codes "\"\\7f \"" }
    ensures two_bytes { string_text (0xC3 ∷ 0xA9 ∷ []) ≡ 34 ∷ 0xC3 ∷ 0xA9 ∷ 34 ∷ [] }
{}
