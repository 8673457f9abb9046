ghost use Rattle.std.specs.Prelude.{ℕ, List, ◌&&◌, not, ◌∷◌, [], ◌++◌, ◌≡◌, ◌≢◌, ◌≤◌, ◌⊎◌, IsTrue, true, false, codes, length, map, nat_eq};
ghost use Rattle.std.specs.List.{AllByRecursion, ends_with, list_all, list_any};
ghost use Rattle.std.specs.Str.{IsUtf8, is_utf8, str_to_ascii_lowercase};
ghost use Rattle.css_tokens.specs.declared.component.Component.{Component};
ghost use Rattle.css_tokens.specs.declared.class.Class.TheVariants as class;
ghost use Rattle.css_tokens.specs.declared.kind.Kind.{Kind};
ghost use Rattle.css_tokens.specs.declared.kind.Kind.TheVariants as kind;
ghost use Rattle.css_tokens.specs.declared.pairing.ComponentFault.{ComponentFault};
ghost use Rattle.css_tokens.specs.declared.pairing.ComponentFault.TheVariants as fault;
ghost use Rattle.css_tokens.specs.Again.{StaysFirst, Alike, KeepsQuote, is_solid, is_stop, is_end_kind, word_from, marks, begins_none, after_ident, after_name, more_name, takes, digit, digit_or_dot, star, bang};
ghost use Rattle.css_tokens.specs.Characters.{white};
ghost use Rattle.css_tokens.specs.Kinds.{is_kind};
ghost use Rattle.css_tokens.specs.NameText.{name_text};
ghost use Rattle.css_tokens.specs.Components.{HasComponents, IsFirstFault};
ghost use Rattle.css_tokens.specs.Names.{is_content, is_name, name_of_word, starts_ident};
ghost use Rattle.css_tokens.specs.Pairing.{IsBracketFault, IsMismatch, IsPaired, IsTooDeep, IsUnclosed, places_rise};
ghost use Rattle.css_tokens.specs.Piece.{Piece, Word, spelled, word_of};
ghost use Rattle.css_tokens.specs.StringText.{string_text};
ghost use Rattle.css_tokens.specs.Numbers.{after_number, is_digits, is_sign};
ghost use Rattle.css_tokens.specs.PlainNames.{is_plain};
ghost use Rattle.css_tokens.specs.Tokens.{First, IsPlaced, Reads, ReadsTo, StopsAt, classes_of, is_control, is_url, mark_length, quote_follows, spells};
ghost use Rattle.css_tokens.specs.Trees.{words_all, all_formed, is_text, pieces_all};
ghost use Rattle.css_tokens.specs.Values.{is_gap, is_white, value_words, value_text};

/// A text reads in at most one way, or has a fault at one place within it, and never both.
pub fn one_reading()
    ensures one { (t : List ℕ) (a b : List Word) → Reads t a → Reads t b → a ≡ b }
    ensures place { (t : List ℕ) (o p : ℕ) → StopsAt t o → StopsAt t p → o ≡ p }
    ensures either { (t : List ℕ) (ws : List Word) (o : ℕ) → Reads t ws → StopsAt t o → ⊥ }
    ensures within { (t : List ℕ) (o : ℕ) → StopsAt t o → o ≤ length t }
{}

/// Tokens have at most one fault of brackets, and none where their brackets are paired.
pub fn one_bracket_fault()
    ensures one { (ts : List Piece) (end : ℕ) (f g : ComponentFault) → IsBracketFault ts end f → IsBracketFault ts end g → f ≡ g }
    ensures either { (ts : List Piece) (end : ℕ) (f : ComponentFault) → IsPaired ts → IsBracketFault ts end f → ⊥ }
{}

/// Every text has a reading, or a place where it has none.
pub fn some_reading()
    ensures { (t : List ℕ) → ((ws : List Word) × Reads t ws) ⊎ ((o : ℕ) × StopsAt t o) }
{}

/// Tokens are paired, or have a fault of brackets; and tokens that are paired make components.
pub fn some_pairing()
    ensures either { (ts : List Piece) (end : ℕ) → IsPaired ts ⊎ ((f : ComponentFault) × IsBracketFault ts end f) }
    ensures components { (ts : List Piece) → IsPaired ts → (cs : List Component) × (pieces_all cs ≡ ts) × IsTrue (all_formed cs) }
{}

/// Every text has component values or a first fault, and one of these.
pub fn components_or_fault()
    ensures some { (t : List ℕ) → ((cs : List Component) × HasComponents t cs) ⊎ ((f : ComponentFault) × (f ≢ fault.Memory) × IsFirstFault t f) }
    ensures one { (t : List ℕ) (a b : List Component) → HasComponents t a → HasComponents t b → a ≡ b }
    ensures either { (t : List ℕ) (cs : List Component) (f : ComponentFault) → HasComponents t cs → IsFirstFault t f → f ≡ fault.Memory }
    ensures fault { (t : List ℕ) (f g : ComponentFault) → f ≢ fault.Memory → g ≢ fault.Memory → IsFirstFault t f → IsFirstFault t g → f ≡ g }
{}

/// The places of the tokens of a text rise and lie within it, and so do the places of faults of brackets.
pub fn places_rise_in_a_text()
    ensures rise { (t : List ℕ) (ps : List Piece) → Reads t (map word_of ps) → IsPlaced (mark_length t) ps → IsTrue (places_rise ps (length t)) }
    ensures within { (t : List ℕ) (ps : List Piece) → Reads t (map word_of ps) → IsPlaced (mark_length t) ps → AllByRecursion (λ p. p.at ≤ length t) ps }
    ensures mismatch { (ps : List Piece) (end o : ℕ) → AllByRecursion (λ p. p.at ≤ end) ps → IsMismatch ps o → o ≤ end }
    ensures deep { (ps : List Piece) (end o : ℕ) → AllByRecursion (λ p. p.at ≤ end) ps → IsTooDeep ps o → o ≤ end }
    ensures unclosed { (ps : List Piece) (end o : ℕ) → IsUnclosed ps end o → o ≤ end }
{}

/// Words that are written one after another are read again. A token that is neither white space nor a comment stays the
/// first where what follows it changes behind a stop (`specs/Again.antt`); for a Function named `url` a quote has to stay,
/// and an escape at the token's end must not take the white space that then follows. A token other than white space begins
/// with no white space.
pub fn words_again()
    ensures keeps { (w : Word) (a b : List ℕ) → is_solid w.kind ≡ true → StaysFirst w a → Alike a b → (is_url w.text ≡ true → KeepsQuote a b) → takes w b ≡ false → StaysFirst w b }
    ensures begins { (w : Word) (a : List ℕ) → StaysFirst w a → is_white w.kind ≡ false → begins_none white (w.text ++ a) ≡ true }
    ensures composes { (xs ys : List Word) (s r : List ℕ) → ReadsTo (spelled xs ++ s) xs s → ReadsTo s ys r → ReadsTo (spelled xs ++ s) (xs ++ ys) r }
    ensures marks { AllByRecursion (λ w. (rest : List ℕ) → StaysFirst w rest) marks }
    ensures dot { (rest : List ℕ) → begins_none digit rest ≡ true → StaysFirst (word_from kind.Delim (codes ".")) rest }
    ensures plus { (rest : List ℕ) → begins_none digit_or_dot rest ≡ true → StaysFirst (word_from kind.Delim (codes "+")) rest }
    ensures space { (rest : List ℕ) → begins_none white rest ≡ true → StaysFirst (word_from kind.White (codes " ")) rest }
    ensures feed { (rest : List ℕ) → begins_none white rest ≡ true → StaysFirst (word_from kind.White (10 ∷ [])) rest }
    ensures ident { (u rest : List ℕ) → spells kind.Ident u ≡ true → begins_none after_ident rest ≡ true → takes (word_from kind.Ident u) rest ≡ false → StaysFirst (word_from kind.Ident u) rest }
    ensures hash { (u rest : List ℕ) → spells kind.Hash u ≡ true → begins_none more_name rest ≡ true → takes (word_from kind.Hash u) rest ≡ false → StaysFirst (word_from kind.Hash u) rest }
    ensures at { (u rest : List ℕ) → spells kind.At u ≡ true → begins_none more_name rest ≡ true → takes (word_from kind.At u) rest ≡ false → StaysFirst (word_from kind.At u) rest }
    ensures string { (u rest : List ℕ) → spells kind.String u ≡ true → StaysFirst (word_from kind.String u) rest }
    ensures function { (u rest : List ℕ) → spells kind.Function u ≡ true → is_url u ≡ false → StaysFirst (word_from kind.Function u) rest }
    ensures url { (u rest : List ℕ) → is_url u ≡ true → quote_follows (classes_of rest) ≡ true → StaysFirst (word_from kind.Function u) rest }
{}

/// The printed text of a value reads as its words, before whatever begins with a stop. A reading splits anywhere. What
/// ends a declaration begins with a stop: white space, a comment, `;`, a closing bracket, and a `!` with no `-` behind it.
pub fn values_again()
    ensures printed { (v : List Component) (s r : List ℕ) → IsTrue (all_formed v) → is_stop (classes_of s) ≡ true → is_stop (classes_of r) ≡ true → begins_none white r ≡ true → ReadsTo (spelled (words_all v) ++ s) (words_all v) s → ReadsTo (value_text v ++ r) (value_words v) r }
    ensures front { (xs ys : List Word) (s : List ℕ) → ReadsTo (spelled (xs ++ ys) ++ s) (xs ++ ys) s → ReadsTo (spelled xs ++ (spelled ys ++ s)) xs (spelled ys ++ s) }
    ensures back { (xs ys : List Word) (s : List ℕ) → ReadsTo (spelled (xs ++ ys) ++ s) (xs ++ ys) s → ReadsTo (spelled ys ++ s) ys s }
    ensures stops { (w : Word) (rest : List ℕ) → StaysFirst w rest → is_end_kind w.kind ≡ true → is_stop (classes_of (w.text ++ rest)) ≡ true }
    ensures bang { (rest : List ℕ) → begins_none (class.Minus ∷ []) rest ≡ true → is_stop (classes_of (codes "!" ++ rest)) ≡ true }
    ensures gap { (w : Word) (rest : List ℕ) → StaysFirst w rest → is_gap w.kind ≡ true → begins_none (class.Minus ∷ []) (w.text ++ rest) ≡ true }
    ensures important { (u rest : List ℕ) → is_text (str_to_ascii_lowercase u) (codes "important") ≡ true → begins_none (class.Minus ∷ []) (u ++ rest) ≡ true }
    ensures word_spelled { (t : List ℕ) (w : Word) → First t w → spells w.kind w.text ≡ true }
    ensures words_spelled { (t : List ℕ) (ws : List Word) (s : List ℕ) → ReadsTo t ws s → list_all (λ w. spells w.kind w.text) ws ≡ true }
{}

/// A name is not empty, in UTF-8, and without U+0000. Its text spells an Ident, and with `#` before it a Hash, and means
/// the name again. What an Ident, a Hash or an At in UTF-8 holds, its escapes decoded, is a name. The first token of a text spells its kind.
pub fn names_spell()
    ensures ident { (n : List ℕ) → is_name n ≡ true → spells kind.Ident (name_text n) ≡ true }
    ensures hash { (n : List ℕ) → is_name n ≡ true → spells kind.Hash (codes "#" ++ name_text n) ≡ true }
    ensures again { (n : List ℕ) → is_name n ≡ true → name_of_word kind.Ident (name_text n) ≡ n }
    ensures hash_again { (n : List ℕ) → is_name n ≡ true → name_of_word kind.Hash (codes "#" ++ name_text n) ≡ n }
    ensures decoded { (t : List ℕ) → IsUtf8 t → spells kind.Ident t ≡ true → is_name (name_of_word kind.Ident t) ≡ true }
    ensures hash_decoded { (t : List ℕ) → IsUtf8 t → spells kind.Hash t ≡ true → is_name (name_of_word kind.Hash t) ≡ true }
    ensures at_decoded { (t : List ℕ) → IsUtf8 t → spells kind.At (codes "@" ++ t) ≡ true → is_name (name_of_word kind.At (codes "@" ++ t)) ≡ true }
    ensures first { (t : List ℕ) (w : Word) → First t w → spells w.kind w.text ≡ true }
{}

/// The words of a text are in UTF-8, and hold no control character; and words that are read before anything else hold none.
pub fn words_are_clean()
    ensures whole { (t : List ℕ) (ws : List Word) → Reads t ws → list_all (λ w. is_utf8 w.text && not (list_any is_control w.text)) ws ≡ true }
    ensures before { (t : List ℕ) (ws : List Word) (r : List ℕ) → ReadsTo t ws r → list_any is_control (spelled ws) ≡ false }
{}

/// What stands behind the `#` of a Hash spells an Ident where it would start one, and nowhere else (CSS Syntax 3, section
/// 4.3.9).
pub fn ids_spell()
    ensures { (t : List ℕ) → spells kind.Hash (codes "#" ++ t) ≡ true → spells kind.Ident t ≡ starts_ident t }
{}

/// The string of a content spells a String and means the content again; it is in UTF-8 and holds no control character. What
/// a String in UTF-8 holds, its escapes decoded, is a content.
pub fn strings_spell()
    ensures string { (t : List ℕ) → is_content t ≡ true → spells kind.String (string_text t) ≡ true }
    ensures again { (t : List ℕ) → is_content t ≡ true → name_of_word kind.String (string_text t) ≡ t }
    ensures utf8 { (t : List ℕ) → IsUtf8 t → IsUtf8 (string_text t) }
    ensures clean { (t : List ℕ) → is_content t ≡ true → list_any is_control (string_text t) ≡ false }
    ensures decoded { (t : List ℕ) → IsUtf8 t → spells kind.String t ≡ true → is_content (name_of_word kind.String t) ≡ true }
{}

/// What stands next to the text of a name: it begins with no digit, `.` or white space; it takes no white space that
/// follows; one other than `--` stays an Ident before a `>` too; and a `+` stays a Delim before a `.` that begins no number.
pub fn names_stay()
    ensures digit { (n rest : List ℕ) → is_name n ≡ true → begins_none digit (name_text n ++ rest) ≡ true }
    ensures dot { (n rest : List ℕ) → is_name n ≡ true → begins_none digit_or_dot (name_text n ++ rest) ≡ true }
    ensures white { (n rest : List ℕ) → is_name n ≡ true → begins_none white (name_text n ++ rest) ≡ true }
    ensures ident { (n rest : List ℕ) → is_name n ≡ true → begins_none after_ident rest ≡ true → StaysFirst (word_from kind.Ident (name_text n)) rest }
    ensures child { (n rest : List ℕ) → is_name n ≡ true → name_text n ≢ codes "--" → begins_none after_name rest ≡ true → StaysFirst (word_from kind.Ident (name_text n)) rest }
    ensures hash { (n rest : List ℕ) → is_name n ≡ true → begins_none more_name rest ≡ true → StaysFirst (word_from kind.Hash (codes "#" ++ name_text n)) rest }
    ensures plus_dot { (rest : List ℕ) → begins_none digit rest ≡ true → StaysFirst (word_from kind.Delim (codes "+")) (codes "." ++ rest) }
{}

/// Which text may follow a number or a dimension of an integer so that it stays the first token (CSS Syntax 3, section 4.3.3).
pub fn numbers_stay()
    ensures number { (sign ds rest : List ℕ) → is_sign sign ≡ true → is_digits ds ≡ true → begins_none after_number rest ≡ true → StaysFirst (word_from kind.Number (sign ++ ds)) rest }
    ensures dimension { (sign ds w rest : List ℕ) → is_sign sign ≡ true → is_digits ds ≡ true → list_all is_plain w ≡ true → begins_none more_name rest ≡ true → StaysFirst (word_from kind.Dimension (sign ++ (ds ++ 110 ∷ w))) rest }
{}

/// What parts two numbers, as in the ratio `16 / 9`: a `/` stays a Delim before a text that does not begin with `*`, and no
/// number begins so. A word that ends a text is its first token (CSS Syntax 3, sections 4.3.1 and 4.3.2).
pub fn numbers_part()
    ensures slash { (rest : List ℕ) → begins_none star rest ≡ true → StaysFirst (word_from kind.Delim (codes "/")) rest }
    ensures number { (u rest : List ℕ) → spells kind.Number u ≡ true → begins_none star (u ++ rest) ≡ true }
    ensures alone { (k : Kind) (u : List ℕ) → is_kind k kind.Url ≡ false → is_kind k kind.Function ≡ false → spells k u ≡ true → StaysFirst (word_from k u) [] }
{}

/// A `<` stays a Delim before a text that does not begin with `!`, and so before a `=` (CSS Syntax 3, section 4.3.1).
pub fn less_than_stays()
    ensures less { (rest : List ℕ) → begins_none bang rest ≡ true → StaysFirst (word_from kind.Delim (codes "<")) rest }
    ensures equals { (rest : List ℕ) → StaysFirst (word_from kind.Delim (codes "<")) (codes "=" ++ rest) }
{}

/// A closing bracket does not depend on what follows it: words that are read up to a `)`, `]` or `}` are read so whatever
/// text stands behind the bracket (CSS Syntax 3, section 4.3.1).
pub fn closing_brackets_stand()
    ensures parenthesis { (xs : List Word) (s r : List ℕ) → ReadsTo (spelled xs ++ (codes ")" ++ s)) xs (codes ")" ++ s) → ReadsTo (spelled xs ++ (codes ")" ++ r)) xs (codes ")" ++ r) }
    ensures square { (xs : List Word) (s r : List ℕ) → ReadsTo (spelled xs ++ (codes "]" ++ s)) xs (codes "]" ++ s) → ReadsTo (spelled xs ++ (codes "]" ++ r)) xs (codes "]" ++ r) }
    ensures brace { (xs : List Word) (s r : List ℕ) → ReadsTo (spelled xs ++ (codes "}" ++ s)) xs (codes "}" ++ s) → ReadsTo (spelled xs ++ (codes "}" ++ r)) xs (codes "}" ++ r) }
{}

/// What may stand between a value and a relation, as in `2em > width`: a number, a dimension and an identifier other than `--`
/// stay the first token before a `>`; a number, and any of these that ends in `--`, before a space. Only a Delim
/// may begin with `!`, with which a `<` before it might begin `<!--` (CSS Syntax 3, section 4.3.1); of a Url this is not said.
pub fn values_stand_by_relations()
    ensures number { (u rest : List ℕ) → spells kind.Number u ≡ true → StaysFirst (word_from kind.Number u) (codes ">" ++ rest) }
    ensures dimension { (u rest : List ℕ) → spells kind.Dimension u ≡ true → StaysFirst (word_from kind.Dimension u) (codes ">" ++ rest) }
    ensures ident { (u rest : List ℕ) → spells kind.Ident u ≡ true → u ≢ codes "--" → StaysFirst (word_from kind.Ident u) (codes ">" ++ rest) }
    ensures number_space { (u rest : List ℕ) → spells kind.Number u ≡ true → StaysFirst (word_from kind.Number u) (codes " " ++ rest) }
    ensures dimension_space { (u rest : List ℕ) → spells kind.Dimension u ≡ true → ends_with nat_eq u (codes "--") ≡ true → StaysFirst (word_from kind.Dimension u) (codes " " ++ rest) }
    ensures ident_space { (u rest : List ℕ) → spells kind.Ident u ≡ true → ends_with nat_eq u (codes "--") ≡ true → StaysFirst (word_from kind.Ident u) (codes " " ++ rest) }
    ensures no_bang { (k : Kind) (u rest : List ℕ) → is_kind k kind.Delim ≡ false → is_kind k kind.Url ≡ false → spells k u ≡ true → begins_none bang (u ++ rest) ≡ true }
{}
