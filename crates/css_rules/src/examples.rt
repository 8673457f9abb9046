//! Worked examples of the definitions of this crate, each the contract of a function that does nothing.

ghost use Rattle.std.specs.Prelude.{◌≡◌, [], ◌∷◌, true, false, Some, None, codes};
ghost use Rattle.css_rules.specs.Declarations.{may_be_value, property_name};
ghost use Rattle.css_components.specs.Components.{is_custom, is_keyword};
ghost use Rattle.css_rules.specs.Refusals.{first_refusal, late_import, syntax, unbuilt, is_ampersand, is_is, is_revert_layer, is_unbuilt_property, is_url};
ghost use Rattle.css_tokens.specs.declared.kind.Kind.TheVariants.{Delim, Function, Ident, Url};

pub mod at_rules;
pub mod cuts;
pub mod heads;
pub mod sheets;

/// Which of several refusals is named: the one at the least place, and of two at one place what is not built yet, and then an
/// import that stands too late.
pub fn refusals_are_named()
    ensures none { first_refusal [] ≡ None }
    ensures least { first_refusal (syntax 5 ∷ unbuilt 3 ∷ syntax 4 ∷ []) ≡ Some (unbuilt 3) }
    ensures least_of_a_kind { first_refusal (syntax 5 ∷ syntax 2 ∷ syntax 4 ∷ []) ≡ Some (syntax 2) }
    ensures at_one_place { first_refusal (syntax 3 ∷ unbuilt 3 ∷ []) ≡ Some (unbuilt 3) }
    ensures late_before_unread { first_refusal (syntax 3 ∷ late_import 3 ∷ []) ≡ Some (late_import 3) }
    ensures unbuilt_before_late { first_refusal (late_import 3 ∷ unbuilt 3 ∷ []) ≡ Some (unbuilt 3) }
    ensures at_one_place_the_other_way_round { first_refusal (unbuilt 3 ∷ syntax 3 ∷ []) ≡ Some (unbuilt 3) }
{}

/// The names of properties that are not built yet.
pub fn properties_wait()
    ensures inline { is_unbuilt_property (codes "margin-inline") ≡ true }
    ensures block { is_unbuilt_property (codes "block-size") ≡ true }
    ensures custom { is_unbuilt_property (codes "--block") ≡ true }
    ensures inset { is_unbuilt_property (codes "inset") ≡ true }
    ensures no_inset { is_unbuilt_property (codes "my-inset") ≡ false }
    ensures border_start { is_unbuilt_property (codes "border-start-start-radius") ≡ true }
    ensures border_end { is_unbuilt_property (codes "border-end-end-radius") ≡ true }
    ensures no_border { is_unbuilt_property (codes "border-left") ≡ false }
    ensures float { is_unbuilt_property (codes "float") ≡ true }
    ensures no_float { is_unbuilt_property (codes "float-offset") ≡ false }
    ensures clear { is_unbuilt_property (codes "clear") ≡ true }
    ensures resize { is_unbuilt_property (codes "resize") ≡ true }
    ensures composes { is_unbuilt_property (codes "composes") ≡ true }
    ensures color { is_unbuilt_property (codes "color") ≡ false }
{}

/// The tokens of constructs that are not built yet.
pub fn tokens_wait()
    ensures nesting { is_ampersand Delim (codes "&") ≡ true }
    ensures no_nesting { is_ampersand Delim (codes "*") ≡ false }
    ensures is_in_any_case { is_is Function (codes "Is(") ≡ true }
    ensures escaped_is { is_is Function (codes "i\\73(") ≡ true }
    ensures other_selectors { is_is Function (codes "not(") ≡ false }
    ensures is_alone { is_is Ident (codes "is") ≡ false }
    ensures revert_layer { is_revert_layer Ident (codes "Revert-Layer") ≡ true }
    ensures revert { is_revert_layer Ident (codes "revert") ≡ false }
    ensures url { is_url Url (codes "url(a)") ≡ true }
    ensures url_of_a_string { is_url Function (codes "URL(") ≡ true }
    ensures escaped_url { is_url Function (codes "u\\52 l(") ≡ true }
    ensures escaped_revert_layer { is_revert_layer Ident (codes "revert-la\\79 er") ≡ true }
    ensures other_function { is_url Function (codes "my-url(") ≡ false }
{}

/// Names of properties: in lower case, but for custom ones (CSS Variables 1, section 2).
pub fn names_of_properties()
    ensures lower_case { property_name (codes "COLOR") ≡ codes "color" }
    ensures custom_as_written { property_name (codes "--Main") ≡ codes "--Main" }
    ensures custom { is_custom (codes "--x") ≡ true }
    ensures two_dashes { is_custom (codes "--") ≡ true }
    ensures one_dash { is_custom (codes "-x") ≡ false }
    ensures keyword_in_any_case { is_keyword (codes "important") (codes "IMPORTANT") ≡ true }
    ensures other_keyword { is_keyword (codes "important") (codes "importan") ≡ false }
    ensures empty_custom_value { may_be_value true [] ≡ true }
    ensures empty_value { may_be_value false [] ≡ false }
{}
