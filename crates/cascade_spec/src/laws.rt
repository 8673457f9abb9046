//! Laws about the definitions of this crate, each the contract of a function that does nothing.

ghost use Rattle.std.specs.Prelude.{◌≡◌, ◌++◌, ◌&&◌, [], ℕ, List, Bool, true, IsTrue, Some, flat_map, map};
ghost use Rattle.std.specs.List.{AllByRecursion, list_all};
ghost use Rattle.sheet_types.specs.Contexts.{LayerPath, Context, outside, under_condition, under_list};
ghost use Rattle.sheet_types.specs.Statements.{Statement, says, say_all, statements_of};
ghost use Rattle.sheet_types.specs.BareItems.{bare_sheet};
ghost use Rattle.css_rules.specs.PlainRules.{is_plain_item};
ghost use Rattle.css_rules.specs.Printable.{ArePrintable, all_whole};
ghost use Rattle.sheet_types.specs.SheetTexts.{items_text};
ghost use Rattle.sheet_types.specs.Standing.{AllStand};
ghost use Rattle.selector_types.specs.declared.selector.Combinator.TheVariants.{Descendant, Child, Next, Later};
ghost use Rattle.sheet_types.specs.declared.sheet.GroupCondition.{GroupCondition};
ghost use Rattle.sheet_types.specs.declared.sheet.Item.{Item};
ghost use Rattle.sheet_types.specs.declared.sheet.Sheet.{Sheet};
ghost use Rattle.selector_types.specs.Erased.{erased};
ghost use Rattle.selector_types.specs.declared.selector.Selector.{Selector};
ghost use Rattle.cascade_spec.specs.declared.document.Document.{Document};
ghost use Rattle.cascade_spec.specs.Worlds.{World};
ghost use Rattle.cascade_spec.specs.Elements.{parent_of, is_related};
ghost use Rattle.cascade_spec.specs.Surroundings.{Around, top, within, around_all};
ghost use Rattle.cascade_spec.specs.Relations.{IsReached, IsPrevious, previous_of, ParentsComeFirst, HoldsOfOne};
ghost use Rattle.cascade_spec.specs.LayerOrder.{AreOrdered};
ghost use Rattle.cascade_spec.specs.Standings.{standing_of};
ghost use Rattle.cascade_spec.specs.Truth.{all_hold, group_holds};
ghost use Rattle.cascade_spec.specs.Cascade.{Question, Shown, IsWinner, winning};
ghost use Rattle.cascade_spec.specs.Contents.{IsKept, SameWinners};
ghost use Rattle.cascade_spec.specs.Showing.{showing, joined};
ghost use Rattle.cascade_spec.specs.Readings.{HasSheet, KeepsWinners, ReadsAsItems};

/// The sheet of a text is printable where all is kept of its selectors and conditions: a function of which nothing is kept, or a
/// flag of an attribute selector, has no text that says the same. Each value of it stands in the text, and each item is as it is
/// read: no rule in a style rule, and nothing that waits for a later stage. A text reads as one sheet, places aside.
pub fn sheets_of_texts()
    ensures printable { (source : List ℕ) (sheet : Sheet) → HasSheet source sheet → IsTrue (all_whole sheet) → ArePrintable sheet.items }
    ensures stand { (source : List ℕ) (sheet : Sheet) → HasSheet source sheet → AllStand sheet.items }
    ensures plain { (source : List ℕ) (sheet : Sheet) → HasSheet source sheet → IsTrue (list_all is_plain_item sheet.items) }
    ensures one { (text : List ℕ) (a b : Sheet) → HasSheet text a → HasSheet text b → bare_sheet a ≡ bare_sheet b }
{
    css_tokens::one_reading();
    css_tokens::names_spell();
    css_tokens::strings_spell();
    css_tokens::words_are_clean();
    css_tokens::values_again();
    css_rules::sheets_are_printable();
    css_rules::sheets_are_plain();
    css_rules::values_stand();
    css_rules::places_do_not_matter();
    media_tree::texts_give_spelled_words();
}

/// The text that printable items print as reads as them, without the rules and groups that declare nothing and places aside.
/// Where items have the winners of the sheet of a text, so has each text that reads as them.
pub fn printed_items_are_read()
    ensures read { (items : List Item) → ArePrintable items → AllStand items → ReadsAsItems (items_text items) items }
    ensures kept { (source text : List ℕ) (sheet : Sheet) (items : List Item) → HasSheet source sheet → ReadsAsItems text items → SameWinners (statements_of sheet) (say_all items outside) → KeepsWinners source text }
{
    sheets_of_texts();
    css_rules::sheets_are_read_again();
    css_rules::bare_items_say();
}

/// The entry that is computed as the winner is above every other, no second entry is, and an entry that is above every
/// other is the one that is computed (CSS Cascading 5, section 6.1).
pub fn one_entry_wins()
    ensures found { (important : Bool) (mentions : List LayerPath) (all : List Shown) (x : Shown) → winning important mentions all ≡ Some x → (i : ℕ) × IsWinner important mentions all i x }
    ensures won { (important : Bool) (mentions : List LayerPath) (all : List Shown) (i : ℕ) (x : Shown) → IsWinner important mentions all i x → winning important mentions all ≡ Some x }
    ensures one { (important : Bool) (mentions : List LayerPath) (all : List Shown) (i j : ℕ) (x y : Shown) → IsWinner important mentions all i x → IsWinner important mentions all j y → i ≡ j }
{}

/// A combinator asks the element that stands as the standard says (Selectors 4, section 15): a child its parent, a
/// descendant each ancestor, a next sibling the one nearest before it, and a later sibling each one before it, along chains
/// of parents and of siblings of any length.
pub fn combinators_relate()
    ensures child { (doc : Document) (test : ℕ → Bool) (n : ℕ) → HoldsOfOne (is_related doc Child test n) test (λ m. parent_of doc n ≡ Some m) }
    ensures descendant { (doc : Document) (test : ℕ → Bool) → ParentsComeFirst doc → (n : ℕ) → HoldsOfOne (is_related doc Descendant test n) test (λ m. IsReached (parent_of doc) m n) }
    ensures next { (doc : Document) (test : ℕ → Bool) (n : ℕ) → HoldsOfOne (is_related doc Next test n) test (λ m. previous_of doc n ≡ Some m) }
    ensures later { (doc : Document) (test : ℕ → Bool) (n : ℕ) → HoldsOfOne (is_related doc Later test n) test (λ m. IsReached (previous_of doc) m n) }
    ensures previous { (doc : Document) (n m : ℕ) → previous_of doc n ≡ Some m → IsPrevious doc m n }
    ensures only_previous { (doc : Document) (n m : ℕ) → IsPrevious doc m n → previous_of doc n ≡ Some m }
{}

/// At the top of a sheet nothing is round a declaration, it is in no layer, and no condition fails. A style rule's list stands
/// inside what is round the rule, however many lists that is, in the same layer and under the same conditions (CSS Nesting 1,
/// section 3). In a group all that holds round it has to hold and its condition too, and nothing else changes (Conditional
/// Rules 3, section 2).
pub fn surroundings_stand()
    ensures none { (world : World) → standing_of world outside ≡ record { holds = true; layer = []; around = top } }
    ensures one_more { (world : World) (list : List Selector) (c : Context) → standing_of world (under_list list c) ≡ record { holds = all_hold world.environment c.conditions; layer = c.layer; around = within world (around_all world c.chain) list } }
    ensures one_more_condition { (world : World) (condition : GroupCondition) (c : Context) → standing_of world (under_condition condition c) ≡ record { holds = all_hold world.environment c.conditions && group_holds world.environment condition; layer = c.layer; around = around_all world c.chain } }
{}

/// Selector lists that differ in places alone are the same round a rule: they match the same subjects, are as specific for
/// each of them, and are dropped by the same browsers (Selectors 4, sections 3.9 and 17).
pub fn places_do_not_count()
    ensures { (world : World) (around : Around) (ss ts : List Selector) → map erased ss ≡ map erased ts → within world around ss ≡ within world around ts }
{}

/// Layers have the order of the standard, whoever made the list of mentions (CSS Cascading 5, section 6.4).
pub fn layers_are_ordered()
    ensures { (mentions : List LayerPath) → AreOrdered mentions }
{}

/// What items say and statements show one after another is the one and then the other.
pub fn contents_join()
    ensures said { (a b : List Item) (c : Context) → say_all (a ++ b) c ≡ say_all a c ++ say_all b c }
    ensures shown { (q : Question) (a b : List Statement) → showing q (a ++ b) ≡ joined (showing q a) (showing q b) }
{}

/// Statements that show the same keep the winners, also where this is so of what is made of each item; and what is kept
/// twice is kept.
pub fn kept_is_kept()
    ensures shown { (q : Question) (old new : List Statement) → showing q new ≡ showing q old → IsKept q old new }
    ensures by_items { (q : Question) (old new : Item → List Statement) (items : List Item) → AllByRecursion (λ item. showing q (new item) ≡ showing q (old item)) items → IsKept q (flat_map old items) (flat_map new items) }
    ensures twice { (a b c : List Statement) → SameWinners a b → SameWinners b c → SameWinners a c }
{}

/// An item shows the same inside contexts that are the same in the world.
pub fn alike_shows_alike()
    ensures { (q : Question) (a b : Context) → standing_of q.world a ≡ standing_of q.world b → (item : Item) → showing q (says item a) ≡ showing q (says item b) }
{}

/// A rewriting by which each item of a list shows the same keeps the list: what it shows, also where it is moved to other
/// surroundings, and so the winners and the passed rules.
pub fn passes_keep()
    ensures shown { (q : Question) (lowered : Item → List Item) (a b : Context) (items : List Item) → AllByRecursion (λ item. showing q (say_all (lowered item) a) ≡ showing q (says item b)) items → showing q (say_all (flat_map lowered items) a) ≡ showing q (say_all items b) }
    ensures kept { (q : Question) (lowered : Item → List Item) (items : List Item) → AllByRecursion (λ item. showing q (say_all (lowered item) outside) ≡ showing q (says item outside)) items → IsKept q (say_all items outside) (say_all (flat_map lowered items) outside) }
{}
