//! Laws of the pass, each the contract of a function that does nothing.

ghost use Rattle.std.specs.Prelude.{List, IsTrue, flat_map};
ghost use Rattle.std.specs.List.{AllByRecursion, list_all};
ghost use Rattle.sheet_types.specs.declared.sheet.Item.{Item};
ghost use Rattle.sheet_types.specs.Standing.{AllStand};
ghost use Rattle.css_rules.specs.PlainRules.{is_plain_item};
ghost use Rattle.css_rules.specs.Printable.{ArePrintable};
ghost use Rattle.media_lower.specs.MediaItems.{has_known_lists, has_old_lists, lowered_item};

/// In what an item becomes each media list is one that a target sheet can have, at any depth and whatever the item was (Media
/// Queries 3, section 2).
pub fn media_lists_become_old()
    ensures { (item : Item) → IsTrue (list_all has_old_lists (lowered_item item)) }
{
    media_clauses::lowered_lists_are_old();
}

/// Items that print as a text which reads as them again become such items, and their values stand in a text as before (CSS
/// Syntax 3, section 10).
pub fn lowered_items_are_printable()
    ensures printable { (items : List Item) → ArePrintable items → ArePrintable (flat_map lowered_item items) }
    ensures stand { (items : List Item) → AllStand items → AllStand (flat_map lowered_item items) }
{
    media_clauses::lowered_lists_are_readable();
}

/// The pass takes items as they are read (Media Queries 4, section 2.4.3).
pub fn plain_items_are_taken()
    ensures { (items : List Item) → IsTrue (list_all is_plain_item items) → AllByRecursion (λ item. IsTrue (has_known_lists item)) items }
{
    media_clauses::ranges_that_are_read_are_known();
}
