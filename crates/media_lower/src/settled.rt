//! Items that stay as they are, since no group stands in them.

ghost use Rattle.std.specs.Prelude.{◌≡◌, ◌∷◌, [], flat_map, true};
ghost use Rattle.media_lower.specs.MediaItems.{lowered_item};

use sheet_types::Item;

/// Whether no style rule and no group is among the items.
fn are_runs(items: &[Item]) -> bool
    ensures { result ≡ true → flat_map lowered_item items.now ≡ items.now }
{
    for item in items {
        if matches!(item, Item::Style(_) | Item::Group(_)) {
            return false;
        }
    }
    true
}

/// Whether an item is no group, and no style rule with a rule or a group in it.
pub fn is_settled(item: &Item) -> bool
    ensures { result ≡ true → lowered_item item.now ≡ item.now ∷ [] }
{
    match item {
        Item::Style(style) => are_runs(style.items.as_slice()),
        Item::Group(_) => false,
        Item::Plain(_) | Item::Passed(_) | Item::Other(_) => true,
    }
}

/// Whether each of the items is so.
pub fn are_settled(items: &[Item]) -> bool
    ensures { result ≡ true → flat_map lowered_item items.now ≡ items.now }
{
    for item in items {
        if !is_settled(item) {
            return false;
        }
    }
    true
}
