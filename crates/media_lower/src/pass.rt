use crate::lowering::lowered_items;
use crate::settled::are_settled;
use cascade_spec::Pass;
use css_tokens::{List, OutOfMemory};
use sheet_types::Sheet;
use std::alloc::Global;

/// Puts the items of a group with a media list inside groups with lists that target sheets can have (Media Queries 3, section
/// 2), one inside the other, wherever it stands; all else it leaves as it is. It takes items in which each range is one of a
/// feature that takes a range, as in every media list that is read.
#[derive(Clone, Copy, Debug)]
pub struct MediaPass;

impl MediaPass {
    /// The pass. Takes no memory.
    pub fn new() -> MediaPass {
        MediaPass
    }
}

impl Pass for MediaPass {
    ghost use Rattle.std.specs.Prelude.{IsTrue};
    ghost use Rattle.media_lower.specs.MediaItems.{has_known_lists, lowered_item};
    ghost use Rattle.media_lower.specs.MediaKeeps.{keeps-media};

    ghost takes = { λ pass item. IsTrue (has_known_lists item) };

    ghost premise = { λ pass items world. Unit {0} };

    ghost lowered = { λ pass item. lowered_item item };

    ghost keeps = { λ pass items takes q premise. keeps-media q items takes };

    fn run<'a>(&self, alloc: Global, sheet: Sheet<'a>) -> Result<Sheet<'a>, OutOfMemory> {
        if are_settled(sheet.items.as_slice()) {
            return Ok(sheet);
        }
        let Sheet { imports, items } = sheet;
        let items = lowered_items(alloc, items, List::new(alloc))?;
        Ok(Sheet { imports, items })
    }
}
