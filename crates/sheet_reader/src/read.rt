ghost use Rattle.sheet_reader.specs.Texts.{IsFirstFault, SpellsSheet};
ghost use Rattle.std.specs.Prelude.{◌-◌, ◌<◌, ◌^◌, IfErr, IfOk, length};

use crate::SheetFault;
use css_rules::{Sheet, SheetBuilder};
use css_tokens::ComponentReader;
use std::alloc::Global;

/// The sheet that a text spells. The text has fewer than 2^32 - 1 bytes. Refused with what stands first: `Syntax` at the first
/// byte that is no part of a text or else where no token begins that is read, else a fault of brackets, else what the sheet is
/// refused for, by place and cause (CSS Syntax 3, sections 4, 5 and 9). It keeps the components of one rule at a time.
pub fn read_text<'a>(alloc: Global, text: &'a [u8]) -> Result<Sheet<'a>, SheetFault>
    requires short { length text.now < 2 ^ 32 - 1 }
    ensures found { IfOk result (λ sheet. SpellsSheet text.now sheet) }
    ensures fault { IfErr result (λ fault. IsFirstFault text.now fault) }
{
    let mut reader = ComponentReader::new(alloc, text)?;
    let mut builder = SheetBuilder::new(alloc);
    while let Some(component) = reader.next()? {
        builder.add(component)?;
    }
    Ok(builder.finish()?)
}
