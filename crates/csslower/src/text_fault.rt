ghost use Rattle.std.specs.Prelude.{◌≡◌};

use css_places::{Code, LimitKind};
use css_tokens::OutOfMemory;

/// Why a file's text is refused.
#[derive(Debug, Drop)]
pub enum TextFault {
    /// This stands against it, at this place in bytes.
    Finding { code: Code, offset: u32 },
    /// It passes this limit.
    Limit(LimitKind),
    Memory,
}

impl From<OutOfMemory> for TextFault {
    ghost use Rattle.csslower.specs.declared.text_fault.TextFault.TheVariants.{Memory};

    ghost from_gives = { λ _ fault. fault ≡ Memory };

    fn from(_error: OutOfMemory) -> TextFault {
        TextFault::Memory
    }
}
