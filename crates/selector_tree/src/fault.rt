ghost use Rattle.selector_tree.specs.declared.fault.SelectorFault.TheVariants.{Memory};
ghost use Rattle.std.specs.Prelude.{◌≡◌};

use css_tokens::OutOfMemory;
use thiserror::Error;

/// Why a selector list is refused.
#[derive(Debug, Drop, Error)]
pub enum SelectorFault {
    /// A selector that cannot be read, and the place where it is refused, in bytes of the source.
    #[error("byte {0}: the selector cannot be read")]
    Syntax(u32),
    /// There is no memory left.
    #[error("out of memory")]
    Memory,
}

impl From<OutOfMemory> for SelectorFault {
    ghost from_gives = { λ _ e. e ≡ Memory };

    fn from(_error: OutOfMemory) -> SelectorFault {
        SelectorFault::Memory
    }
}
