ghost use Rattle.media_tree.specs.declared.fault.MediaFault.TheVariants.{Memory};
ghost use Rattle.std.specs.Prelude.{◌≡◌};

use css_tokens::OutOfMemory;
use thiserror::Error;

/// Why a media query list or a supports condition is refused.
#[derive(Debug, Drop, Error)]
pub enum MediaFault {
    /// It cannot be read.
    #[error("the condition cannot be read")]
    Syntax,
    /// There is no memory left.
    #[error("out of memory")]
    Memory,
}

impl From<OutOfMemory> for MediaFault {
    ghost from_gives = { λ _ e. e ≡ Memory };

    fn from(_error: OutOfMemory) -> MediaFault {
        MediaFault::Memory
    }
}
