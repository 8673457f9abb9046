ghost use Rattle.css_places.specs.declared.fault.PathFault.TheVariants.{Memory};
ghost use Rattle.std.specs.Prelude.{◌≡◌};

use css_tokens::OutOfMemory;
use thiserror::Error;

/// Why a path names no file.
#[derive(Debug, Drop, Error)]
pub enum PathFault {
    /// It is an address with a scheme, or begins with two slashes.
    #[error("the address lies elsewhere")]
    Remote,
    /// It begins with a slash.
    #[error("the path is absolute")]
    Absolute,
    /// It leads out of the folder in which the program runs.
    #[error("the path leads above its root")]
    AboveRoot,
    /// It names no file: it is empty, or a folder.
    #[error("the path names no file")]
    Empty,
    /// There is no memory left.
    #[error("out of memory")]
    Memory,
}

impl From<OutOfMemory> for PathFault {
    ghost from_gives = { λ _ e. e ≡ Memory };

    fn from(_error: OutOfMemory) -> PathFault {
        PathFault::Memory
    }
}
