ghost use Rattle.import_graph.specs.declared.fault.LoadFault.TheVariants.{Memory};
ghost use Rattle.std.specs.Prelude.{◌≡◌};

use css_places::PathText;
use css_tokens::OutOfMemory;
use thiserror::Error;

/// Why no files were gathered.
#[derive(Debug, Drop, Error)]
pub enum LoadFault {
    /// The file of this path could not be read.
    #[error("a file could not be read")]
    ReadFault(PathText),
    /// There are more than 1,024 paths.
    #[error("too many files are named")]
    Limit,
    /// There is no memory left.
    #[error("out of memory")]
    Memory,
}

impl From<OutOfMemory> for LoadFault {
    ghost from_gives = { λ _ e. e ≡ Memory };

    fn from(_error: OutOfMemory) -> LoadFault {
        LoadFault::Memory
    }
}
