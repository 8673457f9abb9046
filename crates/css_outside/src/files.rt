ghost use Rattle.std.specs.Prelude.{◌≡◌, ◌≤◌, IfSome};
ghost use Rattle.css_outside.specs.Counts.{Rose};
ghost use Rattle.css_outside.specs.Reading.{ReadsFirst, HasAtMost, asked_after, IfFailed, UnlessFailed};

use css_tokens::{List, OutOfMemory};
use std::alloc::Global;

/// Why a read gave no answer.
#[derive(Clone, Copy, Debug, PartialEq, Eq)]
pub enum FilesFault {
    /// The file could not be read.
    Failed,
    /// Memory was refused.
    Memory,
}

/// Files that can be read by their paths.
pub trait Files {
    ghost use Rattle.std.specs.Prelude.{ℕ, List, Option};
    ghost use Rattle.css_outside.specs.Names.{Names};

    // the bytes of each file, where they are told
    ghost told: { Self → Option Names };

    // the paths asked so far, which are told where the files are
    ghost asked: { Self → List (List ℕ) };

    // how many reads failed
    ghost faults: { Self → ℕ };

    /// The first `most` bytes of a file, or all of it where it is shorter, and `None` where there is no such file.
    /// A read that fails raises the count of faults, and no other read does.
    fn read(&mut self, alloc: Global, path: &str, most: u32) -> Result<Option<List<u8>>, FilesFault>
        ensures told { told self.new ≡ told self.old }
        ensures bytes { ReadsFirst (told self.old) path.now most result }
        ensures short { HasAtMost most result }
        ensures asked { IfSome (told self.old) (λ _. asked self.new ≡ asked_after (asked self.old) path.now result) }
        ensures count { faults self.old ≤ faults self.new }
        ensures cause { IfFailed result (Rose (faults self.old) (faults self.new)) }
        ensures no_cause { UnlessFailed result (faults self.new ≡ faults self.old) };
}

impl From<OutOfMemory> for FilesFault {
    ghost use Rattle.css_outside.specs.declared.files.FilesFault.TheVariants.{Memory};

    ghost from_gives = { λ _ fault. fault ≡ Memory };

    fn from(_refusal: OutOfMemory) -> FilesFault {
        FilesFault::Memory
    }
}
