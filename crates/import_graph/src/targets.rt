ghost use Rattle.import_graph.specs.Files.{names_of};
ghost use Rattle.std.specs.Prelude.{◌≡◌, ◌≤◌, ◌<◌, ◌^◌, IfOk, length, map};

use crate::{Found, ReadFile};
use css_places::PathText;
use css_tokens::{List, OutOfMemory};
use std::alloc::Global;
use std::thread::Threads;
use work_pool::{Gate, map_in_order};

/// What the files of a graph are read as: the paths that they name.
pub trait Targets {
    ghost use Rattle.import_graph.specs.Files.{Naming};

    // the paths that the file of a path and bytes names
    ghost names: { Self → Naming };

    /// The paths that the file of this path and these bytes names, in order; none where it cannot be read. Refuses for want of
    /// memory alone.
    fn of(&self, alloc: Global, path: &str, bytes: &[u8]) -> Result<List<PathText>, OutOfMemory>
        ensures { IfOk result (λ paths. paths ≡ names self.now path.now bytes.now) };
}

/// The paths that a file names, in order: none where it is too long, and `None` where it is missing.
pub(crate) fn targets_of<T: Targets>(
    alloc: Global,
    targets: &T,
    file: &ReadFile,
) -> Result<Option<List<PathText>>, OutOfMemory>
    ensures { IfOk result (λ paths. paths ≡ names_of (T.names targets.now) file.now) }
{
    match &file.found {
        Found::Whole(bytes) => {
            let paths = targets.of(alloc, file.path.as_str(), bytes.as_slice())?;
            Ok(Some(paths))
        }
        Found::Long => Ok(Some(List::new(alloc))),
        Found::Missing => Ok(None),
    }
}

/// The paths that each of these files names, in the order of the files.
pub(crate) fn targets_of_all<R: Threads + Sync, T: Targets + Sync, G: Gate + Sync>(
    rt: &R,
    alloc: Global,
    workers: u32,
    targets: &T,
    files: &[ReadFile],
    gate: &G,
) -> Result<List<Option<List<PathText>>>, OutOfMemory>
    requires workers { 1 ≤ workers }
    requires few { length files.now < 2 ^ 32 }
    ensures { IfOk result (λ lists. lists ≡ map (names_of (T.names targets.now)) files.now) }
{
    let lists = map_in_order(
        rt,
        alloc,
        workers,
        files,
        &|file: &ReadFile| -> Result<Option<List<PathText>>, OutOfMemory>
            ensures { IfOk result (λ paths. paths ≡ names_of (T.names targets.entry.now) file.now) }
        { targets_of(alloc, targets, file) },
        gate,
    )?;
    Ok(lists)
}
