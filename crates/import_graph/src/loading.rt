ghost use Rattle.css_outside.specs.Counts.{Rose};
ghost use Rattle.import_graph.specs.Asking.{Asks, IfReadFault, UnlessReadFault};
ghost use Rattle.import_graph.specs.Files.{Agrees, IsReached, IsSound, names_of, paths_of, targets_told};
ghost use Rattle.import_graph.specs.Places.{IsPlaced, path_at, path_order};
ghost use Rattle.import_graph.specs.Waves.{Targets};
ghost use Rattle.import_graph.specs.declared.loading.Loaded.{Loaded};
ghost use Rattle.std.specs.List.{AllZip};
ghost use Rattle.std.specs.Prelude.{◌≡◌, ◌≤◌, IfOk, IfSome, map};

use crate::{LoadFault, ReadFile, Targets, gather, module_order};
use css_outside::Files;
use css_places::PathText;
use css_tokens::List;
use std::alloc::Global;
use std::thread::Threads;
use work_pool::Gate;

/// The files of all waves, and their numbers.
#[derive(Debug, Drop)]
pub struct Loaded {
    /// The files in the order in which they were read.
    pub files: List<ReadFile>,
    /// The places of the files that each file names; a missing file has none.
    pub targets: List<Option<List<usize>>>,
    /// The places of the files that are not missing, in the order of their numbers.
    pub order: List<usize>,
}

/// Reads the entry and all files that it reaches, and numbers them depth first, each at its first meeting. What is read, and
/// what is refused, is that of `gather`.
pub fn load_files<R: Threads + Sync, F: Files, T: Targets + Sync, G: Gate + Sync>(
    rt: &R,
    alloc: Global,
    entry: &PathText,
    workers: u32,
    files: &mut F,
    targets: &T,
    gate: &G,
) -> Result<Loaded, LoadFault>
    requires workers { 1 ≤ workers }
    ensures told { F.told files.new ≡ F.told files.old }
    ensures asked { IfSome (F.told files.old) (λ told. Asks (λ (loaded : Loaded). loaded.files) (T.names targets.now) told entry.now (F.asked files.old) (F.asked files.new) result) }
    ensures waves { IfOk result (λ loaded. IsReached (T.names targets.now) entry.now loaded.files) }
    ensures sound { IfOk result (λ loaded. IsSound (T.names targets.now) loaded.files) }
    ensures targets { IfOk result (λ loaded. AllZip (IsPlaced (paths_of loaded.files)) (map (names_of (T.names targets.now)) loaded.files) loaded.targets) }
    ensures order { IfOk result (λ loaded. (told : Targets) → Agrees (T.names targets.now) told loaded.files → map (path_at (paths_of loaded.files)) loaded.order ≡ path_order told entry.now) }
    ensures numbered { IfSome (F.told files.old) (λ told. IfOk result (λ loaded. map (path_at (paths_of loaded.files)) loaded.order ≡ path_order (targets_told (T.names targets.now) told) entry.now)) }
    ensures count { F.faults files.old ≤ F.faults files.new }
    ensures cause { IfReadFault result (Rose (F.faults files.old) (F.faults files.new)) }
    ensures no_cause { UnlessReadFault result (F.faults files.new ≡ F.faults files.old) }
{
    match gather(rt, alloc, entry, workers, files, targets, gate) {
        Ok(gathered) => {
            let order = module_order(alloc, gathered.targets.as_slice())?;
            Ok(Loaded {
                files: gathered.files,
                targets: gathered.targets,
                order,
            })
        }
        Err(fault) => Err(fault),
    }
}
