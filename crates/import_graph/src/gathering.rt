ghost use Rattle.css_outside.specs.Counts.{Rose};
ghost use Rattle.import_graph.specs.Asking.{Asks, IfReadFault, Reads, UnlessReadFault};
ghost use Rattle.import_graph.specs.Files.{IsReached, IsSound, names_of, paths_of};
ghost use Rattle.import_graph.specs.Growing.{Grows};
ghost use Rattle.import_graph.specs.Places.{IsPlaced};
ghost use Rattle.import_graph.specs.declared.gathering.Gathered.{Gathered};
ghost use Rattle.std.specs.List.{AllZip};
ghost use Rattle.std.specs.Prelude.{◌≡◌, ◌≤◌, ◌<◌, ◌^◌, ◌∷◌, [], IfOk, IfSome, OnOk, drop, length, map};

use crate::learning::learn_all;
use crate::read_wave::read_wave;
use crate::targets::targets_of_all;
use crate::{LoadFault, ReadFile, Targets};
use css_outside::Files;
use css_places::PathText;
use css_tokens::{List, OutOfMemory};
use indexmap::IndexSet;
use std::alloc::Global;
use std::thread::Threads;
use work_pool::Gate;

/// There may be so many paths.
const MOST_PATHS: usize = 1024;

/// The files of all waves, in the order in which they were read.
#[derive(Debug, Drop)]
pub struct Gathered {
    pub files: List<ReadFile>,
    /// The places of the files that each file names; a missing file has none.
    pub targets: List<Option<List<usize>>>,
}

/// The paths that are known, the files of the first of them, and the places of what these name.
#[derive(Drop)]
struct Reading {
    known: IndexSet<PathText>,
    files: List<ReadFile>,
    places: List<Option<List<usize>>>,
}

/// Reads the entry and all files that it reaches, in waves: first the entry, then what the files of the wave before name, in
/// order and without the paths that were read. Each path is read once. A refusal is the path whose read failed, which was the
/// last; or the limit, where a wave would bring more than 1,024 paths, and no file of that wave is read.
pub fn gather<R: Threads + Sync, F: Files, T: Targets + Sync, G: Gate + Sync>(
    rt: &R,
    alloc: Global,
    entry: &PathText,
    workers: u32,
    files: &mut F,
    targets: &T,
    gate: &G,
) -> Result<Gathered, LoadFault>
    requires workers { 1 ≤ workers }
    ensures told { F.told files.new ≡ F.told files.old }
    ensures asked { IfSome (F.told files.old) (λ told. Asks (λ (gathered : Gathered). gathered.files) (T.names targets.now) told entry.now (F.asked files.old) (F.asked files.new) result) }
    ensures waves { IfOk result (λ gathered. IsReached (T.names targets.now) entry.now gathered.files) }
    ensures sound { IfOk result (λ gathered. IsSound (T.names targets.now) gathered.files) }
    ensures targets { IfOk result (λ gathered. AllZip (IsPlaced (paths_of gathered.files)) (map (names_of (T.names targets.now)) gathered.files) gathered.targets) }
    ensures count { F.faults files.old ≤ F.faults files.new }
    ensures cause { IfReadFault result (Rose (F.faults files.old) (F.faults files.new)) }
    ensures no_cause { UnlessReadFault result (F.faults files.new ≡ F.faults files.old) }
{
    let mut reading = begun(alloc, entry)?;
    'waves: while reading.files.len() < reading.known.len() {
        if reading.known.len() > MOST_PATHS {
            return Err(LoadFault::Limit);
        }
        match next_wave(rt, alloc, workers, files, targets, gate, &mut reading) {
            Ok(()) => {}
            Err(fault) => return Err(fault),
        }
    }
    Ok(Gathered {
        files: reading.files,
        targets: reading.places,
    })
}

/// What is known before a file is read.
fn begun(alloc: Global, entry: &PathText) -> Result<Reading, OutOfMemory>
    ensures known { IfOk result (λ reading. reading.known.keys ≡ entry.now ∷ []) }
    ensures files { IfOk result (λ reading. reading.files ≡ []) }
    ensures places { IfOk result (λ reading. reading.places ≡ []) }
{
    let mut known = IndexSet::new(alloc);
    known.insert(entry.copy(alloc)?)?;
    Ok(Reading {
        known,
        files: List::new(alloc),
        places: List::new(alloc),
    })
}

/// Reads the files of the known paths that were not read, and adds the paths that they name.
fn next_wave<R: Threads + Sync, F: Files, T: Targets + Sync, G: Gate + Sync>(
    rt: &R,
    alloc: Global,
    workers: u32,
    files: &mut F,
    targets: &T,
    gate: &G,
    reading: &mut Reading,
) -> Result<(), LoadFault>
    requires workers { 1 ≤ workers }
    requires begun { length reading.old.files ≤ length reading.old.known.keys }
    requires few { length reading.old.known.keys < 2 ^ 32 }
    ensures told { F.told files.new ≡ F.told files.old }
    ensures read { IfSome (F.told files.old) (λ told. Reads told (drop (length reading.old.files) reading.old.known.keys) (F.asked files.old) (F.asked files.new) reading.old.files reading.new.files result) }
    ensures grown { OnOk result (Grows (T.names targets.now) reading.old reading.new) }
    ensures count { F.faults files.old ≤ F.faults files.new }
    ensures cause { IfReadFault result (Rose (F.faults files.old) (F.faults files.new)) }
    ensures no_cause { UnlessReadFault result (F.faults files.new ≡ F.faults files.old) }
{
    let start = reading.files.len();
    match read_wave(
        alloc,
        &reading.known.as_slice()[start..],
        files,
        &mut reading.files,
    ) {
        Ok(()) => {}
        Err(fault) => return Err(fault),
    }
    let read = &reading.files.as_slice()[start..];
    let lists = targets_of_all(rt, alloc, workers, targets, read, gate)?;
    learn_all(
        alloc,
        &mut reading.known,
        lists.as_slice(),
        &mut reading.places,
    )?;
    Ok(())
}
