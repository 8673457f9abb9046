ghost use Rattle.css_outside.specs.Counts.{Rose};
ghost use Rattle.import_graph.specs.Asking.{Reads, IfReadFault, UnlessReadFault};
ghost use Rattle.import_graph.specs.Growing.{Follows};
ghost use Rattle.std.specs.Prelude.{◌≡◌, ◌≤◌, ◌∷◌, [], IfSome, OnOk};

use crate::read_file::read_file;
use crate::{LoadFault, ReadFile};
use css_outside::{Files, FilesFault};
use css_places::PathText;
use css_tokens::List;
use std::alloc::Global;

/// Reads the files of these paths in turn, each once. A refusal names the path whose read failed, which was the last.
pub(crate) fn read_wave<F: Files>(
    alloc: Global,
    paths: &[PathText],
    files: &mut F,
    read: &mut List<ReadFile>,
) -> Result<(), LoadFault>
    ensures told { F.told files.new ≡ F.told files.old }
    ensures read { IfSome (F.told files.old) (λ told. Reads told paths.now (F.asked files.old) (F.asked files.new) read.old read.new result) }
    ensures follow { OnOk result (Follows paths.now read.old read.new) }
    ensures count { F.faults files.old ≤ F.faults files.new }
    ensures cause { IfReadFault result (Rose (F.faults files.old) (F.faults files.new)) }
    ensures no_cause { UnlessReadFault result (F.faults files.new ≡ F.faults files.old) }
{
    for path in paths {
        match read_next(alloc, path, files, read) {
            Ok(()) => {}
            Err(fault) => return Err(fault),
        }
    }
    Ok(())
}

/// Reads the file of this path.
fn read_next<F: Files>(
    alloc: Global,
    path: &PathText,
    files: &mut F,
    read: &mut List<ReadFile>,
) -> Result<(), LoadFault>
    ensures told { F.told files.new ≡ F.told files.old }
    ensures read { IfSome (F.told files.old) (λ told. Reads told (path.now ∷ []) (F.asked files.old) (F.asked files.new) read.old read.new result) }
    ensures follow { OnOk result (Follows (path.now ∷ []) read.old read.new) }
    ensures count { F.faults files.old ≤ F.faults files.new }
    ensures cause { IfReadFault result (Rose (F.faults files.old) (F.faults files.new)) }
    ensures no_cause { UnlessReadFault result (F.faults files.new ≡ F.faults files.old) }
{
    let copy = path.copy(alloc)?;
    match read_file(alloc, path.as_str(), files) {
        Ok(found) => {
            read.push(ReadFile { path: copy, found })?;
            Ok(())
        }
        Err(FilesFault::Failed) => Err(LoadFault::ReadFault(copy)),
        Err(FilesFault::Memory) => Err(LoadFault::Memory),
    }
}
