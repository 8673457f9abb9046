ghost use Rattle.css_outside.specs.Counts.{Rose};
ghost use Rattle.import_graph.specs.Asking.{asked_after, IfFailed, UnlessFailed};
ghost use Rattle.import_graph.specs.Files.{found_as};
ghost use Rattle.std.specs.Option.{option_map};
ghost use Rattle.std.specs.Prelude.{◌≡◌, ◌≤◌, ℕ, List, Option, IfOk, IfSome, take};

use crate::Found;
use css_outside::{Files, FilesFault};
use css_tokens::List;
use std::alloc::Global;

/// What the file of a path is found to be. It is read once, one byte further than it may be long.
pub(crate) fn read_file<F: Files>(
    alloc: Global,
    path: &str,
    files: &mut F,
) -> Result<Found, FilesFault>
    ensures told { F.told files.new ≡ F.told files.old }
    ensures found { IfSome (F.told files.old) (λ told. IfOk result (λ found. found ≡ found_as (told path.now))) }
    ensures asked { IfSome (F.told files.old) (λ _. F.asked files.new ≡ asked_after (F.asked files.old) path.now result) }
    ensures count { F.faults files.old ≤ F.faults files.new }
    ensures cause { IfFailed result (Rose (F.faults files.old) (F.faults files.new)) }
    ensures no_cause { UnlessFailed result (F.faults files.new ≡ F.faults files.old) }
{
    let found = files.read(alloc, path, 4_194_305)?;
    Ok(sorted(found))
}

/// What a file is of which these are the first bytes, one more than it may have.
fn sorted(found: Option<List<u8>>) -> Found
    ensures { (file : Option (List ℕ)) → found ≡ option_map (take 4194305) file → result ≡ found_as file }
{
    match found {
        Some(bytes) if bytes.len() > 4_194_304 => Found::Long,
        Some(bytes) => Found::Whole(bytes),
        None => Found::Missing,
    }
}
