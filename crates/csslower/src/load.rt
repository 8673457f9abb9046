ghost use Rattle.std.specs.Prelude.{◌≡◌, ◌≤◌, ℕ, List, Option, IfSome, take};
ghost use Rattle.std.specs.Option.{option_map};
ghost use Rattle.css_outside.specs.Counts.{Rose};
ghost use Rattle.csslower.specs.Private.Loading.{IsLoaded, IsShort, IfFailed, UnlessFailed, IsOfRead, asked_after};

use css_outside::{Files, FilesFault};
use css_tokens::List;
use std::alloc::Global;

// What the read of a file gave.
#[derive(Debug, Drop)]
pub(crate) enum Load {
    Whole(List<u8>),
    // It has more than 4 MiB.
    Long,
    Missing,
    Failed,
    Memory,
}

// Reads the file of a path once.
pub(crate) fn read_whole<F: Files>(alloc: Global, path: &str, files: &mut F) -> Load
    ensures loaded { IfSome (F.told files.old) (λ told. IsLoaded (told path.now) result) }
    ensures short { IsShort result }
    ensures asked { IfSome (F.told files.old) (λ _. F.asked files.new ≡ asked_after (F.asked files.old) path.now result) }
    ensures count { F.faults files.old ≤ F.faults files.new }
    ensures cause { IfFailed result (Rose (F.faults files.old) (F.faults files.new)) }
    ensures no_cause { UnlessFailed result (F.faults files.new ≡ F.faults files.old) }
{
    match files.read(alloc, path, 4_194_305) {
        Ok(found) => sort(found),
        Err(FilesFault::Failed) => Load::Failed,
        Err(FilesFault::Memory) => Load::Memory,
    }
}

// What a file is of which these are the first bytes, one more than it may have.
fn sort(found: Option<List<u8>>) -> Load
    ensures loaded { (file : Option (List ℕ)) → found ≡ option_map (take 4194305) file → IsLoaded file result }
    ensures short { IsShort result }
    ensures read { IsOfRead result }
{
    match found {
        Some(bytes) if bytes.len() > 4_194_304 => Load::Long,
        Some(bytes) => Load::Whole(bytes),
        None => Load::Missing,
    }
}
