ghost use Rattle.std.specs.IoError.{error_kind, raw_os_error};
ghost use Rattle.std.specs.Prelude.{◌≡◌, ◌≤◌, None, Err, IfOk, length};
ghost use Rattle.css_outside.specs.Counts.{Rose};
ghost use Rattle.css_outside.specs.Reading.{IfFailed, UnlessFailed};

use crate::{Files, FilesFault};
use css_tokens::List;
use std::alloc::Global;
use std::io::{ErrorKind, Read};
use std::{fs, io, rt};

/// The files of the folder in which the program runs. They tell nothing.
#[derive(Drop)]
pub struct FolderFiles<R> {
    rt: R,
    faults: u64,
}

impl<R: rt::Files> FolderFiles<R> {
    /// The files that the runtime reaches. Takes no memory.
    pub fn new(rt: R) -> FolderFiles<R>
        ensures told { ⟦<FolderFiles<R> as Files>⟧.told result ≡ None }
        ensures count { ⟦<FolderFiles<R> as Files>⟧.faults result ≡ 0 }
    {
        FolderFiles { rt, faults: 0 }
    }

    // What a read answers after an error. Only a refused growth has the kind `OutOfMemory` and no code of the system.
    fn answer_to(&mut self, error: io::Error) -> Result<Option<List<u8>>, FilesFault>
        ensures none { IfOk result (λ found. found ≡ None) }
        ensures memory { error_kind error ≡ ErrorKind.OutOfMemory → raw_os_error error ≡ None → result ≡ Err FilesFault.Memory }
        ensures count { self.old.faults ≤ self.new.faults }
        ensures cause { IfFailed result (Rose self.old.faults self.new.faults) }
        ensures no_cause { UnlessFailed result (self.new.faults ≡ self.old.faults) }
    {
        match error.kind() {
            ErrorKind::NotFound => Ok(None),
            ErrorKind::OutOfMemory if error.raw_os_error().is_none() => Err(FilesFault::Memory),
            _ => {
                self.faults = self.faults.saturating_add(1);
                Err(FilesFault::Failed)
            }
        }
    }
}

impl<R: rt::Files> Files for FolderFiles<R> {
    ghost use Rattle.std.specs.Prelude.{None, []};

    ghost told = { λ _. None };

    ghost asked = { λ _. [] };

    ghost faults = { λ all. all.faults };

    fn read(
        &mut self,
        alloc: Global,
        path: &str,
        most: u32,
    ) -> Result<Option<List<u8>>, FilesFault> {
        match read_first(&self.rt, alloc, path, most) {
            Ok(bytes) => Ok(Some(bytes)),
            Err(error) => self.answer_to(error),
        }
    }
}

// The first bytes of a file.
fn read_first<R: rt::Files>(rt: &R, alloc: Global, path: &str, most: u32) -> io::Result<List<u8>>
    ensures { IfOk result (λ bytes. length bytes ≤ most) }
{
    let mut bytes = Vec::new(alloc);
    fs::open(rt, path)?
        .take(u64::from(most))
        .read_to_end(&mut bytes)?;
    // No clause of `read_to_end` says that `take` bounds what it reads.
    bytes.truncate(most as usize);
    Ok(List::from_vec(bytes))
}
