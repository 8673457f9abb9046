ghost use Rattle.std.specs.Prelude.{◌≡◌, ◌≤◌, [], None, IfOk, length, map, string_bytes};

use crate::put_faults::PutFaults;
use crate::{Outbox, PutFailed};
use css_tokens::OutOfMemory;
use std::alloc::Global;
use std::fs::File;
use std::io::{ErrorKind, Write};
use std::{fs, io};

/// Files of the folder in which the program runs, each created or cut at the first put to it, and the two standard
/// streams. They tell nothing.
#[derive(Drop)]
pub struct FolderOutbox {
    rt: HostRuntime,
    alloc: Global,
    outputs: Vec<Output>,
    faults: PutFaults,
}

// A name that was made ready, and its file from the first put on.
#[derive(Drop)]
struct Output {
    name: String,
    file: Option<File>,
}

impl FolderOutbox {
    /// No name is ready. Takes no memory.
    pub fn new(rt: HostRuntime, alloc: Global) -> FolderOutbox
        ensures held { ⟦<FolderOutbox as Outbox>⟧.held result ≡ None }
        ensures ready { ⟦<FolderOutbox as Outbox>⟧.ready result ≡ [] }
        ensures message_count { ⟦<FolderOutbox as Outbox>⟧.message_faults result ≡ 0 }
        ensures count { ⟦<FolderOutbox as Outbox>⟧.faults result ≡ 0 }
    {
        FolderOutbox {
            rt,
            alloc,
            outputs: Vec::new(alloc),
            faults: PutFaults::none(),
        }
    }
}

impl Outbox for FolderOutbox {
    ghost use Rattle.std.specs.Prelude.{None, map, string_bytes};

    ghost held = { λ _. None };

    ghost ready = { λ all. map (λ output. string_bytes output.name) all.outputs.items };

    ghost message_faults = { λ all. all.faults.messages };

    ghost faults = { λ all. all.faults.others };

    fn make_ready(&mut self, name: &str) -> Result<(), OutOfMemory> {
        let name = String::from_str(self.alloc, name)?;
        Ok(self.outputs.push(Output { name, file: None })?)
    }

    fn put(&mut self, name: &str, piece: &[u8]) -> Result<usize, PutFailed> {
        let answer = match name {
            "-" => self.rt.stdout().write(piece),
            "!" => self.rt.stderr().write(piece),
            _ => write_file(&self.rt, &mut self.outputs, name, piece),
        };
        match answer {
            Ok(count) if count > 0 || piece.is_empty() => Ok(count),
            _ => {
                self.faults.raise(name);
                Err(PutFailed::Failed)
            }
        }
    }
}

// Writes to the file of a name, which the first put creates or cuts.
fn write_file(
    rt: &HostRuntime,
    outputs: &mut Vec<Output>,
    name: &str,
    piece: &[u8],
) -> io::Result<usize>
    ensures ready { map (λ output. string_bytes output.name) outputs.new.items ≡ map (λ output. string_bytes output.name) outputs.old.items }
    ensures count { IfOk result (λ n. n ≤ length piece.now) }
{
    let at = outputs
        .iter()
        .position(|output| output.name.as_str() == name);
    let at = at.ok_or(ErrorKind::NotFound)?;
    outputs[at].write(rt, piece)
}

impl Output {
    fn write(&mut self, rt: &HostRuntime, piece: &[u8]) -> io::Result<usize>
        ensures name { self.new.name ≡ self.old.name }
        ensures count { IfOk result (λ n. n ≤ length piece.now) }
    {
        let mut file = match self.file.take() {
            Some(file) => file,
            None => fs::create(rt, self.name.as_str())?,
        };
        let answer = file.write(piece);
        self.file = Some(file);
        answer
    }
}
