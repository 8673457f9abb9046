ghost use Rattle.std.specs.Prelude.{◌≡◌, [], map, IsTrue, Some};
ghost use Rattle.css_outside.specs.Names.{are_distinct, named};

use super::sure_files::SureFiles;
use crate::{Files, FilesFault};
use css_tokens::{List, Text};
use std::alloc::Global;

/// Files in memory, of which reads can be made to fail. They tell what they hold.
#[derive(Debug, Drop)]
pub struct MemoryFiles<'a> {
    files: SureFiles<'a>,
    failing: List<u32>,
    reads: u32,
    faults: u64,
}

impl<'a> MemoryFiles<'a> {
    ghost use Rattle.css_outside.specs.Calls.{reads_of, failing_reads};

    /// Files of the given paths, which are distinct, and bytes. The reads whose numbers, from 1 on, stand in `failing`
    /// fail. Takes no memory.
    pub fn new(
        alloc: Global,
        files: List<(Text<'a>, List<u8>)>,
        failing: List<u32>,
    ) -> MemoryFiles<'a>
        requires { IsTrue (are_distinct (map (λ file. file.0) files)) }
        ensures told { ⟦<MemoryFiles<'a> as Files>⟧.told result ≡ Some (named files.entry) }
        ensures asked { ⟦<MemoryFiles<'a> as Files>⟧.asked result ≡ [] }
        ensures count { ⟦<MemoryFiles<'a> as Files>⟧.faults result ≡ 0 }
        ensures reads { reads_of result ≡ 0 }
        ensures failing { failing_reads result ≡ failing }
    {
        MemoryFiles {
            files: SureFiles::new(alloc, files),
            failing,
            reads: 0,
            faults: 0,
        }
    }

    /// The paths that were asked so far, in order.
    pub fn paths_asked(&self) -> &[Text<'a>]
        ensures { result.now ≡ ⟦<MemoryFiles<'a> as Files>⟧.asked self.now }
    {
        self.files.paths_asked()
    }
}

impl<'a> Files for MemoryFiles<'a> {
    ghost use Rattle.std.specs.Prelude.{◌≤◌, IfSome};
    ghost use Rattle.css_outside.specs.Calls.{next_call, stands_in, reads_of, failing_reads};
    ghost use Rattle.css_outside.specs.Counts.{Rose};
    ghost use Rattle.css_outside.specs.Reading.{ReadsFirst, HasAtMost, asked_after, IfFailed, UnlessFailed, FailsWhere};

    ghost told = { λ all. ⟦<SureFiles<'a> as Files>⟧.told all.files };

    ghost asked = { λ all. ⟦<SureFiles<'a> as Files>⟧.asked all.files };

    ghost faults = { λ all. all.faults };

    fn read(&mut self, alloc: Global, path: &str, most: u32) -> Result<Option<List<u8>>, FilesFault>
        ensures told { ⟦<MemoryFiles<'a> as Files>⟧.told self.new ≡ ⟦<MemoryFiles<'a> as Files>⟧.told self.old }
        ensures bytes { ReadsFirst (⟦<MemoryFiles<'a> as Files>⟧.told self.old) path.now most result }
        ensures short { HasAtMost most result }
        ensures asked { IfSome (⟦<MemoryFiles<'a> as Files>⟧.told self.old) (λ _. ⟦<MemoryFiles<'a> as Files>⟧.asked self.new ≡ asked_after (⟦<MemoryFiles<'a> as Files>⟧.asked self.old) path.now result) }
        ensures count { ⟦<MemoryFiles<'a> as Files>⟧.faults self.old ≤ ⟦<MemoryFiles<'a> as Files>⟧.faults self.new }
        ensures cause { IfFailed result (Rose (⟦<MemoryFiles<'a> as Files>⟧.faults self.old) (⟦<MemoryFiles<'a> as Files>⟧.faults self.new)) }
        ensures no_cause { UnlessFailed result (⟦<MemoryFiles<'a> as Files>⟧.faults self.new ≡ ⟦<MemoryFiles<'a> as Files>⟧.faults self.old) }
        ensures failing { FailsWhere (stands_in (next_call (reads_of self.old)) (failing_reads self.old)) result }
        ensures reads { reads_of self.new ≡ next_call (reads_of self.old) }
        ensures failing_stays { failing_reads self.new ≡ failing_reads self.old }
    {
        self.reads = self.reads.saturating_add(1);
        if self.failing.as_slice().contains(&self.reads) {
            self.files.note(alloc, path)?;
            self.faults = self.faults.saturating_add(1);
            return Err(FilesFault::Failed);
        }
        self.files.read(alloc, path, most)
    }
}
