ghost use Rattle.std.specs.Prelude.{◌≡◌, ◌++◌, ◌∷◌, [], map, IsTrue, Some, OnOk, OnErr};
ghost use Rattle.css_outside.specs.Names.{are_distinct, named};

use super::find::{copy_first, find};
use crate::{Files, FilesFault};
use css_tokens::{List, OutOfMemory, Text};
use std::alloc::Global;

/// Files in memory, of which no read ever fails. They tell what they hold, and their count of faults stays 0.
#[derive(Debug, Drop)]
pub struct SureFiles<'a> {
    files: List<(Text<'a>, List<u8>)>,
    asked: List<Text<'a>>,
}

impl<'a> SureFiles<'a> {
    /// Files of the given paths, which are distinct, and bytes. Takes no memory.
    pub fn new(alloc: Global, files: List<(Text<'a>, List<u8>)>) -> SureFiles<'a>
        requires { IsTrue (are_distinct (map (λ file. file.0) files)) }
        ensures told { ⟦<SureFiles<'a> as Files>⟧.told result ≡ Some (named files.entry) }
        ensures asked { ⟦<SureFiles<'a> as Files>⟧.asked result ≡ [] }
        ensures count { ⟦<SureFiles<'a> as Files>⟧.faults result ≡ 0 }
    {
        SureFiles {
            files,
            asked: List::new(alloc),
        }
    }

    /// The paths that were asked so far, in order.
    pub fn paths_asked(&self) -> &[Text<'a>]
        ensures { result.now ≡ ⟦<SureFiles<'a> as Files>⟧.asked self.now }
    {
        self.asked.as_slice()
    }

    // Notes that a path was asked.
    pub(super) fn note(&mut self, alloc: Global, path: &str) -> Result<(), OutOfMemory>
        ensures told { ⟦<SureFiles<'a> as Files>⟧.told self.new ≡ ⟦<SureFiles<'a> as Files>⟧.told self.old }
        ensures ok { OnOk result (⟦<SureFiles<'a> as Files>⟧.asked self.new ≡ ⟦<SureFiles<'a> as Files>⟧.asked self.old ++ path.now ∷ []) }
        ensures err { OnErr result (⟦<SureFiles<'a> as Files>⟧.asked self.new ≡ ⟦<SureFiles<'a> as Files>⟧.asked self.old) }
    {
        let path = String::from_str(alloc, path)?;
        self.asked.push(Text::owned(path))
    }
}

impl<'a> Files for SureFiles<'a> {
    ghost use Rattle.std.specs.Prelude.{◌≤◌, IfSome};
    ghost use Rattle.css_outside.specs.Counts.{Rose};
    ghost use Rattle.css_outside.specs.Reading.{ReadsFirst, HasAtMost, asked_after, IfFailed, UnlessFailed};

    ghost told = { λ all. Some (named all.files) };

    ghost asked = { λ all. all.asked };

    ghost faults = { λ _. 0 };

    fn read(&mut self, alloc: Global, path: &str, most: u32) -> Result<Option<List<u8>>, FilesFault>
        ensures told { ⟦<SureFiles<'a> as Files>⟧.told self.new ≡ ⟦<SureFiles<'a> as Files>⟧.told self.old }
        ensures bytes { ReadsFirst (⟦<SureFiles<'a> as Files>⟧.told self.old) path.now most result }
        ensures short { HasAtMost most result }
        ensures asked { IfSome (⟦<SureFiles<'a> as Files>⟧.told self.old) (λ _. ⟦<SureFiles<'a> as Files>⟧.asked self.new ≡ asked_after (⟦<SureFiles<'a> as Files>⟧.asked self.old) path.now result) }
        ensures count { ⟦<SureFiles<'a> as Files>⟧.faults self.old ≤ ⟦<SureFiles<'a> as Files>⟧.faults self.new }
        ensures cause { IfFailed result (Rose (⟦<SureFiles<'a> as Files>⟧.faults self.old) (⟦<SureFiles<'a> as Files>⟧.faults self.new)) }
        ensures no_cause { UnlessFailed result (⟦<SureFiles<'a> as Files>⟧.faults self.new ≡ ⟦<SureFiles<'a> as Files>⟧.faults self.old) }
        ensures sure { IfFailed result ⊥ }
    {
        let answer = match find(&self.files, path) {
            None => None,
            Some(bytes) => Some(copy_first(alloc, bytes, most)?),
        };
        self.note(alloc, path)?;
        Ok(answer)
    }
}
