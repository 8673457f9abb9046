ghost use Rattle.std.specs.Prelude.{◌≡◌, IfOk, map};
ghost use Rattle.std.specs.Str.Lines.{lines};

use css_places::PathText;
use css_tokens::{List, OutOfMemory};
use import_graph::Targets;
use std::alloc::{AllocError, Global};

/// Each line of a file is a path that it names; a file that is no text names none.
pub struct Lines;

impl Targets for Lines {
    ghost use Rattle.std.specs.Prelude.{◌≡◌, [], IfOk, if◌then◌else◌};
    ghost use Rattle.std.specs.Str.{is_utf8};
    ghost use Rattle.std.specs.Str.Lines.{lines};

    ghost names = { λ _ path bytes. if is_utf8 bytes then lines bytes else [] };

    fn of(&self, alloc: Global, _path: &str, bytes: &[u8]) -> Result<List<PathText>, OutOfMemory> {
        match str::from_utf8(bytes) {
            Ok(text) => {
                let paths = paths_in(alloc, text)?;
                Ok(paths)
            }
            Err(_) => Ok(List::new(alloc)),
        }
    }
}

// The lines of a text, as paths.
fn paths_in(alloc: Global, text: &str) -> Result<List<PathText>, OutOfMemory>
    ensures { IfOk result (λ paths. paths ≡ lines text.now) }
{
    let lines = lines_of(alloc, text)?;
    let paths = paths_of(alloc, &lines)?;
    Ok(paths)
}

// The lines of a text.
fn lines_of(alloc: Global, text: &str) -> Result<Vec<&str>, AllocError>
    ensures { IfOk result (λ found. map (λ line. line.now) found.items ≡ lines text.now) }
{
    text.lines().collect(alloc)
}

// These texts, as paths.
fn paths_of(alloc: Global, texts: &[&str]) -> Result<List<PathText>, OutOfMemory>
    ensures { IfOk result (λ paths. paths ≡ map (λ text. text.now) texts.now) }
{
    let mut paths = List::new(alloc);
    for text in texts {
        paths.push(PathText::new(String::from_str(alloc, text)?))?;
    }
    Ok(paths)
}

/// No file names another.
pub struct Quiet;

impl Targets for Quiet {
    ghost use Rattle.std.specs.Prelude.{◌≡◌, [], IfOk};

    ghost names = { λ _ _ _. [] };

    fn of(&self, alloc: Global, _path: &str, _bytes: &[u8]) -> Result<List<PathText>, OutOfMemory> {
        Ok(List::new(alloc))
    }
}
