ghost use Rattle.std.specs.Prelude.{◌≡◌, not, map};
ghost use Rattle.std.specs.List.{list_all};
ghost use Rattle.std.specs.Str.{bytes_eq};
ghost use Rattle.css_outside.specs.Names.{are_distinct};

use css_outside::{Outbox, PutFailed};
use css_tokens::{List, OutOfMemory, Text};
use std::alloc::Global;
use std::process::Abort;

pub type FileList = List<(Text<'static>, List<u8>)>;

/// The name of the file of this number: `0.css` and so on.
pub fn numbered(alloc: Global, number: u32) -> Result<String, OutOfMemory> {
    Ok(format!(in alloc; "{number}.css")?)
}

/// Appends a file with this text.
pub fn add(
    alloc: Global,
    list: &mut FileList,
    path: &'static str,
    text: &str,
) -> Result<(), OutOfMemory> {
    let bytes = List::from_vec(Vec::from_slice(alloc, text.as_bytes())?);
    list.push((Text::lent(path), bytes))
}

/// Whether no path comes again after it.
pub fn are_distinct(files: &[(Text<'_>, List<u8>)]) -> bool
    ensures { result ≡ are_distinct (map (λ file. file.0) files.now) }
{
    match files {
        [] => true,
        [file, rest @ ..] => is_fresh(file.0.as_str(), rest) && are_distinct(rest),
    }
}

// Whether no file has this path.
fn is_fresh(path: &str, files: &[(Text<'_>, List<u8>)]) -> bool
    ensures { result ≡ list_all (λ other. not (bytes_eq path.now other)) (map (λ file. file.0) files.now) }
{
    match files {
        [] => true,
        [file, rest @ ..] => path != file.0.as_str() && is_fresh(path, rest),
    }
}

/// Makes a name ready and puts a piece to it.
pub fn put_ready<O: Outbox>(outbox: &mut O, name: &str, piece: &[u8]) -> Result<usize, PutFailed> {
    match outbox.make_ready(name) {
        Ok(()) => outbox.put(name, piece),
        Err(_) => Err(PutFailed::Failed),
    }
}

/// Puts each piece to its name, and looks at the answer.
pub fn put_rows<O: Outbox>(
    rt: &impl Abort,
    outbox: &mut O,
    rows: &[(&str, &str, Result<usize, PutFailed>)],
) {
    for (name, piece, answer) in rows {
        assert_eq!(rt;
            put_ready(outbox, name, piece.as_bytes()),
            *answer,
            "{piece} to {name}"
        );
    }
}
