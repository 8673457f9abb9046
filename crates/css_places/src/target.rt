ghost use Rattle.css_places.specs.Resolving.{begins_twice, is_folder, resolution};
ghost use Rattle.std.specs.Prelude.{◌≡◌, Ok, Err, IfOk, IfErr};

use crate::scheme::{begins_with, has_scheme};
use crate::walk::{Above, joined, name_of, reached};
use crate::{PathFault, PathText};
use std::alloc::Global;

fn begins_twice(text: &[u8]) -> bool
    ensures { result ≡ begins_twice text.now }
{
    match text.split_first() {
        Some((first, rest)) => *first == b'/' && begins_with(b'/', rest),
        None => false,
    }
}

fn is_folder(name: &str) -> bool
    ensures { result ≡ is_folder name.now }
{
    name.is_empty() || name == "." || name == ".."
}

/// The path of the file that `target` names, seen from the folder of the file `from`. What it is refused for comes in this
/// order: it is empty, it lies elsewhere, it begins with a slash, it names a folder, it leads above the root.
pub fn resolve(alloc: Global, from: &str, target: &str) -> Result<PathText, PathFault>
    ensures path { IfOk result (λ path. resolution from.now target.now ≡ Ok path) }
    ensures fault { IfErr result (λ fault. (fault ≡ PathFault.Memory → ⊥) → resolution from.now target.now ≡ Err fault) }
{
    if target.is_empty() {
        return Err(PathFault::Empty);
    }
    if begins_twice(target.as_bytes()) || has_scheme(target.as_bytes()) {
        return Err(PathFault::Remote);
    }
    if begins_with(b'/', target.as_bytes()) {
        return Err(PathFault::Absolute);
    }
    if is_folder(name_of(target)) {
        return Err(PathFault::Empty);
    }
    let kept = reached(alloc, Above::Refused, from, target)?;
    if kept.is_empty() {
        return Err(PathFault::Empty);
    }
    Ok(PathText::new(joined(alloc, kept.as_slice())?))
}
