ghost use Rattle.std.specs.Prelude.{◌≡◌, take, IfOk};
ghost use Rattle.std.specs.Option.{option_map};
ghost use Rattle.css_outside.specs.Names.{named};

use css_tokens::{List, OutOfMemory, Text};
use std::alloc::Global;

// What lies under a name in a list of files.
pub(super) fn find<'f>(files: &'f List<(Text<'_>, List<u8>)>, name: &str) -> Option<&'f List<u8>>
    ensures { option_map (λ bytes. bytes.now) result ≡ named files.now name.now }
{
    let file = files
        .as_slice()
        .iter()
        .find(|file| file.0.as_str() == name)?;
    Some(&file.1)
}

// A copy of the first bytes of a list.
pub(super) fn copy_first(
    alloc: Global,
    bytes: &List<u8>,
    most: u32,
) -> Result<List<u8>, OutOfMemory>
    ensures { IfOk result (λ copy. copy ≡ take most bytes.now) }
{
    let bytes = bytes.as_slice();
    let count = bytes.len().min(most as usize);
    Ok(List::from_vec(Vec::from_slice(alloc, &bytes[..count])?))
}
