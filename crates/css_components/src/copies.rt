ghost use Rattle.std.specs.Prelude.{◌≡◌, IfOk};

use css_tokens::{Component, List, OutOfMemory};
use std::alloc::Global;

/// The components once more.
pub fn copied<'a>(
    alloc: Global,
    components: &[Component<'a>],
) -> Result<List<Component<'a>>, OutOfMemory>
    ensures { IfOk result (λ copy. copy ≡ components.now) }
{
    let mut copy = List::with_capacity(alloc, components.len())?;
    for component in components {
        copy.push(component.copy(alloc)?)?;
    }
    Ok(copy)
}
