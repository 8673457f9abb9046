ghost use Rattle.import_graph.specs.Places.{ArePlaced, IsPlaced, Places, named_in};
ghost use Rattle.import_graph.specs.Waves.{new_among};
ghost use Rattle.std.specs.Option.{unwrap_or};
ghost use Rattle.std.specs.Prelude.{◌≡◌, ◌++◌, ◌∷◌, [], Some, IfOk, OnOk, slice_get};

use css_places::PathText;
use css_tokens::{List, OutOfMemory};
use indexmap::IndexSet;
use std::alloc::Global;

/// Adds the paths of these lists that are not known, in order, and to `places` the places of the paths of each list. A path that
/// is known keeps its place.
pub(crate) fn learn_all(
    alloc: Global,
    known: &mut IndexSet<PathText>,
    lists: &[Option<List<PathText>>],
    places: &mut List<Option<List<usize>>>,
) -> Result<(), OutOfMemory>
    ensures known { OnOk result (known.new.keys ≡ known.old.keys ++ new_among known.old.keys (named_in lists.now)) }
    ensures places { OnOk result (Places known.new.keys lists.now places.old places.new) }
{
    for list in lists {
        places.push(learn_list(alloc, known, list)?)?;
    }
    Ok(())
}

/// The places of the paths of a list, if there is one; those that are not known are added.
fn learn_list(
    alloc: Global,
    known: &mut IndexSet<PathText>,
    list: &Option<List<PathText>>,
) -> Result<Option<List<usize>>, OutOfMemory>
    ensures known { OnOk result (known.new.keys ≡ known.old.keys ++ new_among known.old.keys (unwrap_or list.now [])) }
    ensures places { IfOk result (λ places. IsPlaced known.new.keys list.now places) }
{
    match list {
        Some(paths) => Ok(Some(learn(alloc, known, paths.as_slice())?)),
        None => Ok(None),
    }
}

/// The places of these paths; those that are not known are added.
fn learn(
    alloc: Global,
    known: &mut IndexSet<PathText>,
    paths: &[PathText],
) -> Result<List<usize>, OutOfMemory>
    ensures known { OnOk result (known.new.keys ≡ known.old.keys ++ new_among known.old.keys paths.now) }
    ensures places { IfOk result (λ places. ArePlaced known.new.keys paths.now places) }
{
    let mut places = List::new(alloc);
    for path in paths {
        places.push(place_of(alloc, known, path)?)?;
    }
    Ok(places)
}

/// The place of a path, which is added where it is not known.
fn place_of(
    alloc: Global,
    known: &mut IndexSet<PathText>,
    path: &PathText,
) -> Result<usize, OutOfMemory>
    ensures known { OnOk result (known.new.keys ≡ known.old.keys ++ new_among known.old.keys (path.now ∷ [])) }
    ensures place { IfOk result (λ place. slice_get known.new.keys place ≡ Some path.now) }
{
    let (place, _) = known.insert_full(path.copy(alloc)?)?;
    Ok(place)
}
