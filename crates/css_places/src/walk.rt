ghost use Rattle.css_places.specs.Parts.{components_of, further, parts_of, path_of};
ghost use Rattle.css_places.specs.Walks.{FaultIs, leads_above, reached, step, up, walk};
ghost use Rattle.std.specs.Prelude.{◌≡◌, ◌++◌, Some, OnOk, IfOk, IfErr, map, string_bytes};

use crate::PathFault;
use css_tokens::{List, OutOfMemory};
use std::alloc::Global;

/// What becomes of a `..` that leads above the root.
#[derive(Clone, Copy, Debug, PartialEq, Eq)]
pub(crate) enum Above {
    Refused,
    Kept,
}

/// Whether the next `..` leads above the root.
#[tactic(auto, using(crate::proofs::WalkLemmas::last_parts))]
fn leads_above(kept: &[&str]) -> bool
    ensures { result ≡ leads_above (map (λ component. component.now) kept.now) }
{
    match kept.split_last() {
        Some((last, _)) => *last == "..",
        None => true,
    }
}

/// One folder up. A refusal leaves the components as they were, but for their room.
#[tactic(auto, using(crate::proofs::WalkLemmas::last_parts))]
fn up(above: Above, kept: &mut List<&str>) -> Result<(), PathFault>
    ensures reached { OnOk result (up above (map (λ component. component.now) kept.old) ≡ Some (map (λ component. component.now) kept.new)) }
    ensures refused { IfErr result (λ fault. FaultIs fault (up above (map (λ component. component.now) kept.old))) }
{
    if above == Above::Kept && leads_above(kept.as_slice()) {
        kept.push("..")?;
        return Ok(());
    }
    match kept.pop() {
        Some(_) => Ok(()),
        None => Err(PathFault::AboveRoot),
    }
}

/// One component further.
fn step<'t>(above: Above, kept: &mut List<&'t str>, component: &'t str) -> Result<(), PathFault>
    ensures reached { OnOk result (step above (map (λ c. c.now) kept.old) component.now ≡ Some (map (λ c. c.now) kept.new)) }
    ensures refused { IfErr result (λ fault. FaultIs fault (step above (map (λ c. c.now) kept.old) component.now)) }
{
    if component.is_empty() || component == "." {
        return Ok(());
    }
    if component == ".." {
        return up(above, kept);
    }
    kept.push(component)?;
    Ok(())
}

/// Goes through the folders of a path. The answer is its name.
#[tactic(auto, using(crate::proofs::PartLemmas::cuts))]
fn walk_folders<'t>(
    above: Above,
    kept: &mut List<&'t str>,
    path: &'t str,
) -> Result<&'t str, PathFault>
    ensures reached { OnOk result (walk above (map (λ c. c.now) kept.old) (parts_of path.now).folders ≡ Some (map (λ c. c.now) kept.new)) }
    ensures name { IfOk result (λ name. name.now ≡ (parts_of path.now).name) }
    ensures refused { IfErr result (λ fault. FaultIs fault (walk above (map (λ c. c.now) kept.old) (parts_of path.now).folders)) }
{
    let mut rest = path;
    'folders: while let Some((folder, more)) = rest.split_once('/') {
        step(above, kept, folder)?;
        rest = more;
    }
    Ok(rest)
}

/// Goes through all components of a path.
#[tactic(auto, using(crate::proofs::WalkLemmas::walks))]
fn walk_path<'t>(above: Above, kept: &mut List<&'t str>, path: &'t str) -> Result<(), PathFault>
    ensures reached { OnOk result (walk above (map (λ c. c.now) kept.old) (components_of path.now) ≡ Some (map (λ c. c.now) kept.new)) }
    ensures refused { IfErr result (λ fault. FaultIs fault (walk above (map (λ c. c.now) kept.old) (components_of path.now))) }
{
    let name = walk_folders(above, kept, path)?;
    step(above, kept, name)
}

/// The components to which a path leads, seen from the folder of the file `from`.
#[tactic(auto, using(crate::proofs::WalkLemmas::walks))]
pub(crate) fn reached<'t>(
    alloc: Global,
    above: Above,
    from: &'t str,
    path: &'t str,
) -> Result<List<&'t str>, PathFault>
    ensures found { IfOk result (λ kept. reached above from.now path.now ≡ Some (map (λ c. c.now) kept)) }
    ensures refused { IfErr result (λ fault. FaultIs fault (reached above from.now path.now)) }
{
    let mut kept = List::new(alloc);
    walk_folders(above, &mut kept, from)?;
    walk_path(above, &mut kept, path)?;
    Ok(kept)
}

/// What stands behind the last slash of a path.
#[tactic(auto, using(crate::proofs::PartLemmas::cuts))]
pub(crate) fn name_of(path: &str) -> &str
    ensures { result.now ≡ (parts_of path.now).name }
{
    let mut rest = path;
    'folders: while let Some((_, more)) = rest.split_once('/') {
        rest = more;
    }
    rest
}

/// Adds components, each behind a slash.
fn push_further(text: &mut String, components: &[&str]) -> Result<(), OutOfMemory>
    ensures { OnOk result (string_bytes text.new ≡ string_bytes text.old ++ further (map (λ component. component.now) components.now)) }
{
    for component in components {
        text.push_str("/")?;
        text.push_str(component)?;
    }
    Ok(())
}

/// The path of components.
pub(crate) fn joined(alloc: Global, components: &[&str]) -> Result<String, OutOfMemory>
    ensures { IfOk result (λ text. string_bytes text ≡ path_of (map (λ component. component.now) components.now)) }
{
    let mut text = String::new(alloc);
    if let Some((first, more)) = components.split_first() {
        text.push_str(first)?;
        push_further(&mut text, more)?;
    }
    Ok(text)
}
