ghost use Rattle.import_graph.specs.Order.{module_order, numbered_from, targets_at};
ghost use Rattle.std.specs.Prelude.{◌≡◌, ◌≤◌, ◌++◌, ◌∷◌, [], ℕ, IfOk, OnOk, length, nat_eq, reverse};

use css_tokens::{List, OutOfMemory};
use std::alloc::Global;

/// The files in the order of their numbers, depth first from file 0, each at its first meeting. A file is told by its place in
/// `targets`, which holds the places of the files that it names; one that is missing (`None`, or a place beyond the list) gets
/// no number. No more files would get one, however many more might. Refuses for want of memory alone.
pub fn module_order(
    alloc: Global,
    targets: &[Option<List<usize>>],
) -> Result<List<usize>, OutOfMemory>
    ensures order { IfOk result (λ order. order ≡ module_order targets.now) }
    ensures enough { IfOk result (λ order. (more : ℕ) → length targets.now ≤ more → numbered_from nat_eq (targets_at targets.now) more [] (0 ∷ []) ≡ order) }
{
    let mut order = List::new(alloc);
    let mut is_numbered: Vec<bool> = vec![in alloc; false; targets.len()]?;
    // The files that are still to be met, the next one on top.
    let mut todo: Vec<usize> = Vec::new(alloc);
    todo.push(0)?;
    'files: while let Some(file) = todo.pop() {
        if file >= targets.len() {
            continue;
        }
        if is_numbered[file] {
            continue;
        }
        let Some(named) = &targets[file] else {
            continue;
        };
        is_numbered[file] = true;
        order.push(file)?;
        push_reversed(&mut todo, named.as_slice())?;
    }
    Ok(order)
}

/// Puts these files on a stack, the first of them on top.
fn push_reversed(stack: &mut Vec<usize>, files: &[usize]) -> Result<(), OutOfMemory>
    ensures { OnOk result (stack.new.items ≡ stack.old.items ++ reverse files.now) }
{
    for at in (0..files.len()).rev() {
        stack.push(files[at])?;
    }
    Ok(())
}
