ghost use Rattle.std.specs.Prelude.{◌≤◌, ◌<◌, ◌^◌, length, IfOk};
ghost use Rattle.work_pool.specs.Answers.{CanWork, IsAnswered};

use crate::Gate;
use css_tokens::{List, OutOfMemory};
use std::alloc::Global;
use std::thread::Threads;

/// The answers of the work on each item, in the order of the items. The gate is asked with the number of an item, which counts
/// from 0, before the work on it begins. Refuses for want of memory alone, that of the work too. It takes as many workers as
/// it is given at most; so far one does all the work.
pub fn map_in_order<
    R: Threads + Sync,
    T: Sync,
    U: Send + Drop,
    F: Fn(&T) -> Result<U, OutOfMemory> + Sync,
    G: Gate + Sync,
>(
    rt: &R,
    alloc: Global,
    workers: u32,
    items: &[T],
    work: &F,
    gate: &G,
) -> Result<List<U>, OutOfMemory>
    requires workers { 1 ≤ workers }
    requires few { length items.now < 2 ^ 32 }
    requires work { CanWork F.Fn work.now items.now }
    ensures { IfOk result (λ answers. IsAnswered F.Fn work.now items.now answers) }
{
    let mut answers = List::new(alloc);
    let mut index = 0u32;
    for item in items {
        gate.at(index);
        answers.push(work(item)?)?;
        index += 1;
    }
    Ok(answers)
}
