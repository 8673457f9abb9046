//! The least pass, and what two passes keep.
ghost use Rattle.std.specs.Prelude.{IfOk};
ghost use Rattle.sheet_types.specs.Contexts.{outside};
ghost use Rattle.sheet_types.specs.Statements.{say_all};
ghost use Rattle.cascade_spec.specs.Contents.{SameWinners};

use crate::{Chain, Pass, lower};
use css_tokens::OutOfMemory;
use sheet_types::Sheet;
use std::alloc::Global;

/// A pass that gives each item as it is.
#[derive(Clone, Copy, Debug)]
pub struct Unchanged;

impl Pass for Unchanged {
    ghost use Rattle.std.specs.Prelude.{[], ◌∷◌};
    ghost use Rattle.cascade_spec.specs.Passes.{keeps-each};

    ghost takes = { λ pass item. Unit {0} };

    ghost premise = { λ pass items world. Unit {0} };

    ghost lowered = { λ pass item. item ∷ [] };

    ghost keeps = { λ pass items takes q premise. keeps-each items q };

    #[tactic(auto, using(crate::proofs::PassLemmas::given))]
    fn run<'a>(&self, _alloc: Global, sheet: Sheet<'a>) -> Result<Sheet<'a>, OutOfMemory> {
        Ok(sheet)
    }
}

/// What two passes keep follows from what each of them keeps.
pub fn unchanged_twice<'a>(alloc: Global, sheet: Sheet<'a>) -> Result<Sheet<'a>, OutOfMemory>
    ensures { IfOk result (λ made. SameWinners (say_all sheet.entry.items outside) (say_all made.items outside)) }
{
    let passes = Chain {
        first: Unchanged,
        second: Unchanged,
    };
    let made = lower(&passes, alloc, sheet)?;
    Ok(made)
}
