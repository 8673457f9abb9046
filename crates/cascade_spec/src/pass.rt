//! What a pass is: it rewrites each item of a sheet by itself, and keeps the winners and the passed rules.

ghost use Rattle.std.specs.Prelude.{◌≡◌, List, flat_map, IfOk};
ghost use Rattle.std.specs.List.{AllByRecursion};
ghost use Rattle.sheet_types.specs.declared.sheet.Item.{Item};
ghost use Rattle.sheet_types.specs.Contexts.{outside};
ghost use Rattle.sheet_types.specs.Statements.{say_all};
ghost use Rattle.cascade_spec.specs.Cascade.{Question};
ghost use Rattle.cascade_spec.specs.Contents.{IsKept};
ghost use Rattle.cascade_spec.specs.Worlds.{World};

use css_tokens::OutOfMemory;
use sheet_types::Sheet;
use std::alloc::Global;

/// A rewriting of sheets, item by item. Whoever implements it shows once, for every list of items that it takes, that
/// nothing that wins changes; how to show this from single items is `passes_keep`.
pub trait Pass {
    /// Which items it takes.
    ghost takes: { Self → Item → Type 0 };

    /// What has to hold of a whole list of items, and of the world in which they are looked at.
    ghost premise: { Self → List Item → World → Type 0 };

    /// The items that it gives for an item.
    ghost lowered: { Self → Item → List Item };

    /// The sheet of the items that it gives for each item, in order, with the imports as they are. Refuses for want of memory alone.
    fn run<'a>(&self, alloc: Global, sheet: Sheet<'a>) -> Result<Sheet<'a>, OutOfMemory>
        requires { AllByRecursion (takes self.now) sheet.items }
        ensures items { IfOk result (λ made. made.items ≡ flat_map (lowered self.now) sheet.entry.items) }
        ensures imports { IfOk result (λ made. made.imports ≡ sheet.entry.imports) };

    /// Every list of items that it takes has the winners and the passed rules of what it gives for the list.
    ghost keeps: { (pass : Self) (items : List Item) → AllByRecursion (takes pass) items → (q : Question) → premise pass items q.world
        → IsKept q (say_all items outside) (say_all (flat_map (lowered pass) items) outside) };
}

/// Two passes, one after the other.
#[derive(Debug, Drop)]
pub struct Chain<P, Q> {
    pub first: P,
    pub second: Q,
}

impl<P: Pass, Q: Pass> Pass for Chain<P, Q> {
    ghost use Rattle.std.specs.Prelude.{flat_map};
    ghost use Rattle.std.specs.List.{AllByRecursion};
    ghost use Rattle.cascade_spec.specs.Passes.{keeps-both};

    ghost takes = { λ chain item. P.takes chain.first item × AllByRecursion (Q.takes chain.second) (P.lowered chain.first item) };

    ghost premise = { λ chain items world. P.premise chain.first items world × Q.premise chain.second (flat_map (P.lowered chain.first) items) world };

    ghost lowered = { λ chain item. flat_map (Q.lowered chain.second) (P.lowered chain.first item) };

    ghost keeps = { λ chain items takes q premise. keeps-both (P.takes chain.first) (Q.takes chain.second) (P.lowered chain.first) (Q.lowered chain.second) items takes q (λ taken. P.keeps chain.first items taken q premise.0) (λ taken. Q.keeps chain.second (flat_map (P.lowered chain.first) items) taken q premise.1) };

    fn run<'a>(&self, alloc: Global, sheet: Sheet<'a>) -> Result<Sheet<'a>, OutOfMemory> {
        let between = self.first.run(alloc, sheet)?;
        self.second.run(alloc, between)
    }
}

/// The sheet that a pass gives, with the imports as they are. It has the winners and the passed rules of the sheet that the pass took, in every world in
/// which the premise of the pass holds. Refuses for want of memory alone.
pub fn lower<'a, P: Pass>(
    pass: &P,
    alloc: Global,
    sheet: Sheet<'a>,
) -> Result<Sheet<'a>, OutOfMemory>
    requires { AllByRecursion (P.takes pass.now) sheet.items }
    ensures lowered { IfOk result (λ made. made.items ≡ flat_map (P.lowered pass.now) sheet.entry.items) }
    ensures imports { IfOk result (λ made. made.imports ≡ sheet.entry.imports) }
    ensures kept { IfOk result (λ made. (q : Question) → P.premise pass.now sheet.entry.items q.world → IsKept q (say_all sheet.entry.items outside) (say_all made.items outside)) }
{
    let made = pass.run(alloc, sheet)?;
    Ok(made)
}
