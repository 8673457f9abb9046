ghost use Rattle.css_places.specs.Walks.{reached};
ghost use Rattle.css_places.specs.declared.walk.Above.TheVariants.{Kept};
ghost use Rattle.std.specs.Prelude.{ℕ, List, IsTrue, is_some};

/// Where a `..` above the root is kept, each path leads somewhere. So an address is refused for want of memory alone.
pub fn addresses_lead_somewhere()
    ensures { (from path : List ℕ) → IsTrue (is_some (reached Kept from path)) }
{}
