ghost use Rattle.std.specs.Prelude.{◌≡◌, ◌≢◌, ◌++◌, ◌∷◌, [], ◌≤◌, length, IfOk, OnOk, OnErr, IsSome};
ghost use Rattle.css_outside.specs.Counts.{Rose};
ghost use Rattle.css_outside.specs.Names.{Told};
ghost use Rattle.css_outside.specs.Putting.{message, IsReady, IsStuck, taken, Puts};

use css_tokens::OutOfMemory;

/// A put that failed.
#[derive(Clone, Copy, Debug, PartialEq, Eq)]
pub enum PutFailed {
    Failed,
}

/// Outputs that take bytes under their names. The name `-` is standard output and `!` is standard error.
pub trait Outbox {
    ghost use Rattle.std.specs.Prelude.{ℕ, List, Option};
    ghost use Rattle.css_outside.specs.Names.{Names};

    // the bytes under each name, where they are told
    ghost held: { Self → Option Names };

    // the names made ready
    ghost ready: { Self → List (List ℕ) };

    // how many puts to `!` failed
    ghost message_faults: { Self → ℕ };

    // how many puts to other names failed
    ghost faults: { Self → ℕ };

    /// Makes a name ready for puts. A refusal changes nothing.
    fn make_ready(&mut self, name: &str) -> Result<(), OutOfMemory>
        ensures ok { OnOk result (ready self.new ≡ ready self.old ++ name.now ∷ []) }
        ensures err { OnErr result (ready self.new ≡ ready self.old) }
        ensures held { held self.new ≡ held self.old }
        ensures message_count { message_faults self.new ≡ message_faults self.old }
        ensures count { faults self.new ≡ faults self.old };

    /// Adds bytes from the front of a piece under a name that is ready, and answers how many it took. The first put to
    /// a name that is not held starts it empty. Takes no memory. A put that fails, or takes nothing of a piece that is
    /// not empty, raises the count of faults of its name, which is the one for `!` or the one for all other names. No other
    /// put raises a count.
    fn put(&mut self, name: &str, piece: &[u8]) -> Result<usize, PutFailed>
        requires { IsReady (ready self.old) name.now }
        ensures ready { ready self.new ≡ ready self.old }
        ensures count { IfOk result (λ n. n ≤ length piece.now) }
        ensures held { Told (held self.old) (held self.new) (Puts name.now (taken piece.now result)) }
        ensures begun { Told (held self.old) (held self.new) (λ before now. (IsStuck piece.now result → ⊥) → IsSome (now name.now)) }
        ensures messages { message_faults self.old ≤ message_faults self.new }
        ensures others { faults self.old ≤ faults self.new }
        ensures own_messages { name.now ≢ message → message_faults self.new ≡ message_faults self.old }
        ensures own_others { name.now ≡ message → faults self.new ≡ faults self.old }
        ensures message_cause { IsStuck piece.now result → name.now ≡ message → Rose (message_faults self.old) (message_faults self.new) }
        ensures cause { IsStuck piece.now result → name.now ≢ message → Rose (faults self.old) (faults self.new) }
        ensures no_message_cause { (IsStuck piece.now result → ⊥) → message_faults self.new ≡ message_faults self.old }
        ensures no_cause { (IsStuck piece.now result → ⊥) → faults self.new ≡ faults self.old };
}
