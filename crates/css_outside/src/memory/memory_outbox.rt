ghost use Rattle.std.specs.Prelude.{◌≡◌, ◌≤◌, [], Some, IfSome};
ghost use Rattle.std.specs.Option.{option_map};
ghost use Rattle.css_outside.specs.Names.{no_names};

use super::space::Space;
use super::spaces::{add_under, held_under};
use crate::put_faults::PutFaults;
use crate::{Outbox, PutFailed};
use css_tokens::{List, OutOfMemory, Text};
use std::alloc::Global;

/// Outputs in memory, of which puts can be made to fail. They tell what they hold.
#[derive(Debug, Drop)]
pub struct MemoryOutbox {
    pub(super) alloc: Global,
    pub(super) spaces: Vec<Space>,
    ready: List<Text<'static>>,
    most: u32,
    failing: List<u32>,
    puts: u32,
    faults: PutFaults,
    ghost takes_some: { 1 ≤ most },
}

impl MemoryOutbox {
    ghost use Rattle.std.specs.Prelude.{ℕ, List, None};
    ghost use Rattle.css_outside.specs.Calls.{puts_of, failing_puts, most_of, room_under};

    /// Outputs that hold nothing and have no space. A put takes at most `most` bytes, which is not 0. The puts whose
    /// numbers, from 1 on, stand in `failing` fail. Takes no memory.
    pub fn new(alloc: Global, most: u32, failing: List<u32>) -> MemoryOutbox
        requires { 1 ≤ most }
        ensures held { ⟦<MemoryOutbox as Outbox>⟧.held result ≡ Some no_names }
        ensures ready { ⟦<MemoryOutbox as Outbox>⟧.ready result ≡ [] }
        ensures message_count { ⟦<MemoryOutbox as Outbox>⟧.message_faults result ≡ 0 }
        ensures count { ⟦<MemoryOutbox as Outbox>⟧.faults result ≡ 0 }
        ensures puts { puts_of result ≡ 0 }
        ensures failing { failing_puts result ≡ failing }
        ensures most { most_of result ≡ most }
        ensures rooms { (name : List ℕ) → room_under result name ≡ None }
    {
        MemoryOutbox {
            alloc,
            spaces: Vec::new(alloc),
            ready: List::new(alloc),
            most,
            failing,
            puts: 0,
            faults: PutFaults::none(),
        }
    }

    /// The bytes that are held under a name, once there was a put to it.
    pub fn held(&self, name: &str) -> Option<&[u8]>
        ensures { IfSome (⟦<MemoryOutbox as Outbox>⟧.held self.now) (λ names. option_map (λ bytes. bytes.now) result ≡ names name.now) }
    {
        held_under(self.spaces.as_slice(), name)
    }
}

impl Outbox for MemoryOutbox {
    ghost use Rattle.std.specs.Prelude.{◌≢◌, ◌++◌, ◌∷◌, length, IfOk, OnOk, OnErr, IsSome};
    ghost use Rattle.css_outside.specs.Calls.{next_call, puts_of, failing_puts, most_of, room_under, put_answer};
    ghost use Rattle.css_outside.specs.Counts.{Rose};
    ghost use Rattle.css_outside.specs.Names.{Told};
    ghost use Rattle.css_outside.specs.Putting.{message, IsReady, IsStuck, taken, Puts};
    ghost use Rattle.css_outside.specs.Rooms.{TakesRoom, SameRooms};
    ghost use Rattle.css_outside.specs.Spaces.{held_in};

    ghost held = { λ all. Some (held_in all.spaces.items) };

    ghost ready = { λ all. all.ready };

    ghost message_faults = { λ all. all.faults.messages };

    ghost faults = { λ all. all.faults.others };

    fn make_ready(&mut self, name: &str) -> Result<(), OutOfMemory>
        ensures ok { OnOk result (⟦<MemoryOutbox as Outbox>⟧.ready self.new ≡ ⟦<MemoryOutbox as Outbox>⟧.ready self.old ++ name.now ∷ []) }
        ensures err { OnErr result (⟦<MemoryOutbox as Outbox>⟧.ready self.new ≡ ⟦<MemoryOutbox as Outbox>⟧.ready self.old) }
        ensures held { ⟦<MemoryOutbox as Outbox>⟧.held self.new ≡ ⟦<MemoryOutbox as Outbox>⟧.held self.old }
        ensures message_count { ⟦<MemoryOutbox as Outbox>⟧.message_faults self.new ≡ ⟦<MemoryOutbox as Outbox>⟧.message_faults self.old }
        ensures count { ⟦<MemoryOutbox as Outbox>⟧.faults self.new ≡ ⟦<MemoryOutbox as Outbox>⟧.faults self.old }
        ensures puts { puts_of self.new ≡ puts_of self.old }
        ensures failing { failing_puts self.new ≡ failing_puts self.old }
        ensures most { most_of self.new ≡ most_of self.old }
        ensures rooms { SameRooms (room_under self.old) (room_under self.new) }
    {
        let name = String::from_str(self.alloc, name)?;
        self.ready.push(Text::owned(name))
    }

    fn put(&mut self, name: &str, piece: &[u8]) -> Result<usize, PutFailed>
        requires { IsReady (⟦<MemoryOutbox as Outbox>⟧.ready self.old) name.now }
        ensures ready { ⟦<MemoryOutbox as Outbox>⟧.ready self.new ≡ ⟦<MemoryOutbox as Outbox>⟧.ready self.old }
        ensures count { IfOk result (λ n. n ≤ length piece.now) }
        ensures held { Told (⟦<MemoryOutbox as Outbox>⟧.held self.old) (⟦<MemoryOutbox as Outbox>⟧.held self.new) (Puts name.now (taken piece.now result)) }
        ensures begun { Told (⟦<MemoryOutbox as Outbox>⟧.held self.old) (⟦<MemoryOutbox as Outbox>⟧.held self.new) (λ before now. (IsStuck piece.now result → ⊥) → IsSome (now name.now)) }
        ensures messages { ⟦<MemoryOutbox as Outbox>⟧.message_faults self.old ≤ ⟦<MemoryOutbox as Outbox>⟧.message_faults self.new }
        ensures others { ⟦<MemoryOutbox as Outbox>⟧.faults self.old ≤ ⟦<MemoryOutbox as Outbox>⟧.faults self.new }
        ensures own_messages { name.now ≢ message → ⟦<MemoryOutbox as Outbox>⟧.message_faults self.new ≡ ⟦<MemoryOutbox as Outbox>⟧.message_faults self.old }
        ensures own_others { name.now ≡ message → ⟦<MemoryOutbox as Outbox>⟧.faults self.new ≡ ⟦<MemoryOutbox as Outbox>⟧.faults self.old }
        ensures message_cause { IsStuck piece.now result → name.now ≡ message → Rose (⟦<MemoryOutbox as Outbox>⟧.message_faults self.old) (⟦<MemoryOutbox as Outbox>⟧.message_faults self.new) }
        ensures cause { IsStuck piece.now result → name.now ≢ message → Rose (⟦<MemoryOutbox as Outbox>⟧.faults self.old) (⟦<MemoryOutbox as Outbox>⟧.faults self.new) }
        ensures no_message_cause { (IsStuck piece.now result → ⊥) → ⟦<MemoryOutbox as Outbox>⟧.message_faults self.new ≡ ⟦<MemoryOutbox as Outbox>⟧.message_faults self.old }
        ensures no_cause { (IsStuck piece.now result → ⊥) → ⟦<MemoryOutbox as Outbox>⟧.faults self.new ≡ ⟦<MemoryOutbox as Outbox>⟧.faults self.old }
        ensures answer { result ≡ put_answer self.old name.now piece.now }
        ensures puts { puts_of self.new ≡ next_call (puts_of self.old) }
        ensures failing_stays { failing_puts self.new ≡ failing_puts self.old }
        ensures most_stays { most_of self.new ≡ most_of self.old }
        ensures room { IfOk result (λ count. TakesRoom name.now count (room_under self.old) (room_under self.new)) }
        ensures room_stays { OnErr result (SameRooms (room_under self.old) (room_under self.new)) }
    {
        self.puts = self.puts.saturating_add(1);
        let count = piece.len().min(self.most as usize);
        let fails = self.failing.as_slice().contains(&self.puts);
        if fails || add_under(&mut self.spaces, name, &piece[..count]).is_err() {
            self.faults.raise(name);
            return Err(PutFailed::Failed);
        }
        Ok(count)
    }
}
