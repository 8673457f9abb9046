ghost use Rattle.std.specs.Prelude.{◌≡◌, Some, max, OnOk, OnErr};
ghost use Rattle.std.specs.Option.{unwrap_or};
ghost use Rattle.css_outside.specs.Calls.{puts_of, failing_puts, most_of, room_under};
ghost use Rattle.css_outside.specs.Names.{Told, Same};
ghost use Rattle.css_outside.specs.Rooms.{SameRooms, SameOtherRooms};

use super::memory_outbox::MemoryOutbox;
use super::spaces::widen_under;
use crate::Outbox;
use css_tokens::OutOfMemory;

impl MemoryOutbox {
    /// Makes space for this many more bytes under a name, unless it has as much. Nothing that is held, ready or counted
    /// changes, and a refusal changes no space.
    pub fn reserve(&mut self, name: &str, bytes: usize) -> Result<(), OutOfMemory>
        ensures room { OnOk result (room_under self.new name.now ≡ Some (max bytes (unwrap_or (room_under self.old name.now) 0))) }
        ensures others { SameOtherRooms name.now (room_under self.old) (room_under self.new) }
        ensures err { OnErr result (SameRooms (room_under self.old) (room_under self.new)) }
        ensures held { Told (⟦<MemoryOutbox as Outbox>⟧.held self.old) (⟦<MemoryOutbox as Outbox>⟧.held self.new) Same }
        ensures ready { ⟦<MemoryOutbox as Outbox>⟧.ready self.new ≡ ⟦<MemoryOutbox as Outbox>⟧.ready self.old }
        ensures message_count { ⟦<MemoryOutbox as Outbox>⟧.message_faults self.new ≡ ⟦<MemoryOutbox as Outbox>⟧.message_faults self.old }
        ensures count { ⟦<MemoryOutbox as Outbox>⟧.faults self.new ≡ ⟦<MemoryOutbox as Outbox>⟧.faults self.old }
        ensures puts { puts_of self.new ≡ puts_of self.old }
        ensures failing { failing_puts self.new ≡ failing_puts self.old }
        ensures most { most_of self.new ≡ most_of self.old }
    {
        widen_under(&mut self.spaces, self.alloc, name, bytes)
    }
}
