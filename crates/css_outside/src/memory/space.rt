ghost use Rattle.std.specs.Prelude.{◌≡◌, ◌+◌, ◌-◌, ◌≤◌, ◌++◌, [], Some, None, length, nat_le, max, is_ok, IfOk, OnOk, OnErr, string_bytes, vec_len, vec_capacity};
ghost use Rattle.std.specs.Option.{option_map, unwrap_or};

use crate::PutFailed;
use css_tokens::OutOfMemory;
use std::alloc::Global;

// The space of one name. Its bytes are what it holds once there was a put to it.
#[derive(Debug, Drop)]
pub(super) struct Space {
    pub(super) name: String,
    bytes: Vec<u8>,
    // How many more bytes it takes. No clause of `extend_from_slice` says that the capacity stays, so it is counted.
    room: usize,
    begun: bool,
    ghost has_capacity: { vec_len bytes + room ≤ vec_capacity bytes },
}

impl Space {
    ghost use Rattle.css_outside.specs.Spaces.{held_of};

    pub(super) fn new(alloc: Global, name: &str, bytes: usize) -> Result<Space, OutOfMemory>
        ensures name { IfOk result (λ space. string_bytes space.name ≡ name.now) }
        ensures held { IfOk result (λ space. held_of space ≡ None) }
        ensures room { IfOk result (λ space. space.room ≡ bytes) }
    {
        Ok(Space {
            name: String::from_str(alloc, name)?,
            bytes: Vec::with_capacity(alloc, bytes)?,
            room: bytes,
            begun: false,
        })
    }

    // Makes space for this many more bytes.
    pub(super) fn widen(&mut self, bytes: usize) -> Result<(), OutOfMemory>
        ensures name { self.new.name ≡ self.old.name }
        ensures held { held_of self.new ≡ held_of self.old }
        ensures room { OnOk result (self.new.room ≡ max bytes self.old.room) }
        ensures err { OnErr result (self.new.room ≡ self.old.room) }
    {
        self.bytes.reserve_exact(bytes)?;
        self.room = bytes.max(self.room);
        Ok(())
    }

    // Adds bytes where they fit. The first put starts the space empty.
    pub(super) fn add(&mut self, piece: &[u8]) -> Result<(), PutFailed>
        ensures answer { is_ok result ≡ nat_le (length piece.now) self.old.room }
        ensures name { self.new.name ≡ self.old.name }
        ensures held { OnOk result (held_of self.new ≡ Some (unwrap_or (held_of self.old) [] ++ piece.now)) }
        ensures room { OnOk result (self.new.room ≡ self.old.room - length piece.now) }
        ensures err { OnErr result (self.new ≡ self.old) }
    {
        if self.room < piece.len() {
            return Err(PutFailed::Failed);
        }
        let kept = if self.begun { self.bytes.len() } else { 0 };
        self.bytes.truncate(kept);
        self.bytes.extend_from_slice(piece).unwrap();
        self.room -= piece.len();
        self.begun = true;
        Ok(())
    }

    // The bytes, once there was a put.
    pub(super) fn held(&self) -> Option<&[u8]>
        ensures { option_map (λ bytes. bytes.now) result ≡ held_of self.now }
    {
        if self.begun {
            Some(self.bytes.as_slice())
        } else {
            None
        }
    }
}
