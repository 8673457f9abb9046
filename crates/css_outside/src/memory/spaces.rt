ghost use Rattle.std.specs.Prelude.{◌≡◌, Some, length, is_ok, max, OnOk, OnErr, IsSome, position};
ghost use Rattle.std.specs.Option.{option_map, unwrap_or};
ghost use Rattle.css_outside.specs.Spaces.{held_in, is_named, room_in};
ghost use Rattle.css_outside.specs.Names.{Same};
ghost use Rattle.css_outside.specs.Putting.{Puts};
ghost use Rattle.css_outside.specs.Rooms.{fits, TakesRoom, SameRooms, SameOtherRooms};

use super::space::Space;
use crate::PutFailed;
use css_tokens::OutOfMemory;
use std::alloc::Global;

// Makes space for more bytes under a name.
pub(super) fn widen_under(
    spaces: &mut Vec<Space>,
    alloc: Global,
    name: &str,
    bytes: usize,
) -> Result<(), OutOfMemory>
    ensures held { Same (held_in spaces.old.items) (held_in spaces.new.items) }
    ensures room { OnOk result (room_in spaces.new.items name.now ≡ Some (max bytes (unwrap_or (room_in spaces.old.items name.now) 0))) }
    ensures others { SameOtherRooms name.now (room_in spaces.old.items) (room_in spaces.new.items) }
    ensures err { OnErr result (SameRooms (room_in spaces.old.items) (room_in spaces.new.items)) }
{
    match place(spaces.as_slice(), name) {
        Some(at) => spaces[at].widen(bytes),
        None => Ok(spaces.push(Space::new(alloc, name, bytes)?)?),
    }
}

// Adds bytes under a name where they fit its space.
pub(super) fn add_under(spaces: &mut Vec<Space>, name: &str, piece: &[u8]) -> Result<(), PutFailed>
    ensures answer { is_ok result ≡ fits (room_in spaces.old.items name.now) (length piece.now) }
    ensures ok { OnOk result (Puts name.now piece.now (held_in spaces.old.items) (held_in spaces.new.items)) }
    ensures begun { OnOk result (IsSome (held_in spaces.new.items name.now)) }
    ensures room { OnOk result (TakesRoom name.now (length piece.now) (room_in spaces.old.items) (room_in spaces.new.items)) }
    ensures err { OnErr result (spaces.new.items ≡ spaces.old.items) }
{
    match place(spaces.as_slice(), name) {
        Some(at) => spaces[at].add(piece),
        None => Err(PutFailed::Failed),
    }
}

// The bytes under a name, once there was a put to it.
pub(super) fn held_under<'s>(spaces: &'s [Space], name: &str) -> Option<&'s [u8]>
    ensures { option_map (λ bytes. bytes.now) result ≡ held_in spaces.now name.now }
{
    match place(spaces, name) {
        Some(at) => spaces[at].held(),
        None => None,
    }
}

// Where the space of a name stands, if it has one.
fn place(spaces: &[Space], name: &str) -> Option<usize>
    ensures { result ≡ position (is_named name.now) spaces.now }
{
    spaces.iter().position(|space| space.name.as_str() == name)
}
