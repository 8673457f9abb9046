ghost use Rattle.std.specs.Prelude.{◌≡◌, ◌≢◌, ◌≤◌, OnOk, OnErr, IsSome};
ghost use Rattle.css_outside.specs.Counts.{Rose};
ghost use Rattle.css_outside.specs.Names.{Told};
ghost use Rattle.css_outside.specs.Putting.{message, IsReady, Puts};
ghost use Rattle.csslower.specs.Private.Putting.{PutsFront};

use css_outside::{Outbox, PutFailed};

// Puts a whole text under a name that is ready, an empty one once as an empty piece. What is left of it is put again
// only where some of it was taken.
pub(crate) fn put_text<O: Outbox>(out: &mut O, name: &str, text: &[u8]) -> Result<(), PutFailed>
    requires { IsReady (O.ready out.old) name.now }
    ensures ready { O.ready out.new ≡ O.ready out.old }
    ensures all { OnOk result (Told (O.held out.old) (O.held out.new) (Puts name.now text.now)) }
    ensures begun { OnOk result (Told (O.held out.old) (O.held out.new) (λ _ now. IsSome (now name.now))) }
    ensures front { Told (O.held out.old) (O.held out.new) (PutsFront name.now text.now) }
    ensures messages { O.message_faults out.old ≤ O.message_faults out.new }
    ensures others { O.faults out.old ≤ O.faults out.new }
    ensures own_messages { name.now ≢ message → O.message_faults out.new ≡ O.message_faults out.old }
    ensures own_others { name.now ≡ message → O.faults out.new ≡ O.faults out.old }
    ensures message_cause { OnErr result (name.now ≡ message → Rose (O.message_faults out.old) (O.message_faults out.new)) }
    ensures cause { OnErr result (name.now ≢ message → Rose (O.faults out.old) (O.faults out.new)) }
    ensures no_message_cause { OnOk result (O.message_faults out.new ≡ O.message_faults out.old) }
    ensures no_cause { OnOk result (O.faults out.new ≡ O.faults out.old) }
{
    let mut rest = text;
    loop {
        match out.put(name, rest) {
            Ok(count) if count == rest.len() => return Ok(()),
            Ok(count) if count > 0 => rest = &rest[count..],
            _ => return Err(PutFailed::Failed),
        }
    }
}
