ghost use Rattle.std.specs.Prelude.{◌≡◌, ◌++◌, ◌≤◌, OnOk, OnErr};
ghost use Rattle.css_outside.specs.Counts.{Rose};
ghost use Rattle.css_outside.specs.Names.{Told};
ghost use Rattle.css_outside.specs.Putting.{message, Puts};
ghost use Rattle.csslower.specs.Lines.{unread_line};
ghost use Rattle.csslower.specs.Saying.{Says};
ghost use Rattle.csslower.specs.Writing.{SameOutputs};
ghost use Rattle.csslower.specs.Private.Putting.{PutsFront};

use crate::put_text::put_text;
use css_outside::{Outbox, PutFailed};

// Puts a line to standard error. Where a put fails, the rest is left out.
pub(crate) fn say<O: Outbox>(out: &mut O, line: &str)
    ensures ready { O.ready out.new ≡ O.ready out.old }
    ensures others { O.faults out.new ≡ O.faults out.old }
    ensures messages { O.message_faults out.old ≤ O.message_faults out.new }
    ensures held { Told (O.held out.old) (O.held out.new) SameOutputs }
    ensures said { Told (O.held out.old) (O.held out.new) (Says line.now (Rose (O.message_faults out.old) (O.message_faults out.new))) }
{
    let _ = put_text(out, "!", line.as_bytes());
}

// Puts the line to standard error that the file of a path could not be read.
pub(crate) fn say_unread<O: Outbox>(out: &mut O, path: &str)
    ensures ready { O.ready out.new ≡ O.ready out.old }
    ensures others { O.faults out.new ≡ O.faults out.old }
    ensures messages { O.message_faults out.old ≤ O.message_faults out.new }
    ensures held { Told (O.held out.old) (O.held out.new) SameOutputs }
    ensures said { Told (O.held out.old) (O.held out.new) (Says (unread_line path.now) (Rose (O.message_faults out.old) (O.message_faults out.new))) }
{
    let _ = put_three(out, b"csslower: cannot read ", path.as_bytes(), b"\n");
}

// Puts three texts to standard error one after another, up to where a put fails.
fn put_three<O: Outbox>(
    out: &mut O,
    first: &[u8],
    second: &[u8],
    third: &[u8],
) -> Result<(), PutFailed>
    ensures ready { O.ready out.new ≡ O.ready out.old }
    ensures others { O.faults out.new ≡ O.faults out.old }
    ensures messages { O.message_faults out.old ≤ O.message_faults out.new }
    ensures all { OnOk result (Told (O.held out.old) (O.held out.new) (Puts message (first.now ++ second.now ++ third.now))) }
    ensures front { Told (O.held out.old) (O.held out.new) (PutsFront message (first.now ++ second.now ++ third.now)) }
    ensures cause { OnErr result (Rose (O.message_faults out.old) (O.message_faults out.new)) }
{
    match put_two(out, first, second) {
        Ok(()) => put_text(out, "!", third),
        Err(fault) => Err(fault),
    }
}

// Puts two texts to standard error one after the other, up to where a put fails.
fn put_two<O: Outbox>(out: &mut O, first: &[u8], second: &[u8]) -> Result<(), PutFailed>
    ensures ready { O.ready out.new ≡ O.ready out.old }
    ensures others { O.faults out.new ≡ O.faults out.old }
    ensures messages { O.message_faults out.old ≤ O.message_faults out.new }
    ensures all { OnOk result (Told (O.held out.old) (O.held out.new) (Puts message (first.now ++ second.now))) }
    ensures front { Told (O.held out.old) (O.held out.new) (PutsFront message (first.now ++ second.now)) }
    ensures cause { OnErr result (Rose (O.message_faults out.old) (O.message_faults out.new)) }
{
    match put_text(out, "!", first) {
        Ok(()) => put_text(out, "!", second),
        Err(fault) => Err(fault),
    }
}
