ghost use Rattle.std.specs.Prelude.{◌≡◌};
ghost use Rattle.css_outside.specs.Counts.{Rose};
ghost use Rattle.css_outside.specs.Names.{Told};
ghost use Rattle.csslower.specs.Lines.{limit_line};
ghost use Rattle.csslower.specs.Saying.{Says};
ghost use Rattle.csslower.specs.Writing.{SameOutputs};

use crate::say::say;
use crate::status::Status;
use css_outside::Outbox;
use css_places::LimitKind;

// The answer where a limit is passed. Puts its line to standard error.
pub(crate) fn exceed<O: Outbox>(out: &mut O, kind: LimitKind) -> Status
    ensures answer { result ≡ Status.Limit kind }
    ensures ready { O.ready out.new ≡ O.ready out.old }
    ensures others { O.faults out.new ≡ O.faults out.old }
    ensures held { Told (O.held out.old) (O.held out.new) SameOutputs }
    ensures said { Told (O.held out.old) (O.held out.new) (Says (limit_line kind) (Rose (O.message_faults out.old) (O.message_faults out.new))) }
{
    say(out, limit_text(kind));
    Status::Limit(kind)
}

// The line for a limit that is passed.
fn limit_text(kind: LimitKind) -> &'static str
    ensures { result.now ≡ limit_line kind }
{
    match kind {
        LimitKind::L2 => "csslower: limit L2 passed\n",
        LimitKind::L8 => "csslower: limit L8 passed\n",
    }
}
