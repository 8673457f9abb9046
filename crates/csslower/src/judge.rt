ghost use Rattle.std.specs.Prelude.{◌≡◌, ◌≤◌, Some, ℕ, List, Option, length};
ghost use Rattle.css_outside.specs.Counts.{Rose};
ghost use Rattle.css_outside.specs.Names.{Names, Told};
ghost use Rattle.csslower.specs.Answers.{LimitFits, RefusalFits, WritingFits, IsFirstOfSources};
ghost use Rattle.csslower.specs.Private.Loading.{alike};
ghost use Rattle.csslower.specs.Private.Stages.{IsOfText, IsOfWriting};
ghost use Rattle.csslower.specs.Leaving.{Leaves, TargetFits, WinnersFit, ReadyFits};
ghost use Rattle.csslower.specs.Private.Putting.{Writes};
ghost use Rattle.css_outside.specs.Putting.{IsReady};
ghost use Rattle.csslower.specs.Lines.{memory_line};
ghost use Rattle.csslower.specs.Saying.{Said, Says};
ghost use Rattle.csslower.specs.Writing.{standard, SameOutputs};

use crate::exceed::exceed;
use crate::one_file::rewrite;
use crate::put_text::put_text;
use crate::refuse::refuse;
use crate::say::say;
use crate::status::Status;
use crate::text_fault::TextFault;
use crate::words::is_scoped;
use css_outside::Outbox;
use css_places::{Code, Finding, Place};
use std::alloc::Global;

// Writes the file of this path and text again, or refuses it.
pub(crate) fn judge<O: Outbox>(alloc: Global, path: &str, source: &[u8], out: &mut O) -> Status
    requires { length source.now ≤ 4194304 }
    ensures text { IsOfText result }
    ensures winners { WinnersFit standard path.now (alike source.now) (O.held out.old) (O.held out.new) result }
    ensures target { TargetFits standard (O.held out.old) (O.held out.new) result }
    ensures limit { LimitFits path.now (alike source.now) result }
    ensures refused { RefusalFits path.now (alike source.now) result }
    ensures accepted { WritingFits path.now (alike source.now) result }
    ensures exactly { (Rose (O.faults out.old) (O.faults out.new) → ⊥) → (result ≡ Status.Memory → ⊥) → IsFirstOfSources path.now (alike source.now) result }
    ensures write_fault { result ≡ Status.WriteFault → Rose (O.faults out.old) (O.faults out.new) }
    ensures no_write_fault { (result ≡ Status.WriteFault → ⊥) → O.faults out.new ≡ O.faults out.old }
    ensures no_message_fault { result ≡ Status.Done → O.message_faults out.new ≡ O.message_faults out.old }
    ensures held { Leaves standard (O.held out.old) (O.held out.new) result }
    ensures ready { ReadyFits standard (O.ready out.old) (O.ready out.new) result }
    ensures said { Told (O.held out.old) (O.held out.new) (Said standard path.now (Some (alike source.now)) (Rose (O.message_faults out.old) (O.message_faults out.new)) result) }
{
    if is_scoped(path) {
        return refuse(alloc, path, source, finding_at(0, Code::Unbuilt), out);
    }
    match rewrite(alloc, source) {
        Ok(text) => write(out, text.as_slice()),
        Err(TextFault::Finding { code, offset }) => {
            refuse(alloc, path, source, finding_at(offset, code), out)
        }
        Err(TextFault::Limit(kind)) => exceed(out, kind),
        Err(TextFault::Memory) => lack(out),
    }
}

// A finding in the one file.
pub(crate) fn finding_at(offset: u32, code: Code) -> Finding
    ensures file { result.place.file ≡ 0 }
    ensures offset { result.place.offset ≡ offset }
    ensures code { result.code ≡ code }
{
    let place = Place { file: 0, offset };
    Finding { place, code }
}

// Puts the text to standard output.
fn write<O: Outbox>(out: &mut O, text: &[u8]) -> Status
    ensures written { Writes text.now (O.held out.old) (O.held out.new) result }
    ensures write_fault { result ≡ Status.WriteFault → Rose (O.faults out.old) (O.faults out.new) }
    ensures no_write_fault { (result ≡ Status.WriteFault → ⊥) → O.faults out.new ≡ O.faults out.old }
    ensures no_message_fault { result ≡ Status.Done → O.message_faults out.new ≡ O.message_faults out.old }
    ensures ready { ReadyFits standard (O.ready out.old) (O.ready out.new) result }
    ensures said { (path : List ℕ) (sources : Option Names) → Told (O.held out.old) (O.held out.new) (Said standard path sources (Rose (O.message_faults out.old) (O.message_faults out.new)) result) }
{
    match out.make_ready("-") {
        Ok(()) => write_ready(out, text),
        Err(_) => lack(out),
    }
}

// Puts the text to standard output, which is ready.
fn write_ready<O: Outbox>(out: &mut O, text: &[u8]) -> Status
    requires { IsReady (O.ready out.old) standard }
    ensures answer { IsOfWriting result }
    ensures written { Writes text.now (O.held out.old) (O.held out.new) result }
    ensures write_fault { result ≡ Status.WriteFault → Rose (O.faults out.old) (O.faults out.new) }
    ensures no_write_fault { (result ≡ Status.WriteFault → ⊥) → O.faults out.new ≡ O.faults out.old }
    ensures no_message_fault { result ≡ Status.Done → O.message_faults out.new ≡ O.message_faults out.old }
    ensures ready { O.ready out.new ≡ O.ready out.old }
    ensures said { (path : List ℕ) (sources : Option Names) → Told (O.held out.old) (O.held out.new) (Said standard path sources (Rose (O.message_faults out.old) (O.message_faults out.new)) result) }
{
    match put_text(out, "-", text) {
        Ok(()) => Status::Done,
        Err(_) => {
            say(out, "csslower: cannot write -\n");
            Status::WriteFault
        }
    }
}

// The answer where memory is refused.
pub(crate) fn lack<O: Outbox>(out: &mut O) -> Status
    ensures answer { result ≡ Status.Memory }
    ensures ready { O.ready out.new ≡ O.ready out.old }
    ensures others { O.faults out.new ≡ O.faults out.old }
    ensures held { Told (O.held out.old) (O.held out.new) SameOutputs }
    ensures said { Told (O.held out.old) (O.held out.new) (Says memory_line (Rose (O.message_faults out.old) (O.message_faults out.new))) }
{
    say(out, "csslower: out of memory\n");
    Status::Memory
}
