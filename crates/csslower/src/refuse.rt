ghost use Rattle.std.specs.Prelude.{◌≡◌, ◌++◌, ◌≤◌, IfOk, length, string_bytes};
ghost use Rattle.css_outside.specs.Counts.{Rose};
ghost use Rattle.css_outside.specs.Names.{Told};
ghost use Rattle.csslower.specs.Lines.{code_text, refusal_line};
ghost use Rattle.csslower.specs.Saying.{SaysOrNot};
ghost use Rattle.csslower.specs.Writing.{SameOutputs};

use crate::say::say;
use crate::status::Status;
use css_outside::Outbox;
use css_places::{Code, Finding, line_column};
use css_tokens::OutOfMemory;
use std::alloc::Global;

// The refusal of a file. Puts its line to standard error, or nothing where memory is refused.
pub(crate) fn refuse<O: Outbox>(
    alloc: Global,
    path: &str,
    source: &[u8],
    finding: Finding,
    out: &mut O,
) -> Status
    requires short { length source.now ≤ 4194304 }
    ensures answer { result ≡ Status.Refused finding }
    ensures ready { O.ready out.new ≡ O.ready out.old }
    ensures others { O.faults out.new ≡ O.faults out.old }
    ensures messages { O.message_faults out.old ≤ O.message_faults out.new }
    ensures held { Told (O.held out.old) (O.held out.new) SameOutputs }
    ensures said { Told (O.held out.old) (O.held out.new) (SaysOrNot (refusal_line path.now source.now finding) (Rose (O.message_faults out.old) (O.message_faults out.new))) }
{
    if let Ok(line) = refusal_line(alloc, path, source, finding) {
        say(out, line.as_str());
    }
    Status::Refused(finding)
}

// The line of a refusal of a file of this path and text.
fn refusal_line(
    alloc: Global,
    path: &str,
    source: &[u8],
    finding: Finding,
) -> Result<String, OutOfMemory>
    requires short { length source.now ≤ 4194304 }
    ensures { IfOk result (λ line. string_bytes line ≡ refusal_line path.now source.now finding) }
{
    let at = line_column(source, finding.place.offset);
    let text = code_text(finding.code);
    Ok(format!(in alloc; "{path}:{}:{}: {text}\n", at.line, at.column)?)
}

// The name of a code, and what it says.
fn code_text(code: Code) -> &'static str
    ensures { result.now ≡ code_text code }
{
    match code {
        Code::Syntax => "Syntax cannot be read",
        Code::Depth => "Depth nested too deep",
        Code::LateImport => "LateImport import comes too late",
        Code::Missing => "Missing file not found",
        Code::Unbuilt => "Unbuilt not built yet",
        Code::X6 => "X6 :where",
        Code::X7 => "X7 :not of other than one simple selector",
        Code::X11 => "X11 functional pseudo",
        Code::X12 => "X12 at-rule",
        Code::X16 => "X16 unknown feature under not",
        Code::X17 => "X17 supports function",
        Code::X22 => "X22 attribute flag",
    }
}
