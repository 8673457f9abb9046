ghost use Rattle.std.specs.Prelude.{◌≡◌, map, IfSome};
ghost use Rattle.css_outside.specs.Counts.{Rose};
ghost use Rattle.css_outside.specs.Names.{Names, Told};
ghost use Rattle.csslower.specs.Answers.{UsageFits, LimitFits, RefusalFits, WritingFits, IsFirstOfSources, First, HasFirst};
ghost use Rattle.csslower.specs.Private.Stages.{IsOfCommand};
ghost use Rattle.csslower.specs.Leaving.{Leaves, TargetFits, WinnersFit, ReadyFits, AsksFor};
ghost use Rattle.csslower.specs.Saying.{Said};
ghost use Rattle.csslower.specs.Words.{entry_path, sources_of, stylesheet_name};
ghost use Rattle.csslower.specs.Writing.{standard};

use crate::exceed::exceed;
use crate::judge::{finding_at, judge, lack};
use crate::laws::first_answer;
use crate::load::{Load, read_whole};
use crate::refuse::refuse;
use crate::say::{say, say_unread};
use crate::status::{Status, WordKind};
use crate::words::entry;
use css_outside::{Files, Outbox};
use css_places::{Code, LimitKind};
use std::alloc::Global;
use work_pool::Gate;

/// Reads the stylesheet that the words name, and writes it for older browsers to standard output. An answer other than
/// `Done` puts its line to standard error.
pub fn run<F: Files, O: Outbox, G: Gate + Sync>(
    alloc: Global,
    words: &[&str],
    files: &mut F,
    out: &mut O,
    _gate: &G,
) -> Status
    ensures usage { UsageFits (map (λ word. word.now) words.now) result }
    ensures winners { let texts = map (λ word. word.now) words.now in IfSome (sources_of texts (F.told files.old)) (λ sources. WinnersFit (stylesheet_name texts) (entry_path texts) sources (O.held out.old) (O.held out.new) result) }
    ensures target { TargetFits (stylesheet_name (map (λ word. word.now) words.now)) (O.held out.old) (O.held out.new) result }
    ensures limit { let texts = map (λ word. word.now) words.now in IfSome (sources_of texts (F.told files.old)) (λ sources. LimitFits (entry_path texts) sources result) }
    ensures refused { let texts = map (λ word. word.now) words.now in IfSome (sources_of texts (F.told files.old)) (λ sources. RefusalFits (entry_path texts) sources result) }
    ensures accepted { let texts = map (λ word. word.now) words.now in IfSome (sources_of texts (F.told files.old)) (λ sources. WritingFits (entry_path texts) sources result) }
    ensures exactly { (Rose (F.faults files.old) (F.faults files.new) → ⊥) → (Rose (O.faults out.old) (O.faults out.new) → ⊥) → (result ≡ Status.Memory → ⊥) → let texts = map (λ word. word.now) words.now in IfSome (sources_of texts (F.told files.old)) (λ sources. First texts sources result) }
    ensures one_answer { (sources : Names) → HasFirst (map (λ word. word.now) words.now) sources }
    ensures read_fault { result ≡ Status.ReadFault → Rose (F.faults files.old) (F.faults files.new) }
    ensures no_read_fault { (result ≡ Status.ReadFault → ⊥) → F.faults files.new ≡ F.faults files.old }
    ensures write_fault { result ≡ Status.WriteFault → Rose (O.faults out.old) (O.faults out.new) }
    ensures no_write_fault { (result ≡ Status.WriteFault → ⊥) → O.faults out.new ≡ O.faults out.old }
    ensures no_message_fault { result ≡ Status.Done → O.message_faults out.new ≡ O.message_faults out.old }
    ensures held { Leaves (stylesheet_name (map (λ word. word.now) words.now)) (O.held out.old) (O.held out.new) result }
    ensures asked { IfSome (F.told files.old) (λ _. AsksFor (entry_path (map (λ word. word.now) words.now)) (F.asked files.old) (F.asked files.new) result) }
    ensures ready { ReadyFits (stylesheet_name (map (λ word. word.now) words.now)) (O.ready out.old) (O.ready out.new) result }
    ensures said { let texts = map (λ word. word.now) words.now in Told (O.held out.old) (O.held out.new) (Said (stylesheet_name texts) (entry_path texts) (sources_of texts (F.told files.old)) (Rose (O.message_faults out.old) (O.message_faults out.new)) result) }
{
    first_answer();
    match entry(words) {
        Some(path) => run_entry(alloc, path, files, out),
        None => {
            say(
                out,
                "csslower: usage: csslower ENTRY [--outfile=PATH] [--names=PATH] [--writing-mode=W] [--direction=D] [--workers=N]\n",
            );
            Status::Usage(WordKind::Words)
        }
    }
}

// Runs with this entry.
fn run_entry<F: Files, O: Outbox>(alloc: Global, path: &str, files: &mut F, out: &mut O) -> Status
    ensures command { IsOfCommand result }
    ensures winners { IfSome (F.told files.old) (λ sources. WinnersFit standard path.now sources (O.held out.old) (O.held out.new) result) }
    ensures target { TargetFits standard (O.held out.old) (O.held out.new) result }
    ensures limit { IfSome (F.told files.old) (λ sources. LimitFits path.now sources result) }
    ensures refused { IfSome (F.told files.old) (λ sources. RefusalFits path.now sources result) }
    ensures accepted { IfSome (F.told files.old) (λ sources. WritingFits path.now sources result) }
    ensures exactly { (Rose (F.faults files.old) (F.faults files.new) → ⊥) → (Rose (O.faults out.old) (O.faults out.new) → ⊥) → (result ≡ Status.Memory → ⊥) → IfSome (F.told files.old) (λ sources. IsFirstOfSources path.now sources result) }
    ensures read_fault { result ≡ Status.ReadFault → Rose (F.faults files.old) (F.faults files.new) }
    ensures no_read_fault { (result ≡ Status.ReadFault → ⊥) → F.faults files.new ≡ F.faults files.old }
    ensures write_fault { result ≡ Status.WriteFault → Rose (O.faults out.old) (O.faults out.new) }
    ensures no_write_fault { (result ≡ Status.WriteFault → ⊥) → O.faults out.new ≡ O.faults out.old }
    ensures no_message_fault { result ≡ Status.Done → O.message_faults out.new ≡ O.message_faults out.old }
    ensures held { Leaves standard (O.held out.old) (O.held out.new) result }
    ensures asked { IfSome (F.told files.old) (λ _. AsksFor path.now (F.asked files.old) (F.asked files.new) result) }
    ensures ready { ReadyFits standard (O.ready out.old) (O.ready out.new) result }
    ensures said { Told (O.held out.old) (O.held out.new) (Said standard path.now (F.told files.old) (Rose (O.message_faults out.old) (O.message_faults out.new)) result) }
{
    match read_whole(alloc, path, files) {
        Load::Whole(source) => judge(alloc, path, source.as_slice(), out),
        Load::Long => exceed(out, LimitKind::L2),
        Load::Missing => refuse(alloc, path, &[], finding_at(0, Code::Missing), out),
        Load::Failed => {
            say_unread(out, path);
            Status::ReadFault
        }
        Load::Memory => lack(out),
    }
}
