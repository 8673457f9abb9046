//! A run with the arguments of a program.

ghost use Rattle.std.specs.Prelude.{◌≡◌, [], drop, map, string_bytes, IfOk, IfErr, IfSome};
ghost use Rattle.std.specs.IoError.{error_kind};
ghost use Rattle.std.specs.Process.{exit_status};
ghost use Rattle.std.specs.Vec.Iter.{into_iter_items};
ghost use Rattle.css_outside.specs.Counts.{Rose};
ghost use Rattle.csslower.specs.Answers.{UsageFits, First, number_of};
ghost use Rattle.csslower.specs.Words.{sources_of};

use crate::judge::lack;
use crate::run::run;
use crate::status::Status;
use css_outside::{Files, Outbox};
use css_tokens::OutOfMemory;
use std::alloc::Global;
use std::env::Args;
use std::io;
use std::io::ErrorKind;
use std::process::ExitCode;
use work_pool::NoGate;

/// Runs with the words that follow a program's name, which is the first of its arguments. Arguments that are no text are no
/// command.
pub(crate) fn run_args<F: Files, O: Outbox>(
    alloc: Global,
    args: io::Result<Args>,
    files: &mut F,
    out: &mut O,
) -> Status
    ensures usage { (result ≡ Status.Memory → ⊥) → IfOk args (λ args. UsageFits (map string_bytes (drop 1 (into_iter_items args))) result) }
    ensures exactly { (Rose (F.faults files.old) (F.faults files.new) → ⊥) → (Rose (O.faults out.old) (O.faults out.new) → ⊥) → (result ≡ Status.Memory → ⊥) → IfOk args (λ args. let texts = map string_bytes (drop 1 (into_iter_items args)) in IfSome (sources_of texts (F.told files.old)) (λ sources. First texts sources result)) }
    ensures no_text { IfErr args (λ error. error_kind error ≡ ErrorKind.InvalidData → UsageFits [] result) }
    ensures no_memory { IfErr args (λ error. (error_kind error ≡ ErrorKind.InvalidData → ⊥) → result ≡ Status.Memory) }
{
    match args {
        Ok(args) => run_named(alloc, args, files, out),
        Err(error) => match error.kind() {
            ErrorKind::InvalidData => run(alloc, &[], files, out, &NoGate),
            _ => lack(out),
        },
    }
}

// Runs with these arguments.
fn run_named<F: Files, O: Outbox>(alloc: Global, args: Args, files: &mut F, out: &mut O) -> Status
    ensures usage { (result ≡ Status.Memory → ⊥) → UsageFits (map string_bytes (drop 1 (into_iter_items args))) result }
    ensures exactly { (Rose (F.faults files.old) (F.faults files.new) → ⊥) → (Rose (O.faults out.old) (O.faults out.new) → ⊥) → (result ≡ Status.Memory → ⊥) → let texts = map string_bytes (drop 1 (into_iter_items args)) in IfSome (sources_of texts (F.told files.old)) (λ sources. First texts sources result) }
{
    match words_after_name(alloc, args) {
        Ok(words) => run_words(alloc, words.as_slice(), files, out),
        Err(_) => lack(out),
    }
}

// The words after the program's name.
fn words_after_name(alloc: Global, args: Args) -> Result<Vec<String>, OutOfMemory>
    ensures { IfOk result (λ words. words.items ≡ drop 1 (into_iter_items args)) }
{
    let mut words = Vec::new(alloc);
    let mut args = args;
    let _name = args.next();
    while let Some(word) = args.next() {
        words.push(word)?;
    }
    Ok(words)
}

// Runs with these words.
fn run_words<F: Files, O: Outbox>(
    alloc: Global,
    words: &[String],
    files: &mut F,
    out: &mut O,
) -> Status
    ensures usage { (result ≡ Status.Memory → ⊥) → UsageFits (map string_bytes words.now) result }
    ensures exactly { (Rose (F.faults files.old) (F.faults files.new) → ⊥) → (Rose (O.faults out.old) (O.faults out.new) → ⊥) → (result ≡ Status.Memory → ⊥) → let texts = map string_bytes words.now in IfSome (sources_of texts (F.told files.old)) (λ sources. First texts sources result) }
{
    match texts(alloc, words) {
        Ok(texts) => run(alloc, texts.as_slice(), files, out, &NoGate),
        Err(_) => lack(out),
    }
}

// The words as texts that are borrowed.
fn texts(alloc: Global, words: &[String]) -> Result<Vec<&str>, OutOfMemory>
    ensures { IfOk result (λ texts. map (λ text. text.now) texts.items ≡ map string_bytes words.now) }
{
    let mut texts = Vec::new(alloc);
    for word in words {
        texts.push(word.as_str())?;
    }
    Ok(texts)
}

/// The exit code of a run: the number of its status.
pub(crate) fn exit_code(status: Status) -> ExitCode
    ensures { exit_status result ≡ number_of status }
{
    ExitCode::from(status.number())
}
