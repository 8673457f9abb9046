mod arguments;
mod examples;
mod puts;
mod stingy;

use crate::run::run;
use crate::status::{Status, WordKind};
use css_outside::{MemoryFiles, MemoryOutbox};
use css_places::{Code, Finding, LimitKind, Place};
use css_tokens::{List, Text};
use std::alloc::Global;
use std::test::Fail;
use work_pool::NoGate;

const USAGE: &str =
    "csslower: usage: csslower ENTRY [--outfile=PATH] [--names=PATH] [--writing-mode=W] [--direction=D] [--workers=N]\n";

// One file, of which the first read fails if that is wanted.
fn one_file(
    alloc: Global,
    path: &'static str,
    bytes: Vec<u8>,
    fails: bool,
) -> Result<MemoryFiles<'static>, Fail> {
    let mut files = List::new(alloc);
    files.push((Text::lent(path), List::from_vec(bytes)))?;
    let mut failing = List::new(alloc);
    if fails {
        failing.push(1)?;
    }
    Ok(MemoryFiles::new(alloc, files, failing))
}

// Outputs with space for short texts.
fn outputs(alloc: Global) -> Result<MemoryOutbox, Fail> {
    let mut out = MemoryOutbox::new(alloc, 1000, List::new(alloc));
    out.reserve("-", 100)?;
    out.reserve("!", 200)?;
    Ok(out)
}

fn refused(code: Code) -> Status {
    let place = Place { file: 0, offset: 0 };
    Status::Refused(Finding { place, code })
}

#[test]
fn refuses_words_that_are_no_command(rt: HostRuntime) -> Result<(), Fail> {
    let rows: [&[&str]; 7] = [
        &[],
        &["a.css", "b.css"],
        &["../a.css"],
        &["--x"],
        &["."],
        &[""],
        &["c:a.css"],
    ];
    for words in rows {
        let mut files = one_file(rt.alloc(), "a.css", Vec::new(rt.alloc()), false)?;
        let mut out = outputs(rt.alloc())?;
        let status = run(rt.alloc(), words, &mut files, &mut out, &NoGate);
        assert_eq!(rt; status, Status::Usage(WordKind::Words));
        assert_eq!(rt; out.held("!"), Some(USAGE.as_bytes()));
        assert_eq!(rt; out.held("-"), None);
        assert_eq!(rt; files.paths_asked().len(), 0);
    }
    Ok(())
}

#[test]
fn refuses_a_file_that_is_not_there(rt: HostRuntime) -> Result<(), Fail> {
    let mut files = one_file(rt.alloc(), "b.css", Vec::new(rt.alloc()), false)?;
    let mut out = outputs(rt.alloc())?;
    let status = run(rt.alloc(), &["a.css"], &mut files, &mut out, &NoGate);
    assert_eq!(rt; status, refused(Code::Missing));
    assert_eq!(rt;
        out.held("!"),
        Some(b"a.css:1:1: Missing file not found\n".as_slice())
    );
    assert_eq!(rt; out.held("-"), None);
    assert_eq!(rt; files.paths_asked().len(), 1);
    Ok(())
}

#[test]
fn names_the_file_whose_read_fails(rt: HostRuntime) -> Result<(), Fail> {
    let mut files = one_file(rt.alloc(), "a.css", Vec::new(rt.alloc()), true)?;
    let mut out = outputs(rt.alloc())?;
    let status = run(rt.alloc(), &["a.css"], &mut files, &mut out, &NoGate);
    assert_eq!(rt; status, Status::ReadFault);
    assert_eq!(rt;
        out.held("!"),
        Some(b"csslower: cannot read a.css\n".as_slice())
    );
    assert_eq!(rt; out.held("-"), None);
    Ok(())
}

#[test]
fn ends_with_the_number_of_the_status(rt: HostRuntime) -> Result<(), Fail> {
    let rows = [
        (Status::Done, 0),
        (refused(Code::Missing), 1),
        (Status::Usage(WordKind::Words), 2),
        (Status::ReadFault, 3),
        (Status::WriteFault, 4),
        (Status::Memory, 5),
        (Status::Limit(LimitKind::L2), 6),
    ];
    for (status, number) in rows {
        assert_eq!(rt; status.number(), number);
    }
    Ok(())
}
