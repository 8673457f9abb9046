use super::{one_file, outputs};
use crate::args::run_args;
use crate::status::{Status, WordKind};
use css_outside::MemoryOutbox;
use std::alloc::{AllocError, Global};
use std::io;
use std::io::ErrorKind;
use std::test::Fail;

// Runs over the file a.css with these arguments.
fn run_over_a(alloc: Global, args: &[&str], out: &mut MemoryOutbox) -> Result<Status, Fail> {
    let mut files = one_file(alloc, "a.css", Vec::from_slice(alloc, b"p{a:b}")?, false)?;
    let mut list = Vec::new(alloc);
    for arg in args {
        list.push(String::from_str(alloc, arg)?)?;
    }
    Ok(run_args(alloc, Ok(list.into_iter()), &mut files, out))
}

#[test]
fn takes_the_words_after_the_name(rt: HostRuntime) -> Result<(), Fail> {
    let rows: [(&[&str], Status); 6] = [
        (&["csslower", "a.css"], Status::Done),
        (&["a.css", "a.css"], Status::Done),
        (&["", "a.css"], Status::Done),
        (&[], Status::Usage(WordKind::Words)),
        (&["a.css"], Status::Usage(WordKind::Words)),
        (
            &["csslower", "a.css", "a.css"],
            Status::Usage(WordKind::Words),
        ),
    ];
    for (args, answer) in rows {
        let mut out = outputs(rt.alloc())?;
        assert_eq!(rt; run_over_a(rt.alloc(), args, &mut out)?, answer);
    }
    Ok(())
}

#[test]
fn takes_arguments_that_are_no_text_for_no_command(rt: HostRuntime) -> Result<(), Fail> {
    let rows = [
        (
            io::Error::from(ErrorKind::InvalidData),
            Status::Usage(WordKind::Words),
        ),
        (io::Error::from(AllocError), Status::Memory),
    ];
    for (error, answer) in rows {
        let mut files = one_file(rt.alloc(), "a.css", Vec::new(rt.alloc()), false)?;
        let mut out = outputs(rt.alloc())?;
        let status = run_args(rt.alloc(), Err(error), &mut files, &mut out);
        assert_eq!(rt; status, answer);
        assert_eq!(rt; out.held("-"), None);
    }
    Ok(())
}
