use super::one_file;
use crate::run::run;
use crate::status::Status;
use css_outside::MemoryOutbox;
use css_tokens::List;
use std::test::Fail;
use work_pool::NoGate;

#[test]
fn writes_by_five_bytes_a_put(rt: HostRuntime) -> Result<(), Fail> {
    let text = Vec::from_slice(rt.alloc(), b".a { color: red }")?;
    let mut files = one_file(rt.alloc(), "a.css", text, false)?;
    let mut out = MemoryOutbox::new(rt.alloc(), 5, List::new(rt.alloc()));
    out.reserve("-", 14)?;
    let status = run(rt.alloc(), &["a.css"], &mut files, &mut out, &NoGate);
    assert_eq!(rt; status, Status::Done);
    assert_eq!(rt; out.held("-"), Some(b".a{color:red}\n".as_slice()));
    Ok(())
}

#[test]
fn stops_at_a_put_that_fails(rt: HostRuntime) -> Result<(), Fail> {
    let text = Vec::from_slice(rt.alloc(), b".a { color: red }")?;
    let mut files = one_file(rt.alloc(), "a.css", text, false)?;
    let mut out = MemoryOutbox::new(rt.alloc(), 5, List::from_vec(vec![in rt.alloc(); 2]?));
    out.reserve("-", 14)?;
    out.reserve("!", 100)?;
    let status = run(rt.alloc(), &["a.css"], &mut files, &mut out, &NoGate);
    assert_eq!(rt; status, Status::WriteFault);
    assert_eq!(rt; out.held("-"), Some(b".a{co".as_slice()));
    assert_eq!(rt;
        out.held("!"),
        Some(b"csslower: cannot write -\n".as_slice())
    );
    Ok(())
}

#[test]
fn puts_an_empty_text_once(rt: HostRuntime) -> Result<(), Fail> {
    let rows: [(u32, Status, Option<&[u8]>, Option<&[u8]>); 2] = [
        (2, Status::Done, Some(b"".as_slice()), None),
        (
            1,
            Status::WriteFault,
            None,
            Some(b"csslower: cannot write -\n".as_slice()),
        ),
    ];
    for (failing, answer, written, line) in rows {
        let mut files = one_file(rt.alloc(), "a.css", Vec::new(rt.alloc()), false)?;
        let failing = List::from_vec(vec![in rt.alloc(); failing]?);
        let mut out = MemoryOutbox::new(rt.alloc(), 5, failing);
        out.reserve("-", 0)?;
        out.reserve("!", 100)?;
        let status = run(rt.alloc(), &["a.css"], &mut files, &mut out, &NoGate);
        assert_eq!(rt; status, answer);
        assert_eq!(rt; out.held("-"), written);
        assert_eq!(rt; out.held("!"), line);
    }
    Ok(())
}
