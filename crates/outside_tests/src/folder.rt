use crate::builders::{numbered, put_ready, put_rows};
use css_outside::{Files, FilesFault, FolderFiles, FolderOutbox, PutFailed};
use std::fs;
use std::test::Fail;

#[test]
fn reads_the_first_bytes_of_real_files(rt: HostRuntime) -> Result<(), Fail> {
    fs::write(&rt, "a.css", "abcdef")?;
    let mut files = FolderFiles::new(rt);
    for (path, most, want) in [
        ("a.css", 9, "abcdef"),
        ("a.css", 4, "abcd"),
        ("a.css", 0, ""),
    ] {
        match files.read(rt.alloc(), path, most) {
            Ok(Some(bytes)) => assert_eq!(rt; bytes.as_slice(), want.as_bytes()),
            _ => assert!(rt; false, "{path} was not read"),
        }
    }
    assert!(rt; matches!(files.read(rt.alloc(), "no.css", 9), Ok(None)));
    assert!(rt; matches!(files.read(rt.alloc(), ".", 9), Err(FilesFault::Failed)));
    fs::remove_file(&rt, "a.css")?;
    Ok(())
}

#[test]
fn writes_real_files_and_streams(rt: HostRuntime) -> Result<(), Fail> {
    fs::write(&rt, "old.css", "a long old text")?;
    let mut outbox = FolderOutbox::new(rt, rt.alloc());
    let rows = [
        ("new.css", "ab", Ok(2)),
        ("new.css", "cd", Ok(2)),
        ("old.css", "x", Ok(1)),
        ("empty.css", "", Ok(0)),
        ("-", "out\n", Ok(4)),
        ("!", "message\n", Ok(8)),
        ("none/a.css", "x", Err(PutFailed::Failed)),
    ];
    put_rows(&rt, &mut outbox, &rows);
    for (name, want) in [("new.css", "abcd"), ("old.css", "x"), ("empty.css", "")] {
        assert_eq!(rt; fs::read_to_string(&rt, name)?.as_str(), want);
        fs::remove_file(&rt, name)?;
    }
    Ok(())
}

#[test]
fn writes_and_reads_a_mebibyte(rt: HostRuntime) -> Result<(), Fail> {
    let text = vec![in rt.alloc(); b'x'; 1_048_576]?;
    let mut outbox = FolderOutbox::new(rt, rt.alloc());
    let mut rest = text.as_slice();
    for _ in 0..1_048_576 {
        match put_ready(&mut outbox, "large.css", rest) {
            Ok(count) if count < rest.len() => rest = &rest[count..],
            _ => break,
        }
    }
    let mut files = FolderFiles::new(rt);
    for (most, count) in [(2_000_000, 1_048_576), (1_048_575, 1_048_575)] {
        match files.read(rt.alloc(), "large.css", most) {
            Ok(Some(bytes)) => assert_eq!(rt; Some(bytes.as_slice()), text.get(..count)),
            _ => assert!(rt; false, "large.css was not read"),
        }
    }
    fs::remove_file(&rt, "large.css")?;
    Ok(())
}

#[test]
fn writes_a_hundred_files(rt: HostRuntime) -> Result<(), Fail> {
    let mut outbox = FolderOutbox::new(rt, rt.alloc());
    for at in 0..1_000 {
        let name = numbered(rt.alloc(), at % 100)?;
        assert_eq!(rt; put_ready(&mut outbox, name.as_str(), b"p{a:b}\n"), Ok(7));
    }
    for number in 0..100 {
        let name = numbered(rt.alloc(), number)?;
        let text = fs::read_to_string(&rt, name.as_str())?;
        assert_eq!(rt; text.len(), 70);
        fs::remove_file(&rt, name.as_str())?;
    }
    Ok(())
}
