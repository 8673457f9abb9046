use crate::builders::{FileList, add, are_distinct, numbered};
use css_outside::{Files, FilesFault, MemoryFiles, SureFiles};
use css_tokens::{List, Text};
use std::alloc::Global;
use std::process::Abort;
use std::test::Fail;

#[test]
fn reads_the_first_bytes_of_files(rt: HostRuntime) -> Result<(), Fail> {
    let alloc = rt.alloc();
    let mut list = List::new(alloc);
    add(alloc, &mut list, "a.css", "abcdef")?;
    add(alloc, &mut list, "b.css", "xyz")?;
    assert!(rt; are_distinct(list.as_slice()));
    let mut files = SureFiles::new(alloc, list);
    for (path, want) in [("a.css", "abcd"), ("b.css", "xyz")] {
        match files.read(alloc, path, 4) {
            Ok(Some(bytes)) => assert_eq!(rt; bytes.as_slice(), want.as_bytes()),
            _ => assert!(rt; false, "{path} was not read"),
        }
    }
    assert!(rt; matches!(files.read(alloc, "c.css", 4), Ok(None)));
    let asked = files.paths_asked();
    assert_eq!(rt; asked.len(), 3);
    assert_eq!(rt; asked[2].as_str(), "c.css");
    Ok(())
}

// One file, of which the reads of these numbers fail.
fn failing_at(alloc: Global, numbers: Vec<u32>) -> Result<MemoryFiles<'static>, Fail> {
    let mut list = List::new(alloc);
    list.push((
        Text::lent("a.css"),
        List::from_vec(Vec::from_slice(alloc, b"abc")?),
    ))?;
    Ok(MemoryFiles::new(alloc, list, List::from_vec(numbers)))
}

#[test]
fn fails_a_read_of_a_given_number(rt: HostRuntime) -> Result<(), Fail> {
    let alloc = rt.alloc();
    let mut files = failing_at(alloc, vec![in alloc; 2]?)?;
    assert!(rt; matches!(files.read(alloc, "a.css", 4), Ok(Some(_))));
    assert!(rt; matches!(files.read(alloc, "a.css", 4), Err(FilesFault::Failed)));
    assert!(rt; matches!(files.read(alloc, "b.css", 4), Ok(None)));
    assert_eq!(rt; files.paths_asked().len(), 3);
    Ok(())
}

#[test]
fn fails_each_read_whose_number_is_given(rt: HostRuntime) -> Result<(), Fail> {
    let alloc = rt.alloc();
    let mut files = failing_at(alloc, vec![in alloc; 3, 1]?)?;
    for fails in [true, false, true, false] {
        match files.read(alloc, "a.css", 4) {
            Err(FilesFault::Failed) => assert!(rt; fails, "a read failed"),
            Ok(Some(bytes)) => assert_eq!(rt;
                (fails, bytes.as_slice()),
                (false, b"abc".as_slice())
            ),
            _ => assert!(rt; false, "a.css is there"),
        }
    }
    Ok(())
}

// Files 0.css to 999.css, each of which holds its own path, and large.css of 1 MiB.
fn many_files(alloc: Global) -> Result<FileList, Fail> {
    let mut list = List::new(alloc);
    for number in 0..1_000 {
        let path = numbered(alloc, number)?;
        let bytes = List::from_vec(Vec::from_slice(alloc, path.as_bytes())?);
        list.push((Text::owned(path), bytes))?;
    }
    let bytes = List::from_vec(vec![in alloc; b'x'; 1_048_576]?);
    list.push((Text::lent("large.css"), bytes))?;
    Ok(list)
}

// Reads the files with a number, but for the one whose read fails.
fn read_numbered<F: Files>(
    rt: &impl Abort,
    alloc: Global,
    files: &mut F,
    failing: Option<u32>,
) -> Result<(), Fail> {
    for number in 0..1_000 {
        let path = numbered(alloc, number)?;
        match files.read(alloc, path.as_str(), 100) {
            Ok(Some(bytes)) => assert_eq!(rt; bytes.as_slice(), path.as_bytes()),
            Err(FilesFault::Failed) => assert_eq!(rt; Some(number), failing),
            _ => assert!(rt; false, "{path} was not read"),
        }
    }
    Ok(())
}

// Reads the file of 1 MiB, and but for its last byte.
fn read_large<F: Files>(rt: &impl Abort, alloc: Global, files: &mut F) {
    for (most, count) in [(2_000_000, 1_048_576), (1_048_575, 1_048_575)] {
        match files.read(alloc, "large.css", most) {
            Ok(Some(bytes)) => {
                assert_eq!(rt; bytes.len(), count);
                assert!(rt; bytes.as_slice().iter().all(|byte| *byte == b'x'));
            }
            _ => assert!(rt; false, "large.css was not read"),
        }
    }
}

#[test]
fn reads_a_thousand_files(rt: HostRuntime) -> Result<(), Fail> {
    let alloc = rt.alloc();
    let list = many_files(alloc)?;
    assert!(rt; are_distinct(list.as_slice()));
    let mut files = SureFiles::new(alloc, list);
    read_numbered(&rt, alloc, &mut files, None)?;
    read_large(&rt, alloc, &mut files);
    assert_eq!(rt; files.paths_asked().len(), 1_002);
    Ok(())
}

#[test]
fn fails_one_read_of_a_thousand(rt: HostRuntime) -> Result<(), Fail> {
    let alloc = rt.alloc();
    let list = many_files(alloc)?;
    assert!(rt; are_distinct(list.as_slice()));
    let mut files = MemoryFiles::new(alloc, list, List::from_vec(vec![in alloc; 500]?));
    read_numbered(&rt, alloc, &mut files, Some(499))?;
    read_large(&rt, alloc, &mut files);
    assert_eq!(rt; files.paths_asked().len(), 1_002);
    Ok(())
}
