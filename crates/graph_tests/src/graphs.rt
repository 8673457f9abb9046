ghost use Rattle.css_outside.specs.Names.{are_distinct};
ghost use Rattle.std.specs.List.{list_all};
ghost use Rattle.std.specs.Prelude.{◌≡◌, map, not};
ghost use Rattle.std.specs.Str.{bytes_eq};

use crate::lines::{Lines, Quiet};
use css_outside::MemoryFiles;
use css_places::PathText;
use css_tokens::{List, OutOfMemory, Text};
use import_graph::{Found, LoadFault, gather, load_files};
use std::alloc::Global;
use std::process::Abort;
use std::test::Fail;
use std::thread::Threads;
use work_pool::NoGate;

type FileList = List<(Text<'static>, List<u8>)>;

// The files of these paths and texts.
fn listed(alloc: Global, rows: &[(&'static str, &str)]) -> Result<FileList, OutOfMemory> {
    let mut list = List::new(alloc);
    for (path, text) in rows {
        let bytes = List::from_vec(Vec::from_slice(alloc, text.as_bytes())?);
        list.push((Text::lent(path), bytes))?;
    }
    Ok(list)
}

// Whether no path comes again after it.
fn are_distinct(files: &[(Text<'_>, List<u8>)]) -> bool
    ensures { result ≡ are_distinct (map (λ file. file.0) files.now) }
{
    match files {
        [] => true,
        [file, rest @ ..] => is_fresh(file.0.as_str(), rest) && are_distinct(rest),
    }
}

// Whether no file has this path.
fn is_fresh(path: &str, files: &[(Text<'_>, List<u8>)]) -> bool
    ensures { result ≡ list_all (λ other. not (bytes_eq path.now other)) (map (λ file. file.0) files.now) }
{
    match files {
        [] => true,
        [file, rest @ ..] => path != file.0.as_str() && is_fresh(path, rest),
    }
}

fn entry(alloc: Global) -> Result<PathText, OutOfMemory> {
    Ok(PathText::new(String::from_str(alloc, "a.css")?))
}

// Looks at the paths that were asked.
fn look_at_paths(rt: &impl Abort, asked: &[Text<'_>], want: &[&str]) {
    assert_eq!(rt; asked.len(), want.len());
    for (path, wanted) in asked.iter().zip(want) {
        assert_eq!(rt; path.as_str(), *wanted);
    }
}

// Looks at what is asked, and at the order of the files.
fn look_at_graph(
    rt: &(impl Abort + Threads + Sync),
    alloc: Global,
    rows: &[(&'static str, &str)],
    asked: &[&str],
    order: &[usize],
) -> Result<(), Fail> {
    let list = listed(alloc, rows)?;
    assert!(rt; are_distinct(list.as_slice()));
    let mut files = MemoryFiles::new(alloc, list, List::new(alloc));
    match load_files(rt, alloc, &entry(alloc)?, 4, &mut files, &Lines, &NoGate) {
        Ok(loaded) => assert_eq!(rt; loaded.order.as_slice(), order),
        Err(_fault) => assert!(rt; false, "not loaded"),
    }
    look_at_paths(rt, files.paths_asked(), asked);
    Ok(())
}

#[test]
fn reads_a_diamond(rt: HostRuntime) -> Result<(), Fail> {
    let rows = [
        ("a.css", "b.css\nc.css"),
        ("b.css", "d.css"),
        ("c.css", "d.css\n"),
        ("d.css", ""),
    ];
    look_at_graph(
        &rt,
        rt.alloc(),
        &rows,
        &["a.css", "b.css", "c.css", "d.css"],
        &[0, 1, 3, 2],
    )
}

#[test]
fn reads_a_file_that_names_itself(rt: HostRuntime) -> Result<(), Fail> {
    let rows = [("a.css", "a.css\nb.css\na.css"), ("b.css", "a.css")];
    look_at_graph(&rt, rt.alloc(), &rows, &["a.css", "b.css"], &[0, 1])
}

#[test]
fn asks_once_for_a_missing_file(rt: HostRuntime) -> Result<(), Fail> {
    let rows = [("a.css", "x.css\nb.css"), ("b.css", "x.css")];
    look_at_graph(
        &rt,
        rt.alloc(),
        &rows,
        &["a.css", "x.css", "b.css"],
        &[0, 2],
    )
}

#[test]
fn asks_for_a_missing_entry(rt: HostRuntime) -> Result<(), Fail> {
    look_at_graph(&rt, rt.alloc(), &[("b.css", "")], &["a.css"], &[])
}

#[test]
fn names_the_path_whose_read_failed(rt: HostRuntime) -> Result<(), Fail> {
    let alloc = rt.alloc();
    let list = listed(
        alloc,
        &[
            ("a.css", "b.css\nc.css\nd.css"),
            ("b.css", ""),
            ("c.css", ""),
        ],
    )?;
    assert!(rt; are_distinct(list.as_slice()));
    let mut files = MemoryFiles::new(alloc, list, List::from_vec(vec![in alloc; 3]?));
    match load_files(&rt, alloc, &entry(alloc)?, 4, &mut files, &Lines, &NoGate) {
        Err(LoadFault::ReadFault(path)) => assert_eq!(rt; path.as_str(), "c.css"),
        Err(_fault) => assert!(rt; false, "another fault"),
        Ok(_loaded) => assert!(rt; false, "no fault"),
    }
    look_at_paths(&rt, files.paths_asked(), &["a.css", "b.css", "c.css"]);
    Ok(())
}

// A text of so many paths, each on a line.
fn names(alloc: Global, count: usize) -> Result<Vec<u8>, OutOfMemory> {
    let mut text = String::new(alloc);
    for number in 0..count {
        let line = format!(in alloc; "{number}.css\n")?;
        text.push_str(line.as_str())?;
    }
    Ok(text.into_bytes())
}

// Files of which the entry names so many paths, all of them missing.
fn fan(alloc: Global, count: usize) -> Result<MemoryFiles<'static>, OutOfMemory> {
    let mut list = List::new(alloc);
    list.push((Text::lent("a.css"), List::from_vec(names(alloc, count)?)))?;
    Ok(MemoryFiles::new(alloc, list, List::new(alloc)))
}

#[test]
fn reads_as_many_paths_as_there_may_be(rt: HostRuntime) -> Result<(), Fail> {
    let alloc = rt.alloc();
    let mut files = fan(alloc, 1_023)?;
    match load_files(&rt, alloc, &entry(alloc)?, 4, &mut files, &Lines, &NoGate) {
        Ok(loaded) => {
            assert_eq!(rt; loaded.files.len(), 1_024);
            assert_eq!(rt; loaded.targets.len(), 1_024);
            assert_eq!(rt; loaded.order.as_slice(), [0].as_slice());
        }
        Err(_fault) => assert!(rt; false, "not loaded"),
    }
    assert_eq!(rt; files.paths_asked().len(), 1_024);
    Ok(())
}

#[test]
fn reads_no_wave_that_brings_too_many(rt: HostRuntime) -> Result<(), Fail> {
    let alloc = rt.alloc();
    let mut files = fan(alloc, 1_024)?;
    match load_files(&rt, alloc, &entry(alloc)?, 4, &mut files, &Lines, &NoGate) {
        Err(LoadFault::Limit) => {}
        Err(_fault) => assert!(rt; false, "another fault"),
        Ok(_loaded) => assert!(rt; false, "no fault"),
    }
    look_at_paths(&rt, files.paths_asked(), &["a.css"]);
    Ok(())
}

// Whether a file of so many bytes is kept.
fn is_kept(rt: &(impl Threads + Sync), alloc: Global, bytes: usize) -> Result<bool, Fail> {
    let mut list = List::new(alloc);
    list.push((
        Text::lent("a.css"),
        List::from_vec(vec![in alloc; b'\n'; bytes]?),
    ))?;
    let mut files = MemoryFiles::new(alloc, list, List::new(alloc));
    let gathered = match gather(rt, alloc, &entry(alloc)?, 1, &mut files, &Quiet, &NoGate) {
        Ok(gathered) => gathered,
        Err(_fault) => return Ok(false),
    };
    match gathered.files.get(0) {
        Some(file) => match &file.found {
            Found::Whole(kept) => Ok(kept.len() == bytes),
            Found::Long | Found::Missing => Ok(false),
        },
        None => Ok(false),
    }
}

#[test]
fn keeps_no_file_that_is_too_long(rt: HostRuntime) -> Result<(), Fail> {
    let whole = is_kept(&rt, rt.alloc(), 4_194_304)?;
    let long = is_kept(&rt, rt.alloc(), 4_194_305)?;
    assert_eq!(rt; (whole, long), (true, false));
    Ok(())
}
