use css_places::{PathFault, rebase, resolve};
use std::test::Fail;
use test_texts::repeated;

#[test]
fn resolves_paths(rt: HostRuntime) -> Result<(), Fail> {
    let alloc = rt.alloc();
    assert_eq!(rt; resolve(alloc, "css/a.css", "../b.css")?.as_str(), "b.css");
    assert_eq!(rt;
        resolve(alloc, "css/a.css", "./x//b.css")?.as_str(),
        "css/x/b.css"
    );
    Ok(())
}

#[test]
fn says_why_a_path_names_no_file(rt: HostRuntime) -> Result<(), Fail> {
    let alloc = rt.alloc();
    assert!(rt;
        matches!(
            resolve(alloc, "a.css", "../b.css"),
            Err(PathFault::AboveRoot)
        )
    );
    assert!(rt; matches!(resolve(alloc, "a.css", "/b.css"), Err(PathFault::Absolute)));
    assert!(rt; matches!(resolve(alloc, "a.css", "http://b/"), Err(PathFault::Remote)));
    assert!(rt; matches!(resolve(alloc, "a.css", "b/"), Err(PathFault::Empty)));
    Ok(())
}

#[test]
fn resolves_a_long_path(rt: HostRuntime) -> Result<(), Fail> {
    let long = repeated(rt.alloc(), "folder", "/", 20_000)?;
    let path = resolve(rt.alloc(), "css/a.css", long.as_str())?;
    assert_eq!(rt; path.as_str().len(), long.len() + 4);
    Ok(())
}

#[test]
fn rebases_addresses(rt: HostRuntime) -> Result<(), Fail> {
    let alloc = rt.alloc();
    assert_eq!(rt;
        rebase(alloc, "css/a.css", "../i/x.png?a#b")?.as_str(),
        "i/x.png?a#b"
    );
    assert_eq!(rt; rebase(alloc, "css/a.css", "data:x")?.as_str(), "data:x");
    Ok(())
}

#[test]
fn rebases_a_long_address(rt: HostRuntime) -> Result<(), Fail> {
    let long = repeated(rt.alloc(), "folder", "/", 20_000)?;
    let address = rebase(rt.alloc(), "css/a.css", long.as_str())?;
    assert_eq!(rt; address.as_str().len(), long.len() + 4);
    Ok(())
}

#[test]
fn copies_paths(rt: HostRuntime) -> Result<(), Fail> {
    let alloc = rt.alloc();
    let short = resolve(alloc, "", "a.css")?;
    assert_eq!(rt; short.copy(alloc)?.as_str(), "a.css");
    let long = repeated(alloc, "folder", "/", 20_000)?;
    let path = resolve(alloc, "", long.as_str())?;
    assert_eq!(rt; path.copy(alloc)?.as_str(), long.as_str());
    Ok(())
}
