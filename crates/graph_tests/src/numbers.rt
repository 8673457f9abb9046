use css_tokens::{List, OutOfMemory};
use import_graph::module_order;
use std::alloc::Global;
use std::test::Fail;

// A list of targets for each row; a missing file has none.
fn targets_of(
    alloc: Global,
    rows: &[Option<&[usize]>],
) -> Result<List<Option<List<usize>>>, OutOfMemory> {
    let mut targets = List::new(alloc);
    for row in rows {
        let named = match row {
            Some(places) => Some(List::from_vec(Vec::from_slice(alloc, places)?)),
            None => None,
        };
        targets.push(named)?;
    }
    Ok(targets)
}

#[test]
fn numbers_depth_first(rt: HostRuntime) -> Result<(), Fail> {
    let rows: [Option<&[usize]>; 5] = [
        Some(&[1, 2, 4]),
        Some(&[3, 0]),
        Some(&[3, 9]),
        Some(&[]),
        None,
    ];
    let targets = targets_of(rt.alloc(), &rows)?;
    let order = module_order(rt.alloc(), targets.as_slice())?;
    assert_eq!(rt; order.as_slice(), [0, 1, 3, 2].as_slice());
    Ok(())
}

#[test]
fn numbers_no_file(rt: HostRuntime) -> Result<(), Fail> {
    let order = module_order(rt.alloc(), &[])?;
    assert!(rt; order.is_empty());
    Ok(())
}

#[test]
fn numbers_a_long_chain(rt: HostRuntime) -> Result<(), Fail> {
    let alloc = rt.alloc();
    let mut targets = List::new(alloc);
    for file in 0..100_000usize {
        targets.push(Some(List::from_vec(vec![in alloc; file + 1, 0]?)))?;
    }
    let order = module_order(alloc, targets.as_slice())?;
    assert_eq!(rt; order.len(), 100_000);
    assert_eq!(rt; order.get(99_999), Some(&99_999));
    Ok(())
}
