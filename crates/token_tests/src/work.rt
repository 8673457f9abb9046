use css_tokens::{List, OutOfMemory};
use std::test::Fail;
use work_pool::{NoGate, map_in_order};

/// The number doubled, where it is small.
fn doubled(number: &u32) -> Result<u32, OutOfMemory> {
    Ok(number.saturating_mul(2))
}

#[test]
fn answers_each_item_in_order(rt: HostRuntime) -> Result<(), Fail> {
    let answers = map_in_order(&rt, rt.alloc(), 4, &[3, 1, 2], &doubled, &NoGate)?;
    assert_eq!(rt; answers.as_slice(), [6, 2, 4].as_slice());
    Ok(())
}

#[test]
fn answers_no_item(rt: HostRuntime) -> Result<(), Fail> {
    let answers = map_in_order(&rt, rt.alloc(), 1, &[], &doubled, &NoGate)?;
    assert!(rt; answers.is_empty());
    Ok(())
}

#[test]
fn answers_many_items(rt: HostRuntime) -> Result<(), Fail> {
    let mut numbers = List::new(rt.alloc());
    for number in 0..100_000u32 {
        numbers.push(number)?;
    }
    if numbers.len() < 1_000_000 {
        let answers = map_in_order(&rt, rt.alloc(), 64, numbers.as_slice(), &doubled, &NoGate)?;
        assert_eq!(rt; answers.len(), numbers.len());
        assert_eq!(rt; answers.get(99_999), Some(&199_998));
    }
    Ok(())
}
