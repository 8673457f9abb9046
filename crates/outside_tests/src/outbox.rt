use crate::builders::{numbered, put_ready, put_rows};
use css_outside::{MemoryOutbox, PutFailed};
use css_tokens::{List, OutOfMemory};
use std::alloc::Global;
use std::process::Abort;
use std::test::Fail;

#[test]
fn puts_within_the_space_of_a_name(rt: HostRuntime) -> Result<(), Fail> {
    let failing = List::from_vec(vec![in rt.alloc(); 3]?);
    let mut outbox = MemoryOutbox::new(rt.alloc(), 4, failing);
    outbox.reserve("-", 7)?;
    assert_eq!(rt; outbox.held("-"), None);
    // At most four are taken, three are left, the third put fails, and `!` has no space.
    let rows = [
        ("-", "abcdef", Ok(4)),
        ("-", "ghij", Err(PutFailed::Failed)),
        ("-", "g", Err(PutFailed::Failed)),
        ("-", "hi", Ok(2)),
        ("!", "no", Err(PutFailed::Failed)),
    ];
    put_rows(&rt, &mut outbox, &rows);
    outbox.reserve("!", 0)?;
    put_rows(&rt, &mut outbox, &[("!", "", Ok(0))]);
    assert_eq!(rt; outbox.held("-"), Some(b"abcdhi".as_slice()));
    assert_eq!(rt; outbox.held("!"), Some(b"".as_slice()));
    assert_eq!(rt; outbox.held("a.css"), None);
    Ok(())
}

#[test]
fn fills_the_space_of_a_name(rt: HostRuntime) -> Result<(), Fail> {
    let mut outbox = MemoryOutbox::new(rt.alloc(), 9, List::new(rt.alloc()));
    outbox.reserve("-", 3)?;
    let rows = [
        ("-", "abcd", Err(PutFailed::Failed)),
        ("-", "abc", Ok(3)),
        ("-", "", Ok(0)),
        ("-", "d", Err(PutFailed::Failed)),
        ("!", "", Err(PutFailed::Failed)),
    ];
    put_rows(&rt, &mut outbox, &rows);
    outbox.reserve("-", 2)?;
    let rows = [("-", "de", Ok(2)), ("-", "f", Err(PutFailed::Failed))];
    put_rows(&rt, &mut outbox, &rows);
    assert_eq!(rt; outbox.held("-"), Some(b"abcde".as_slice()));
    Ok(())
}

// Makes space for 10,000 bytes under each of a hundred names.
fn reserve_hundred(alloc: Global, outbox: &mut MemoryOutbox) -> Result<(), OutOfMemory> {
    for number in 0..100 {
        outbox.reserve(numbered(alloc, number)?.as_str(), 10_000)?;
    }
    Ok(())
}

// Looks whether each of the hundred names holds this, and takes no more.
fn look_at_hundred(
    rt: &impl Abort,
    alloc: Global,
    outbox: &mut MemoryOutbox,
    want: Option<&[u8]>,
) -> Result<(), OutOfMemory> {
    for number in 0..100 {
        let name = numbered(alloc, number)?;
        assert_eq!(rt; outbox.held(name.as_str()), want);
        assert_eq!(rt;
            put_ready(outbox, name.as_str(), b"x"),
            Err(PutFailed::Failed)
        );
    }
    Ok(())
}

#[test]
fn takes_a_thousand_puts(rt: HostRuntime) -> Result<(), Fail> {
    let alloc = rt.alloc();
    let piece = vec![in alloc; b'x'; 1_048_576]?;
    let mut outbox = MemoryOutbox::new(alloc, 1_000, List::new(alloc));
    reserve_hundred(alloc, &mut outbox)?;
    for at in 0..1_000 {
        let name = numbered(alloc, at % 100)?;
        assert_eq!(rt; put_ready(&mut outbox, name.as_str(), &piece), Ok(1_000));
    }
    look_at_hundred(&rt, alloc, &mut outbox, piece.get(..10_000))?;
    Ok(())
}

#[test]
fn takes_a_mebibyte_in_one_put(rt: HostRuntime) -> Result<(), Fail> {
    let alloc = rt.alloc();
    let piece = vec![in alloc; b'x'; 1_048_576]?;
    let mut outbox = MemoryOutbox::new(alloc, 4_294_967_295, List::new(alloc));
    outbox.reserve("-", 1_048_576)?;
    assert_eq!(rt; put_ready(&mut outbox, "-", &piece), Ok(1_048_576));
    assert_eq!(rt; outbox.held("-"), Some(piece.as_slice()));
    Ok(())
}
