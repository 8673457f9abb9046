use css_tokens::{Component, ComponentFault, ComponentReader};
use std::alloc::Global;
use std::test::Fail;
use test_texts::repeated;

// How many components stand at the top of a text, up to a million.
fn count(alloc: Global, text: &str) -> Result<u32, Fail> {
    let bytes = text.as_bytes();
    let mut count = 0;
    if bytes.len() > 1_000_000 {
        return Ok(count);
    }
    let mut reader = ComponentReader::new(alloc, bytes)?;
    for number in 0..1_000_000 {
        count = number;
        if let None = reader.next()? {
            break;
        }
    }
    Ok(count)
}

#[test]
fn reads_one_after_another(rt: HostRuntime) -> Result<(), Fail> {
    let cases = [
        ("", 0),
        ("\u{feff}", 0),
        ("a{b:c}d", 3),
        ("@x (a[b]) {}", 5),
        ("\u{feff}f(1,2)", 1),
        ("{}{}{}", 3),
        ("/*x*/ a", 3),
    ];
    for (text, wanted) in cases {
        assert_eq!(rt; count(rt.alloc(), text)?, wanted, "in {text}");
    }
    Ok(())
}

// What a fault says, as its letter and its place.
fn said(fault: &ComponentFault) -> Option<(char, u32)> {
    match fault {
        ComponentFault::Syntax(at) => Some(('s', *at)),
        ComponentFault::Depth(at) => Some(('d', *at)),
        ComponentFault::Memory => None,
    }
}

// The fault of a short text.
fn fault(alloc: Global, text: &[u8]) -> Option<(char, u32)> {
    if text.len() > 1_000 {
        return None;
    }
    match ComponentReader::new(alloc, text) {
        Err(fault) => said(&fault),
        Ok(mut reader) => {
            for _ in 0..1_000 {
                match reader.next() {
                    Err(fault) => return said(&fault),
                    Ok(None) => return None,
                    Ok(Some(_)) => {}
                }
            }
            None
        }
    }
}

// 65 of `(`.
const DEEP: &str = "(((((((((((((((((((((((((((((((((((((((((((((((((((((((((((((((((";

#[test]
fn names_the_first_fault(rt: HostRuntime) {
    let cases = [
        ("a)", ('s', 1)),
        ("a{b]c", ('s', 3)),
        ("a{b", ('s', 3)),
        ("a{b]c \"d\n", ('s', 6)),
        (") -->", ('s', 2)),
        ("a /*x", ('s', 2)),
        ("({}/*", ('s', 3)),
        (")\x01", ('s', 1)),
        (DEEP, ('d', 64)),
    ];
    for (text, want) in cases {
        assert_eq!(rt; fault(rt.alloc(), text.as_bytes()), Some(want), "at {text}");
    }
}

#[test]
fn says_the_same_again(rt: HostRuntime) -> Result<(), Fail> {
    let mut reader = ComponentReader::new(rt.alloc(), b"a{(}")?;
    assert!(rt; matches!(reader.next()?, Some(Component::Single(_))));
    assert!(rt; matches!(reader.next(), Err(ComponentFault::Syntax(3))));
    assert!(rt; matches!(reader.next(), Err(ComponentFault::Syntax(3))));
    let mut reader = ComponentReader::new(rt.alloc(), b"{a}")?;
    assert!(rt; matches!(reader.next()?, Some(Component::Block(_))));
    assert!(rt; matches!(reader.next()?, None));
    assert!(rt; matches!(reader.next()?, None));
    Ok(())
}

#[test]
fn reads_long_texts(rt: HostRuntime) -> Result<(), Fail> {
    let rules = repeated(rt.alloc(), "p.x{color:rgb(1,2,3)}", "\n", 20_000)?;
    assert_eq!(rt; count(rt.alloc(), &rules)?, 99_999);
    let blocks = repeated(rt.alloc(), "((((((((((a))))))))))", "", 20_000)?;
    assert_eq!(rt; count(rt.alloc(), &blocks)?, 20_000);
    Ok(())
}
