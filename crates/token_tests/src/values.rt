use css_tokens::{ComponentFault, List, write_value};
use std::alloc::Global;
use std::test::Fail;
use test_texts::components_of;

// What the components of a text are written as.
fn written(alloc: Global, text: &str) -> Result<List<u8>, ComponentFault> {
    let value = components_of(alloc, text)?;
    let mut out = List::new(alloc);
    write_value(value.as_slice(), &mut out)?;
    Ok(out)
}

#[test]
fn shortens_gaps(rt: HostRuntime) -> Result<(), Fail> {
    let cases = [
        ("\n0 /* c */ auto/**/", "0 auto"),
        ("b/* c *//**/c", "b/**/c"),
        ("calc( 1px/* c */+  2px)", "calc( 1px/**/+ 2px)"),
        ("\\61/* c */ b", "\\61/**/ b"),
        ("\\61 /* c */ b", "\\61  b"),
        ("\\61\r /**/b", "\\61\r b"),
        ("f(\\61/**/\n)", "f(\\61/**/ )"),
    ];
    for (text, want) in cases {
        let out = written(rt.alloc(), text)?;
        assert_eq!(rt; out.as_slice(), want.as_bytes(), "from {text}");
    }
    Ok(())
}

#[test]
fn writes_a_long_value(rt: HostRuntime) -> Result<(), Fail> {
    let mut text = String::new(rt.alloc());
    for _ in 0..20_000 {
        text.push_str("(\\e9/* c */ é)")?;
    }
    let out = written(rt.alloc(), text.as_str())?;
    assert_eq!(rt; out.len(), 20_000 * 12);
    Ok(())
}
