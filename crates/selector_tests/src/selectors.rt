use css_tokens::{List, OutOfMemory};
use selector_tree::{SelectorFault, Specificity, read_list, specificity, write_list};
use std::alloc::Global;
use std::test::Fail;
use test_texts::components_of;

// What a list is written as after it is read.
fn rewritten(alloc: Global, text: &str, nested: bool) -> Result<List<u8>, SelectorFault> {
    let Ok(parts) = components_of(alloc, text) else {
        return Err(SelectorFault::Memory);
    };
    let list = read_list(alloc, parts.as_slice(), 999, nested)?;
    let mut out = List::new(alloc);
    write_list(list.as_slice(), &mut out)?;
    Ok(out)
}

// Where a list that ends at 999 is refused.
fn refused(alloc: Global, text: &str) -> Option<u32> {
    match rewritten(alloc, text, false) {
        Err(SelectorFault::Syntax(at)) => Some(at),
        _ => None,
    }
}

#[test]
fn reads_and_writes(rt: HostRuntime) -> Result<(), Fail> {
    let cases = [
        ("a:AFTER,[x=y]", "a::after,[x=\"y\"]"),
        ("li:nth-child(2N + 1)", "li:nth-child(2n+1)"),
        (
            " a/**/.b  >  #c *+&~.--,-- >x /**/ ",
            "a.b>#c *+&~.--,-- >x",
        ),
        ("[ HREF *= 'a b' ]", "[HREF*=\"a b\"]"),
        ("[a=b i],[a~/**/=b]", "[a=\"b\"],[a~=\"b\"]"),
        ("[a='\"']", "[a=\"\\\"\"]"),
        (
            ":LANG(a\\+b),:nth-child(+2n)",
            ":lang(a\\+b),:nth-child(+2n)",
        ),
        (":Not( .a , b > c )", ":not(.a,b>c)"),
        (
            ":is(),:where( /**/ ),:is(a,:not(*))",
            ":is(),:where(),:is(a,:not(*))",
        ),
        (
            ":local(.a.b) :global( c:hover )",
            ":local(.a.b) :global(c:hover)",
        ),
        (
            ":nth-of-type(-N- 3):nth-last-child(EVEN)",
            ":nth-of-type(-n-3):nth-last-child(even)",
        ),
        (":nth-last-of-type( 5 )", ":nth-last-of-type(5)"),
        (":lang( en ):first-child", ":lang(en):first-child"),
        ("a::before:after:HOVER", "a::before:after:hover"),
        (
            ":nth-child(+n),:nth-child(+5),:nth-child(7n-1)",
            ":nth-child(+n),:nth-child(+5),:nth-child(7n-1)",
        ),
        ("p:has(a)", "p"),
        (".é>#\\31 a:\\68OVER", ".é>#\\31 a:hover"),
        (
            "\\31 0,[\\61=\\e9  \\49],:\\31 A",
            "\\31 0,[a=\"é\"],:\\31 a",
        ),
        (":Lang(\\65n)::\\62 EFORE", ":lang(en)::before"),
        ("#--1,#-\\31,#é", "#--1,#-\\31 ,#é"),
    ];
    for (text, wanted) in cases {
        let out = rewritten(rt.alloc(), text, false)?;
        assert_eq!(rt; out.as_slice(), wanted.as_bytes(), "{text}");
    }
    let out = rewritten(rt.alloc(), "> a, b", true)?;
    assert_eq!(rt; out.as_slice(), b">a,b".as_slice());
    Ok(())
}

#[test]
fn refuses(rt: HostRuntime) -> Result<(), Fail> {
    let cases = [
        ("a,,b", Some(2)),
        ("a, ", Some(999)),
        (" >a", Some(1)),
        ("  ::after.a", Some(2)),
        ("a,b::after c", Some(2)),
        ("a:not()", Some(0)),
        (":is(,)", Some(0)),
        (":local(.a .b)", Some(0)),
        ("[a~ =b]", Some(0)),
        ("[a=b i s]", Some(0)),
        ("a:", Some(0)),
        ("(a)", Some(0)),
        (":not(> a)", Some(0)),
        ("::not()", None),
        ("#1a", Some(0)),
        ("a,#-1", Some(2)),
    ];
    for (text, place) in cases {
        assert_eq!(rt; refused(rt.alloc(), text), place, "{text}");
    }
    Ok(())
}

// A class whose name has 200 bytes.
fn long_class(alloc: Global) -> Result<String, OutOfMemory> {
    let mut class = String::new(alloc);
    class.push_str(".")?;
    for _ in 0..100 {
        class.push_str("é")?;
    }
    Ok(class)
}

// Forty selectors of 30 such classes each, and then the selector `a`.
fn long_list(alloc: Global) -> Result<String, OutOfMemory> {
    let class = long_class(alloc)?;
    let mut text = String::new(alloc);
    for i in 0..1200 {
        text.push_str(class.as_str())?;
        text.push_str(if i % 30 < 29 { ">" } else { "," })?;
    }
    text.push_str("a")?;
    Ok(text)
}

#[test]
fn reads_and_writes_a_large_list(rt: HostRuntime) -> Result<(), Fail> {
    let text = long_list(rt.alloc())?;
    let parts = components_of(rt.alloc(), text.as_str())?;
    let list = read_list(rt.alloc(), parts.as_slice(), 999_999, false)?;
    assert_eq!(rt; list.len(), 41);
    let mut out = List::new(rt.alloc());
    write_list(list.as_slice(), &mut out)?;
    assert!(rt; out.as_slice() == text.as_bytes());
    let none = Specificity { a: 0, b: 0, c: 0 };
    for selector in list.as_slice() {
        let counted = specificity(selector, none);
        assert!(rt; counted.a == 0 && (counted.b == 30 || counted.c == 1));
    }
    Ok(())
}

#[test]
fn counts(rt: HostRuntime) -> Result<(), Fail> {
    let parts = components_of(
        rt.alloc(),
        "a.b#c:not(.d,#e.f)>:is(p,q):where(#x)[y]::before:hover",
    )?;
    let list = read_list(rt.alloc(), parts.as_slice(), 999, false)?;
    let none = Specificity { a: 0, b: 0, c: 0 };
    let wanted = Specificity { a: 2, b: 4, c: 3 };
    assert_eq!(rt; list.len(), 1);
    for selector in list.as_slice() {
        assert_eq!(rt; specificity(selector, none), wanted);
        assert!(rt; none < wanted);
    }
    Ok(())
}
