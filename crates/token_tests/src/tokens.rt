use css_tokens::{Component, ComponentFault, TokenFault, tokens};
use std::alloc::Global;
use std::test::Fail;
use test_texts::components_of;

// The tokens of a text, each as `[Kind place characters]`.
fn shown(alloc: Global, bytes: &[u8]) -> Result<String, TokenFault> {
    if bytes.len() > 100 {
        return Err(TokenFault::Memory);
    }
    let list = match tokens(alloc, bytes) {
        Ok(list) => list,
        Err(fault) => return Err(fault),
    };
    let mut out = String::new(alloc);
    for token in list.as_slice() {
        let part = format!(in alloc; "[{:?} {} {}]", token.kind, token.at, token.text)?;
        out.push_str(&part)?;
    }
    Ok(out)
}

// The place of the fault of a text.
fn fault(alloc: Global, bytes: &[u8]) -> Option<u32> {
    match shown(alloc, bytes) {
        Err(TokenFault::Syntax(at)) => Some(at),
        _ => None,
    }
}

#[test]
fn reads(rt: HostRuntime) -> Result<(), Fail> {
    let cases = [
        ("", ""),
        (
            "a{b:c}",
            "[Ident 0 a][Open 1 {][Ident 2 b][Colon 3 :][Ident 4 c][Close 5 }]",
        ),
        ("a\r\n\t\x0cb", "[Ident 0 a][White 1 \r\n\t\x0c][Ident 5 b]"),
        ("1e3-", "[Dimension 0 1e3-]"),
        ("1e+3-4", "[Number 0 1e+3][Number 4 -4]"),
        ("1-->", "[Dimension 0 1--][Delim 3 >]"),
        ("a-->", "[Ident 0 a--][Delim 3 >]"),
        ("--", "[Ident 0 --]"),
        ("@-", "[Delim 0 @][Delim 1 -]"),
        ("@--x(", "[At 0 @--x][Open 4 (]"),
        ("<!-", "[Delim 0 <][Delim 1 !][Delim 2 -]"),
        (
            "-1.5e-2%+.5px",
            "[Percentage 0 -1.5e-2%][Dimension 8 +.5px]",
        ),
        ("1.", "[Number 0 1][Delim 1 .]"),
        ("1e+", "[Dimension 0 1e][Delim 2 +]"),
        ("#-a#", "[Hash 0 #-a][Delim 3 #]"),
        (
            "/**//***/ / *",
            "[Comment 0 /**/][Comment 4 /***/][White 9  ][Delim 10 /][White 11  ][Delim 12 *]",
        ),
        (
            "'a\"b',[]",
            "[String 0 'a\"b'][Comma 5 ,][Open 6 [][Close 7 ]]",
        ),
        (
            "url(\"x\");",
            "[Function 0 url(][String 4 \"x\"][Close 7 )][Semicolon 8 ;]",
        ),
        (
            "UrL( 'x')",
            "[Function 0 UrL(][White 4  ][String 5 'x'][Close 8 )]",
        ),
        ("URL( a.png )x", "[Url 0 URL( a.png )][Ident 12 x]"),
        ("url()", "[Url 0 url()]"),
        (
            "curl(a b",
            "[Function 0 curl(][Ident 5 a][White 6  ][Ident 7 b]",
        ),
        ("\\31 0", "[Ident 0 \\31 0]"),
        ("é\\26 b", "[Ident 0 é\\26 b]"),
        ("\"a\\\nb\"", "[String 0 \"a\\\nb\"]"),
        ("url(\\)  )", "[Url 0 url(\\)  )]"),
        ("\\75 rl(a)", "[Url 0 \\75 rl(a)]"),
        ("\u{feff}a", "[Ident 3 a]"),
        ("\u{feff}\u{feff}", "[Ident 3 \u{feff}]"),
        ("\u{feff}", ""),
    ];
    for (text, want) in cases {
        assert_eq!(rt; shown(rt.alloc(), text.as_bytes())?.as_str(), want);
    }
    Ok(())
}

#[test]
fn stops(rt: HostRuntime) {
    let cases = [
        ("/*x", 0),
        ("a<!--", 1),
        ("-->", 0),
        ("a \"b\nc\"", 2),
        ("x:url(a b)", 2),
        ("url(a", 0),
        ("url( \"", 5),
        ("url(a'b)", 0),
        ("-->\x01", 3),
        ("\"a\n\x7f", 3),
        ("a\x0b", 1),
        ("a\\\n", 1),
        ("\u{feff}a\x01", 4),
    ];
    for (text, want) in cases {
        assert_eq!(rt; fault(rt.alloc(), text.as_bytes()), Some(want), "at {text}");
    }
}

#[test]
fn stops_at_bytes(rt: HostRuntime) {
    let cases: [(&[u8], u32); 6] = [
        (b"a\xc3", 1),
        (b"\xed\xa0\x80", 0),
        (b"\xf4\x90\x80\x80", 0),
        (b"\xf5\x80\x80\x80", 0),
        (b"a\x01\xc3", 1),
        (b"ab\xc3\x01", 2),
    ];
    for (bytes, want) in cases {
        assert_eq!(rt; fault(rt.alloc(), bytes), Some(want));
    }
}

#[test]
fn reads_a_long_text(rt: HostRuntime) -> Result<(), Fail> {
    let mut text = String::new(rt.alloc());
    for _ in 0..20_000 {
        text.push_str("é\\31 a ")?;
    }
    let bytes = text.as_bytes();
    if bytes.len() < 1_000_000 {
        let list = tokens(rt.alloc(), bytes)?;
        assert_eq!(rt; list.len(), 40_000);
    }
    Ok(())
}

#[test]
fn pairs_brackets(rt: HostRuntime) -> Result<(), Fail> {
    let found = components_of(rt.alloc(), "a(b)[]")?;
    assert_eq!(rt; found.len(), 2);
    match found.get(0) {
        Some(Component::Block(block)) => {
            let block = block.get();
            assert_eq!(rt; block.opening.text, "a(");
            assert_eq!(rt; block.items.len(), 1);
            assert_eq!(rt; block.close, 3);
        }
        _ => assert!(rt; false),
    }
    Ok(())
}

#[test]
fn names_the_first_fault(rt: HostRuntime) {
    let cases = [("[(]", 2), ("){", 0), ("{ ", 2)];
    for (text, want) in cases {
        let at = match components_of(rt.alloc(), text) {
            Err(ComponentFault::Syntax(at)) => Some(at),
            _ => None,
        };
        assert_eq!(rt; at, Some(want), "at {text}");
    }
}

// 64 of `(`, and as many of `)`.
const DEEP: &str = "((((((((((((((((((((((((((((((((((((((((((((((((((((((((((((((((\
     ))))))))))))))))))))))))))))))))))))))))))))))))))))))))))))))))";

// The same with one more of each.
const DEEPER: &str = "(((((((((((((((((((((((((((((((((((((((((((((((((((((((((((((((((\
     )))))))))))))))))))))))))))))))))))))))))))))))))))))))))))))))))";

#[test]
fn nests_to_depth_64(rt: HostRuntime) {
    assert!(rt; components_of(rt.alloc(), DEEP).is_ok());
    assert!(rt;
        matches!(
            components_of(rt.alloc(), DEEPER),
            Err(ComponentFault::Depth(64))
        )
    );
}
