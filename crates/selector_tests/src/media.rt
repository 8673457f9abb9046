use css_tokens::List;
use media_tree::{MediaFault, read_queries, read_supports, write_queries, write_supports};
use std::alloc::Global;
use std::test::Fail;
use test_texts::{components_of, repeated};

// What a media query list is written as after it is read.
fn queries(alloc: Global, text: &str) -> Result<List<u8>, MediaFault> {
    let Ok(parts) = components_of(alloc, text) else {
        return Err(MediaFault::Memory);
    };
    let list = read_queries(alloc, parts.as_slice())?;
    let mut out = List::new(alloc);
    write_queries(list.as_slice(), &mut out)?;
    Ok(out)
}

// What a supports condition is written as after it is read.
fn supports(alloc: Global, text: &str) -> Result<List<u8>, MediaFault> {
    let Ok(parts) = components_of(alloc, text) else {
        return Err(MediaFault::Memory);
    };
    let condition = read_supports(alloc, parts.as_slice())?;
    let mut out = List::new(alloc);
    write_supports(&condition, &mut out)?;
    Ok(out)
}

fn is_refused(written: Result<List<u8>, MediaFault>) -> bool {
    matches!(written, Err(MediaFault::Syntax))
}

#[test]
fn queries_are_read_and_written(rt: HostRuntime) -> Result<(), Fail> {
    let cases = [
        ("", ""),
        (" /**/ ", ""),
        ("SCREEN , not Print", "screen,not print"),
        ("only all AND (COLOR)", "only all and (color)"),
        ("(400px<width<=700px)", "(400px<width<=700px)"),
        ("(5px <= WIDTH)", "(width>=5px)"),
        ("(width>5px)and (color)", "(width>5px) and (color)"),
        (
            "((a) or (((b)))) and (not (c))",
            "((a) or (b)) and (not (c))",
        ),
        ("screen and ((a) or (b))", "screen and ((a) or (b))"),
        ("screen and not (a)", "screen and not (a)"),
        ("(aspect-ratio: 16 / 9)", "(aspect-ratio:16/9)"),
        ("(aspect-ratio: 16/**//9)", "(aspect-ratio:16/**//9)"),
        (
            "(min-width: Calc( 1px + 2px ))",
            "(min-width:Calc( 1px + 2px ))",
        ),
        ("(x-- <width< y)", "(x-- <width<y)"),
        ("(width > height)", "(width>height)"),
        ("(grid: 0) , (\\68over: Hover)", "(grid:0),(hover:Hover)"),
    ];
    for (text, written) in cases {
        let out = queries(rt.alloc(), text)?;
        assert_eq!(rt; out.as_slice(), written.as_bytes(), "{text}");
    }
    Ok(())
}

#[test]
fn what_is_no_query_is_refused(rt: HostRuntime) -> Result<(), Fail> {
    let cases = [
        ",",
        "print,",
        "layer",
        "screen (a)",
        "screen and (a) or (b)",
        "(a) and (b) or (c)",
        "only (a)",
        "not(a)",
        "(width < = 5px)",
        "(min-width > 5px)",
        "(4px < width > 2px)",
        "(width: 5%)",
        "()",
    ];
    for text in cases {
        assert!(rt; is_refused(queries(rt.alloc(), text)), "{text}");
    }
    Ok(())
}

#[test]
fn supports_conditions_are_read_and_written(rt: HostRuntime) -> Result<(), Fail> {
    let cases = [
        ("( Display : grid )", "(display:grid)"),
        ("(--X:)", "(--X:)"),
        ("not (a:b  c)", "not (a:b c)"),
        (
            "((a:b))and ((c:d) or selector(e))",
            "(a:b) and ((c:d) or f())",
        ),
    ];
    for (text, written) in cases {
        let out = supports(rt.alloc(), text)?;
        assert_eq!(rt; out.as_slice(), written.as_bytes(), "{text}");
    }
    for text in [
        "",
        "(a:b!important)",
        "(a:)",
        "(a:b;c)",
        "(a)",
        "a:b",
        "(a:{})",
    ] {
        assert!(rt; is_refused(supports(rt.alloc(), text)), "{text}");
    }
    Ok(())
}

#[test]
fn reads_and_writes_large_conditions(rt: HostRuntime) -> Result<(), Fail> {
    let list = repeated(rt.alloc(), "screen and (width>=5px)", ",", 10_000)?;
    let out = queries(rt.alloc(), &list)?;
    assert!(rt; out.as_slice() == list.as_bytes());
    let condition = repeated(rt.alloc(), "(display:grid)", " or ", 10_000)?;
    let out = supports(rt.alloc(), &condition)?;
    assert!(rt; out.as_slice() == condition.as_bytes());
    Ok(())
}
