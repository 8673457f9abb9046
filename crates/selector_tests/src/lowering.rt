use css_tokens::List;
use media_clauses::{clauses, count_clauses, lower_queries};
use media_tree::{MediaFault, Query, read_queries, write_queries};
use std::alloc::Global;
use std::test::Fail;
use test_texts::{components_of, repeated};

// The media query list of a text.
fn queries(alloc: Global, text: &str) -> Result<List<Query<'_>>, MediaFault> {
    let Ok(parts) = components_of(alloc, text) else {
        return Err(MediaFault::Memory);
    };
    read_queries(alloc, parts.as_slice())
}

// The lists that tell a media query list, one in a line.
fn lowered(alloc: Global, text: &str) -> Result<List<u8>, MediaFault> {
    let lists = lower_queries(alloc, queries(alloc, text)?)?;
    let mut out = List::new(alloc);
    for list in lists.as_slice() {
        write_queries(list.as_slice(), &mut out)?;
        out.push(b'\n')?;
    }
    Ok(out)
}

#[test]
fn lists_are_lowered(rt: HostRuntime) -> Result<(), Fail> {
    let cases = [
        ("", ""),
        ("only screen, (color)", "only screen,(color)\n"),
        ("(width>=5px)", "(min-width:5px)\n"),
        (
            "screen and (4px<=width<=7px)",
            "screen and (min-width:4px) and (max-width:7px)\n",
        ),
        (
            "(400px<width<=700px)",
            "(max-width:700px)\nnot all and (max-width:400px)\n",
        ),
        ("print,(width>5px)", "print,not all and (max-width:5px)\n"),
        ("not screen and (width>5px)", "not screen,(max-width:5px)\n"),
        (
            "only screen and (a) and ((b) and (c))",
            "screen and (a) and (b) and (c)\n",
        ),
        ("(a) or (not (b))", "(a),not all and (b)\n"),
        ("not ((a) or (b))", "not all and (a)\nnot all and (b)\n"),
    ];
    for (text, written) in cases {
        let out = lowered(rt.alloc(), text)?;
        assert_eq!(rt; out.as_slice(), written.as_bytes(), "{text}");
    }
    Ok(())
}

#[test]
fn clauses_are_made_and_counted(rt: HostRuntime) -> Result<(), Fail> {
    let cases = [
        ("", 0),
        ("not all", 1),
        ("screen and (4px<width<7px)", 3),
        ("((a) and (b)) or ((c) and (d))", 4),
    ];
    for (text, count) in cases {
        let list = queries(rt.alloc(), text)?;
        let made = clauses(rt.alloc(), list.as_slice())?;
        assert_eq!(rt; made.len(), count, "{text}");
        assert_eq!(rt; count_clauses(list.as_slice()), count as u64, "{text}");
    }
    Ok(())
}

#[test]
fn large_lists_are_lowered(rt: HostRuntime) -> Result<(), Fail> {
    let text = repeated(rt.alloc(), "(width>5px)", " and ", 1_000)?;
    let list = queries(rt.alloc(), text.as_str())?;
    assert_eq!(rt; count_clauses(list.as_slice()), 1_000);
    let lists = lower_queries(rt.alloc(), list)?;
    assert_eq!(rt; lists.len(), 1_000);
    let text = repeated(rt.alloc(), "((a) and (b))", " or ", 64)?;
    let list = queries(rt.alloc(), text.as_str())?;
    assert_eq!(rt; count_clauses(list.as_slice()), u64::MAX);
    Ok(())
}
