ghost use Rattle.std.specs.Prelude.{◌≢◌, []};

use css_tokens::{Kind, List, OutOfMemory, Text, is_plain_name, name_of, write_name, write_string};
use std::alloc::Global;
use std::test::Fail;
use test_texts::{repeated, tokens_of};

// The name of the first token of a text, or nothing where it holds none.
fn name(alloc: Global, text: &str) -> Result<Text<'_>, OutOfMemory> {
    match tokens_of(alloc, text).get(0) {
        Some(token) => match token.kind {
            Kind::Ident | Kind::Function | Kind::Url | Kind::At | Kind::Hash | Kind::String =>
                name_of(alloc, token),
            _ => Ok(Text::lent("")),
        },
        None => Ok(Text::lent("")),
    }
}

#[test]
fn names_tokens(rt: HostRuntime) -> Result<(), OutOfMemory> {
    let cases = [
        ("a-b", "a-b"),
        ("calc(", "calc"),
        ("@media", "media"),
        ("#fff", "fff"),
        ("\"it's\"", "it's"),
        ("'a'", "a"),
        ("url(  a/b.png )", "a/b.png"),
        ("\\31 0", "10"),
        ("é\\26 b", "é&b"),
        ("#\\31 \\e9", "1é"),
        ("'a\\\r\nb\\'c'", "ab'c"),
        ("\"\\d800 é\"", "\u{fffd}é"),
        ("url( \\)x\\  )", ")x "),
    ];
    for (text, want) in cases {
        assert_eq!(rt; name(rt.alloc(), text)?.as_str(), want);
    }
    Ok(())
}

#[test]
fn names_a_long_token(rt: HostRuntime) -> Result<(), Fail> {
    let alloc = rt.alloc();
    let mut text = String::new(alloc);
    let mut wanted = String::new(alloc);
    for _ in 0..20_000 {
        text.push_str("é\\31 a")?;
        wanted.push_str("é1a")?;
    }
    assert_eq!(rt; name(alloc, &text)?.as_str(), wanted.as_str());
    Ok(())
}

fn written(alloc: Global, name: &str) -> Result<List<u8>, OutOfMemory>
    requires { name.now ≢ [] }
{
    let mut out = List::new(alloc);
    write_name(name, &mut out)?;
    Ok(out)
}

#[test]
fn writes_names(rt: HostRuntime) -> Result<(), OutOfMemory> {
    let alloc = rt.alloc();
    assert_eq!(rt; written(alloc, "a")?.as_slice(), "a".as_bytes());
    assert_eq!(rt; written(alloc, "-")?.as_slice(), "\\-".as_bytes());
    assert_eq!(rt; written(alloc, "1a")?.as_slice(), "\\31 a".as_bytes());
    assert_eq!(rt; written(alloc, "-1")?.as_slice(), "-\\31 ".as_bytes());
    assert_eq!(rt; written(alloc, "--1")?.as_slice(), "--1".as_bytes());
    assert_eq!(rt; written(alloc, "a b")?.as_slice(), "a\\ b".as_bytes());
    assert_eq!(rt;
        written(alloc, "a\u{1f}\u{7f}\u{feff}")?.as_slice(),
        "a\\1f \\7f \\feff ".as_bytes()
    );
    assert_eq!(rt;
        written(alloc, "\u{e9}_2")?.as_slice(),
        "\u{e9}_2".as_bytes()
    );
    Ok(())
}

#[test]
fn writes_strings(rt: HostRuntime) -> Result<(), OutOfMemory> {
    let mut out = List::new(rt.alloc());
    write_string("a\"\\\n\u{e9}", &mut out)?;
    assert_eq!(rt; out.as_slice(), "\"a\\\"\\\\\\a \u{e9}\"".as_bytes());
    Ok(())
}

#[test]
fn writes_a_long_string(rt: HostRuntime) -> Result<(), Fail> {
    let text = repeated(rt.alloc(), "é\"", "", 20_000)?;
    let wanted = repeated(rt.alloc(), "é\\\"", "", 20_000)?;
    let mut out = List::new(rt.alloc());
    write_string(&text, &mut out)?;
    let mut all = String::new(rt.alloc());
    all.push_str("\"")?;
    all.push_str(&wanted)?;
    all.push_str("\"")?;
    assert!(rt; out.as_slice() == all.as_bytes());
    Ok(())
}

#[test]
fn writes_a_long_name(rt: HostRuntime) -> Result<(), Fail> {
    let alloc = rt.alloc();
    let mut name = String::new(alloc);
    let mut wanted = String::new(alloc);
    for _ in 0..20_000 {
        name.push_str("aé b")?;
        wanted.push_str("aé\\ b")?;
    }
    let text = name.as_str();
    if !text.is_empty() {
        assert_eq!(rt; written(alloc, text)?.as_slice(), wanted.as_bytes());
    }
    Ok(())
}

#[test]
fn knows_plain_names(rt: HostRuntime) -> Result<(), Fail> {
    assert!(rt; is_plain_name("a-1"));
    assert!(rt; is_plain_name("-_"));
    assert!(rt; is_plain_name("--"));
    assert!(rt; !is_plain_name(""));
    assert!(rt; !is_plain_name("-"));
    assert!(rt; !is_plain_name("-1"));
    assert!(rt; !is_plain_name("1a"));
    assert!(rt; !is_plain_name("a b"));
    Ok(())
}
