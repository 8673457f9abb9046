use css_print::print;
use css_rules::{RuleFault, Sheet, read_sheet};
use css_tokens::List;
use graph_types::{copy_conditions, push_import_conditions};
use std::alloc::Global;
use std::test::Fail;
use target_check::is_target;
use test_texts::{components_of, repeated};

// The sheet of a text, read from the list of all its components.
fn sheet(alloc: Global, text: &str) -> Result<Sheet<'_>, RuleFault> {
    let Ok(end) = u32::try_from(text.len()) else {
        return Err(RuleFault::Memory);
    };
    match components_of(alloc, text) {
        Ok(parts) => read_sheet(alloc, parts.as_slice(), end),
        Err(_) => Err(RuleFault::Memory),
    }
}

// What the sheet of a text prints as.
fn printed(alloc: Global, text: &str) -> Result<List<u8>, RuleFault> {
    let sheet = sheet(alloc, text)?;
    Ok(print(alloc, &sheet)?)
}

#[test]
fn sheets_are_read_and_printed(rt: HostRuntime) -> Result<(), Fail> {
    let cases = [
        ("", ""),
        ("a { b : c }", "a{b:c}\n"),
        (
            "@media  (width>5px){a{b:c}@page{d:e}}",
            "@media (width>5px){\na{b:c}\n@page{d:e}\n}\n",
        ),
        (
            "@supports (a:b){@media{c{d:e}}f{}}",
            "@supports (a:b){\n@media{\nc{d:e}\n}\n}\n",
        ),
        ("@a;b{c:d}", "b{c:d}\n"),
        (
            "@charset 'UTF-8';@import url(a.css) supports(b:c) print , (width>5px);@import \"d\\\"e\";f{g:h}",
            "@import \"a.css\" supports((b:c)) print,(width>5px);\n@import \"d\\\"e\";\nf{g:h}\n",
        ),
    ];
    for (text, written) in cases {
        let out = printed(rt.alloc(), text)?;
        assert_eq!(rt; out.as_slice(), written.as_bytes(), "{text}");
    }
    Ok(())
}

#[test]
fn what_is_no_sheet_is_refused(rt: HostRuntime) -> Result<(), Fail> {
    for (text, at) in [
        ("a{b}", 2),
        ("@media;", 0),
        ("@media{a{1:b}}", 9),
        ("@import 'a'", 0),
        ("@import 'a';@import 1;", 12),
        ("@import 'a'{}", 0),
    ] {
        let refused = match sheet(rt.alloc(), text) {
            Err(RuleFault::Syntax(place)) => place == at,
            _ => false,
        };
        assert!(rt; refused, "{text}");
    }
    Ok(())
}

#[test]
fn imports_behind_rules_come_too_late(rt: HostRuntime) -> Result<(), Fail> {
    for (text, at) in [
        ("a{}@import 'b';", 3),
        ("@import 'a';@b;@import 'c';", 15),
        ("@media{@import 'a';}", 7),
        ("a{}@import 1", 3),
    ] {
        let late = match sheet(rt.alloc(), text) {
            Err(RuleFault::LateImport(place)) => place == at,
            _ => false,
        };
        assert!(rt; late, "{text}");
    }
    Ok(())
}

#[test]
fn many_imports_are_read(rt: HostRuntime) -> Result<(), Fail> {
    let text = repeated(rt.alloc(), "@import 'a.css' print;", "\n", 2_000)?;
    let large = sheet(rt.alloc(), text.as_str())?;
    assert_eq!(rt; large.imports.len(), 2_000);
    assert_eq!(rt; large.items.len(), 0);
    Ok(())
}

// How many conditions the imports of a text have.
fn conditions_of_imports(alloc: Global, text: &str) -> Result<usize, RuleFault> {
    let sheet = sheet(alloc, text)?;
    let mut conditions = List::new(alloc);
    for import in sheet.imports.as_slice() {
        push_import_conditions(alloc, import, &mut conditions)?;
    }
    let copies = copy_conditions(alloc, conditions.as_slice())?;
    Ok(copies.len())
}

#[test]
fn conditions_of_imports_are_copied(rt: HostRuntime) -> Result<(), Fail> {
    for (text, count) in [
        ("@import 'a';", 0),
        ("@import 'a' print;@import 'b' supports(c:d);", 2),
        (
            "@import 'a' supports(not (b:c)) (1px<width<5px) and (color), not print;",
            2,
        ),
    ] {
        assert_eq!(rt; conditions_of_imports(rt.alloc(), text)?, count, "{text}");
    }
    let text = repeated(rt.alloc(), "@import 'a' supports(b:c) print;", "\n", 2_000)?;
    assert_eq!(rt; conditions_of_imports(rt.alloc(), text.as_str())?, 4_000);
    Ok(())
}

#[test]
fn target_sheets_are_told(rt: HostRuntime) -> Result<(), Fail> {
    for (text, told) in [
        ("a{b:c}", true),
        ("a{}", false),
        ("@media print{a{b:c}}", true),
        ("@media (width>5px){a{b:c}}", false),
        ("@a;", false),
        ("@import 'a';", false),
        ("@charset 'utf-8';a{b:c}", true),
    ] {
        let sheet = sheet(rt.alloc(), text)?;
        assert_eq!(rt; is_target(&sheet), told, "{text}");
    }
    Ok(())
}

#[test]
fn large_sheets_are_read(rt: HostRuntime) -> Result<(), Fail> {
    let text = repeated(rt.alloc(), "@media print{a{b:c}d{e:f}}", "\n", 2_000)?;
    let large = sheet(rt.alloc(), text.as_str())?;
    assert_eq!(rt; large.items.len(), 2_000);
    assert!(rt; is_target(&large));
    let out = print(rt.alloc(), &large)?;
    let written = repeated(rt.alloc(), "@media print{\na{b:c}\nd{e:f}\n}\n", "", 2_000)?;
    assert_eq!(rt; out.as_slice(), written.as_bytes());
    Ok(())
}
