use css_places::{LineColumn, Place, line_column};
use std::test::Fail;
use test_texts::repeated;

#[test]
fn counts_lines_and_columns(rt: HostRuntime) -> Result<(), Fail> {
    assert_eq!(rt; line_column(b"a\nbc", 0), LineColumn { line: 1, column: 1 });
    assert_eq!(rt; line_column(b"a\nbc", 1), LineColumn { line: 1, column: 2 });
    assert_eq!(rt; line_column(b"a\nbc", 2), LineColumn { line: 2, column: 1 });
    assert_eq!(rt; line_column(b"a\nbc", 4), LineColumn { line: 2, column: 3 });
    Ok(())
}

#[test]
fn counts_in_a_large_text(rt: HostRuntime) -> Result<(), Fail> {
    let text = repeated(rt.alloc(), "abc\n", "", 100_000)?;
    if text.len() < 1_000_000 {
        let last = line_column(text.as_bytes(), 399_998);
        assert_eq!(rt;
            last,
            LineColumn {
                line: 100_000,
                column: 3
            }
        );
    }
    Ok(())
}

#[test]
fn orders_places_by_file_and_offset(rt: HostRuntime) -> Result<(), Fail> {
    let place = Place { file: 1, offset: 5 };
    assert!(rt; place < Place { file: 1, offset: 6 });
    assert!(rt; place < Place { file: 2, offset: 0 });
    assert!(rt; Place { file: 0, offset: 9 } < place);
    Ok(())
}
