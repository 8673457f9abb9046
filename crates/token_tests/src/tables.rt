use prop_table::{is_logical, is_old_feature, is_range_feature, is_split};
use std::test::Fail;

#[test]
fn knows_each_logical_property(rt: HostRuntime) -> Result<(), Fail> {
    let logical =
        "margin-block-start margin-inline-end margin-block margin-inline padding-block-end padding-inline-start padding-block padding-inline inset-block-start inset-inline-end inset-block inset-inline border-block-start border-inline-end-width border-block-end-style border-inline-start-color border-block border-inline border-block-width border-inline-style border-block-color inline-size min-block-size max-inline-size border-start-start-radius border-start-end-radius border-end-start-radius border-end-end-radius inset";
    for name in logical.split(' ') {
        assert!(rt; is_logical(name), "{name}");
    }
    let physical =
        "margin margin-left padding-top top border border-left border-top-width border-top-left-radius width min-height float clear resize display --margin-block margin-blocks block-sizes border-start-radius";
    for name in physical.split(' ') {
        assert!(rt; !is_logical(name), "{name}");
    }
    Ok(())
}

#[test]
fn knows_each_split_property(rt: HostRuntime) -> Result<(), Fail> {
    let split =
        "margin-block margin-inline padding-block padding-inline inset-block inset-inline border-block-width border-inline-width border-block-style border-inline-style border-block-color border-inline-color inset";
    for name in split.split(' ') {
        assert!(rt; is_split(name), "{name}");
    }
    let whole =
        "margin margin-block-start border-block border-inline border-block-start-width inline-size border-start-start-radius inset-block-start";
    for name in whole.split(' ') {
        assert!(rt; !is_split(name), "{name}");
    }
    Ok(())
}

#[test]
fn knows_each_old_feature(rt: HostRuntime) -> Result<(), Fail> {
    let ranges =
        "width height device-width device-height aspect-ratio device-aspect-ratio color color-index monochrome resolution";
    for name in ranges.split(' ') {
        assert!(rt; is_range_feature(name) && is_old_feature(name), "{name}");
    }
    let others = "min-width max-width min-device-aspect-ratio max-resolution orientation scan grid";
    for name in others.split(' ') {
        assert!(rt; !is_range_feature(name) && is_old_feature(name), "{name}");
    }
    let young =
        "hover pointer prefers-color-scheme min-orientation max-grid min-min-width block-size widths";
    for name in young.split(' ') {
        assert!(rt; !is_range_feature(name) && !is_old_feature(name), "{name}");
    }
    Ok(())
}
