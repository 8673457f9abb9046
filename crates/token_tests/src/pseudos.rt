use prop_table::is_old_pseudo;
use std::test::Fail;

#[test]
fn knows_each_old_pseudo(rt: HostRuntime) -> Result<(), Fail> {
    let old =
        "root first-child last-child first-of-type last-of-type only-child only-of-type empty link visited active hover focus target enabled disabled checked nth-child(odd) nth-last-child(2n) nth-of-type(1) nth-last-of-type(n) lang(en) first-line first-letter before after";
    for text in old.split(' ') {
        assert!(rt; is_old_pseudo(text), "{text}");
    }
    Ok(())
}

#[test]
fn knows_no_younger_pseudo(rt: HostRuntime) -> Result<(), Fail> {
    let young =
        "focus-visible focus-within selection placeholder is(a) not(a) HOVER hover-x x-hover -webkit-any";
    for text in young.split(' ') {
        assert!(rt; !is_old_pseudo(text), "{text}");
    }
    Ok(())
}
