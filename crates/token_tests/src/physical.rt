use css_tokens::{ComponentFault, List, write_value};
use prop_table::{Direction, Mode, Writing, physical};
use std::alloc::Global;
use std::process::Abort;
use std::test::Fail;
use test_texts::components_of;

// Declarations of each kind of logical property, and some that are none.
const DECLARATIONS: &str = "\
margin-block-start: 1px
margin-block-end: 1px
margin-inline-start: 1px
margin-inline-end: 1px
padding-block-start: 1px
padding-inline-end: 1px
inset-block-end: 1px
inset-inline-start: 1px
border-block-start: 1px solid
border-inline-end: 1px solid
border-block-end-width: thin
border-inline-start-style: dotted
border-inline-end-color: red
margin-block: 1px
margin-inline: 1px 2px
padding-block: 1px 2px
padding-inline: 1px
inset-block: 1px 2px
inset-inline: 1px 2px
border-block-width: 1px 2px
border-inline-style: solid dotted
border-block-color: red
border-inline: 1px solid
border-block: 1px solid
inset: 1px 2px 3px
inline-size: 1px
min-inline-size: 1px
max-inline-size: 1px
block-size: 1px
min-block-size: 1px
max-block-size: 1px
border-start-start-radius: 1px
border-start-end-radius: 1px
border-end-start-radius: 1px
border-end-end-radius: 1px
float: inline-start
clear: INLINE-end
resize: inline
resize: block
margin-inline: 1px 2px 3px
padding-block: inherit 1px
margin-left: 1px
float: left";

// What a declaration stands for in a mode, as it is written.
fn written(alloc: Global, name: &str, value: &str, mode: Mode) -> Result<List<u8>, ComponentFault> {
    let components = components_of(alloc, value)?;
    let mut out = List::new(alloc);
    let declarations = physical(alloc, name, components.as_slice(), mode)?;
    for declaration in declarations.as_slice() {
        out.extend_from_slice(declaration.name.as_str().as_bytes())?;
        out.extend_from_slice(b":")?;
        write_value(declaration.value.as_slice(), &mut out)?;
        out.extend_from_slice(b";")?;
    }
    Ok(out)
}

// Each line is what the declaration of this line stands for.
fn check(rt: &impl Abort, alloc: Global, mode: Mode, lines: &str) -> Result<(), Fail> {
    let count = DECLARATIONS.split('\n').count();
    assert_eq!(rt; lines.split('\n').count(), count);
    for (declaration, want) in DECLARATIONS.split('\n').zip(lines.split('\n')) {
        let (name, value) = declaration.split_once(':').ok_or("no colon")?;
        let out = written(alloc, name, value, mode)?;
        assert_eq!(rt;
            out.as_slice(),
            want.as_bytes(),
            "{declaration} in {mode:?}"
        );
    }
    Ok(())
}

#[test]
fn physical_in_horizontal_tb_ltr(rt: HostRuntime) -> Result<(), Fail> {
    let mode = Mode {
        writing: Writing::HorizontalTb,
        direction: Direction::Ltr,
    };
    check(
        &rt,
        rt.alloc(),
        mode,
        "\
margin-top:1px;
margin-bottom:1px;
margin-left:1px;
margin-right:1px;
padding-top:1px;
padding-right:1px;
bottom:1px;
left:1px;
border-top:1px solid;
border-right:1px solid;
border-bottom-width:thin;
border-left-style:dotted;
border-right-color:red;
margin-top:1px;margin-bottom:1px;
margin-left:1px;margin-right:2px;
padding-top:1px;padding-bottom:2px;
padding-left:1px;padding-right:1px;
top:1px;bottom:2px;
left:1px;right:2px;
border-top-width:1px;border-bottom-width:2px;
border-left-style:solid;border-right-style:dotted;
border-top-color:red;border-bottom-color:red;
border-left:1px solid;border-right:1px solid;
border-top:1px solid;border-bottom:1px solid;
top:1px;right:2px;bottom:3px;left:2px;
width:1px;
min-width:1px;
max-width:1px;
height:1px;
min-height:1px;
max-height:1px;
border-top-left-radius:1px;
border-top-right-radius:1px;
border-bottom-left-radius:1px;
border-bottom-right-radius:1px;
float:left;
clear:right;
resize:horizontal;
resize:vertical;


margin-left:1px;
float:left;",
    )
}

#[test]
fn physical_in_horizontal_tb_rtl(rt: HostRuntime) -> Result<(), Fail> {
    let mode = Mode {
        writing: Writing::HorizontalTb,
        direction: Direction::Rtl,
    };
    check(
        &rt,
        rt.alloc(),
        mode,
        "\
margin-top:1px;
margin-bottom:1px;
margin-right:1px;
margin-left:1px;
padding-top:1px;
padding-left:1px;
bottom:1px;
right:1px;
border-top:1px solid;
border-left:1px solid;
border-bottom-width:thin;
border-right-style:dotted;
border-left-color:red;
margin-top:1px;margin-bottom:1px;
margin-right:1px;margin-left:2px;
padding-top:1px;padding-bottom:2px;
padding-right:1px;padding-left:1px;
top:1px;bottom:2px;
right:1px;left:2px;
border-top-width:1px;border-bottom-width:2px;
border-right-style:solid;border-left-style:dotted;
border-top-color:red;border-bottom-color:red;
border-right:1px solid;border-left:1px solid;
border-top:1px solid;border-bottom:1px solid;
top:1px;right:2px;bottom:3px;left:2px;
width:1px;
min-width:1px;
max-width:1px;
height:1px;
min-height:1px;
max-height:1px;
border-top-right-radius:1px;
border-top-left-radius:1px;
border-bottom-right-radius:1px;
border-bottom-left-radius:1px;
float:right;
clear:left;
resize:horizontal;
resize:vertical;


margin-left:1px;
float:left;",
    )
}

#[test]
fn physical_in_vertical_rl_ltr(rt: HostRuntime) -> Result<(), Fail> {
    let mode = Mode {
        writing: Writing::VerticalRl,
        direction: Direction::Ltr,
    };
    check(
        &rt,
        rt.alloc(),
        mode,
        "\
margin-right:1px;
margin-left:1px;
margin-top:1px;
margin-bottom:1px;
padding-right:1px;
padding-bottom:1px;
left:1px;
top:1px;
border-right:1px solid;
border-bottom:1px solid;
border-left-width:thin;
border-top-style:dotted;
border-bottom-color:red;
margin-right:1px;margin-left:1px;
margin-top:1px;margin-bottom:2px;
padding-right:1px;padding-left:2px;
padding-top:1px;padding-bottom:1px;
right:1px;left:2px;
top:1px;bottom:2px;
border-right-width:1px;border-left-width:2px;
border-top-style:solid;border-bottom-style:dotted;
border-right-color:red;border-left-color:red;
border-top:1px solid;border-bottom:1px solid;
border-right:1px solid;border-left:1px solid;
top:1px;right:2px;bottom:3px;left:2px;
height:1px;
min-height:1px;
max-height:1px;
width:1px;
min-width:1px;
max-width:1px;
border-top-right-radius:1px;
border-bottom-right-radius:1px;
border-top-left-radius:1px;
border-bottom-left-radius:1px;
float:left;
clear:right;
resize:vertical;
resize:horizontal;


margin-left:1px;
float:left;",
    )
}

#[test]
fn physical_in_vertical_rl_rtl(rt: HostRuntime) -> Result<(), Fail> {
    let mode = Mode {
        writing: Writing::VerticalRl,
        direction: Direction::Rtl,
    };
    check(
        &rt,
        rt.alloc(),
        mode,
        "\
margin-right:1px;
margin-left:1px;
margin-bottom:1px;
margin-top:1px;
padding-right:1px;
padding-top:1px;
left:1px;
bottom:1px;
border-right:1px solid;
border-top:1px solid;
border-left-width:thin;
border-bottom-style:dotted;
border-top-color:red;
margin-right:1px;margin-left:1px;
margin-bottom:1px;margin-top:2px;
padding-right:1px;padding-left:2px;
padding-bottom:1px;padding-top:1px;
right:1px;left:2px;
bottom:1px;top:2px;
border-right-width:1px;border-left-width:2px;
border-bottom-style:solid;border-top-style:dotted;
border-right-color:red;border-left-color:red;
border-bottom:1px solid;border-top:1px solid;
border-right:1px solid;border-left:1px solid;
top:1px;right:2px;bottom:3px;left:2px;
height:1px;
min-height:1px;
max-height:1px;
width:1px;
min-width:1px;
max-width:1px;
border-bottom-right-radius:1px;
border-top-right-radius:1px;
border-bottom-left-radius:1px;
border-top-left-radius:1px;
float:right;
clear:left;
resize:vertical;
resize:horizontal;


margin-left:1px;
float:left;",
    )
}

#[test]
fn physical_in_vertical_lr_ltr(rt: HostRuntime) -> Result<(), Fail> {
    let mode = Mode {
        writing: Writing::VerticalLr,
        direction: Direction::Ltr,
    };
    check(
        &rt,
        rt.alloc(),
        mode,
        "\
margin-left:1px;
margin-right:1px;
margin-top:1px;
margin-bottom:1px;
padding-left:1px;
padding-bottom:1px;
right:1px;
top:1px;
border-left:1px solid;
border-bottom:1px solid;
border-right-width:thin;
border-top-style:dotted;
border-bottom-color:red;
margin-left:1px;margin-right:1px;
margin-top:1px;margin-bottom:2px;
padding-left:1px;padding-right:2px;
padding-top:1px;padding-bottom:1px;
left:1px;right:2px;
top:1px;bottom:2px;
border-left-width:1px;border-right-width:2px;
border-top-style:solid;border-bottom-style:dotted;
border-left-color:red;border-right-color:red;
border-top:1px solid;border-bottom:1px solid;
border-left:1px solid;border-right:1px solid;
top:1px;right:2px;bottom:3px;left:2px;
height:1px;
min-height:1px;
max-height:1px;
width:1px;
min-width:1px;
max-width:1px;
border-top-left-radius:1px;
border-bottom-left-radius:1px;
border-top-right-radius:1px;
border-bottom-right-radius:1px;
float:left;
clear:right;
resize:vertical;
resize:horizontal;


margin-left:1px;
float:left;",
    )
}

#[test]
fn physical_in_vertical_lr_rtl(rt: HostRuntime) -> Result<(), Fail> {
    let mode = Mode {
        writing: Writing::VerticalLr,
        direction: Direction::Rtl,
    };
    check(
        &rt,
        rt.alloc(),
        mode,
        "\
margin-left:1px;
margin-right:1px;
margin-bottom:1px;
margin-top:1px;
padding-left:1px;
padding-top:1px;
right:1px;
bottom:1px;
border-left:1px solid;
border-top:1px solid;
border-right-width:thin;
border-bottom-style:dotted;
border-top-color:red;
margin-left:1px;margin-right:1px;
margin-bottom:1px;margin-top:2px;
padding-left:1px;padding-right:2px;
padding-bottom:1px;padding-top:1px;
left:1px;right:2px;
bottom:1px;top:2px;
border-left-width:1px;border-right-width:2px;
border-bottom-style:solid;border-top-style:dotted;
border-left-color:red;border-right-color:red;
border-bottom:1px solid;border-top:1px solid;
border-left:1px solid;border-right:1px solid;
top:1px;right:2px;bottom:3px;left:2px;
height:1px;
min-height:1px;
max-height:1px;
width:1px;
min-width:1px;
max-width:1px;
border-bottom-left-radius:1px;
border-top-left-radius:1px;
border-bottom-right-radius:1px;
border-top-right-radius:1px;
float:right;
clear:left;
resize:vertical;
resize:horizontal;


margin-left:1px;
float:left;",
    )
}
