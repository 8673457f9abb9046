ghost use Rattle.sheet_types.specs.SheetTexts.{block_text, braced_text, declaration_text, declarations_text, ended_declarations, importance_text, items_text, more_declarations, passed_text, printed_item, printed_value, sheet_text};
ghost use Rattle.sheet_types.specs.declared.sheet.Item.{Group as the_group, Style as the_style};
ghost use Rattle.css_tokens.specs.Appends.{AppendsFront};
ghost use Rattle.css_tokens.specs.NameText.{name_text};
ghost use Rattle.css_print.specs.Private.Printed.{braced_group, holds_bytes};
ghost use Rattle.std.specs.Prelude.{◌≡◌, ◌++◌, List, flat_map, map, IfOk, OnErr, OnOk};

use crate::heads::{write_condition, write_passed};
use crate::imports::write_imports;
use css_tokens::{Component, List, OutOfMemory, Text};
use selector_tree::write_list;
use sheet_types::{Declaration, Group, Item, Sheet, Style};
use std::alloc::Global;

// Writes a name by the identifier serialization of CSSOM, and an empty one as nothing.
fn write_name(name: &Text, out: &mut List<u8>) -> Result<(), OutOfMemory>
    ensures ok { OnOk result (out.new ≡ out.old ++ name_text name.now) }
    ensures err { OnErr result (AppendsFront out.old out.new (name_text name.now)) }
{
    if name.as_str().is_empty() {
        return Ok(());
    }
    css_tokens::write_name(name.as_str(), out)
}

// Writes a value, and an empty one as one space.
fn write_value(value: &[Component], out: &mut List<u8>) -> Result<(), OutOfMemory>
    ensures ok { OnOk result (out.new ≡ out.old ++ printed_value value.now) }
    ensures err { OnErr result (AppendsFront out.old out.new (printed_value value.now)) }
{
    match value {
        [] => out.extend_from_slice(b" "),
        [_, ..] => css_tokens::write_value(value, out),
    }
}

// Writes the mark of importance, where there is one.
fn write_importance(important: bool, out: &mut List<u8>) -> Result<(), OutOfMemory>
    ensures ok { OnOk result (out.new ≡ out.old ++ importance_text important) }
    ensures err { OnErr result (AppendsFront out.old out.new (importance_text important)) }
{
    if important {
        return out.extend_from_slice(b"!important");
    }
    Ok(())
}

fn write_declaration(declaration: &Declaration, out: &mut List<u8>) -> Result<(), OutOfMemory>
    ensures ok { OnOk result (out.new ≡ out.old ++ declaration_text declaration.now) }
    ensures err { OnErr result (AppendsFront out.old out.new (declaration_text declaration.now)) }
{
    write_name(&declaration.name, out)?;
    out.extend_from_slice(b":")?;
    write_value(declaration.value.as_slice(), out)?;
    write_importance(declaration.important, out)
}

// Writes declarations, each behind a semicolon.
fn write_more(declarations: &[Declaration], out: &mut List<u8>) -> Result<(), OutOfMemory>
    ensures ok { OnOk result (out.new ≡ out.old ++ more_declarations declarations.now) }
    ensures err { OnErr result (AppendsFront out.old out.new (more_declarations declarations.now)) }
{
    for declaration in declarations {
        out.extend_from_slice(b";")?;
        write_declaration(declaration, out)?;
    }
    Ok(())
}

// Writes declarations joined by semicolons.
fn write_declarations(declarations: &[Declaration], out: &mut List<u8>) -> Result<(), OutOfMemory>
    ensures ok { OnOk result (out.new ≡ out.old ++ declarations_text declarations.now) }
    ensures err { OnErr result (AppendsFront out.old out.new (declarations_text declarations.now)) }
{
    match declarations {
        [] => Ok(()),
        [first, rest @ ..] => {
            write_declaration(first, out)?;
            write_more(rest, out)
        }
    }
}

// Writes a run of declarations, each with a semicolon behind it.
fn write_ended(run: &[Declaration], out: &mut List<u8>) -> Result<(), OutOfMemory>
    ensures ok { OnOk result (out.new ≡ out.old ++ ended_declarations run.now) }
    ensures err { OnErr result (AppendsFront out.old out.new (ended_declarations run.now)) }
{
    for declaration in run {
        write_declaration(declaration, out)?;
        out.extend_from_slice(b";")?;
    }
    Ok(())
}

// Whether anything of an item is printed. Rules and groups stand in at most 64 others, so that each may ask it anew.
#[cycle(printed)]
fn is_printed(item: &Item) -> bool
    ensures { result ≡ holds_bytes (printed_item item.now).among }
{
    match item {
        Item::Style(style) => is_any_printed(style.items.as_slice()),
        Item::Plain(declarations) => !declarations.is_empty(),
        Item::Group(group) => is_any_printed(group.items.as_slice()),
        Item::Passed(_) => true,
        Item::Other(_) => false,
    }
}

// Whether anything of these items is printed.
#[cycle(printed)]
fn is_any_printed(items: &[Item]) -> bool
    ensures { result ≡ holds_bytes (flat_map (λ item. (printed_item item).among) items.now) }
{
    for item in items {
        if is_printed(item) {
            return true;
        }
    }
    false
}

// Writes an item that stands in the sheet, or with others in a block.
#[cycle(print)]
fn write_item(item: &Item, out: &mut List<u8>) -> Result<(), OutOfMemory>
    ensures ok { OnOk result (out.new ≡ out.old ++ (printed_item item.now).among) }
    ensures err { OnErr result (AppendsFront out.old out.new (printed_item item.now).among) }
{
    match item {
        Item::Style(style) => write_style(style, out),
        Item::Plain(declarations) => write_ended(declarations.as_slice(), out),
        Item::Group(group) => write_group(group, out),
        Item::Passed(rule) => write_passed(rule, out),
        Item::Other(_) => Ok(()),
    }
}

// Writes an item that is alone in its block.
#[cycle(print)]
fn write_alone(item: &Item, out: &mut List<u8>) -> Result<(), OutOfMemory>
    ensures ok { OnOk result (out.new ≡ out.old ++ (printed_item item.now).alone) }
    ensures err { OnErr result (AppendsFront out.old out.new (printed_item item.now).alone) }
{
    match item {
        Item::Style(style) => write_style(style, out),
        Item::Plain(declarations) => write_declarations(declarations.as_slice(), out),
        Item::Group(group) => write_group(group, out),
        Item::Passed(rule) => write_passed(rule, out),
        Item::Other(_) => Ok(()),
    }
}

// Writes a style rule, where anything in it is printed.
#[cycle(print)]
fn write_style(style: &Style, out: &mut List<u8>) -> Result<(), OutOfMemory>
    ensures ok { OnOk result (out.new ≡ out.old ++ (printed_item (the_style style.now)).among) }
    ensures err { OnErr result (AppendsFront out.old out.new (printed_item (the_style style.now)).among) }
{
    if is_any_printed(style.items.as_slice()) {
        return write_rule(style, out);
    }
    Ok(())
}

// Writes the selector list of a style rule and its block, and a line feed behind it.
#[cycle(print)]
fn write_rule(style: &Style, out: &mut List<u8>) -> Result<(), OutOfMemory>
    ensures ok { OnOk result (out.new ≡ out.old ++ braced_text style.now.selectors (block_text (map printed_item style.now.items))) }
    ensures err { OnErr result (AppendsFront out.old out.new (braced_text style.now.selectors (block_text (map printed_item style.now.items)))) }
{
    write_list(style.selectors.as_slice(), out)?;
    out.extend_from_slice(b"{")?;
    write_block(style.items.as_slice(), out)?;
    out.extend_from_slice(b"}\n")
}

// Writes a group, where anything in it is printed.
#[cycle(print)]
fn write_group(group: &Group, out: &mut List<u8>) -> Result<(), OutOfMemory>
    ensures ok { OnOk result (out.new ≡ out.old ++ (printed_item (the_group group.now)).among) }
    ensures err { OnErr result (AppendsFront out.old out.new (printed_item (the_group group.now)).among) }
{
    if is_any_printed(group.items.as_slice()) {
        return write_lines(group, out);
    }
    Ok(())
}

// Writes what stands before the block of a group, and the block on lines of its own.
#[cycle(print)]
fn write_lines(group: &Group, out: &mut List<u8>) -> Result<(), OutOfMemory>
    ensures ok { OnOk result (out.new ≡ out.old ++ braced_group group.now.condition (items_text group.now.items)) }
    ensures err { OnErr result (AppendsFront out.old out.new (braced_group group.now.condition (items_text group.now.items))) }
{
    write_condition(&group.condition, out)?;
    out.extend_from_slice(b"{\n")?;
    write_items(group.items.as_slice(), out)?;
    out.extend_from_slice(b"}\n")
}

// Writes what stands in a block.
#[cycle(print)]
fn write_block(items: &[Item], out: &mut List<u8>) -> Result<(), OutOfMemory>
    ensures ok { OnOk result (out.new ≡ out.old ++ block_text (map printed_item items.now)) }
    ensures err { OnErr result (AppendsFront out.old out.new (block_text (map printed_item items.now))) }
{
    match items {
        [] => Ok(()),
        [item] => write_alone(item, out),
        [_, _, ..] => write_items(items, out),
    }
}

// Writes items one after another.
#[cycle(print)]
fn write_items(items: &[Item], out: &mut List<u8>) -> Result<(), OutOfMemory>
    ensures ok { OnOk result (out.new ≡ out.old ++ flat_map (λ item. (printed_item item).among) items.now) }
    ensures err { OnErr result (AppendsFront out.old out.new (flat_map (λ item. (printed_item item).among) items.now)) }
{
    for item in items {
        write_item(item, out)?;
    }
    Ok(())
}

/// The text of a sheet: its imports, and then each rule on a line of its own, and a group on lines of its own, with no white space that could be left
/// out (CSSOM, sections 6.4 and 6.7; Conditional Rules 3, section 2). A rule that declares nothing is not printed, nor is a group
/// in which nothing is, nor an at-rule of another name. It refuses nothing, want of memory aside.
pub fn print(alloc: Global, sheet: &Sheet) -> Result<List<u8>, OutOfMemory>
    ensures { IfOk result (λ text. text ≡ sheet_text sheet.now) }
{
    let mut text = List::new(alloc);
    write_imports(sheet.imports.as_slice(), &mut text)?;
    write_items(sheet.items.as_slice(), &mut text)?;
    Ok(text)
}
