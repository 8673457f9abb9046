//! How selectors are written: the text of the component values that each is spelled with (CSSOM, section 5.2).

ghost use Rattle.css_tokens.specs.Appends.{AppendsFront};
ghost use Rattle.css_tokens.specs.NameText.{name_text};
ghost use Rattle.css_tokens.specs.StringText.{string_text};
ghost use Rattle.selector_types.specs.SelectorFold.{combinator_of, compound_of, simple_of};
ghost use Rattle.selector_types.specs.Spelling.{attribute_spelling, combinator_spelling, compound_text, ends_in_dashes, lead_spelling, list_text, selector_text, simple_text, state_spelling, tail_spelling, test_spelling, text_of, type_spelling};
ghost use Rattle.selector_types.specs.Private.Texts.{comma_text, links_text, parts_text};
ghost use Rattle.std.specs.Prelude.{◌≡◌, ◌++◌, ◌∷◌, [], codes, flat_map, IfOk, OnErr, OnOk, Some};

use crate::selector::{
    Attribute, Combinator, Compound, Link, Part, Selector, Simple, Tail, Test, TypeName,
};
use css_tokens::{Boxed, List, OutOfMemory, Text};

fn write_bytes(bytes: &[u8], out: &mut List<u8>) -> Result<(), OutOfMemory>
    ensures ok { OnOk result (out.new ≡ out.old ++ bytes.now) }
    ensures err { OnErr result (AppendsFront out.old out.new bytes.now) }
{
    out.extend_from_slice(bytes)
}

/// Writes a text behind a mark.
fn write_behind(mark: &[u8], text: &Text, out: &mut List<u8>) -> Result<(), OutOfMemory>
    ensures ok { OnOk result (out.new ≡ out.old ++ (mark.now ++ text.now)) }
    ensures err { OnErr result (AppendsFront out.old out.new (mark.now ++ text.now)) }
{
    write_bytes(mark, out)?;
    write_bytes(text.as_str().as_bytes(), out)
}

/// Writes a name by the identifier serialization of CSSOM, and an empty one as nothing.
pub fn write_name(name: &str, out: &mut List<u8>) -> Result<(), OutOfMemory>
    ensures ok { OnOk result (out.new ≡ out.old ++ name_text name.now) }
    ensures err { OnErr result (AppendsFront out.old out.new (name_text name.now)) }
{
    if name.is_empty() {
        return Ok(());
    }
    css_tokens::write_name(name, out)
}

/// Writes a name behind a mark.
fn write_marked(mark: &[u8], name: &Text, out: &mut List<u8>) -> Result<(), OutOfMemory>
    ensures ok { OnOk result (out.new ≡ out.old ++ (mark.now ++ name_text name.now)) }
    ensures err { OnErr result (AppendsFront out.old out.new (mark.now ++ name_text name.now)) }
{
    write_bytes(mark, out)?;
    write_name(name.as_str(), out)
}

#[tactic(auto, using(crate::proofs::SpellingTexts::leaf_texts))]
fn write_type(kind: &TypeName, out: &mut List<u8>) -> Result<(), OutOfMemory>
    ensures ok { OnOk result (out.new ≡ out.old ++ text_of (type_spelling kind.now)) }
    ensures err { OnErr result (AppendsFront out.old out.new (text_of (type_spelling kind.now))) }
{
    match kind {
        TypeName::None => write_bytes(b"", out),
        TypeName::Universal => write_bytes(b"*", out),
        TypeName::Name(name) => write_name(name.as_str(), out),
    }
}

/// Writes an operator and a value.
fn write_value(operator: &[u8], value: &Text, out: &mut List<u8>) -> Result<(), OutOfMemory>
    ensures ok { OnOk result (out.new ≡ out.old ++ (operator.now ++ string_text value.now)) }
    ensures err { OnErr result (AppendsFront out.old out.new (operator.now ++ string_text value.now)) }
{
    write_bytes(operator, out)?;
    css_tokens::write_string(value.as_str(), out)
}

#[tactic(auto, using(crate::proofs::SpellingTexts::leaf_texts))]
fn write_test(test: Test, value: &Text, out: &mut List<u8>) -> Result<(), OutOfMemory>
    ensures ok { OnOk result (out.new ≡ out.old ++ text_of (test_spelling test value.now)) }
    ensures err { OnErr result (AppendsFront out.old out.new (text_of (test_spelling test value.now))) }
{
    match test {
        Test::Has => write_bytes(b"", out),
        Test::Equals => write_value(b"=", value, out),
        Test::Word => write_value(b"~=", value, out),
        Test::Dash => write_value(b"|=", value, out),
        Test::Prefix => write_value(b"^=", value, out),
        Test::Suffix => write_value(b"$=", value, out),
        Test::Contains => write_value(b"*=", value, out),
    }
}

fn write_attribute(attribute: &Attribute, out: &mut List<u8>) -> Result<(), OutOfMemory>
    ensures ok { OnOk result (out.new ≡ out.old ++ text_of (attribute_spelling attribute.now ∷ [])) }
    ensures err { OnErr result (AppendsFront out.old out.new (text_of (attribute_spelling attribute.now ∷ []))) }
{
    write_marked(b"[", &attribute.name, out)?;
    write_test(attribute.test, &attribute.value, out)?;
    write_bytes(b"]", out)
}

fn write_states(states: &[Text], out: &mut List<u8>) -> Result<(), OutOfMemory>
    ensures ok { OnOk result (out.new ≡ out.old ++ flat_map (λ s. codes ":" ++ s) states.now) }
    ensures err { OnErr result (AppendsFront out.old out.new (flat_map (λ s. codes ":" ++ s) states.now)) }
{
    for state in states {
        write_behind(b":", state, out)?;
    }
    Ok(())
}

/// Writes a pseudo-element and its states.
fn write_element(tail: &Tail, out: &mut List<u8>) -> Result<(), OutOfMemory>
    ensures ok { OnOk result (out.new ≡ out.old ++ text_of (tail_spelling (Some tail.now))) }
    ensures err { OnErr result (AppendsFront out.old out.new (text_of (tail_spelling (Some tail.now)))) }
{
    write_behind(b"::", &tail.element, out)?;
    write_states(tail.states.as_slice(), out)
}

fn write_tail(tail: &Option<Boxed<Tail>>, out: &mut List<u8>) -> Result<(), OutOfMemory>
    ensures ok { OnOk result (out.new ≡ out.old ++ text_of (tail_spelling tail.now)) }
    ensures err { OnErr result (AppendsFront out.old out.new (text_of (tail_spelling tail.now))) }
{
    match tail {
        None => write_bytes(b"", out),
        Some(tail) => write_element(tail.get(), out),
    }
}

#[tactic(auto, using(crate::proofs::SpellingTexts::leaf_texts))]
fn write_combinator(
    dashes: bool,
    combinator: Combinator,
    out: &mut List<u8>,
) -> Result<(), OutOfMemory>
    ensures ok { OnOk result (out.new ≡ out.old ++ text_of (combinator_spelling dashes combinator)) }
    ensures err { OnErr result (AppendsFront out.old out.new (text_of (combinator_spelling dashes combinator))) }
{
    match combinator {
        Combinator::Descendant => write_bytes(b" ", out),
        Combinator::Child if dashes => write_bytes(b" >", out),
        Combinator::Child => write_bytes(b">", out),
        Combinator::Next => write_bytes(b"+", out),
        Combinator::Later => write_bytes(b"~", out),
    }
}

fn write_lead(lead: Option<Combinator>, out: &mut List<u8>) -> Result<(), OutOfMemory>
    ensures ok { OnOk result (out.new ≡ out.old ++ text_of (lead_spelling lead)) }
    ensures err { OnErr result (AppendsFront out.old out.new (text_of (lead_spelling lead))) }
{
    match lead {
        None => write_bytes(b"", out),
        Some(combinator) => write_combinator(false, combinator, out),
    }
}

fn ends_in_dashes(bytes: &[u8]) -> bool
    ensures { result ≡ ends_in_dashes bytes.now }
{
    bytes.ends_with(b"--")
}

/// Writes a comma, where one is wanted.
fn write_comma(comma: bool, out: &mut List<u8>) -> Result<(), OutOfMemory>
    ensures ok { OnOk result (out.new ≡ out.old ++ comma_text comma) }
    ensures err { OnErr result (AppendsFront out.old out.new (comma_text comma)) }
{
    if comma {
        write_bytes(b",", out)
    } else {
        write_bytes(b"", out)
    }
}

#[cycle(writes)]
#[tactic(auto, using(crate::proofs::SpellingTexts::simple_texts))]
fn write_simple(simple: &Simple, out: &mut List<u8>) -> Result<(), OutOfMemory>
    ensures ok { OnOk result (out.new ≡ out.old ++ simple_text simple.now) }
    ensures err { OnErr result (AppendsFront out.old out.new (simple_text simple.now)) }
{
    match simple {
        Simple::Class(name) => write_marked(b".", name, out),
        Simple::Id(name) => write_marked(b"#", name, out),
        Simple::Attribute(attribute) => write_attribute(attribute.get(), out),
        Simple::Pseudo(text) => write_behind(b":", text, out),
        Simple::Not(list) => write_call(b":not(", list.as_slice(), out),
        Simple::Is(list) => write_call(b":is(", list.as_slice(), out),
        Simple::Where(list) => write_call(b":where(", list.as_slice(), out),
        Simple::Parent => write_bytes(b"&", out),
        Simple::Local(compound) => write_scope(b":local(", compound.get(), out),
        Simple::Global(compound) => write_scope(b":global(", compound.get(), out),
        Simple::Foreign => write_bytes(b"", out),
    }
}

/// Writes a list in a function.
#[cycle(writes)]
fn write_call(name: &[u8], list: &[Selector], out: &mut List<u8>) -> Result<(), OutOfMemory>
    ensures ok { OnOk result (out.new ≡ out.old ++ (name.now ++ (list_text list.now ++ codes ")"))) }
    ensures err { OnErr result (AppendsFront out.old out.new (name.now ++ (list_text list.now ++ codes ")"))) }
{
    write_bytes(name, out)?;
    write_list(list, out)?;
    write_bytes(b")", out)
}

/// Writes a compound in a function.
#[cycle(writes)]
fn write_scope(name: &[u8], compound: &Compound, out: &mut List<u8>) -> Result<(), OutOfMemory>
    ensures ok { OnOk result (out.new ≡ out.old ++ (name.now ++ (compound_text compound.now ++ codes ")"))) }
    ensures err { OnErr result (AppendsFront out.old out.new (name.now ++ (compound_text compound.now ++ codes ")"))) }
{
    write_bytes(name, out)?;
    write_compound(compound, out)?;
    write_bytes(b")", out)
}

#[cycle(writes)]
fn write_part(part: &Part, out: &mut List<u8>) -> Result<(), OutOfMemory>
    ensures ok { OnOk result (out.new ≡ out.old ++ simple_text (simple_of part.now)) }
    ensures err { OnErr result (AppendsFront out.old out.new (simple_text (simple_of part.now))) }
{
    match part {
        Part::Placed(simple, _) => write_simple(simple, out),
    }
}

#[cycle(writes)]
fn write_parts(parts: &[Part], out: &mut List<u8>) -> Result<(), OutOfMemory>
    ensures ok { OnOk result (out.new ≡ out.old ++ parts_text parts.now) }
    ensures err { OnErr result (AppendsFront out.old out.new (parts_text parts.now)) }
{
    for part in parts {
        write_part(part, out)?;
    }
    Ok(())
}

#[cycle(writes)]
fn write_compound_text(compound: &Compound, out: &mut List<u8>) -> Result<(), OutOfMemory>
    ensures ok { OnOk result (out.new ≡ out.old ++ compound_text compound.now) }
    ensures err { OnErr result (AppendsFront out.old out.new (compound_text compound.now)) }
{
    write_type(&compound.kind, out)?;
    write_parts(compound.parts.as_slice(), out)?;
    write_tail(&compound.tail, out)
}

/// Writes a compound, and tells whether its text ends in `--`.
#[cycle(writes)]
fn write_compound(compound: &Compound, out: &mut List<u8>) -> Result<bool, OutOfMemory>
    ensures ok { OnOk result (out.new ≡ out.old ++ compound_text compound.now) }
    ensures dashes { IfOk result (λ d. d ≡ ends_in_dashes (compound_text compound.now)) }
    ensures err { OnErr result (AppendsFront out.old out.new (compound_text compound.now)) }
{
    let from = out.len();
    write_compound_text(compound, out)?;
    Ok(ends_in_dashes(&out.as_slice()[from..]))
}

/// Writes a combinator behind a text that ends in `--` or does not, and the compound behind it, and tells whether its text
/// ends in `--`.
#[cycle(writes)]
fn write_step(
    dashes: bool,
    combinator: Combinator,
    compound: &Compound,
    out: &mut List<u8>,
) -> Result<bool, OutOfMemory>
    ensures ok { OnOk result (out.new ≡ out.old ++ (text_of (combinator_spelling dashes combinator) ++ compound_text compound.now)) }
    ensures dashes { IfOk result (λ d. d ≡ ends_in_dashes (compound_text compound.now)) }
    ensures err { OnErr result (AppendsFront out.old out.new (text_of (combinator_spelling dashes combinator) ++ compound_text compound.now)) }
{
    write_combinator(dashes, combinator, out)?;
    write_compound(compound, out)
}

#[cycle(writes)]
fn write_link(dashes: bool, link: &Link, out: &mut List<u8>) -> Result<bool, OutOfMemory>
    ensures ok { OnOk result (out.new ≡ out.old ++ (text_of (combinator_spelling dashes (combinator_of link.now)) ++ compound_text (compound_of link.now))) }
    ensures dashes { IfOk result (λ d. d ≡ ends_in_dashes (compound_text (compound_of link.now))) }
    ensures err { OnErr result (AppendsFront out.old out.new (text_of (combinator_spelling dashes (combinator_of link.now)) ++ compound_text (compound_of link.now))) }
{
    match link {
        Link::Linked(combinator, compound) => write_step(dashes, *combinator, compound, out),
    }
}

#[cycle(writes)]
fn write_links(first_dashes: bool, links: &[Link], out: &mut List<u8>) -> Result<(), OutOfMemory>
    ensures ok { OnOk result (out.new ≡ out.old ++ links_text first_dashes links.now) }
    ensures err { OnErr result (AppendsFront out.old out.new (links_text first_dashes links.now)) }
{
    let mut dashes = first_dashes;
    for link in links {
        dashes = write_link(dashes, link, out)?;
    }
    Ok(())
}

#[cycle(writes)]
fn write_selector(selector: &Selector, out: &mut List<u8>) -> Result<(), OutOfMemory>
    ensures ok { OnOk result (out.new ≡ out.old ++ selector_text selector.now) }
    ensures err { OnErr result (AppendsFront out.old out.new (selector_text selector.now)) }
{
    write_lead(selector.lead, out)?;
    let dashes = write_compound(&selector.first, out)?;
    write_links(dashes, selector.rest.as_slice(), out)
}

/// Writes a selector list behind what `out` holds, by the table of printing: no space round `,`, `>`, `+` and `~`, but one
/// space before a `>` behind `--`, since `-->` would be read as one token; one space for a descendant; attributes in
/// brackets with their value in double quotes and without their flag; pseudo-elements with two colons. A refusal leaves a
/// front of the text.
#[cycle(writes)]
pub fn write_list(list: &[Selector], out: &mut List<u8>) -> Result<(), OutOfMemory>
    ensures ok { OnOk result (out.new ≡ out.old ++ list_text list.now) }
    ensures err { OnErr result (AppendsFront out.old out.new (list_text list.now)) }
{
    let mut comma = false;
    for selector in list {
        write_comma(comma, out)?;
        write_selector(selector, out)?;
        comma = true;
    }
    Ok(())
}
