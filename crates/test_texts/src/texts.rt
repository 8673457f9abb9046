ghost use Rattle.std.specs.Prelude.{IsTrue, length};
ghost use Rattle.css_tokens.specs.Pairing.{places_rise};

use css_tokens::{
    Component, ComponentFault, List, OutOfMemory, Token, components, places_rise_in_a_text, tokens,
};
use std::alloc::Global;

/// A part so many times, with another text between.
pub fn repeated(
    alloc: Global,
    part: &str,
    between: &str,
    times: usize,
) -> Result<String, OutOfMemory> {
    let mut text = String::new(alloc);
    for time in 0..times {
        if time > 0 {
            text.push_str(between)?;
        }
        text.push_str(part)?;
    }
    Ok(text)
}

/// The tokens of a text, or none where it has none or is too long.
pub fn tokens_of(alloc: Global, text: &str) -> List<Token<'_>>
    ensures { IsTrue (places_rise result (length text.now)) }
{
    places_rise_in_a_text();
    let bytes = text.as_bytes();
    if bytes.len() < 1_000_000 {
        if let Ok(list) = tokens(alloc, bytes) {
            return list;
        }
    }
    List::new(alloc)
}

/// The components of such a text.
pub fn components_of(alloc: Global, text: &str) -> Result<List<Component<'_>>, ComponentFault> {
    let list = tokens_of(alloc, text);
    match u32::try_from(text.len()) {
        Ok(end) => components(alloc, list.as_slice(), end),
        Err(_) => Err(ComponentFault::Memory),
    }
}
