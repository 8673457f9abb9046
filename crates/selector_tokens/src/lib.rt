//! What single tokens say in selectors: names, ids, attribute selectors, AN+B and the argument of `:lang()` (Selectors 4).
#![tactic(auto)]

mod argument;
mod name;

pub use argument::{an_plus_b, attribute_of, lone_name};
pub use name::{is_id, lowered, name_text, pseudo_text};
