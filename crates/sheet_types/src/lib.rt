//! What sheets are: their tree, what they say, and the text that they print as (CSS Syntax 3, section 5; CSS Nesting 1).
#![tactic(auto)]

pub mod examples;
mod laws;
mod sheet;

pub use laws::{bare_items_say, passed_rules_say_their_texts};
pub use sheet::{
    Declaration, Group, GroupCondition, Import, Item, LayerName, Passed, PassedKind, Sheet, Style,
};
