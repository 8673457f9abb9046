//! Which selectors component values spell (Selectors 4, section 18).
#![tactic(auto)]

pub mod examples;
mod fault;
mod laws;
mod read;
mod reading;
mod sign;

pub use fault::SelectorFault;
pub use laws::{places_are_not_read, selectors_are_read_again};
pub use read::read_list;
pub use selector_types::{
    Attribute, Combinator, Compound, Link, Part, Selector, Simple, Specificity, Tail, Test,
    TypeName, is_one_scopable, is_one_simple, places_do_not_count, selector_text_reads,
    selectors_stand_in_a_prelude, specificity, write_list,
};
