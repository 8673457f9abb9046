//! What selectors are: their tree, their specificity and the text that they are written as (Selectors 4).
#![tactic(auto)]

mod count;
pub mod examples;
mod laws;
mod lone;
mod selector;
mod triple;
mod write;

pub use count::specificity;
pub use laws::{places_do_not_count, selector_text_reads, selectors_stand_in_a_prelude};
pub use lone::{is_one_scopable, is_one_simple};
pub use selector::{
    Attribute, Combinator, Compound, Link, Part, Selector, Simple, Tail, Test, TypeName,
};
pub use triple::Specificity;
pub use write::{write_list, write_name};
