//! Sheets in terms of target sheets: each media list told by lists that older browsers read (Media Queries 3 and 4).
#![tactic(auto)]

pub mod examples;
mod laws;
mod lowering;
mod pass;
mod settled;

pub use laws::{lowered_items_are_printable, media_lists_become_old, plain_items_are_taken};
pub use media_clauses::{Clause, Fact, Literal, clauses};
pub use pass::MediaPass;
