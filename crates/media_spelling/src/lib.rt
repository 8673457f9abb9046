//! Media queries and supports conditions: their trees, and how they are spelled and written (Media Queries 4; Conditional
//! Rules 3).
#![tactic(auto)]

mod condition;
pub mod examples;
mod laws;
mod supports;
mod write;

pub use condition::{Bound, Condition, Feature, Prefix, Query, Range, Relation, Value};
pub use laws::{queries_stand_in_a_prelude, spellings_are_formed, supports_stand_in_a_prelude};
pub use supports::Supports;
pub use write::{turned, write_queries, write_supports};
