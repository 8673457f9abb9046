//! Media queries and supports conditions: how they are read (Media Queries 4; Conditional Rules 3). Their trees and how they
//! are written come from `media_spelling`.
#![tactic(auto)]

pub mod examples;
mod fault;
mod feature;
mod laws;
mod mark;
mod query;
mod reading;
mod sign;
mod supports_reading;

pub use fault::MediaFault;
pub use laws::{
    places_of_queries_are_not_read, places_of_supports_are_not_read, queries_are_read_again,
    queries_that_are_read_are_readable, query_texts_are_read, supports_are_read_again,
    supports_texts_are_read, supports_that_are_read_are_readable, supports_that_are_read_stand,
    texts_begin_solid, texts_give_spelled_words,
};
pub use media_spelling::{
    Bound, Condition, Feature, Prefix, Query, Range, Relation, Supports, Value,
    queries_stand_in_a_prelude, supports_stand_in_a_prelude, write_queries, write_supports,
};
pub use query::read_queries;
pub use supports_reading::{read_supports, read_supports_inside};
