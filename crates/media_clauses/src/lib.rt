//! Media lists in terms of target sheets: the clauses of a list, and the lists that tell it (Media Queries 3 and 4).
#![tactic(auto)]

mod clause;
mod clause_list;
mod copied;
mod count;
pub mod examples;
mod laws;
mod lower;
mod plain;

pub use clause::{Clause, Fact, Literal};
pub use clause_list::clauses;
pub use count::count_clauses;
pub use laws::{
    clauses_print_by_literals, clauses_tell_the_list, lowered_lists_are_old,
    lowered_lists_are_readable, lowered_lists_hold, ranges_that_are_read_are_known,
};
pub use lower::lower_queries;
pub use plain::are_plain;
