//! Long texts, and what is read from texts, for the crates that hold tests alone.
#![tactic(auto)]

mod texts;

pub use texts::{components_of, repeated, tokens_of};
