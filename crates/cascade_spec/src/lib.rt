//! What wins: documents, environments, matching, and the cascade of entries (CSS Cascading and Inheritance 5).
//!
//! The definitions stand in `specs/`. This crate has the types that they speak of.
#![tactic(auto)]

mod document;
mod environment;
pub mod examples;
pub mod laws;
mod pass;

pub use document::{Document, Element, ScopedName, TailHolds};
pub use environment::{Environment, Shorthand};
pub use pass::{Chain, Pass, lower};
