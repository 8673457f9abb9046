//! Imports of other sheets, read from component values (CSS Cascading 5, section 2).
#![tactic(auto)]

pub mod examples;
mod import;
mod laws;

pub use import::{ImportRule, read_import};
pub use laws::{imports_that_are_read_stand, places_of_imports_are_not_read};
