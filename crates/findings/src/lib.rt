//! What cannot be expressed for older browsers, and which of it is named, and which limit a sheet passes.
#![tactic(auto)]

mod clean;
mod condition;
pub mod examples;
mod fault;
mod first;
mod first_law;
mod limit;
mod media;
mod old_law;
mod selector;
mod sheet;
mod whole_law;

pub use clean::{Clean, check};
pub use fault::CheckFault;
pub use first_law::the_first_finding_is_named;
pub use old_law::clean_selectors_are_old;
pub use whole_law::clean_sheets_are_whole;
