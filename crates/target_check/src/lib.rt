//! Whether a sheet holds nothing that older browsers do not read.
#![tactic(auto)]

mod built_law;
mod declaration;
pub mod examples;
mod media;
mod places_law;
mod selector;
mod sheet;

pub use built_law::built_declarations_are_old;
pub use media::are_target_queries;
pub use places_law::places_are_not_looked_at;
pub use sheet::is_target;
