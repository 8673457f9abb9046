//! What graphs of files that import one another are, and the instances that they unfold to (CSS Cascading 5, section 2).
#![tactic(auto)]

mod copies;
pub mod examples;
mod graph;
mod laws;

pub use copies::{copy_condition, copy_conditions, push_import_conditions};
pub use graph::{Graph, Instance, InstancePart, SourceFile};
pub use laws::unfolding_is_whole;
