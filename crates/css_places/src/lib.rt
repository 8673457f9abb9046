//! Places in files and what is found there, paths of files, and addresses of what they name.
#![tactic(auto)]

mod address;
pub mod examples;
mod fault;
mod finding;
mod laws;
mod path;
mod place;
mod scheme;
mod target;
mod walk;

pub use address::rebase;
pub use fault::PathFault;
pub use finding::{Code, Finding, LimitKind};
pub use laws::addresses_lead_somewhere;
pub use path::PathText;
pub use place::{LineColumn, Place, line_column};
pub use target::resolve;
