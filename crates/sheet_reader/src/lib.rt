//! The sheet of a text, read without a list of its tokens or of its components beside it.
#![tactic(auto)]

mod fault;
mod read;

pub use fault::SheetFault;
pub use read::read_text;
