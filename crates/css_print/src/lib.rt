//! The text of a sheet, as browsers are given it.
#![tactic(auto)]

mod heads;
mod imports;
mod writer;

pub use writer::print;
