//! The files that an entry reaches by what they name: they are read in waves, each once, and numbered depth first.
#![tactic(auto)]

pub mod examples;
mod fault;
mod found;
mod gathering;
mod laws;
mod learning;
mod loading;
mod numbering;
mod read_file;
mod read_wave;
mod targets;

pub use fault::LoadFault;
pub use found::{Found, ReadFile};
pub use gathering::{Gathered, gather};
pub use laws::{
    files_have_one_number, numbers_reach_the_waves, paths_stand_in_one_wave, waves_have_one_end,
};
pub use loading::{Loaded, load_files};
pub use numbering::module_order;
pub use targets::Targets;
