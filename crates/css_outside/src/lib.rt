//! The outside of a program: files that it reads by their paths, and outputs that it writes under their names.
//!
//! `Files` and `Outbox` are what a program is given. Contracts name what they tell, a map from names to bytes, and
//! count their faults, so that a failure is answered only where its count rose. The types in memory tell what they hold.
//! Those of the real folder tell nothing, since no contract can say what a system holds.
#![tactic(auto)]

mod files;
mod folder;
mod memory;
mod outbox;
mod put_faults;

pub use files::{Files, FilesFault};
pub use folder::{FolderFiles, FolderOutbox};
pub use memory::{MemoryFiles, MemoryOutbox, SureFiles};
pub use outbox::{Outbox, PutFailed};
