// Files and outputs that lie in memory, which tell what they hold.
mod find;
mod memory_files;
mod memory_outbox;
mod reserve;
mod space;
mod spaces;
mod sure_files;

pub use memory_files::MemoryFiles;
pub use memory_outbox::MemoryOutbox;
pub use sure_files::SureFiles;
