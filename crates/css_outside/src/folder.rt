// The files of the real folder and the standard streams. They tell nothing: what the system holds is not known here.
mod folder_files;
mod folder_outbox;

pub use folder_files::FolderFiles;
pub use folder_outbox::FolderOutbox;
