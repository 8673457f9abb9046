use css_places::PathText;
use css_tokens::List;

/// What a file is found to be.
#[derive(Debug, Drop)]
pub enum Found {
    /// Its bytes, at most 4,194,304 of them.
    Whole(List<u8>),
    /// It has more bytes. They are not kept.
    Long,
    /// There is no such file.
    Missing,
}

/// A path, and what its file was found to be.
#[derive(Debug, Drop)]
pub struct ReadFile {
    pub path: PathText,
    pub found: Found,
}
