use css_tokens::{List, Text};
use sheet_types::{GroupCondition, Sheet};

/// A file of a graph of imports.
#[derive(Debug, Drop)]
pub struct SourceFile<'a> {
    /// Its path, seen from the folder in which the program runs.
    pub path: Text<'a>,
    /// What stands in it.
    pub bytes: &'a [u8],
    /// The sheet that its bytes spell.
    pub sheet: Sheet<'a>,
    /// One for each import, in order: the number of the file that it names. The first file of the graph is number 0.
    pub targets: List<u32>,
}

/// Files that import one another, the entry first (CSS Cascading 5, section 2).
#[derive(Debug, Drop)]
pub struct Graph<'a> {
    pub files: List<SourceFile<'a>>,
}

/// What of a file an instance is.
#[derive(Clone, Copy, Debug, PartialEq, Eq)]
pub enum InstancePart {
    /// What stands in front of its imports.
    Head,
    /// What stands behind its imports.
    Body,
}

/// A part of a file in its place in the unfolding (CSS Cascading 5, section 2).
#[derive(Debug, Drop)]
pub struct Instance<'a> {
    /// The number of the file. The first file of the graph is number 0.
    pub file: u32,
    pub part: InstancePart,
    /// What has to hold for it, outermost first.
    pub conditions: List<GroupCondition<'a>>,
}
