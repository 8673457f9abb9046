ghost use Rattle.std.specs.Prelude.{◌≡◌, ◌<◌, ◌-◌, ◌^◌, length};
ghost use Rattle.css_places.specs.Lines.{line_of, column_of};

/// A place in a file. Places are ordered by file, then by offset.
#[derive(Clone, Copy, Debug, PartialEq, Eq, PartialOrd, Ord)]
pub struct Place {
    /// The number of the file.
    pub file: u32,
    /// How many bytes of the file stand before it.
    pub offset: u32,
}

/// A place as people count: lines and columns begin at 1, and a column is counted in bytes.
#[derive(Clone, Copy, Debug, PartialEq, Eq)]
pub struct LineColumn {
    pub line: u32,
    pub column: u32,
}

/// The line and column of a place in a text, which LF bytes cut into lines. A place past its end counts as the end. Takes no
/// memory.
pub fn line_column(text: &[u8], offset: u32) -> LineColumn
    requires fits { length text.now < 2 ^ 32 - 1 }
    ensures line { result.line ≡ line_of text.now offset }
    ensures column { result.column ≡ column_of text.now offset }
{
    let mut line = 1;
    let mut column = 1;
    let end = text.len().min(offset as usize);
    for byte in &text[..end] {
        if *byte == b'\n' {
            line += 1;
            column = 1;
        } else {
            column += 1;
        }
    }
    LineColumn { line, column }
}
