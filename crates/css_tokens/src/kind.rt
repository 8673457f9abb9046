/// The kinds of tokens (CSS Syntax 3, section 4; the table of `specs/Kinds.antt`).
#[derive(Clone, Copy, Debug, PartialEq, Eq)]
pub enum Kind {
    White,
    Comment,
    Ident,
    Function,
    Url,
    At,
    Hash,
    String,
    Number,
    Percentage,
    Dimension,
    Colon,
    Semicolon,
    Comma,
    Open,
    Close,
    Delim,
    Cdo,
    Cdc,
}
