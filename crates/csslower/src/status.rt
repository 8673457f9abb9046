ghost use Rattle.std.specs.Prelude.{◌≡◌};
ghost use Rattle.csslower.specs.Answers.{number_of};

use css_places::{Finding, LimitKind};

/// How a run ended.
#[derive(Clone, Copy, Debug, PartialEq, Eq)]
pub enum Status {
    /// The text was written whole.
    Done,
    /// A file is refused.
    Refused(Finding),
    /// The words are no command.
    Usage(WordKind),
    /// A file could not be read.
    ReadFault,
    /// An output could not be written.
    WriteFault,
    /// Memory was refused.
    Memory,
    /// A limit was passed.
    Limit(LimitKind),
}

/// What is wrong with the words.
#[derive(Clone, Copy, Debug, PartialEq, Eq)]
pub enum WordKind {
    /// They are not one word that can name the entry.
    Words,
}

impl Status {
    /// The number with which the program ends.
    pub fn number(&self) -> u8
        ensures { result ≡ number_of self.now }
    {
        match self {
            Status::Done => 0,
            Status::Refused(_) => 1,
            Status::Usage(_) => 2,
            Status::ReadFault => 3,
            Status::WriteFault => 4,
            Status::Memory => 5,
            Status::Limit(_) => 6,
        }
    }
}
