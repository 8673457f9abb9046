/// How the lines of a text are laid (CSS Writing Modes 4, section 3.2): from top to bottom, or upright from right to left or from
/// left to right.
#[derive(Clone, Copy, Debug, PartialEq, Eq)]
pub enum Writing {
    HorizontalTb,
    VerticalRl,
    VerticalLr,
}

/// Which way a line of text runs (CSS Writing Modes 4, section 2.1).
#[derive(Clone, Copy, Debug, PartialEq, Eq)]
pub enum Direction {
    Ltr,
    Rtl,
}

/// Which physical sides the flow of a text gives a box (CSS Writing Modes 4, section 6.4).
#[derive(Clone, Copy, Debug, PartialEq, Eq)]
pub struct Mode {
    pub writing: Writing,
    pub direction: Direction,
}
