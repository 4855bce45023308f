//! The parameters of a control function, by their kinds.

use crate::one_based::Ordinal;

// Says which parameters a function has.
#[derive(Clone, Copy)]
pub(crate) enum Kind {
    // none
    Nothing,
    // none, or 0
    Zero,
    // a count, a line or a column
    Count,
    // a line and a column
    Place,
    // the first and the last line or column
    Margins,
    // a choice from a list
    Selector,
    // one such choice, or several, which are read one by one
    Selectors,
    // flags, and the operation on them
    Flags,
    // a button, a column and a line
    Report,
    // a number, which has no default, and up to two more
    Numbers,
    // renditions, which are read one by one
    Renditions,
    // modes, which are read one by one
    Modes,
}

// The parameters of a function, with the defaults of those that are left out.
#[derive(Clone, Copy)]
pub(crate) enum Arguments {
    Nothing,
    Count(Ordinal),
    Place(Ordinal, Ordinal),
    // the last is optional: its default is the size of the screen
    Margins(Ordinal, Option<Ordinal>),
    Selector(u8),
    Flags(u8, u8),
    Report(u8, Ordinal, Ordinal),
    Numbers(u32, Option<u32>, Option<u32>),
}
