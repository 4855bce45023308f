//! The kinds of parameters.
ghost use Rattle.std.specs.Prelude.{◌≡◌};
ghost use Rattle.control_functions.specs.Parameters.{default_of};

/// The kind of a parameter of a control function.
#[derive(Clone, Copy, Debug, PartialEq, Eq)]
pub enum Parameter {
    /// A count, from 1 on.
    Count,
    /// A line, from 1 on.
    Line,
    /// A column, from 1 on.
    Column,
    /// A line, from 1 on; if it is left out, the last.
    LastLine,
    /// A column, from 1 on; if it is left out, the last.
    LastColumn,
    /// A page, from 1 on.
    Page,
    /// A line, from 1 on, that no standard has a default of.
    GivenLine,
    /// A column, from 1 on, that no standard has a default of.
    GivenColumn,
    /// A page, from 1 on, that no standard has a default of.
    GivenPage,
    /// A choice from a list; if it is left out, this one.
    Selector(u16),
    /// A choice from a list that no standard has a default of.
    Choice,
    /// The number of a mode of ECMA-48.
    Mode,
    /// The number of a private mode.
    PrivateMode,
    /// A rendition, or a part of one.
    Rendition,
    /// Any other number; if it is left out, this one.
    Amount(u16),
    /// Any other number, that no standard has a default of.
    Number,
}

impl Parameter {
    /// Returns the default of the parameter if it is left out: 1 for a count, a line, a column and
    /// a page, 0 for a rendition, and for a choice or another number its own. `None` if the size of
    /// the screen decides, and if no standard says it: there the parameter has to be given.
    pub fn default_value(self) -> Option<u16>
        ensures { result ≡ default_of self }
    {
        match self {
            Parameter::Count | Parameter::Line | Parameter::Column | Parameter::Page => Some(1),
            Parameter::Selector(number) | Parameter::Amount(number) => Some(number),
            Parameter::Rendition => Some(0),
            Parameter::LastLine
            | Parameter::LastColumn
            | Parameter::GivenLine
            | Parameter::GivenColumn
            | Parameter::GivenPage
            | Parameter::Choice
            | Parameter::Mode
            | Parameter::PrivateMode
            | Parameter::Number => None,
        }
    }
}
