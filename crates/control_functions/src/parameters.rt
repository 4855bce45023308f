//! This module says which parameters a function has.
ghost use Rattle.std.specs.Prelude.{◌≡◌};
ghost use Rattle.control_functions.specs.Parameters.{each_of, have_colons, last_repeats};

use crate::parameter::Parameter;
use crate::parameter::Parameter::{
    Amount, Choice, Column, Count, GivenColumn, GivenLine, GivenPage, LastColumn, LastLine, Line,
    Mode, Number, Page, PrivateMode, Rendition, Selector,
};

/// Says which parameters a control function has, in order.
#[derive(Clone, Copy, Debug, PartialEq, Eq)]
pub enum Parameters {
    /// It has none.
    Nothing,
    /// A count.
    Count,
    /// A line.
    Line,
    /// A column.
    Column,
    /// A line and a column.
    Place,
    /// A page.
    Page,
    /// A line, a column and a page, as a terminal reports them.
    PlaceAndPage,
    /// A number.
    Number,
    /// Two numbers.
    TwoNumbers,
    /// Numbers.
    Numbers,
    /// A number, and 0 if it is left out.
    Amount,
    /// Two sizes in percent, and 100 if they are left out.
    Percentages,
    /// The place of a tab stop, and the number of a character, which is a space if it is left out.
    CenteredStop,
    /// A choice, and 0 if it is left out.
    Selector,
    /// A choice, and 1 if it is left out.
    SelectorOrOne,
    /// A choice, and 2 if it is left out.
    SelectorOrTwo,
    /// Two choices, and 0 if they are left out.
    TwoSelectors,
    /// Three choices, and 0 if they are left out.
    ThreeSelectors,
    /// Choices, and 0 if one is left out.
    Selectors,
    /// A choice without a default.
    Choice,
    /// Two choices without a default.
    TwoChoices,
    /// Choices without a default.
    Choices,
    /// The setting, and its number.
    ChoiceAndNumber,
    /// A level, and whether controls have seven bits or eight.
    Conformance,
    /// The number of a mode.
    Mode,
    /// The numbers of modes.
    Modes,
    /// The number of a mode, and whether it is set.
    ModeState,
    /// The number of a private mode.
    PrivateMode,
    /// The numbers of private modes.
    PrivateModes,
    /// The number of a private mode, and whether it is set.
    PrivateModeState,
    /// Renditions.
    Renditions,
    /// The first and the last line.
    LineMargins,
    /// The first and the last column.
    ColumnMargins,
    /// The lines and columns of two corners.
    Rectangle,
    /// The lines and columns of two corners, without a default.
    Area,
    /// A rectangle and renditions.
    RectangleRenditions,
    /// A rectangle and its page, and the line, column and page that it is copied to.
    Copy,
    /// The number of a character, and a rectangle.
    Fill,
    /// The number of the request, a page and a rectangle.
    Checksum,
    /// The operation on the window, and its numbers.
    Window,
    /// An attribute, the operation on it, and its values.
    Graphics,
    /// A flag to track, a place, and the first and the last line.
    Highlight,
    /// A button with its modifiers, a column and a line.
    Mouse,
    /// An event, the buttons that are down, a line, a column and a page.
    Locator,
    /// Lines and columns that are shown, the first column and the first line, and their page.
    Extent,
    /// A key and its modifiers.
    Key,
    /// A key, its modifiers with the event, and its text; each may have colons.
    KeyEvent,
    /// Flags, and whether they are set, added or taken away.
    KeyboardFlags,
    /// The shape of cursors, and their places, which have colons.
    ExtraCursors,
    /// The thing that is coloured, and two colours.
    Colors,
    /// A volume, a duration, and notes.
    Sound,
    /// A key by two numbers, its character, whether it is down, modifiers, and how often.
    Win32Key,
}

impl Parameters {
    /// Returns each parameter, in order.
    pub fn each(self) -> &'static [Parameter]
        ensures { result.now ≡ each_of self }
    {
        match self {
            Parameters::Nothing => &[],
            Parameters::Count => &[Count],
            Parameters::Line => &[Line],
            Parameters::Column => &[Column],
            Parameters::Place => &[Line, Column],
            Parameters::Page => &[Page],
            Parameters::PlaceAndPage => &[GivenLine, GivenColumn, GivenPage],
            Parameters::Number => &[Number],
            Parameters::TwoNumbers => &[Number, Number],
            Parameters::Numbers => &[Number],
            Parameters::Amount => &[Amount(0)],
            Parameters::Percentages => &[Amount(100), Amount(100)],
            Parameters::CenteredStop => &[Number, Amount(32)],
            Parameters::Selector => &[Selector(0)],
            Parameters::SelectorOrOne => &[Selector(1)],
            Parameters::SelectorOrTwo => &[Selector(2)],
            Parameters::TwoSelectors => &[Selector(0), Selector(0)],
            Parameters::ThreeSelectors => &[Selector(0), Selector(0), Selector(0)],
            Parameters::Selectors => &[Selector(0)],
            Parameters::Choice => &[Choice],
            Parameters::TwoChoices => &[Choice, Choice],
            Parameters::Choices => &[Choice],
            Parameters::ChoiceAndNumber => &[Choice, Number],
            Parameters::Conformance => &[Choice, Selector(0)],
            Parameters::Mode => &[Mode],
            Parameters::Modes => &[Mode],
            Parameters::ModeState => &[Mode, Choice],
            Parameters::PrivateMode => &[PrivateMode],
            Parameters::PrivateModes => &[PrivateMode],
            Parameters::PrivateModeState => &[PrivateMode, Choice],
            Parameters::Renditions => &[Rendition],
            Parameters::LineMargins => &[Line, LastLine],
            Parameters::ColumnMargins => &[Column, LastColumn],
            Parameters::Rectangle => &[Line, Column, LastLine, LastColumn],
            Parameters::Area => &[GivenLine, GivenColumn, GivenLine, GivenColumn],
            Parameters::RectangleRenditions => &[Line, Column, LastLine, LastColumn, Rendition],
            Parameters::Copy => &[Line, Column, LastLine, LastColumn, Page, Line, Column, Page],
            Parameters::Fill => &[Number, Line, Column, LastLine, LastColumn],
            Parameters::Checksum => &[Number, GivenPage, Line, Column, LastLine, LastColumn],
            Parameters::Window => &[Choice, Number, Number],
            Parameters::Graphics => &[Choice, Choice, Number, Number],
            Parameters::Highlight => &[Choice, GivenColumn, GivenLine, GivenLine, GivenLine],
            Parameters::Mouse => &[Number, GivenColumn, GivenLine],
            Parameters::Locator => &[Choice, Number, GivenLine, GivenColumn, GivenPage],
            Parameters::Extent => &[Number, Number, GivenColumn, GivenLine, GivenPage],
            Parameters::Key => &[Number, Selector(1), Number],
            Parameters::KeyEvent => &[Number, Selector(1), Number],
            Parameters::KeyboardFlags => &[Number, Selector(1)],
            Parameters::ExtraCursors => &[Choice, Number],
            Parameters::Colors => &[Choice, Number, Number],
            Parameters::Sound => &[Number, Number, Number],
            Parameters::Win32Key => {
                &[
                    Amount(0),
                    Amount(0),
                    Amount(0),
                    Amount(0),
                    Amount(0),
                    Amount(1),
                ]
            }
        }
    }

    /// Returns whether the last may come any number of times.
    pub fn last_repeats(self) -> bool
        ensures { result ≡ last_repeats self }
    {
        matches!(
            self,
            Parameters::Numbers
                | Parameters::Selectors
                | Parameters::Choices
                | Parameters::Modes
                | Parameters::PrivateModes
                | Parameters::Renditions
                | Parameters::RectangleRenditions
                | Parameters::ExtraCursors
                | Parameters::Sound
        )
    }

    /// Returns whether a parameter may have parts, with colons between them (ECMA-48, 5.4.2).
    pub fn have_colons(self) -> bool
        ensures { result ≡ have_colons self }
    {
        matches!(
            self,
            Parameters::Renditions | Parameters::KeyEvent | Parameters::ExtraCursors
        )
    }
}
