//! The steps of a screen for a value of a stream.
ghost use Rattle.std.specs.Prelude.{◌≡◌};
ghost use Rattle.typed_functions.specs.Functions.{value_of as function_value};
ghost use Rattle.esc_terminal.specs.Steps.{after_step, before_step, charset_step, choice_step, setting_by, clear_step, control_step, cursor_step, device_step, display_step, edit_step, escape_step, is_drawing, line_step, margins_step, mode_step, one_step, print_step, private_step, standard_step, tab_step};

use crate::counts::{count, place};
use esc_actions::ControlCode;
use esc_screen::{Change, Cursor as Place, Mode, Motion, Setting, Step};
use typed_functions::{
    Charset, Charset94, Cursor, CursorTabulationControl, Device, Edit, EraseInDisplay, EraseInLine,
    Escape, Function, ModeChange, Ordinal, TabChange, TabulationClear,
};
use unicode_width::UnicodeWidthChar;

/// A character is printed in as many columns as it takes, as Unicode has it.
#[inline]
pub fn print_step(c: char) -> Step
    ensures { result ≡ print_step c }
{
    if c >= ' ' && c <= '~' {
        return Step::Print(c);
    }
    match c.width() {
        None => Step::Nothing,
        Some(width) => {
            if width == 0 {
                Step::Mark(c)
            } else if width == 2 {
                Step::PrintWide(c)
            } else {
                Step::Print(c)
            }
        }
    }
}

/// The step of a control code.
pub fn control_step(code: ControlCode) -> Step
    ensures { result ≡ control_step code }
{
    match code {
        ControlCode::Backspace => Step::Move(Motion::Left(1)),
        ControlCode::HorizontalTab => Step::Move(Motion::Tab(1)),
        ControlCode::LineFeed => Step::Edit(Change::LineFeed),
        ControlCode::VerticalTab | ControlCode::FormFeed => Step::Edit(Change::FormFeed),
        ControlCode::CarriageReturn => Step::Move(Motion::RowStart),
        ControlCode::ShiftOut => Step::Set(Setting::Shift(true)),
        ControlCode::ShiftIn => Step::Set(Setting::Shift(false)),
        ControlCode::IND => Step::Edit(Change::Index),
        ControlCode::NEL => Step::Edit(Change::NextLine),
        ControlCode::HTS => Step::Set(Setting::SetTab),
        ControlCode::RI => Step::Edit(Change::ReverseIndex),
        _ => Step::Nothing,
    }
}

/// The step of a movement of the cursor, which is at this place, or of a change of its bounds.
pub fn cursor_step(from: Place, cursor: Cursor) -> Step
    ensures { result ≡ cursor_step from cursor }
{
    match cursor {
        Cursor::Up(n) => Step::Move(Motion::Up(count(n))),
        Cursor::Down(n) => Step::Move(Motion::Down(count(n))),
        Cursor::Right(n) | Cursor::CharacterPositionForward(n) => {
            Step::Move(Motion::Right(count(n)))
        }
        Cursor::Left(n) | Cursor::CharacterPositionBackward(n) => {
            Step::Move(Motion::Left(count(n)))
        }
        Cursor::NextLine(n) => Step::Move(Motion::DownToStart(count(n))),
        Cursor::PrecedingLine(n) => Step::Move(Motion::UpToStart(count(n))),
        Cursor::CharacterAbsolute(n) | Cursor::CharacterPositionAbsolute(n) => {
            Step::Move(Motion::Column(place(n)))
        }
        Cursor::Position { line, col } | Cursor::CharacterAndLinePosition { line, col } => {
            Step::Move(Motion::Position(place(line), place(col)))
        }
        Cursor::ForwardTabulation(n) => Step::Move(Motion::Tab(count(n))),
        Cursor::BackwardTabulation(n) => Step::Move(Motion::BackTab(count(n))),
        Cursor::LinePositionAbsolute(n) => Step::Move(Motion::Row(place(n))),
        Cursor::LinePositionForward(n) => after_step(from, count(n)),
        Cursor::LinePositionBackward(n) => before_step(from, count(n)),
        Cursor::TabulationClear(choice) => clear_step(choice),
        Cursor::TabulationControl(choice) => tab_step(choice),
        Cursor::SetTopAndBottomMargins { top, bottom } => margins_step(place(top), bottom),
        Cursor::SaveCursor => Step::Set(Setting::Save),
        Cursor::RestoreCursor => Step::Set(Setting::Restore),
        _ => Step::Nothing,
    }
}

// So many rows down, to a row by its number.
fn after_step(from: Place, n: u16) -> Step
    ensures { result ≡ after_step from n }
{
    if from.origin {
        Step::Move(Motion::Down(n))
    } else {
        Step::Move(Motion::Row(from.row.saturating_add(n)))
    }
}

// So many rows up, to a row by its number.
fn before_step(from: Place, n: u16) -> Step
    ensures { result ≡ before_step from n }
{
    if from.origin {
        Step::Move(Motion::Up(n))
    } else {
        Step::Move(Motion::Row(from.row.saturating_sub(n)))
    }
}

// The rows from this one to the one of a number, or to the last one.
fn margins_step(top: u16, bottom: Option<Ordinal>) -> Step
    ensures { result ≡ margins_step top bottom }
{
    let end = match bottom {
        Some(n) => count(n),
        None => 0xffff,
    };
    Step::Set(Setting::Margins(top, end))
}

fn clear_step(choice: TabulationClear) -> Step
    ensures { result ≡ clear_step choice }
{
    match choice {
        TabulationClear::ClearCharacterTabStopAtActivePosition => Step::Set(Setting::ClearTab),
        TabulationClear::ClearAllCharacterTabStops | TabulationClear::ClearAllTabStops => {
            Step::Set(Setting::ClearTabs)
        }
        _ => Step::Nothing,
    }
}

fn tab_step(choice: CursorTabulationControl) -> Step
    ensures { result ≡ tab_step choice }
{
    match choice {
        CursorTabulationControl::SetCharacterTabStopAtActivePosition => {
            Step::Set(Setting::SetTab)
        }
        CursorTabulationControl::ClearCharacterTabStopAtActivePosition => {
            Step::Set(Setting::ClearTab)
        }
        CursorTabulationControl::ClearAllCharacterTabStops => Step::Set(Setting::ClearTabs),
        _ => Step::Nothing,
    }
}

/// The step of one of several choices of tab stops, by its number.
pub fn choice_step(change: TabChange, number: Option<u64>) -> Step
    ensures { result ≡ choice_step change number }
{
    let Some(number) = number else {
        return Step::Nothing;
    };
    let Ok(number) = u8::try_from(number) else {
        return Step::Nothing;
    };
    match change {
        TabChange::Clear => match TabulationClear::of_number(number) {
            Some(choice) => clear_step(choice),
            None => Step::Nothing,
        },
        TabChange::Control => match CursorTabulationControl::of_number(number) {
            Some(choice) => tab_step(choice),
            None => Step::Nothing,
        },
    }
}

/// Returns the step that inserts, deletes, erases or scrolls. Nothing is protected, so a step that
/// erases the rest erases all.
pub fn edit_step(edit: Edit) -> Step
    ensures { result ≡ edit_step edit }
{
    match edit {
        Edit::InsertCharacter(n) => Step::Edit(Change::InsertCells(count(n))),
        Edit::InsertLine(n) => Step::Edit(Change::InsertRows(count(n))),
        Edit::DeleteLine(n) => Step::Edit(Change::DeleteRows(count(n))),
        Edit::DeleteCharacter(n) => Step::Edit(Change::DeleteCells(count(n))),
        Edit::ScrollUp(n) => Step::Edit(Change::ScrollUp(count(n))),
        Edit::ScrollDown(n) => Step::Edit(Change::ScrollDown(count(n))),
        Edit::EraseCharacter(n) => Step::Edit(Change::EraseCells(count(n))),
        Edit::Repeat(n) => Step::Repeat(count(n)),
        Edit::EraseInDisplay(part) | Edit::SelectiveEraseInDisplay(part) => display_step(part),
        Edit::EraseInLine(part) | Edit::SelectiveEraseInLine(part) => line_step(part),
        Edit::ScrollLeft(n) => Step::Edit(Change::ScrollLeft(count(n))),
        Edit::ScrollRight(n) => Step::Edit(Change::ScrollRight(count(n))),
        Edit::InsertColumn(n) => Step::Edit(Change::InsertColumns(count(n))),
        Edit::DeleteColumn(n) => Step::Edit(Change::DeleteColumns(count(n))),
    }
}

fn display_step(part: EraseInDisplay) -> Step
    ensures { result ≡ display_step part }
{
    match part {
        EraseInDisplay::EraseToEndOfDisplay => Step::Edit(Change::EraseBelow),
        EraseInDisplay::EraseToStartOfDisplay => Step::Edit(Change::EraseAbove),
        EraseInDisplay::EraseDisplay => Step::Edit(Change::EraseAll),
        EraseInDisplay::EraseScrollback => Step::Nothing,
    }
}

fn line_step(part: EraseInLine) -> Step
    ensures { result ≡ line_step part }
{
    match part {
        EraseInLine::EraseToEndOfLine => Step::Edit(Change::EraseRight),
        EraseInLine::EraseToStartOfLine => Step::Edit(Change::EraseLeft),
        EraseInLine::EraseLine => Step::Edit(Change::EraseRow),
    }
}

/// The step of a request to the terminal itself: a reset.
pub fn device_step(device: Device) -> Step
    ensures { result ≡ device_step device }
{
    match device {
        Device::SoftReset => Step::Set(Setting::SoftReset),
        _ => Step::Nothing,
    }
}

/// The step of an escape sequence.
pub fn escape_step(escape: Escape) -> Step
    ensures { result ≡ escape_step escape }
{
    match escape {
        Escape::DecSaveCursorPosition => Step::Set(Setting::Save),
        Escape::DecRestoreCursorPosition => Step::Set(Setting::Restore),
        Escape::DecScreenAlignmentDisplay => Step::Edit(Change::Align),
        Escape::Index => Step::Edit(Change::Index),
        Escape::NextLine => Step::Edit(Change::NextLine),
        Escape::HorizontalTabSet => Step::Set(Setting::SetTab),
        Escape::ReverseIndex => Step::Edit(Change::ReverseIndex),
        Escape::FullReset => Step::Set(Setting::Reset),
        Escape::DecBackIndex => Step::Edit(Change::BackIndex),
        Escape::DecForwardIndex => Step::Edit(Change::ForwardIndex),
        _ => Step::Nothing,
    }
}

/// Which characters come: those of line drawing, or themselves.
pub fn charset_step(charset: Charset) -> Step
    ensures { result ≡ charset_step charset }
{
    match charset {
        Charset::G0(set) => Step::Set(Setting::G0Draws(is_drawing(set))),
        Charset::G1(set) => Step::Set(Setting::G1Draws(is_drawing(set))),
        Charset::G0Pair(_) | Charset::G0Multibyte(_) => Step::Set(Setting::G0Draws(false)),
        Charset::G1Of96(_) | Charset::G1Pair(_) | Charset::G1Multibyte(_) => {
            Step::Set(Setting::G1Draws(false))
        }
        _ => Step::Nothing,
    }
}

fn is_drawing(set: Charset94) -> bool
    ensures { result ≡ is_drawing set }
{
    match set {
        Charset94::DecSpecialGraphics => true,
        _ => false,
    }
}

/// The step that changes the mode of this number.
pub fn mode_step(change: ModeChange, number: Option<u64>) -> Step
    ensures { result ≡ mode_step change number }
{
    let Some(number) = number else {
        return Step::Nothing;
    };
    match change {
        ModeChange::SetMode => standard_step(true, number),
        ModeChange::ResetMode => standard_step(false, number),
        ModeChange::SetDecPrivateMode => private_step(true, number),
        ModeChange::ResetDecPrivateMode => private_step(false, number),
        ModeChange::SaveDecPrivateMode | ModeChange::RestoreDecPrivateMode => Step::Nothing,
    }
}

// A mode of ECMA-48 is set or reset.
fn standard_step(on: bool, number: u64) -> Step
    ensures { result ≡ standard_step on number }
{
    match number {
        4 => Step::Set(Setting::Mode(Mode::Insert, on)),
        20 => Step::Set(Setting::Mode(Mode::NewLine, on)),
        _ => Step::Nothing,
    }
}

// A private mode is set or reset.
fn private_step(on: bool, number: u64) -> Step
    ensures { result ≡ private_step on number }
{
    match number {
        3 => Step::Set(Setting::Columns),
        5 => Step::Set(Setting::Mode(Mode::ReverseVideo, on)),
        6 => Step::Set(Setting::Origin(on)),
        7 => Step::Set(Setting::Mode(Mode::AutoWrap, on)),
        25 => Step::Set(Setting::Mode(Mode::ShowCursor, on)),
        40 => Step::Set(Setting::Mode(Mode::Columns, on)),
        47 => Step::Set(chosen(on, Setting::ShowAlternate, Setting::ShowMain)),
        1047 => Step::Set(chosen(on, Setting::ShowAlternate, Setting::ClearAlternate)),
        1048 => Step::Set(chosen(on, Setting::Save, Setting::Restore)),
        1049 => Step::Set(chosen(on, Setting::EnterAlternate, Setting::LeaveAlternate)),
        2026 => Step::Set(Setting::Mode(Mode::Synchronized, on)),
        _ => Step::Nothing,
    }
}

/// Returns the step that a function is, if it is one and asks for no look; the cursor is at this
/// place.
pub fn one_step(from: Place, function: Function<'_>) -> Option<Step>
    ensures { result ≡ one_step from (function_value function.entry) }
{
    match function {
        Function::Cursor(cursor) => Some(cursor_step(from, cursor)),
        Function::Edit(edit) => Some(edit_step(edit)),
        Function::Device(device) => Some(device_step(device)),
        Function::Charset(charset) => Some(charset_step(charset)),
        Function::Escape(escape) => Some(escape_step(escape)),
        _ => None,
    }
}

// One setting where a mode is set, and another where it is reset.
fn chosen(on: bool, set: Setting, reset: Setting) -> Setting
    ensures { result ≡ setting_by on set reset }
{
    if on { set } else { reset }
}
