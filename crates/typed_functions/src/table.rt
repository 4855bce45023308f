//! The tables of typed values: the value that a control function makes of its parameters.
ghost use Rattle.std.specs.Prelude.{◌≡◌};
ghost use Rattle.typed_functions.specs.Functions.{mode_value, bare, margins_value, change_of, count_value, flags_value, kind_of, list_value, place_value, report_value, selector_value, state_of, tab_change_of, value_of};

use crate::arguments::Kind;
use crate::cursor::Cursor;
use crate::cursor_style::CursorStyle;
use crate::cursor_tabulation_control::CursorTabulationControl;
use crate::device::Device;
use crate::edit::Edit;
use crate::erase_in_display::EraseInDisplay;
use crate::erase_in_line::EraseInLine;
use crate::function::Function;
use crate::keyboard::Keyboard;
use crate::kitty_flags_change::KittyFlagsChange;
use crate::mode_change::ModeChange;
use crate::mode_state::ModeState;
use crate::mode_status::ModeStatus;
use crate::mouse::Mouse;
use crate::one_based::Ordinal;
use crate::tab_change::TabChange;
use crate::tabulation_clear::TabulationClear;
use crate::unfit::Unfit;
use crate::window_operations::operation;
use control_functions::ControlFunction;

// Returns the parameters of a function, if it has a typed value.
pub(crate) fn kind_of(function: ControlFunction) -> Option<Kind>
    ensures { result ≡ kind_of function }
{
    match function {
        ControlFunction::CUU
        | ControlFunction::CUD
        | ControlFunction::CUF
        | ControlFunction::CUB
        | ControlFunction::CNL
        | ControlFunction::CPL
        | ControlFunction::CHA
        | ControlFunction::CHT => Some(Kind::Count),
        ControlFunction::CVT
        | ControlFunction::CBT
        | ControlFunction::HPA
        | ControlFunction::HPR
        | ControlFunction::VPA
        | ControlFunction::VPR
        | ControlFunction::HPB
        | ControlFunction::VPB => Some(Kind::Count),
        ControlFunction::ICH
        | ControlFunction::IL
        | ControlFunction::DL
        | ControlFunction::DCH
        | ControlFunction::SU
        | ControlFunction::SD
        | ControlFunction::ECH
        | ControlFunction::REP => Some(Kind::Count),
        ControlFunction::SL
        | ControlFunction::SR
        | ControlFunction::DECIC
        | ControlFunction::DECDC
        | ControlFunction::KITTYPOP => Some(Kind::Count),
        ControlFunction::CUP | ControlFunction::HVP | ControlFunction::CPR => Some(Kind::Place),
        ControlFunction::TBC | ControlFunction::CTC => Some(Kind::Selectors),
        ControlFunction::DECSCUSR
        | ControlFunction::ED
        | ControlFunction::EL
        | ControlFunction::DECSED
        | ControlFunction::DECSEL
        | ControlFunction::DSR => Some(Kind::Selector),
        ControlFunction::KITTYPUSH => Some(Kind::Selector),
        ControlFunction::DECSTBM | ControlFunction::DECSLRM => Some(Kind::Margins),
        ControlFunction::SCOSC
        | ControlFunction::SCORC
        | ControlFunction::DECSTR
        | ControlFunction::KITTYQUERY => Some(Kind::Nothing),
        ControlFunction::DA1
        | ControlFunction::DA2
        | ControlFunction::DA3
        | ControlFunction::XTVERSION => Some(Kind::Zero),
        ControlFunction::KITTYSET => Some(Kind::Flags),
        ControlFunction::MOUSE | ControlFunction::MOUSEUP => Some(Kind::Report),
        ControlFunction::XTWINOPS
        | ControlFunction::DECRQM_ANSI
        | ControlFunction::DECRQM
        | ControlFunction::DECRPM_ANSI
        | ControlFunction::DECRPM => Some(Kind::Numbers),
        ControlFunction::SM
        | ControlFunction::RM
        | ControlFunction::DECSET
        | ControlFunction::DECRST
        | ControlFunction::XTSAVE
        | ControlFunction::XTRESTORE => Some(Kind::Modes),
        ControlFunction::SGR => Some(Kind::Renditions),
        _ => None,
    }
}

// Functions without parameters.
pub(crate) fn bare<'a>(function: ControlFunction) -> Function<'a>
    ensures { value_of result ≡ bare function }
{
    match function {
        ControlFunction::SCOSC => Function::Cursor(Cursor::SaveCursor),
        ControlFunction::SCORC => Function::Cursor(Cursor::RestoreCursor),
        ControlFunction::DECSTR => Function::Device(Device::SoftReset),
        ControlFunction::KITTYQUERY => Function::Keyboard(Keyboard::QueryKittySupport),
        ControlFunction::DA1 => Function::Device(Device::RequestPrimaryDeviceAttributes),
        ControlFunction::DA2 => Function::Device(Device::RequestSecondaryDeviceAttributes),
        ControlFunction::DA3 => Function::Device(Device::RequestTertiaryDeviceAttributes),
        ControlFunction::XTVERSION => Function::Device(Device::RequestTerminalNameAndVersion),
        _ => Function::Other(Unfit::Untyped),
    }
}

// Functions with a count, a line or a column.
pub(crate) fn counted<'a>(function: ControlFunction, n: Ordinal) -> Function<'a>
    ensures { value_of result ≡ count_value function n }
{
    match function {
        ControlFunction::CUU => Function::Cursor(Cursor::Up(n)),
        ControlFunction::CUD => Function::Cursor(Cursor::Down(n)),
        ControlFunction::CUF => Function::Cursor(Cursor::Right(n)),
        ControlFunction::CUB => Function::Cursor(Cursor::Left(n)),
        ControlFunction::CNL => Function::Cursor(Cursor::NextLine(n)),
        ControlFunction::CPL => Function::Cursor(Cursor::PrecedingLine(n)),
        ControlFunction::CHA => Function::Cursor(Cursor::CharacterAbsolute(n)),
        ControlFunction::CHT => Function::Cursor(Cursor::ForwardTabulation(n)),
        ControlFunction::CVT => Function::Cursor(Cursor::LineTabulation(n)),
        ControlFunction::CBT => Function::Cursor(Cursor::BackwardTabulation(n)),
        ControlFunction::HPA => Function::Cursor(Cursor::CharacterPositionAbsolute(n)),
        ControlFunction::HPR => Function::Cursor(Cursor::CharacterPositionForward(n)),
        ControlFunction::VPA => Function::Cursor(Cursor::LinePositionAbsolute(n)),
        ControlFunction::VPR => Function::Cursor(Cursor::LinePositionForward(n)),
        ControlFunction::HPB => Function::Cursor(Cursor::CharacterPositionBackward(n)),
        ControlFunction::VPB => Function::Cursor(Cursor::LinePositionBackward(n)),
        ControlFunction::ICH => Function::Edit(Edit::InsertCharacter(n)),
        ControlFunction::IL => Function::Edit(Edit::InsertLine(n)),
        ControlFunction::DL => Function::Edit(Edit::DeleteLine(n)),
        ControlFunction::DCH => Function::Edit(Edit::DeleteCharacter(n)),
        ControlFunction::SU => Function::Edit(Edit::ScrollUp(n)),
        ControlFunction::SD => Function::Edit(Edit::ScrollDown(n)),
        ControlFunction::ECH => Function::Edit(Edit::EraseCharacter(n)),
        ControlFunction::REP => Function::Edit(Edit::Repeat(n)),
        ControlFunction::SL => Function::Edit(Edit::ScrollLeft(n)),
        ControlFunction::SR => Function::Edit(Edit::ScrollRight(n)),
        ControlFunction::DECIC => Function::Edit(Edit::InsertColumn(n)),
        ControlFunction::DECDC => Function::Edit(Edit::DeleteColumn(n)),
        ControlFunction::KITTYPOP => Function::Keyboard(Keyboard::PopKittyState(n)),
        _ => Function::Other(Unfit::Untyped),
    }
}

// Functions with a line and a column.
pub(crate) fn placed<'a>(function: ControlFunction, a: Ordinal, b: Ordinal) -> Function<'a>
    ensures { value_of result ≡ place_value function a b }
{
    match function {
        ControlFunction::CUP => Function::Cursor(Cursor::Position { line: a, col: b }),
        ControlFunction::HVP => Function::Cursor(Cursor::CharacterAndLinePosition {
            line: a,
            col: b,
        }),
        ControlFunction::CPR => Function::Cursor(Cursor::ActivePositionReport { line: a, col: b }),
        _ => Function::Other(Unfit::Untyped),
    }
}

// Functions with a first and a last line or column.
pub(crate) fn bounded<'a>(function: ControlFunction, a: Ordinal, b: Option<Ordinal>) -> Function<'a>
    ensures { value_of result ≡ margins_value function a b }
{
    match function {
        ControlFunction::DECSTBM => Function::Cursor(Cursor::SetTopAndBottomMargins {
            top: a,
            bottom: b,
        }),
        ControlFunction::DECSLRM => Function::Cursor(Cursor::SetLeftAndRightMargins {
            left: a,
            right: b,
        }),
        _ => Function::Other(Unfit::Untyped),
    }
}

// Functions with a choice.
pub(crate) fn selected<'a>(function: ControlFunction, n: u8) -> Function<'a>
    ensures { value_of result ≡ selector_value function n }
{
    match function {
        ControlFunction::DSR => status_asked(n),
        ControlFunction::KITTYPUSH => Function::Keyboard(Keyboard::PushKittyState(n)),
        ControlFunction::TBC => match TabulationClear::of_number(n) {
            Some(choice) => Function::Cursor(Cursor::TabulationClear(choice)),
            None => Function::Other(Unfit::OutOfRange),
        },
        ControlFunction::CTC => match CursorTabulationControl::of_number(n) {
            Some(choice) => Function::Cursor(Cursor::TabulationControl(choice)),
            None => Function::Other(Unfit::OutOfRange),
        },
        ControlFunction::DECSCUSR => match CursorStyle::of_number(n) {
            Some(choice) => Function::Cursor(Cursor::CursorStyle(choice)),
            None => Function::Other(Unfit::OutOfRange),
        },
        ControlFunction::ED => match EraseInDisplay::of_number(n) {
            Some(choice) => Function::Edit(Edit::EraseInDisplay(choice)),
            None => Function::Other(Unfit::OutOfRange),
        },
        ControlFunction::EL => match EraseInLine::of_number(n) {
            Some(choice) => Function::Edit(Edit::EraseInLine(choice)),
            None => Function::Other(Unfit::OutOfRange),
        },
        ControlFunction::DECSED => match EraseInDisplay::of_number(n) {
            Some(choice) => Function::Edit(Edit::SelectiveEraseInDisplay(choice)),
            None => Function::Other(Unfit::OutOfRange),
        },
        ControlFunction::DECSEL => match EraseInLine::of_number(n) {
            Some(choice) => Function::Edit(Edit::SelectiveEraseInLine(choice)),
            None => Function::Other(Unfit::OutOfRange),
        },
        _ => Function::Other(Unfit::Untyped),
    }
}

// Functions with flags and the operation on them.
pub(crate) fn flagged<'a>(function: ControlFunction, a: u8, b: u8) -> Function<'a>
    ensures { value_of result ≡ flags_value function a b }
{
    match function {
        ControlFunction::KITTYSET => match KittyFlagsChange::of_number(b) {
            Some(change) => Function::Keyboard(Keyboard::SetKittyState { flags: a, change }),
            None => Function::Other(Unfit::OutOfRange),
        },
        _ => Function::Other(Unfit::Untyped),
    }
}

// Reports of the mouse.
pub(crate) fn reported<'a>(function: ControlFunction, a: u8, b: Ordinal, c: Ordinal) -> Function<'a>
    ensures { value_of result ≡ report_value function a b c }
{
    match function {
        ControlFunction::MOUSE => Function::Mouse(Mouse::Pressed {
            button: a,
            col: b,
            line: c,
        }),
        ControlFunction::MOUSEUP => Function::Mouse(Mouse::Released {
            button: a,
            col: b,
            line: c,
        }),
        _ => Function::Other(Unfit::Untyped),
    }
}

// Functions with a number and up to two more.
pub(crate) fn listed<'a>(
    function: ControlFunction,
    a: u32,
    b: Option<u32>,
    c: Option<u32>,
) -> Function<'a>
    ensures { value_of result ≡ list_value function a b c }
{
    match function {
        ControlFunction::XTWINOPS => match operation(a, b, c) {
            Ok(window) => Function::Window(window),
            Err(unfit) => Function::Other(unfit),
        },
        ControlFunction::DECRQM_ANSI => asked(ModeStatus::QueryMode(a), b, c),
        ControlFunction::DECRQM => asked(ModeStatus::QueryDecPrivateMode(a), b, c),
        ControlFunction::DECRPM_ANSI => match state_of(b, c) {
            Ok(state) => Function::ModeStatus(ModeStatus::ReportMode { mode: a, state }),
            Err(unfit) => Function::Other(unfit),
        },
        ControlFunction::DECRPM => match state_of(b, c) {
            Ok(state) => Function::ModeStatus(ModeStatus::ReportDecPrivateMode { mode: a, state }),
            Err(unfit) => Function::Other(unfit),
        },
        _ => Function::Other(Unfit::Untyped),
    }
}

// Returns a mode whose state is asked for, which no more numbers follow.
fn asked<'a>(status: ModeStatus, b: Option<u32>, c: Option<u32>) -> Function<'a>
    ensures { value_of result ≡ mode_value status b c }
{
    match (b, c) {
        (None, None) => Function::ModeStatus(status),
        (Some(_), _) | (None, Some(_)) => Function::Other(Unfit::TooMany),
    }
}

// Returns the state of a mode, if nothing more is reported.
fn state_of(b: Option<u32>, c: Option<u32>) -> Result<ModeState, Unfit>
    ensures { result ≡ state_of b c }
{
    match (b, c) {
        (None, _) => Err(Unfit::TooFew),
        (Some(_), Some(_)) => Err(Unfit::TooMany),
        (Some(number), None) => match ModeState::of_number(number) {
            Some(state) => Ok(state),
            None => Err(Unfit::OutOfRange),
        },
    }
}

// Returns which report is asked for, by its number.
fn status_asked<'a>(n: u8) -> Function<'a>
    ensures { value_of result ≡ selector_value ControlFunction.DSR n }
{
    match n {
        5 => Function::Device(Device::StatusReport),
        6 => Function::Cursor(Cursor::RequestActivePositionReport),
        _ => Function::Other(Unfit::OutOfRange),
    }
}

// Returns the operation on tab stops.
pub(crate) fn tab_change_of(function: ControlFunction) -> TabChange
    ensures { result ≡ tab_change_of function }
{
    match function {
        ControlFunction::CTC => TabChange::Control,
        _ => TabChange::Clear,
    }
}

// Returns the operation on modes.
pub(crate) fn change_of(function: ControlFunction) -> ModeChange
    ensures { result ≡ change_of function }
{
    match function {
        ControlFunction::SM => ModeChange::SetMode,
        ControlFunction::RM => ModeChange::ResetMode,
        ControlFunction::DECSET => ModeChange::SetDecPrivateMode,
        ControlFunction::DECRST => ModeChange::ResetDecPrivateMode,
        ControlFunction::XTSAVE => ModeChange::SaveDecPrivateMode,
        _ => ModeChange::RestoreDecPrivateMode,
    }
}
