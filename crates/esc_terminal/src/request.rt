//! Requests to a terminal.
ghost use Rattle.std.specs.Prelude.{◌≡◌};
ghost use Rattle.esc_terminal.specs.Requests.{cursor_request, device_request, escape_request, function_request, mode_request};
ghost use Rattle.typed_functions.specs.Functions.{value_of as function_value};

use typed_functions::{Cursor, Device, Escape, Function, ModeStatus};

/// A request of a stream, which a real terminal answers.
#[derive(Clone, Copy, Debug, PartialEq, Eq)]
pub enum Request {
    /// Its primary attributes: DA1, DECID.
    PrimaryAttributes,
    /// The same, in its secondary attributes: DA2.
    SecondaryAttributes,
    /// The same, in its tertiary attributes: DA3.
    TertiaryAttributes,
    /// Its name and version: XTVERSION.
    NameAndVersion,
    /// A report of its status: DSR 5.
    Status,
    /// The place of the cursor: DSR 6.
    CursorPosition,
    /// The state of this mode of ECMA-48: DECRQM.
    ModeState(u32),
    /// The state of this private mode: DECRQM.
    PrivateModeState(u32),
}

/// The request of a function, if it is one.
pub fn request_of(function: Function<'_>) -> Option<Request>
    ensures { result ≡ function_request (function_value function.entry) }
{
    match function {
        Function::Cursor(cursor) => cursor_request(cursor),
        Function::Device(device) => device_request(device),
        Function::ModeStatus(status) => mode_request(status),
        Function::Escape(escape) => escape_request(escape),
        _ => None,
    }
}

fn cursor_request(cursor: Cursor) -> Option<Request>
    ensures { result ≡ cursor_request cursor }
{
    match cursor {
        Cursor::RequestActivePositionReport => Some(Request::CursorPosition),
        _ => None,
    }
}

fn device_request(device: Device) -> Option<Request>
    ensures { result ≡ device_request device }
{
    match device {
        Device::RequestPrimaryDeviceAttributes => Some(Request::PrimaryAttributes),
        Device::RequestSecondaryDeviceAttributes => Some(Request::SecondaryAttributes),
        Device::RequestTertiaryDeviceAttributes => Some(Request::TertiaryAttributes),
        Device::RequestTerminalNameAndVersion => Some(Request::NameAndVersion),
        Device::StatusReport => Some(Request::Status),
        Device::SoftReset => None,
    }
}

fn mode_request(status: ModeStatus) -> Option<Request>
    ensures { result ≡ mode_request status }
{
    match status {
        ModeStatus::QueryMode(mode) => Some(Request::ModeState(mode)),
        ModeStatus::QueryDecPrivateMode(mode) => Some(Request::PrivateModeState(mode)),
        ModeStatus::ReportMode { .. } | ModeStatus::ReportDecPrivateMode { .. } => None,
    }
}

fn escape_request(escape: Escape) -> Option<Request>
    ensures { result ≡ escape_request escape }
{
    match escape {
        Escape::ReturnTerminalId => Some(Request::PrimaryAttributes),
        _ => None,
    }
}
