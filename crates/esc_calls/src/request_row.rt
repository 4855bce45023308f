//! The requests of a stream to a terminal, for C.
ghost use Rattle.std.specs.Prelude.{◌≡◌, map};
ghost use Rattle.esc_calls.specs.CellRows.{mode_request, request_row};
ghost use Rattle.esc_calls.specs.Output.{Puts, put_into};

use esc_terminal::Request;

/// A request of a stream to a terminal.
#[repr(C)]
#[derive(Clone, Copy)]
pub struct RequestRow {
    /// Its kind: 1 to 3 the primary, secondary and tertiary attributes (DA), 4 the name and version
    /// (XTVERSION), 5 the status (DSR 5), 6 the place of the cursor (DSR 6), 7 the state of a mode,
    /// 8 that of a private mode (DECRQM).
    pub kind: u32,
    /// The number of the mode, or 0.
    pub mode: u32,
}

impl RequestRow {
    /// Returns the row of a request.
    pub(crate) fn of(request: &Request) -> RequestRow
        ensures { result ≡ request_row request.now }
    {
        match *request {
            Request::PrimaryAttributes => asked(1, 0),
            Request::SecondaryAttributes => asked(2, 0),
            Request::TertiaryAttributes => asked(3, 0),
            Request::NameAndVersion => asked(4, 0),
            Request::Status => asked(5, 0),
            Request::CursorPosition => asked(6, 0),
            Request::ModeState(mode) => asked(7, mode),
            Request::PrivateModeState(mode) => asked(8, mode),
        }
    }
}

fn asked(kind: u32, mode: u32) -> RequestRow
    ensures { result ≡ mode_request kind mode }
{
    RequestRow { kind, mode }
}

/// Writes as many of these as there is room for, and leaves the other places as they are. Returns
/// how many there are.
pub(crate) fn put_requests(requests: &[Request], out: &mut [RequestRow]) -> usize
    ensures { Puts (map request_row requests.now) out.old out.new result }
{
    put_fitting(requests, out);
    requests.len()
}

fn put_fitting(requests: &[Request], out: &mut [RequestRow])
    ensures { out.new ≡ put_into (map request_row requests.now) out.old }
{
    let fitting = requests.len().min(out.len());
    let mut at = 0;
    while at < fitting {
        out[at] = RequestRow::of(&requests[at]);
        at += 1;
    }
}
