//! A terminal's screen of a stream in chunks.
ghost use Rattle.std.specs.Prelude.{◌≡◌, ◌≢◌, IfSome, List, [], map, ℕ};
ghost use Rattle.esc_calls.specs.CellRows.{request_row};
ghost use Rattle.esc_calls.specs.InChunks.{IsEnded, Stays};
ghost use Rattle.esc_calls.specs.Kept.{screen_in};
ghost use Rattle.esc_calls.specs.Output.{Puts};
ghost use Rattle.esc_calls.specs.Screens.{ScreenHasConsumed, ScreenStands, ScreenStandsWith, ScreenTakes, Tells, cells_shown, icon_name_shown, shown_by, size_for, text_shown, title_shown};
ghost use Rattle.esc_screen.specs.Grids.{Size};
ghost use Rattle.esc_terminal.specs.Fed.{requests_now};
ghost use Rattle.esc_terminal.specs.Streams.{Shown};
ghost use Rattle.fallible_alloc.specs.Refusals.{Refused};

use esc_calls::cell_row::CellRow;
use esc_calls::in_chunks::InChunks;
use esc_calls::request_row::RequestRow;
use esc_calls::screen_row::ScreenRow;
use esc_calls::{DONE, NO_MEMORY, NOT_BEGUN, screen_chunks};
use std::alloc::Global;

/// Begins a blank screen of so many columns and rows; 0 is as 1. It keeps the last `most` rows that
/// are scrolled off. A screen that was begun before is ended first. After `NO_MEMORY` it is not
/// begun.
#[unsafe(no_mangle)]
pub extern "C" fn escape_stream_screen_begin(
    alloc: Global,
    screen: &mut InChunks,
    columns: u16,
    rows: u16,
    most: usize,
) -> u32
    ensures begun { result ≡ DONE → ScreenHasConsumed (size_for columns rows) [] screen.new }
    ensures refused { result ≢ DONE → (result ≡ NO_MEMORY) × IsEnded screen.new }
{
    screen_chunks::screen_begin(alloc, screen, columns, rows, most)
}

/// Takes the next chunk of the stream.
///
/// `NO_MEMORY` says that a request for memory was refused: the screen was given back. `NOT_BEGUN`
/// says that it had not begun, or was given back; anything else in its place was given back too.
/// The same holds for the other calls.
#[unsafe(no_mangle)]
pub extern "C" fn escape_stream_screen_feed(
    alloc: Global,
    screen: &mut InChunks,
    bytes: &[u8],
) -> u32
    ensures taken { (z : Size) (s : List ℕ) → ScreenHasConsumed z s screen.old
        → result ≡ DONE → ScreenTakes z s bytes.now screen.new }
    ensures memory { (z : Size) (s : List ℕ) → ScreenHasConsumed z s screen.old
        → result ≢ DONE → (result ≡ NO_MEMORY) × Refused Global }
    ensures refused { result ≢ DONE → (result ≢ NO_MEMORY → result ≡ NOT_BEGUN)
        × IsEnded screen.new }
{
    screen_chunks::screen_feed(alloc, screen, bytes)
}

/// Gives the screen so many columns and rows, as xterm does; 0 is as 1.
#[unsafe(no_mangle)]
pub extern "C" fn escape_stream_screen_resize(
    alloc: Global,
    screen: &mut InChunks,
    columns: u16,
    rows: u16,
) -> u32
    ensures resized { (z : Size) (x : Shown) (s : List ℕ) → ScreenStands z x s screen.old
        → result ≡ DONE → ScreenStandsWith z x s columns rows screen.new }
    ensures memory { (z : Size) (x : Shown) (s : List ℕ) → ScreenStands z x s screen.old
        → result ≢ DONE → (result ≡ NO_MEMORY) × Refused Global }
    ensures refused { result ≢ DONE → (result ≢ NO_MEMORY → result ≡ NOT_BEGUN)
        × IsEnded screen.new }
{
    screen_chunks::screen_resize(alloc, screen, columns, rows)
}

/// Writes the state of the screen, but for its cells.
#[unsafe(no_mangle)]
pub extern "C" fn escape_stream_screen_state_of(
    alloc: Global,
    screen: &mut InChunks,
    row: &mut ScreenRow,
) -> u32
    ensures told { (z : Size) (s : List ℕ) → ScreenHasConsumed z s screen.old
        → result ≡ DONE → Tells z (shown_by z s) row.new }
    ensures kept { result ≡ DONE → Stays screen.old screen.new }
    ensures refused { result ≢ DONE → (result ≢ NO_MEMORY → result ≡ NOT_BEGUN)
        × IsEnded screen.new × (row.new ≡ row.old) }
{
    screen_chunks::screen_state(alloc, screen, row)
}

/// Writes the cells of a row, from 0 on, as many as there is room for, and their number: none if
/// there is no such row.
#[unsafe(no_mangle)]
pub extern "C" fn escape_stream_screen_cells(
    alloc: Global,
    screen: &mut InChunks,
    row: usize,
    out: &mut [CellRow],
    needed: &mut usize,
) -> u32
    ensures shown { (z : Size) (s : List ℕ) → ScreenHasConsumed z s screen.old
        → result ≡ DONE → Puts (cells_shown (shown_by z s) row) out.old out.new needed.new }
    ensures kept { result ≡ DONE → Stays screen.old screen.new }
    ensures refused { result ≢ DONE → (result ≢ NO_MEMORY → result ≡ NOT_BEGUN)
        × IsEnded screen.new × (out.new ≡ out.old) × (needed.new ≡ needed.old) }
{
    screen_chunks::screen_cells(alloc, screen, row, out, needed)
}

/// Does the same for a row that was scrolled off; the first that is kept is 0.
#[unsafe(no_mangle)]
pub extern "C" fn escape_stream_screen_scrolled(
    alloc: Global,
    screen: &mut InChunks,
    row: usize,
    out: &mut [CellRow],
    needed: &mut usize,
) -> u32
    ensures kept { result ≡ DONE → Stays screen.old screen.new }
    ensures refused { result ≢ DONE → (result ≢ NO_MEMORY → result ≡ NOT_BEGUN)
        × IsEnded screen.new × (out.new ≡ out.old) × (needed.new ≡ needed.old) }
{
    screen_chunks::screen_scrolled(alloc, screen, row, out, needed)
}

/// Writes the text of a row, as much of it as fits, and its length.
#[unsafe(no_mangle)]
pub extern "C" fn escape_stream_screen_text(
    alloc: Global,
    screen: &mut InChunks,
    row: usize,
    out: &mut [u8],
    needed: &mut usize,
) -> u32
    ensures shown { (z : Size) (s : List ℕ) → ScreenHasConsumed z s screen.old
        → result ≡ DONE → Puts (text_shown (shown_by z s) row) out.old out.new needed.new }
    ensures kept { result ≡ DONE → Stays screen.old screen.new }
    ensures refused { result ≢ DONE → (result ≢ NO_MEMORY → result ≡ NOT_BEGUN)
        × IsEnded screen.new × (out.new ≡ out.old) × (needed.new ≡ needed.old) }
{
    screen_chunks::screen_text(alloc, screen, row, out, needed)
}

/// Writes the title, as much of it as fits, and its length.
#[unsafe(no_mangle)]
pub extern "C" fn escape_stream_screen_title(
    alloc: Global,
    screen: &mut InChunks,
    out: &mut [u8],
    needed: &mut usize,
) -> u32
    ensures shown { (z : Size) (s : List ℕ) → ScreenHasConsumed z s screen.old
        → result ≡ DONE → Puts (title_shown (shown_by z s)) out.old out.new needed.new }
    ensures kept { result ≡ DONE → Stays screen.old screen.new }
    ensures refused { result ≢ DONE → (result ≡ NOT_BEGUN) × IsEnded screen.new
        × (out.new ≡ out.old) × (needed.new ≡ needed.old) }
{
    screen_chunks::screen_title(alloc, screen, out, needed)
}

/// Writes the name of the icon, as much of it as fits, and its length.
#[unsafe(no_mangle)]
pub extern "C" fn escape_stream_screen_icon_name(
    alloc: Global,
    screen: &mut InChunks,
    out: &mut [u8],
    needed: &mut usize,
) -> u32
    ensures shown { (z : Size) (s : List ℕ) → ScreenHasConsumed z s screen.old
        → result ≡ DONE → Puts (icon_name_shown (shown_by z s)) out.old out.new needed.new }
    ensures kept { result ≡ DONE → Stays screen.old screen.new }
    ensures refused { result ≢ DONE → (result ≡ NOT_BEGUN) × IsEnded screen.new
        × (out.new ≡ out.old) × (needed.new ≡ needed.old) }
{
    screen_chunks::screen_icon_name(alloc, screen, out, needed)
}

/// Writes the requests of the last chunk, as there is room, and their number.
#[unsafe(no_mangle)]
pub extern "C" fn escape_stream_screen_requests(
    alloc: Global,
    screen: &mut InChunks,
    out: &mut [RequestRow],
    needed: &mut usize,
) -> u32
    ensures made { result ≡ DONE → IfSome (screen_in screen.old.held.kept)
        (λ x. Puts (map request_row (requests_now x.terminal)) out.old out.new needed.new) }
    ensures kept { result ≡ DONE → Stays screen.old screen.new }
    ensures refused { result ≢ DONE → (result ≡ NOT_BEGUN) × IsEnded screen.new
        × (out.new ≡ out.old) × (needed.new ≡ needed.old) }
{
    screen_chunks::screen_requests(alloc, screen, out, needed)
}

/// Writes the address of a link, as much of it as fits, and its length: 0 if there is no such link.
/// Links are counted from 1.
#[unsafe(no_mangle)]
pub extern "C" fn escape_stream_screen_link(
    alloc: Global,
    screen: &mut InChunks,
    number: usize,
    out: &mut [u8],
    needed: &mut usize,
) -> u32
    ensures kept { result ≡ DONE → Stays screen.old screen.new }
    ensures refused { result ≢ DONE → (result ≡ NOT_BEGUN) × IsEnded screen.new
        × (out.new ≡ out.old) × (needed.new ≡ needed.old) }
{
    screen_chunks::screen_link(alloc, screen, number, out, needed)
}

/// Does the same for the id of a link.
#[unsafe(no_mangle)]
pub extern "C" fn escape_stream_screen_link_id(
    alloc: Global,
    screen: &mut InChunks,
    number: usize,
    out: &mut [u8],
    needed: &mut usize,
) -> u32
    ensures kept { result ≡ DONE → Stays screen.old screen.new }
    ensures refused { result ≢ DONE → (result ≡ NOT_BEGUN) × IsEnded screen.new
        × (out.new ≡ out.old) × (needed.new ≡ needed.old) }
{
    screen_chunks::screen_link_id(alloc, screen, number, out, needed)
}

/// Writes for each row, as many as fit, 1 if its cells are not those that they were at the last
/// call that wrote that row's, and 0 otherwise.
#[unsafe(no_mangle)]
pub extern "C" fn escape_stream_screen_changed(
    alloc: Global,
    screen: &mut InChunks,
    out: &mut [u8],
) -> u32
    ensures shown { (z : Size) (s : List ℕ) → ScreenHasConsumed z s screen.old
        → result ≡ DONE → ScreenHasConsumed z s screen.new }
    ensures refused { result ≢ DONE → (result ≢ NO_MEMORY → result ≡ NOT_BEGUN)
        × IsEnded screen.new }
{
    screen_chunks::screen_changed(alloc, screen, out)
}

/// Ends a screen, and gives its memory back. One that is not begun stays so.
#[unsafe(no_mangle)]
pub extern "C" fn escape_stream_screen_end(alloc: Global, screen: &mut InChunks)
    ensures { IsEnded screen.new }
{
    screen_chunks::screen_end(alloc, screen);
}
