//! A terminal's screen of a stream that comes in chunks.
ghost use Rattle.std.specs.Prelude.{◌≡◌, ◌≢◌, ◌⊎◌, IfSome, List, [], map, ℕ};
ghost use Rattle.esc_calls.specs.CellRows.{request_row};
ghost use Rattle.esc_calls.specs.InChunks.{IsEnded, Stays};
ghost use Rattle.esc_calls.specs.Kept.{screen_in};
ghost use Rattle.esc_calls.specs.Output.{Puts};
ghost use Rattle.esc_calls.specs.Screens.{ScreenHasConsumed, ScreenStands, ScreenStandsWith, ScreenTakes, Tells, cells_shown, icon_name_shown, shown_by, size_for, text_shown, title_shown};
ghost use Rattle.esc_screen.specs.Grids.{Size};
ghost use Rattle.esc_terminal.specs.Fed.{requests_now};
ghost use Rattle.esc_terminal.specs.Streams.{Shown};
ghost use Rattle.fallible_alloc.specs.Refusals.{Refused};

use crate::cell_row::CellRow;
use crate::change_kept::change_kept;
use crate::common::begin;
use crate::in_chunks::InChunks;
use crate::kept::Kept;
use crate::request_row::RequestRow;
use crate::screen_row::ScreenRow;
use crate::screen_state::ScreenState;
use crate::{DONE, NO_MEMORY, NOT_BEGUN};
use std::alloc::Global;

/// Does the work of `escape_stream_screen_begin` of `escape_c`.
pub fn screen_begin(
    alloc: Global,
    screen: &mut InChunks,
    columns: u16,
    rows: u16,
    most: usize,
) -> u32
    ensures begun { result ≡ DONE → ScreenHasConsumed (size_for columns rows) [] screen.new }
    ensures refused { result ≢ DONE → (result ≡ NO_MEMORY) × IsEnded screen.new }
{
    match ScreenState::new(alloc, columns.max(1), rows.max(1), most) {
        Ok(state) => begin(alloc, screen, Kept::Screen(state)),
        Err(_) => {
            drop(screen.take(alloc));
            NO_MEMORY
        }
    }
}

/// Does the work of `escape_stream_screen_feed` of `escape_c`.
pub fn screen_feed(alloc: Global, screen: &mut InChunks, bytes: &[u8]) -> u32
    ensures taken { (z : Size) (s : List ℕ) → ScreenHasConsumed z s screen.old
        → result ≡ DONE → ScreenTakes z s bytes.now screen.new }
    ensures memory { (z : Size) (s : List ℕ) → ScreenHasConsumed z s screen.old
        → result ≢ DONE → (result ≡ NO_MEMORY) × Refused Global }
    ensures refused { result ≢ DONE → (result ≢ NO_MEMORY → result ≡ NOT_BEGUN)
        × IsEnded screen.new }
{
    change_kept!(alloc, screen, Screen(state), state.feed(bytes))
}

/// Does the work of `escape_stream_screen_resize` of `escape_c`.
pub fn screen_resize(alloc: Global, screen: &mut InChunks, columns: u16, rows: u16) -> u32
    ensures resized { (z : Size) (x : Shown) (s : List ℕ) → ScreenStands z x s screen.old
        → result ≡ DONE → ScreenStandsWith z x s columns rows screen.new }
    ensures memory { (z : Size) (x : Shown) (s : List ℕ) → ScreenStands z x s screen.old
        → result ≢ DONE → (result ≡ NO_MEMORY) × Refused Global }
    ensures refused { result ≢ DONE → (result ≢ NO_MEMORY → result ≡ NOT_BEGUN)
        × IsEnded screen.new }
{
    change_kept!(
        alloc,
        screen,
        Screen(state),
        state.resize(columns.max(1), rows.max(1))
    )
}

/// Does the work of `escape_stream_screen_state_of` of `escape_c`.
pub fn screen_state(alloc: Global, screen: &mut InChunks, row: &mut ScreenRow) -> u32
    ensures told { (z : Size) (s : List ℕ) → ScreenHasConsumed z s screen.old
        → result ≡ DONE → Tells z (shown_by z s) row.new }
    ensures kept { result ≡ DONE → Stays screen.old screen.new }
    ensures refused { result ≢ DONE → (result ≢ NO_MEMORY → result ≡ NOT_BEGUN)
        × IsEnded screen.new × (row.new ≡ row.old) }
{
    change_kept!(alloc, screen, Screen(state), state.tell(row))
}

/// Does the work of `escape_stream_screen_cells` of `escape_c`.
pub fn screen_cells(
    alloc: Global,
    screen: &mut InChunks,
    row: usize,
    out: &mut [CellRow],
    needed: &mut usize,
) -> u32
    ensures shown { (z : Size) (s : List ℕ) → ScreenHasConsumed z s screen.old
        → result ≡ DONE → Puts (cells_shown (shown_by z s) row) out.old out.new needed.new }
    ensures kept { result ≡ DONE → Stays screen.old screen.new }
    ensures refused { result ≢ DONE → (result ≢ NO_MEMORY → result ≡ NOT_BEGUN)
        × IsEnded screen.new × (out.new ≡ out.old) × (needed.new ≡ needed.old) }
{
    change_kept!(alloc, screen, Screen(state), state.cells(row, out, needed))
}

/// Does the work of `escape_stream_screen_scrolled` of `escape_c`.
pub fn screen_scrolled(
    alloc: Global,
    screen: &mut InChunks,
    row: usize,
    out: &mut [CellRow],
    needed: &mut usize,
) -> u32
    ensures kept { result ≡ DONE → Stays screen.old screen.new }
    ensures refused { result ≢ DONE → (result ≢ NO_MEMORY → result ≡ NOT_BEGUN)
        × IsEnded screen.new × (out.new ≡ out.old) × (needed.new ≡ needed.old) }
{
    change_kept!(
        alloc,
        screen,
        Screen(state),
        state.scrolled_cells(row, out, needed)
    )
}

/// Does the work of `escape_stream_screen_text` of `escape_c`.
pub fn screen_text(
    alloc: Global,
    screen: &mut InChunks,
    row: usize,
    out: &mut [u8],
    needed: &mut usize,
) -> u32
    ensures shown { (z : Size) (s : List ℕ) → ScreenHasConsumed z s screen.old
        → result ≡ DONE → Puts (text_shown (shown_by z s) row) out.old out.new needed.new }
    ensures kept { result ≡ DONE → Stays screen.old screen.new }
    ensures refused { result ≢ DONE → (result ≢ NO_MEMORY → result ≡ NOT_BEGUN)
        × IsEnded screen.new × (out.new ≡ out.old) × (needed.new ≡ needed.old) }
{
    change_kept!(
        alloc,
        screen,
        Screen(state),
        state.text(alloc, row, out, needed)
    )
}

/// Does the work of `escape_stream_screen_title` of `escape_c`.
pub fn screen_title(alloc: Global, screen: &mut InChunks, out: &mut [u8], needed: &mut usize) -> u32
    ensures shown { (z : Size) (s : List ℕ) → ScreenHasConsumed z s screen.old
        → result ≡ DONE → Puts (title_shown (shown_by z s)) out.old out.new needed.new }
    ensures kept { result ≡ DONE → Stays screen.old screen.new }
    ensures refused { result ≢ DONE → (result ≡ NOT_BEGUN) × IsEnded screen.new
        × (out.new ≡ out.old) × (needed.new ≡ needed.old) }
{
    change_kept!(
        alloc,
        screen,
        Screen(state),
        always * needed = state.title(out)
    )
}

/// Does the work of `escape_stream_screen_icon_name` of `escape_c`.
pub fn screen_icon_name(
    alloc: Global,
    screen: &mut InChunks,
    out: &mut [u8],
    needed: &mut usize,
) -> u32
    ensures shown { (z : Size) (s : List ℕ) → ScreenHasConsumed z s screen.old
        → result ≡ DONE → Puts (icon_name_shown (shown_by z s)) out.old out.new needed.new }
    ensures kept { result ≡ DONE → Stays screen.old screen.new }
    ensures refused { result ≢ DONE → (result ≡ NOT_BEGUN) × IsEnded screen.new
        × (out.new ≡ out.old) × (needed.new ≡ needed.old) }
{
    change_kept!(
        alloc,
        screen,
        Screen(state),
        always * needed = state.icon_name(out)
    )
}

/// Does the work of `escape_stream_screen_requests` of `escape_c`.
pub fn screen_requests(
    alloc: Global,
    screen: &mut InChunks,
    out: &mut [RequestRow],
    needed: &mut usize,
) -> u32
    ensures made { result ≡ DONE → IfSome (screen_in screen.old.held.kept)
        (λ x. Puts (map request_row (requests_now x.terminal)) out.old out.new needed.new) }
    ensures kept { result ≡ DONE → Stays screen.old screen.new }
    ensures refused { result ≢ DONE → (result ≡ NOT_BEGUN) × IsEnded screen.new
        × (out.new ≡ out.old) × (needed.new ≡ needed.old) }
{
    change_kept!(
        alloc,
        screen,
        Screen(state),
        always * needed = state.requests(out)
    )
}

/// Does the work of `escape_stream_screen_link` of `escape_c`.
pub fn screen_link(
    alloc: Global,
    screen: &mut InChunks,
    number: usize,
    out: &mut [u8],
    needed: &mut usize,
) -> u32
    ensures kept { result ≡ DONE → Stays screen.old screen.new }
    ensures refused { result ≢ DONE → (result ≡ NOT_BEGUN) × IsEnded screen.new
        × (out.new ≡ out.old) × (needed.new ≡ needed.old) }
{
    change_kept!(
        alloc,
        screen,
        Screen(state),
        always * needed = state.address(number, out)
    )
}

/// Does the work of `escape_stream_screen_link_id` of `escape_c`.
pub fn screen_link_id(
    alloc: Global,
    screen: &mut InChunks,
    number: usize,
    out: &mut [u8],
    needed: &mut usize,
) -> u32
    ensures kept { result ≡ DONE → Stays screen.old screen.new }
    ensures refused { result ≢ DONE → (result ≡ NOT_BEGUN) × IsEnded screen.new
        × (out.new ≡ out.old) × (needed.new ≡ needed.old) }
{
    change_kept!(
        alloc,
        screen,
        Screen(state),
        always * needed = state.id(number, out)
    )
}

/// Does the work of `escape_stream_screen_changed` of `escape_c`.
pub fn screen_changed(alloc: Global, screen: &mut InChunks, out: &mut [u8]) -> u32
    ensures shown { (z : Size) (s : List ℕ) → ScreenHasConsumed z s screen.old
        → result ≡ DONE → ScreenHasConsumed z s screen.new }
    ensures refused { result ≢ DONE → (result ≢ NO_MEMORY → result ≡ NOT_BEGUN)
        × IsEnded screen.new }
{
    change_kept!(alloc, screen, Screen(state), state.look(alloc, out))
}

/// Does the work of `escape_stream_screen_end` of `escape_c`.
pub fn screen_end(alloc: Global, screen: &mut InChunks)
    ensures { IsEnded screen.new }
{
    drop(screen.take(alloc));
}
