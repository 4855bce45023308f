//! The HTML of a stream in chunks.
ghost use Rattle.std.specs.Prelude.{◌↔◌, ◌≡◌, ◌≢◌, List, ℕ};
ghost use Rattle.esc_html.specs.declared.layout.Layout.{Layout};
ghost use Rattle.esc_calls.specs.InChunks.{Begins, IsEnded, KeepsNone, Stays, Takes, text_of};
ghost use Rattle.esc_calls.specs.Kept.{page_in};
ghost use Rattle.esc_calls.specs.PageChunks.{Closes, PageHasConsumed, layout_of};
ghost use Rattle.esc_calls.specs.PageStates.{open_page};
ghost use Rattle.esc_calls.specs.Output.{Copies};
ghost use Rattle.fallible_alloc.specs.Refusals.{Refused};

use esc_calls::in_chunks::InChunks;
use esc_calls::{DONE, NO_MEMORY, NOT_BEGUN, page_chunks};
use std::alloc::Global;

/// Begins the page of a stream, with a limit of `limit` bytes that are kept of a string. With
/// `per_line` each line is HTML by itself, and with `is_inline` looks are styles alone, as a
/// [`Layout`] says. A page that was begun before is given back first. After `NO_MEMORY` it is not
/// begun.
#[unsafe(no_mangle)]
pub extern "C" fn escape_stream_html_begin(
    alloc: Global,
    page: &mut InChunks,
    per_line: bool,
    is_inline: bool,
    limit: usize,
) -> u32
    ensures begun { result ≡ DONE
        → Begins (PageHasConsumed limit (layout_of per_line is_inline)) page.new }
    ensures refused { result ≢ DONE → (result ≡ NO_MEMORY) × IsEnded page.new }
    ensures memory { result ≡ NO_MEMORY → Refused Global }
{
    page_chunks::html_begin(alloc, page, per_line, is_inline, limit)
}

/// Takes the next chunk of the stream. The HTML that it adds to the page is then the text that
/// [`escape_stream_html_output`] gives.
///
/// `NO_MEMORY` says that a request for memory was refused: the page was given back. `NOT_BEGUN`
/// says that it had not begun, or that its stream had ended; it was given back too.
#[unsafe(no_mangle)]
pub extern "C" fn escape_stream_html_feed(alloc: Global, page: &mut InChunks, bytes: &[u8]) -> u32
    ensures taken { (limit : ℕ) (y : Layout) (s : List ℕ) → PageHasConsumed limit y s page.old
        → result ≡ DONE → Takes (PageHasConsumed limit y) (open_page limit y) s bytes.now page.new }
    ensures memory { (limit : ℕ) (y : Layout) (s : List ℕ) → PageHasConsumed limit y s page.old
        → result ≢ DONE → (result ≡ NO_MEMORY) × Refused Global }
    ensures refused { result ≢ DONE → (result ≢ NO_MEMORY → result ≡ NOT_BEGUN)
        × IsEnded page.new }
{
    page_chunks::html_feed(alloc, page, bytes)
}

/// Ends the stream. The tags that close those that are open are then the text that
/// [`escape_stream_html_output`] gives: with it, the texts of all chunks, one after another, are a
/// page. It takes no memory. `NOT_BEGUN` says that the page had not begun.
#[unsafe(no_mangle)]
pub extern "C" fn escape_stream_html_finish(alloc: Global, page: &mut InChunks) -> u32
    ensures closed { (limit : ℕ) (y : Layout) (s : List ℕ) → PageHasConsumed limit y s page.old
        → result ≡ DONE → Closes limit y s page.new }
    ensures refused { result ≢ DONE → (result ≡ NOT_BEGUN) × IsEnded page.new }
    ensures gone { result ≡ NOT_BEGUN ↔ KeepsNone page_in page.old }
{
    page_chunks::html_finish(alloc, page)
}

/// Copies the text that the last call added, from its byte `from` on, to the beginning of `out`,
/// as much as fits, and leaves the rest of `out` as it is. Returns how many bytes these are.
#[unsafe(no_mangle)]
pub extern "C" fn escape_stream_html_output(
    alloc: Global,
    page: &mut InChunks,
    from: usize,
    out: &mut [u8],
) -> usize
    ensures copied { Copies (text_of page.old) from out.old out.new result }
    ensures kept { Stays page.old page.new }
{
    page_chunks::html_output(alloc, page, from, out)
}

/// Gives back the memory of a page. One that is not begun stays so.
#[unsafe(no_mangle)]
pub extern "C" fn escape_stream_html_end(alloc: Global, page: &mut InChunks)
    ensures { IsEnded page.new }
{
    page_chunks::html_end(alloc, page);
}
