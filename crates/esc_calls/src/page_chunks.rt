//! A stream that comes in chunks, as HTML.
ghost use Rattle.std.specs.Prelude.{◌≡◌, ◌≢◌, ◌↔◌, ℕ, List};
ghost use Rattle.esc_html.specs.declared.layout.Layout.{Layout};
ghost use Rattle.esc_calls.specs.InChunks.{Begins, IsEnded, KeepsNone, Stays, Takes, text_of};
ghost use Rattle.esc_calls.specs.Kept.{page_in};
ghost use Rattle.esc_calls.specs.PageChunks.{Closes, PageHasConsumed, layout_of};
ghost use Rattle.esc_calls.specs.PageStates.{open_page};
ghost use Rattle.esc_calls.specs.Output.{Copies};
ghost use Rattle.fallible_alloc.specs.Refusals.{Refused};

use crate::change_kept::change_kept;
use crate::common::{begin, copy_output};
use crate::in_chunks::InChunks;
use crate::kept::Kept;
use crate::page_state::PageState;
use crate::{DONE, NO_MEMORY, NOT_BEGUN};
use esc_html::{HtmlWriter, Layout, laws};
use std::alloc::Global;

/// Does the work of `escape_stream_html_begin` of `escape_c`.
pub fn html_begin(
    alloc: Global,
    page: &mut InChunks,
    per_line: bool,
    is_inline: bool,
    limit: usize,
) -> u32
    ensures begun { result ≡ DONE
        → Begins (PageHasConsumed limit (layout_of per_line is_inline)) page.new }
    ensures refused { result ≢ DONE → (result ≡ NO_MEMORY) × IsEnded page.new }
    ensures memory { result ≡ NO_MEMORY → Refused Global }
{
    let layout = Layout {
        per_line,
        inline: is_inline,
    };
    let kept = Kept::Page(PageState {
        writer: HtmlWriter::with_layout(alloc, limit, layout),
        has_ended: false,
    });
    begin(alloc, page, kept)
}

/// Does the work of `escape_stream_html_feed` of `escape_c`.
pub fn html_feed(alloc: Global, page: &mut InChunks, bytes: &[u8]) -> u32
    ensures taken { (limit : ℕ) (y : Layout) (s : List ℕ) → PageHasConsumed limit y s page.old
        → result ≡ DONE → Takes (PageHasConsumed limit y) (open_page limit y) s bytes.now page.new }
    ensures memory { (limit : ℕ) (y : Layout) (s : List ℕ) → PageHasConsumed limit y s page.old
        → result ≢ DONE → (result ≡ NO_MEMORY) × Refused Global }
    ensures refused { result ≢ DONE → (result ≢ NO_MEMORY → result ≡ NOT_BEGUN)
        × IsEnded page.new }
{
    let Some(mut kept) = page.take(alloc) else {
        return NOT_BEGUN;
    };
    let Kept::Page(state) = &mut *kept else {
        return NOT_BEGUN;
    };
    let status = state.feed(bytes);
    if status == DONE {
        *page = InChunks::of(kept);
    }
    status
}

/// Does the work of `escape_stream_html_finish` of `escape_c`.
pub fn html_finish(alloc: Global, page: &mut InChunks) -> u32
    ensures closed { (limit : ℕ) (y : Layout) (s : List ℕ) → PageHasConsumed limit y s page.old
        → result ≡ DONE → Closes limit y s page.new }
    ensures refused { result ≢ DONE → (result ≡ NOT_BEGUN) × IsEnded page.new }
    ensures gone { result ≡ NOT_BEGUN ↔ KeepsNone page_in page.old }
{
    laws::streams_are_pages::<Global>();
    change_kept!(alloc, page, Page(state), always state.has_ended = true)
}

/// Does the work of `escape_stream_html_output` of `escape_c`.
pub fn html_output(alloc: Global, page: &mut InChunks, from: usize, out: &mut [u8]) -> usize
    ensures copied { Copies (text_of page.old) from out.old out.new result }
    ensures kept { Stays page.old page.new }
{
    copy_output(alloc, page, from, out)
}

/// Does the work of `escape_stream_html_end` of `escape_c`.
pub fn html_end(alloc: Global, page: &mut InChunks)
    ensures { IsEnded page.new }
{
    drop(page.take(alloc));
}
