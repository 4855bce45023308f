//! One stream, from its reader to the output.
ghost use Rattle.std.specs.Prelude.{◌≡◌, [], ℕ, IsErrOf, None, OnOk, Some, false, if◌then◌else◌, true};
ghost use Rattle.esc_normal.specs.Streams.{Filters, HasFiltered, IsEither};
ghost use Rattle.esc_html.specs.Fed.{HasConsumed, added_by};
ghost use Rattle.esc_html.specs.Pages.{page_text};
ghost use Rattle.esc_html.specs.declared.layout.Layout.{Layout as LayoutValue};
ghost use Rattle.fallible_alloc.specs.Refusals.{Refused};
ghost use Rattle.eschtml.specs.Lengths.{IsShort};
ghost use Rattle.eschtml.specs.Piped.{NewAdding};
ghost use Rattle.eschtml.specs.Written.{IsHtml, IsHtmlBy, ended_by, going_by, html_by, html_of, layout_by, page_of, seen_by, shown_of};

use crate::joining::Joining;
use crate::kept::Kept;
use crate::lined::Lined;
use crate::options::Options;
use crate::piped::Piped;
use caret_notation::{Marking, Reveal, Revealing};
use esc_decode::Decoding;
use esc_filter::{Filter, FilterError, Policy, StreamFilter, pump};
use esc_html::{HtmlWriter, Layout, laws};
use esc_normal::Watched;
use line_collapse::Collapsing;
use std::alloc::{AllocError, Allocator, Global};
use std::io::{Read, Write};

/// The program's name.
pub const PROGRAM: &str = "eschtml";

/// A stream as HTML.
#[derive(Drop)]
struct Marked<A: Allocator = Global> {
    writer: HtmlWriter<A>,
    closing: &'static str,
    has_ended: bool,
}

impl<A: Allocator + Copy> Marked<A> {
    // A writer of nothing. Takes no memory.
    fn new(alloc: A, limit: usize, layout: Layout) -> Marked<A>
        ensures { HasConsumed limit layout [] result.writer }
    {
        Marked {
            writer: HtmlWriter::with_layout(alloc, limit, layout),
            closing: "",
            has_ended: false,
        }
    }
}

impl<A: Allocator + Copy> StreamFilter<A> for Marked<A> {
    ghost gives = { λ f m c s. (limit : ℕ) × (y : LayoutValue) × HasConsumed limit y s f.writer
        × (m ≡ page_text A (Some limit) y) × (c ≡ page_of A limit y) };

    ghost added = { λ f. if f.has_ended then f.closing.now else added_by f.writer };

    ghost has_ended = { λ _ _ _. Unit {0} };

    fn feed(&mut self, bytes: &[u8]) -> Result<(), AllocError> {
        self.has_ended = false;
        match self.writer.feed(bytes) {
            Ok(()) => Ok(()),
            Err(_) => Err(AllocError),
        }
    }

    fn finish(&mut self) -> Result<(), AllocError> {
        self.closing = self.writer.finish();
        self.has_ended = true;
        Ok(())
    }

    fn output(&self) -> &str {
        if self.has_ended {
            self.closing
        } else {
            self.writer.output()
        }
    }
}

/// Writes on `writer` the HTML of the text that the stream that `reader` reads becomes by its
/// encoding, as it comes, and at its end the tags that close those that are open. By the options,
/// the actions that are left out are shown in place, and only the final lines are written. It
/// returns the result of [`pump`]. If no lines are kept, the HTML is bounded by the length of the
/// stream.
pub fn write_html<A: Allocator + Copy, R: Read, W: Write>(
    alloc: A,
    options: &Options<'_>,
    reader: &mut Watched<R>,
    writer: &mut Watched<W>,
) -> Result<(), FilterError>
    ensures holds { Filters R.Read W.Write (html_by A options.now) (IsHtmlBy A options.now) result
        reader writer }
    ensures bounded { options.now.rows ≡ None
        → OnOk result (HasFiltered R.Read W.Write (IsShort options.now) reader writer) }
    ensures refused { IsErrOf result FilterError.Memory → Refused A }
{
    laws::streams_are_pages::<A>();
    match options.rows {
        None => write_whole(alloc, options, reader, writer),
        Some(rows) => write_left(alloc, options, rows, reader, writer),
    }
}

// Writes the HTML of the whole stream.
fn write_whole<A: Allocator + Copy, R: Read, W: Write>(
    alloc: A,
    options: &Options<'_>,
    reader: &mut Watched<R>,
    writer: &mut Watched<W>,
) -> Result<(), FilterError>
    ensures holds { Filters R.Read W.Write
        (λ s. html_of A options.now (seen_by A options.now false true s))
        (λ b s t. IsHtml A options.now b (seen_by A options.now false b s) t) result reader
        writer }
    ensures refused { IsErrOf result FilterError.Memory → Refused A }
{
    laws::streams_are_pages::<A>();
    laws::lines_are_elements::<A>();
    let marked = Marked::new(alloc, options.limit, layout_by(options));
    write_lined(alloc, options, false, marked, reader, writer)
}

// Writes the HTML of the final lines; so many may be written again.
fn write_left<A: Allocator + Copy, R: Read, W: Write>(
    alloc: A,
    options: &Options<'_>,
    rows: usize,
    reader: &mut Watched<R>,
    writer: &mut Watched<W>,
) -> Result<(), FilterError>
    ensures holds { Filters R.Read W.Write
        (λ s. html_of A options.now
        (shown_of A options.now (Some rows) true (seen_by A options.now true true s)))
        (λ b s t. IsHtml A options.now b
        (shown_of A options.now (Some rows) b (seen_by A options.now true b s)) t) result
        reader writer }
    ensures refused { IsErrOf result FilterError.Memory → Refused A }
{
    laws::streams_are_pages::<A>();
    laws::lines_are_elements::<A>();
    let filter = Filter::new(alloc, options.limit, Policy::Screen);
    let Ok(collapsing) = Collapsing::new(alloc, filter, rows, options.columns) else {
        return Err(FilterError::Memory);
    };
    let marked = Marked::new(alloc, options.limit, layout_by(options));
    let piped = Piped::new(alloc, collapsing, marked);
    write_lined(alloc, options, true, piped, reader, writer)
}

// The layout of the page: if lines are elements, no tag of it goes on over lines.
fn layout_by(options: &Options<'_>) -> Layout
    ensures { result ≡ layout_by options.now.first options.now.layout }
{
    match options.first {
        None => options.layout,
        Some(_) => Layout {
            per_line: true,
            inline: options.layout.inline,
        },
    }
}

// The same as `write_seen`, if this filter has the text of a page; each of its lines is made an
// element, if the options ask for that.
fn write_lined<A: Allocator + Copy, R: Read, W: Write, F: StreamFilter<A> + Drop>(
    alloc: A,
    options: &Options<'_>,
    moves: bool,
    filter: F,
    reader: &mut Watched<R>,
    writer: &mut Watched<W>,
) -> Result<(), FilterError>
    ensures holds { NewAdding F.StreamFilter filter (λ m c. Filters R.Read W.Write
        (λ s. ended_by options.now.first (c (seen_by A options.now moves true s)))
        (IsEither (λ s. ended_by options.now.first (c (seen_by A options.now moves true s)))
        (λ s. going_by options.now.first (m (seen_by A options.now moves false s)))) result
        reader writer) }
    ensures refused { NewAdding F.StreamFilter filter (λ m c.
        IsErrOf result FilterError.Memory → Refused A) }
{
    match options.first {
        None => write_seen(alloc, options, moves, filter, reader, writer),
        Some(first) => {
            let lined = Lined::new(alloc, first, filter);
            write_seen(alloc, options, moves, lined, reader, writer)
        }
    }
}

// Writes on `writer` by this filter, which was fed nothing, the text of the stream that `reader`
// reads, after its encoding; or, if the actions that are left out are shown, of that with these
// shown; `moves` says that actions that change the screen are not.
fn write_seen<A: Allocator + Copy, R: Read, W: Write, F: StreamFilter<A> + Drop>(
    alloc: A,
    options: &Options<'_>,
    moves: bool,
    filter: F,
    reader: &mut Watched<R>,
    writer: &mut Watched<W>,
) -> Result<(), FilterError>
    ensures holds { NewAdding F.StreamFilter filter (λ m c. Filters R.Read W.Write
        (λ s. c (seen_by A options.now moves true s))
        (IsEither (λ s. c (seen_by A options.now moves true s))
        (λ s. m (seen_by A options.now moves false s))) result reader writer) }
    ensures refused { NewAdding F.StreamFilter filter (λ m c.
        IsErrOf result FilterError.Memory → Refused A) }
{
    let shows = options.shows;
    if shows {
        let reveal = Reveal::with_marking(
            alloc,
            options.limit,
            Kept { moves },
            false,
            Marking::Reversed,
        );
        let joining = Joining::new(alloc, filter);
        let shown = Revealing::new(alloc, reveal, joining);
        let mut filter = Decoding::new(alloc, options.encoding, shown);
        pump(alloc, &mut filter, reader, writer)
    } else {
        let mut filter = Decoding::new(alloc, options.encoding, filter);
        pump(alloc, &mut filter, reader, writer)
    }
}
