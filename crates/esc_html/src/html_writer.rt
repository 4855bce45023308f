//! A stream as a page.
ghost use Rattle.std.specs.Prelude.{◌≡◌, [], IfErr, OnOk, Some};
ghost use Rattle.esc_html.specs.Pages.{closing_text};
ghost use Rattle.fallible_alloc.specs.Refusals.{Refused};

use crate::layout::Layout;
use crate::page::Page;
use esc_frame::ParseError;
use esc_parse::Parser;
use std::alloc::{Allocator, Global};
use std::mem;

/// Takes a stream in any parts, and gives for each the HTML that it adds: the characters of the
/// stream but DEL, with U+FFFD in the place of noncharacters, tabs, and a line feed for each
/// control that begins a line (LF, VT, FF, IND and NEL), in spans of their looks and in links to
/// safe addresses, as the [`Layout`] says. All other actions show nothing. A link stays open if the
/// look changes in it.
///
/// All texts together are at most 150 times as long as the stream, and 150 bytes more; and one is
/// at most 150 times as long as its part, and 401,000 bytes more, whatever came before it.
///
/// It keeps the unfinished segment as a parser does, at most the limit, the text of the part
/// before, and the look and the address that hold.
#[derive(Drop)]
pub struct HtmlWriter<A: Allocator = Global> {
    parser: Parser<A>,
    page: Page<A>,
    alloc: A,
}

impl<A: Allocator + Copy> HtmlWriter<A> {
    ghost use Rattle.esc_html.specs.Fed.{After, IsBroken, TakesIn, HasConsumed, added_by, closing_of, with_classes};

    /// A writer at the beginning of a stream, which keeps at most `limit` bytes of a segment, as
    /// [`Parser::with_limit`](esc_parse::Parser::with_limit) does, and writes looks as classes.
    /// With `per_line` the tags that are open are closed before each line feed, and opened again
    /// after it: so each line is HTML by itself. Takes no memory.
    pub fn new(alloc: A, limit: usize, per_line: bool) -> HtmlWriter<A>
        ensures fed { HasConsumed limit (with_classes per_line) [] result }
        ensures empty { added_by result ≡ [] }
    {
        let layout = Layout {
            per_line,
            inline: false,
        };
        HtmlWriter::with_layout(alloc, limit, layout)
    }

    /// The same, in this layout.
    pub fn with_layout(alloc: A, limit: usize, layout: Layout) -> HtmlWriter<A>
        ensures fed { HasConsumed limit layout [] result }
        ensures empty { added_by result ≡ [] }
    {
        HtmlWriter {
            parser: Parser::with_limit(alloc, limit),
            page: Page::new(alloc, layout),
            alloc,
        }
    }

    /// Takes `bytes`. The text that they add to the page of the stream so far is then
    /// [`output`](Self::output).
    ///
    /// `ParseError::Memory` says that a request for memory was refused: the text is empty, and from
    /// then on every call returns `ParseError::Failed`.
    pub fn feed(&mut self, bytes: &[u8]) -> Result<(), ParseError>
        ensures given { After self.old (λ limit y s.
            OnOk result (TakesIn limit y s bytes.now self.new)) }
        ensures refused { After self.old (λ limit y s. IfErr result (λ e.
            (e ≡ ParseError.Memory) × IsBroken self.new × (added_by self.new ≡ []) × Refused A)) }
        ensures failed { IsBroken self.old → (result ≡ Err ParseError.Failed) × IsBroken self.new
            × (added_by self.new ≡ []) }
    {
        let blank = Page::new(self.alloc, self.page.layout);
        let page = mem::replace(&mut self.page, blank);
        let (result, page) = self.parser.parse_into(bytes, page.emptied());
        match result {
            Ok(()) => {
                self.page = page;
                Ok(())
            }
            Err(error) => Err(error),
        }
    }

    /// Returns the text that the bytes fed last added.
    pub fn output(&self) -> &str
        ensures { result.now ≡ added_by self.now }
    {
        self.page.html.as_str()
    }

    /// Returns the tags that close those that are open. With them the text of all parts is a page
    /// that closes each tag.
    pub fn finish(&self) -> &'static str
        ensures text { result.now ≡ closing_of self.now }
        ensures closes { After self.now (λ limit y s.
            result.now ≡ closing_text A (Some limit) y s) }
    {
        self.page.closing()
    }
}
