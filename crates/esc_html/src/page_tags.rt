//! The tags of a page: what is opened before characters, and closed after them.
ghost use Rattle.std.specs.Prelude.{◌≡◌, ◌++◌, OnErr, OnOk, true};
ghost use Rattle.esc_html.specs.Fed.{Stays, state_of, text_of};
ghost use Rattle.esc_html.specs.PageParts.{html_text};
ghost use Rattle.esc_html.specs.Pages.{after_character, before_character, closing_parts, link_opening, opening_tags, span_closed, span_unless, with_tags, without_span};
ghost use Rattle.esc_html.specs.declared.tags.Tags.TheVariants.{Closed, Open};
ghost use Rattle.esc_style.specs.Looks.{is_plain};
ghost use Rattle.fallible_alloc.specs.Refusals.{Refused};

use crate::page::Page;
use crate::tags::{Tags, closing_tags, link_end, span_end};
use std::alloc::{AllocError, Allocator};

impl<A: Allocator> Page<A> {
    // Opens a link, if there is one.
    fn open_link(&mut self) -> Result<(), AllocError>
        ensures ok { OnOk result (text_of self.new
            ≡ text_of self.old ++ html_text (link_opening (state_of self.old).pen.link)) }
        ensures state { OnOk result (state_of self.new ≡ state_of self.old) }
        ensures stays { OnOk result (Stays self.old self.new) }
        ensures refused { OnErr result (Refused A) }
    {
        match &self.link {
            Some(address) => self.html.push_link(address.as_str()),
            None => Ok(()),
        }
    }

    // Opens a span, if the look is not plain.
    fn open_span(&mut self) -> Result<(), AllocError>
        ensures ok { OnOk result (text_of self.new
            ≡ text_of self.old ++ html_text
            (span_unless self.old.layout.inline (is_plain self.old.look.look) self.old.look.look)) }
        ensures state { OnOk result (state_of self.new ≡ state_of self.old) }
        ensures stays { OnOk result (Stays self.old self.new) }
        ensures refused { OnErr result (Refused A) }
    {
        self.look.open(&mut self.html, self.layout.inline)
    }

    /// Opens the tags that are not open.
    pub fn open(&mut self) -> Result<(), AllocError>
        ensures ok { OnOk result (text_of self.new
            ≡ text_of self.old ++ html_text (opening_tags (state_of self.old))) }
        ensures state { OnOk result (state_of self.new ≡ with_tags (state_of self.old) Open) }
        ensures stays { OnOk result (Stays self.old self.new) }
        ensures refused { OnErr result (Refused A) }
    {
        match self.tags {
            Tags::Open => return Ok(()),
            Tags::Link => {}
            Tags::Closed => self.open_link()?,
        }
        self.open_span()?;
        self.tags = Tags::Open;
        Ok(())
    }

    /// Closes the tags that are open.
    pub fn close(&mut self) -> Result<(), AllocError>
        ensures ok { OnOk result (text_of self.new
            ≡ text_of self.old ++ html_text (closing_parts (state_of self.old))) }
        ensures state { OnOk result (state_of self.new ≡ with_tags (state_of self.old) Closed) }
        ensures layout { OnOk result (self.new.layout ≡ self.old.layout) }
        ensures refused { OnErr result (Refused A) }
    {
        let closing = self.closing();
        self.html.push_html(closing)?;
        self.tags = Tags::Closed;
        Ok(())
    }

    /// Closes the span alone.
    pub fn close_span(&mut self) -> Result<(), AllocError>
        ensures ok { OnOk result (text_of self.new
            ≡ text_of self.old ++ html_text (span_closed (state_of self.old))) }
        ensures state { OnOk result (state_of self.new
            ≡ with_tags (state_of self.old) (without_span (state_of self.old).tags)) }
        ensures layout { OnOk result (self.new.layout ≡ self.old.layout) }
        ensures refused { OnErr result (Refused A) }
    {
        let closing = self.span_closing();
        self.html.push_html(closing)?;
        self.tags = self.tags.without_span();
        Ok(())
    }

    /// The tags that close those that are open.
    pub fn closing(&self) -> &'static str
        ensures { result.now ≡ html_text (closing_parts (state_of self.now)) }
    {
        match self.tags {
            Tags::Closed => "",
            Tags::Link => link_end(self.link.is_some()),
            Tags::Open => closing_tags(self.look.is_plain(), self.link.is_some()),
        }
    }

    // The tag that closes the span.
    fn span_closing(&self) -> &'static str
        ensures { result.now ≡ html_text (span_closed (state_of self.now)) }
    {
        match self.tags {
            Tags::Closed | Tags::Link => "",
            Tags::Open => span_end(self.look.is_plain()),
        }
    }

    // Closes the tags at the end of a line, over which a link goes on a number of times.
    fn end_line(&mut self) -> Result<(), AllocError>
        ensures ok { OnOk result (text_of self.new
            ≡ text_of self.old ++ html_text (closing_parts (state_of self.old))) }
        ensures state { OnOk result (state_of self.new ≡ after_character true (state_of self.old)) }
        ensures layout { OnOk result (self.new.layout ≡ self.old.layout) }
        ensures refused { OnErr result (Refused A) }
    {
        self.close()?;
        if self.lines == 0 {
            self.link = None;
        } else {
            self.lines -= 1;
        }
        Ok(())
    }

    /// Closes the tags before the end of a line, and opens them before any other character.
    pub fn prepare(&mut self, ends_line: bool) -> Result<(), AllocError>
        ensures ok { OnOk result (text_of self.new
            ≡ text_of self.old ++ html_text (before_character ends_line (state_of self.old))) }
        ensures state { OnOk result (state_of self.new
            ≡ after_character ends_line (state_of self.old)) }
        ensures layout { OnOk result (self.new.layout ≡ self.old.layout) }
        ensures refused { OnErr result (Refused A) }
    {
        if ends_line {
            self.end_line()
        } else {
            self.open()
        }
    }
}
