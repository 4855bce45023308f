//! A sheet as HTML.

use crate::kept::unless;
use esc_html::{HtmlWriter, Layout};
use fallible_alloc::push_str;
use std::alloc::{AllocError, Allocator};

/// The beginning of a page. A browser loads nothing for it, and runs nothing.
pub const HEAD: &str = "<!DOCTYPE html>\n<meta charset=\"utf-8\">\n\
    <meta http-equiv=\"Content-Security-Policy\" \
    content=\"default-src 'none'; style-src 'unsafe-inline'\">\n<title>Screen</title>\n";

// Looks are declarations of CSS, so that a page needs no style sheet.
const LAYOUT: Layout = Layout {
    per_line: false,
    inline: true,
};

// Says how many bytes of a sequence are kept: as many as a terminal keeps of a link.
const LIMIT: usize = 4096;

/// Returns the HTML of a text: a `pre` of the page that `esc_html` makes of it. The error is that
/// memory was refused.
pub fn html_of<A: Allocator + Copy>(alloc: A, text: &str) -> Result<String<A>, AllocError> {
    let mut writer = HtmlWriter::with_layout(alloc, LIMIT, LAYOUT);
    let mut html = String::new(alloc);
    let done = push_html(&mut html, text, &mut writer);
    unless(done, html)
}

// Appends the HTML of a text by way of this writer, to which nothing came.
fn push_html<A: Allocator + Copy>(
    html: &mut String<A>,
    text: &str,
    writer: &mut HtmlWriter<A>,
) -> Result<(), AllocError> {
    if writer.feed(text.as_bytes()).is_err() {
        return Err(AllocError);
    }
    push_str(html, "<pre>\n")?;
    push_str(html, writer.output())?;
    push_str(html, writer.finish())?;
    push_str(html, "</pre>\n")
}
