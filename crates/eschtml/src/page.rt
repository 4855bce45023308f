//! The text before and after a stream in a whole page.

use crate::options::{Options, Theme};
use crate::strings::Lost;
use crate::style::{push_page_style, push_style};
use esc_html::push_text;
use esc_style::palettes::Palette;
use page_input::Mark;
use std::alloc::{AllocError, Global};

// The permissions of a page: its own styles, and nothing that a browser would load or run.
const OWN_STYLES: &str = "default-src 'none'; style-src 'unsafe-inline'; base-uri 'none'; \
                          form-action 'none'";

// The same, and the style sheets of other addresses.
const ANY_STYLES: &str = "default-src 'none'; style-src 'unsafe-inline' 'self' file: http: https:; \
                          base-uri 'none'; form-action 'none'";

// And images that are in the page.
const IMAGES: &str = "; img-src data:";

// A text, if it was made whole.
fn whole(text: String, made: Result<(), AllocError>) -> Result<String, AllocError> {
    match made {
        Ok(()) => Ok(text),
        Err(error) => Err(error),
    }
}

/// The beginning of a page: its title, and its style sheet or a link to that of the options. The
/// error is that memory was refused.
pub fn head(alloc: Global, title: &str, options: &Options<'_>) -> Result<String, AllocError> {
    let mut text = String::new(alloc);
    let made = push_head(&mut text, title, options);
    whole(text, made)
}

fn push_head(text: &mut String, title: &str, options: &Options<'_>) -> Result<(), AllocError> {
    fallible_alloc::push_str(text, "<!DOCTYPE html>\n<html lang=\"")?;
    push_value(text, options.lang)?;
    fallible_alloc::push_str(
        text,
        "\">\n<head>\n<meta charset=\"utf-8\">\n\
         <meta http-equiv=\"Content-Security-Policy\" content=\"",
    )?;
    fallible_alloc::push_str(text, allowed(options.css))?;
    fallible_alloc::push_str(text, if options.images { IMAGES } else { "" })?;
    fallible_alloc::push_str(
        text,
        "\">\n<meta name=\"viewport\" content=\"width=device-width, initial-scale=1\">\n<title>",
    )?;
    push_title(text, title)?;
    fallible_alloc::push_str(text, "</title>\n")?;
    push_sheet(text, options)?;
    fallible_alloc::push_str(text, "</head>\n<body>\n<main>\n<h1>")?;
    push_title(text, title)?;
    fallible_alloc::push_str(text, "</h1>\n")
}

// Appends a title, with U+FFFD in the place of controls and noncharacters: some are no HTML, and
// controls are obeyed if the page is printed on a terminal.
fn push_title(text: &mut String, title: &str) -> Result<(), AllocError> {
    let shown = as_characters(*text.allocator(), title)?;
    push_text(text, shown.as_str())
}

// A title, or the name of a stream, with U+FFFD in the place of controls and noncharacters.
fn as_characters(alloc: Global, title: &str) -> Result<String, AllocError> {
    let mut shown = String::new(alloc);
    let made = push_characters(&mut shown, title);
    whole(shown, made)
}

fn push_characters(shown: &mut String, title: &str) -> Result<(), AllocError> {
    for c in title.chars() {
        let stays = !is_control(c) && !is_noncharacter(c);
        fallible_alloc::push_char(shown, if stays { c } else { '\u{fffd}' })?;
    }
    Ok(())
}

// Whether it is a control of C0 or C1, or DEL.
fn is_control(c: char) -> bool {
    c < '\u{20}' || ('\u{7f}' <= c && c <= '\u{9f}')
}

// Whether it is a noncharacter (Unicode, 23.7), which is an error in HTML.
fn is_noncharacter(c: char) -> bool {
    ('\u{fdd0}' <= c && c <= '\u{fdef}') || c as u32 & 0xfffe == 0xfffe
}

// The permissions of a page with the style sheet of this address, or with its own.
fn allowed(css: Option<&str>) -> &'static str {
    match css {
        Some(_) => ANY_STYLES,
        None => OWN_STYLES,
    }
}

// Whether the page is light or dark, and its palette: light, with none, if it has the colours of a
// light one by themselves.
fn colors_of(options: &Options<'_>) -> (Theme, Option<Palette>) {
    if options.layout.inline {
        (Theme::Light, None)
    } else {
        (options.theme, options.palette)
    }
}

// The style sheet, or a link to that of the options.
fn push_sheet(text: &mut String, options: &Options<'_>) -> Result<(), AllocError> {
    match options.css {
        Some(address) => {
            fallible_alloc::push_str(text, "<link rel=\"stylesheet\" href=\"")?;
            push_value(text, address)?;
            fallible_alloc::push_str(text, "\">\n")
        }
        None => {
            fallible_alloc::push_str(text, "<style>\n")?;
            let (theme, palette) = colors_of(options);
            push_style(text, theme, palette)?;
            push_page_style(text, theme, palette)?;
            fallible_alloc::push_str(text, "</style>\n")
        }
    }
}

/// Appends the value of an attribute between double quotes, with U+FFFD in the place of controls
/// and noncharacters.
pub fn push_text_value(text: &mut String, value: &str) -> Result<(), AllocError> {
    let shown = as_characters(*text.allocator(), value)?;
    push_value(text, shown.as_str())
}

// Appends the value of an attribute between double quotes.
fn push_value(text: &mut String, value: &str) -> Result<(), AllocError> {
    let mut is_first = true;
    for part in value.split('"') {
        if !is_first {
            fallible_alloc::push_str(text, "&quot;")?;
        }
        is_first = false;
        push_text(text, part)?;
    }
    Ok(())
}

/// The end of a page.
pub const END: &str = "</main>\n</body>\n</html>\n";

/// On which side of the lines that are written others are left out.
#[derive(Clone, Copy)]
pub enum Side {
    /// Before them.
    Before,
    /// After them.
    After,
}

impl Side {
    /// The place in the stream.
    pub fn place(self) -> &'static str {
        match self {
            Side::Before => "beginning",
            Side::After => "end",
        }
    }
}

/// The word for so many lines.
pub fn counted(lines: u64) -> &'static str {
    if lines == 1 { "line" } else { "lines" }
}

/// The text before a stream of this name, if so many lines before those that are written are left
/// out: a heading, if it has a number, which is in the id of the heading. The error is that memory
/// was refused.
pub fn heading(
    alloc: Global,
    name: &str,
    number: Option<u64>,
    left_out: u64,
) -> Result<String, AllocError> {
    let mut text = String::new(alloc);
    let made = push_heading(&mut text, name, number, left_out);
    whole(text, made)
}

fn push_heading(
    text: &mut String,
    name: &str,
    number: Option<u64>,
    left_out: u64,
) -> Result<(), AllocError> {
    if let Some(number) = number {
        fallible_alloc::push_str(text, "<h2 id=\"F")?;
        fallible_alloc::push_display(text, &number)?;
        fallible_alloc::push_str(text, "\">")?;
        push_title(text, name)?;
        fallible_alloc::push_str(text, "</h2>\n")?;
    }
    push_left_out(text, left_out, Side::Before)
}

/// The text before the HTML of a stream of this name, after so many lines of the page. A browser
/// leaves out the line feed after `<pre>`. The error is that memory was refused.
pub fn before(
    alloc: Global,
    name: &str,
    lines: u64,
    options: &Options<'_>,
) -> Result<String, AllocError> {
    let mut text = String::new(alloc);
    let made = push_before(&mut text, name, lines, options);
    whole(text, made)
}

fn push_before(
    text: &mut String,
    name: &str,
    lines: u64,
    options: &Options<'_>,
) -> Result<(), AllocError> {
    push_opening(text, lines, options)?;
    push_text_value(text, name)?;
    fallible_alloc::push_str(text, "\">\n")
}

/// The text after it.
pub const AFTER: &str = "</pre></div>\n";

// Its beginning, up to the name. If not all lines are shown as such, the numbers of the others are
// counted from the first of them on.
fn push_opening(text: &mut String, lines: u64, options: &Options<'_>) -> Result<(), AllocError> {
    fallible_alloc::push_str(text, "<div class=\"es-stream")?;
    if options.wraps {
        fallible_alloc::push_str(text, " es-wrap")?;
    }
    if options.shows {
        fallible_alloc::push_str(text, " es-shows")?;
    }
    fallible_alloc::push_str(text, "\"><pre tabindex=\"0\" role=\"region\"")?;
    if lines > 0 && (options.folds || options.cut.is_some()) {
        fallible_alloc::push_str(text, " style=\"counter-reset: es-line ")?;
        fallible_alloc::push_display(text, &lines)?;
        fallible_alloc::push_str(text, "\"")?;
    }
    fallible_alloc::push_str(text, " aria-label=\"")
}

/// The text after a stream, if so many lines after those that are written are left out. The error
/// is that memory was refused.
pub fn ending(alloc: Global, left_out: u64) -> Result<String, AllocError> {
    let mut text = String::new(alloc);
    let made = push_left_out(&mut text, left_out, Side::After);
    whole(text, made)
}

/// The beginning or the end of a group of lines. The error is that memory was refused.
pub fn group(alloc: Global, mark: &Mark) -> Result<String, AllocError> {
    let mut text = String::new(alloc);
    let made = push_group(&mut text, mark);
    whole(text, made)
}

fn push_group(text: &mut String, mark: &Mark) -> Result<(), AllocError> {
    match mark {
        Mark::Begin { title, is_closed } => {
            fallible_alloc::push_str(text, opening_of(*is_closed))?;
            push_title(text, title.as_str())?;
            fallible_alloc::push_str(text, "</summary>\n")
        }
        Mark::End => fallible_alloc::push_str(text, "</details>\n"),
    }
}

/// A note that a string which nothing ended, from this line on, took so many bytes: a span, on a
/// page in a note. The error is that memory was refused.
pub fn lost_note(alloc: Global, is_page: bool, lost: Lost) -> Result<String, AllocError> {
    let mut text = String::new(alloc);
    let made = push_lost(&mut text, is_page, lost);
    whole(text, made)
}

fn push_lost(text: &mut String, is_page: bool, lost: Lost) -> Result<(), AllocError> {
    fallible_alloc::push_str(text, note_begin(is_page))?;
    fallible_alloc::push_str(text, "line ")?;
    fallible_alloc::push_display(text, &lost.line)?;
    fallible_alloc::push_str(text, ": an unended string swallowed ")?;
    fallible_alloc::push_display(text, &lost.bytes)?;
    fallible_alloc::push_str(text, " bytes")?;
    fallible_alloc::push_str(text, note_end(is_page))
}

/// A note that so many images of a kind were left out, in the same way.
pub fn left_out_note(
    alloc: Global,
    is_page: bool,
    count: u64,
    images: &'static str,
    kind: &'static str,
) -> Result<String, AllocError> {
    let mut text = fallible_alloc::text(alloc, note_begin(is_page))?;
    fallible_alloc::push_display(&mut text, &count)?;
    fallible_alloc::push_str(&mut text, " ")?;
    fallible_alloc::push_str(&mut text, images)?;
    fallible_alloc::push_str(&mut text, " left out, ")?;
    fallible_alloc::push_str(&mut text, kind)?;
    fallible_alloc::push_str(&mut text, note_end(is_page))?;
    Ok(text)
}

// The tag before such a note.
fn note_begin(is_page: bool) -> &'static str {
    if is_page {
        "<p class=\"es-note\"><span class=\"es-lost\">"
    } else {
        "<span class=\"es-lost\">"
    }
}

fn note_end(is_page: bool) -> &'static str {
    if is_page {
        "</span></p>\n"
    } else {
        "</span>\n"
    }
}

// The beginning of a group, up to its title.
fn opening_of(is_closed: bool) -> &'static str {
    if is_closed {
        "<details><summary>"
    } else {
        "<details open><summary>"
    }
}

// Appends the number of lines that are left out on this side, if any are.
fn push_left_out(text: &mut String, lines: u64, side: Side) -> Result<(), AllocError> {
    if lines == 0 {
        return Ok(());
    }
    fallible_alloc::push_str(text, "<p class=\"es-note\">")?;
    fallible_alloc::push_display(text, &lines)?;
    fallible_alloc::push_str(text, " ")?;
    fallible_alloc::push_str(text, counted(lines))?;
    fallible_alloc::push_str(text, " left out at the ")?;
    fallible_alloc::push_str(text, side.place())?;
    fallible_alloc::push_str(text, "</p>\n")
}
