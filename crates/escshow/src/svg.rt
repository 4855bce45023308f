//! A screen as a picture (SVG 1.1).
ghost use Rattle.std.specs.Prelude.{◌<◌};

use crate::ink::{ink_of, plain};
use crate::run::Run;
use esc_html::push_text;
use esc_sequences::Underline;
use esc_sheet::View;
use esc_style::Look;
use esc_style::palettes::Rgb;
use fallible_alloc::{push_char, push_display, push_str};
use std::alloc::{AllocError, Global};
use unicode_visibility::{belongs, hex_digit, is_shown, number_text};

/// The width of a column, the height of a row, and the base line of its characters, in pixels.
pub(crate) const WIDTH: u32 = 9;

pub(crate) const HEIGHT: u32 = 19;

const BASE: u32 = 15;

/// The space around the screen.
pub(crate) const MARGIN: u32 = 12;

// The attributes of the root: a column is as wide as a character of a fixed font of 15 pixels.
const FONT: &str = "font-family=\"ui-monospace,SFMono-Regular,Menlo,Consolas,monospace\" \
    font-size=\"15\" xml:space=\"preserve\">\n";

/// The text of a picture. Once a request for memory is refused, it lacks some of it.
#[derive(Drop)]
pub struct Svg {
    text: String,
    is_refused: bool,
}

/// Returns the picture of a screen. Characters of the screen are text in it, with `&`, `<` and `>`
/// as character references, and links are left out. The error is that memory was refused.
pub fn picture_of(alloc: Global, view: View<'_>) -> Result<String, AllocError> {
    let title = spelled(alloc, view.title.unwrap_or("Screen"))?;
    let mut svg = Svg::new(alloc);
    svg.begin(view, title.as_str());
    for at in 0..view.screen.height() {
        push_row(&mut svg, alloc, view, at)?;
    }
    svg.push("</svg>\n");
    svg.ended()
}

// Returns a text with each character spelled that does not show.
fn spelled(alloc: Global, text: &str) -> Result<String, AllocError> {
    let mut shown = String::new(alloc);
    let mut last = None;
    for c in text.chars() {
        append_shown(&mut shown, last, c)?;
        last = Some(c);
    }
    Ok(shown)
}

/// Appends a character after this one: its number, if it neither shows nor belongs to that, or if
/// it may not be in XML.
pub(crate) fn append_shown(
    text: &mut String,
    last: Option<char>,
    c: char,
) -> Result<(), AllocError> {
    if is_in_xml(c) && (is_shown(c) || belongs(last, c)) {
        push_char(text, c)
    } else {
        push_str(text, number_text(c).as_str())
    }
}

// Returns whether a character that is no control may be in XML (XML 1.0, 2.2).
fn is_in_xml(c: char) -> bool {
    c != '\u{fffe}' && c != '\u{ffff}'
}

// Appends the runs of a row.
fn push_row(svg: &mut Svg, alloc: Global, view: View<'_>, at: u16) -> Result<(), AllocError> {
    push_runs(svg, view, at, &mut Run::new(alloc))
}

// Appends the runs of a row by way of this one, to which no cell came.
fn push_runs(svg: &mut Svg, view: View<'_>, at: u16, run: &mut Run) -> Result<(), AllocError> {
    let mut column: u32 = 0;
    for cell in view.row(at) {
        if !run.goes_on(cell) {
            run.push(svg, view, at)?;
            run.begin(column, cell);
        }
        run.add_cell(cell)?;
        column = column.saturating_add(1);
    }
    run.push(svg, view, at)
}

/// Returns whether characters of this look have a line under, through or above them.
pub(crate) fn has_lines(look: &Look) -> bool {
    look.underline != Underline::None || look.strikethrough || look.overline
}

// Returns the words of an underline (CSS Text Decoration 3).
fn line_words(underline: Underline) -> &'static str {
    match underline {
        Underline::None => "",
        Underline::Single => "underline",
        Underline::Double => "underline double",
        Underline::Curly => "underline wavy",
        Underline::Dotted => "underline dotted",
        Underline::Dashed => "underline dashed",
    }
}

// Returns the words, if they hold.
fn words_if(holds: bool, words: &'static str) -> &'static str {
    if holds { words } else { "" }
}

impl Svg {
    // Returns no text. Takes no memory.
    fn new(alloc: Global) -> Svg {
        Svg {
            text: String::new(alloc),
            is_refused: false,
        }
    }

    // Returns the text. The error is that memory was refused.
    fn ended(self) -> Result<String, AllocError> {
        let Svg { text, is_refused } = self;
        if is_refused {
            Err(AllocError)
        } else {
            Ok(text)
        }
    }

    // Appends a text as it is.
    fn push(&mut self, text: &str) {
        self.is_refused |= push_str(&mut self.text, text).is_err();
    }

    // Appends an attribute that is a number.
    fn push_number(&mut self, name: &str, number: u32) {
        self.push(name);
        self.push("=\"");
        self.is_refused |= push_display(&mut self.text, &number).is_err();
        self.push("\"");
    }

    // Appends an attribute that is a colour.
    fn push_color(&mut self, name: &str, color: Rgb) {
        self.push(name);
        self.push("=\"");
        self.push_rgb(color);
        self.push("\"");
    }

    // Appends a colour as `#RRGGBB`.
    fn push_rgb(&mut self, (red, green, blue): Rgb) {
        self.push("#");
        self.push_channel(red);
        self.push_channel(green);
        self.push_channel(blue);
    }

    // Appends two digits.
    fn push_channel(&mut self, channel: u8) {
        self.push_digit(channel / 16);
        self.push_digit(channel % 16);
    }

    fn push_digit(&mut self, digit: u8)
        requires { digit < 16 }
    {
        self.is_refused |= push_char(&mut self.text, hex_digit(digit) as char).is_err();
    }

    // Appends text between two tags.
    fn push_text(&mut self, text: &str) {
        self.is_refused |= push_text(&mut self.text, text).is_err();
    }

    // Appends the root with its size, the title, and the ground.
    fn begin(&mut self, view: View<'_>, title: &str) {
        let width = u32::from(view.screen.width()) * WIDTH + 2 * MARGIN;
        let height = u32::from(view.screen.height()) * HEIGHT + 2 * MARGIN;
        self.push("<svg xmlns=\"http://www.w3.org/2000/svg\"");
        self.push_number(" width", width);
        self.push_number(" height", height);
        self.push(" ");
        self.push(FONT);
        self.push("<title>");
        self.push_text(title);
        self.push("</title>\n<rect width=\"100%\" height=\"100%\"");
        self.push_color(" fill", plain().ground);
        self.push("/>\n");
    }

    /// Appends the characters of so many columns.
    pub fn push_characters(&mut self, look: &Look, left: u32, top: u32, columns: u32, text: &str) {
        self.push("<text");
        self.push_number(" x", left);
        self.push_number(" y", top.saturating_add(BASE));
        self.push_number(" textLength", columns.saturating_mul(WIDTH));
        self.push(" lengthAdjust=\"spacingAndGlyphs\"");
        self.push_look(look);
        self.push(">");
        self.push_text(text);
        self.push("</text>\n");
    }

    /// Appends the ground of so many columns, if it is not that of the picture.
    pub fn push_ground(&mut self, look: &Look, left: u32, top: u32, columns: u32) {
        let ground = ink_of(look).ground;
        if ground == plain().ground {
            return;
        }
        self.push("<rect");
        self.push_number(" x", left);
        self.push_number(" y", top);
        self.push_number(" width", columns.saturating_mul(WIDTH));
        self.push_number(" height", HEIGHT);
        self.push_color(" fill", ground);
        self.push("/>\n");
    }

    // Appends the attributes of characters of this look.
    fn push_look(&mut self, look: &Look) {
        let ink = ink_of(look);
        self.push_color(" fill", ink.text);
        self.push(words_if(look.bold, " font-weight=\"bold\""));
        self.push(words_if(look.italic, " font-style=\"italic\""));
        self.push(words_if(look.faint, " fill-opacity=\".6\""));
        if has_lines(look) {
            self.push_lines(look, ink.underline);
        }
    }

    // Appends the attribute of the lines of this look, and the colour of the one under characters.
    fn push_lines(&mut self, look: &Look, color: Option<Rgb>) {
        self.push(" style=\"text-decoration:");
        self.push(line_words(look.underline));
        self.push(words_if(look.strikethrough, " line-through"));
        self.push(words_if(look.overline, " overline"));
        if let Some(color) = color {
            self.push(" ");
            self.push_rgb(color);
        }
        self.push("\"");
    }
}
