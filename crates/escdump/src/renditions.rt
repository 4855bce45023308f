//! Renditions in words.

use crate::color_spaces::{add_space, add_spaced};
use crate::color_words::add_color;
use crate::csi_words::add_entries;
use crate::entries::{number_at, part_at};
use dump_page::Phrase;
use esc_sequences::Underline;
use esc_values::CsiParam;
use typed_functions::{ColorSpec, Rendition, Renditions, Selection};

// A rendition, by its number.
#[derive(Clone, Copy)]
struct Numbered(i64, &'static str);

// The renditions that are one number, the commonest first, but for underlines and colours by place
// or channels (ECMA-48, 8.3.117; xterm's list, "Character Attributes (SGR)"; aixterm's 90 to 107).
static RENDITIONS: [Numbered; 74] = [
    Numbered(0, "reset"),
    Numbered(1, "bold"),
    Numbered(30, "foreground black"),
    Numbered(31, "foreground red"),
    Numbered(32, "foreground green"),
    Numbered(33, "foreground yellow"),
    Numbered(34, "foreground blue"),
    Numbered(35, "foreground magenta"),
    Numbered(36, "foreground cyan"),
    Numbered(37, "foreground white"),
    Numbered(40, "background black"),
    Numbered(41, "background red"),
    Numbered(42, "background green"),
    Numbered(43, "background yellow"),
    Numbered(44, "background blue"),
    Numbered(45, "background magenta"),
    Numbered(46, "background cyan"),
    Numbered(47, "background white"),
    Numbered(7, "reversed"),
    Numbered(27, "not reversed"),
    Numbered(22, "neither bold nor faint"),
    Numbered(3, "italic"),
    Numbered(2, "faint"),
    Numbered(90, "foreground bright black"),
    Numbered(91, "foreground bright red"),
    Numbered(92, "foreground bright green"),
    Numbered(93, "foreground bright yellow"),
    Numbered(94, "foreground bright blue"),
    Numbered(95, "foreground bright magenta"),
    Numbered(96, "foreground bright cyan"),
    Numbered(97, "foreground bright white"),
    Numbered(5, "blinking"),
    Numbered(6, "rapidly blinking"),
    Numbered(8, "hidden"),
    Numbered(9, "crossed out"),
    Numbered(10, "primary font"),
    Numbered(11, "first alternative font"),
    Numbered(12, "second alternative font"),
    Numbered(13, "third alternative font"),
    Numbered(14, "fourth alternative font"),
    Numbered(15, "fifth alternative font"),
    Numbered(16, "sixth alternative font"),
    Numbered(17, "seventh alternative font"),
    Numbered(18, "eighth alternative font"),
    Numbered(19, "ninth alternative font"),
    Numbered(20, "Fraktur"),
    Numbered(23, "not italic"),
    Numbered(25, "not blinking"),
    Numbered(26, "proportionally spaced"),
    Numbered(28, "not hidden"),
    Numbered(29, "not crossed out"),
    Numbered(50, "not proportionally spaced"),
    Numbered(51, "framed"),
    Numbered(52, "encircled"),
    Numbered(53, "overlined"),
    Numbered(54, "neither framed nor encircled"),
    Numbered(55, "not overlined"),
    Numbered(60, "ideogram underline or right side line"),
    Numbered(61, "ideogram double underline or right side lines"),
    Numbered(62, "ideogram overline or left side line"),
    Numbered(63, "ideogram double overline or left side lines"),
    Numbered(64, "ideogram stress mark"),
    Numbered(65, "no mark of ideograms"),
    Numbered(73, "superscript"),
    Numbered(74, "subscript"),
    Numbered(75, "neither superscript nor subscript"),
    Numbered(100, "background bright black"),
    Numbered(101, "background bright red"),
    Numbered(102, "background bright green"),
    Numbered(103, "background bright yellow"),
    Numbered(104, "background bright blue"),
    Numbered(105, "background bright magenta"),
    Numbered(106, "background bright cyan"),
    Numbered(107, "background bright white"),
];

// Returns the words of the rendition of this number.
fn words_at(number: i64) -> &'static str {
    for rendition in &RENDITIONS {
        if rendition.0 == number {
            return rendition.1;
        }
    }
    "not known"
}

/// Adds the renditions of the parameters of a control sequence, in words. If one is not known, its
/// parameters come after `not known`.
pub fn add_renditions(params: &[CsiParam], to: &mut Phrase) {
    let mut is_first = true;
    for selection in Renditions::new(params) {
        to.add(if is_first { " " } else { ", " });
        is_first = false;
        let Selection { rendition, entries } = selection;
        match rendition {
            Some(rendition) => add_rendition(rendition, entries, to),
            None => add_unknown(entries, to),
        }
    }
}

// Adds a rendition that the library does not read: a colour of a colour space, or none that is
// known. `1:2` is of mintty.
fn add_unknown(entries: &[CsiParam], to: &mut Phrase) {
    if number_at(entries, 0) == Some(1) && part_at(entries, 0, 1) == Some(2) {
        return to.add("shadowed");
    }
    if !add_spaced(entries, to) {
        to.add("not known");
        add_entries(entries, to);
    }
}

// Adds the rendition of these parameters: colours are more than one text.
fn add_rendition(rendition: Rendition, entries: &[CsiParam], to: &mut Phrase) {
    match rendition {
        Rendition::Foreground(color) => add_colored("foreground ", color, entries, to),
        Rendition::Background(color) => add_colored("background ", color, entries, to),
        Rendition::UnderlineColor(color) => add_colored("underline colour ", color, entries, to),
        Rendition::Underline(underline) => to.add(underline_words(underline)),
        _ => to.add(words_at(number_at(entries, 0).unwrap_or(0))),
    }
}

// Adds a colour, and the thing that has it.
fn add_colored(what: &'static str, color: ColorSpec, entries: &[CsiParam], to: &mut Phrase) {
    add_color(what, color, to);
    add_space(entries, to);
}

fn underline_words(underline: Underline) -> &'static str {
    match underline {
        Underline::None => "not underlined",
        Underline::Single => "underlined",
        Underline::Double => "doubly underlined",
        Underline::Curly => "curly underline",
        Underline::Dotted => "dotted underline",
        Underline::Dashed => "dashed underline",
    }
}
