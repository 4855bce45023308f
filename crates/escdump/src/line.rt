//! Lines of a run of text or a segment.

use crate::apc_words::add_application;
use crate::controls::{add_control, known_columns};
use crate::device_words::add_device;
use crate::escapes::add_escape;
use crate::item::Item;
use crate::kind::Kind;
use crate::options::Form;
use crate::osc_words::add_command;
use crate::times::add_seconds;
use crate::vt52::add_vt52;
use crate::words::Words;
use dump_page::{Color, Page, Phrase};

// The columns at which bytes, words, and a segment's kind, state and bytes begin.
const BYTES: usize = 10;

const WORDS: usize = 34;

// The first place that has more digits than its column.
const PLACES: u64 = 100_000_000;

const KIND: usize = 17;

const STATE: usize = 45;

const SEGMENT: usize = 56;

// The number of columns of the seconds of a time, and of the whole time with the text after it.
const SECONDS: usize = 6;

const TIME: usize = 15;

// Says how many columns of bytes come before words; the last character may go past them.
const ROOM: usize = 18;

// The most bytes of a column: a character and three marks on it.
const WIDEST: usize = 16;

/// Adds the line of an item with these words, in this form. Its bytes have at most so many columns.
pub fn add_line(
    form: Form,
    width: usize,
    item: &Item,
    words: &mut Words,
    is_finished: bool,
    page: &mut Page,
) {
    match form {
        Form::Words | Form::Json => add_words(item, words, is_finished, page),
        Form::Segments => add_segment(item, is_finished, width, page),
        Form::Bytes | Form::Stats => {
            add_place(item, page);
            push_bytes(item, width, page);
        }
    }
    page.end_line();
}

// Adds the time, if there is one, and the place.
fn add_place(item: &Item, page: &mut Page) {
    let start = time_columns(item);
    if let Some(time) = item.time {
        page.color(Color::Place);
        add_seconds(time, SECONDS, page.words());
        page.color(Color::Plain);
        page.pad(start);
    }
    if page.is_colored() {
        page.color(Color::Place);
        page.words().add_number(item.place, 8, 0);
        page.color(Color::Plain);
        page.pad(start.saturating_add(BYTES));
    } else {
        page.words().add_number(item.place, 8, 2);
    }
}

// Returns how many columns the time takes.
fn time_columns(item: &Item) -> usize {
    if item.time.is_some() { TIME } else { 0 }
}

// Adds the place and the length of a segment, its kind, and its bytes.
fn add_segment(item: &Item, is_finished: bool, width: usize, page: &mut Page) {
    add_place(item, page);
    let start = time_columns(item);
    page.words().add_number(item.length, 6, 0);
    page.pad(start.saturating_add(KIND));
    page.words().add(full_name(item.kind()));
    page.pad(start.saturating_add(STATE));
    page.words().add(if is_finished {
        "finished"
    } else {
        "unfinished"
    });
    page.pad(start.saturating_add(SEGMENT));
    push_bytes(item, width, page);
}

// Returns the words for a kind.
fn full_name(kind: Kind) -> &'static str {
    let words = kind.words();
    if words.is_empty() { kind.name() } else { words }
}

// Adds the bytes that are kept, in so many columns, and `..` if not all are.
fn push_bytes(item: &Item, width: usize, page: &mut Page) {
    page.color(Color::Bytes);
    page.words().add_bytes(item.bytes(), width);
    page.words().forget_hidden();
    if item.is_cut() {
        page.words().add("..");
    }
    page.color(Color::Plain);
}

// Adds the place, the first bytes, and the words.
fn add_words(item: &Item, words: &mut Words, is_finished: bool, page: &mut Page) {
    add_place(item, page);
    let known = columns_of(item, words, page);
    if !known.is_empty() {
        return page.words().add(known);
    }
    add_first(item, page);
    if item.is_text() {
        return add_text(item, words, page);
    }
    add_said(item, words);
    words.phrase.add_left_out();
    words.phrase.add_hidden_names();
    add_state(item, is_finished, &mut words.phrase);
    page.push(&words.phrase);
}

// Returns the bytes and the words of a common control, if nothing else is in its line, and its
// place has not more digits than its column.
fn columns_of(item: &Item, words: &Words, page: &Page) -> &'static str {
    if item.kind() == Kind::Control
        && !words.is_carried
        && !page.is_colored()
        && item.place < PLACES
    {
        known_columns(item.bytes())
    } else {
        ""
    }
}

// Says whether tmux passes an item on.
fn add_carried(item: &Item, words: &mut Words) {
    if words.is_carried {
        words.phrase.add(match item.bytes() {
            b"\x1b" => ", since tmux passes on an ESC that comes twice",
            _ => ", passed on by tmux",
        });
    }
}

// Adds a run of text, as far as there is room.
fn add_text(item: &Item, words: &mut Words, page: &mut Page) {
    let bytes = item.bytes();
    if bytes.len() <= words.room() && !words.is_carried {
        page.words().add_quoted("text ", bytes);
        return page.words().add_hidden_names();
    }
    let is_carried = words.is_carried;
    words.clear();
    words.is_carried = is_carried;
    words.phrase.add_quoted("text ", bytes);
    words.phrase.add_left_out();
    add_carried(item, words);
    words.phrase.add_hidden_names();
    page.push(&words.phrase);
}

// Adds the first bytes. Bytes past the column are not read.
fn add_first(item: &Item, page: &mut Page) {
    let bytes = item.bytes();
    let most = bytes.len().min(WIDEST * ROOM + WIDEST);
    page.color(Color::Bytes);
    page.words().add_bytes(&bytes[..most], ROOM);
    page.words().forget_hidden();
    page.color(Color::Plain);
    page.pad(time_columns(item).saturating_add(WORDS));
}

/// Adds the words of a segment, as far as they are not there yet.
pub fn add_said(item: &Item, words: &mut Words) {
    if words.is_whole {
        return;
    }
    words.is_whole = true;
    let kind = item.kind();
    let is_whole = !words.is_unfinished && !item.is_cut();
    words.add_counted();
    let phrase = &mut words.phrase;
    match kind {
        Kind::Text => phrase.begin("text", "", ""),
        Kind::Control => add_control(item.bytes(), phrase),
        Kind::Escape => {
            let (letter, rest) = item.letters();
            if !words.is_vt52 || !add_vt52(letter, rest, phrase) {
                add_escape(letter, rest, phrase);
            }
        }
        Kind::Osc => add_command(item.code.number(), item.body(), is_whole, phrase),
        Kind::Apc => add_application(item.body(), phrase),
        Kind::Dcs => words.string = Some(add_device(item.body(), is_whole, phrase)),
        Kind::Csi if !words.has_said => phrase.begin("CSI", "", "malformed, ignored"),
        Kind::Csi => {}
        Kind::Sos | Kind::Pm => {
            phrase.begin(kind.name(), kind.words(), "");
            phrase.add_quoted(" ", item.body());
        }
        Kind::Cut => {
            phrase.begin(kind.name(), "", "");
            phrase.add(cut_words(item));
        }
        Kind::St | Kind::Broken | Kind::Stray | Kind::Key | Kind::Mouse => {
            phrase.begin(kind.name(), "", kind.words())
        }
    }
    if kind != Kind::Text {
        add_carried(item, words);
    }
}

// Returns the words for a sequence that is cut short and may be another: screen passes on the bytes
// after ESC P.
fn cut_words(item: &Item) -> &'static str {
    match item.letters() {
        (b'P', []) => ", or what comes next is passed on by screen",
        _ => "",
    }
}

// Adds the words for a segment that is longer than the limit, or unfinished.
fn add_state(item: &Item, is_finished: bool, phrase: &mut Phrase) {
    if item.is_cut() {
        phrase.add(", longer than the limit");
    }
    if !is_finished {
        phrase.add(", unfinished, ");
        phrase.add_digits(item.length);
        phrase.add(" bytes");
    }
}
