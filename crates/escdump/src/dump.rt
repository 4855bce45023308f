//! This module makes lines of bytes.
ghost use Rattle.std.specs.Prelude.{◌≤◌, length};

use crate::carried::Carried;
use crate::framed::{is_framed, is_left_open, may_hold_controls};
use crate::input::{Found, Sent, add_sent, found_in, paste_end_in};
use crate::item::Item;
use crate::kind::Kind;
use crate::line::{add_line, add_said};
use crate::objects::add_object;
use crate::options::{Form, Options};
use crate::resume::{held_back, resumed};
use crate::stats::Stats;
use crate::vt52::{Address, Vt52, address_in};
use crate::words::Words;
use dump_page::Page;
use esc_frame::VTParser;
use esc_segments::{Segment, SegmentKind, Segments};
use std::alloc::Global;
use std::mem;

/// Makes lines of a stream, in whatever chunks it comes. Once memory is refused no more lines are
/// made, and the page says so.
#[derive(Drop)]
pub struct Dump<'n> {
    alloc: Global,
    options: Options<'n>,
    // The name of the stream, if it is named.
    name: Option<&'n str>,
    framer: VTParser,
    words: Words,
    item: Item,
    // Says whether the bytes of the item are given to the framer.
    is_framed: bool,
    // Says whether the item is a string that is finished, and waits for the string terminator that
    // ends it.
    is_closing: bool,
    carried: Carried,
    vt52: Vt52,
    begun: Vec<u8>,
    known: usize,
    // The kind of the segment that is begun.
    unfinished: SegmentKind,
    // Says whether the begun bytes may be a key; whether nothing comes after them; and whether a
    // paste goes on.
    is_waiting: bool,
    is_last: bool,
    is_pasting: bool,
    stats: Stats,
    page: Page,
}

impl<'n> Dump<'n> {
    /// Returns a dump of the stream of this name, to which nothing came.
    pub fn new(alloc: Global, options: Options<'n>, name: &'n str) -> Dump<'n> {
        let mut dump = Dump {
            alloc,
            options,
            name: if options.is_named { Some(name) } else { None },
            framer: VTParser::with_limit(alloc, options.limit),
            words: Words::new(alloc, room_of(options)),
            item: Item::new(alloc),
            is_framed: false,
            is_closing: false,
            carried: Carried::new(),
            vt52: Vt52::new(),
            begun: Vec::new(alloc),
            known: 0,
            unfinished: SegmentKind::Control,
            is_waiting: false,
            is_last: false,
            is_pasting: false,
            stats: Stats::new(alloc),
            page: Page::new(alloc, options.is_colored),
        };
        dump.add_head();
        dump
    }

    // Adds the line of the stream's name, if it is named. Objects have it each.
    fn add_head(&mut self) {
        match (self.name, self.options.form) {
            (None, _) | (_, Form::Json) => {}
            (Some(name), _) => {
                self.page.words().add("==> ");
                self.page.words().add_bytes(name.as_bytes(), usize::MAX);
                self.page.words().forget_hidden();
                self.page.words().add(" <==");
                self.page.end_line();
            }
        }
    }

    /// Sets the time at which the next bytes come.
    pub fn set_time(&mut self, time: u64) {
        self.item.now = Some(time);
    }

    /// Returns the lines since they were cleared.
    pub fn page(&mut self) -> &mut Page {
        &mut self.page
    }

    /// Adds the lines of a chunk: the line of each segment that it finishes, and of each run of
    /// text in it; but not of a run at its end while more is there, and the run has fewer bytes
    /// than the limit.
    pub fn take(&mut self, chunk: &[u8], has_more: bool) {
        let mut bytes = mem::replace(&mut self.begun, Vec::new(self.alloc));
        self.page.note(bytes.extend_from_slice(chunk).is_err());
        self.take_segments(&bytes);
        if !has_more || self.item.length >= self.options.limit as u64 {
            self.end_text();
        }
    }

    // Takes the segments of these bytes, the first of which are known already.
    fn take_segments(&mut self, bytes: &[u8]) {
        let mut known = self.known;
        self.known = 0;
        self.is_waiting = false;
        let mut rest = bytes;
        for _ in 0..u64::MAX {
            if known == 0 {
                rest = self.take_shown(rest);
                if !self.is_closing {
                    rest = self.take_joined(rest);
                    if self.is_waiting {
                        break;
                    }
                }
            }
            let Some(segment) = Segments::new(rest).next() else {
                break;
            };
            let length = segment.bytes.len().min(rest.len());
            self.take_segment(segment, known);
            rest = &rest[length..];
            known = 0;
        }
    }

    // Takes the characters of one byte that come first, and the ends of lines between them, and
    // returns the rest. The input that a terminal sends has keys in the place of these ends.
    fn take_shown<'b>(&mut self, bytes: &'b [u8]) -> &'b [u8] {
        let mut rest = bytes;
        for _ in 0..u64::MAX {
            let (shown, after) = rest.split_at(shown_run(rest));
            if !shown.is_empty() {
                self.take_part(SegmentKind::Character, shown);
            }
            match after {
                [end @ (b'\n' | b'\r'), more @ ..] if !self.options.is_input => {
                    self.take_last(SegmentKind::Control, &[*end]);
                    rest = more;
                }
                _ => return after,
            }
        }
        rest
    }

    // Takes a part at the beginning that is no segment of its own, and returns the rest: the input
    // that a terminal sends, or cursor positions of its VT52 mode.
    fn take_joined<'b>(&mut self, bytes: &'b [u8]) -> &'b [u8] {
        if self.options.is_input {
            self.take_sent(bytes)
        } else if self.vt52.is_on {
            self.take_addresses(bytes)
        } else {
            bytes
        }
    }

    // Takes the cursor positions of the VT52 that come first, and text between them. Bytes that may
    // become one wait for more, and one that the stream cuts is left unfinished.
    fn take_addresses<'b>(&mut self, bytes: &'b [u8]) -> &'b [u8] {
        let mut rest = bytes;
        for _ in 0..u64::MAX {
            match address_in(rest, self.is_last) {
                Address::Other => break,
                Address::Begun => {
                    self.keep(rest);
                    self.is_waiting = true;
                    break;
                }
                Address::Cut => {
                    self.add_part(SegmentKind::Escape, rest);
                    return &[];
                }
                Address::Whole => {
                    let (first, after) = rest.split_at(rest.len().min(4));
                    self.add_part(SegmentKind::Escape, first);
                    self.end_line(true);
                    rest = self.take_shown(after);
                }
            }
        }
        rest
    }

    // Takes the keys and other things that a terminal sends which come first, and text between
    // them, and returns the rest. Bytes that may become one wait for more.
    fn take_sent<'b>(&mut self, bytes: &'b [u8]) -> &'b [u8] {
        let mut rest = bytes;
        for _ in 0..u64::MAX {
            let found = if self.is_pasting {
                paste_end_in(rest, self.is_last)
            } else {
                found_in(rest, self.is_last)
            };
            match found {
                Found::Other => break,
                Found::More => {
                    self.keep(rest);
                    self.is_waiting = true;
                    break;
                }
                Found::Input(length, sent) => {
                    let (first, after) = rest.split_at(length.min(rest.len()));
                    self.add_sent(sent, first);
                    rest = self.take_shown(after);
                }
            }
        }
        rest
    }

    // Adds the line of the input that a terminal sends.
    fn add_sent(&mut self, sent: Sent, bytes: &[u8]) {
        self.end_text();
        let limit = self.options.limit;
        self.page
            .note(!self.item.add(SegmentKind::Csi, bytes, limit));
        match sent {
            Sent::Key(_, _) | Sent::Typed(_, _) => self.item.set_kind(Kind::Key),
            Sent::Mouse(_) => self.item.set_kind(Kind::Mouse),
            Sent::Paste(is_begin) => self.is_pasting = is_begin,
            Sent::Focus(_) => {}
        }
        self.words.is_whole = true;
        add_sent(sent, &mut self.words.phrase);
        self.end_line(true);
    }

    // Takes the bytes of a segment after those that are known; if it is unfinished, all but those
    // that are held back.
    fn take_segment(&mut self, segment: Segment<'_>, known: usize) {
        let fresh = &segment.bytes[known.min(segment.bytes.len())..];
        if segment.finished {
            return self.take_last(segment.kind, fresh);
        }
        let (taken, held) = fresh.split_at(fresh.len().saturating_sub(self.held_of(segment)));
        if !taken.is_empty() {
            self.take_part(segment.kind, taken);
        }
        self.unfinished = segment.kind;
        self.begun.clear();
        let opener = if taken.is_empty() && known == 0 {
            b""
        } else {
            resumed(segment)
        };
        self.known = opener.len();
        self.keep(opener);
        self.keep(held);
    }

    // Returns the number of bytes of an unfinished segment that are held back: also an ESC that may
    // begin the string terminator which a string waits for.
    fn held_of(&self, segment: Segment<'_>) -> usize {
        if self.is_closing && segment.bytes == b"\x1b".as_slice() {
            1
        } else {
            held_back(segment)
        }
    }

    // Keeps some bytes for the next chunk.
    fn keep(&mut self, bytes: &[u8]) {
        self.page.note(self.begun.extend_from_slice(bytes).is_err());
    }

    /// Adds the line of the segment that the stream leaves unfinished, and those of the counts, if
    /// they are asked for.
    pub fn finish(&mut self) {
        self.end_waiting();
        let begun = mem::replace(&mut self.begun, Vec::new(self.alloc));
        let rest = &begun[self.known.min(begun.len())..];
        if !rest.is_empty() {
            self.take_part(self.unfinished, rest);
        }
        self.end_text();
        self.end_string();
        if !self.item.is_empty() {
            self.words.is_unfinished = true;
            self.end_line(false);
        }
        match self.options.form {
            Form::Stats => self.stats.add_lines(&mut self.page),
            Form::Words | Form::Segments | Form::Bytes | Form::Json => {}
        }
    }

    // Takes the bytes that wait to be a key, after which nothing comes.
    fn end_waiting(&mut self) {
        if self.is_waiting {
            self.is_last = true;
            let begun = mem::replace(&mut self.begun, Vec::new(self.alloc));
            self.take_segments(&begun);
        }
    }

    // Takes some bytes of a segment, with others to follow.
    fn take_part(&mut self, kind: SegmentKind, bytes: &[u8]) {
        self.add_part(kind, bytes);
        self.is_framed = is_framed(kind);
        if self.is_framed {
            self.feed(bytes);
        }
    }

    // Adds some bytes of a segment, after the items before it.
    fn add_part(&mut self, kind: SegmentKind, bytes: &[u8]) {
        self.end_string();
        if kind != SegmentKind::Character {
            self.end_text();
        }
        let limit = self.options.limit;
        self.page.note(!self.item.add(kind, bytes, limit));
    }

    // Takes the last bytes of a segment. They are given to the framer if those before them were, or
    // if controls may be among them. A cancel, which cannot be part of any segment but its own,
    // ends the segment's meaning if its last byte does not.
    fn take_last(&mut self, kind: SegmentKind, bytes: &[u8]) {
        if self.is_closing && is_terminator(bytes) {
            self.page.note(!self.item.close(bytes));
            return self.end_string();
        }
        self.add_part(kind, bytes);
        if self.is_framed || may_hold_controls(kind, &self.item) {
            self.feed(bytes);
            self.end_frame(kind);
        }
        if self.may_close(kind, bytes) {
            self.is_closing = true;
        } else if kind != SegmentKind::Character {
            self.end_line(true);
        }
    }

    // Ends the meaning of a segment, if its last byte does not.
    fn end_frame(&mut self, kind: SegmentKind) {
        self.is_framed = false;
        if is_left_open(kind) {
            self.words.is_ending = true;
            self.feed(b"\x18");
        }
    }

    // Returns whether a string terminator may come after these last bytes of a segment: they end a
    // string, and no BEL does.
    fn may_close(&self, kind: SegmentKind, bytes: &[u8]) -> bool {
        match kind {
            SegmentKind::Dcs | SegmentKind::Apc | SegmentKind::Ignored => self.joins_terminators(),
            SegmentKind::Osc => self.joins_terminators() && bytes.last() != Some(&0x07),
            _ => false,
        }
    }

    // Returns whether a string and the string terminator that ends it are one line.
    fn joins_terminators(&self) -> bool {
        match self.options.form {
            Form::Segments => false,
            Form::Words | Form::Bytes | Form::Json | Form::Stats => true,
        }
    }

    // Ends a string that waits for its terminator.
    fn end_string(&mut self) {
        if self.is_closing {
            self.is_closing = false;
            self.end_line(true);
        }
    }

    // Ends a run of text.
    fn end_text(&mut self) {
        if self.item.is_text() {
            self.end_line(true);
        }
    }

    // Adds the words of the events of these bytes.
    fn feed(&mut self, bytes: &[u8]) {
        let result = self.framer.parse(bytes, &mut self.words);
        self.page.note(result.is_err());
    }

    // Adds the line of a run of text or a segment, after which nothing is unfinished.
    fn end_line(&mut self, is_finished: bool) {
        self.words.is_carried = self.carried.has(&self.item);
        self.words.is_vt52 = self.vt52.is_on;
        self.vt52.take(&self.item);
        if self.is_selected() {
            self.add_selected(is_finished);
        }
        self.item.end();
        self.words.clear();
    }

    // Returns whether a line is printed for the item: by its kind, or if names are asked for, by
    // its name too.
    fn is_selected(&mut self) -> bool {
        let only = self.options.only;
        let skip = self.options.skip;
        let kind = self.item.kind();
        if !only.has_names() && !skip.has_names() {
            return only.has_kind(kind) && !skip.has_kind(kind);
        }
        add_said(&self.item, &mut self.words);
        let name = self.words.name();
        only.has(&self.item, name) && !skip.has(&self.item, name)
    }

    // Adds the line of the selected item, or counts it.
    fn add_selected(&mut self, is_finished: bool) {
        match self.options.form {
            Form::Stats => {
                add_said(&self.item, &mut self.words);
                self.page.note(self.words.phrase.is_refused());
                let name = self.words.name();
                self.page.note(!self.stats.add(&self.item, name));
            }
            Form::Json => {
                add_said(&self.item, &mut self.words);
                self.page.note(self.words.phrase.is_refused());
                let page = &mut self.page;
                add_object(&self.item, &mut self.words, is_finished, self.name, page);
                page.end_line();
            }
            form => add_line(
                form,
                self.options.width,
                &self.item,
                &mut self.words,
                is_finished,
                &mut self.page,
            ),
        }
    }
}

// Returns the number of bytes that the words of a line may have: any in objects.
fn room_of(options: Options<'_>) -> usize {
    match options.form {
        Form::Json => usize::MAX,
        Form::Words | Form::Segments | Form::Bytes | Form::Stats => options.width,
    }
}

// Returns whether these are the bytes of a string terminator.
fn is_terminator(bytes: &[u8]) -> bool {
    match bytes {
        b"\x1b\\" | b"\x9c" | b"\xc2\x9c" => true,
        _ => false,
    }
}

// Returns the number of bytes at the beginning that are characters of one byte: they are segments
// of their own, if nothing before them is unfinished.
fn shown_run(bytes: &[u8]) -> usize
    ensures { result ≤ length bytes.now }
{
    for at in 0..bytes.len() {
        if !matches!(bytes[at], 0x20..=0x7e) {
            return at;
        }
    }
    bytes.len()
}
