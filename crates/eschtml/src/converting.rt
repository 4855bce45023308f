//! Streams that are written as HTML to one output, one after another.

use crate::heeding::Heeding;
use crate::images::image;
use crate::lines::Counting;
use crate::options::Options;
use crate::page::{AFTER, Side, before, counted, ending, group, heading, left_out_note, lost_note};
use crate::stream::{PROGRAM, write_html};
use crate::strings::Lost;
use crate::timing::Timing;
use command_line::{
    Ended, ErrorCapture, Place, Reason, Shown, Work, ended_by, tell, unread, unwritten,
};
use esc_decode::Input;
use esc_filter::FilterError;
use esc_normal::Watched;
use page_input::{Casting, LeftOut, Linking, Mark, Pictures, Recorded, Sections, Striking, Window};
use std::alloc::{AllocError, Global};
use std::io;
use std::io::{Read, Write};

/// A writer of streams as HTML to one output.
#[derive(Drop)]
pub struct Converting<'a, W, E> {
    pub alloc: Global,
    pub options: Options<'a>,
    /// The name of the output.
    pub output_name: &'a str,
    pub output: &'a mut W,
    /// The output for faults.
    pub faults: E,
    /// Whether the name of a stream is a heading of the page.
    pub is_headed: bool,
    /// How many streams came before.
    pub streams: u64,
    /// How many lines of the page come before the next stream.
    pub line: u64,
    /// How many images of the stream were left out.
    pub left_out: LeftOut,
}

impl<'a, W: Write, E: Write> Work for Converting<'a, W, E> {
    fn take<R: Read + Drop>(&mut self, name: &str, input: R) -> Ended {
        self.streams = self.streams.saturating_add(1);
        self.left_out = LeftOut::new();
        let input = Input::new(self.alloc, self.options.order, input);
        let input = Casting::new(self.alloc, self.recorded(), input);
        let mut window = Window::new(self.alloc, self.options.encoding, self.options.cut, input);
        window.prepare();
        let before = window.before();
        self.tell_left_out(name, before, Side::Before);
        self.line = self.line.saturating_add(before);
        let (ended, window) = if self.options.is_page {
            self.take_on_page(name, window)
        } else {
            let (ended, mut window) = self.take_window(name, window);
            let (ended, _) = self.end_window(name, ended, &mut window);
            (ended, window)
        };
        match window.inner().wrong() {
            Some(number) if ended == Ended::Whole => self.tell_wrong(name, number),
            _ => ended,
        }
    }
}

impl<'a, W: Write, E: Write> Converting<'a, W, E> {
    // Whether a stream is a recording, and how it is read.
    fn recorded(&self) -> Recorded {
        Recorded {
            is_on: self.options.is_cast,
            has_times: self.options.times && self.options.rows.is_none(),
            is_plain: !self.options.shows,
        }
    }

    // Writes these lines of a stream of this name, with the text before and after them.
    fn take_on_page<R: Read + Drop>(
        &mut self,
        name: &str,
        window: Window<R>,
    ) -> (Ended, Window<R>) {
        let number = if self.is_headed {
            Some(self.streams)
        } else {
            None
        };
        let text = heading(self.alloc, name, number, window.before());
        let ended = self.push(Ended::Whole, text);
        if ended != Ended::Whole {
            return (ended, window);
        }
        let (ended, mut window) = self.take_window(name, window);
        if is_last(ended) {
            return (ended, window);
        }
        let (ended, left_out) = self.end_window(name, ended, &mut window);
        let text = ending(self.alloc, left_out);
        let ended = self.push(ended, text);
        (self.flush(ended), window)
    }

    // Writes these lines of a stream of this name, and says which of them a string took.
    fn take_window<R: Read + Drop>(&mut self, name: &str, window: Window<R>) -> (Ended, Window<R>) {
        let before = window.before();
        let input = Heeding::new(self.alloc, self.options.encoding, window);
        let mut sections = Sections::new(self.alloc, self.options.folds, input);
        let ended = if !self.options.is_page {
            self.take_text(name, &mut sections)
        } else if self.options.folds {
            self.take_groups(name, &mut sections)
        } else {
            self.take_block(name, &mut sections)
        };
        let (lost, mut window) = sections.into_inner().end();
        let notes = ended == Ended::Whole && lost.is_some() && is_whole(&mut window);
        let ended = match lost {
            Some(lost) if notes => self.note_lost(name, ended, before, lost),
            _ => ended,
        };
        (self.note_images(name, ended), window)
    }

    // Writes a stream of this name, group after group.
    fn take_groups<R: Read + Drop>(&mut self, name: &str, sections: &mut Sections<R>) -> Ended {
        let ended = self.take_parts(name, sections);
        self.end_groups(ended, sections.depth())
    }

    // Writes its parts, one after another.
    fn take_parts<R: Read + Drop>(&mut self, name: &str, sections: &mut Sections<R>) -> Ended {
        for _ in 0..u64::MAX {
            match self.take_part(name, sections) {
                Some(Ended::Whole) => {}
                Some(other) => return other,
                None => return Ended::Whole,
            }
        }
        Ended::Whole
    }

    // Ends so many groups that are open.
    fn end_groups(&mut self, ended: Ended, depth: usize) -> Ended {
        let mut ended = ended;
        for _ in 0..depth {
            if is_last(ended) {
                return ended;
            }
            let text = group(self.alloc, &Mark::End);
            ended = self.push(ended, text);
        }
        ended
    }

    // Writes the next part: the beginning or the end of a group, or text. None at the end.
    fn take_part<R: Read + Drop>(
        &mut self,
        name: &str,
        sections: &mut Sections<R>,
    ) -> Option<Ended> {
        match sections.mark() {
            Ok(Some((mark, ends_line))) => {
                self.line = self.line.saturating_add(u64::from(ends_line));
                let text = group(self.alloc, &mark);
                return Some(self.push(Ended::Whole, text));
            }
            Ok(None) => {}
            Err(error) => return Some(self.unread(name, error)),
        }
        match sections.has_text() {
            Ok(true) => Some(self.take_block(name, sections)),
            Ok(false) => None,
            Err(error) => Some(self.unread(name, error)),
        }
    }

    // Writes text of a stream of this name as a block of the page.
    fn take_block<R: Read + Drop>(&mut self, name: &str, input: &mut R) -> Ended {
        let options = self.options;
        let text = before(self.alloc, name, self.line, &options);
        let ended = self.push(Ended::Whole, text);
        if ended != Ended::Whole {
            return ended;
        }
        let ended = self.take_text(name, input);
        if is_last(ended) {
            return ended;
        }
        let text = fallible_alloc::text(self.alloc, AFTER);
        self.push(ended, text)
    }

    // Writes the HTML of text of a stream of this name, and its images.
    fn take_text<R: Read + Drop>(&mut self, name: &str, input: &mut R) -> Ended {
        let options = self.options;
        let mut pictures = Pictures::new(
            self.alloc,
            options.encoding,
            options.limit,
            options.images,
            input,
        );
        let ended = if options.images {
            self.take_pictures(name, &mut pictures)
        } else {
            self.take_plain(name, &mut pictures)
        };
        self.left_out = self.left_out.and(pictures.left_out());
        ended
    }

    // Writes text and images, one after another.
    fn take_pictures<R: Read + Drop>(&mut self, name: &str, pictures: &mut Pictures<R>) -> Ended {
        for _ in 0..u64::MAX {
            match self.take_next(name, pictures) {
                Some(Ended::Whole) => {}
                Some(other) => return other,
                None => return Ended::Whole,
            }
        }
        Ended::Whole
    }

    // Writes the next part: an image, or text. None at the end.
    fn take_next<R: Read + Drop>(
        &mut self,
        name: &str,
        pictures: &mut Pictures<R>,
    ) -> Option<Ended> {
        match pictures.picture() {
            Ok(Some(picture)) => {
                let text = image(self.alloc, &picture, self.options.layout.inline);
                let ended = self.push(Ended::Whole, text);
                return Some(self.flush(ended));
            }
            Ok(None) => {}
            Err(error) => return Some(self.unread(name, error)),
        }
        match pictures.has_text() {
            Ok(true) => Some(self.take_plain(name, pictures)),
            Ok(false) => None,
            Err(error) => Some(self.unread(name, error)),
        }
    }

    // Writes the HTML of text without images.
    fn take_plain<R: Read + Drop>(&mut self, name: &str, input: &mut R) -> Ended {
        let options = self.options;
        let strikes = options.rows.is_some() && !options.is_cast;
        let input = Striking::new(self.alloc, options.encoding, strikes, input);
        let input = Linking::new(self.alloc, options.encoding, options.links, input);
        self.write(name, input)
    }

    // Writes the HTML of the text that this reads, for a stream of this name.
    fn write<R: Read + Drop>(&mut self, name: &str, input: R) -> Ended {
        let options = self.numbered();
        let mut reader = Watched::new(ErrorCapture::new(input));
        let timing = Timing::new(
            self.alloc,
            options.times,
            options.layout.inline,
            &mut *self.output,
        );
        let mut writer = Watched::new(ErrorCapture::new(Counting::new(timing)));
        let outcome = write_html(self.alloc, &options, &mut reader, &mut writer);
        let writer = writer.into_inner();
        let reason = reader.into_inner().reason().or(writer.reason());
        let (lines, timing) = writer.into_inner().end();
        let flushed = timing.end();
        let place = match outcome {
            Err(FilterError::Write) => Place::Output(self.output_name),
            _ => Place::Input(name),
        };
        self.line = self.line.saturating_add(lines.count());
        let ended = ended_by(PROGRAM, outcome, place, reason, &mut self.faults);
        match flushed {
            Ok(()) => ended,
            Err(error) => self.unflushed(ended, error),
        }
    }

    // The end of the stream after this text.
    fn push(&mut self, ended: Ended, text: Result<String, AllocError>) -> Ended {
        let Ok(text) = text else {
            tell(
                PROGRAM,
                self.output_name,
                FilterError::Memory,
                &mut self.faults,
            );
            return Ended::Unwritten;
        };
        match self.output.write_all(text.as_bytes()) {
            Ok(()) => ended,
            Err(error) => self.unwritten(error),
        }
    }

    // The end of the stream once that is flushed.
    fn flush(&mut self, ended: Ended) -> Ended {
        if is_last(ended) {
            return ended;
        }
        match self.output.flush() {
            Ok(()) => ended,
            Err(error) => self.unwritten(error),
        }
    }

    // The end of the stream after some lines were written; says how many after them are left out.
    fn end_window<R: Read>(
        &mut self,
        name: &str,
        ended: Ended,
        window: &mut Window<R>,
    ) -> (Ended, u64) {
        if ended != Ended::Whole {
            return (ended, 0);
        }
        match window.after() {
            Ok(lines) => {
                self.tell_left_out(name, lines, Side::After);
                self.line = self.line.saturating_add(lines);
                (ended, lines)
            }
            Err(error) => (self.unread(name, error), 0),
        }
    }

    // The options for a stream after these lines.
    fn numbered(&self) -> Options<'a> {
        let mut options = self.options;
        if options.first.is_some() {
            options.first = Some(self.line.saturating_add(1));
        }
        options
    }

    // Says how much a string of the stream of this name took, which nothing ended, unless it is
    // shown; so many lines come before those that were read.
    fn note_lost(&mut self, name: &str, ended: Ended, before: u64, lost: Lost) -> Ended {
        if self.options.shows {
            return ended;
        }
        let lost = Lost {
            line: lost.line.saturating_add(before),
            bytes: lost.bytes,
        };
        self.tell_lost(name, lost);
        if !self.options.marks_lost {
            return ended;
        }
        let text = lost_note(self.alloc, self.options.is_page, lost);
        let ended = self.push(ended, text);
        self.flush(ended)
    }

    fn tell_lost(&mut self, name: &str, lost: Lost) {
        let name = Shown(name);
        let line = lost.line;
        let bytes = lost.bytes;
        let _ = writeln!(
            self.faults,
            "{PROGRAM}: {name}: line {line}: an unended string swallowed {bytes} bytes"
        );
        let _ = self.faults.flush();
    }

    // Says how many images of the stream of this name are left out, unless they are shown.
    fn note_images(&mut self, name: &str, ended: Ended) -> Ended {
        let LeftOut {
            large,
            unfinished,
            others,
        } = self.left_out;
        let ended = self.note_kind(name, ended, large, "larger than --limit");
        let ended = self.note_kind(name, ended, unfinished, "unfinished");
        self.note_kind(name, ended, others, "of another kind or size")
    }

    // The same for so many images of this kind.
    fn note_kind(&mut self, name: &str, ended: Ended, count: u64, kind: &'static str) -> Ended {
        if count == 0 || ended != Ended::Whole || self.options.shows {
            return ended;
        }
        let name = Shown(name);
        let images = if count == 1 { "image" } else { "images" };
        let _ = writeln!(
            self.faults,
            "{PROGRAM}: {name}: {count} {images} left out, {kind}"
        );
        let _ = self.faults.flush();
        if !self.options.marks_lost {
            return ended;
        }
        let text = left_out_note(self.alloc, self.options.is_page, count, images, kind);
        let ended = self.push(ended, text);
        self.flush(ended)
    }

    // Says that the line of this number is no line of a recording.
    fn tell_wrong(&mut self, name: &str, number: u64) -> Ended {
        let name = Shown(name);
        let _ = writeln!(
            self.faults,
            "{PROGRAM}: {name}: line {number} is no line of a recording"
        );
        let _ = self.faults.flush();
        Ended::Unread
    }

    // Says how many lines of the stream of this name are left out, on this side of those that are
    // written.
    fn tell_left_out(&mut self, name: &str, lines: u64, side: Side) {
        if lines == 0 {
            return;
        }
        let name = Shown(name);
        let counted = counted(lines);
        let place = side.place();
        let _ = writeln!(
            self.faults,
            "{PROGRAM}: {name}: {lines} {counted} left out at the {place}"
        );
        let _ = self.faults.flush();
    }

    // The end of a stream if the output takes nothing more.
    fn unwritten(&mut self, error: io::Error) -> Ended {
        let reason = Reason::of(&error);
        unwritten(PROGRAM, self.output_name, reason, &mut self.faults)
    }

    // The end of a stream that ended so, if its last part could not be written.
    fn unflushed(&mut self, ended: Ended, error: io::Error) -> Ended {
        if is_last(ended) {
            ended
        } else {
            self.unwritten(error)
        }
    }

    // The end of the stream of this name, if no more can be read.
    fn unread(&mut self, name: &str, error: io::Error) -> Ended {
        unread(PROGRAM, name, Reason::of(&error), &mut self.faults)
    }
}

// Whether nothing can be written after a stream that ended so.
fn is_last(ended: Ended) -> bool {
    ended == Ended::Unwritten || ended == Ended::Closed
}

// Whether no lines are left out after those that were read, in which a string may end.
fn is_whole<R: Read>(window: &mut Window<R>) -> bool {
    match window.after() {
        Ok(lines) => lines == 0,
        Err(_) => true,
    }
}
