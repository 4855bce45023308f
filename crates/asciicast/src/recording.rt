//! A recording that is filtered line by line.
ghost use Rattle.std.specs.Prelude.{◌≡◌, ◌≢◌, ◌++◌, ◌∷◌, ℕ, List, [], IfOk, OnOk, codes, false, string_bytes, true};
ghost use Rattle.json.specs.Print.{IsNumber};
ghost use Rattle.esc_normal.specs.Streams.{Given};
ghost use Rattle.asciicast.specs.Recorded.{IsEndTime};
ghost use Rattle.asciicast.specs.Recordings.{IsEventOf, IsUnheard, StaysAs, kind_of, output, spelled_line, wrong};

use crate::cast_error::CastError;
use crate::line::{Line, line_of};
use crate::spelled::{is_shown_line, spelled};
use esc_filter::StreamFilter;
use json::{Scratch, Writer, is_number};
use std::alloc::{AllocError, Allocator, Global};

/// Takes a recording line by line, and gives each, with the filtered text of its event, if that is
/// one of output: the filter is fed these texts, one after another. Every other line stays: the
/// header, of version 2 or 3, an event of another kind, a comment, and an empty line. So the times
/// of the events stay, and the text of an event is empty if nothing of it passes. A line that stays
/// says the same as before, and has no control: a carriage return is left out, a tab is a space,
/// and any other is spelled as JSON does, as `\u007f`.
///
/// It keeps the state of the filter, one line, and the time of the last event.
#[derive(Drop)]
pub struct Recording<F, A: Allocator = Global> {
    feeding: F,
    alloc: A,
    scratch: Scratch<A>,
    // the line that the last call gave
    text: Vec<u8, A>,
    // the time of the last event
    time: String<A>,
    // says whether the time of an event is counted from the event before
    is_relative: bool,
    // says whether events of input lose their texts
    drops_input: bool,
}

impl<F: StreamFilter<A>, A: Allocator + Copy> Recording<F, A> {
    ghost use Rattle.asciicast.specs.Recorded.{Closes, Hears, IsAs, drops_input, feeding_of, is_relative, is_relative_after, text_of, time_after, time_of};

    /// Returns a recording that took no line, for a filter that was fed nothing. Takes no memory.
    pub fn new(alloc: A, feeding: F) -> Recording<F, A>
        ensures feeding { feeding_of result ≡ feeding }
        ensures empty { text_of result ≡ [] }
        ensures time { (time_of result ≡ []) × (is_relative result ≡ false) }
        ensures keeps { drops_input result ≡ false }
    {
        Recording {
            feeding,
            alloc,
            scratch: Scratch::new(alloc),
            text: Vec::new(alloc),
            time: String::new(alloc),
            is_relative: false,
            drops_input: false,
        }
    }

    /// Returns the same recording, but its events of input lose their texts, or keep them. They
    /// keep their times.
    pub fn dropping_input(mut self, drops: bool) -> Recording<F, A>
        ensures drops { drops_input result ≡ drops }
        ensures same { (feeding_of result ≡ feeding_of self) × (text_of result ≡ text_of self)
            × (time_of result ≡ time_of self) × (is_relative result ≡ is_relative self) }
    {
        self.drops_input = drops;
        self
    }

    /// Takes a line, without its line feed. The line that is written for it, with a line feed, is
    /// then the [`text`](Recording::text).
    ///
    /// `CastError::NoEvent` says that it is no line of a recording: no JSON of the format; nothing
    /// has changed. After `CastError::Memory` the recording is of no use.
    pub fn take_line(&mut self, line: &str) -> Result<(), CastError>
        ensures output { Given F.StreamFilter (feeding_of self.old) (λ m c s. (t d : List ℕ)
            → kind_of line.now ≡ output t d → OnOk result (Hears F.StreamFilter m c s t d self.new
            × (time_of self.new ≡ t) × (is_relative self.new ≡ is_relative self.old))) }
        ensures other { IsUnheard (kind_of line.now) → OnOk result
            ((feeding_of self.new ≡ feeding_of self.old)
            × StaysAs (kind_of line.now) (drops_input self.old) line.now (text_of self.new)
            × (time_of self.new ≡ time_after (kind_of line.now) (time_of self.old))
            × (is_relative self.new
            ≡ is_relative_after (kind_of line.now) (is_relative self.old))) }
        ensures right { OnOk result ((kind_of line.now ≢ wrong)
            × (drops_input self.new ≡ drops_input self.old)) }
        ensures no_event { result ≡ Err CastError.NoEvent → (kind_of line.now ≡ wrong)
            × IsAs self.old self.new }
    {
        let kind = line_of(self.alloc, line, &mut self.scratch)?;
        match kind {
            Line::Output(time, data) => {
                self.feeding.feed(data.as_bytes())?;
                self.text = event(self.alloc, time, "o", self.feeding.output())?;
                put(&mut self.time, time)?;
                Ok(())
            }
            Line::Input(time) if self.drops_input => {
                self.text = event(self.alloc, time, "i", "")?;
                put(&mut self.time, time)?;
                Ok(())
            }
            Line::Input(time) | Line::Passed(time) => {
                put(&mut self.time, time)?;
                self.pass(line)
            }
            Line::Header(is_relative) => {
                self.is_relative = is_relative;
                self.pass(line)
            }
            Line::Other => self.pass(line),
            Line::Wrong => Err(CastError::NoEvent),
        }
    }

    /// Ends the recording. If the end of the stream adds something, as a text that takes back a
    /// colour, the [`text`](Recording::text) is an event of output with it, at the time of the last
    /// event; else it is empty. The error is that memory was refused.
    pub fn finish(&mut self) -> Result<(), CastError>
        ensures given { Given F.StreamFilter (feeding_of self.old) (λ m c s.
            OnOk result (Closes m c s self.old self.new)) }
        ensures memory { result ≡ Err CastError.NoEvent → ⊥ }
    {
        self.text.clear();
        self.feeding.finish()?;
        let alloc = self.alloc;
        let is_relative = self.is_relative;
        let added = self.feeding.output();
        if !added.is_empty() {
            let time = end_time(is_relative, self.time.as_str());
            self.text = event(alloc, time, "o", added)?;
        }
        Ok(())
    }

    /// Returns the line that the last call gave, with its line feed; nothing if it gave none.
    pub fn text(&self) -> &[u8]
        ensures { result.now ≡ text_of self.now }
    {
        self.text.as_slice()
    }

    /// Returns the filter.
    pub fn into_feeding(self) -> F
        ensures { result ≡ feeding_of self }
    {
        let Recording {
            feeding,
            alloc: _,
            scratch: _,
            text: _,
            time: _,
            is_relative: _,
            drops_input: _,
        } = self;
        feeding
    }

    // Gives a line that stays.
    fn pass(&mut self, line: &str) -> Result<(), CastError>
        ensures text { OnOk result (text_of self.new ≡ spelled_line line.now ++ 0x0a ∷ []) }
        ensures kept { (feeding_of self.new ≡ feeding_of self.old)
            × (time_of self.new ≡ time_of self.old)
            × (is_relative self.new ≡ is_relative self.old)
            × (drops_input self.new ≡ drops_input self.old) }
        ensures memory { result ≡ Err CastError.NoEvent → ⊥ }
    {
        self.text.clear();
        if is_shown_line(line) {
            self.text.extend_from_slice(line.as_bytes())?;
        } else {
            let text = spelled(self.alloc, line)?;
            self.text.extend_from_slice(text.as_bytes())?;
        }
        self.text.extend_from_slice(b"\n")?;
        Ok(())
    }
}

// Puts a time in the place of another.
fn put<A: Allocator>(last: &mut String<A>, time: &str) -> Result<(), AllocError>
    ensures { OnOk result (string_bytes last.new ≡ time.now) }
{
    last.clear();
    last.push_str(time)?;
    Ok(())
}

// Returns the time of the event that the end adds, if the last event had this time.
fn end_time(is_relative: bool, time: &str) -> &str
    ensures number { IsNumber result.now }
    ensures time { IsEndTime is_relative time.now result.now }
{
    if is_relative || !is_number(time) {
        "0"
    } else {
        time
    }
}

// Returns the line of an event at this time, of this kind and text, with its line feed.
fn event<A: Allocator>(
    alloc: A,
    time: &str,
    kind: &str,
    data: &str,
) -> Result<Vec<u8, A>, AllocError>
    requires { IsNumber time.now }
    ensures { IfOk result (λ v. IsEventOf time.now kind.now data.now v.items) }
{
    let mut writer = Writer::new(Vec::new(alloc));
    writer.begin_array()?;
    writer.number(time)?;
    writer.string(kind)?;
    writer.string(data)?;
    writer.end_array()?;
    let mut line = writer.into_inner();
    line.extend_from_slice(b"\n")?;
    Ok(line)
}
