//! The event that a line of a recording tells a reader.
ghost use Rattle.std.specs.Prelude.{◌≡◌, IfOk, Some};
ghost use Rattle.json.specs.Json.{document};
ghost use Rattle.json.specs.Value.{value_view};
ghost use Rattle.json.specs.Lex.{tokens};
ghost use Rattle.asciicast.specs.Events.{line_report, told_at, told_by, told_event, told_header};

use crate::line::first_of;
use json::{Error, Reader, Scratch, Token, Value};
use std::alloc::{AllocError, Allocator};

/// The event that a line of a recording tells a reader that writes none of it.
#[derive(Clone, Copy)]
pub enum Event<'a> {
    /// The terminal got this text at this time, as it is written.
    Output(&'a str, &'a str),
    /// This text was typed at this time.
    Input(&'a str, &'a str),
    /// An event of another kind came at this time.
    Passed(&'a str),
    /// The header, with times counted from the event before: of version 3, and not of 2.
    Header(bool),
    /// A comment, or no text.
    Nothing,
    /// It is no line of a recording.
    Wrong,
}

/// Returns the event of this line, without its line feed. The error says that memory was refused.
pub fn event_in<'a, A: Allocator + Copy>(
    alloc: A,
    line: &'a str,
    scratch: &'a mut Scratch<A>,
) -> Result<Event<'a>, AllocError>
    ensures { IfOk result (λ e. told_by e ≡ line_report line.now) }
{
    match first_of(line) {
        None | Some(b'#') => Ok(Event::Nothing),
        Some(b'{') => header(alloc, line, scratch),
        Some(b'[') => read_event(line, scratch),
        Some(_) => Ok(Event::Wrong),
    }
}

// Returns the kind of an event.
fn read_event<'a, A: Allocator>(
    line: &'a str,
    scratch: &'a mut Scratch<A>,
) -> Result<Event<'a>, AllocError>
    ensures { IfOk result (λ e. told_by e ≡ told_event (tokens line.now)) }
{
    let mut reader = Reader::new(line, scratch)?;
    Ok(event_of(&mut reader))
}

// Returns the event of these tokens.
fn event_of<'a>(reader: &mut Reader<'a>) -> Event<'a>
    ensures { told_by result ≡ told_event reader.old }
{
    let Some(Token::BeginArray) = reader.next() else {
        return Event::Wrong;
    };
    let Some(Token::Number(time)) = reader.next() else {
        return Event::Wrong;
    };
    let Some(Token::String(kind)) = reader.next() else {
        return Event::Wrong;
    };
    let Some(Token::String(text)) = reader.next() else {
        return Event::Wrong;
    };
    let Some(Token::EndArray) = reader.next() else {
        return Event::Wrong;
    };
    let None = reader.next() else {
        return Event::Wrong;
    };
    event_at(time, kind, text)
}

// Returns the meaning of an event of this kind.
fn event_at<'a>(time: &'a str, kind: &'a str, text: &'a str) -> Event<'a>
    ensures { told_by result ≡ told_at time.now kind.now text.now }
{
    if kind == "o" {
        Event::Output(time, text)
    } else if kind == "i" {
        Event::Input(time, text)
    } else {
        Event::Passed(time)
    }
}

// Returns the kind of a header.
fn header<'a, A: Allocator + Copy>(
    alloc: A,
    line: &'a str,
    scratch: &'a mut Scratch<A>,
) -> Result<Event<'a>, AllocError>
    ensures { IfOk result (λ e. told_by e ≡ told_header (document line.now)) }
{
    match Value::parse(alloc, line, scratch) {
        Ok(value) => Ok(header_of(&value)),
        Err(Error::OutOfMemory) => Err(AllocError),
        Err(_) => Ok(Event::Wrong),
    }
}

// Returns the header of this value.
fn header_of<'a, A: Allocator>(value: &Value<'_, A>) -> Event<'a>
    ensures { told_by result ≡ told_header (Some (value_view value.now)) }
{
    let Some(version) = value.get("version") else {
        return Event::Wrong;
    };
    match version.as_number() {
        Some("2") => Event::Header(false),
        Some("3") => Event::Header(true),
        _ => Event::Wrong,
    }
}
