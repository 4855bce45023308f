//! The kind of a line of a recording.
ghost use Rattle.std.specs.Prelude.{◌≡◌, IfOk, Some};
ghost use Rattle.json.specs.Json.{document};
ghost use Rattle.json.specs.Value.{value_view};
ghost use Rattle.json.specs.Lex.{tokens};
ghost use Rattle.json.specs.Print.{IsNumber};
ghost use Rattle.asciicast.specs.Recordings.{event_kind, first_byte, header_kind, is_space, kind_at, kind_of, kind_seen, HasNumber};

use json::{Error, Reader, Scratch, Token, Value};
use std::alloc::{AllocError, Allocator};

/// A line of a recording.
#[derive(Clone, Copy)]
pub enum Line<'a> {
    /// An event of output: its time, as it is written, and its text.
    Output(&'a str, &'a str),
    /// An event of input: its time, as it is written.
    Input(&'a str),
    /// An event of another kind: its time, as it is written.
    Passed(&'a str),
    /// The header, with times counted from the event before: of version 3, and not of 2.
    Header(bool),
    /// A comment, or white space alone.
    Other,
    /// Something else.
    Wrong,
}

/// Returns the kind of this line. The error is that memory was refused.
pub fn line_of<'a, A: Allocator + Copy>(
    alloc: A,
    line: &'a str,
    scratch: &'a mut Scratch<A>,
) -> Result<Line<'a>, AllocError>
    ensures kind { IfOk result (λ l. kind_seen l ≡ kind_of line.now) }
    ensures number { IfOk result HasNumber }
{
    match first_of(line) {
        None | Some(b'#') => Ok(Line::Other),
        Some(b'{') => header(alloc, line, scratch),
        Some(b'[') => event(line, scratch),
        Some(_) => Ok(Line::Wrong),
    }
}

/// Returns the first byte of a line that is no white space.
pub fn first_of(line: &str) -> Option<u8>
    ensures { result ≡ first_byte line.now }
{
    first_in(line.as_bytes())
}

// Returns the first of these bytes that is none.
fn first_in(bytes: &[u8]) -> Option<u8>
    ensures { result ≡ first_byte bytes.now }
{
    for byte in bytes {
        if !is_space(*byte) {
            return Some(*byte);
        }
    }
    None
}

// Returns whether a byte is white space of JSON, and no line feed.
fn is_space(byte: u8) -> bool
    ensures { result ≡ is_space byte }
{
    byte == b' ' || byte == b'\t' || byte == b'\r'
}

// Returns the kind of an event.
fn event<'a, A: Allocator>(
    line: &'a str,
    scratch: &'a mut Scratch<A>,
) -> Result<Line<'a>, AllocError>
    ensures kind { IfOk result (λ l. kind_seen l ≡ event_kind (tokens line.now)) }
    ensures number { IfOk result HasNumber }
{
    let mut reader = Reader::new(line, scratch)?;
    Ok(event_of(&mut reader))
}

// Returns the event of these tokens.
fn event_of<'a>(reader: &mut Reader<'a>) -> Line<'a>
    ensures kind { kind_seen result ≡ event_kind reader.old }
    ensures number { HasNumber result }
{
    let Some(Token::BeginArray) = reader.next() else {
        return Line::Wrong;
    };
    let Some(Token::Number(time)) = reader.next() else {
        return Line::Wrong;
    };
    let Some(Token::String(kind)) = reader.next() else {
        return Line::Wrong;
    };
    let Some(Token::String(text)) = reader.next() else {
        return Line::Wrong;
    };
    let Some(Token::EndArray) = reader.next() else {
        return Line::Wrong;
    };
    let None = reader.next() else {
        return Line::Wrong;
    };
    event_at(time, kind, text)
}

// Returns the meaning of an event of this kind.
fn event_at<'a>(time: &'a str, kind: &str, text: &'a str) -> Line<'a>
    requires { IsNumber time.now }
    ensures kind { kind_seen result ≡ kind_at time.now kind.now text.now }
    ensures number { HasNumber result }
{
    if kind == "o" {
        Line::Output(time, text)
    } else if kind == "i" {
        Line::Input(time)
    } else {
        Line::Passed(time)
    }
}

// Returns the kind of a header.
fn header<'a, A: Allocator + Copy>(
    alloc: A,
    line: &'a str,
    scratch: &'a mut Scratch<A>,
) -> Result<Line<'a>, AllocError>
    ensures kind { IfOk result (λ l. kind_seen l ≡ header_kind (document line.now)) }
    ensures number { IfOk result HasNumber }
{
    match Value::parse(alloc, line, scratch) {
        Ok(value) => Ok(header_of(&value)),
        Err(Error::OutOfMemory) => Err(AllocError),
        Err(_) => Ok(Line::Wrong),
    }
}

// Returns the header of this value.
fn header_of<'a, A: Allocator>(value: &Value<'_, A>) -> Line<'a>
    ensures kind { kind_seen result ≡ header_kind (Some (value_view value.now)) }
    ensures number { HasNumber result }
{
    let Some(version) = value.get("version") else {
        return Line::Wrong;
    };
    match version.as_number() {
        Some("2") => Line::Header(false),
        Some("3") => Line::Header(true),
        _ => Line::Wrong,
    }
}
