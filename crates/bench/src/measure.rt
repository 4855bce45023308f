//! The measures.
ghost use Rattle.std.specs.Prelude.{⊤};

use crate::borrowed_tally::BorrowedTally;
use crate::count::Count;
use crate::counted::Counted;
use crate::images::Images;
use crate::input::Input;
use crate::tally::Tally;
use caching_alloc::Reusing;
use esc_frame::parser::VTParser;
use escape_stream::{Action, Parser, Watched, encode, normalise, parse_borrowed};
use std::alloc::{Allocator, Global};
use std::fmt;

/// The measures that there are.
#[derive(Clone, Copy, PartialEq)]
pub enum Measure {
    /// The events of a stream, counted.
    Framing,
    /// The actions of a stream, counted.
    Parse,
    /// The borrowed actions of a stream, counted.
    ParseBorrowed,
    /// The actions of a stream, counted; the memory of the last actions serves the next.
    ParseReusing,
    /// The first actions of the prefixes of a stream, counted.
    ParseFirst,
    /// The actions of the prefixes of a stream that leave no segment unfinished, counted.
    ParseFirstAsVec,
    /// The same, from a list that serves all calls.
    ParseFirstInto,
    /// The text of a stream's actions.
    Encode,
    /// The normal text of a stream.
    Normalise,
    /// The images and termcap queries of a stream, read from its events.
    Images,
    /// The actions of an operating system command that does not end, under a limit, counted.
    Endless,
}

/// Says how often `endless` is given the stream.
const TIMES: usize = 1000;

/// The limit of `endless`, in bytes.
const LIMIT: usize = 65_536;

impl Measure {
    /// All measures, in the order in which they are taken.
    pub const ALL: [Measure; 11] = [
        Measure::Framing,
        Measure::Parse,
        Measure::ParseBorrowed,
        Measure::ParseReusing,
        Measure::ParseFirst,
        Measure::ParseFirstAsVec,
        Measure::ParseFirstInto,
        Measure::Encode,
        Measure::Normalise,
        Measure::Images,
        Measure::Endless,
    ];

    /// Returns the measure that a word asks for.
    pub fn named(word: &str) -> Option<Measure> {
        for measure in Measure::ALL {
            if word == measure.name() {
                return Some(measure);
            }
        }
        None
    }

    /// Returns the word that asks for it.
    pub fn name(self) -> &'static str {
        match self {
            Measure::Framing => "framing",
            Measure::Parse => "parse",
            Measure::ParseBorrowed => "parse_borrowed",
            Measure::ParseReusing => "parse_reusing",
            Measure::ParseFirst => "parse_first",
            Measure::ParseFirstAsVec => "parse_first_as_vec",
            Measure::ParseFirstInto => "parse_first_into",
            Measure::Encode => "encode",
            Measure::Normalise => "normalise",
            Measure::Images => "images",
            Measure::Endless => "endless",
        }
    }

    /// Does the work once, and returns its counts. None if a call fails.
    pub fn pass(self, alloc: Global, input: Input<'_>) -> Option<Counted> {
        match self {
            Measure::Framing => framing(alloc, input.bytes),
            Measure::Parse => parse(alloc, input.bytes),
            Measure::ParseBorrowed => borrowed(alloc, input.bytes),
            Measure::ParseReusing => reusing(alloc, input.bytes),
            Measure::ParseFirst => first_actions(alloc, input.bytes),
            Measure::ParseFirstAsVec => prefixes(alloc, input.bytes),
            Measure::ParseFirstInto => appended(alloc, input.bytes),
            Measure::Encode => encoded(alloc, input.actions),
            Measure::Normalise => normal(alloc, input.bytes),
            Measure::Images => images(alloc, input.bytes),
            Measure::Endless => endless(alloc, input.bytes),
        }
    }

    /// Returns how many bytes a pass reads.
    pub fn bytes(self, input: Input<'_>) -> usize {
        let bytes = input.bytes.len();
        if self == Measure::Endless {
            bytes.saturating_mul(TIMES)
        } else {
            bytes
        }
    }
}

impl fmt::Display for Measure {
    fn fmt<W: fmt::Write>(&self, f: &mut fmt::Formatter<W>) -> fmt::Result {
        f.write_str(self.name())
    }
}

// Returns the counts, if no call failed.
fn ended<E: Drop>(ending: Result<(), E>, counted: Counted) -> Option<Counted> {
    match ending {
        Ok(()) => Some(counted),
        Err(_) => None,
    }
}

fn framing(alloc: Global, bytes: &[u8]) -> Option<Counted> {
    let mut count = Count::new();
    let ending = VTParser::new(alloc).parse(bytes, &mut count);
    ended(ending, Counted::Events(count))
}

fn parse(alloc: Global, bytes: &[u8]) -> Option<Counted> {
    let mut tally = Tally::new();
    let ending = Parser::new(alloc).parse(bytes, |action| tally.add(action));
    ended(ending, tally.counted())
}

fn borrowed(alloc: Global, bytes: &[u8]) -> Option<Counted> {
    let mut tally = BorrowedTally::new();
    let ending = parse_borrowed(
        &mut Parser::new(alloc),
        bytes,
        |action|
            ensures { ⊤ }
        {
            tally.add(action);
        },
    );
    ended(ending, tally.counted())
}

fn reusing(alloc: Global, bytes: &[u8]) -> Option<Counted> {
    let memory = Reusing::new(alloc);
    parse_over(&memory, bytes)
}

fn parse_over<A: Allocator + Copy>(memory: A, bytes: &[u8]) -> Option<Counted> {
    let (ending, tally) = Parser::new(memory).parse_into(bytes, Tally::new());
    ended(ending, tally.counted())
}

fn first_actions(alloc: Global, bytes: &[u8]) -> Option<Counted> {
    let mut tally = Tally::new();
    let mut parser = Parser::new(alloc);
    let mut rest = bytes;
    while !rest.is_empty() {
        match parser.parse_first(rest) {
            Ok(Some((action, len))) => {
                tally.add(action);
                rest = &rest[len..];
            }
            Ok(None) => break,
            Err(_) => return None,
        }
    }
    Some(tally.counted())
}

fn prefixes(alloc: Global, bytes: &[u8]) -> Option<Counted> {
    let mut tally = Tally::new();
    let mut parser = Parser::new(alloc);
    let mut rest = bytes;
    while !rest.is_empty() {
        match parser.parse_first_as_vec(rest) {
            Ok(Some((actions, len))) => {
                for action in actions {
                    tally.add(action);
                }
                rest = &rest[len..];
            }
            Ok(None) => break,
            Err(_) => return None,
        }
    }
    Some(tally.counted())
}

fn appended(alloc: Global, bytes: &[u8]) -> Option<Counted> {
    let mut tally = Tally::new();
    let mut parser = Parser::new(alloc);
    let mut actions = Vec::new(alloc);
    let mut rest = bytes;
    while !rest.is_empty() {
        match parser.parse_first_into(rest, &mut actions) {
            Ok(Some(len)) => {
                count(&mut actions, &mut tally);
                rest = &rest[len..];
            }
            Ok(None) => break,
            Err(_) => return None,
        }
    }
    Some(tally.counted())
}

// Counts the actions, and leaves the list empty.
#[inline]
fn count(actions: &mut Vec<Action>, tally: &mut Tally) {
    while let Some(action) = actions.pop() {
        tally.add(action);
    }
}

fn encoded(alloc: Global, actions: &[Action]) -> Option<Counted> {
    match encode(alloc, actions) {
        Ok(text) => Some(Counted::Bytes(text.len())),
        Err(_) => None,
    }
}

fn normal(alloc: Global, bytes: &[u8]) -> Option<Counted> {
    let mut writer = Watched::new(Vec::new(alloc));
    let ending = normalise(alloc, &mut Watched::new(bytes), &mut writer);
    ended(ending, Counted::Bytes(writer.into_inner().len()))
}

fn images(alloc: Global, bytes: &[u8]) -> Option<Counted> {
    let mut images = Images::new(alloc);
    let ending = VTParser::new(alloc).parse(bytes, &mut images);
    ended(ending, images.counted())
}

fn endless(alloc: Global, bytes: &[u8]) -> Option<Counted> {
    let mut parser = Parser::with_limit(alloc, LIMIT);
    let (mut ending, mut tally) = parser.parse_into(b"\x1b]0;", Tally::new());
    for _ in 0..TIMES {
        let (next, counted) = parser.parse_into(bytes, tally);
        ending = next;
        tally = counted;
    }
    ended(ending, tally.counted())
}
