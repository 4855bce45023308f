//! Requests for memory that are refused, each in turn.
use crate::call::Call;
use crate::reading::Reading;
use crate::report::Report;
use crate::spelling::spelled;
use crate::stream::Stream;
use crate::texts::{encoded, is_text, shown, written};
use escape_stream::{Collect, ParseError, Parser, Watched, is_normal, normalise};
use failing_alloc::Refusing;
use std::alloc::{AllocError, Allocator, Global};
use std::fmt::Debug;

/// A call that takes memory.
#[derive(Clone, Copy)]
pub enum Asked {
    /// A call of a new parser.
    Parser(Call),
    /// `parse_into` of a new parser, with a sink that keeps the actions.
    Sink,
    /// `parse_chunks` of the two halves of a stream.
    Halves,
    /// `read_segment` of each segment of a stream.
    Segments,
    /// A sink that spells the actions of a stream, which takes one after another.
    Spelled,
    /// `encode` of the actions of a stream.
    Text,
    /// `normalise` of a stream.
    Normal,
    /// `is_normal` of a stream.
    Verdict,
}

const MOST_REQUESTS: u64 = 10_000;

impl Asked {
    /// All that takes memory.
    pub const ALL: [Asked; 10] = [
        Asked::Parser(Call::List),
        Asked::Parser(Call::First),
        Asked::Parser(Call::Prefix),
        Asked::Sink,
        Asked::Halves,
        Asked::Segments,
        Asked::Spelled,
        Asked::Text,
        Asked::Normal,
        Asked::Verdict,
    ];

    /// Returns whether it takes memory for this stream.
    pub fn grows(self, stream: &Stream) -> bool {
        let has_actions = stream.actions != "Ok([])";
        match self {
            Asked::Parser(Call::List) | Asked::Sink | Asked::Halves | Asked::Segments => {
                has_actions
            }
            Asked::Parser(Call::First) => begins_with_a_string(stream.actions),
            Asked::Parser(Call::Prefix) => has_actions && stream.is_finished,
            Asked::Spelled | Asked::Text | Asked::Normal => !stream.text.is_empty(),
            Asked::Verdict => !stream.bytes.is_empty(),
        }
    }

    /// Asks with the first request refused, then with the second, and so on, until no request meets
    /// the refusal. A refusal that a call gets by, as that of a growth that is only a hint, leaves
    /// its result as it is; any other makes it an error. Returns the number of errors.
    pub fn refuse_each(self, alloc: Global, stream: &Stream, report: &mut Report) -> usize {
        let heap = Refusing::new(alloc);
        let result = self.result(alloc, &heap, 0, stream);
        let wanted = text_of(&result);
        let differences = report.differences;
        let mut errors = 0usize;
        for at in 1..MOST_REQUESTS {
            errors = errors.saturating_add(self.refuse(alloc, &heap, at, stream, wanted, report));
            if !heap.has_refused() || report.differences > differences {
                return errors;
            }
        }
        report.note(stream.name, "too many requests");
        errors
    }

    // Asks with the request of this number refused, and notes if the result is neither the wanted
    // one nor an error. Returns the number of errors.
    fn refuse(
        self,
        alloc: Global,
        heap: &Refusing<Global>,
        at: u64,
        stream: &Stream,
        wanted: &str,
        report: &mut Report,
    ) -> usize {
        let result = self.result(alloc, heap, at, stream);
        let is_error = heap.has_refused() & is_text(&result, "Err(Memory)");
        let wanted = if is_error { "Err(Memory)" } else { wanted };
        let what = "a refused request changes the result";
        report.expect(stream.name, what, wanted, result);
        usize::from(is_error)
    }

    // Returns the result, as a text, if the request of this number is refused.
    fn result(
        self,
        alloc: Global,
        heap: &Refusing<Global>,
        at: u64,
        stream: &Stream,
    ) -> Result<String, AllocError> {
        heap.refuse_at(at);
        match self {
            Asked::Parser(call) => parsed(alloc, heap, call, stream.bytes),
            Asked::Sink => given(alloc, heap, stream),
            Asked::Halves => shown(alloc, Reading::Halves.read(heap, stream.bytes)),
            Asked::Segments => shown(alloc, Reading::Segments.read(heap, stream.bytes)),
            Asked::Spelled => spelled(alloc, heap, at, stream),
            Asked::Text => text(alloc, heap, at, stream.bytes),
            Asked::Normal => normalised(alloc, heap, stream.bytes),
            Asked::Verdict => shown(alloc, is_normal(heap, &mut Watched::new(stream.bytes))),
        }
    }
}

// Returns a text, if there was memory for it.
fn text_of(text: &Result<String, AllocError>) -> &str {
    match text {
        Ok(text) => text.as_str(),
        Err(_) => "out of memory",
    }
}

// Says how a list of actions begins, and a first action that has no data.
const WITHOUT_DATA: &str = "Ok([] Ok([Print( Ok([Control( Ok([Esc( Ok([CSI(";

// Returns whether the first action of a list is that of a string, whose data takes memory.
fn begins_with_a_string(actions: &str) -> bool {
    for begin in WITHOUT_DATA.split(' ') {
        if actions.starts_with(begin) {
            return false;
        }
    }
    true
}

// Returns the Debug text of the call's result. A parser that was refused memory has failed.
fn parsed<A: Allocator + Copy>(
    alloc: Global,
    heap: A,
    call: Call,
    stream: &[u8],
) -> Result<String, AllocError> {
    let mut parser = Parser::new(heap);
    let text = call.shown(alloc, &mut parser, stream);
    checked(alloc, text, &mut parser)
}

// Returns the text of a call, or that of a parser that goes on if the call was refused memory.
fn checked<A: Allocator + Copy>(
    alloc: Global,
    text: Result<String, AllocError>,
    parser: &mut Parser<A>,
) -> Result<String, AllocError> {
    if is_text(&text, "Err(Memory)") && !has_failed(alloc, parser) {
        return String::from_str(alloc, "a parser that goes on after a refusal");
    }
    text
}

// Returns whether each call of the parser says that it has failed.
fn has_failed<A: Allocator + Copy>(alloc: Global, parser: &mut Parser<A>) -> bool {
    let mut is_failed = true;
    for call in Call::ALL {
        is_failed &= call.fails(alloc, parser, b"b");
        is_failed &= call.fails(alloc, parser, b"");
    }
    is_failed
}

// Returns the Debug text of the actions that a sink is given, or of the error. Before an error a
// prefix of the stream's actions is given.
fn given<A: Allocator + Copy>(
    alloc: Global,
    heap: A,
    stream: &Stream,
) -> Result<String, AllocError> {
    let (ending, sink) = Parser::new(heap).parse_into(stream.bytes, Collect::new(heap));
    given_of(alloc, stream.actions, ending, sink.actions)
}

// Returns the text of the actions that were given, of all that the stream has, or that of the
// error.
fn given_of<T: Debug + Drop>(
    alloc: Global,
    all: &str,
    ending: Result<(), ParseError>,
    actions: T,
) -> Result<String, AllocError> {
    let given = format!(in alloc; "Ok({actions:?})")?;
    if ending.is_ok() {
        return Ok(given);
    }
    match given.strip_suffix("])") {
        Some(given) if all.starts_with(given) => shown(alloc, ending),
        _ => Ok(given),
    }
}

// Returns the text that `encode` writes for the stream's actions.
fn text<A: Allocator + Copy>(
    alloc: Global,
    heap: &Refusing<A>,
    at: u64,
    stream: &[u8],
) -> Result<String, AllocError> {
    heap.refuse_at(0);
    let actions = Reading::Whole.read(heap, stream);
    heap.refuse_at(at);
    encoded(alloc, heap, actions)
}

/// Returns the text that `normalise` writes, or the Debug text of the error.
pub fn normalised<A: Allocator + Copy>(
    alloc: Global,
    heap: A,
    stream: &[u8],
) -> Result<String, AllocError> {
    let mut normal = Watched::new(Vec::new(alloc));
    let ending = normalise(heap, &mut Watched::new(stream), &mut normal);
    written(alloc, ending, normal.into_inner())
}
