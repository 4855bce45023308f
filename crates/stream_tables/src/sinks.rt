//! Sinks by name.
use crate::texts::is_shown;
use escape_stream::{Collect, First, Parser, TextSink};
use std::alloc::Global;

const STREAM: &[u8] = b"ab\x1b]0;t\x07\x1b\\c\x1b[1m";

const TEXT: &str = "\"ab\\u{1b}]0;t\\u{1b}\\\\c\\u{1b}[1m\"";

const SHOWN: &str =
    "[Print('a'), Print('b'), OperatingSystemCommand(SetIconNameAndWindowTitle(\"t\")), Esc(Code(StringTerminator)), Print('c'), CSI(Sgr(Intensity(Bold)))]";

// Returns whether each sink is given the stream's actions.
fn is_collected(alloc: Global) -> bool {
    let (result, sink) = Parser::new(alloc).parse_into(STREAM, Collect::new(alloc));
    result.is_ok() & is_shown(alloc, sink.actions, SHOWN)
}

fn is_spelled(alloc: Global) -> bool {
    let (result, sink) = Parser::new(alloc).parse_into(STREAM, TextSink::new(alloc));
    result.is_ok() & is_shown(alloc, sink.text, TEXT)
}

fn is_first_taken(alloc: Global) -> bool {
    let (result, sink) = Parser::new(alloc).parse_into(STREAM, First { action: None });
    result.is_ok() & is_shown(alloc, sink.action, "Some(Print('a'))")
}

/// Returns whether each sink takes them.
pub fn are_taken(alloc: Global) -> bool {
    is_collected(alloc) & is_spelled(alloc) & is_first_taken(alloc)
}
