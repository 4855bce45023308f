//! Calls of one parser, one after another.
use crate::call::Call;
use crate::line::Line;
use crate::reading::is_read_alike;
use crate::report::Report;
use crate::row::Row;
use crate::unescaped::unescaped;
use escape_stream::Parser;
use std::alloc::Global;

/// Makes the calls of a row, and compares the result of each with the line after it.
pub fn check_steps(alloc: Global, row: &Row, report: &mut Report) {
    let mut parser = Parser::new(alloc);
    for step in row.lines.get(1..).unwrap_or(&[]).chunks(2) {
        match step {
            [call, gives] if gives.word == "gives" => {
                check_step(alloc, row.name, (*call, gives.text), &mut parser, report)
            }
            _ => report.note(row.name, "a call without what it gives"),
        }
    }
}

// Makes a call, and compares its result with this text. Its bytes are read as a stream of their
// own, too, by a parser and by their segments.
fn check_step(
    alloc: Global,
    name: &str,
    (line, wanted): (Line, &str),
    parser: &mut Parser,
    report: &mut Report,
) {
    let call = match line.word {
        "first" => Call::First,
        "prefix" => Call::Prefix,
        _ => return report.note(name, "a call of no kind"),
    };
    match unescaped(alloc, line.text) {
        Ok(bytes) => {
            let got = call.shown(alloc, parser, &bytes);
            report.expect(name, "the calls", wanted, got);
            let is_alike = is_read_alike(alloc, &bytes);
            report.note_unless(is_alike, name, "read otherwise by segments");
        }
        Err(fault) => report.note(name, fault.0),
    }
}
