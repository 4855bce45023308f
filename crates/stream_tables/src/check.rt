//! Checks of a table.
use crate::filtered::check_filtered;
use crate::holding::check_holding;
use crate::lengths::check_lengths;
use crate::made::check_made;
use crate::report::Report;
use crate::row::{Row, parts_of};
use crate::steps::check_steps;
use crate::stream::check_stream;
use crate::texts::both;
use escape_stream::OperatingSystemCommand;
use std::alloc::{AllocError, Global};

/// Checks each row of a table. Rows are blocks of lines, with empty lines between them.
pub fn check_table(alloc: Global, table: &str, report: &mut Report) {
    for block in table.split("\n\n") {
        let row = Row::read(alloc, block, report);
        if !row.lines.is_empty() {
            report.rows = report.rows.saturating_add(1);
            check_row(alloc, &row, report);
        }
    }
}

// Checks a row: a stream, or one that is filtered, the parts of a command, a named statement, calls
// of one parser, streams of several lengths, or streams that are made from numbers.
fn check_row(alloc: Global, row: &Row, report: &mut Report) {
    if row.has("as-text") {
        check_filtered(alloc, row, report)
    } else if row.has("stream") {
        check_stream(alloc, row, report)
    } else if row.has("parts") {
        check_parts(alloc, row, report)
    } else if row.has("holds") {
        check_holding(alloc, row, report)
    } else if row.has("gives") {
        check_steps(alloc, row, report)
    } else if row.has("times") {
        check_lengths(alloc, row, report)
    } else if row.has("seed") {
        check_made(alloc, row, report)
    } else {
        report.note(row.name, "a row of no kind")
    }
}

// Checks the command that the parts are, and its text.
fn check_parts(alloc: Global, row: &Row, report: &mut Report) {
    let parts = row.bytes(alloc, "parts", report);
    let actions = row.actions(alloc, report);
    let text = row.text(alloc, "text", report);
    match format!(in alloc; "{actions} {text}") {
        Ok(wanted) => {
            let got = command_of(alloc, &parts);
            report.expect(row.name, "a command", wanted.as_str(), got);
        }
        Err(_) => report.note(row.name, "out of memory"),
    }
}

// Returns the Debug text of a list of the command that these parts are, and its Display text.
fn command_of(alloc: Global, text: &[u8]) -> Result<String, AllocError> {
    match parts_of(alloc, text) {
        Ok(parts) => both(alloc, OperatingSystemCommand::parse(alloc, &parts)),
        Err(_) => Err(AllocError),
    }
}
