//! Calls that take no stream, and others whose result is no list of actions: each row names a
//! statement that holds.
use crate::appending::are_appended;
use crate::asking::{are_lists_told, are_told};
use crate::borrowing::are_borrowed;
use crate::errors::{are_numbers, are_texts};
use crate::events::{has_events, is_failed};
use crate::long::are_sorted;
use crate::normalising::{are_faults_told, is_form_told, is_room_used};
use crate::report::Report;
use crate::row::Row;
use crate::sinks::are_taken;
use crate::streaming::{are_refusals_told, are_stream_faults_told, is_flush_told};
use crate::texts::is_shown;
use crate::watching::{
    are_errors_passed_on, is_interruption_told, is_prefix_kept, is_reader_passed_on,
    is_writer_passed_on,
};
use escape_stream::VTParser;
use std::alloc::Global;

/// Notes a row if it does not hold.
pub fn check_holding(alloc: Global, row: &Row, report: &mut Report) {
    let holds = row.text(alloc, "holds", report);
    let input = row.bytes(alloc, "input", report);
    let gives = row.text(alloc, "gives", report);
    let is_right = does_hold(alloc, holds.as_str(), &input, gives.as_str());
    report.note_unless(is_right, row.name, "it does not hold");
}

// Returns whether the statement of this name holds, for an input and its result, if there is one.
fn does_hold(alloc: Global, name: &str, input: &[u8], gives: &str) -> bool {
    match name {
        "events" => has_events(alloc, input, gives, true),
        "events-in-place" => has_events(alloc, input, gives, false),
        "borrowed" => are_borrowed(alloc, input, gives),
        "first-character" => is_shown(alloc, VTParser::new(alloc).first_char(input), gives),
        _ => does_hold_alone(alloc, name),
    }
}

// Does the same for a statement that takes no input.
fn does_hold_alone(alloc: Global, name: &str) -> bool {
    match name {
        "failed" => is_failed(alloc),
        "appended" => are_appended(alloc),
        "writable" => are_told(alloc),
        "writable-lists" => are_lists_told(alloc),
        "sorted" => are_sorted(alloc),
        "sinks" => are_taken(alloc),
        "errors" => are_texts(alloc),
        "codes" => are_numbers(),
        "normal-faults" => are_faults_told(alloc),
        "normal-room" => is_room_used(alloc),
        "normal-form" => is_form_told(alloc),
        "streamed-faults" => are_stream_faults_told(alloc),
        "streamed-flush" => is_flush_told(alloc),
        "streamed-refusals" => are_refusals_told(alloc),
        _ => is_passed_on(alloc, name),
    }
}

// Does the same for calls through `Watched`.
fn is_passed_on(alloc: Global, name: &str) -> bool {
    match name {
        "watched-reader" => is_reader_passed_on(),
        "watched-interruption" => is_interruption_told(alloc),
        "watched-writer" => is_writer_passed_on(),
        "watched-errors" => are_errors_passed_on(),
        "watched-prefix" => is_prefix_kept(),
        _ => false,
    }
}
