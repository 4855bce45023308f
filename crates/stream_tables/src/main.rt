//! Checks tables of streams: the meaning of each stream, and the text of that.
//!
//! `stream_tables TABLE..` reads each table, a text file of rows, and prints a line with its name
//! and the count of its rows, and below it a line for each way in which a row differs from the
//! library. The status is 1 if one differs. `docs/DEVELOPING.md` has the form of a row.
//! `stream_tables -` shows the actions of standard input, a line of a row for each.
#![tactic(auto)]

mod appending;
mod asked;
mod asking;
mod borrowing;
mod call;
mod check;
mod errors;
mod events;
mod fault;
mod filtered;
mod firsts;
mod gathered;
mod holding;
mod lengths;
mod limited;
mod line;
mod long;
mod made;
mod noise;
mod normalising;
mod questions;
mod random;
mod reading;
mod recorder;
mod report;
mod row;
mod sinks;
mod spelling;
mod steps;
mod stream;
mod streaming;
mod texts;
mod unescaped;
mod watching;

use crate::check::check_table;
use crate::reading::Reading;
use crate::report::Report;
use std::fmt::Debug;
use std::io::Read;
use std::process::ExitCode;
use std::{env, fs, io};

fn main(rt: HostRuntime) -> io::Result<ExitCode> {
    let mut differences = 0usize;
    for table in env::args(&rt)?.skip(1) {
        let found = if table.as_str() == "-" {
            show_actions(&rt)
        } else {
            check_named(&rt, table.as_str())
        };
        differences = differences.saturating_add(found?);
    }
    Ok(ExitCode::from(u8::from(differences > 0)))
}

// Checks the table of this name, and returns how many differences it prints.
fn check_named(rt: &HostRuntime, table: &str) -> io::Result<usize> {
    let text = fs::read_to_string(rt, table)?;
    let mut report = Report::new(rt.alloc());
    check_table(rt.alloc(), text.as_str(), &mut report);
    print!(rt; "{table}: {} rows\n{}", report.rows, report.lines)?;
    Ok(report.differences)
}

// Prints the actions of standard input. A fault counts as a difference.
fn show_actions(rt: &HostRuntime) -> io::Result<usize> {
    let mut bytes = Vec::new(rt.alloc());
    rt.stdin().read_to_end(&mut bytes)?;
    match Reading::Whole.read(rt.alloc(), &bytes) {
        Ok(actions) => show_all(rt, &actions),
        Err(_) => show_fault(rt),
    }
}

// Says that there are no actions.
fn show_fault(rt: &HostRuntime) -> io::Result<usize> {
    println!(rt; "the parser failed")?;
    Ok(1)
}

// Prints a line of a row for each action.
fn show_all<T: Debug>(rt: &HostRuntime, actions: &[T]) -> io::Result<usize> {
    for action in actions {
        println!(rt; "action  {action:?}")?;
    }
    Ok(0)
}
