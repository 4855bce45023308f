//! Checks tables of values: the results of calls of the values and their codecs.
//!
//! `codec_tables TABLE..` reads each table, and prints a line with its name and the count of its
//! rows. A row is a line `CALL | INPUT | RESULT`: the name of a call, as `calls.rt` has it, its
//! input, and the text of its result. `\xNN` is a byte of an input or a result, and `{TEXT*N}` in
//! an input is the text so many times. Each request for memory is refused in turn, unless the input
//! is long: the call returns the same, or an error of memory. A further field `N` says how many of
//! the requests end in an error, and `some` that at least one does. Empty lines, and lines that
//! begin with `#`, are no rows. A row that differs is printed, with the result of the call, and the
//! status is 1.
#![tactic(auto)]

mod calls;
mod captured;
mod codecs;
mod field;
mod heap;
mod lent;
mod lines;
mod log;
mod pages;
mod painted;
mod paintings;
mod queries;
mod refusals;
mod reused;
mod row;
mod scripted;
mod seen;
mod segments;
mod sixels;
mod typed;
mod words;

use crate::row::Row;
use std::alloc::{AllocError, Global};
use std::process::ExitCode;
use std::{env, fs, io};

fn main(rt: HostRuntime) -> io::Result<ExitCode> {
    let mut tables = 0usize;
    for table in env::args(&rt)?.skip(1) {
        let differs = check_table(&rt, table.as_str())?;
        tables = tables.saturating_add(usize::from(differs));
    }
    Ok(ExitCode::from(u8::from(tables > 0)))
}

// Checks the table of this name, and returns whether a row differs.
fn check_table(rt: &HostRuntime, table: &str) -> io::Result<bool> {
    let text = fs::read_to_string(rt, table)?;
    let mut lines = String::new(rt.alloc());
    let rows = stream_tables(rt.alloc(), text.as_str(), &mut lines)?;
    print!(rt; "{table}: {rows} rows\n{lines}")?;
    Ok(!lines.is_empty())
}

// Appends lines for each row that differs, and returns how many rows there are.
fn stream_tables(alloc: Global, text: &str, lines: &mut String) -> Result<usize, AllocError> {
    let mut rows = 0usize;
    for line in text.lines() {
        if let Some(row) = Row::of(line) {
            rows = rows.saturating_add(1);
            row.check(alloc, lines)?;
        }
    }
    Ok(rows)
}
