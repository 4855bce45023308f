//! The reports, the events and the timing beside the output.
ghost use Rattle.std.specs.Prelude.{◌≡◌, ◌≢◌, true};
ghost use Rattle.escfilter.specs.Losses.{aside_in, is_lost};

use crate::aside::Aside;
use crate::events::Events;
use crate::failing::{Failing, Gate};
use crate::options::{Options, Target, Task};
use crate::{NEW, PROGRAM};
use atomic_file::{Output, Stream, are_one, is_kept_as};
use command_line::{DONE, FAULT, unwritable};
use output_file::is_output;
use std::fs::metadata;

// The name of standard error.
const ERRORS: &str = "standard error";

// The error message on a file for reports, events or timing that is another file of the task.
const IS_TAKEN: &str = "it is an input, or an output already";

/// The reports, the events and the timing beside the output.
#[derive(Drop)]
pub struct Told {
    /// The writer of reports.
    pub report: Option<Aside>,
    /// The writer of events.
    pub events: Option<Events>,
    /// The file of the new timing of a typescript.
    pub timing: Option<Aside>,
    /// Whether some byte had a fate that is a failure.
    pub gate: Gate,
}

impl Told {
    /// The state before the first stream of this task. The error is the status if a file cannot be
    /// written; a line on standard error names the reason.
    pub fn of(rt: &HostRuntime, task: &Task<'_>) -> Result<Told, u8> {
        let mut told = Told {
            report: None,
            events: None,
            timing: None,
            gate: Gate::new(task.options.fails.unwrap_or(Failing::LESS)),
        };
        match told.open(rt, task) {
            Ok(()) => Ok(told),
            Err(status) => {
                told.give_up(rt);
                Err(status)
            }
        }
    }

    // Opens the files that the task asks for.
    fn open(&mut self, rt: &HostRuntime, task: &Task<'_>) -> Result<(), u8> {
        self.report = opened_report(rt, task)?;
        self.events = opened_events(rt, task)?;
        self.timing = opened(rt, task, task.timing_to)?;
        Ok(())
    }

    // Removes each file.
    fn give_up(self, rt: &HostRuntime) {
        let Told {
            report,
            events,
            timing,
            gate: _,
        } = self;
        give_up(rt, report);
        give_up(rt, aside_of(events));
        give_up(rt, timing);
    }

    /// Puts each file in its place, and returns the status of the program: this one, or another if
    /// a byte had a fate that is a failure, or a report or an event could not be written.
    pub fn end(self, rt: &HostRuntime, task: &Task<'_>, status: u8) -> u8
        ensures report { is_lost self.report ≡ true → result ≡ 1 }
        ensures events { is_lost (aside_in self.events) ≡ true → result ≡ 1 }
        ensures failed { status ≢ 0 → result ≢ 0 }
    {
        let Told {
            report,
            events,
            timing,
            gate,
        } = self;
        let status = end_timing(rt, task, timing, status);
        let status = with_failures(task.options, gate, status);
        let status = ended(rt, task.report_to, report, status);
        ended(rt, task.events, aside_of(events), status)
    }
}

// The file of events.
fn aside_of(events: Option<Events>) -> Option<Aside>
    ensures { result ≡ aside_in events }
{
    match events {
        Some(events) => Some(events.into_aside()),
        None => None,
    }
}

// Removes a file if there is one.
fn give_up(rt: &HostRuntime, aside: Option<Aside>) {
    if let Some(aside) = aside {
        aside.give_up(rt);
    }
}

// The writer of reports if the task asks for them: to standard error unless it names a file.
fn opened_report(rt: &HostRuntime, task: &Task<'_>) -> Result<Option<Aside>, u8> {
    match (task.options.report, task.report_to) {
        (Some(_), None) => {
            let output = Output::Stream(Stream::Error(rt.stderr()));
            Ok(Some(Aside::new(rt.alloc(), output)))
        }
        (_, name) => opened(rt, task, name),
    }
}

// The writer of events if the task asks for them.
fn opened_events(rt: &HostRuntime, task: &Task<'_>) -> Result<Option<Events>, u8> {
    match opened(rt, task, task.events) {
        Ok(Some(aside)) => Ok(Some(Events::new(rt.alloc(), aside))),
        Ok(None) => Ok(None),
        Err(status) => Err(status),
    }
}

// Puts the new timing in its place if the status is 0, and removes it otherwise. It returns the
// status, or 1 after an error.
fn end_timing(rt: &HostRuntime, task: &Task<'_>, timing: Option<Aside>, status: u8) -> u8
    ensures { status ≢ 0 → result ≡ status }
{
    match status {
        DONE => ended(rt, task.timing_to, timing, status),
        _ => {
            give_up(rt, timing);
            status
        }
    }
}

// The status, or 3 if it is 0 and some byte had a fate that is a failure by the options.
fn with_failures(options: Options<'_>, gate: Gate, status: u8) -> u8
    ensures { status ≢ 0 → result ≡ status }
{
    match options.fails {
        Some(_) => gate.status(status),
        None => status,
    }
}

// A new file of this name beside the output of the task, or none without a name.
fn opened(rt: &HostRuntime, task: &Task<'_>, name: Option<&str>) -> Result<Option<Aside>, u8> {
    let Some(name) = name else {
        return Ok(None);
    };
    if is_taken(rt, task, name) {
        return Err(unwritable(PROGRAM, name, IS_TAKEN, &mut rt.stderr()));
    }
    match Output::of(rt, name, NEW) {
        Ok(output) => Ok(Some(Aside::new(rt.alloc(), output))),
        Err(fault) => Err(unwritable(PROGRAM, name, fault, &mut rt.stderr())),
    }
}

// Whether the file of this name is an input of the task, or another file that it writes.
fn is_taken(rt: &HostRuntime, task: &Task<'_>, name: &str) -> bool {
    for file in &task.files {
        if are_one(rt, *file, name) {
            return true;
        }
    }
    is_named(rt, task.timing, name) || is_twice(rt, task, name) || is_output_of(rt, task, name)
}

// Whether the first name, if there is one, names the same file as the second.
fn is_named(rt: &HostRuntime, one: Option<&str>, name: &str) -> bool {
    match one {
        Some(one) => are_one(rt, one, name),
        None => false,
    }
}

// Whether two of reports, events and a timing go to the file of this name.
fn is_twice(rt: &HostRuntime, task: &Task<'_>, name: &str) -> bool {
    let report = is_named(rt, task.report_to, name);
    let events = is_named(rt, task.events, name);
    let timing = is_named(rt, task.timing_to, name);
    (report && events) || (report && timing) || (events && timing)
}

// Whether the output goes to the file of this name, or what was in its place is kept there.
fn is_output_of(rt: &HostRuntime, task: &Task<'_>, name: &str) -> bool {
    match task.target {
        Target::Output => is_output(rt, metadata(rt, name)),
        Target::File(output) => are_one(rt, output, name),
        Target::InPlace("") => false,
        Target::InPlace(suffix) => is_kept(rt, &task.files, suffix, name),
    }
}

// Whether one of these files is kept under this name once another, by its suffix, takes its place.
fn is_kept(rt: &HostRuntime, files: &[&str], suffix: &str, name: &str) -> bool {
    for file in files {
        if is_kept_as(rt, *file, suffix, name) {
            return true;
        }
    }
    false
}

// Puts a file in its place if there is one. It returns the status, or 1 after an error. Standard
// error is the one file without a name.
fn ended(rt: &HostRuntime, name: Option<&str>, aside: Option<Aside>, status: u8) -> u8
    ensures lost { is_lost aside ≡ true → result ≡ 1 }
    ensures fault { status ≡ 1 → result ≡ 1 }
    ensures failed { status ≢ 0 → result ≢ 0 }
{
    let Some(aside) = aside else {
        return status;
    };
    match aside.end(rt) {
        Ok(()) => status,
        Err(fault) => {
            let name = name.unwrap_or(ERRORS);
            unwritable(PROGRAM, name, fault, &mut rt.stderr());
            FAULT
        }
    }
}
