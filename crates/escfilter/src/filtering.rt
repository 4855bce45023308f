//! Filters streams to one output, with a report on each.
ghost use Rattle.std.specs.Prelude.{◌≡◌, ℕ, List, OnOk, false, true};
ghost use Rattle.esc_account.specs.Ledgers.{IsCounted};
ghost use Rattle.esc_decode.specs.Decodings.{decoded_stream};
ghost use Rattle.escfilter.specs.Fates.{IsComplete};
ghost use Rattle.escfilter.specs.Reports.{HasAudited, IsReported, IsReportedOf, is_json};

use crate::PROGRAM;
use crate::cast::Lines;
use crate::events::Events;
use crate::frames::Frames;
use crate::json::tell_json;
use crate::laws::choices_admit_less;
use crate::listing::{Names, Passage, write_name};
use crate::named_groups::Choice;
use crate::options::{Form, Format, Options};
use crate::recording::{Cut, Fault, Recording, filter_recording};
use crate::report::tell_text;
use crate::rows::Rows;
use crate::script::Script;
use crate::scripted::{Scripted, Timed};
use crate::told::Told;
use command_line::{Ended, ErrorCapture, Place, Reason, Work, ended_by, unwritten};
use esc_account::{Account, Book};
use esc_decode::{ByteOrder, Input};
use esc_filter::{Admit, FilterError, StreamFilter};
use esc_normal::Watched;
use esc_sanitize::{Auditor, FilterOptions, Sanitized, sanitize_stream, sanitizing};
use std::alloc::Global;
use std::io::{Read, Write};

/// A filter of streams to one output.
#[derive(Drop)]
pub struct Filtering<'a, W, E> {
    pub alloc: Global,
    pub options: Options<'a>,
    /// The name of the output.
    pub output_name: &'a str,
    pub output: &'a mut W,
    /// The form of the names in a list.
    pub names: Names,
    /// The writer of error messages.
    pub faults: E,
    /// The reports, the events and the timing.
    pub told: &'a mut Told,
}

// The result of filtering a stream.
#[derive(Drop)]
struct Filtered {
    // the error, if there was one
    outcome: Result<(), FilterError>,
    // the system's reason for an error of the output
    refusal: Option<Reason>,
    // whether some byte had a fate that is a failure
    is_failure: bool,
    // the writer of events
    events: Option<Events>,
}

// The outcome of filtering a recording.
#[derive(Clone, Copy)]
struct Outcome {
    // the place of a cut, or the error, if there was one
    cut: Result<Option<Cut>, Fault>,
    // the system's reason for an error
    reason: Option<Reason>,
}

impl<'a, W: Write, E: Write> Work for Filtering<'a, W, E> {
    fn take<R: Read + Drop>(&mut self, name: &str, input: R) -> Ended {
        let events = started(self.told.events.take(), name);
        let (ended, is_failure, events) = match self.options.recorded {
            None => self.take_stream(name, input, events),
            Some(format) => self.take_recording(name, format, input, events),
        };
        self.told.events = stopped(events);
        if self.options.is_list && is_failure {
            self.list(name, ended)
        } else {
            ended
        }
    }
}

impl<'a, W: Write, E: Write> Filtering<'a, W, E> {
    // Filters a stream of this name. It returns the outcome, whether some byte had a fate that is a
    // failure, and the writer of events.
    fn take_stream<R: Read + Drop>(
        &mut self,
        name: &str,
        input: R,
        events: Option<Events>,
    ) -> (Ended, bool, Option<Events>) {
        let input = Input::new(self.alloc, self.options.order, input);
        let mut reader = Watched::new(ErrorCapture::new(input));
        let Filtered {
            outcome,
            refusal,
            is_failure,
            events,
        } = self.filter_stream(name, events, &mut reader);
        let reason = reader.into_inner().reason().or(refusal);
        let place = match outcome {
            Err(FilterError::Write) => Place::Output(self.output_name),
            _ => Place::Input(name),
        };
        let ended = ended_by(PROGRAM, outcome, place, reason, &mut self.faults);
        (ended, is_failure, events)
    }

    // Filters the bytes of this reader, and reports on them.
    fn filter_stream<R: Read>(
        &mut self,
        name: &str,
        events: Option<Events>,
        reader: &mut Watched<R>,
    ) -> Filtered
        ensures told { OnOk result.outcome (IsReportedOf R.Read self.old.options
            self.old.told.now.gate result.is_failure self.new.told.now.gate
            ((self.new.faults ≡ self.old.faults)
            × (self.new.told.now.report ≡ self.old.told.now.report)) reader) }
    {
        choices_admit_less::<Global>();
        let rows = Rows::new(self.alloc, self.options, events);
        let mut writer = Watched::new(ErrorCapture::new(Passage {
            output: &mut *self.output,
            is_open: !self.options.is_list,
        }));
        let options = self.options.filter;
        let Sanitized { outcome, auditor } = sanitize_stream(
            self.alloc,
            options,
            rows,
            reader,
            &mut writer,
        );
        let refusal = writer.into_inner().reason();
        let is_failure = self.report(name, &auditor, outcome.is_ok());
        Filtered {
            outcome,
            refusal,
            is_failure,
            events: events_of(auditor),
        }
    }

    // Filters a recording, and returns the same as `take_stream`.
    fn take_recording<R: Read + Drop>(
        &mut self,
        name: &str,
        format: Format,
        input: R,
        events: Option<Events>,
    ) -> (Ended, bool, Option<Events>) {
        let rows = Rows::new(self.alloc, self.options, events);
        let (read, auditor) = self.sanitize_recording(self.options.filter, rows, format, input);
        self.end_recording(name, read, auditor)
    }

    // Filters a recording by these options with this book, and returns the outcome, and the account
    // of the stream of its text.
    fn sanitize_recording<P: Admit<Global> + Copy + Drop, B: Book<Global> + Drop, R: Read + Drop>(
        &mut self,
        options: FilterOptions<P>,
        book: B,
        format: Format,
        input: R,
    ) -> (Outcome, Auditor<P, B>) {
        let filter = sanitizing(self.alloc, options, book);
        let (read, filter) = self.read_by(format, filter, input);
        (read, filter.into_auditor())
    }

    // Filters a recording by this filter of its text, and returns the outcome, and the filter.
    fn read_by<F: StreamFilter<Global> + Drop, R: Read + Drop>(
        &mut self,
        format: Format,
        feeding: F,
        input: R,
    ) -> (Outcome, F) {
        match format {
            Format::Cast => self.read_cast(feeding, input),
            Format::Frames => self.read_frames(feeding, input),
            Format::Typescript => self.read_script(feeding, input),
        }
    }

    // Filters a recording of asciinema, and returns the same.
    fn read_cast<F: StreamFilter<Global> + Drop, R: Read + Drop>(
        &mut self,
        feeding: F,
        input: R,
    ) -> (Outcome, F) {
        let mut lines = Lines::new(self.alloc, feeding, self.options);
        let order = self.options.order;
        let outcome = self.read_recording(&mut lines, order, input);
        (outcome, lines.into_feeding())
    }

    // Filters a recording of ttyrec, and returns the same.
    fn read_frames<F: StreamFilter<Global> + Drop, R: Read + Drop>(
        &mut self,
        feeding: F,
        input: R,
    ) -> (Outcome, F) {
        let mut frames = Frames::new(self.alloc, feeding);
        let outcome = self.read_recording(&mut frames, None, input);
        (outcome, frames.into_feeding())
    }

    // Filters a typescript, and returns the same.
    fn read_script<F: StreamFilter<Global> + Drop, R: Read + Drop>(
        &mut self,
        feeding: F,
        input: R,
    ) -> (Outcome, F) {
        let timing = self.told.timing.take();
        let script = Script::new(self.alloc, self.options.timing, timing);
        let (outcome, feeding, script) = self.read_timed(feeding, script, input);
        self.told.timing = script.into_timing();
        (outcome, feeding)
    }

    // Filters a typescript by this timing, and returns the outcome, the filter and the timing.
    fn read_timed<F: StreamFilter<Global> + Drop, T: Timed, R: Read + Drop>(
        &mut self,
        feeding: F,
        timing: T,
        input: R,
    ) -> (Outcome, F, T) {
        let mut scripted = Scripted::new(feeding, timing);
        let outcome = self.read_recording(&mut scripted, None, input);
        let (timing, feeding) = scripted.into_parts();
        (outcome, feeding, timing)
    }

    // Reads a recording to its end.
    fn read_recording<T: Recording, R: Read + Drop>(
        &mut self,
        recording: &mut T,
        order: Option<ByteOrder>,
        input: R,
    ) -> Outcome {
        let input = Input::new(self.alloc, order, input);
        let mut reader = Watched::new(ErrorCapture::new(input));
        let mut writer = Watched::new(ErrorCapture::new(Passage {
            output: &mut *self.output,
            is_open: !self.options.is_list,
        }));
        let cut = filter_recording(self.alloc, recording, &mut reader, &mut writer);
        let reason = reader
            .into_inner()
            .reason()
            .or(writer.into_inner().reason());
        Outcome { cut, reason }
    }

    // Reports on a recording of this name, and prints a line on its cut or its error. It returns
    // the same as `take_stream`.
    fn end_recording(
        &mut self,
        name: &str,
        read: Outcome,
        auditor: Auditor<Choice<'_>, Rows<'_>>,
    ) -> (Ended, bool, Option<Events>) {
        let is_failure = self.report(name, &auditor, read.cut.is_ok());
        let place = match read.cut {
            Err(fault) if fault.is_of_output() => Place::Output(self.output_name),
            _ => Place::Input(name),
        };
        let outcome = match read.cut {
            Ok(Some(cut)) => {
                command_line::tell(PROGRAM, name, cut, &mut self.faults);
                Ok(())
            }
            Ok(None) => Ok(()),
            Err(fault) => Err(fault),
        };
        let ended = ended_by(PROGRAM, outcome, place, read.reason, &mut self.faults);
        (ended, is_failure, events_of(auditor))
    }

    // Writes the name of a stream. It returns this outcome, or that of a failed write.
    fn list(&mut self, name: &str, ended: Ended) -> Ended {
        match write_name(name, self.names, self.output) {
            Ok(()) => ended,
            Err(error) => {
                let reason = Reason::of(&error);
                unwritten(PROGRAM, self.output_name, reason, &mut self.faults)
            }
        }
    }

    // Reports on the stream of this name if the options ask for that. It returns whether some byte
    // had a fate that is a failure.
    fn report(
        &mut self,
        name: &str,
        auditor: &Auditor<Choice<'_>, Rows<'_>>,
        is_complete: bool,
    ) -> bool
        ensures told { (s : List ℕ) → HasAudited self.old.options auditor.now s
            → IsCounted (decoded_stream self.old.options.filter.encoding s)
            → self.old.options.filter.audits ≡ true → IsReported self.old.options
            self.old.told.now.gate s result self.new.told.now.gate
            ((self.new.faults ≡ self.old.faults)
            × (self.new.told.now.report ≡ self.old.told.now.report)) }
    {
        let Some((account, rows)) = auditor.account() else {
            return false;
        };
        let form = self.options.report;
        let mut report = self.told.report.take();
        if let Some(aside) = &mut report {
            tell(form, account, rows, name, is_complete, aside);
        }
        self.told.report = report;
        self.told.gate.take(account.sums)
    }
}

// Writes a report on the stream of this name if there is a form for one.
fn tell<E: Write>(
    form: Option<Form>,
    account: Account,
    rows: &Rows<'_>,
    name: &str,
    is_complete: bool,
    writer: &mut E,
)
    ensures silent { IsComplete account.sums → is_json form ≡ false → writer.new ≡ writer.old }
{
    match form {
        Some(Form::Text) => tell_text(account, rows, name, writer),
        Some(Form::Json) => {
            tell_json(account, rows, name, is_complete, writer);
            let _ = writer.flush();
        }
        None => {}
    }
}

// The writer of events, at the beginning of the stream of this name.
fn started(events: Option<Events>, name: &str) -> Option<Events> {
    match events {
        Some(mut events) => {
            events.start(name);
            Some(events)
        }
        None => None,
    }
}

// The writer of events, at the end of a stream.
fn stopped(events: Option<Events>) -> Option<Events> {
    match events {
        Some(mut events) => {
            events.end();
            Some(events)
        }
        None => None,
    }
}

// The writer of events that this auditor has.
fn events_of(auditor: Auditor<Choice<'_>, Rows<'_>>) -> Option<Events> {
    match auditor.into_book() {
        Some(rows) => rows.into_events(),
        None => None,
    }
}
