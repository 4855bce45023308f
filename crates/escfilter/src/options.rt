//! Reads the program's task from its words.
ghost use Rattle.std.specs.Prelude.{◌≡◌};
ghost use Rattle.escfilter.specs.Settings.{has_names, is_audited};

use crate::failing::{FAILING, Failing};
use crate::named_groups::{ALLOWED, Choice, DENIED};
use crate::settings::Settings;
use crate::values::{apart_of, wrong_value};
use command_line::{Apart, Found, Given, Known, Takes, Wrong, read};
use esc_decode::{ByteOrder, ENCODINGS, order_of, page_of};
use esc_filter::Policy;
use esc_sanitize::FilterOptions;
use std::alloc::Global;

/// The options of the filter, and of the reports on its streams.
#[derive(Clone, Copy)]
pub struct Options<'a> {
    /// The options of the filter.
    pub filter: FilterOptions<Choice<'a>>,
    /// The order of bytes in a stream of UTF-16. The filter gets such a stream as UTF-8.
    pub order: Option<ByteOrder>,
    /// The format of the recordings, if the files are recordings.
    pub recorded: Option<Format>,
    /// Whether events of input lose their texts.
    pub drops_input: bool,
    /// The timing of a typescript.
    pub timing: &'a [u8],
    /// The form of the reports, if there are any.
    pub report: Option<Form>,
    /// Whether events are written.
    pub has_events: bool,
    /// Whether the output is a list of names of files.
    pub is_list: bool,
    /// Whether each name ends with a zero byte, in place of a line feed.
    pub is_null: bool,
    /// The fates that are a failure, if there are any.
    pub fails: Option<Failing>,
}

/// The format of a recording.
#[derive(Clone, Copy)]
pub enum Format {
    /// That of asciinema.
    Cast,
    /// That of ttyrec.
    Frames,
    /// A typescript of script(1), with its timing.
    Typescript,
}

/// The form of a report.
#[derive(Clone, Copy)]
pub enum Form {
    /// Lines of text.
    Text,
    /// An object of JSON.
    Json,
}

/// The kind of a task.
#[derive(Clone, Copy)]
pub enum Kind {
    /// To filter files, or standard input if there is no file.
    Filter,
    /// To print the usage.
    Help,
    /// To print the version.
    Version,
}

/// The place of the output.
#[derive(Clone, Copy)]
pub enum Target<'a> {
    /// Standard output.
    Output,
    /// The file of this name.
    File(&'a str),
    /// Each file that is read. The old file is kept under its name with this suffix, unless the
    /// suffix is empty.
    InPlace(&'a str),
}

/// A task of the program.
#[derive(Drop)]
pub struct Task<'a> {
    /// The kind of the task.
    pub kind: Kind,
    /// The place of the output.
    pub target: Target<'a>,
    /// The options of the filter and of its reports.
    pub options: Options<'a>,
    /// The file of the reports, in place of standard error.
    pub report_to: Option<&'a str>,
    /// The file of the events.
    pub events: Option<&'a str>,
    /// The timing file of a typescript.
    pub timing: Option<&'a str>,
    /// The file of the new timing.
    pub timing_to: Option<&'a str>,
    /// The files to filter.
    pub files: Vec<&'a str>,
    /// The first file that may be meant as the value of the option before it.
    pub apart: Option<Apart<'a>>,
    /// An error message on options that do not go together.
    pub clash: Option<&'static str>,
}

impl<'a> Options<'a> {
    /// Whether omissions get names, for reports or for events.
    pub fn has_names(&self) -> bool
        ensures { result ≡ has_names self.now }
    {
        self.report.is_some() || self.has_events
    }
}

const KNOWN: &[Known] = &[
    Known {
        name: "--allow",
        letter: "",
        takes: Takes::SomeOf("policy or group", ALLOWED),
    },
    Known {
        name: "--deny",
        letter: "",
        takes: Takes::SomeOf("group", DENIED),
    },
    Known {
        name: "--links",
        letter: "",
        takes: Takes::OneOf("scheme", &[]),
    },
    Known {
        name: "--c1",
        letter: "",
        takes: Takes::OneOf("way", &["replace", "obey"]),
    },
    Known {
        name: "--encoding",
        letter: "",
        takes: Takes::OneOf("name", ENCODINGS),
    },
    Known {
        name: "--limit",
        letter: "",
        takes: Takes::Size,
    },
    Known {
        name: "--lines",
        letter: "",
        takes: Takes::Nothing,
    },
    Known {
        name: "--whole",
        letter: "",
        takes: Takes::Nothing,
    },
    Known {
        name: "--line-reset",
        letter: "",
        takes: Takes::Nothing,
    },
    Known {
        name: "--unicode",
        letter: "",
        takes: Takes::OneOf("way", &["keep", "join", "show", "drop"]),
    },
    Known {
        name: "--returns",
        letter: "",
        takes: Takes::OneOf("way", &["keep", "show", "drop"]),
    },
    Known {
        name: "--show",
        letter: "",
        takes: Takes::Maybe("form", &["escaped", "color"]),
    },
    Known {
        name: "--collapse",
        letter: "",
        takes: Takes::Maybe("rows", &[]),
    },
    Known {
        name: "--columns",
        letter: "",
        takes: Takes::OneOf("number", &[]),
    },
    Known {
        name: "--cast",
        letter: "",
        takes: Takes::Nothing,
    },
    Known {
        name: "--drop-input",
        letter: "",
        takes: Takes::Nothing,
    },
    Known {
        name: "--ttyrec",
        letter: "",
        takes: Takes::Nothing,
    },
    Known {
        name: "--timing",
        letter: "",
        takes: Takes::OneOf("file", &[]),
    },
    Known {
        name: "--timing-to",
        letter: "",
        takes: Takes::OneOf("file", &[]),
    },
    Known {
        name: "--report",
        letter: "",
        takes: Takes::Maybe("form", &["text", "json"]),
    },
    Known {
        name: "--report-to",
        letter: "",
        takes: Takes::OneOf("file", &[]),
    },
    Known {
        name: "--events",
        letter: "",
        takes: Takes::OneOf("file", &[]),
    },
    Known {
        name: "--fail",
        letter: "",
        takes: Takes::MaybeSome("kind", FAILING),
    },
    Known {
        name: "--list",
        letter: "",
        takes: Takes::Nothing,
    },
    Known {
        name: "--null",
        letter: "-z",
        takes: Takes::Nothing,
    },
    Known::OUTPUT,
    Known {
        name: "--in-place",
        letter: "-i",
        takes: Takes::Maybe("suffix", &[]),
    },
    Known::HELP,
    Known::VERSION,
];

impl<'a> Task<'a> {
    /// The task in these words, the program's arguments. If an option comes twice, the last one
    /// counts.
    pub fn of(alloc: Global, words: &'a [String]) -> Result<Task<'a>, Wrong<'a>> {
        match read(alloc, KNOWN, words) {
            Ok(found) => match wrong_value(&found.options) {
                Some(wrong) => Err(wrong),
                None => Ok(Task::from_found(found)),
            },
            Err(wrong) => Err(wrong),
        }
    }

    // The task of these options and files.
    fn from_found(found: Found<'a>) -> Task<'a> {
        let mut asked = Asked::nothing(default_policy(&found.options));
        for given in &found.options {
            asked.take(given);
        }
        let clash = asked.clash(&found.files);
        Task {
            kind: asked.kind,
            target: asked.target(),
            options: asked.options(),
            report_to: asked.report_to,
            events: asked.events,
            timing: asked.timing(),
            timing_to: asked.timing_to(),
            files: found.files,
            apart: apart_of(&found.options),
            clash,
        }
    }
}

// The values of the options.
#[derive(Drop)]
struct Asked<'a> {
    kind: Kind,
    target: Target<'a>,
    settings: Settings<'a>,
    order: Option<ByteOrder>,
    drops_input: bool,
    timing: Option<&'a str>,
    timing_to: Option<&'a str>,
    report: Option<Form>,
    report_to: Option<&'a str>,
    events: Option<&'a str>,
    is_list: bool,
    is_null: bool,
    fails: Option<Failing>,
}

impl<'a> Asked<'a> {
    // The values without any option, with this default policy.
    fn nothing(policy: Policy) -> Asked<'a> {
        Asked {
            kind: Kind::Filter,
            target: Target::Output,
            settings: Settings::nothing(policy),
            order: None,
            drops_input: false,
            timing: None,
            timing_to: None,
            report: None,
            report_to: None,
            events: None,
            is_list: false,
            is_null: false,
            fails: None,
        }
    }

    // Takes one more option.
    fn take(&mut self, given: &Given<'a>) {
        match given.name {
            "--encoding" => {
                self.settings.page = page_of(given.word);
                self.order = order_of(given.word);
            }
            "--drop-input" => self.drops_input = true,
            "--timing" => {
                self.settings.recorded = Some(Format::Typescript);
                self.timing = Some(given.word);
            }
            "--timing-to" => self.timing_to = Some(given.word),
            "--report" => self.report = Some(form_of(given.word)),
            "--report-to" => self.report_to = Some(given.word),
            "--events" => self.events = Some(given.word),
            "--fail" => self.fails = Some(Failing::named(given.some)),
            "--list" => self.is_list = true,
            "--null" => self.is_null = true,
            "--output" => self.target = Target::File(given.word),
            "--in-place" => self.target = Target::InPlace(given.word),
            "--help" => self.kind = Kind::Help,
            "--version" => self.kind = Kind::Version,
            _ => self.settings.take(given),
        }
    }

    // The options of the filter and of its reports.
    fn options(&self) -> Options<'a>
        ensures { result.filter.audits ≡ is_audited result }
    {
        let report = self.report();
        let has_names = report.is_some() || self.events.is_some();
        let audits = has_names || self.is_list || self.fails.is_some();
        Options {
            filter: self.settings.filter_options(audits),
            order: self.order,
            recorded: self.settings.recorded,
            drops_input: self.drops_input,
            timing: b"",
            report,
            has_events: self.events.is_some(),
            is_list: self.is_list,
            is_null: self.is_null,
            fails: self.fails,
        }
    }

    // An error message on options that do not go together, or not with these files. The rows of
    // --collapse have no times, so it is not for recordings.
    fn clash(&self, files: &[&str]) -> Option<&'static str> {
        match self.settings.rows {
            Some(_) if self.settings.is_recording() => Some("--collapse is not for recordings"),
            None if self.settings.columns.is_some() => Some("--columns wants --collapse"),
            _ => match self.settings.recorded {
                Some(Format::Typescript) => self.encoding_clash().or(self.timing_clash(files)),
                Some(Format::Frames) => self.encoding_clash().or(self.untimed_clash()),
                _ => self.untimed_clash(),
            },
        }
    }

    // The same for the bytes of a recording, which are read as UTF-16 nowhere.
    fn encoding_clash(&self) -> Option<&'static str> {
        match self.order {
            Some(_) => Some("--encoding utf-16 is not for --ttyrec or --timing"),
            None => None,
        }
    }

    // The same for what is no typescript. Its option is the last one of its kind.
    fn untimed_clash(&self) -> Option<&'static str> {
        match (self.timing_to, self.timing, self.settings.recorded) {
            (None, _, _) => None,
            (_, Some(_), Some(Format::Cast)) => {
                Some("--timing-to wants --timing, but --cast follows it")
            }
            (_, Some(_), Some(Format::Frames)) => {
                Some("--timing-to wants --timing, but --ttyrec follows it")
            }
            _ => Some("--timing-to wants --timing"),
        }
    }

    // The same for a typescript.
    fn timing_clash(&self, files: &[&str]) -> Option<&'static str> {
        if files.len() > 1 {
            Some("--timing is that of one FILE")
        } else if is_input(self.timing.unwrap_or("")) && are_input(files) {
            Some("--timing and FILE are both standard input")
        } else if self.timing_to.is_none() && !self.is_list {
            Some("--timing wants --timing-to, for the new timing")
        } else {
            None
        }
    }

    // The place of the output. A list changes no file that is read.
    fn target(&self) -> Target<'a> {
        match self.target {
            Target::InPlace(_) if self.is_list => Target::Output,
            target => target,
        }
    }

    // The timing file of a typescript.
    fn timing(&self) -> Option<&'a str> {
        match self.settings.recorded {
            Some(Format::Typescript) => self.timing,
            _ => None,
        }
    }

    // The file of the new timing. A list has none.
    fn timing_to(&self) -> Option<&'a str> {
        if self.is_list { None } else { self.timing_to }
    }

    // The form of the reports. A file for them without a form has lines of text.
    fn report(&self) -> Option<Form> {
        match (self.report, self.report_to) {
            (None, Some(_)) => Some(Form::Text),
            (report, _) => report,
        }
    }
}

// Whether the input is standard input. There is at most one file.
fn are_input(files: &[&str]) -> bool {
    match files {
        [] => true,
        [file, ..] => is_input(file),
    }
}

// Whether a file of this name is standard input.
fn is_input(name: &str) -> bool {
    name == "-"
}

// The policy without --allow. Recorded programs use the screen.
fn default_policy(options: &[Given<'_>]) -> Policy {
    for given in options {
        match given.name {
            "--cast" | "--ttyrec" | "--timing" => return Policy::Screen,
            _ => {}
        }
    }
    Policy::Color
}

// The form of this name in the table: text if the name is empty.
fn form_of(name: &str) -> Form {
    match name {
        "json" => Form::Json,
        _ => Form::Text,
    }
}
