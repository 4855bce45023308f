//! The task that the program's words ask for.

use crate::kept::unless;
use command_line::{Found, Given, Known, Takes, Wrong, read};
use dump_time::micros_in;
use std::alloc::Global;

/// Says how a screen is written.
#[derive(Clone, Copy, PartialEq, Eq)]
pub enum Form {
    /// As rows of text.
    Text,
    /// As rows of text with the sequences that make their looks.
    Color,
    /// As HTML.
    Html,
    /// As a picture.
    Svg,
    /// As an object of JSON.
    Json,
}

/// Says how many columns and rows a screen has.
#[derive(Clone, Copy, PartialEq, Eq)]
pub struct Size {
    /// The columns.
    pub columns: u16,
    /// The rows.
    pub rows: u16,
}

/// Says how streams are shown.
#[derive(Clone, Copy)]
pub struct Options {
    /// Says how a screen is written.
    pub form: Form,
    /// The number of columns and rows that it has, if that is given.
    pub size: Option<Size>,
    /// Says whether the lines that a terminal leaves are written, and not its screen alone.
    pub is_log: bool,
    /// Says whether a line feed goes to the first column too, as in a file of text.
    pub has_new_lines: bool,
    /// Says whether a file is a recording.
    pub is_cast: bool,
    /// The time of a recording at which its screen is shown, in microseconds; at its end, if there
    /// is none.
    pub at: Option<u64>,
    /// The microseconds between the screens of a recording that are shown; one screen alone is
    /// shown, if there is none.
    pub every: Option<u64>,
}

/// The work of the program.
#[derive(Clone, Copy)]
pub enum Kind {
    /// It shows files, or standard input if there is none.
    Show,
    /// It compares the screens of two.
    Compare,
    /// It prints its help.
    Help,
    /// It prints its version.
    Version,
}

/// The task that the program's words ask for.
#[derive(Drop)]
pub struct Task<'a> {
    /// The work of the program.
    pub kind: Kind,
    /// Says how streams are shown.
    pub options: Options,
    /// The file that the output goes to; standard output, if there is none.
    pub output: Option<&'a str>,
    /// The files.
    pub files: Vec<&'a str>,
}

/// The size of a screen if none is given.
pub const DEFAULT_SIZE: Size = Size {
    columns: 80,
    rows: 24,
};

// The most columns, and the most rows.
const MOST: u16 = 1000;

const KNOWN: &[Known] = &[
    Known {
        name: "--size",
        letter: "",
        takes: Takes::OneOf("size of a screen, as 80x24", &[]),
    },
    Known {
        name: "--log",
        letter: "",
        takes: Takes::Nothing,
    },
    Known {
        name: "--newline",
        letter: "",
        takes: Takes::Nothing,
    },
    Known {
        name: "--color",
        letter: "",
        takes: Takes::Nothing,
    },
    Known {
        name: "--html",
        letter: "",
        takes: Takes::Nothing,
    },
    Known {
        name: "--svg",
        letter: "",
        takes: Takes::Nothing,
    },
    Known {
        name: "--json",
        letter: "",
        takes: Takes::Nothing,
    },
    Known {
        name: "--cast",
        letter: "",
        takes: Takes::Nothing,
    },
    Known {
        name: "--at",
        letter: "",
        takes: Takes::OneOf("time in seconds, as 12.5", &[]),
    },
    Known {
        name: "--every",
        letter: "",
        takes: Takes::OneOf("time in seconds, as 0.5", &[]),
    },
    Known {
        name: "--diff",
        letter: "",
        takes: Takes::Nothing,
    },
    Known::OUTPUT,
    Known::HELP,
    Known::VERSION,
];

impl Size {
    /// Returns the size that a word names: columns, `x` and rows, from 1 to 1000 each.
    pub fn of(word: &str) -> Option<Size> {
        let (columns, rows) = word.split_once('x')?;
        Some(Size {
            columns: count_of(columns)?,
            rows: count_of(rows)?,
        })
    }

    /// Returns the size that a word of a recording names: columns, `x` and rows, but 1 at least and
    /// 1000 at most of each.
    pub fn limited(word: &str) -> Option<Size> {
        let (columns, rows) = word.split_once('x')?;
        Some(Size::within(number_of(columns)?, number_of(rows)?))
    }

    /// Returns the size of so many columns and rows, but 1 at least and 1000 at most of each.
    pub fn within(columns: u64, rows: u64) -> Size {
        Size {
            columns: limited(columns),
            rows: limited(rows),
        }
    }
}

// Returns how many columns or rows a word names.
fn count_of(word: &str) -> Option<u16> {
    match word.parse::<u16>() {
        Ok(count) if 0 < count && count <= MOST => Some(count),
        _ => None,
    }
}

// Returns the number that a word names.
fn number_of(word: &str) -> Option<u64> {
    word.parse::<u64>().ok()
}

// Returns this number, but 1 at least and 1000 at most.
fn limited(count: u64) -> u16 {
    if count < 1 {
        1
    } else if count < 1000 {
        count as u16
    } else {
        MOST
    }
}

impl Options {
    // Takes --log: an object of JSON, and a picture, are of a screen alone.
    fn take_log(&mut self) {
        self.is_log = true;
        self.every = None;
        if self.form == Form::Json || self.form == Form::Svg {
            self.form = Form::Text;
        }
    }

    // Takes --at.
    fn take_at(&mut self, time: u64) {
        self.is_cast = true;
        self.at = Some(time);
    }

    // Takes --every: the lines of a recording come once, and a picture is of one screen.
    fn take_every(&mut self, micros: u64) {
        self.is_cast = true;
        self.is_log = false;
        self.every = Some(micros);
        if self.form == Form::Svg {
            self.form = Form::Text;
        }
    }

    // Takes --diff: one screen of each stream is compared.
    fn take_diff(&mut self) {
        self.is_log = false;
        self.every = None;
    }

    // Takes --svg.
    fn take_svg(&mut self) {
        self.is_log = false;
        self.every = None;
        self.form = Form::Svg;
    }

    // Takes --json.
    fn take_json(&mut self) {
        self.is_log = false;
        self.form = Form::Json;
    }
}

impl<'a> Task<'a> {
    /// Returns the task that these words, the program's arguments, name. If an option is given
    /// twice, the last counts, and so does the last of the forms.
    pub fn of(alloc: Global, words: &'a [String]) -> Result<Task<'a>, Wrong<'a>> {
        match read(alloc, KNOWN, words) {
            Ok(found) => Task::from_found(found),
            Err(wrong) => Err(wrong),
        }
    }

    // Returns the task that these options and files name.
    fn from_found(found: Found<'a>) -> Result<Task<'a>, Wrong<'a>> {
        let mut task = Task {
            kind: Kind::Show,
            options: Options {
                form: Form::Text,
                size: None,
                is_log: false,
                has_new_lines: false,
                is_cast: false,
                at: None,
                every: None,
            },
            output: None,
            files: found.files,
        };
        let done = task.take_all(&found.options);
        unless(done, task)
    }

    // Takes each of these options, and looks whether the files fit them.
    fn take_all(&mut self, options: &[Given<'a>]) -> Result<(), Wrong<'a>> {
        for given in options {
            self.take(*given)?;
        }
        match self.kind {
            Kind::Compare => {
                self.options.take_diff();
                are_two(&self.files)
            }
            Kind::Show if self.options.form == Form::Svg => is_one(&self.files),
            Kind::Show | Kind::Help | Kind::Version => Ok(()),
        }
    }

    // Takes an option.
    fn take(&mut self, given: Given<'a>) -> Result<(), Wrong<'a>> {
        let options = &mut self.options;
        match asked_by(given.name) {
            Asked::Size => options.size = Some(size_named(given.word)?),
            Asked::Log => options.take_log(),
            Asked::NewLines => options.has_new_lines = true,
            Asked::Form(form) => options.form = form,
            Asked::Svg => options.take_svg(),
            Asked::Json => options.take_json(),
            Asked::Cast => options.is_cast = true,
            Asked::At => options.take_at(time_named(given.word)?),
            Asked::Every => options.take_every(stretch_named(given.word)?),
            Asked::Output => self.output = Some(given.word),
            Asked::Task(kind) => self.kind = kind,
            Asked::Nothing => {}
        }
        Ok(())
    }
}

// The thing that an option asks for.
#[derive(Clone, Copy)]
enum Asked {
    Size,
    Log,
    NewLines,
    Form(Form),
    Svg,
    Json,
    Cast,
    At,
    Every,
    Output,
    Task(Kind),
    Nothing,
}

// Returns the thing that the option of this name asks for.
fn asked_by(name: &str) -> Asked {
    match name {
        "--size" => Asked::Size,
        "--log" => Asked::Log,
        "--newline" => Asked::NewLines,
        "--color" => Asked::Form(Form::Color),
        "--html" => Asked::Form(Form::Html),
        "--svg" => Asked::Svg,
        "--json" => Asked::Json,
        "--cast" => Asked::Cast,
        "--at" => Asked::At,
        "--every" => Asked::Every,
        "--diff" => Asked::Task(Kind::Compare),
        "--output" => Asked::Output,
        "--help" => Asked::Task(Kind::Help),
        "--version" => Asked::Task(Kind::Version),
        _ => Asked::Nothing,
    }
}

// Returns an error if pictures of two files are asked for: an output is one picture.
fn is_one<'a>(files: &[&'a str]) -> Result<(), Wrong<'a>> {
    match files {
        [_, second, ..] => Err(Wrong::Value("--svg", "second file", *second, None)),
        _ => Ok(()),
    }
}

// Returns an error if these are not two files.
fn are_two<'a>(files: &[&'a str]) -> Result<(), Wrong<'a>> {
    match files {
        [_, _] => Ok(()),
        [_, _, third, ..] => Err(Wrong::Value("--diff", "third file", *third, None)),
        [_] => Err(Wrong::Nothing("--diff", "second file")),
        [] => Err(Wrong::Nothing("--diff", "first file")),
    }
}

// Returns the size that a word names.
fn size_named(word: &str) -> Result<Size, Wrong<'_>> {
    match Size::of(word) {
        Some(size) => Ok(size),
        None => Err(Wrong::Value("--size", "size of a screen", word, None)),
    }
}

// Returns the microseconds of the time that a word names, in seconds.
fn time_named(word: &str) -> Result<u64, Wrong<'_>> {
    match micros_named(word) {
        Some(time) => Ok(time),
        None => Err(Wrong::Value("--at", "time in seconds", word, None)),
    }
}

// Returns the microseconds of the stretch that a word names, in seconds: a thousandth at least.
fn stretch_named(word: &str) -> Result<u64, Wrong<'_>> {
    match micros_named(word) {
        Some(micros) if micros >= 1000 => Ok(micros),
        _ => Err(Wrong::Value("--every", "time in seconds", word, None)),
    }
}

// Returns the microseconds of so many seconds, without a sign.
fn micros_named(word: &str) -> Option<u64> {
    match word.as_bytes() {
        [b'-', ..] => None,
        digits => micros_in(digits),
    }
}
