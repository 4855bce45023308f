//! The task that the program's words ask for.

use crate::selection::{Listed, near_kind};
use command_line::{Found, Given, Known, Takes, Wrong, read};
use std::alloc::Global;

/// The unit that has a line of its own.
#[derive(Clone, Copy)]
pub enum Form {
    /// A run of text, or a sequence with its words.
    Words,
    /// A segment.
    Segments,
    /// A run of text, or a sequence with its bytes alone.
    Bytes,
    /// A run of text, or a sequence as an object of JSON.
    Json,
    /// A name that came, with how often.
    Stats,
}

/// The form of the bytes of a file.
#[derive(Clone, Copy)]
pub enum Recorded {
    /// A stream.
    Stream,
    /// A recording of asciinema.
    Cast,
    /// A typescript of script(1) that has a timing file.
    Typescript,
}

/// When lines have colours.
#[derive(Clone, Copy)]
pub enum When {
    /// Colours come on a terminal, unless the environment has a `NO_COLOR` that is not empty, or
    /// names the terminal `dumb`.
    Auto,
    /// Always.
    Always,
    /// Never.
    Never,
}

/// Says how streams are printed.
#[derive(Clone, Copy)]
pub struct Options<'a> {
    /// The unit that has a line of its own.
    pub form: Form,
    /// The form of the bytes of a file.
    pub recorded: Recorded,
    /// Says whether a stream is the input that a terminal sends, and not the output that it gets.
    pub is_input: bool,
    /// The timing of a typescript.
    pub timing: &'a [u8],
    /// Says how many bytes are kept of a segment.
    pub limit: usize,
    /// Says how many bytes the words of a line may have, and its bytes.
    pub width: usize,
    /// Says whether the lines have colours.
    pub is_colored: bool,
    /// Says whether each stream is named.
    pub is_named: bool,
    /// The lines that are printed.
    pub only: Listed<'a>,
    /// Those that are not.
    pub skip: Listed<'a>,
}

/// The work of the program.
#[derive(Clone, Copy)]
pub enum Kind {
    /// It prints files, or standard input if there is none.
    Dump,
    /// It prints its help.
    Help,
    /// It prints its version.
    Version,
}

/// The task that the program's words ask for.
#[derive(Drop)]
pub struct Task<'a> {
    /// The work of the program.
    pub kind: Kind,
    /// Says how streams are printed.
    pub options: Options<'a>,
    /// When lines have colours.
    pub colors: When,
    /// The number of bytes that the words of a line may have, if that is given.
    pub width: Option<usize>,
    /// The timing file of a typescript.
    pub timing: Option<&'a str>,
    /// A stream as people write it, which comes before the files.
    pub explained: Option<&'a str>,
    /// The files.
    pub files: Vec<&'a str>,
}

const DEFAULT_LIMIT: usize = 1_048_576;

const WHEN: Takes = Takes::OneOf("time", &["auto", "always", "never"]);

const SOME_KINDS: Takes = Takes::OneOf("kind", &[]);

const EXPLAIN: Known = Known {
    name: "--explain",
    letter: "-e",
    takes: Takes::OneOf("text", &[]),
};

const KNOWN: &[Known] = &[
    EXPLAIN,
    Known {
        name: "--segments",
        letter: "",
        takes: Takes::Nothing,
    },
    Known {
        name: "--escape",
        letter: "",
        takes: Takes::Nothing,
    },
    Known {
        name: "--json",
        letter: "",
        takes: Takes::Nothing,
    },
    Known {
        name: "--stats",
        letter: "",
        takes: Takes::Nothing,
    },
    Known {
        name: "--input",
        letter: "",
        takes: Takes::Nothing,
    },
    Known {
        name: "--cast",
        letter: "",
        takes: Takes::Nothing,
    },
    Known {
        name: "--timing",
        letter: "",
        takes: Takes::OneOf("file", &[]),
    },
    Known {
        name: "--only",
        letter: "",
        takes: SOME_KINDS,
    },
    Known {
        name: "--skip",
        letter: "",
        takes: SOME_KINDS,
    },
    Known {
        name: "--limit",
        letter: "",
        takes: Takes::Size,
    },
    Known {
        name: "--width",
        letter: "",
        takes: Takes::Size,
    },
    Known {
        name: "--color",
        letter: "",
        takes: WHEN,
    },
    Known {
        name: "--colour",
        letter: "",
        takes: WHEN,
    },
    Known::HELP,
    Known::VERSION,
];

impl<'a> Task<'a> {
    /// Returns the task that these words, the program's arguments, name. If an option is given
    /// twice, the last counts, and so does the last of the forms.
    pub fn of(alloc: Global, words: &'a [String]) -> Result<Task<'a>, Wrong<'a>> {
        match read(alloc, KNOWN, words) {
            Ok(found) => Task::from_found(found),
            Err(wrong) => Err(wrong),
        }
    }

    // Returns the task that these options and files name.
    fn from_found(found: Found<'a>) -> Result<Task<'a>, Wrong<'a>> {
        let mut task = Task {
            kind: Kind::Dump,
            options: DEFAULT,
            colors: When::Auto,
            width: None,
            timing: None,
            explained: None,
            files: found.files,
        };
        let taken = task.take_all(&found.options);
        let streams = task.files.len();
        task.options.is_named = streams > 1 || (streams == 1 && task.explained.is_some());
        match taken {
            Ok(()) => Ok(task),
            Err(wrong) => Err(wrong),
        }
    }

    // Takes each of these options.
    fn take_all(&mut self, options: &[Given<'a>]) -> Result<(), Wrong<'a>> {
        for given in options {
            self.take(*given)?;
        }
        Ok(())
    }

    // Takes an option.
    fn take(&mut self, given: Given<'a>) -> Result<(), Wrong<'a>> {
        let options = &mut self.options;
        match asked_by(given.name) {
            Asked::Form(form) => options.form = form,
            Asked::Task(kind) => self.kind = kind,
            Asked::Input => options.is_input = true,
            Asked::Cast => options.recorded = Recorded::Cast,
            Asked::Timing => {
                options.recorded = Recorded::Typescript;
                self.timing = Some(given.word);
            }
            Asked::Only => options.only = listed("--only", given.word)?,
            Asked::Skip => options.skip = listed("--skip", given.word)?,
            Asked::Limit => options.limit = given.size,
            Asked::Width => self.width = Some(given.size),
            Asked::Explain => self.explained = Some(given.word),
            Asked::Color => self.colors = when_named(given.word),
            Asked::Nothing => {}
        }
        Ok(())
    }
}

// The thing that an option asks for.
#[derive(Clone, Copy)]
enum Asked {
    Form(Form),
    Task(Kind),
    Input,
    Cast,
    Timing,
    Only,
    Skip,
    Limit,
    Width,
    Explain,
    Color,
    Nothing,
}

// Returns the thing that the option of this name asks for.
fn asked_by(name: &str) -> Asked {
    match name {
        "--segments" => Asked::Form(Form::Segments),
        "--escape" => Asked::Form(Form::Bytes),
        "--json" => Asked::Form(Form::Json),
        "--stats" => Asked::Form(Form::Stats),
        "--input" => Asked::Input,
        "--cast" => Asked::Cast,
        "--timing" => Asked::Timing,
        "--only" => Asked::Only,
        "--skip" => Asked::Skip,
        "--limit" => Asked::Limit,
        "--width" => Asked::Width,
        "--explain" => Asked::Explain,
        "--color" | "--colour" => Asked::Color,
        "--help" => Asked::Task(Kind::Help),
        "--version" => Asked::Task(Kind::Version),
        _ => Asked::Nothing,
    }
}

// The way in which streams are printed if the words do not say.
const DEFAULT: Options<'static> = Options {
    form: Form::Words,
    recorded: Recorded::Stream,
    is_input: false,
    timing: b"",
    limit: DEFAULT_LIMIT,
    width: usize::MAX,
    is_colored: false,
    is_named: false,
    only: Listed::ALL,
    skip: Listed::NONE,
};

// Returns the list that this option has.
fn listed<'a>(option: &'static str, list: &'a str) -> Result<Listed<'a>, Wrong<'a>> {
    match Listed::of(list) {
        Ok(listed) => Ok(listed),
        Err(part) => Err(Wrong::Value(option, "kind", part, near_kind(part))),
    }
}

// When lines have colours, by the word of the option.
fn when_named(word: &str) -> When {
    match word {
        "always" => When::Always,
        "never" => When::Never,
        _ => When::Auto,
    }
}
