//! The task that the program's words ask for.

use command_line::{Apart, Found, Given, Known, Takes, Wrong, read};
use esc_decode::{ByteOrder, CodePage, ENCODINGS, Encoding, encoding_of, order_of, page_of};
use esc_html::Layout;
use esc_style::palettes::{PALETTES, Palette};
use line_collapse::COLUMNS;
use page_input::Cut;
use std::alloc::Global;

/// How streams become HTML.
#[derive(Clone, Copy)]
pub struct Options<'a> {
    /// Whether a whole page is written, and not a fragment.
    pub is_page: bool,
    /// The title of the page, if it is given.
    pub title: Option<&'a str>,
    /// The address of the style sheet of the page, if it is not the program's.
    pub css: Option<&'a str>,
    /// The language of the page, as `en`.
    pub lang: &'a str,
    /// Whether the page is light or dark.
    pub theme: Theme,
    /// The palette of a terminal that the page has, in place of the program's colours.
    pub palette: Option<Palette>,
    /// Whether long lines of the page are broken.
    pub wraps: bool,
    /// The number of the first line, if each line is an element.
    pub first: Option<u64>,
    /// How the HTML is laid out.
    pub layout: Layout,
    /// Whether the actions that are left out are shown in place.
    pub shows: bool,
    /// Whether the HTML says how much a string took that nothing ends.
    pub marks_lost: bool,
    /// The number of rows that may be written again, if the final rows are written.
    pub rows: Option<usize>,
    /// How many columns these rows have.
    pub columns: usize,
    /// Which lines are written.
    pub cut: Cut,
    /// Whether addresses in text are links.
    pub links: bool,
    /// Whether groups of lines are folded.
    pub folds: bool,
    /// Whether the times that lines begin with are elements.
    pub times: bool,
    /// Whether images are written.
    pub images: bool,
    /// Whether a stream is a recording of asciinema.
    pub is_cast: bool,
    /// The byte of a unit that comes first, if a stream is in UTF-16; then it is read as UTF-8.
    pub order: Option<ByteOrder>,
    /// How the bytes of a stream are read.
    pub encoding: Encoding,
    /// How many bytes are kept of an unfinished segment.
    pub limit: usize,
}

impl<'a> Options<'a> {
    // The options if none is given.
    fn new() -> Options<'a> {
        Options {
            is_page: false,
            title: None,
            css: None,
            lang: "en",
            theme: Theme::Auto,
            palette: None,
            wraps: false,
            first: None,
            layout: Layout {
                per_line: false,
                inline: false,
            },
            shows: false,
            marks_lost: false,
            rows: None,
            columns: COLUMNS,
            cut: Cut {
                head: None,
                tail: None,
            },
            links: false,
            folds: false,
            times: false,
            images: false,
            is_cast: false,
            order: None,
            encoding: Encoding::Utf8,
            limit: DEFAULT_LIMIT,
        }
    }

    // And as this option says.
    fn take(&mut self, given: &Given<'a>) {
        match given.name {
            "--page" => {
                self.is_page = true;
                self.first = Some(1);
            }
            "--numbers" => self.first = Some(1),
            "--title" => self.title = Some(given.word),
            "--css" => self.css = Some(given.word),
            "--lang" => self.lang = given.word,
            "--theme" => self.theme = Theme::of(given.word),
            "--palette" => self.palette = Palette::of(given.word),
            "--wrap" => self.wraps = true,
            "--lines" => self.layout.per_line = true,
            "--inline" => self.layout.inline = true,
            "--show" => self.shows = true,
            "--lost" => self.marks_lost = true,
            "--columns" => self.columns = columns_of(given.word).unwrap_or(COLUMNS),
            "--head" => self.cut.head = lines_of(given.word),
            "--tail" => self.cut.tail = lines_of(given.word),
            "--linkify" => self.links = true,
            "--fold" => self.folds = true,
            "--times" => self.times = true,
            "--images" => self.images = true,
            "--cast" => self.is_cast = true,
            "--limit" => self.limit = given.size,
            _ => {}
        }
    }
}

/// Whether a page is light or dark.
#[derive(Clone, Copy)]
pub enum Theme {
    /// As its reader's setting.
    Auto,
    /// Light.
    Light,
    /// Dark.
    Dark,
}

impl Theme {
    // The one of this name.
    fn of(name: &str) -> Theme {
        match name {
            "light" => Theme::Light,
            "dark" => Theme::Dark,
            _ => Theme::Auto,
        }
    }
}

/// The work of the program.
#[derive(Clone, Copy)]
pub enum Kind {
    /// It writes files, or standard input if there is none, as HTML.
    Convert,
    /// It prints the style sheet.
    Style,
    /// It prints its help.
    Help,
    /// It prints its version.
    Version,
}

/// The task that the program's words ask for.
#[derive(Drop)]
pub struct Task<'a> {
    /// The work of the program.
    pub kind: Kind,
    /// How streams become HTML.
    pub options: Options<'a>,
    /// The file that the output goes to; standard output, if there is none.
    pub output: Option<&'a str>,
    /// The files.
    pub files: Vec<&'a str>,
    /// The last of these that an option before it could take.
    pub apart: Option<Apart<'a>>,
}

const DEFAULT_LIMIT: usize = 1_048_576;

const DEFAULT_ROWS: usize = 32;

const MOST_ROWS: usize = 4096;

const MOST_COLUMNS: usize = 16_384;

// The name of the value of `--head` and `--tail`.
const LINES: &str = "number of lines";

// And that of `--columns`.
const COLUMN_NUMBER: &str = "number of columns";

const KNOWN: &[Known] = &[
    Known {
        name: "--page",
        letter: "",
        takes: Takes::Nothing,
    },
    Known {
        name: "--title",
        letter: "",
        takes: Takes::OneOf("text", &[]),
    },
    Known {
        name: "--css",
        letter: "",
        takes: Takes::OneOf("address", &[]),
    },
    Known {
        name: "--lang",
        letter: "",
        takes: Takes::OneOf("language", &[]),
    },
    Known {
        name: "--theme",
        letter: "",
        takes: Takes::OneOf("theme", &["auto", "light", "dark"]),
    },
    Known {
        name: "--palette",
        letter: "",
        takes: Takes::OneOf("palette", PALETTES),
    },
    Known {
        name: "--numbers",
        letter: "",
        takes: Takes::Nothing,
    },
    Known {
        name: "--wrap",
        letter: "",
        takes: Takes::Nothing,
    },
    Known {
        name: "--lines",
        letter: "",
        takes: Takes::Nothing,
    },
    Known {
        name: "--inline",
        letter: "",
        takes: Takes::Nothing,
    },
    Known {
        name: "--show",
        letter: "",
        takes: Takes::Nothing,
    },
    Known {
        name: "--lost",
        letter: "",
        takes: Takes::Nothing,
    },
    Known {
        name: "--final-lines",
        letter: "",
        takes: Takes::Maybe("number of rows", &[]),
    },
    Known {
        name: "--columns",
        letter: "",
        takes: Takes::OneOf(COLUMN_NUMBER, &[]),
    },
    Known {
        name: "--head",
        letter: "",
        takes: Takes::OneOf(LINES, &[]),
    },
    Known {
        name: "--tail",
        letter: "",
        takes: Takes::OneOf(LINES, &[]),
    },
    Known {
        name: "--linkify",
        letter: "",
        takes: Takes::Nothing,
    },
    Known {
        name: "--fold",
        letter: "",
        takes: Takes::Nothing,
    },
    Known {
        name: "--times",
        letter: "",
        takes: Takes::Nothing,
    },
    Known {
        name: "--images",
        letter: "",
        takes: Takes::Nothing,
    },
    Known {
        name: "--cast",
        letter: "",
        takes: Takes::Nothing,
    },
    Known {
        name: "--style",
        letter: "",
        takes: Takes::Nothing,
    },
    Known {
        name: "--c1",
        letter: "",
        takes: Takes::OneOf("way", &["replace", "obey"]),
    },
    Known {
        name: "--encoding",
        letter: "",
        takes: Takes::OneOf("name", ENCODINGS),
    },
    Known {
        name: "--limit",
        letter: "",
        takes: Takes::Size,
    },
    Known::OUTPUT,
    Known::HELP,
    Known::VERSION,
];

impl<'a> Task<'a> {
    /// The task that these words, the program's arguments, name. If an option is given twice, the
    /// last counts.
    pub fn of(alloc: Global, words: &'a [String]) -> Result<Task<'a>, Wrong<'a>> {
        let found = match read(alloc, KNOWN, words) {
            Ok(found) => found,
            Err(wrong) => return Err(wrong),
        };
        for given in &found.options {
            if let Some(wrong) = wrong_value(given) {
                return Err(wrong);
            }
        }
        Ok(Task::from_found(found))
    }

    // The task that these options and files name.
    fn from_found(found: Found<'a>) -> Task<'a> {
        let mut choices = Choices::new();
        for given in &found.options {
            choices.take(given);
        }
        let mut options = choices.options;
        options.encoding = encoding_of(choices.page, choices.obeys);
        if options.is_cast {
            options.encoding = Encoding::Utf8;
            options.order = None;
        }
        Task {
            kind: choices.kind,
            options,
            output: choices.output,
            files: found.files,
            apart: choices.apart,
        }
    }
}

// The choices of the options so far.
#[derive(Clone, Copy)]
struct Choices<'a> {
    kind: Kind,
    options: Options<'a>,
    // the code page of the streams, and whether they have controls of C1
    page: Option<CodePage>,
    obeys: bool,
    output: Option<&'a str>,
    apart: Option<Apart<'a>>,
}

impl<'a> Choices<'a> {
    // The choices if there is no option.
    fn new() -> Choices<'a> {
        Choices {
            kind: Kind::Convert,
            options: Options::new(),
            page: None,
            obeys: false,
            output: None,
            apart: None,
        }
    }

    // And of this one.
    fn take(&mut self, given: &Given<'a>) {
        match given.name {
            "--final-lines" => {
                self.options.rows = rows_of(given.word);
                self.apart = apart_of(given);
            }
            "--c1" => self.obeys = given.word == "obey",
            "--encoding" => {
                self.page = page_of(given.word);
                self.options.order = order_of(given.word);
            }
            "--output" => self.output = Some(given.word),
            "--style" => self.kind = Kind::Style,
            "--help" => self.kind = Kind::Help,
            "--version" => self.kind = Kind::Version,
            _ => self.options.take(given),
        }
    }
}

// The fault of the value of an option, if it has one.
fn wrong_value<'a>(given: &Given<'a>) -> Option<Wrong<'a>> {
    let (kind, is_right) = match given.name {
        "--final-lines" => ("number of rows", rows_of(given.word).is_some()),
        "--columns" => (COLUMN_NUMBER, columns_of(given.word).is_some()),
        "--lang" => ("language", is_language(given.word)),
        "--head" | "--tail" => (LINES, lines_of(given.word).is_some()),
        _ => return None,
    };
    if is_right {
        return None;
    }
    Some(Wrong::Value(given.name, kind, given.word, None))
}

// The word after this option, if it could take it, and takes only a value after `=`.
fn apart_of<'a>(given: &Given<'a>) -> Option<Apart<'a>> {
    if given.next.is_empty() || rows_of(given.next).is_none() {
        return None;
    }
    Some(Apart {
        option: given.name,
        word: given.next,
    })
}

// Whether it may be the name of a language (BCP 47): letters and digits of ASCII, and `-`.
fn is_language(word: &str) -> bool {
    for byte in word.as_bytes() {
        if !byte.is_ascii_alphanumeric() && *byte != b'-' {
            return false;
        }
    }
    !word.is_empty()
}

// The number of rows that a word names; if it is empty, the default.
fn rows_of(word: &str) -> Option<usize> {
    if word.is_empty() {
        return Some(DEFAULT_ROWS);
    }
    number_of(word, MOST_ROWS)
}

// How many columns a word names.
fn columns_of(word: &str) -> Option<usize> {
    number_of(word, MOST_COLUMNS)
}

// The number that a word names, if it is from 1 to this one.
fn number_of(word: &str, most: usize) -> Option<usize> {
    match word.parse::<usize>() {
        Ok(number) if 0 < number && number <= most => Some(number),
        _ => None,
    }
}

// How many lines a word names.
fn lines_of(word: &str) -> Option<u64> {
    match word.parse::<u64>() {
        Ok(lines) if 0 < lines => Some(lines),
        _ => None,
    }
}
