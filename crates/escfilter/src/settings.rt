//! The options of the filter, in the program's words.
ghost use Rattle.std.specs.Prelude.{◌≡◌};

use crate::named_groups::Choice;
use crate::options::Format;
use crate::values::{columns_of, rows_of};
use caret_notation::Marking;
use command_line::Given;
use esc_decode::{CodePage, Encoding, encoding_of};
use esc_filter::{Guard, Policy, Returns, Unicode};
use esc_sanitize::FilterOptions;
use line_collapse::{COLUMNS, Window};

/// The values of the filter's options. The policy may decide on those without a value.
#[derive(Clone, Copy)]
pub struct Settings<'a> {
    /// The policies and groups that pass.
    pub choice: Choice<'a>,
    /// The schemes of links that pass.
    pub schemes: Option<&'a str>,
    /// The most bytes of an unfinished segment that are kept.
    pub limit: usize,
    /// Whether each line is a stream of its own.
    pub by_lines: Option<bool>,
    /// Whether each line begins plain, so that no rendition goes on over a line feed.
    pub resets: bool,
    /// The treatment of characters that hide or reorder text.
    pub unicode: Option<Unicode>,
    /// The treatment of bare carriage returns.
    pub returns: Option<Returns>,
    /// The encoding, if it has 8 bits.
    pub page: Option<CodePage>,
    /// Whether bytes 80 to 9F that are part of no character are controls of C1.
    pub obeys: bool,
    /// The form of omissions that are shown in place.
    pub show: Option<Marking>,
    /// The number of rows of the screen that the text is collapsed on.
    pub rows: Option<usize>,
    /// The number of its columns.
    pub columns: Option<usize>,
    /// The format of the recordings, if the files are recordings.
    pub recorded: Option<Format>,
}

impl<'a> Settings<'a> {
    /// The values without any option, with this default policy.
    pub fn nothing(policy: Policy) -> Settings<'a> {
        Settings {
            choice: Choice::of(policy),
            schemes: None,
            limit: FilterOptions::new(Policy::Color).limit,
            by_lines: None,
            resets: false,
            unicode: None,
            returns: None,
            page: None,
            obeys: false,
            show: None,
            rows: None,
            columns: None,
            recorded: None,
        }
    }

    /// Takes one more option if it is one of these.
    pub fn take(&mut self, given: &Given<'a>) {
        match given.name {
            "--allow" => self.choice = self.choice.and(given.some),
            "--deny" => self.choice = self.choice.without(given.some),
            "--links" => self.schemes = Some(given.word),
            "--lines" => self.by_lines = Some(true),
            "--whole" => self.by_lines = Some(false),
            "--line-reset" => self.resets = true,
            "--limit" => self.limit = given.size,
            "--c1" => self.obeys = given.word == "obey",
            "--unicode" => self.unicode = Some(unicode_of(given.word)),
            "--returns" => self.returns = Some(returns_of(given.word)),
            "--show" => self.show = Some(marking_of(given.word)),
            "--collapse" => self.rows = rows_of(given.word),
            "--columns" => self.columns = columns_of(given.word),
            "--cast" => self.recorded = Some(Format::Cast),
            "--ttyrec" => self.recorded = Some(Format::Frames),
            _ => {}
        }
    }

    /// The options of the filter, with an account or without.
    pub fn filter_options(self, audits: bool) -> FilterOptions<Choice<'a>>
        ensures { result.audits ≡ audits }
    {
        let defaults = FilterOptions::new(self.choice.policy);
        let by_lines = self
            .by_lines
            .unwrap_or(defaults.by_lines && self.rows.is_none());
        let characters = self.unicode.unwrap_or(defaults.guard.characters);
        FilterOptions {
            policy: self.policy(),
            limit: self.limit,
            by_lines,
            resumes: !self.resets,
            guard: Guard {
                characters,
                returns: self.bare_returns(by_lines, defaults.guard.returns),
            },
            encoding: self.encoding(),
            show: self.show,
            window: self.window(characters, audits),
            audits,
        }
    }

    // The choice of what passes, with these schemes of links. The collapse obeys movements too.
    fn policy(self) -> Choice<'a> {
        let choice = self.choice.settled();
        let choice = match self.schemes {
            Some(schemes) => choice.with_schemes(schemes),
            None => choice,
        };
        match self.rows {
            Some(_) => choice.with_movements(),
            None => choice,
        }
    }

    // The screen that the text is collapsed on. It gets the treatment of characters too, since text
    // that is written over may put another character before one. For an account it counts the bytes
    // that are overwritten.
    fn window(self, characters: Unicode, audits: bool) -> Option<Window> {
        match self.rows {
            Some(rows) => Some(Window {
                counts: audits,
                ..Window::new(rows, self.columns.unwrap_or(COLUMNS), characters)
            }),
            None => None,
        }
    }

    // The treatment of bare carriage returns, with this default of the policy. A stream that is
    // taken whole keeps them. So do recordings and the collapse, unless an option says otherwise,
    // since a terminal obeys them there.
    fn bare_returns(self, by_lines: bool, default: Returns) -> Returns {
        match self.returns {
            _ if !by_lines => Returns::Keep,
            Some(way) => way,
            None if self.is_recording() || self.rows.is_some() => Returns::Keep,
            None => default,
        }
    }

    /// Whether the files are recordings.
    pub fn is_recording(self) -> bool {
        self.recorded.is_some()
    }

    // The encoding of a stream. The texts of a recording of asciinema are characters already, and
    // --show replaces no byte.
    fn encoding(self) -> Encoding {
        let obeys = self.obeys || self.show.is_some();
        match self.page {
            _ if matches!(self.recorded, Some(Format::Cast)) => Encoding::EightBit,
            None if !obeys => Encoding::Utf8,
            page => encoding_of(page, obeys),
        }
    }
}

// The treatment of carriage returns that has this name in the table.
fn returns_of(name: &str) -> Returns {
    match name {
        "show" => Returns::Show,
        "drop" => Returns::Drop,
        _ => Returns::Keep,
    }
}

// The treatment of characters that has this name in the table.
fn unicode_of(name: &str) -> Unicode {
    match name {
        "join" => Unicode::Join,
        "show" => Unicode::Show,
        "drop" => Unicode::Drop,
        _ => Unicode::Keep,
    }
}

// The form of omissions that has this name in the table: plain if the name is empty.
fn marking_of(name: &str) -> Marking {
    match name {
        "escaped" => Marking::Escaped,
        "color" => Marking::Reversed,
        _ => Marking::Plain,
    }
}
