//! A terminal.
ghost use Rattle.std.specs.Prelude.{◌≡◌, ◌⊎◌, [], IfOk, IfSome, IsErr, IsSomeAnd, OnErr, OnOk};
ghost use Rattle.std.specs.List.{FoldsTo};
ghost use Rattle.std.specs.Option.{option_map};
ghost use Rattle.esc_terminal.specs.Fed.{asked_in, icon_name_in, screen_in, styles_in, title_in};
ghost use Rattle.fallible_alloc.specs.Refusals.{Refused};

use crate::keeping::Keeping;
use crate::request::Request;
use crate::rows::Rows;
use crate::state::State;
use crate::styles::Styles;
use esc_parse::Parser;
use esc_screen::{Cell, Screen};
use std::alloc::{AllocError, Allocator, Global};

// How many bytes of a name are kept.
const MOST: usize = 0x1000;

/// Takes a stream in whatever chunks it comes, and has the screen that a terminal shows then.
///
/// It keeps a screen of its size, which is made at once, at most 4,096 looks and 1,024 links of at
/// most 4,096 bytes, a title and the name of an icon of at most as many, and the requests of the
/// last chunk.
#[derive(Drop)]
pub struct Terminal<A: Allocator = Global> {
    parser: Parser<A>,
    state: Option<State<A>>,
}

impl<A: Allocator + Copy> Terminal<A> {
    ghost use Rattle.esc_terminal.specs.Fed.{After, Ends, From, GoesOnFrom, IsBroken, TakesIn, HasConsumed, for_log, requests_now, screen_size};
    ghost use Rattle.esc_terminal.specs.Kept.{KeepsFrom, KeepsIn};
    ghost use Rattle.esc_terminal.specs.Resized.{StandsWith, off_by_size};

    /// A terminal of so many columns and rows at the beginning of a stream: each should be 1 at
    /// least.
    ///
    /// The error is that a request for memory was refused.
    pub fn new(alloc: A, columns: u16, rows: u16) -> Result<Terminal<A>, AllocError>
        ensures fed { IfOk result (λ t. HasConsumed (screen_size columns rows) [] t) }
        ensures asked { IfOk result (λ t. requests_now t ≡ []) }
        ensures refused { OnErr result (Refused A) }
    {
        let state = State::new(alloc, columns, rows)?;
        Ok(Terminal {
            parser: Parser::with_limit(alloc, MOST),
            state: Some(state),
        })
    }

    /// A terminal of so many columns and rows for a log: LF returns to the first column too,
    /// whatever the mode LNM is, as if a terminal's driver put CR before it. VT and FF do not.
    ///
    /// The error is that a request for memory was refused.
    pub fn for_log(alloc: A, columns: u16, rows: u16) -> Result<Terminal<A>, AllocError>
        ensures fed { IfOk result (λ t. HasConsumed (for_log columns rows) [] t) }
        ensures asked { IfOk result (λ t. requests_now t ≡ []) }
        ensures refused { OnErr result (Refused A) }
    {
        let state = State::new(alloc, columns, rows)?;
        Ok(Terminal {
            parser: Parser::with_limit(alloc, MOST),
            state: Some(state.returning()),
        })
    }

    /// Takes `bytes`. [`requests`](Self::requests) then returns their requests.
    ///
    /// The error is that a request for memory was refused, as a title, a request or a sequence may
    /// take some: there is no screen from then on, and every call returns it.
    pub fn feed(&mut self, bytes: &[u8]) -> Result<(), AllocError>
        ensures given { After self.old (λ z s. OnOk result (TakesIn z s bytes.now self.new)) }
        ensures refused { After self.old (λ z s. OnErr result (Refused A)) }
        ensures goes_on { GoesOnFrom self.old bytes.now result (Refused A) self.new }
        ensures ended { Ends self.old result self.new }
    {
        let Some(state) = self.state.take() else {
            return Err(AllocError);
        };
        let (result, state) = self.parser.parse_into(bytes, state.cleared());
        match result {
            Ok(()) => {
                self.state = Some(state);
                Ok(())
            }
            Err(_) => Err(AllocError),
        }
    }

    /// Takes `bytes`, as [`feed`](Self::feed) does, and hands each row that is scrolled off the top
    /// of the main screen to `rows`, as it was then, which it returns.
    ///
    /// The error is that of `feed`, or that `rows` returned one: there is no screen from then on.
    pub fn feed_into<R: Rows>(&mut self, bytes: &[u8], rows: R) -> (Result<(), AllocError>, R)
        ensures given { After self.old (λ z s. OnOk result.0
            (KeepsIn R.takes z s bytes.now rows self.new result.1)) }
        ensures refused { After self.old (λ z s. OnErr result.0 (Refused A ⊎ R.fails)) }
        ensures goes_on { KeepsFrom R.takes self.old bytes.now rows result.0 (Refused A ⊎ R.fails)
            self.new result.1 }
        ensures ended { Ends self.old result.0 self.new }
    {
        let Some(state) = self.state.take() else {
            return (Err(AllocError), rows);
        };
        let keeping = Keeping {
            state: state.cleared(),
            rows,
        };
        let (result, keeping) = self.parser.parse_into(bytes, keeping);
        let Keeping { state, rows } = keeping;
        match result {
            Ok(()) => {
                self.state = Some(state);
                (Ok(()), rows)
            }
            Err(_) => (Err(AllocError), rows),
        }
    }

    /// Gives its screen so many columns and rows, as xterm does ([`Screen::resize`]). Both should
    /// be 1 at least. Its looks, links, names and requests stay.
    ///
    /// The error is that a request for memory was refused: nothing has changed then. After an error
    /// of [`feed`](Self::feed) it is that error.
    pub fn resize(&mut self, columns: u16, rows: u16) -> Result<(), AllocError>
        ensures resized { From self.old
            (λ z x s. OnOk result (StandsWith z x s columns rows self.new)) }
        ensures refused { OnErr result (Refused A ⊎ IsBroken self.old) }
        ensures unchanged { OnErr result (self.new ≡ self.old) }
        ensures failed { IsBroken self.old → IsErr result }
    {
        match &mut self.state {
            Some(state) => state.resize(columns, rows),
            None => Err(AllocError),
        }
    }

    /// Gives its screen so many columns and rows, as [`resize`](Self::resize) does, and hands each
    /// row that leaves the main screen at the top to `sink`, which it returns.
    ///
    /// The error is that of `resize`, or that `sink` returned one: there is no screen from then on.
    pub fn resize_into<R: Rows>(
        &mut self,
        columns: u16,
        rows: u16,
        sink: R,
    ) -> (Result<(), AllocError>, R)
        ensures resized { From self.old
            (λ z x s. OnOk result.0 (StandsWith z x s columns rows self.new
            × FoldsTo R.takes sink (off_by_size rows x) result.1)) }
        ensures refused { From self.old (λ z x s. OnErr result.0 (Refused A ⊎ R.fails)) }
        ensures ended { Ends self.old result.0 self.new }
    {
        let Some(state) = self.state.take() else {
            return (Err(AllocError), sink);
        };
        let mut keeping = Keeping { state, rows: sink };
        let result = keeping.resize(columns, rows);
        let Keeping { state, rows: sink } = keeping;
        match result {
            Ok(()) => {
                self.state = Some(state);
                (Ok(()), sink)
            }
            Err(_) => (Err(AllocError), sink),
        }
    }
}

impl<A: Allocator> Terminal<A> {
    /// Its screen; none after an error.
    pub fn screen(&self) -> Option<&Screen<A>>
        ensures value { option_map (λ p. p.now) result ≡ screen_in self.now.state }
        ensures shown { IfSome result (λ p. IsSomeAnd self.now.state (λ q. q.screen ≡ p.now)) }
    {
        match &self.state {
            Some(state) => Some(&state.screen),
            None => None,
        }
    }

    /// Returns the cells of a row, from 0 on; none if there is no such row.
    pub fn row(&self, at: usize) -> &[Cell] {
        match &self.state {
            Some(state) => state.screen.row(at),
            None => &[],
        }
    }

    /// Returns the looks and the links of its cells, by the numbers that they have; none after an
    /// error.
    pub fn styles(&self) -> Option<&Styles<A>>
        ensures value { option_map (λ s. s.now) result ≡ styles_in self.now.state }
        ensures shown { IfSome result (λ s. IsSomeAnd self.now.state (λ q. q.styles ≡ s.now)) }
    {
        match &self.state {
            Some(state) => Some(&state.styles),
            None => None,
        }
    }

    /// Returns the title of its window, if it has one.
    pub fn title(&self) -> Option<&str>
        ensures { option_map (λ t. t.now) result ≡ title_in self.now.state }
    {
        match &self.state {
            Some(state) => match &state.title {
                Some(title) => Some(title.as_str()),
                None => None,
            },
            None => None,
        }
    }

    /// Returns the name of its icon, if it has one.
    pub fn icon_name(&self) -> Option<&str>
        ensures { option_map (λ t. t.now) result ≡ icon_name_in self.now.state }
    {
        match &self.state {
            Some(state) => match &state.icon_name {
                Some(name) => Some(name.as_str()),
                None => None,
            },
            None => None,
        }
    }

    /// The requests of the last chunk, in order.
    pub fn requests(&self) -> &[Request]
        ensures { result.now ≡ asked_in self.now.state }
    {
        match &self.state {
            Some(state) => &state.requests,
            None => &[],
        }
    }
}
