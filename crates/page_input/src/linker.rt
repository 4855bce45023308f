//! Links around the addresses of a stream.
ghost use Rattle.std.specs.Prelude.{◌≡◌, ◌≤◌, ◌<◌, ◌+◌, ◌*◌, IfOk, OnOk, length};
ghost use Rattle.page_input.specs.Linked.{weight};

use crate::address::{MOST_RUN, Place, first_address, is_address_byte};
use crate::leads::{Lead, Sieve, lead_of};
use esc_decode::Encoding;
use esc_frame::{VTActor, VTParser};
use esc_values::CsiParam;
use std::alloc::{AllocError, Global};

// Says how many bytes of a word that may end in an address are held before some are let go.
const ROOM: usize = 8192;

// Says how many bytes of a command are kept, to see whether it is one for a link.
const LIMIT: usize = 4096;

/// Makes of a stream one with links around addresses, a part at a time.
#[derive(Drop)]
pub(crate) struct Linker {
    alloc: Global,
    segments: Segments,
    // the end of the text, which may be in an address, and the byte before it
    held: Vec<u8>,
    previous: u8,
    /// The text that was made.
    pub made: Vec<u8>,
}

impl Linker {
    /// Returns a linker of a stream in this encoding, at its beginning. Takes no memory.
    pub fn new(alloc: Global, encoding: Encoding) -> Linker
        ensures { weight result ≡ 0 }
    {
        Linker {
            alloc,
            segments: Segments {
                encoding,
                sieve: Sieve::new(encoding),
                framer: VTParser::with_limit(alloc, LIMIT),
                links: Links { is_on: false },
            },
            held: Vec::new(alloc),
            previous: b' ',
            made: Vec::new(alloc),
        }
    }

    /// Takes bytes more.
    pub fn take(&mut self, bytes: &[u8]) -> Result<(), AllocError>
        ensures { OnOk result (weight self.new ≤ weight self.old + 4 * length bytes.now) }
    {
        let mut rest = bytes;
        while !rest.is_empty() {
            let n = self.take_some(rest)?;
            rest = &rest[n.max(1)..];
        }
        Ok(())
    }

    /// Takes the end of the stream, or of its text.
    pub fn settle(&mut self) -> Result<(), AllocError>
        ensures { OnOk result (weight self.new ≤ weight self.old) }
    {
        self.previous = push_linked(&mut self.made, self.previous, self.held.as_slice())?;
        self.held.clear();
        Ok(())
    }

    // Takes some of these bytes; returns how many.
    fn take_some(&mut self, bytes: &[u8]) -> Result<usize, AllocError>
        ensures { IfOk result (λ n. (n ≤ length bytes.now)
            × (weight self.new ≤ weight self.old + 4 * n)) }
    {
        if !self.segments.framer.is_ground() {
            return self.follow(bytes);
        }
        match lead_of(bytes, self.segments.encoding) {
            Lead::Control(_, _) | Lead::More => {
                self.settle()?;
                self.follow(bytes)
            }
            Lead::Text(length) => {
                let run = &bytes[..length.min(bytes.len())];
                self.segments.sieve.pass(run);
                self.take_run(run)?;
                Ok(run.len())
            }
        }
    }

    // Takes a segment up to its end, as far as it is there; returns the number of these bytes.
    fn follow(&mut self, bytes: &[u8]) -> Result<usize, AllocError>
        ensures { IfOk result (λ n. (n ≤ length bytes.now)
            × (weight self.new ≤ weight self.old + 4 * n)) }
    {
        let count = self.segments.follow(bytes)?.min(bytes.len());
        self.previous = b' ';
        fallible_alloc::extend(&mut self.made, &bytes[..count])?;
        Ok(count)
    }

    // Takes a run of text.
    fn take_run(&mut self, run: &[u8]) -> Result<(), AllocError>
        ensures { OnOk result (weight self.new ≤ weight self.old + 4 * length run.now) }
    {
        if self.segments.links.is_on {
            return fallible_alloc::extend(&mut self.made, run);
        }
        if self.held.is_empty() {
            return self.take_words(run);
        }
        let (word, rest) = run.split_at(word_length(run));
        fallible_alloc::extend(&mut self.held, word)?;
        if rest.is_empty() {
            return self.let_go();
        }
        self.settle()?;
        self.take_words(rest)
    }

    // Takes text after no word that may be an address.
    fn take_words(&mut self, run: &[u8]) -> Result<(), AllocError>
        ensures { OnOk result (weight self.new ≤ weight self.old + 4 * length run.now) }
    {
        let (text, word) = run.split_at(run_start(run));
        self.previous = push_linked(&mut self.made, self.previous, text)?;
        self.take_word(word)
    }

    // Takes the beginning of a word that may go on, while none is held.
    fn take_word(&mut self, word: &[u8]) -> Result<(), AllocError>
        ensures { OnOk result (weight self.new ≤ weight self.old + 4 * length word.now) }
    {
        let (text, rest) = word.split_at(word_start(word));
        self.previous = last_of(text, self.previous);
        fallible_alloc::extend(&mut self.made, text)?;
        fallible_alloc::extend(&mut self.held, rest)
    }

    // Lets go the beginning of a long word that goes on: no address begins there, since too many
    // bytes follow that may be in it.
    fn let_go(&mut self) -> Result<(), AllocError>
        ensures { OnOk result (weight self.new ≤ weight self.old) }
    {
        if self.held.len() < ROOM {
            return Ok(());
        }
        let start = word_start(self.held.as_slice());
        let (text, rest) = self.held.as_slice().split_at(start);
        self.previous = last_of(text, self.previous);
        fallible_alloc::extend(&mut self.made, text)?;
        let rest = fallible_alloc::copied(self.alloc, rest)?;
        self.held = rest;
        Ok(())
    }
}

// Appends text after this byte, with links around addresses; returns the byte before more text.
fn push_linked(made: &mut Vec<u8>, previous: u8, text: &[u8]) -> Result<u8, AllocError>
    ensures { OnOk result
        (length made.new.items ≤ length made.old.items + 4 * length text.now) }
{
    let mut last = previous;
    let mut rest = text;
    while let Some(place) = first_address(rest, last) {
        push_first(made, place, rest)?;
        last = b' ';
        rest = &rest[place.begin + place.length..];
    }
    fallible_alloc::extend(made, rest)?;
    Ok(last_of(rest, last))
}

// Returns the last byte of a text after this byte.
fn last_of(text: &[u8], previous: u8) -> u8 {
    match text.last() {
        Some(byte) => *byte,
        None => previous,
    }
}

// Appends text up to the end of the address at this place, as a link.
fn push_first(made: &mut Vec<u8>, place: Place, text: &[u8]) -> Result<(), AllocError>
    requires within { place.begin + place.length ≤ length text.now }
    requires long { 7 < place.length }
    ensures { OnOk result (length made.new.items
        ≤ length made.old.items + 4 * (place.begin + place.length)) }
{
    let (before, rest) = text.split_at(place.begin);
    fallible_alloc::extend(made, before)?;
    push_link(made, &rest[..place.length])
}

// Appends a link to an address, with the address as its text.
fn push_link(made: &mut Vec<u8>, address: &[u8]) -> Result<(), AllocError>
    ensures { OnOk result
        (length made.new.items ≡ length made.old.items + (2 * length address.now + 14)) }
{
    fallible_alloc::extend(made, b"\x1b]8;;")?;
    fallible_alloc::extend(made, address)?;
    fallible_alloc::extend(made, b"\x1b\\")?;
    fallible_alloc::extend(made, address)?;
    fallible_alloc::extend(made, b"\x1b]8;;\x1b\\")
}

// Returns how many bytes come first that may be in an address.
fn word_length(text: &[u8]) -> usize
    ensures { result ≤ length text.now }
{
    let mut count = 0usize;
    for byte in text {
        if !is_address_byte(*byte) {
            break;
        }
        count = count.saturating_add(1);
    }
    count.min(text.len())
}

// Returns the beginning of the bytes at the end of a text that may be in an address.
fn run_start(text: &[u8]) -> usize
    ensures { result ≤ length text.now }
{
    let mut count = 0usize;
    for byte in text.iter().rev() {
        if !is_address_byte(*byte) {
            break;
        }
        count = count.saturating_add(1);
    }
    text.len().saturating_sub(count)
}

// Returns the beginning of the bytes at the end of a text that may be in an address, from the first
// letter on that its scheme may begin with, among those that may be the run of an address.
fn word_start(text: &[u8]) -> usize
    ensures { result ≤ length text.now }
{
    let mut start = text.len();
    let mut rest = text;
    while let Some((last, before)) = rest.split_last() {
        if !is_address_byte(*last) || MOST_RUN < text.len().saturating_sub(rest.len()) {
            return start;
        }
        if *last == b'h' || *last == b'H' {
            start = before.len();
        }
        rest = before;
    }
    start
}

// The segments of a stream.
#[derive(Drop)]
struct Segments {
    encoding: Encoding,
    sieve: Sieve,
    framer: VTParser,
    links: Links,
}

impl Segments {
    // Follows a segment up to its end; returns the number of these bytes.
    fn follow(&mut self, bytes: &[u8]) -> Result<usize, AllocError> {
        let mut n = 0usize;
        for byte in bytes {
            n = n.saturating_add(1);
            let seen = self.sieve.take(*byte);
            if self.framer.parse(&[seen], &mut self.links).is_err() {
                return Err(AllocError);
            }
            if self.framer.is_ground() {
                break;
            }
        }
        Ok(n)
    }
}

// Says whether a link of the stream is open.
#[derive(Drop)]
struct Links {
    is_on: bool,
}

impl VTActor for Links {
    ghost takes = { λ _ _ _. Unit {0} };

    ghost refuses = { λ _ _ _. ⊥ };

    ghost is_ready = { λ _. Unit {0} };

    ghost may = { λ _ _. Unit {0} };

    fn print(&mut self, _c: char) -> Result<(), AllocError> {
        Ok(())
    }

    fn execute_c0_or_c1(&mut self, _control: u8) -> Result<(), AllocError> {
        Ok(())
    }

    fn dcs_hook(
        &mut self,
        _byte: u8,
        _params: &[i64],
        _intermediates: &[u8],
        _ignored_extra_intermediates: bool,
    ) -> Result<(), AllocError> {
        Ok(())
    }

    fn dcs_put(&mut self, _byte: u8) -> Result<(), AllocError> {
        Ok(())
    }

    fn dcs_unhook(&mut self) -> Result<(), AllocError> {
        Ok(())
    }

    fn esc_dispatch(
        &mut self,
        _params: &[i64],
        _intermediates: &[u8],
        _ignored_extra_intermediates: bool,
        _byte: u8,
    ) -> Result<(), AllocError> {
        Ok(())
    }

    fn csi_dispatch(
        &mut self,
        _params: &[CsiParam],
        _parameters_truncated: bool,
        _byte: u8,
    ) -> Result<(), AllocError> {
        Ok(())
    }

    fn osc_dispatch(&mut self, params: &[&[u8]]) -> Result<(), AllocError> {
        if let [number, _, address, ..] = params {
            if *number == b"8".as_slice() {
                self.is_on = !address.is_empty();
            }
        }
        Ok(())
    }

    fn apc_dispatch(&mut self, _text: &[u8]) -> Result<(), AllocError> {
        Ok(())
    }
}
