//! A log, up to each image in it.

use crate::carried::Carried;
use crate::commands::{Command, Loss, Unfinished, continues_image, image_command, sixel_command};
use crate::files::{PROPRIETARY, Parts, continues_file, file_command};
use crate::found::{Found, Kind, found_in, shows};
use crate::linking::copied;
use crate::picture::Picture;
use esc_decode::Encoding;
use std::alloc::{AllocError, Global};
use std::io;
use std::io::Read;

// Says how many bytes are read at once.
const BYTES: usize = 8192;

/// Says how many images of a stream are left out.
#[derive(Clone, Copy)]
pub struct LeftOut {
    /// Those with more bytes than the limit.
    pub large: u64,
    /// Those whose last part did not come.
    pub unfinished: u64,
    /// Those that are no PNG, JPEG or GIF, and no pixels, or of too many pixels.
    pub others: u64,
}

impl LeftOut {
    /// Returns counts of no image.
    pub fn new() -> LeftOut {
        LeftOut {
            large: 0,
            unfinished: 0,
            others: 0,
        }
    }

    /// Returns the sums of these, and of those of another part of the stream.
    pub fn and(self, more: LeftOut) -> LeftOut {
        LeftOut {
            large: self.large.saturating_add(more.large),
            unfinished: self.unfinished.saturating_add(more.unfinished),
            others: self.others.saturating_add(more.others),
        }
    }
}

/// Reads the stream of another reader, up to a command with an image: a file of iTerm2 that is
/// shown or an image of kitty that is transmitted and displayed, in one command or in more, or
/// sixels. [`picture`](Pictures::picture) has it then, and the next read begins after it, in the
/// renditions that hold there.
///
/// It keeps a command, but at most the limit and the bytes of one read, and an image whose parts
/// come one after another, at most the limit. If no images are asked for, it reads the stream of
/// the other reader.
#[derive(Drop)]
pub struct Pictures<R> {
    inner: R,
    is_on: bool,
    alloc: Global,
    encoding: Encoding,
    limit: usize,
    // the bytes that were read, and the number of those that were handed out
    kept: Vec<u8>,
    at: usize,
    has_ended: bool,
    // so many bytes come first in which no command begins
    plain: usize,
    // so many were looked through for the end of a command
    seen: usize,
    ready: Option<Picture>,
    // the file and the image that are unfinished
    parts: Option<Parts>,
    unfinished: Option<Unfinished>,
    left_out: LeftOut,
    carried: Carried,
}

impl<R: Read> Pictures<R> {
    /// Returns a reader of the stream of this one, in this encoding, from its beginning; up to each
    /// image, or not. Takes no memory.
    pub fn new(
        alloc: Global,
        encoding: Encoding,
        limit: usize,
        is_on: bool,
        inner: R,
    ) -> Pictures<R> {
        Pictures {
            inner,
            is_on,
            alloc,
            encoding,
            limit,
            kept: Vec::new(alloc),
            at: 0,
            has_ended: false,
            plain: 0,
            seen: 0,
            ready: None,
            parts: None,
            unfinished: None,
            left_out: LeftOut::new(),
            carried: Carried::new(alloc, encoding),
        }
    }

    /// Takes the image that comes next, if one does.
    pub fn picture(&mut self) -> io::Result<Option<Picture>> {
        self.prepare()?;
        let picture = self.ready.take();
        if picture.is_some() {
            self.carry_on()?;
        }
        Ok(picture)
    }

    /// Returns whether text comes next.
    pub fn has_text(&mut self) -> io::Result<bool> {
        self.prepare()?;
        Ok(self.ready.is_none() && 0 < self.plain)
    }

    /// Returns how many images were left out so far.
    pub fn left_out(&self) -> LeftOut {
        self.left_out
    }

    // Begins the next text with the renditions that hold.
    fn carry_on(&mut self) -> Result<(), AllocError> {
        let text = self.carried.text(self.alloc)?;
        let mut kept = fallible_alloc::copied(self.alloc, text.as_bytes())?;
        fallible_alloc::extend(&mut kept, self.rest())?;
        self.kept = kept;
        self.at = 0;
        self.plain = text.len();
        Ok(())
    }

    // Reads until it is known whether text comes next or an image, or nothing.
    fn prepare(&mut self) -> io::Result<()> {
        for _ in 0..u64::MAX {
            if self.ready.is_some() || 0 < self.plain {
                return Ok(());
            }
            if self.rest().is_empty() && self.has_ended {
                return Ok(());
            }
            self.look()?;
        }
        Ok(())
    }

    // Looks at the next part, and reads more if that is not known.
    fn look(&mut self) -> io::Result<()> {
        let (found, seen) = found_in(
            self.rest(),
            self.encoding,
            self.limit,
            self.seen,
            self.has_ended,
        );
        self.seen = seen;
        match found {
            Found::Text(length) => self.plain = length,
            Found::Large(kind, from, length) => {
                let is_unfinished = self.give_up(kind);
                if shows(kind, self.between(from, length), is_unfinished) {
                    self.lose(Loss::Large);
                } else {
                    self.lose_unfinished(is_unfinished);
                }
                self.plain = length;
            }
            Found::Command {
                kind,
                from,
                to,
                length,
            } => {
                let command = self.command(kind, from, to)?;
                self.take(command, length);
            }
            Found::More => self.refill()?,
        }
        Ok(())
    }

    // Returns the command of this kind that lies from one place to another.
    fn command(&mut self, kind: Kind, from: usize, to: usize) -> Result<Command, AllocError> {
        match kind {
            Kind::File => {
                let mut parts = self.parts.take();
                let breaks_off = parts.is_some();
                let text = self.between(from.saturating_add(PROPRIETARY.len()), to);
                let breaks_off = breaks_off && !continues_file(text);
                let command = file_command(self.alloc, &mut parts, self.limit, text)?;
                self.parts = parts;
                self.lose_unfinished(breaks_off);
                Ok(command)
            }
            Kind::Image => {
                let mut unfinished = self.unfinished.take();
                let breaks_off = unfinished.is_some();
                let text = self.between(from, to);
                let command = image_command(self.alloc, &mut unfinished, self.limit, text)?;
                let breaks_off = breaks_off && !continues_image(text, &command);
                self.unfinished = unfinished;
                self.lose_unfinished(breaks_off);
                Ok(command)
            }
            Kind::Sixels => sixel_command(self.alloc, self.between(from, to)),
        }
    }

    // Takes a command of this length.
    fn take(&mut self, command: Command, length: usize) {
        match command {
            Command::Shows(picture) => {
                self.ready = Some(picture);
                self.at = self.at.saturating_add(length);
            }
            Command::Part if self.carried.is_ground() => self.at = self.at.saturating_add(length),
            // (it ends the string that is unfinished before it)
            Command::Part => self.plain = length,
            Command::Lost(loss) => {
                self.lose(loss);
                self.plain = length;
            }
            Command::Other => self.plain = length,
        }
    }

    // Gives up the image of this kind that is unfinished; whether there was one.
    fn give_up(&mut self, kind: Kind) -> bool {
        match kind {
            Kind::File => self.parts.take().is_some(),
            Kind::Image => self.unfinished.take().is_some(),
            Kind::Sixels => false,
        }
    }

    // Counts an image that is left out.
    fn lose(&mut self, loss: Loss) {
        match loss {
            Loss::Large => self.left_out.large = self.left_out.large.saturating_add(1),
            Loss::Other => self.left_out.others = self.left_out.others.saturating_add(1),
        }
    }

    // Counts an image whose last part does not come, if it is so.
    fn lose_unfinished(&mut self, is_so: bool) {
        if is_so {
            self.left_out.unfinished = self.left_out.unfinished.saturating_add(1);
        }
    }

    // Returns the bytes that were read and not handed out.
    fn rest(&self) -> &[u8] {
        let at = self.at.min(self.kept.len());
        &self.kept.as_slice()[at..]
    }

    // Returns the bytes of it from one place to another.
    fn between(&self, from: usize, to: usize) -> &[u8] {
        self.rest().get(from..to).unwrap_or(b"")
    }

    // Reads more, after the bytes that were not handed out.
    fn refill(&mut self) -> io::Result<()> {
        let mut bytes = [0; BYTES];
        let count = self.inner.read(&mut bytes)?;
        match bytes.get(..count) {
            Some(read) if count > 0 => Ok(self.keep(read)?),
            _ => {
                self.end();
                Ok(())
            }
        }
    }

    // Takes the end of the stream, at which an image that is unfinished is lost.
    fn end(&mut self) {
        self.has_ended = true;
        for kind in [Kind::File, Kind::Image] {
            let was_unfinished = self.give_up(kind);
            self.lose_unfinished(was_unfinished);
        }
    }

    fn keep(&mut self, bytes: &[u8]) -> Result<(), AllocError> {
        if 0 < self.at {
            self.kept = fallible_alloc::copied(self.alloc, self.rest())?;
            self.at = 0;
        }
        fallible_alloc::extend(&mut self.kept, bytes)
    }
}

impl<R: Read> Read for Pictures<R> {
    fn read(&mut self, buf: &mut [u8]) -> io::Result<usize> {
        if !self.is_on {
            return self.inner.read(buf);
        }
        if buf.is_empty() || !self.has_text()? {
            return Ok(0);
        }
        let rest = self.rest();
        let text = rest.get(..self.plain).unwrap_or(rest);
        let count = copied(text, buf).min(buf.len());
        self.carried.take(&buf[..count]);
        self.plain = self.plain.saturating_sub(count);
        self.at = self.at.saturating_add(count);
        Ok(count)
    }
}
