//! Readers and writers that remember a failure.
ghost use Rattle.std.specs.Prelude.{◌≡◌, false, ◌||◌, is_err, length, OnOk, Ok, IsTrue, IsErr, ◌⊎◌, ◌<◌, ◌↔◌};
ghost use Rattle.std.specs.Io.{ReadsAtMost, WritesAtMost};
ghost use Rattle.std.specs.Io.KnownBytes.{ReadConsumes, WriteAppends, Keeps, Appends, Consumes};

use std::io;
use std::io::{Read, Write};

/// A reader or a writer around another, which remembers whether a call has failed. It passes each
/// call on and returns the result of the inner call.
#[derive(Drop)]
pub struct Watched<T> {
    inner: T,
    failed: bool,
}

impl<T> Watched<T> {
    ghost use Rattle.esc_normal.specs.Io.{has_failed, inner_of};

    /// Returns a reader or a writer around `inner` that has not failed.
    pub fn new(inner: T) -> Watched<T>
        ensures inner { inner_of result ≡ inner }
        ensures failed { has_failed result ≡ false }
    {
        Watched {
            inner,
            failed: false,
        }
    }

    /// Returns the inner reader or writer.
    pub fn into_inner(self) -> T
        ensures { result ≡ inner_of self }
    {
        let Watched { inner, failed: _ } = self;
        inner
    }

    /// Returns whether a call has returned an error, or a `write` of at least one byte has returned
    /// 0.
    pub fn failed(&self) -> bool
        ensures { result ≡ has_failed self.now }
    {
        self.failed
    }
}

impl<W: Write> Watched<W> {
    ghost use Rattle.esc_normal.specs.Io.{Writes, WritesPrefix, has_failed};

    /// Writes all of the bytes, in as many calls as the inner writer needs, and returns whether it
    /// took them. If it returns false the inner writer took a prefix of them, and has failed.
    pub fn write_whole(&mut self, bytes: &[u8]) -> bool
        ensures whole { IsTrue result → Writes W.Write bytes.now self }
        ensures beginning { result ≡ false → WritesPrefix W.Write bytes.now self }
        ensures emitted { has_failed self.old ≡ false
            → (result ≡ false ↔ IsTrue (has_failed self.new)) }
    {
        let mut rest = bytes;
        while !rest.is_empty() {
            match self.write(rest) {
                Ok(0) => return false,
                Ok(n) => rest = &rest[n..],
                Err(_) => return false,
            }
        }
        true
    }
}

/// Reads from the inner reader.
impl<R: Read> Read for Watched<R> {
    ghost remaining = { λ w. R.remaining w.inner };

    fn read(&mut self, buf: &mut [u8]) -> io::Result<usize>
        ensures bound { ReadsAtMost result buf.new }
        ensures bytes { ReadConsumes (R.remaining self.old.inner)
            (R.remaining self.new.inner) result buf.new }
        ensures emitted { self.new.failed ≡ self.old.failed || is_err result }
    {
        let result = self.inner.read(buf);
        if result.is_err() {
            self.failed = true;
        }
        result
    }

    fn read_exact(&mut self, buf: &mut [u8]) -> io::Result<()>
        ensures bytes { OnOk result (Consumes (R.remaining self.old.inner)
            (R.remaining self.new.inner) buf.new) }
        ensures emitted { self.new.failed ≡ self.old.failed || is_err result }
    {
        let result = self.inner.read_exact(buf);
        if result.is_err() {
            self.failed = true;
        }
        result
    }
}

/// Writes to the inner writer.
impl<W: Write> Write for Watched<W> {
    ghost contents = { λ w. W.contents w.inner };

    fn write(&mut self, buf: &[u8]) -> io::Result<usize>
        ensures bound { WritesAtMost result buf.now }
        ensures bytes { WriteAppends (W.contents self.old.inner)
            (W.contents self.new.inner) result buf.now }
        ensures emitted { IsTrue self.new.failed
            ↔ (IsTrue self.old.failed ⊎ (IsErr result ⊎ ((result ≡ Ok 0) × (0 < length buf.now)))) }
    {
        let result = self.inner.write(buf);
        match &result {
            Ok(0) if !buf.is_empty() => self.failed = true,
            Ok(_) => {}
            Err(_) => self.failed = true,
        }
        result
    }

    fn flush(&mut self) -> io::Result<()>
        ensures bytes { Keeps (W.contents self.old.inner) (W.contents self.new.inner) }
        ensures emitted { self.new.failed ≡ self.old.failed || is_err result }
    {
        let result = self.inner.flush();
        if result.is_err() {
            self.failed = true;
        }
        result
    }

    fn write_all(&mut self, buf: &[u8]) -> io::Result<()>
        ensures bytes { OnOk result (Appends (W.contents self.old.inner)
            (W.contents self.new.inner) buf.now) }
        ensures emitted { self.new.failed ≡ self.old.failed || is_err result }
    {
        let result = self.inner.write_all(buf);
        if result.is_err() {
            self.failed = true;
        }
        result
    }
}
