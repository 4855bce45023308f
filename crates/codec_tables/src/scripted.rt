//! A reader and a writer whose calls end as they are told.
use std::io;
use std::io::{ErrorKind, Read, Write};

/// A reader and a writer whose calls end as they are told, one after another, and with `Ok(1)` once
/// nothing more is told.
#[derive(Drop)]
pub struct Scripted<'a> {
    /// A letter for each error of the calls, in turn: `i` interrupted, `f` storage that is full,
    /// `p` a broken pipe.
    pub errors: &'a [u8],
    /// Says how many calls have been made.
    pub calls: usize,
    /// Says how many of these were flushes.
    pub flushes: usize,
}

/// Returns whose calls end with these errors, and to which nothing came yet.
pub fn with_errors(errors: &[u8]) -> Scripted<'_> {
    Scripted {
        errors,
        calls: 0,
        flushes: 0,
    }
}

fn error_of(letter: u8) -> ErrorKind {
    match letter {
        b'i' => ErrorKind::Interrupted,
        b'f' => ErrorKind::StorageFull,
        b'p' => ErrorKind::BrokenPipe,
        _ => ErrorKind::Other,
    }
}

impl Scripted<'_> {
    // Says how the next call ends.
    fn next(&mut self) -> io::Result<()> {
        self.calls = self.calls.wrapping_add(1);
        match self.errors.split_first() {
            Some((letter, errors)) => {
                self.errors = errors;
                Err(io::Error::from(error_of(*letter)))
            }
            None => Ok(()),
        }
    }
}

impl Read for Scripted<'_> {
    fn read(&mut self, buf: &mut [u8]) -> io::Result<usize> {
        self.next()?;
        b"a".as_slice().read(buf)
    }
}

impl Write for Scripted<'_> {
    fn write(&mut self, buf: &[u8]) -> io::Result<usize> {
        self.next()?;
        Ok(buf.len().min(1))
    }

    fn flush(&mut self) -> io::Result<()> {
        self.flushes = self.flushes.wrapping_add(1);
        self.next()
    }
}
