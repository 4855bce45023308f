//! Files that take the place of others once they are whole, and the output of a program that is
//! given the name of a file.
#![tactic(auto)]

mod fault;
mod links;
mod output;
mod stream;

use command_line::Reason;
pub use fault::FileFault;
pub use links::are_one;
use links::{is_descriptor, led_to};
pub use output::Output;
use std::alloc::AllocError;
use std::fs::{Files, Metadata, OpenFile, OpenOptions, hard_link, metadata, remove_file, rename};
use std::io;
use std::io::ErrorKind;
use std::os::unix::fs::{MetadataExt, OpenOptionsExt, chown};
pub use stream::Stream;

// The permissions of a file that takes the place of none, less those that the process masks; and of
// one that does, until it has those of the other.
const MODE: u32 = 0o666;

const OWN_MODE: u32 = 0o600;

/// A new file in the folder of the one whose place it is to take.
#[derive(Drop)]
pub struct NewFile<R: Files + AllocGlobal> {
    /// The text that is written goes here.
    pub file: R::File,
    name: String,
    place: String,
}

impl<R: Files + AllocGlobal> NewFile<R> {
    /// Returns a new file that is to take the place of the one of this name, with its permissions,
    /// and with its owner if the system lets it. If the name is that of a link, the file that the
    /// link leads to is meant. Until then its name is the other's with a number and `suffix`, as
    /// `.0.escfilter`.
    ///
    /// The error says why there can be none: there is no file of this name, it is a folder or no
    /// regular file, or the system refuses it.
    pub fn in_place_of(rt: &R, name: &str, suffix: &str) -> Result<NewFile<R>, FileFault<'static>> {
        let place = led_to(rt, name)?;
        let known = metadata(rt, place.as_str())?;
        if known.is_dir() {
            return Err(FileFault::folder());
        }
        if !known.is_file() || is_descriptor(place.as_str()) {
            return Err(FileFault::NotRegular);
        }
        Ok(NewFile::over(rt, place.as_str(), &known, suffix)?)
    }

    /// Does the same for a regular file with this metadata, whose name is that of no link. The
    /// error is that the system refuses it.
    pub fn over(rt: &R, place: &str, known: &Metadata, suffix: &str) -> io::Result<NewFile<R>> {
        let new = created(rt, place, suffix, OWN_MODE)?;
        match new.become_as(rt, known) {
            Ok(()) => Ok(new),
            Err(error) => {
                new.give_up(rt);
                Err(error)
            }
        }
    }

    /// Returns a new file that is to take this place, in which there is none. The error is that the
    /// system refuses it.
    pub fn at(rt: &R, place: &str, suffix: &str) -> io::Result<NewFile<R>> {
        created(rt, place, suffix, MODE)
    }

    // Gives it the owner, if the system lets it, and the permissions of a file.
    fn become_as(&self, rt: &R, known: &Metadata) -> io::Result<()> {
        let _ = chown(rt, self.name.as_str(), Some(known.uid()), Some(known.gid()));
        self.file.set_permissions(known.permissions())
    }

    /// Puts it in its place if it is whole, once its content is on the disk, and keeps the old file
    /// under its name with this suffix, if there is one. At each moment there is a file of its
    /// name, the old one or this.
    ///
    /// If it is not whole, or after an error, it is removed, and the file of its place stays as it
    /// is. The error says why: there is a file with the suffix already, or the system refuses it.
    pub fn end<'a>(self, rt: &R, suffix: &'a str, is_whole: bool) -> Result<(), FileFault<'a>> {
        if !is_whole {
            self.give_up(rt);
            return Ok(());
        }
        let placed = self.take_place(rt, suffix);
        if placed.is_err() {
            self.give_up(rt);
        }
        placed
    }

    // Puts it in its place, once its content is on the disk. After an error nothing has changed.
    fn take_place<'a>(&self, rt: &R, suffix: &'a str) -> Result<(), FileFault<'a>> {
        self.file.sync_all()?;
        if suffix.is_empty() {
            return Ok(rename(rt, self.name.as_str(), self.place.as_str())?);
        }
        let kept = self.keep_old(rt, suffix)?;
        let placed = rename(rt, self.name.as_str(), self.place.as_str());
        if placed.is_err() {
            let _ = remove_file(rt, kept.as_str());
        }
        Ok(placed?)
    }

    // Gives the file of its place a second name, that one with this suffix, and returns it.
    fn keep_old<'a>(&self, rt: &R, suffix: &'a str) -> Result<String, FileFault<'a>> {
        let kept = name_kept(rt, self.place.as_str(), suffix)?;
        match hard_link(rt, self.place.as_str(), kept.as_str()) {
            Ok(()) => Ok(kept),
            Err(error) if error.kind() == ErrorKind::AlreadyExists => {
                Err(FileFault::IsThere(suffix))
            }
            Err(error) => Err(FileFault::NotKept(Reason::of(&error))),
        }
    }

    // Removes it.
    fn give_up(self, rt: &R) {
        let _ = remove_file(rt, self.name.as_str());
    }
}

/// Returns whether [`NewFile::end`] with this suffix, which is not empty, gives the old file of the
/// first name the second one.
pub fn is_kept_as<R: Files + AllocGlobal>(rt: &R, name: &str, suffix: &str, kept: &str) -> bool {
    match led_to(rt, name) {
        Ok(place) => is_name_kept(rt, place.as_str(), suffix, kept),
        Err(_) => false,
    }
}

// Does the same for the name of a file that is no link.
fn is_name_kept<R: Files + AllocGlobal>(rt: &R, place: &str, suffix: &str, kept: &str) -> bool {
    match name_kept(rt, place, suffix) {
        Ok(name) => are_one(rt, name.as_str(), kept),
        Err(_) => false,
    }
}

// Returns the name under which the old file of this place is kept.
fn name_kept<R: AllocGlobal>(rt: &R, place: &str, suffix: &str) -> Result<String, AllocError> {
    format!(in rt.alloc(); "{place}{suffix}")
}

// Returns a new file beside this place, with these permissions. Its number is the first that is
// free: a program that a signal ended has left its file.
fn created<R: Files + AllocGlobal>(
    rt: &R,
    place: &str,
    suffix: &str,
    mode: u32,
) -> io::Result<NewFile<R>> {
    let place = String::from_str(rt.alloc(), place)?;
    for number in 0..u32::MAX {
        let name = format!(in rt.alloc(); "{place}.{number}{suffix}")?;
        match open_new(rt, name.as_str(), mode) {
            Ok(file) => return Ok(NewFile { file, name, place }),
            Err(error) if error.kind() == ErrorKind::AlreadyExists => {}
            Err(error) => return Err(error),
        }
    }
    Err(io::Error::from(ErrorKind::AlreadyExists))
}

// Opens a file of this name, which there is none of yet.
fn open_new<R: Files>(rt: &R, name: &str, mode: u32) -> io::Result<R::File> {
    OpenOptions::new()
        .write(true)
        .create_new(true)
        .mode(mode)
        .open(rt, name)
}
