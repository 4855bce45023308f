//! The targets of symbolic links.

use std::fs::{Files, Metadata, metadata, read_link, symlink_metadata};
use std::io;
use std::io::ErrorKind;
use std::os::unix::fs::MetadataExt;

// Says how many links are followed, one after another: as many as Linux follows.
const LINKS: u32 = 40;

// Linux's number of ELOOP.
const TOO_MANY_LINKS: i32 = 40;

/// Returns the name that this one leads to: itself, or for a symbolic link the name that it leads
/// to, and so on. There may be no file of it. A name in `/dev/fd` or `/proc/self/fd` is a stream's,
/// and leads to no other. The error is that of the system, or that more than 40 links were
/// followed.
pub fn led_to<R: Files + AllocGlobal>(rt: &R, name: &str) -> io::Result<String> {
    let mut place = String::from_str(rt.alloc(), name)?;
    for _ in 0..=LINKS {
        if is_descriptor(place.as_str()) {
            return Ok(place);
        }
        match step(rt, place.as_str())? {
            Some(further) => place = further,
            None => return Ok(place),
        }
    }
    Err(io::Error::from_raw_os_error(TOO_MANY_LINKS))
}

/// Returns whether this is the name of an open descriptor.
pub fn is_descriptor(name: &str) -> bool {
    name.starts_with("/dev/fd/") || name.starts_with("/proc/self/fd/")
}

/// Returns whether both are names of one regular file, or of one that is not there yet: the names
/// that links lead to are in one folder, and have the same last part.
pub fn are_one<R: Files + AllocGlobal>(rt: &R, one: &str, other: &str) -> bool {
    match (metadata(rt, one), metadata(rt, other)) {
        (Ok(one), Ok(other)) => one.is_file() && is_same(&one, &other),
        (Err(_), Err(_)) => one == other || are_one_place(rt, one, other),
        (Ok(_), Err(_)) | (Err(_), Ok(_)) => false,
    }
}

// Returns whether these are of one file.
fn is_same(one: &Metadata, other: &Metadata) -> bool {
    one.dev() == other.dev() && one.ino() == other.ino()
}

// Returns whether both names lead to one place in a folder.
fn are_one_place<R: Files + AllocGlobal>(rt: &R, one: &str, other: &str) -> bool {
    match (led_to(rt, one), led_to(rt, other)) {
        (Ok(one), Ok(other)) => are_beside(rt, one.as_str(), other.as_str()),
        _ => false,
    }
}

// Returns whether both names have the same last part, and their folders are one.
fn are_beside<R: Files>(files: &R, one: &str, other: &str) -> bool {
    let (folder, last) = parts(one);
    let (other_folder, other_last) = parts(other);
    last == other_last && are_one_folder(files, folder, other_folder)
}

// Returns whether both are names of one folder.
fn are_one_folder<R: Files>(files: &R, one: &str, other: &str) -> bool {
    match (metadata(files, one), metadata(files, other)) {
        (Ok(one), Ok(other)) => is_same(&one, &other),
        _ => false,
    }
}

// Returns the folder that a name is in, and its last part.
fn parts(name: &str) -> (&str, &str) {
    match name.rsplit_once('/') {
        Some(("", last)) => ("/", last),
        Some(parts) => parts,
        None => (".", name),
    }
}

// Returns the name that the link of this name leads to. None, if it is no link, or there is no
// file.
fn step<R: Files + AllocGlobal>(rt: &R, name: &str) -> io::Result<Option<String>> {
    match symlink_metadata(rt, name) {
        Ok(known) if known.is_symlink() => {
            let target = read_link(rt, name)?;
            Ok(Some(joined(rt, name, target.as_str())?))
        }
        Ok(_) => Ok(None),
        Err(error) if error.kind() == ErrorKind::NotFound => Ok(None),
        Err(error) => Err(error),
    }
}

// Returns the name of the target of the link of this name, which is beside the link.
fn joined<R: AllocGlobal>(rt: &R, name: &str, target: &str) -> io::Result<String> {
    if target.starts_with('/') {
        return Ok(String::from_str(rt.alloc(), target)?);
    }
    match name.rsplit_once('/') {
        Some((folder, _)) => Ok(format!(in rt.alloc(); "{folder}/{target}")?),
        None => Ok(String::from_str(rt.alloc(), target)?),
    }
}
