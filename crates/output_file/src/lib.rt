//! The standard streams of a program: which file its output is, and those without which it was
//! started.
#![tactic(auto)]

mod closed;

pub use closed::open_closed;
use std::fs::{Files, Metadata, metadata};
use std::io;
use std::os::unix::fs::MetadataExt;

/// The message about a file that a program does not read since standard output is that file.
pub const IS_OUTPUT: &str = "the output is this file";

/// Returns whether standard output is the regular file with this metadata. The program would read
/// its own output, with no end.
///
/// It is not, if nothing is known of one of them; standard output is known by the system's answer
/// about `/dev/stdout`.
pub fn is_output<F: Files>(files: &F, input: io::Result<Metadata>) -> bool {
    let Ok(input) = input else {
        return false;
    };
    let Ok(output) = metadata(files, "/dev/stdout") else {
        return false;
    };
    input.is_file() && input.dev() == output.dev() && input.ino() == output.ino()
}
